//! A faithful network kills nobody.

ghost use Rattle.std.specs.Prelude.{◌++◌, ◌∷◌, [], ℕ, List};
ghost use Rattle.ssh_model.specs.declared.side.Side.{Side};
ghost use Rattle.ssh_model.specs.declared.side.Side.TheVariants.{Client, Server};
ghost use Rattle.ssh_model.specs.Protocol.Wire.Line.{line_end};
ghost use Rattle.ssh_model.specs.Protocol.Sessions.Events.{Event, Event.Delivers, IsFirst, Plays, PutsOut, World};
ghost use Rattle.ssh_model.specs.Protocol.Sessions.Faithful.{Carries, HasVersion, IsCarried, IsFaithful, IsUnderWay, KillsNobody, Network};
ghost use Rattle.ssh_model.specs.Protocol.Sessions.Faithful.{PutsSince, SparesAll, TakesOff};
ghost use Rattle.ssh_model.specs.Protocol.Sessions.Honest.{IsHonest};
ghost use Rattle.ssh_model.specs.Protocol.Sessions.Items.{Done, Item};
ghost use Rattle.ssh_model.specs.Protocol.Sessions.Parties.{AreLawful, BothOffer, Parties};
ghost use Rattle.ssh_model.specs.Protocol.Sessions.Turns.{Run};
ghost use Rattle.ssh_model.specs.Example.Toys.{toy};
ghost use Rattle.ssh_model.specs.Example.Histories.{line_of};
ghost use Rattle.ssh_model.specs.Example.Run.{d1, d2, session};
ghost use Rattle.ssh_model.specs.Example.PlainRun.{plain_session};

/// If each payload that an end opens is the next that the other end sent, neither end refuses a payload but for a reason that lies in
/// the two ends. This needs no honest run.
pub fn kills_nobody<K>()
    ensures { (p : Parties K) → AreLawful p → (run : List Done) → Run p run → IsFaithful run → KillsNobody run }
{}

/// Two ends open, and each byte that is delivered is the next that the other end put out. If the run is honest, both ends offer strict
/// key exchange, and each takes the version line of the other, then each payload that an end opens is the next that the other sent.
/// Neither end refuses the other, a line or a packet, but for a reason that lies in the two ends.
pub fn spares_all<K>()
    ensures faithful { (p : Parties K) → AreLawful p → BothOffer p → ((side : Side) → HasVersion p side) → (first last : World)
        (network after : Network) (events : List Event) → IsFirst p first → IsUnderWay p first network →
        Carries p first network events last after → IsHonest p last.run → IsFaithful last.run }
    ensures spared { (p : Parties K) → AreLawful p → BothOffer p → ((side : Side) → HasVersion p side) → (first last : World)
        (network after : Network) (events : List Event) → IsFirst p first → IsUnderWay p first network →
        Carries p first network events last after → IsHonest p last.run → SparesAll last.run }
{}

/// Events over a faithful network are events of two ends, and what an end put out since some history follows what it had put out
/// before.
pub fn carried_plays<K>()
    ensures plays { (p : Parties K) → (first last : World) (network after : Network) (events : List Event) →
        Carries p first network events last after → Plays p first events last }
    ensures follows { (p : Parties K) → (side : Side) (history last : List Item) (bytes more : List ℕ) → PutsOut p side history bytes →
        PutsSince p side history last more → PutsOut p side last (bytes ++ more) }
{}

/// The run of the toys is one over a faithful network, so neither toy refuses the other. The plain run, in which a packet is lost, is none.
pub fn faithful_example()
    ensures faithful { IsFaithful session }
    ensures kills_nobody { KillsNobody session }
    ensures lossy { IsFaithful plain_session → ⊥ }
{}

/// The line of the server comes to the client. The second of two bytes does not come before the first.
pub fn carried_example()
    ensures line { IsCarried toy (record { run = d1; client_rest = []; server_rest = [] })
        (record { to_client = line_of Server ++ line_end; to_server = [] }) (Delivers Client (line_of Server ++ line_end))
        (record { run = d2; client_rest = []; server_rest = [] }) (record { to_client = []; to_server = [] }) }
    ensures not_moved { (left : Network) → TakesOff (record { to_client = 1 ∷ 2 ∷ []; to_server = [] }) (Delivers Client (2 ∷ [])) left →
        ⊥ }
{}
