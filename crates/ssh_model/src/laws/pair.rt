//! Laws of two ends of a session, by the states of both: from a turn of one end to an event, and to a play of events.
//!
//! # What two ends have to meet
//!
//! The laws about two ends speak of `PairSumsUp p world`. `pair::openings` is where they begin. `pair::turns_are_events` makes a turn of
//! one end, or a delivery to it, an event of both. `pair::plays_go_on` puts that event after a play. A delivery is either that of
//! `end::deliveries` (`delivers`), or one in a run of both, of which the end did these items (`delivered`). For the second kind
//! `pair::deliveries` puts a unit in front (`unit`, with `waits` and `dead` at the end). `pair::items_stay_on_one_side` says that the items
//! of one end add to its part of the run and leave the part of the other. `PairSumsUp` holds the run that the claims of `session` speak of.

ghost use Rattle.std.specs.Prelude.{◌≡◌, ◌++◌, ℕ, List, [], ◌∷◌, true, false};
ghost use Rattle.ssh_model.specs.declared.side.Side.{Side};
ghost use Rattle.ssh_model.specs.declared.side.Side.TheVariants.{Client, Server};
ghost use Rattle.ssh_model.specs.Protocol.Side.{done_by, part, peer};
ghost use Rattle.ssh_model.specs.Protocol.Wire.Delivery.{Delivered, Waits};
ghost use Rattle.ssh_model.specs.Protocol.Sessions.Parties.{Parties};
ghost use Rattle.ssh_model.specs.Protocol.Sessions.Items.{Ask, Done, Item};
ghost use Rattle.ssh_model.specs.Protocol.Sessions.Turns.{AsksTurn, FeedsTurn, OnUnit};
ghost use Rattle.ssh_model.specs.Protocol.Sessions.Events.{Event, Event.Asks, Event.Delivers, Event.Feeds, OnEvent, Plays, World};
ghost use Rattle.ssh_model.specs.Protocol.Sessions.Events.{kept_rest, next_world, reading_of, rest_of};
ghost use Rattle.ssh_model.specs.State.End.State.{EndState};
ghost use Rattle.ssh_model.specs.State.End.Summary.{EndSumsUp, EndTurned, HasOpened};
ghost use Rattle.ssh_model.specs.State.End.Reading.{DeliversTo, end_reading};
ghost use Rattle.ssh_model.specs.State.End.Pair.{PairOpened, PairState, PairSumsUp, PairTurned, with_state};

/// Two ends that have opened stand at the beginning of a run, and their states sum it up.
pub fn openings<K>()
    ensures { (p : Parties K) (client server : List Item) (from_client from_server : List ℕ) (a b : EndState K) →
        HasOpened p Client client from_client a → HasOpened p Server server from_server b →
        PairOpened p (record { run = done_by Server server ++ done_by Client client; client_rest = []; server_rest = [] })
        (record { client = a; server = b }) }
{}

/// The items of one end add to its part of a run, and leave the part of the other.
pub fn items_stay_on_one_side()
    ensures here { (side : Side) (items : List Item) (run : List Done) → part side (done_by side items ++ run) ≡ items ++ part side run }
    ensures there { (side : Side) (items : List Item) (run : List Done) →
        part (peer side) (done_by side items ++ run) ≡ part (peer side) run }
{}

/// In a run of two, the history and the rest that one end reaches by a unit, and then by the bytes after it, are those of all of
/// these bytes. An end that waits keeps them, and a dead end drops them.
pub fn deliveries<K>()
    ensures unit { (p : Parties K) (side : Side) (run : List Done) (e : EndState K) → EndSumsUp p side (part side run) e →
        e.transport.dead ≡ false → (unit : List ℕ) (items : List Item) (more : List ℕ) (new : EndState K) →
        EndTurned p side (part side run) (OnUnit p side (part side run) unit) items more new →
        (following : List ℕ) (last : List Done) (rest : List ℕ) →
        Delivered (reading_of p side) (done_by side items ++ run) following last rest →
        Delivered (reading_of p side) run (unit ++ following) last rest }
    ensures waits { (p : Parties K) (side : Side) (run : List Done) (e : EndState K) → EndSumsUp p side (part side run) e →
        e.transport.dead ≡ false → (bytes : List ℕ) → Waits (end_reading p side) (part side run) bytes →
        Delivered (reading_of p side) run bytes run bytes }
    ensures dead { (p : Parties K) (side : Side) (run : List Done) (e : EndState K) → EndSumsUp p side (part side run) e →
        e.transport.dead ≡ true → (bytes : List ℕ) → Delivered (reading_of p side) run bytes run [] }
{}

/// The turn of one end on an ask, a pair that it is fed or bytes that come to it is an event of the two, and the states of both
/// then sum up their new world.
pub fn turns_are_events<K>()
    ensures asks { (p : Parties K) (w : World) (pair : PairState K) → PairSumsUp p w pair →
        (side : Side) (ask : Ask) (items : List Item) (more : List ℕ) (new : EndState K) →
        EndTurned p side (part side w.run) (AsksTurn p side (part side w.run) ask) items more new →
        PairTurned p w (Asks side ask) (next_world w side (done_by side items ++ w.run)
        (kept_rest (items ++ part side w.run) (rest_of w side))) (with_state side new pair) }
    ensures feeds { (p : Parties K) (w : World) (pair : PairState K) → PairSumsUp p w pair →
        (side : Side) (cookie secret : List ℕ) (items : List Item) (more : List ℕ) (new : EndState K) →
        EndTurned p side (part side w.run) (FeedsTurn side (part side w.run) cookie secret) items more new →
        PairTurned p w (Feeds side cookie secret) (next_world w side (done_by side items ++ w.run) (rest_of w side))
        (with_state side new pair) }
    ensures delivers { (p : Parties K) (w : World) (pair : PairState K) → PairSumsUp p w pair →
        (side : Side) (bytes : List ℕ) (last : List Item) (rest : List ℕ) (new : EndState K) →
        (to : DeliversTo p side w.run (rest_of w side ++ bytes) last rest) → EndSumsUp p side last new →
        PairTurned p w (Delivers side bytes) (next_world w side to.next rest) (with_state side new pair) }
    ensures delivered { (p : Parties K) (w : World) (pair : PairState K) → PairSumsUp p w pair →
        (side : Side) (bytes : List ℕ) (items : List Item) (rest : List ℕ) (new : EndState K) →
        Delivered (reading_of p side) w.run (rest_of w side ++ bytes) (done_by side items ++ w.run) rest →
        EndSumsUp p side (items ++ part side w.run) new → PairTurned p w (Delivers side bytes)
        (next_world w side (done_by side items ++ w.run) rest) (with_state side new pair) }
{}

/// A play goes on with one more event.
pub fn plays_go_on<K>()
    ensures { (p : Parties K) (w between next : World) (events : List Event) (event : Event) → Plays p w events between →
        OnEvent p between event next → Plays p w (events ++ event ∷ []) next }
{}
