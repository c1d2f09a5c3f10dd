//! Other parts in the middle of a run.

ghost use Rattle.std.specs.Prelude.{◌≡◌, ◌++◌, Bool, List, false, take, true, ℕ};
ghost use Rattle.ssh_model.specs.declared.side.Side.{Side};
ghost use Rattle.ssh_model.specs.Protocol.Authentication.Requests.{Judge, judge_of};
ghost use Rattle.ssh_model.specs.Protocol.Sessions.Parties.{Parties, AreLawful, user_signature_by};
ghost use Rattle.ssh_model.specs.Protocol.Sessions.Items.{Ask, Ask.AskSign, Item, has_died};
ghost use Rattle.ssh_model.specs.Protocol.Sessions.AnyLayers.{TransportRun};
ghost use Rattle.ssh_model.specs.Protocol.Sessions.Turns.{AsksTurn, EndRun, FeedsTurn, IsOpening, OnUnit};
ghost use Rattle.ssh_model.specs.State.End.State.{EndState};
ghost use Rattle.ssh_model.specs.State.End.Summary.{EndSumsUp};
ghost use Rattle.ssh_model.specs.State.TransportLayer.Kept.{Transport};
ghost use Rattle.ssh_model.specs.State.TransportLayer.Summary.{SumsUp};
ghost use Rattle.ssh_model.specs.Laws.Supplied.{AgreeOnAnswered, AgreeOnJudged, Supplied, TakesNone, supplied_by, supplied_of};
ghost use Rattle.ssh_model.specs.Laws.Supplied.{EachSigned, IsSigned, IsSignedOn, SignsNone, SignsSettled, text_to_sign};

/// A run of a live end is a run with other parts too, if both agree on each question that the end put to them: a server's verdicts on
/// requests and its signatures of hashes, a client's verdicts on host keys and its user's signatures. So is a run of its transport,
/// whatever the layers above do. The end's state sums up its history as before, and the parts stay lawful. So a program may find out an
/// answer before the end puts the question.
pub fn parts_exchanged<K>()
    ensures runs { (p : Parties K) (given : Supplied) (side : Side) (h : List Item) → EndRun p side h → has_died h ≡ false →
        AgreeOnAnswered p given h → EndRun (supplied_by given p) side h }
    ensures sums { (p : Parties K) (given : Supplied) (side : Side) (h : List Item) (e : EndState K) → EndSumsUp p side h e →
        EndSumsUp (supplied_by given p) side h e }
    ensures transports { (p : Parties K) (given : Supplied) (side : Side) (h : List Item) → TransportRun p side h → has_died h ≡ false →
        AgreeOnAnswered p given h → TransportRun (supplied_by given p) side h }
    ensures transport_sums { (p : Parties K) (given : Supplied) (side : Side) (h : List Item) (s : Transport K) → SumsUp p side h s →
        SumsUp (supplied_by given p) side h s }
    ensures lawful { (p : Parties K) (given : Supplied) → AreLawful p → AreLawful (supplied_by given p) }
    ensures given { (p : Parties K) (given : Supplied) → supplied_of (supplied_by given p) ≡ given }
{}

/// For another judge of a server's users alone, they agree if the two judges agree on each request about which the end asked its judge.
pub fn judge_exchanged<K>()
    ensures { (p : Parties K) (judge : Judge) (h : List Item) → AgreeOnJudged p.server.methods (judge_of p) judge h →
        AgreeOnAnswered p (record (supplied_of p) { judge = judge }) h }
{}

/// A client that comes to trust more host keys agrees with itself on each that it took: it trusted each of these. So its run stays a run,
/// and nothing has to be remembered of what it took.
pub fn trust_widened<K>()
    ensures { (p : Parties K) (trusts : List ℕ → List ℕ → List ℕ → List ℕ → Bool) → ((algorithm key hash signature : List ℕ) →
        p.trusts algorithm key hash signature ≡ true → trusts algorithm key hash signature ≡ true) →
        (side : Side) (h : List Item) → EndRun p side h → has_died h ≡ false →
        AgreeOnAnswered p (record (supplied_of p) { trusts = trusts }) h }
{}

/// An end takes no payload on an ask.
pub fn asks_take_none<K>()
    ensures { (p : Parties K) (side : Side) (h : List Item) (ask : Ask) (items : List Item) → AsksTurn p side h ask items → TakesNone items }
{}

/// An end sends no request for authentication with a signature except on an ask for that request. It sends none when it opens, on bytes of its
/// peer, or for a pair of cookie and secret. Each that it sends is for ssh-connection, and has the signature of its user's signer over the
/// text of that moment.
pub fn signs_when_asked<K>()
    ensures opened { (p : Parties K) (side : Side) (items : List Item) → IsOpening p side items → SignsNone items }
    ensures bytes { (p : Parties K) (side : Side) (h : List Item) (unit : List ℕ) (items : List Item) → OnUnit p side h unit items →
        SignsNone items }
    ensures fed { (side : Side) (h : List Item) (cookie secret : List ℕ) (items : List Item) → FeedsTurn side h cookie secret items →
        SignsNone items }
    ensures asked { (p : Parties K) (side : Side) (h : List Item) (ask : Ask) (items : List Item) → AsksTurn p side h ask items →
        EachSigned (IsSignedOn p h ask) items }
    ensures run { (p : Parties K) (side : Side) (h : List Item) → EndRun p side h → EachSigned (IsSigned p) h }
{}

/// If each request with a signature that a history sent was of a settled text, it is so after a turn that sends none (`unasked`), and after
/// one for an ask, if the text that this ask is for is settled (`asked`). It is so with other parts too, and where more is settled (`more`).
pub fn settled_signing<K>()
    ensures unasked { (p : Parties K) (settled : (user algorithm key text : List ℕ) → Bool) (items h : List Item) → SignsNone items →
        SignsSettled p settled h → SignsSettled p settled (items ++ h) }
    ensures asked { (p : Parties K) (settled : (user algorithm key text : List ℕ) → Bool) (side : Side) (h : List Item) (ask : Ask)
        (items : List Item) → AsksTurn p side h ask items → ((user algorithm key : List ℕ) → ask ≡ AskSign user algorithm key →
        settled user algorithm key (text_to_sign p h user algorithm key) ≡ true) → SignsSettled p settled h →
        SignsSettled p settled (items ++ h) }
    ensures more { (p : Parties K) (given : Supplied) (settled other : (user algorithm key text : List ℕ) → Bool) (h : List Item) →
        ((user algorithm key text : List ℕ) → settled user algorithm key text ≡ true → other user algorithm key text ≡ true) →
        SignsSettled p settled h → SignsSettled (supplied_by given p) other h }
{}

/// Two signers of a client's user that agree on each settled text agree on what was sent, if each request with a signature was of one.
pub fn signer_exchanged<K>()
    ensures { (p : Parties K) (signature : (user algorithm key text : List ℕ) → List ℕ)
        (settled : (user algorithm key text : List ℕ) → Bool) (h : List Item) → ((user algorithm key text : List ℕ) →
        settled user algorithm key text ≡ true →
        user_signature_by p user algorithm key text ≡ take 4096 (signature user algorithm key text)) → SignsSettled p settled h →
        AgreeOnAnswered p (record (supplied_of p) { user_signature = signature }) h }
{}
