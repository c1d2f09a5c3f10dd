//! Laws of what a client signs with the signatures that its program gives. Facts for proofs, at no cost.

ghost use Rattle.std.specs.Prelude.{◌≡◌, ◌++◌, Bool, List, Result, false, true, ℕ};
ghost use Rattle.ssh_model.specs.Laws.Supplied.{AgreeOnAnswered, SignsSettled, supplied_of, text_to_sign};
ghost use Rattle.ssh_model.specs.Protocol.Sessions.Items as session;
ghost use Rattle.ssh_model.specs.Protocol.Sessions.Items.{Item};
ghost use Rattle.ssh_model.specs.Protocol.Sessions.Parties.{Parties};
ghost use Rattle.ssh_model.specs.Protocol.Sessions.Turns.{EndRun, IsOpening};
ghost use Rattle.ssh_model.specs.State.End.State.{EndState};
ghost use Rattle.ssh_model.specs.State.End.Summary.{EndSumsUp};
ghost use Rattle.ssh_model.specs.declared.side.Side.TheVariants.{Client};
ghost use Rattle.ssh_transport_machine.specs.Puts.{Outs};
ghost use Rattle.ssh_end_machine.specs.Asking.{DoneInSession, UserSignatures};
ghost use Rattle.ssh_end_machine.specs.Places.{added, fed_items};
ghost use Rattle.ssh_end_machine.specs.Steps.{UnitTurned};
ghost use Rattle.ssh_end_machine.specs.declared.asking.outcome.AskStep.{AskStep};
ghost use Rattle.ssh_end_machine.specs.declared.asking.outcome.Fault.{Fault};
ghost use Rattle.ssh_end_machine.specs.declared.step.Step.{Step};
ghost use Rattle.ssh_held.specs.Signing.{EachOwnOrGiven, IsSettledAsk, is_known_in, is_signed, signature_by, signing};
ghost use Rattle.ssh_held.specs.declared.signing.GivenSignature.{GivenSignature};

use ssh_model::laws;

/// More signatures change nothing of what was sent: two signers of which the one has more agree on it, if each text that was signed was known.
/// It still is then.
pub fn signatures_added<K>()
    ensures agrees { (p : Parties K) (own : UserSignatures) (list more : List GivenSignature) (h : List Item) →
        SignsSettled (signing (signature_by own list) p) (is_signed own list) h → AgreeOnAnswered (signing (signature_by own list) p)
        (record (supplied_of (signing (signature_by own list) p)) { user_signature = signature_by own (list ++ more) }) h }
    ensures known { (p : Parties K) (own : UserSignatures) (list more : List GivenSignature) (h : List Item) →
        SignsSettled (signing (signature_by own list) p) (is_signed own list) h →
        SignsSettled (signing (signature_by own (list ++ more)) p) (is_signed own (list ++ more)) h }
{
    laws::supplied::signer_exchanged::<K>();
    laws::supplied::settled_signing::<K>();
}

/// The text of a login that is settled in the session of a live client is the one that it would sign now.
pub fn text_of_now<K>()
    ensures { (p : Parties K) (settled : (user algorithm key text : List ℕ) → Bool) (history : List Item) (e : EndState K) →
        EndSumsUp p Client history e → e.transport.dead ≡ false → (user algorithm key : List ℕ) →
        is_known_in settled e.transport.session user algorithm key ≡ true →
        settled user algorithm key (text_to_sign p history user algorithm key) ≡ true }
{}

/// If each text that was signed is settled, each is after a turn: at first, since none was (`opened`), after bytes of the peer (`bytes`) or a
/// pair of cookie and secret (`fed`), which sign none, and after an ask, if the text is settled that it is for (`asked`).
pub fn settled_goes_on<K>()
    ensures opened { (p : Parties K) (settled : (user algorithm key text : List ℕ) → Bool) (items : List Item) → IsOpening p Client items →
        SignsSettled p settled items }
    ensures bytes { (p : Parties K) (settled : (user algorithm key text : List ℕ) → Bool) (history : List Item) (unit shown : List ℕ)
        (done : Step) (new : EndState K) (o : Outs) → (x : UnitTurned p Client history unit shown done new o) →
        SignsSettled p settled history → SignsSettled p settled (x.items ++ history) }
    ensures fed { (p : Parties K) (settled : (user algorithm key text : List ℕ) → Bool) (history : List Item) (cookie secret : List ℕ)
        (answer : Bool) → SignsSettled p settled history → SignsSettled p settled (fed_items cookie secret answer ++ history) }
    ensures asked { (p : Parties K) (settled : (user algorithm key text : List ℕ) → Bool) (history : List Item) (old : EndState K)
        (asked : session.Ask) (given : Result AskStep Fault) (new : EndState K) (o : Outs) → EndSumsUp p Client history old →
        (old.transport.dead ≡ false → IsSettledAsk settled old.transport.session asked) →
        (x : DoneInSession p Client history old asked given new o) → SignsSettled p settled history →
        SignsSettled p settled (added p Client history old asked given new o x ++ history) }
{
    laws::supplied::signs_when_asked::<K>();
    laws::supplied::settled_signing::<K>();
}

/// Each signature that a client sent is one of its own signer over the text of that moment, or one that the program gave for this very text,
/// if each text that was signed was known. This holds in every run of one end, whoever its peer is.
pub fn own_or_given<K>()
    ensures { (p : Parties K) (own : UserSignatures) (list : List GivenSignature) (h : List Item) →
        EndRun (signing (signature_by own list) p) Client h → SignsSettled (signing (signature_by own list) p) (is_signed own list) h →
        EachOwnOrGiven (signing (signature_by own list) p) own list h }
{
    laws::supplied::signs_when_asked::<K>();
}
