//! Laws of what a program says while a session runs. Facts for proofs, at no cost.

ghost use Rattle.std.specs.Prelude.{◌≡◌, ◌++◌, ◌≤◌, Bool, IsSome, List, None, Option, [], ◌∷◌, false, is_some, length, take, true, ℕ};
ghost use Rattle.ssh_model.specs.Laws.Supplied.{AgreeOnAnswered, TakesNone, is_judged, supplied_of};
ghost use Rattle.ssh_model.specs.Laws.Verdicts.{judged_by};
ghost use Rattle.ssh_model.specs.Protocol.Authentication.Requests.{Judge, accepts};
ghost use Rattle.ssh_model.specs.Protocol.Lists.{IsIn};
ghost use Rattle.ssh_model.specs.Protocol.Sessions.Items.{Credential, Fact.Accepted, Item, Item.Told, has_died};
ghost use Rattle.ssh_model.specs.Protocol.Sessions.Parties.{Agreement, AreLawful, Parties};
ghost use Rattle.ssh_model.specs.Protocol.Sessions.Phases.{authenticated};
ghost use Rattle.ssh_model.specs.Protocol.Sessions.Turns.{EndRun, IsOpening};
ghost use Rattle.ssh_model.specs.Protocol.Wire.Message.{IsPayload, Method, Msg.UserauthRequest};
ghost use Rattle.ssh_model.specs.State.End.State.{EndState};
ghost use Rattle.ssh_model.specs.State.End.Summary.{EndSumsUp};
ghost use Rattle.ssh_model.specs.declared.side.Side.TheVariants.{Client, Server};
ghost use Rattle.ssh_transport_machine.specs.Puts.{Outs};
ghost use Rattle.ssh_transport_machine.specs.Replies.{Trusts};
ghost use Rattle.ssh_transport_machine.specs.State.{State, buffered_of};
ghost use Rattle.ssh_end_machine.specs.Layers.{Layers};
ghost use Rattle.ssh_end_machine.specs.Peeking.{TakesOnly};
ghost use Rattle.ssh_end_machine.specs.Sessions.{end_of};
ghost use Rattle.ssh_end_machine.specs.Steps.{UnitTurned};
ghost use Rattle.ssh_end_machine.specs.declared.step.Step.{Step};
ghost use Rattle.ssh_held.specs.Book.{AllDecided, AllSettled, IsSignedByVerdict, LetInByVerdict, Signatures, asks, awaits_signature};
ghost use Rattle.ssh_held.specs.Book.{is_about};
ghost use Rattle.ssh_held.specs.Book.{is_next, is_on_signature, is_right_by, is_said, judge_by, said, verdict_on};
ghost use Rattle.ssh_held.specs.Held.{IsReceiving, IsSettled, IsWanted};
ghost use Rattle.ssh_held.specs.HeldHosts.{IsHostWanted, signed_with};
ghost use Rattle.ssh_held.specs.Hosts.{TrustsEachByVerdict, is_on_host, trust_by, trusting};
ghost use Rattle.ssh_held.specs.declared.book.Verdict.{Verdict};
ghost use Rattle.ssh_held.specs.declared.host_book.HostVerdict.{HostVerdict};

use ssh_model::laws;
use ssh_packet::Sealing;

/// More verdicts change nothing of what was decided. Two judges by verdicts of which the one has more agree on all that a server was
/// asked, if the program had said all that the requests ask. It still has then.
pub fn verdicts_added<K>()
    ensures agrees { (p : Parties K) (signatures : Signatures) (verdicts more : List Verdict) (h : List Item) →
        AllDecided signatures.knows verdicts h →
        AgreeOnAnswered (judged_by (judge_by signatures verdicts) p)
        (record (supplied_of (judged_by (judge_by signatures verdicts) p)) { judge = judge_by signatures (verdicts ++ more) }) h }
    ensures decided { (knows : List ℕ → Bool) (verdicts more : List Verdict) (h : List Item) → AllDecided knows verdicts h →
        AllDecided knows (verdicts ++ more) h }
{
    laws::supplied::judge_exchanged::<K>();
}

/// The program has said all that the requests ask: at first, since there is none (`opened`), and after each turn. That is one on a
/// payload that was looked at before, which is no such request or one of which it has said all (`seen`), or one in which no payload is
/// taken (`unseen`), such as an ask (`ssh_model::laws::supplied::asks_take_none`).
pub fn decided_goes_on<K>()
    ensures opened { (p : Parties K) (knows : List ℕ → Bool) (verdicts : List Verdict) (items : List Item) → IsOpening p Server items →
        AllDecided knows verdicts items }
    ensures seen { (knows : List ℕ → Bool) (verdicts : List Verdict) (payload : List ℕ) (items history : List Item) →
        TakesOnly payload items →
        ((probing : Bool) (user service : List ℕ) (method : Method) → IsPayload probing (UserauthRequest user service method) payload →
        asks service method ≡ true → is_said knows verdicts user method ≡ true) → AllDecided knows verdicts history →
        AllDecided knows verdicts (items ++ history) }
    ensures unseen { (knows : List ℕ → Bool) (verdicts : List Verdict) (items history : List Item) → TakesNone items →
        AllDecided knows verdicts history → AllDecided knows verdicts (items ++ history) }
{}

/// The first verdict on a question counts: what was said stays, whatever is said later (`kept`), and a verdict on another question says
/// nothing on this one (`other`). So it is with signatures, over whatever text (`kept_signature`, `other_signature`).
pub fn first_verdict_counts()
    ensures kept { (verdicts more : List Verdict) (user : List ℕ) (method : Method) → is_some (said verdicts user method) ≡ true →
        said (verdicts ++ more) user method ≡ said verdicts user method }
    ensures other { (verdicts : List Verdict) (verdict : Verdict) (user : List ℕ) (method : Method) →
        is_about user method verdict.asked ≡ false → said (verdicts ++ verdict ∷ []) user method ≡ said verdicts user method }
    ensures kept_signature { (verdicts more : List Verdict) (algorithm key signature : List ℕ) →
        is_some (verdict_on verdicts algorithm key signature) ≡ true →
        verdict_on (verdicts ++ more) algorithm key signature ≡ verdict_on verdicts algorithm key signature }
    ensures other_signature { (verdicts : List Verdict) (verdict : Verdict) (algorithm key signature : List ℕ) →
        is_on_signature algorithm key signature verdict.asked ≡ false →
        verdict_on (verdicts ++ verdict ∷ []) algorithm key signature ≡ verdict_on verdicts algorithm key signature }
{}

/// A request that a judge has to judge asks the program, whatever methods the server takes.
pub fn judged_asks()
    ensures { (methods : List (List ℕ)) (service : List ℕ) (method : Method) → is_judged methods service method ≡ true →
        asks service method ≡ true }
{}

/// If each request was settled, each is settled after a turn on bytes whose next packet was looked at and settled. What settles a request
/// is any function of its user and method. So a program can settle requests by more than verdicts, such as by entries of its own.
pub fn settled_goes_on<K>()
    ensures { (p : Parties K) (settled : List ℕ → Method → Bool) (history : List Item) (machine : State K) (layers : Layers) →
        AreLawful p → EndSumsUp p Server history (end_of machine.kept layers) →
        (has_died history ≡ false → authenticated Server history ≡ false → AllSettled settled history) →
        (machine.kept.dead ≡ false → IsReceiving machine) → (bytes : List ℕ) (used : ℕ) → used ≤ length bytes →
        (shown : List ℕ) (done : Step) (new : EndState K) (o : Outs) →
        (x : UnitTurned p Server history (buffered_of machine ++ take used bytes) shown done new o) →
        has_died (x.items ++ history) ≡ false → authenticated Server (x.items ++ history) ≡ false →
        IsSettled p.crypto machine settled bytes → AllSettled settled (x.items ++ history) }
{
    ssh_end_machine::peeking_laws::peeked_is_answered::<K>();
}

/// Whoever a server of these verdicts tells as accepted sent a request that it accepted, with the credential that is told, and the
/// program had said yes to this very request. If that has a signature of an algorithm that the judge of signatures does not know, the
/// program had said yes to this very signature, over the text that is signed in this session. This holds in every run of one end, whoever
/// its peer is.
pub fn accepted_by_verdict<K>()
    ensures { (p : Parties K) (signatures : Signatures) (verdicts : List Verdict) (h : List Item) →
        AreLawful (judged_by (judge_by signatures verdicts) p) → EndRun (judged_by (judge_by signatures verdicts) p) Server h →
        (user : List ℕ) (by : Credential) → IsIn (Told (Accepted user by)) h →
        LetInByVerdict (judged_by (judge_by signatures verdicts) p) h signatures.knows verdicts user by }
{
    laws::any_peer::against_any_peer::<K>();
}

/// A judge that judges signatures by verdicts accepts no request without its signature: if the other judge does not know the algorithm,
/// the program had said yes to it, over the text that is signed in the session of this id.
pub fn accepted_is_signed()
    ensures { (judge : Judge) (signatures : Signatures) (verdicts : List Verdict) (methods : List (List ℕ))
        (session user service : List ℕ) (method : Method) →
        ((algorithm key text signature : List ℕ) →
        judge.signature_is_right algorithm key text signature ≡ is_right_by signatures verdicts algorithm key text signature) →
        accepts judge methods session user service method ≡ true →
        IsSignedByVerdict signatures.knows verdicts session user method }
{}

/// A client that is told more verdicts trusts each host that it trusted before, since the first verdict on a question counts. So its run
/// stays a run (`ssh_model::laws::supplied::trust_widened`).
pub fn hosts_added()
    ensures { (knows : List ℕ → Bool) (signatures : Trusts) (verdicts more : List HostVerdict) (algorithm key hash signature : List ℕ) →
        trust_by knows signatures verdicts algorithm key hash signature ≡ true →
        trust_by knows signatures (verdicts ++ more) algorithm key hash signature ≡ true }
{}

/// In each exchange that a client of these verdicts completed, the program had said yes to the very host key whose signature was judged right
/// for that exchange, under the algorithm that was chosen in it. If the judge of signatures does not know that algorithm, the program had said
/// yes to that very signature of the hash of this very exchange. This holds in every run of one end, whoever its peer is.
pub fn trusted_by_verdict<K>()
    ensures { (p : Parties K) (knows : List ℕ → Bool) (signatures : Trusts) (verdicts : List HostVerdict) (h : List Item) →
        AreLawful (trusting (trust_by knows signatures verdicts) p) → EndRun (trusting (trust_by knows signatures verdicts) p) Client h →
        TrustsEachByVerdict (trusting (trust_by knows signatures verdicts) p) knows verdicts h }
{
    laws::any_peer::against_any_peer::<K>();
}

/// An answer settles its question: once the program has said something on what was wanted, the same bytes do not want that of the same end. A
/// request may want its signature then, if it did not before, and nothing after that. So may a host key that had its yes.
pub fn answer_settles<S: Sealing>()
    ensures request { (machine : State S.Key) (knows : List ℕ → Bool) (verdicts : List Verdict) (verdict : Verdict)
        (session bytes payload other : List ℕ) → (x : IsWanted S.crypto machine knows verdicts bytes payload) →
        is_next knows verdicts session x.request.user x.request.method verdict.asked ≡ true →
        (y : IsWanted S.crypto machine knows (verdicts ++ verdict ∷ []) bytes other) →
        (awaits_signature knows verdicts x.request.user x.request.method ≡ false)
        × (awaits_signature knows (verdicts ++ verdict ∷ []) y.request.user y.request.method ≡ true) }
    ensures host { (agreement : Agreement) (knows : List ℕ → Bool) (machine : State S.Key) (verdicts : List HostVerdict)
        (verdict : HostVerdict) (bytes payload other algorithm later : List ℕ) (hash next : Option (List ℕ)) →
        (x : IsHostWanted S.crypto agreement knows machine verdicts bytes payload algorithm hash) →
        is_on_host algorithm x.reply.key (signed_with hash x.reply.has.signature) verdict.asked ≡ true →
        IsHostWanted S.crypto agreement knows machine (verdicts ++ verdict ∷ []) bytes other later next →
        (hash ≡ None) × (verdict.accepts ≡ true) × IsSome next }
{
    laws::packet_units::<S::Key>();
    laws::one_message();
}
