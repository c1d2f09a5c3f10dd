//! Laws of what begins and ends an exchange. Facts for proofs, at no cost.

ghost use Rattle.std.specs.Prelude.{◌≡◌, ℕ, Bool, List, Option, Some, false, true};
ghost use Rattle.ssh_model.specs.declared.refusal.Refusal.TheVariants.{BadMessage};
ghost use Rattle.ssh_model.specs.declared.side.Side.{Side};
ghost use Rattle.ssh_model.specs.Protocol.Wire.Message.{Msg};
ghost use Rattle.ssh_model.specs.Protocol.Wire.Sealing.{Crypto};
ghost use Rattle.ssh_model.specs.Protocol.KeyExchange.Exchanges.{Material};
ghost use Rattle.ssh_model.specs.Protocol.Sessions.Items.{Ask, Item};
ghost use Rattle.ssh_model.specs.Protocol.Sessions.Parties.{Parties, Settings};
ghost use Rattle.ssh_model.specs.State.TransportLayer.Kept.{Transport, after_own_kexinit, after_sent};
ghost use Rattle.ssh_model.specs.State.TransportLayer.Summary.{SumsUp};
ghost use Rattle.ssh_transport.specs.Asking.{AskDone};
ghost use Rattle.ssh_transport.specs.Choices.{IsChoosing};
ghost use Rattle.ssh_transport.specs.Endings.{MessageRefused};
ghost use Rattle.ssh_transport.specs.Laws.{ForgetsLaw, RefusesFor, RoleLaws, StandsAfterExchanges};
ghost use Rattle.ssh_transport_machine.specs.Finishing.{HasChoice, after_announced, forgotten, keyed};
ghost use Rattle.ssh_transport_machine.specs.Classifying.{PayloadIs};
ghost use Rattle.ssh_transport_machine.specs.LineTurns.{LineTaken};
ghost use Rattle.ssh_transport_machine.specs.Opening.{IsOpened};
ghost use Rattle.ssh_transport_machine.specs.Puts.{Outs};
ghost use Rattle.ssh_transport_machine.specs.State.{State, noted};
ghost use Rattle.ssh_transport.specs.Living.{IsKeptLive};
ghost use Rattle.ssh_transport_machine.specs.Answering.{Answers};
ghost use Rattle.ssh_transport.specs.Dispatching.{PacketTaken};
ghost use Rattle.ssh_transport_machine.specs.declared.machine.classifying.Classified.TheVariants as classified;
ghost use Rattle.ssh_transport_machine.specs.declared.machine.kexinit.KexinitFacts.{KexinitFacts};
ghost use Rattle.ssh_transport_machine.specs.declared.machine.LineTurn.{LineTurn};
ghost use Rattle.ssh_transport_machine.specs.declared.machine.sending.SendOutcome.{SendOutcome};
ghost use Rattle.ssh_transport.specs.declared.outcome.AskTurn.{AskTurn};
ghost use Rattle.ssh_transport.specs.Own.{Share};

use ssh_model::laws;

/// An end that is not blocked sums up its history as well without the secret of the exchange that is over.
#[tactic(auto, using(crate::proofs::Forgotten::goes_on))]
pub fn secrets_forgotten<K>()
    ensures { ForgetsLaw K }
{}

/// A payload that may be read and is no message is refused for that, as a turn of a session.
pub fn unread_refused<K>()
    ensures { (side : Side) → RefusesFor K side BadMessage (λ p. MessageRefused p.crypto) }
{
    laws::transport::payload_is_one_turn::<K>();
}

/// Where the peer's next message of an exchange is awaited there is a choice by the KEXINIT that is kept. So it is in a new machine,
/// and after each line, packet and ask. A KEXINIT that nothing refuses has one.
pub fn choices_kept<K>()
    // A new machine, and one that took a line or a packet.
    ensures opened { (c : Crypto K) (settings : Settings) (side : Side) (cookie secret : List ℕ) (new : State K) (o : Outs) →
        IsOpened c settings side cookie secret new o → IsChoosing new.kept }
    ensures lines { (old : State K) (bytes : List ℕ) (done : LineTurn) (new : State K) → IsChoosing old.kept →
        LineTaken old bytes done new → new.kept.dead ≡ false → IsChoosing new.kept }
    ensures packets { (c : Crypto K) (old : State K) (bytes : List ℕ) (done : Share) (new : State K) (o : Outs) →
        IsChoosing old.kept → PacketTaken c old bytes done new o → new.kept.dead ≡ false → IsChoosing new.kept }
    // One that was asked, and that sent an answer.
    ensures asks { (c : Crypto K) (old : State K) (ask : Ask) (done : AskTurn) (new : State K) (o : Outs) → IsChoosing old.kept →
        AskDone c old ask done new o → new.kept.dead ≡ false → IsChoosing new.kept }
    ensures answers { (c : Crypto K) (old : State K) (message : Msg) (answer : SendOutcome) (new : State K) (o : Outs) →
        IsChoosing old.kept → Answers c old message (after_sent old.kept) answer new o → new.kept.dead ≡ false → IsChoosing new.kept }
    // One that keeps a KEXINIT that nothing refuses, or the one that it kept.
    ensures kexinits { (s : Transport K) (payload : List ℕ) (facts : KexinitFacts) (kept : Transport K) → kept.side ≡ s.side →
        kept.settings ≡ s.settings → kept.underway.theirs ≡ payload → PayloadIs s payload (classified.Kexinit facts) → HasChoice kept }
    ensures others { (old kept : Transport K) → kept.phase ≡ old.phase → kept.side ≡ old.side → kept.settings ≡ old.settings →
        kept.underway.theirs ≡ old.underway.theirs → IsChoosing old → IsChoosing kept }
{}

/// What holds of what a live machine keeps goes on holding where an exchange begins and where it ends.
pub fn exchanges_live<K>()
    ensures sent { (k : Transport K) → IsKeptLive k → IsKeptLive (after_sent k) }
    ensures own { (material : Material) (payload : List ℕ) (k : Transport K) → k.blocked ≡ false → k.authenticated ≡ true →
        k.material ≡ Some material → IsKeptLive k → IsKeptLive (after_own_kexinit material payload k) }
    ensures noted { (wrong strict extensions : Bool) (payload : List ℕ) (k : Transport K) → k.blocked ≡ true → IsKeptLive k →
        IsKeptLive (noted wrong strict extensions payload k) }
    ensures keyed { (own theirs : K) (session : List ℕ) (announcement : Option (List ℕ)) (k : Transport K) → k.blocked ≡ true →
        IsKeptLive k → IsKeptLive (after_announced announcement (forgotten (keyed own theirs session k))) }
    ensures ended { (own theirs : K) (session : List ℕ) (announcement : Option (List ℕ)) (k : Transport K) →
        IsChoosing (after_announced announcement (forgotten (keyed own theirs session k))) }
{}

/// What holds of a live machine goes on holding where an exchange is completed. No KEXINIT is kept that is still to be chosen by.
pub fn exchanges_stand<K>()
    ensures { (side : Side) → StandsAfterExchanges K side }
{
    exchanges_live::<K>();
    crate::laws::machine::live_machines::<K>();
}

/// What the laws of both roles stand on, with the laws of the model for the last message of an exchange.
pub fn role_laws<K>()
    ensures { (side : Side) → RoleLaws K side }
{
    laws::payload_numbers();
    laws::encodings();
    laws::transport::choices::<K>();
    laws::transport::exchange_ends::<K>();
    laws::transport::payload_is_one_turn::<K>();
    laws::transport::refused_and_spent::<K>();
    secrets_forgotten::<K>();
    unread_refused::<K>();
    crate::laws::kexinits_taken::<K>();
    crate::laws::kexinits_stand::<K>();
    exchanges_stand::<K>();
}
