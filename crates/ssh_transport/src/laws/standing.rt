//! Laws of the machine that a role keeps: what holds of it until it is over goes on holding with each call. Facts for proofs, at no
//! cost.

ghost use Rattle.std.specs.Prelude.{◌≡◌, Bool, IfErr, IfOk, List, OnOk, Result, ℕ, false, true};
ghost use Rattle.ssh_model.specs.declared.side.Side.{Side};
ghost use Rattle.ssh_model.specs.Protocol.Wire.Sealing.{Crypto};
ghost use Rattle.ssh_model.specs.Protocol.Sessions.Parties.{Settings};
ghost use Rattle.ssh_model.specs.State.TransportLayer.Kept.{after_fed, can_be_fed};
ghost use Rattle.ssh_model.specs.declared.refusal.Refusal.{Refusal};
ghost use Rattle.ssh_transport.specs.Above.{PayloadSent, PeerRefused, RefuseFailed, SendFailed};
ghost use Rattle.ssh_transport.specs.Asks.{AskFailed, AskTaken};
ghost use Rattle.ssh_transport_machine.specs.LineTurns.{LineTaken};
ghost use Rattle.ssh_transport_machine.specs.Opening.{IsOpened};
ghost use Rattle.ssh_transport_machine.specs.Puts.{Outs};
ghost use Rattle.ssh_transport.specs.Standing.{Stands};
ghost use Rattle.ssh_transport_machine.specs.State.{State};
ghost use Rattle.ssh_transport.specs.Dispatching.{PacketTaken};
ghost use Rattle.ssh_transport_machine.specs.declared.machine.LineTurn.{LineTurn};
ghost use Rattle.ssh_transport_machine.specs.declared.machine.sending.SendOutcome.{SendOutcome};
ghost use Rattle.ssh_transport.specs.declared.outcome.AskTurn.{AskTurn};
ghost use Rattle.ssh_transport.specs.declared.outcome.TransportAsk.{TransportAsk};
ghost use Rattle.ssh_transport.specs.declared.outcome.TransportFault.{TransportFault};
ghost use Rattle.ssh_transport.specs.Own.{Share};

/// A new machine is of its side, and has what a live one has. That stays so after each line, packet and ask, after each pair that it
/// is fed, and once the user is authenticated.
pub fn machines_stand<K>()
    // A new machine, and one that took a line or a packet.
    ensures opened { (c : Crypto K) (settings : Settings) (side : Side) (cookie secret : List ℕ) (new : State K) (o : Outs) →
        IsOpened c settings side cookie secret new o → Stands side new }
    ensures lines { (side : Side) (old : State K) (bytes : List ℕ) (done : LineTurn) (new : State K) → old.kept.dead ≡ false →
        Stands side old → LineTaken old bytes done new → Stands side new }
    ensures packets { (c : Crypto K) (side : Side) (old : State K) (bytes : List ℕ) (done : Share) (new : State K)
        (o : Outs) → old.kept.dead ≡ false → Stands side old → PacketTaken c old bytes done new o → Stands side new }
    // One that was fed a pair, whose user is authenticated, and that is over.
    ensures fed { (side : Side) (old : State K) (done : Bool) (new : State K) (cookie secret : List ℕ) → Stands side old →
        done ≡ can_be_fed old.kept → (done ≡ true → new ≡ record old { kept = after_fed cookie secret old.kept }) →
        (done ≡ false → new ≡ old) → Stands side new }
    ensures authenticated { (side : Side) (old : State K) → Stands side old →
        Stands side (record old { kept = record old.kept { authenticated = true } }) }
    ensures over { (side : Side) (s : State K) → s.kept.dead ≡ true → Stands side s }
    // One that was asked, that refused its peer, and that sent a payload, whatever is answered.
    ensures asks { (c : Crypto K) (side : Side) (old : State K) (given : TransportAsk) (result : Result AskTurn TransportFault)
        (new : State K) (o : Outs) → Stands side old → IfOk result (λ done. AskTaken c old given done new o) →
        IfErr result (λ fault. AskFailed old given fault new) → Stands side new }
    ensures refused { (c : Crypto K) (side : Side) (old : State K) (why : Refusal) (result : Result (Unit {0}) TransportFault)
        (new : State K) (o : Outs) → Stands side old → OnOk result (PeerRefused c old why new o) →
        IfErr result (λ fault. RefuseFailed old why fault new) → Stands side new }
    ensures sent { (c : Crypto K) (side : Side) (old : State K) (payload : List ℕ) (result : Result SendOutcome TransportFault)
        (new : State K) (o : Outs) → Stands side old → IfOk result (λ answer. PayloadSent c old payload answer new o) →
        IfErr result (λ fault. SendFailed old fault new) → Stands side new }
{}
