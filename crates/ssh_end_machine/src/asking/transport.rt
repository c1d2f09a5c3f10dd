//! Asks for a message of the transport, and messages of a layer above that it sends.

ghost use Rattle.ssh_transport_machine.specs.Padding.{PadsTo};
ghost use Rattle.ssh_transport.specs.States.{sending_of};
ghost use Rattle.ssh_transport_machine.specs.Puts.{listed_outs};
ghost use Rattle.std.specs.Prelude.{◌≡◌, ◌≤◌, IfErr, IfOk, OnErr, map, true, false};
ghost use Rattle.ssh_transport.specs.Asks.{AskTaken};
ghost use Rattle.ssh_transport.specs.Roles.{KeepsUser};
ghost use Rattle.ssh_transport.specs.declared.outcome.AskTurn.TheVariants as ask_turn;
ghost use Rattle.ssh_end_machine.specs.Asking.{EndsSpent, Fails, GivenFails, KeepsDead, MachineFails, OnAnswered};
ghost use Rattle.ssh_end_machine.specs.Asking.{TransportEnds, TransportRow, step_by};
ghost use Rattle.ssh_end_machine.specs.Following.{MayGo};
ghost use Rattle.ssh_message.specs.Meaning.{meaning};
ghost use Rattle.ssh_message.specs.Written.{Fits};
ghost use Rattle.ssh_model.specs.Laws.Sizes.{payload_size};
ghost use Rattle.ssh_model.specs.Protocol.Bounds.{longest_payload};
ghost use Rattle.ssh_model.specs.Protocol.Wire.Message.{FitsContext};
ghost use Rattle.ssh_model.specs.State.TransportLayer.Kept.{after_sent};
ghost use Rattle.ssh_transport_machine.specs.Answering.{Answers};
ghost use Rattle.ssh_end_machine.specs.Reading.{SameReading};

use crate::asking::outcome::{AskStep, Fault, outcome_step};
use ssh_message::Message;
use ssh_transport::{AskTurn, Role, Transport, TransportAsk};
use ssh_transport_machine::SendOutcome;

/// Does what is asked for a message of the transport.
///
/// # Errors
///
/// - `Ask`: the ask is refused, by the first refusal that holds. Nothing changes.
/// - `Memory`: memory was refused. Nothing is put out, and the end is over.
/// - `Dead`: the end was over before. Nothing changes.
pub fn ask_transport<X: Role>(
    transport: &mut Transport<X>,
    ask: TransportAsk<'_>,
    out: &mut Vec<u8>,
    sent: &mut Vec<Vec<u8>>,
) -> Result<AskStep, Fault>
    // What it does.
    ensures row { TransportRow X.Sealing.crypto transport.old.machine ask.entry result transport.new.machine
        (listed_outs out.old out.new sent.old sent.new) }
    ensures over { IfOk result (λ step. TransportEnds transport.old.machine ask.entry step.refused transport.new.machine) }
    // If it fails.
    ensures fails { IfErr result (λ fault. Fails transport.old.machine fault transport.new.machine) }
    ensures unchanged { IfErr result (λ fault. KeepsDead transport.old fault transport.new) }
    ensures reading { transport.new.machine.kept.dead ≡ false → SameReading transport.old.machine transport.new.machine }
    ensures out { OnErr result (out.new.items ≡ out.old.items) }
    ensures kept { OnErr result (map (λ v. v.items) sent.new.items ≡ map (λ v. v.items) sent.old.items) }
    // The role stays. Where the padding comes from.
    ensures alive { transport.new.machine.kept.dead ≡ false → transport.old.machine.kept.dead ≡ false }
    ensures user { transport.new.machine.kept.dead ≡ false → KeepsUser transport.old.machine.kept transport.new.machine.kept }
    ensures role { transport.new.role ≡ transport.old.role }
    ensures padded { OnAnswered result (PadsTo X.Sealing.crypto X.Filler.gives (sending_of transport.old out.old sent.old)
        (sending_of transport.new out.new sent.new)) }
{
    match ask_machine(transport, ask, out, sent) {
        Ok(answer) => Ok(outcome_step(answer)),
        Err(fault) => Err(fault),
    }
}

/// Has the machine do what is asked for.
///
/// # Errors
///
/// - `Ask`: the ask is refused, by the first refusal that holds. Nothing changes.
/// - `Memory`: memory was refused. Nothing is put out, and the end is over.
/// - `Dead`: the end was over before. Nothing changes.
#[tactic(auto, using(crate::proofs::Padding::failed))]
pub fn ask_machine<X: Role>(
    transport: &mut Transport<X>,
    ask: TransportAsk<'_>,
    out: &mut Vec<u8>,
    sent: &mut Vec<Vec<u8>>,
) -> Result<SendOutcome, Fault>
    // What it does.
    ensures asked { IfOk result (λ answer. AskTaken X.Sealing.crypto transport.old.machine ask.entry (ask_turn.Answered answer)
        transport.new.machine (listed_outs out.old out.new sent.old sent.new)) }
    // If it fails.
    ensures refused { IfErr result (λ fault. MachineFails X.Sealing.crypto transport.old.machine ask.entry fault transport.new.machine) }
    ensures over { IfOk result (λ answer. TransportEnds transport.old.machine ask.entry (step_by answer).refused transport.new.machine) }
    ensures fails { IfErr result (λ fault. Fails transport.old.machine fault transport.new.machine) }
    ensures unchanged { IfErr result (λ fault. KeepsDead transport.old fault transport.new) }
    ensures reading { transport.new.machine.kept.dead ≡ false → SameReading transport.old.machine transport.new.machine }
    ensures out { OnErr result (out.new.items ≡ out.old.items) }
    ensures kept { OnErr result (map (λ v. v.items) sent.new.items ≡ map (λ v. v.items) sent.old.items) }
    // The role stays. Where the padding comes from.
    ensures alive { transport.new.machine.kept.dead ≡ false → transport.old.machine.kept.dead ≡ false }
    ensures user { transport.new.machine.kept.dead ≡ false → KeepsUser transport.old.machine.kept transport.new.machine.kept }
    ensures role { transport.new.role ≡ transport.old.role }
    ensures padded { OnAnswered result (PadsTo X.Sealing.crypto X.Filler.gives (sending_of transport.old out.old sent.old)
        (sending_of transport.new out.new sent.new)) }
{
    match transport.ask(ask, out, sent) {
        Ok(AskTurn::Answered(answer)) => Ok(answer),
        Ok(AskTurn::Refused(why)) => Err(Fault::Ask(why)),
        Err(fault) => Err(Fault::from(fault)),
    }
}

/// Sends a message of a layer above, which may go, where a number is left for it.
///
/// # Errors
///
/// - `Memory`: memory was refused. Nothing is put out, and the end is over.
/// - `Dead`: the end was over before. Nothing changes.
#[tactic(auto, using(crate::proofs::Padding::answered, crate::proofs::Padding::pads_none))]
pub fn send_message<X: Role>(
    transport: &mut Transport<X>,
    message: &Message<'_>,
    out: &mut Vec<u8>,
    sent: &mut Vec<Vec<u8>>,
) -> Result<SendOutcome, Fault>
    // What the caller must ensure.
    requires fits { Fits message.now }
    requires context { FitsContext true (meaning message.now) }
    requires most { payload_size (meaning message.now) ≤ longest_payload }
    requires goes { MayGo transport.old.machine.kept (meaning message.now) }
    // What it does.
    ensures answers { IfOk result (λ answer. Answers X.Sealing.crypto transport.old.machine (meaning message.now)
        (after_sent transport.old.machine.kept) answer transport.new.machine (listed_outs out.old out.new sent.old sent.new)) }
    ensures over { IfOk result (λ answer. EndsSpent transport.old.machine (step_by answer).refused transport.new.machine) }
    // If it fails.
    ensures failed { IfErr result (λ fault. GivenFails transport.old.machine fault transport.new.machine) }
    ensures fails { IfErr result (λ fault. Fails transport.old.machine fault transport.new.machine) }
    ensures unchanged { IfErr result (λ fault. KeepsDead transport.old fault transport.new) }
    ensures reading { transport.new.machine.kept.dead ≡ false → SameReading transport.old.machine transport.new.machine }
    ensures out { OnErr result (out.new.items ≡ out.old.items) }
    ensures kept { OnErr result (map (λ v. v.items) sent.new.items ≡ map (λ v. v.items) sent.old.items) }
    // The user and the role stay. Where the padding comes from.
    ensures alive { transport.new.machine.kept.dead ≡ false → transport.old.machine.kept.dead ≡ false }
    ensures user { transport.new.machine.kept.dead ≡ false → KeepsUser transport.old.machine.kept transport.new.machine.kept }
    ensures role { transport.new.role ≡ transport.old.role }
    ensures padded { OnAnswered result (PadsTo X.Sealing.crypto X.Filler.gives (sending_of transport.old out.old sent.old)
        (sending_of transport.new out.new sent.new)) }
{
    ssh_model::laws::payload_numbers();
    if transport.is_dead() {
        return Err(Fault::Dead);
    }
    if transport.is_spent() {
        transport.die();
        return Ok(SendOutcome::Spent);
    }
    match transport.encode_payload(message) {
        Ok(payload) => Ok(transport.send(payload, out, sent)?),
        Err(_) => {
            transport.die();
            Err(Fault::Memory)
        }
    }
}
