//! Asks for a message of the connection.

ghost use Rattle.ssh_transport_machine.specs.Padding.{PadsTo};
ghost use Rattle.ssh_transport.specs.States.{sending_of};
ghost use Rattle.ssh_transport_machine.specs.Puts.{listed_outs};
ghost use Rattle.std.specs.Prelude.{◌≡◌, ◌≤◌, IfErr, IfOk, OnErr, map, true, false};
ghost use Rattle.ssh_model.specs.Protocol.Bounds.{longest_payload};
ghost use Rattle.ssh_model.specs.Protocol.Wire.Message.{FitsContext};
ghost use Rattle.ssh_model.specs.Laws.Sizes.{payload_size};
ghost use Rattle.ssh_message.specs.Meaning.{meaning};
ghost use Rattle.ssh_message.specs.Written.{Fits};
ghost use Rattle.ssh_channels.specs.Values.{ask_of, sent_of};
ghost use Rattle.ssh_end_machine.specs.Asking.{ConnectionAsked, ConnectionRow, EndsSpent, Fails, GivenFails, GivenSent};
ghost use Rattle.ssh_end_machine.specs.Asking.{KeepsDead, KeepsLayers, OnAnswered, step_on};
ghost use Rattle.ssh_transport.specs.Roles.{KeepsUser};
ghost use Rattle.ssh_end_machine.specs.Following.{MayGo};
ghost use Rattle.ssh_end_machine.specs.Reading.{SameReading};

use crate::asking::memory::lack_memory;
use crate::asking::numbers::{ask_numbers, message_numbers, recipient_number};
use crate::asking::outcome::{AskStep, Fault, outcome_step};
use crate::asking::transport::send_message;
use crate::layers::{TransportView, ask_channels};
use ssh_channels::{Ask, Channels, MessageToSend};
use ssh_transport::{Role, Transport};
use ssh_transport_machine::SendOutcome;
use ssh_types::CallError;

/// Asks channels for a message, and sends it.
///
/// # Errors
///
/// - `Ask`: the ask is refused, by the first refusal that holds. Nothing changes.
/// - `Memory`: memory was refused. Nothing is put out, and the end is over.
/// - `Dead`: the end was over before. Nothing changes.
#[tactic(auto, using(crate::proofs::Padding::answered, crate::proofs::Padding::pads_none))]
pub fn ask_connection<X: Role>(
    transport: &mut Transport<X>,
    channels: &mut Channels,
    ask: &Ask<'_>,
    out: &mut Vec<u8>,
    sent: &mut Vec<Vec<u8>>,
) -> Result<AskStep, Fault>
    // What it does.
    ensures row { ConnectionRow X.Sealing.crypto transport.old.machine channels.old (ask_of ask.now) result transport.new.machine
        channels.new (listed_outs out.old out.new sent.old sent.new) }
    ensures over { IfOk result (λ step. EndsSpent transport.old.machine step.refused transport.new.machine) }
    // If it fails.
    ensures fails { IfErr result (λ fault. Fails transport.old.machine fault transport.new.machine) }
    ensures unchanged { IfErr result (λ fault. KeepsDead transport.old fault transport.new) }
    ensures channels { IfErr result (λ fault. KeepsLayers channels.old fault channels.new) }
    ensures asked_channels { ConnectionAsked channels.old (ask_of ask.now) channels.new }
    ensures reading { transport.new.machine.kept.dead ≡ false → SameReading transport.old.machine transport.new.machine }
    ensures out { OnErr result (out.new.items ≡ out.old.items) }
    ensures kept { OnErr result (map (λ v. v.items) sent.new.items ≡ map (λ v. v.items) sent.old.items) }
    // The role stays. Where the padding comes from.
    ensures alive { transport.new.machine.kept.dead ≡ false → transport.old.machine.kept.dead ≡ false }
    ensures user { transport.new.machine.kept.dead ≡ false → KeepsUser transport.old.machine.kept transport.new.machine.kept }
    ensures role { transport.new.role ≡ transport.old.role }
    ensures padded { OnAnswered result (PadsTo X.Sealing.crypto X.Filler.gives (sending_of transport.old out.old sent.old)
        (sending_of transport.new out.new sent.new)) }
{
    if transport.is_dead() {
        return Err(Fault::Dead);
    }
    ask_numbers(*ask);
    // Channels use no session id.
    let below = TransportView {
        session: &[0; 32],
        blocked: transport.blocked(),
        authenticated: transport.is_authenticated(),
    };
    match ask_channels(channels, &below, ask, transport.rekey_due()) {
        Ok(given) => {
            message_numbers(given.message);
            recipient_number(given.message);
            send_given(transport, ask, &given, out, sent)
        }
        Err(CallError::Refused(why)) => Err(Fault::Ask(why)),
        Err(CallError::Memory) => lack_memory(transport),
    }
}

// Sends what channels gave.
fn send_given<X: Role>(
    transport: &mut Transport<X>,
    ask: &Ask<'_>,
    given: &MessageToSend<'_>,
    out: &mut Vec<u8>,
    sent: &mut Vec<Vec<u8>>,
) -> Result<AskStep, Fault>
    // What the caller must ensure.
    requires fits { Fits given.now.message }
    requires context { FitsContext true (meaning given.now.message) }
    requires most { payload_size (meaning given.now.message) ≤ longest_payload }
    requires goes { MayGo transport.old.machine.kept (meaning given.now.message) }
    // What it does.
    ensures sent { IfOk result (λ step. GivenSent X.Sealing.crypto transport.old.machine (ask_of ask.now)
        (sent_of (ask_of ask.now) given.now) transport.new.machine
        (listed_outs out.old out.new sent.old sent.new) step) }
    ensures over { IfOk result (λ step. EndsSpent transport.old.machine step.refused transport.new.machine) }
    // If it fails.
    ensures failed { IfErr result (λ fault. GivenFails transport.old.machine fault transport.new.machine) }
    ensures unchanged { IfErr result (λ fault. KeepsDead transport.old fault transport.new) }
    ensures reading { transport.new.machine.kept.dead ≡ false → SameReading transport.old.machine transport.new.machine }
    ensures out { OnErr result (out.new.items ≡ out.old.items) }
    ensures kept { OnErr result (map (λ v. v.items) sent.new.items ≡ map (λ v. v.items) sent.old.items) }
    // The role stays. Where the padding comes from.
    ensures alive { transport.new.machine.kept.dead ≡ false → transport.old.machine.kept.dead ≡ false }
    ensures user { transport.new.machine.kept.dead ≡ false → KeepsUser transport.old.machine.kept transport.new.machine.kept }
    ensures role { transport.new.role ≡ transport.old.role }
    ensures padded { OnAnswered result (PadsTo X.Sealing.crypto X.Filler.gives (sending_of transport.old out.old sent.old)
        (sending_of transport.new out.new sent.new)) }
{
    let answer = send_message(transport, &given.message, out, sent)?;
    Ok(given_step(ask, given.channel, answer))
}

// The step of what was sent on this channel.
fn given_step(ask: &Ask<'_>, channel: Option<u32>, answer: SendOutcome) -> AskStep
    ensures { result ≡ step_on (ask_of ask.now) channel answer }
{
    match answer {
        SendOutcome::Done => AskStep {
            channel,
            opening: ask.opening(channel),
            refused: None,
        },
        SendOutcome::Spent => outcome_step(SendOutcome::Spent),
    }
}
