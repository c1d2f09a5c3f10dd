//! What an end sends for a payload from 50 on, once the layers above its transport have judged it.

ghost use Rattle.ssh_transport_machine.specs.Padding.{PadsTo};
ghost use Rattle.ssh_transport.specs.States.{sending_of};
ghost use Rattle.ssh_transport_machine.specs.Puts.{listed_outs};
ghost use Rattle.std.specs.Prelude.{◌≡◌, ◌≤◌, Err, IfErr, IfOk, IfSome, Ok, OnErr, OnOk, false, true};
ghost use Rattle.ssh_message.specs.Meaning.{meaning};
ghost use Rattle.ssh_message.specs.Written.{Fits};
ghost use Rattle.ssh_model.specs.Protocol.Bounds.{longest_payload};
ghost use Rattle.ssh_model.specs.Protocol.Wire.Message.{FitsContext};
ghost use Rattle.ssh_model.specs.Laws.Sizes.{payload_size};
ghost use Rattle.ssh_end_machine.specs.Above.{CanFinish, CanReply, FinishNeedsMemory, Finished, IsAnswer, NoAnswer};
ghost use Rattle.ssh_end_machine.specs.Following.{MayGo};
ghost use Rattle.ssh_end_machine.specs.declared.step.Step.TheVariants as Step;
ghost use Rattle.ssh_transport.specs.Above.{IsPut};
ghost use Rattle.ssh_transport_machine.specs.State.{dead_state};
ghost use Rattle.std.specs.Option.{option_map};

use crate::step::{Step, TakenMessage};
use ssh_message::Message;
use ssh_transport::{Role, Transport, TransportFault};
use ssh_transport_machine::SendOutcome;
use ssh_types::{CallError, Refusal};
use std::alloc::AllocError;

/// What the layers above answer to a message that they took, before anything is sent.
#[derive(Drop)]
pub struct ServiceReply {
    pub step: TakenMessage,
    // The payload of what is sent at once.
    pub reply: Option<Vec<u8>>,
    // The user is authenticated with this.
    pub success: bool,
}

/// Refuses the peer for this.
///
/// # Errors
///
/// Only if memory is refused: nothing is put out, and the end is over.
pub fn refuse<X: Role>(
    transport: &mut Transport<X>,
    why: Refusal,
    out: &mut Vec<u8>,
    sent: &mut Vec<Vec<u8>>,
) -> Result<Step, AllocError>
    // What the caller must ensure.
    requires can { CanFinish transport.old.machine (Err why) }
    // What it does.
    ensures finished { IfOk result (λ step. Finished X.Sealing.crypto transport.old.machine (Err why) step transport.new.machine
        (listed_outs out.old out.new sent.old sent.new)) }
    ensures whole { IfOk result (λ step. step ≡ Step.More → ⊥) }
    // If it fails.
    ensures needs_memory { OnErr result (FinishNeedsMemory transport.old.machine (Err why)) }
    ensures dead { OnErr result (transport.new.machine.kept.dead ≡ true) }
    ensures out { OnErr result (out.new.items ≡ out.old.items) }
    ensures kept { OnErr result (sent.new.items ≡ sent.old.items) }
    // The role stays. Where the padding comes from.
    ensures role { transport.new.role ≡ transport.old.role }
    ensures padded { OnOk result (PadsTo X.Sealing.crypto X.Filler.gives (sending_of transport.old out.old sent.old)
        (sending_of transport.new out.new sent.new)) }
{
    match transport.refuse(why, out, sent) {
        Ok(()) => Ok(Step::Refused(why)),
        Err(_) => Err(AllocError),
    }
}

/// Sends what is sent at once, if anything, and marks the user as authenticated where that is so.
///
/// # Errors
///
/// Only if memory is refused: nothing is put out, and the end is over.
#[tactic(auto, using(crate::proofs::Padding::pads_none, crate::proofs::Finishing::no_success))]
pub fn send_reply<X: Role>(
    transport: &mut Transport<X>,
    above: ServiceReply,
    out: &mut Vec<u8>,
    sent: &mut Vec<Vec<u8>>,
) -> Result<Step, AllocError>
    // What the caller must ensure.
    requires can { CanFinish transport.old.machine (Ok above) }
    // What it does.
    ensures finished { IfOk result (λ step. Finished X.Sealing.crypto transport.old.machine (Ok above) step transport.new.machine
        (listed_outs out.old out.new sent.old sent.new)) }
    ensures whole { IfOk result (λ step. step ≡ Step.More → ⊥) }
    // If it fails.
    ensures needs_memory { OnErr result (FinishNeedsMemory transport.old.machine (Ok above)) }
    ensures dead { OnErr result (transport.new.machine.kept.dead ≡ true) }
    ensures out { OnErr result (out.new.items ≡ out.old.items) }
    ensures kept { OnErr result (sent.new.items ≡ sent.old.items) }
    // The role stays. Where the padding comes from.
    ensures role { transport.new.role ≡ transport.old.role }
    ensures padded { OnOk result (PadsTo X.Sealing.crypto X.Filler.gives (sending_of transport.old out.old sent.old)
        (sending_of transport.new out.new sent.new)) }
{
    let ServiceReply {
        step,
        reply,
        success,
    } = above;
    if let Some(payload) = reply {
        put(transport, payload, out, sent)?;
    }
    if success {
        transport.authenticated();
    }
    Ok(Step::Took(step))
}

/// Sends this payload, for which a number is left.
///
/// # Errors
///
/// Only if memory is refused: nothing is put out, and the end is over.
pub fn put<X: Role>(
    transport: &mut Transport<X>,
    payload: Vec<u8>,
    out: &mut Vec<u8>,
    sent: &mut Vec<Vec<u8>>,
) -> Result<(), AllocError>
    // What the caller must ensure.
    requires can { CanReply transport.old.machine payload.items }
    // What it does.
    ensures put { OnOk result (IsPut X.Sealing.crypto transport.old.machine payload.items transport.new.machine
        (listed_outs out.old out.new sent.old sent.new)) }
    // If it fails.
    ensures dead { OnErr result (transport.new.machine ≡ dead_state transport.old.machine) }
    ensures out { OnErr result (out.new.items ≡ out.old.items) }
    ensures kept { OnErr result (sent.new.items ≡ sent.old.items) }
    // The role stays.
    ensures role { transport.new.role ≡ transport.old.role }
    // Where the padding comes from.
    ensures padded { OnOk result (PadsTo X.Sealing.crypto X.Filler.gives (sending_of transport.old out.old sent.old)
        (sending_of transport.new out.new sent.new)) }
{
    match transport.send(payload, out, sent) {
        Ok(SendOutcome::Done) => Ok(()),
        Err(TransportFault::Memory) => Err(AllocError),
        Ok(SendOutcome::Spent) | Err(TransportFault::Dead) => unreachable!(),
    }
}

/// Encodes what is sent at once for a message that was taken so, if anything. The numbers are tested before any memory is asked for.
///
/// # Errors
///
/// - `Refused`: no number is left for what would be sent (`NumberSpent`).
/// - `Memory`: memory was refused for it.
pub fn encode_answer<X: Role>(
    transport: &Transport<X>,
    step: TakenMessage,
    message: Option<Message<'_>>,
    success: bool,
) -> Result<ServiceReply, CallError<Refusal>>
    // What the caller must ensure.
    requires fits { IfSome message (λ m. Fits m) }
    requires context { IfSome message (λ m. FitsContext true (meaning m)) }
    requires short { IfSome message (λ m. payload_size (meaning m) ≤ longest_payload) }
    requires alive { transport.now.machine.kept.dead ≡ false }
    requires goes { IfSome message (λ m. MayGo transport.now.machine.kept (meaning m)) }
    // What it returns.
    ensures made { IfOk result (λ above. IsAnswer transport.now.machine step (option_map meaning message.entry) success above) }
    ensures can { IfOk result (λ above. CanFinish transport.now.machine (Ok above)) }
    // If it fails.
    ensures failed { IfErr result (λ fault. NoAnswer transport.now.machine (option_map meaning message.entry) fault) }
{
    ssh_model::laws::payload_numbers();
    let Some(message) = message else {
        return Ok(ServiceReply {
            step,
            reply: None,
            success,
        });
    };
    if transport.is_spent() {
        return Err(CallError::Refused(Refusal::NumberSpent));
    }
    let payload = transport.encode_payload(&message)?;
    Ok(ServiceReply {
        step,
        reply: Some(payload),
        success,
    })
}
