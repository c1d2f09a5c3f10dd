//! What an end does once its transport ended an exchange of keys.

ghost use Rattle.ssh_transport_machine.specs.Padding.{PadsTo};
ghost use Rattle.ssh_transport.specs.States.{sending_of};
ghost use Rattle.ssh_transport_machine.specs.Puts.{listed_outs};
ghost use Rattle.std.specs.Prelude.{◌≡◌, ◌≤◌, ◌++◌, IfOk, OnErr, OnOk, false, length, true};
ghost use Rattle.ssh_transport.specs.Roles.{KeepsUser};
ghost use Rattle.ssh_end_machine.specs.OwedReplies.{OwedFlushed, completed_at};
ghost use Rattle.ssh_end_machine.specs.WithChannels.{channels_after};
ghost use Rattle.ssh_end_machine.specs.Owed.{Extends};

use crate::owed::give_owed;
use crate::step::{EventKind, Step, TakenMessage};
use ssh_channels::Channels;
use ssh_transport::{Role, Transport};
use ssh_types::Refusal;
use std::alloc::AllocError;

/// Gives what is owed after NEWKEYS, and says at which position the exchange was completed. Where nothing is owed it asks for no memory.
///
/// # Errors
///
/// Only if memory is refused: the end is over, and what was put out so far stands.
#[tactic(auto, using(crate::proofs::Padding::pads_none))]
pub fn flush_owed_replies<X: Role>(
    transport: &mut Transport<X>,
    channels: &mut Channels,
    out: &mut Vec<u8>,
    sent: &mut Vec<Vec<u8>>,
    numbers: &mut Vec<Option<u32>>,
) -> Result<Step, AllocError>
    // What the caller must ensure.
    requires alive { transport.old.machine.kept.dead ≡ false }
    requires free { transport.old.machine.kept.blocked ≡ false }
    // What it does.
    ensures completing { IfOk result (λ step. OwedFlushed X.Sealing.crypto transport.old.machine channels.old step transport.new.machine
        channels.new (listed_outs out.old out.new sent.old sent.new)) }
    ensures numbered { IfOk result (λ step. numbers.new.items ≡ numbers.old.items ++ channels_after step channels.old.owed) }
    ensures whole { IfOk result (λ step. step ≡ Step.More → ⊥) }
    // If it fails.
    ensures needs_memory { OnErr result (1 ≤ length channels.old.owed) }
    ensures dead { OnErr result (transport.new.machine.kept.dead ≡ true) }
    ensures user { transport.new.machine.kept.dead ≡ false → KeepsUser transport.old.machine.kept transport.new.machine.kept }
    ensures rest { transport.new.machine ≡ record transport.old.machine { kept = transport.new.machine.kept } }
    ensures out { Extends out.old.items out.new.items }
    // The role stays. Where the padding comes from.
    ensures role { transport.new.role ≡ transport.old.role }
    ensures padded { OnOk result (PadsTo X.Sealing.crypto X.Filler.gives (sending_of transport.old out.old sent.old)
        (sending_of transport.new out.new sent.new)) }
{
    let owed = channels.owed();
    if owed == 0 {
        return Ok(completed(transport));
    }
    if !transport.has_numbers(owed as u64) {
        transport.die();
        return Ok(Step::Refused(Refusal::NumberSpent));
    }
    let done = completed(transport);
    give_owed(transport, channels, out, sent, numbers)?;
    Ok(done)
}

// What is told of the exchange that is completed now.
fn completed<X: Role>(transport: &Transport<X>) -> Step
    ensures { result ≡ completed_at transport.now.machine.kept.sending.epoch }
{
    let (position, _) = transport.epochs();
    Step::Took(TakenMessage {
        channel: None,
        probing: false,
        event_kind: EventKind::Completed(position),
    })
}
