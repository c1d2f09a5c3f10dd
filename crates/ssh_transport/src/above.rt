//! What an end does for a layer above.

ghost use Rattle.ssh_transport_machine.specs.Padding.{PadsTo, sending_by};
ghost use Rattle.ssh_transport_machine.specs.Puts.{outs};
ghost use Rattle.std.specs.Prelude.{◌≡◌, ◌≤◌, IfErr, IfOk, OnErr, OnOk, length, true};
ghost use Rattle.ssh_transport.specs.Above.{PayloadSent, PeerRefused, RefuseFailed, SendFailed};
ghost use Rattle.ssh_model.specs.Protocol.Bounds.{longest_payload};

use crate::outcome::TransportFault;
use ssh_packet::{Filler, Sealing};
use ssh_transport_machine::{Machine, Outgoing, SendOutcome};
use ssh_types::Refusal;
use std::alloc::AllocError;

/// Refuses the peer on behalf of a layer above.
///
/// # Errors
///
/// - `Memory`: memory was refused. Nothing is put out, and the end is over.
/// - `Dead`: the end was over before. Nothing changes.
pub(crate) fn refuse_above<S: Sealing, F: Filler + Drop>(
    machine: &mut Machine<S>,
    refusal: Refusal,
    out: &mut Vec<u8>,
    sent: &mut Outgoing<F>,
) -> Result<(), TransportFault>
    // What it does.
    ensures refused { OnOk result (PeerRefused S.crypto machine.old refusal machine.new (outs out.old out.new sent.old sent.new)) }
    // If it fails.
    ensures failed { IfErr result (λ fault. RefuseFailed machine.old refusal fault machine.new) }
    ensures unchanged { IfErr result (λ fault. fault ≡ TransportFault.Dead → sent.new.filler ≡ sent.old.filler) }
    ensures out { OnErr result (out.new.items ≡ out.old.items) }
    ensures kept { OnErr result (sent.new.payloads.items ≡ sent.old.payloads.items) }
    // Where the padding comes from.
    ensures padded { OnOk result (PadsTo S.crypto F.gives (sending_by machine.old sent.old out.old)
        (sending_by machine.new sent.new out.new)) }
{
    if machine.is_dead() {
        return Err(TransportFault::Dead);
    }
    machine.refuse(refusal, out, sent)?;
    Ok(())
}

/// Sends the payload of a message of a layer above, if a number is left for it.
///
/// # Errors
///
/// - `Memory`: memory was refused. Nothing is put out, and the end is over.
/// - `Dead`: the end was over before. Nothing changes.
pub(crate) fn send_above<S: Sealing, F: Filler + Drop>(
    machine: &mut Machine<S>,
    payload: Vec<u8>,
    out: &mut Vec<u8>,
    sent: &mut Outgoing<F>,
) -> Result<SendOutcome, TransportFault>
    // What the caller must ensure.
    requires some { 1 ≤ length payload.items }
    requires most { length payload.items ≤ longest_payload }
    // What it does.
    ensures answered { IfOk result (λ answer. PayloadSent S.crypto machine.old payload.items answer machine.new
        (outs out.old out.new sent.old sent.new)) }
    // If it fails.
    ensures failed { IfErr result (λ fault. SendFailed machine.old fault machine.new) }
    ensures unchanged { IfErr result (λ fault. fault ≡ TransportFault.Dead → sent.new.filler ≡ sent.old.filler) }
    ensures out { OnErr result (out.new.items ≡ out.old.items) }
    ensures kept { OnErr result (sent.new.payloads.items ≡ sent.old.payloads.items) }
    // Where the padding comes from.
    ensures padded { OnOk result (PadsTo S.crypto F.gives (sending_by machine.old sent.old out.old)
        (sending_by machine.new sent.new out.new)) }
{
    if machine.is_dead() {
        return Err(TransportFault::Dead);
    }
    if machine.is_spent() {
        machine.die();
        return Ok(SendOutcome::Spent);
    }
    machine.put(payload, out, sent)?;
    Ok(SendOutcome::Done)
}
