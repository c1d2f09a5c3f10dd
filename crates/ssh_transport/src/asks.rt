//! What a user asks of an end.

ghost use Rattle.ssh_transport_machine.specs.Padding.{PadsTo, sending_by};
ghost use Rattle.ssh_transport_machine.specs.Puts.{outs};
ghost use Rattle.std.specs.Prelude.{◌≡◌, IfErr, IfOk, OnErr, OnOk, true};
ghost use Rattle.ssh_transport.specs.Asks.{AskFailed, AskNeededMemory, AskTaken, AskTurned};

use crate::asking::{ask_disconnect, ask_rekey, ask_service};
use crate::outcome::{AskTurn, TransportAsk, TransportFault};
use ssh_packet::{Filler, Sealing};
use ssh_transport_machine::{Machine, Outgoing};
use std::alloc::AllocError;

/// Does what the ask says, or refuses the ask, which changes nothing.
///
/// # Errors
///
/// - `Memory`: memory was refused. Nothing is put out, and the end is over.
/// - `Dead`: the end was over before. Nothing changes.
pub(crate) fn answer_ask<S: Sealing, F: Filler + Drop>(
    machine: &mut Machine<S>,
    ask: TransportAsk<'_>,
    out: &mut Vec<u8>,
    sent: &mut Outgoing<F>,
) -> Result<AskTurn, TransportFault>
    // What it does.
    ensures asked { IfOk result (λ turn. AskTaken S.crypto machine.old ask.entry turn machine.new
        (outs out.old out.new sent.old sent.new)) }
    // If it fails.
    ensures failed { IfErr result (λ fault. AskFailed machine.old ask.entry fault machine.new) }
    ensures unchanged { IfErr result (λ fault. fault ≡ TransportFault.Dead → sent.new.filler ≡ sent.old.filler) }
    ensures out { OnErr result (out.new.items ≡ out.old.items) }
    ensures kept { OnErr result (sent.new.payloads.items ≡ sent.old.payloads.items) }
    // Where the padding comes from.
    ensures padded { OnOk result (PadsTo S.crypto F.gives (sending_by machine.old sent.old out.old)
        (sending_by machine.new sent.new out.new)) }
{
    if machine.is_dead() {
        return Err(TransportFault::Dead);
    }
    let turn = turn_ask(machine, ask, out, sent)?;
    Ok(turn)
}

// The same of an end that is not over.
fn turn_ask<S: Sealing, F: Filler + Drop>(
    machine: &mut Machine<S>,
    ask: TransportAsk<'_>,
    out: &mut Vec<u8>,
    sent: &mut Outgoing<F>,
) -> Result<AskTurn, AllocError>
    // What it does.
    ensures turned { IfOk result (λ turn. AskTurned S.crypto machine.old ask.entry turn machine.new
        (outs out.old out.new sent.old sent.new)) }
    // If it fails.
    ensures dead { OnErr result (machine.new.kept.dead ≡ true) }
    ensures needs_memory { OnErr result (AskNeededMemory machine.old ask.entry) }
    ensures out { OnErr result (out.new.items ≡ out.old.items) }
    ensures kept { OnErr result (sent.new.payloads.items ≡ sent.old.payloads.items) }
    // Where the padding comes from.
    ensures padded { OnOk result (PadsTo S.crypto F.gives (sending_by machine.old sent.old out.old)
        (sending_by machine.new sent.new out.new)) }
{
    match ask {
        TransportAsk::Service => ask_service(machine, out, sent),
        TransportAsk::Rekey => ask_rekey(machine, out, sent),
        TransportAsk::Disconnect(description) => ask_disconnect(machine, description, out, sent),
    }
}
