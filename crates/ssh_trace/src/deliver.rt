//! The turns on an ask, and on bytes that come, with their records.

ghost use Rattle.std.specs.Prelude.{◌≡◌, ◌<◌, ◌≤◌, false, length, take, IfOk, OnOk};
ghost use Rattle.ssh_trace.specs.EpochEnd.{SameKeys};
ghost use Rattle.ssh_trace.specs.Turns.{Asked, Delivered, Turn};

use crate::epoch_end::{AskStep, EpochEnd};
use crate::history::{Done, Item, note, note_sent, note_took};
use ssh_packet::PacketStep;
use ssh_types::{AskRefusal, Refusal, Side};
use std::alloc::{AllocError, Global};

/// Asks an end to send a payload. A dead end does nothing.
pub(crate) fn ask(
    end: &mut EpochEnd,
    alloc: Global,
    side: Side,
    payload: &[u8],
    log: &mut Vec<Done>,
    out: &mut Vec<u8>,
) -> Result<(), AllocError>
    requires { 1 ≤ length payload.now }
    ensures asked { OnOk result (Asked end.old.sending_key side payload.now end.old end.new log.old.items log.new.items
        out.old.items out.new.items) }
    ensures keys { SameKeys end.old end.new }
{
    if end.is_dead() {
        return Ok(());
    }
    match end.ask(payload, out)? {
        AskStep::Sent => {
            note(log, side, Item::Asked)?;
            note_sent(alloc, log, side, payload)?;
            Ok(())
        }
        AskStep::TooLong => {
            note(log, side, Item::Asked)?;
            note(log, side, Item::AskRefused(AskRefusal::TooLong))?;
            Ok(())
        }
        AskStep::Spent => {
            note(log, side, Item::Asked)?;
            note(log, side, Item::Refused(Refusal::NumberSpent))?;
            note(log, side, Item::Died)?;
            Ok(())
        }
    }
}

/// Delivers a piece of the stream to an end. A dead end does nothing.
pub(crate) fn deliver(
    end: &mut EpochEnd,
    alloc: Global,
    side: Side,
    piece: &[u8],
    log: &mut Vec<Done>,
) -> Result<(), AllocError>
    ensures delivered { OnOk result (Delivered end.old.taking_key side piece.now end.old end.new log.old.items log.new.items) }
    ensures keys { SameKeys end.old end.new }
{
    let mut at = 0;
    while at < piece.len() {
        if end.is_dead() {
            return Ok(());
        }
        let rest = piece.split_at(at).1;
        at += deliver_once(end, alloc, side, rest, log)?;
    }
    let _ = end.held();
    Ok(())
}

// Delivers bytes to the end of one packet, and answers how many.
fn deliver_once(
    end: &mut EpochEnd,
    alloc: Global,
    side: Side,
    bytes: &[u8],
    log: &mut Vec<Done>,
) -> Result<usize, AllocError>
    // What the caller must ensure.
    requires alive { end.old.dead ≡ false }
    // What it does.
    ensures used { IfOk result (λ count. count ≤ length bytes.now) }
    ensures progress { IfOk result (λ count. 0 < length bytes.now → 0 < count) }
    ensures turn { IfOk result (λ count. Turn end.old.taking_key side (take count bytes.now) end.old end.new log.old.items
        log.new.items) }
    ensures keys { SameKeys end.old end.new }
{
    let (used, step) = end.take(bytes);
    match step {
        PacketStep::More => Ok(used),
        PacketStep::Payload => {
            note_took(alloc, log, side, end.payload())?;
            Ok(used)
        }
        PacketStep::Refused(refusal) => {
            note(log, side, Item::Refused(refusal))?;
            note(log, side, Item::Died)?;
            Ok(used)
        }
    }
}
