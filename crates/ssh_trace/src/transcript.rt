//! The lines of a transcript, one for each thing that an end did.

use crate::history::{Done, Item};
use ssh_message::name;
use ssh_types::Side;
use std::alloc::AllocError;

/// Writes the lines of these items.
pub(crate) fn write_items(items: &[Done], text: &mut String) -> Result<(), AllocError> {
    for done in items {
        write!(text, "{} ", letter_of(done.side))?;
        write_item(&done.item, text)?;
    }
    Ok(())
}

fn letter_of(side: Side) -> char {
    match side {
        Side::Client => 'c',
        Side::Server => 's',
    }
}

fn write_item(item: &Item, text: &mut String) -> Result<(), AllocError> {
    match item {
        Item::Asked => writeln!(text, "asked raw"),
        Item::AskRefused(refusal) => {
            let (number, name) = (refusal.number(), refusal.name());
            writeln!(text, "ask refused {number} {name}")
        }
        Item::Took(payload) => write_message("took", payload.as_slice(), text),
        Item::Sent(payload) => write_message("sent", payload.as_slice(), text),
        Item::Refused(refusal) => {
            let (number, name) = (refusal.number(), refusal.name());
            writeln!(text, "refused {number} {name}")
        }
        Item::Died => writeln!(text, "died"),
    }
}

// A payload is told by its first byte, the message's number, and its length.
fn write_message(verb: &str, payload: &[u8], text: &mut String) -> Result<(), AllocError> {
    let number = payload.first().copied().unwrap_or(0);
    let (name, length) = (name(number), payload.len());
    writeln!(text, "{verb} {number} {name} {length}")
}
