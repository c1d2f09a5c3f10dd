ghost use Rattle.std.specs.Prelude.{◌≡◌};
ghost use Rattle.ssh_trace.specs.declared.decode.DecodeFault.TheVariants.{OutOfMemory};

use crate::answer::{Answer, finish, report};
use crate::blame::{FieldFault, fault_of};
use crate::shown::{Shown, packet_of};
use crate::status::Status;
use ssh_message::Line;
use ssh_packet::PacketRefusal;
use ssh_script::HexFault;
use ssh_types::Refusal;
use std::alloc::{AllocError, Global};
use std::fmt;
use std::fmt::{Display, Formatter};
use std::io::Write;
use thiserror::Error;

/// Why there is nothing to print of a text.
#[derive(Debug, Drop, Error)]
enum DecodeFault {
    #[error("{0}: HEX is pairs of hexadecimal digits")]
    NotHex(HexFault),
    #[error("out of memory")]
    OutOfMemory,
}

impl From<AllocError> for DecodeFault {
    ghost from_gives = { λ _ e. e ≡ OutOfMemory };

    fn from(_error: AllocError) -> DecodeFault {
        DecodeFault::OutOfMemory
    }
}

/// Prints one clear packet (RFC 4253 section 6), given in hexadecimal digits, as one line on `out`: its message, or the
/// first of these that holds: `refused 3 BadLength`; `incomplete`, if bytes are missing; `refused 4 BadPadding`;
/// `trailing N`, if N bytes follow the packet; `refused 6 BadMessage`.
///
/// `Status::Done` if a message was printed, `Status::Refused` for another line; `err` then has a line that says which field is wrong, at
/// which byte of the packet, counted from 1, and why. `Status::Fault`, with a message on `err` and nothing on `out`, for a text that isn't
/// hexadecimal and if an allocation failed; and if writing to `out` failed.
pub fn decode_to<W: Write, E: Write>(
    alloc: Global,
    text: &str,
    out: &mut W,
    err: &mut E,
) -> Status {
    let shown = match packet_of(alloc, text) {
        Ok(shown) => shown,
        Err(_) => return report(DecodeFault::OutOfMemory, err),
    };
    let status = finish(decoded(alloc, text, &shown), out, err);
    if status == Status::Refused {
        // Where this can't be written, the printed line still tells of the refusal.
        let _ = writeln!(
            err,
            "{}",
            Note {
                text,
                shown: &shown
            }
        );
    }
    status
}

fn decoded(alloc: Global, text: &str, shown: &Shown) -> Result<Answer, DecodeFault> {
    match shown {
        Shown::NotHex => Err(DecodeFault::NotHex(HexFault::of(text))),
        Shown::Refused(refusal) => {
            let refusal = Refusal::from(*refusal);
            let (number, name) = (refusal.number(), refusal.name());
            refused(format!(in alloc; "refused {number} {name}\n")?)
        }
        Shown::Incomplete => refused(format!(in alloc; "incomplete\n")?),
        Shown::Trailing(count) => refused(format!(in alloc; "trailing {count}\n")?),
        Shown::Payload(payload) => message(alloc, payload.as_slice()),
    }
}

fn message(alloc: Global, payload: &[u8]) -> Result<Answer, DecodeFault> {
    let Ok(line) = Line::new(true, payload) else {
        return refused(format!(in alloc; "refused 6 BadMessage\n")?);
    };
    Ok(Answer {
        text: format!(in alloc; "{line}\n")?,
        status: Status::Done,
    })
}

fn refused(text: String) -> Result<Answer, DecodeFault> {
    Ok(Answer {
        text,
        status: Status::Refused,
    })
}

// Which field of a packet that is no message is wrong, and at which byte.
#[derive(Clone, Copy)]
struct Note<'a> {
    text: &'a str,
    shown: &'a Shown,
}

// The bytes of a packet before its payload: packet_length and padding_length.
const BEFORE_PAYLOAD: usize = 5;

impl Display for Note<'_> {
    fn fmt<W: fmt::Write>(&self, out: &mut Formatter<W>) -> fmt::Result {
        let count = self.text.len() / 2;
        match self.shown {
            Shown::NotHex => write!(out, "the packet is not hexadecimal"),
            Shown::Refused(PacketRefusal::BadLength) => write!(
                out,
                "byte 1, packet_length: {}",
                PacketRefusal::BadLength
            ),
            Shown::Refused(refusal) => write!(out, "byte 5, padding_length: {refusal}"),
            Shown::Incomplete => write!(out, "after byte {count}: the packet goes on"),
            Shown::Trailing(trailing) => {
                let last = count.saturating_sub(*trailing);
                write!(out, "after byte {last}: the packet has ended")
            }
            Shown::Payload(payload) => match fault_of(payload.as_slice()) {
                Some(FieldFault { field, at, refusal }) => {
                    let at = at.saturating_add(BEFORE_PAYLOAD + 1);
                    write!(out, "byte {at}, {field}: {refusal}")
                }
                None => write!(out, "the payload is no message"),
            },
        }
    }
}
