//! One clear packet in hexadecimal digits.

ghost use Rattle.std.specs.Prelude.{◌≡◌, ◌%◌, Ok, IfOk, length};
ghost use Rattle.ssh_trace.specs.declared.shown.Shown.TheVariants.{NotHex};
ghost use Rattle.ssh_trace.specs.Shown.{Shows, ShowsBytes};

use crate::history::Memory;
use hex::FromHexError;
use ssh_packet::{MacOnly, PacketReader, PacketRefusal, PacketStep};
use std::alloc::Global;

/// The result of reading one clear packet from a text (RFC 4253 section 6).
#[derive(Drop)]
pub enum Shown {
    /// The text isn't pairs of hexadecimal digits.
    NotHex,
    /// A length that no packet has, as soon as its four bytes are there; or padding that is too short or leaves no
    /// payload.
    Refused(PacketRefusal),
    /// Bytes are missing.
    Incomplete,
    /// So many bytes follow the packet.
    Trailing(usize),
    /// The payload of the packet, which is all of the text.
    Payload(Vec<u8>),
}

/// Reads the one clear packet that `text` is in hexadecimal digits. The empty text is `Shown::Incomplete`.
///
/// # Errors
///
/// `Memory`: an allocation for the bytes or for the reader fails. A text of odd length takes none: it is `NotHex`.
pub fn packet_of(alloc: Global, text: &str) -> Result<Shown, Memory>
    ensures shows { IfOk result (Shows text.now) }
    ensures odd { length text.now % 2 ≡ 1 → result ≡ Ok NotHex }
{
    let bytes = match hex::decode(alloc, text) {
        Ok(bytes) => bytes,
        Err(FromHexError::OutOfMemory) => return Err(Memory),
        Err(_) => return Ok(Shown::NotHex),
    };
    packet_in(alloc, bytes.as_slice())
}

// What these bytes show.
fn packet_in(alloc: Global, bytes: &[u8]) -> Result<Shown, Memory>
    ensures { IfOk result (ShowsBytes bytes.now) }
{
    let mut reader = PacketReader::new(alloc)?;
    let (used, step) = reader.take::<MacOnly>(None, 0, bytes);
    match step {
        PacketStep::More => Ok(Shown::Incomplete),
        PacketStep::Refused(refusal) => Ok(Shown::Refused(refusal)),
        PacketStep::Payload => {
            if used < bytes.len() {
                return Ok(Shown::Trailing(bytes.len() - used));
            }
            Ok(Shown::Payload(reader.payload().to_vec(alloc)?))
        }
    }
}
