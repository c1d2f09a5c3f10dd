//! Packets by themselves. They are in clear after `key clear`, under a MAC after `key mac` and a key, and after `key length-in-clear` and a
//! key under one whose blocks begin after packet_length. The last two also make a reader that is kept, of packets under a MAC.
//!
//! - `seal`, a number, a byte and a payload give the packet of this number that is padded by this byte.
//! - `open`, a number and bytes let a new reader take them. It is said how many it uses, what it finds, the payload that it shows, and how
//!   many bytes it then holds.
//! - `take`, a number and bytes let the reader that is kept take them. `take`, a number and two words of digits let it take those of the
//!   first one by one, in the middle of a packet, and then those of the second.
//! - `tag`, a key and a text give their HMAC. `lengths` and two names say how much key material the MAC takes under them, and `sizes` what
//!   a key of it has for blocks and tags.
//! - `twice` and a number give the sizes of a packet of so many bytes that is written where no room is, and where room is. `largest sealed`
//!   and `largest clear` write the largest packet and read it again.

use crate::packet::largest::{largest_clear, largest_sealed, written_twice};
use crate::packet::stream::Stream;
use ssh_packet::{
    HmacKey, MacOnly, PacketReader, PacketRefusal, PacketStep, Sealing, write_packet,
};
use ssh_toys::lines::{Layer, Problem, bytes_of, digits_of, parsed, text_of};
use ssh_toys::{LengthInClear, ToyFiller};
use ssh_types::Refusal;
use std::alloc::{AllocError, Global};

/// Packets that are told lines.
#[derive(Drop)]
pub struct PacketLines {
    alloc: Global,
    // None where packets are in clear.
    key: Option<HmacKey>,
    is_length_in_clear: bool,
    reader: Stream,
}

impl PacketLines {
    /// Lines of packets in clear.
    ///
    /// # Errors
    ///
    /// Only if memory is refused.
    pub fn new(alloc: Global) -> Result<PacketLines, AllocError> {
        Ok(PacketLines {
            alloc,
            key: None,
            is_length_in_clear: false,
            reader: Stream::new(alloc)?,
        })
    }

    fn keyed(&mut self, kind: &str, digits: &str) -> Result<String, Problem> {
        let key = bytes_of(self.alloc, digits)?;
        self.reader = Stream::new(self.alloc)?;
        self.is_length_in_clear = kind == "length-in-clear";
        self.key = Some(HmacKey::new(&key));
        Ok(String::new(self.alloc))
    }

    fn sealed(&self, number: &str, rest: &str) -> Result<String, Problem> {
        let number = parsed(number)?;
        let (padding, payload) = rest.split_once(' ').unwrap_or((rest, ""));
        let byte = bytes_of(self.alloc, padding)?.first().copied().unwrap_or(0);
        let payload = bytes_of(self.alloc, payload)?;
        if payload.is_empty() || payload.len() > 1000 {
            return Err(Problem::NotALine);
        }
        let mut filler = ToyFiller { byte };
        let mut out = Vec::new(self.alloc);
        match &self.key {
            Some(key) if self.is_length_in_clear => write_packet::<LengthInClear, ToyFiller>(
                &payload,
                Some(key),
                number,
                &mut filler,
                &mut out,
            )?,
            _ => write_packet::<MacOnly, ToyFiller>(
                &payload,
                self.key.as_ref(),
                number,
                &mut filler,
                &mut out,
            )?,
        }
        digits_of(self.alloc, &out)
    }

    fn opened(&self, number: &str, bytes: &str) -> Result<String, Problem> {
        let number = parsed(number)?;
        let bytes = bytes_of(self.alloc, bytes)?;
        let mut reader = PacketReader::new(self.alloc)?;
        let (used, step) = match &self.key {
            Some(key) if self.is_length_in_clear => {
                reader.take::<LengthInClear>(Some(key), number, &bytes)
            }
            _ => reader.take::<MacOnly>(self.key.as_ref(), number, &bytes),
        };
        let found = found(self.alloc, used, step, reader.payload())?;
        Ok(format!(in self.alloc; "{found}, {} held", reader.held())?)
    }

    // What the reader that is kept finds in the last bytes, after those that come one by one in the middle of a packet.
    fn taken(&mut self, number: &str, rest: &str) -> Result<String, Problem> {
        let number = parsed(number)?;
        let (front, last) = rest.split_once(' ').unwrap_or(("", rest));
        let front = bytes_of(self.alloc, front)?;
        let last = bytes_of(self.alloc, last)?;
        let Some(key) = &self.key else {
            return Err(Problem::NotALine);
        };
        for byte in front.iter() {
            let (used, step) = self.reader.take(key, number, &[*byte]);
            if used != 1 || step != PacketStep::More || !self.reader.payload().is_empty() {
                return text_of(self.alloc, "not in the middle");
            }
        }
        let (used, step) = self.reader.take(key, number, &last);
        found(self.alloc, used, step, self.reader.payload())
    }
}

impl Layer for PacketLines {
    fn said_to(&mut self, line: &str) -> Result<String, Problem> {
        let alloc = self.alloc;
        let (word, rest) = line.split_once(' ').unwrap_or((line, ""));
        match (word, rest.split_once(' ')) {
            ("key", Some((kind, key))) => self.keyed(kind, key),
            ("key", None) if rest == "clear" => {
                self.key = None;
                Ok(String::new(alloc))
            }
            ("seal", Some((number, rest))) => self.sealed(number, rest),
            ("open", Some((number, bytes))) => self.opened(number, bytes),
            ("take", Some((number, rest))) => self.taken(number, rest),
            ("twice", None) => written_twice(alloc, parsed(rest)?),
            ("largest", None) if rest == "sealed" => largest_sealed(alloc),
            ("largest", None) => largest_clear(alloc),
            ("sizes", None) => sizes(alloc),
            ("lengths", Some((enc, mac))) => {
                let lengths = MacOnly::lengths(enc.as_bytes(), mac.as_bytes());
                Ok(format!(in alloc; "{lengths:?}")?)
            }
            ("tag", Some((key, text))) => {
                let key = bytes_of(alloc, key)?;
                let text = bytes_of(alloc, text)?;
                digits_of(alloc, &HmacKey::new(&key).mac(&text))
            }
            _ => Err(Problem::NotALine),
        }
    }
}

// How many bytes were used, what was found, and the payload that is shown. A refusal is shown as both peers have it, and for a log.
fn found(
    alloc: Global,
    used: usize,
    step: PacketStep<PacketRefusal>,
    payload: &[u8],
) -> Result<String, Problem> {
    let payload = digits_of(alloc, payload)?;
    let what = match step {
        PacketStep::Payload => text_of(alloc, "payload")?,
        PacketStep::More => text_of(alloc, "more")?,
        PacketStep::Refused(why) => format!(in alloc; "{:?}, {why}", Refusal::from(why))?,
    };
    Ok(format!(in alloc; "{used} {what} ({payload})")?)
}

// The size of a block, whether the length counts in it, and the size of a tag.
fn sizes(alloc: Global) -> Result<String, Problem> {
    let key = MacOnly::make(alloc, b"none", b"hmac-sha2-256", b"", b"", &[1; 32])?;
    let sizes = (
        MacOnly::block(&key),
        MacOnly::counts_length(&key),
        MacOnly::tag_len(&key),
    );
    Ok(format!(in alloc; "{sizes:?}")?)
}
