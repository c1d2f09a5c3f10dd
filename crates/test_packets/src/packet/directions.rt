//! The lines and packets of one direction of a connection, sent and taken, under MACs alone.
//!
//! - `from server` and `from client` make a reader of the lines of that peer. `line` and a text let it take that text with CR LF, and
//!   `bytes` lets it take these bytes. How many of them are used is said, and what they are. `bytes` and two words of digits let it take
//!   those of the first one by one, in the middle of a line, and then those of the second.
//! - `sender` makes a sender whose packets are in clear, and `sender` and a key one of packets under that key. `send` and a payload, and
//!   `strict` or `plain` and a key, for a NEWKEYS, are what it sends. `sending` shows its number, how many packets and how many NEWKEYS
//!   were sent, and how many packets may still be sent. `out` shows all that it put out.
//! - `receiver` and a key make a receiver under that key. `take` and bytes let it take them, and those of two words as a reader does. How
//!   many bytes are used is said, and what they are. `receiving` shows its number, how many packets and how many NEWKEYS were taken, how
//!   many bytes it holds, and the payload that it shows.
//! - `strict-epochs` or `plain-epochs` and two words of digits make a receiver of packets in clear. It takes NEWKEYS from the bytes of the
//!   first one, and begins an epoch under a key of 32 bytes 01. From those of the second, if any, it takes one more, for a key of 02.
//! - `pieces`, a number and bytes are a stream of a server, from its first byte on, that comes in pieces of so many bytes. `more` and bytes
//!   come after them. How many lines came before the version line is shown, how many packets and how many bytes of payloads, then the
//!   version line and the last payload, or why the stream is refused.

use crate::packet::epochs::take_newkeys;
use crate::packet::reading::Incoming;
use ssh_packet::{
    HmacKey, LineReader, LineStep, MacOnly, PacketReceiver, PacketSender, PacketStep,
};
use ssh_toys::ToyFiller;
use ssh_toys::lines::{Layer, Problem, bytes_of, digits_of, parsed, text_of};
use ssh_types::Refusal;
use ssh_types::bounds::MOST_EXCHANGES;
use std::alloc::{AllocError, Global};

/// Both ends of a direction that are told lines.
#[derive(Drop)]
pub struct DirectionLines {
    alloc: Global,
    lines: LineReader,
    sender: PacketSender<MacOnly>,
    out: Vec<u8>,
    receiver: PacketReceiver<MacOnly>,
    incoming: Incoming,
}

impl DirectionLines {
    /// Lines of a direction in which nothing went.
    ///
    /// # Errors
    ///
    /// Only if memory is refused.
    pub fn new(alloc: Global) -> Result<DirectionLines, AllocError> {
        Ok(DirectionLines {
            alloc,
            lines: LineReader::new(true),
            sender: PacketSender::new(),
            out: Vec::new(alloc),
            receiver: PacketReceiver::new(alloc)?,
            incoming: Incoming::new(alloc)?,
        })
    }

    // What a reader of lines finds in the last bytes, after those that come one by one in the middle of a line.
    fn read(&mut self, front: &[u8], last: &[u8]) -> Result<String, Problem> {
        for byte in front {
            let (used, step) = self.lines.take(&[*byte]);
            if used != 1 || step != LineStep::More {
                return text_of(self.alloc, "not in the middle");
            }
        }
        let (used, step) = self.lines.take(last);
        let what = found(self.alloc, step)?;
        Ok(format!(in self.alloc; "{used} {what}")?)
    }

    // What the receiver finds, in the same way.
    fn taken(&mut self, front: &[u8], last: &[u8]) -> Result<String, Problem> {
        for byte in front {
            let (used, step) = self.receiver.take(&[*byte]);
            if used != 1 || step != PacketStep::More {
                return text_of(self.alloc, "not in the middle");
            }
        }
        let (used, step) = self.receiver.take(last);
        Ok(format!(in self.alloc; "{used} {step:?}")?)
    }

    // Begins an epoch, or two of them, where bytes stand for the second one.
    fn renewed(&mut self, is_strict: bool, first: &[u8], second: &[u8]) -> Result<String, Problem> {
        let mut receiver = PacketReceiver::<MacOnly>::new(self.alloc)?;
        if !take_newkeys(&mut receiver, first, HmacKey::new(&[1; 32]), is_strict) {
            return text_of(self.alloc, "no NEWKEYS");
        }
        if !second.is_empty() {
            if !take_newkeys(&mut receiver, second, HmacKey::new(&[2; 32]), is_strict) {
                return text_of(self.alloc, "no second NEWKEYS");
            }
        }
        self.receiver = receiver;
        Ok(String::new(self.alloc))
    }

    // Sends a payload, or NEWKEYS for a key.
    fn sent(&mut self, word: &str, bytes: &[u8]) -> Result<String, Problem> {
        if bytes.is_empty() || bytes.len() > 34_000 || self.sender.is_spent() {
            return Err(Problem::NotALine);
        }
        let mut zeros = ToyFiller { byte: 0 };
        if word == "send" {
            self.sender.send(bytes, &mut zeros, &mut self.out)?;
            return Ok(String::new(self.alloc));
        }
        if self.sender.epoch() >= MOST_EXCHANGES {
            return Err(Problem::NotALine);
        }
        let key = HmacKey::new(bytes);
        let is_strict = word == "strict";
        self.sender
            .send_newkeys(key, is_strict, &mut zeros, &mut self.out)?;
        Ok(String::new(self.alloc))
    }

    // What comes of a word, and of the bytes of one or two words that stand after it.
    fn told(&mut self, word: &str, front: &[u8], last: &[u8]) -> Result<String, Problem> {
        match word {
            "bytes" => self.read(front, last),
            "take" => self.taken(front, last),
            "send" | "strict" | "plain" => self.sent(word, last),
            "strict-epochs" => self.renewed(true, front, last),
            "plain-epochs" => self.renewed(false, front, last),
            "more" => self.incoming.seen(self.alloc, last, last.len()),
            "sender" => {
                self.out.clear();
                self.sender = PacketSender::with_key(HmacKey::new(last));
                Ok(String::new(self.alloc))
            }
            "receiver" => {
                self.receiver = PacketReceiver::with_key(self.alloc, HmacKey::new(last))?;
                Ok(String::new(self.alloc))
            }
            _ => Err(Problem::NotALine),
        }
    }

    // What is shown of both ends.
    fn shown(&self, word: &str) -> Result<String, Problem> {
        let alloc = self.alloc;
        let (sender, receiver) = (&self.sender, &self.receiver);
        match word {
            "out" => digits_of(alloc, &self.out),
            "sending" => {
                let counts = (sender.number(), sender.count(), sender.epoch());
                Ok(format!(in alloc; "{counts:?} {}", sender.numbers_left())?)
            }
            "receiving" => {
                let payload = digits_of(alloc, receiver.payload())?;
                let counts = (receiver.number(), receiver.count(), receiver.epoch());
                Ok(format!(in alloc; "{counts:?} {} ({payload})", receiver.held())?)
            }
            _ => Err(Problem::NotALine),
        }
    }
}

impl Layer for DirectionLines {
    fn said_to(&mut self, line: &str) -> Result<String, Problem> {
        let alloc = self.alloc;
        match line.split_once(' ') {
            None if line == "sender" => {
                self.out.clear();
                self.sender = PacketSender::new();
                Ok(String::new(alloc))
            }
            None => self.shown(line),
            Some(("from", peer)) => {
                self.lines = LineReader::new(peer == "server");
                Ok(String::new(alloc))
            }
            Some(("line", text)) => {
                let mut bytes = text.as_bytes().to_vec(alloc)?;
                bytes.extend_from_slice(b"\r\n")?;
                self.read(&[], &bytes)
            }
            Some((word, rest)) => {
                let (front, last) = rest.split_once(' ').unwrap_or(("", rest));
                if word == "pieces" {
                    let size = parsed(front)? as usize;
                    let bytes = bytes_of(alloc, last)?;
                    self.incoming = Incoming::new(alloc)?;
                    return self.incoming.seen(alloc, &bytes, size);
                }
                let front = bytes_of(alloc, front)?;
                let last = bytes_of(alloc, last)?;
                self.told(word, &front, &last)
            }
        }
    }
}

// What a reader found. A refusal is shown as both peers have it, and for a log.
fn found(alloc: Global, step: LineStep<'_>) -> Result<String, Problem> {
    match step {
        LineStep::Other => text_of(alloc, "other line"),
        LineStep::More => text_of(alloc, "more"),
        LineStep::Version {
            protoversion,
            software,
        } => {
            let version = protoversion.escape_ascii();
            let software = software.escape_ascii();
            Ok(format!(in alloc; "version {version} of <{software}>")?)
        }
        LineStep::Refused(why) => Ok(format!(in alloc; "{:?}, {why}", Refusal::from(why))?),
    }
}
