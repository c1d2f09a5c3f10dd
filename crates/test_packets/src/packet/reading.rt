//! The loop by which a program reads a stream that comes in any pieces: the lines of the peer, then its packets.

use ssh_packet::{LineReader, LineStep, MacOnly, PacketReceiver, PacketStep};
use ssh_toys::lines::{Problem, digits_of};
use ssh_types::Refusal;
use std::alloc::{AllocError, Global};

/// The stream of a server, from its first byte on, in the clear, and what was seen of it.
#[derive(Drop)]
pub struct Incoming {
    lines: LineReader,
    packets: PacketReceiver<MacOnly>,
    after_lines: bool,
    // How many lines came before the version line, how many packets, and the bytes of their payloads in all.
    other_lines: u32,
    payloads: u32,
    bytes: usize,
}

impl Incoming {
    /// A stream of which nothing came. It reserves the 35,000 bytes that a packet may have, the only memory that it takes.
    ///
    /// # Errors
    ///
    /// Only if memory is refused.
    pub fn new(alloc: Global) -> Result<Incoming, AllocError> {
        Ok(Incoming {
            lines: LineReader::new(true),
            packets: PacketReceiver::new(alloc)?,
            after_lines: false,
            other_lines: 0,
            payloads: 0,
            bytes: 0,
        })
    }

    // Reads a piece to its end, line by line and packet by packet, and counts what it finds.
    fn read(&mut self, piece: &[u8]) -> Result<(), Refusal> {
        let mut rest = piece;
        for _ in 0..piece.len() {
            if rest.is_empty() {
                break;
            }
            if self.after_lines {
                let (used, step) = self.packets.take(rest);
                rest = rest.get(used..).unwrap_or(&[]);
                match step {
                    PacketStep::More => {}
                    PacketStep::Payload => {
                        self.payloads = self.payloads.saturating_add(1);
                        self.bytes = self.bytes.saturating_add(self.packets.payload().len());
                    }
                    PacketStep::Refused(why) => return Err(why),
                }
            } else {
                let (used, step) = self.lines.take(rest);
                rest = rest.get(used..).unwrap_or(&[]);
                match step {
                    LineStep::More => {}
                    LineStep::Other => self.other_lines = self.other_lines.saturating_add(1),
                    LineStep::Version { .. } => self.after_lines = true,
                    LineStep::Refused(why) => return Err(Refusal::from(why)),
                }
            }
        }
        Ok(())
    }

    /// Reads bytes in pieces of this size, and shows what was seen of the stream, the version line and the last payload, or why the
    /// stream is refused.
    ///
    /// # Errors
    ///
    /// Only if memory is refused.
    pub fn seen(&mut self, alloc: Global, bytes: &[u8], size: usize) -> Result<String, Problem> {
        for piece in bytes.chunks(size.max(1)) {
            if let Err(why) = self.read(piece) {
                return Ok(format!(in alloc; "{why:?}")?);
            }
        }
        let payload = digits_of(alloc, self.packets.payload())?;
        let counts = (self.other_lines, self.payloads, self.bytes);
        let line = self.lines.version_line().unwrap_or(b"none");
        let line = line.escape_ascii();
        Ok(format!(in alloc; "{counts:?} {line} {payload}")?)
    }
}
