//! A reader of packets that is always used under keys of one sealing.

ghost use Rattle.std.specs.Prelude.{◌≤◌, length};

use ssh_packet::{HmacKey, MacOnly, PacketReader, PacketRefusal, PacketStep};
use std::alloc::{AllocError, Global};
use std::marker::Model;

/// A reader of packets under MAC keys.
#[derive(Drop)]
pub struct Stream {
    reader: PacketReader,
}

impl Model for Stream {
    ghost use Rattle.ssh_model.specs.Protocol.Wire.Packet.{with_length};
    ghost use Rattle.ssh_model.specs.Laws.Units.{IsPartial};
    ghost use Rattle.ssh_packet.specs.Reading.{Reading};

    ghost Value = { Reading };

    ghost view = { λ s. s.reader };

    ghost invariant = { λ s. IsPartial (with_length 8) 32 s.reader.rest };
}

impl Stream {
    /// A stream of which no byte came.
    ///
    /// # Errors
    ///
    /// Only if memory is refused.
    pub fn new(alloc: Global) -> Result<Stream, AllocError> {
        Ok(Stream {
            reader: PacketReader::new(alloc)?,
        })
    }

    /// Takes bytes to the end of one packet under this key and number, and answers how many.
    pub fn take(
        &mut self,
        key: &HmacKey,
        number: u32,
        bytes: &[u8],
    ) -> (usize, PacketStep<PacketRefusal>)
        ensures { result.0 ≤ length bytes.now }
    {
        self.reader.take::<MacOnly>(Some(key), number, bytes)
    }

    /// The payload of the packet that was taken last.
    pub fn payload(&self) -> &[u8] {
        self.reader.payload()
    }
}
