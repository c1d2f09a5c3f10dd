ghost use Rattle.std.specs.Prelude.{◌≤◌, length};
ghost use Rattle.ssh_model.specs.Protocol.Bounds.{longest_payload};

use ssh_packet::{HmacKey, MacOnly, PacketReader, write_packet};
use ssh_toys::ToyFiller;
use std::alloc::{AllocError, Global};
use std::io;
use std::marker::Model;
use std::time::{Duration, Instant};

const KEY: [u8; 32] = [0x11; 32];

// The bytes of a tag.
const TAG: usize = 32;

// The padding is zeros.
const ZEROS: ToyFiller = ToyFiller { byte: 0 };

/// A sealed packet with number 0, the text that its tag covers, and a reader between packets.
#[derive(Drop)]
pub struct Case {
    key: HmacKey,
    wire: Vec<u8>,
    text: Vec<u8>,
    reader: PacketReader,
    // What the calls answered, so that none of them is idle.
    sum: usize,
}

impl Model for Case {
    ghost use Rattle.ssh_model.specs.Protocol.Wire.Packet.{with_length};
    ghost use Rattle.ssh_model.specs.Laws.Units.{IsPartial};
    ghost use Rattle.ssh_packet.specs.Reading.{Reading};

    ghost Value = { Reading };

    ghost view = { λ c. c.reader };

    ghost invariant = { λ c. IsPartial (with_length 8) 32 c.reader.rest };
}

impl Case {
    /// The packet of this payload.
    ///
    /// # Errors
    ///
    /// Only if memory is refused.
    pub fn new(alloc: Global, payload: &[u8]) -> Result<Case, AllocError>
        requires from { 1 ≤ length payload.now }
        requires to { length payload.now ≤ longest_payload }
    {
        let key = HmacKey::new(&KEY);
        let mut filler = ZEROS;
        let mut wire = Vec::new(alloc);
        write_packet::<MacOnly, ToyFiller>(payload, Some(&key), 0, &mut filler, &mut wire)?;
        let mut text = Vec::new(alloc);
        text.extend_from_slice(&0u32.to_be_bytes())?;
        text.extend_from_slice(&wire[..wire.len().saturating_sub(TAG)])?;
        Ok(Case {
            key,
            wire,
            text,
            reader: PacketReader::new(alloc)?,
            sum: 0,
        })
    }

    /// The time of sealing the payload so often, at the end of bytes that have room for it.
    ///
    /// # Errors
    ///
    /// Those of the clock, or memory is refused.
    pub fn seal(&mut self, rt: &HostRuntime, payload: &[u8], count: usize) -> io::Result<Duration>
        requires from { 1 ≤ length payload.now }
        requires to { length payload.now ≤ longest_payload }
    {
        let key = &self.key;
        let out = &mut self.wire;
        let mut filler = ZEROS;
        let start = Instant::now(rt)?;
        for _ in 0..count {
            out.clear();
            write_packet::<MacOnly, ToyFiller>(payload, Some(key), 0, &mut filler, out)?;
        }
        start.elapsed(rt)
    }

    /// The time of opening the packet so often.
    ///
    /// # Errors
    ///
    /// Those of the clock, or memory is refused.
    pub fn open(&mut self, rt: &HostRuntime, count: usize) -> io::Result<Duration> {
        let start = Instant::now(rt)?;
        for _ in 0..count {
            let (used, _) = self.reader.take::<MacOnly>(Some(&self.key), 0, &self.wire);
            self.sum ^= used ^ self.reader.payload().len();
        }
        start.elapsed(rt)
    }

    /// The time of the HMAC of the text so often, under one key.
    ///
    /// # Errors
    ///
    /// Those of the clock, or memory is refused.
    pub fn kept(&mut self, rt: &HostRuntime, count: usize) -> io::Result<Duration> {
        let start = Instant::now(rt)?;
        for _ in 0..count {
            self.sum ^= self.key.mac(&self.text)[0] as usize;
        }
        start.elapsed(rt)
    }

    /// The time of the HMAC of the text so often, each under a key made anew.
    ///
    /// # Errors
    ///
    /// Those of the clock, or memory is refused.
    pub fn anew(&mut self, rt: &HostRuntime, count: usize) -> io::Result<Duration> {
        let start = Instant::now(rt)?;
        for _ in 0..count {
            self.sum ^= HmacKey::new(&KEY).mac(&self.text)[0] as usize;
        }
        start.elapsed(rt)
    }
}
