ghost use Rattle.std.specs.Prelude.{◌≡◌, ◌≢◌, ◌<◌, ◌≤◌, ◌+◌, ◌-◌, ◌++◌, ◌^◌, ℕ, [], length, take, min};
ghost use Rattle.std.specs.Prelude.{IfSome, IfNone, IfOk, Some, None};
ghost use Rattle.std.specs.Vec.{vec_capacity, vec_len};
ghost use Rattle.std.specs.Option.{option_copied};
ghost use Rattle.ssh_model.specs.Protocol.Bounds.{largest_packet, longest_tag};
ghost use Rattle.ssh_model.specs.Protocol.Wire.Packet.{is_size as fits_size};
ghost use Rattle.ssh_model.specs.Protocol.Wire.Sealing.{HasSize, IsBadLength, IsWhole, blocks_under, opened_under};
ghost use Rattle.ssh_model.specs.Laws.Units.{IsPartial};
ghost use Rattle.ssh_model.specs.Protocol.Wire.Sealing.{tag_under};
ghost use Rattle.ssh_packet.specs.Reading.{Finds, Reading, empty};

use crate::blocks::Blocks;
use crate::keys::{blocks_of, tag_of};
use crate::limits::{LARGEST_PACKET, LENGTH_FIELD};
use crate::refusal::PacketRefusal;
use crate::sealing::Sealing;
use crate::step::PacketStep;
use ssh_types::Reader;
use std::alloc::{AllocError, Global};
use std::marker::Model;

/// Reads one direction's packets (RFC 4253 section 6) from a stream that comes in any pieces. It keeps the bytes of
/// a partial packet, at most 35,000 of them, in a buffer that `new` reserves.
#[derive(Drop)]
pub struct PacketReader {
    buffer: Vec<u8>,
    filled: usize,
    shown: usize,
    refused: Option<PacketRefusal>,
}

impl Model for PacketReader {
    ghost use Rattle.std.specs.Prelude.{◌≡◌, ◌≤◌, ◌+◌, take, drop, length};
    ghost use Rattle.std.specs.Vec.{vec_capacity};
    ghost use Rattle.ssh_packet.specs.Reading.{Reading};
    ghost use Rattle.ssh_model.specs.Protocol.Bounds.{largest_packet};

    ghost Value = { Reading };

    ghost view = { λ r. record {
      rest = take r.filled r.buffer.items;
      payload = take r.shown (drop 5 r.buffer.items);
      refused = r.refused;
    } };

    ghost invariant = { λ r. (length r.buffer.items ≡ largest_packet) × (vec_capacity r.buffer ≡ largest_packet) × (r.filled ≤ largest_packet)
        × (r.shown + 5 ≤ largest_packet) };
}

impl PacketReader {
    /// A reader before its first byte. This reserves its buffer of 35,000 bytes, the only memory that it ever takes.
    ///
    /// # Errors
    ///
    /// Only if memory is refused.
    pub fn new(alloc: Global) -> Result<PacketReader, AllocError>
        ensures { IfOk result (λ reader. reader ≡ empty) }
    {
        Ok(PacketReader::over(zeros(alloc)?))
    }

    // A reader that nothing was given to, over its buffer.
    fn over(buffer: Vec<u8>) -> PacketReader
        requires size { vec_len buffer ≡ largest_packet }
        requires capacity { vec_capacity buffer ≡ largest_packet }
        ensures { result ≡ empty }
    {
        PacketReader {
            buffer,
            filled: 0,
            shown: 0,
            refused: None,
        }
    }

    /// The payload that the last `take` found (RFC 4253 section 6), without its padding, at most 35,000 bytes. It has no
    /// bytes if `take` found none, and before the first call.
    pub fn payload(&self) -> &[u8]
        ensures payload { result.now ≡ self.now.payload }
        ensures most { length self.now.payload ≤ largest_packet }
    {
        &self.buffer[5..5 + self.shown]
    }

    /// How many bytes of a partial packet the reader holds; 0 between packets and after a refusal.
    pub fn held(&self) -> usize
        ensures { result ≡ length self.now.rest }
    {
        self.filled
    }

    /// How many bytes the buffer has room for: always those of the largest packet.
    pub fn capacity(&self) -> usize
        ensures { result ≡ largest_packet }
    {
        self.buffer.capacity()
    }

    /// Takes bytes to the end of one packet and no further. It answers how many bytes it used, and what they were. Under `None`
    /// packets are in the clear, with blocks of 8 bytes and no tag.
    ///
    /// The length field is judged as soon as its four bytes are there. The tag is judged when the whole packet is there,
    /// under the key and the number of the call that brings the last byte. The padding comes after the tag. So the number
    /// is that of the partial packet, and the caller counts the packets (RFC 4253 section 6.4). A reader that refused
    /// always answers the same and uses nothing. No call needs memory.
    ///
    /// While part of a packet is held, the blocks and the tag length have to stay the same: the key may change between packets,
    /// when `held` is 0.
    #[tactic(auto, using(crate::proofs::Readings::still_begun, crate::proofs::Readings::none_begun, crate::proofs::Readings::begun_before))]
    pub fn take<S: Sealing>(
        &mut self,
        key: Option<&S::Key>,
        number: u32,
        bytes: &[u8],
    ) -> (usize, PacketStep<PacketRefusal>)
        requires buffered { IsPartial (blocks_under S.crypto (option_copied key)) (tag_under S.crypto (option_copied key)) self.old.rest }
        // How many bytes are used.
        ensures used { result.0 ≤ length bytes.now }
        ensures progress { self.old.refused ≡ None → 0 < length bytes.now → 0 < result.0 }
        ensures more { result.1 ≡ PacketStep.More → result.0 ≡ length bytes.now }
        // What they are, with those that were buffered.
        ensures found { self.old.refused ≡ None → Finds S.crypto (option_copied key.entry) number
            (self.old.rest ++ take result.0 bytes.now) result.1 self.new }
        ensures refused { IfSome self.old.refused (λ refusal. (result ≡ (0, PacketStep.Refused refusal)) × (self.new ≡ self.old)) }
        // What is buffered then.
        ensures buffered { IsPartial (blocks_under S.crypto (option_copied key.entry)) (tag_under S.crypto (option_copied key.entry))
            self.new.rest }
    {
        if let Some(refusal) = self.refused {
            return (0, PacketStep::Refused(refusal));
        }
        ssh_types::laws::one_form();
        let blocks = blocks_of::<S>(key);
        let tag = tag_of::<S>(key);
        let front = self.fill(LENGTH_FIELD, bytes);
        if self.held() < LENGTH_FIELD {
            return (front, PacketStep::More);
        }
        let Some(size) = self.size(blocks, tag) else {
            return (front, self.refuse(PacketRefusal::BadLength));
        };
        let back = self.fill(size, bytes.split_at(front).1);
        if self.held() < size {
            return (front + back, PacketStep::More);
        }
        (front + back, self.judge::<S>(key, number, tag))
    }

    /// Becomes a copy of another reader: it holds the same bytes, shows the same payload, and answers the same from here on.
    pub fn copy_from(&mut self, other: &PacketReader)
        ensures { self.new ≡ other.now }
    {
        self.buffer.copy_from_slice(&other.buffer);
        self.filled = other.filled;
        self.shown = other.shown;
        self.refused = other.refused;
    }

    // Judges the whole packet that is there.
    fn judge<S: Sealing>(
        &mut self,
        key: Option<&S::Key>,
        number: u32,
        tag: usize,
    ) -> PacketStep<PacketRefusal>
        // What the caller must ensure.
        requires tag { tag ≡ tag_under S.crypto (option_copied key) }
        requires whole { IsWhole (blocks_under S.crypto (option_copied key)) tag self.old.rest }
        requires clear { self.old ≡ record empty { rest = self.old.rest } }
        // What it does.
        ensures found { Finds S.crypto (option_copied key.entry) number self.old.rest result self.new }
        ensures not_more { result ≢ PacketStep.More }
    {
        ssh_types::laws::are_bytes(&self.buffer[..self.filled]);
        if !open::<S>(key, number, &mut self.buffer, self.filled) {
            return self.refuse(PacketRefusal::BadTag);
        }
        let size = self.filled - tag;
        let padding = usize::from(self.buffer[4]);
        if padding < 4 || padding + 5 >= size {
            return self.refuse(PacketRefusal::BadPadding);
        }
        self.filled = 0;
        self.shown = size - 5 - padding;
        PacketStep::Payload
    }

    // Refuses from now on.
    fn refuse(&mut self, refusal: PacketRefusal) -> PacketStep<PacketRefusal>
        ensures step { result ≡ PacketStep.Refused refusal }
        ensures after { self.new ≡ record empty { refused = Some refusal } }
    {
        self.filled = 0;
        self.shown = 0;
        self.refused = Some(refusal);
        PacketStep::Refused(refusal)
    }

    // The size of the partial packet when it is whole, with its tag; `None` if no packet has that length.
    #[tactic(auto, using(crate::proofs::Fields::has_size))]
    fn size(&self, blocks: Blocks, tag: usize) -> Option<usize>
        // What the caller must ensure.
        requires field { 4 ≤ length self.now.rest }
        requires tag { tag ≤ longest_tag }
        // What it returns.
        ensures size { IfSome result (λ n. HasSize blocks tag n self.now.rest) }
        ensures most { IfSome result (λ n. n ≤ largest_packet) }
        ensures none { IfNone result (length self.now.rest ≡ 4 → IsBadLength blocks tag self.now.rest) }
        ensures other { IfNone result ((n : ℕ) → HasSize blocks tag n self.now.rest → ⊥) }
    {
        ssh_types::laws::one_form();
        let bytes = &self.buffer[..self.filled];
        ssh_types::laws::are_bytes(bytes);
        let mut reader = Reader::new(bytes);
        let Ok(count) = reader.u32() else {
            return None;
        };
        let size = LENGTH_FIELD + count as usize;
        if !is_size(blocks, tag, size) {
            return None;
        }
        Some(size + tag)
    }

    // Adds bytes up to this size, as many as there are, and answers how many.
    #[tactic(auto, using(crate::proofs::Buffers::front_put))]
    fn fill(&mut self, size: usize, bytes: &[u8]) -> usize
        requires { size ≤ largest_packet }
        ensures used { result ≡ min (size - length self.old.rest) (length bytes.now) }
        ensures after { self.new ≡ record self.old { rest = self.old.rest ++ take result bytes.now; payload = [] } }
    {
        let room = size.saturating_sub(self.filled);
        let used = room.min(bytes.len());
        let end = self.filled + used;
        self.buffer[self.filled..end].copy_from_slice(&bytes[..used]);
        self.filled = end;
        self.shown = 0;
        used
    }
}

// As many zeros as the largest packet has bytes, with room for no more.
fn zeros(alloc: Global) -> Result<Vec<u8>, AllocError>
    ensures size { IfOk result (λ buffer. vec_len buffer ≡ largest_packet) }
    ensures capacity { IfOk result (λ buffer. vec_capacity buffer ≡ largest_packet) }
{
    let mut buffer = Vec::with_capacity(alloc, LARGEST_PACKET)?;
    for _ in 0..LARGEST_PACKET {
        buffer.push_reserved(0);
    }
    Ok(buffer)
}

// A packet without its tag may have this size.
fn is_size(blocks: Blocks, tag: usize, size: usize) -> bool
    requires tag { tag ≤ longest_tag }
    requires from { 4 ≤ size }
    requires to { size < 2 ^ 33 }
    ensures { result ≡ fits_size blocks tag size }
{
    let (counted, least) = if blocks.counts_length {
        (size, blocks.size.max(16))
    } else {
        (size - LENGTH_FIELD, LENGTH_FIELD + blocks.size.max(8))
    };
    counted.is_multiple_of(blocks.size.max(8)) && size >= least && size + tag <= LARGEST_PACKET
}

// Opens the whole packet that the first bytes of the buffer are, and answers whether its tag is good. In clear it stays as it is.
fn open<S: Sealing>(key: Option<&S::Key>, number: u32, buffer: &mut [u8], size: usize) -> bool
    // What the caller must ensure.
    requires within { size ≤ length buffer.old }
    requires whole { IsWhole (blocks_under S.crypto (option_copied key)) (tag_under S.crypto (option_copied key)) (take size buffer.old) }
    // What it does.
    ensures good { result ≡ (opened_under S.crypto (option_copied key.entry) number (take size buffer.old)).good }
    ensures bytes { take (size - tag_under S.crypto (option_copied key.entry)) (take size buffer.new)
        ≡ (opened_under S.crypto (option_copied key.entry) number (take size buffer.old)).bytes }
{
    match key {
        Some(key) => S::open(key, number, &mut buffer[..size]),
        None => true,
    }
}
