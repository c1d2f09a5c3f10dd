ghost use Rattle.std.specs.Prelude.{◌≡◌, ◌<◌, ◌≤◌, ◌+◌, ◌-◌, ◌++◌, ℕ, List, length, replicate, take, drop, IsTrue, OnErr, OnOk, vec_capacity};
ghost use Rattle.std.specs.Option.{option_copied};
ghost use Rattle.ssh_model.specs.Protocol.Bounds.{largest_packet, longest_tag};
ghost use Rattle.ssh_model.specs.Laws.Reading.{Extends, Writes};
ghost use Rattle.ssh_model.specs.Protocol.Wire.Sealing.{IsSealed, blocks_under, is_wire_size, sealed_under, tag_under};
ghost use Rattle.ssh_packet.specs.Writing.{HasParts, IsTail, Pads, packet_size, padding_for};

use crate::blocks::Blocks;
use crate::keys::{blocks_of, tag_of};
use crate::limits::MOST_PADDING;
use crate::sealing::Sealing;
use ssh_types::Put;
use ssh_types::bounds::LONGEST_TAG;
use std::alloc::AllocError;

/// Gives the bytes of the padding: random ones under a cipher (RFC 4253 section 6). Its ghost member `gives` says which bytes
/// a call may give: from the value before it, to the value after it. It is a relation, so that a filler whose bytes come from
/// outside has one too.
pub trait Filler {
    ghost gives: { Self → List ℕ → Self → Type 0 };

    /// Fills all of `out`, which is handed in as zeros. A packet asks once, for at most 255 bytes, and they are its padding (RFC
    /// 4253 section 6).
    fn fill(&mut self, out: &mut [u8])
        requires zeros { out.old ≡ replicate (length out.old) 0 }
        ensures { gives self.old out.new self.new };
}

/// Writes the packet of a payload at the end of `out`, sealed under the key as the packet of this number (RFC 4253
/// section 6). Under `None` it is in the clear, in blocks of 8 bytes.
///
/// The padding is the least that the standard allows: at least four bytes, up to a whole number of blocks. The payload
/// has at least one byte, and its packet at most 35,000 with its tag, so every payload of up to 34,000 bytes has room
/// under any sealing.
///
/// # Errors
///
/// Only if the packet doesn't fit the capacity of `out` and memory is refused: then `out` has its old bytes. The filler may have
/// given bytes or not.
pub fn write_packet<S: Sealing, F: Filler>(
    payload: &[u8],
    key: Option<&S::Key>,
    number: u32,
    filler: &mut F,
    out: &mut Vec<u8>,
) -> Result<(), AllocError>
    // What the caller must ensure.
    requires some { 1 ≤ length payload.now }
    requires fits { packet_size (blocks_under S.crypto (option_copied key)) (tag_under S.crypto (option_copied key))
        (length payload.now) ≤ largest_packet }
    // What it does.
    ensures written { OnOk result (Writes (IsSealed S.crypto (option_copied key.entry) number payload.now) out.old.items out.new.items) }
    // Where the padding comes from.
    ensures padded { OnOk result (Pads S.crypto (option_copied key.entry) number payload.now
        (λ padding. F.gives filler.old padding filler.new) out.old.items out.new.items) }
    // If it fails.
    ensures kept { OnErr result (out.new.items ≡ out.old.items) }
    ensures full { OnErr result (vec_capacity out.old < length out.old.items + packet_size
        (blocks_under S.crypto (option_copied key.entry)) (tag_under S.crypto (option_copied key.entry)) (length payload.now)) }
{
    let start = out.as_slice().len();
    let tag = tag_of::<S>(key);
    let padding = least_padding(blocks_of::<S>(key), payload.len());
    if let Err(error) = put_parts(payload, padding, tag, filler, out) {
        out.truncate(start);
        return Err(error);
    }
    ssh_types::laws::are_bytes(out.split_at(start).1);
    seal_from::<S>(key, number, out, start);
    Ok(())
}

// Seals the packet that begins at `start` and ends with the bytes; in clear nothing is done.
fn seal_from<S: Sealing>(key: Option<&S::Key>, number: u32, bytes: &mut Vec<u8>, start: usize)
    requires within { start ≤ length bytes.old.items }
    requires size { IsTrue (is_wire_size (blocks_under S.crypto (option_copied key)) (tag_under S.crypto (option_copied key))
        (length bytes.old.items - start)) }
    ensures { bytes.new.items ≡ take start bytes.old.items ++ sealed_under S.crypto (option_copied key.entry) number
        (take (length bytes.old.items - start - tag_under S.crypto (option_copied key.entry)) (drop start bytes.old.items)) }
{
    if let Some(key) = key {
        seal_slice::<S>(key, number, bytes, start);
    }
}

// Seals the packet from `start` on.
fn seal_slice<S: Sealing>(key: &S::Key, number: u32, bytes: &mut [u8], start: usize)
    requires within { start ≤ length bytes.old }
    requires size { IsTrue (is_wire_size (S.crypto.blocks key.now) (S.crypto.tag key.now) (length bytes.old - start)) }
    ensures { bytes.new ≡ take start bytes.old ++ S.crypto.sealed key.now number
        (take (length bytes.old - start - S.crypto.tag key.now) (drop start bytes.old)) }
{
    S::seal(key, number, &mut bytes[start..])
}

// How many bytes fill up the last block, with at least four.
fn least_padding(blocks: Blocks, count: usize) -> usize
    requires { count ≤ largest_packet }
    ensures { result ≡ padding_for blocks count }
{
    let front = if blocks.counts_length {
        5 + count
    } else {
        1 + count
    };
    let gap = blocks.size - front % blocks.size;
    if gap < 4 { gap + blocks.size } else { gap }
}

// Writes the parts of a packet, and room for its tag.
fn put_parts<F: Filler>(
    payload: &[u8],
    padding: usize,
    tag: usize,
    filler: &mut F,
    out: &mut Vec<u8>,
) -> Result<(), AllocError>
    // What the caller must ensure.
    requires padding { padding ≤ 255 }
    requires tag { tag ≤ longest_tag }
    requires payload { length payload.now ≤ largest_packet }
    // What it does.
    ensures written { OnOk result (Writes (HasParts padding tag (λ padding. F.gives filler.old padding filler.new) payload.now)
        out.old.items out.new.items) }
    // If it fails.
    ensures kept { OnErr result (Extends out.old.items out.new.items) }
    ensures full { OnErr result (vec_capacity out.old < length out.old.items + (5 + length payload.now + padding + tag)) }
{
    out.put_u32((1 + payload.len() + padding) as u32)?;
    out.put_u8(padding as u8)?;
    out.extend_from_slice(payload)?;
    put_padding(padding, tag, filler, out)?;
    Ok(())
}

// Writes the padding, and room for a tag.
fn put_padding<F: Filler>(
    padding: usize,
    tag: usize,
    filler: &mut F,
    out: &mut Vec<u8>,
) -> Result<(), AllocError>
    // What the caller must ensure.
    requires padding { padding ≤ 255 }
    requires tag { tag ≤ longest_tag }
    // What it does.
    ensures written { OnOk result (Writes (IsTail padding tag (λ padding. F.gives filler.old padding filler.new)) out.old.items
        out.new.items) }
    // If it fails.
    ensures kept { OnErr result (out.new.items ≡ out.old.items) }
    ensures full { OnErr result (vec_capacity out.old < length out.old.items + (padding + tag)) }
{
    let mut room = [0; MOST_PADDING + LONGEST_TAG];
    fill_front(padding, filler, &mut room);
    out.extend_from_slice(&room[..padding + tag])?;
    Ok(())
}

// Fills the first bytes of a room.
#[tactic(auto, using(crate::proofs::Buffers::front_again))]
fn fill_front<F: Filler>(count: usize, filler: &mut F, room: &mut [u8])
    requires within { count ≤ length room.old }
    requires zeros { take count room.old ≡ replicate count 0 }
    ensures given { F.gives filler.old (take count room.new) filler.new }
    ensures size { length room.new ≡ length room.old }
{
    filler.fill(&mut room[..count]);
}
