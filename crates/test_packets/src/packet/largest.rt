//! Packets of all sizes, up to the largest one.

use ssh_packet::{HmacKey, MacOnly, PacketReader, write_packet};
use ssh_toys::ToyFiller;
use ssh_toys::lines::{Problem, digits_of};
use std::alloc::Global;

/// The sizes of the packet of this many bytes, written first without room for it and then with room.
///
/// # Errors
///
/// `NotALine` if no packet has so many, and want of memory.
pub fn written_twice(alloc: Global, count: u32) -> Result<String, Problem> {
    let payload = vec![in alloc; 7; count as usize]?;
    if payload.is_empty() || payload.len() > 34_000 {
        return Err(Problem::NotALine);
    }
    let key = HmacKey::new(&[1; 32]);
    let mut zeros = ToyFiller { byte: 0 };
    let mut out = Vec::new(alloc);
    write_packet::<MacOnly, ToyFiller>(&payload, Some(&key), 0, &mut zeros, &mut out)?;
    let size = out.len();
    out.clear();
    write_packet::<MacOnly, ToyFiller>(&payload, Some(&key), 0, &mut zeros, &mut out)?;
    Ok(format!(in alloc; "{size} {}", out.len())?)
}

/// The largest packet under a MAC, as it is written and read again.
///
/// # Errors
///
/// Only if memory is refused.
#[tactic(auto, using(crate::proofs::Largest::sealed_fits))]
pub fn largest_sealed(alloc: Global) -> Result<String, Problem> {
    let key = HmacKey::new(&[1; 32]);
    let payload = vec![in alloc; 7; 34_959]?;
    if payload.as_slice().len() != 34_959 {
        return Err(Problem::NotALine);
    }
    let mut zeros = ToyFiller { byte: 0 };
    let mut wire = Vec::new(alloc);
    write_packet::<MacOnly, ToyFiller>(&payload, Some(&key), 9, &mut zeros, &mut wire)?;
    read_again(alloc, Some(&key), &wire, &payload)
}

/// The largest packet in clear, in the same way.
///
/// # Errors
///
/// Only if memory is refused.
#[tactic(auto, using(crate::proofs::Largest::clear_fits))]
pub fn largest_clear(alloc: Global) -> Result<String, Problem> {
    let payload = vec![in alloc; 7; 34_991]?;
    if payload.as_slice().len() != 34_991 {
        return Err(Problem::NotALine);
    }
    let mut zeros = ToyFiller { byte: 0 };
    let mut wire = Vec::new(alloc);
    write_packet::<MacOnly, ToyFiller>(&payload, None, 9, &mut zeros, &mut wire)?;
    read_again(alloc, None, &wire, &payload)
}

// The first bytes of a packet, its size, how many bytes its reader uses and has room for, what the reader finds, and whether it is this
// payload.
fn read_again(
    alloc: Global,
    key: Option<&HmacKey>,
    wire: &[u8],
    payload: &[u8],
) -> Result<String, Problem> {
    let front = digits_of(alloc, wire.get(..5).unwrap_or(&[]))?;
    let mut reader = PacketReader::new(alloc)?;
    let (used, step) = reader.take::<MacOnly>(key, 9, wire);
    let sizes = (wire.len(), used, reader.capacity());
    let is_same = reader.payload() == payload;
    Ok(format!(in alloc; "{front} {sizes:?} {step:?} {is_same}")?)
}
