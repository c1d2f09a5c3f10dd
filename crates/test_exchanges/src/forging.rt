//! Packets as the peer of an end would seal them, of any payload.

use crate::party::Party;
use ssh_kex::{KeyPurpose, derive};
use ssh_packet::{HmacKey, MacOnly, write_packet};
use ssh_toys::ToyFiller;
use ssh_types::Side;
use std::alloc::{AllocError, Global};

/// A packet of this payload under the key and the number that an end takes. It has no bytes if no packet can hold the payload.
///
/// # Errors
///
/// Only if memory is refused.
pub fn forged(
    alloc: Global,
    to: &Party,
    side: Side,
    client: &Party,
    server: &Party,
    payload: &[u8],
) -> Result<Vec<u8>, AllocError> {
    let mut wire = Vec::new(alloc);
    if payload.is_empty() || payload.len() > 34_000 {
        return Ok(wire);
    }
    let number = u32::try_from(to.end().numbers().1).unwrap_or(0);
    let mut filler = ToyFiller { byte: 0 };
    let key = taking_key(to, side, client, server);
    write_packet::<MacOnly, ToyFiller>(payload, key.as_ref(), number, &mut filler, &mut wire)?;
    Ok(wire)
}

// The key under which an end takes packets, of which the public points and the hash are read off what was sent.
fn taking_key(to: &Party, side: Side, client: &Party, server: &Party) -> Option<HmacKey> {
    let place = (to.end().epochs().1 as usize).checked_sub(1)?;
    let init = client.sent_of(30, place)?;
    let reply = server.sent_of(31, place)?;
    let shared = exclusive_or(array(init, 5)?, array(reply, 17)?);
    let hash = array(reply, 53)?;
    let letter = match side {
        Side::Client => KeyPurpose::F,
        Side::Server => KeyPurpose::E,
    };
    let mut key = [0; 32];
    derive(&shared, hash, letter, &to.end().session_id()?, &mut key);
    Some(HmacKey::new(&key))
}

// 32 bytes from this one on.
fn array(bytes: &[u8], start: usize) -> Option<&[u8; 32]> {
    bytes.get(start..)?.first_chunk()
}

// What two toy points share.
fn exclusive_or(one: &[u8; 32], other: &[u8; 32]) -> [u8; 32] {
    let mut shared = *one;
    for (place, byte) in shared.iter_mut().zip(other.iter()) {
        *place ^= *byte;
    }
    shared
}
