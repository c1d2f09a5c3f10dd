//! Round keys as vectors.

ghost use Rattle.std.specs.Prelude.{◌≡◌, ℕ, ◌<◌, ◌≤◌, ◌+◌, length, slice_index};
ghost use Rattle.ciphers.specs.AesGcm.Rows.{AreVectors};
ghost use Rattle.ciphers.specs.AesGcm.Same.{Same, lane_of};
ghost use Rattle.ciphers.specs.AesGcm.SameBytes.{AreFour, AreKeysOf, AreMore, SameFour, SameMore};

use crate::aes_gcm::aes::{MoreKeys, Schedule};
use crate::aes_gcm::lanes::Vectors;
use crate::aes_gcm::packing::unpacked;
use crate::aes_gcm::planes::Planes;
use crate::aes_gcm::vector_packing::transposed;
use crate::aes_gcm::vector_rounds::{MoreVectors, VectorKeys};
use std::simd::prelude::*;

// The vectors of each round key.
pub(crate) fn vector_keys(keys: &Schedule) -> VectorKeys
    ensures { AreKeysOf keys.now result }
{
    VectorKeys {
        k0: key_vectors(keys.k0),
        k1: key_vectors(keys.k1),
        k2: key_vectors(keys.k2),
        k3: key_vectors(keys.k3),
        k4: key_vectors(keys.k4),
        k5: key_vectors(keys.k5),
        k6: key_vectors(keys.k6),
        k7: key_vectors(keys.k7),
        k8: key_vectors(keys.k8),
        k9: key_vectors(keys.k9),
        more: more_vectors(keys.more),
        last: key_vectors(keys.last),
    }
}

// Those of four rounds more.
fn more_vectors(more: Option<MoreKeys>) -> Option<MoreVectors>
    ensures first { SameMore 0 more result }
    ensures second { SameMore 4 more result }
    ensures long { AreMore result }
{
    match more {
        Some(more) => Some(four_vectors(more)),
        None => None,
    }
}

fn four_vectors(more: MoreKeys) -> MoreVectors
    ensures first { SameFour 0 more result }
    ensures second { SameFour 4 more result }
    ensures long { AreFour result }
{
    MoreVectors {
        k10: key_vectors(more.k10),
        k11: key_vectors(more.k11),
        k12: key_vectors(more.k12),
        k13: key_vectors(more.k13),
    }
}

// The vectors of a round key, of which the planes have four copies: two times these four.
fn key_vectors(key: Planes) -> Vectors
    ensures first { Same 0 key result }
    ensures second { Same 4 key result }
    ensures long { AreVectors result }
{
    let bytes = unpacked(key);
    let a = block_of(&bytes, 0);
    let b = block_of(&bytes, 16);
    let c = block_of(&bytes, 32);
    let d = block_of(&bytes, 48);
    transposed(Vectors {
        p0: a,
        p1: b,
        p2: c,
        p3: d,
        p4: a,
        p5: b,
        p6: c,
        p7: d,
    })
}

// A block with its rows one after another.
#[inline(always)]
fn block_of(bytes: &[u8], at: usize) -> u8x16
    requires { at + 16 ≤ length bytes.now }
    ensures lanes { (l : ℕ) → l < 16 → slice_index result l ≡ slice_index bytes.now (at + lane_of l) }
    ensures long { length result ≡ 16 }
{
    u8x16::from_slice(&bytes[at..]).swizzle([0, 4, 8, 12, 1, 5, 9, 13, 2, 6, 10, 14, 3, 7, 11, 15])
}
