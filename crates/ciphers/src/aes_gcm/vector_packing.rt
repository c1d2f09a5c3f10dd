//! Eight blocks as vectors of bits and back.

ghost use Rattle.std.specs.Prelude.{◌≡◌, ℕ, ◌<◌, length, slice_index};
ghost use Rattle.ciphers.specs.AesGcm.Rows.{AreVectors, lane};
ghost use Rattle.ciphers.specs.AesGcm.VectorPacking.{high, low, transposed_lane};

use crate::aes_gcm::lanes::Vectors;
use std::simd::prelude::*;

// Bit i of byte m of vector k comes to bit k of byte m of vector i. Done twice, it changes nothing.
#[inline(always)]
pub(crate) fn transposed(a: Vectors) -> Vectors
    requires { AreVectors a }
    ensures lanes { (l : ℕ) → l < 16 → lane result l ≡ transposed_lane (lane a l) }
    ensures long { AreVectors result }
{
    let b0 = low(a.p0, a.p1, 0x55, 1);
    let b1 = high(a.p0, a.p1, 0xaa, 1);
    let b2 = low(a.p2, a.p3, 0x55, 1);
    let b3 = high(a.p2, a.p3, 0xaa, 1);
    let b4 = low(a.p4, a.p5, 0x55, 1);
    let b5 = high(a.p4, a.p5, 0xaa, 1);
    let b6 = low(a.p6, a.p7, 0x55, 1);
    let b7 = high(a.p6, a.p7, 0xaa, 1);
    let c0 = low(b0, b2, 0x33, 2);
    let c1 = low(b1, b3, 0x33, 2);
    let c2 = high(b0, b2, 0xcc, 2);
    let c3 = high(b1, b3, 0xcc, 2);
    let c4 = low(b4, b6, 0x33, 2);
    let c5 = low(b5, b7, 0x33, 2);
    let c6 = high(b4, b6, 0xcc, 2);
    let c7 = high(b5, b7, 0xcc, 2);
    Vectors {
        p0: low(c0, c4, 0x0f, 4),
        p1: low(c1, c5, 0x0f, 4),
        p2: low(c2, c6, 0x0f, 4),
        p3: low(c3, c7, 0x0f, 4),
        p4: high(c0, c4, 0xf0, 4),
        p5: high(c1, c5, 0xf0, 4),
        p6: high(c2, c6, 0xf0, 4),
        p7: high(c3, c7, 0xf0, 4),
    }
}

// The bits of x that the mask has, and those of y this many places higher.
#[inline(always)]
fn low(x: u8x16, y: u8x16, mask: u8, places: u8) -> u8x16
    requires places { places < 8 }
    requires x { length x ≡ 16 }
    requires y { length y ≡ 16 }
    ensures lanes { (l : ℕ) → l < 16 → slice_index result l ≡ low mask places (slice_index x l) (slice_index y l) }
    ensures long { length result ≡ 16 }
{
    (x & u8x16::splat(mask)) | ((y & u8x16::splat(mask)) << u8x16::splat(places))
}

// The bits of x that the mask has this many places lower, and those of y.
#[inline(always)]
fn high(x: u8x16, y: u8x16, mask: u8, places: u8) -> u8x16
    requires places { places < 8 }
    requires x { length x ≡ 16 }
    requires y { length y ≡ 16 }
    ensures lanes { (l : ℕ) → l < 16 → slice_index result l ≡ high mask places (slice_index x l) (slice_index y l) }
    ensures long { length result ≡ 16 }
{
    ((x & u8x16::splat(mask)) >> u8x16::splat(places)) | (y & u8x16::splat(mask))
}
