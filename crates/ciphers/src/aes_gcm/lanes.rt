//! The bits of 128 bytes, eight blocks: bit k of byte 4 r + c of plane i is bit i of the byte in row r and column c of block k.

ghost use Rattle.std.specs.Prelude.{◌≡◌, ℕ, ◌<◌, length, slice_index};
ghost use Rattle.ciphers.specs.AesGcm.Rows.{AreVectors, lane, mixed_lane, mixed_number, moved, sum_of_lanes, turned};

use std::simd::prelude::*;

/// Eight planes of 128 bits.
#[derive(Clone, Copy)]
pub(crate) struct Vectors {
    pub(crate) p0: u8x16,
    pub(crate) p1: u8x16,
    pub(crate) p2: u8x16,
    pub(crate) p3: u8x16,
    pub(crate) p4: u8x16,
    pub(crate) p5: u8x16,
    pub(crate) p6: u8x16,
    pub(crate) p7: u8x16,
}

// AddRoundKey (5.1.4).
#[inline(always)]
pub(crate) fn added(a: Vectors, b: Vectors) -> Vectors
    requires a { AreVectors a }
    requires b { AreVectors b }
    ensures lanes { (l : ℕ) → l < 16 → lane result l ≡ sum_of_lanes (lane a l) (lane b l) }
    ensures long { AreVectors result }
{
    Vectors {
        p0: a.p0 ^ b.p0,
        p1: a.p1 ^ b.p1,
        p2: a.p2 ^ b.p2,
        p3: a.p3 ^ b.p3,
        p4: a.p4 ^ b.p4,
        p5: a.p5 ^ b.p5,
        p6: a.p6 ^ b.p6,
        p7: a.p7 ^ b.p7,
    }
}

// ShiftRows (5.1.2): row r goes r columns down.
#[inline(always)]
pub(crate) fn shifted_rows(a: Vectors) -> Vectors
    requires { AreVectors a }
    ensures lanes { (l : ℕ) → l < 16 → lane result l ≡ lane a (turned l) }
    ensures long { AreVectors result }
{
    Vectors {
        p0: shifted_plane(a.p0),
        p1: shifted_plane(a.p1),
        p2: shifted_plane(a.p2),
        p3: shifted_plane(a.p3),
        p4: shifted_plane(a.p4),
        p5: shifted_plane(a.p5),
        p6: shifted_plane(a.p6),
        p7: shifted_plane(a.p7),
    }
}

#[inline(always)]
fn shifted_plane(x: u8x16) -> u8x16
    ensures lanes { (l : ℕ) → l < 16 → slice_index result l ≡ slice_index x (turned l) }
    ensures long { length result ≡ 16 }
{
    x.swizzle([0, 1, 2, 3, 5, 6, 7, 4, 10, 11, 8, 9, 15, 12, 13, 14])
}

// MixColumns (5.1.3): 2 a + 3 b + c + d is 2 (a + b) + b + (c + d), where b, c and d are the rows below.
#[inline(always)]
pub(crate) fn mixed_columns(a: Vectors) -> Vectors
    requires { AreVectors a }
    ensures lanes { (l : ℕ) → l < 16 → lane result l ≡ mixed_lane (lane a l) (lane a (moved 4 l)) (lane a (moved 8 l))
        (lane a (moved 12 l)) }
    ensures long { AreVectors result }
{
    let r0 = rotated_one(a.p0);
    let r1 = rotated_one(a.p1);
    let r2 = rotated_one(a.p2);
    let r3 = rotated_one(a.p3);
    let r4 = rotated_one(a.p4);
    let r5 = rotated_one(a.p5);
    let r6 = rotated_one(a.p6);
    let r7 = rotated_one(a.p7);
    let s0 = a.p0 ^ r0;
    let s1 = a.p1 ^ r1;
    let s2 = a.p2 ^ r2;
    let s3 = a.p3 ^ r3;
    let s4 = a.p4 ^ r4;
    let s5 = a.p5 ^ r5;
    let s6 = a.p6 ^ r6;
    let s7 = a.p7 ^ r7;
    Vectors {
        p0: mixed(s7, r0, s0),
        p1: mixed(s0 ^ s7, r1, s1),
        p2: mixed(s1, r2, s2),
        p3: mixed(s2 ^ s7, r3, s3),
        p4: mixed(s3 ^ s7, r4, s4),
        p5: mixed(s4, r5, s5),
        p6: mixed(s5, r6, s6),
        p7: mixed(s6, r7, s7),
    }
}

#[inline(always)]
fn mixed(doubled: u8x16, following: u8x16, pair: u8x16) -> u8x16
    requires doubled { length doubled ≡ 16 }
    requires following { length following ≡ 16 }
    ensures lanes { (l : ℕ) → l < 16 → slice_index result l ≡ mixed_number (slice_index doubled l) (slice_index following l)
        (slice_index pair (moved 8 l)) }
    ensures long { length result ≡ 16 }
{
    doubled ^ following ^ rotated_two(pair)
}

// Each row gets the one below it.
#[inline(always)]
fn rotated_one(x: u8x16) -> u8x16
    ensures lanes { (l : ℕ) → l < 16 → slice_index result l ≡ slice_index x (moved 4 l) }
    ensures long { length result ≡ 16 }
{
    x.swizzle([4, 5, 6, 7, 8, 9, 10, 11, 12, 13, 14, 15, 0, 1, 2, 3])
}

// Each row gets the second below it.
#[inline(always)]
fn rotated_two(x: u8x16) -> u8x16
    ensures lanes { (l : ℕ) → l < 16 → slice_index result l ≡ slice_index x (moved 8 l) }
    ensures long { length result ≡ 16 }
{
    x.swizzle([8, 9, 10, 11, 12, 13, 14, 15, 0, 1, 2, 3, 4, 5, 6, 7])
}
