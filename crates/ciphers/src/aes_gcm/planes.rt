//! The bits of 64 bytes, and the steps of AES that only move and add them (FIPS 197, 5.1).

ghost use Rattle.std.specs.Prelude.{◌≡◌};
ghost use Rattle.ciphers.specs.AesGcm.Planes.{added, mixed, mixed_columns, rotated_one, rotated_two, shifted_rows, shifted_plane};

/// The bits of 64 bytes, four blocks: bit j of plane k is bit k of byte j.
#[derive(Clone, Copy)]
pub struct Planes {
    pub p0: u64,
    pub p1: u64,
    pub p2: u64,
    pub p3: u64,
    pub p4: u64,
    pub p5: u64,
    pub p6: u64,
    pub p7: u64,
}

// AddRoundKey (5.1.4).
#[inline(always)]
#[tactic(auto, unfolding(crate::specs::AesGcm::Planes::added))]
pub(crate) fn added(a: Planes, b: Planes) -> Planes
    ensures { result ≡ added a b }
{
    Planes {
        p0: a.p0 ^ b.p0,
        p1: a.p1 ^ b.p1,
        p2: a.p2 ^ b.p2,
        p3: a.p3 ^ b.p3,
        p4: a.p4 ^ b.p4,
        p5: a.p5 ^ b.p5,
        p6: a.p6 ^ b.p6,
        p7: a.p7 ^ b.p7,
    }
}

// ShiftRows (5.1.2).
#[inline(always)]
#[tactic(auto, unfolding(crate::specs::AesGcm::Planes::shifted_rows))]
pub(crate) fn shifted_rows(a: Planes) -> Planes
    ensures { result ≡ shifted_rows a }
{
    Planes {
        p0: shifted_plane(a.p0),
        p1: shifted_plane(a.p1),
        p2: shifted_plane(a.p2),
        p3: shifted_plane(a.p3),
        p4: shifted_plane(a.p4),
        p5: shifted_plane(a.p5),
        p6: shifted_plane(a.p6),
        p7: shifted_plane(a.p7),
    }
}

// Row r of each block, the bits r, 4 + r, 8 + r and 12 + r of its 16, goes r columns down.
#[inline(always)]
#[tactic(auto, unfolding(crate::specs::AesGcm::Planes::shifted_plane))]
fn shifted_plane(x: u64) -> u64
    ensures { result ≡ shifted_plane x }
{
    (x & 0x1111_1111_1111_1111)
        | ((x >> 4) & 0x0222_0222_0222_0222)
        | ((x << 12) & 0x2000_2000_2000_2000)
        | ((x >> 8) & 0x0044_0044_0044_0044)
        | ((x << 8) & 0x4400_4400_4400_4400)
        | ((x >> 12) & 0x0008_0008_0008_0008)
        | ((x << 4) & 0x8880_8880_8880_8880)
}

// MixColumns (5.1.3): 2 a + 3 b + c + d is 2 (a + b) + b + (c + d), where b, c and d are the rows after.
#[inline(always)]
#[tactic(auto, unfolding(crate::specs::AesGcm::Planes::mixed_columns))]
pub(crate) fn mixed_columns(a: Planes) -> Planes
    ensures { result ≡ mixed_columns a }
{
    let r0 = rotated_one(a.p0);
    let r1 = rotated_one(a.p1);
    let r2 = rotated_one(a.p2);
    let r3 = rotated_one(a.p3);
    let r4 = rotated_one(a.p4);
    let r5 = rotated_one(a.p5);
    let r6 = rotated_one(a.p6);
    let r7 = rotated_one(a.p7);
    let s0 = a.p0 ^ r0;
    let s1 = a.p1 ^ r1;
    let s2 = a.p2 ^ r2;
    let s3 = a.p3 ^ r3;
    let s4 = a.p4 ^ r4;
    let s5 = a.p5 ^ r5;
    let s6 = a.p6 ^ r6;
    let s7 = a.p7 ^ r7;
    Planes {
        p0: mixed(s7, r0, s0),
        p1: mixed(s0 ^ s7, r1, s1),
        p2: mixed(s1, r2, s2),
        p3: mixed(s2 ^ s7, r3, s3),
        p4: mixed(s3 ^ s7, r4, s4),
        p5: mixed(s4, r5, s5),
        p6: mixed(s5, r6, s6),
        p7: mixed(s6, r7, s7),
    }
}

// One plane of the sum: the doubled pair, the row after, and the other pair.
#[inline(always)]
#[tactic(auto, unfolding(crate::specs::AesGcm::Planes::mixed))]
fn mixed(doubled: u64, following: u64, pair: u64) -> u64
    ensures { result ≡ mixed doubled following pair }
{
    doubled ^ following ^ rotated_two(pair)
}

// Each row gets the one after it.
#[inline(always)]
#[tactic(auto, unfolding(crate::specs::AesGcm::Planes::rotated_one))]
fn rotated_one(x: u64) -> u64
    ensures { result ≡ rotated_one x }
{
    ((x >> 1) & 0x7777_7777_7777_7777) | ((x << 3) & 0x8888_8888_8888_8888)
}

// Each row gets the second after it.
#[inline(always)]
#[tactic(auto, unfolding(crate::specs::AesGcm::Planes::rotated_two))]
fn rotated_two(x: u64) -> u64
    ensures { result ≡ rotated_two x }
{
    ((x >> 2) & 0x3333_3333_3333_3333) | ((x << 2) & 0xcccc_cccc_cccc_cccc)
}
