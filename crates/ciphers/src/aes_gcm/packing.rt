//! Bytes as planes of bits and back: byte j is bit j of each plane.

ghost use Rattle.std.specs.Prelude.{◌≡◌, ◌<◌, ◌+◌};
ghost use Rattle.ciphers.specs.AesGcm.Packing.{gathered, high_four, high_one, high_two, low_four, low_one, low_two, packed, transposed, unpacked};

use crate::aes_gcm::planes::Planes;

// The planes of 64 bytes.
#[inline(always)]
#[tactic(auto, unfolding(crate::specs::AesGcm::Packing::packed))]
pub(crate) fn packed(bytes: &[u8; 64]) -> Planes
    ensures { result ≡ packed bytes.now }
{
    transposed(Planes {
        p0: gathered(bytes, 0),
        p1: gathered(bytes, 1),
        p2: gathered(bytes, 2),
        p3: gathered(bytes, 3),
        p4: gathered(bytes, 4),
        p5: gathered(bytes, 5),
        p6: gathered(bytes, 6),
        p7: gathered(bytes, 7),
    })
}

// Every eighth byte, from one of the first eight on.
#[inline(always)]
fn gathered(bytes: &[u8; 64], i: usize) -> u64
    requires { i < 8 }
    ensures { result ≡ gathered bytes.now i }
{
    u64::from_le_bytes([
        bytes[i],
        bytes[i + 8],
        bytes[i + 16],
        bytes[i + 24],
        bytes[i + 32],
        bytes[i + 40],
        bytes[i + 48],
        bytes[i + 56],
    ])
}

// The 64 bytes of planes.
#[inline(always)]
#[tactic(auto, unfolding(crate::specs::AesGcm::Packing::unpacked))]
pub(crate) fn unpacked(planes: Planes) -> [u8; 64]
    ensures { result ≡ unpacked planes }
{
    let t = transposed(planes);
    let a = t.p0.to_le_bytes();
    let b = t.p1.to_le_bytes();
    let c = t.p2.to_le_bytes();
    let d = t.p3.to_le_bytes();
    let e = t.p4.to_le_bytes();
    let f = t.p5.to_le_bytes();
    let g = t.p6.to_le_bytes();
    let h = t.p7.to_le_bytes();
    [
        a[0], b[0], c[0], d[0], e[0], f[0], g[0], h[0], a[1], b[1], c[1], d[1], e[1], f[1], g[1],
        h[1], a[2], b[2], c[2], d[2], e[2], f[2], g[2], h[2], a[3], b[3], c[3], d[3], e[3], f[3],
        g[3], h[3], a[4], b[4], c[4], d[4], e[4], f[4], g[4], h[4], a[5], b[5], c[5], d[5], e[5],
        f[5], g[5], h[5], a[6], b[6], c[6], d[6], e[6], f[6], g[6], h[6], a[7], b[7], c[7], d[7],
        e[7], f[7], g[7], h[7],
    ]
}

// Bit i of byte m of word k comes to bit k of byte m of word i. Done twice, it changes nothing.
#[inline(always)]
#[tactic(auto, unfolding(crate::specs::AesGcm::Packing::transposed))]
pub(crate) fn transposed(a: Planes) -> Planes
    ensures { result ≡ transposed a }
{
    let b = Planes {
        p0: low_one(a.p0, a.p1),
        p1: high_one(a.p0, a.p1),
        p2: low_one(a.p2, a.p3),
        p3: high_one(a.p2, a.p3),
        p4: low_one(a.p4, a.p5),
        p5: high_one(a.p4, a.p5),
        p6: low_one(a.p6, a.p7),
        p7: high_one(a.p6, a.p7),
    };
    let c = Planes {
        p0: low_two(b.p0, b.p2),
        p1: low_two(b.p1, b.p3),
        p2: high_two(b.p0, b.p2),
        p3: high_two(b.p1, b.p3),
        p4: low_two(b.p4, b.p6),
        p5: low_two(b.p5, b.p7),
        p6: high_two(b.p4, b.p6),
        p7: high_two(b.p5, b.p7),
    };
    Planes {
        p0: low_four(c.p0, c.p4),
        p1: low_four(c.p1, c.p5),
        p2: low_four(c.p2, c.p6),
        p3: low_four(c.p3, c.p7),
        p4: high_four(c.p0, c.p4),
        p5: high_four(c.p1, c.p5),
        p6: high_four(c.p2, c.p6),
        p7: high_four(c.p3, c.p7),
    }
}

#[inline(always)]
#[tactic(auto, unfolding(crate::specs::AesGcm::Packing::low_one))]
fn low_one(x: u64, y: u64) -> u64
    ensures { result ≡ low_one x y }
{
    (x & 0x5555_5555_5555_5555) | ((y & 0x5555_5555_5555_5555) << 1)
}

#[inline(always)]
#[tactic(auto, unfolding(crate::specs::AesGcm::Packing::high_one))]
fn high_one(x: u64, y: u64) -> u64
    ensures { result ≡ high_one x y }
{
    ((x & 0xaaaa_aaaa_aaaa_aaaa) >> 1) | (y & 0xaaaa_aaaa_aaaa_aaaa)
}

#[inline(always)]
#[tactic(auto, unfolding(crate::specs::AesGcm::Packing::low_two))]
fn low_two(x: u64, y: u64) -> u64
    ensures { result ≡ low_two x y }
{
    (x & 0x3333_3333_3333_3333) | ((y & 0x3333_3333_3333_3333) << 2)
}

#[inline(always)]
#[tactic(auto, unfolding(crate::specs::AesGcm::Packing::high_two))]
fn high_two(x: u64, y: u64) -> u64
    ensures { result ≡ high_two x y }
{
    ((x & 0xcccc_cccc_cccc_cccc) >> 2) | (y & 0xcccc_cccc_cccc_cccc)
}

#[inline(always)]
#[tactic(auto, unfolding(crate::specs::AesGcm::Packing::low_four))]
fn low_four(x: u64, y: u64) -> u64
    ensures { result ≡ low_four x y }
{
    (x & 0x0f0f_0f0f_0f0f_0f0f) | ((y & 0x0f0f_0f0f_0f0f_0f0f) << 4)
}

#[inline(always)]
#[tactic(auto, unfolding(crate::specs::AesGcm::Packing::high_four))]
fn high_four(x: u64, y: u64) -> u64
    ensures { result ≡ high_four x y }
{
    ((x & 0xf0f0_f0f0_f0f0_f0f0) >> 4) | (y & 0xf0f0_f0f0_f0f0_f0f0)
}
