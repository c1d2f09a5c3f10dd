//! AES with keys of 128 and of 256 bits (FIPS 197) on four blocks at once.

ghost use Rattle.std.specs.Prelude.{◌≡◌, ◌<◌, ◌+◌, ◌≤◌, length};
ghost use Rattle.ciphers.specs.AesGcm.Aes.{byte_of, encrypted, first_key, further, key_planes, last_round, long_schedule_of, next_key, round};
ghost use Rattle.ciphers.specs.AesGcm.Aes.{schedule_of, spread, sub_word, turned_back, word_of};

use crate::aes_gcm::packing::{packed, transposed, unpacked};
use crate::aes_gcm::planes::{Planes, added, mixed_columns, shifted_rows};
use crate::aes_gcm::sub_bytes::sub_bytes;

// A round key as four words of 32 bits.
#[derive(Clone, Copy)]
pub(crate) struct RoundKey {
    a: u64,
    b: u64,
    c: u64,
    d: u64,
}

/// The keys of the four rounds that AES-256 has more than AES-128.
#[derive(Clone, Copy)]
pub struct MoreKeys {
    pub k10: Planes,
    pub k11: Planes,
    pub k12: Planes,
    pub k13: Planes,
}

/// The round keys, each as the planes of four copies of it.
#[derive(Clone, Copy)]
pub struct Schedule {
    pub k0: Planes,
    pub k1: Planes,
    pub k2: Planes,
    pub k3: Planes,
    pub k4: Planes,
    pub k5: Planes,
    pub k6: Planes,
    pub k7: Planes,
    pub k8: Planes,
    pub k9: Planes,
    /// Those of a key of 256 bits.
    pub more: Option<MoreKeys>,
    pub last: Planes,
}

/// Four blocks of 16 bytes, each encrypted (FIPS 197 section 5.1).
#[tactic(auto, unfolding(crate::specs::AesGcm::Aes::encrypted))]
pub fn encrypted(keys: &Schedule, bytes: &[u8; 64]) -> [u8; 64]
    ensures { result ≡ encrypted keys.now bytes.now }
{
    let s = added(packed(bytes), keys.k0);
    let s = round(s, keys.k1);
    let s = round(s, keys.k2);
    let s = round(s, keys.k3);
    let s = round(s, keys.k4);
    let s = round(s, keys.k5);
    let s = round(s, keys.k6);
    let s = round(s, keys.k7);
    let s = round(s, keys.k8);
    let s = round(s, keys.k9);
    unpacked(last_round(further(s, keys.more), keys.last))
}

// The four rounds more of a key of 256 bits.
fn further(s: Planes, more: Option<MoreKeys>) -> Planes
    ensures { result ≡ further more s }
{
    match more {
        Some(more) => {
            let s = round(s, more.k10);
            let s = round(s, more.k11);
            let s = round(s, more.k12);
            round(s, more.k13)
        }
        None => s,
    }
}

#[inline(always)]
#[tactic(auto, unfolding(crate::specs::AesGcm::Aes::round))]
fn round(s: Planes, key: Planes) -> Planes
    ensures { result ≡ round s key }
{
    added(mixed_columns(shifted_rows(sub_bytes(s))), key)
}

#[inline(always)]
#[tactic(auto, unfolding(crate::specs::AesGcm::Aes::last_round))]
fn last_round(s: Planes, key: Planes) -> Planes
    ensures { result ≡ last_round s key }
{
    added(shifted_rows(sub_bytes(s)), key)
}

/// The round keys of a key of 128 bits (FIPS 197 section 5.2).
#[tactic(auto, unfolding(crate::specs::AesGcm::Aes::schedule_of))]
pub fn schedule_of(key: &[u8; 16]) -> Schedule
    ensures { result ≡ schedule_of key.now }
{
    let w0 = first_key(key, 0);
    let w1 = next_key(w0, w0.d, 0x1);
    let w2 = next_key(w1, w1.d, 0x2);
    let w3 = next_key(w2, w2.d, 0x4);
    let w4 = next_key(w3, w3.d, 0x8);
    let w5 = next_key(w4, w4.d, 0x10);
    let w6 = next_key(w5, w5.d, 0x20);
    let w7 = next_key(w6, w6.d, 0x40);
    let w8 = next_key(w7, w7.d, 0x80);
    let w9 = next_key(w8, w8.d, 0x1b);
    let w10 = next_key(w9, w9.d, 0x36);
    Schedule {
        k0: key_planes(w0),
        k1: key_planes(w1),
        k2: key_planes(w2),
        k3: key_planes(w3),
        k4: key_planes(w4),
        k5: key_planes(w5),
        k6: key_planes(w6),
        k7: key_planes(w7),
        k8: key_planes(w8),
        k9: key_planes(w9),
        more: None,
        last: key_planes(w10),
    }
}

/// The round keys of a key of 256 bits (FIPS 197 section 5.2).
#[tactic(auto, unfolding(crate::specs::AesGcm::Aes::long_schedule_of))]
pub fn long_schedule_of(key: &[u8; 32]) -> Schedule
    ensures { result ≡ long_schedule_of key.now }
{
    let w0 = first_key(key, 0);
    let w1 = first_key(key, 16);
    let w2 = next_key(w0, w1.d, 0x1);
    let w3 = next_key(w1, turned_back(w2.d), 0);
    let w4 = next_key(w2, w3.d, 0x2);
    let w5 = next_key(w3, turned_back(w4.d), 0);
    let w6 = next_key(w4, w5.d, 0x4);
    let w7 = next_key(w5, turned_back(w6.d), 0);
    let w8 = next_key(w6, w7.d, 0x8);
    let w9 = next_key(w7, turned_back(w8.d), 0);
    let w10 = next_key(w8, w9.d, 0x10);
    let w11 = next_key(w9, turned_back(w10.d), 0);
    let w12 = next_key(w10, w11.d, 0x20);
    let w13 = next_key(w11, turned_back(w12.d), 0);
    let w14 = next_key(w12, w13.d, 0x40);
    let more = MoreKeys {
        k10: key_planes(w10),
        k11: key_planes(w11),
        k12: key_planes(w12),
        k13: key_planes(w13),
    };
    Schedule {
        k0: key_planes(w0),
        k1: key_planes(w1),
        k2: key_planes(w2),
        k3: key_planes(w3),
        k4: key_planes(w4),
        k5: key_planes(w5),
        k6: key_planes(w6),
        k7: key_planes(w7),
        k8: key_planes(w8),
        k9: key_planes(w9),
        more: Some(more),
        last: key_planes(w14),
    }
}

// Four words of a key.
fn first_key(key: &[u8], at: usize) -> RoundKey
    requires { at + 16 ≤ length key.now }
    ensures { result ≡ first_key key.now at }
{
    RoundKey {
        a: word_of(key, at),
        b: word_of(key, at + 4),
        c: word_of(key, at + 8),
        d: word_of(key, at + 12),
    }
}

fn word_of(key: &[u8], i: usize) -> u64
    requires { i + 4 ≤ length key.now }
    ensures { result ≡ word_of key.now i }
{
    u32::from_be_bytes([key[i], key[i + 1], key[i + 2], key[i + 3]]) as u64
}

// The four words after those of four words before, by the word in front of them.
#[tactic(auto, unfolding(crate::specs::AesGcm::Aes::next_key))]
fn next_key(k: RoundKey, word: u64, constant: u64) -> RoundKey
    ensures { result ≡ next_key k word constant }
{
    let a = k.a ^ sub_word(word) ^ (constant << 24);
    let b = k.b ^ a;
    let c = k.c ^ b;
    let d = k.d ^ c;
    RoundKey { a, b, c, d }
}

// A word turned back by a byte, so that its bytes are substituted as they stand.
fn turned_back(w: u64) -> u64
    ensures { result ≡ turned_back w }
{
    (w >> 8) | (byte_of(w, 0) << 24)
}

// The bytes of a word turned by one, each substituted.
#[tactic(auto, unfolding(crate::specs::AesGcm::Aes::sub_word))]
fn sub_word(w: u64) -> u64
    ensures { result ≡ sub_word w }
{
    let s = transposed(sub_bytes(transposed(Planes {
        p0: byte_of(w, 16),
        p1: byte_of(w, 8),
        p2: byte_of(w, 0),
        p3: byte_of(w, 24),
        p4: 0,
        p5: 0,
        p6: 0,
        p7: 0,
    })));
    (byte_of(s.p0, 0) << 24) | (byte_of(s.p1, 0) << 16) | (byte_of(s.p2, 0) << 8) | byte_of(s.p3, 0)
}

#[inline(always)]
fn byte_of(w: u64, shift: u32) -> u64
    requires { shift < 64 }
    ensures { result ≡ byte_of w shift }
{
    (w >> shift) & 0xff
}

#[tactic(auto, unfolding(crate::specs::AesGcm::Aes::key_planes))]
fn key_planes(k: RoundKey) -> Planes
    ensures { result ≡ key_planes k }
{
    transposed(Planes {
        p0: spread(byte_of(k.a, 24), byte_of(k.c, 24)),
        p1: spread(byte_of(k.a, 16), byte_of(k.c, 16)),
        p2: spread(byte_of(k.a, 8), byte_of(k.c, 8)),
        p3: spread(byte_of(k.a, 0), byte_of(k.c, 0)),
        p4: spread(byte_of(k.b, 24), byte_of(k.d, 24)),
        p5: spread(byte_of(k.b, 16), byte_of(k.d, 16)),
        p6: spread(byte_of(k.b, 8), byte_of(k.d, 8)),
        p7: spread(byte_of(k.b, 0), byte_of(k.d, 0)),
    })
}

// Two bytes, four times.
#[tactic(auto, unfolding(crate::specs::AesGcm::Aes::spread))]
fn spread(x: u64, y: u64) -> u64
    ensures { result ≡ spread x y }
{
    let one = x | (y << 8);
    let two = one | (one << 16);
    two | (two << 32)
}
