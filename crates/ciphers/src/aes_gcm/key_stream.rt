//! The key stream (NIST SP 800-38D section 6.5), eight blocks at once.

ghost use Rattle.std.specs.Prelude.{◌≡◌, ℕ, ◌≤◌, ◌<◌, ◌+◌, ◌^◌, ◌*◌, ◌/◌, ◌%◌, bit_xor, length, slice_index};
ghost use Rattle.ciphers.specs.AesGcm.Gcm.{counter_block, stream};
ghost use Rattle.ciphers.specs.AesGcm.Rows.{AreVectors, lane};
ghost use Rattle.ciphers.specs.AesGcm.Same.{lane_of};
ghost use Rattle.ciphers.specs.AesGcm.SameBytes.{AreKeys, AreKeysOf, number_of};
ghost use Rattle.ciphers.specs.declared.aes_gcm.gcm.KeyParts.{KeyParts};

use crate::aes_gcm::lanes::Vectors;
use crate::aes_gcm::streams::store;
use crate::aes_gcm::vector_rounds::{VectorKeys, encrypted_vectors};
use std::simd::prelude::*;

// The 128 bytes of the stream from byte 128 n on.
pub(crate) fn fill(keys: &VectorKeys, nonce: &[u8; 12], n: usize, bytes: &mut [u8])
    requires keys { AreKeys keys.now }
    requires n { n < 2 ^ 28 }
    requires bytes { length bytes.old ≡ 128 }
    ensures bytes { (k : KeyParts) → AreKeysOf k.schedule keys.now → (i : ℕ) → i < 128 →
        slice_index bytes.new i ≡ stream k nonce.now (128 * n + i) }
    ensures long { length bytes.new ≡ 128 }
{
    let blocks = counter_vectors(nonce, 8 * n as u32 + 1);
    put_blocks(bytes, encrypted_vectors(keys, blocks));
}

// The blocks of this nonce with eight counters from this one on, each with its rows one after another.
fn counter_vectors(nonce: &[u8; 12], first: u32) -> Vectors
    requires { first + 8 ≤ 2 ^ 32 }
    ensures lanes { (k l : ℕ) → k < 8 → l < 16 → number_of (lane result l) k ≡ slice_index (counter_block nonce.now (first + k))
        (lane_of l) }
    ensures long { AreVectors result }
{
    Vectors {
        p0: counter_vector(nonce, first),
        p1: counter_vector(nonce, first + 1),
        p2: counter_vector(nonce, first + 2),
        p3: counter_vector(nonce, first + 3),
        p4: counter_vector(nonce, first + 4),
        p5: counter_vector(nonce, first + 5),
        p6: counter_vector(nonce, first + 6),
        p7: counter_vector(nonce, first + 7),
    }
}

#[inline(always)]
fn counter_vector(nonce: &[u8; 12], counter: u32) -> u8x16
    ensures lanes { (l : ℕ) → l < 16 → slice_index result l ≡ slice_index (counter_block nonce.now counter) (lane_of l) }
    ensures long { length result ≡ 16 }
{
    let n = nonce;
    let c = counter.to_be_bytes();
    u8x16::from_array([
        n[0], n[4], n[8], c[0], n[1], n[5], n[9], c[1], n[2], n[6], n[10], c[2], n[3], n[7], n[11],
        c[3],
    ])
}

// The bytes of eight blocks.
fn put_blocks(bytes: &mut [u8], blocks: Vectors)
    requires bytes { length bytes.old ≡ 128 }
    requires blocks { AreVectors blocks }
    ensures bytes { (i : ℕ) → i < 128 → slice_index bytes.new i ≡ number_of (lane blocks (lane_of (i % 16))) (i / 16) }
    ensures long { length bytes.new ≡ 128 }
{
    put_block(bytes, 0, blocks.p0);
    put_block(bytes, 1, blocks.p1);
    put_block(bytes, 2, blocks.p2);
    put_block(bytes, 3, blocks.p3);
    put_block(bytes, 4, blocks.p4);
    put_block(bytes, 5, blocks.p5);
    put_block(bytes, 6, blocks.p6);
    put_block(bytes, 7, blocks.p7);
}

#[inline(always)]
fn put_block(bytes: &mut [u8], k: usize, block: u8x16)
    requires bytes { 16 * k + 16 ≤ length bytes.old }
    requires block { length block ≡ 16 }
    ensures here { (i : ℕ) → i < 16 → slice_index bytes.new (16 * k + i) ≡ slice_index block (lane_of i) }
    ensures before { (i : ℕ) → i < 16 * k → slice_index bytes.new i ≡ slice_index bytes.old i }
    ensures after { (i : ℕ) → 16 * k + 16 ≤ i → slice_index bytes.new i ≡ slice_index bytes.old i }
    ensures long { length bytes.new ≡ length bytes.old }
{
    store(bytes, k, in_columns(block));
}

// A block with its columns one after another.
#[inline(always)]
fn in_columns(block: u8x16) -> u8x16
    ensures lanes { (l : ℕ) → l < 16 → slice_index result l ≡ slice_index block (lane_of l) }
    ensures long { length result ≡ 16 }
{
    block.swizzle([0, 4, 8, 12, 1, 5, 9, 13, 2, 6, 10, 14, 3, 7, 11, 15])
}

// Adds sixteen bytes of the stream to the text from this place on, fewer if the text ends first.
pub(crate) fn add_block(text: &mut [u8], at: usize, bytes: &[u8], from: usize)
    requires at { at < length text.old }
    requires text { length text.old ≤ 2 ^ 32 }
    requires bytes { from + 16 ≤ length bytes.now }
    ensures here { (i : ℕ) → i < 16 → at + i < length text.old → slice_index text.new (at + i) ≡ bit_xor (slice_index text.old (at + i))
        (slice_index bytes.now (from + i)) }
    ensures before { (i : ℕ) → i < at → slice_index text.new i ≡ slice_index text.old i }
    ensures after { (i : ℕ) → at + 16 ≤ i → slice_index text.new i ≡ slice_index text.old i }
    ensures long { length text.new ≡ length text.old }
{
    if text.len() - at < 16 {
        add_bytes(text, at, bytes, from);
    } else {
        let sum = u8x16::from_slice(&text[at..]) ^ u8x16::from_slice(&bytes[from..]);
        sum.copy_to_slice(&mut text[at..]);
    }
}

// The same for fewer than sixteen bytes.
fn add_bytes(text: &mut [u8], at: usize, bytes: &[u8], from: usize)
    requires at { at < length text.old }
    requires text { length text.old < at + 16 }
    requires bytes { from + 16 ≤ length bytes.now }
    ensures here { (i : ℕ) → i < 16 → at + i < length text.old → slice_index text.new (at + i) ≡ bit_xor (slice_index text.old (at + i))
        (slice_index bytes.now (from + i)) }
    ensures before { (i : ℕ) → i < at → slice_index text.new i ≡ slice_index text.old i }
    ensures long { length text.new ≡ length text.old }
{
    for i in 0..text.len() - at {
        text[at + i] ^= bytes[from + i];
    }
}
