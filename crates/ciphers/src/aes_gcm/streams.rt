//! Sixteen streams of blocks at once, by a table of nibbles that is read only by shuffles: no place in memory depends on a key or a text.

ghost use Rattle.std.specs.Prelude.{◌≡◌, ℕ, ◌≤◌, ◌<◌, ◌+◌, ◌^◌, ◌*◌, ◌/◌, bit_xor, length, slice_index};
ghost use lib.Lanes.{put_chunk};
ghost use Rattle.ciphers.specs.AesGcm.Streams.{byte_in, entry_of, next_of, stream, sum_of};

use std::simd::prelude::*;

// A vector, and what the table has from this place on for each byte added to it.
#[inline(always)]
fn with_entry(table: &[u8], at: usize, x: u8x16, sum: u8x16) -> u8x16
    requires { at + 272 ≤ length table.now }
    ensures lanes { (l : ℕ) → l < 16 → slice_index result l ≡ bit_xor (slice_index sum l) (entry_of table.now at (slice_index x l)) }
    ensures long { length result ≡ 16 }
{
    let low = u8x16::from_slice(&table[at..]);
    let high = u8x16::from_slice(&table[at + 256..]);
    sum ^ (low.swizzle_dyn(x & u8x16::splat(15)) ^ high.swizzle_dyn(x >> u8x16::splat(4)))
}

// Every sixteenth byte from this place on.
#[inline(always)]
pub(crate) fn row(bytes: &[u8], at: usize) -> u8x16
    requires { at + 241 ≤ length bytes.now }
    ensures lanes { (l : ℕ) → l < 16 → slice_index result l ≡ slice_index bytes.now (at + 16 * l) }
    ensures long { length result ≡ 16 }
{
    u8x16::from_array([
        bytes[at],
        bytes[at + 16],
        bytes[at + 32],
        bytes[at + 48],
        bytes[at + 64],
        bytes[at + 80],
        bytes[at + 96],
        bytes[at + 112],
        bytes[at + 128],
        bytes[at + 144],
        bytes[at + 160],
        bytes[at + 176],
        bytes[at + 192],
        bytes[at + 208],
        bytes[at + 224],
        bytes[at + 240],
    ])
}

#[inline(always)]
fn more(table: &[u8], all: &[u8], at: usize, i: usize, sum: u8x16) -> u8x16
    requires i { i < 16 }
    requires at { at + 16 ≤ 256 }
    requires table { length table.now ≡ 8192 }
    requires all { length all.now ≡ 256 }
    ensures lanes { (l : ℕ) → l < 16 → slice_index result l ≡ bit_xor (slice_index sum l)
        (entry_of table.now (512 * i + at) (byte_in all.now l i)) }
    ensures long { length result ≡ 16 }
{
    with_entry(table, 512 * i + at, u8x16::from_slice(&all[16 * i..]), sum)
}

// Byte j of the map of each block, where at is 16 j, added to the first vector.
#[inline(always)]
pub(crate) fn times(table: &[u8], all: &[u8], at: usize, first: u8x16) -> u8x16
    requires at { at + 16 ≤ 256 }
    requires table { length table.now ≡ 8192 }
    requires all { length all.now ≡ 256 }
    ensures lanes { (l : ℕ) → l < 16 → slice_index result l ≡ sum_of table.now (byte_in all.now l) at (slice_index first l) 16 }
    ensures long { length result ≡ 16 }
{
    let mut sum = first;
    for i in 0..16usize {
        sum = more(table, all, at, i, sum);
    }
    sum
}

// The next byte j of each stream.
#[inline(always)]
fn next(table: &[u8], all: &[u8], bytes: &[u8], place: usize, j: usize) -> u8x16
    requires j { j < 16 }
    requires bytes { place + 256 ≤ length bytes.now }
    requires table { length table.now ≡ 8192 }
    requires all { length all.now ≡ 256 }
    ensures lanes { (l : ℕ) → l < 16 → slice_index result l ≡ next_of table.now (byte_in all.now l) bytes.now place l j }
    ensures long { length result ≡ 16 }
{
    times(table, all, 16 * j, row(bytes, place + j))
}

#[inline(always)]
pub(crate) fn store(all: &mut [u8], j: usize, x: u8x16)
    requires { 16 * j + 16 ≤ length all.old }
    ensures { all.new ≡ put_chunk (16 * j) all.old x }
{
    x.copy_to_slice(&mut all[16 * j..]);
}

// The map of each block, and the next block of its stream.
#[inline(always)]
fn step(table: &[u8], all: &mut [u8], bytes: &[u8], place: usize)
    requires bytes { place + 256 ≤ length bytes.now }
    requires table { length table.now ≡ 8192 }
    requires all { length all.old ≡ 256 }
    ensures bytes { (l j : ℕ) → l < 16 → j < 16 → byte_in all.new l j ≡ next_of table.now (byte_in all.old l) bytes.now place l j }
    ensures long { length all.new ≡ 256 }
{
    let mut old = [0; 256];
    old.copy_from_slice(all);
    for j in 0..16usize {
        store(all, j, next(table, &old, bytes, place, j));
    }
}

// All whole 256 bytes are taken into sixteen streams: the sum of the streams' blocks under a key is then that of all blocks, where the
// table is that of sixteen products by the key.
pub(crate) fn gather(table: &[u8], all: &mut [u8], bytes: &[u8])
    requires bytes { length bytes.now ≤ 2 ^ 40 }
    requires table { length table.now ≡ 8192 }
    requires all { length all.old ≡ 256 }
    ensures bytes { (l j : ℕ) → l < 16 → j < 16 → byte_in all.new l j ≡ stream table.now (byte_in all.old) bytes.now
        (length bytes.now / 256) l j }
    ensures long { length all.new ≡ 256 }
{
    for n in 0..bytes.len() / 256 {
        step(table, all, bytes, 256 * n);
    }
}
