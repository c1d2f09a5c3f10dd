//! The table of a key's products, by which sixteen streams of blocks are absorbed at once.

ghost use Rattle.std.specs.Prelude.{◌≡◌, ◌≢◌, ℕ, ◌≤◌, ◌<◌, ◌+◌, ◌^◌, ◌*◌, ◌/◌, ◌%◌, IfOk, bit_xor, length, slice_index};
ghost use Rattle.ciphers.specs.AesGcm.Ghash.{absorbed_all, blocks, product};
ghost use Rattle.ciphers.specs.AesGcm.Streams.{byte_in, sum_of};
ghost use Rattle.ciphers.specs.AesGcm.Tables.{IsNibbles, IsWord, absorb, bit_column, bytes_of, element_of, first_blocks, nibble, none, part};
ghost use Rattle.ciphers.specs.AesGcm.Tables.{place, sum_at};

use crate::aes_gcm::ghash::{Element, absorbed, absorbed_all, block_at, product};
use crate::aes_gcm::streams::{gather, row, store, times};
use std::alloc::{AllocError, Global};
use std::simd::prelude::*;

// How many bytes a table has.
const SIZE: usize = 8192;

// The table of sixteen products by the key.
pub(crate) fn table_of(alloc: Global, key: Element) -> Result<Vec<u8>, AllocError>
    ensures { IfOk result (λ table. IsNibbles 16 table.items key) }
{
    let mut one = vec![in alloc; 0u8; SIZE]?;
    let mut other = vec![in alloc; 0u8; SIZE]?;
    grow(&mut one, &mut other, key);
    Ok(one)
}

// The table of sixteen products, from that of single ones.
fn grow(one: &mut [u8], other: &mut [u8], key: Element)
    requires one { length one.old ≡ 8192 }
    requires other { length other.old ≡ 8192 }
    ensures { IsNibbles 16 one.new key }
{
    fill(one, whole(key));
    double(one, other);
    double(other, one);
    double(one, other);
    double(other, one);
}

// The element, with the properties that its type states.
fn whole(x: Element) -> Element
    ensures word { IsWord result }
    ensures same { result ≡ x }
{
    let hi = x.hi;
    let lo = x.lo;
    Element { hi, lo }
}

// The table of the single products, from those of the bits.
fn fill(table: &mut [u8], key: Element)
    requires key { IsWord key }
    requires table { length table.old ≡ 8192 }
    ensures { IsNibbles 1 table.new key }
{
    for g in 0..8usize {
        let mut products = [0; 256];
        bit_products(&mut products, g, key);
        put_places(table, g, &products);
    }
}

// The products of sixteen blocks of one bit, turned.
fn bit_products(products: &mut [u8], g: usize, key: Element)
    requires g { g < 8 }
    requires key { IsWord key }
    requires products { length products.old ≡ 256 }
    ensures bytes { (l j : ℕ) → l < 16 → j < 16 → byte_in products.new l j ≡ slice_index
        (bytes_of (product (element_of (nibble (bit_column g l))) key)) j }
    ensures long { length products.new ≡ 256 }
{
    for l in 0..16usize {
        put_column(products, l, product(nibble(bit_column(g, l)), key));
    }
}

// The column of one bit: of the four places of nibbles from 4 g on, four bits each.
fn bit_column(g: usize, l: usize) -> usize
    requires g { g < 8 }
    requires l { l < 16 }
    ensures column { result ≡ bit_column g l }
    ensures below { result < 512 }
{
    64 * g + 16 * (l / 4) + (1 << (l % 4))
}

// The rows of four places of nibbles, from the columns of their bits, which stand turned.
fn put_places(table: &mut [u8], g: usize, bits: &[u8])
    requires g { g < 8 }
    requires table { length table.old ≡ 8192 }
    requires bits { length bits.now ≡ 256 }
    ensures here { (s l : ℕ) → s < 64 → l < 16 → slice_index table.new (1024 * g + 16 * s + l) ≡ sum_at
        (λ (b : ℕ). slice_index bits.now (16 * (s % 16) + 4 * (s / 16) + b)) l }
    ensures before { (i : ℕ) → i < 1024 * g → slice_index table.new i ≡ slice_index table.old i }
    ensures long { length table.new ≡ 8192 }
{
    for s in 0..64usize {
        let at = 16 * (s % 16) + 4 * (s / 16);
        store(
            table,
            64 * g + s,
            sums(bits[at], bits[at + 1], bits[at + 2], bits[at + 3]),
        );
    }
}

// The sums of four numbers that the sixteen nibbles take.
#[inline(always)]
fn sums(a: u8, b: u8, c: u8, d: u8) -> u8x16
    ensures lanes { (l : ℕ) → l < 16 → slice_index result l ≡ bit_xor (bit_xor (part l 0 a) (part l 1 b))
        (bit_xor (part l 2 c) (part l 3 d)) }
    ensures long { length result ≡ 16 }
{
    let a = u8x16::splat(a)
        & u8x16::from_array([
            0, 255, 0, 255, 0, 255, 0, 255, 0, 255, 0, 255, 0, 255, 0, 255,
        ]);
    let b = u8x16::splat(b)
        & u8x16::from_array([
            0, 0, 255, 255, 0, 0, 255, 255, 0, 0, 255, 255, 0, 0, 255, 255,
        ]);
    let c = u8x16::splat(c)
        & u8x16::from_array([
            0, 0, 0, 0, 255, 255, 255, 255, 0, 0, 0, 0, 255, 255, 255, 255,
        ]);
    let d = u8x16::splat(d)
        & u8x16::from_array([
            0, 0, 0, 0, 0, 0, 0, 0, 255, 255, 255, 255, 255, 255, 255, 255,
        ]);
    (a ^ b) ^ (c ^ d)
}

// The block of one nibble.
fn nibble(n: usize) -> Element
    requires { n < 512 }
    ensures { result ≡ element_of (nibble n) }
{
    let value = (n % 16) as u8;
    let mut bytes = [0; 16];
    bytes[n / 32] = if n / 16 % 2 == 0 { value } else { 16 * value };
    block_at(&bytes, 0)
}

fn bytes_of(x: Element) -> [u8; 16]
    ensures { result ≡ bytes_of x }
{
    let h = x.hi.to_be_bytes();
    let l = x.lo.to_be_bytes();
    [
        h[0], h[1], h[2], h[3], h[4], h[5], h[6], h[7], l[0], l[1], l[2], l[3], l[4], l[5], l[6],
        l[7],
    ]
}

// Column n becomes this block.
fn put_column(table: &mut [u8], n: usize, x: Element)
    requires n { n < 512 }
    requires table { 256 * (n / 16) + 256 ≤ length table.old }
    ensures here { (j : ℕ) → j < 16 → slice_index table.new (place n j) ≡ slice_index (bytes_of x) j }
    ensures additional { (m j : ℕ) → m ≢ n → j < 16 → slice_index table.new (place m j) ≡ slice_index table.old (place m j) }
    ensures long { length table.new ≡ length table.old }
{
    let bytes = bytes_of(x);
    for j in 0..16usize {
        table[256 * (n / 16) + 16 * j + n % 16] = bytes[j];
    }
}

// The columns of a table, each through the table's map: then they have twice as many products. Those of the bits go through it, and the
// others are their sums.
fn double(from: &[u8], to: &mut [u8])
    requires from { length from.now ≡ 8192 }
    requires to { length to.old ≡ 8192 }
    ensures { (m : ℕ) (k : Element) → IsNibbles m from.now k → IsNibbles (m + m) to.new k }
{
    for g in 0..8usize {
        let mut columns = [0; 256];
        bit_columns(&mut columns, from, g);
        let mut products = [0; 256];
        multiply(from, &columns, &mut products);
        put_places(to, g, &products);
    }
}

// Sixteen columns of a bit, turned.
fn bit_columns(columns: &mut [u8], table: &[u8], g: usize)
    requires g { g < 8 }
    requires table { length table.now ≡ 8192 }
    requires columns { length columns.old ≡ 256 }
    ensures bytes { (l i : ℕ) → l < 16 → i < 16 → byte_in columns.new l i ≡ slice_index table.now (place (bit_column g l) i) }
    ensures long { length columns.new ≡ 256 }
{
    for n in 0..256usize {
        let column = bit_column(g, n % 16);
        columns[n] = table[256 * (column / 16) + 16 * (n / 16) + column % 16];
    }
}

// Each of sixteen columns through the map.
fn multiply(table: &[u8], columns: &[u8], products: &mut [u8])
    requires table { length table.now ≡ 8192 }
    requires columns { length columns.now ≡ 256 }
    requires products { length products.old ≡ 256 }
    ensures bytes { (l j : ℕ) → l < 16 → j < 16 → byte_in products.new l j ≡ sum_of table.now (byte_in columns.now l) (16 * j) 0 16 }
    ensures long { length products.new ≡ 256 }
{
    for j in 0..16usize {
        store(products, j, times(table, columns, 16 * j, u8x16::splat(0)));
    }
}

// All blocks of the bytes, in sixteen streams if there are many, by the table of sixteen products by the key.
pub(crate) fn absorbed_by(table: &[u8], key: Element, sum: Element, bytes: &[u8]) -> Element
    requires table { IsNibbles 16 table.now key }
    requires bytes { length bytes.now ≤ 2 ^ 32 }
    ensures { result ≡ absorbed_all key sum bytes.now (blocks (length bytes.now)) }
{
    if bytes.len() < 512 {
        return absorbed_all(key, sum, bytes);
    }
    let mut all = [0; 256];
    begin(&mut all, sum, bytes);
    gather(table, &mut all, &bytes[256..]);
    let sum = absorbed_streams(key, &all);
    absorbed_from(key, sum, bytes, bytes.len() / 256 * 16)
}

// The first sixteen blocks, turned, with the sum added to the first one.
fn begin(all: &mut [u8], sum: Element, bytes: &[u8])
    requires all { length all.old ≡ 256 }
    requires bytes { 256 ≤ length bytes.now }
    ensures turned { (l : ℕ) → l < 16 → element_of (byte_in all.new l) ≡ first_blocks sum bytes.now l }
    ensures fits { (i : ℕ) → slice_index all.new i < 2 ^ 8 }
    ensures long { length all.new ≡ 256 }
{
    turn(all, bytes);
    let first = block_at(bytes, 0);
    let with_sum = whole(Element {
        hi: sum.hi ^ first.hi,
        lo: sum.lo ^ first.lo,
    });
    put_column(all, 0, with_sum);
}

// Sixteen blocks, turned.
fn turn(all: &mut [u8], bytes: &[u8])
    requires all { length all.old ≡ 256 }
    requires bytes { 256 ≤ length bytes.now }
    ensures bytes { (l j : ℕ) → l < 16 → j < 16 → byte_in all.new l j ≡ slice_index bytes.now (16 * l + j) }
    ensures long { length all.new ≡ 256 }
{
    for j in 0..16usize {
        store(all, j, row(bytes, j));
    }
}

// The sum of the streams' blocks.
fn absorbed_streams(key: Element, all: &[u8]) -> Element
    requires { length all.now ≡ 256 }
    ensures { result ≡ absorb key none (λ (l : ℕ). element_of (byte_in all.now l)) 16 }
{
    let mut sum = Element { hi: 0, lo: 0 };
    for l in 0..16usize {
        sum = absorbed(key, sum, turned_block(all, l));
    }
    sum
}

fn turned_block(all: &[u8], l: usize) -> Element
    requires l { l < 16 }
    requires all { length all.now ≡ 256 }
    ensures { result ≡ element_of (byte_in all.now l) }
{
    Element {
        hi: u64::from_be_bytes([
            all[l],
            all[16 + l],
            all[32 + l],
            all[48 + l],
            all[64 + l],
            all[80 + l],
            all[96 + l],
            all[112 + l],
        ]),
        lo: u64::from_be_bytes([
            all[128 + l],
            all[144 + l],
            all[160 + l],
            all[176 + l],
            all[192 + l],
            all[208 + l],
            all[224 + l],
            all[240 + l],
        ]),
    }
}

// The blocks from this one on, after the sum of those before it.
fn absorbed_from(key: Element, sum: Element, bytes: &[u8], first: usize) -> Element
    requires bytes { length bytes.now ≤ 2 ^ 32 }
    requires first { first ≤ blocks (length bytes.now) }
    ensures { (s : Element) → sum ≡ absorbed_all key s bytes.now first → result ≡ absorbed_all key s bytes.now (blocks (length bytes.now)) }
{
    let mut all = sum;
    for i in first..bytes.len().div_ceil(16) {
        all = absorbed(key, all, block_at(bytes, i));
    }
    all
}
