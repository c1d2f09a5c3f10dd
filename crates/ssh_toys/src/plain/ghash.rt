//! GHASH (NIST SP 800-38D, 6.3 and 6.4), bit by bit.

ghost use Rattle.std.specs.Prelude.{◌≤◌, ◌^◌, length};

use ciphers::aes_gcm::Element;

// A product in the making: the sum so far, the next multiple, and the bits of the other factor that are left.
#[derive(Clone, Copy)]
struct Begun {
    sum_hi: u64,
    sum_lo: u64,
    hi: u64,
    lo: u64,
    bits: u64,
}

#[inline(always)]
fn step(b: Begun) -> Begun {
    let taken = (b.bits >> 63) * u64::MAX;
    let carried = (b.lo % 2) * 0xe100_0000_0000_0000;
    Begun {
        sum_hi: b.sum_hi ^ (b.hi & taken),
        sum_lo: b.sum_lo ^ (b.lo & taken),
        hi: (b.hi >> 1) ^ carried,
        lo: (b.lo >> 1) | (b.hi << 63),
        bits: b.bits << 1,
    }
}

fn steps(begun: Begun) -> Begun {
    let mut b = begun;
    for _ in 0..64usize {
        b = step(b);
    }
    b
}

fn product(x: Element, y: Element) -> Element {
    let first = steps(Begun {
        sum_hi: 0,
        sum_lo: 0,
        hi: y.hi,
        lo: y.lo,
        bits: x.hi,
    });
    let second = steps(Begun {
        bits: x.lo,
        ..first
    });
    Element {
        hi: second.sum_hi,
        lo: second.sum_lo,
    }
}

/// The sum of one more block.
pub fn absorbed(key: Element, sum: Element, block: Element) -> Element {
    product(
        Element {
            hi: sum.hi ^ block.hi,
            lo: sum.lo ^ block.lo,
        },
        key,
    )
}

/// The sum of all blocks of the bytes, the last one with zeros after it.
pub fn absorbed_all(key: Element, sum: Element, bytes: &[u8]) -> Element
    requires { length bytes.now ≤ 2 ^ 32 }
{
    let mut all = sum;
    for i in 0..bytes.len().div_ceil(16) {
        all = absorbed(key, all, block_at(bytes, i));
    }
    all
}

fn block_at(bytes: &[u8], i: usize) -> Element
    requires { i ≤ 2 ^ 32 }
{
    Element {
        hi: word_at(bytes, 16 * i),
        lo: word_at(bytes, 16 * i + 8),
    }
}

/// Eight bytes, and zeros where there are none.
pub fn word_at(bytes: &[u8], at: usize) -> u64
    requires { at ≤ 2 ^ 40 }
{
    u64::from_be_bytes([
        byte_at(bytes, at),
        byte_at(bytes, at + 1),
        byte_at(bytes, at + 2),
        byte_at(bytes, at + 3),
        byte_at(bytes, at + 4),
        byte_at(bytes, at + 5),
        byte_at(bytes, at + 6),
        byte_at(bytes, at + 7),
    ])
}

#[inline(always)]
fn byte_at(bytes: &[u8], at: usize) -> u8 {
    if at < bytes.len() { bytes[at] } else { 0 }
}
