//! GHASH (NIST SP 800-38D, 6.3 and 6.4), bit by bit: no table, and no branch on what is hashed.

ghost use Rattle.std.specs.Prelude.{◌≡◌, ◌≤◌, ◌^◌, ◌+◌, length};
ghost use Rattle.ciphers.specs.AesGcm.Ghash.{absorbed, absorbed_all, block_at, blocks, byte_at, product, step, steps, word_at};

/// A block as an element of the field of 2^128 elements.
#[derive(Clone, Copy)]
pub struct Element {
    pub hi: u64,
    pub lo: u64,
}

// A product in the making: the sum so far, the next multiple, and the bits of the other factor that are left.
#[derive(Clone, Copy)]
pub(crate) struct Begun {
    sum_hi: u64,
    sum_lo: u64,
    hi: u64,
    lo: u64,
    bits: u64,
}

#[inline(always)]
#[tactic(auto, unfolding(crate::specs::AesGcm::Ghash::step))]
fn step(b: Begun) -> Begun
    ensures { result ≡ step b }
{
    let taken = (b.bits >> 63) * u64::MAX;
    let carried = (b.lo % 2) * 0xe100_0000_0000_0000;
    Begun {
        sum_hi: b.sum_hi ^ (b.hi & taken),
        sum_lo: b.sum_lo ^ (b.lo & taken),
        hi: (b.hi >> 1) ^ carried,
        lo: (b.lo >> 1) | (b.hi << 63),
        bits: b.bits << 1,
    }
}

#[tactic(auto, using(crate::proofs::AesGcmLemmas::Sums::one_step), unfolding(crate::specs::AesGcm::Ghash::steps))]
fn steps(begun: Begun) -> Begun
    ensures { result ≡ steps 64 begun }
{
    let mut b = begun;
    for i in 0..64usize {
        b = step(b);
    }
    b
}

#[tactic(auto, unfolding(crate::specs::AesGcm::Ghash::product))]
pub(crate) fn product(x: Element, y: Element) -> Element
    ensures { result ≡ product x y }
{
    let first = steps(Begun {
        sum_hi: 0,
        sum_lo: 0,
        hi: y.hi,
        lo: y.lo,
        bits: x.hi,
    });
    let second = steps(Begun {
        bits: x.lo,
        ..first
    });
    Element {
        hi: second.sum_hi,
        lo: second.sum_lo,
    }
}

// One more block.
#[tactic(auto, unfolding(crate::specs::AesGcm::Ghash::absorbed))]
pub(crate) fn absorbed(key: Element, sum: Element, block: Element) -> Element
    ensures { result ≡ absorbed key sum block }
{
    product(
        Element {
            hi: sum.hi ^ block.hi,
            lo: sum.lo ^ block.lo,
        },
        key,
    )
}

// All blocks of the bytes, the last one with zeros after it.
#[tactic(auto, using(crate::proofs::AesGcmLemmas::Sums::one_block), unfolding(crate::specs::AesGcm::Ghash::absorbed_all))]
pub(crate) fn absorbed_all(key: Element, sum: Element, bytes: &[u8]) -> Element
    requires { length bytes.now ≤ 2 ^ 32 }
    ensures { result ≡ absorbed_all key sum bytes.now (blocks (length bytes.now)) }
{
    let mut all = sum;
    for i in 0..bytes.len().div_ceil(16) {
        all = absorbed(key, all, block_at(bytes, i));
    }
    all
}

pub(crate) fn block_at(bytes: &[u8], i: usize) -> Element
    requires { i ≤ 2 ^ 32 }
    ensures { result ≡ block_at bytes.now i }
{
    Element {
        hi: word_at(bytes, 16 * i),
        lo: word_at(bytes, 16 * i + 8),
    }
}

// Eight bytes, with zeros for those that are missing.
pub(crate) fn word_at(bytes: &[u8], at: usize) -> u64
    requires { at ≤ 2 ^ 40 }
    ensures { result ≡ word_at bytes.now at }
{
    u64::from_be_bytes([
        byte_at(bytes, at),
        byte_at(bytes, at + 1),
        byte_at(bytes, at + 2),
        byte_at(bytes, at + 3),
        byte_at(bytes, at + 4),
        byte_at(bytes, at + 5),
        byte_at(bytes, at + 6),
        byte_at(bytes, at + 7),
    ])
}

#[inline(always)]
fn byte_at(bytes: &[u8], at: usize) -> u8
    ensures { result ≡ byte_at bytes.now at }
{
    if at < bytes.len() { bytes[at] } else { 0 }
}
