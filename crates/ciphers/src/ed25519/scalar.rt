//! Numbers below the order L of the base point (RFC 8032 section 5.1), where L is 2^252 + 27742317777372353535851937790883648493.

ghost use Rattle.std.specs.Prelude.{◌≡◌, ◌<◌, ◌≤◌, ◌+◌, ◌*◌, ◌%◌, ◌^◌, length};
ghost use Rattle.ciphers.specs.X25519.Bytes.{le_bytes, value};
ghost use Rattle.ciphers.specs.Ed25519.Scalar.{chosen, is_below_order, number, order};

use crate::x25519::bytes::word_of;
use crate::x25519::field::picked;

// A number below 2^256 in four words, the lowest first.
#[derive(Clone, Copy)]
pub(crate) struct Scalar {
    pub a: u64,
    pub b: u64,
    pub c: u64,
    pub d: u64,
}

const ZERO: Scalar = Scalar {
    a: 0,
    b: 0,
    c: 0,
    d: 0,
};

const ONE: Scalar = Scalar {
    a: 1,
    b: 0,
    c: 0,
    d: 0,
};

// 2^64.
const WORD: u128 = 0x1_0000_0000_0000_0000;

// The words of L, of which the third is 0.
const ORDER_A: u128 = 0x5812_631a_5cf5_d3ed;

const ORDER_B: u128 = 0x14de_f9de_a2f7_9cd6;

const ORDER_D: u128 = 0x1000_0000_0000_0000;

// What a word is lent, 2^80, and what the next one gives back for it.
const LENT: u128 = 0x1_0000_0000_0000_0000_0000;

const BACK: u128 = 0x1_0000;

// A number as what it has below 2^252, and from there on.
#[derive(Clone, Copy)]
struct Parts {
    low: Scalar,
    high: u64,
}

// A number less L, modulo 2^256, and whether L is no more than the number.
#[derive(Clone, Copy)]
struct Less {
    words: Scalar,
    at_least: u64,
}

// Whether the number of these bytes, the lowest first, is below L.
pub(crate) fn is_reduced(bytes: &[u8; 32]) -> bool
    ensures { result ≡ is_below_order (value bytes.now) }
{
    less_order(scalar_of(bytes)).at_least == 0
}

// The number of these bytes, the lowest first, modulo L. There are at most 64.
pub(crate) fn reduced(bytes: &[u8]) -> Scalar
    requires { length bytes.now ≤ 64 }
    ensures value { number result ≡ value bytes.now % order }
    ensures below { number result < order }
{
    times(bytes, ONE)
}

// The number of these bytes, the lowest first, times a number below L, modulo L. There are at most 64. No branch depends on a number.
pub(crate) fn times(bytes: &[u8], s: Scalar) -> Scalar
    requires bytes { length bytes.now ≤ 64 }
    requires s { number s < order }
    ensures value { number result ≡ value bytes.now * number s % order }
    ensures below { number result < order }
{
    let count = bytes.len();
    let mut product = ZERO;
    for i in 0..count {
        product = with_byte(product, bytes[count - 1 - i], s);
    }
    product
}

// 256 times a number, and a byte times another one.
fn with_byte(x: Scalar, byte: u8, s: Scalar) -> Scalar
    requires x { number x < order }
    requires s { number s < order }
    ensures value { number result ≡ (256 * number x + byte * number s) % order }
    ensures below { number result < order }
{
    reduced_once(folded(parts_of(x, byte, s)))
}

// The same in two parts.
fn parts_of(x: Scalar, byte: u8, s: Scalar) -> Parts
    requires x { number x < order }
    requires s { number s < order }
    ensures value { number result.low + result.high * 2 ^ 252 ≡ 256 * number x + byte * number s }
    ensures low { number result.low < 2 ^ 252 }
    ensures high { result.high < 1024 }
{
    let n = byte as u128;
    let a = x.a as u128 * 256 + s.a as u128 * n;
    let b = x.b as u128 * 256 + s.b as u128 * n + a / WORD;
    let c = x.c as u128 * 256 + s.c as u128 * n + b / WORD;
    let d = x.d as u128 * 256 + s.d as u128 * n + c / WORD;
    Parts {
        low: Scalar {
            a: (a % WORD) as u64,
            b: (b % WORD) as u64,
            c: (c % WORD) as u64,
            d: (d % ORDER_D) as u64,
        },
        high: (d / ORDER_D) as u64,
    }
}

// The low part less so many times what L is above 2^252, and L, so that it stays above zero. Each word has 2^80 added, which the next one
// gives back.
fn folded(parts: Parts) -> Scalar
    requires low { number parts.low < 2 ^ 252 }
    requires high { parts.high < 1024 }
    ensures value { number result + parts.high * order ≡ number parts.low + parts.high * 2 ^ 252 + order }
    ensures below { number result < 2 * order }
{
    let q = parts.high as u128;
    let a = parts.low.a as u128 + ORDER_A + LENT - q * ORDER_A;
    let b = parts.low.b as u128 + ORDER_B + LENT - BACK - q * ORDER_B + a / WORD;
    let c = parts.low.c as u128 + LENT - BACK + b / WORD;
    let d = parts.low.d as u128 + ORDER_D + c / WORD - BACK;
    Scalar {
        a: (a % WORD) as u64,
        b: (b % WORD) as u64,
        c: (c % WORD) as u64,
        d: (d % WORD) as u64,
    }
}

// The sum of two numbers below L, modulo L.
pub(crate) fn sum(x: Scalar, y: Scalar) -> Scalar
    requires x { number x < order }
    requires y { number y < order }
    ensures value { number result ≡ (number x + number y) % order }
    ensures below { number result < order }
{
    reduced_once(plus(x, y))
}

// A number less L, unless it is below L.
#[tactic(auto, using(crate::proofs::Ed25519Lemmas::Sums::chosen_sum))]
fn reduced_once(whole: Scalar) -> Scalar
    requires { number whole < 2 * order }
    ensures value { number result ≡ number whole % order }
    ensures below { number result < order }
{
    let less = less_order(whole);
    chosen(less.at_least, whole, less.words)
}

// The second number where the choice is 1, and the first where it is 0. No branch depends on the choice.
#[tactic(auto, unfolding(crate::specs::Ed25519::Scalar::chosen))]
fn chosen(choice: u64, x: Scalar, y: Scalar) -> Scalar
    requires { choice ≤ 1 }
    ensures { result ≡ chosen choice x y }
{
    Scalar {
        a: picked(choice, x.a, y.a),
        b: picked(choice, x.b, y.b),
        c: picked(choice, x.c, y.c),
        d: picked(choice, x.d, y.d),
    }
}

fn plus(x: Scalar, y: Scalar) -> Scalar
    requires x { number x < order }
    requires y { number y < order }
    ensures { number result ≡ number x + number y }
{
    let a = x.a as u128 + y.a as u128;
    let b = x.b as u128 + y.b as u128 + a / WORD;
    let c = x.c as u128 + y.c as u128 + b / WORD;
    let d = x.d as u128 + y.d as u128 + c / WORD;
    Scalar {
        a: (a % WORD) as u64,
        b: (b % WORD) as u64,
        c: (c % WORD) as u64,
        d: (d % WORD) as u64,
    }
}

// The number less L. Each word has 2^64 added, which the next one gives back unless it came to be too much.
fn less_order(x: Scalar) -> Less
    ensures value { number x + 2 ^ 256 ≡ number result.words + result.at_least * 2 ^ 256 + order }
    ensures words { number result.words < 2 ^ 256 }
    ensures bit { result.at_least ≤ 1 }
{
    let a = x.a as u128 + WORD - ORDER_A;
    let b = x.b as u128 + (WORD - 1) - ORDER_B + a / WORD;
    let c = x.c as u128 + (WORD - 1) + b / WORD;
    let d = x.d as u128 + (WORD - 1) - ORDER_D + c / WORD;
    Less {
        words: Scalar {
            a: (a % WORD) as u64,
            b: (b % WORD) as u64,
            c: (c % WORD) as u64,
            d: (d % WORD) as u64,
        },
        at_least: (d / WORD) as u64,
    }
}

pub(crate) fn scalar_of(bytes: &[u8; 32]) -> Scalar
    ensures { number result ≡ value bytes.now }
{
    Scalar {
        a: word_of(bytes, 0),
        b: word_of(bytes, 8),
        c: word_of(bytes, 16),
        d: word_of(bytes, 24),
    }
}

// The 32 bytes of a number, the lowest first.
pub(crate) fn bytes_of(s: Scalar) -> [u8; 32]
    ensures { result ≡ le_bytes (number s) }
{
    let v = s.a.to_le_bytes();
    let w = s.b.to_le_bytes();
    let x = s.c.to_le_bytes();
    let y = s.d.to_le_bytes();
    [
        v[0], v[1], v[2], v[3], v[4], v[5], v[6], v[7], w[0], w[1], w[2], w[3], w[4], w[5], w[6],
        w[7], x[0], x[1], x[2], x[3], x[4], x[5], x[6], x[7], y[0], y[1], y[2], y[3], y[4], y[5],
        y[6], y[7],
    ]
}
