//! Numbers below the order L of the base point (RFC 8032 section 5.1), where L is 2^252 + 27742317777372353535851937790883648493.

ghost use Rattle.std.specs.Prelude.{◌≤◌, length};

use ciphers::x25519::bytes::{bit_of, word_of};
use ciphers::x25519::field::picked;

// A number below 2^256 in four words, the lowest first.
#[derive(Clone, Copy)]
pub(crate) struct Scalar {
    pub a: u64,
    pub b: u64,
    pub c: u64,
    pub d: u64,
}

const ZERO: Scalar = Scalar {
    a: 0,
    b: 0,
    c: 0,
    d: 0,
};

const ONE: Scalar = Scalar {
    a: 1,
    b: 0,
    c: 0,
    d: 0,
};

// 2^64.
const WORD: u128 = 0x1_0000_0000_0000_0000;

// The words of L, of which the third is 0.
const ORDER_A: u128 = 0x5812_631a_5cf5_d3ed;

const ORDER_B: u128 = 0x14de_f9de_a2f7_9cd6;

const ORDER_D: u128 = 0x1000_0000_0000_0000;

// A number less L, modulo 2^256, and whether L is no more than the number.
#[derive(Clone, Copy)]
struct Less {
    words: Scalar,
    at_least: u64,
}

// Whether the number of these bytes, the lowest first, is below L.
pub(crate) fn is_reduced(bytes: &[u8; 32]) -> bool {
    less_order(scalar_of(bytes)).at_least == 0
}

// The number of these bytes, the lowest first, modulo L. There are at most 64.
pub(crate) fn reduced(bytes: &[u8]) -> Scalar
    requires { length bytes.now ≤ 64 }
{
    times(bytes, ONE)
}

// The number of these bytes, the lowest first, times a number below L, modulo L. There are at most 64. Each step doubles and adds, and no
// branch depends on a number.
pub(crate) fn times(bytes: &[u8], s: Scalar) -> Scalar
    requires bytes { length bytes.now ≤ 64 }
{
    let count = 8 * bytes.len();
    let mut product = ZERO;
    for i in 0..count {
        product = doubled(product, chosen(bit_of(bytes, count - 1 - i), ZERO, s));
    }
    product
}

// Twice a number, and another one.
fn doubled(x: Scalar, y: Scalar) -> Scalar {
    sum(sum(x, x), y)
}

// The sum of two numbers below L, modulo L.
pub(crate) fn sum(x: Scalar, y: Scalar) -> Scalar {
    let whole = plus(x, y);
    let less = less_order(whole);
    chosen(less.at_least, whole, less.words)
}

// The second number where the choice is 1, and the first where it is 0. No branch depends on the choice.
fn chosen(choice: u64, x: Scalar, y: Scalar) -> Scalar
    requires { choice ≤ 1 }
{
    Scalar {
        a: picked(choice, x.a, y.a),
        b: picked(choice, x.b, y.b),
        c: picked(choice, x.c, y.c),
        d: picked(choice, x.d, y.d),
    }
}

fn plus(x: Scalar, y: Scalar) -> Scalar {
    let a = x.a as u128 + y.a as u128;
    let b = x.b as u128 + y.b as u128 + a / WORD;
    let c = x.c as u128 + y.c as u128 + b / WORD;
    let d = x.d as u128 + y.d as u128 + c / WORD;
    Scalar {
        a: (a % WORD) as u64,
        b: (b % WORD) as u64,
        c: (c % WORD) as u64,
        d: (d % WORD) as u64,
    }
}

// The number less L. Each word has 2^64 added, which the next one gives back unless it came to be too much.
fn less_order(x: Scalar) -> Less
    ensures bit { result.at_least ≤ 1 }
{
    let a = x.a as u128 + WORD - ORDER_A;
    let b = x.b as u128 + (WORD - 1) - ORDER_B + a / WORD;
    let c = x.c as u128 + (WORD - 1) + b / WORD;
    let d = x.d as u128 + (WORD - 1) - ORDER_D + c / WORD;
    Less {
        words: Scalar {
            a: (a % WORD) as u64,
            b: (b % WORD) as u64,
            c: (c % WORD) as u64,
            d: (d % WORD) as u64,
        },
        at_least: (d / WORD) as u64,
    }
}

fn scalar_of(bytes: &[u8; 32]) -> Scalar {
    Scalar {
        a: word_of(bytes, 0),
        b: word_of(bytes, 8),
        c: word_of(bytes, 16),
        d: word_of(bytes, 24),
    }
}

// The 32 bytes of a number, the lowest first.
pub(crate) fn bytes_of(s: Scalar) -> [u8; 32] {
    let v = s.a.to_le_bytes();
    let w = s.b.to_le_bytes();
    let x = s.c.to_le_bytes();
    let y = s.d.to_le_bytes();
    [
        v[0], v[1], v[2], v[3], v[4], v[5], v[6], v[7], w[0], w[1], w[2], w[3], w[4], w[5], w[6],
        w[7], x[0], x[1], x[2], x[3], x[4], x[5], x[6], x[7], y[0], y[1], y[2], y[3], y[4], y[5],
        y[6], y[7],
    ]
}
