//! X25519 (RFC 7748 section 5) by the ladder, with squares made as products.

ghost use Rattle.std.specs.Prelude.{◌≤◌};
ghost use Rattle.ciphers.specs.X25519.Field.{IsTight};
ghost use Rattle.ssh_toys.specs.Plain.{IsRung};

use crate::plain::field::{product, times_small};
use crate::plain::powers::inverse;
use ciphers::x25519::bytes::{bit_of, bytes_of, element_of};
use ciphers::x25519::clamped;
use ciphers::x25519::field::{Element, ONE, ZERO, chosen, difference, is_loose, sum};

// Two points of the ladder, and whether they stand swapped.
#[derive(Clone, Copy)]
pub(crate) struct Ladder {
    pub x2: Element,
    pub z2: Element,
    pub x3: Element,
    pub z3: Element,
    pub swap: u64,
}

/// The function X25519 of a scalar and a point.
pub fn x25519(scalar: &[u8; 32], point: &[u8; 32]) -> [u8; 32] {
    let x1 = element_of(point);
    bytes_of(u_at(rungs(&clamped(scalar), x1)))
}

fn u_at(l: Ladder) -> Element
    requires { IsRung l }
    ensures { IsTight result }
{
    let x = chosen(l.swap, l.x2, l.x3);
    let z = chosen(l.swap, l.z2, l.z3);
    is_loose(x);
    product(x, inverse(z))
}

fn rungs(k: &[u8; 32], x1: Element) -> Ladder
    requires { IsTight x1 }
    ensures { IsRung result }
{
    let mut l = Ladder {
        x2: ONE,
        z2: ZERO,
        x3: x1,
        z3: ONE,
        swap: 0,
    };
    for i in 0..255usize {
        l = step(l, x1, bit_of(k, 254 - i));
    }
    l
}

#[inline(always)]
fn step(l: Ladder, x1: Element, bit: u64) -> Ladder
    requires l { IsRung l }
    requires x1 { IsTight x1 }
    requires bit { bit ≤ 1 }
    ensures { IsRung result }
{
    let swap = swapped(l.swap, bit);
    let x2 = chosen(swap, l.x2, l.x3);
    let x3 = chosen(swap, l.x3, l.x2);
    let z2 = chosen(swap, l.z2, l.z3);
    let z3 = chosen(swap, l.z3, l.z2);
    let a = sum(x2, z2);
    let aa = product(a, a);
    let b = difference(x2, z2);
    let bb = product(b, b);
    let e = difference(aa, bb);
    let da = product(difference(x3, z3), a);
    let cb = product(sum(x3, z3), b);
    let s = sum(da, cb);
    let d = difference(da, cb);
    is_loose(x1);
    Ladder {
        x2: product(aa, bb),
        z2: product(e, sum(aa, times_small(e, 121_665))),
        x3: product(s, s),
        z3: product(x1, product(d, d)),
        swap: bit,
    }
}

#[inline(always)]
fn swapped(swap: u64, bit: u64) -> u64
    ensures { result ≤ 1 }
{
    (swap ^ bit) % 2
}
