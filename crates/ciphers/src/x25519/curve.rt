//! X25519 (RFC 7748 section 5): the Montgomery ladder, with no branch and no place in memory that depends on a secret.

ghost use Rattle.std.specs.Prelude.{◌≡◌, ◌<◌, ◌≤◌, ◌^◌, IfSome, Some, None, bit_xor, replicate};
ghost use Rattle.ciphers.specs.X25519.Curve.{IsRung, base_point, clamped, numbers, rungs, shared_of, step, u_at, x25519 as x25519_of};
ghost use Rattle.ciphers.specs.X25519.Field.{IsTight, residue};

use crate::x25519::bytes::{bit_of, bytes_of, element_of};
use crate::x25519::field::{
    Element, ONE, ZERO, chosen, difference, is_loose, product, sum, times_small,
};
use crate::x25519::powers::inverse;
use crate::x25519::squares::squared;

// Two points of the ladder, and whether they stand swapped.
#[derive(Clone, Copy)]
pub(crate) struct Ladder {
    x2: Element,
    z2: Element,
    x3: Element,
    z3: Element,
    swap: u64,
}

/// The function X25519 of a scalar and a point.
#[tactic(auto, unfolding(crate::specs::X25519::Curve::x25519), using(crate::proofs::X25519Lemmas::Steps::residue_of))]
pub fn x25519(scalar: &[u8; 32], point: &[u8; 32]) -> [u8; 32]
    ensures { result ≡ x25519_of scalar.now point.now }
{
    let x1 = element_of(point);
    bytes_of(u_at(rungs(&clamped(scalar), x1)))
}

// The quotient x2 / z2, after a last swap.
#[tactic(auto, unfolding(crate::specs::X25519::Curve::u_at), using(crate::proofs::X25519Lemmas::Steps::chosen_residue))]
fn u_at(l: Ladder) -> Element
    requires { IsRung l }
    ensures value { residue result ≡ u_at (numbers l) }
    ensures tight { IsTight result }
{
    let x = chosen(l.swap, l.x2, l.x3);
    let z = chosen(l.swap, l.z2, l.z3);
    is_loose(x);
    product(x, inverse(z))
}

/// The public point of a secret.
pub fn public(secret: &[u8; 32]) -> [u8; 32]
    ensures { result ≡ x25519_of secret.now base_point }
{
    let mut base = [0; 32];
    base[0] = 9;
    x25519(secret, &base)
}

/// The bytes that a secret and the other end's point share. They are `None` if they would be 32 zero bytes (RFC 7748 section 6.1).
pub fn shared(secret: &[u8; 32], theirs: &[u8; 32]) -> Option<[u8; 32]>
    ensures value { result ≡ shared_of secret.now theirs.now }
    ensures not_zero { IfSome result (λ bytes. bytes ≡ replicate 32 0 → ⊥) }
{
    let bytes = x25519(secret, theirs);
    if bytes == [0; 32] {
        return None;
    }
    Some(bytes)
}

/// The scalar of a secret: the three lowest bits and the highest one are cleared, and the bit 254 is set.
pub fn clamped(scalar: &[u8; 32]) -> [u8; 32]
    ensures { result ≡ clamped scalar.now }
{
    let mut k = *scalar;
    k[0] = scalar[0] & 248;
    k[31] = (scalar[31] & 127) | 64;
    k
}

// The ladder from the bit 254 down to the bit 0.
#[tactic(auto, using(crate::proofs::X25519Lemmas::Steps::one_rung))]
fn rungs(k: &[u8; 32], x1: Element) -> Ladder
    requires { IsTight x1 }
    ensures value { numbers result ≡ rungs k.now (residue x1) 255 }
    ensures rung { IsRung result }
{
    let mut l = Ladder {
        x2: ONE,
        z2: ZERO,
        x3: x1,
        z3: ONE,
        swap: 0,
    };
    for i in 0..255usize {
        l = step(l, x1, bit_of(k, 254 - i));
    }
    l
}

#[inline(always)]
#[tactic(auto, unfolding(crate::specs::X25519::Curve::step), using(crate::proofs::X25519Lemmas::Steps::chosen_residue))]
fn step(l: Ladder, x1: Element, bit: u64) -> Ladder
    requires l { IsRung l }
    requires x1 { IsTight x1 }
    requires bit { bit ≤ 1 }
    ensures value { numbers result ≡ step (numbers l) (residue x1) bit }
    ensures rung { IsRung result }
{
    let swap = swapped(l.swap, bit);
    let x2 = chosen(swap, l.x2, l.x3);
    let x3 = chosen(swap, l.x3, l.x2);
    let z2 = chosen(swap, l.z2, l.z3);
    let z3 = chosen(swap, l.z3, l.z2);
    let a = sum(x2, z2);
    let aa = squared(a);
    let b = difference(x2, z2);
    let bb = squared(b);
    let e = difference(aa, bb);
    let da = product(difference(x3, z3), a);
    let cb = product(sum(x3, z3), b);
    let s = sum(da, cb);
    let d = difference(da, cb);
    is_loose(x1);
    Ladder {
        x2: product(aa, bb),
        z2: product(e, sum(aa, times_small(e, 121_665))),
        x3: squared(s),
        z3: product(x1, squared(d)),
        swap: bit,
    }
}

// Whether two bits differ.
#[inline(always)]
#[tactic(auto, using(crate::proofs::X25519Lemmas::Bounds::one_bit))]
fn swapped(swap: u64, bit: u64) -> u64
    requires swap { swap ≤ 1 }
    requires bit { bit ≤ 1 }
    ensures value { result ≡ bit_xor swap bit }
    ensures bit { result ≤ 1 }
{
    swap ^ bit
}
