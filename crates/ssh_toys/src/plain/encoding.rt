//! Points as 32 bytes (RFC 8032 sections 5.1.2 and 5.1.3).

ghost use Rattle.std.specs.Prelude.{IfSome};
ghost use Rattle.ciphers.specs.X25519.Field.{IsTight};
ghost use Rattle.ssh_toys.specs.Plain.{IsPoint};

use crate::plain::field::{negated, product, tightened};
use crate::plain::point::Point;
use crate::plain::powers::{inverse, root_power};
use ciphers::x25519::bytes::{bytes_of, element_of, is_below_prime, is_same, parity};
use ciphers::x25519::field::{Element, ONE, ZERO, difference, is_loose, sum};

// The constant d of the curve.
const D: Element = Element {
    a: 0x3_4dca_1359_78a3,
    b: 0x1_a828_3b15_6ebd,
    c: 0x5_e7a2_6001_c029,
    d: 0x7_39c6_63a0_3cbb,
    e: 0x5_2036_cee2_b6ff,
};

// A square root of -1: 2 to the power (p - 1) / 4 of the prime p.
const ROOT_OF_MINUS_ONE: Element = Element {
    a: 0x6_1b27_4a0e_a0b0,
    b: 0x0_d5a5_fc8f_189d,
    c: 0x7_ef5e_9cbd_0c60,
    d: 0x7_8595_a680_4c9e,
    e: 0x2_b832_4804_fc1d,
};

// The bytes of a point: those of y, the highest bit of which is the lowest of x (section 5.1.2).
pub(crate) fn encoded(p: Point) -> [u8; 32]
    requires { IsPoint p }
{
    is_loose(p.x);
    is_loose(p.y);
    let inverse = inverse(p.z);
    with_sign(product(p.x, inverse), product(p.y, inverse))
}

fn with_sign(x: Element, y: Element) -> [u8; 32]
    requires x { IsTight x }
    requires y { IsTight y }
{
    let mut bytes = bytes_of(y);
    bytes[31] |= parity(x) * 128;
    bytes
}

// The point of these bytes (section 5.1.3). `None` where y is not below the prime, where no x has this y, and where x is 0 and its
// sign bit is set.
pub(crate) fn decoded(bytes: &[u8; 32]) -> Option<Point>
    ensures point { IfSome result (λ p. IsPoint p) }
{
    let y = y_in(bytes)?;
    let x = signed(root(y)?, bytes[31] / 128)?;
    Some(point_of(x, y))
}

// The y of these bytes, where it is below the prime.
fn y_in(bytes: &[u8; 32]) -> Option<Element>
    ensures tight { IfSome result (λ y. IsTight y) }
{
    let y = element_of(bytes);
    if is_below_prime(y) {
        return Some(y);
    }
    None
}

fn point_of(x: Element, y: Element) -> Point
    requires x { IsTight x }
    requires y { IsTight y }
    ensures point { IsPoint result }
{
    is_loose(x);
    is_loose(y);
    Point {
        x,
        y,
        z: ONE,
        t: product(x, y),
    }
}

// The x of one sign or the other; none where it is 0 and the sign is set.
fn signed(x: Element, sign: u8) -> Option<Element>
    requires { IsTight x }
    ensures tight { IfSome result (λ x. IsTight x) }
{
    if parity(x) == sign {
        return Some(x);
    }
    if is_same(x, ZERO) {
        return None;
    }
    Some(negated(x))
}

// An x of this y, whose square is (y^2 - 1) / (d y^2 + 1) (section 5.1.3, the second and third step).
fn root(y: Element) -> Option<Element>
    requires { IsTight y }
    ensures tight { IfSome result (λ x. IsTight x) }
{
    is_loose(y);
    let square = product(y, y);
    let u = tightened(difference(square, ONE));
    let v = tightened(sum(product(square, D), ONE));
    let x = candidate(u, v);
    if is_root(x, u, v) {
        return Some(x);
    }
    is_loose(x);
    let x = product(x, ROOT_OF_MINUS_ONE);
    if is_root(x, u, v) {
        return Some(x);
    }
    None
}

// u v^3 (u v^7)^(2^252 - 3), where the exponent is (p - 5) / 8 of the prime p.
fn candidate(u: Element, v: Element) -> Element
    requires u { IsTight u }
    requires v { IsTight v }
    ensures tight { IsTight result }
{
    is_loose(u);
    is_loose(v);
    let v3 = product(product(v, v), v);
    let v7 = product(product(v3, v3), v);
    product(product(u, v3), root_power(product(u, v7)))
}

// Whether v x^2 is u.
fn is_root(x: Element, u: Element, v: Element) -> bool
    requires x { IsTight x }
    requires u { IsTight u }
    requires v { IsTight v }
{
    is_loose(x);
    is_loose(v);
    is_same(product(v, product(x, x)), u)
}
