//! The curve -x^2 + y^2 = 1 + d x^2 y^2 in extended coordinates (RFC 8032 section 5.1.4).

ghost use Rattle.std.specs.Prelude.{◌≡◌};
ghost use Rattle.ciphers.specs.X25519.Field.{IsLoose, IsTight, residue};
ghost use Rattle.ciphers.specs.X25519.Residues.{minus, plus, times};
ghost use Rattle.ciphers.specs.Ed25519.Point.{IsPoint, IsPrepared, added, added_ready, d, negated, numbers, prepared, ready};

use crate::x25519::field;
use crate::x25519::field::{
    Element, ONE, ZERO, difference, is_loose, product, sum, twice_less, twice_plus,
};
use crate::x25519::squares::squared;

// A point by four elements: x / z and y / z are its coordinates, and t is x y / z.
#[derive(Clone, Copy)]
pub(crate) struct Point {
    pub x: Element,
    pub y: Element,
    pub z: Element,
    pub t: Element,
}

// A point whose z is 1, made ready to be added: y - x, y + x and 2 d t.
#[derive(Clone, Copy)]
pub(crate) struct ReadyPoint {
    pub less: Element,
    pub more: Element,
    pub t: Element,
}

// The neutral point, whose coordinates are 0 and 1.
pub(crate) const IDENTITY: Point = Point {
    x: ZERO,
    y: ONE,
    z: ONE,
    t: ZERO,
};

// Twice the constant d of the curve, which is -121665/121666.
const TWICE_D: Element = Element {
    a: 0x6_9b94_26b2_f159,
    b: 0x3_5050_762a_dd7a,
    c: 0x3_cf44_c003_8052,
    d: 0x6_738c_c740_7977,
    e: 0x2_406d_9dc5_6dff,
};

// The sum of two points. The formulas hold for all of them: equal, opposite and neutral ones too (section 5.1.4).
#[tactic(auto, unfolding(crate::specs::Ed25519::Point::added), using(crate::proofs::Ed25519Lemmas::Constants::twice_d))]
pub(crate) fn added(p: Point, q: Point) -> Point
    requires p { IsPoint p }
    requires q { IsPoint q }
    ensures value { numbers result ≡ added (numbers p) (numbers q) }
    ensures point { IsPoint result }
{
    is_loose(p.z);
    is_loose(p.t);
    is_loose(q.t);
    let a = product(difference(p.y, p.x), difference(q.y, q.x));
    let b = product(sum(p.y, p.x), sum(q.y, q.x));
    let c = product(product(p.t, TWICE_D), q.t);
    let d = product(p.z, sum(q.z, q.z));
    let e = difference(b, a);
    let f = difference(d, c);
    let g = sum(d, c);
    let h = sum(b, a);
    Point {
        x: product(e, f),
        y: product(g, h),
        z: product(f, g),
        t: product(e, h),
    }
}

// Twice a point: the sum of it and itself, by four squares and five products.
#[tactic(auto, unfolding(crate::specs::Ed25519::Point::added))]
pub(crate) fn doubled(p: Point) -> Point
    requires { IsPoint p }
    ensures value { numbers result ≡ added (numbers p) (numbers p) }
    ensures point { IsPoint result }
{
    is_loose(p.z);
    let a = squared(difference(p.y, p.x));
    let b = squared(sum(p.y, p.x));
    let c = twice_d_squared(p.t);
    let z = squared(p.z);
    let e = difference(b, a);
    let f = square_less(p.z, z, c);
    let g = square_plus(p.z, z, c);
    let h = sum(b, a);
    Point {
        x: product(e, f),
        y: product(g, h),
        z: product(f, g),
        t: product(e, h),
    }
}

// A square 2 d times.
#[inline(always)]
#[tactic(auto, using(crate::proofs::Ed25519Lemmas::Constants::twice_d, crate::proofs::Ed25519Lemmas::Shared::square_first))]
fn twice_d_squared(t: Element) -> Element
    requires { IsTight t }
    ensures value { residue result ≡ times (times (residue t) (plus d d)) (residue t) }
    ensures tight { IsTight result }
{
    is_loose(t);
    product(squared(t), TWICE_D)
}

// Twice the square of an element less another one.
#[inline(always)]
#[tactic(auto, using(crate::proofs::Ed25519Lemmas::Shared::square_twice))]
fn square_less(z: Element, square: Element, c: Element) -> Element
    requires square { IsTight square }
    requires z { residue square ≡ times (residue z) (residue z) }
    requires c { IsTight c }
    ensures value { residue result ≡ minus (times (residue z) (plus (residue z) (residue z))) (residue c) }
    ensures loose { IsLoose result }
{
    twice_less(square, c)
}

// Twice the square of an element and another one.
#[inline(always)]
#[tactic(auto, using(crate::proofs::Ed25519Lemmas::Shared::square_twice))]
fn square_plus(z: Element, square: Element, c: Element) -> Element
    requires square { IsTight square }
    requires z { residue square ≡ times (residue z) (residue z) }
    requires c { IsTight c }
    ensures value { residue result ≡ plus (times (residue z) (plus (residue z) (residue z))) (residue c) }
    ensures loose { IsLoose result }
{
    twice_plus(square, c)
}

// A point whose z is 1, made ready to be added often.
#[tactic(auto, using(crate::proofs::Ed25519Lemmas::Constants::twice_d))]
pub(crate) fn prepared(p: Point) -> ReadyPoint
    requires { IsPoint p }
    ensures value { ready result ≡ prepared (numbers p) }
    ensures prepared { IsPrepared result }
{
    is_loose(p.t);
    ReadyPoint {
        less: difference(p.y, p.x),
        more: sum(p.y, p.x),
        t: product(p.t, TWICE_D),
    }
}

// The sum of a point and a prepared one, by seven products.
#[tactic(auto, unfolding(crate::specs::Ed25519::Point::added_ready))]
pub(crate) fn added_prepared(p: Point, q: ReadyPoint) -> Point
    requires p { IsPoint p }
    requires q { IsPrepared q }
    ensures value { numbers result ≡ added_ready (numbers p) (ready q) }
    ensures point { IsPoint result }
{
    is_loose(p.t);
    is_loose(q.t);
    let a = product(difference(p.y, p.x), q.less);
    let b = product(sum(p.y, p.x), q.more);
    let c = product(p.t, q.t);
    let e = difference(b, a);
    let f = twice_less(p.z, c);
    let g = twice_plus(p.z, c);
    let h = sum(b, a);
    Point {
        x: product(e, f),
        y: product(g, h),
        z: product(f, g),
        t: product(e, h),
    }
}

// The opposite point.
#[tactic(auto, unfolding(crate::specs::Ed25519::Point::negated))]
pub(crate) fn negated(p: Point) -> Point
    requires { IsPoint p }
    ensures value { numbers result ≡ negated (numbers p) }
    ensures point { IsPoint result }
{
    Point {
        x: field::negated(p.x),
        y: p.y,
        z: p.z,
        t: field::negated(p.t),
    }
}
