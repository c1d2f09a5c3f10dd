//! The curve -x^2 + y^2 = 1 + d x^2 y^2 in extended coordinates (RFC 8032 section 5.1.4).

ghost use Rattle.std.specs.Prelude.{◌≤◌};
ghost use Rattle.ssh_toys.specs.Plain.{IsPoint};

use crate::plain::field::{negated as negated_element, product};
use ciphers::x25519::bytes::bit_of;
use ciphers::x25519::field::{Element, ONE, ZERO, chosen, difference, is_loose, sum};

// A point by four elements: x / z and y / z are its coordinates, and t is x y / z.
#[derive(Clone, Copy)]
pub(crate) struct Point {
    pub x: Element,
    pub y: Element,
    pub z: Element,
    pub t: Element,
}

// The neutral point, whose coordinates are 0 and 1.
const IDENTITY: Point = Point {
    x: ZERO,
    y: ONE,
    z: ONE,
    t: ZERO,
};

// The base point B (section 5.1), whose y is 4/5 and whose x is even.
pub(crate) const BASE: Point = Point {
    x: Element {
        a: 0x6_2d60_8f25_d51a,
        b: 0x4_12a4_b4f6_592a,
        c: 0x7_5b71_71a4_b31d,
        d: 0x1_ff60_5271_18fe,
        e: 0x2_1693_6d3c_d6e5,
    },
    y: Element {
        a: 0x6_6666_6666_6658,
        b: 0x4_cccc_cccc_cccc,
        c: 0x1_9999_9999_9999,
        d: 0x3_3333_3333_3333,
        e: 0x6_6666_6666_6666,
    },
    z: ONE,
    t: Element {
        a: 0x6_8ab3_a5b7_dda3,
        b: 0x0_eea2_a5ea_dbb,
        c: 0x2_af8d_f483_c27e,
        d: 0x3_32b3_7527_4732,
        e: 0x6_7875_f0fd_78b7,
    },
};

// Twice the constant d of the curve, which is -121665/121666.
const TWICE_D: Element = Element {
    a: 0x6_9b94_26b2_f159,
    b: 0x3_5050_762a_dd7a,
    c: 0x3_cf44_c003_8052,
    d: 0x6_738c_c740_7977,
    e: 0x2_406d_9dc5_6dff,
};

// The sum of two points. The formulas hold for all of them: equal, opposite and neutral ones too (section 5.1.4).
pub(crate) fn added(p: Point, q: Point) -> Point
    requires p { IsPoint p }
    requires q { IsPoint q }
    ensures point { IsPoint result }
{
    is_loose(p.z);
    is_loose(p.t);
    is_loose(q.t);
    let a = product(difference(p.y, p.x), difference(q.y, q.x));
    let b = product(sum(p.y, p.x), sum(q.y, q.x));
    let c = product(product(p.t, TWICE_D), q.t);
    let d = product(p.z, sum(q.z, q.z));
    let e = difference(b, a);
    let f = difference(d, c);
    let g = sum(d, c);
    let h = sum(b, a);
    Point {
        x: product(e, f),
        y: product(g, h),
        z: product(f, g),
        t: product(e, h),
    }
}

// The opposite point.
pub(crate) fn negated(p: Point) -> Point
    requires { IsPoint p }
    ensures point { IsPoint result }
{
    Point {
        x: negated_element(p.x),
        y: p.y,
        z: p.z,
        t: negated_element(p.t),
    }
}

// The second point where the choice is 1, and the first where it is 0. No branch depends on the choice.
fn chosen_point(choice: u64, p: Point, q: Point) -> Point
    requires choice { choice ≤ 1 }
    requires p { IsPoint p }
    requires q { IsPoint q }
    ensures point { IsPoint result }
{
    Point {
        x: chosen(choice, p.x, q.x),
        y: chosen(choice, p.y, q.y),
        z: chosen(choice, p.z, q.z),
        t: chosen(choice, p.t, q.t),
    }
}

// The point so many times, a number of 32 bytes with the lowest byte first. Each of 256 steps doubles and adds, and no branch and no place
// in memory depends on the number.
pub(crate) fn multiplied(number: &[u8; 32], p: Point) -> Point
    requires { IsPoint p }
    ensures point { IsPoint result }
{
    let mut q = IDENTITY;
    for i in 0..256usize {
        q = added(q, q);
        q = chosen_point(bit_of(number, 255 - i), q, added(q, p));
    }
    q
}
