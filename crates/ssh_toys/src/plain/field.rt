//! Products of elements as sums of 25 products of limbs.

ghost use Rattle.std.specs.Prelude.{◌<◌, ◌≤◌, ◌^◌};
ghost use Rattle.ciphers.specs.X25519.Field.{IsLoose, IsTight};
ghost use Rattle.ssh_toys.specs.Plain.{IsWide};

use ciphers::x25519::field::{Element, ONE, ZERO, difference};

// A product before its carries.
#[derive(Clone, Copy)]
pub(crate) struct Wide {
    pub a: u128,
    pub b: u128,
    pub c: u128,
    pub d: u128,
    pub e: u128,
}

// 2^51.
const LIMB: u128 = 0x8_0000_0000_0000;

// A product of two limbs, the second one taken nineteen times or not.
#[inline(always)]
#[tactic(auto, using(crate::proofs::Bounds::small_product))]
fn times(x: u64, y: u64) -> u128
    requires x { x < 2 ^ 54 }
    requires y { y < 2 ^ 59 }
    ensures most { result < 2 ^ 113 }
{
    x as u128 * y as u128
}

// The sum of the products that make one limb.
#[inline(always)]
fn five(p: u128, q: u128, r: u128, s: u128, t: u128) -> u128
    requires p { p < 2 ^ 113 }
    requires q { q < 2 ^ 113 }
    requires r { r < 2 ^ 113 }
    requires s { s < 2 ^ 113 }
    requires t { t < 2 ^ 113 }
    ensures most { result < 2 ^ 116 }
{
    p + q + r + s + t
}

// The limbs of a product. The limbs above the fifth come back nineteen times, since 2^255 is 19 in the field.
#[inline(always)]
fn row_a(x: Element, y: Element) -> u128
    requires x { IsLoose x }
    requires y { IsLoose y }
    ensures most { result < 2 ^ 116 }
{
    five(
        times(x.a, y.a),
        times(x.b, y.e * 19),
        times(x.c, y.d * 19),
        times(x.d, y.c * 19),
        times(x.e, y.b * 19),
    )
}

#[inline(always)]
fn row_b(x: Element, y: Element) -> u128
    requires x { IsLoose x }
    requires y { IsLoose y }
    ensures most { result < 2 ^ 116 }
{
    five(
        times(x.a, y.b),
        times(x.b, y.a),
        times(x.c, y.e * 19),
        times(x.d, y.d * 19),
        times(x.e, y.c * 19),
    )
}

#[inline(always)]
fn row_c(x: Element, y: Element) -> u128
    requires x { IsLoose x }
    requires y { IsLoose y }
    ensures most { result < 2 ^ 116 }
{
    five(
        times(x.a, y.c),
        times(x.b, y.b),
        times(x.c, y.a),
        times(x.d, y.e * 19),
        times(x.e, y.d * 19),
    )
}

#[inline(always)]
fn row_d(x: Element, y: Element) -> u128
    requires x { IsLoose x }
    requires y { IsLoose y }
    ensures most { result < 2 ^ 116 }
{
    five(
        times(x.a, y.d),
        times(x.b, y.c),
        times(x.c, y.b),
        times(x.d, y.a),
        times(x.e, y.e * 19),
    )
}

#[inline(always)]
fn row_e(x: Element, y: Element) -> u128
    requires x { IsLoose x }
    requires y { IsLoose y }
    ensures most { result < 2 ^ 116 }
{
    five(
        times(x.a, y.e),
        times(x.b, y.d),
        times(x.c, y.c),
        times(x.d, y.b),
        times(x.e, y.a),
    )
}

// The product of two loose elements, which is tight.
#[inline(always)]
pub(crate) fn product(x: Element, y: Element) -> Element
    requires x { IsLoose x }
    requires y { IsLoose y }
    ensures tight { IsTight result }
    ensures loose { IsLoose result }
{
    carried(Wide {
        a: row_a(x, y),
        b: row_b(x, y),
        c: row_c(x, y),
        d: row_d(x, y),
        e: row_e(x, y),
    })
}

// What each limb has from 2^51 on goes to the next limb; what the last one has, to the first, nineteen times.
#[inline(always)]
fn carried(w: Wide) -> Element
    requires { IsWide w }
    ensures tight { IsTight result }
    ensures loose { IsLoose result }
{
    let b = w.b + w.a / LIMB;
    let c = w.c + b / LIMB;
    let d = w.d + c / LIMB;
    let e = w.e + d / LIMB;
    let first = w.a % LIMB + e / LIMB * 19;
    let second = b % LIMB + first / LIMB;
    Element {
        a: (first % LIMB) as u64,
        b: second as u64,
        c: (c % LIMB) as u64,
        d: (d % LIMB) as u64,
        e: (e % LIMB) as u64,
    }
}

// The element so many times, at most 2^17.
#[inline(always)]
pub(crate) fn times_small(x: Element, n: u64) -> Element
    requires x { IsLoose x }
    requires n { n ≤ 2 ^ 17 }
    ensures tight { IsTight result }
{
    carried(Wide {
        a: times(x.a, n),
        b: times(x.b, n),
        c: times(x.c, n),
        d: times(x.d, n),
        e: times(x.e, n),
    })
}

// The same number as a tight element.
#[inline(always)]
pub(crate) fn tightened(x: Element) -> Element
    requires { IsLoose x }
    ensures tight { IsTight result }
{
    product(x, ONE)
}

// The opposite of a tight element, which is tight.
pub(crate) fn negated(x: Element) -> Element
    requires { IsTight x }
    ensures tight { IsTight result }
{
    tightened(difference(ZERO, x))
}
