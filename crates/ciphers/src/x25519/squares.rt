//! Squares of elements.

ghost use Rattle.std.specs.Prelude.{◌≡◌, ◌<◌, ◌≤◌, ◌+◌, ◌*◌, ◌^◌};
ghost use Rattle.ciphers.specs.X25519.Field.{IsLoose, IsTight, product, residue, row_a, row_b, row_c, row_d, row_e};
ghost use Rattle.ciphers.specs.X25519.Residues.{times as times_modulo};

use crate::x25519::field::{Element, Wide, carried, times};

// Twice a product of two limbs, the second one taken nineteen times or not.
#[inline(always)]
#[tactic(auto, using(crate::proofs::X25519Lemmas::Bounds::products))]
fn times_twice(x: u64, y: u64) -> u128
    requires x { x < 2 ^ 54 }
    requires y { y ≤ 19 * 2 ^ 54 }
    ensures value { result ≡ 2 * (x * y) }
    ensures small { y < 2 ^ 54 → result < 2 ^ 109 }
    ensures most { result < 38 * 2 ^ 108 }
{
    (2 * x) as u128 * y as u128
}

// The sum of the products that make one limb of a square.
#[inline(always)]
fn three(p: u128, q: u128, r: u128) -> u128
    requires p { p < 38 * 2 ^ 108 }
    requires q { q < 38 * 2 ^ 108 }
    requires r { r < 38 * 2 ^ 108 }
    ensures value { result ≡ p + q + r }
    ensures most { result < 120 * 2 ^ 108 }
{
    p + q + r
}

// The limbs of a square. Each product of two different limbs comes twice and is made once.
#[inline(always)]
#[tactic(auto, using(crate::proofs::X25519Lemmas::Rows::row_a))]
fn square_a(x: Element) -> u128
    requires { IsLoose x }
    ensures value { result ≡ row_a x x }
    ensures most { result < 120 * 2 ^ 108 }
{
    three(
        times(x.a, x.a),
        times_twice(x.b, x.e * 19),
        times_twice(x.c, x.d * 19),
    )
}

#[inline(always)]
#[tactic(auto, using(crate::proofs::X25519Lemmas::Rows::row_b))]
fn square_b(x: Element) -> u128
    requires { IsLoose x }
    ensures value { result ≡ row_b x x }
    ensures most { result < 120 * 2 ^ 108 }
{
    three(
        times_twice(x.a, x.b),
        times_twice(x.c, x.e * 19),
        times(x.d, x.d * 19),
    )
}

#[inline(always)]
#[tactic(auto, using(crate::proofs::X25519Lemmas::Rows::row_c))]
fn square_c(x: Element) -> u128
    requires { IsLoose x }
    ensures value { result ≡ row_c x x }
    ensures most { result < 120 * 2 ^ 108 }
{
    three(
        times_twice(x.a, x.c),
        times(x.b, x.b),
        times_twice(x.d, x.e * 19),
    )
}

#[inline(always)]
#[tactic(auto, using(crate::proofs::X25519Lemmas::Rows::row_d))]
fn square_d(x: Element) -> u128
    requires { IsLoose x }
    ensures value { result ≡ row_d x x }
    ensures most { result < 120 * 2 ^ 108 }
{
    three(
        times_twice(x.a, x.d),
        times_twice(x.b, x.c),
        times(x.e, x.e * 19),
    )
}

#[inline(always)]
#[tactic(auto, using(crate::proofs::X25519Lemmas::Rows::row_e))]
fn square_e(x: Element) -> u128
    requires { IsLoose x }
    ensures value { result ≡ row_e x x }
    ensures most { result < 5 * 2 ^ 108 }
{
    times_twice(x.a, x.e) + times_twice(x.b, x.d) + times(x.c, x.c)
}

/// The square of a loose element, which is tight: its product with itself, with 15 products of limbs in place of 25.
#[inline(always)]
#[tactic(auto, unfolding(crate::specs::X25519::Field::product), using(crate::proofs::X25519Lemmas::Modulo::product_residue))]
pub fn squared(x: Element) -> Element
    requires { IsLoose x }
    ensures value { result ≡ product x x }
    ensures residue { residue result ≡ times_modulo (residue x) (residue x) }
    ensures tight { IsTight result }
    ensures loose { IsLoose result }
{
    carried(Wide {
        a: square_a(x),
        b: square_b(x),
        c: square_c(x),
        d: square_d(x),
        e: square_e(x),
    })
}
