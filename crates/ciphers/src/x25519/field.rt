//! The field of 2^255 - 19 elements (RFC 7748 section 4.1), in five limbs of 51 bits and some more. No sum and no product wraps.

ghost use Rattle.std.specs.Prelude.{◌≡◌, ◌<◌, ◌≤◌, ◌+◌, ◌*◌, ◌/◌, ◌%◌, ◌^◌};
ghost use Rattle.ciphers.specs.X25519.Field.{IsLoose, IsTight, IsWide, carried, chosen, difference, picked, product, residue, row_a, row_b, row_c};
ghost use Rattle.ciphers.specs.X25519.Field.{row_d, row_e, sum, times_small};
ghost use Rattle.ciphers.specs.X25519.Residues.{minus, plus, times as times_modulo};

/// An element: the number that is the sum of its limbs, where the limb k is worth 2^(51 k). An element is tight where each limb is below
/// 2^52, and loose where each is below 2^54.
#[derive(Clone, Copy)]
pub struct Element {
    pub a: u64,
    pub b: u64,
    pub c: u64,
    pub d: u64,
    pub e: u64,
}

// A product before its carries.
#[derive(Clone, Copy)]
pub(crate) struct Wide {
    pub a: u128,
    pub b: u128,
    pub c: u128,
    pub d: u128,
    pub e: u128,
}

/// The element 0.
pub const ZERO: Element = Element {
    a: 0,
    b: 0,
    c: 0,
    d: 0,
    e: 0,
};

/// The element 1.
pub const ONE: Element = Element {
    a: 1,
    b: 0,
    c: 0,
    d: 0,
    e: 0,
};

// 2^51.
const LIMB: u128 = 0x8_0000_0000_0000;

/// The sum of two tight elements, which is loose.
#[inline(always)]
#[tactic(auto, unfolding(crate::specs::X25519::Field::sum), using(crate::proofs::X25519Lemmas::Modulo::sum_residue))]
pub fn sum(x: Element, y: Element) -> Element
    requires x { IsTight x }
    requires y { IsTight y }
    ensures value { result ≡ sum x y }
    ensures residue { residue result ≡ plus (residue x) (residue y) }
    ensures loose { IsLoose result }
{
    Element {
        a: x.a + y.a,
        b: x.b + y.b,
        c: x.c + y.c,
        d: x.d + y.d,
        e: x.e + y.e,
    }
}

/// The difference of two tight elements, which is loose. Four times the prime is added first, so that no limb falls below zero.
#[inline(always)]
#[tactic(auto, unfolding(crate::specs::X25519::Field::difference), using(crate::proofs::X25519Lemmas::Modulo::difference_residue))]
pub fn difference(x: Element, y: Element) -> Element
    requires x { IsTight x }
    requires y { IsTight y }
    ensures value { result ≡ difference x y }
    ensures residue { residue result ≡ minus (residue x) (residue y) }
    ensures loose { IsLoose result }
{
    Element {
        a: x.a + 0x1f_ffff_ffff_ffb4 - y.a,
        b: x.b + 0x1f_ffff_ffff_fffc - y.b,
        c: x.c + 0x1f_ffff_ffff_fffc - y.c,
        d: x.d + 0x1f_ffff_ffff_fffc - y.d,
        e: x.e + 0x1f_ffff_ffff_fffc - y.e,
    }
}

/// Twice the first tight element and the second one, which is loose.
#[inline(always)]
#[tactic(auto, unfolding(crate::specs::X25519::Field::sum), using(crate::proofs::X25519Lemmas::Modulo::twice_plus_residue))]
pub fn twice_plus(x: Element, y: Element) -> Element
    requires x { IsTight x }
    requires y { IsTight y }
    ensures value { result ≡ sum (sum x x) y }
    ensures residue { residue result ≡ plus (plus (residue x) (residue x)) (residue y) }
    ensures loose { IsLoose result }
{
    Element {
        a: x.a + x.a + y.a,
        b: x.b + x.b + y.b,
        c: x.c + x.c + y.c,
        d: x.d + x.d + y.d,
        e: x.e + x.e + y.e,
    }
}

/// Twice the first tight element less the second one, which is loose.
#[inline(always)]
#[tactic(auto, unfolding(crate::specs::X25519::Field::difference, crate::specs::X25519::Field::sum), using(crate::proofs::X25519Lemmas::Modulo::twice_less_residue))]
pub fn twice_less(x: Element, y: Element) -> Element
    requires x { IsTight x }
    requires y { IsTight y }
    ensures value { result ≡ difference (sum x x) y }
    ensures residue { residue result ≡ minus (plus (residue x) (residue x)) (residue y) }
    ensures loose { IsLoose result }
{
    Element {
        a: x.a + x.a + 0x1f_ffff_ffff_ffb4 - y.a,
        b: x.b + x.b + 0x1f_ffff_ffff_fffc - y.b,
        c: x.c + x.c + 0x1f_ffff_ffff_fffc - y.c,
        d: x.d + x.d + 0x1f_ffff_ffff_fffc - y.d,
        e: x.e + x.e + 0x1f_ffff_ffff_fffc - y.e,
    }
}

// A product of two limbs, the second one taken nineteen times or not.
#[inline(always)]
#[tactic(auto, using(crate::proofs::X25519Lemmas::Bounds::products))]
pub(crate) fn times(x: u64, y: u64) -> u128
    requires x { x < 2 ^ 54 }
    requires y { y ≤ 19 * 2 ^ 54 }
    ensures value { result ≡ x * y }
    ensures small { y < 2 ^ 54 → result < 2 ^ 108 }
    ensures most { result < 19 * 2 ^ 108 }
{
    x as u128 * y as u128
}

// The sum of the products that make one limb.
#[inline(always)]
fn five(p: u128, q: u128, r: u128, s: u128, t: u128) -> u128
    requires p { p < 19 * 2 ^ 108 }
    requires q { q < 19 * 2 ^ 108 }
    requires r { r < 19 * 2 ^ 108 }
    requires s { s < 19 * 2 ^ 108 }
    requires t { t < 19 * 2 ^ 108 }
    ensures value { result ≡ p + q + r + s + t }
    ensures most { result < 120 * 2 ^ 108 }
{
    p + q + r + s + t
}

// The limbs of a product. The limbs above the fifth come back nineteen times, since 2^255 is 19 in the field.
#[inline(always)]
fn row_a(x: Element, y: Element) -> u128
    requires x { IsLoose x }
    requires y { IsLoose y }
    ensures value { result ≡ row_a x y }
    ensures most { result < 120 * 2 ^ 108 }
{
    five(
        times(x.a, y.a),
        times(x.b, y.e * 19),
        times(x.c, y.d * 19),
        times(x.d, y.c * 19),
        times(x.e, y.b * 19),
    )
}

#[inline(always)]
fn row_b(x: Element, y: Element) -> u128
    requires x { IsLoose x }
    requires y { IsLoose y }
    ensures value { result ≡ row_b x y }
    ensures most { result < 120 * 2 ^ 108 }
{
    five(
        times(x.a, y.b),
        times(x.b, y.a),
        times(x.c, y.e * 19),
        times(x.d, y.d * 19),
        times(x.e, y.c * 19),
    )
}

#[inline(always)]
fn row_c(x: Element, y: Element) -> u128
    requires x { IsLoose x }
    requires y { IsLoose y }
    ensures value { result ≡ row_c x y }
    ensures most { result < 120 * 2 ^ 108 }
{
    five(
        times(x.a, y.c),
        times(x.b, y.b),
        times(x.c, y.a),
        times(x.d, y.e * 19),
        times(x.e, y.d * 19),
    )
}

#[inline(always)]
fn row_d(x: Element, y: Element) -> u128
    requires x { IsLoose x }
    requires y { IsLoose y }
    ensures value { result ≡ row_d x y }
    ensures most { result < 120 * 2 ^ 108 }
{
    five(
        times(x.a, y.d),
        times(x.b, y.c),
        times(x.c, y.b),
        times(x.d, y.a),
        times(x.e, y.e * 19),
    )
}

#[inline(always)]
fn row_e(x: Element, y: Element) -> u128
    requires x { IsLoose x }
    requires y { IsLoose y }
    ensures value { result ≡ row_e x y }
    ensures most { result < 5 * 2 ^ 108 }
{
    times(x.a, y.e) + times(x.b, y.d) + times(x.c, y.c) + times(x.d, y.b) + times(x.e, y.a)
}

/// The product of two loose elements, which is tight.
#[inline(always)]
#[tactic(auto, unfolding(crate::specs::X25519::Field::product), using(crate::proofs::X25519Lemmas::Modulo::product_residue))]
pub fn product(x: Element, y: Element) -> Element
    requires x { IsLoose x }
    requires y { IsLoose y }
    ensures value { result ≡ product x y }
    ensures residue { residue result ≡ times_modulo (residue x) (residue y) }
    ensures tight { IsTight result }
    ensures loose { IsLoose result }
{
    carried(Wide {
        a: row_a(x, y),
        b: row_b(x, y),
        c: row_c(x, y),
        d: row_d(x, y),
        e: row_e(x, y),
    })
}

// What each limb has from 2^51 on goes to the next limb; what the last one has, to the first, nineteen times.
#[inline(always)]
#[tactic(auto, unfolding(crate::specs::X25519::Field::carried))]
pub(crate) fn carried(w: Wide) -> Element
    requires { IsWide w }
    ensures value { result ≡ carried w }
    ensures tight { IsTight result }
    ensures loose { IsLoose result }
{
    let b = w.b + carry(w.a);
    let c = w.c + carry(b);
    let d = w.d + carry(c);
    let e = w.e + carry(d);
    let first = low(w.a) + (e / LIMB) as u64 * 19;
    Element {
        a: first % (LIMB as u64),
        b: low(b) + first / (LIMB as u64),
        c: low(c),
        d: low(d),
        e: low(e),
    }
}

// What a limb has from 2^51 on, which is a word.
#[inline(always)]
fn carry(limb: u128) -> u128
    requires { limb < 2 ^ 115 }
    ensures value { result ≡ limb / 2 ^ 51 }
    ensures most { result < 2 ^ 64 }
{
    (limb / LIMB) as u64 as u128
}

// What a limb has below 2^51.
#[inline(always)]
fn low(limb: u128) -> u64
    ensures value { result ≡ limb % 2 ^ 51 }
    ensures most { result < 2 ^ 51 }
{
    (limb % LIMB) as u64
}

/// The element so many times, at most 2^17.
#[inline(always)]
#[tactic(auto, unfolding(crate::specs::X25519::Field::times_small), using(crate::proofs::X25519Lemmas::Modulo::times_small_residue))]
pub fn times_small(x: Element, n: u64) -> Element
    requires x { IsLoose x }
    requires n { n ≤ 2 ^ 17 }
    ensures value { result ≡ times_small x n }
    ensures residue { residue result ≡ times_modulo (residue x) n }
    ensures tight { IsTight result }
{
    carried(Wide {
        a: times(x.a, n),
        b: times(x.b, n),
        c: times(x.c, n),
        d: times(x.d, n),
        e: times(x.e, n),
    })
}

/// The same number as a tight element.
#[inline(always)]
#[tactic(auto, using(crate::proofs::X25519Lemmas::Modulo::times_one))]
pub fn tightened(x: Element) -> Element
    requires { IsLoose x }
    ensures residue { residue result ≡ residue x }
    ensures tight { IsTight result }
{
    product(x, ONE)
}

/// The opposite of a tight element, which is tight.
#[tactic(auto, using(crate::proofs::X25519Lemmas::Modulo::residue_of_zero))]
pub fn negated(x: Element) -> Element
    requires { IsTight x }
    ensures residue { residue result ≡ minus 0 (residue x) }
    ensures tight { IsTight result }
{
    tightened(difference(ZERO, x))
}

/// The second where the choice is 1, and the first where it is 0. No branch depends on the choice.
#[inline(always)]
#[tactic(auto, unfolding(crate::specs::X25519::Field::chosen), using(crate::proofs::X25519Lemmas::Bounds::chosen_below))]
pub fn chosen(choice: u64, x: Element, y: Element) -> Element
    requires choice { choice ≤ 1 }
    requires x { IsTight x }
    requires y { IsTight y }
    ensures value { result ≡ chosen choice x y }
    ensures tight { IsTight result }
{
    Element {
        a: picked(choice, x.a, y.a),
        b: picked(choice, x.b, y.b),
        c: picked(choice, x.c, y.c),
        d: picked(choice, x.d, y.d),
        e: picked(choice, x.e, y.e),
    }
}

/// The second number where the choice is 1, and the first where it is 0. No branch depends on the choice.
#[inline(always)]
#[tactic(auto, using(crate::proofs::X25519Lemmas::Bounds::picked_by_mask))]
pub fn picked(choice: u64, x: u64, y: u64) -> u64
    requires { choice ≤ 1 }
    ensures { result ≡ picked choice x y }
{
    x ^ ((x ^ y) & choice * u64::MAX)
}

/// Law: what is tight is loose.
#[inline(always)]
pub fn is_loose(x: Element)
    requires { IsTight x }
    ensures { IsLoose x }
{}
