//! Multiples of the base point by a comb, whose four teeth are the words of the number.

ghost use Rattle.std.specs.Prelude.{◌≡◌, ◌<◌, ◌≤◌};
ghost use Rattle.ciphers.specs.Ed25519.Comb.{IsTooth, base_multiple, bit_at, combed, one_of_four, tooth_sum};
ghost use Rattle.ciphers.specs.Ed25519.Point.{IsPoint, chosen, numbers, ready};

use crate::ed25519::point::{IDENTITY, Point, ReadyPoint, added_prepared, doubled};
use crate::ed25519::scalar::Scalar;
use crate::ed25519::teeth::TEETH;
use crate::x25519::field;
use crate::x25519::field::is_loose;

// This multiple of the base point. No branch and no place in memory depends on the number.
pub(crate) fn base_multiple(s: Scalar) -> Point
    ensures value { numbers result ≡ base_multiple s 64 }
    ensures point { IsPoint result }
{
    let mut q = IDENTITY;
    for i in 0..64usize {
        q = combed(q, s, 63 - i);
    }
    q
}

// Twice the point, and what the bits at this place of the four words add up to.
#[tactic(auto, unfolding(crate::specs::Ed25519::Comb::combed))]
pub(crate) fn combed(q: Point, s: Scalar, place: usize) -> Point
    requires q { IsPoint q }
    requires place { place < 64 }
    ensures value { numbers result ≡ combed (numbers q) s place }
    ensures point { IsPoint result }
{
    let sum = tooth_sum(
        bit_at(s.a, place),
        bit_at(s.b, place),
        bit_at(s.c, place),
        bit_at(s.d, place),
    );
    is_loose(sum.less);
    is_loose(sum.more);
    added_prepared(doubled(q), sum)
}

// The bit of this place in a word.
fn bit_at(word: u64, place: usize) -> u64
    requires { place < 64 }
    ensures value { result ≡ bit_at word place }
    ensures bit { result ≤ 1 }
{
    (word >> place) % 2
}

// The constant that four bits choose. All of them are read.
#[tactic(auto, unfolding(crate::specs::Ed25519::Comb::tooth, crate::specs::Ed25519::Comb::tooth_sum))]
fn tooth_sum(a: u64, b: u64, c: u64, d: u64) -> ReadyPoint
    requires a { a ≤ 1 }
    requires b { b ≤ 1 }
    requires c { c ≤ 1 }
    requires d { d ≤ 1 }
    ensures value { ready result ≡ tooth_sum a b c d }
    ensures tight { IsTooth result }
{
    chosen_ready(
        d,
        chosen_ready(
            c,
            one_of_four(a, b, TEETH[0], TEETH[1], TEETH[2], TEETH[3]),
            one_of_four(a, b, TEETH[4], TEETH[5], TEETH[6], TEETH[7]),
        ),
        chosen_ready(
            c,
            one_of_four(a, b, TEETH[8], TEETH[9], TEETH[10], TEETH[11]),
            one_of_four(a, b, TEETH[12], TEETH[13], TEETH[14], TEETH[15]),
        ),
    )
}

// The one of four prepared points that two bits choose.
fn one_of_four(
    low: u64,
    high: u64,
    p: ReadyPoint,
    q: ReadyPoint,
    r: ReadyPoint,
    s: ReadyPoint,
) -> ReadyPoint
    requires low { low ≤ 1 }
    requires high { high ≤ 1 }
    requires p { IsTooth p }
    requires q { IsTooth q }
    requires r { IsTooth r }
    requires s { IsTooth s }
    ensures value { ready result ≡ one_of_four low high (ready p) (ready q) (ready r) (ready s) }
    ensures tight { IsTooth result }
{
    chosen_ready(high, chosen_ready(low, p, q), chosen_ready(low, r, s))
}

// The second prepared point where the choice is 1, and the first where it is 0. No branch depends on the choice.
#[tactic(auto, using(crate::proofs::Ed25519Lemmas::Steps::chosen_ready))]
fn chosen_ready(choice: u64, p: ReadyPoint, q: ReadyPoint) -> ReadyPoint
    requires choice { choice ≤ 1 }
    requires p { IsTooth p }
    requires q { IsTooth q }
    ensures value { ready result ≡ chosen choice (ready p) (ready q) }
    ensures tight { IsTooth result }
{
    ReadyPoint {
        less: field::chosen(choice, p.less, q.less),
        more: field::chosen(choice, p.more, q.more),
        t: field::chosen(choice, p.t, q.t),
    }
}
