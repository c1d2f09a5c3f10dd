//! Sums of a multiple of the base point and of one of another point, both by one ladder. The numbers are no secrets.

ghost use Rattle.std.specs.Prelude.{◌≡◌, ◌<◌, ℕ};
ghost use Rattle.ciphers.specs.Ed25519.Point.{IsPoint, numbers};
ghost use Rattle.ciphers.specs.Ed25519.Windows.{digit_at, joint_multiple, multiple, point_at, sixteen_combed, sixteen_times, with_digit};

use crate::ed25519::comb::combed;
use crate::ed25519::point::{IDENTITY, Point, added, added_prepared, doubled, prepared};
use crate::ed25519::scalar::Scalar;

// The base point as many times as the four words say, and a point whose z is 1 so many times: a number of 32 bytes, the lowest first. Its
// 64 digits of four bits are taken from the highest one down, and with the last 16 of them come the bits of the words.
pub(crate) fn joint_multiple(s: Scalar, bytes: &[u8; 32], p: Point) -> Point
    requires { IsPoint p }
    ensures value { numbers result ≡ joint_multiple s (numbers p) bytes.now 16 }
    ensures point { IsPoint result }
{
    let table = multiples(p);
    let mut q = IDENTITY;
    'high: for i in 0..48usize {
        q = with_digit(sixteen_times(q), &table, digit_at(bytes, 63 - i));
    }
    'low: for i in 0..16usize {
        q = sixteen_combed(q, s, 15 - i);
        q = with_digit(q, &table, digit_at(bytes, 15 - i));
    }
    q
}

// The multiples 0 to 15 of a point whose z is 1.
fn multiples(p: Point) -> [Point; 16]
    requires { IsPoint p }
    ensures value { (k : ℕ) → k < 16 → numbers (point_at result k) ≡ multiple (numbers p) k }
    ensures point { (k : ℕ) → k < 16 → IsPoint (point_at result k) }
{
    let ready = prepared(p);
    let mut table = [IDENTITY; 16];
    for i in 1..16usize {
        table[i] = added_prepared(table[i - 1], ready);
    }
    table
}

// Sixteen times a point.
#[tactic(auto, unfolding(crate::specs::Ed25519::Windows::twice))]
fn sixteen_times(q: Point) -> Point
    requires { IsPoint q }
    ensures value { numbers result ≡ sixteen_times (numbers q) }
    ensures point { IsPoint result }
{
    doubled(doubled(doubled(doubled(q))))
}

// Sixteen times a point, and the constants of the bits at four places of the four words.
fn sixteen_combed(q: Point, s: Scalar, place: usize) -> Point
    requires q { IsPoint q }
    requires place { place < 16 }
    ensures value { numbers result ≡ sixteen_combed (numbers q) s place }
    ensures point { IsPoint result }
{
    let q = combed(q, s, 4 * place + 3);
    let q = combed(q, s, 4 * place + 2);
    let q = combed(q, s, 4 * place + 1);
    combed(q, s, 4 * place)
}

// A point, and the multiple of a digit, where that is not 0.
#[tactic(auto, using(crate::proofs::Ed25519Lemmas::Steps::chosen_second))]
fn with_digit(q: Point, table: &[Point; 16], digit: usize) -> Point
    requires q { IsPoint q }
    requires table { (k : ℕ) → k < 16 → IsPoint (point_at table.now k) }
    requires digit { digit < 16 }
    ensures value { numbers result ≡ with_digit (numbers q) (numbers (point_at table.now digit)) digit }
    ensures point { IsPoint result }
{
    if digit == 0 {
        return q;
    }
    added(q, table[digit])
}

// The digit of four bits at this place, the lowest one first.
fn digit_at(bytes: &[u8; 32], place: usize) -> usize
    requires { place < 64 }
    ensures value { result ≡ digit_at bytes.now place }
    ensures below { result < 16 }
{
    ((bytes[place / 2] >> (4 * (place % 2))) % 16) as usize
}
