//! Facts for proofs, each the contract of a function without a body. A call of one costs nothing.

ghost use Rattle.std.specs.Prelude.{◌≡◌, ◌≢◌, ◌-◌, ◌%◌, ◌⊎◌, IfSome, List, ℕ};
ghost use Rattle.ciphers.specs.X25519.Field.{prime};
ghost use Rattle.ciphers.specs.X25519.Residues.{minus, plus, power, times};
ghost use Rattle.ciphers.specs.Ed25519.Encoding.{IsOnCurve, decoded, encoded, root_of_minus_one};
ghost use Rattle.ciphers.specs.Ed25519.Group.{AreSame, IsCurve};
ghost use Rattle.ciphers.specs.Ed25519.Point.{Extended, added, base, base_x, base_y, d, identity, negated};

/// The numbers of the curve are those of RFC 8032 section 5.1: d is -121665/121666, the base point is on the curve, its y is 4/5 and
/// its x even, and the root of -1 is one.
#[tactic(auto, using(crate::proofs::Ed25519Lemmas::Constants::curve_numbers))]
pub fn curve_numbers()
    ensures d { times d 121666 ≡ minus 0 121665 }
    ensures curve { minus (times base_y base_y) (times base_x base_x)
        ≡ plus 1 (times d (times (times base_x base_x) (times base_y base_y))) }
    ensures y { times base_y 5 ≡ 4 }
    ensures x { base_x % 2 ≡ 0 }
    ensures root { times root_of_minus_one root_of_minus_one ≡ minus 0 1 }
{}

/// What bytes are decoded to is a point of the curve.
#[tactic(auto, using(crate::proofs::Ed25519Lemmas::Curve::decoded_point))]
pub fn decoded_is_on_curve()
    ensures { (bytes : List ℕ) → IfSome (decoded bytes) (λ p. IsOnCurve p) }
{}

/// 2^255 - 19 is prime: a product is zero only if a factor is, and the power of the prime less two, by which `encoded` divides, is the
/// inverse. The constant d has no square root, so the formulas of a sum have no exception.
pub fn prime_field()
    ensures divisors { (x y : ℕ) → times x y ≡ 0 → (x % prime ≡ 0) ⊎ (y % prime ≡ 0) }
    ensures inverse { (x : ℕ) → x % prime ≢ 0 → times x (power x (prime - 2)) ≡ 1 }
    ensures d { (u v : ℕ) → times u u ≡ times d (times v v) → v % prime ≡ 0 }
{}

/// The points of the curve are a group under the sum of RFC 8032 section 5.1.4, whatever coordinates stand for them, and two sets of
/// coordinates of one point are encoded to the same bytes.
pub fn group_law()
    ensures closed { (p q : Extended) → IsCurve p → IsCurve q → IsCurve (added p q) }
    ensures commutes { (p q : Extended) → added p q ≡ added q p }
    ensures associates { (p q r : Extended) → IsCurve p → IsCurve q → IsCurve r → AreSame (added (added p q) r) (added p (added q r)) }
    ensures identity { (p : Extended) → IsCurve p → AreSame (added identity p) p }
    ensures opposite { (p : Extended) → IsCurve p → AreSame (added p (negated p)) identity }
    ensures same { (p q r s : Extended) → IsCurve p → IsCurve q → IsCurve r → IsCurve s → AreSame p r → AreSame q s →
        AreSame (added p q) (added r s) }
    ensures encoded { (p q : Extended) → IsCurve p → IsCurve q → AreSame p q → encoded p ≡ encoded q }
    ensures base { IsCurve base }
{}
