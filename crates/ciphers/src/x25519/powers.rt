//! Powers of elements.

ghost use Rattle.std.specs.Prelude.{◌≡◌, ◌-◌, ◌^◌};
ghost use Rattle.ciphers.specs.X25519.Field.{IsLoose, IsTight, prime, residue};
ghost use Rattle.ciphers.specs.X25519.Powers.{ArePowers, inverse, root_power, squared_times, tower};
ghost use Rattle.ciphers.specs.X25519.Residues.{power};

use crate::x25519::field::{Element, is_loose, product};
use crate::x25519::squares::squared;

// An element to the power 11, and to the power 2^250 - 1.
#[derive(Clone, Copy)]
pub(crate) struct Powers {
    eleventh: Element,
    ones: Element,
}

// The element squared so often.
#[tactic(auto, using(crate::proofs::X25519Lemmas::Steps::one_square), unfolding(crate::specs::X25519::Powers::squared_times))]
fn squared_times(x: Element, count: usize) -> Element
    requires { IsLoose x }
    ensures value { result ≡ squared_times x count }
    ensures loose { IsLoose result }
{
    let mut y = x;
    for i in 0..count {
        y = squared(y);
    }
    y
}

// The powers from which the others are made.
#[tactic(auto, unfolding(crate::specs::X25519::Powers::tower))]
fn tower(z: Element) -> Powers
    requires { IsTight z }
    ensures value { result ≡ tower z }
    ensures loose { ArePowers result }
{
    is_loose(z);
    let z2 = squared(z);
    let z9 = product(squared_times(z2, 2), z);
    let z11 = product(z9, z2);
    let z5 = product(squared(z11), z9);
    let z10 = product(squared_times(z5, 5), z5);
    let z20 = product(squared_times(z10, 10), z10);
    let z40 = product(squared_times(z20, 20), z20);
    let z50 = product(squared_times(z40, 10), z10);
    let z100 = product(squared_times(z50, 50), z50);
    let z200 = product(squared_times(z100, 100), z100);
    Powers {
        eleventh: z11,
        ones: product(squared_times(z200, 50), z50),
    }
}

/// The element to the power of the prime less two: its inverse, and 0 of 0.
#[tactic(auto, unfolding(crate::specs::X25519::Powers::inverse), using(crate::proofs::X25519Lemmas::Exponents::inverse_residue))]
pub fn inverse(z: Element) -> Element
    requires { IsTight z }
    ensures value { result ≡ inverse z }
    ensures residue { residue result ≡ power (residue z) (prime - 2) }
    ensures tight { IsTight result }
    ensures loose { IsLoose result }
{
    let t = tower(z);
    product(squared_times(t.ones, 5), t.eleventh)
}

/// The element to the power 2^252 - 3, of which square roots are made (RFC 8032 section 5.1.3).
#[tactic(auto, unfolding(crate::specs::X25519::Powers::root_power), using(crate::proofs::X25519Lemmas::Exponents::root_power_residue))]
pub fn root_power(z: Element) -> Element
    requires { IsTight z }
    ensures value { result ≡ root_power z }
    ensures residue { residue result ≡ power (residue z) (2 ^ 252 - 3) }
    ensures tight { IsTight result }
    ensures loose { IsLoose result }
{
    is_loose(z);
    product(squared_times(tower(z).ones, 2), z)
}
