//! Powers of elements.

ghost use Rattle.ciphers.specs.X25519.Field.{IsLoose, IsTight};

use crate::plain::field::product;
use ciphers::x25519::field::{Element, is_loose};

// An element to the power 11, and to the power 2^250 - 1.
#[derive(Clone, Copy)]
pub(crate) struct Powers {
    pub eleventh: Element,
    pub ones: Element,
}

// The element squared so often.
fn squared_times(x: Element, count: usize) -> Element
    requires { IsLoose x }
    ensures loose { IsLoose result }
{
    let mut y = x;
    for i in 0..count {
        y = product(y, y);
    }
    y
}

// The powers from which the others are made.
fn tower(z: Element) -> Powers
    requires { IsTight z }
    ensures eleventh { IsLoose result.eleventh }
    ensures ones { IsLoose result.ones }
{
    is_loose(z);
    let z2 = product(z, z);
    let z9 = product(squared_times(z2, 2), z);
    let z11 = product(z9, z2);
    let z5 = product(product(z11, z11), z9);
    let z10 = product(squared_times(z5, 5), z5);
    let z20 = product(squared_times(z10, 10), z10);
    let z40 = product(squared_times(z20, 20), z20);
    let z50 = product(squared_times(z40, 10), z10);
    let z100 = product(squared_times(z50, 50), z50);
    let z200 = product(squared_times(z100, 100), z100);
    Powers {
        eleventh: z11,
        ones: product(squared_times(z200, 50), z50),
    }
}

// The element to the power of the prime less two: its inverse, and 0 of 0.
pub(crate) fn inverse(z: Element) -> Element
    requires { IsTight z }
    ensures tight { IsTight result }
    ensures loose { IsLoose result }
{
    let t = tower(z);
    product(squared_times(t.ones, 5), t.eleventh)
}

// The element to the power 2^252 - 3, of which square roots are made (RFC 8032 section 5.1.3).
pub(crate) fn root_power(z: Element) -> Element
    requires { IsTight z }
    ensures tight { IsTight result }
    ensures loose { IsLoose result }
{
    is_loose(z);
    product(squared_times(tower(z).ones, 2), z)
}
