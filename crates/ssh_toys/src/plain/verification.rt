//! The verification of signatures (RFC 8032 section 5.1.7).

ghost use Rattle.ssh_toys.specs.Plain.{IsPoint};

use crate::plain::encoding::{decoded, encoded};
use crate::plain::keys::{hash_of, high_half, low_half};
use crate::plain::point::{BASE, Point, added, multiplied, negated};
use crate::plain::scalar::{bytes_of, is_reduced, reduced};

/// Tests whether the signature is that of the message under this public key (section 5.1.7, without the cofactor): the public key is a
/// point A in its one encoding, the number S of the signature is below the order, and its R is the encoding of S B - k A. Points of small
/// order are no exception.
pub fn verify(public: &[u8; 32], message: &[u8], signature: &[u8; 64]) -> bool {
    let Some(key) = decoded(public) else {
        return false;
    };
    let point = low_half(signature);
    let response = high_half(signature);
    if !is_reduced(&response) {
        return false;
    }
    let challenge = bytes_of(reduced(&hash_of(&point, public, message)));
    commitment(&response, &challenge, key) == point
}

// The encoding of S B - k A.
fn commitment(response: &[u8; 32], challenge: &[u8; 32], key: Point) -> [u8; 32]
    requires { IsPoint key }
{
    encoded(added(
        multiplied(response, BASE),
        multiplied(challenge, negated(key)),
    ))
}
