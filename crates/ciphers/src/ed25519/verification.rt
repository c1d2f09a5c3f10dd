//! The verification of signatures (RFC 8032 section 5.1.7).

ghost use Rattle.std.specs.Prelude.{◌≡◌};
ghost use Rattle.ciphers.specs.Ed25519.Encoding.{IsOnCurve};
ghost use Rattle.ciphers.specs.Ed25519.Point.{IsPoint, numbers};
ghost use Rattle.ciphers.specs.Ed25519.Signature.{commitment, is_signature};

use crate::ed25519::encoding::{decoded, encoded};
use crate::ed25519::keys::{hash_of, high_half, low_half};
use crate::ed25519::point::{Point, negated};
use crate::ed25519::scalar::{bytes_of, is_reduced, reduced, scalar_of};
use crate::ed25519::windows::joint_multiple;

/// Tests whether the signature is that of the message under this public key (section 5.1.7, without the cofactor): the public key is a
/// point A in its one encoding, the number S of the signature is below the order, and its R is the encoding of S B - k A. Points of small
/// order are no exception.
#[tactic(auto, unfolding(crate::specs::Ed25519::Signature::is_signature), using(crate::proofs::Ed25519Lemmas::Curve::decoded_numbers))]
pub fn verify(public: &[u8; 32], message: &[u8], signature: &[u8; 64]) -> bool
    ensures { result ≡ is_signature public.now message.now signature.now }
{
    let Some(key) = decoded(public) else {
        return false;
    };
    let point = low_half(signature);
    let response = high_half(signature);
    if !is_reduced(&response) {
        return false;
    }
    let challenge = bytes_of(reduced(&hash_of(&point, public, message)));
    commitment(&response, &challenge, key) == point
}

// The encoding of S B - k A.
fn commitment(response: &[u8; 32], challenge: &[u8; 32], key: Point) -> [u8; 32]
    requires key { IsPoint key }
    requires curve { IsOnCurve (numbers key) }
    ensures { result ≡ commitment response.now challenge.now (numbers key) }
{
    encoded(joint_multiple(scalar_of(response), challenge, negated(key)))
}
