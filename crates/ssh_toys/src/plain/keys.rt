//! Key pairs, and their signatures (RFC 8032 sections 5.1.5 and 5.1.6).

use crate::plain::encoding::encoded;
use crate::plain::point::{BASE, multiplied};
use crate::plain::scalar::{Scalar, bytes_of, reduced, sum, times};
use ciphers::x25519::clamped;
use sha2::{Digest, Sha512};

/// A secret of 32 bytes made ready to sign, and its public key.
#[derive(Clone, Copy)]
pub struct PlainPair {
    scalar: [u8; 32],
    prefix: [u8; 32],
    public: [u8; 32],
}

impl PlainPair {
    /// The key pair of a secret of 32 bytes (section 5.1.5).
    pub fn from_seed(seed: &[u8; 32]) -> PlainPair {
        let hash = Sha512::digest(seed.as_slice());
        let scalar = clamped(&low_half(&hash));
        PlainPair {
            scalar,
            prefix: high_half(&hash),
            public: base_times(&scalar),
        }
    }

    /// The public key.
    pub fn public(&self) -> &[u8; 32] {
        &self.public
    }

    /// The signature of a message (section 5.1.6). No branch and no place in memory depends on the secret.
    pub fn sign(&self, message: &[u8]) -> [u8; 64] {
        let nonce = reduced(&hash_of(&self.prefix, &[], message));
        let point = base_times(&bytes_of(nonce));
        let challenge = hash_of(&point, &self.public, message);
        joined(&point, &response(nonce, &challenge, &self.scalar))
    }
}

// The base point so many times, encoded.
fn base_times(number: &[u8; 32]) -> [u8; 32] {
    encoded(multiplied(number, BASE))
}

// The second half of a signature, S, which is r + k s modulo the order.
fn response(nonce: Scalar, challenge: &[u8; 64], scalar: &[u8; 32]) -> [u8; 32] {
    bytes_of(sum(nonce, times(challenge, reduced(scalar))))
}

// The SHA-512 of three texts one after the other.
pub(crate) fn hash_of(first: &[u8], second: &[u8], third: &[u8]) -> [u8; 64] {
    let mut hasher = Sha512::new();
    hasher.update(first);
    hasher.update(second);
    hasher.update(third);
    hasher.finalize()
}

// The first 32 bytes.
pub(crate) fn low_half(bytes: &[u8; 64]) -> [u8; 32] {
    let mut half = [0; 32];
    half.copy_from_slice(&bytes[..32]);
    half
}

// The last 32 bytes.
pub(crate) fn high_half(bytes: &[u8; 64]) -> [u8; 32] {
    let mut half = [0; 32];
    let (_, high) = bytes.split_at(32);
    half.copy_from_slice(high);
    half
}

fn joined(low: &[u8; 32], high: &[u8; 32]) -> [u8; 64] {
    let mut bytes = [0; 64];
    let (front, back) = bytes.split_at_mut(32);
    front.copy_from_slice(low);
    back.copy_from_slice(high);
    bytes
}
