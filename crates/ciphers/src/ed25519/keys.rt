//! Key pairs, and what they sign (RFC 8032 sections 5.1.5 and 5.1.6).

ghost use Rattle.std.specs.Prelude.{◌≡◌, ◌<◌, ◌+◌, ◌*◌, ◌%◌, ◌++◌, drop, take};
ghost use Rattle.sha2.specs.Sha512.{sha512};
ghost use Rattle.ciphers.specs.X25519.Bytes.{le_bytes, value};
ghost use Rattle.ciphers.specs.Ed25519.Scalar.{number, order};
ghost use Rattle.ciphers.specs.Ed25519.Signature.{base_times, pair_of, signature_of};

use crate::ed25519::comb::base_multiple;
use crate::ed25519::encoding::encoded;
use crate::ed25519::scalar::{Scalar, bytes_of, reduced, scalar_of, sum, times};
use crate::x25519::clamped;
use sha2::{Digest, Sha512};

/// A secret of 32 bytes made ready to sign, and its public key.
#[derive(Clone, Copy)]
pub struct KeyPair {
    scalar: [u8; 32],
    prefix: [u8; 32],
    public: [u8; 32],
}

impl KeyPair {
    /// The key pair of a secret of 32 bytes (section 5.1.5).
    #[tactic(auto, unfolding(crate::specs::Ed25519::Signature::pair_of))]
    pub fn from_seed(seed: &[u8; 32]) -> KeyPair
        ensures { result ≡ pair_of seed.now }
    {
        let hash = Sha512::digest(seed.as_slice());
        let scalar = clamped(&low_half(&hash));
        KeyPair {
            scalar,
            prefix: high_half(&hash),
            public: base_times(&scalar),
        }
    }

    /// The public key.
    pub fn public(&self) -> &[u8; 32]
        ensures { result.now ≡ self.now.public }
    {
        &self.public
    }

    /// The signature of a message (section 5.1.6). No branch and no place in memory depends on the secret.
    #[tactic(auto, unfolding(crate::specs::Ed25519::Signature::signature_of))]
    pub fn sign(&self, message: &[u8]) -> [u8; 64]
        ensures { result ≡ signature_of self.now message.now }
    {
        let nonce = reduced(&hash_of(&self.prefix, &[], message));
        let point = base_times(&bytes_of(nonce));
        let challenge = hash_of(&point, &self.public, message);
        joined(&point, &response(nonce, &challenge, &self.scalar))
    }
}

// The base point so many times, encoded.
fn base_times(number: &[u8; 32]) -> [u8; 32]
    ensures { result ≡ base_times number.now }
{
    encoded(base_multiple(scalar_of(number)))
}

// The second half of a signature, S, which is r + k s modulo the order.
#[tactic(auto, using(crate::proofs::Ed25519Lemmas::Sums::response_of))]
fn response(nonce: Scalar, challenge: &[u8; 64], scalar: &[u8; 32]) -> [u8; 32]
    requires { number nonce < order }
    ensures { result ≡ le_bytes ((number nonce + value challenge.now * value scalar.now) % order) }
{
    bytes_of(sum(nonce, times(challenge, reduced(scalar))))
}

// The SHA-512 of three texts one after the other.
pub(crate) fn hash_of(first: &[u8], second: &[u8], third: &[u8]) -> [u8; 64]
    ensures { result ≡ sha512 (first.now ++ (second.now ++ third.now)) }
{
    let mut hasher = Sha512::new();
    hasher.update(first);
    hasher.update(second);
    hasher.update(third);
    hasher.finalize()
}

// The first 32 bytes.
pub(crate) fn low_half(bytes: &[u8; 64]) -> [u8; 32]
    ensures { result ≡ take 32 bytes.now }
{
    let mut half = [0; 32];
    half.copy_from_slice(&bytes[..32]);
    half
}

// The last 32 bytes.
pub(crate) fn high_half(bytes: &[u8; 64]) -> [u8; 32]
    ensures { result ≡ drop 32 bytes.now }
{
    let mut half = [0; 32];
    let (_, high) = bytes.split_at(32);
    half.copy_from_slice(high);
    half
}

fn joined(low: &[u8; 32], high: &[u8; 32]) -> [u8; 64]
    ensures { result ≡ low.now ++ high.now }
{
    let mut bytes = [0; 64];
    let (front, back) = bytes.split_at_mut(32);
    front.copy_from_slice(low);
    back.copy_from_slice(high);
    bytes
}
