//! What a client trusts: the host keys of ssh-ed25519 of one host.

ghost use Rattle.std.specs.Prelude.{◌≡◌};
ghost use Rattle.divrelca.specs.Parts.Ed25519.{is_one_of, is_trusted, is_trusted_by_any, is_wire_key, trust_in};

use crate::parts::ed25519_blobs::{NAME, has_signed, key_blob, key_in};
use ciphers::ed25519::is_small_order;
use ssh_kex::HostTrust;

/// Trusts one host, by its key of ssh-ed25519 (RFC 8709), and no other algorithm. It does not trust a point of small order, such as 32
/// zeros.
#[derive(Clone, Copy, Debug, PartialEq, Eq)]
pub struct Ed25519Trust {
    /// The 32 bytes of the public key.
    pub public: [u8; 32],
}

impl Ed25519Trust {
    /// Trust in the host whose key goes over the wire as these bytes (RFC 8709 section 4). It is `None` if they are no key of ssh-ed25519,
    /// or one of small order, under which anyone can sign.
    pub fn from_key(key: &[u8]) -> Option<Ed25519Trust>
        ensures { result ≡ trust_in key.now }
    {
        let public = key_in(key)?;
        if is_small_order(&public) {
            return None;
        }
        Some(Ed25519Trust { public })
    }
}

impl HostTrust for Ed25519Trust {
    ghost judged = { λ trust. is_trusted trust.public };

    fn judge(&self, algorithm: &[u8], key: &[u8], hash: &[u8; 32], signature: &[u8]) -> bool {
        is_trusted(&self.public, algorithm, key, hash, signature)
    }
}

/// Trusts one host by any one of its keys of ssh-ed25519, of which it has two while one takes the place of the other. Without a key it
/// trusts nobody.
#[derive(Drop)]
pub struct Ed25519HostKeys {
    /// The 32 bytes of each public key. A point of small order, such as 32 zeros, is no key.
    pub keys: Vec<[u8; 32]>,
}

impl Ed25519HostKeys {
    /// Tests whether this is one of the keys, as it goes over the wire under the name of this algorithm.
    pub fn has(&self, algorithm: &[u8], key: &[u8]) -> bool
        ensures { result ≡ is_one_of self.now.keys.items algorithm.now key.now }
    {
        self.keys
            .iter()
            .any(|public| is_key_of(public, algorithm, key))
    }
}

// Tests whether the bytes are this public key over the wire, under the name of this algorithm.
fn is_key_of(public: &[u8; 32], algorithm: &[u8], key: &[u8]) -> bool
    ensures { result ≡ is_wire_key algorithm.now key.now public.now }
{
    algorithm == NAME && key == key_blob(public).as_slice()
}

impl HostTrust for Ed25519HostKeys {
    ghost judged = { λ trust. is_trusted_by_any trust.keys.items };

    fn judge(&self, algorithm: &[u8], key: &[u8], hash: &[u8; 32], signature: &[u8]) -> bool {
        self.keys.iter().any(|public| is_trusted(public, algorithm, key, hash, signature))
    }
}

// Tests whether a host has shown that it has this public key.
fn is_trusted(
    public: &[u8; 32],
    algorithm: &[u8],
    key: &[u8],
    hash: &[u8; 32],
    signature: &[u8],
) -> bool
    ensures { result ≡ is_trusted public.now algorithm.now key.now hash.now signature.now }
{
    algorithm == NAME && key == key_blob(public).as_slice() && has_signed(public, hash, signature)
}
