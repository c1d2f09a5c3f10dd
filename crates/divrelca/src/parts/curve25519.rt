//! The agreement of curve25519-sha256.

ghost use Rattle.divrelca.specs.Parts.Curve25519.{x25519_agreement};

use ssh_kex::Agreement;

/// X25519 as the agreement of curve25519-sha256 (RFC 8731 section 3, RFC 7748 section 5). No branch and no place in memory depends on a
/// secret, except for the test whether all bytes of the shared secret are zero.
#[derive(Clone, Copy, Debug, PartialEq, Eq)]
pub struct Curve25519;

impl Agreement for Curve25519 {
    ghost does = { λ _. x25519_agreement };

    fn public(&self, secret: &[u8; 32]) -> [u8; 32] {
        ciphers::x25519::public(secret)
    }

    fn shared(&self, secret: &[u8; 32], theirs: &[u8; 32]) -> Option<[u8; 32]> {
        ciphers::x25519::shared(secret, theirs)
    }
}
