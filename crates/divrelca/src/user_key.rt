//! The key of a client's user.

ghost use Rattle.divrelca.specs.UserKey.{signature_by};

use crate::parts::Ed25519Signer;
use ssh_auth::UserSigner;

/// The key pair of a client's user, who may have none.
#[derive(Clone, Copy)]
pub struct UserKey {
    /// The key pair of ssh-ed25519.
    pub signer: Option<Ed25519Signer>,
}

impl UserSigner for UserKey {
    ghost signature_of = { λ key. signature_by key.signer };

    fn sign(
        &self,
        user: &[u8],
        algorithm: &[u8],
        key: &[u8],
        text: &[u8],
        out: &mut [u8; 4096],
    ) -> usize {
        match &self.signer {
            Some(signer) => UserSigner::sign(signer, user, algorithm, key, text, out),
            None => 0,
        }
    }
}
