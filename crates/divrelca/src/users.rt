//! Whom a server lets in.

ghost use Rattle.std.specs.Prelude.{◌≡◌, Some};
ghost use Rattle.divrelca.specs.Users.{is_hash, verdicts_of};
ghost use Rattle.sha2.specs.Sha256.{sha256};
ghost use Rattle.ssh_model.specs.Protocol.Wire.DataTypes.{is_text};

use crate::parts::{AcceptedKey, Ed25519Judge};
use sha2::{Digest, Sha256};
use ssh_auth::UserJudge;
use ssh_packet::tags_equal;

/// The SHA-256 of a password. It is compared in place of the password, so that the time of the comparison does not depend on where the two
/// first differ, nor on the password's length. A word that is tried is hashed once, whoever the user is, so that the time of a verdict
/// shows no user by it.
#[derive(Clone, Copy, PartialEq, Eq)]
pub struct PasswordHash {
    bytes: [u8; 32],
}

impl PasswordHash {
    /// The hash of this password.
    pub fn new(password: &[u8]) -> PasswordHash
        ensures { result.bytes ≡ sha256 password.now }
    {
        PasswordHash {
            bytes: Sha256::digest(password),
        }
    }

    /// Tests whether this is the other hash, by all of its bytes wherever they first differ.
    pub fn is(&self, other: &PasswordHash) -> bool
        ensures { result ≡ is_text self.now.bytes other.now.bytes }
    {
        tags_equal(&self.bytes, &other.bytes)
    }
}

/// Lets one user in, by keys of ssh-ed25519, and by a password if there is one.
#[derive(Clone, Copy)]
pub struct OneUser<'a> {
    /// The user's name.
    pub name: &'a [u8],
    /// The user's keys.
    pub keys: &'a [AcceptedKey<'a>],
    /// The user's password.
    pub password: Option<PasswordHash>,
}

impl UserJudge for OneUser<'_> {
    ghost verdicts = { λ judge. verdicts_of judge.name.now judge.keys.now judge.password };

    fn none(&self, _user: &[u8]) -> bool {
        false
    }

    fn password(&self, user: &[u8], word: &[u8]) -> bool {
        is_password(self.name, self.password, user, PasswordHash::new(word))
    }

    fn key_known(&self, user: &[u8], algorithm: &[u8], key: &[u8]) -> bool {
        let judge = Ed25519Judge {
            accepted: self.keys,
        };
        judge.key_known(user, algorithm, key)
    }

    fn signature(&self, algorithm: &[u8], key: &[u8], text: &[u8], signature: &[u8]) -> bool {
        let judge = Ed25519Judge {
            accepted: self.keys,
        };
        judge.signature(algorithm, key, text, signature)
    }
}

// Whether the name is the user's and this the hash of the password. The password is looked at whatever the name is.
fn is_password(name: &[u8], password: Option<PasswordHash>, user: &[u8], word: PasswordHash) -> bool
    ensures { result ≡ is_hash name.now password user.now word }
{
    match password {
        Some(hash) => {
            let is_word = word.is(&hash);
            let is_user = name == user;
            is_user & is_word
        }
        None => false,
    }
}
