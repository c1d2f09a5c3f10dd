//! Whom a server authenticates by keys of ssh-ed25519.

ghost use Rattle.std.specs.Prelude.{◌≡◌, false};
ghost use Rattle.divrelca.specs.Parts.Ed25519.{is_accepted, is_key_of, is_user_signature, judge_of};

use crate::parts::ed25519_blobs::{NAME, has_signed, key_blob, key_in};
use ciphers::ed25519::is_small_order;
use ssh_auth::UserJudge;

/// A public key that lets one user in.
#[derive(Clone, Copy, Debug, PartialEq, Eq)]
pub struct AcceptedKey<'a> {
    /// The user's name.
    pub user: &'a [u8],
    /// The 32 bytes of the public key.
    pub public: [u8; 32],
}

/// Lets users in by their keys of ssh-ed25519 (RFC 8709), and by nothing else: no user without a key, and none by a password. A point of
/// small order, such as 32 zeros, lets nobody in.
#[derive(Clone, Copy, Debug, PartialEq, Eq)]
pub struct Ed25519Judge<'a> {
    /// The keys of all users; a user may have several.
    pub accepted: &'a [AcceptedKey<'a>],
}

impl UserJudge for Ed25519Judge<'_> {
    ghost verdicts = { λ judge. judge_of judge.accepted.now };

    fn none(&self, _user: &[u8]) -> bool {
        false
    }

    fn password(&self, _user: &[u8], _word: &[u8]) -> bool {
        false
    }

    fn key_known(&self, user: &[u8], algorithm: &[u8], key: &[u8]) -> bool {
        algorithm == NAME && is_accepted(self.accepted, user, key)
    }

    fn signature(&self, algorithm: &[u8], key: &[u8], text: &[u8], signature: &[u8]) -> bool {
        algorithm == NAME && is_user_signature(key, text, signature)
    }
}

fn is_accepted(accepted: &[AcceptedKey<'_>], user: &[u8], key: &[u8]) -> bool
    ensures { result ≡ is_accepted accepted.now user.now key.now }
{
    accepted.iter().any(|entry| is_key_of(entry, user, key))
}

fn is_key_of(entry: &AcceptedKey<'_>, user: &[u8], key: &[u8]) -> bool
    ensures { result ≡ is_key_of user.now key.now entry.now }
{
    entry.user == user
        && key_blob(&entry.public).as_slice() == key
        && !is_small_order(&entry.public)
}

pub(crate) fn is_user_signature(key: &[u8], text: &[u8], signature: &[u8]) -> bool
    ensures { result ≡ is_user_signature key.now text.now signature.now }
{
    match key_in(key) {
        Some(public) => has_signed(&public, text, signature),
        None => false,
    }
}
