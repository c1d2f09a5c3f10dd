ghost use Rattle.std.specs.Prelude.{◌≡◌};
ghost use Rattle.sha2.specs.Sha256.{sha256};
ghost use Rattle.ssh_toys.specs.Users.{is_key_of, is_password_of, key_fits, password_fits, verdicts_of};

use sha2::{Digest, Sha256};
use ssh_auth::{UserJudge, UserSigner};

/// The means that let a user in.
#[derive(Clone, Copy)]
pub enum ToyCredential<'a> {
    /// The user has this password.
    Password { user: &'a [u8], word: &'a [u8] },
    /// The user has this public key, under each algorithm name.
    Key { user: &'a [u8], key: &'a [u8] },
}

/// Lets users in by their credentials. The signature of a text is its SHA-256, whoever made it.
#[derive(Clone, Copy)]
pub struct ToyJudge<'a> {
    /// The credentials of all users.
    pub credentials: &'a [ToyCredential<'a>],
}

impl UserJudge for ToyJudge<'_> {
    ghost verdicts = { λ judge. verdicts_of judge.credentials.now };

    fn none(&self, _user: &[u8]) -> bool {
        false
    }

    fn password(&self, user: &[u8], word: &[u8]) -> bool {
        has_password(self.credentials, user, word)
    }

    fn key_known(&self, user: &[u8], _algorithm: &[u8], key: &[u8]) -> bool {
        has_key(self.credentials, user, key)
    }

    fn signature(&self, _algorithm: &[u8], _key: &[u8], text: &[u8], signature: &[u8]) -> bool {
        signature == Sha256::digest(text).as_slice()
    }
}

fn has_password(credentials: &[ToyCredential<'_>], user: &[u8], word: &[u8]) -> bool
    ensures { result ≡ is_password_of credentials.now user.now word.now }
{
    credentials
        .iter()
        .any(|credential| is_password(credential, user, word))
}

fn has_key(credentials: &[ToyCredential<'_>], user: &[u8], key: &[u8]) -> bool
    ensures { result ≡ is_key_of credentials.now user.now key.now }
{
    credentials
        .iter()
        .any(|credential| is_key(credential, user, key))
}

fn is_password(credential: &ToyCredential<'_>, user: &[u8], word: &[u8]) -> bool
    ensures { result ≡ password_fits user.now word.now credential.now }
{
    match *credential {
        ToyCredential::Password {
            user: name,
            word: right,
        } => name == user && right == word,
        ToyCredential::Key { .. } => false,
    }
}

fn is_key(credential: &ToyCredential<'_>, user: &[u8], key: &[u8]) -> bool
    ensures { result ≡ key_fits user.now key.now credential.now }
{
    match *credential {
        ToyCredential::Password { .. } => false,
        ToyCredential::Key {
            user: name,
            key: known,
        } => name == user && known == key,
    }
}

/// The signature of a text is its SHA-256.
#[derive(Clone, Copy)]
pub struct ToyUserSigner;

impl UserSigner for ToyUserSigner {
    ghost signature_of = { λ _ _ _ _ text. sha256 text };

    #[tactic(auto, using(crate::proofs::Sums::front_of))]
    fn sign(
        &self,
        _user: &[u8],
        _algorithm: &[u8],
        _key: &[u8],
        text: &[u8],
        out: &mut [u8; 4096],
    ) -> usize {
        let signature = Sha256::digest(text);
        out[..32].copy_from_slice(&signature);
        32
    }
}
