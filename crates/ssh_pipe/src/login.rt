//! How a client's user asks to be let in.

use divrelca::{Ed25519Signer, UserKey};
use ssh_auth::UserAsk;
use ssh_types::NameList;

/// The user of a client with the credentials that let the user in: a key, a password or both.
#[derive(Clone, Copy)]
pub struct Login<'a> {
    user: &'a [u8],
    key: Option<&'a [u8; 51]>,
    password: Option<&'a [u8]>,
    is_empty: bool,
}

impl<'a> Login<'a> {
    /// This user, with this key and this password.
    pub fn new(user: &'a [u8], key: &'a UserKey, password: Option<&'a [u8]>) -> Login<'a> {
        Login {
            user,
            key: key.signer.as_ref().map(Ed25519Signer::public_key),
            password,
            is_empty: key.signer.is_none() && password.is_none(),
        }
    }

    /// Tests whether there never was a key or a password.
    pub fn is_empty(&self) -> bool {
        self.is_empty
    }

    /// The next ask: the key comes before the password, and `none` asks which methods there are.
    pub fn ask(&self) -> UserAsk<'a> {
        match (self.key, self.password) {
            (Some(key), _) => UserAsk::Sign {
                user: self.user,
                algorithm: b"ssh-ed25519",
                key,
            },
            (None, Some(password)) => UserAsk::Password {
                user: self.user,
                password,
            },
            (None, None) => UserAsk::None { user: self.user },
        }
    }

    /// The last ask failed, and these methods can go on. Answers whether there is another ask. A password is sent only
    /// if the server names the method.
    pub fn fail(&mut self, methods: &NameList<'_>) -> bool {
        let was_key = self.key.is_some();
        self.key = None;
        was_key && self.password.is_some() && methods.contains(b"password")
    }
}
