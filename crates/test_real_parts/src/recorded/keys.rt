//! The keys of the recorded sessions.

use divrelca::key_files::{PrivateKey, private_key};
use divrelca::{AcceptedKey, Ed25519Signer};
use ssh_pipe::UserKey;
use std::fs;

/// The keys of a server and of its user.
#[derive(Clone, Copy)]
pub struct Keys {
    host: PrivateKey,
    trusted: [[u8; 32]; 1],
    user: UserKey,
    accepted: [AcceptedKey<'static>; 1],
}

impl Keys {
    /// The keys in the files `host` and `user`.
    ///
    /// # Errors
    ///
    /// A file that can't be read, or that is no private key.
    pub fn read(rt: &HostRuntime) -> anyhow::Result<Keys> {
        let host = private_key(rt.alloc(), fs::read(rt, "host")?.as_slice())?;
        let user = private_key(rt.alloc(), fs::read(rt, "user")?.as_slice())?;
        Ok(Keys {
            host,
            trusted: [host.public],
            user: UserKey {
                signer: Some(Ed25519Signer::new(&user.seed)),
            },
            accepted: [AcceptedKey {
                user: b"reader",
                public: user.public,
            }],
        })
    }

    /// The host key.
    pub fn host(&self) -> Ed25519Signer {
        Ed25519Signer::new(&self.host.seed)
    }

    /// The host keys that the client trusts: that one.
    pub fn trusted(&self) -> &[[u8; 32]] {
        &self.trusted
    }

    /// The user's key.
    pub fn user(&self) -> &UserKey {
        &self.user
    }

    /// The keys that let the user in.
    pub fn accepted(&self) -> &[AcceptedKey<'static>] {
        &self.accepted
    }
}
