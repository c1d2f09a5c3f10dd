//! The requests that a client can be asked to send.

/// A request for the service `ssh-connection` that a client is asked to send (RFC 4252).
#[derive(Clone, Copy, PartialEq, Eq)]
pub enum UserAsk<'a> {
    /// By `none` (section 5.2).
    None {
        /// The name of the user, in UTF-8.
        user: &'a [u8],
    },
    /// By `password` (section 8).
    Password {
        /// The name of the user, in UTF-8.
        user: &'a [u8],
        /// The password, in UTF-8.
        password: &'a [u8],
    },
    /// By `publickey` without a signature: whether the key would do (section 7).
    Probe {
        /// The name of the user, in UTF-8.
        user: &'a [u8],
        /// The algorithm of the key.
        algorithm: &'a [u8],
        /// The public key, as a string that begins with its algorithm.
        key: &'a [u8],
    },
    /// By `publickey`, signed (section 7).
    Sign {
        /// The name of the user, in UTF-8.
        user: &'a [u8],
        /// The algorithm of the key.
        algorithm: &'a [u8],
        /// The public key, as a string that begins with its algorithm.
        key: &'a [u8],
    },
}
