//! The short form of a public key.

use base64::engine::general_purpose::STANDARD_NO_PAD;
use sha2::{Digest, Sha256};
use std::{fmt, str};

/// The fingerprint of a public key, as `ssh-keygen -l` prints it: `SHA256:` and the SHA-256 of the key as 43 base64 digits (RFC 4648
/// section 4).
#[derive(Clone, Copy, PartialEq, Eq)]
pub struct Fingerprint {
    hash: [u8; 32],
}

impl Fingerprint {
    /// That of this key, in the form of its type (RFC 4253 section 6.6).
    pub fn new(key: &[u8]) -> Fingerprint {
        Fingerprint {
            hash: Sha256::digest(key),
        }
    }
}

impl fmt::Display for Fingerprint {
    fn fmt<W: fmt::Write>(&self, f: &mut fmt::Formatter<W>) -> fmt::Result {
        let mut digits = [0; 44];
        let count = STANDARD_NO_PAD
            .encode_slice(&self.hash, &mut digits)
            .unwrap_or(0);
        let digits = digits.as_slice().get(..count).unwrap_or(&[]);
        write!(f, "SHA256:{}", str::from_utf8(digits).unwrap_or(""))
    }
}
