//! Signatures of ssh-ed25519, for a program that says itself whose a key is.

ghost use Rattle.divrelca.specs.Parts.Ed25519.{by_signature, has_host_signed, is_name};

use crate::parts::ed25519_blobs::NAME;
use crate::parts::ed25519_judge::is_user_signature;
use ssh_auth::UserJudge;
use ssh_held::KnowsAlgorithms;
use ssh_kex::HostTrust;

/// Judges signatures of ssh-ed25519, each by the key that comes with it (RFC 8709): those of users, and those of hosts. It knows no user, and
/// takes every host that has signed. So whoever uses it asks somebody else whose the key is.
#[derive(Clone, Copy, Debug, PartialEq, Eq, Drop)]
pub struct Ed25519Signatures;

impl UserJudge for Ed25519Signatures {
    ghost verdicts = { λ judge. by_signature };

    fn none(&self, _user: &[u8]) -> bool {
        false
    }

    fn password(&self, _user: &[u8], _word: &[u8]) -> bool {
        false
    }

    fn key_known(&self, _user: &[u8], _algorithm: &[u8], _key: &[u8]) -> bool {
        false
    }

    fn signature(&self, algorithm: &[u8], key: &[u8], text: &[u8], signature: &[u8]) -> bool {
        algorithm == NAME && is_user_signature(key, text, signature)
    }
}

impl KnowsAlgorithms for Ed25519Signatures {
    ghost knows = { λ judge. is_name };

    fn knows(&self, algorithm: &[u8]) -> bool {
        algorithm == NAME
    }
}

impl HostTrust for Ed25519Signatures {
    ghost judged = { λ trust. has_host_signed };

    fn judge(&self, algorithm: &[u8], key: &[u8], hash: &[u8; 32], signature: &[u8]) -> bool {
        algorithm == NAME && is_user_signature(key, hash, signature)
    }
}
