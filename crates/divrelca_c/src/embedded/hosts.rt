//! Which hosts a client trusts.

ghost use Rattle.std.specs.Prelude.{◌≡◌, []};
ghost use Rattle.divrelca_c.specs.Embedded.Hosts.{trusts_of};

use divrelca::{Ed25519HostKeys, Ed25519Signatures};
use ssh_held::HostVerdicts;
use ssh_kex::HostTrust;
use std::alloc::Global;

/// The hosts that a client trusts: those with one of the keys that it was made with, and those with a key to which its program said yes.
#[derive(Drop)]
pub struct TrustedHosts {
    pub keys: Ed25519HostKeys,
    pub book: HostVerdicts<Ed25519Signatures>,
}

impl TrustedHosts {
    /// No host.
    pub fn new(alloc: Global) -> TrustedHosts
        ensures keys { result.keys.keys.items ≡ [] }
        ensures book { result.book.list.items ≡ [] }
    {
        TrustedHosts {
            keys: Ed25519HostKeys {
                keys: Vec::new(alloc),
            },
            book: HostVerdicts::new(alloc, Ed25519Signatures),
        }
    }
}

impl HostTrust for TrustedHosts {
    ghost judged = { trusts_of };

    fn judge(&self, algorithm: &[u8], key: &[u8], hash: &[u8; 32], signature: &[u8]) -> bool {
        self.keys.judge(algorithm, key, hash, signature)
            || self.book.judge(algorithm, key, hash, signature)
    }
}
