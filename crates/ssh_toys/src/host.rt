ghost use Rattle.std.specs.Prelude.{◌&&◌, nat_eq, codes};
ghost use Rattle.std.specs.Cmp.Lexicographic.{pointwise};

use ssh_kex::{HostSigner, HostTrust};

/// The host key of the toys.
pub const HOST_KEY: &[u8] = b"toy-host";

/// The key is `HOST_KEY` for each algorithm, and the signature of a hash is the hash.
#[derive(Clone, Copy)]
pub struct ToySigner;

impl HostSigner for ToySigner {
    ghost keys = { λ _. record { key = λ _. codes "toy-host"; signature = λ _ hash. hash } };

    fn key(&self, _algorithm: &[u8]) -> &[u8] {
        HOST_KEY
    }

    #[tactic(auto, using(crate::proofs::Sums::front_of))]
    fn sign(&self, _algorithm: &[u8], hash: &[u8; 32], out: &mut [u8; 4096]) -> usize {
        out[..32].copy_from_slice(hash);
        32
    }
}

/// The key has to be `HOST_KEY`, and the signature the hash.
#[derive(Clone, Copy)]
pub struct ToyTrust;

impl HostTrust for ToyTrust {
    ghost judged = { λ _ _ key hash signature. pointwise nat_eq key (codes "toy-host") && pointwise nat_eq signature hash };

    fn judge(&self, _algorithm: &[u8], key: &[u8], hash: &[u8; 32], signature: &[u8]) -> bool {
        key == HOST_KEY && signature == hash.as_slice()
    }
}
