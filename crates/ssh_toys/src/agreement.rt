ghost use Rattle.std.specs.Prelude.{◌≡◌, bit_xor};
ghost use Rattle.std.specs.Simd.Lanes.{zip2};

use ssh_kex::Agreement;

/// The public point of a secret is the secret, and two ends share the exclusive or of their secrets.
#[derive(Clone, Copy)]
pub struct ToyAgreement;

impl Agreement for ToyAgreement {
    ghost use Rattle.ssh_toys.specs.Standard.{shared_by};

    ghost does = { λ _. record { point = λ secret. secret; shared = shared_by } };

    fn public(&self, secret: &[u8; 32]) -> [u8; 32] {
        *secret
    }

    fn shared(&self, secret: &[u8; 32], theirs: &[u8; 32]) -> Option<[u8; 32]> {
        let shared = exclusive_or(secret, theirs);
        if shared == [0; 32] {
            return None;
        }
        Some(shared)
    }
}

// The exclusive or, byte by byte.
#[tactic(auto, using(crate::proofs::Sums::all_of))]
fn exclusive_or(one: &[u8; 32], other: &[u8; 32]) -> [u8; 32]
    ensures { result ≡ zip2 bit_xor one.now other.now }
{
    let mut bytes = [0; 32];
    for i in 0..32 {
        bytes[i] = one[i] ^ other[i];
    }
    bytes
}
