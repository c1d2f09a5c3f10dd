//! Parts that answer with the recorded values of a session of two exchanges.

ghost use Rattle.std.specs.Prelude.{◌≡◌, ◌&&◌, ◌||◌, nat_eq, if◌then◌else◌, Some, None, replicate, take, codes};
ghost use Rattle.std.specs.Cmp.Lexicographic.{pointwise};
ghost use Rattle.ssh_model.specs.Protocol.Wire.DataTypes.{is_text};

use ssh_kex::{Agreement, HostSigner, HostTrust};
use ssh_packet::MacOnly;
use ssh_toys::ToyFiller;
use ssh_transport::{ClientParts, ServerParts};

/// The parts of an end of a recorded session. A secret is the result shared in its exchange, so that the session needs no other. The
/// client trusts the host key and its signatures of both hashes, and a server can sign nothing else.
#[derive(Clone, Copy)]
pub struct Recorded {
    pub cookie: [u8; 16],
    pub first_shared: [u8; 32],
    pub first_point: [u8; 32],
    pub second_point: [u8; 32],
    pub key: [u8; 51],
    pub first_hash: [u8; 32],
    pub first_signature: [u8; 83],
    pub second_hash: [u8; 32],
    pub second_signature: [u8; 83],
}

impl Agreement for Recorded {
    ghost does = { λ a. record {
      point = λ secret. if pointwise nat_eq secret a.first_shared then a.first_point else a.second_point;
      shared = λ secret _. if pointwise nat_eq secret (replicate 32 0) then None else Some secret;
    } };

    fn public(&self, secret: &[u8; 32]) -> [u8; 32] {
        if *secret == self.first_shared {
            self.first_point
        } else {
            self.second_point
        }
    }

    fn shared(&self, secret: &[u8; 32], _theirs: &[u8; 32]) -> Option<[u8; 32]> {
        if *secret == [0; 32] {
            return None;
        }
        Some(*secret)
    }
}

impl HostTrust for Recorded {
    ghost judged = { λ h algorithm key hash signature. (is_text algorithm (codes "ssh-ed25519") && is_text key h.key)
        && ((is_text hash h.first_hash && is_text signature h.first_signature)
        || (is_text hash h.second_hash && is_text signature h.second_signature)) };

    fn judge(&self, algorithm: &[u8], key: &[u8], hash: &[u8; 32], signature: &[u8]) -> bool {
        let is_key = algorithm == b"ssh-ed25519".as_slice() && key == self.key.as_slice();
        let is_first = *hash == self.first_hash && signature == self.first_signature.as_slice();
        let is_second = *hash == self.second_hash && signature == self.second_signature.as_slice();
        is_key && (is_first || is_second)
    }
}

impl HostSigner for Recorded {
    ghost keys = { λ h. record {
      key = λ _. h.key;
      signature = λ _ hash. if pointwise nat_eq hash h.first_hash then h.first_signature else h.second_signature;
    } };

    fn key(&self, _algorithm: &[u8]) -> &[u8] {
        &self.key
    }

    fn sign(&self, _algorithm: &[u8], hash: &[u8; 32], out: &mut [u8; 4096]) -> usize {
        let signature = if *hash == self.first_hash {
            self.first_signature
        } else {
            self.second_signature
        };
        put_signature(&signature, out);
        83
    }
}

/// Puts a signature into the place where a signer has to put one.
#[tactic(auto, using(crate::proofs::Fronts::front_of))]
pub fn put_signature(signature: &[u8; 83], out: &mut [u8; 4096])
    ensures { take 83 out.new ≡ signature.now }
{
    out[..83].copy_from_slice(signature);
}

/// The parts of a recorded client.
pub struct RecordedClient;

impl ClientParts for RecordedClient {
    type Sealing = MacOnly;

    type Filler = ToyFiller;

    type Agreement = Recorded;

    type HostTrust = Recorded;
}

/// The parts of a recorded server.
pub struct RecordedServer;

impl ServerParts for RecordedServer {
    type Sealing = MacOnly;

    type Filler = ToyFiller;

    type Agreement = Recorded;

    type HostSigner = Recorded;
}
