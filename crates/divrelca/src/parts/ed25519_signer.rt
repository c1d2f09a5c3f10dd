//! A key pair of ssh-ed25519 that signs.

ghost use Rattle.std.specs.Prelude.{◌≡◌, ◌≤◌, take};
ghost use Rattle.ciphers.specs.Ed25519.Signature.{signature_of as signed_by};
ghost use Rattle.divrelca.specs.Parts.Ed25519.{host_keys, signature_blob, signer_of, user_signature};

use crate::parts::ed25519_blobs::{KEY, NAME, SIGNATURE, key_blob, signature_blob};
use ciphers::ed25519::KeyPair;
use ssh_auth::UserSigner;
use ssh_kex::HostSigner;

/// A key pair of ssh-ed25519 (RFC 8709): the host key of a server, or the key of a client's user. It knows the algorithm ssh-ed25519 alone,
/// and gives a host key and signatures of no bytes for any other. As the key of a user it signs for its own public key, whoever the user
/// is.
#[derive(Clone, Copy)]
pub struct Ed25519Signer {
    pair: KeyPair,
    key: [u8; 51],
}

impl Ed25519Signer {
    /// The key pair of a secret of 32 bytes.
    pub fn new(seed: &[u8; 32]) -> Ed25519Signer
        ensures { result ≡ signer_of seed.now }
    {
        let pair = KeyPair::from_seed(seed);
        Ed25519Signer {
            pair,
            key: key_blob(pair.public()),
        }
    }

    /// The public key as it goes over the wire (RFC 8709 section 4).
    pub fn public_key(&self) -> &[u8; 51]
        ensures { result.now ≡ self.now.key }
    {
        &self.key
    }

    // Puts the signature of a text in front.
    #[tactic(auto, using(crate::proofs::OfParts::Fronts::front_of))]
    fn put_signature(&self, text: &[u8], out: &mut [u8; 4096]) -> usize
        ensures value { take result out.new ≡ signature_blob (signed_by self.now.pair text.now) }
        ensures bound { result ≤ 4096 }
    {
        out[..SIGNATURE].copy_from_slice(&signature_blob(&self.pair.sign(text)));
        SIGNATURE
    }
}

impl HostSigner for Ed25519Signer {
    ghost keys = { host_keys };

    fn key(&self, algorithm: &[u8]) -> &[u8] {
        if algorithm == NAME { &self.key } else { &[] }
    }

    fn sign(&self, algorithm: &[u8], hash: &[u8; 32], out: &mut [u8; 4096]) -> usize {
        if algorithm == NAME {
            self.put_signature(hash, out)
        } else {
            0
        }
    }
}

impl UserSigner for Ed25519Signer {
    ghost signature_of = { user_signature };

    fn sign(
        &self,
        _user: &[u8],
        algorithm: &[u8],
        key: &[u8],
        text: &[u8],
        out: &mut [u8; 4096],
    ) -> usize {
        if algorithm == NAME && key == self.key.as_slice() {
            self.put_signature(text, out)
        } else {
            0
        }
    }
}
