// The signature of a request.

ghost use Rattle.std.specs.Prelude.{◌≤◌};

use crate::parts::UserSigner;

// The first bytes of an array, as many as are said.
#[derive(Drop)]
pub(crate) struct Signature {
    bytes: [u8; 4096],
    length: usize,
    ghost fits: { length ≤ 4096 },
}

impl Signature {
    ghost use Rattle.std.specs.Prelude.{◌≡◌};
    ghost use Rattle.ssh_auth.specs.Asking.{short_signature, signature_in};

    // The signer's of a text.
    #[tactic(auto, using(crate::proofs::Clients::short))]
    pub(crate) fn of<S: UserSigner>(
        signer: &S,
        user: &[u8],
        algorithm: &[u8],
        key: &[u8],
        text: &[u8],
    ) -> Signature
        ensures { signature_in result ≡ short_signature (S.signature_of signer.now) user.now algorithm.now key.now text.now }
    {
        let mut bytes = [0; 4096];
        let length = signer.sign(user, algorithm, key, text, &mut bytes);
        Signature { bytes, length }
    }

    pub(crate) fn as_bytes(&self) -> &[u8]
        ensures { result.now ≡ signature_in self.now }
    {
        &self.bytes[..self.length]
    }
}
