//! Signatures of the toys, and of an algorithm that a server's own judge does not know.

ghost use Rattle.std.specs.Prelude.{[], ◌∷◌, codes, if◌then◌else◌};
ghost use Rattle.sha2.specs.Sha256.{sha256};
ghost use Rattle.ssh_model.specs.Protocol.Wire.DataTypes.{is_text};
ghost use Rattle.ssh_toys.specs.Users.{verdicts_of};

use ssh_auth::{UserJudge, UserSigner};
use ssh_held::KnowsAlgorithms;
use ssh_toys::{ToyJudge, ToyUserSigner};

/// The algorithm whose signatures the server judges by itself.
pub const KNOWN: &[u8] = b"toy@example.com";

/// Another one, of which its program has to judge them.
pub const OTHER: &[u8] = b"other@example.com";

// It knows no user.
const TOYS: ToyJudge<'static> = ToyJudge { credentials: &[] };

/// Judges signatures as `ToyJudge` does, those of one algorithm, and knows no user.
#[derive(Clone, Copy, Drop)]
pub struct HeldJudge;

impl UserJudge for HeldJudge {
    ghost verdicts = { λ judge. verdicts_of [] };

    fn none(&self, user: &[u8]) -> bool {
        TOYS.none(user)
    }

    fn password(&self, user: &[u8], word: &[u8]) -> bool {
        TOYS.password(user, word)
    }

    fn key_known(&self, user: &[u8], algorithm: &[u8], key: &[u8]) -> bool {
        TOYS.key_known(user, algorithm, key)
    }

    fn signature(&self, algorithm: &[u8], key: &[u8], text: &[u8], signature: &[u8]) -> bool {
        TOYS.signature(algorithm, key, text, signature)
    }
}

impl KnowsAlgorithms for HeldJudge {
    ghost knows = { λ judge algorithm. is_text algorithm (codes "toy@example.com") };

    fn knows(&self, algorithm: &[u8]) -> bool {
        algorithm == KNOWN
    }
}

/// Signs as `ToyUserSigner` does. Under every other algorithm the signature is the byte s, whatever the text is.
#[derive(Clone, Copy, Drop)]
pub struct HeldSigner;

impl UserSigner for HeldSigner {
    ghost signature_of = { λ signer user algorithm key text. if is_text algorithm (codes "toy@example.com") then sha256 text else 115 ∷ [] };

    fn sign(
        &self,
        user: &[u8],
        algorithm: &[u8],
        key: &[u8],
        text: &[u8],
        out: &mut [u8; 4096],
    ) -> usize {
        if algorithm == KNOWN {
            return ToyUserSigner.sign(user, algorithm, key, text, out);
        }
        *out = [b's'; 4096];
        1
    }
}
