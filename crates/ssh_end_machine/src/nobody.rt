//! The part that a role does not have.

ghost use Rattle.ssh_end_machine.specs.Parts.{no_signatures, no_verdicts};

use ssh_auth::{UserJudge, UserSigner};

/// Lets no user in, and signs nothing: a client judges no users, and a server signs for none.
#[derive(Clone, Copy, Drop)]
pub struct Nobody;

impl UserJudge for Nobody {
    ghost verdicts = { λ nobody. no_verdicts };

    fn none(&self, _user: &[u8]) -> bool {
        false
    }

    fn password(&self, _user: &[u8], _word: &[u8]) -> bool {
        false
    }

    fn key_known(&self, _user: &[u8], _algorithm: &[u8], _key: &[u8]) -> bool {
        false
    }

    fn signature(&self, _algorithm: &[u8], _key: &[u8], _text: &[u8], _signature: &[u8]) -> bool {
        false
    }
}

impl UserSigner for Nobody {
    ghost signature_of = { λ nobody. no_signatures };

    fn sign(
        &self,
        _user: &[u8],
        _algorithm: &[u8],
        _key: &[u8],
        _text: &[u8],
        _out: &mut [u8; 4096],
    ) -> usize {
        0
    }
}
