ghost use Rattle.std.specs.Prelude.{◌≡◌, Bool, List, ℕ};
ghost use Rattle.ssh_model.specs.Protocol.Wire.Message.{Msg, IsPayload, IsWrittenPayload, FitsContext};

use ssh_model::laws;

/// A payload is one message at most, for an end that waits for the answer to a key probe and for one that does not.
pub fn one_message()
    ensures { (probing : Bool) (m k : Msg) (payload : List ℕ) → IsPayload probing m payload → IsPayload probing k payload → m ≡ k }
{
    laws::one_message();
}

/// The bytes written for a message are a payload of it if the context fits. With the contracts of `encode` and
/// `decode`, a written message is read as the same message.
#[tactic(auto, using(crate::proofs::Payloads::written_is_read))]
pub fn written_is_read()
    ensures { (probing : Bool) (m : Msg) (payload : List ℕ) → FitsContext probing m → IsWrittenPayload m payload →
        IsPayload probing m payload }
{}
