//! Facts for proofs, each the contract of a function without a body. A call of one costs nothing.

ghost use Rattle.std.specs.Prelude.{◌≡◌, ◌≤◌, ◌<◌, ◌+◌, ◌^◌, pos, List, ℕ, length};
ghost use Rattle.ssh_model.specs.Protocol.Wire.DataTypes.{AreBytes, IsString, number};
ghost use Rattle.ssh_model.specs.Laws.DataTypes.{IsMpint};
ghost use Rattle.ssh_model.specs.Protocol.KeyExchange.Exchange.{Inputs, exchange_text, mpint_body, mpint_of, string_of};
ghost use Rattle.ssh_model.specs.Laws.KeyExchange.{Fits};

use ssh_model::laws;

/// Two exchanges of one text have one list of inputs: the same lines, KEXINIT payloads, host key, points and shared
/// number. So two ends that hashed the same text agree on all of them.
pub fn equal_texts_have_equal_inputs()
    ensures { (x y : Inputs) → Fits x → Fits y → exchange_text x ≡ exchange_text y → x ≡ y }
{
    laws::equal_texts();
}

/// The strings and the number of an exchange text are encoded as RFC 4251 section 5 says.
#[tactic(auto, using(ssh_types::specs::Encodings::is_string, crate::proofs::Strings::is_mpint))]
pub fn encoded()
    ensures string { (text : List ℕ) → length text < 2 ^ 32 → IsString text (string_of text) }
    ensures mpint { (n : ℕ) → length (mpint_body n) < 2 ^ 32 → IsMpint (pos n) (mpint_of n) }
{}

// A shared number, as an mpint, has at most one byte more than it was given in.
#[tactic(auto, using(crate::proofs::Numbers::body_length))]
fn few_bytes()
    ensures { (bytes : List ℕ) → AreBytes bytes → length (mpint_body (number bytes)) ≤ length bytes + 1 }
{}

/// A shared number of 32 bytes has at most 33 as an mpint.
pub fn short_number(shared: &[u8; 32])
    ensures { length (mpint_body (number shared.now)) ≤ 33 }
{
    ssh_types::laws::are_bytes(shared);
    few_bytes();
}
