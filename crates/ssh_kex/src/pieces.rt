// Strings and mpints given to a hash, piece by piece.

ghost use Rattle.std.specs.Prelude.{◌≡◌, ◌<◌, ◌^◌, ◌++◌, ◌+◌, pos, List, ℕ, length};
ghost use Rattle.sha2.specs.Hashers.{Holds256};
ghost use Rattle.ssh_model.specs.Protocol.Wire.DataTypes.{number};
ghost use Rattle.ssh_types.specs.Values.{value_of, bytes_of};
ghost use Rattle.ssh_model.specs.Protocol.KeyExchange.Exchange.{string_of, mpint_of, mpint_body};

use sha2::{Digest, Sha256};
use ssh_types::MpInt;

// Takes in a string: its length as a uint32, and its bytes.
pub(crate) fn hash_string(hasher: &mut Sha256, text: &[u8])
    requires { length text.now < 2 ^ 32 }
    ensures { (m : List ℕ) → Holds256 hasher.old m → Holds256 hasher.new (m ++ string_of text.now) }
{
    hash_joined(hasher, &[], text);
}

// Takes in an unsigned number as an mpint.
pub(crate) fn hash_mpint(hasher: &mut Sha256, bytes: &[u8])
    requires { length (mpint_body (number bytes.now)) < 2 ^ 32 }
    ensures { (m : List ℕ) → Holds256 hasher.old m → Holds256 hasher.new (m ++ mpint_of (number bytes.now)) }
{
    let (marked, digits) = unsigned(bytes).parts();
    if marked {
        hash_joined(hasher, &[0], digits);
    } else {
        hash_joined(hasher, &[], digits);
    }
}

// Takes in a string of two parts.
#[tactic(auto, unfolding(ssh_model::specs::Protocol::KeyExchange::Exchange::string_of))]
fn hash_joined(hasher: &mut Sha256, front: &[u8], text: &[u8])
    requires { length front.now + length text.now < 2 ^ 32 }
    ensures { (m : List ℕ) → Holds256 hasher.old m → Holds256 hasher.new (m ++ string_of (front.now ++ text.now)) }
{
    let length = (front.len() + text.len()) as u32;
    hasher.update(&length.to_be_bytes());
    hasher.update(front);
    hasher.update(text);
}

// The number that the bytes are, unsigned.
#[tactic(auto, using(crate::proofs::Strings::kept_body))]
pub(crate) fn unsigned(bytes: &[u8]) -> MpInt<'_>
    ensures value { value_of result ≡ pos (number bytes.now) }
    ensures bytes { bytes_of result ≡ mpint_body (number bytes.now) }
{
    let number = MpInt::from_unsigned(bytes);
    let (_, digits) = number.parts();
    ssh_types::laws::are_bytes(digits);
    number
}
