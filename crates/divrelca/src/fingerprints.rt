//! What people compare of a key.

ghost use Rattle.std.specs.Prelude.{◌≡◌};
ghost use Rattle.base64.specs.Engines.{standard_no_pad};
ghost use Rattle.base64.specs.GeneralPurpose.{encode_of};
ghost use Rattle.sha2.specs.Sha256.{sha256};

use base64::engine::general_purpose::STANDARD_NO_PAD;
use sha2::{Digest, Sha256};

/// The SHA-256 of a key as it goes over the wire, in 43 base64 digits without padding (RFC 4648 section 4). OpenSSH shows it with `SHA256:`
/// before it.
pub fn fingerprint(key: &[u8]) -> [u8; 43]
    ensures { result ≡ encode_of standard_no_pad (sha256 key.now) }
{
    let mut digits = [0; 43];
    let _ = STANDARD_NO_PAD.encode_slice(&Sha256::digest(key), &mut digits);
    digits
}
