//! Public keys as they stand on a line.

ghost use Rattle.std.specs.Prelude.{◌≡◌, IsSome, OnErr, OnOk};
ghost use Rattle.ssh_model.specs.Protocol.Wire.DataTypes.{is_text};
ghost use Rattle.divrelca.specs.Keys.{key_in, key_of, with_found};

use crate::key_files::digits::decoded;
use crate::key_files::fault::Expected;
use crate::key_files::words::ED25519;
use crate::parts::Ed25519Trust;
use std::alloc::AllocError;

// The bytes of a key of ssh-ed25519 as it goes over the wire (RFC 8709 section 4).
const KEY: usize = 51;

/// The 32 bytes of the key of ssh-ed25519 that these base64 digits are, as it goes over the wire.
#[tactic(auto, unfolding(crate::specs::Keys::key_in))]
pub(crate) fn key_in(digits: &[u8]) -> Option<[u8; 32]>
    ensures { result ≡ key_in digits.now }
{
    let mut blob = [0; KEY];
    if !decoded(digits, &mut blob) {
        return None;
    }
    Some(Ed25519Trust::from_key(&blob)?.public)
}

/// The key that these digits are. One of another type than ssh-ed25519 is passed over.
///
/// # Errors
///
/// - `Key`: the digits of a key of ssh-ed25519 are no key.
pub(crate) fn key_of(kind: &[u8], digits: &[u8]) -> Result<Option<[u8; 32]>, Expected>
    ensures { result ≡ key_of kind.now digits.now }
{
    if kind != ED25519 {
        return Ok(None);
    }
    match key_in(digits) {
        Some(key) => Ok(Some(key)),
        None => Err(Expected::Key),
    }
}

/// Tests whether two keys are the same.
pub(crate) fn is_same(one: &[u8; 32], other: &[u8; 32]) -> bool
    ensures { result ≡ is_text one.now other.now }
{
    one.as_slice() == other.as_slice()
}

/// Puts a key after the others, if one is found.
pub(crate) fn put_found(keys: &mut Vec<[u8; 32]>, found: Option<[u8; 32]>) -> Result<(), AllocError>
    ensures put { OnOk result (keys.new.items ≡ with_found keys.old.items found) }
    ensures found { OnErr result (IsSome found) }
{
    if let Some(key) = found {
        keys.push(key)?;
    }
    Ok(())
}
