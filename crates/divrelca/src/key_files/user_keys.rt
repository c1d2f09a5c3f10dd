//! The keys that let a user in.

ghost use Rattle.std.specs.Prelude.{◌≡◌, IfErr, IfOk, IsOk};
ghost use Rattle.divrelca.specs.Lines.{IsFaultOf};
ghost use Rattle.divrelca.specs.Texts.{words_in, words_of};
ghost use Rattle.divrelca.specs.UserKeys.{unless_skipped, user_key_on, user_keys};

use crate::key_files::fault::{Expected, FileFault};
use crate::key_files::parts::{LINE_END, Parts};
use crate::key_files::public_key::{key_of, put_found};
use crate::key_files::words::{Words, is_key_type};
use ssh_types::CallError;
use std::alloc::Global;

/// The public keys of ssh-ed25519 in a file of the form of authorized_keys, 32 bytes each, at least one. Keys of other types are passed
/// over, and so are malformed lines and lines with options before their key: a key whose options are ignored would let its holder do more
/// than they say. No line of these lets anyone in, and all others count. `skipped_users` goes over them.
///
/// # Errors
///
/// - `Refused(File(AnyKey))`: no line has a key of ssh-ed25519.
/// - `Memory`: memory was refused for the keys. It is asked for only if there is one.
pub fn authorized_keys(alloc: Global, text: &[u8]) -> Result<Vec<[u8; 32]>, CallError<FileFault>>
    ensures keys { IfOk result (λ keys. user_keys text.now ≡ Ok keys.items) }
    ensures fault { IfErr result (λ fault. IsFaultOf (user_keys text.now) fault) }
    ensures memory { IfErr result (λ fault. fault ≡ CallError.Memory → IsOk (user_keys text.now)) }
{
    let mut keys = Vec::new(alloc);
    for line in Parts::new(LINE_END, text) {
        put_found(&mut keys, key_on(line))?;
    }
    if keys.is_empty() {
        return Err(CallError::Refused(FileFault::File(Expected::AnyKey)));
    }
    Ok(keys)
}

// The key of ssh-ed25519 on a line, `None` where the line has none or is passed over.
fn key_on(line: &[u8]) -> Option<[u8; 32]>
    ensures { result ≡ unless_skipped (user_key_on (words_of line.now)) }
{
    match user_key_on(&Words::new(line)) {
        Ok(key) => key,
        Err(_) => None,
    }
}

/// The key of ssh-ed25519 on a line, `None` where it says nothing or has a key of another type.
///
/// # Errors
///
/// What was expected on the line.
pub(crate) fn user_key_on(words: &Words<'_>) -> Result<Option<[u8; 32]>, Expected>
    ensures { result ≡ user_key_on (words_in words.now) }
{
    if words.are_none() {
        return Ok(None);
    }
    if !is_key_type(words.first) {
        return Err(Expected::AuthorizedKey);
    }
    key_of(words.first, words.second)
}
