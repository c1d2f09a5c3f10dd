//! Bytes that stand in a file as base64.

ghost use Rattle.std.specs.Prelude.{◌≡◌, ◌≢◌, IfNone, IfSome, length};
ghost use Rattle.std.specs.Bool.{OnFalse, OnTrue};
ghost use Rattle.divrelca.specs.Keys.{bytes_in};

use base64::engine::general_purpose::STANDARD;

/// Writes the bytes that base64 digits are (RFC 4648 section 4), and tests whether they are as many as there is room for.
pub(crate) fn decoded(digits: &[u8], out: &mut [u8]) -> bool
    ensures taken { OnTrue result (bytes_in (length out.old) digits.now ≡ Some out.new) }
    ensures refused { OnFalse result (bytes_in (length out.old) digits.now ≡ None) }
{
    let room = out.len();
    match decoded_count(digits, out) {
        Some(count) => count == room,
        None => false,
    }
}

// Writes the bytes that base64 digits are, and counts them; `None` where they are no base64, or more bytes than there is room for.
fn decoded_count(digits: &[u8], out: &mut [u8]) -> Option<usize>
    ensures none { IfNone result (bytes_in (length out.old) digits.now ≡ None) }
    ensures all { IfSome result (λ count. count ≡ length out.old → bytes_in (length out.old) digits.now ≡ Some out.new) }
    ensures fewer { IfSome result (λ count. count ≢ length out.old → bytes_in (length out.old) digits.now ≡ None) }
{
    match STANDARD.decode_slice(digits, out) {
        Ok(count) => Some(count),
        Err(_) => None,
    }
}
