// The strings and extensions that stand in front of bytes.

ghost use Rattle.std.specs.Prelude.{◌≡◌, true, false, IfSome, IfNone};
ghost use Rattle.ssh_message.specs.Announced.{extension_of};
ghost use Rattle.ssh_message.specs.Extensions.{after_extension, after_string, are_extensions as passes_extensions, extension_in};
ghost use Rattle.ssh_message.specs.Extensions.{has_extension, has_string, string_in};

use super::Extension;
use ssh_types::Reader;

// Tests whether this many extensions stand there, and nothing after them.
pub(super) fn are_extensions(count: u32, bytes: &[u8]) -> bool
    ensures { result ≡ passes_extensions count bytes.now }
{
    let mut left = bytes;
    for _ in 0..count {
        let Some((_, rest)) = split_extension(left) else {
            return false;
        };
        left = rest;
    }
    left.is_empty()
}

// The extension at the front, and the bytes after it.
pub(super) fn split_extension(bytes: &[u8]) -> Option<(Extension<'_>, &[u8])>
    ensures found { IfSome result (λ parts. extension_of parts.0 ≡ extension_in bytes.now) }
    ensures rest { IfSome result (λ parts. parts.1.now ≡ after_extension bytes.now) }
    ensures whole { IfSome result (λ _. has_extension bytes.now ≡ true) }
    ensures none { IfNone result (has_extension bytes.now ≡ false) }
{
    let (name, bytes) = split_string(bytes)?;
    let (value, rest) = split_string(bytes)?;
    Some((Extension { name, value }, rest))
}

// The text of the string at the front, and the bytes after it.
#[tactic(auto, using(crate::proofs::Announcing::string_text, crate::proofs::Announcing::string_rest, crate::proofs::Announcing::string_whole, crate::proofs::Announcing::no_string))]
fn split_string(bytes: &[u8]) -> Option<(&[u8], &[u8])>
    ensures found { IfSome result (λ parts. parts.0.now ≡ string_in bytes.now) }
    ensures rest { IfSome result (λ parts. parts.1.now ≡ after_string bytes.now) }
    ensures whole { IfSome result (λ _. has_string bytes.now ≡ true) }
    ensures none { IfNone result (has_string bytes.now ≡ false) }
{
    ssh_types::laws::are_bytes(bytes);
    let mut fields = Reader::new(bytes);
    match fields.string() {
        Ok(text) => Some((text, fields.rest())),
        Err(_) => None,
    }
}
