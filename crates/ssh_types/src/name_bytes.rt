// Which bytes are a name, and which are names joined by commas.

ghost use Rattle.std.specs.Prelude.{◌≡◌, ◌==◌, ◌≤◌, ◌++◌, [], ◌∷◌, IfSome, IfNone, IsTrue, OnErr, OnOk, count_by, length};
ghost use Rattle.std.specs.List.{list_all, position, slice_split};
ghost use Rattle.ssh_model.specs.Protocol.Wire.DataTypes.{is_comma, is_name as passes_name, is_name_byte};
ghost use Rattle.ssh_types.specs.Names.{Pushes, are_names as passes_names};

use crate::bounds::LONGEST_NAME;
use std::alloc::AllocError;

// The bytes are a name.
pub(crate) fn is_name(bytes: &[u8]) -> bool
    ensures { result ≡ passes_name bytes.now }
{
    let printable = are_name_bytes(bytes);
    let signs = at_signs(bytes);
    bytes.len() >= 1 && bytes.len() <= LONGEST_NAME && printable && signs <= 1
}

fn are_name_bytes(bytes: &[u8]) -> bool
    ensures { result ≡ list_all is_name_byte bytes.now }
{
    bytes.iter().all(|c| *c >= 33 && *c <= 126 && *c != b',')
}

fn at_signs(bytes: &[u8]) -> usize
    ensures { result ≡ count_by (λ c. c == 64) bytes.now }
{
    bytes.iter().filter(|c| **c == b'@').count()
}

// The bytes are names joined by commas, or none.
pub(crate) fn are_names(text: &[u8]) -> bool
    ensures { result ≡ passes_names text.now }
{
    text.is_empty() || all_names(text)
}

// Each part between commas is a name.
fn all_names(text: &[u8]) -> bool
    ensures { result ≡ list_all passes_name (slice_split is_comma text.now) }
{
    text.split(|c| *c == b',').all(|name| is_name(name))
}

// The bytes before the first comma, and those after it.
#[tactic(auto, using(crate::proofs::Joined::split_at_comma, crate::proofs::Joined::split_at_none))]
pub(crate) fn split_comma(text: &[u8]) -> Option<(&[u8], &[u8])>
    ensures found { IfSome result (λ parts. slice_split is_comma text.now ≡ parts.0.now ∷ slice_split is_comma parts.1.now) }
    ensures none { IfNone result (slice_split is_comma text.now ≡ text.now ∷ []) }
{
    let at = first_comma(text)?;
    Some((&text[..at], &text[at + 1..]))
}

fn first_comma(text: &[u8]) -> Option<usize>
    ensures { result ≡ position is_comma text.now }
{
    text.iter().position(|c| *c == b',')
}

// Puts a name after the names of a text.
pub(crate) fn push_name(text: &mut Vec<u8>, name: &[u8]) -> Result<(), AllocError>
    requires names { IsTrue (passes_names text.old.items) }
    requires name { IsTrue (passes_name name.now) }
    ensures pushed { Pushes result text.old.items name.now text.new.items }
    ensures kept { OnErr result (text.new.items ≡ text.old.items) }
{
    if text.is_empty() {
        return push_first(text, name);
    }
    push_following(text, name)
}

// Puts a name into an empty text.
#[tactic(auto, using(crate::proofs::Joined::pushes_first))]
fn push_first(text: &mut Vec<u8>, name: &[u8]) -> Result<(), AllocError>
    requires none { text.old.items ≡ [] }
    requires name { IsTrue (passes_name name.now) }
    ensures pushed { Pushes result text.old.items name.now text.new.items }
    ensures kept { OnErr result (text.new.items ≡ text.old.items) }
{
    put(text, name)
}

// Puts bytes after a text.
fn put(text: &mut Vec<u8>, bytes: &[u8]) -> Result<(), AllocError>
    ensures put { OnOk result (text.new.items ≡ text.old.items ++ bytes.now) }
    ensures kept { OnErr result (text.new.items ≡ text.old.items) }
{
    text.extend_from_slice(bytes)
}

// Puts a comma and a name after a text.
#[tactic(auto, using(crate::proofs::Joined::pushes_more))]
fn push_following(text: &mut Vec<u8>, name: &[u8]) -> Result<(), AllocError>
    // What the caller must ensure.
    requires some { 1 ≤ length text.old.items }
    requires names { IsTrue (passes_names text.old.items) }
    requires name { IsTrue (passes_name name.now) }
    // What it does.
    ensures pushed { Pushes result text.old.items name.now text.new.items }
    // If it fails.
    ensures kept { OnErr result (text.new.items ≡ text.old.items) }
{
    put_following(text, name)
}

// Puts a comma and bytes after a text.
fn put_following(text: &mut Vec<u8>, bytes: &[u8]) -> Result<(), AllocError>
    ensures put { OnOk result (text.new.items ≡ text.old.items ++ (44 ∷ bytes.now)) }
    ensures kept { OnErr result (text.new.items ≡ text.old.items) }
{
    let start = text.len();
    text.push(b',')?;
    if let Err(error) = text.extend_from_slice(bytes) {
        text.truncate(start);
        return Err(error);
    }
    Ok(())
}
