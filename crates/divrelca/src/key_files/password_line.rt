//! A password in a file.

ghost use Rattle.std.specs.Prelude.{◌≡◌, IfErr, IfOk};
ghost use Rattle.std.specs.List.{list_all};
ghost use Rattle.std.specs.Option.{option_copied};
ghost use Rattle.divrelca.specs.Passwords.{is_empty, only_line, password_of, without_cr};
ghost use Rattle.divrelca.specs.Texts.{lines_of};

use crate::key_files::fault::{Expected, FileFault};
use crate::key_files::parts::{LINE_END, cut};

/// The longest password, in bytes.
pub const MOST_PASSWORD_BYTES: usize = 1_024;

/// The password that a file has on its one line, without the CR and LF at its end. The file has it in clear: keep such a file from others.
///
/// # Errors
///
/// `File(Password)` if the first line is empty or over 1,024 bytes, or another line has bytes.
pub fn password(text: &[u8]) -> Result<&[u8], FileFault>
    ensures word { IfOk result (λ word. password_of text.now ≡ Some word.now) }
    ensures none { IfErr result (λ fault. (fault ≡ FileFault.File Expected.Password) × (password_of text.now ≡ None)) }
{
    let Some(line) = only_line(text) else {
        return Err(FileFault::File(Expected::Password));
    };
    let word = without_cr(line);
    if word.is_empty() || word.len() > MOST_PASSWORD_BYTES {
        return Err(FileFault::File(Expected::Password));
    }
    Ok(word)
}

// The first line, where no other has bytes.
fn only_line(text: &[u8]) -> Option<&[u8]>
    ensures { option_copied result ≡ only_line (lines_of text.now) }
{
    let Some((line, rest)) = cut(LINE_END, text) else {
        return Some(text);
    };
    if are_empty(rest) { Some(line) } else { None }
}

// Tests whether no line has bytes.
fn are_empty(text: &[u8]) -> bool
    ensures { result ≡ list_all is_empty (lines_of text.now) }
{
    text.split(|byte| *byte == LINE_END)
        .all(|line| line.is_empty())
}

// A line without the CR at its end.
fn without_cr(line: &[u8]) -> &[u8]
    ensures { result.now ≡ without_cr line.now }
{
    match line.strip_suffix(b"\r") {
        Some(word) => word,
        None => line,
    }
}
