// The bytes of a whole number.

ghost use Rattle.std.specs.Prelude.{◌≡◌};
ghost use Rattle.ssh_types.specs.Digits.{is_canonical as passes_canonical, marked_bytes, starts_with_zero};

// A zero byte in front as a mark, and the bytes after it.
pub(crate) fn split_mark(bytes: &[u8]) -> (bool, &[u8])
    ensures whole { marked_bytes result.0 result.1.now ≡ bytes.now }
    ensures marked { result.0 ≡ starts_with_zero bytes.now }
{
    match bytes {
        [0, digits @ ..] => (true, digits),
        _ => (false, bytes),
    }
}

// No byte of the number can be left away.
pub(crate) fn is_canonical(marked: bool, digits: &[u8]) -> bool
    ensures { result ≡ passes_canonical marked digits.now }
{
    match digits {
        [] => !marked,
        [first, ..] if marked => *first >= 128,
        [first] => *first > 0,
        [first, second, ..] => *first > 0 && (*first < 255 || *second < 128),
    }
}
