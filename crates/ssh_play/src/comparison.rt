//! The lines of a transcript next to those that a script expects.

ghost use Rattle.std.specs.Prelude.{◌≡◌, ◌≢◌, ◌++◌, ◌∷◌, IfNone, IfSome, List, ℕ};
ghost use Rattle.ssh_play.specs.Comparing.{Compares};

use std::fmt;

/// The result of comparing a transcript with the expected lines.
#[derive(Clone, Copy)]
pub enum Comparison {
    /// The same, with this many lines.
    Same(usize),
    /// This line, from 1, is the first that differs, or that one of the two lacks.
    DiffersAt(usize),
}

impl fmt::Display for Comparison {
    fn fmt<W: fmt::Write>(&self, f: &mut fmt::Formatter<W>) -> fmt::Result {
        match self {
            Comparison::Same(count) => write!(f, "ok {count}"),
            Comparison::DiffersAt(line) => write!(f, "differs at {line}"),
        }
    }
}

/// Compares a transcript, whose lines each end with LF, with expected lines.
pub fn compare(lines: &str, expected: &[String]) -> Comparison
    ensures { Compares lines.now expected.now result }
{
    let mut rest = lines.as_bytes();
    for (index, line) in expected.iter().enumerate() {
        let Some(after) = after_line(rest, line.as_bytes()) else {
            return Comparison::DiffersAt(index + 1);
        };
        rest = after;
    }
    if rest.is_empty() {
        Comparison::Same(expected.len())
    } else {
        Comparison::DiffersAt(expected.len() + 1)
    }
}

// What stands after this line and its LF, where the text begins with them.
fn after_line<'a>(text: &'a [u8], line: &[u8]) -> Option<&'a [u8]>
    ensures found { IfSome result (λ rest. text.now ≡ line.now ++ (10 ∷ rest.now)) }
    ensures none { IfNone result ((rest : List ℕ) → text.now ≢ line.now ++ (10 ∷ rest)) }
{
    let Some(rest) = after(text, line) else {
        return None;
    };
    after(rest, b"\n")
}

// What stands after these bytes, where the text begins with them.
fn after<'a>(text: &'a [u8], front: &[u8]) -> Option<&'a [u8]>
    ensures found { IfSome result (λ rest. text.now ≡ front.now ++ rest.now) }
    ensures none { IfNone result ((rest : List ℕ) → text.now ≢ front.now ++ rest) }
{
    text.strip_prefix(front)
}
