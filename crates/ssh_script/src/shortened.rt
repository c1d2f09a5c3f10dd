//! Words as a message repeats them.

ghost use Rattle.std.specs.Prelude.{◌≡◌, ◌≤◌, length};

use std::fmt;
use std::fmt::{Debug, Display, Formatter};

// A message repeats at most so many bytes of a word.
const MOST: usize = 200;

/// A word as a message repeats it: whole, or of a longer one the first 200 bytes at most and how many it has. Between double quotes where
/// it is debugged.
#[derive(Clone, Copy)]
pub struct Shortened<'a>(pub &'a str);

impl Display for Shortened<'_> {
    fn fmt<W: fmt::Write>(&self, out: &mut Formatter<W>) -> fmt::Result {
        let (front, count) = (front_of(self.0), self.0.len());
        if count <= MOST {
            write!(out, "{front}")
        } else {
            write!(out, "{front}.. ({count} bytes)")
        }
    }
}

impl Debug for Shortened<'_> {
    fn fmt<W: fmt::Write>(&self, out: &mut Formatter<W>) -> fmt::Result {
        let (front, count) = (front_of(self.0), self.0.len());
        if count <= MOST {
            write!(out, "{front:?}")
        } else {
            write!(out, "{front:?}.. ({count} bytes)")
        }
    }
}

// What a message repeats of a word.
fn front_of(word: &str) -> &str
    ensures short { length result.now ≤ 200 }
    ensures whole { length word.now ≤ 200 → result.now ≡ word.now }
{
    if word.len() <= MOST {
        return word;
    }
    // A character has four bytes at most.
    for cut in 0..4 {
        if let Some(front) = word.get(..MOST - cut) {
            return front;
        }
    }
    ""
}
