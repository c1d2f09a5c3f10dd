//! The faults in the words of a line, or in digits.

ghost use Rattle.std.specs.Prelude.{◌≤◌};

use crate::form::{Form, Language};
use crate::shortened::Shortened;
use std::alloc::AllocError;
use thiserror::Error;

/// Why a word isn't pairs of hexadecimal digits.
#[derive(Clone, Copy, Debug, Error)]
pub enum HexFault {
    /// The number of digits.
    #[error("{0} digits are no pairs")]
    Odd(usize),
    /// The first byte that is no digit, counted from 1, and the text that begins there.
    #[error("byte {at}, {met:?}, is no hexadecimal digit")]
    Digit { at: usize, met: char },
}

impl HexFault {
    /// Why no bytes can be read from this word.
    pub fn of(word: &str) -> HexFault {
        match first_other(word, 16) {
            Some((at, met)) => HexFault::Digit { at, met },
            None => HexFault::Odd(word.len()),
        }
    }
}

// Which byte of a word, counted from 1, is the first that is no digit of this base, with the character that begins there.
fn first_other(word: &str, base: u32) -> Option<(usize, char)>
    requires { (2 ≤ base) × (base ≤ 36) }
{
    for (at, met) in word.char_indices() {
        if !met.is_digit(base) {
            return Some((at.saturating_add(1), met));
        }
    }
    None
}

/// The fault in the words of a line.
#[derive(Clone, Copy, Debug, Error)]
pub(crate) enum WordFault<'a> {
    /// A space at the line's begin or end, or two in a row.
    #[error("a space stands at an end of the line or after another: words are parted by one space")]
    EmptyWord,
    /// The keys are given again.
    #[error("\"epoch\" is met again: the keys are given once, in the first line")]
    SecondEpoch,
    /// The keys are given after a line of a session.
    #[error("\"epoch\" is met after another line: it stands in the first line or in none")]
    LateEpoch,
    /// A line of the setup after an event.
    #[error("{word:?} is met after an event: user, key, limit, strict and ext stand before the first", word = Shortened(*.0))]
    LateSetup(&'a str),
    /// The first word is of no line.
    #[error("no line begins with {word:?}: {known}", word = Shortened(*.met), known = .language.first_words())]
    UnknownForm { met: &'a str, language: Language },
    /// The word after the side is of no ask.
    #[error("{word:?} is no ask: service, none, password, probe, sign, rekey, open, confirm, refuse, data, extended, adjust, eof, close, request, reply, global, globalreply and disconnect are", word = Shortened(*.0))]
    UnknownAsk(&'a str),
    /// The number of words after the first is another one.
    #[error("{count} words follow the first: the line is written {written}", written = .form.shown())]
    Words { form: Form, count: usize },
    /// A fixed word is another one.
    #[error("{word:?} is met: the line is written {written}", word = Shortened(*.met), written = .form.shown())]
    Word { form: Form, met: &'a str },
    #[error("{word:?} is no side: a side is c or s", word = Shortened(*.0))]
    Side(&'a str),
    #[error("F and T are both {0:?}: they are the two different sides, c and s")]
    SameSide(&'a str),
    #[error("{0}: HEX is pairs of hexadecimal digits, or - for no bytes")]
    Hex(HexFault),
    #[error("{word:?} is no byte: BB is one pair of hexadecimal digits", word = Shortened(*.0))]
    Byte(&'a str),
    #[error("{0}: a key is 32 bytes, in 64 hexadecimal digits")]
    Key(HexFault),
    /// The number of digits.
    #[error("{0} digits are met: a key is 32 bytes, in 64 hexadecimal digits")]
    KeySize(usize),
    #[error("a payload has at least one byte")]
    EmptyPayload,
    #[error("byte {at}, {met:?}, is no decimal digit: a number is decimal digits")]
    Digit { at: usize, met: char },
    #[error("{word} is too large: a number is at most 4294967295", word = Shortened(*.0))]
    NumberTooLarge(&'a str),
    #[error("out of memory")]
    Memory(#[from(alloc)] AllocError),
}

impl<'a> WordFault<'a> {
    /// Why a word is no number, whatever its size.
    pub fn not_number(word: &'a str) -> WordFault<'a> {
        match first_other(word, 10) {
            Some((at, met)) => WordFault::Digit { at, met },
            None => WordFault::EmptyWord,
        }
    }

    /// Why a word is no key.
    pub fn not_key(word: &'a str) -> WordFault<'a> {
        match first_other(word, 16) {
            Some((at, met)) => WordFault::Key(HexFault::Digit { at, met }),
            None => WordFault::KeySize(word.len()),
        }
    }
}
