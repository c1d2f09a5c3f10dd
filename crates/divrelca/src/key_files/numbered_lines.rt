//! The lines of a text with their numbers.

ghost use Rattle.std.specs.Prelude.{◌≡◌, ◌+◌, ◌<◌, ◌∷◌, ◌^◌, [], IfNone, IfSome, None, length};
ghost use Rattle.divrelca.specs.Texts.{lines_of, parts_in};

use crate::key_files::parts::{LINE_END, first_part};

/// Goes over the lines of a text, in order.
#[derive(Drop)]
pub(crate) struct NumberedLines<'a> {
    before: usize,
    rest: Option<&'a [u8]>,
    ghost fits: { before + length (parts_in 10 rest) < 2 ^ 64 },
}

impl<'a> NumberedLines<'a> {
    /// The lines of a text.
    #[tactic(auto, using(crate::proofs::Cuts::lines_fit))]
    pub fn new(text: &'a [u8]) -> NumberedLines<'a>
        ensures before { result.before ≡ 0 }
        ensures lines { parts_in 10 result.rest ≡ lines_of text.now }
    {
        NumberedLines {
            before: 0,
            rest: Some(text),
        }
    }

    /// The next line and its number, from 1.
    pub fn next_line(&mut self) -> Option<(usize, &'a [u8])>
        ensures number { IfSome result (λ line. line.0 ≡ self.old.before + 1) }
        ensures before { IfSome result (λ line. self.new.before ≡ self.old.before + 1) }
        ensures line { IfSome result (λ line. parts_in 10 self.old.rest ≡ line.1.now ∷ parts_in 10 self.new.rest) }
        ensures done { IfNone result (parts_in 10 self.old.rest ≡ []) }
        ensures over { IfNone result (self.new.rest ≡ None) }
    {
        let rest = self.rest?;
        let (line, after) = first_part(LINE_END, rest);
        let number = self.before + 1;
        *self = NumberedLines {
            before: number,
            rest: after,
        };
        Some((number, line))
    }
}
