//! The parts of a text between bytes that end them, its lines among them.

ghost use Rattle.std.specs.Prelude.{◌≡◌, ◌<◌, ◌^◌, [], ◌∷◌, IfNone, IfSome, length};
ghost use Rattle.std.specs.List.{position};
ghost use Rattle.divrelca.specs.Texts.{is_end, parts_in, parts_of};

/// What ends a line: LF.
pub(crate) const LINE_END: u8 = b'\n';

/// Goes over the parts of a text, in order. There is one more than there are bytes that end one.
#[derive(Drop)]
pub(crate) struct Parts<'a> {
    end: u8,
    rest: Option<&'a [u8]>,
}

impl<'a> Parts<'a> {
    ghost use Rattle.divrelca.specs.Texts.{parts_left};

    /// The parts of a text, each of which this byte ends.
    #[tactic(auto, using(crate::proofs::Cuts::parts_fit))]
    pub fn new(end: u8, text: &'a [u8]) -> Parts<'a>
        ensures parts { parts_left result ≡ parts_of end text.now }
        ensures fits { length (parts_of end text.now) < 2 ^ 64 }
    {
        Parts {
            end,
            rest: Some(text),
        }
    }
}

impl<'a> Iterator for Parts<'a> {
    ghost use Rattle.std.specs.Iterator.{YieldsFirstRef, item_count};
    ghost use Rattle.divrelca.specs.Texts.{parts_left};

    type Item = &'a [u8];

    ghost next_gives = { YieldsFirstRef parts_left };

    ghost remaining = { item_count parts_left };

    fn next(&mut self) -> Option<&'a [u8]> {
        let rest = self.rest?;
        let (part, after) = first_part(self.end, rest);
        self.rest = after;
        Some(part)
    }
}

/// The first part, and what stands after the byte that ends it, where there is one.
pub(crate) fn first_part(end: u8, text: &[u8]) -> (&[u8], Option<&[u8]>)
    ensures { parts_of end text.now ≡ result.0.now ∷ parts_in end result.1 }
{
    match cut(end, text) {
        Some((part, rest)) => (part, Some(rest)),
        None => (text, None),
    }
}

/// What stands before the first byte that ends a part, and what stands after it.
#[tactic(auto, using(crate::proofs::Cuts::cut_at, crate::proofs::Cuts::uncut))]
pub(crate) fn cut(end: u8, text: &[u8]) -> Option<(&[u8], &[u8])>
    ensures found { IfSome result (λ parts. parts_of end text.now ≡ parts.0.now ∷ parts_of end parts.1.now) }
    ensures none { IfNone result (parts_of end text.now ≡ text.now ∷ []) }
{
    let place = place_of(end, text)?;
    Some((&text[..place], &text[place + 1..]))
}

fn place_of(end: u8, text: &[u8]) -> Option<usize>
    ensures { result ≡ position (is_end end) text.now }
{
    text.iter().position(|byte| *byte == end)
}
