//! The words of a line.

ghost use Rattle.std.specs.Prelude.{◌≡◌};
ghost use Rattle.std.specs.List.{position};
ghost use Rattle.divrelca.specs.Keys.{is_key_type};
ghost use Rattle.divrelca.specs.Texts.{after_word, first_word, from_word, is_blank, is_word_byte, says_nothing, words_in, words_of};

/// The first four words of a line. The ones that are not there have no bytes.
#[derive(Clone, Copy)]
pub(crate) struct Words<'a> {
    pub first: &'a [u8],
    pub second: &'a [u8],
    pub third: &'a [u8],
    pub fourth: &'a [u8],
}

impl<'a> Words<'a> {
    /// The words of a line, which spaces and tabs part. A line that ends with CR and LF has the same words.
    #[tactic(auto, unfolding(crate::specs::Texts::words_of))]
    pub fn new(line: &'a [u8]) -> Words<'a>
        ensures { words_in result ≡ words_of line.now }
    {
        let (first, rest) = first_word(line);
        let (second, rest) = first_word(rest);
        let (third, rest) = first_word(rest);
        let (fourth, _) = first_word(rest);
        Words {
            first,
            second,
            third,
            fourth,
        }
    }

    /// Tests whether the line says nothing: it has no word, or the first one begins with `#`.
    pub fn are_none(&self) -> bool
        ensures { result ≡ says_nothing (words_in self.now) }
    {
        self.first.is_empty() || self.first.starts_with(b"#")
    }
}

// The first word of a line, and what stands after it.
#[tactic(auto, unfolding(crate::specs::Texts::first_word, crate::specs::Texts::after_word))]
fn first_word(line: &[u8]) -> (&[u8], &[u8])
    ensures word { result.0.now ≡ first_word line.now }
    ensures rest { result.1.now ≡ after_word line.now }
{
    let word = from_word(line);
    match blank_place(word) {
        Some(place) => word.split_at(place),
        None => (word, b""),
    }
}

// A line from its first word on.
#[tactic(auto, unfolding(crate::specs::Texts::from_word))]
fn from_word(line: &[u8]) -> &[u8]
    ensures { result.now ≡ from_word line.now }
{
    match word_place(line) {
        Some(place) => &line[place..],
        None => b"",
    }
}

fn blank_place(line: &[u8]) -> Option<usize>
    ensures { result ≡ position is_blank line.now }
{
    line.iter().position(|byte| is_blank(*byte))
}

fn word_place(line: &[u8]) -> Option<usize>
    ensures { result ≡ position is_word_byte line.now }
{
    line.iter().position(|byte| !is_blank(*byte))
}

fn is_blank(byte: u8) -> bool
    ensures { result ≡ is_blank byte }
{
    byte == b' ' || byte == b'\t' || byte == b'\r'
}

/// The name of the algorithm (RFC 8709 section 4).
pub(crate) const ED25519: &[u8] = b"ssh-ed25519";

/// Tests whether a word is the type of a key, as it stands before the key in a file.
pub(crate) fn is_key_type(word: &[u8]) -> bool
    ensures { result ≡ is_key_type word.now }
{
    word.starts_with(b"ssh-") || word.starts_with(b"ecdsa-") || word.starts_with(b"sk-")
}
