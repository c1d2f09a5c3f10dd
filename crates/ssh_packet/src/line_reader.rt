ghost use Rattle.std.specs.Prelude.{◌≡◌, ◌≢◌, ◌⊎◌, ◌<◌, ◌≤◌, ◌+◌, ◌++◌, ◌∷◌, [], true, false, length, take, drop, IfSome, None};
ghost use Rattle.std.specs.Borrow.{sem};
ghost use Rattle.std.specs.Io.BufRead.{Rests};
ghost use Rattle.std.specs.Option.{option_copied};
ghost use Rattle.ssh_model.specs.Protocol.Wire.Line.{IsText};
ghost use Rattle.ssh_model.specs.Laws.Units.{IsPartialLine};
ghost use Rattle.ssh_packet.specs.Lines.{cleared, no_lines, version_in, with_cr};
ghost use Rattle.ssh_packet.specs.LineSteps.{EndsSo, IsByteKind, Shows, ShowsVersion};

use crate::limits::LONGEST_LINE;
use crate::refusal::LineRefusal;
use crate::version::{LineKind, judge};
use std::marker::Model;

/// The result of one call of `LineReader::take`.
#[derive(Clone, Copy, Debug, PartialEq, Eq)]
pub enum LineStep<'a> {
    /// A whole line that doesn't begin with `SSH-`. The next line may come.
    Other,
    /// The version line. The reader shows the same from now on.
    Version {
        /// The version of the protocol: `2.0`, or `1.99` of a server.
        protoversion: &'a [u8],
        /// All text after the second minus, without CR LF: the version of the software and, after a space, the
        /// comments if there are any.
        software: &'a [u8],
    },
    /// No whole line yet. All bytes of the call were used.
    More,
    /// The bytes are no line that may come. The reader refuses the same from now on.
    Refused(LineRefusal),
}

// The result with which a reader ended; for a version line, with the place of its second minus.
#[derive(Clone, Copy)]
enum Verdict {
    Version(usize),
    Refused(LineRefusal),
}

// The kind of a byte after a partial line.
enum ByteKind {
    Text,
    Return,
    End(LineKind),
}

// The result of a reader that had not ended.
enum Found {
    More,
    Other,
    Ended,
}

/// Reads the lines that come before the first packet (RFC 4253 section 4.2) from a stream in any pieces: other lines of
/// a server, and the version line. It keeps the text of a partial line in an array of 255 bytes, and takes no memory.
#[derive(Drop)]
pub struct LineReader {
    from_server: bool,
    others: usize,
    line: [u8; LONGEST_LINE],
    filled: usize,
    // How many bytes of `line` are the text of the other line that the last call took.
    text: usize,
    after_cr: bool,
    ended: Option<Verdict>,
}

impl Model for LineReader {
    ghost use Rattle.std.specs.Prelude.{◌≡◌, ◌≤◌, take, length};
    ghost use Rattle.ssh_model.specs.Protocol.Bounds.{most_other_lines};
    ghost use Rattle.ssh_packet.specs.Lines.{LineReading, buffered_by, ended_by, IsKept};

    ghost Value = { LineReading };

    ghost view = { λ r. record {
      from_server = r.from_server;
      others = r.others;
      text = take r.text r.line;
      buffered = buffered_by r.ended r.after_cr (take r.filled r.line);
      ended = ended_by r.ended (take r.filled r.line);
    } };

    ghost invariant = { λ r. (length r.line ≡ 255) × (r.filled ≤ 255) × (r.text ≤ 255) × (r.others ≤ most_other_lines)
        × IsKept r.ended r.after_cr r.filled r.line };
}

impl LineReader {
    ghost use Rattle.ssh_packet.specs.LineSteps.{Finds, Takes};
    ghost use Rattle.ssh_packet.specs.contracts.line_reader.LineReader.{the_row};

    /// A reader before its first byte, for the lines of a server or of a client. It takes no memory.
    pub fn new(from_server: bool) -> LineReader
        ensures { result ≡ no_lines from_server }
    {
        LineReader {
            from_server,
            others: 0,
            line: [0; LONGEST_LINE],
            filled: 0,
            text: 0,
            after_cr: false,
            ended: None,
        }
    }

    /// Takes bytes to the end of one line and no further. It answers how many bytes it used, and what they were. No call needs memory.
    ///
    /// A line has at most 255 bytes with CR LF. A bad line is refused at its bad byte. That is a byte 0, an LF without
    /// CR before it, a byte other than LF after CR, or a 255th byte that is not the LF of that line. A whole line that
    /// begins with `SSH-` is the version line. Three things are tested in order: that it has a second minus
    /// (`BadLine`), that the version of the protocol is taken (`BadVersion`), and that the version of the software is
    /// well formed (`BadLine`). A server may send 64 other lines before it, a client none.
    ///
    /// After `Version` and `Refused` the reader always answers the same, and uses nothing.
    pub fn take<'a>(&'a mut self, bytes: &[u8]) -> (usize, LineStep<'a>)
        ensures used { result.0 ≤ length bytes.now }
        ensures progress { self.old.ended ≡ None → 0 < length bytes.now → 0 < result.0 }
        ensures more { result.1 ≡ LineStep.More → result.0 ≡ length bytes.now }
        ensures* found { sem 𝓛 (Rests the_row self.entry (λ new. Takes self.old bytes.now result.0 result.1 new)) }
    {
        if self.ended.is_some() {
            return (0, self.shown());
        }
        self.clear();
        let (used, found) = self.advance(bytes);
        match found {
            Found::More => (used, LineStep::More),
            Found::Other => (used, LineStep::Other),
            Found::Ended => (used, self.shown()),
        }
    }

    /// The text of the line that the last call answered by `LineStep::Other`, without CR LF, at most 253 bytes. It is empty if the call
    /// answered another step.
    pub fn other_line(&self) -> &[u8]
        ensures { result.now ≡ self.now.text }
    {
        &self.line[..self.text]
    }

    /// The text of the version line without CR LF, at most 253 bytes, after that line was taken.
    pub fn version_line(&self) -> Option<&[u8]>
        ensures text { option_copied result ≡ version_in self.now.ended }
        ensures most { IfSome (version_in self.now.ended) (λ text. length text ≤ 253) }
    {
        match self.ended {
            Some(Verdict::Version(_)) => Some(&self.line[..self.filled]),
            _ => None,
        }
    }

    // No line is shown any more.
    fn clear(&mut self)
        ensures { self.new ≡ cleared self.old }
    {
        self.text = 0;
    }

    // Takes bytes to the end of one line, byte by byte.
    fn advance(&mut self, bytes: &[u8]) -> (usize, Found)
        // What the caller must ensure.
        requires going { self.old.ended ≡ None }
        requires clear { self.old.text ≡ [] }
        requires buffered { IsPartialLine self.old.buffered }
        // What it does.
        ensures used { result.0 ≤ length bytes.now }
        ensures progress { 0 < length bytes.now → 0 < result.0 }
        ensures more { result.1 ≡ Found.More → result.0 ≡ length bytes.now }
        ensures found { Finds self.old (self.old.buffered ++ take result.0 bytes.now) result.1 self.new }
    {
        for (i, byte) in bytes.iter().enumerate() {
            match self.step(*byte) {
                Found::More => {}
                found => return (i + 1, found),
            }
        }
        (bytes.len(), Found::More)
    }

    // Takes one byte.
    fn step(&mut self, byte: u8) -> Found
        requires going { self.old.ended ≡ None }
        requires clear { self.old.text ≡ [] }
        ensures { Finds self.old (self.old.buffered ++ byte ∷ []) result self.new }
    {
        let text = &self.line[..self.filled];
        match byte_kind(self.from_server, self.others, text, self.after_cr, byte) {
            ByteKind::Text => {
                self.text = 0;
                self.line[self.filled] = byte;
                self.filled += 1;
                Found::More
            }
            ByteKind::Return => {
                self.after_cr = true;
                Found::More
            }
            ByteKind::End(LineKind::Other) => {
                self.others += 1;
                self.text = self.filled;
                self.filled = 0;
                self.after_cr = false;
                Found::Other
            }
            ByteKind::End(LineKind::Version(minus)) => {
                self.ended = Some(Verdict::Version(minus));
                Found::Ended
            }
            ByteKind::End(LineKind::Refused(refusal)) => {
                self.ended = Some(Verdict::Refused(refusal));
                Found::Ended
            }
        }
    }

    // Shows the result with which the reader ended.
    fn shown(&self) -> LineStep<'_>
        ensures { IfSome self.now.ended (λ ended. Shows ended result) }
    {
        match self.ended {
            Some(Verdict::Version(minus)) => parts_at(&self.line[..self.filled], minus),
            Some(Verdict::Refused(refusal)) => LineStep::Refused(refusal),
            None => LineStep::More,
        }
    }
}

// The two texts of a version line whose second minus stands there.
fn parts_at(text: &[u8], minus: usize) -> LineStep<'_>
    requires from { 4 ≤ minus }
    requires to { minus < length text.now }
    ensures { ShowsVersion (drop 4 (take minus text.now)) (drop (minus + 1) text.now) result }
{
    LineStep::Version {
        protoversion: &text[4..minus],
        software: &text[minus + 1..],
    }
}

// The kind of a byte after this text of a line, and after CR if that was read.
fn byte_kind(from_server: bool, others: usize, text: &[u8], after_cr: bool, byte: u8) -> ByteKind
    requires is_text { IsText text.now }
    requires room { length (with_cr after_cr text.now) < 255 }
    ensures { IsByteKind from_server others text.now after_cr byte result }
{
    if after_cr {
        return ByteKind::End(last_kind(from_server, others, text, byte));
    }
    if is_bad(text, byte) {
        return ByteKind::End(LineKind::Refused(LineRefusal::BadLine));
    }
    if byte == b'\r' {
        ByteKind::Return
    } else {
        ByteKind::Text
    }
}

// The byte can't stand after this text in a line: a line has no byte 0, an LF only after CR, and room for LF.
fn is_bad(text: &[u8], byte: u8) -> bool
    ensures bad { result ≡ true → (byte ≡ 0) ⊎ ((byte ≡ 10) ⊎ (length text.now ≡ 254)) }
    ensures good { result ≡ false → (byte ≢ 0) × (byte ≢ 10) × (length text.now ≢ 254) }
{
    byte == 0 || byte == b'\n' || text.len() == LONGEST_LINE - 1
}

// The kind of the byte after CR, for a line of this text.
fn last_kind(from_server: bool, others: usize, text: &[u8], byte: u8) -> LineKind
    requires is_text { IsText text.now }
    requires room { length text.now < 254 }
    ensures { EndsSo from_server others text.now (text.now ++ 13 ∷ byte ∷ []) result }
{
    if byte == b'\n' {
        judge(from_server, others, text)
    } else {
        LineKind::Refused(LineRefusal::BadLine)
    }
}
