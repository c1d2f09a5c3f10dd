//! The units that come to an end of a run, and those that do not.

ghost use Rattle.std.specs.Prelude.{◌≡◌, false, true};
ghost use Rattle.ssh_play.specs.Arrivals.{Sent, arrow_from, word_for};

use crate::draw::Result;
use crate::draw::drawing::Drawing;
use crate::draw::end::End;
use crate::draw::places::Column;
use crate::draw::reading::{name_in, spelled};
use crate::draw::text::push_refusal;
use ssh_types::Side;

/// An arrow to a row of a side.
#[derive(Clone, Copy)]
pub(crate) struct Arrow {
    /// The row of the other side in which it begins. None if it begins in the network, since nobody sent the unit that it stands for.
    pub start: Option<usize>,
    pub to: Side,
    pub row: usize,
    /// The change to the unit that it stands for. If there was any, a text stands where it leaves the network.
    pub word: &'static str,
    /// How many characters that text has. The arrow goes on after them, if what it stands for came to its end.
    pub cells: usize,
    pub is_hot: bool,
}

/// The turn of an end on a unit that came to it.
#[derive(Clone, Copy)]
pub(crate) enum Outcome<'a> {
    /// It takes it as this.
    Taken(&'a str),
    /// It refuses it with this.
    Refused(&'a str),
    /// It is over, or waits for more.
    Unread,
}

/// A unit that came, next to the one that was sent.
#[derive(Clone, Copy)]
struct Reading {
    /// The change to it, if there was any.
    word: &'static str,
    /// Whether it came besides what waits.
    is_foreign: bool,
    /// The units that it is from: the index of the first, and that after the last.
    first: usize,
    last: usize,
}

impl Drawing {
    /// An end does this with what came to it.
    pub(crate) fn arrive(&mut self, to: Side, outcome: Outcome<'_>) -> Result<()> {
        let mut name = String::from_str(self.alloc, "to go on")?;
        if !self.end(to).unread.is_empty() {
            let mut reading = reading_of(self.end(to), self.end(to.peer()));
            if matches!(outcome, Outcome::Unread) {
                reading.word = "not read";
            }
            name = self.name_of(to, &reading, outcome)?;
            self.end_mut(to).settle();
            self.show(to, &reading, outcome, name.as_str())?;
        }
        if let Outcome::Refused(refusal) = outcome {
            let name = spelled(self.alloc, name.as_str())?;
            push_refusal(&mut self.verdict, to, name.as_str(), refusal)?;
        }
        Ok(())
    }

    /// So many of the next bytes that wait at an end are lost.
    ///
    /// # Errors
    ///
    /// Only if memory is refused.
    pub fn lose(&mut self, from: Side, count: usize) -> Result<()> {
        let start = self.end_mut(from).pass(count);
        let stop = self.end(from).passed;
        let (first, last) = self.end(from).touched(start, stop);
        // What was put out after the last byte that came is lost.
        let to = self.end(from.peer());
        let came = to.waited.map_or(to.read, |(_, end)| end);
        for first in first..last {
            let unit = self.end(from).units.get(first);
            if unit.is_some_and(|unit| unit.start >= came && unit.end <= stop) {
                let reading = Reading {
                    word: "lost",
                    is_foreign: false,
                    first,
                    last: first.saturating_add(1),
                };
                let name = self.name_of(from.peer(), &reading, Outcome::Unread)?;
                self.show(from.peer(), &reading, Outcome::Unread, name.as_str())?;
            }
        }
        Ok(())
    }

    // Shows in a row what came, or did not, and what was done to it.
    fn show(
        &mut self,
        to: Side,
        reading: &Reading,
        outcome: Outcome<'_>,
        name: &str,
    ) -> Result<()> {
        let row = self.row_of(to, reading);
        let (word, is_noted) = (reading.word, !reading.word.is_empty());
        let mut text = String::new(self.alloc);
        if is_noted {
            write!(text, "{word}: {name}")?;
            self.put(row, Column::Inner(to), true, text.as_str())?;
        }
        let arrow = Arrow {
            start: None,
            to,
            row,
            word,
            cells: text.len(),
            is_hot: is_noted || matches!(outcome, Outcome::Refused(_)),
        };
        self.draw_arrows(arrow, reading)
    }

    // What came is called as its first unit is, or else as what the end took it as, or as its bytes say.
    fn name_of(&self, to: Side, reading: &Reading, outcome: Outcome<'_>) -> Result<String> {
        match (self.end(to.peer()).units.get(reading.first), outcome) {
            (Some(unit), _) if reading.first < reading.last => unit.name.clone(),
            (_, Outcome::Taken(name)) => String::from_str(self.alloc, name),
            _ => name_in(self.alloc, self.end(to).unread.as_slice()),
        }
    }

    // An arrow for each unit, or one from the network.
    fn draw_arrows(&mut self, arrow: Arrow, reading: &Reading) -> Result<()> {
        if reading.is_foreign {
            self.arrows.push(arrow)?;
            return Ok(());
        }
        for index in reading.first..reading.last {
            let arrow = arrow_from(self.end(arrow.to.peer()), arrow, index);
            self.arrows.push(arrow)?;
        }
        Ok(())
    }

    // The row of a side to which something comes: none above those in which it was sent. What its peer did not send now has a row of that
    // one too.
    fn row_of(&mut self, to: Side, reading: &Reading) -> usize {
        let last = reading.last.saturating_sub(1);
        let least = match self.end(to.peer()).units.get(last) {
            Some(unit) if !reading.is_foreign => unit.row,
            _ => self.client.rows().max(self.server.rows()),
        };
        if reading.is_foreign {
            self.end_mut(to.peer()).row_of_deed(least);
        }
        self.end_mut(to).row_of_deed(least)
    }
}

// What came to an end and was not read yet, next to what the other one sent. What did not wait there is from a unit where it is all bytes
// of that.
fn reading_of(end: &End, sender: &End) -> Reading {
    let is_foreign = end.waited.is_none();
    let (start, stop) = end.waited.or(end.again).unwrap_or((0, 0));
    let (first, last) = sender.touched(start, stop);
    let unit = sender.units.get(first);
    let is_unit = unit.is_some_and(|unit| unit.start == start && unit.end == stop);
    let from = unit.map_or(start, |unit| unit.start.max(end.read));
    let is_again = end.again.is_some() && !end.is_given;
    Reading {
        word: word_for(
            end,
            has_sent(sender, from, end.unread.as_slice()),
            start >= sender.passed,
        ),
        is_foreign,
        first,
        last: if is_foreign && !(is_again && is_unit) {
            first
        } else {
            last
        },
    }
}

// The word for what came to an end and was not read yet.
fn word_for(end: &End, is_same: bool, is_early: bool) -> &'static str
    ensures { result.now ≡ word_for end.now.waited end.now.again end.now.is_given is_same is_early }
{
    match (end.waited, end.again) {
        (Some(_), _) => if is_same { "" } else { "changed" },
        (None, Some(_)) if !end.is_given => if is_early { "out of order" } else { "repeated" },
        _ => "injected",
    }
}

// Tests whether a side put out these bytes after this many others.
fn has_sent(sender: &End, before: usize, bytes: &[u8]) -> bool
    ensures sent { result ≡ true → Sent sender.now.bytes.items before bytes.now }
    ensures other { result ≡ false → Sent sender.now.bytes.items before bytes.now → ⊥ }
{
    let after = before.saturating_add(bytes.len());
    match sender.bytes.as_slice().get(before..after) {
        Some(sent) => sent == bytes,
        None => false,
    }
}

// The arrow from the row in which a unit of the sender was sent.
fn arrow_from(sender: &End, arrow: Arrow, index: usize) -> Arrow
    ensures { result ≡ arrow_from sender.now arrow index }
{
    let start = match sender.units.get(index) {
        Some(unit) => Some(unit.row),
        None => None,
    };
    Arrow { start, ..arrow }
}
