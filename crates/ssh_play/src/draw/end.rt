//! The state of an end in a run.

ghost use Rattle.std.specs.Prelude.{◌≡◌, ◌+◌, ◌<◌, max};

use crate::draw::Result;
use std::alloc::Global;

/// The source of bytes that come to an end.
#[derive(Clone, Copy)]
pub enum Origin {
    /// They are the next ones that wait at the other end.
    Next,
    /// The other end put them out, the first of them after this many others. They come besides those that wait.
    Again { start: usize },
    /// Neither end put them out.
    Script,
}

/// A line or a packet that an end put out.
#[derive(Drop)]
pub(crate) struct Unit {
    /// The message's number, name and length, or `line` and its length.
    pub name: String,
    /// Where it begins and ends among all bytes that its end put out.
    pub start: usize,
    pub end: usize,
    /// In which row it was sent, and which of the labels shows it.
    pub row: usize,
    pub label: usize,
}

#[derive(Drop)]
pub(crate) struct End {
    pub alloc: Global,
    pub units: Vec<Unit>,
    /// All bytes that it put out.
    pub bytes: Vec<u8>,
    /// How many of them wait no longer.
    pub passed: usize,
    /// The bytes that came to it and were not read yet.
    pub unread: Vec<u8>,
    /// From where to where those of it that waited at the other end reach among all that this put out, and those that came besides.
    pub waited: Option<(usize, usize)>,
    pub again: Option<(usize, usize)>,
    /// Whether some of it is from neither end.
    pub is_given: bool,
    /// How many of the other end's bytes it read, or never will since others came for them.
    pub read: usize,
    /// How many rows are taken inside of its lifeline, and outside.
    inner: usize,
    outer: usize,
    /// The first row of each epoch of the packets that it sends.
    pub epochs: Vec<usize>,
    /// How many of its rows were taken when it died.
    pub death: Option<usize>,
}

// The bytes of a tag of `hmac-sha2-256`, which all scripts are played with.
const TAG: usize = 32;

impl End {
    /// An end that did nothing, with the keys of an epoch or with none.
    pub(crate) fn new(alloc: Global, is_epoch: bool) -> Result<End> {
        let mut epochs = Vec::new(alloc);
        if is_epoch {
            epochs.push(0)?;
        }
        Ok(End {
            alloc,
            units: Vec::new(alloc),
            bytes: Vec::new(alloc),
            passed: 0,
            unread: Vec::new(alloc),
            waited: None,
            again: None,
            is_given: false,
            read: 0,
            inner: 0,
            outer: 0,
            epochs,
            death: None,
        })
    }

    /// It sent a unit, whose bytes are put out already. A NEWKEYS begins an epoch below it (RFC 4253 section 7.3), except where the keys
    /// were given.
    pub(crate) fn send(&mut self, name: &str, row: usize, label: usize) -> Result<()> {
        let start = self.units.last().map_or(0, |unit| unit.end);
        let rest = self.bytes.as_slice().get(start..).unwrap_or(&[]);
        let size = size_of(rest, name.starts_with("line "), !self.epochs.is_empty());
        self.units.push(Unit {
            name: String::from_str(self.alloc, name)?,
            start,
            end: start.saturating_add(size).min(self.bytes.len()),
            row,
            label,
        })?;
        if name.starts_with("21 ") && self.epochs.first().copied() != Some(0) {
            self.epochs.push(row.saturating_add(1))?;
        }
        Ok(())
    }

    /// So many of the next bytes that wait do so no longer. Gives after how many others they were put out.
    pub(crate) fn pass(&mut self, count: usize) -> usize {
        let start = self.passed;
        self.passed = start.saturating_add(count).min(self.bytes.len());
        start
    }

    /// The units that have bytes from `start` to before `end`: the index of the first, and that after the last.
    pub(crate) fn touched(&self, start: usize, end: usize) -> (usize, usize) {
        let units = self.units.as_slice();
        let first = units.partition_point(|unit| unit.end <= start);
        (first, units.partition_point(|unit| unit.start < end))
    }

    /// More bytes came, of which the other end put out the first after `start` others.
    pub(crate) fn hear(&mut self, origin: Origin, start: usize, bytes: &[u8]) -> Result<()> {
        let end = start.saturating_add(bytes.len());
        match origin {
            Origin::Next => self.waited = Some((self.waited.map_or(start, |it| it.0), end)),
            Origin::Again { .. } => self.again = Some((self.again.map_or(start, |it| it.0), end)),
            Origin::Script => self.is_given = true,
        }
        self.unread.extend_from_slice(bytes)
    }

    /// The bytes that came are read.
    pub(crate) fn settle(&mut self) {
        if let Some((_, read)) = self.waited.take() {
            self.read = read;
        }
        self.again = None;
        self.is_given = false;
        self.unread.clear();
    }

    /// How many rows of its half are taken.
    pub(crate) fn rows(&self) -> usize {
        self.inner.max(self.outer)
    }

    /// The row of what it is asked, none above this one. What it does for that stands there too.
    pub(crate) fn row_of_ask(&mut self, least: usize) -> usize {
        let row = self.rows().max(least);
        self.inner = row;
        self.outer = row.saturating_add(1);
        row
    }

    /// The row of what it does, none above this one: below all that it did before.
    pub(crate) fn row_of_deed(&mut self, least: usize) -> usize
        ensures row { result ≡ max self.old.inner least }
        ensures taken { result < usize.MAX → self.new.inner ≡ result + 1 }
    {
        let row = self.inner.max(least);
        self.inner = row.saturating_add(1);
        row
    }

    /// The row of what it is told: that of what it did last, if nothing stands there, or else the next one.
    pub(crate) fn row_of_word(&mut self) -> usize {
        let row = self.outer.max(self.inner.saturating_sub(1));
        self.outer = row.saturating_add(1);
        self.inner = self.inner.max(self.outer);
        row
    }
}

// How many bytes the first of these units has: a line with its LF (RFC 4253 section 4.2), a packet with its length and tag (RFC 4253
// section 6).
fn size_of(bytes: &[u8], is_line: bool, is_sealed: bool) -> usize {
    if is_line {
        let before = bytes.iter().position(|byte| *byte == b'\n');
        return before.map_or(bytes.len(), |before| before.saturating_add(1));
    }
    let Some(length) = bytes.first_chunk::<4>() else {
        return bytes.len();
    };
    let tag = if is_sealed { TAG } else { 0 };
    (u32::from_be_bytes(*length) as usize).saturating_add(4 + tag)
}
