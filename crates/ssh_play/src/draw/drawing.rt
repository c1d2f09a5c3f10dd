//! A run of two ends, row by row.

ghost use Rattle.std.specs.Prelude.{OnOk};
ghost use Rattle.ssh_play.specs.Texts.{Puts};

use crate::draw::Result;
use crate::draw::arrivals::{Arrow, Outcome};
use crate::draw::end::{End, Origin};
use crate::draw::places::Column;
use crate::draw::sheet::picture_of;
use crate::draw::text::Label;
use ssh_types::Side;
use std::alloc::Global;

/// A run as far as it has come, in rows. A program says what happens, with the lines of the transcript.
#[derive(Drop)]
pub struct Drawing {
    pub(crate) alloc: Global,
    pub(crate) client: End,
    pub(crate) server: End,
    pub(crate) labels: Vec<Label>,
    pub(crate) arrows: Vec<Arrow>,
    /// A sentence for each refusal. In the end one that there was none.
    pub(crate) verdict: String,
}

impl Drawing {
    /// A run in which nothing happened: of a whole session, or of one epoch, whose keys are given.
    ///
    /// # Errors
    ///
    /// Only if memory is refused.
    pub fn new(alloc: Global, is_epoch: bool) -> Result<Drawing> {
        Ok(Drawing {
            alloc,
            client: End::new(alloc, is_epoch)?,
            server: End::new(alloc, is_epoch)?,
            labels: Vec::new(alloc),
            arrows: Vec::new(alloc),
            verdict: String::new(alloc),
        })
    }

    /// Bytes come to an end.
    ///
    /// # Errors
    ///
    /// Only if memory is refused.
    pub fn come(&mut self, to: Side, origin: Origin, bytes: &[u8]) -> Result<()> {
        let start = match origin {
            Origin::Next => self.end_mut(to.peer()).pass(bytes.len()),
            Origin::Again { start } => start,
            Origin::Script => 0,
        };
        self.end_mut(to).hear(origin, start, bytes)
    }

    /// At what happened last the ends do what these lines of the transcript say, each with LF after it, and put out these bytes.
    ///
    /// # Errors
    ///
    /// Only if memory is refused.
    pub fn act(&mut self, lines: &str, client_bytes: &[u8], server_bytes: &[u8]) -> Result<()> {
        self.client.bytes.extend_from_slice(client_bytes)?;
        self.server.bytes.extend_from_slice(server_bytes)?;
        for line in lines.split('\n') {
            if let Some(deed) = line.strip_prefix("c ") {
                self.note(Side::Client, deed)?;
            } else if let Some(deed) = line.strip_prefix("s ") {
                self.note(Side::Server, deed)?;
            }
        }
        Ok(())
    }

    /// Tests whether an end refused the other, or found its own numbers spent.
    pub fn has_refusal(&self) -> bool {
        !self.verdict.is_empty()
    }

    /// The run is over: draws it as an SVG, an image 860 pixels wide and at most 1,400 high, for a light or a dark ground. It is called
    /// `name`.
    ///
    /// # Errors
    ///
    /// Only if memory is refused.
    pub fn finish(mut self, name: &str) -> Result<String> {
        for side in [Side::Client, Side::Server] {
            self.arrive(side, Outcome::Unread)?;
        }
        let run = &mut self;
        note_waiting(&run.client, &mut run.labels)?;
        note_waiting(&run.server, &mut run.labels)?;
        if self.verdict.is_empty() {
            self.verdict.push_str("Neither end refused the other. ")?;
        }
        let rows = self.fold()?;
        picture_of(&self, name, rows)
    }

    pub(crate) fn end(&self, side: Side) -> &End {
        match side {
            Side::Client => &self.client,
            Side::Server => &self.server,
        }
    }

    pub(crate) fn end_mut(&mut self, side: Side) -> &mut End {
        match side {
            Side::Client => &mut self.client,
            Side::Server => &mut self.server,
        }
    }

    // What an end did, in the words of the transcript. What its user asks stands as low as what the other end did before.
    fn note(&mut self, side: Side, deed: &str) -> Result<()> {
        match deed.split_once(' ') {
            Some(("asked", _)) => {
                let least = self.end(side.peer()).rows().saturating_sub(1);
                let row = self.end_mut(side).row_of_ask(least);
                self.put(row, Column::Outer(side), false, deed)
            }
            Some(("told", _)) | Some(("ask", _)) => self.tell(side, false, deed),
            Some(("sent", name)) => {
                let label = self.labels.len();
                let row = self.end_mut(side).row_of_deed(0);
                self.end_mut(side).send(name, row, label)?;
                self.put(row, Column::Inner(side), false, name)
            }
            Some(("took", name)) => self.arrive(side, Outcome::Taken(name)),
            Some(("refused", refusal)) => {
                self.arrive(side, Outcome::Refused(refusal))?;
                self.tell(side, true, deed)
            }
            _ => {
                let end = self.end_mut(side);
                end.death = Some(end.rows());
                Ok(())
            }
        }
    }

    fn tell(&mut self, side: Side, is_hot: bool, text: &str) -> Result<()> {
        let row = self.end_mut(side).row_of_word();
        self.put(row, Column::Outer(side), is_hot, text)
    }

    /// Puts a text into a row.
    pub(crate) fn put(&mut self, row: usize, column: Column, is_hot: bool, text: &str) -> Result<()>
        ensures { OnOk result (Puts self.old.labels.items self.new.labels.items row column is_hot text.now) }
    {
        let text = String::from_str(self.alloc, text)?;
        self.labels.push(Label {
            row,
            column,
            is_hot,
            text,
        })?;
        Ok(())
    }
}

// What an end sent and still waits is shown so.
fn note_waiting(end: &End, labels: &mut Vec<Label>) -> Result<()> {
    for unit in end.units.iter() {
        if unit.end > end.passed
            && let Some(label) = labels.get_mut(unit.label)
        {
            label.text.clear();
            write!(label.text, "waits: {}", unit.name)?;
        }
    }
    Ok(())
}
