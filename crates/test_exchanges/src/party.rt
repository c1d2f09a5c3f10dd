//! One end with all bytes that it put out, and the text of its turns.

use crate::transcript::Transcript;
use ssh_kex::OwnedChoice;
use ssh_toys::ToyTransport;
use ssh_toys::lines::{Problem, bytes_of, digits_of, shown, text_of};
use ssh_transport::{AskTurn, Handled, Settings, TransportAsk, TransportFault, TransportTurn};
use ssh_types::Side;
use std::alloc::{AllocError, Global};
use std::fmt::Display;

/// An end, with the bytes that it put out and the payloads that it sent.
#[derive(Drop)]
pub struct Party {
    alloc: Global,
    end: ToyTransport,
    text: Transcript,
    // All bytes that it put out, of which the first so many were passed or dropped.
    out: Vec<u8>,
    passed: usize,
    // All payloads that it sent, of which the first so many are in a text.
    sent: Vec<Vec<u8>>,
    shown: usize,
    // How many bytes it took of a partial line or packet, and how many exchanges it completed.
    begun: usize,
    completed: u64,
    chosen: Option<OwnedChoice>,
    // It is told that it died.
    is_over: bool,
    // How it stood when it was marked last.
    marked: Option<Standing>,
}

// How an end stands.
#[derive(Clone, Copy, PartialEq, Eq)]
struct Standing {
    numbers: (u64, u64),
    epochs: (u32, u32),
    is_blocked: bool,
    size: usize,
}

impl Party {
    /// An end of these settings, which has put out its line and its KEXINIT.
    ///
    /// # Errors
    ///
    /// Only if memory is refused.
    pub fn new(alloc: Global, side: Side, settings: &Settings<'_>) -> Result<Party, AllocError> {
        let mut out = Vec::new(alloc);
        let mut sent = Vec::new(alloc);
        let end = ToyTransport::new(alloc, side, settings, &mut out, &mut sent)?;
        let shown = sent.as_slice().len();
        Ok(Party {
            alloc,
            end,
            text: Transcript::new(alloc, side),
            out,
            passed: 0,
            sent,
            shown,
            begun: 0,
            completed: 0,
            chosen: None,
            is_over: false,
            marked: None,
        })
    }

    /// The end.
    pub fn end(&self) -> &ToyTransport {
        &self.end
    }

    /// The payload with this place among those of its number that it sent.
    pub fn sent_of(&self, number: u8, place: usize) -> Option<&[u8]> {
        let mut before = 0;
        for payload in self.sent.as_slice() {
            if payload.first() == Some(&number) {
                if before == place {
                    return Some(payload.as_slice());
                }
                before = usize::saturating_add(before, 1);
            }
        }
        None
    }

    /// The next waiting bytes, this many, or all if there are fewer. They wait no longer.
    ///
    /// # Errors
    ///
    /// Only if memory is refused.
    pub fn next(&mut self, count: usize) -> Result<Vec<u8>, AllocError> {
        let waiting = self.out.as_slice().get(self.passed..).unwrap_or(&[]);
        let next = waiting.get(..count).unwrap_or(waiting).to_vec(self.alloc)?;
        self.passed = self.passed.saturating_add(next.len());
        Ok(next)
    }

    /// So many of all bytes that it put out, from this one on.
    ///
    /// # Errors
    ///
    /// Only if memory is refused.
    pub fn again(&self, start: usize, count: usize) -> Result<Vec<u8>, AllocError> {
        let rest = self.out.as_slice().get(start..).unwrap_or(&[]);
        rest.get(..count).unwrap_or(rest).to_vec(self.alloc)
    }

    /// It takes bytes, line by line and packet by packet.
    ///
    /// # Errors
    ///
    /// Only if memory is refused.
    pub fn deliver(&mut self, bytes: &[u8]) -> Result<(), AllocError> {
        let mut rest = bytes;
        for _ in 0..bytes.len() {
            if rest.is_empty() || self.is_over {
                break;
            }
            let (used, turn) = self.end.take(rest, &mut self.out, &mut self.sent);
            self.begun = self.begun.saturating_add(used);
            rest = rest.get(used..).unwrap_or(&[]);
            match turn {
                Ok(TransportTurn::More) => {}
                Ok(turn) => self.note_turn(turn)?,
                Err(fault) => self.note_fault(fault)?,
            }
        }
        Ok(())
    }

    /// It takes bytes, and all that it did is given.
    ///
    /// # Errors
    ///
    /// Only if memory is refused.
    pub fn delivered(&mut self, bytes: &[u8]) -> Result<String, AllocError> {
        self.deliver(bytes)?;
        self.text.give()
    }

    // What it did with a line or a packet.
    fn note_turn(&mut self, turn: TransportTurn) -> Result<(), AllocError> {
        let begun = self.begun;
        self.begun = 0;
        match turn {
            TransportTurn::More => Ok(()),
            TransportTurn::Done(Handled::OtherLine) | TransportTurn::Done(Handled::VersionLine) => {
                self.text
                    .note_number("took line", begun.saturating_sub(2) as u64)
            }
            TransportTurn::Done(effect) => {
                self.text.note_payload("took", self.end.payload())?;
                self.note_sent()?;
                self.text.note_effect(effect, self.end.payload())?;
                self.note_death()
            }
            TransportTurn::Up(number) => {
                self.text.note_payload("took", self.end.payload())?;
                self.text.note_number("up", number as u64)
            }
            TransportTurn::Completed(choice) => {
                self.chosen = Some(*choice);
                self.completed = self.completed.saturating_add(1);
                self.text.note_payload("took", self.end.payload())?;
                self.note_sent()?;
                self.text.note_number("told completed", self.completed)
            }
            TransportTurn::Refused(why) => {
                self.text.note_refusal("refused", why.number(), why.name())?;
                self.note_sent()?;
                self.note_death()
            }
        }
    }

    // What it sent.
    fn note_sent(&mut self) -> Result<(), AllocError> {
        for payload in self.sent.as_slice().get(self.shown..).unwrap_or(&[]) {
            self.text.note_payload("sent", payload.as_slice())?;
        }
        self.shown = self.sent.as_slice().len();
        Ok(())
    }

    // That it is over, where it is.
    fn note_death(&mut self) -> Result<(), AllocError> {
        if self.is_over || !self.end.is_dead() {
            return Ok(());
        }
        self.is_over = true;
        self.text.note("died")
    }

    // That it did nothing.
    fn note_fault(&mut self, fault: TransportFault) -> Result<(), AllocError> {
        match fault {
            TransportFault::Memory => self.note_death(),
            TransportFault::Dead => Ok(()),
        }
    }

    /// The results of the word after the side, and of the words after that.
    ///
    /// # Errors
    ///
    /// `Problem` if they are none, and want of memory.
    pub fn said_to(&mut self, word: &str, rest: &str) -> Result<String, Problem> {
        match word {
            "give" | "ask" | "disconnect" | "send" | "feed" | "authenticated" | "mark" => {
                self.act(word, rest)?;
                Ok(self.text.give()?)
            }
            "calls" => {
                let bytes = bytes_of(self.alloc, rest)?;
                Ok(self.calls(&bytes)?)
            }
            _ => self.shown(word),
        }
    }

    // Does what a word says that it does.
    fn act(&mut self, word: &str, rest: &str) -> Result<(), Problem> {
        match (word, rest) {
            ("give", digits) => {
                let bytes = bytes_of(self.alloc, digits)?;
                self.deliver(&bytes)?;
            }
            ("ask", "service") => self.ask(TransportAsk::Service, "asked service")?,
            ("ask", "rekey") => self.ask(TransportAsk::Rekey, "asked rekey")?,
            ("disconnect", why) => {
                self.ask(TransportAsk::Disconnect(why.as_bytes()), "asked disconnect")?
            }
            ("send", digits) => {
                let payload = bytes_of(self.alloc, digits)?;
                self.send(payload)?;
            }
            ("feed", digits) => {
                let bytes = bytes_of(self.alloc, digits)?;
                self.feed(bytes.first().copied().unwrap_or(0))?;
            }
            ("authenticated", "") => self.end.authenticated(),
            ("mark", "") => self.marked = Some(self.standing()),
            _ => return Err(Problem::NotALine),
        }
        Ok(())
    }

    // It is asked for something.
    fn ask(&mut self, ask: TransportAsk<'_>, what: &str) -> Result<(), AllocError> {
        match self.end.ask(ask, &mut self.out, &mut self.sent) {
            Ok(turn) => {
                self.text.note(what)?;
                self.note_ask(turn)
            }
            Err(fault) => self.note_fault(fault),
        }
    }

    // What it did on an ask.
    fn note_ask(&mut self, turn: AskTurn) -> Result<(), AllocError> {
        match turn {
            AskTurn::Refused(why) => {
                self.text
                    .note_refusal("ask refused", why.number(), why.name())
            }
            AskTurn::Answered(_) => {
                self.note_sent()?;
                self.note_death()
            }
        }
    }

    // It is asked to send this payload for a layer above.
    fn send(&mut self, payload: Vec<u8>) -> Result<(), AllocError> {
        match self.end.send(payload, &mut self.out, &mut self.sent) {
            Ok(None) => self.text.note("asked to send what it can't"),
            Ok(Some(answer)) => {
                self.text.note("asked send")?;
                self.note_ask(AskTurn::Answered(answer))
            }
            Err(fault) => self.note_fault(fault),
        }
    }

    // It is fed a cookie and a secret of this byte alone.
    fn feed(&mut self, byte: u8) -> Result<(), AllocError> {
        if self.end.feed_material([byte; 16], [byte; 32]) {
            return Ok(());
        }
        self.text.note("not fed")
    }

    // How many bytes each call uses of these, to the call that uses none.
    fn calls(&mut self, bytes: &[u8]) -> Result<String, AllocError> {
        let mut sizes = String::new(self.alloc);
        let mut rest = bytes;
        for _ in 0..=bytes.len() {
            let (used, turn) = self.end.take(rest, &mut self.out, &mut self.sent);
            if turn.is_err() {
                break;
            }
            if !sizes.is_empty() {
                sizes.push(' ')?;
            }
            write!(sizes, "{used}")?;
            if used == 0 {
                break;
            }
            rest = rest.get(used..).unwrap_or(&[]);
        }
        Ok(sizes)
    }

    fn standing(&self) -> Standing {
        Standing {
            numbers: self.end.numbers(),
            epochs: self.end.epochs(),
            is_blocked: self.end.blocked(),
            size: self.out.len(),
        }
    }

    // What it shows for a word.
    fn shown(&self, word: &str) -> Result<String, Problem> {
        let alloc = self.alloc;
        let answer = match word {
            "blocked" => self.end.blocked(),
            "due" => self.end.rekey_due(),
            "dead" => self.end.is_dead(),
            "same" => self.marked == Some(self.standing()),
            _ => return self.value(word),
        };
        shown(alloc, answer)
    }

    fn value(&self, word: &str) -> Result<String, Problem> {
        match word {
            "numbers" => both(self.alloc, self.end.numbers()),
            "epochs" => both(self.alloc, self.end.epochs()),
            "size" => shown(self.alloc, self.out.len()),
            "out" => digits_of(self.alloc, &self.out),
            "last" => digits_of(self.alloc, self.last_sent()),
            "session" => self.session(),
            "chosen" => self.names(),
            _ => Err(Problem::NotALine),
        }
    }

    // The payload that it sent last.
    fn last_sent(&self) -> &[u8] {
        match self.sent.as_slice().last() {
            Some(payload) => payload.as_slice(),
            None => &[],
        }
    }

    fn session(&self) -> Result<String, Problem> {
        match self.end.session_id() {
            Some(session) => digits_of(self.alloc, &session),
            None => text_of(self.alloc, "nothing"),
        }
    }

    // The method and the host key algorithm of the exchange that it completed last.
    fn names(&self) -> Result<String, Problem> {
        match &self.chosen {
            Some(choice) => {
                let kex = digits_of(self.alloc, choice.kex.as_bytes())?;
                let host = digits_of(self.alloc, choice.host.as_bytes())?;
                Ok(format!(in self.alloc; "{kex} {host}")?)
            }
            None => text_of(self.alloc, "nothing"),
        }
    }
}

// Two numbers, a space between them.
fn both<N: Display + Drop>(alloc: Global, numbers: (N, N)) -> Result<String, Problem> {
    let (one, other) = numbers;
    Ok(format!(in alloc; "{one} {other}")?)
}
