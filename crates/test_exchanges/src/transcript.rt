//! The text of the turns of an end: what it took, sent and told, separated by semicolons.

use ssh_message::{Message, decode, name};
use ssh_transport::Handled;
use ssh_types::Side;
use std::alloc::{AllocError, Global};
use std::mem;

/// The text so far.
#[derive(Drop)]
pub struct Transcript {
    alloc: Global,
    side: Side,
    text: String,
}

impl Transcript {
    /// No text, of the end of a side.
    pub fn new(alloc: Global, side: Side) -> Transcript {
        Transcript {
            alloc,
            side,
            text: String::new(alloc),
        }
    }

    /// Gives the text, or the word for none, and begins anew.
    ///
    /// # Errors
    ///
    /// Only if memory is refused.
    pub fn give(&mut self) -> Result<String, AllocError> {
        if self.text.is_empty() {
            return String::from_str(self.alloc, "nothing");
        }
        Ok(mem::replace(&mut self.text, String::new(self.alloc)))
    }

    // Begins what one more is about.
    fn begin(&mut self) -> Result<(), AllocError> {
        if !self.text.is_empty() {
            self.text.push_str("; ")?;
        }
        match self.side {
            Side::Client => self.text.push_str("c "),
            Side::Server => self.text.push_str("s "),
        }
    }

    /// The end did this.
    ///
    /// # Errors
    ///
    /// Only if memory is refused.
    pub fn note(&mut self, what: &str) -> Result<(), AllocError> {
        self.begin()?;
        self.text.push_str(what)
    }

    /// It did this of this number.
    ///
    /// # Errors
    ///
    /// Only if memory is refused.
    pub fn note_number(&mut self, what: &str, number: u64) -> Result<(), AllocError> {
        self.begin()?;
        write!(self.text, "{what} {number}")
    }

    /// It refused its peer, or an ask, by this number and name.
    ///
    /// # Errors
    ///
    /// Only if memory is refused.
    pub fn note_refusal(&mut self, what: &str, number: u8, name: &str) -> Result<(), AllocError> {
        self.begin()?;
        write!(self.text, "{what} {number} {name}")
    }

    /// It took or sent this payload.
    ///
    /// # Errors
    ///
    /// Only if memory is refused.
    pub fn note_payload(&mut self, what: &str, payload: &[u8]) -> Result<(), AllocError> {
        self.begin()?;
        let number = payload.first().copied().unwrap_or(0);
        write!(
            self.text,
            "{what} {number} {} {}",
            name(number),
            payload.len()
        )
    }

    /// The fact that it is told of a payload that had this effect. If the payload cannot have this effect, the line says so.
    ///
    /// # Errors
    ///
    /// Only if memory is refused.
    pub fn note_effect(&mut self, effect: Handled, payload: &[u8]) -> Result<(), AllocError> {
        if effect == Handled::Skipped {
            return self.note("told ignored");
        }
        let Ok(message) = decode(false, payload) else {
            return self.note("took what is no message");
        };
        match (effect, message) {
            (Handled::Told, Message::Ignore { .. }) => self.note("told ignored"),
            (Handled::Told, Message::Debug { .. }) => self.note("told debug"),
            (Handled::Told, Message::Unimplemented { number }) => {
                self.note_number("told unimplemented", number as u64)
            }
            (Handled::Told, Message::ExtInfo { extensions }) => {
                self.note_number("told ext_info", extensions.count() as u64)
            }
            (Handled::Disconnected, Message::Disconnect { reason, .. }) => {
                self.note_number("told disconnected", reason as u64)
            }
            (Handled::ServiceAccepted, Message::ServiceAccept { .. }) => {
                self.note("told service")
            }
            (Handled::ServiceRequested, Message::ServiceRequest { .. }) => Ok(()),
            (Handled::Kexinit, Message::KexInit(_)) => Ok(()),
            (Handled::NewKeys, Message::NewKeys) => Ok(()),
            (Handled::Unknown, Message::Unknown(_)) => Ok(()),
            _ => self.note("told what the message is not"),
        }
    }
}
