//! What an end tells the user of a program as it goes: who came in and by what, and each message by its number and name. Nothing that is
//! told is a secret: of a password, a private key or data of a channel no byte and no length.
//!
//! A `Watched` is an end whose turns are told in a `Log`. It is an `End` like the one in it:
//!
//! ```rust
//! let mut end = Watched::new(alloc, end);
//! end.show_messages()?;
//! let turn = end.take(rest, &mut out)?;
//! err.write_all(end.lines())?;
//! ```

mod fingerprint;
mod watched;

pub use fingerprint::Fingerprint;
use ssh_end::{SentPayloads, Told, Took, Turn};
use ssh_message::{Message, Method, name};
use std::alloc::Global;
use std::io::{self, Write};
pub use watched::Watched;

/// Lines for the user of a program, each with its end. Texts of the peer stand in them with all but printable US-ASCII characters as
/// escapes.
#[derive(Drop)]
pub struct Log {
    lines: Vec<u8>,
    shows_messages: bool,
}

impl Log {
    /// No lines. Messages are not shown.
    pub fn new(alloc: Global) -> Log {
        Log {
            lines: Vec::new(alloc),
            shows_messages: false,
        }
    }

    /// The lines since the last `clear`.
    pub fn lines(&self) -> &[u8] {
        self.lines.as_slice()
    }

    /// These lines are told.
    pub fn clear(&mut self) {
        self.lines.clear();
    }

    /// Shows messages from now on, after those with which an end begins: its version line and its first KEXINIT.
    ///
    /// # Errors
    ///
    /// Memory was refused.
    pub fn show_messages(&mut self) -> io::Result<()> {
        self.shows_messages = true;
        self.lines.write_all(b"sent the version line\n")?;
        self.show("sent", 20)
    }

    /// Tells of a turn: who was let in by it, and if messages are shown, which were taken and which were sent.
    ///
    /// # Errors
    ///
    /// Memory was refused.
    pub fn hear(&mut self, turn: &Turn<'_>) -> io::Result<()> {
        if let Some(took) = &turn.took {
            if self.shows_messages {
                self.show_taken(took)?;
            }
            if let (Some(Told::Accepted { user, .. }), Took::Message { message, .. }) = (
                turn.told, took,
            ) {
                self.let_in(user, message)?;
            }
        }
        self.hear_sent(&turn.sent)
    }

    // What was sent in a turn.
    fn hear_sent(&mut self, sent: &SentPayloads<'_>) -> io::Result<()> {
        if self.shows_messages {
            for payload in sent.payloads().iter() {
                self.show("sent", number_of(payload.as_slice()))?;
            }
        }
        Ok(())
    }

    // What was taken in a turn.
    fn show_taken(&mut self, took: &Took<'_>) -> io::Result<()> {
        match took {
            Took::OtherLine { text } => {
                let text = text.escape_ascii();
                writeln!(self.lines, "took the line {text} before the version line")
            }
            Took::VersionLine { text } => {
                let text = text.escape_ascii();
                writeln!(self.lines, "took the version line {text}")
            }
            Took::Skipped { payload } => self.show("took unread", number_of(payload)),
            Took::Message { payload, .. } => self.show("took", number_of(payload)),
        }
    }

    // A line with a message.
    fn show(&mut self, what: &str, number: u8) -> io::Result<()> {
        writeln!(self.lines, "{what} {number} {}", name(number))
    }

    // Who was let in by this request.
    fn let_in(&mut self, user: &[u8], message: &Message<'_>) -> io::Result<()> {
        let user = user.escape_ascii();
        match message {
            Message::UserauthRequest {
                method: Method::Publickey { key, .. },
                ..
            } => writeln!(
                self.lines,
                "{user} is let in by the key {}",
                Fingerprint::new(key)
            ),
            Message::UserauthRequest {
                method: Method::Password { .. },
                ..
            } => writeln!(self.lines, "{user} is let in by the password"),
            _ => writeln!(self.lines, "{user} is let in"),
        }
    }
}

// The number of a message (RFC 4253 section 12). A payload has one byte at least.
fn number_of(payload: &[u8]) -> u8 {
    payload.first().copied().unwrap_or(0)
}
