//! The channels of one end. `new` makes new ones, `ask` and an ask is what a user asks, `take` and a payload a message of the peer, `owed`
//! gives the oldest reply that a key exchange held back, and `show` and a number shows a channel. `blocked` before it does it within a key
//! exchange, and `due` if one is due.

ghost use Rattle.std.specs.Prelude.{IfSome};
ghost use Rattle.ssh_message.specs.Written.{Fits};

use crate::call::{ask_of, ask_refused, message_of, refused, sent};
use crate::events::put_event;
use ssh_channels::{ChannelEvent, Channels, Reply};
use ssh_end::Ask;
use ssh_message::Message;
use ssh_toys::lines::{Layer, Problem, bytes_of, parsed, text_of};
use ssh_types::CallError;
use std::alloc::{AllocError, Global};

/// Channels that are told lines.
#[derive(Drop)]
pub struct ChannelLines {
    alloc: Global,
    channels: Channels,
    // In the line that is told, a key exchange is under way, or due.
    is_blocked: bool,
    is_due: bool,
}

impl ChannelLines {
    /// Lines of channels, of which nothing was played.
    ///
    /// # Errors
    ///
    /// Only if memory is refused.
    pub fn new(alloc: Global) -> Result<ChannelLines, AllocError> {
        let channels = Channels::new(alloc)?;
        Ok(ChannelLines {
            alloc,
            channels,
            is_blocked: false,
            is_due: false,
        })
    }

    fn asked(&mut self, words: &str) -> Result<String, Problem> {
        let ask = ask_of(self.alloc, words)?;
        let Ask::Connection(ask) = ask.to_ask() else {
            return Err(Problem::NotALine);
        };
        match self.channels.ask(&ask, self.is_blocked, self.is_due) {
            Ok(sent) => {
                let opening = ask.opening(sent.channel);
                let fact = opening.map(|channel| ChannelEvent::Opening { channel });
                told(self.alloc, sent.channel, Some(sent.message), fact)
            }
            Err(CallError::Refused(refusal)) => ask_refused(self.alloc, refusal),
            Err(CallError::Memory) => Err(Problem::from(AllocError)),
        }
    }

    fn taken(&mut self, digits: &str) -> Result<String, Problem> {
        let payload = bytes_of(self.alloc, digits)?;
        let message = message_of(self.alloc, false, &payload)?;
        match self.channels.take(&message, self.is_blocked) {
            Ok(taken) => {
                let reply = taken.reply.map(|reply| reply.message());
                let fact = ChannelEvent::of_message(&message, taken.channel);
                told(self.alloc, taken.channel, reply, fact)
            }
            Err(CallError::Refused(refusal)) => refused(self.alloc, refusal),
            Err(CallError::Memory) => Err(Problem::from(AllocError)),
        }
    }

    fn owed(&mut self) -> Result<String, Problem> {
        match self.channels.unblock() {
            Some(reply) => told(self.alloc, reply.channel(), Some(reply.message()), None),
            None => text_of(self.alloc, "nothing"),
        }
    }

    // A line without the words before it.
    fn unmarked<'a>(&mut self, line: &'a str) -> &'a str {
        let after_blocked = line.strip_prefix("blocked ");
        self.is_blocked = after_blocked.is_some();
        let line = after_blocked.unwrap_or(line);
        let after_due = line.strip_prefix("due ");
        self.is_due = after_due.is_some();
        after_due.unwrap_or(line)
    }

    // How a channel stands, the window left for data of this end, and how many are in use.
    fn shown(&self, number: &str) -> Result<String, Problem> {
        let number = parsed(number)?;
        let state = self.channels.state(number);
        let room = self.channels.room(number);
        let count = self.channels.count();
        Ok(format!(in self.alloc; "{state:?} {room:?} {count}")?)
    }
}

impl Layer for ChannelLines {
    fn said_to(&mut self, line: &str) -> Result<String, Problem> {
        let line = self.unmarked(line);
        match line {
            "new" => {
                self.channels = Channels::new(self.alloc)?;
                Ok(String::new(self.alloc))
            }
            "owed" => self.owed(),
            _ => match line.split_once(' ') {
                Some(("ask", words)) => self.asked(words),
                Some(("take", digits)) => self.taken(digits),
                Some(("show", number)) => self.shown(number),
                _ => Err(Problem::NotALine),
            },
        }
    }
}

// A channel, what is sent on it, and what is told of it.
fn told(
    alloc: Global,
    channel: Option<u32>,
    message: Option<Message<'_>>,
    fact: Option<ChannelEvent<'_>>,
) -> Result<String, Problem>
    requires { IfSome message (λ m. Fits m) }
{
    let mut text = marked(alloc, channel)?;
    if let Some(message) = message {
        text.push(' ')?;
        text.push_str(sent(alloc, &message)?.as_str())?;
    }
    put_fact(&mut text, fact)?;
    Ok(text)
}

// The mark of a line: its channel, or none.
fn marked(alloc: Global, channel: Option<u32>) -> Result<String, Problem> {
    match channel {
        Some(channel) => Ok(format!(in alloc; "{channel}:")?),
        None => text_of(alloc, "-:"),
    }
}

// What is told, after what stands there.
fn put_fact(text: &mut String, fact: Option<ChannelEvent<'_>>) -> Result<(), Problem> {
    if let Some(fact) = fact {
        text.push_str(" told ")?;
        put_event(text, fact)?;
    }
    Ok(())
}
