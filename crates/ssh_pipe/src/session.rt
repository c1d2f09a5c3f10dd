//! A channel of a server, on which a command runs (RFC 4254 section 6).

use crate::builtin::Builtin;
use crate::flow::Flow;
use crate::texts::string_in;
use divrelca::{AskOutcome, End, MOST_WAITING, asked};
use ssh_channels::Ask as ChannelAsk;
use ssh_end::{Ask, Fault};
use std::alloc::{AllocError, Global};

/// A channel that a client opened.
#[derive(Drop)]
pub struct Session {
    alloc: Global,
    flow: Flow,
    command: Option<Builtin>,
    // Input that came before the command.
    early: Vec<u8>,
    // The client sends no more input.
    is_ended: bool,
    stage: Stage,
}

// How far a session is.
#[derive(Clone, Copy, PartialEq, Eq)]
enum Stage {
    // Its command runs, or is still to come.
    Runs,
    // Its exit status was sent (RFC 4254 section 6.10).
    SaidStatus,
    // EOF was sent (section 5.3).
    SaidEnd,
    // CLOSE was sent.
    Closed,
}

// At most so many packets of data are sent at a time.
const ROUNDS: usize = 64;

impl Session {
    /// A session on this channel.
    pub fn new(alloc: Global, channel: u32, max_packet: u32, window: u32) -> Session {
        Session {
            alloc,
            flow: Flow::new(alloc, channel, max_packet, window),
            command: None,
            early: Vec::new(alloc),
            is_ended: false,
            stage: Stage::Runs,
        }
    }

    /// The end's own number of the channel.
    pub fn channel(&self) -> u32 {
        self.flow.channel()
    }

    /// Takes a request of the client (RFC 4254 section 6.5), and answers whether it is granted: the first `exec` alone.
    ///
    /// # Errors
    ///
    /// Only if memory is refused: the session can't go on.
    pub fn request(&mut self, name: &[u8], rest: &[u8]) -> Result<bool, AllocError> {
        let line = match string_in(rest) {
            Some(line) if name == b"exec".as_slice() && self.command.is_none() => line,
            _ => return Ok(false),
        };
        let mut command = Builtin::new(line, &mut self.flow)?;
        let done = command.take(self.early.as_slice(), &mut self.flow)?;
        self.flow.finish(done);
        self.early.clear();
        self.command = Some(command);
        Ok(true)
    }

    /// Takes data of the client. Extended data mean nothing here.
    ///
    /// # Errors
    ///
    /// Only if memory is refused: the session can't go on.
    pub fn take(&mut self, kind: Option<u32>, body: &[u8]) -> Result<(), AllocError> {
        self.flow.take(body.len());
        let done = match &mut self.command {
            _ if kind.is_some() || self.stage != Stage::Runs => body.len(),
            Some(command) => command.take(body, &mut self.flow)?,
            None => {
                self.early.extend_from_slice(body)?;
                0
            }
        };
        self.flow.finish(done);
        Ok(())
    }

    /// The client sends no more.
    pub fn end(&mut self) {
        self.is_ended = true;
    }

    /// Sends what can be sent, and gives the window back; after the command's last byte its status, EOF and CLOSE.
    ///
    /// # Errors
    ///
    /// - `Memory`: memory was refused, and the end is over.
    /// - `Dead`: the end was over before.
    pub fn go_on<E: End>(&mut self, end: &mut E, out: &mut Vec<u8>) -> Result<(), Fault> {
        for _ in 0..ROUNDS {
            self.refill()?;
            let sent = self.flow.send(end, out)?;
            if sent == 0 {
                break;
            }
            if self.command.as_ref().is_some_and(Builtin::sends_on) {
                self.flow.finish(sent);
            }
            if out.len() >= MOST_WAITING {
                break;
            }
        }
        self.flow.give_back(end, out)?;
        self.finish(end, out)
    }

    // Lets the command say more, once all before is sent.
    fn refill(&mut self) -> Result<(), Fault> {
        if !self.flow.is_drained() {
            return Ok(());
        }
        if let Some(command) = self.command.take() {
            let next = command
                .go_on(self.alloc, self.is_ended, &mut self.flow)
                .map_err(|_| Fault::Memory)?;
            self.command = Some(next);
        }
        Ok(())
    }

    // Says that the command is over, once it is and all that it said is sent.
    fn finish<E: End>(&mut self, end: &mut E, out: &mut Vec<u8>) -> Result<(), Fault> {
        let status = match &self.command {
            Some(command) if self.flow.is_drained() => command.status(self.is_ended),
            _ => None,
        };
        let Some(status) = status else {
            return Ok(());
        };
        for _ in 0..3 {
            let rest = status.to_be_bytes();
            let Some(ask) = self.last_ask(&rest) else {
                break;
            };
            match asked(end, &Ask::Connection(ask), out)? {
                AskOutcome::Done => self.stage = self.stage.next(),
                AskOutcome::Later => break,
                AskOutcome::Gone => self.stage = Stage::Closed,
            }
        }
        Ok(())
    }

    // What is to be said next of a command that is over.
    fn last_ask<'a>(&self, status: &'a [u8; 4]) -> Option<ChannelAsk<'a>> {
        let channel = self.channel();
        match self.stage {
            Stage::Runs => Some(ChannelAsk::Request {
                channel,
                name: b"exit-status",
                want: false,
                rest: status,
            }),
            Stage::SaidStatus => Some(ChannelAsk::Eof { channel }),
            Stage::SaidEnd => Some(ChannelAsk::Close { channel }),
            Stage::Closed => None,
        }
    }
}

impl Stage {
    // The stage after this one.
    fn next(self) -> Stage {
        match self {
            Stage::Runs => Stage::SaidStatus,
            Stage::SaidStatus => Stage::SaidEnd,
            Stage::SaidEnd | Stage::Closed => Stage::Closed,
        }
    }
}
