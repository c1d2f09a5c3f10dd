//! The command that a client runs, on its channel (RFC 4254 section 6).

use crate::ending::Ending;
use crate::flow::Flow;
use crate::texts::{first_string_in, number_in};
use divrelca::{AskOutcome, End, MOST_DATA, MOST_WAITING, asked};
use ssh_channels::Ask as ChannelAsk;
use ssh_end::{Ask, Fault};
use std::alloc::{AllocError, Global};

/// The command with its channel, once that is confirmed.
#[derive(Drop)]
pub struct Command {
    alloc: Global,
    // The window of its channel, in bytes.
    window: u32,
    flow: Option<Flow>,
    input: Input,
    /// The bytes that it wrote to its output and that were not taken from here.
    pub output: Vec<u8>,
    /// The bytes that it wrote to its error output.
    pub error_output: Vec<u8>,
    // How it ended, once that was said.
    status: Option<Ending>,
}

// How far the input of the command is.
#[derive(Clone, Copy, PartialEq, Eq)]
enum Input {
    // The command doesn't run yet.
    NotYet,
    // The command takes input.
    Open,
    // There is no more of it.
    Ended,
    // The server was told so (RFC 4254 section 5.3).
    Said,
}

// The type of extended data that is an error output (RFC 4254 section 5.2).
const STDERR: u32 = 1;

// At most so many packets of data are sent at a time.
const ROUNDS: usize = 64;

impl Command {
    /// A command without a channel, which is to have a window of this size.
    pub fn new(alloc: Global, window: u32) -> Command {
        Command {
            alloc,
            window,
            flow: None,
            input: Input::NotYet,
            output: Vec::new(alloc),
            error_output: Vec::new(alloc),
            status: None,
        }
    }

    /// The ask that opens the channel (RFC 4254 section 6.1).
    pub fn opening(&self) -> ChannelAsk<'static> {
        ChannelAsk::Open {
            kind: b"session",
            window: self.window,
            max_packet: MOST_DATA,
            rest: b"",
        }
    }

    /// The channel is confirmed. Its peer takes at most `max_packet` bytes at once.
    pub fn confirm(&mut self, channel: u32, max_packet: u32) {
        self.flow = Some(Flow::new(self.alloc, channel, max_packet, self.window));
    }

    /// The command runs, and takes input.
    pub fn run(&mut self) {
        self.input = Input::Open;
    }

    /// Takes data of the command. Extended data other than its error output are dropped.
    ///
    /// # Errors
    ///
    /// Only if memory is refused: no byte is taken.
    pub fn take(&mut self, kind: Option<u32>, body: &[u8]) -> Result<(), AllocError> {
        let Some(flow) = &mut self.flow else {
            return Ok(());
        };
        flow.take(body.len());
        match kind {
            None => self.output.extend_from_slice(body),
            Some(STDERR) => self.error_output.extend_from_slice(body),
            Some(_) => {
                flow.finish(body.len());
                Ok(())
            }
        }
    }

    /// Takes a request that says how the command ended (RFC 4254 section 6.10).
    ///
    /// # Errors
    ///
    /// Only if memory is refused: what the request said is not kept.
    pub fn learn(&mut self, name: &[u8], rest: &[u8]) -> Result<(), AllocError> {
        let ending = match name {
            b"exit-status" => number_in(rest).map(Ending::Status),
            b"exit-signal" => match first_string_in(rest) {
                Some(name) => Some(Ending::Signal(Vec::from_slice(self.alloc, name)?)),
                None => None,
            },
            _ => None,
        };
        if ending.is_some() {
            self.status = ending;
        }
        Ok(())
    }

    /// How the command ended. It counts after the channel is closed, since output may follow the request that says so.
    pub fn take_ending(&mut self) -> Ending {
        self.status.take().unwrap_or(Ending::NoStatus)
    }

    /// All that the command wrote is taken from here.
    pub fn clear_output(&mut self) {
        let size = self.output.len().saturating_add(self.error_output.len());
        if let Some(flow) = &mut self.flow {
            flow.finish(size);
        }
        self.output.clear();
        self.error_output.clear();
    }

    /// Tests whether more of the command's input can be taken.
    pub fn wants_input(&self) -> bool {
        let is_drained = self.flow.as_ref().is_some_and(Flow::is_drained);
        self.input == Input::Open && is_drained
    }

    /// Takes bytes of the command's input. No bytes mean that the input has ended.
    ///
    /// # Errors
    ///
    /// Only if memory is refused: no byte is taken.
    pub fn give_input(&mut self, bytes: &[u8]) -> Result<(), AllocError> {
        if bytes.is_empty() {
            self.input = Input::Ended;
        }
        match &mut self.flow {
            Some(flow) => flow.add(bytes),
            None => Ok(()),
        }
    }

    /// Gives the channel's window back, and sends the input that can be sent, and after its last byte EOF (RFC 4254 section 5.3).
    ///
    /// # Errors
    ///
    /// - `Memory`: memory was refused, and the end is over.
    /// - `Dead`: the end was over before.
    pub fn flow_on<E: End>(&mut self, end: &mut E, out: &mut Vec<u8>) -> Result<(), Fault> {
        let Some(flow) = &mut self.flow else {
            return Ok(());
        };
        flow.give_back(end, out)?;
        for _ in 0..ROUNDS {
            if flow.send(end, out)? == 0 || out.len() >= MOST_WAITING {
                break;
            }
        }
        if self.input == Input::Ended && flow.is_drained() {
            let eof = ChannelAsk::Eof {
                channel: flow.channel(),
            };
            if asked(end, &Ask::Connection(eof), out)? != AskOutcome::Later {
                self.input = Input::Said;
            }
        }
        Ok(())
    }
}
