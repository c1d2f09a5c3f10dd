//! The commands that a server has.

use crate::flow::Flow;
use sha2::{Digest, Sha256};
use std::alloc::{AllocError, Global};
use std::str;

/// A command of the server's own, that runs on a channel.
#[derive(Drop)]
pub enum Builtin {
    /// All of its output is given, and it ends with this status.
    Said {
        status: u32,
    },
    /// `sha256sum`: the SHA-256 of its input, as a line.
    Hash(Sha256),
    /// `cat`: its input.
    Cat,
    /// `sink`: takes its input, and says nothing.
    Sink,
    /// `source N`: N bytes, of which that at place k is k modulo 251.
    Source {
        /// The place of the next byte.
        at: u64,
        /// How many bytes there are.
        size: u64,
    },
}

// The type of extended data that is an error output (RFC 4254 section 5.2).
const STDERR: u32 = 1;

// The statuses of a command that is called in a wrong way, and of one that is not there.
const MISUSED: u32 = 2;

const NOT_FOUND: u32 = 127;

// At most so many bytes of `source` wait to be sent.
const PIECE: u64 = 32_768;

impl Builtin {
    /// Begins the command that this line and its arguments name. Its first output is added to the flow.
    ///
    /// # Errors
    ///
    /// Only if memory is refused: the command does not begin.
    pub fn new(line: &[u8], flow: &mut Flow) -> Result<Builtin, AllocError> {
        let line = line.trim_ascii();
        let (name, rest) = match line.iter().position(|byte| *byte == b' ') {
            Some(at) => (
                line.get(..at).unwrap_or(line),
                line.get(at..).unwrap_or(b"").trim_ascii_start(),
            ),
            None => (line, b"".as_slice()),
        };
        if name == b"echo".as_slice() {
            flow.add(rest)?;
            flow.add(b"\n")?;
            return Ok(Builtin::Said { status: 0 });
        }
        if name == b"source".as_slice() || name == b"exit".as_slice() {
            return counted(name, rest, flow);
        }
        if !rest.is_empty() {
            return refused(b"this command takes no arguments\n", MISUSED, flow);
        }
        match name {
            b"sha256sum" => Ok(Builtin::Hash(Sha256::new())),
            b"cat" => Ok(Builtin::Cat),
            b"sink" => Ok(Builtin::Sink),
            _ => refused(NO_COMMAND, NOT_FOUND, flow),
        }
    }

    /// Takes bytes of the input, and answers how many of them are done with. The others are once they were sent on.
    ///
    /// # Errors
    ///
    /// Only if memory is refused: the command can't go on.
    pub fn take(&mut self, bytes: &[u8], flow: &mut Flow) -> Result<usize, AllocError> {
        match self {
            Builtin::Cat => {
                flow.add(bytes)?;
                Ok(0)
            }
            Builtin::Hash(hash) => {
                hash.update(bytes);
                Ok(bytes.len())
            }
            Builtin::Said { .. } | Builtin::Sink | Builtin::Source { .. } => Ok(bytes.len()),
        }
    }

    /// Tests whether the bytes that are sent are bytes of the input, which are then done with.
    pub fn sends_on(&self) -> bool {
        matches!(self, Builtin::Cat)
    }

    /// Adds the output that can follow after all before is sent. Nothing if the command is done, or waits for its input.
    ///
    /// # Errors
    ///
    /// Only if memory is refused: the command is dropped.
    pub fn go_on(
        self,
        alloc: Global,
        is_ended: bool,
        flow: &mut Flow,
    ) -> Result<Builtin, AllocError> {
        match self {
            Builtin::Source { at, size } if at < size => {
                let end = at.saturating_add(PIECE).min(size);
                add_pattern(alloc, at, end, flow)?;
                Ok(Builtin::Source { at: end, size })
            }
            Builtin::Hash(hash) if is_ended => {
                let digits = hex::encode(alloc, hash.finalize())?;
                flow.add(digits.as_bytes())?;
                flow.add(b"  -\n")?;
                Ok(Builtin::Said { status: 0 })
            }
            other => Ok(other),
        }
    }

    /// The status that it ends with, once it is done and all that it says is sent.
    pub fn status(&self, is_ended: bool) -> Option<u32> {
        match *self {
            Builtin::Said { status } => Some(status),
            Builtin::Cat | Builtin::Sink if is_ended => Some(0),
            Builtin::Source { at, size } if at >= size => Some(0),
            _ => None,
        }
    }
}

const NO_COMMAND: &[u8] =
    b"the commands are: echo WORDS, sha256sum, cat, sink, source BYTES, exit STATUS\n";

// `source BYTES` and `exit STATUS`.
fn counted(name: &[u8], word: &[u8], flow: &mut Flow) -> Result<Builtin, AllocError> {
    let number = match str::from_utf8(word) {
        Ok(word) => word.parse::<u64>().ok(),
        Err(_) => None,
    };
    match (number, name) {
        (Some(size), b"source") => Ok(Builtin::Source { at: 0, size }),
        (Some(status), _) if status < 256 => Ok(Builtin::Said {
            status: status as u32,
        }),
        _ => refused(b"expected a number\n", MISUSED, flow),
    }
}

// Says why nothing is done.
fn refused(text: &[u8], status: u32, flow: &mut Flow) -> Result<Builtin, AllocError> {
    flow.add_extended(STDERR, b"ssh_pipe: ")?;
    flow.add_extended(STDERR, text)?;
    Ok(Builtin::Said { status })
}

// The bytes of `source` from one place to another, whole rounds of 251 bytes at a time.
fn add_pattern(alloc: Global, from: u64, to: u64, flow: &mut Flow) -> Result<(), AllocError> {
    let mut round = [0; 251];
    for i in 0..251usize {
        round[i] = i as u8;
    }
    let first = (from % 251) as usize;
    let count = to.saturating_sub(from) as usize;
    let mut bytes = Vec::new(alloc);
    bytes.extend_from_slice(&round[first..])?;
    for _ in 0..count / 251 + 1 {
        bytes.extend_from_slice(&round)?;
    }
    flow.add(bytes.get(..count).unwrap_or(bytes.as_slice()))
}
