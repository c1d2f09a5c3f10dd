//! Recorded payloads: for each line of standard input, a payload in hexadecimal digits, the line of its message, or why there is none. It
//! is read as by a client that waits for the answer to a key probe; after the word `idle`, as by an end that doesn't. Every message is
//! written again too, and if that gives other bytes they are shown: a truth value is written as 1, and an unknown number alone.

use crate::status::Status;
use hex::FromHexError;
use ssh_message::{BadMessage, Line, decode, encode};
use std::alloc::{AllocError, Global};
use std::io;
use std::io::Write;
use thiserror::Error;

// Why a line can't be shown.
#[derive(Debug, Drop, Error)]
enum Problem {
    #[error("no pairs of hexadecimal digits")]
    NotHex(#[from] FromHexError),
    #[error("a malformed message")]
    BadMessage(#[from] BadMessage),
    #[error("out of memory")]
    Memory(#[from] AllocError),
}

/// Shows them. It is done unless a line can't be read or written, which is told on standard error.
pub fn run(rt: &HostRuntime) -> Status {
    let outcome = show(rt);
    Status::of(rt, outcome)
}

fn show(rt: &HostRuntime) -> io::Result<()> {
    let mut out = rt.stdout();
    for line in rt.lines(rt.alloc()) {
        match shown(rt.alloc(), line?.as_str()) {
            Ok(text) => writeln!(out, "{text}")?,
            Err(problem) => writeln!(out, "{problem}")?,
        }
    }
    Ok(())
}

fn shown(alloc: Global, line: &str) -> Result<String, Problem> {
    let (probing, digits) = match line.strip_prefix("idle ") {
        Some(digits) => (false, digits),
        None => (true, line),
    };
    let payload = hex::decode(alloc, digits)?;
    let message = decode(probing, &payload)?;
    let mut again = Vec::new(alloc);
    encode(&message, &mut again)?;
    let shown = Line::new(probing, &payload)?;
    if again == payload {
        return Ok(format!(in alloc; "{shown}")?);
    }
    let written = hex::encode(alloc, again.as_slice())?;
    Ok(format!(in alloc; "{shown} written as {written}")?)
}
