//! One end of a connection and its own work, between a reader and a writer.

use crate::ending::Ending;
use crate::error::PipeError;
use std::alloc::Global;
use std::io::{ErrorKind, Read, Write};

/// One end of a connection with all that it does by itself: bytes go in, and bytes come out.
pub trait Machine {
    /// Takes a piece of the peer's stream, of any size, and puts the bytes that it sends for it into `out`.
    ///
    /// # Errors
    ///
    /// The reason why the session can't go on (`PipeError`), except the peer's doing.
    fn take(&mut self, piece: &[u8], out: &mut Vec<u8>) -> Result<(), PipeError>;

    /// Does what can be done without further bytes of the peer. When it puts nothing into `out`, there is nothing to do until more bytes
    /// come.
    ///
    /// # Errors
    ///
    /// Those of `take`.
    fn go_on(&mut self, out: &mut Vec<u8>) -> Result<(), PipeError>;

    /// Tests whether the end is over.
    fn is_over(&self) -> bool;

    /// The lines that tell what it did.
    fn lines(&self) -> &[u8];

    /// These lines are told.
    fn clear_lines(&mut self);

    /// How the session ended, once that is known.
    fn take_ending(&mut self) -> Option<Ending>;
}

/// The bytes that are read at once.
const PIECE: usize = 65_536;

/// Lets an end go on until it is over or its peer's stream ends: reads what the peer sends from `input`, and writes what goes to the peer
/// to `output`, what stands in `out` first. What is to be told of it is written to `log`. A peer that takes nothing any more is still
/// heard, since it may have said why.
///
/// # Errors
///
/// - `Read`, `Write`: `input` could not be read, or `output` could not be written to.
/// - `Input`, `Output`: the files of the command.
/// - `Random`: no random bytes were there for the next exchange of keys.
/// - `End`: the end refused what the program asked for.
/// - `Memory`: memory was refused.
pub fn pump<M: Machine, I: Read, O: Write, L: Write>(
    alloc: Global,
    machine: &mut M,
    input: &mut I,
    output: &mut O,
    out: Vec<u8>,
    log: &mut L,
) -> Result<(), PipeError> {
    let buffer = vec![in alloc; 0u8; PIECE]?;
    let pumped = exchange(machine, input, output, out, buffer, log);
    tell(machine, log);
    pumped
}

// The same without what is told of the last step.
fn exchange<M: Machine, I: Read, O: Write, L: Write>(
    machine: &mut M,
    input: &mut I,
    output: &mut O,
    mut out: Vec<u8>,
    mut buffer: Vec<u8>,
    log: &mut L,
) -> Result<(), PipeError> {
    let mut is_heard = true;
    for _ in 0..u64::MAX {
        write_out(machine, &mut out, output, &mut is_heard)?;
        tell(machine, log);
        if machine.is_over() {
            break;
        }
        let count = read(input, &mut buffer)?;
        let piece = buffer.as_slice().get(..count).unwrap_or(&[]);
        if piece.is_empty() {
            break;
        }
        machine.take(piece, &mut out)?;
    }
    Ok(())
}

// Writes what is to be told. Where that can't be written, the session goes on without it.
fn tell<M: Machine, L: Write>(machine: &mut M, log: &mut L) {
    let _ = log.write_all(machine.lines());
    machine.clear_lines();
}

// Reads what there is; no bytes at the end of the stream.
fn read<I: Read>(input: &mut I, buffer: &mut [u8]) -> Result<usize, PipeError> {
    for _ in 0..u64::MAX {
        match input.read(buffer) {
            Ok(count) => return Ok(count),
            Err(error) if error.kind() == ErrorKind::Interrupted => {}
            Err(error) => return Err(PipeError::Read(error)),
        }
    }
    Ok(0)
}

// Writes what waits, and lets the end put out more, until it has nothing more. What goes to a peer that takes nothing any more is dropped.
fn write_out<M: Machine, O: Write>(
    machine: &mut M,
    out: &mut Vec<u8>,
    output: &mut O,
    is_heard: &mut bool,
) -> Result<(), PipeError> {
    for _ in 0..u64::MAX {
        machine.go_on(out)?;
        if out.is_empty() {
            break;
        }
        if *is_heard {
            *is_heard = is_written(out.as_slice(), output)?;
        }
        out.clear();
    }
    Ok(())
}

// Writes these bytes. `false` where the peer takes nothing any more.
fn is_written<O: Write>(bytes: &[u8], output: &mut O) -> Result<bool, PipeError> {
    match output.write_all(bytes).and_then(|_| output.flush()) {
        Ok(()) => Ok(true),
        Err(error) if error.kind() == ErrorKind::BrokenPipe => Ok(false),
        Err(error) => Err(PipeError::Write(error)),
    }
}
