//! A client whose command has files for its input and outputs.

use crate::client::CommandMachine;
use crate::ending::Ending;
use crate::error::PipeError;
use crate::machine::{Machine, pump};
use crate::progress::Progress;
use crate::sink::Sink;
use std::alloc::{AllocError, Global};
use std::fs::File;
use std::io::{ErrorKind, Read, Write};
use std::rt::Stderr;

/// The files of a command.
#[derive(Drop)]
pub struct CommandFiles {
    /// The command's input. If there is none, the command reads nothing.
    pub input: Option<File>,
    /// The file for its output.
    pub output: Sink,
    /// The file for its error output.
    pub error_output: Sink,
    /// The file for a line that says how much was read and written. If there is none, nothing is shown.
    pub terminal: Option<Stderr>,
}

/// Lets a client run its command with these files, and answers how its session ended; `None` if the server's stream ended first. The
/// server's bytes are read from standard input. Those for the server are written to standard output, what stands in `out` first. What is
/// to be told goes to standard error.
///
/// # Errors
///
/// Those of `pump`.
pub fn run_command<C: CommandMachine>(
    rt: &HostRuntime,
    client: &mut C,
    files: CommandFiles,
    out: Vec<u8>,
) -> Result<Option<Ending>, PipeError> {
    let mut transfer = Transfer::new(rt.alloc(), files)?;
    let ran = exchange(rt, client, &mut transfer, out);
    transfer.progress.end_line();
    ran?;
    Ok(client.take_ending())
}

// Lets a client run its command between its files and the streams of this program.
fn exchange<C: CommandMachine>(
    rt: &HostRuntime,
    client: &mut C,
    transfer: &mut Transfer,
    out: Vec<u8>,
) -> Result<(), PipeError> {
    let mut machine = ClientFiles { client, transfer };
    let (input, output, err) = (&mut rt.stdin(), &mut rt.stdout(), &mut rt.stderr());
    pump(rt.alloc(), &mut machine, input, output, out, err)
}

// What goes between a command and its files, and how much did.
#[derive(Drop)]
struct Transfer {
    input: Option<File>,
    output: Sink,
    error_output: Sink,
    piece: Vec<u8>,
    progress: Progress,
}

// So many bytes of the input are read at once.
const PIECE: usize = 32_768;

impl Transfer {
    // Nothing went yet. Where memory is refused, the files are dropped.
    fn new(alloc: Global, files: CommandFiles) -> Result<Transfer, AllocError> {
        let piece = vec![in alloc; 0u8; PIECE]?;
        let CommandFiles {
            input,
            output,
            error_output,
            terminal,
        } = files;
        Ok(Transfer {
            input,
            output,
            error_output,
            piece,
            progress: Progress::new(terminal),
        })
    }

    // Writes what the command wrote, and what the server says to the user.
    fn write_output<C: CommandMachine>(&mut self, client: &mut C) -> Result<(), PipeError> {
        write_to(&mut self.error_output, client.notes())?;
        write_to(&mut self.output, client.output())?;
        write_to(&mut self.error_output, client.error_output())?;
        self.progress.add_written(client.output().len());
        self.progress.add_written(client.error_output().len());
        client.clear_output();
        Ok(())
    }

    // Reads a piece of the input, where the client wants more.
    fn read_input<C: CommandMachine>(&mut self, client: &mut C) -> Result<(), PipeError> {
        if !client.wants_input() {
            return Ok(());
        }
        let count = match &mut self.input {
            None => 0,
            Some(input) => match input.read(&mut self.piece) {
                Ok(count) => count,
                Err(error) if error.kind() == ErrorKind::Interrupted => return Ok(()),
                Err(error) => return Err(PipeError::Input(error)),
            },
        };
        let piece = self.piece.as_slice().get(..count).unwrap_or(&[]);
        client.give_input(piece)?;
        self.progress.add_read(count);
        Ok(())
    }
}

// Writes these bytes of the command.
fn write_to(sink: &mut Sink, bytes: &[u8]) -> Result<(), PipeError> {
    sink.write_all(bytes).map_err(PipeError::Output)
}

// A client with the files of its command.
#[derive(Drop)]
struct ClientFiles<'m, C> {
    client: &'m mut C,
    transfer: &'m mut Transfer,
}

impl<C: CommandMachine> Machine for ClientFiles<'_, C> {
    fn take(&mut self, piece: &[u8], out: &mut Vec<u8>) -> Result<(), PipeError> {
        self.client.take(piece, out)
    }

    fn go_on(&mut self, out: &mut Vec<u8>) -> Result<(), PipeError> {
        self.transfer.write_output(self.client)?;
        self.transfer.read_input(self.client)?;
        self.transfer.progress.show_step();
        self.client.go_on(out)
    }

    fn is_over(&self) -> bool {
        self.client.is_over()
    }

    fn lines(&self) -> &[u8] {
        self.client.lines()
    }

    fn clear_lines(&mut self) {
        self.client.clear_lines();
    }

    fn take_ending(&mut self) -> Option<Ending> {
        self.client.take_ending()
    }
}
