//! The places for the output of a command.

use std::fs::File;
use std::io::{self, Write};
use std::rt::Stderr;

/// A file, or standard error.
#[derive(Drop)]
pub enum Sink {
    /// A file.
    File(File),
    /// Standard error.
    Stderr(Stderr),
}

impl Write for Sink {
    fn write(&mut self, bytes: &[u8]) -> io::Result<usize> {
        match self {
            Sink::File(file) => file.write(bytes),
            Sink::Stderr(stderr) => stderr.write(bytes),
        }
    }

    fn flush(&mut self) -> io::Result<()> {
        match self {
            Sink::File(file) => file.flush(),
            Sink::Stderr(stderr) => stderr.flush(),
        }
    }
}
