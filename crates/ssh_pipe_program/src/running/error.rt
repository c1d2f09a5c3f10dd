//! Why a session doesn't begin, or can't go on.

use divrelca::key_files::FileFault;
use ssh_pipe::{MOST_COMMAND_BYTES, PipeError};
use std::alloc::{AllocError, AllocFailed};
use std::io;
use thiserror::Error;

/// Why a session doesn't begin, or can't go on.
#[derive(Debug, Drop, Error)]
pub enum RunError<'a> {
    /// A file can't be read or made.
    #[error("{file}: {error}")]
    File { file: &'a str, error: io::Error },
    /// A file has more bytes than are read of one of its kind.
    #[error("{file}: it has more than {most} bytes, and no more are read of such a file")]
    Long { file: &'a str, most: usize },
    /// A file has not the content that it has to have.
    #[error("{file}: {fault}")]
    Content { file: &'a str, fault: FileFault },
    /// Memory was refused for what a file has.
    #[error("{file}: memory was refused")]
    FileMemory { file: &'a str },
    /// No line of a file has a key for the host.
    #[error("{file}: no line has a key of ssh-ed25519 for {host}")]
    NoHostKey { file: &'a str, host: &'a str },
    /// There is nothing by which the user could be let in.
    #[error("nobody can be let in: name --authorized-keys or --password-file")]
    NoWayIn,
    /// The command is too long.
    #[error("the command has more than {MOST_COMMAND_BYTES} bytes")]
    LongCommand,
    /// The session can't go on.
    #[error("{0}")]
    Session(PipeError),
}

impl From<AllocError> for RunError<'_> {
    fn from(_error: AllocError) -> Self {
        RunError::Session(PipeError::Memory)
    }
}

impl<T: Drop> From<AllocFailed<T>> for RunError<'_> {
    fn from(_error: AllocFailed<T>) -> Self {
        RunError::Session(PipeError::Memory)
    }
}

impl From<PipeError> for RunError<'_> {
    fn from(error: PipeError) -> Self {
        RunError::Session(error)
    }
}
