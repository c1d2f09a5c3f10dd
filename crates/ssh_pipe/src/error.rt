//! Why a program can't go on.

use divrelca::SupplyError;
use ssh_end::Fault;
use ssh_transport::ConfigRefusal;
use ssh_types::CallError;
use std::alloc::{AllocError, AllocFailed};
use std::io;
use thiserror::Error;

/// Why a session can't go on, other than because of its peer.
#[derive(Debug, Drop, Error)]
pub enum PipeError {
    /// Memory was refused.
    #[error("memory was refused")]
    Memory,
    /// The system gave no random bytes.
    #[error("no random bytes: {0}")]
    Random(io::Error),
    /// The peer's bytes can't be read.
    #[error("can't read what the peer sends: {0}")]
    Read(io::Error),
    /// Bytes can't be written to the peer.
    #[error("can't write to the peer: {0}")]
    Write(io::Error),
    /// The file of the command's input can't be read.
    #[error("can't read the input: {0}")]
    Input(io::Error),
    /// The command's output can't be written.
    #[error("can't write the output: {0}")]
    Output(io::Error),
    /// The settings are refused.
    #[error("the settings are refused: {0}")]
    Settings(CallError<ConfigRefusal>),
    /// The end refused an ask of this program, which is a fault of the program.
    #[error("the end refused what it was asked for: {0}")]
    End(Fault),
}

impl From<AllocError> for PipeError {
    fn from(_error: AllocError) -> PipeError {
        PipeError::Memory
    }
}

impl<T: Drop> From<AllocFailed<T>> for PipeError {
    fn from(_error: AllocFailed<T>) -> PipeError {
        PipeError::Memory
    }
}

impl From<Fault> for PipeError {
    fn from(fault: Fault) -> PipeError {
        match fault {
            Fault::Memory => PipeError::Memory,
            fault => PipeError::End(fault),
        }
    }
}

impl From<CallError<ConfigRefusal>> for PipeError {
    fn from(error: CallError<ConfigRefusal>) -> PipeError {
        PipeError::Settings(error)
    }
}

impl From<SupplyError> for PipeError {
    fn from(error: SupplyError) -> PipeError {
        match error {
            SupplyError::Random(error) => PipeError::Random(error),
            SupplyError::End(fault) => PipeError::from(fault),
        }
    }
}
