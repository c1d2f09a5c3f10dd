//! Why a script, or a line of one, isn't read or played.

ghost use Rattle.std.specs.Prelude.{◌≡◌};

use crate::setup::EndSetup;
use crate::word_fault::WordFault;
use ssh_transport::ConfigRefusal;
use ssh_types::{CallError, Side};
use std::alloc::{AllocError, Global};
use std::fmt::Display;
use std::io;
use thiserror::Error;

/// Why a line of a script can't be read.
#[derive(Clone, Copy, Debug, Error)]
pub(crate) enum LineFault<'a> {
    /// The first byte that begins no character, counted from 1.
    #[error("byte {0} isn't UTF-8")]
    NotUtf8(usize),
    #[error("a CR stands at the line's end: lines end with LF alone")]
    CarriageReturn,
    #[error("{0}")]
    Words(#[from] WordFault<'a>),
    #[error("out of memory")]
    Memory(#[from(alloc)] AllocError),
}

/// Why a line that was read can't be run.
#[derive(Clone, Copy, Debug, Error)]
pub enum RunFault {
    /// Fewer bytes wait than the line wants.
    #[error("{wanted} bytes are wanted, and {waiting} wait")]
    FewWaiting {
        wanted: usize,
        waiting: usize,
    },
    /// The bytes that the line wants again were not all put out.
    #[error("{count} bytes from {start} on are wanted, and {whole} were put out")]
    NotPutOut {
        start: usize,
        count: usize,
        whole: usize,
    },
    /// An end answered false to a pair of cookie and secret.
    #[error("the end doesn't take the pair: it still keeps one, is dead, or had all its pairs")]
    NotFed,
    #[error("out of memory")]
    Memory(#[from(alloc)] AllocError),
}

/// Why a script was not read, or not played to its end.
#[derive(Debug, Drop, Error)]
pub enum ScriptFault {
    #[error("can't read the script: {0}")]
    Unreadable(io::Error),
    #[error("the script has more than 16777216 bytes")]
    TooLong,
    /// The line, counted from 1, and its fault.
    #[error("line {line}: {message}")]
    Line { line: usize, message: String },
    /// No line of the script made these settings of an end.
    #[error("{0}")]
    Settings(SettingsFault),
    /// The script gives the keys of an epoch, but the ends have to exchange theirs.
    #[error("the script begins with its keys: a script without the line epoch K1 K2 is wanted")]
    Epoch,
    #[error("out of memory")]
    Memory,
}

/// Why an end can't have the settings of a script.
#[derive(Clone, Copy, Debug, Error)]
#[error("the settings of {letter} are refused: {refusal}", letter = letter_of(*.side))]
pub struct SettingsFault {
    pub side: Side,
    pub refusal: ConfigRefusal,
}

fn letter_of(side: Side) -> char {
    match side {
        Side::Client => 'c',
        Side::Server => 's',
    }
}

impl From<AllocError> for ScriptFault {
    ghost use Rattle.ssh_script.specs.declared.script_fault.ScriptFault.TheVariants.{Memory};

    ghost from_gives = { λ _ e. e ≡ Memory };

    fn from(_error: AllocError) -> ScriptFault {
        ScriptFault::Memory
    }
}

impl ScriptFault {
    /// The fault of the line with this number while it was run.
    pub fn at_run(alloc: Global, line: usize, fault: RunFault) -> ScriptFault {
        match fault {
            RunFault::Memory(_) => ScriptFault::Memory,
            fault => ScriptFault::told(alloc, line, fault),
        }
    }

    /// The fault of the settings that an end was to have, with the line that made them so.
    pub fn of_settings(
        alloc: Global,
        side: Side,
        setup: &EndSetup,
        error: CallError<ConfigRefusal>,
    ) -> ScriptFault {
        let refusal = match error {
            CallError::Refused(refusal) => refusal,
            CallError::Memory => return ScriptFault::Memory,
        };
        let fault = SettingsFault { side, refusal };
        match setup.line_of(refusal) {
            Some(line) => ScriptFault::told(alloc, line, fault),
            None => ScriptFault::Settings(fault),
        }
    }

    /// The fault of the line with this number.
    pub(crate) fn at(alloc: Global, line: usize, fault: LineFault<'_>) -> ScriptFault {
        match fault {
            LineFault::Memory(_) | LineFault::Words(WordFault::Memory(_)) => ScriptFault::Memory,
            fault => ScriptFault::told(alloc, line, fault),
        }
    }

    // The fault of a line, as it is told.
    fn told<F: Display + Drop>(alloc: Global, line: usize, fault: F) -> ScriptFault {
        match format!(in alloc; "{fault}") {
            Ok(message) => ScriptFault::Line { line, message },
            Err(error) => ScriptFault::from(error),
        }
    }
}
