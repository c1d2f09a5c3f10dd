//! How a run ends.

use std::io;
use std::io::Write;

/// How a part of a run ends.
#[derive(Clone, Copy, Debug, PartialEq, Eq)]
pub enum Status {
    /// No allocation was refused, or a smaller one made up for it.
    Done,
    /// Memory was refused before the subject of the part, or in a play that then answered so.
    Before,
    /// Memory was refused to the subject of the part, and all was as it has to be then.
    Within,
    /// Everything else.
    Wrong,
}

impl Status {
    /// It is done unless a file can't be read or a line not be shown, which is told on standard error.
    pub fn of(rt: &HostRuntime, outcome: io::Result<()>) -> Status {
        match outcome {
            Ok(()) => Status::Done,
            Err(error) => {
                let _ = writeln!(rt.stderr(), "wrong: {error}");
                Status::Wrong
            }
        }
    }

    /// The exit status of the program.
    pub fn code(self) -> u8 {
        match self {
            Status::Done => 0,
            Status::Wrong => 1,
            Status::Before => 3,
            Status::Within => 4,
        }
    }
}
