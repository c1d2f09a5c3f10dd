//! A script as it was read.

ghost use Rattle.std.specs.Prelude.{◌≡◌, ◌<◌, ◌^◌, Err, length};
ghost use Rattle.ssh_script.specs.declared.script_fault.ScriptFault.TheVariants.{TooLong};

use crate::ask_line::AskLine;
use crate::delivery::Delivery;
use crate::line::Line;
use crate::reading::Reading;
use crate::script_fault::ScriptFault;
use crate::setup::Setup;
use ssh_types::Side;
use std::alloc::Global;

/// The most bytes that a script may have: 16 MiB.
pub const MOST_SCRIPT_BYTES: usize = 16_777_216;

/// A script of either kind.
#[derive(Drop)]
pub enum Script {
    Epoch(EpochScript),
    Session(SessionScript),
}

/// Two directions under keys that are given, without an exchange: its first line is `epoch K1 K2`.
#[derive(Drop)]
pub struct EpochScript {
    pub keys: Keys,
    /// What is done, in the order of the lines.
    pub steps: Vec<Line<EpochStep>>,
    /// The lines that are expected of the transcript.
    pub expected: Vec<String>,
}

/// Two ends from their version lines on.
#[derive(Drop)]
pub struct SessionScript {
    pub setup: Setup,
    /// What is done, in the order of the lines.
    pub steps: Vec<Line<Step>>,
    /// The lines that are expected of the transcript.
    pub expected: Vec<String>,
}

/// The keys of the two directions.
#[derive(Clone, Copy)]
pub struct Keys {
    /// From the client to the server.
    pub client: [u8; 32],
    /// From the server to the client.
    pub server: [u8; 32],
}

/// The effect of a line of an epoch.
#[derive(Drop)]
pub enum EpochStep {
    /// Asks a side to send this payload, of at least one byte.
    Ask { side: Side, payload: Vec<u8> },
    Network(Delivery),
}

/// The effect of a line of a session.
#[derive(Drop)]
pub enum Step {
    /// Feeds a side a cookie and a secret for its next exchange, all bytes of both equal to this one.
    Feed { side: Side, byte: u8 },
    Ask { side: Side, ask: AskLine },
    Network(Delivery),
}

impl Script {
    /// Reads all lines of a script.
    ///
    /// # Errors
    ///
    /// `TooLong` for more than `MOST_SCRIPT_BYTES`. The fault of the first line that is wrong, with the line's number and what is possible
    /// there. `Memory` comes only if memory was refused.
    pub fn read(alloc: Global, text: &[u8]) -> Result<Script, ScriptFault>
        ensures { 2 ^ 24 < length text.now → result ≡ Err TooLong }
    {
        if text.len() > MOST_SCRIPT_BYTES {
            return Err(ScriptFault::TooLong);
        }
        let mut reading = Reading::new(alloc);
        for (before, bytes) in text.split(|byte| *byte == b'\n').enumerate() {
            let number = before.saturating_add(1);
            if let Err(fault) = reading.take(number, bytes) {
                return Err(ScriptFault::at(alloc, number, fault));
            }
        }
        Ok(reading.end())
    }
}
