//! The outcomes of calls.

use crate::status::Status;
use std::alloc::AllocError;
use std::fmt::Debug;

/// The outcome of a call.
#[derive(Clone, Copy, Debug, PartialEq, Eq)]
pub enum Outcome {
    /// It found memory.
    Done,
    /// It was refused memory, and all is as it has to be then.
    Refused,
    /// Everything else.
    Wrong,
}

/// Done if the first call found memory. Refused if the second did and the value between them is as it was.
pub fn came(is_first: bool, is_kept: bool, is_second: bool) -> Outcome {
    match (is_first, is_kept && is_second) {
        (true, _) => Outcome::Done,
        (false, true) => Outcome::Refused,
        (false, false) => Outcome::Wrong,
    }
}

/// The outcome of all calls so far.
#[derive(Clone, Copy)]
pub struct Tally {
    done: usize,
    refused: usize,
    unprepared: usize,
    wrong: usize,
}

impl Tally {
    /// No calls.
    pub fn new() -> Tally {
        Tally {
            done: 0,
            refused: 0,
            unprepared: 0,
            wrong: 0,
        }
    }

    /// Counts a call. An error means that memory was refused for the call's arguments.
    pub fn count<C: Debug>(
        &mut self,
        rt: &HostRuntime,
        call: &C,
        came: Result<Outcome, AllocError>,
    ) {
        match came {
            Ok(Outcome::Done) => self.done = self.done.saturating_add(1),
            Ok(Outcome::Refused) => self.refused = self.refused.saturating_add(1),
            Ok(Outcome::Wrong) => {
                self.wrong = self.wrong.saturating_add(1);
                let _ = println!(rt; "wrong: {call:?}");
            }
            Err(_) => self.unprepared = self.unprepared.saturating_add(1),
        }
    }

    /// Says how many calls found memory, if all did.
    pub fn finish(&self, rt: &HostRuntime) -> Status {
        if self.wrong > 0 {
            return Status::Wrong;
        }
        if self.refused > 0 {
            return Status::Within;
        }
        if self.unprepared > 0 {
            return Status::Before;
        }
        let _ = println!(rt; "{} calls found memory", self.done);
        Status::Done
    }
}
