//! Each public call that may answer want of memory, and those between packets and channels that need none.
//!
//! A call that memory is refused leaves what it was given as it was, gives nothing, and finds memory when it is made again. A transport and
//! an end are over instead, with nothing put out, and a pair of ends has failed. Between `taking` and `taken` stand the calls that need no
//! memory.

mod appending;
mod changing;
mod commands;
mod ends;
mod failing;
mod layered;
mod making;
mod outcome;
mod transports;
mod without;

use crate::status::Status;
use appending::{APPENDING, append};
use changing::{CHANGING, change};
use commands::{COMMANDS, carry_out};
use ends::converse;
use failing::{FAILING, fail};
use layered::{LAYERED, layer};
use making::{MAKING, make};
use outcome::Tally;
use transports::play;
use without::make_without;

/// Makes them all. Memory was refused before a call if it was refused while the call's arguments were made.
pub fn run(rt: &HostRuntime) -> Status {
    let alloc = rt.alloc();
    let mut tally = Tally::new();
    for call in APPENDING {
        tally.count(rt, call, append(alloc, call));
    }
    for call in MAKING {
        tally.count(rt, call, Ok(make(alloc, *call)));
    }
    for call in CHANGING {
        tally.count(rt, call, change(alloc, *call));
    }
    for call in LAYERED {
        tally.count(rt, call, layer(alloc, *call));
    }
    for call in FAILING {
        tally.count(rt, call, fail(alloc, *call));
    }
    for command in COMMANDS {
        tally.count(rt, command, carry_out(alloc, command));
    }
    tally.count(rt, &"transports", play(alloc));
    tally.count(rt, &"ends", converse(alloc));
    tally.count(rt, &"calls without memory", make_without(rt));
    tally.finish(rt)
}
