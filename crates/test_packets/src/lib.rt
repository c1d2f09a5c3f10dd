//! Tests of packets, transports and authentication, as the lines of files: a call, and after `> ` the expected result. The
//! public calls of `ssh_packet` come first, with the parts that a transport is handed. Recorded bytes of sessions of other implementations
//! come after them. The program `test_lines` has the files, and runs this.
#![tactic(auto)]

mod logins;
mod packet;
mod sessions;
mod words;

use logins::LoginLines;
use packet::{DirectionLines, PacketLines};
use sessions::SessionLines;
use ssh_toys::lines::compared;
use std::io;

/// Prints for each file how many lines were as expected, or which is the first that was not. Answers whether all were.
///
/// # Errors
///
/// Those of reading and writing, and want of memory.
pub fn compare(rt: &HostRuntime) -> io::Result<bool> {
    let packets = PacketLines::new(rt.alloc())?;
    let first = compared(rt, "packets.txt", packets)?;
    let directions = DirectionLines::new(rt.alloc())?;
    let second = compared(rt, "directions.txt", directions)?;
    let logins = compared(rt, "recorded_logins.txt", LoginLines::new(rt.alloc()))?;
    let sessions = compared(rt, "sessions.txt", SessionLines::new(rt.alloc()))?;
    Ok(first && second && logins && sessions)
}
