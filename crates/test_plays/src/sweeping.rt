//! The command that sweeps, over a script that delivers one line. Where memory is refused, it says so and nothing else, or it finds the
//! same. The second `feed` is one that the end doesn't take, since it keeps a pair: a sweep leaves it out.

use crate::status::Status;
use ssh_trace::{Status as Answered, sweep_to};
use std::alloc::{AllocError, Global};

const SCRIPT: &str = "\
feed c a1
feed c a2
pass c s 11
";

// Each end puts out its line, 11 bytes, and the packet of a KEXINIT of 165 bytes, which is 176. Each of these 374 bytes is changed, left
// out and doubled.
const WHOLE: &[u8] = b"1122 runs, 0 unsafe\n";

// What is said where memory is refused, be it while the script is read.
const REFUSED: &[u8] = b"out of memory\n";

// More bytes than are printed.
const ROOM: usize = 1024;

/// Sweeps, and says whether all was well. Memory was refused within if the command says so.
pub fn run(rt: &HostRuntime) -> Status {
    let status = swept(rt.alloc()).unwrap_or(Status::Before);
    let _ = match status {
        Status::Done => println!(rt; "swept"),
        Status::Wrong => println!(rt; "wrong"),
        _ => Ok(()),
    };
    status
}

fn swept(alloc: Global) -> Result<Status, AllocError> {
    let mut out = Vec::with_capacity(alloc, ROOM)?;
    let mut err = Vec::with_capacity(alloc, ROOM)?;
    let answered = sweep_to(alloc, &mut SCRIPT.as_bytes(), &mut out, &mut err);
    let is_whole = err.is_empty() && out.as_slice() == WHOLE;
    let is_refused = out.is_empty() && err.as_slice().ends_with(REFUSED);
    Ok(match answered {
        Answered::Done if is_whole => Status::Done,
        Answered::Fault if is_refused => Status::Within,
        _ => Status::Wrong,
    })
}
