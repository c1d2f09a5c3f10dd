//! The commands of the program. Where memory is refused a command prints nothing, says so, and ends as a fault; but of an end that died for
//! want of memory the transcript says just that.

use super::outcome::Outcome;
use ssh_trace::{Status, check_to, decode_to, draw_to, play_to};
use std::alloc::{AllocError, Global};

/// A command.
#[derive(Clone, Copy, Debug)]
pub enum Command {
    Decode,
    /// Of a session or of one epoch.
    Play(&'static str),
    Check(&'static str),
    /// Of one epoch: of a session, no picture says for what an end died.
    Draw(&'static str),
}

/// Each of them. A sweep plays some thousand times, and reads and says what it does as the others do.
pub const COMMANDS: &[Command] = &[
    Command::Decode,
    Command::Play(SESSION),
    Command::Play(EPOCH),
    Command::Check(SESSION),
    Command::Check(EPOCH),
    Command::Draw(EPOCH),
];

const SESSION: &str = "\
pass c s 11
> c sent line 9
> c sent 20 KEXINIT 165
> s sent line 9
> s sent 20 KEXINIT 165
> s took line 9
pass s c all
> c took line 9
> c took 20 KEXINIT 165
> c sent 30 KEX_ECDH_INIT 37
";

const EPOCH: &str = "\
epoch 1111111111111111111111111111111111111111111111111111111111111111 2222222222222222222222222222222222222222222222222222222222222222
ask c raw 0200000000
> c asked raw
> c sent 2 IGNORE 5
pass c s all
> s took 2 IGNORE 5
";

// What a command answers and says.
#[derive(Drop)]
struct Said {
    status: Status,
    out: Vec<u8>,
    err: Vec<u8>,
}

// More bytes than any of the commands prints.
const ROOM: usize = 8192;

/// Carries the command out twice, of which one may be refused memory.
///
/// # Errors
///
/// Only if memory is refused.
pub fn carry_out(alloc: Global, command: &Command) -> Result<Outcome, AllocError> {
    let one = say(alloc, command)?;
    let other = say(alloc, command)?;
    Ok(if is_whole(&one) && is_whole(&other) {
        same(one.out.as_slice() == other.out.as_slice())
    } else if is_whole(&one) {
        refused(&other, command)
    } else if is_whole(&other) {
        refused(&one, command)
    } else {
        Outcome::Wrong
    })
}

fn say(alloc: Global, command: &Command) -> Result<Said, AllocError> {
    let mut out = Vec::with_capacity(alloc, ROOM)?;
    let mut err = Vec::with_capacity(alloc, ROOM)?;
    let status = run(alloc, command, &mut out, &mut err);
    Ok(Said { status, out, err })
}

fn run(alloc: Global, command: &Command, out: &mut Vec<u8>, err: &mut Vec<u8>) -> Status {
    match command {
        Command::Decode => decode_to(alloc, "0000000c0a1500000000000000000000", out, err),
        Command::Play(script) => play_to(alloc, &mut script.as_bytes(), out, err),
        Command::Check(script) => check_to(alloc, &mut script.as_bytes(), out, err),
        Command::Draw(script) => draw_to(alloc, "script", &mut script.as_bytes(), out, err),
    }
}

// Whether all was said, and of no end that it died.
fn is_whole(said: &Said) -> bool {
    let is_said = said.err.is_empty() && !said.out.is_empty();
    said.status == Status::Done && is_said && !says_death(said)
}

fn says_death(said: &Said) -> bool {
    said.out
        .windows(6)
        .any(|text| text == b" died\n".as_slice())
}

fn same(is_same: bool) -> Outcome {
    if is_same {
        Outcome::Done
    } else {
        Outcome::Wrong
    }
}

// What a command that was refused memory came to.
fn refused(said: &Said, command: &Command) -> Outcome {
    let is_right = match said.status {
        Status::Fault => said.out.is_empty() && tells_of_memory(said.err.as_slice()),
        Status::Refused => matches!(command, Command::Check(_))
            && said.out.starts_with(b"differs at "),
        Status::Done => said.err.is_empty() && says_death(said),
    };
    if is_right {
        Outcome::Refused
    } else {
        Outcome::Wrong
    }
}

// Whether this is said on standard error of an allocation that was refused, be it while the script was read.
fn tells_of_memory(text: &[u8]) -> bool {
    text.starts_with(b"error: ") && text.ends_with(b"out of memory\n")
}
