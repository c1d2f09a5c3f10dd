//! Two sessions, one of them with a second exchange of keys, each played twice and compared. Where an allocation is refused, one of the two
//! plays meets that, and it has to end in one of two ways. Either it says that memory was refused, and nothing else. Or one end has died
//! and the other has not: what was done before is what the other play did, the end put out the bytes of what it had sent before that call
//! and no more, and the payloads that each end took after its first NEWKEYS are a prefix of those that the other sent after its own.
//!
//! The scripts are read before `playing` is said. While they are read a smaller allocation may make up for one that is refused; from then
//! on none may, so a play that met a refusal and did all the same is wrong.

mod bytes;

use crate::status::Status;
use bytes::sent_bytes;
use ssh_end::{Done, Item};
use ssh_play::{Course, play_through};
use ssh_script::{Script, ScriptFault, SessionScript};
use ssh_types::Side;
use std::alloc::{AllocError, Global};

// The user u is let in.
const LOGIN: &str = "\
user u p
pass c s all
pass s c all
pass c s all
pass s c all
pass c s all
ask c service
pass c s all
pass s c all
ask c password u p
pass c s all
pass s c all
";

// Data on a channel.
const CHANNEL: &str = "\
ask c open session 10 32768
pass c s all
ask s confirm 0 10 32768
pass s c all
ask c data 0 6869
pass c s all
ask c close 0
pass c s all
pass s c all
";

// A second exchange of keys. An end that died before is fed no more, and that line is left out.
const REKEY: &str = "\
feed c a2
feed s b2
ask c rekey
pass c s all
pass s c all
pass c s all
pass s c all
pass c s all
";

/// Plays and compares. It counts as before if memory was refused to the scripts, and to a play that says so, and as within where an end
/// died.
pub fn run(rt: &HostRuntime) -> Status {
    let alloc = rt.alloc();
    let (channel, rekey) = match (script_of(alloc, CHANNEL), script_of(alloc, REKEY)) {
        (Ok(channel), Ok(rekey)) => (channel, rekey),
        (Err(ScriptFault::Memory), _) | (_, Err(ScriptFault::Memory)) => return Status::Before,
        _ => return Status::Wrong,
    };
    let _ = println!(rt; "playing");
    let mut status = Status::Done;
    for script in [&channel, &rekey] {
        match twice(alloc, script) {
            Status::Done => {}
            Status::Wrong => {
                let _ = println!(rt; "wrong");
                return Status::Wrong;
            }
            refused => status = refused,
        }
    }
    if status == Status::Done {
        let _ = println!(rt; "the same");
    }
    status
}

// The script that goes on so once the user is let in.
fn script_of(alloc: Global, rest: &str) -> Result<SessionScript, ScriptFault> {
    let script = format!(in alloc; "{LOGIN}{rest}")?;
    match Script::read(alloc, script.as_bytes())? {
        Script::Session(script) => Ok(script),
        Script::Epoch(_) => Err(ScriptFault::Epoch),
    }
}

// Plays a script twice. One allocation is refused at most, so one of the two plays is whole, and the comparison meets a refusal only where
// both are.
fn twice(alloc: Global, script: &SessionScript) -> Status {
    match (play_through(alloc, script), play_through(alloc, script)) {
        (Ok(one), Ok(other)) => compared(alloc, &one, &other).unwrap_or(Status::Wrong),
        (Ok(_), Err(ScriptFault::Memory)) | (Err(ScriptFault::Memory), Ok(_)) => Status::Before,
        _ => Status::Wrong,
    }
}

// Compares two plays. The one in which an end died did less than the other.
fn compared(alloc: Global, one: &Course, other: &Course) -> Result<Status, AllocError> {
    let is_right = match (death_in(one), death_in(other)) {
        (None, None) => return Ok(of_whole(one, other)),
        (Some(death), None) => is_cut(one, other, death),
        (None, Some(death)) => is_cut(other, one, death),
        (Some(_), Some(_)) => false,
    };
    Ok(if is_right && one.is_safe(alloc)? && other.is_safe(alloc)? {
        Status::Within
    } else {
        Status::Wrong
    })
}

// Two plays in which no end died are the same.
fn of_whole(one: &Course, other: &Course) -> Status {
    let are_same = one.items == other.items
        && one.client_bytes == other.client_bytes
        && one.server_bytes == other.server_bytes;
    if are_same && is_whole(one) {
        Status::Done
    } else {
        Status::Wrong
    }
}

// Whether each end put out the bytes of what it sent.
fn is_whole(course: &Course) -> bool {
    let items = course.items.as_slice();
    sent_bytes(items, Side::Client) == course.client_bytes.len()
        && sent_bytes(items, Side::Server) == course.server_bytes.len()
}

// The index at which an end died.
fn death_in(course: &Course) -> Option<usize> {
    course.items.iter().position(|done| is_death(done))
}

fn is_death(done: &Done) -> bool {
    done.item == Item::Died
}

// Whether a play is the beginning of another one until one of its ends died at this index, and alone.
fn is_cut(cut: &Course, whole: &Course, death: usize) -> bool {
    let items = cut.items.as_slice();
    let (Some(before), Some(died)) = (items.get(..death), items.get(death)) else {
        return false;
    };
    let deaths = items.iter().filter(|done| is_death(done)).count();
    let put_out = cut.put_out(died.side);
    deaths == 1
        && whole.items.as_slice().starts_with(before)
        && whole.put_out(died.side).starts_with(put_out)
        && put_out.len() == sent_bytes(before, died.side)
        && is_whole(cut)
        && is_whole(whole)
}
