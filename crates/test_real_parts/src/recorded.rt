//! Sessions that OpenSSH 9.2p1 had with the two ends of `ssh_pipe`, recorded and played again: as they were, in pieces of one byte, and
//! with a byte changed in turn.
//!
//! They were recorded by the program `test_lines`, whose random bytes only count here: so it puts out the same bytes again, and those that
//! were recorded fit to them. **Never use it for anything else.** With P for its built file, from a directory with the keys of its data/:
//!
//! ```text
//! ssh -i user -o UserKnownHostsFile=known -o ProxyCommand='P server client_of_openssh' reader@example.org echo hello
//! sshd -i -f config <up >down & P client server_of_openssh >up <down
//! ```
//!
//! `ssh` ended the program before it had read its DISCONNECT, so the first recording has no end. What is as before where a byte is changed
//! is padding of a packet in clear, which no hash and no tag covers (RFC 4253 section 6).

mod keys;
mod playing;
mod recording;

use keys::Keys;
pub use playing::Role;
use playing::{Outcome, played};
use ssh_pipe::Ending;
use std::alloc::Global;
use std::fs;

/// Each of this many bytes is changed in turn.
const STRIDE: usize = 32;

/// Plays both recordings, and prints the results of the sessions.
///
/// # Errors
///
/// A file of data/ that can't be read, want of memory, or output that can't be written.
pub fn play_all(rt: &HostRuntime) -> anyhow::Result<()> {
    let keys = Keys::read(rt)?;
    for (role, file) in [
        (Role::Server, "client_of_openssh"),
        (Role::Client, "server_of_openssh"),
    ] {
        let bytes = fs::read(rt, file)?;
        println!(rt; "{file}, {} bytes", bytes.len())?;
        play(rt, &keys, role, bytes.as_slice())?;
    }
    Ok(())
}

/// Records a session: lets the end of this role go on over standard input and output, and keeps the bytes that come in a file.
///
/// # Errors
///
/// Those of the end, of standard input and output, and of the files.
pub fn record(rt: &HostRuntime, role: Role, file: &str) -> anyhow::Result<()> {
    recording::record(rt, &Keys::read(rt)?, role, file)
}

// Plays a recording, and says what became of the sessions.
fn play(rt: &HostRuntime, keys: &Keys, role: Role, bytes: &[u8]) -> anyhow::Result<()> {
    let alloc = rt.alloc();
    let whole = played(alloc, keys, role, bytes, bytes.len())?;
    let size = whole.out.len();
    match &whole.ending {
        Some(ending) => println!(rt; "as it was: {size} bytes are put out, and {ending}")?,
        None => println!(rt; "as it was: {size} bytes are put out")?,
    }
    let is_same = played(alloc, keys, role, bytes, 1)? == whole;
    println!(rt; "in pieces of one byte the same: {is_same}")?;
    let Counts {
        refused,
        same,
        other,
    } = counts_of(alloc, keys, role, bytes, &whole)?;
    println!(rt; "with a byte changed: {refused} refused, {same} as before, {other} otherwise")?;
    Ok(())
}

// What becomes of the sessions in which a byte is changed, where this became of the whole one.
fn counts_of(
    alloc: Global,
    keys: &Keys,
    role: Role,
    bytes: &[u8],
    whole: &Outcome,
) -> anyhow::Result<Counts> {
    let mut counts = Counts::default();
    for at in (0..bytes.len()).step_by(STRIDE) {
        let mut changed = bytes.to_vec(alloc)?;
        if let Some(byte) = changed.get_mut(at) {
            *byte ^= 1;
        }
        counts.add(
            &played(alloc, keys, role, changed.as_slice(), changed.len())?,
            whole,
        );
    }
    Ok(counts)
}

// What became of sessions in which a byte was changed.
#[derive(Clone, Copy, Default)]
struct Counts {
    refused: u32,
    // As if it had not been changed.
    same: u32,
    other: u32,
}

impl Counts {
    fn add(&mut self, outcome: &Outcome, whole: &Outcome) {
        let count = if outcome == whole {
            &mut self.same
        } else if matches!(outcome.ending, Some(Ending::Refused(_))) {
            &mut self.refused
        } else {
            &mut self.other
        };
        *count = count.saturating_add(1);
    }
}
