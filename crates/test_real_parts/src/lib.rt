//! Tests of ciphers, curves and the parts of an end that are made of them, by published vectors and by what other programs sealed and
//! signed: the lines of `ciphers.txt` and `parts.txt`.
//!
//! `play_all` plays the recorded sessions with OpenSSH, by real ends whose random bytes only count up, so that each run is the same. The
//! program `test_lines` has the files, and runs this.
#![tactic(auto)]

mod cipher_lines;
mod parts;
mod recorded;

use cipher_lines::CipherLines;
use parts::PartLines;
pub use recorded::{Role, play_all, record};
use ssh_toys::lines::compared;
use std::io;

/// Prints for each file how many lines were as expected, or which is the first that was not. Answers whether all were.
///
/// # Errors
///
/// Those of reading and writing, and want of memory.
pub fn compare(rt: &HostRuntime) -> io::Result<bool> {
    let ciphers = compared(rt, "ciphers.txt", CipherLines::new(rt.alloc()))?;
    let parts = compared(rt, "parts.txt", PartLines::new(rt.alloc()))?;
    Ok(ciphers && parts)
}
