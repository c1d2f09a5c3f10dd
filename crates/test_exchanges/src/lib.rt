//! Tests of exchanges of keys, as the lines of two files: a call, and after `> ` the expected result.
//!
//! In the first the transports of both roles are played against each other. The second has the values of an exchange: what is hashed,
//! chosen and derived. `show_draws` prints what two ends with real parts draw for their exchanges. The program `test_lines` has the files,
//! and runs this.
#![tactic(auto)]

mod ends;
mod exchanges;
mod forging;
mod kexinits;
mod key_exchange;
mod padding;
mod pair;
mod party;
mod supplies;
mod transcript;
mod values;

use exchanges::ExchangeLines;
use ssh_toys::lines::compared;
use std::io;
pub use supplies::show_draws;
use values::ValueLines;

/// Prints for each file how many lines were as expected, or which is the first that was not. Answers whether all were.
///
/// # Errors
///
/// Those of reading and writing, and want of memory.
pub fn compare(rt: &HostRuntime) -> io::Result<bool> {
    let exchanges = compared(rt, "exchanges.txt", ExchangeLines::new(rt.alloc()))?;
    let values = compared(rt, "values.txt", ValueLines::new(rt.alloc()))?;
    Ok(exchanges && values)
}
