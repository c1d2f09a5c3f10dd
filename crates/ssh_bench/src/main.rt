//! Prints ratios of times, each the fastest of several rounds.
//!
//! - `run ROUNDS`: packets and real parts to the HMAC-SHA-256 of the same bytes, exchanges of keys, data and sessions to the hashes that
//!   they have to compute, and many channels to one.
//! - `ciphers ROUNDS`: how many times faster the crate `ciphers` is than the plain programs of `ssh_toys::plain`.
//!
//! Called otherwise, it says so and times nothing.
#![tactic(auto)]

use call::{Call, call_of};

mod call;
mod channels;
mod cipher_times;
mod ends;
mod exchanges;
mod hashes;
mod packets;
mod parts;
mod ratio;

fn main(rt: HostRuntime) -> anyhow::Result<()> {
    match call_of(&rt)? {
        Some(Call::Run(rounds)) => run(&rt, rounds),
        Some(Call::Ciphers(rounds)) => cipher_times::measure(&rt, rounds),
        None => {
            println!(rt; "usage: ssh_bench run ROUNDS")?;
            println!(rt; "       ssh_bench ciphers ROUNDS")?;
            Ok(())
        }
    }
}

// Prints the ratios of the core's work.
fn run(rt: &HostRuntime, rounds: u32) -> anyhow::Result<()> {
    println!(rt; "The fastest of {rounds} rounds")?;
    packets::measure(rt, rounds)?;
    parts::measure(rt, rounds)?;
    exchanges::measure(rt, rounds)?;
    ends::measure(rt, rounds)?;
    channels::measure(rt, rounds)
}
