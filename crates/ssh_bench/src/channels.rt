//! Times taking a CHANNEL_DATA message with all channels in use against taking it with one.

use crate::ratio::Ratio;
use case::Case;
use ssh_types::bounds::MOST_CHANNELS;
use std::time::Duration;

mod case;

/// Prints the ratio.
///
/// # Errors
///
/// Errors of the clock and of standard output, or an end refuses a message that it should take.
pub fn measure(rt: &HostRuntime, rounds: u32) -> anyhow::Result<()> {
    let few = fastest(rt, &mut Case::new(rt.alloc(), 1)?, rounds)?;
    let many = fastest(rt, &mut Case::new(rt.alloc(), MOST_CHANNELS)?, rounds)?;
    println!(rt;
        "Time of taking a CHANNEL_DATA with all channels in use as a ratio to one: {}",
        Ratio(many, few)
    )?;
    Ok(())
}

// The shortest time of a round.
fn fastest(rt: &HostRuntime, case: &mut Case, rounds: u32) -> anyhow::Result<Duration> {
    let mut fastest = Duration::MAX;
    for _ in 0..rounds {
        fastest = fastest.min(case.take(rt)?);
    }
    Ok(fastest)
}
