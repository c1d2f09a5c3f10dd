//! Times X25519 and Ed25519 by both programs.

use crate::ratio::Ratio;
use ciphers::ed25519::KeyPair;
use ssh_toys::plain::PlainPair;
use std::time::{Duration, Instant};

const MESSAGE: [u8; 64] = [0x61; 64];

// How many calls are timed at once.
const CALLS: usize = 8;

/// Prints the ratios of an agreement, of a signature, and of its verification.
///
/// # Errors
///
/// Standard output can't be written to, or memory is refused.
pub fn measure(rt: &HostRuntime, rounds: u32) -> anyhow::Result<()> {
    measure_agreement(rt, rounds)?;
    measure_signing(rt, rounds)?;
    measure_verifying(rt, rounds)
}

fn measure_agreement(rt: &HostRuntime, rounds: u32) -> anyhow::Result<()> {
    let mut times = (Duration::MAX, Duration::MAX);
    let mut points = ([9; 32], [9; 32]);
    for _ in 0..rounds {
        let start = Instant::now(rt)?;
        for _ in 0..CALLS {
            points.0 = ssh_toys::plain::x25519(&[0x5a; 32], &points.0);
        }
        times.0 = times.0.min(start.elapsed(rt)?);
        let start = Instant::now(rt)?;
        for _ in 0..CALLS {
            points.1 = ciphers::x25519::x25519(&[0x5a; 32], &points.1);
        }
        times.1 = times.1.min(start.elapsed(rt)?);
    }
    let same = points.0 == points.1;
    println!(rt;
        "X25519: {} (same bytes: {same}; {} a second)",
        Ratio(times.0, times.1),
        calls(times.1)
    )?;
    Ok(())
}

fn measure_signing(rt: &HostRuntime, rounds: u32) -> anyhow::Result<()> {
    let plain = PlainPair::from_seed(&[7; 32]);
    let pair = KeyPair::from_seed(&[7; 32]);
    let mut times = (Duration::MAX, Duration::MAX);
    let mut same = true;
    for _ in 0..rounds {
        let mut signatures = ([0; 64], [0; 64]);
        let start = Instant::now(rt)?;
        for _ in 0..CALLS {
            signatures.0 = plain.sign(&signatures.0);
        }
        times.0 = times.0.min(start.elapsed(rt)?);
        let start = Instant::now(rt)?;
        for _ in 0..CALLS {
            signatures.1 = pair.sign(&signatures.1);
        }
        times.1 = times.1.min(start.elapsed(rt)?);
        same = same && signatures.0 == signatures.1;
    }
    println!(rt;
        "Ed25519: signing {} (same bytes: {same}; {} a second)",
        Ratio(times.0, times.1),
        calls(times.1)
    )?;
    Ok(())
}

fn measure_verifying(rt: &HostRuntime, rounds: u32) -> anyhow::Result<()> {
    let pair = KeyPair::from_seed(&[7; 32]);
    let signature = pair.sign(&MESSAGE);
    let mut times = (Duration::MAX, Duration::MAX);
    let mut good = (0u32, 0u32);
    for _ in 0..rounds {
        let start = Instant::now(rt)?;
        for _ in 0..CALLS {
            if ssh_toys::plain::verify(pair.public(), &MESSAGE, &signature) {
                good.0 = good.0.saturating_add(1);
            }
        }
        times.0 = times.0.min(start.elapsed(rt)?);
        let start = Instant::now(rt)?;
        for _ in 0..CALLS {
            if ciphers::ed25519::verify(pair.public(), &MESSAGE, &signature) {
                good.1 = good.1.saturating_add(1);
            }
        }
        times.1 = times.1.min(start.elapsed(rt)?);
    }
    let same = good.0 == good.1 && good.1 != 0;
    println!(rt;
        "Ed25519: verifying {} (same answers: {same}; {} a second)",
        Ratio(times.0, times.1),
        calls(times.1)
    )?;
    Ok(())
}

// How many calls a second those are that were timed at once.
fn calls(time: Duration) -> u128 {
    (CALLS as u128).saturating_mul(1_000_000_000) / time.as_nanos().max(1)
}
