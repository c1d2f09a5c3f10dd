//! Times exchanges of keys between a client's and a server's transport over toy parts against the hashes that both have to compute, and
//! data that one sends and the other takes against two HMACs of the same bytes.

use crate::hashes::Hashes;
use crate::ratio::Ratio;
use session::Session;
use std::time::{Duration, Instant};

mod session;

// How many exchanges, and how many messages of data, are timed at once.
const EXCHANGES: usize = 64;

const MESSAGES: usize = 32;

/// Prints the ratios of exchanges and of data.
///
/// # Errors
///
/// Errors of the clock and of standard output, or an end refuses a message that it should take.
pub fn measure(rt: &HostRuntime, rounds: u32) -> anyhow::Result<()> {
    println!(rt; "Times of two transports as ratios to the hashes that they have to compute")?;
    measure_exchanges(rt, rounds)?;
    measure_data(rt, rounds)
}

// Prints the ratios of a first exchange, with the making of both ends, and of a later one.
fn measure_exchanges(rt: &HostRuntime, rounds: u32) -> anyhow::Result<()> {
    let mut hashes = Hashes::new();
    let mut first = Duration::MAX;
    let mut later = Duration::MAX;
    let mut of_first = Duration::MAX;
    let mut of_later = Duration::MAX;
    for _ in 0..rounds {
        first = first.min(time_first(rt)?);
        later = later.min(time_later(rt)?);
        of_first = of_first.min(time_hashes(rt, &mut hashes, false)?);
        of_later = of_later.min(time_hashes(rt, &mut hashes, true)?);
    }
    println!(rt;
        "a first exchange and the making of both ends: {}; a later exchange: {}",
        Ratio(first, of_first),
        Ratio(later, of_later)
    )?;
    Ok(())
}

// The time of so many first exchanges.
fn time_first(rt: &HostRuntime) -> anyhow::Result<Duration> {
    let start = Instant::now(rt)?;
    for _ in 0..EXCHANGES {
        Session::new(rt.alloc())?.exchange()?;
    }
    Ok(start.elapsed(rt)?)
}

// That of so many later ones.
fn time_later(rt: &HostRuntime) -> anyhow::Result<Duration> {
    let mut session = Session::new(rt.alloc())?;
    session.exchange()?;
    session.authenticate();
    let start = Instant::now(rt)?;
    for _ in 0..EXCHANGES {
        session.rekey()?;
    }
    Ok(start.elapsed(rt)?)
}

// That of the hashes of as many.
fn time_hashes(rt: &HostRuntime, hashes: &mut Hashes, is_later: bool) -> anyhow::Result<Duration> {
    let start = Instant::now(rt)?;
    for _ in 0..EXCHANGES {
        hashes.of_exchange(is_later);
        if is_later {
            hashes.of_tags();
        }
    }
    Ok(start.elapsed(rt)?)
}

// Prints the ratio of 32 KiB of data, sent and taken, to two HMACs of its packet.
fn measure_data(rt: &HostRuntime, rounds: u32) -> anyhow::Result<()> {
    let mut session = Session::new(rt.alloc())?;
    session.exchange()?;
    let ratio = data_ratio(rt, &mut session, rounds)?;
    println!(rt; "32 KiB of data sent and taken, to two HMACs of the packet: {ratio}")?;
    Ok(())
}

fn data_ratio(rt: &HostRuntime, session: &mut Session, rounds: u32) -> anyhow::Result<Ratio> {
    let mut hashes = Hashes::new();
    let mut data = Duration::MAX;
    let mut hmacs = Duration::MAX;
    for _ in 0..rounds {
        data = data.min(time_data(rt, session)?);
        hmacs = hmacs.min(time_hmacs(rt, &mut hashes)?);
    }
    Ok(Ratio(data, hmacs))
}

// The time of so many messages with 32 KiB of data.
fn time_data(rt: &HostRuntime, session: &mut Session) -> anyhow::Result<Duration> {
    let body = [0x61; 32_768];
    let start = Instant::now(rt)?;
    for _ in 0..MESSAGES {
        session.data(&body)?;
    }
    Ok(start.elapsed(rt)?)
}

// That of two HMACs of the packet of each.
fn time_hmacs(rt: &HostRuntime, hashes: &mut Hashes) -> anyhow::Result<Duration> {
    let packet = [0x61; 32_796];
    let start = Instant::now(rt)?;
    for _ in 0..MESSAGES {
        hashes.mac(&packet);
        hashes.mac(&packet);
    }
    Ok(start.elapsed(rt)?)
}
