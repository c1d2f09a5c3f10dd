//! Times sessions of a client's and a server's end over toy parts against the hashes that both have to compute, data that one asks for and
//! the other tells against two HMACs of the same bytes, and a message among many against one among few.

use crate::hashes::Hashes;
use crate::ratio::Ratio;
use ssh_channels::{Ask as ChannelAsk, ChannelEvent};
use ssh_end::{Ask, Fault, Told};
use ssh_toys::ToyEnds;
use ssh_types::Side;
use std::time::{Duration, Instant};

// How many sessions, and how many messages of data, are timed at once.
const SESSIONS: usize = 64;

const MESSAGES: usize = 32;

const SMALL_MESSAGES: usize = 1_024;

// So many messages are compared with so many times as many.
const FEW: usize = 100;

const TIMES: usize = 100;

/// Prints the ratios of sessions and of data.
///
/// # Errors
///
/// Errors of the clock and of standard output, or an end refuses a message that it should take.
pub fn measure(rt: &HostRuntime, rounds: u32) -> anyhow::Result<()> {
    println!(rt; "Times of two ends as ratios to the hashes that they have to compute")?;
    measure_sessions(rt, rounds)?;
    measure_ends(rt, rounds, 32_768, MESSAGES)?;
    measure_ends(rt, rounds, 64, SMALL_MESSAGES)?;
    measure_showing(rt, rounds)?;
    measure_many(rt)
}

// Prints the ratio of a whole session of two ends, with the making of both, to its hashes.
fn measure_sessions(rt: &HostRuntime, rounds: u32) -> anyhow::Result<()> {
    let mut hashes = Hashes::new();
    let mut sessions = Duration::MAX;
    let mut of_sessions = Duration::MAX;
    for _ in 0..rounds {
        sessions = sessions.min(time_sessions(rt)?);
        of_sessions = of_sessions.min(time_hashes(rt, &mut hashes)?);
    }
    println!(rt;
        "a whole session of two ends, and the making of both: {}",
        Ratio(sessions, of_sessions)
    )?;
    Ok(())
}

// The time of so many sessions.
fn time_sessions(rt: &HostRuntime) -> anyhow::Result<Duration> {
    let start = Instant::now(rt)?;
    for _ in 0..SESSIONS {
        hold_session(&mut ToyEnds::new(rt.alloc())?)?;
    }
    Ok(start.elapsed(rt)?)
}

// A whole session of these ends.
fn hold_session(ends: &mut ToyEnds) -> Result<(), Fault> {
    ends.begin()?;
    pass_data(ends, b"hi")?;
    close(ends)
}

// The time of the hashes of as many.
fn time_hashes(rt: &HostRuntime, hashes: &mut Hashes) -> anyhow::Result<Duration> {
    let start = Instant::now(rt)?;
    for _ in 0..SESSIONS {
        hashes.of_exchange(false);
        hashes.of_session();
    }
    Ok(start.elapsed(rt)?)
}

// Prints the ratio of data, asked for at one end, taken by the other and told, to two HMACs of their packet.
fn measure_ends(rt: &HostRuntime, rounds: u32, size: usize, messages: usize) -> anyhow::Result<()> {
    let mut ends = ToyEnds::new(rt.alloc())?;
    ends.begin()?;
    let ratio = data_ratio(rt, &mut ends, rounds, size, messages)?;
    println!(rt;
        "{} bytes of data through both ends, to two HMACs of the packet: {ratio}",
        told(&ends)
    )?;
    Ok(())
}

fn data_ratio(
    rt: &HostRuntime,
    ends: &mut ToyEnds,
    rounds: u32,
    size: usize,
    messages: usize,
) -> anyhow::Result<Ratio> {
    let bytes = [0x61; 32_800];
    let body = bytes.get(..size).unwrap_or(&[]);
    let packet = bytes.get(..text_of_data(size)).unwrap_or(&[]);
    let mut hashes = Hashes::new();
    let mut data = Duration::MAX;
    let mut hmacs = Duration::MAX;
    for _ in 0..rounds {
        data = data.min(time_data(rt, ends, body, messages)?);
        hmacs = hmacs.min(time_hmacs(rt, &mut hashes, packet, messages)?);
    }
    Ok(Ratio(data, hmacs))
}

// The client sends data, the server takes them, and its user is told.
fn pass_data(ends: &mut ToyEnds, body: &[u8]) -> Result<(), Fault> {
    ends.send(Side::Client, body)?;
    ends.take(Side::Server)?;
    Ok(())
}

// The client closes the channel, and the server does.
fn close(ends: &mut ToyEnds) -> Result<(), Fault> {
    let close = ChannelAsk::Close { channel: 0 };
    ends.ask(Side::Client, &Ask::Connection(close))?;
    ends.pass()
}

// How many bytes of data the server's user was told last.
fn told(ends: &ToyEnds) -> usize {
    match ends.last_turn(Side::Server).told {
        Some(Told::Channel(ChannelEvent::GotData { body, .. })) => body.len(),
        _ => 0,
    }
}

// How many bytes the tag of a CHANNEL_DATA with so many bytes of data covers: its number, and the packet in blocks of 8 with at least 4
// bytes of padding (RFC 4253 section 6).
fn text_of_data(size: usize) -> usize {
    let least = size.saturating_add(5 + 9 + 4);
    least.saturating_add(7) / 8 * 8 + 4
}

// The time of so many messages.
fn time_data(
    rt: &HostRuntime,
    ends: &mut ToyEnds,
    body: &[u8],
    messages: usize,
) -> anyhow::Result<Duration> {
    let start = Instant::now(rt)?;
    for _ in 0..messages {
        pass_data(ends, body)?;
    }
    Ok(start.elapsed(rt)?)
}

// That of two HMACs of the packet of each.
fn time_hmacs(
    rt: &HostRuntime,
    hashes: &mut Hashes,
    packet: &[u8],
    messages: usize,
) -> anyhow::Result<Duration> {
    let start = Instant::now(rt)?;
    for _ in 0..messages {
        hashes.mac(packet);
        hashes.mac(packet);
    }
    Ok(start.elapsed(rt)?)
}

// Prints what it costs to show a turn once more: its message is decoded again, and what is told of it is made again.
fn measure_showing(rt: &HostRuntime, rounds: u32) -> anyhow::Result<()> {
    let mut ends = ToyEnds::new(rt.alloc())?;
    ends.begin()?;
    let mut shown = Duration::MAX;
    let mut passed = Duration::MAX;
    let mut bytes = 0;
    for _ in 0..rounds {
        passed = passed.min(time_data(rt, &mut ends, &[0x61; 64], SMALL_MESSAGES)?);
        let (taken, told) = time_shown(rt, &mut ends, &[0x61; 64], SMALL_MESSAGES)?;
        shown = shown.min(taken);
        bytes = told / SMALL_MESSAGES;
    }
    println!(rt;
        "{bytes} bytes of data through both ends, and their turn shown once more, to the same without: {}",
        Ratio(shown, passed)
    )?;
    Ok(())
}

// The time of so many messages, each of which is shown once more, and the bytes of all of them as they are told.
fn time_shown(
    rt: &HostRuntime,
    ends: &mut ToyEnds,
    body: &[u8],
    messages: usize,
) -> anyhow::Result<(Duration, usize)> {
    let mut bytes: usize = 0;
    let start = Instant::now(rt)?;
    for _ in 0..messages {
        pass_data(ends, body)?;
        bytes = bytes.saturating_add(told(ends));
    }
    Ok((start.elapsed(rt)?, bytes))
}

// The time of so many messages of 64 bytes between two ends of their own.
fn time_small(rt: &HostRuntime, messages: usize) -> anyhow::Result<Duration> {
    let mut ends = ToyEnds::new(rt.alloc())?;
    ends.begin()?;
    time_data(rt, &mut ends, &[0x61; 64], messages)
}

// Prints what a message costs among many, as a ratio to one among few.
fn measure_many(rt: &HostRuntime) -> anyhow::Result<()> {
    let mut few = Duration::ZERO;
    for _ in 0..TIMES {
        few = few.saturating_add(time_small(rt, FEW)?);
    }
    let many = time_small(rt, FEW * TIMES)?;
    println!(rt;
        "a message among {} to one among {}: {}",
        FEW * TIMES,
        FEW,
        Ratio(many, few)
    )?;
    Ok(())
}
