//! Pairs of ends that have failed for good once their transcript found no memory.

use super::outcome::Outcome;
use ssh_end::{EndValues, Event, Pair};
use ssh_packet::MacOnly;
use ssh_toys::{
    CLIENT_COOKIE, CLIENT_SECRET, CREDENTIALS, SERVER_COOKIE, SERVER_SECRET, ToyClient, ToyJudge,
    ToyServer, ToyUserSigner, client_parts, config, server_parts, settings,
};
use ssh_trace::{EpochPair, Event as EpochEvent};
use ssh_types::Side;
use std::alloc::{AllocError, Global};

/// A pair that plays.
#[derive(Clone, Copy, Debug)]
pub enum Failing {
    Pair,
    EpochPair,
}

/// Each of them.
pub const FAILING: &[Failing] = &[Failing::Pair, Failing::EpochPair];

/// Plays. A pair that has failed plays nothing any more, and takes no cookie and secret.
///
/// # Errors
///
/// Only if memory is refused.
pub fn fail(alloc: Global, call: Failing) -> Result<Outcome, AllocError> {
    match call {
        Failing::Pair => play_pair(alloc),
        Failing::EpochPair => play_epoch_pair(alloc),
    }
}

// Each end is given the bytes that the other put out, so that memory is refused for one of their deaths, for one of
// the items, or for the bytes that are put out.
fn play_pair(alloc: Global) -> Result<Outcome, AllocError> {
    let client = EndValues {
        config: config(alloc, &settings(b"c"))?,
        parts: client_parts(),
        user: ToyUserSigner,
        cookie: CLIENT_COOKIE,
        secret: CLIENT_SECRET,
    };
    let server = EndValues {
        config: config(alloc, &settings(b"s"))?,
        parts: server_parts(),
        user: ToyJudge {
            credentials: CREDENTIALS,
        },
        cookie: SERVER_COOKIE,
        secret: SERVER_SECRET,
    };
    let (mut pair, opening) = Pair::<
        MacOnly,
        ToyClient,
        ToyUserSigner,
        ToyServer,
        ToyJudge<'static>,
    >::new(alloc, client, server)?;
    let events = [
        Event::Deliver(Side::Server, opening.client_bytes.as_slice()),
        Event::Deliver(Side::Client, opening.server_bytes.as_slice()),
    ];
    if pair.play(&events).is_ok() {
        return Ok(Outcome::Done);
    }
    let is_over = pair.play(&[]).is_err() && !pair.feed(Side::Client, [1; 16], [1; 32]);
    Ok(if is_over {
        Outcome::Refused
    } else {
        Outcome::Wrong
    })
}

fn play_epoch_pair(alloc: Global) -> Result<Outcome, AllocError> {
    let mut pair = match EpochPair::new(alloc, &[1; 32], &[2; 32]) {
        Ok(pair) => pair,
        Err(_) => return Err(AllocError),
    };
    if pair
        .play(&[EpochEvent::Ask(Side::Client, b"\x02\0\0\0\0")])
        .is_ok()
    {
        return Ok(Outcome::Done);
    }
    let is_over = pair.play(&[]).is_err();
    Ok(if is_over {
        Outcome::Refused
    } else {
        Outcome::Wrong
    })
}
