//! The ends of both roles. If memory is refused to one of their calls, nothing is put out, and the end is over.

use super::outcome::Outcome;
use ssh_auth::UserAsk;
use ssh_channels::Ask as ChannelAsk;
use ssh_end::{Ask, Fault};
use ssh_toys::ToyEnd;
use ssh_types::Side;
use std::alloc::{AllocError, Global};

// An end, what it put out, and how much of that was passed.
#[derive(Drop)]
struct Line {
    end: ToyEnd,
    out: Vec<u8>,
    passed: usize,
}

// What is done, one after the other: bytes of one end reach the other, an end is asked, or both are fed.
#[derive(Clone, Copy)]
enum Act {
    Pass(Side),
    Ask(Side, Ask<'static>),
    Feed,
}

const CLIENT: Act = Act::Pass(Side::Client);

const SERVER: Act = Act::Pass(Side::Server);

const LOGIN: Act = Act::Ask(
    Side::Client,
    Ask::User(UserAsk::Sign {
        user: b"u",
        algorithm: b"toy@example.com",
        key: b"k",
    }),
);

const OPEN: Act = Act::Ask(
    Side::Client,
    Ask::Connection(ChannelAsk::Open {
        kind: b"session",
        window: 10,
        max_packet: 32_768,
        rest: b"",
    }),
);

const CONFIRM: Act = Act::Ask(
    Side::Server,
    Ask::Connection(ChannelAsk::Confirm {
        channel: 0,
        window: 10,
        max_packet: 32_768,
        rest: b"",
    }),
);

const DATA: Act = Act::Ask(
    Side::Client,
    Ask::Connection(ChannelAsk::Data {
        channel: 0,
        kind: None,
        body: b"hi",
    }),
);

const CLOSE: Act = Act::Ask(
    Side::Client,
    Ask::Connection(ChannelAsk::Close { channel: 0 }),
);

// The first exchange of keys, a user, a channel, a second exchange, and the end of both.
const ACTS: &[Act] = &[
    CLIENT,
    SERVER,
    CLIENT,
    SERVER,
    CLIENT,
    Act::Ask(Side::Client, Ask::Service),
    CLIENT,
    SERVER,
    LOGIN,
    CLIENT,
    SERVER,
    OPEN,
    CLIENT,
    CONFIRM,
    SERVER,
    DATA,
    CLIENT,
    Act::Feed,
    Act::Ask(Side::Server, Ask::Rekey),
    SERVER,
    CLIENT,
    SERVER,
    CLIENT,
    SERVER,
    CLOSE,
    CLIENT,
    SERVER,
    Act::Ask(Side::Server, Ask::Disconnect(b"x")),
    SERVER,
];

/// Plays both ends against each other.
///
/// # Errors
///
/// Only if memory is refused before the first call.
pub fn converse(alloc: Global) -> Result<Outcome, AllocError> {
    let mut client = opened(alloc, Side::Client)?;
    let mut server = opened(alloc, Side::Server)?;
    for act in ACTS {
        let came = carry_out(act, &mut client, &mut server);
        if came != Outcome::Done {
            return Ok(came);
        }
    }
    let session_id = client.end.session_id();
    let is_one = session_id.is_some() && session_id == server.end.session_id();
    Ok(if is_one && client.end.is_dead() && server.end.is_dead() {
        Outcome::Done
    } else {
        Outcome::Wrong
    })
}

// An end after what it put out.
fn opened(alloc: Global, side: Side) -> Result<Line, AllocError> {
    let mut out = Vec::new(alloc);
    let end = ToyEnd::new(alloc, side, &mut out)?;
    Ok(Line {
        end,
        out,
        passed: 0,
    })
}

fn carry_out(act: &Act, client: &mut Line, server: &mut Line) -> Outcome {
    match act {
        Act::Pass(Side::Client) => pass(client, server),
        Act::Pass(Side::Server) => pass(server, client),
        Act::Ask(Side::Client, asked) => ask(client, asked),
        Act::Ask(Side::Server, asked) => ask(server, asked),
        Act::Feed => {
            let is_fed = client.end.feed_material([0xa2; 16], [0xa2; 32])
                && server.end.feed_material([0xb2; 16], [0xb2; 32]);
            if is_fed {
                Outcome::Done
            } else {
                Outcome::Wrong
            }
        }
    }
}

// All waiting bytes of one end reach the other.
fn pass(from: &mut Line, to: &mut Line) -> Outcome {
    for _ in 0..8 {
        let bytes = to.out.len();
        let Some(waiting) = from.out.as_slice().get(from.passed..) else {
            break;
        };
        if waiting.is_empty() {
            break;
        }
        let (used, fault) = match to.end.take(waiting, &mut to.out) {
            Ok(turn) => (turn.used, None),
            Err(fault) => (0, Some(fault)),
        };
        from.passed = from.passed.saturating_add(used);
        let came = outcome_of(to, fault, bytes);
        if came != Outcome::Done {
            return came;
        }
    }
    Outcome::Done
}

// An end is asked.
fn ask(line: &mut Line, ask: &Ask<'_>) -> Outcome {
    let bytes = line.out.len();
    let fault = line.end.ask(ask, &mut line.out).err();
    outcome_of(line, fault, bytes)
}

// What a call came to that answered this, where so many bytes were there before.
fn outcome_of(line: &mut Line, fault: Option<Fault>, bytes: usize) -> Outcome {
    match fault {
        None => Outcome::Done,
        Some(Fault::Memory) if line.out.len() == bytes && is_over(line) => Outcome::Refused,
        Some(_) => Outcome::Wrong,
    }
}

// Whether an end is over: it takes nothing, does nothing that it is asked, and is fed no more.
fn is_over(line: &mut Line) -> bool {
    let bytes = line.out.len();
    let asked = line.end.ask(&Ask::Rekey, &mut line.out).err();
    let taken = line.end.take(b"\0", &mut line.out).err();
    line.end.is_dead()
        && asked == Some(Fault::Dead)
        && taken == Some(Fault::Dead)
        && !line.end.feed_material([1; 16], [1; 32])
        && line.out.len() == bytes
}
