//! The transports of both roles. If memory is refused, nothing is put out, and the transport is over.

use super::outcome::Outcome;
use ssh_message::Message;
use ssh_toys::{ToyTransport, settings};
use ssh_transport::{TransportAsk, TransportFault};
use ssh_types::Side::{Client, Server};
use ssh_types::{Refusal, Side};
use std::alloc::{AllocError, Global};

// A transport, what it put out and sent, and how much of it was passed.
#[derive(Drop)]
struct Line {
    end: ToyTransport,
    out: Vec<u8>,
    sent: Vec<Vec<u8>>,
    passed: usize,
}

// What is done, one after the other: bytes of one end reach the other, an ask, a message or a refusal of a layer above, a feed, or word
// that the user is authenticated.
#[derive(Clone, Copy)]
enum Act {
    Pass(Side),
    Service,
    Rekey,
    Success,
    Refuse,
    Disconnect,
    Feed,
}

// The user is let in, keys are exchanged again, and the server has enough.
const ACTS: &[Act] = &[
    Act::Pass(Client),
    Act::Pass(Server),
    Act::Pass(Client),
    Act::Pass(Server),
    Act::Pass(Client),
    Act::Service,
    Act::Pass(Client),
    Act::Pass(Server),
    Act::Success,
    Act::Pass(Server),
    Act::Feed,
    Act::Rekey,
    Act::Pass(Client),
    Act::Pass(Server),
    Act::Pass(Client),
    Act::Pass(Server),
    Act::Pass(Client),
    Act::Refuse,
    Act::Disconnect,
];

/// Plays both transports against each other.
///
/// # Errors
///
/// Only if memory is refused.
pub fn play(alloc: Global) -> Result<Outcome, AllocError> {
    let mut client = opened(alloc, Client)?;
    let mut server = opened(alloc, Server)?;
    for act in ACTS {
        let came = carry_out(*act, &mut client, &mut server)?;
        if came != Outcome::Done {
            return Ok(came);
        }
    }
    let is_whole = client.end.epochs() == (2, 2) && server.end.epochs() == (2, 2);
    if is_whole && client.end.is_dead() && server.end.is_dead() {
        return Ok(Outcome::Done);
    }
    Ok(Outcome::Wrong)
}

// A transport after what it put out.
fn opened(alloc: Global, side: Side) -> Result<Line, AllocError> {
    let mut out = Vec::new(alloc);
    let mut sent = Vec::new(alloc);
    let software: &[u8] = match side {
        Side::Client => b"c",
        Side::Server => b"s",
    };
    let end = ToyTransport::new(alloc, side, &settings(software), &mut out, &mut sent)?;
    Ok(Line {
        end,
        out,
        sent,
        passed: 0,
    })
}

fn carry_out(act: Act, client: &mut Line, server: &mut Line) -> Result<Outcome, AllocError> {
    match act {
        Act::Pass(Side::Client) => Ok(pass(client, server)),
        Act::Pass(Side::Server) => Ok(pass(server, client)),
        Act::Service => Ok(ask(client, TransportAsk::Service)),
        Act::Rekey => Ok(ask(client, TransportAsk::Rekey)),
        Act::Disconnect => Ok(ask(client, TransportAsk::Disconnect(b"x"))),
        Act::Refuse => Ok(refuse(server)),
        Act::Success => {
            client.end.authenticated();
            server.end.authenticated();
            succeed(server)
        }
        Act::Feed => {
            client.end.feed_material([0xa2; 16], [0xa2; 32]);
            server.end.feed_material([0xb2; 16], [0xb2; 32]);
            Ok(Outcome::Done)
        }
    }
}

// What a call came to that answered this, where so many bytes and payloads were there before.
fn outcome_of(
    line: &mut Line,
    fault: Option<TransportFault>,
    bytes: usize,
    payloads: usize,
) -> Outcome {
    if fault != Some(TransportFault::Memory) {
        return Outcome::Done;
    }
    let is_kept = line.out.len() == bytes && line.sent.as_slice().len() == payloads;
    let again = line
        .end
        .ask(TransportAsk::Rekey, &mut line.out, &mut line.sent);
    let (used, taken) = line.end.take(b"\0", &mut line.out, &mut line.sent);
    let is_over = again == Err(TransportFault::Dead) && used == 0;
    match taken {
        Err(TransportFault::Dead) if is_kept && is_over && line.end.is_dead() => Outcome::Refused,
        _ => Outcome::Wrong,
    }
}

// All waiting bytes of one end reach the other.
fn pass(from: &mut Line, to: &mut Line) -> Outcome {
    for _ in 0..8 {
        let (bytes, payloads) = (to.out.len(), to.sent.as_slice().len());
        let waiting = from.out.as_slice().get(from.passed..).unwrap_or(&[]);
        let (used, turn) = to.end.take(waiting, &mut to.out, &mut to.sent);
        from.passed = from.passed.saturating_add(used);
        let came = outcome_of(to, turn.err(), bytes, payloads);
        if came != Outcome::Done {
            return came;
        }
    }
    Outcome::Done
}

// An end is asked.
fn ask(line: &mut Line, ask: TransportAsk<'_>) -> Outcome {
    let (bytes, payloads) = (line.out.len(), line.sent.as_slice().len());
    let turn = line.end.ask(ask, &mut line.out, &mut line.sent);
    outcome_of(line, turn.err(), bytes, payloads)
}

// An end refuses its peer for a layer above.
fn refuse(line: &mut Line) -> Outcome {
    let (bytes, payloads) = (line.out.len(), line.sent.as_slice().len());
    let done = line
        .end
        .refuse(Refusal::UnknownChannel, &mut line.out, &mut line.sent);
    outcome_of(line, done.err(), bytes, payloads)
}

// A server encodes USERAUTH_SUCCESS, and sends it. Where memory is refused for the encoding, it goes on.
fn succeed(line: &mut Line) -> Result<Outcome, AllocError> {
    let (bytes, payloads) = (line.out.len(), line.sent.as_slice().len());
    let message = Message::UserauthSuccess;
    let (payload, is_refused) = match line.end.encode_payload(&message) {
        Ok(payload) => (payload, false),
        Err(_) => (line.end.encode_payload(&message)?, true),
    };
    let came = match line.end.send(payload, &mut line.out, &mut line.sent) {
        Ok(None) => return Ok(Outcome::Wrong),
        done => outcome_of(line, done.err(), bytes, payloads),
    };
    Ok(if is_refused && came == Outcome::Done {
        Outcome::Refused
    } else {
        came
    })
}
