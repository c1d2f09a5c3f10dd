//! The bytes on their way from one end to the other, and what the other saw of them.

use divrelca::{Ask, End, KeySupply, Message, RandomBytes, Took};
use ssh_toys::Counted;
use std::alloc::{AllocError, Global};

/// The source from which an end draws, the bytes that it put out and its peer has not taken, and what the peer saw of its draws.
#[derive(Drop)]
pub struct Line {
    pub supply: KeySupply<RandomBytes<Counted>>,
    pub out: Vec<u8>,
    pub seen: Seen,
}

impl Line {
    /// A line of an end that draws bytes after this one.
    pub fn new(alloc: Global, before: u8) -> Line {
        Line {
            supply: KeySupply::new(RandomBytes(Counted::new(before))),
            out: Vec::new(alloc),
            seen: Seen {
                cookies: Vec::new(alloc),
                points: Vec::new(alloc),
            },
        }
    }
}

/// The cookies of KEXINITs and the public values of X25519 that an end took of its peer, the oldest first.
#[derive(Drop)]
pub struct Seen {
    pub cookies: Vec<[u8; 16]>,
    pub points: Vec<Vec<u8>>,
}

impl Seen {
    // Notes what a message shows of its sender's draws.
    fn note(&mut self, alloc: Global, message: &Message<'_>) -> Result<(), AllocError> {
        match *message {
            Message::KexInit(proposal) => self.cookies.push(*proposal.cookie)?,
            Message::KexEcdhInit { q_c } => self.points.push(q_c.to_vec(alloc)?)?,
            Message::KexEcdhReply { q_s, .. } => self.points.push(q_s.to_vec(alloc)?)?,
            _ => {}
        }
        Ok(())
    }
}

/// An end is asked.
///
/// # Errors
///
/// The ask is refused.
pub fn ask<E: End>(end: &mut E, line: &mut Line, ask: &Ask<'_>) -> anyhow::Result<()> {
    end.ask_step(ask, &mut line.out)?;
    Ok(())
}

/// An end takes all that its peer put out, and is kept fed.
///
/// # Errors
///
/// Memory is refused, or the peer.
pub fn take_all<E: End>(
    alloc: Global,
    end: &mut E,
    own: &mut Line,
    peer: &mut Line,
) -> anyhow::Result<()> {
    let mut rest = peer.out.as_slice();
    for _ in 0..peer.out.len() {
        if rest.is_empty() {
            break;
        }
        let turn = end.take(rest, &mut own.out)?;
        rest = rest.split_at(turn.used).1;
        if let Some(refusal) = turn.refused {
            return Err(anyhow::Error::msg(refusal));
        }
        if let Some(Took::Message { message, .. }) = turn.took {
            peer.seen.note(alloc, &message)?;
        }
        own.supply.keep_fresh(end, &mut own.out)?;
    }
    peer.out.clear();
    Ok(())
}
