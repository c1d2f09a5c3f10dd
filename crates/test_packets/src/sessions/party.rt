//! One end of either role over any parts, and what is said to it.
//!
//! - `give` and bytes are taken line by line and packet by packet. It is said by how many calls, and what the last one did.
//! - `takes` and the bytes of a packet say whether it is taken, with the payload that stands in it in clear.
//! - `puts` and bytes say whether the end put them out next. Where nothing waits, it is asked for the payload of this packet first.
//! - `feed`, a cookie and a secret say whether it keeps them for the next exchange.
//! - `service` asks for the service of authentication, and `authenticated` says that the user is. `stands` shows how many NEWKEYS were
//!   sent and taken, and the numbers of the next packets. `session` is the session id, `refused` why the end refused its peer last, and
//!   `waits` how many bytes were put out that were neither passed nor compared.

use crate::words::bytes_at;
use ssh_toys::lines::{Problem, bytes_of, digits_of, shown, text_of};
use ssh_transport::{
    Config, Handled, Role, Supplied, Transport, TransportAsk, TransportFault, TransportTurn,
};
use ssh_types::Refusal;
use std::alloc::{AllocError, Global};

/// An end, with the bytes that it put out and the payloads that it sent.
pub struct Party<R: Role> {
    alloc: Global,
    /// The end.
    pub end: Transport<R>,
    // All bytes that it put out, of which the first so many were passed or compared.
    out: Vec<u8>,
    passed: usize,
    sent: Vec<Vec<u8>>,
    refused: Option<Refusal>,
}

impl<R: Role> Drop for Party<R> {
    fn drop(self) {
        let Party {
            alloc: _,
            end: _,
            out: _,
            passed: _,
            sent: _,
            refused: _,
        } = self;
    }
}

impl<R: Supplied> Party<R> {
    /// An end of these parts and this pair of cookie and secret, which has put out its line and its KEXINIT.
    ///
    /// # Errors
    ///
    /// Only if memory is refused.
    pub fn new(
        alloc: Global,
        config: Config<R::Sealing>,
        parts: R::Parts,
        material: ([u8; 16], [u8; 32]),
    ) -> Result<Party<R>, AllocError> {
        let mut out = Vec::new(alloc);
        let mut sent = Vec::new(alloc);
        let (cookie, secret) = material;
        let end = Transport::<R>::new(alloc, config, parts, cookie, secret, &mut out, &mut sent)?;
        Ok(Party {
            alloc,
            end,
            out,
            passed: 0,
            sent,
            refused: None,
        })
    }
}

impl<R: Role> Party<R> {
    /// The results of a line.
    ///
    /// # Errors
    ///
    /// `Problem` if it is no line of an end, and want of memory.
    pub fn said_to(&mut self, line: &str) -> Result<String, Problem> {
        let alloc = self.alloc;
        let (word, digits) = line.split_once(' ').unwrap_or((line, ""));
        let bytes = bytes_of(alloc, digits)?;
        match word {
            "give" => self.given(&bytes),
            "takes" => shown(alloc, self.takes(&bytes)),
            "puts" => {
                let is_same = self.puts(&bytes)?;
                shown(alloc, is_same)
            }
            "feed" => {
                let (cookie, secret) = (bytes_at(&bytes, 0), bytes_at(&bytes, 16));
                shown(alloc, self.end.feed_material(cookie, secret))
            }
            "service" => shown(alloc, self.is_done(TransportAsk::Service)),
            "authenticated" => {
                self.end.authenticated();
                Ok(String::new(alloc))
            }
            "stands" => {
                let (epochs, numbers) = (self.end.epochs(), self.end.numbers());
                Ok(format!(in alloc; "{epochs:?} {numbers:?}")?)
            }
            "session" => match self.end.session_id() {
                Some(session) => digits_of(alloc, session),
                None => text_of(alloc, "nothing"),
            },
            "refused" => Ok(format!(in alloc; "{:?}", self.refused)?),
            "waits" => shown(alloc, self.waiting().len()),
            _ => Err(Problem::NotALine),
        }
    }

    // What it put out that was neither passed nor compared.
    fn waiting(&self) -> &[u8] {
        self.out.as_slice().get(self.passed..).unwrap_or(&[])
    }

    /// The bytes of another end that wait reach this one, and wait no longer. The answer is their result.
    ///
    /// # Errors
    ///
    /// Only if memory is refused.
    pub fn passed_by<P: Role>(&mut self, other: &mut Party<P>) -> Result<String, Problem> {
        let said = self.given(other.waiting())?;
        other.passed = other.out.len();
        Ok(said)
    }

    // Takes bytes, line by line and packet by packet. It is said by how many calls, and what the last one did. Why the peer is refused is
    // kept.
    fn given(&mut self, bytes: &[u8]) -> Result<String, Problem> {
        let mut rest = bytes;
        let mut calls: u32 = 0;
        let mut last = "nothing";
        for _ in 0..bytes.len() {
            if rest.is_empty() {
                break;
            }
            let (used, turn) = self.end.take(rest, &mut self.out, &mut self.sent);
            rest = rest.get(used..).unwrap_or(&[]);
            calls = calls.saturating_add(1);
            if let Ok(TransportTurn::Refused(why)) = &turn {
                self.refused = Some(*why);
            }
            last = named(&turn);
        }
        Ok(format!(in self.alloc; "{calls} {last}, {} left", rest.len())?)
    }

    // It takes a packet of its peer, and is not over then. It answers whether that is one of this payload.
    fn takes(&mut self, wire: &[u8]) -> bool {
        let number = self.end.numbers().1;
        let (used, turn) = self.end.take(wire, &mut self.out, &mut self.sent);
        let is_taken = match turn {
            Ok(TransportTurn::Up(told)) => told as u64 == number,
            Ok(TransportTurn::Done(_)) | Ok(TransportTurn::Completed(_)) => true,
            _ => false,
        };
        let is_same = Some(self.end.payload()) == payload_of(wire);
        is_taken && is_same && used == wire.len() && !self.end.is_dead()
    }

    // It puts out bytes, and is asked for them where it does not by itself. It answers whether they are these.
    fn puts(&mut self, wire: &[u8]) -> Result<bool, AllocError> {
        if self.waiting().is_empty() && !self.is_asked(wire)? {
            return Ok(false);
        }
        let is_same = self.waiting().starts_with(wire);
        self.passed = self.passed.saturating_add(wire.len());
        Ok(is_same)
    }

    // It is asked to send the payload of a packet.
    fn is_asked(&mut self, wire: &[u8]) -> Result<bool, AllocError> {
        let Some(payload) = payload_of(wire) else {
            return Ok(false);
        };
        match payload.first() {
            Some(&1) => Ok(self.is_done(TransportAsk::Disconnect(b"x"))),
            Some(&5) => Ok(self.is_done(TransportAsk::Service)),
            Some(&20) => Ok(self.is_done(TransportAsk::Rekey)),
            _ => {
                let payload = payload.to_vec(self.alloc)?;
                if !self.end.can_send(payload.as_slice()) {
                    return Ok(false);
                }
                let answer = self.end.send(payload, &mut self.out, &mut self.sent);
                Ok(answer.is_ok())
            }
        }
    }

    // It is asked for this.
    fn is_done(&mut self, ask: TransportAsk<'_>) -> bool {
        let turn = self.end.ask(ask, &mut self.out, &mut self.sent);
        turn.is_ok()
    }
}

// What an end did, in a word.
fn named(turn: &Result<TransportTurn, TransportFault>) -> &'static str {
    match turn {
        Ok(TransportTurn::More) => "more",
        Ok(TransportTurn::Done(Handled::ServiceRequested)) => "service requested",
        Ok(TransportTurn::Done(Handled::ServiceAccepted)) => "service accepted",
        Ok(TransportTurn::Refused(_)) => "refused",
        Ok(_) => "taken",
        Err(_) => "fault",
    }
}

// The payload in the bytes of a packet.
fn payload_of(wire: &[u8]) -> Option<&[u8]> {
    let length = u32::from_be_bytes(*wire.first_chunk()?);
    let padding = *wire.get(4)? as usize;
    let end = (length as usize).checked_add(4)?.checked_sub(padding)?;
    wire.get(5..end)
}
