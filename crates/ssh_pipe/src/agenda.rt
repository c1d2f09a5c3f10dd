//! The asks that an end is still to be given, and how its session ended.

use crate::ending::Ending;
use divrelca::{AskOutcome, End, asked, default_answer};
use ssh_end::{Ask, Fault, Told, Turn};
use std::alloc::{AllocError, Global};
use std::collections::VecDeque;

/// Asks in the order in which they came up, and how the session ended. Each ask waits until the end can do it.
#[derive(Drop)]
pub struct Agenda<'a> {
    alloc: Global,
    asks: VecDeque<Ask<'a>>,
    ending: Option<Ending>,
}

impl<'a> Agenda<'a> {
    /// Nothing to ask for, in a session that has not ended.
    pub fn new(alloc: Global) -> Agenda<'a> {
        Agenda {
            alloc,
            asks: VecDeque::new(alloc),
            ending: None,
        }
    }

    /// One ask more.
    ///
    /// # Errors
    ///
    /// Only if memory is refused: the ask is dropped.
    pub fn add(&mut self, ask: Ask<'a>) -> Result<(), AllocError> {
        self.asks.push_back(ask).map_err(|_| AllocError)
    }

    /// The answer that the peer is owed for a request that this program does not know, if it is owed one.
    ///
    /// # Errors
    ///
    /// Only if memory is refused: the answer is dropped.
    pub fn answer(&mut self, told: &Told<'_>) -> Result<(), AllocError> {
        match default_answer(told) {
            Some(answer) => self.add(answer),
            None => Ok(()),
        }
    }

    /// Ends the connection, and the session so, unless it is known already how that ended.
    ///
    /// # Errors
    ///
    /// Only if memory is refused: the peer is not told.
    pub fn end_by(&mut self, ending: Ending) -> Result<(), AllocError> {
        if self.ending.is_none() {
            self.ending = Some(ending);
        }
        self.add(Ask::Disconnect(b"done"))
    }

    /// Keeps how the session ended, if a turn says so: this end refused its peer, or the peer ended the connection.
    ///
    /// # Errors
    ///
    /// Only if memory is refused: the peer's description is not kept.
    pub fn hear(&mut self, turn: &Turn<'_>) -> Result<(), AllocError> {
        if let Some(refusal) = turn.refused {
            self.ending = Some(Ending::Refused(refusal));
        }
        if let Some(
            Told::Disconnected {
                reason,
                description,
            },
        ) = turn.told
            && self.ending.is_none()
        {
            self.ending = Some(Ending::Disconnected {
                reason,
                description: Vec::from_slice(self.alloc, description)?,
            });
        }
        Ok(())
    }

    /// Asks for what waits, the oldest first, and answers whether nothing is left. While keys are exchanged, and before the peer's NEWKEYS
    /// came, some is.
    ///
    /// # Errors
    ///
    /// - `Ask`: the end refused an ask that it can never do.
    /// - `Memory`: memory was refused, and the end is over.
    pub fn work<E: End>(&mut self, end: &mut E, out: &mut Vec<u8>) -> Result<bool, Fault> {
        for _ in 0..self.asks.len() {
            let Some(ask) = self.asks.front().copied() else {
                break;
            };
            if asked(end, &ask, out)? == AskOutcome::Later {
                return Ok(false);
            }
            self.asks.pop_front();
        }
        Ok(true)
    }

    /// How the session ended, once that is known.
    pub fn take_ending(&mut self) -> Option<Ending> {
        self.ending.take()
    }
}
