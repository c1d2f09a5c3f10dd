//! Two ends over toy parts, and the bytes on the way between them.

use crate::forging::forged;
use crate::kexinits::kexinit_of;
use crate::key_exchange::exchange_of;
use crate::party::Party;
use ssh_toys::lines::{Problem, bytes_of, parsed};
use ssh_transport::Settings;
use ssh_types::Side;
use std::alloc::{AllocError, Global};

/// A client and a server that have put out their lines and their first KEXINITs.
#[derive(Drop)]
pub struct Pair {
    alloc: Global,
    client: Party,
    server: Party,
    // What passes reaches the other byte by byte.
    is_dripped: bool,
}

impl Pair {
    /// Two ends of these settings.
    ///
    /// # Errors
    ///
    /// Only if memory is refused.
    pub fn new(
        alloc: Global,
        of_client: &Settings<'_>,
        of_server: &Settings<'_>,
        is_dripped: bool,
    ) -> Result<Pair, AllocError> {
        Ok(Pair {
            alloc,
            client: Party::new(alloc, Side::Client, of_client)?,
            server: Party::new(alloc, Side::Server, of_server)?,
            is_dripped,
        })
    }

    fn party(&self, side: Side) -> &Party {
        match side {
            Side::Client => &self.client,
            Side::Server => &self.server,
        }
    }

    fn party_mut(&mut self, side: Side) -> &mut Party {
        match side {
            Side::Client => &mut self.client,
            Side::Server => &mut self.server,
        }
    }

    /// The results of a line.
    ///
    /// # Errors
    ///
    /// `Problem` if it is no line of an end, and want of memory.
    pub fn said_to(&mut self, line: &str) -> Result<String, Problem> {
        match line.split_once(' ') {
            Some(("c", words)) => self.done(Side::Client, words),
            Some(("s", words)) => self.done(Side::Server, words),
            Some(("exchange", words)) => self.exchanged(words),
            _ => Err(Problem::NotALine),
        }
    }

    // What comes of the words that stand after a side.
    fn done(&mut self, side: Side, words: &str) -> Result<String, Problem> {
        let (word, rest) = words.split_once(' ').unwrap_or((words, ""));
        match word {
            "pass" => self.passed(side, rest),
            "again" => self.passed_again(side, rest),
            "forge" => {
                let payload = bytes_of(self.alloc, rest)?;
                Ok(self.forged(side, &payload)?)
            }
            "kexinit" => {
                let payload = kexinit_of(self.alloc, side, rest)?;
                Ok(self.forged(side, &payload)?)
            }
            _ => self.party_mut(side).said_to(word, rest),
        }
    }

    // The next so many waiting bytes of an end reach the other, or all of them.
    fn passed(&mut self, from: Side, count: &str) -> Result<String, Problem> {
        let count = match count {
            "" => usize::MAX,
            _ => parsed(count)? as usize,
        };
        let bytes = self.party_mut(from).next(count)?;
        let is_dripped = self.is_dripped;
        let to = self.party_mut(from.peer());
        if !is_dripped {
            return Ok(to.delivered(&bytes)?);
        }
        for byte in bytes.iter() {
            to.deliver(&[*byte])?;
        }
        Ok(to.delivered(&[])?)
    }

    // Of all that an end ever put out, the bytes from one on, so many, reach the other.
    fn passed_again(&mut self, from: Side, words: &str) -> Result<String, Problem> {
        let Some((start, count)) = words.split_once(' ') else {
            return Err(Problem::NotALine);
        };
        let start = parsed(start)? as usize;
        let bytes = self.party(from).again(start, parsed(count)? as usize)?;
        Ok(self.party_mut(from.peer()).delivered(&bytes)?)
    }

    /// A packet of this payload reaches an end, under the key and the number that it takes.
    ///
    /// # Errors
    ///
    /// Only if memory is refused.
    pub fn forged(&mut self, to: Side, payload: &[u8]) -> Result<String, AllocError> {
        let party = self.party(to);
        let bytes = forged(self.alloc, party, to, &self.client, &self.server, payload)?;
        self.party_mut(to).delivered(&bytes)
    }

    // The text and the hash of an exchange, by its place and the byte of which alone the shared secret is.
    fn exchanged(&self, words: &str) -> Result<String, Problem> {
        let Some((place, shared)) = words.split_once(' ') else {
            return Err(Problem::NotALine);
        };
        let place = parsed(place)? as usize;
        let shared = bytes_of(self.alloc, shared)?;
        let shared = [shared.first().copied().unwrap_or(0); 32];
        Ok(exchange_of(self.alloc, &self.client, &self.server, place, &shared)?)
    }
}
