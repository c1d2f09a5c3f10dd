//! The loop over an end, which is the same at a server and at a client.

use crate::agenda::Agenda;
use divrelca::{End, KeySupply, RandomBytes, Refusal, Told};
use std::alloc::{AllocError, Global};
use std::io::{Read, Write};

/// The handling of what an end tells, by a program.
pub trait Work<'a> {
    /// Listens to what the end told, and puts the tasks on the agenda. It keeps the parts that are needed, since the texts are slices of
    /// the end's buffer.
    ///
    /// # Errors
    ///
    /// Only where memory is refused.
    fn hear(&mut self, told: &Told<'_>, agenda: &mut Agenda<'a>) -> Result<(), AllocError>;
}

/// An end with the parts from which it draws, its agenda, and the program's handling of what it tells.
#[derive(Drop)]
pub struct Driven<'a, E: End + Drop, W: Work<'a> + Drop> {
    end: E,
    keys: KeySupply<RandomBytes<&'a HostRuntime>>,
    agenda: Agenda<'a>,
    /// The program's handling of what the end tells.
    pub work: W,
}

impl<'a, E: End + Drop, W: Work<'a> + Drop> Driven<'a, E, W> {
    /// This end, which draws from this supply and told nothing yet.
    pub fn new(
        alloc: Global,
        end: E,
        keys: KeySupply<RandomBytes<&'a HostRuntime>>,
        work: W,
    ) -> Driven<'a, E, W> {
        Driven {
            end,
            keys,
            agenda: Agenda::new(alloc),
            work,
        }
    }

    /// Lets the end go on until it is over or its peer's stream ends. It reads the peer's bytes from standard input. It writes the bytes
    /// for the peer to standard output, those already in `out` first. Answers why the peer was refused, if it was.
    ///
    /// # Errors
    ///
    /// Standard input could not be read, standard output could not be written to, no random bytes were there for the next exchange of keys,
    /// or memory was refused.
    pub fn drive(&mut self, rt: &HostRuntime, mut out: Vec<u8>) -> anyhow::Result<Option<Refusal>> {
        let (mut input, mut output) = (rt.stdin(), rt.stdout());
        let mut buffer = [0; 4096];
        let mut refused = None;
        for _ in 0..u64::MAX {
            output.write_all(out.as_slice())?;
            output.flush()?;
            out.clear();
            if self.end.is_dead() {
                break;
            }
            let count = input.read(&mut buffer)?;
            let piece = buffer.get(..count).unwrap_or(&[]);
            if piece.is_empty() {
                break;
            }
            refused = self.take(piece, &mut out)?;
        }
        Ok(refused)
    }

    // Takes a piece of the peer's stream, of any size. Answers why the peer was refused, if it was.
    fn take(&mut self, piece: &[u8], out: &mut Vec<u8>) -> anyhow::Result<Option<Refusal>> {
        let mut rest = piece;
        let mut refused = None;
        // Each call uses a byte at least.
        for _ in 0..piece.len() {
            if rest.is_empty() || self.end.is_dead() {
                break;
            }
            let turn = self.end.take(rest, out)?;
            rest = rest.split_at(turn.used).1;
            refused = turn.refused;
            if let Some(told) = turn.told {
                self.work.hear(&told, &mut self.agenda)?;
            }
            if !self.end.is_dead() {
                self.keys.keep_fresh(&mut self.end, out)?;
                self.agenda.go_on(&mut self.end, out)?;
            }
        }
        Ok(refused)
    }
}
