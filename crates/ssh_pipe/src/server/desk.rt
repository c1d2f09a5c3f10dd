//! The handling of what a server's end tells.

use super::sessions::Sessions;
use crate::agenda::Agenda;
use crate::ending::Ending;
use crate::station::Desk;
use divrelca::End;
use ssh_end::{Fault, Told};
use std::alloc::{AllocError, Global};

/// The state of a server besides its end.
#[derive(Drop)]
pub struct ServerDesk {
    sessions: Sessions,
    // The user was let in.
    is_let_in: bool,
}

impl ServerDesk {
    /// A server that heard nothing yet.
    pub fn new(alloc: Global, window: u32) -> ServerDesk {
        ServerDesk {
            sessions: Sessions::new(alloc, window),
            is_let_in: false,
        }
    }

    /// The meaning of an end of the client's stream now.
    pub fn ending_left(&self) -> Ending {
        if !self.is_let_in {
            Ending::LeftOutside
        } else if self.sessions.is_empty() {
            Ending::Left
        } else {
            Ending::BrokenOff
        }
    }
}

impl<'a> Desk<'a> for ServerDesk {
    fn hear(&mut self, told: &Told<'_>, agenda: &mut Agenda<'a>) -> Result<(), AllocError> {
        match *told {
            Told::Accepted { .. } => {
                self.is_let_in = true;
                Ok(())
            }
            Told::Channel(fact) => self.sessions.hear(&fact, agenda),
            _ => Ok(()),
        }
    }

    fn flow_on<E: End>(&mut self, end: &mut E, out: &mut Vec<u8>) -> Result<(), Fault> {
        self.sessions.flow_on(end, out)
    }
}
