//! A client and a server, and the bytes on the way between them.

use crate::sessions::party::Party;
use ssh_toys::lines::{Problem, shown};
use ssh_transport::Role;
use std::alloc::Global;

/// A client and a server.
pub struct Ends<C: Role, S: Role> {
    pub alloc: Global,
    pub client: Party<C>,
    pub server: Party<S>,
}

impl<C: Role, S: Role> Drop for Ends<C, S> {
    fn drop(self) {
        let Ends {
            alloc: _,
            client: _,
            server: _,
        } = self;
    }
}

impl<C: Role, S: Role> Ends<C, S> {
    /// The results of the words for one of them, or for both.
    ///
    /// # Errors
    ///
    /// `Problem` if they are no words of an end, and want of memory.
    pub fn said_to(&mut self, word: &str, rest: &str) -> Result<String, Problem> {
        match (word, rest) {
            ("c", "pass") => self.server.passed_by(&mut self.client),
            ("s", "pass") => self.client.passed_by(&mut self.server),
            ("c", _) => self.client.said_to(rest),
            ("s", _) => self.server.said_to(rest),
            ("same", "session") => {
                let is_same = self.client.end.session_id() == self.server.end.session_id();
                shown(self.alloc, is_same)
            }
            _ => Err(Problem::NotALine),
        }
    }
}
