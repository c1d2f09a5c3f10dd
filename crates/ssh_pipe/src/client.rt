//! A client that runs one command.

mod command;
mod desk;
mod request;

use crate::error::PipeError;
use crate::machine::Machine;
use crate::parts::{METHODS, PipeClient, client_parts};
use crate::start::Start;
use crate::station::Station;
use desk::ClientDesk;
use divrelca::{Ed25519HostKeys, UserKey};
pub use request::{ClientSession, Request, RequestKind};
use ssh_end::ClientEnd;
use std::alloc::AllocError;
use std::random::RandomSource;

/// A machine that runs one command. Besides bytes of its peer the command's input goes in, and its outputs come out.
pub trait CommandMachine: Machine {
    /// The bytes that the command wrote to its output since the last `clear_output`.
    fn output(&self) -> &[u8];

    /// The bytes that the command wrote to its error output since then.
    fn error_output(&self) -> &[u8];

    /// The text that the server showed to the user since then (RFC 4252 section 5.4): printable US-ASCII characters and ends of lines, with
    /// `?` for everything else.
    fn notes(&self) -> &[u8];

    /// The program has written out all output: the server may send as many bytes again.
    fn clear_output(&mut self);

    /// Tests whether more of the command's input can be given now.
    fn wants_input(&self) -> bool;

    /// Gives bytes of the command's input. No bytes mean that the input has ended.
    ///
    /// # Errors
    ///
    /// Only if memory is refused: no byte is taken.
    fn give_input(&mut self, bytes: &[u8]) -> Result<(), AllocError>;
}

/// A client of SSH-2 that runs one command. Bytes of the server go in, and bytes for it come out; besides them the command's input and its
/// output.
pub type Client<'a, R> = Station<'a, ClientEnd<PipeClient, UserKey>, R, ClientDesk<'a>>;

impl<'a, R: RandomSource + Drop> Client<'a, R> {
    /// A client of this session that put its version line and its first KEXINIT into `out`.
    ///
    /// # Errors
    ///
    /// Those of `Server::new`.
    pub fn new(
        mut start: Start<'_, R>,
        session: ClientSession<'a>,
        out: &mut Vec<u8>,
    ) -> Result<Client<'a, R>, PipeError> {
        let trust = Ed25519HostKeys {
            keys: Vec::from_slice(start.alloc, session.host)?,
        };
        let parts = client_parts(start.padding()?, trust);
        let config = start.config(METHODS)?;
        let desk = ClientDesk::new(
            start.alloc,
            start.policy.window,
            session.login,
            session.request,
        );
        Station::open(start, config, parts, session.key, desk, out)
    }
}

impl<R: RandomSource + Drop> CommandMachine for Client<'_, R> {
    fn output(&self) -> &[u8] {
        self.desk.command.output.as_slice()
    }

    fn error_output(&self) -> &[u8] {
        self.desk.command.error_output.as_slice()
    }

    fn notes(&self) -> &[u8] {
        self.desk.notes.as_slice()
    }

    fn clear_output(&mut self) {
        self.desk.command.clear_output();
        self.desk.notes.clear();
    }

    fn wants_input(&self) -> bool {
        self.desk.command.wants_input()
    }

    fn give_input(&mut self, bytes: &[u8]) -> Result<(), AllocError> {
        self.desk.command.give_input(bytes)
    }
}
