//! A server whose channels run its own commands.

mod desk;
mod sessions;

use crate::ending::Ending;
use crate::error::PipeError;
use crate::parts::{METHODS, PipeServer, server_parts};
use crate::start::Start;
use crate::station::Station;
use desk::ServerDesk;
use divrelca::{Ed25519Signer, OneUser};
use ssh_end::ServerEnd;
use std::random::RandomSource;

/// A server of SSH-2 for one connection. Bytes of the client go in, and bytes for it come out.
pub type Server<'a, R> = Station<'a, ServerEnd<PipeServer, OneUser<'a>>, R, ServerDesk>;

impl<'a, R: RandomSource + Drop> Server<'a, R> {
    /// A server with this host key, that lets this user in, and that put its version line and its first KEXINIT into `out`.
    ///
    /// # Errors
    ///
    /// - `Random`: the source of its start gave no random bytes.
    /// - `Settings`: the policy of its start makes no settings of an end.
    /// - `Memory`: memory was refused. The parts that were handed in are dropped.
    pub fn new(
        mut start: Start<'_, R>,
        host_key: Ed25519Signer,
        user: OneUser<'a>,
        out: &mut Vec<u8>,
    ) -> Result<Server<'a, R>, PipeError> {
        let parts = server_parts(start.padding()?, host_key);
        let config = start.config(methods_of(&user))?;
        let desk = ServerDesk::new(start.alloc, start.policy.window);
        Station::open(start, config, parts, user, desk, out)
    }

    /// The meaning of an end of the client's stream now, if no ending is known.
    pub fn ending_left(&self) -> Ending {
        self.desk.ending_left()
    }
}

// The methods of authentication by which the user may come in (RFC 4252 sections 7 and 8).
fn methods_of(user: &OneUser<'_>) -> &'static [&'static [u8]] {
    match (user.keys.is_empty(), user.password) {
        (true, _) => &[b"password"],
        (false, None) => &[b"publickey"],
        (false, Some(_)) => METHODS,
    }
}
