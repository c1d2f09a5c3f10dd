//! Sessions over recorded bytes.

use super::keys::Keys;
use ssh_pipe::{
    Client, ClientSession, Ending, Login, Machine, OneUser, PipeError, Policy, Request,
    RequestKind, Server, Start,
};
use ssh_toys::Counted;
use std::alloc::Global;

/// The end that took the bytes.
#[derive(Clone, Copy)]
pub enum Role {
    /// They are of a client.
    Server,
    /// They are of a server.
    Client,
}

/// The server of the recordings, that put its first bytes into `out`.
///
/// # Errors
///
/// Those of a server of `ssh_pipe`: here only if memory is refused.
pub fn server<'a>(
    alloc: Global,
    keys: &'a Keys,
    out: &mut Vec<u8>,
) -> Result<Server<'a, Counted>, PipeError> {
    let user = OneUser {
        name: b"reader",
        keys: keys.accepted(),
        password: None,
    };
    let start = Start::new(alloc, &Policy::DEFAULT, Counted::new(0))?;
    Server::new(start, keys.host(), user, out)
}

/// The client of the recordings, which runs a command that says `hello` and ends with status 3.
///
/// # Errors
///
/// Those of a client of `ssh_pipe`: here only if memory is refused.
pub fn client<'a>(
    alloc: Global,
    keys: &'a Keys,
    out: &mut Vec<u8>,
) -> Result<Client<'a, Counted>, PipeError> {
    let key = keys.user();
    let session = ClientSession {
        host: keys.trusted(),
        key: *key,
        login: Login::new(b"root", key, None),
        request: Request {
            kind: RequestKind::Exec,
            text: b"\0\0\0\x12echo hello; exit 3",
        },
    };
    let start = Start::new(alloc, &Policy::DEFAULT, Counted::new(100))?;
    Client::new(start, session, out)
}

/// The result of a session.
#[derive(Drop, PartialEq, Eq)]
pub struct Outcome {
    /// How it ended.
    pub ending: Option<Ending>,
    /// The bytes that the end put out.
    pub out: Vec<u8>,
}

/// The result of the session in which the end of this role takes these bytes in pieces of this size.
///
/// # Errors
///
/// Those of an end of `ssh_pipe` that the outcome does not tell.
pub fn played(
    alloc: Global,
    keys: &Keys,
    role: Role,
    bytes: &[u8],
    size: usize,
) -> Result<Outcome, PipeError> {
    let mut out = Vec::new(alloc);
    let ending = match role {
        Role::Server => served(alloc, keys, bytes, size, &mut out)?,
        Role::Client => asked(alloc, keys, bytes, size, &mut out)?,
    };
    Ok(Outcome { ending, out })
}

// How the server's session ends.
fn served(
    alloc: Global,
    keys: &Keys,
    bytes: &[u8],
    size: usize,
    out: &mut Vec<u8>,
) -> Result<Option<Ending>, PipeError> {
    let mut server = server(alloc, keys, out)?;
    feed(&mut server, bytes, size, out)?;
    Ok(server.take_ending())
}

// How the client's does.
fn asked(
    alloc: Global,
    keys: &Keys,
    bytes: &[u8],
    size: usize,
    out: &mut Vec<u8>,
) -> Result<Option<Ending>, PipeError> {
    let mut client = client(alloc, keys, out)?;
    feed(&mut client, bytes, size, out)?;
    Ok(client.take_ending())
}

// Gives an end bytes in pieces.
fn feed<M: Machine>(
    machine: &mut M,
    bytes: &[u8],
    size: usize,
    out: &mut Vec<u8>,
) -> Result<(), PipeError> {
    for piece in bytes.chunks(size.max(1)) {
        machine.take(piece, out)?;
    }
    Ok(())
}
