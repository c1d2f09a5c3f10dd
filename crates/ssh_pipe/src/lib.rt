//! A client and a server of SSH-2 over a pipe: the peer's bytes come from a reader, and bytes for the peer are written to a writer. The
//! client runs one command, the server has commands of its own.
//!
//! `Server` and `Client` are `Machine`s, which go from bytes to bytes, and `pump` runs one between a reader and a writer. Their decisions
//! are in `divrelca`, and their messages in the module `log`; apart from these they only hand on. `run_command` lets a client run its
//! command with files. `ssh_pipe_program` does so as its command line says.
//!
//! ```rust
//! let mut out = Vec::new(alloc);
//! let start = Start::new(alloc, &Policy::DEFAULT, &rt)?;
//! let mut server = Server::new(start, host_key, user, &mut out)?;
//! pump(alloc, &mut server, &mut rt.stdin(), &mut rt.stdout(), out, &mut rt.stderr())?;
//! ```
//!
//! # What it promises
//!
//! - A `Watched` of the module `log` is an `End`: it is fed, and an exchange is due, as for the end in it. Nothing is promised about the
//!   text of the log.
//! - The other functions have no clause: it is proved that they do nothing undefined and return, on every input. `pump` returns if its
//!   reader and its writer do.
#![tactic(auto)]

mod agenda;
mod builtin;
mod client;
mod command_files;
mod ending;
mod error;
mod flow;
pub mod log;
mod login;
mod machine;
mod parts;
mod progress;
mod server;
mod session;
mod sink;
mod start;
mod station;
mod texts;

pub use client::{Client, ClientSession, CommandMachine, Request, RequestKind};
pub use command_files::{CommandFiles, run_command};
pub use divrelca::{
    Ciphers, EPOCH_LIMIT, LEAST_EPOCH_LIMIT, LEAST_WINDOW, MOST_WINDOW, OneUser, PasswordHash,
    Policy, UserKey,
};
pub use ending::Ending;
pub use error::PipeError;
pub use login::Login;
pub use machine::{Machine, pump};
pub use server::Server;
pub use sink::Sink;
pub use start::Start;
pub use texts::{MOST_COMMAND_BYTES, string_of};
