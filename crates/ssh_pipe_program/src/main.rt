//! The program `ssh_pipe`: `client` runs one command at a server, `server` serves one connection. Standard input has the peer's bytes,
//! and standard output takes the bytes for it.
//!
//! `call_of` reads the words of the command line, and `serve` and `call` let a server or a client of the library `ssh_pipe` go on over the
//! files that they name. What went wrong is told in a line, and a `Status` is the exit status of it.
//!
//! # What it promises
//!
//! - `Status::code`: `code_of` (`specs/Status.antt` of `ssh_pipe_program`).
//! - The other functions have no clause: it is checked that they do nothing undefined and return, on every input. `pump` returns where
//!   its reader and its writer do.
#![tactic(auto)]

mod command_line;
mod running;
mod status;

use command_line::{Call, call_of};
use running::{call, refuse, report, serve, version};
use status::Status;
use std::process::ExitCode;
use std::{env, io};

fn main(rt: HostRuntime) -> ExitCode {
    let status = match words_of(&rt) {
        Ok(words) => match call_of(rt.alloc(), words.as_slice()) {
            Ok(Call::Client(options)) => call(&rt, &options),
            Ok(Call::Server(options)) => serve(&rt, &options),
            Ok(Call::Version) => version(&rt),
            Err(fault) => refuse(&rt, fault),
        },
        Err(error) => report(&rt, error, Status::Fault),
    };
    ExitCode::from(status.code())
}

fn words_of(rt: &HostRuntime) -> io::Result<Vec<String>> {
    let words: Vec<String> = env::args(rt)?.collect(rt.alloc())?;
    Ok(words)
}
