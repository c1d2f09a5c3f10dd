//! Tests that are lines of files: an ask or a message, and after it, after `> `, the result that it has to have.
//!
//! Those of layers by themselves are told here: the data types and messages, the settings of an end, the channels of one end, the
//! authentication of both, the layers above the transports, and ends whose questions a program answers later. Those of packets, of exchanges
//! of keys and of real parts are told by `test_packets`, `test_exchanges` and `test_real_parts`.
//!
//! For each file a line says how many lines were as they have to be, or which is the first that is not, and then the exit status is 1. Last
//! come the draws of two ends from their random bytes, and the results of recorded sessions.
//!
//! The words `server FILE` or `client FILE` record a session instead, by an end of that role over standard input and output.
#![tactic(auto)]

mod call;
mod channels;
mod configs;
mod events;
mod held;
mod layers;
mod logins;
mod types;

use channels::ChannelLines;
use configs::ConfigLines;
use held::HeldLines;
use layers::LayerLines;
use logins::LoginLines;
use ssh_toys::lines::compared;
use std::env;
use std::io::{self, Write};
use std::process::ExitCode;
use test_exchanges::show_draws;
use test_real_parts::{Role, play_all, record};
use types::TypeLines;

fn main(rt: HostRuntime) -> ExitCode {
    match run(&rt) {
        Ok(true) => ExitCode::from(0),
        Ok(false) => ExitCode::from(1),
        Err(error) => {
            let _ = writeln!(rt.stderr(), "error: {error}");
            ExitCode::from(1)
        }
    }
}

fn run(rt: &HostRuntime) -> anyhow::Result<bool> {
    let words: Vec<String> = env::args(rt)?.collect(rt.alloc())?;
    if let [_, role, file] = words.as_slice() {
        record(rt, role_of(role.as_str()), file.as_str())?;
        return Ok(true);
    }
    let layers = compare(rt)?;
    let packets = test_packets::compare(rt)?;
    let exchanges = test_exchanges::compare(rt)?;
    let real_parts = test_real_parts::compare(rt)?;
    show_draws(rt)?;
    play_all(rt)?;
    Ok(layers && packets && exchanges && real_parts)
}

// The role of this name: a client's, where it is none.
fn role_of(name: &str) -> Role {
    match name {
        "server" => Role::Server,
        _ => Role::Client,
    }
}

// Says for each file of a layer by itself how many lines were as they have to be. Answers whether all were.
fn compare(rt: &HostRuntime) -> io::Result<bool> {
    let channels = ChannelLines::new(rt.alloc())?;
    let logins = LoginLines::new(rt.alloc());
    let first = compared(rt, "channels.txt", channels)?;
    let second = compared(rt, "logins.txt", logins)?;
    let layers = LayerLines::new(rt.alloc())?;
    let third = compared(rt, "layers.txt", layers)?;
    let configs = compared(rt, "configs.txt", ConfigLines::new(rt.alloc()))?;
    let types = compared(rt, "types.txt", TypeLines::new(rt.alloc()))?;
    let held = compared(rt, "held.txt", HeldLines::new(rt.alloc()))?;
    Ok(first && second && third && configs && types && held)
}
