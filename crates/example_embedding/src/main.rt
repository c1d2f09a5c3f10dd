//! A whole server and a whole client of SSH-2. Standard input has the peer's bytes, and standard output takes the bytes for it.
//!
//! - `example_embedding server HOST_KEY USER AUTHORIZED_KEYS` sends back the bytes that a client sends on its channel. Status 0.
//! - `example_embedding client HOST_KEY.pub USER KEY TEXT` sends a text to `cat` at a server, and writes the output to standard error.
//!   The status is that of `cat`.
//!
//! Status 255 says that a session didn't come to its end, and standard error says why. The keys are files of OpenSSH.
#![tactic(auto)]

mod agenda;
mod client;
mod driving;
mod flow;
mod parts;
mod server;

use client::Client;
use divrelca::key_files::{authorized_keys, private_key, trusted_keys};
use divrelca::{
    AcceptedKey, Ed25519HostKeys, Ed25519Judge, Ed25519Signer, KeySupply, RandomBytes, UserAsk,
};
use driving::Driven;
use parts::{client_end, server_end};
use server::Server;
use std::io::Write;
use std::process::ExitCode;
use std::{env, fs};

const USAGE: &str =
    "the words are server HOST_KEY USER AUTHORIZED_KEYS, or client HOST_KEY.pub USER KEY TEXT";

fn main(rt: HostRuntime) -> ExitCode {
    match run(&rt) {
        Ok(status) => ExitCode::from(status),
        Err(error) => {
            // Where even this can't be written, the status alone tells of the fault.
            let _ = writeln!(rt.stderr(), "error: {error}");
            ExitCode::from(255)
        }
    }
}

fn run(rt: &HostRuntime) -> anyhow::Result<u8> {
    let words: Vec<String> = env::args(rt)?.collect(rt.alloc())?;
    match words.as_slice() {
        [_, role, host_key, user, keys] if role.as_str() == "server" => {
            serve(rt, host_key, user, keys)
        }
        [_, role, host_key, user, key, text] if role.as_str() == "client" => {
            call(rt, host_key, user, key, text)
        }
        _ => Err(anyhow::Error::msg(USAGE)),
    }
}

// Serves one connection.
fn serve(rt: &HostRuntime, host_key: &str, user: &str, keys: &str) -> anyhow::Result<u8> {
    let alloc = rt.alloc();
    let host_key = private_key(alloc, fs::read(rt, host_key)?.as_slice())?;
    let mut accepted = Vec::new(alloc);
    for public in authorized_keys(alloc, fs::read(rt, keys)?.as_slice())?.iter() {
        accepted.push(AcceptedKey {
            user: user.as_bytes(),
            public: *public,
        })?;
    }
    let judge = Ed25519Judge {
        accepted: accepted.as_slice(),
    };
    let signer = Ed25519Signer::new(&host_key.seed);
    let mut supply = KeySupply::new(RandomBytes(rt));
    let mut out = Vec::new(alloc);
    let end = server_end(alloc, &mut supply, signer, judge, &mut out)?;
    let mut driven = Driven::new(alloc, end, supply, Server);
    match driven.drive(rt, out)? {
        Some(refusal) => Err(anyhow::Error::msg(refusal)),
        None => Ok(0),
    }
}

// Sends the text, and shows what comes back.
fn call(rt: &HostRuntime, host_key: &str, user: &str, key: &str, text: &str) -> anyhow::Result<u8> {
    let alloc = rt.alloc();
    let host_trust = Ed25519HostKeys {
        keys: trusted_keys(alloc, fs::read(rt, host_key)?.as_slice(), None)?,
    };
    let key = private_key(alloc, fs::read(rt, key)?.as_slice())?;
    let signer = Ed25519Signer::new(&key.seed);
    let login = UserAsk::Sign {
        user: user.as_bytes(),
        algorithm: b"ssh-ed25519",
        key: signer.public_key(),
    };
    let mut supply = KeySupply::new(RandomBytes(rt));
    let mut out = Vec::new(alloc);
    let end = client_end(alloc, &mut supply, host_trust, signer, &mut out)?;
    let client = Client::new(alloc, login, text.as_bytes());
    let mut driven = Driven::new(alloc, end, supply, client);
    if let Some(refusal) = driven.drive(rt, out)? {
        return Err(anyhow::Error::msg(refusal));
    }
    rt.stderr().write_all(driven.work.read.as_slice())?;
    driven.work.status.ok_or_else(|| anyhow::Error::msg("the session ended before the command did"))
}
