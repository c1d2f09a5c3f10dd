//! The setups of two ends.

use crate::pair::Pair;
use ssh_message::Extension;
use ssh_toys::lines::Problem;
use ssh_toys::settings;
use ssh_transport::{Settings, Strictness};
use std::alloc::Global;

/// The ends of a word, which have put out their lines and their first KEXINITs.
///
/// # Errors
///
/// `NotALine` if it is no such word, and want of memory.
pub fn pair_of(alloc: Global, ends: &str) -> Result<Pair, Problem> {
    match ends {
        "strict" | "dripped" => equal(alloc, Strictness::Require, false, ends == "dripped"),
        "offering" => equal(alloc, Strictness::Offer, false, false),
        "plain" => equal(alloc, Strictness::Off, false, false),
        "extended" => equal(alloc, Strictness::Require, true, false),
        "announced" => announced(alloc, true),
        "unasked" => announced(alloc, false),
        "limited" => limited(alloc),
        "named" => named(alloc),
        _ => Err(Problem::NotALine),
    }
}

// The settings of an end whose version line has this software.
const fn of(
    software: &'static [u8],
    strictness: Strictness,
    takes_extensions: bool,
) -> Settings<'static> {
    Settings {
        strictness,
        takes_extensions,
        ..settings(software)
    }
}

// Two ends of the same settings.
fn equal(
    alloc: Global,
    strictness: Strictness,
    takes_extensions: bool,
    is_dripped: bool,
) -> Result<Pair, Problem> {
    let client = of(b"c", strictness, takes_extensions);
    let server = of(b"s", strictness, takes_extensions);
    Ok(Pair::new(alloc, &client, &server, is_dripped)?)
}

// A server that announces an extension, and a client that takes extensions or not.
fn announced(alloc: Global, takes_extensions: bool) -> Result<Pair, Problem> {
    let client = of(b"c", Strictness::Require, takes_extensions);
    let server = Settings {
        extensions: &[Extension {
            name: b"server-sig-algs",
            value: b"toy@example.com",
        }],
        ..of(b"s", Strictness::Require, true)
    };
    Ok(Pair::new(alloc, &client, &server, false)?)
}

// A client that is to exchange keys after the fewest packets.
fn limited(alloc: Global) -> Result<Pair, Problem> {
    let client = Settings {
        epoch_limit: 64,
        ..settings(b"c")
    };
    Ok(Pair::new(alloc, &client, &settings(b"s"), false)?)
}

// Two ends that know several names of methods and of host keys.
fn named(alloc: Global) -> Result<Pair, Problem> {
    let client = Settings {
        kex: &[b"curve25519-sha256@libssh.org", b"curve25519-sha256"],
        host: &[b"x", b"toy@example.com", b"y"],
        ..settings(b"c")
    };
    let server = Settings {
        kex: &[b"curve25519-sha256", b"curve25519-sha256@libssh.org"],
        host: &[b"y", b"toy@example.com"],
        ..settings(b"s")
    };
    Ok(Pair::new(alloc, &client, &server, false)?)
}
