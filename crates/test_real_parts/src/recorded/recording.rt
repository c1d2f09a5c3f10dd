//! How the sessions were recorded.

use super::keys::Keys;
use super::playing::{Role, client, server};
use ssh_pipe::{Machine, pump};
use std::fs::{self, File};
use std::io::{self, Read, Stdin, Write};

// Reads, and writes a copy of what was read.
#[derive(Drop)]
struct Copied {
    from: Stdin,
    copy: File,
}

impl Read for Copied {
    fn read(&mut self, bytes: &mut [u8]) -> io::Result<usize> {
        let count = self.from.read(bytes)?;
        self.copy.write_all(bytes.get(..count).unwrap_or(&[]))?;
        Ok(count)
    }
}

/// Lets an end go on over standard input and output, and keeps the bytes that come in a file.
///
/// # Errors
///
/// Those of the end, of standard input and output, and of the file.
pub fn record(rt: &HostRuntime, keys: &Keys, role: Role, file: &str) -> anyhow::Result<()> {
    let alloc = rt.alloc();
    let mut out = Vec::new(alloc);
    let mut input = Copied {
        from: rt.stdin(),
        copy: fs::create(rt, file)?,
    };
    match role {
        Role::Server => go_on(rt, &mut server(alloc, keys, &mut out)?, &mut input, out),
        Role::Client => go_on(rt, &mut client(alloc, keys, &mut out)?, &mut input, out),
    }
}

// Lets this end go on, after what it put out. What a client's command writes is dropped.
fn go_on<M: Machine>(
    rt: &HostRuntime,
    machine: &mut M,
    input: &mut Copied,
    out: Vec<u8>,
) -> anyhow::Result<()> {
    pump(
        rt.alloc(),
        machine,
        input,
        &mut rt.stdout(),
        out,
        &mut rt.stderr(),
    )?;
    Ok(())
}
