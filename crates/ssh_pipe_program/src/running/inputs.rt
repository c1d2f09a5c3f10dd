//! The files that the options name.

use super::error::RunError;
use divrelca::key_files::{
    Expected, FileFault, PrivateKey, SkippedLines, authorized_keys, password, private_key,
    skipped_hosts, skipped_users, trusted_keys,
};
use divrelca::{AcceptedKey, CallError};
use ssh_pipe::Sink;
use std::fs::{self, File};
use std::io::{Read, Write};
use std::os::unix::fs::PermissionsExt;

// So many bytes are read of a file with one key or a password, and of a list of keys, so that reading ends whatever the file is.
const MOST_KEY_BYTES: usize = 65_536;

const MOST_LIST_BYTES: usize = 16_777_216;

// The bytes of a file that has at most so many. No more are read than show that it has more.
fn bytes_of<'a>(rt: &HostRuntime, file: &'a str, most: usize) -> Result<Vec<u8>, RunError<'a>> {
    let mut bytes = Vec::new(rt.alloc());
    let read = match fs::open(rt, file) {
        Ok(opened) => opened
            .take((most as u64).saturating_add(1))
            .read_to_end(&mut bytes),
        Err(error) => Err(error),
    };
    match read {
        Ok(count) if count > most => Err(RunError::Long { file, most }),
        Ok(_) => Ok(bytes),
        Err(error) => Err(RunError::File { file, error }),
    }
}

// What a file has, or what is wrong in it.
fn content<'a, T: Drop>(
    file: &'a str,
    read: Result<T, CallError<FileFault>>,
) -> Result<T, RunError<'a>> {
    match read {
        Ok(content) => Ok(content),
        Err(CallError::Refused(fault)) => Err(RunError::Content { file, fault }),
        Err(CallError::Memory) => Err(RunError::FileMemory { file }),
    }
}

/// The private key in a file. If others than the file's owner may read it, that is told on standard error.
///
/// # Errors
///
/// - `File`: the file can't be read.
/// - `Long`: it has more bytes than are read of one of its kind.
/// - `Content`: it has no private key of ssh-ed25519 without a passphrase.
/// - `FileMemory`, `Session`: memory was refused.
pub fn private_key_in<'a>(rt: &HostRuntime, file: &'a str) -> Result<PrivateKey, RunError<'a>> {
    let bytes = bytes_of(rt, file, MOST_KEY_BYTES)?;
    let key = content(file, private_key(rt.alloc(), bytes.as_slice()))?;
    warn_of_readers(rt, file);
    Ok(key)
}

// The bits of a mode that let the group and all others read.
const READ_BY_OTHERS: u32 = 0o044;

// Tells where others may read a private key. A file whose mode is not shown, and one that is none on a disk, as a pipe, are not told of.
fn warn_of_readers(rt: &HostRuntime, file: &str) {
    if let Ok(found) = fs::metadata(rt, file)
        && found.is_file()
        && found.permissions().mode() & READ_BY_OTHERS != 0
    {
        let _ = writeln!(
            rt.stderr(),
            "warning: {file}: others may read this private key: chmod 600 keeps it to its owner"
        );
    }
}

// So many lines that are passed over are told one by one.
const MOST_TOLD: usize = 20;

// Tells on standard error which lines of a file are passed over, and why.
fn tell_skipped(rt: &HostRuntime, file: &str, lines: SkippedLines<'_>) {
    let mut count: usize = 0;
    for fault in lines {
        if count < MOST_TOLD {
            let _ = writeln!(
                rt.stderr(),
                "warning: {file}: {fault}; this line is passed over"
            );
        }
        count = count.saturating_add(1);
    }
    if count > MOST_TOLD {
        let more = count - MOST_TOLD;
        let _ = writeln!(
            rt.stderr(),
            "warning: {file}: {more} more lines are passed over"
        );
    }
}

/// The keys in a file that are trusted to be the host's. Lines that are passed over are told on standard error.
///
/// # Errors
///
/// - `File`: the file can't be read.
/// - `Long`: it has more bytes than are read of one of its kind.
/// - `NoHostKey`: no line has a key of this host.
/// - `Content`: a line that may revoke a key is malformed, the last key is revoked, or the file has no key.
/// - `FileMemory`: memory was refused.
pub fn trusted_keys_in<'a>(
    rt: &HostRuntime,
    file: &'a str,
    host: Option<&'a str>,
) -> Result<Vec<[u8; 32]>, RunError<'a>> {
    let bytes = bytes_of(rt, file, MOST_LIST_BYTES)?;
    let name = name_of(host);
    tell_skipped(rt, file, skipped_hosts(bytes.as_slice(), name));
    match (
        content(file, trusted_keys(rt.alloc(), bytes.as_slice(), name)),
        host,
    ) {
        (
            Err(
                RunError::Content {
                    fault: FileFault::File(Expected::AnyHostKey),
                    ..
                },
            ),
            Some(host),
        ) => Err(RunError::NoHostKey { file, host }),
        (read, _) => read,
    }
}

// The bytes of a name, where there is one.
fn name_of(host: Option<&str>) -> Option<&[u8]> {
    match host {
        Some(host) => Some(host.as_bytes()),
        None => None,
    }
}

/// The keys in a file that let this user in. None if there is no file. Lines that are passed over are told on standard error.
///
/// # Errors
///
/// - `File`: the file can't be read.
/// - `Long`: it has more bytes than are read of one of its kind.
/// - `Content`: the file has no key.
/// - `FileMemory`, `Session`: memory was refused.
pub fn accepted_keys<'a>(
    rt: &HostRuntime,
    file: Option<&'a str>,
    user: &'a str,
) -> Result<Vec<AcceptedKey<'a>>, RunError<'a>> {
    let keys = match file {
        Some(file) => keys_in(rt, file)?,
        None => Vec::new(rt.alloc()),
    };
    let mut accepted = Vec::new(rt.alloc());
    for public in keys.iter() {
        accepted.push(AcceptedKey {
            user: user.as_bytes(),
            public: *public,
        })?;
    }
    Ok(accepted)
}

// The public keys in a file that are a user's.
fn keys_in<'a>(rt: &HostRuntime, file: &'a str) -> Result<Vec<[u8; 32]>, RunError<'a>> {
    let bytes = bytes_of(rt, file, MOST_LIST_BYTES)?;
    tell_skipped(rt, file, skipped_users(bytes.as_slice()));
    content(file, authorized_keys(rt.alloc(), bytes.as_slice()))
}

/// The password in a file, if there is one.
///
/// # Errors
///
/// - `File`: the file can't be read.
/// - `Long`: it has more bytes than are read of one of its kind.
/// - `Content`: it has no line that is a password.
/// - `Session`: memory was refused.
pub fn password_in<'a>(
    rt: &HostRuntime,
    file: Option<&'a str>,
) -> Result<Option<Vec<u8>>, RunError<'a>> {
    let Some(file) = file else {
        return Ok(None);
    };
    let bytes = bytes_of(rt, file, MOST_KEY_BYTES)?;
    match password(bytes.as_slice()) {
        Ok(word) => Ok(Some(Vec::from_slice(rt.alloc(), word)?)),
        Err(fault) => Err(RunError::Content { file, fault }),
    }
}

/// A file to read from, if there is one.
///
/// # Errors
///
/// Only `File`: the file can't be opened.
pub fn opened<'a>(rt: &HostRuntime, file: Option<&'a str>) -> Result<Option<File>, RunError<'a>> {
    match file {
        Some(file) => match fs::open(rt, file) {
            Ok(opened) => Ok(Some(opened)),
            Err(error) => Err(RunError::File { file, error }),
        },
        None => Ok(None),
    }
}

/// A new file for output, or standard error if there is none.
///
/// # Errors
///
/// Only `File`: the file can't be made.
pub fn sink<'a>(rt: &HostRuntime, file: Option<&'a str>) -> Result<Sink, RunError<'a>> {
    match file {
        Some(file) => match fs::create(rt, file) {
            Ok(made) => Ok(Sink::File(made)),
            Err(error) => Err(RunError::File { file, error }),
        },
        None => Ok(Sink::Stderr(rt.stderr())),
    }
}
