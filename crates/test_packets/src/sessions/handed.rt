//! The parts of a client and of a server, used by their fields whatever they are.

use ssh_kex::{Agreement, HostSigner, HostTrust};
use ssh_packet::{Filler, Sealing};
use ssh_toys::lines::{Problem, bytes_of, digits_of};
use ssh_transport::{ClientPartValues, ClientParts, ServerPartValues, ServerParts};
use std::alloc::Global;

/// The byte with which a client fills and its point, whether it trusts this key, and whether its sealing knows `none` with this MAC.
///
/// # Errors
///
/// `Problem` if the key is no bytes, and want of memory.
pub fn of_client<P: ClientParts>(
    alloc: Global,
    parts: &mut ClientPartValues<P>,
    key: &str,
    mac: &str,
) -> Result<String, Problem> {
    let key = bytes_of(alloc, key)?;
    let mut padding = [0; 4];
    parts.filler.fill(&mut padding);
    let point = parts.agreement.public(&[3; 32]);
    let trusted = parts
        .host_trust
        .judge(b"toy@example.com", &key, &[7; 32], &[7; 32]);
    let seals = P::Sealing::lengths(b"none", mac.as_bytes()).is_some();
    let point = digits_of(alloc, &point)?;
    Ok(format!(in alloc; "{padding:?} {point} {:?}", (trusted, seals))?)
}

/// The byte with which a server fills and its point, the size of a signature, whether its sealing knows `none` with this MAC, and its key.
///
/// # Errors
///
/// Only if memory is refused.
pub fn of_server<P: ServerParts>(
    alloc: Global,
    parts: &mut ServerPartValues<P>,
    mac: &str,
) -> Result<String, Problem> {
    let mut padding = [0; 4];
    parts.filler.fill(&mut padding);
    let point = parts.agreement.public(&[5; 32]);
    let mut room = [0; 4096];
    let size = parts
        .host_signer
        .sign(b"toy@example.com", &[7; 32], &mut room);
    let seals = P::Sealing::lengths(b"none", mac.as_bytes()).is_some();
    let point = digits_of(alloc, &point)?;
    let key = digits_of(alloc, parts.host_signer.key(b"toy@example.com"))?;
    Ok(format!(in alloc; "{padding:?} {point} {:?} {key}", (size, seals))?)
}
