//! The key exchanges of two ends, from the messages that they sent.

use crate::party::Party;
use ssh_kex::{ExchangeInputs, exchange_hash, exchange_text};
use std::alloc::{AllocError, Global};

/// The text of an exchange of two ends that share this secret (RFC 4253 section 8, RFC 8731 section 3), and the hash of it.
///
/// # Errors
///
/// Only if memory is refused.
pub fn exchange_of(
    alloc: Global,
    client: &Party,
    server: &Party,
    place: usize,
    shared: &[u8; 32],
) -> Result<String, AllocError> {
    let inputs = ExchangeInputs {
        client_version: b"SSH-2.0-c",
        server_version: b"SSH-2.0-s",
        client_init: client.sent_of(20, place).unwrap_or(&[]),
        server_init: server.sent_of(20, place).unwrap_or(&[]),
        host_key: b"toy-host",
        client_point: &point(client.sent_of(30, place), 5),
        server_point: &point(server.sent_of(31, place), 17),
        shared,
    };
    if !inputs.fits() {
        return String::from_str(alloc, "nothing");
    }
    let text = exchange_text(alloc, &inputs)?;
    let mut words = hex::encode(alloc, &text)?;
    words.push(' ')?;
    words.push_str(hex::encode(alloc, &exchange_hash(&inputs))?.as_str())?;
    Ok(words)
}

// The point of a payload, from this byte on, or zeros where it has none.
fn point(payload: Option<&[u8]>, start: usize) -> [u8; 32] {
    let rest = payload.and_then(|payload| payload.get(start..));
    rest.and_then(|rest| rest.first_chunk().copied())
        .unwrap_or([0; 32])
}
