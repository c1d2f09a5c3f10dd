//! Payloads of KEXINIT as any end may send them (RFC 4253 section 7.1).

use ssh_toys::lines::{Problem, bytes_of};
use ssh_types::Side;
use std::alloc::{AllocError, Global};

// The ten lists that an end sends first, without its marker of strict key exchange, in the order of RFC 4253 section 7.1.
const LISTS: [&str; 10] = [
    "curve25519-sha256",
    "toy@example.com",
    "none",
    "none",
    "hmac-sha2-256",
    "hmac-sha2-256",
    "none",
    "none",
    "",
    "",
];

/// A KEXINIT of the peer of an end, whose cookie has one byte alone, and of which the lists at some places are others: `c1 1=ssh-ed25519`.
/// The word `guess` is for one that is followed by a guess.
///
/// # Errors
///
/// `Problem` if the cookie is no byte, and want of memory.
pub fn kexinit_of(alloc: Global, to: Side, words: &str) -> Result<Vec<u8>, Problem> {
    let (cookie, others) = words.split_once(' ').unwrap_or((words, ""));
    let cookie = bytes_of(alloc, cookie)?.first().copied().unwrap_or(0);
    Ok(kexinit(alloc, to, cookie, others)?)
}

fn kexinit(alloc: Global, to: Side, cookie: u8, others: &str) -> Result<Vec<u8>, AllocError> {
    let mut payload = Vec::new(alloc);
    payload.push(20)?;
    payload.extend_from_slice(&[cookie; 16])?;
    for (place, list) in LISTS.iter().enumerate() {
        match other(others, place) {
            Some(text) => put_list(text, &mut payload)?,
            None if place == 0 => put_list(methods(to), &mut payload)?,
            None => put_list(list, &mut payload)?,
        }
    }
    payload.push(others.starts_with("guess") as u8)?;
    payload.extend_from_slice(&[0; 4])?;
    Ok(payload)
}

// The methods that the peer of an end offers, with its marker.
fn methods(to: Side) -> &'static str {
    match to {
        Side::Client => "curve25519-sha256,kex-strict-s-v00@openssh.com",
        Side::Server => "curve25519-sha256,kex-strict-c-v00@openssh.com",
    }
}

// The other list for this place.
fn other<'a>(words: &'a str, place: usize) -> Option<&'a str> {
    for word in words.split(' ') {
        if let Some((number, text)) = word.split_once('=') {
            if number.parse::<usize>() == Ok(place) {
                return Some(text);
            }
        }
    }
    None
}

// A name-list (RFC 4251 section 5).
fn put_list(list: &str, payload: &mut Vec<u8>) -> Result<(), AllocError> {
    let size = u32::try_from(list.len()).unwrap_or(u32::MAX);
    payload.extend_from_slice(&size.to_be_bytes())?;
    payload.extend_from_slice(list.as_bytes())
}
