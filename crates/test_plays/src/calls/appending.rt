//! Calls that put something after bytes.

use super::outcome::Outcome;
use ssh_auth::{SignedText, put_signed_text};
use ssh_message::{decode, encode};
use ssh_packet::{HmacKey, MacOnly, write_packet};
use ssh_toys::ToyFiller;
use ssh_types::{MpInt, NameList, Put};
use std::alloc::{AllocError, Global};

/// A call that puts something after bytes.
#[derive(Clone, Copy, Debug)]
pub enum Appending {
    Byte,
    Boolean,
    Uint32,
    Uint64,
    String,
    MpInt,
    Names,
    /// The message of this payload.
    Message(&'static [u8]),
    ClearPacket,
    SealedPacket,
    SignedText,
}

/// Each of them.
pub const APPENDING: &[Appending] = &[
    Appending::Byte,
    Appending::Boolean,
    Appending::Uint32,
    Appending::Uint64,
    Appending::String,
    Appending::MpInt,
    Appending::Names,
    Appending::Message(b"\x15"),
    Appending::Message(b"\x02\0\0\0\x04data"),
    Appending::Message(b"\x33\0\0\0\x12publickey,password\0"),
    Appending::Message(b"\x07\0\0\0\x01\0\0\0\x01n\0\0\0\x01v"),
    Appending::Message(b"\x62\0\0\0\0\0\0\0\x04exec\x01\0\0\0\x02ls"),
    Appending::ClearPacket,
    Appending::SealedPacket,
    Appending::SignedText,
];

const OLD: &[u8] = b"old";

/// Makes the call after three bytes, next to which nothing has room.
///
/// # Errors
///
/// Only if memory is refused.
pub fn append(alloc: Global, call: &Appending) -> Result<Outcome, AllocError> {
    let mut out = OLD.to_vec(alloc)?;
    if put(call, &mut out).is_ok() {
        return Ok(if is_after(&out) {
            Outcome::Done
        } else {
            Outcome::Wrong
        });
    }
    if out.as_slice() != OLD {
        return Ok(Outcome::Wrong);
    }
    let is_put = put(call, &mut out).is_ok();
    Ok(if is_put && is_after(&out) {
        Outcome::Refused
    } else {
        Outcome::Wrong
    })
}

// Whether something stands after the old bytes.
fn is_after(out: &[u8]) -> bool {
    out.starts_with(OLD) && out.len() > OLD.len()
}

fn put(call: &Appending, out: &mut Vec<u8>) -> Result<(), AllocError> {
    match *call {
        Appending::Byte => out.put_u8(7),
        Appending::Boolean => out.put_boolean(true),
        Appending::Uint32 => out.put_u32(7),
        Appending::Uint64 => out.put_u64(7),
        Appending::String => out.put_string(b"text"),
        Appending::MpInt => out.put_mpint(&MpInt::from_unsigned(&[0x80, 1])),
        Appending::Names => put_names(out),
        Appending::Message(payload) => put_message(payload, out),
        Appending::ClearPacket => put_packet(None, out),
        Appending::SealedPacket => put_packet(Some(&HmacKey::new(&[1; 32])), out),
        Appending::SignedText => put_signed_text(
            out,
            &SignedText {
                session: &[7; 32],
                user: b"u",
                service: b"ssh-connection",
                algorithm: b"toy@example.com",
                key: b"k",
            },
        ),
    }
}

fn put_names(out: &mut Vec<u8>) -> Result<(), AllocError> {
    match NameList::new(b"zlib,none") {
        Some(list) => out.put_names(&list),
        None => Ok(()),
    }
}

// Nothing is put where the payload is no message, or another one is put.
fn put_message(payload: &[u8], out: &mut Vec<u8>) -> Result<(), AllocError> {
    let Ok(message) = decode(false, payload) else {
        return Ok(())
    };
    encode(&message, out)?;
    if !out.ends_with(payload) {
        out.clear();
    }
    Ok(())
}

fn put_packet(key: Option<&HmacKey>, out: &mut Vec<u8>) -> Result<(), AllocError> {
    let mut zeros = ToyFiller { byte: 0 };
    write_packet::<MacOnly, ToyFiller>(b"\x15", key, 0, &mut zeros, out)
}
