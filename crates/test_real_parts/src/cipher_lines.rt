//! Ciphers and curves by themselves. `x25519`, a scalar and a point give a point. `rounds` and a number give the scalar after so many
//! rounds of RFC 7748 section 5.2.
//!
//! `public` and a secret of Ed25519 give its public key. `sign`, a secret and a text give a signature. `verify`, a key, a text and a
//! signature say whether it is accepted. `order` and a key say whether its order is small.
//!
//! `aes`, a key and four blocks give these encrypted. `mask`, a key of AES-GCM, a nonce and a text give the text with the key stream added.
//! `tag`, a key, a nonce, data in clear and an encrypted text give its tag. `alike`, a key, a nonce, data in clear and sizes say whether
//! the plain programs mask and tag texts of these sizes as the fast ones do.

use ciphers::aes_gcm::{GcmKey, encrypted, long_schedule_of, schedule_of};
use ciphers::ed25519::{KeyPair, is_small_order, verify};
use ciphers::x25519::x25519;
use hex::FromHex;
use ssh_toys::lines::{Layer, Problem, bytes_of, digits_of, parsed, text_of};
use ssh_toys::plain::PlainKey;
use std::alloc::{AllocError, Global};

// The most bytes of a text that is masked or tagged, and of data in clear.
const MOST: usize = 9999;

/// Ciphers and curves that are told lines.
#[derive(Drop)]
pub struct CipherLines {
    alloc: Global,
}

impl CipherLines {
    /// Lines of ciphers and curves.
    pub fn new(alloc: Global) -> CipherLines {
        CipherLines { alloc }
    }

    fn multiplied(&self, scalar: &str, point: &str) -> Result<String, Problem> {
        let product = x25519(&key_bytes(scalar)?, &key_bytes(point)?);
        shown(self.alloc, &product)
    }

    // The scalar of the iterated vector after so many rounds.
    fn iterated(&self, count: &str) -> Result<String, Problem> {
        let mut scalar = [0; 32];
        scalar[0] = 9;
        let mut point = scalar;
        for _ in 0..parsed(count)? {
            let product = x25519(&scalar, &point);
            point = scalar;
            scalar = product;
        }
        shown(self.alloc, &scalar)
    }

    fn public(&self, seed: &str) -> Result<String, Problem> {
        let pair = KeyPair::from_seed(&key_bytes(seed)?);
        shown(self.alloc, pair.public())
    }

    fn signed(&self, seed: &str, text: &str) -> Result<String, Problem> {
        let text = bytes_of(self.alloc, text)?;
        let pair = KeyPair::from_seed(&key_bytes(seed)?);
        shown(self.alloc, &pair.sign(&text))
    }

    fn verified(&self, key: &str, rest: &str) -> Result<String, Problem> {
        let (text, signature) = parted(rest)?;
        let text = bytes_of(self.alloc, text)?;
        let signature = <[u8; 64] as FromHex>::from_hex(signature)?;
        verdict(self.alloc, verify(&key_bytes(key)?, &text, &signature))
    }

    fn ordered(&self, key: &str) -> Result<String, Problem> {
        let text = if is_small_order(&key_bytes(key)?) {
            "small"
        } else {
            "not small"
        };
        text_of(self.alloc, text)
    }

    // Four blocks, encrypted under a key of either length.
    fn enciphered(&self, key: &str, blocks: &str) -> Result<String, Problem> {
        let blocks = <[u8; 64] as FromHex>::from_hex(blocks)?;
        let schedule = if key.len() == 64 {
            long_schedule_of(&key_bytes(key)?)
        } else {
            schedule_of(&<[u8; 16] as FromHex>::from_hex(key)?)
        };
        shown(self.alloc, &encrypted(&schedule, &blocks))
    }

    fn masked(&self, key: &str, rest: &str) -> Result<String, Problem> {
        let (nonce, text) = parted(rest)?;
        let nonce = <[u8; 12] as FromHex>::from_hex(nonce)?;
        let key = gcm_key(self.alloc, key)?;
        let mut text = bytes_of(self.alloc, text)?;
        if text.len() > MOST {
            return Err(Problem::NotALine);
        }
        key.mask(&nonce, &mut text);
        shown(self.alloc, &text)
    }

    fn tagged(&self, key: &str, rest: &str) -> Result<String, Problem> {
        let (nonce, rest) = parted(rest)?;
        let (additional, text) = parted(rest)?;
        let nonce = <[u8; 12] as FromHex>::from_hex(nonce)?;
        let key = gcm_key(self.alloc, key)?;
        let additional = bytes_of(self.alloc, additional)?;
        let text = bytes_of(self.alloc, text)?;
        if text.len() > MOST || additional.len() > MOST {
            return Err(Problem::NotALine);
        }
        shown(self.alloc, &key.tag(&nonce, &additional, &text))
    }

    // Whether both programs make the same of texts of all these sizes.
    fn compared(&self, key: &str, rest: &str) -> Result<String, Problem> {
        let (nonce, rest) = parted(rest)?;
        let (additional, sizes) = parted(rest)?;
        let nonce = <[u8; 12] as FromHex>::from_hex(nonce)?;
        let key = <[u8; 16] as FromHex>::from_hex(key)?;
        let additional = bytes_of(self.alloc, additional)?;
        for size in sizes.split(' ') {
            let text = text_of_size(self.alloc, parsed(size)?)?;
            if !is_alike(self.alloc, &key, &nonce, &additional, &text)? {
                return Ok(format!(in self.alloc; "another at {size}")?);
            }
        }
        text_of(self.alloc, "alike")
    }
}

impl Layer for CipherLines {
    fn said_to(&mut self, line: &str) -> Result<String, Problem> {
        let (word, rest) = parted(line)?;
        match (word, rest.split_once(' ')) {
            ("rounds", None) => self.iterated(rest),
            ("public", None) => self.public(rest),
            ("order", None) => self.ordered(rest),
            ("x25519", Some((scalar, point))) => self.multiplied(scalar, point),
            ("sign", Some((seed, text))) => self.signed(seed, text),
            ("verify", Some((key, rest))) => self.verified(key, rest),
            ("aes", Some((key, blocks))) => self.enciphered(key, blocks),
            ("mask", Some((key, rest))) => self.masked(key, rest),
            ("tag", Some((key, rest))) => self.tagged(key, rest),
            ("alike", Some((key, rest))) => self.compared(key, rest),
            _ => Err(Problem::NotALine),
        }
    }
}

/// The first word of a text, and the text after it.
///
/// # Errors
///
/// `NotALine` if there is no second one.
pub fn parted(text: &str) -> Result<(&str, &str), Problem> {
    text.split_once(' ').ok_or(Problem::NotALine)
}

/// The 32 bytes of a key, a scalar or a point.
///
/// # Errors
///
/// `NotHex` if the digits are not those of 32 bytes.
pub fn key_bytes(digits: &str) -> Result<[u8; 32], Problem> {
    Ok(<[u8; 32] as FromHex>::from_hex(digits)?)
}

/// The digits of bytes, if there are any.
///
/// # Errors
///
/// Only if memory is refused.
pub fn shown(alloc: Global, bytes: &[u8]) -> Result<String, Problem> {
    if bytes.is_empty() {
        return text_of(alloc, "nothing");
    }
    digits_of(alloc, bytes)
}

/// Whether something is accepted.
///
/// # Errors
///
/// Only if memory is refused.
pub fn verdict(alloc: Global, is_accepted: bool) -> Result<String, Problem> {
    let text = if is_accepted { "accepted" } else { "refused" };
    text_of(alloc, text)
}

// A key of AES-GCM of either length.
fn gcm_key(alloc: Global, digits: &str) -> Result<GcmKey, Problem> {
    if digits.len() == 64 {
        return Ok(GcmKey::new_256(alloc, &key_bytes(digits)?)?);
    }
    Ok(GcmKey::new(alloc, &<[u8; 16] as FromHex>::from_hex(digits)?)?)
}

// A text of so many bytes: the square of the place of each, modulo 251.
fn text_of_size(alloc: Global, size: u32) -> Result<Vec<u8>, AllocError> {
    let mut text = Vec::new(alloc);
    for place in 0..size {
        text.push((place.wrapping_mul(place) % 251) as u8)?;
    }
    Ok(text)
}

// Whether both programs mask a text to the same bytes, and make the same tag of it.
fn is_alike(
    alloc: Global,
    key: &[u8; 16],
    nonce: &[u8; 12],
    additional: &[u8],
    text: &[u8],
) -> Result<bool, Problem> {
    if text.len() > MOST || additional.len() > MOST {
        return Err(Problem::NotALine);
    }
    let fast = GcmKey::new(alloc, key)?;
    let plain = PlainKey::new(key);
    let mut by_fast = text.to_vec(alloc)?;
    let mut by_plain = text.to_vec(alloc)?;
    fast.mask(nonce, &mut by_fast);
    plain.mask(nonce, &mut by_plain);
    Ok(
        by_fast == by_plain
            && fast.tag(nonce, additional, text) == plain.tag(nonce, additional, text),
    )
}
