//! Keys and signatures of ssh-ed25519 as they go over the wire (RFC 8709 sections 4 and 6).

ghost use Rattle.std.specs.Prelude.{◌≡◌};
ghost use Rattle.divrelca.specs.Parts.Ed25519.{has_signed, key_blob, key_in, signature_blob, signature_in};

use ciphers::ed25519::{is_small_order, verify};

// The name of the algorithm.
pub(crate) const NAME: &[u8] = b"ssh-ed25519";

// The bytes of a key as it goes over the wire, and of a signature.
pub(crate) const KEY: usize = 51;

pub(crate) const SIGNATURE: usize = 83;

// What stands before a key and before a signature: the name as a string, and a length.
const BEFORE_KEY: [u8; 19] = *b"\0\0\0\x0bssh-ed25519\0\0\0\x20";

const BEFORE_SIGNATURE: [u8; 19] = *b"\0\0\0\x0bssh-ed25519\0\0\0\x40";

// The name and a key, each as a string.
#[tactic(auto, unfolding(crate::specs::Parts::Ed25519::key_blob, ssh_model::specs::Protocol::KeyExchange::Exchange::string_of))]
pub(crate) fn key_blob(key: &[u8; 32]) -> [u8; 51]
    ensures { result ≡ key_blob key.now }
{
    let mut blob = [0; KEY];
    let (front, rest) = blob.split_at_mut(19);
    front.copy_from_slice(&BEFORE_KEY);
    rest.copy_from_slice(key);
    blob
}

// The name and a signature, each as a string.
#[tactic(auto, unfolding(crate::specs::Parts::Ed25519::signature_blob, ssh_model::specs::Protocol::KeyExchange::Exchange::string_of))]
pub(crate) fn signature_blob(signature: &[u8; 64]) -> [u8; 83]
    ensures { result ≡ signature_blob signature.now }
{
    let mut blob = [0; SIGNATURE];
    let (front, rest) = blob.split_at_mut(19);
    front.copy_from_slice(&BEFORE_SIGNATURE);
    rest.copy_from_slice(signature);
    blob
}

// The key that these bytes are, with the name before it.
#[tactic(auto, unfolding(crate::specs::Parts::Ed25519::key_in))]
pub(crate) fn key_in(blob: &[u8]) -> Option<[u8; 32]>
    ensures { result ≡ key_in blob.now }
{
    if blob.len() != KEY {
        return None;
    }
    let mut key = [0; 32];
    let (_, rest) = blob.split_at(19);
    key.copy_from_slice(rest);
    if key_blob(&key).as_slice() == blob {
        return Some(key);
    }
    None
}

// The signature that these bytes are, with the name before it.
#[tactic(auto, unfolding(crate::specs::Parts::Ed25519::signature_in))]
pub(crate) fn signature_in(blob: &[u8]) -> Option<[u8; 64]>
    ensures { result ≡ signature_in blob.now }
{
    if blob.len() != SIGNATURE {
        return None;
    }
    let mut signature = [0; 64];
    let (_, rest) = blob.split_at(19);
    signature.copy_from_slice(rest);
    if signature_blob(&signature).as_slice() == blob {
        return Some(signature);
    }
    None
}

// Whether these bytes are a signature of the text by this key, which is no point of small order.
#[tactic(auto, unfolding(crate::specs::Parts::Ed25519::has_signed))]
pub(crate) fn has_signed(key: &[u8; 32], text: &[u8], blob: &[u8]) -> bool
    ensures { result ≡ has_signed key.now text.now blob.now }
{
    match signature_in(blob) {
        Some(signature) => verify(key, text, &signature) && !is_small_order(key),
        None => false,
    }
}
