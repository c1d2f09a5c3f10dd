//! Private keys of the format openssh-key-v1 (OpenSSH's PROTOCOL.key).

ghost use Rattle.std.specs.Prelude.{◌≡◌, IfErr, IfOk, length};
ghost use Rattle.divrelca.specs.Lines.{IsFaultOf};
ghost use Rattle.divrelca.specs.PrivateKeys as spec;

use crate::key_files::armor::unarmored;
use crate::key_files::fault::{Expected, FileFault};
use crate::key_files::public_key::is_same;
use crate::key_files::words::ED25519;
use crate::parts::{Ed25519Signer, Ed25519Trust};
use ssh_types::{CallError, ReadRefusal, Reader};
use std::alloc::Global;

/// A private key of ssh-ed25519.
#[derive(Clone, Copy)]
pub struct PrivateKey {
    /// The 32 bytes from which RFC 8032 section 5.1.5 makes the key pair.
    pub seed: [u8; 32],
    /// The 32 bytes of its public key.
    pub public: [u8; 32],
}

/// The key of a private key file: one of ssh-ed25519 without a passphrase, which belongs to the public key in the file.
///
/// # Errors
///
/// - `Refused(Line)`: a line is not what it has to be: the first one, or base64 digits.
/// - `Refused(File)`: the last line is missing, the digits are no base64, or the key is encrypted, of another type, or not that of its
///   public key.
/// - `Memory`: memory was refused.
pub fn private_key(alloc: Global, text: &[u8]) -> Result<PrivateKey, CallError<FileFault>>
    ensures key { IfOk result (λ key. spec.private_key text.now ≡ Ok key) }
    ensures fault { IfErr result (λ fault. IsFaultOf (spec.private_key text.now) fault) }
{
    let bytes = unarmored(alloc, text)?;
    match key_in(bytes.as_slice()) {
        Ok(key) => Ok(key),
        Err(expected) => Err(CallError::Refused(FileFault::File(expected))),
    }
}

// What every file of the format begins with.
const MAGIC: &[u8] = b"openssh-key-v1\0";

// The name of no cipher, and of no derivation of a key.
const NONE: &[u8] = b"none";

// What stands at the end, up to less than a block of 8.
const PADDING: &[u8] = &[1, 2, 3, 4, 5, 6, 7];

impl From<ReadRefusal> for Expected {
    ghost use Rattle.std.specs.Prelude.{◌≡◌};
    ghost use Rattle.divrelca.specs.declared.key_files.fault.Expected.TheVariants as expected;

    ghost from_gives = { λ _ fault. fault ≡ expected.Format };

    fn from(_refusal: ReadRefusal) -> Expected {
        Expected::Format
    }
}

// The key in the decoded bytes.
#[tactic(auto, unfolding(crate::specs::PrivateKeys::key_in_bytes))]
fn key_in(bytes: &[u8]) -> Result<PrivateKey, Expected>
    ensures { result ≡ spec.key_in_bytes bytes.now }
{
    let Some(settings) = bytes.strip_prefix(MAGIC) else {
        return Err(Expected::Format);
    };
    let after = after_settings(settings)?;
    let (public, secret) = public_and_secret(after)?;
    let key = secret_key(secret)?;
    paired(&key, &public)
}

// What stands after the settings of a key without a passphrase.
#[tactic(auto, unfolding(crate::specs::PrivateKeys::after_settings))]
fn after_settings(bytes: &[u8]) -> Result<&[u8], Expected>
    ensures { spec.rest_read result ≡ spec.after_settings bytes.now }
{
    let (cipher, rest) = string_at(bytes)?;
    let (derivation, rest) = string_at(rest)?;
    let (_options, rest) = string_at(rest)?;
    if cipher == NONE && derivation == NONE {
        Ok(rest)
    } else {
        Err(Expected::Unencrypted)
    }
}

// The one public key, and the part that a passphrase would encrypt.
#[tactic(auto, unfolding(crate::specs::PrivateKeys::public_and_secret))]
fn public_and_secret(bytes: &[u8]) -> Result<([u8; 32], &[u8]), Expected>
    ensures { spec.secret_read result ≡ spec.public_and_secret bytes.now }
{
    let (count, rest) = number_at(bytes)?;
    if count != 1 {
        return Err(Expected::Ed25519);
    }
    let (blob, rest) = string_at(rest)?;
    let Some(trust) = Ed25519Trust::from_key(blob) else {
        return Err(Expected::Ed25519);
    };
    let public = trust.public;
    let (secret, rest) = string_at(rest)?;
    if rest.is_empty() {
        Ok((public, secret))
    } else {
        Err(Expected::Format)
    }
}

// The key in the part that a passphrase would encrypt.
#[tactic(auto, unfolding(crate::specs::PrivateKeys::secret_key))]
fn secret_key(bytes: &[u8]) -> Result<PrivateKey, Expected>
    ensures { result ≡ spec.secret_key bytes.now }
{
    let rest = after_numbers(bytes)?;
    let rest = after_type(rest)?;
    let (text, rest) = string_at(rest)?;
    let public = half(text)?;
    let (seed, other) = both_halves(rest)?;
    paired(&PrivateKey { seed, public }, &other)
}

// What stands after two numbers that are the same.
#[tactic(auto, unfolding(crate::specs::PrivateKeys::after_numbers))]
fn after_numbers(bytes: &[u8]) -> Result<&[u8], Expected>
    ensures { spec.rest_read result ≡ spec.after_numbers bytes.now }
{
    let (one, rest) = number_at(bytes)?;
    let (other, rest) = number_at(rest)?;
    if one == other {
        Ok(rest)
    } else {
        Err(Expected::Format)
    }
}

// What stands after the type of the key.
#[tactic(auto, unfolding(crate::specs::PrivateKeys::after_type))]
fn after_type(bytes: &[u8]) -> Result<&[u8], Expected>
    ensures { spec.rest_read result ≡ spec.after_type bytes.now }
{
    let (name, rest) = string_at(bytes)?;
    if name == ED25519 {
        Ok(rest)
    } else {
        Err(Expected::Ed25519)
    }
}

// The seed and the public key, where only a comment and padding stand after them.
#[tactic(auto, unfolding(crate::specs::PrivateKeys::both_halves))]
fn both_halves(bytes: &[u8]) -> Result<([u8; 32], [u8; 32]), Expected>
    ensures { result ≡ spec.both_halves bytes.now }
{
    let (both, rest) = string_at(bytes)?;
    let (_comment, rest) = string_at(rest)?;
    if PADDING.starts_with(rest) && both.len() == 64 {
        let (seed, public) = both.split_at(32);
        Ok((array_of(seed), array_of(public)))
    } else {
        Err(Expected::Format)
    }
}

// 32 bytes.
fn half(bytes: &[u8]) -> Result<[u8; 32], Expected>
    ensures { result ≡ spec.half bytes.now }
{
    if bytes.len() == 32 {
        Ok(array_of(bytes))
    } else {
        Err(Expected::Format)
    }
}

fn array_of(bytes: &[u8]) -> [u8; 32]
    requires { length bytes.now ≡ 32 }
    ensures { result ≡ bytes.now }
{
    let mut array = [0; 32];
    array.copy_from_slice(bytes);
    array
}

// The key, where its public key is this one and belongs to its seed.
fn paired(key: &PrivateKey, public: &[u8; 32]) -> Result<PrivateKey, Expected>
    ensures { result ≡ spec.paired key.now public.now }
{
    if is_same(&key.public, public) && is_public_of(&key.seed, public) {
        Ok(*key)
    } else {
        Err(Expected::Pair)
    }
}

// Tests whether a public key belongs to a seed.
fn is_public_of(seed: &[u8; 32], public: &[u8; 32]) -> bool
    ensures { result ≡ spec.is_public_of seed.now public.now }
{
    let signer = Ed25519Signer::new(seed);
    match Ed25519Trust::from_key(signer.public_key()) {
        Some(trust) => is_same(&trust.public, public),
        None => false,
    }
}

// ---- numbers and strings

// The number in front, and the bytes after it.
#[tactic(auto, using(crate::proofs::Fields::number_found, crate::proofs::Fields::number_none))]
fn number_at(bytes: &[u8]) -> Result<(u32, &[u8]), Expected>
    ensures { spec.number_read result ≡ spec.number_at bytes.now }
{
    ssh_types::laws::are_bytes(bytes);
    let mut reader = Reader::new(bytes);
    let number = reader.u32()?;
    Ok((number, reader.rest()))
}

// The string in front, and the bytes after it.
#[tactic(auto, using(crate::proofs::Fields::string_found, crate::proofs::Fields::string_none))]
fn string_at(bytes: &[u8]) -> Result<(&[u8], &[u8]), Expected>
    ensures { spec.string_read result ≡ spec.string_at bytes.now }
{
    ssh_types::laws::are_bytes(bytes);
    let mut reader = Reader::new(bytes);
    let text = reader.string()?;
    Ok((text, reader.rest()))
}
