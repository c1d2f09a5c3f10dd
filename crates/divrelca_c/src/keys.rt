//! Keys in the files of OpenSSH.

ghost use Rattle.std.specs.Prelude.{◌≡◌, IfErr, IfOk, Ok, pos};
ghost use Rattle.std.specs.List.{list_all};
ghost use Rattle.std.specs.Option.{option_copied};
ghost use Rattle.divrelca_c.specs.Files.{TellsFault, TellsKey, code_skipped, fault_at, host_in, key_at, line_skipped, one_of, only_key};
ghost use Rattle.base64.specs.Engines.{standard_no_pad};
ghost use Rattle.base64.specs.GeneralPurpose.{encode_of};
ghost use Rattle.ciphers.specs.Ed25519.Signature.{pair_of};
ghost use Rattle.divrelca.specs.KnownHosts.{trusted_keys};
ghost use Rattle.divrelca.specs.Lines.{IsFaultOf};
ghost use Rattle.divrelca.specs.PrivateKeys as spec;
ghost use Rattle.divrelca.specs.Skipped.{faults_left, host_faults, user_faults};
ghost use Rattle.divrelca.specs.UserKeys.{user_keys};
ghost use Rattle.sha2.specs.Sha256.{sha256};
ghost use Rattle.ssh_model.specs.Protocol.Wire.DataTypes.{is_text};

use crate::codes::{DONE, code_file, code_unread};
use ciphers::ed25519::KeyPair;
use divrelca::key_files::{
    Expected, FileFault, SkippedLines, authorized_keys, private_key, skipped_hosts, skipped_users,
    trusted_keys,
};
use divrelca::{CallError, fingerprint};
use std::alloc::Global;

/// The key of a private key file of ssh-ed25519 without a passphrase.
#[unsafe(no_mangle)]
pub extern "C" fn dv_private_key(
    alloc: Global,
    text: &[u8],
    seed: &mut [u8; 32],
    public: &mut [u8; 32],
    line: &mut usize,
) -> i32
    ensures key { result ≡ pos 0 → spec.private_key text.now ≡ Ok (record { seed = seed.new; public = public.new }) }
    ensures fault { (result ≡ pos 0 → ⊥) → TellsFault (spec.private_key text.now) result line.new }
    ensures seed { (result ≡ pos 0 → ⊥) → seed.new ≡ seed.old }
    ensures public { (result ≡ pos 0 → ⊥) → public.new ≡ public.old }
    ensures line { result ≡ pos 0 → line.new ≡ line.old }
{
    match private_key(alloc, text) {
        Ok(key) => {
            let (secret, point) = (key.seed, key.public);
            *seed = secret;
            *public = point;
            DONE
        }
        Err(error) => {
            let (code, number) = code_unread(error);
            *line = number;
            code
        }
    }
}

/// The key at this place, from 0, of a file of the form of authorized_keys, and how many keys it has.
#[unsafe(no_mangle)]
pub extern "C" fn dv_authorized_key(
    alloc: Global,
    text: &[u8],
    place: usize,
    public: &mut [u8; 32],
    count: &mut usize,
    line: &mut usize,
) -> i32
    ensures key { result ≡ pos 0 → TellsKey (user_keys text.now) place public.old public.new count.new }
    ensures fault { (result ≡ pos 0 → ⊥) → TellsFault (user_keys text.now) result line.new }
    ensures public { (result ≡ pos 0 → ⊥) → public.new ≡ public.old }
    ensures count { (result ≡ pos 0 → ⊥) → count.new ≡ count.old }
    ensures line { result ≡ pos 0 → line.new ≡ line.old }
{
    match authorized_keys(alloc, text) {
        Ok(keys) => {
            *count = keys.len();
            if let Some(key) = keys.get(place) {
                *public = *key;
            }
            DONE
        }
        Err(error) => {
            let (code, number) = code_unread(error);
            *line = number;
            code
        }
    }
}

/// The one key that a file of the form of known_hosts has for this host, or for any host if this one has no bytes. It may stand there more
/// than once.
#[unsafe(no_mangle)]
pub extern "C" fn dv_known_host(
    alloc: Global,
    text: &[u8],
    host: &[u8],
    public: &mut [u8; 32],
    line: &mut usize,
) -> i32
    ensures key { result ≡ pos 0 → only_key (trusted_keys text.now (host_in host.now)) ≡ Ok public.new }
    ensures fault { (result ≡ pos 0 → ⊥) → TellsFault (only_key (trusted_keys text.now (host_in host.now))) result line.new }
    ensures public { (result ≡ pos 0 → ⊥) → public.new ≡ public.old }
    ensures line { result ≡ pos 0 → line.new ≡ line.old }
{
    match only_key(alloc, text, host) {
        Ok(key) => {
            *public = key;
            DONE
        }
        Err(error) => {
            let (code, number) = code_unread(error);
            *line = number;
            code
        }
    }
}

/// The key at this place, from 0, of those that a file of the form of known_hosts has for this host, or for any host if this one has no
/// bytes.
#[unsafe(no_mangle)]
pub extern "C" fn dv_known_host_key(
    alloc: Global,
    text: &[u8],
    host: &[u8],
    place: usize,
    public: &mut [u8; 32],
    line: &mut usize,
) -> i32
    ensures key { result ≡ pos 0 → key_at place (trusted_keys text.now (host_in host.now)) ≡ Ok public.new }
    ensures fault { (result ≡ pos 0 → ⊥) → TellsFault (key_at place (trusted_keys text.now (host_in host.now))) result line.new }
    ensures public { (result ≡ pos 0 → ⊥) → public.new ≡ public.old }
    ensures line { result ≡ pos 0 → line.new ≡ line.old }
{
    match key_at(alloc, text, host, place) {
        Ok(key) => {
            *public = key;
            DONE
        }
        Err(error) => {
            let (code, number) = code_unread(error);
            *line = number;
            code
        }
    }
}

// The one key for this host, or for any host if this one has no bytes.
fn only_key(alloc: Global, text: &[u8], host: &[u8]) -> Result<[u8; 32], CallError<FileFault>>
    ensures key { IfOk result (λ key. only_key (trusted_keys text.now (host_in host.now)) ≡ Ok key) }
    ensures fault { IfErr result (λ fault. IsFaultOf (only_key (trusted_keys text.now (host_in host.now))) fault) }
{
    let keys = trusted_keys(alloc, text, host_in(host))?;
    match one_of(keys.as_slice()) {
        Ok(key) => Ok(key),
        Err(fault) => Err(CallError::Refused(fault)),
    }
}

// The key that all of these are.
fn one_of(keys: &[[u8; 32]]) -> Result<[u8; 32], FileFault>
    ensures { result ≡ one_of keys.now }
{
    let Some((first, others)) = keys.split_first() else {
        return Err(FileFault::File(Expected::AnyHostKey));
    };
    if are_all(others, first) {
        Ok(*first)
    } else {
        Err(FileFault::File(Expected::OneHostKey))
    }
}

fn are_all(keys: &[[u8; 32]], first: &[u8; 32]) -> bool
    ensures { result ≡ list_all (is_text first.now) keys.now }
{
    keys.iter().all(|key| first.as_slice() == key.as_slice())
}

// The key at this place.
fn key_at(
    alloc: Global,
    text: &[u8],
    host: &[u8],
    place: usize,
) -> Result<[u8; 32], CallError<FileFault>>
    ensures key { IfOk result (λ key. key_at place (trusted_keys text.now (host_in host.now)) ≡ Ok key) }
    ensures fault { IfErr result (λ fault. IsFaultOf (key_at place (trusted_keys text.now (host_in host.now))) fault) }
{
    let keys = trusted_keys(alloc, text, host_in(host))?;
    match keys.get(place) {
        Some(key) => Ok(*key),
        None => Err(CallError::Refused(FileFault::File(Expected::AnyHostKey))),
    }
}

// ---- lines that are passed over

/// What was expected on the line at this place, from 0, of those of known_hosts that are passed over for this host, or for any host if this
/// one has no bytes. `DONE` if there are no more lines.
#[unsafe(no_mangle)]
pub extern "C" fn dv_skipped_host(text: &[u8], host: &[u8], place: usize, line: &mut usize) -> i32
    ensures code { result ≡ code_skipped (fault_at place (host_faults (host_in host.now) text.now)) }
    ensures line { line.new ≡ line_skipped (fault_at place (host_faults (host_in host.now) text.now)) line.old }
{
    told(fault_at(skipped_hosts(text, host_in(host)), place), line)
}

/// What was expected on the line at this place, from 0, of those of authorized_keys that are passed over. `DONE` if there are no more
/// lines.
#[unsafe(no_mangle)]
pub extern "C" fn dv_skipped_user(text: &[u8], place: usize, line: &mut usize) -> i32
    ensures code { result ≡ code_skipped (fault_at place (user_faults text.now)) }
    ensures line { line.new ≡ line_skipped (fault_at place (user_faults text.now)) line.old }
{
    told(fault_at(skipped_users(text), place), line)
}

// The fault at this place.
fn fault_at(lines: SkippedLines<'_>, place: usize) -> Option<FileFault>
    ensures { result ≡ fault_at place (faults_left lines.entry) }
{
    let mut lines = lines;
    lines.nth(place)
}

// The code of a fault, if there is one, and its line.
fn told(fault: Option<FileFault>, line: &mut usize) -> i32
    ensures code { result ≡ code_skipped fault }
    ensures line { line.new ≡ line_skipped fault line.old }
{
    let Some(fault) = fault else {
        return DONE;
    };
    let (code, number) = code_file(fault);
    *line = number;
    code
}

// The host that is named: none if its name has no bytes.
fn host_in(host: &[u8]) -> Option<&[u8]>
    ensures { option_copied result ≡ host_in host.now }
{
    if host.is_empty() { None } else { Some(host) }
}

/// What people compare of a key as it goes over the wire: 43 base64 digits.
#[unsafe(no_mangle)]
pub extern "C" fn dv_fingerprint(key: &[u8], digits: &mut [u8; 43])
    ensures { digits.new ≡ encode_of standard_no_pad (sha256 key.now) }
{
    *digits = fingerprint(key);
}

/// The public key of a seed.
#[unsafe(no_mangle)]
pub extern "C" fn dv_public_key(seed: &[u8; 32], public: &mut [u8; 32])
    ensures { public.new ≡ (pair_of seed.now).public }
{
    let pair = KeyPair::from_seed(seed);
    *public = *pair.public();
}
