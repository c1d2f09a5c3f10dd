//! The names of hosts on a line of known_hosts.

ghost use Rattle.std.specs.Prelude.{◌≡◌, ◌++◌, ◌||◌, List, ℕ, bit_xor, false, map};
ghost use Rattle.sha1.specs.Sha1.{Holds};
ghost use Rattle.divrelca.specs.HostNames as spec;
ghost use Rattle.divrelca.specs.Keys.{bytes_in};
ghost use Rattle.divrelca.specs.Texts.{parts_of};

use crate::key_files::digits::decoded;
use crate::key_files::fault::Expected;
use crate::key_files::parts::{Parts, cut};
use crate::key_files::patterns::is_like;
use sha1::{DIGEST_LEN, Sha1};

// What a hashed name begins with: HMAC-SHA-1 is the one way of hashing that there is.
const HASHED: &[u8] = b"|1|";

// What stands between two names, and between a salt and its hash.
const COMMA: u8 = b',';

const BAR: u8 = b'|';

// How many bytes a salt leaves of a block of SHA-1, which has 64 (RFC 2104 section 2).
const AFTER_SALT: usize = 44;

/// Tests whether the names on a line stand for a host. A name is hashed, and then the only one of its line; or it is one of those that
/// commas part. Of these one has to be like the host's name, and none with `!` before it.
///
/// # Errors
///
/// - `HashedHost`: a hashed name is not of the form of OpenSSH.
#[tactic(auto, unfolding(crate::specs::HostNames::names_host))]
pub(crate) fn names_host(names: &[u8], host: &[u8]) -> Result<bool, Expected>
    ensures { result ≡ spec.names_host names.now host.now }
{
    match names.strip_prefix(HASHED) {
        Some(hashed) => is_hash_for(hashed, host),
        None => Ok(are_for(names, host)),
    }
}

// ---- names that commas part

// Tests whether one of the names is like the host's, and none after `!` is.
fn are_for(names: &[u8], host: &[u8]) -> bool
    ensures { result ≡ spec.are_for false host.now (parts_of 44 names.now) }
{
    let mut so_far = false;
    for name in Parts::new(COMMA, names) {
        if is_left_out(name, host) {
            return false;
        }
        so_far = either(is_shown(name, host), so_far);
    }
    so_far
}

// Tests whether one of them is true.
fn either(one: bool, other: bool) -> bool
    ensures { result ≡ (one || other) }
{
    one || other
}

// Tests whether a name without `!` before it is like the host's.
fn is_shown(name: &[u8], host: &[u8]) -> bool
    ensures { result ≡ spec.is_shown host.now name.now }
{
    match name.split_first() {
        Some((first, _)) => *first != b'!' && is_like(name, host),
        None => is_like(name, host),
    }
}

// Tests whether what stands after `!` is like the host's name.
fn is_left_out(name: &[u8], host: &[u8]) -> bool
    ensures { result ≡ spec.is_left_out host.now name.now }
{
    match name.split_first() {
        Some((first, other)) => *first == b'!' && is_like(other, host),
        None => false,
    }
}

// ---- hashed names

// Tests whether a hashed name, without what it begins with, stands for a host.
fn is_hash_for(hashed: &[u8], host: &[u8]) -> Result<bool, Expected>
    ensures { result ≡ spec.is_hash_for (spec.salt_and_hash (parts_of 124 hashed.now)) host.now }
{
    let (salt, hash) = salt_and_hash(hashed).ok_or(Expected::HashedHost)?;
    Ok(hash_of(&salt, host).as_slice() == hash.as_slice())
}

// The salt and the hash of a hashed name, as 28 base64 digits each with a bar between.
#[tactic(auto, using(crate::proofs::Cuts::three_parts))]
fn salt_and_hash(hashed: &[u8]) -> Option<([u8; DIGEST_LEN], [u8; DIGEST_LEN])>
    ensures { result ≡ spec.salt_and_hash (parts_of 124 hashed.now) }
{
    let (salt, hash) = cut(BAR, hashed)?;
    if cut(BAR, hash).is_some() {
        return None;
    }
    both_of(digest_in(salt), digest_in(hash))
}

fn both_of(
    salt: Option<[u8; DIGEST_LEN]>,
    hash: Option<[u8; DIGEST_LEN]>,
) -> Option<([u8; DIGEST_LEN], [u8; DIGEST_LEN])>
    ensures { result ≡ spec.both_of salt hash }
{
    Some((salt?, hash?))
}

// The 20 bytes that these base64 digits are.
fn digest_in(digits: &[u8]) -> Option<[u8; DIGEST_LEN]>
    ensures { result ≡ bytes_in 20 digits.now }
{
    let mut bytes = [0; DIGEST_LEN];
    if decoded(digits, &mut bytes) {
        Some(bytes)
    } else {
        None
    }
}

// HMAC-SHA-1 (RFC 2104) of the host's name in lower case, under this salt.
#[tactic(auto, unfolding(crate::specs::HostNames::hash_of))]
fn hash_of(salt: &[u8; DIGEST_LEN], host: &[u8]) -> [u8; DIGEST_LEN]
    ensures { result ≡ spec.hash_of salt.now host.now }
{
    let mut inner = keyed(salt, 0x36);
    put_lower(&mut inner, host);
    let hash = inner.finalize();
    let mut outer = keyed(salt, 0x5c);
    outer.update(&hash);
    outer.finalize()
}

// A hasher of the salt as a whole block, each byte combined with this one.
#[tactic(auto, unfolding(crate::specs::HostNames::block_of))]
fn keyed(salt: &[u8; DIGEST_LEN], pad: u8) -> Sha1
    ensures { Holds result (spec.block_of salt.now pad) }
{
    let mut hasher = Sha1::new();
    put_combined(&mut hasher, salt, pad);
    hasher.update(&[pad; AFTER_SALT]);
    hasher
}

// Adds bytes, each combined with this one, to what is hashed.
fn put_combined(hasher: &mut Sha1, bytes: &[u8], pad: u8)
    ensures { (m : List ℕ) → Holds hasher.old m → Holds hasher.new (m ++ map (λ b. bit_xor b pad) bytes.now) }
{
    for byte in bytes.iter() {
        hasher.update(&[*byte ^ pad]);
    }
}

// Adds the host's name in lower case to what is hashed.
#[tactic(auto, unfolding(crate::specs::HostNames::in_lower_case))]
fn put_lower(hasher: &mut Sha1, host: &[u8])
    ensures { (m : List ℕ) → Holds hasher.old m → Holds hasher.new (m ++ spec.in_lower_case host.now) }
{
    for byte in host.iter() {
        hasher.update(&[byte.to_ascii_lowercase()]);
    }
}
