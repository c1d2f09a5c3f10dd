//! The keys of the host to trust.

ghost use Rattle.std.specs.Prelude.{◌≡◌, IfErr, IfOk, OnOk};
ghost use Rattle.std.specs.List.{filter};
ghost use Rattle.std.specs.Option.{option_copied};
ghost use Rattle.divrelca.specs.KnownHosts.{bare_key, counts_for, found_in, found_on, host_key_on, is_mark, is_other, kept_on};
ghost use Rattle.divrelca.specs.KnownHosts.{marked, may_revoke, revoked_on, some_found, trusted_keys, unless_skipped};
ghost use Rattle.divrelca.specs.Lines.{IsFaultOf, at_line, read_lines};
ghost use Rattle.divrelca.specs.Texts.{lines_of, words_in, words_of};

use crate::key_files::fault::{Expected, FileFault};
use crate::key_files::host_names::names_host;
use crate::key_files::parts::{LINE_END, Parts};
use crate::key_files::public_key::{is_same, key_in, key_of, put_found};
use crate::key_files::words::{ED25519, Words, is_key_type};
use ssh_types::CallError;
use std::alloc::Global;

// The mark of a key that nobody is to trust any more.
const REVOKED: &[u8] = b"@revoked";

// The mark of the key of an authority, whose certificates are not taken.
const AUTHORITY: &[u8] = b"@cert-authority";

/// The public keys of ssh-ed25519 that a file has for a host, 32 bytes each, at least one: a host has two while one takes the place of the
/// other. The file has the form of known_hosts, or is a public key file.
///
/// If a host is given, the lines of known_hosts that name it count. They name it as `example.org` or `[example.org]:2222`, in upper or
/// lower case, by a pattern with `*` and `?`, or by a hash of its name. A line with `!` before a name or a pattern does not count for hosts
/// of that name. If no host is given, all lines count. Keys of other types and authorities of certificates are passed over, and so are
/// malformed lines: `skipped_hosts` goes over these. A key that a line revokes is left out, whatever host that line is for.
///
/// # Errors
///
/// - `Refused(Line)`: a line that may revoke a key is malformed, or it revokes the last key that was left. A line may revoke a key if it
///   has a mark other than `@cert-authority`.
/// - `Refused(File(AnyHostKey))`: no line has a key for this host.
/// - `Memory`: memory was refused.
pub fn trusted_keys(
    alloc: Global,
    text: &[u8],
    host: Option<&[u8]>,
) -> Result<Vec<[u8; 32]>, CallError<FileFault>>
    ensures keys { IfOk result (λ keys. trusted_keys text.now (option_copied host.entry) ≡ Ok keys.items) }
    ensures fault { IfErr result (λ fault. IsFaultOf (trusted_keys text.now (option_copied host.entry)) fault) }
{
    let mut keys = found_in(alloc, text, host)?;
    match remove_revoked(&mut keys, text) {
        Ok(()) => Ok(keys),
        Err(fault) => Err(CallError::Refused(fault)),
    }
}

// The keys that are found once all lines are read, at least one.
fn found_in(
    alloc: Global,
    text: &[u8],
    host: Option<&[u8]>,
) -> Result<Vec<[u8; 32]>, CallError<FileFault>>
    ensures keys { IfOk result (λ keys. some_found (found_in text.now (option_copied host.entry)) ≡ Ok keys.items) }
    ensures fault { IfErr result (λ fault. IsFaultOf (some_found (found_in text.now (option_copied host.entry))) fault) }
{
    let mut keys = Vec::new(alloc);
    let mut number = 0;
    for line in Parts::new(LINE_END, text) {
        number += 1;
        put_key(&mut keys, number, line, host)?;
    }
    if keys.is_empty() {
        return Err(CallError::Refused(FileFault::File(Expected::AnyHostKey)));
    }
    Ok(keys)
}

// Puts the key on a line after the keys, if it has one for the host.
fn put_key(
    keys: &mut Vec<[u8; 32]>,
    number: usize,
    line: &[u8],
    host: Option<&[u8]>,
) -> Result<(), CallError<FileFault>>
    ensures put { OnOk result (found_on (option_copied host.entry) keys.old.items line.now ≡ Ok keys.new.items) }
    ensures fault { IfErr result (λ fault. IsFaultOf (at_line number (found_on (option_copied host.entry) keys.old.items line.now)) fault) }
{
    match unless_skipped(&Words::new(line), host) {
        Ok(found) => {
            put_found(keys, found)?;
            Ok(())
        }
        Err(expected) => Err(CallError::Refused(FileFault::Line {
            line: number,
            expected,
        })),
    }
}

// The key of ssh-ed25519 on a line, where that line counts for the host. A malformed line has none, unless it may revoke one.
fn unless_skipped(words: &Words<'_>, host: Option<&[u8]>) -> Result<Option<[u8; 32]>, Expected>
    ensures { result ≡ unless_skipped (may_revoke (words_in words.now)) (host_key_on (option_copied host.entry) (words_in words.now)) }
{
    match host_key_on(words, host) {
        Ok(found) => Ok(found),
        Err(expected) if may_revoke(words) => Err(expected),
        Err(_) => Ok(None),
    }
}

/// Tests whether a line may revoke a key: a mark that is not known may be meant for that.
pub(crate) fn may_revoke(words: &Words<'_>) -> bool
    ensures { result ≡ may_revoke (words_in words.now) }
{
    words.first.starts_with(b"@") && words.first != AUTHORITY
}

/// The key of ssh-ed25519 on a line, where that line counts for the host.
///
/// # Errors
///
/// What was expected on the line.
pub(crate) fn host_key_on(
    words: &Words<'_>,
    host: Option<&[u8]>,
) -> Result<Option<[u8; 32]>, Expected>
    ensures { result ≡ host_key_on (option_copied host.entry) (words_in words.now) }
{
    if words.are_none() {
        return Ok(None);
    }
    if words.first.starts_with(b"@") {
        return marked(words);
    }
    if !is_key_type(words.second) {
        return bare_key(words);
    }
    if !counts_for(words.first, host)? {
        return Ok(None);
    }
    key_of(words.second, words.third)
}

// The key of a line of a public key file, which has no hosts.
fn bare_key(words: &Words<'_>) -> Result<Option<[u8; 32]>, Expected>
    ensures { result ≡ bare_key (words_in words.now) }
{
    if is_key_type(words.first) {
        key_of(words.first, words.second)
    } else {
        Err(Expected::Host)
    }
}

// Tests whether a line of these hosts counts. If no host is named, every line counts.
fn counts_for(names: &[u8], host: Option<&[u8]>) -> Result<bool, Expected>
    ensures { result ≡ counts_for names.now (option_copied host.entry) }
{
    match host {
        Some(host) => names_host(names, host),
        None => Ok(true),
    }
}

// What a line with a mark gives: no key, but it is of known_hosts like any other.
fn marked(words: &Words<'_>) -> Result<Option<[u8; 32]>, Expected>
    ensures { result ≡ marked (words_in words.now) }
{
    if !is_mark(words.first) || !is_key_type(words.third) {
        return Err(Expected::Mark);
    }
    names_host(words.second, b"")?;
    key_of(words.third, words.fourth)?;
    Ok(None)
}

fn is_mark(word: &[u8]) -> bool
    ensures { result ≡ is_mark word.now }
{
    word == REVOKED || word == AUTHORITY
}

// ---- keys that are revoked

// Removes the keys that a line revokes.
fn remove_revoked(keys: &mut Vec<[u8; 32]>, text: &[u8]) -> Result<(), FileFault>
    ensures kept { OnOk result (read_lines kept_on 0 (Ok keys.old.items) (lines_of text.now) ≡ Ok keys.new.items) }
    ensures fault { IfErr result (λ fault. read_lines kept_on 0 (Ok keys.old.items) (lines_of text.now) ≡ Err fault) }
{
    let mut number = 0;
    for line in Parts::new(LINE_END, text) {
        number += 1;
        match remove_on(keys, line) {
            Ok(()) => {}
            Err(expected) => {
                return Err(FileFault::Line {
                    line: number,
                    expected,
                });
            }
        }
    }
    Ok(())
}

// Removes the key that a line revokes, if it revokes one. One key at least has to be left.
fn remove_on(keys: &mut Vec<[u8; 32]>, line: &[u8]) -> Result<(), Expected>
    ensures kept { OnOk result (kept_on keys.old.items line.now ≡ Ok keys.new.items) }
    ensures refused { IfErr result (λ expected. kept_on keys.old.items line.now ≡ Err expected) }
{
    let Some(revoked) = revoked_on(&Words::new(line)) else {
        return Ok(());
    };
    remove(keys, &revoked);
    if keys.is_empty() {
        Err(Expected::Unrevoked)
    } else {
        Ok(())
    }
}

fn remove(keys: &mut Vec<[u8; 32]>, revoked: &[u8; 32])
    ensures { keys.new.items ≡ filter (is_other revoked.now) keys.old.items }
{
    keys.retain(|key| !is_same(revoked, key));
}

// The key that a line revokes, for whatever host it is.
fn revoked_on(words: &Words<'_>) -> Option<[u8; 32]>
    ensures { result ≡ revoked_on (words_in words.now) }
{
    if words.first == REVOKED && words.third == ED25519 {
        key_in(words.fourth)
    } else {
        None
    }
}
