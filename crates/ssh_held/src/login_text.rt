//! The text that a client's user signs to log in.

ghost use Rattle.std.specs.Prelude.{◌≡◌, ◌+◌, ◌<◌, ◌≤◌, ◌++◌, ◌^◌, Err, IfErr, IfOk, None, OnErr, Some, codes, drop, false, length};
ghost use Rattle.std.specs.Prelude.{take, true};
ghost use Rattle.ssh_auth.specs.Texts.{back_of, front_of};
ghost use Rattle.ssh_model.specs.Protocol.Authentication.Requests.{signed_text};
ghost use Rattle.ssh_model.specs.Protocol.KeyExchange.Exchange.{string_of};
ghost use Rattle.ssh_held.specs.Signing.{fits, text_in};

use ssh_end_machine::{End, EndRole};

// A string has fewer bytes (RFC 4251 section 5).
const STRING: usize = 0x1_0000_0000;

/// Why there is no text to sign.
#[derive(Clone, Copy, Debug, PartialEq, Eq)]
pub enum TextRefusal {
    /// No exchange of keys was completed, so that the session has no id yet.
    NotYet,
    /// The text is longer than the place for it, or a part of it has 2^32 bytes or more.
    TooLong,
}

/// Writes the text that is signed for a login of this user by this key, in the session of this end (RFC 4252 section 7), to the front of
/// `out`. Answers how many bytes it has.
///
/// # Errors
///
/// Nothing is written.
///
/// - `NotYet`: the session has no id yet.
/// - `TooLong`: the text does not fit.
pub fn write_text_to_sign<R: EndRole>(
    end: &End<R>,
    user: &[u8],
    algorithm: &[u8],
    key: &[u8],
    out: &mut [u8],
) -> Result<usize, TextRefusal>
    // What it writes.
    ensures text { IfOk result (λ count. text_in end.now.machine.kept.session user.now algorithm.now key.now ≡ Some (take count out.new)) }
    ensures bound { IfOk result (λ count. count ≤ length out.new) }
    ensures rest { IfOk result (λ count. drop count out.new ≡ drop count out.old) }
    ensures size { length out.new ≡ length out.old }
    ensures same { OnErr result (out.new ≡ out.old) }
    // Which fault is answered: the first that holds.
    ensures early { end.now.machine.kept.session ≡ None → result ≡ Err TextRefusal.NotYet }
    ensures long { (end.now.machine.kept.session ≡ None → ⊥) → fits (length out.old) user.now algorithm.now key.now ≡ false →
        result ≡ Err TextRefusal.TooLong }
    ensures otherwise { (end.now.machine.kept.session ≡ None → ⊥) → fits (length out.old) user.now algorithm.now key.now ≡ true →
        IfErr result (λ why. ⊥) }
{
    let Some(session) = end.session_id() else {
        return Err(TextRefusal::NotYet);
    };
    if !fits(out.len(), user, algorithm, key) {
        return Err(TextRefusal::TooLong);
    }
    Ok(put_text(out, session, user, algorithm, key))
}

// Tests whether the text fits into so many bytes.
fn fits(room: usize, user: &[u8], algorithm: &[u8], key: &[u8]) -> bool
    ensures { result ≡ fits room user.now algorithm.now key.now }
{
    if user.len() >= STRING || algorithm.len() >= STRING || key.len() >= STRING {
        return false;
    }
    81 + user.len() + algorithm.len() + key.len() <= room
}

// Writes the text to the front, for which there is room.
fn put_text(out: &mut [u8], session: &[u8; 32], user: &[u8], algorithm: &[u8], key: &[u8]) -> usize
    // What the caller must ensure.
    requires user { length user.now < 2 ^ 32 }
    requires algorithm { length algorithm.now < 2 ^ 32 }
    requires key { length key.now < 2 ^ 32 }
    requires room { 81 + length user.now + length algorithm.now + length key.now ≤ length out.old }
    // What it does.
    ensures text { take result out.new ≡ signed_text session.now user.now (codes "ssh-connection") algorithm.now key.now }
    ensures bound { result ≤ length out.new }
    ensures rest { drop result out.new ≡ drop result out.old }
    ensures size { length out.new ≡ length out.old }
{
    let at = put_front(out, session, user);
    put_back(out, at, algorithm, key)
}

// Writes the part before the name of the method to the front. Answers where it ends.
fn put_front(out: &mut [u8], session: &[u8; 32], user: &[u8]) -> usize
    // What the caller must ensure.
    requires user { length user.now < 2 ^ 32 }
    requires room { 59 + length user.now ≤ length out.old }
    // What it does.
    ensures end { result ≡ 59 + length user.now }
    ensures front { take result out.new ≡ front_of session.now user.now (codes "ssh-connection") }
    ensures rest { drop result out.new ≡ drop result out.old }
    ensures size { length out.new ≡ length out.old }
{
    ssh_types::laws::has_32_bytes(session);
    let at = put_string(out, 0, session);
    let at = put(out, at, &[50]);
    let at = put_string(out, at, user);
    put_string(out, at, b"ssh-connection")
}

// Writes the part from the name of the method on at a place. Answers where it ends.
fn put_back(out: &mut [u8], at: usize, algorithm: &[u8], key: &[u8]) -> usize
    // What the caller must ensure.
    requires algorithm { length algorithm.now < 2 ^ 32 }
    requires key { length key.now < 2 ^ 32 }
    requires room { at + 22 + length algorithm.now + length key.now ≤ length out.old }
    // What it does.
    ensures end { result ≡ at + 22 + length algorithm.now + length key.now }
    ensures front { take result out.new ≡ take at out.old ++ back_of algorithm.now key.now }
    ensures rest { drop result out.new ≡ drop result out.old }
    ensures size { length out.new ≡ length out.old }
{
    let at = put_string(out, at, b"publickey");
    let at = put(out, at, &[1]);
    let at = put_string(out, at, algorithm);
    put_string(out, at, key)
}

// Writes a string at a place (RFC 4251 section 5). Answers where it ends.
fn put_string(out: &mut [u8], at: usize, text: &[u8]) -> usize
    // What the caller must ensure.
    requires short { length text.now < 2 ^ 32 }
    requires room { at + 4 + length text.now ≤ length out.old }
    // What it does.
    ensures end { result ≡ at + 4 + length text.now }
    ensures front { take result out.new ≡ take at out.old ++ string_of text.now }
    ensures rest { drop result out.new ≡ drop result out.old }
    ensures size { length out.new ≡ length out.old }
{
    let count = text.len() as u32;
    let start = put(out, at, &count.to_be_bytes());
    put(out, start, text)
}

// Writes bytes at a place. Answers where they end.
fn put(out: &mut [u8], at: usize, bytes: &[u8]) -> usize
    requires { at + length bytes.now ≤ length out.old }
    ensures end { result ≡ at + length bytes.now }
    ensures front { take result out.new ≡ take at out.old ++ bytes.now }
    ensures rest { drop result out.new ≡ drop result out.old }
    ensures size { length out.new ≡ length out.old }
{
    let end = at + bytes.len();
    out[at..end].copy_from_slice(bytes);
    end
}
