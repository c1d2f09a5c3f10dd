//! The text that a signature of a request covers.

ghost use Rattle.std.specs.Prelude.{◌≡◌, ◌<◌, ◌≤◌, ◌+◌, ◌^◌, ◌++◌, ◌∷◌, [], IfOk, OnOk, OnErr, length, vec_capacity};
ghost use Rattle.ssh_model.specs.Laws.Reading.{Extends};
ghost use Rattle.ssh_model.specs.Protocol.KeyExchange.Exchange.{string_of};
ghost use Rattle.ssh_auth.specs.Texts.{IsShortText, back_of, front_of, text_of};

use crate::configured::{CONNECTION, PUBLICKEY};
use ssh_types::Put;
use ssh_types::bounds::LARGEST_PACKET;
use std::alloc::{AllocError, Global};

// The number of USERAUTH_REQUEST (RFC 4252 section 6).
const REQUEST: u8 = 50;

// The most bytes of the text of a request that comes in one packet: what the packet has of it, after the session id.
pub(crate) const LONGEST_TEXT: usize = LARGEST_PACKET + 36;

/// The text that is signed in a request by `publickey` (RFC 4252 section 7).
#[derive(Clone, Copy, Debug, PartialEq, Eq)]
pub struct SignedText<'a> {
    /// The session id: the hash of the first key exchange (RFC 4253 section 7.2).
    pub session: &'a [u8; 32],
    /// The name of the user.
    pub user: &'a [u8],
    /// The name of the service that is requested.
    pub service: &'a [u8],
    /// The name of the algorithm of the key.
    pub algorithm: &'a [u8],
    /// The public key.
    pub key: &'a [u8],
}

impl<'a> SignedText<'a> {
    ghost use Rattle.std.specs.Prelude.{◌≡◌, ◌<◌, ◌^◌, codes, length};
    ghost use Rattle.ssh_model.specs.Protocol.Authentication.Requests.{signed_text};
    ghost use Rattle.ssh_auth.specs.Texts.{IsShortText, text_of};

    // That of a request for the connection.
    pub(crate) fn for_connection(
        session: &'a [u8; 32],
        user: &'a [u8],
        algorithm: &'a [u8],
        key: &'a [u8],
    ) -> SignedText<'a>
        // What the caller must ensure.
        requires user { length user.now < 2 ^ 32 }
        requires algorithm { length algorithm.now < 2 ^ 32 }
        requires key { length key.now < 2 ^ 32 }
        // What it returns.
        ensures text { text_of result ≡ signed_text session.now user.now (codes "ssh-connection") algorithm.now key.now }
        ensures algorithm { result.algorithm.now ≡ algorithm.now }
        ensures key { result.key.now ≡ key.now }
        ensures short { IsShortText result }
    {
        SignedText {
            session,
            user,
            service: CONNECTION,
            algorithm,
            key,
        }
    }
}

/// Puts the text to be signed at the end of `out` (RFC 4252 section 7). It is the string session id, the byte 50, the
/// strings user, service and `publickey`, the boolean TRUE, and the strings algorithm and key.
///
/// Each text is shorter than 2^32 bytes.
///
/// # Errors
///
/// `AllocError` if the text does not fit the capacity of `out` and memory was refused; `out` is then as before.
pub fn put_signed_text(out: &mut Vec<u8>, text: &SignedText<'_>) -> Result<(), AllocError>
    requires { IsShortText text.now }
    ensures written { OnOk result (out.new.items ≡ out.old.items ++ text_of text.now) }
    ensures kept { OnErr result (out.new.items ≡ out.old.items) }
    ensures full { OnErr result (vec_capacity out.old < length out.old.items + length (text_of text.now)) }
    ensures grows { vec_capacity out.old ≤ vec_capacity out.new }
{
    let start = out.len();
    if let Err(error) = put_parts(out, text) {
        out.truncate(start);
        return Err(error);
    }
    Ok(())
}

// The bytes of this text. It fails only if memory is refused.
pub(crate) fn request_text(alloc: Global, text: &SignedText<'_>) -> Result<Vec<u8>, AllocError>
    requires { IsShortText text.now }
    ensures { IfOk result (λ bytes. bytes.items ≡ text_of text.now) }
{
    let mut bytes = Vec::new(alloc);
    put_signed_text(&mut bytes, text)?;
    Ok(bytes)
}

// Appends the text to be signed. If memory is refused, some of its bytes may be there.
fn put_parts(out: &mut Vec<u8>, text: &SignedText<'_>) -> Result<(), AllocError>
    requires { IsShortText text.now }
    ensures written { OnOk result (out.new.items ≡ out.old.items ++ text_of text.now) }
    ensures grown { OnErr result (Extends out.old.items out.new.items) }
    ensures full { OnErr result (vec_capacity out.old < length out.old.items + length (text_of text.now)) }
    ensures grows { vec_capacity out.old ≤ vec_capacity out.new }
{
    let session = text.session;
    put_front(out, session, text.user, text.service)?;
    put_back(out, text.algorithm, text.key)
}

// The part before the name of the method.
fn put_front(
    out: &mut Vec<u8>,
    session: &[u8; 32],
    user: &[u8],
    service: &[u8],
) -> Result<(), AllocError>
    // What the caller must ensure.
    requires user { length user.now < 2 ^ 32 }
    requires service { length service.now < 2 ^ 32 }
    // What it does.
    ensures written { OnOk result (out.new.items ≡ out.old.items ++ front_of session.now user.now service.now) }
    ensures grows { vec_capacity out.old ≤ vec_capacity out.new }
    // If it fails.
    ensures grown { OnErr result (Extends out.old.items out.new.items) }
    ensures full { OnErr result (vec_capacity out.old < length out.old.items + length (front_of session.now user.now service.now)) }
{
    put_text(out, session.as_slice())?;
    put_byte(out, REQUEST)?;
    put_text(out, user)?;
    put_text(out, service)
}

// The part from the name of the method on.
fn put_back(out: &mut Vec<u8>, algorithm: &[u8], key: &[u8]) -> Result<(), AllocError>
    // What the caller must ensure.
    requires algorithm { length algorithm.now < 2 ^ 32 }
    requires key { length key.now < 2 ^ 32 }
    // What it does.
    ensures written { OnOk result (out.new.items ≡ out.old.items ++ back_of algorithm.now key.now) }
    // If it fails.
    ensures grown { OnErr result (Extends out.old.items out.new.items) }
    ensures full { OnErr result (vec_capacity out.old < length out.old.items + length (back_of algorithm.now key.now)) }
    ensures grows { vec_capacity out.old ≤ vec_capacity out.new }
{
    put_text(out, PUBLICKEY)?;
    put_byte(out, 1)?;
    put_text(out, algorithm)?;
    put_text(out, key)
}

// A byte.
fn put_byte(out: &mut Vec<u8>, byte: u8) -> Result<(), AllocError>
    ensures written { OnOk result (out.new.items ≡ out.old.items ++ byte ∷ []) }
    ensures grown { OnErr result (Extends out.old.items out.new.items) }
    ensures full { OnErr result (vec_capacity out.old < length out.old.items + 1) }
    ensures grows { vec_capacity out.old ≤ vec_capacity out.new }
{
    out.push(byte)?;
    Ok(())
}

// A string (RFC 4251 section 5).
#[tactic(auto, using(ssh_types::specs::Encodings::written_string, ssh_types::specs::Encodings::string_length))]
fn put_text(out: &mut Vec<u8>, text: &[u8]) -> Result<(), AllocError>
    // What the caller must ensure.
    requires { length text.now < 2 ^ 32 }
    // What it does.
    ensures written { OnOk result (out.new.items ≡ out.old.items ++ string_of text.now) }
    ensures grows { vec_capacity out.old ≤ vec_capacity out.new }
    // If it fails.
    ensures grown { OnErr result (Extends out.old.items out.new.items) }
    ensures full { OnErr result (vec_capacity out.old < length out.old.items + length (string_of text.now)) }
{
    out.put_string(text)
}
