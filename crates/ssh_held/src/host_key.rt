//! The host key and the signature in the reply of a server, and what they ask a program.

ghost use Rattle.std.specs.Prelude.{◌≡◌, Bool, IfOk, IfSome, IsSomeAnd, List, true, ℕ};
ghost use Rattle.std.specs.Option.{option_map};
ghost use Rattle.ssh_model.specs.Protocol.Wire.Message.{IsPayload, Msg.KexEcdhReply};
ghost use Rattle.ssh_message.specs.Meaning.{meaning};
ghost use Rattle.ssh_held.specs.HeldHosts.{HasHostKey, HasReply};
ghost use Rattle.ssh_held.specs.Hosts.{is_on_host, is_signed_so, signed_by, signed_in};
ghost use Rattle.ssh_held.specs.HostKeys.{reply_of, texts_of};

use crate::host_book::{HostAsked, SignedHash};
use crate::texts::text;
use ssh_message::{Message, decode};
use std::alloc::{AllocError, Global};

/// The key of a host, and the algorithm that it is for (RFC 4253 section 8).
#[derive(Clone, Copy)]
pub struct HostKey<'a> {
    /// The name of the algorithm.
    pub algorithm: &'a [u8],
    /// The host key.
    pub key: &'a [u8],
    /// If the question is on a signature by the key: that signature, and the hash that it is of. Otherwise it is on the key.
    pub signed: Option<HostSignature<'a>>,
}

/// A signature by a host key, and the hash of the exchange of keys that it is of (RFC 5656 section 4).
#[derive(Clone, Copy)]
pub struct HostSignature<'a> {
    /// The hash.
    pub hash: &'a [u8; 32],
    /// The signature.
    pub signature: &'a [u8],
}

impl HostKey<'_> {
    /// The question whether it is trusted, or whether this is its signature.
    ///
    /// # Errors
    ///
    /// Only if memory is refused.
    pub fn question(&self, alloc: Global) -> Result<HostAsked, AllocError>
        ensures { IfOk result (λ asked. is_on_host self.now.algorithm.now self.now.key.now (signed_by self.now) asked ≡ true) }
    {
        Ok(HostAsked {
            algorithm: text(alloc, self.algorithm)?,
            key: text(alloc, self.key)?,
            signed: signed_hash(alloc, &self.signed)?,
        })
    }
}

// A copy of a signature and its hash, if there is one.
fn signed_hash(
    alloc: Global,
    signed: &Option<HostSignature<'_>>,
) -> Result<Option<SignedHash>, AllocError>
    ensures { IfOk result (λ owned. is_signed_so (option_map signed_in signed.now) owned ≡ true) }
{
    match signed {
        Some(signed) => Ok(Some(SignedHash {
            hash: *signed.hash,
            signature: text(alloc, signed.signature)?,
        })),
        None => Ok(None),
    }
}

/// What the reply of a server has of its host (RFC 5656 section 4).
#[derive(Clone, Copy)]
pub struct HostReply<'a> {
    /// The host key.
    pub key: &'a [u8],
    /// The signature.
    pub signature: &'a [u8],
}

impl<'a> HostReply<'a> {
    /// The signature beside this hash, if there is one.
    pub fn signed_with(&self, hash: &'a Option<[u8; 32]>) -> Option<HostSignature<'a>>
        ensures hash { hash.now ≡ option_map (λ signed. signed.hash.now) result }
        ensures signature { IfSome result (λ signed. signed.signature.now ≡ self.now.signature.now) }
    {
        match hash {
            Some(hash) => Some(HostSignature {
                hash,
                signature: self.signature,
            }),
            None => None,
        }
    }
}

/// The host key and the signature in the server's reply that the payload is, if it is one. They are slices of the payload.
pub fn host_reply_in(payload: &[u8]) -> Option<HostReply<'_>>
    ensures found { IfSome result (λ reply. HasReply payload.now reply.key.now reply.signature.now) }
    ensures only { (probing : Bool) (key point signature : List ℕ) → IsPayload probing (KexEcdhReply key point signature) payload.now →
        IsSomeAnd result (λ reply. (reply.key.now ≡ key) × (reply.signature.now ≡ signature)) }
{
    match decode(false, payload) {
        Ok(message) => reply_of(&message),
        Err(_) => None,
    }
}

/// The host key in the server's reply that the payload is, if it is one (RFC 5656 section 4). It is a slice of the payload.
pub fn host_key_in(payload: &[u8]) -> Option<&[u8]>
    ensures found { IfSome result (λ key. HasHostKey payload.now key.now) }
    ensures only { (probing : Bool) (key point signature : List ℕ) → IsPayload probing (KexEcdhReply key point signature) payload.now →
        IsSomeAnd result (λ found. found.now ≡ key) }
{
    match host_reply_in(payload) {
        Some(reply) => Some(reply.key),
        None => None,
    }
}

// The host key and the signature of a message that is a reply.
fn reply_of<'a>(message: &Message<'a>) -> Option<HostReply<'a>>
    ensures { option_map texts_of result ≡ reply_of (meaning message.now) }
{
    match *message {
        Message::KexEcdhReply { k_s, signature, .. } => Some(HostReply {
            key: k_s,
            signature,
        }),
        _ => None,
    }
}
