//! The next packet of a server, looked at before a client takes it.

ghost use Rattle.std.specs.Prelude.{◌≡◌, ◌≤◌, IfSome, IsSome, List, None, Some, false, length, true, ℕ};
ghost use Rattle.std.specs.Option.{option_map};
ghost use Rattle.ssh_model.specs.Protocol.Bounds.{largest_packet};
ghost use Rattle.ssh_model.specs.Protocol.Sessions.Phases.{Phase.Exchanging};
ghost use Rattle.ssh_types.specs.Values.{owned_text};
ghost use Rattle.ssh_transport_machine.specs.Peeking.{AwaitsHashed, AwaitsHost};
ghost use Rattle.ssh_held.specs.HeldHosts.{HasHostKey, HasReply, IsHostAnswered, IsHostWanted, IsReplySettled, IsUnsaid};
ghost use Rattle.ssh_held.specs.HeldHosts.{WantsHost, signed_with};
ghost use Rattle.ssh_held.specs.Hosts.{is_host_settled, said_of_host};

use crate::host_book::HostVerdicts;
use crate::host_key::{HostKey, HostReply, host_reply_in};
use crate::known_algorithms::KnowsAlgorithms;
use ssh_auth::UserSigner;
use ssh_end_machine::{ClientEnd, End, EndRole};
use ssh_kex::HostTrust;
use ssh_model::laws;
use ssh_packet::PacketReader;
use ssh_transport_machine::ClientParts;
use ssh_types::NameBuf;
use std::marker::Model;

/// What a reply asks a program: the algorithm of its host key, and the hash that the host signed if it is the signature that is asked about.
#[derive(Clone, Copy)]
pub struct HostWanted {
    /// The name of the algorithm.
    pub algorithm: NameBuf,
    /// The hash of the exchange (RFC 5656 section 4).
    pub hash: Option<[u8; 32]>,
}

/// A reader of the next packet, and what is wanted, if that is a reply on whose host an answer is wanted.
#[derive(Drop)]
pub struct NextReply {
    reader: PacketReader,
    wanted: Option<HostWanted>,
}

impl Model for NextReply {
    ghost use Rattle.std.specs.Prelude.{◌≡◌, is_some, true};
    ghost use Rattle.std.specs.Option.{option_map};
    ghost use Rattle.ssh_held.specs.HeldHosts.{IsReply, NextHost, algorithm_of, hash_of};

    ghost Value = { NextHost };

    ghost view = { λ next. record {
      payload = next.reader.payload;
      algorithm = option_map algorithm_of next.wanted;
      hash = hash_of next.wanted;
    } };

    ghost invariant = { λ next. is_some next.wanted ≡ true → IsReply next.reader.payload };
}

impl NextReply {
    /// Nothing is looked at yet.
    pub fn new(reader: PacketReader) -> NextReply
        ensures { result.algorithm ≡ None }
    {
        NextReply {
            reader,
            wanted: None,
        }
    }

    /// Looks at the next packet of this client, and tests whether that is the reply that it awaits, and asks what the program has not said
    /// by this book.
    pub fn look<P: ClientParts, U: UserSigner + Drop, S: HostTrust + KnowsAlgorithms + Copy + Drop>(
        &mut self,
        end: &ClientEnd<P, U>,
        book: &HostVerdicts<S>,
        bytes: &[u8],
    ) -> bool
        ensures wanted { result ≡ true → WantsHost P.Sealing.crypto (P.Agreement.does end.now.role.exchange.agreement)
            (S.knows book.now.signatures) end.now.machine book.now.list.items bytes.now self.new }
        ensures none { result ≡ false → self.new.algorithm ≡ None }
        ensures answered { result ≡ false → IsHostAnswered P.Sealing.crypto (P.Agreement.does end.now.role.exchange.agreement)
            (S.knows book.now.signatures) end.now.machine book.now.list.items bytes.now }
    {
        let wanted = unanswered_host(end, book, &mut self.reader, bytes);
        self.wanted = wanted;
        wanted.is_some()
    }

    /// The host key on which an answer is wanted, or on whose signature. It is a slice of the reader's buffer.
    pub fn host_key(&self) -> Option<HostKey<'_>>
        ensures is { IfSome result (λ host. HasHostKey self.now.payload host.key.now) }
        ensures algorithm { IfSome result (λ host. self.now.algorithm ≡ Some host.algorithm.now) }
        ensures hash { IfSome result (λ host. self.now.hash ≡ option_map (λ signed. signed.hash.now) host.signed) }
        ensures signature { IfSome result (λ host. IfSome host.signed
            (λ signed. HasReply self.now.payload host.key.now signed.signature.now)) }
        ensures some { IsSome self.now.algorithm → IsSome result }
    {
        let Some(wanted) = &self.wanted else {
            return None;
        };
        let Some(reply) = host_reply_in(self.reader.payload()) else {
            return None;
        };
        Some(HostKey {
            algorithm: wanted.algorithm.as_bytes(),
            key: reply.key,
            signed: reply.signed_with(&wanted.hash),
        })
    }
}

/// What the reply that the client awaits asks the program, if that is the next packet, and the program has not said it by this book. That is
/// whether the host key is trusted. If the judge of signatures does not know its algorithm, and the program said yes to the key, it is then
/// whether the signature is right. The other reader then shows the reply. Outside of an exchange of keys nothing is looked at.
pub fn unanswered_host<
    P: ClientParts,
    U: UserSigner + Drop,
    S: HostTrust + KnowsAlgorithms + Copy + Drop,
>(
    end: &ClientEnd<P, U>,
    book: &HostVerdicts<S>,
    ahead: &mut PacketReader,
    bytes: &[u8],
) -> Option<HostWanted>
    ensures wanted { IfSome result (λ wanted. IsHostWanted P.Sealing.crypto (P.Agreement.does end.now.role.exchange.agreement)
        (S.knows book.now.signatures) end.now.machine book.now.list.items bytes.now ahead.new.payload (owned_text wanted.algorithm)
        wanted.hash) }
    ensures answered { result ≡ None → IsHostAnswered P.Sealing.crypto (P.Agreement.does end.now.role.exchange.agreement)
        (S.knows book.now.signatures) end.now.machine book.now.list.items bytes.now }
{
    let Some(algorithm) = awaited_algorithm(end) else {
        return None;
    };
    if !end.peek(bytes, ahead) {
        return None;
    }
    let Some(reply) = host_reply_in(ahead.payload()) else {
        return None;
    };
    unanswered_reply(end, book, ahead.payload(), algorithm, reply)
}

// What this reply with its host key under this algorithm asks.
fn unanswered_reply<
    P: ClientParts,
    U: UserSigner + Drop,
    S: HostTrust + KnowsAlgorithms + Copy + Drop,
>(
    end: &ClientEnd<P, U>,
    book: &HostVerdicts<S>,
    payload: &[u8],
    algorithm: NameBuf,
    reply: HostReply<'_>,
) -> Option<HostWanted>
    // What the caller must ensure.
    requires reply { HasReply payload.now reply.key.now reply.signature.now }
    requires most { length payload.now ≤ largest_packet }
    // What it returns.
    ensures algorithm { IfSome result (λ wanted. wanted.algorithm ≡ algorithm) }
    ensures wanted { IfSome result (λ wanted. IsUnsaid (P.Agreement.does end.now.role.exchange.agreement) (S.knows book.now.signatures)
        end.now.machine.kept book.now.list.items payload.now (owned_text algorithm) reply.entry.key.now reply.entry.signature.now wanted.hash) }
    ensures settled { result ≡ None → IsReplySettled (P.Agreement.does end.now.role.exchange.agreement) end.now.machine.kept
        (is_host_settled (S.knows book.now.signatures) book.now.list.items) payload.now (owned_text algorithm) reply.entry.key.now
        reply.entry.signature.now }
{
    match book.said(algorithm.as_bytes(), reply.key) {
        None => Some(HostWanted {
            algorithm,
            hash: None,
        }),
        Some(false) => None,
        Some(true) => match unanswered_hash(end, book, payload, algorithm.as_bytes(), reply) {
            Some(hash) => Some(HostWanted {
                algorithm,
                hash: Some(hash),
            }),
            None => None,
        },
    }
}

// The hash that the host of this reply signed, if the program has to judge the signature, and has said nothing on it.
fn unanswered_hash<
    P: ClientParts,
    U: UserSigner + Drop,
    S: HostTrust + KnowsAlgorithms + Copy + Drop,
>(
    end: &ClientEnd<P, U>,
    book: &HostVerdicts<S>,
    payload: &[u8],
    algorithm: &[u8],
    reply: HostReply<'_>,
) -> Option<[u8; 32]>
    // What the caller must ensure.
    requires reply { HasReply payload.now reply.key.now reply.signature.now }
    requires most { length payload.now ≤ largest_packet }
    // What it returns.
    ensures unknown { IfSome result (λ _. S.knows book.now.signatures algorithm.now ≡ false) }
    ensures hashed { IfSome result (λ hash. AwaitsHashed (P.Agreement.does end.now.role.exchange.agreement) end.now.machine.kept payload.now
        hash) }
    ensures unsaid { IfSome result (λ hash. said_of_host book.now.list.items algorithm.now reply.entry.key.now
        (signed_with (Some hash) reply.entry.signature.now) ≡ None) }
    ensures settled { result ≡ None → (hash : List ℕ) →
        AwaitsHashed (P.Agreement.does end.now.role.exchange.agreement) end.now.machine.kept payload.now hash →
        is_host_settled (S.knows book.now.signatures) book.now.list.items algorithm.now reply.entry.key.now
        (signed_with (Some hash) reply.entry.signature.now) ≡ true }
{
    laws::one_message();
    if book.signatures.knows(algorithm) {
        return None;
    }
    let Some(hash) = end.reply_hash(payload) else {
        return None;
    };
    match book.said_of_signature(algorithm, reply.key, &hash, reply.signature) {
        Some(_) => None,
        None => Some(hash),
    }
}

// The algorithm of the host key in the exchange of keys under way, if the reply is awaited.
fn awaited_algorithm<R: EndRole>(end: &End<R>) -> Option<NameBuf>
    ensures awaited { IfSome result (λ name. AwaitsHost end.now.machine.kept (owned_text name)) }
    ensures other { result ≡ None → end.now.machine.kept.dead ≡ false → end.now.machine.kept.phase ≡ Exchanging → ⊥ }
{
    match end.host_algorithm() {
        Some(algorithm) => Some(NameBuf::from(algorithm)),
        None => None,
    }
}
