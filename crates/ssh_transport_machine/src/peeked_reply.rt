//! The hash of the exchange that a server's reply ends, for a reply that is only looked at.

ghost use Rattle.std.specs.Prelude.{◌≡◌, ◌≤◌, IfSome, List, None, false, length, true, ℕ};
ghost use Rattle.ssh_model.specs.Protocol.Bounds.{largest_packet};
ghost use Rattle.ssh_model.specs.Protocol.KeyExchange.Exchange.{exchange_hash};
ghost use Rattle.ssh_model.specs.Protocol.Wire.Message.{IsPayload, Msg.KexEcdhReply};
ghost use Rattle.ssh_model.specs.State.TransportLayer.Kept.{inputs_with, is_good_point};
ghost use Rattle.ssh_model.specs.declared.side.Side.TheVariants as sides;
ghost use Rattle.ssh_message.specs.Meaning.{meaning};
ghost use Rattle.ssh_transport_machine.specs.Peeking.{HashesNone, HashesReply};

use crate::bytes::copied;
use crate::machine::{ExchangeValues, Machine};
use ssh_kex::Agreement;
use ssh_message::{Message, decode};
use ssh_model::laws;
use ssh_packet::Sealing;
use ssh_types::bounds::LARGEST_PACKET;

/// The hash of the exchange under way (RFC 5656 section 4), if the payload is a server's reply of a good point. It is the hash over which
/// `judge_reply` has the host judged for this payload. It needs no memory.
pub fn reply_hash<S: Sealing, A: Agreement>(
    machine: &Machine<S>,
    agreement: &A,
    payload: &[u8],
) -> Option<[u8; 32]>
    // What the caller must ensure.
    requires side { machine.now.kept.side ≡ sides.Client }
    // What it returns.
    ensures hash { IfSome result (λ hash. HashesReply (A.does agreement.now) machine.now.kept payload.now hash) }
    ensures none { result ≡ None → HashesNone (A.does agreement.now) machine.now.kept payload.now }
{
    if payload.len() > LARGEST_PACKET {
        return None;
    }
    match decode(false, payload) {
        Ok(message) => message_hash(machine, agreement, payload, message),
        Err(_) => None,
    }
}

// The hash with the message that a payload is, if that is a reply.
fn message_hash<S: Sealing, A: Agreement>(
    machine: &Machine<S>,
    agreement: &A,
    payload: &[u8],
    message: Message<'_>,
) -> Option<[u8; 32]>
    // What the caller must ensure.
    requires read { IsPayload false (meaning message) payload.now }
    requires most { length payload.now ≤ largest_packet }
    requires side { machine.now.kept.side ≡ sides.Client }
    // What it returns.
    ensures hash { IfSome result (λ hash. HashesReply (A.does agreement.now) machine.now.kept payload.now hash) }
    ensures none { result ≡ None → (host_key point signature : List ℕ) → meaning message.entry ≡ KexEcdhReply host_key point signature →
        is_good_point (A.does agreement.now) machine.now.kept point ≡ true → ⊥ }
{
    laws::payload_sizes();
    match message {
        Message::KexEcdhReply { k_s, q_s, .. } => exchange_hash_of(machine, agreement, k_s, q_s),
        _ => None,
    }
}

// The hash with this host key and this point, if the point shares something.
fn exchange_hash_of<S: Sealing, A: Agreement>(
    machine: &Machine<S>,
    agreement: &A,
    host_key: &[u8],
    point: &[u8],
) -> Option<[u8; 32]>
    // What the caller must ensure.
    requires short { length host_key.now ≤ largest_packet }
    requires side { machine.now.kept.side ≡ sides.Client }
    // What it returns.
    ensures good { IfSome result (λ _. is_good_point (A.does agreement.now) machine.now.kept point.now ≡ true) }
    ensures hash { IfSome result (λ hash. hash ≡ exchange_hash (inputs_with sides.Client (A.does agreement.now) machine.now.kept
        host_key.now point.now)) }
    ensures none { result ≡ None → is_good_point (A.does agreement.now) machine.now.kept point.now ≡ false }
{
    let Some(shared) = machine.shared(agreement, point) else {
        return None;
    };
    let own = machine.own_point(agreement);
    ssh_types::laws::has_32_bytes(&own);
    let server = copied(point);
    Some(machine.hash(&ExchangeValues {
        host_key,
        client: &own,
        server: &server,
        shared: &shared,
    }))
}
