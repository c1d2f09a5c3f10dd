//! The outcomes of a server's reply at a client.

ghost use Rattle.std.specs.Prelude.{◌≡◌, ◌≤◌, Some, false, length};
ghost use Rattle.ssh_model.specs.Protocol.Bounds.{largest_packet};
ghost use Rattle.ssh_model.specs.declared.side.Side.TheVariants as sides;
ghost use Rattle.ssh_model.specs.Protocol.Wire.Message.{IsPayload, KexEcdhReply};
ghost use Rattle.ssh_model.specs.Protocol.Sessions.Turns.{number_of};
ghost use Rattle.ssh_model.specs.State.TransportLayer.Kept.{shared_with};
ghost use Rattle.ssh_message.specs.Meaning.{meaning};
ghost use Rattle.ssh_transport_machine.specs.Finishing.{HasChoice};
ghost use Rattle.ssh_transport_machine.specs.Replies.{IsHostJudged, IsReply, IsReplyJudged, reply_of, trusting_parts};

use crate::bytes::copied;
use crate::machine::{ExchangeEnd, ExchangeValues, Machine};
use ssh_kex::{Agreement, HostTrust};
use ssh_message::{Message, decode};
use ssh_model::laws;
use ssh_packet::Sealing;
use ssh_types::{CallError, Refusal};

// The texts of a reply.
#[derive(Clone, Copy)]
struct Reply<'a> {
    host_key: &'a [u8],
    point: &'a [u8],
    signature: &'a [u8],
}

/// Reads the reply of the server, whose payload is shown, tests it, and makes the keys; `None` where it is trusted, and no number is left
/// in the epoch for NEWKEYS.
///
/// # Errors
///
/// - `Refused`: `BadMessage` if it is no message, `BadPoint` if its point has not 32 bytes or shares nothing (RFC 8731 section 3),
///   and `BadHost` if its host key or its signature is not trusted.
/// - `Memory`: memory was refused. Nothing changes.
pub fn judge_reply<S: Sealing, A: Agreement, T: HostTrust>(
    machine: &Machine<S>,
    agreement: &A,
    trust: &T,
) -> Result<Option<ExchangeEnd<S::Key>>, CallError<Refusal>>
    // What the caller must ensure.
    requires number { number_of machine.now.receiver.payload ≡ 31 }
    requires side { machine.now.kept.side ≡ sides.Client }
    requires choice { HasChoice machine.now.kept }
    // What it returns.
    ensures { IsReplyJudged S.crypto (trusting_parts A.does T.judged agreement.now trust.now) machine.now.kept
        machine.now.receiver.payload result }
{
    let payload = machine.payload();
    match decode(false, payload) {
        Ok(message) => judge_message(machine, agreement, trust, payload, message),
        Err(_) => Err(CallError::Refused(Refusal::BadMessage)),
    }
}

// Tests the reply that a payload is.
fn judge_message<S: Sealing, A: Agreement, T: HostTrust>(
    machine: &Machine<S>,
    agreement: &A,
    trust: &T,
    payload: &[u8],
    message: Message<'_>,
) -> Result<Option<ExchangeEnd<S::Key>>, CallError<Refusal>>
    // What the caller must ensure.
    requires read { IsPayload false (meaning message) payload.now }
    requires reply { IsReply (meaning message) }
    requires most { length payload.now ≤ largest_packet }
    requires side { machine.now.kept.side ≡ sides.Client }
    requires choice { HasChoice machine.now.kept }
    // What it returns.
    ensures { IsReplyJudged S.crypto (trusting_parts A.does T.judged agreement.now trust.now) machine.now.kept payload.now result }
{
    laws::payload_sizes();
    let reply = reply_in(message);
    judge_point(machine, agreement, trust, reply)
}

// The texts of a message.
fn reply_in(message: Message<'_>) -> Reply<'_>
    requires { IsReply (meaning message) }
    ensures { reply_of result ≡ meaning message.entry }
{
    match message {
        Message::KexEcdhReply {
            k_s,
            q_s,
            signature,
        } => Reply {
            host_key: k_s,
            point: q_s,
            signature,
        },
        _ => unreachable!(),
    }
}

// Tests the point, and then the host.
fn judge_point<S: Sealing, A: Agreement, T: HostTrust>(
    machine: &Machine<S>,
    agreement: &A,
    trust: &T,
    reply: Reply<'_>,
) -> Result<Option<ExchangeEnd<S::Key>>, CallError<Refusal>>
    // What the caller must ensure.
    requires short { length reply.host_key.now ≤ largest_packet }
    requires side { machine.now.kept.side ≡ sides.Client }
    requires choice { HasChoice machine.now.kept }
    // What it returns.
    ensures { IsHostJudged S.crypto (trusting_parts A.does T.judged agreement.now trust.now) machine.now.kept reply.entry.host_key.now
        reply.entry.point.now reply.entry.signature.now result }
{
    match machine.shared(agreement, reply.point) {
        Some(shared) => judge_host(machine, agreement, trust, reply, &shared),
        None => Err(CallError::Refused(Refusal::BadPoint)),
    }
}

// Tests the host, whose point shares this.
fn judge_host<S: Sealing, A: Agreement, T: HostTrust>(
    machine: &Machine<S>,
    agreement: &A,
    trust: &T,
    reply: Reply<'_>,
    shared: &[u8; 32],
) -> Result<Option<ExchangeEnd<S::Key>>, CallError<Refusal>>
    // What the caller must ensure.
    requires short { length reply.host_key.now ≤ largest_packet }
    requires size { length reply.point.now ≡ 32 }
    requires shares { shared_with (A.does agreement.now) machine.now.kept.underway.secret reply.point.now ≡ Some shared.now }
    requires side { machine.now.kept.side ≡ sides.Client }
    requires choice { HasChoice machine.now.kept }
    // What it returns.
    ensures { IsHostJudged S.crypto (trusting_parts A.does T.judged agreement.now trust.now) machine.now.kept reply.entry.host_key.now
        reply.entry.point.now reply.entry.signature.now result }
{
    let choice = machine.choice();
    let algorithm = choice.host.as_bytes();
    let own = machine.own_point(agreement);
    ssh_types::laws::has_32_bytes(&own);
    let server = copied(reply.point);
    let hash = machine.hash(&ExchangeValues {
        host_key: reply.host_key,
        client: &own,
        server: &server,
        shared,
    });
    if !trust.judge(algorithm, reply.host_key, &hash, reply.signature) {
        return Err(CallError::Refused(Refusal::BadHost));
    }
    crate::machine::laws::announcement_fits(machine);
    if machine.is_spent() {
        return Ok(None);
    }
    Ok(Some(machine.exchange_end(choice, shared, &hash)?))
}
