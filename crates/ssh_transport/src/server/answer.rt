//! What a server answers to a client's point, before anything is sent.

ghost use Rattle.std.specs.Prelude.{◌≡◌, ◌+◌, ◌≤◌, IfOk, OnErr, Some, length, take};
ghost use Rattle.std.specs.Option.{option_map};
ghost use Rattle.ssh_model.specs.declared.side.Side.TheVariants as sides;
ghost use Rattle.ssh_model.specs.Protocol.Wire.Message.{KexEcdhReply};
ghost use Rattle.ssh_model.specs.Protocol.Sessions.Turns.{IsEncoded};
ghost use Rattle.ssh_model.specs.State.TransportLayer.Kept.{IsChosen, shared_with};
ghost use Rattle.ssh_kex.specs.Values.{chosen_of, owned_chosen};
ghost use Rattle.ssh_transport_machine.specs.Finishing.{AreKnown, HasChoice};
ghost use Rattle.ssh_transport.specs.OfServer.Answers.{AnswerDue, IsAnswer, IsSigned, IsEncoding};
ghost use Rattle.ssh_transport.specs.OfServer.Parts.{exchange_parts};
ghost use Rattle.ssh_model.specs.Protocol.Bounds.{numbers_of_epoch};

use crate::server::Server;
use crate::server::point::SharedPoint;
use ssh_kex::{Choice, HostSigner};
use ssh_message::Message;
use ssh_model::laws;
use ssh_packet::Sealing;
use ssh_transport_machine::{ExchangeEnd, ExchangeValues, Machine, ServerParts};
use std::alloc::AllocError;

/// The payload of the reply, and what the exchange gives.
#[derive(Drop)]
pub(crate) struct Answer<K: Drop> {
    pub reply: Vec<u8>,
    pub made: ExchangeEnd<K>,
}

// The server's own point, the hash of the exchange, and the signature of that, as many bytes as its length says.
#[derive(Clone, Copy)]
struct Signed {
    own: [u8; 32],
    hash: [u8; 32],
    signature: [u8; 4096],
    length: usize,
}

/// The answer to this point; `None` where too few numbers are left in the epoch for it. The numbers are tested before any memory is
/// asked for.
///
/// # Errors
///
/// Only if memory is refused: nothing changes.
pub(crate) fn encode_answer<P: ServerParts>(
    machine: &Machine<P::Sealing>,
    server: &Server<P>,
    client: &SharedPoint,
) -> Result<Option<Answer<<P::Sealing as Sealing>::Key>>, AllocError>
    // What the caller must ensure.
    requires side { machine.now.kept.side ≡ sides.Server }
    requires choice { HasChoice machine.now.kept }
    requires shares { shared_with (P.Agreement.does server.now.agreement) machine.now.kept.underway.secret client.now.point ≡
        Some client.now.shared }
    // What it returns.
    ensures encoded { IfOk result (λ encoding. IsEncoding P.Sealing.crypto (exchange_parts P.Agreement.does P.HostSigner.keys server.now)
        machine.now.kept client.now.point encoding) }
    // If it fails.
    ensures due { OnErr result (AnswerDue P.Sealing.crypto (exchange_parts P.Agreement.does P.HostSigner.keys server.now)
        machine.now.kept client.now.point) }
    ensures room { OnErr result (machine.now.kept.sending.count + 2 ≤ numbers_of_epoch) }
{
    let choice = machine.choice();
    let signed = sign(machine, server, &choice, client);
    answer_fits(machine, server, &choice, client, &signed);
    if !machine.has_numbers(2) {
        return Ok(None);
    }
    let answer = encode_signed(machine, server, choice, client, &signed)?;
    Ok(Some(answer))
}

// Signs the exchange. It needs no memory.
fn sign<P: ServerParts>(
    machine: &Machine<P::Sealing>,
    server: &Server<P>,
    choice: &Choice<'_>,
    client: &SharedPoint,
) -> Signed
    // What the caller must ensure.
    requires side { machine.now.kept.side ≡ sides.Server }
    requires chosen { IsChosen machine.now.kept (chosen_of choice.now) }
    requires shares { shared_with (P.Agreement.does server.now.agreement) machine.now.kept.underway.secret client.now.point ≡
        Some client.now.shared }
    // What it returns.
    ensures signed { IsSigned (exchange_parts P.Agreement.does P.HostSigner.keys server.now) machine.now.kept (chosen_of choice.now)
        client.now.point client.now.shared result.own result.hash (take result.length result.signature) }
    ensures length { result.length ≤ 4096 }
{
    let algorithm = choice.host.as_bytes();
    let own = machine.own_point(&server.agreement);
    ssh_types::laws::has_32_bytes(&own);
    let hash = machine.hash(&ExchangeValues {
        host_key: server.host_signer.key(algorithm),
        client: &client.point,
        server: &own,
        shared: &client.shared,
    });
    let mut signature = [0; 4096];
    let length = server.host_signer.sign(algorithm, &hash, &mut signature);
    Signed {
        own,
        hash,
        signature,
        length,
    }
}

// What answers by this has an encoding: a fact for proofs.
fn answer_fits<P: ServerParts>(
    machine: &Machine<P::Sealing>,
    server: &Server<P>,
    choice: &Choice<'_>,
    client: &SharedPoint,
    signed: &Signed,
)
    // What the caller must ensure.
    requires side { machine.now.kept.side ≡ sides.Server }
    requires chosen { IsChosen machine.now.kept (chosen_of choice.now) }
    requires shares { shared_with (P.Agreement.does server.now.agreement) machine.now.kept.underway.secret client.now.point ≡
        Some client.now.shared }
    requires signed { IsSigned (exchange_parts P.Agreement.does P.HostSigner.keys server.now) machine.now.kept (chosen_of choice.now)
        client.now.point client.now.shared signed.now.own signed.now.hash (take signed.now.length signed.now.signature) }
    // What it returns.
    ensures { AnswerDue P.Sealing.crypto (exchange_parts P.Agreement.does P.HostSigner.keys server.now) machine.now.kept client.now.point }
{
    laws::encodings();
    laws::payload_sizes();
    ssh_transport_machine::laws::announcement_fits(machine);
}

// Makes the keys and the payloads of an exchange that is signed.
fn encode_signed<P: ServerParts>(
    machine: &Machine<P::Sealing>,
    server: &Server<P>,
    choice: Choice<'_>,
    client: &SharedPoint,
    signed: &Signed,
) -> Result<Answer<<P::Sealing as Sealing>::Key>, AllocError>
    // What the caller must ensure.
    requires side { machine.now.kept.side ≡ sides.Server }
    requires chosen { IsChosen machine.now.kept (chosen_of choice) }
    requires known { AreKnown P.Sealing.crypto (chosen_of choice) }
    requires shares { shared_with (P.Agreement.does server.now.agreement) machine.now.kept.underway.secret client.now.point ≡
        Some client.now.shared }
    requires signed { IsSigned (exchange_parts P.Agreement.does P.HostSigner.keys server.now) machine.now.kept (chosen_of choice)
        client.now.point client.now.shared signed.now.own signed.now.hash (take signed.now.length signed.now.signature) }
    requires length { signed.now.length ≤ 4096 }
    // What it returns.
    ensures { IfOk result (λ a. IsAnswer P.Sealing.crypto (exchange_parts P.Agreement.does P.HostSigner.keys server.now) machine.now.kept
        client.now.point (owned_chosen a.made.choice.value) a.reply.items a.made.keys.own a.made.keys.theirs a.made.keys.session
        (option_map (λ v. v.items) a.made.announcement)) }
{
    let reply = encode_reply(machine, &server.host_signer, choice.host.as_bytes(), signed)?;
    let made = machine.exchange_end(choice, &client.shared, &signed.hash)?;
    Ok(Answer { reply, made })
}

// The payload of KEX_ECDH_REPLY (RFC 5656 section 4).
fn encode_reply<S: Sealing, H: HostSigner>(
    machine: &Machine<S>,
    signer: &H,
    algorithm: &[u8],
    signed: &Signed,
) -> Result<Vec<u8>, AllocError>
    requires length { signed.now.length ≤ 4096 }
    ensures encoded { IfOk result (λ reply. IsEncoded (KexEcdhReply ((H.keys signer.now).key algorithm.now) signed.now.own
        (take signed.now.length signed.now.signature)) reply.items) }
    ensures some { IfOk result (λ reply. 1 ≤ length reply.items) }
{
    machine.encode_payload(&Message::KexEcdhReply {
        k_s: signer.key(algorithm),
        q_s: &signed.own,
        signature: &signed.signature[..signed.length],
    })
}
