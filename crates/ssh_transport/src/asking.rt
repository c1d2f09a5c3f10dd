//! What an end does on an ask of its user: for the service of authentication, for an exchange of keys, or to disconnect.

ghost use Rattle.ssh_transport_machine.specs.Padding.{PadsTo, sending_by};
ghost use Rattle.ssh_transport_machine.specs.Puts.{outs};
ghost use Rattle.std.specs.Prelude.{◌≡◌, IfOk, OnErr, OnOk, None, codes, true};
ghost use Rattle.ssh_model.specs.Protocol.Wire.Message.{ServiceRequest};
ghost use Rattle.ssh_model.specs.Protocol.Sessions.Items.{AskRekey, AskService};
ghost use Rattle.ssh_model.specs.Protocol.Sessions.Refusals.{first_refusal};
ghost use Rattle.ssh_model.specs.State.TransportLayer.Kept.{after_sent, message_ask_checks};
ghost use Rattle.ssh_transport.specs.Asking.{AskDone, AskNeedsMemory, DisconnectDone, DisconnectNeedsMemory};
ghost use Rattle.ssh_transport.specs.Asking.{OfferDone, OfferNeedsMemory, refusal_with};
ghost use Rattle.ssh_transport_machine.specs.Answering.{Answers, HasRoom};

use crate::outcome::AskTurn;
use ssh_message::Message;
use ssh_packet::{Filler, Sealing};
use ssh_transport_machine::{Machine, Material, Outgoing, SendOutcome, USERAUTH};
use ssh_types::AskRefusal;
use ssh_types::bounds::LONGEST_DESCRIPTION;
use std::alloc::AllocError;

/// Asks for the service of authentication (RFC 4253 section 10).
///
/// # Errors
///
/// Only if memory is refused: nothing is put out, and the end is over.
pub(crate) fn ask_service<S: Sealing, F: Filler + Drop>(
    machine: &mut Machine<S>,
    out: &mut Vec<u8>,
    sent: &mut Outgoing<F>,
) -> Result<AskTurn, AllocError>
    // What it does.
    ensures done { IfOk result (λ turn. AskDone S.crypto machine.old AskService turn machine.new (outs out.old out.new sent.old sent.new)) }
    // If it fails.
    ensures dead { OnErr result (machine.new.kept.dead ≡ true) }
    ensures needs_memory { OnErr result (AskNeedsMemory machine.old AskService) }
    ensures out { OnErr result (out.new.items ≡ out.old.items) }
    ensures kept { OnErr result (sent.new.payloads.items ≡ sent.old.payloads.items) }
    // Where the padding comes from.
    ensures padded { OnOk result (PadsTo S.crypto F.gives (sending_by machine.old sent.old out.old)
        (sending_by machine.new sent.new out.new)) }
{
    if let Some(why) = judge_service_ask(machine) {
        return Ok(AskTurn::Refused(why));
    }
    Ok(AskTurn::Answered(request_service(machine, out, sent)?))
}

/// Begins an exchange of keys by this end's KEXINIT (RFC 4253 section 9).
///
/// # Errors
///
/// Only if memory is refused: nothing is put out, and the end is over.
pub(crate) fn ask_rekey<S: Sealing, F: Filler + Drop>(
    machine: &mut Machine<S>,
    out: &mut Vec<u8>,
    sent: &mut Outgoing<F>,
) -> Result<AskTurn, AllocError>
    // What it does.
    ensures done { IfOk result (λ turn. AskDone S.crypto machine.old AskRekey turn machine.new (outs out.old out.new sent.old sent.new)) }
    // If it fails.
    ensures dead { OnErr result (machine.new.kept.dead ≡ true) }
    ensures needs_memory { OnErr result (AskNeedsMemory machine.old AskRekey) }
    ensures out { OnErr result (out.new.items ≡ out.old.items) }
    ensures kept { OnErr result (sent.new.payloads.items ≡ sent.old.payloads.items) }
    // Where the padding comes from.
    ensures padded { OnOk result (PadsTo S.crypto F.gives (sending_by machine.old sent.old out.old)
        (sending_by machine.new sent.new out.new)) }
{
    if let Some(why) = judge_rekey_ask(machine) {
        return Ok(AskTurn::Refused(why));
    }
    match machine.material() {
        Some(material) => Ok(AskTurn::Answered(begin_exchange(machine, material, out, sent)?)),
        None => unreachable!(),
    }
}

/// Sends DISCONNECT by the application, with this description and no language, and is over (RFC 4253 section 11.1).
///
/// # Errors
///
/// Only if memory is refused: nothing is put out, and the end is over.
pub(crate) fn ask_disconnect<S: Sealing, F: Filler + Drop>(
    machine: &mut Machine<S>,
    description: &[u8],
    out: &mut Vec<u8>,
    sent: &mut Outgoing<F>,
) -> Result<AskTurn, AllocError>
    // What it does.
    ensures done { IfOk result (λ turn. DisconnectDone S.crypto machine.old description.now turn machine.new
        (outs out.old out.new sent.old sent.new)) }
    // If it fails.
    ensures dead { OnErr result (machine.new.kept.dead ≡ true) }
    ensures needs_memory { OnErr result (DisconnectNeedsMemory machine.old description.now) }
    ensures out { OnErr result (out.new.items ≡ out.old.items) }
    ensures kept { OnErr result (sent.new.payloads.items ≡ sent.old.payloads.items) }
    // Where the padding comes from.
    ensures padded { OnOk result (PadsTo S.crypto F.gives (sending_by machine.old sent.old out.old)
        (sending_by machine.new sent.new out.new)) }
{
    if description.len() > LONGEST_DESCRIPTION {
        return Ok(AskTurn::Refused(AskRefusal::TooLong));
    }
    let farewell = Message::Disconnect {
        reason: 11,
        description,
        language: b"",
    };
    let answer = machine.send_if_numbered(&farewell, out, sent)?;
    machine.die();
    Ok(AskTurn::Answered(answer))
}

// Why an ask for the service is refused.
fn judge_service_ask<S: Sealing>(machine: &Machine<S>) -> Option<AskRefusal>
    ensures { first_refusal (message_ask_checks machine.now.kept AskService) ≡ refusal_with result }
{
    if !machine.asks_for_service() {
        return Some(AskRefusal::WrongSide);
    }
    if machine.epochs().1 == 0 {
        return Some(AskRefusal::NotYet);
    }
    if machine.is_requested() {
        return Some(AskRefusal::Busy);
    }
    None
}

// Why an ask for an exchange of keys is refused.
fn judge_rekey_ask<S: Sealing>(machine: &Machine<S>) -> Option<AskRefusal>
    ensures { first_refusal (message_ask_checks machine.now.kept AskRekey) ≡ refusal_with result }
{
    if !machine.is_authenticated() {
        return Some(AskRefusal::NotYet);
    }
    if machine.is_blocked() {
        return Some(AskRefusal::Busy);
    }
    if !machine.is_normal() {
        return Some(AskRefusal::Busy);
    }
    if !machine.has_material() {
        return Some(AskRefusal::NoMaterial);
    }
    None
}

// Asks for the service where a number is left for it.
fn request_service<S: Sealing, F: Filler + Drop>(
    machine: &mut Machine<S>,
    out: &mut Vec<u8>,
    sent: &mut Outgoing<F>,
) -> Result<SendOutcome, AllocError>
    // What it does.
    ensures answers { IfOk result (λ answer. Answers S.crypto machine.old (ServiceRequest (codes "ssh-userauth"))
        (record (after_sent machine.old.kept) { requested = true }) answer machine.new (outs out.old out.new sent.old sent.new)) }
    // If it fails.
    ensures dead { OnErr result (machine.new.kept.dead ≡ true) }
    ensures room { OnErr result (HasRoom machine.old) }
    ensures out { OnErr result (out.new.items ≡ out.old.items) }
    ensures kept { OnErr result (sent.new.payloads.items ≡ sent.old.payloads.items) }
    // Where the padding comes from.
    ensures padded { OnOk result (PadsTo S.crypto F.gives (sending_by machine.old sent.old out.old)
        (sending_by machine.new sent.new out.new)) }
{
    let request = Message::ServiceRequest { service: USERAUTH };
    match machine.send_if_numbered(&request, out, sent)? {
        SendOutcome::Done => {
            machine.mark_requested();
            Ok(SendOutcome::Done)
        }
        SendOutcome::Spent => Ok(SendOutcome::Spent),
    }
}

// Sends this end's KEXINIT with a pair of cookie and secret where a number is left for it.
fn begin_exchange<S: Sealing, F: Filler + Drop>(
    machine: &mut Machine<S>,
    material: Material,
    out: &mut Vec<u8>,
    sent: &mut Outgoing<F>,
) -> Result<SendOutcome, AllocError>
    // What it does.
    ensures done { IfOk result (λ answer. OfferDone S.crypto machine.old (record { cookie = material.cookie; secret = material.secret })
        answer machine.new (outs out.old out.new sent.old sent.new)) }
    // If it fails.
    ensures dead { OnErr result (machine.new.kept.dead ≡ true) }
    ensures needs_memory { OnErr result (OfferNeedsMemory machine.old (record { cookie = material.cookie; secret = material.secret })) }
    ensures out { OnErr result (out.new.items ≡ out.old.items) }
    ensures kept { OnErr result (sent.new.payloads.items ≡ sent.old.payloads.items) }
    // Where the padding comes from.
    ensures padded { OnOk result (PadsTo S.crypto F.gives (sending_by machine.old sent.old out.old)
        (sending_by machine.new sent.new out.new)) }
{
    ssh_transport_machine::laws::offer_fits(machine, &material.cookie);
    if machine.is_spent() {
        machine.die();
        return Ok(SendOutcome::Spent);
    }
    machine.send_kexinit(material, out, sent)?;
    Ok(SendOutcome::Done)
}
