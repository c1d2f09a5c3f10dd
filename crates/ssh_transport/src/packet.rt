//! Packets that a transport takes.

ghost use Rattle.std.specs.Prelude.{◌≡◌, ◌<◌, ◌≤◌, ◌++◌, IfErr, IfOk, OnErr, OnOk, false, length, map, take, true};
ghost use Rattle.ssh_transport_machine.specs.Classifying.{PayloadIs};
ghost use Rattle.ssh_transport_machine.specs.Padding.{PadsTo, sending_by};
ghost use Rattle.ssh_transport_machine.specs.Puts.{outs};
ghost use Rattle.ssh_transport_machine.specs.State.{before_taken, buffered_of};
ghost use Rattle.ssh_transport_machine.specs.declared.machine.classifying.Classified.TheVariants as classes;
ghost use Rattle.ssh_transport.specs.Living.{IsLive};
ghost use Rattle.ssh_transport.specs.Standing.{Stands};
ghost use Rattle.ssh_transport.specs.Dispatching.{NewkeysTaken};
ghost use Rattle.ssh_transport.specs.Units.{Did, DidNeedMemory, Failed, IsFound, Took};

use crate::outcome::{Handled, TransportFault, TransportTurn, answer_outcome};
use crate::role::Role;
use ssh_packet::Sealing;
use ssh_transport_machine::{Classified, Machine, Outgoing};
use std::alloc::AllocError;

/// Takes bytes to the end of one packet, and does what it asks for. A payload for the layers above is `Up`, with the number of its
/// packet.
///
/// # Errors
///
/// Only `Memory`: memory was refused for what is sent. Nothing is put out, and the end is over.
pub(crate) fn take_packet<R: Role>(
    machine: &mut Machine<R::Sealing>,
    role: &R,
    bytes: &[u8],
    out: &mut Vec<u8>,
    sent: &mut Outgoing<R::Filler>,
) -> (usize, Result<TransportTurn, TransportFault>)
    // What the caller must ensure.
    requires stands { Stands R.SIDE machine.old }
    requires alive { machine.old.kept.dead ≡ false }
    requires reading { machine.old.kept.lines.found ≡ true }
    // What it does.
    ensures used { result.0 ≤ length bytes.now }
    ensures progress { 0 < length bytes.now → 0 < result.0 }
    ensures more { IfOk result.1 (λ turn. turn ≡ TransportTurn.More → result.0 ≡ length bytes.now) }
    ensures took { IfOk result.1 (λ turn. Took R.Sealing.crypto R.SIDE (R.does role.now) machine.old
        (buffered_of machine.old ++ take result.0 bytes.now) turn machine.new (outs out.old out.new sent.old sent.new)) }
    // If it fails.
    ensures failed { IfErr result.1 (λ fault. Failed R.Sealing.crypto R.SIDE (R.needs_memory role.now) machine.old
        (buffered_of machine.old ++ take result.0 bytes.now) fault machine.new) }
    ensures out { OnErr result.1 (out.new.items ≡ out.old.items) }
    ensures kept { OnErr result.1 (map (λ v. v.items) sent.new.payloads.items ≡ map (λ v. v.items) sent.old.payloads.items) }
    // What holds of the machine afterwards, and where the padding comes from.
    ensures stands { Stands R.SIDE machine.new }
    ensures padded { OnOk result.1 (PadsTo R.Sealing.crypto R.Filler.gives (sending_by machine.old sent.old out.old)
        (sending_by machine.new sent.new out.new)) }
{
    R::lifts();
    crate::laws::machines_stand::<<R::Sealing as Sealing>::Key>();
    let (used, classified) = machine.take_packet(bytes);
    match dispatch(machine, role, classified, out, sent) {
        Ok(turn) => (used, Ok(turn)),
        Err(_) => (used, Err(TransportFault::Memory)),
    }
}

// Does what is asked for by a packet that is this.
fn dispatch<R: Role>(
    machine: &mut Machine<R::Sealing>,
    role: &R,
    classified: Classified,
    out: &mut Vec<u8>,
    sent: &mut Outgoing<R::Filler>,
) -> Result<TransportTurn, AllocError>
    // What the caller must ensure.
    requires { IsFound R.SIDE machine.old classified }
    // What it does.
    ensures did { IfOk result (λ given. Did R.Sealing.crypto (R.does role.now) machine.old classified given machine.new
        (outs out.old out.new sent.old sent.new)) }
    // If it fails.
    ensures dead { OnErr result (machine.new.kept.dead ≡ true) }
    ensures needs_memory { OnErr result (DidNeedMemory R.Sealing.crypto (R.needs_memory role.now) machine.old classified
        (outs out.old out.new sent.old sent.new)) }
    ensures out { OnErr result (out.new.items ≡ out.old.items) }
    ensures kept { OnErr result (map (λ v. v.items) sent.new.payloads.items ≡ map (λ v. v.items) sent.old.payloads.items) }
    // Where the padding comes from.
    ensures padded { OnOk result (PadsTo R.Sealing.crypto R.Filler.gives (sending_by machine.old sent.old out.old)
        (sending_by machine.new sent.new out.new)) }
{
    match classified {
        Classified::More => Ok(TransportTurn::More),
        Classified::Refused(why) => {
            machine.refuse(why, out, sent)?;
            Ok(TransportTurn::Refused(why))
        }
        Classified::Skipped => {
            machine.skip_guessed();
            Ok(TransportTurn::Done(Handled::Skipped))
        }
        Classified::Disconnected => {
            machine.die();
            Ok(TransportTurn::Done(Handled::Disconnected))
        }
        Classified::Told => Ok(TransportTurn::Done(Handled::Told)),
        Classified::Unknown => {
            let answer = machine.reply_unknown(out, sent)?;
            Ok(answer_outcome(answer, Handled::Unknown))
        }
        Classified::ServiceRequested => {
            let answer = machine.accept_service(out, sent)?;
            Ok(answer_outcome(answer, Handled::ServiceRequested))
        }
        Classified::ServiceAccepted => {
            machine.mark_service_accepted();
            Ok(TransportTurn::Done(Handled::ServiceAccepted))
        }
        Classified::Kexinit(facts) => role.answer_kexinit(machine, facts, out, sent),
        Classified::NewKeys => {
            begin_epoch(machine);
            Ok(TransportTurn::Done(Handled::NewKeys))
        }
        Classified::EcdhInit => role.finish_exchange(machine, out, sent),
        Classified::Reply => role.finish_exchange(machine, out, sent),
        Classified::Above => Ok(TransportTurn::Up(machine.last_number())),
    }
}

// Takes NEWKEYS where that is the payload that is shown.
fn begin_epoch<S: Sealing>(machine: &mut Machine<S>)
    requires live { IsLive machine.old }
    requires taken { 1 ≤ machine.old.kept.taking.count }
    requires shown { PayloadIs (before_taken machine.old.kept) machine.old.receiver.payload classes.NewKeys }
    ensures { NewkeysTaken machine.old machine.new }
{
    machine.take_newkeys();
}
