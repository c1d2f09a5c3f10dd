//! The end of an exchange at a server.

ghost use Rattle.ssh_transport_machine.specs.Padding.{PadsTo, sending_by};
ghost use Rattle.ssh_transport_machine.specs.Puts.{outs};
ghost use Rattle.std.specs.Prelude.{◌≡◌, ◌<◌, ◌-◌, IfOk, OnErr, OnOk, map, true};
ghost use Rattle.ssh_model.specs.declared.side.Side.TheVariants as sides;
ghost use Rattle.ssh_transport_machine.specs.Finishing.{HasChoice};
ghost use Rattle.ssh_transport.specs.OfServer.Answers.{EcdhInitNeedsMemory, EcdhInitTaken};
ghost use Rattle.ssh_model.specs.Protocol.Sessions.Turns.{number_of};
ghost use Rattle.ssh_transport.specs.OfServer.Points.{ShowsGood};
ghost use Rattle.ssh_transport.specs.OfServer.Parts.{exchange_parts};
ghost use Rattle.ssh_model.specs.Protocol.Bounds.{most_exchanges};

use crate::outcome::TransportTurn;
use crate::server::Server;
use crate::server::answer::{Answer, encode_answer};
use crate::server::point::{SharedPoint, judge_ecdh_init};
use ssh_transport_machine::{ExchangeEnd, Machine, Outgoing, ServerParts};
use ssh_types::Refusal;
use std::alloc::AllocError;

/// Takes the point of the client, whose payload is shown: refuses it, or sends the reply, NEWKEYS and what is announced after
/// it, all or nothing. The packets from EXT_INFO on are under the new key, and the secret of the exchange is dropped. Too few numbers left
/// in the epoch for the answer is a refusal (`NumberSpent`), of which nothing is sent.
///
/// # Errors
///
/// Only if memory is refused: then nothing is sent, and the end is over.
pub(crate) fn take_ecdh_init<P: ServerParts>(
    machine: &mut Machine<P::Sealing>,
    server: &Server<P>,
    out: &mut Vec<u8>,
    sent: &mut Outgoing<P::Filler>,
) -> Result<TransportTurn, AllocError>
    // What the caller must ensure.
    requires number { number_of machine.old.receiver.payload ≡ 30 }
    requires side { machine.old.kept.side ≡ sides.Server }
    requires choice { HasChoice machine.old.kept }
    requires epoch { machine.old.kept.sending.epoch < most_exchanges }
    // What it does.
    ensures taken { IfOk result (λ turn. EcdhInitTaken P.Sealing.crypto (exchange_parts P.Agreement.does P.HostSigner.keys server.now)
        machine.old turn machine.new (outs out.old out.new sent.old sent.new)) }
    // If it fails.
    ensures dead { OnErr result (machine.new.kept.dead ≡ true) }
    ensures needs_memory { OnErr result (EcdhInitNeedsMemory P.Sealing.crypto
        (exchange_parts P.Agreement.does P.HostSigner.keys server.now) machine.old) }
    ensures out { OnErr result (out.new.items ≡ out.old.items) }
    ensures kept { OnErr result (map (λ v. v.items) sent.new.payloads.items ≡ map (λ v. v.items) sent.old.payloads.items) }
    // Where the padding comes from.
    ensures padded { OnOk result (PadsTo P.Sealing.crypto P.Filler.gives (sending_by machine.old sent.old out.old)
        (sending_by machine.new sent.new out.new)) }
{
    match judge_ecdh_init(machine, &server.agreement) {
        Ok(client) => answer_ecdh_init(machine, server, client, out, sent),
        Err(why) => {
            machine.refuse(why, out, sent)?;
            Ok(TransportTurn::Refused(why))
        }
    }
}

// Answers this point.
#[tactic(auto, using(crate::proofs::Padding::pads_none))]
fn answer_ecdh_init<P: ServerParts>(
    machine: &mut Machine<P::Sealing>,
    server: &Server<P>,
    client: SharedPoint,
    out: &mut Vec<u8>,
    sent: &mut Outgoing<P::Filler>,
) -> Result<TransportTurn, AllocError>
    // What the caller must ensure.
    requires shown { ShowsGood (P.Agreement.does server.now.agreement) machine.old.kept machine.old.receiver.payload client.point
        client.shared }
    requires side { machine.old.kept.side ≡ sides.Server }
    requires choice { HasChoice machine.old.kept }
    requires epoch { machine.old.kept.sending.epoch < most_exchanges }
    // What it does.
    ensures taken { IfOk result (λ turn. EcdhInitTaken P.Sealing.crypto (exchange_parts P.Agreement.does P.HostSigner.keys server.now)
        machine.old turn machine.new (outs out.old out.new sent.old sent.new)) }
    // If it fails.
    ensures dead { OnErr result (machine.new.kept.dead ≡ true) }
    ensures needs_memory { OnErr result (EcdhInitNeedsMemory P.Sealing.crypto
        (exchange_parts P.Agreement.does P.HostSigner.keys server.now) machine.old) }
    ensures out { OnErr result (out.new.items ≡ out.old.items) }
    ensures kept { OnErr result (map (λ v. v.items) sent.new.payloads.items ≡ map (λ v. v.items) sent.old.payloads.items) }
    // Where the padding comes from.
    ensures padded { OnOk result (PadsTo P.Sealing.crypto P.Filler.gives (sending_by machine.old sent.old out.old)
        (sending_by machine.new sent.new out.new)) }
{
    match encode_answer(machine, server, &client) {
        Ok(Some(answer)) => {
            let Answer { reply, made } = answer;
            let ExchangeEnd {
                keys,
                announcement,
                choice,
            } = made;
            machine.finish_after(reply, keys, announcement, out, sent)?;
            Ok(TransportTurn::Completed(choice))
        }
        Ok(None) => {
            machine.die();
            Ok(TransportTurn::Refused(Refusal::NumberSpent))
        }
        Err(error) => {
            machine.die();
            Err(error)
        }
    }
}
