//! What an end does with an answer of its transport.

ghost use Rattle.std.specs.Prelude.{◌≡◌, ◌++◌, IfOk, OnErr, OnOk, false, true};
ghost use Rattle.ssh_transport_machine.specs.Padding.{PadsTo};
ghost use Rattle.ssh_transport.specs.States.{sending_of};
ghost use Rattle.ssh_transport_machine.specs.Puts.{listed_outs};
ghost use Rattle.ssh_transport.specs.declared.outcome.TransportTurn.TheVariants as outcome;
ghost use Rattle.ssh_end_machine.specs.WithChannels.{channels_after};
ghost use Rattle.ssh_end_machine.specs.Outcomes.{IsReady, is_whole, handled_step_of};
ghost use Rattle.ssh_end_machine.specs.Owed.{Extends};
ghost use Rattle.ssh_end_machine.specs.Following.{FollowsOn};
ghost use Rattle.ssh_end_machine.specs.Login.{side_of};
ghost use Rattle.ssh_end_machine.specs.Units.{HandlingNeedsMemory, Handles, opened_by};

use crate::layers::Layers;
use crate::owed_replies::flush_owed_replies;
use crate::replying::{refuse, send_reply};
use crate::role::EndRole;
use crate::step::{EventKind, Step, TakenMessage};
use crate::turn::SentInTurn;
use ssh_transport::{Handled, Transport, TransportTurn};
use ssh_types::CallError;
use std::alloc::AllocError;

/// Does what is left to be done with an answer of the transport. The layers above judge a payload for them, and what they answer is sent,
/// or the peer is refused. The channels of the replies that are given are appended to the numbers of `sent`.
///
/// # Errors
///
/// Only if memory is refused: the end is over, and what was put out so far stands.
#[tactic(auto, using(crate::proofs::Padding::pads_none))]
pub fn handle_turn<R: EndRole>(
    transport: &mut Transport<R::Exchange>,
    role: &R,
    layers: &mut Layers,
    turn: &TransportTurn,
    out: &mut Vec<u8>,
    sent: &mut SentInTurn,
) -> Result<Step, AllocError>
    // What the caller must ensure.
    requires ready { IsReady transport.old.machine turn.now }
    requires follows { FollowsOn transport.old.machine layers.old.authentication }
    // What it does.
    ensures goes { IfOk result (λ step. Handles R.Exchange.Sealing.crypto (R.judging role.now) turn.now transport.old.machine layers.old
        step transport.new.machine layers.new (listed_outs out.old out.new sent.old.payloads sent.new.payloads)) }
    ensures numbered { IfOk result (λ step. sent.new.numbers.items ≡ sent.old.numbers.items ++ channels_after step
        layers.old.channels.owed) }
    ensures more { IfOk result (λ step. step ≡ Step.More → turn.now ≡ TransportTurn.More) }
    // If it fails.
    ensures needs_memory { OnErr result (HandlingNeedsMemory (R.judging role.now) turn.now transport.old.machine layers.old) }
    ensures dead { OnErr result (transport.new.machine.kept.dead ≡ true) }
    ensures left { OnErr result (is_whole turn.now ≡ false) }
    ensures out { OnErr result (Extends out.old.items out.new.items) }
    // What goes on holding. Where the padding comes from.
    ensures follows { FollowsOn transport.new.machine layers.new.authentication }
    ensures side { side_of layers.new.authentication ≡ side_of layers.old.authentication }
    ensures role { transport.new.role ≡ transport.old.role }
    ensures padded { OnOk result (PadsTo R.Exchange.Sealing.crypto R.Exchange.Filler.gives
        (sending_of transport.old out.old sent.old.payloads) (sending_of transport.new out.new sent.new.payloads)) }
{
    match turn {
        TransportTurn::Up(_) => match role.judge(transport, layers) {
            Ok(above) => send_reply(transport, above, out, &mut sent.payloads),
            Err(CallError::Refused(why)) => refuse(transport, why, out, &mut sent.payloads),
            Err(CallError::Memory) => {
                transport.die();
                Err(AllocError)
            }
        },
        TransportTurn::Completed(_) => {
            flush_owed_replies(
                transport,
                &mut layers.channels,
                out,
                &mut sent.payloads,
                &mut sent.numbers,
            )
        }
        TransportTurn::More => Ok(Step::More),
        TransportTurn::Refused(why) => Ok(Step::Refused(*why)),
        TransportTurn::Done(handled) => {
            layers.authentication.open_on(*handled);
            Ok(handled_step(*handled))
        }
    }
}

// What was done with a line or a packet of which nothing more is to be done.
fn handled_step(handled: Handled) -> Step
    ensures { result ≡ handled_step_of handled }
{
    match handled {
        Handled::OtherLine => Step::OtherLine,
        Handled::VersionLine => Step::VersionLine,
        Handled::Skipped => Step::Skipped,
        _ => Step::Took(TakenMessage {
            channel: None,
            probing: false,
            event_kind: EventKind::Message,
        }),
    }
}
