//! Asks for messages of the connection, at an end that may not be authenticated.

ghost use Rattle.std.specs.Prelude.{◌≡◌, ◌≤◌, None, IfErr, IfOk, OnErr, OnOk};
ghost use Rattle.ssh_model.specs.Protocol.Bounds.{longest_payload};
ghost use Rattle.ssh_model.specs.Protocol.Channels.Connection.{after_authentication};
ghost use Rattle.ssh_model.specs.State.Channels.Kept.{Sends, send_checks};
ghost use Rattle.ssh_model.specs.Protocol.Sessions.Refusals.{first_refusal};
ghost use Rattle.ssh_model.specs.Laws.Sizes.{payload_size};
ghost use Rattle.ssh_message.specs.Meaning.{meaning};
ghost use Rattle.ssh_message.specs.Written.{Fits};
ghost use Rattle.ssh_channels.specs.Values.{ask_of, sent_of};
ghost use Rattle.ssh_end_machine.specs.Connection.{AskFails};

use crate::layers::stack::TransportView;
use ssh_channels::{Ask, Channels, MessageToSend};
use ssh_types::{AskRefusal, CallError};

/// Asks channels for a message of the connection (RFC 4254), in vain before authentication. `due` says whether an exchange of keys is due.
///
/// # Errors
///
/// The channels are then as before.
///
/// - `Refused(NotYet)`: the user is not authenticated.
/// - `Refused` with the first refusal of channels that holds.
/// - `Memory`: there was none for a new channel.
pub fn ask_channels<'a>(
    channels: &mut Channels,
    below: &TransportView<'_>,
    ask: &Ask<'a>,
    due: bool,
) -> Result<MessageToSend<'a>, CallError<AskRefusal>>
    // If it fails.
    ensures refused { IfErr result (λ error. AskFails below.now.authenticated below.now.blocked due channels.old (ask_of ask.now) error) }
    ensures kept { OnErr result (channels.new ≡ channels.old) }
    // What it does.
    ensures passed { OnOk result (first_refusal (after_authentication below.now.authenticated
        (send_checks below.now.blocked due channels.old (ask_of ask.now))) ≡ None) }
    ensures sent { IfOk result (λ sent. Sends channels.old (ask_of ask.now) (sent_of (ask_of ask.now) sent) channels.new) }
    ensures fits { IfOk result (λ sent. Fits sent.message) }
    ensures short { IfOk result (λ sent. payload_size (meaning sent.message) ≤ longest_payload) }
{
    if !below.authenticated {
        return Err(CallError::Refused(AskRefusal::NotYet));
    }
    channels.ask(ask, below.blocked, due)
}
