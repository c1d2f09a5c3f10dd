//! The answer to a message.

ghost use Rattle.std.specs.Prelude.{◌≡◌, None, IfOk, IfErr, OnOk, OnErr};
ghost use Rattle.ssh_message.specs.Meaning.{meaning};
ghost use Rattle.ssh_model.specs.Protocol.Sessions.Refusals.{first_refusal};
ghost use Rattle.ssh_model.specs.State.Channels.Kept.{Takes};
ghost use Rattle.ssh_channels.specs.Rows.{IsTakeError, message_checks};
ghost use Rattle.ssh_channels.specs.Sessions.{TakesInSession};
ghost use Rattle.ssh_channels.specs.Values.{taken_of};

use super::Channels;
use crate::Taken;
use ssh_message::Message;
use ssh_model::laws;
use ssh_types::{CallError, Refusal};

impl Channels {
    /// Takes a message of the connection (RFC 4254). `blocked` says whether this end is within a key exchange of its own:
    /// a reply that falls due is then owed, and `unblock` gives it.
    ///
    /// # Errors
    ///
    /// `Refused` if the message may not come here, with the first refusal that holds; a message that is not one of the connection is
    /// `Unexpected`. `Memory` if there was none for a new channel. The channels are then as before.
    pub fn take(
        &mut self,
        message: &Message<'_>,
        blocked: bool,
    ) -> Result<Taken, CallError<Refusal>>
        // If it fails.
        ensures refused { IfErr result (λ e. IsTakeError blocked self.old (meaning message.now) e) }
        ensures kept { OnErr result (self.new ≡ self.old) }
        // What it does.
        ensures passed { OnOk result (first_refusal (message_checks blocked self.old (meaning message.now)) ≡ None) }
        ensures taken { IfOk result (λ t. Takes blocked self.old (meaning message.now) (taken_of (meaning message.now) t) self.new) }
        ensures in_session { TakesInSession blocked self.old (meaning message.now) self.new result }
    {
        laws::connection::messages();
        let taken = match *message {
            Message::GlobalRequest { want, .. } => self.take_global(want),
            Message::RequestSuccess { .. } | Message::RequestFailure => self.take_global_reply(),
            Message::ChannelOpen {
                sender,
                window,
                max,
                ..
            } => return self.take_open(blocked, sender, window, max),
            Message::ChannelOpenConfirmation {
                recipient,
                sender,
                window,
                max,
                ..
            } => self.take_confirmation(recipient, sender, window, max),
            Message::ChannelOpenFailure { recipient, .. } => self.take_failure(recipient),
            Message::ChannelWindowAdjust { recipient, bytes } => self.take_adjust(recipient, bytes),
            Message::ChannelData { recipient, body } => self.take_data(recipient, body),
            Message::ChannelExtendedData {
                recipient,
                body,
                ..
            } => self.take_data(recipient, body),
            Message::ChannelEof { recipient } => self.take_eof(recipient),
            Message::ChannelClose { recipient } => self.take_close(blocked, recipient),
            Message::ChannelRequest {
                recipient,
                want,
                ..
            } => self.take_request(recipient, want),
            Message::ChannelSuccess { recipient } => self.take_reply(recipient),
            Message::ChannelFailure { recipient } => self.take_reply(recipient),
            _ => Err(Refusal::Unexpected),
        };
        taken.map_err(CallError::Refused)
    }
}
