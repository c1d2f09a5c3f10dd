//! What is sent on an ask.

ghost use Rattle.std.specs.Prelude.{◌≡◌, ◌≤◌, Some, None, IfOk, IfErr, OnOk, OnErr, true, false};
ghost use Rattle.ssh_message.specs.Meaning.{meaning};
ghost use Rattle.ssh_message.specs.Written.{Fits};
ghost use Rattle.ssh_model.specs.Protocol.Bounds.{longest_payload};
ghost use Rattle.ssh_model.specs.Laws.Sizes.{payload_size};
ghost use Rattle.ssh_model.specs.Protocol.Sessions.Refusals.{first_refusal};
ghost use Rattle.ssh_model.specs.State.Channels.Kept.{Sends, send_checks};
ghost use Rattle.ssh_channels.specs.Rows.{IsAskError, is_busy};
ghost use Rattle.ssh_channels.specs.Sessions.{AsksInSession};
ghost use Rattle.ssh_channels.specs.Values.{ask_of, sent_of};

use super::Channels;
use crate::{Ask, MessageToSend};
use ssh_model::laws;
use ssh_types::bounds::{MOST_WAITING_GLOBALS, MOST_WAITING_REQUESTS};
use ssh_types::{AskRefusal, CallError};

impl Channels {
    /// Asks for a message of the connection (RFC 4254). `blocked` says whether this end is within a key exchange of its own, and `due`
    /// whether one is due. The caller has to test that the end is authenticated.
    ///
    /// # Errors
    ///
    /// `Refused` with the first refusal that holds. `Memory` if there was none for a new channel. The channels are then as before.
    #[tactic(auto, using(crate::proofs::Asking::refused_while_blocked, crate::proofs::Asking::refused_as_busy, crate::proofs::Asking::refused_as_due))]
    pub fn ask<'a>(
        &mut self,
        ask: &Ask<'a>,
        blocked: bool,
        due: bool,
    ) -> Result<MessageToSend<'a>, CallError<AskRefusal>>
        // When it is refused, and that nothing changes then.
        ensures refused { IfErr result (λ e. IsAskError blocked due self.old (ask_of ask.now) e) }
        ensures kept { OnErr result (self.new ≡ self.old) }
        // What is sent, and what changes.
        ensures passed { OnOk result (first_refusal (send_checks blocked due self.old (ask_of ask.now)) ≡ None) }
        ensures sent { IfOk result (λ t. Sends self.old (ask_of ask.now) (sent_of (ask_of ask.now) t) self.new) }
        // The message can be written, and fits into a packet.
        ensures fits { IfOk result (λ t. Fits t.message) }
        ensures short { IfOk result (λ t. payload_size (meaning t.message) ≤ longest_payload) }
        // What it is in a session.
        ensures in_session { AsksInSession blocked due self.old (ask_of ask.now) self.new result }
    {
        laws::connection::same_asks();
        if blocked {
            return Err(CallError::Refused(AskRefusal::Busy));
        }
        if !due {
            return self.ask_row(ask);
        }
        if self.is_busy(ask) {
            return Err(CallError::Refused(AskRefusal::Busy));
        }
        Err(CallError::Refused(AskRefusal::RekeyDue))
    }

    // One request more cannot wait for a reply.
    fn is_busy(&self, ask: &Ask<'_>) -> bool
        ensures { result ≡ is_busy self.now (ask_of ask.now) }
    {
        match *ask {
            Ask::Request {
                channel,
                want: true,
                ..
            } => match self.table.get(channel) {
                Some(entry) => entry.waiting_there >= MOST_WAITING_REQUESTS,
                None => false,
            },
            Ask::Global { want: true, .. } => self.globals_there >= MOST_WAITING_GLOBALS,
            _ => false,
        }
    }

    // The ask by its row, where no key exchange is under way or due.
    fn ask_row<'a>(&mut self, ask: &Ask<'a>) -> Result<MessageToSend<'a>, CallError<AskRefusal>>
        // If it fails.
        ensures refused { IfErr result (λ e. IsAskError false false self.old (ask_of ask.now) e) }
        ensures kept { OnErr result (self.new ≡ self.old) }
        // What it does.
        ensures passed { OnOk result (first_refusal (send_checks false false self.old (ask_of ask.now)) ≡ None) }
        ensures sent { IfOk result (λ t. Sends self.old (ask_of ask.now) (sent_of (ask_of ask.now) t) self.new) }
        ensures fits { IfOk result (λ t. Fits t.message) }
        ensures short { IfOk result (λ t. payload_size (meaning t.message) ≤ longest_payload) }
    {
        let sent = match *ask {
            Ask::Open {
                kind,
                window,
                max_packet,
                rest,
            } => return self.ask_open(kind, window, max_packet, rest),
            Ask::Confirm {
                channel,
                window,
                max_packet,
                rest,
            } => self.ask_confirm(channel, window, max_packet, rest),
            Ask::Refuse { channel, reason } => self.ask_refuse(channel, reason),
            Ask::Data {
                channel,
                kind,
                body,
            } => self.ask_data(channel, kind, body),
            Ask::Adjust { channel, bytes } => self.ask_adjust(channel, bytes),
            Ask::Eof { channel } => self.ask_eof(channel),
            Ask::Close { channel } => self.ask_close(channel),
            Ask::Request {
                channel,
                name,
                want,
                rest,
            } => self.ask_request(channel, name, want, rest),
            Ask::Reply { channel, success } => self.ask_reply(channel, success),
            Ask::Global { name, want, rest } => self.ask_global(name, want, rest),
            Ask::GlobalReply { success, rest } => self.ask_global_reply(success, rest),
        };
        match sent {
            Ok(sent) => Ok(sent),
            Err(refusal) => Err(CallError::Refused(refusal)),
        }
    }
}
