//! Data and windows (RFC 4254 section 5.2).

ghost use Rattle.std.specs.Prelude.{◌≡◌, ℕ, Bool, ◌≤◌, Some, None, IfOk, IfErr, OnOk, OnErr, false, length};
ghost use Rattle.ssh_message.specs.Meaning.{meaning};
ghost use Rattle.ssh_message.specs.Written.{Fits};
ghost use Rattle.ssh_model.specs.Protocol.Bounds.{longest_payload};
ghost use Rattle.ssh_model.specs.Protocol.Wire.Message as Msg;
ghost use Rattle.ssh_model.specs.Laws.Sizes.{payload_size};
ghost use Rattle.ssh_model.specs.Protocol.Sessions.Items as Ask;
ghost use Rattle.ssh_model.specs.Protocol.Sessions.Refusals.{first_refusal};
ghost use Rattle.ssh_model.specs.State.Channels.Places.{at};
ghost use Rattle.ssh_model.specs.State.Channels.Kept.{data_checks, send_checks, take_checks};
ghost use Rattle.ssh_channels.specs.Rows.{SendsRow, TakesRow};

use super::Channels;
use crate::{MessageToSend, Taken};
use ssh_message::Message;
use ssh_types::bounds::{LARGEST_DATA, LARGEST_WINDOW};
use ssh_types::{AskRefusal, Refusal};

impl Channels {
    /// CHANNEL_WINDOW_ADJUST.
    #[tactic(auto, using(crate::proofs::Taking::adjust_taken))]
    pub(super) fn take_adjust(&mut self, recipient: u32, bytes: u32) -> Result<Taken, Refusal>
        ensures refused { IfErr result (λ e. first_refusal (take_checks false self.old (Msg.ChannelWindowAdjust recipient bytes))
            ≡ Some e) }
        ensures kept { OnErr result (self.new ≡ self.old) }
        ensures passed { OnOk result (first_refusal (take_checks false self.old (Msg.ChannelWindowAdjust recipient bytes)) ≡ None) }
        ensures taken { IfOk result (λ t. (is_blocked : Bool) → TakesRow is_blocked self.old (Msg.ChannelWindowAdjust recipient bytes)
            t self.new) }
    {
        let Some(mut entry) = self.open_entry(recipient) else {
            return Err(Refusal::UnknownChannel);
        };
        if bytes > LARGEST_WINDOW - entry.send_window {
            return Err(Refusal::WindowTooLarge);
        }
        entry.send_window += bytes;
        self.table.set(recipient, entry);
        Ok(Taken {
            channel: Some(recipient),
            reply: None,
        })
    }

    /// CHANNEL_DATA or CHANNEL_EXTENDED_DATA.
    #[tactic(auto, using(crate::proofs::Taking::data_taken, crate::proofs::Taking::extended_data_taken))]
    pub(super) fn take_data(&mut self, recipient: u32, body: &[u8]) -> Result<Taken, Refusal>
        // If it fails.
        ensures refused { IfErr result (λ e. first_refusal (data_checks (at self.old.places recipient) (length body.now))
            ≡ Some e) }
        ensures kept { OnErr result (self.new ≡ self.old) }
        // What it does.
        ensures passed { OnOk result (first_refusal (data_checks (at self.old.places recipient) (length body.now)) ≡ None) }
        ensures data { IfOk result (λ t. (is_blocked : Bool) →
            TakesRow is_blocked self.old (Msg.ChannelData recipient body.now) t self.new) }
        ensures extended { IfOk result (λ t. (is_blocked : Bool) (kind : ℕ) →
            TakesRow is_blocked self.old (Msg.ChannelExtendedData recipient kind body.now) t self.new) }
    {
        let Some(mut entry) = self.open_entry(recipient) else {
            return Err(Refusal::UnknownChannel);
        };
        if entry.eof_taken {
            return Err(Refusal::Unexpected);
        }
        let size = body.len();
        if size > entry.receive_window as usize || size > entry.max_packet_here as usize {
            return Err(Refusal::WindowOverrun);
        }
        entry.receive_window -= size as u32;
        self.table.set(recipient, entry);
        Ok(Taken {
            channel: Some(recipient),
            reply: None,
        })
    }

    /// Asks for data, or extended data if a kind is given.
    #[tactic(auto, using(crate::proofs::Asking::data_sent))]
    pub(super) fn ask_data<'a>(
        &mut self,
        channel: u32,
        kind: Option<u32>,
        body: &'a [u8],
    ) -> Result<MessageToSend<'a>, AskRefusal>
        // If it fails.
        ensures refused { IfErr result (λ e. first_refusal (send_checks false false self.old (Ask.AskData channel kind body.now))
            ≡ Some e) }
        ensures kept { OnErr result (self.new ≡ self.old) }
        // What it does.
        ensures passed { OnOk result (first_refusal (send_checks false false self.old (Ask.AskData channel kind body.now)) ≡ None) }
        ensures sent { IfOk result (λ t. SendsRow self.old (Ask.AskData channel kind body.now) t self.new) }
        ensures fits { IfOk result (λ t. Fits t.message) }
        ensures short { IfOk result (λ t. payload_size (meaning t.message) ≤ longest_payload) }
    {
        let Some(mut entry) = self.open_entry(channel) else {
            return Err(AskRefusal::NoChannel);
        };
        if entry.is_ended() {
            return Err(AskRefusal::Ended);
        }
        let size = body.len();
        if size > LARGEST_DATA as usize || size > entry.max_packet_there as usize {
            return Err(AskRefusal::TooLong);
        }
        if size > entry.send_window as usize {
            return Err(AskRefusal::NoRoom);
        }
        entry.send_window -= size as u32;
        self.table.set(channel, entry);
        let recipient = entry.peer_number;
        let message = match kind {
            None => Message::ChannelData { recipient, body },
            Some(kind) => Message::ChannelExtendedData {
                recipient,
                kind,
                body,
            },
        };
        Ok(MessageToSend {
            channel: Some(channel),
            message,
        })
    }

    /// Asks for a larger window.
    #[tactic(auto, using(crate::proofs::Asking::adjust_sent))]
    pub(super) fn ask_adjust<'a>(
        &mut self,
        channel: u32,
        bytes: u32,
    ) -> Result<MessageToSend<'a>, AskRefusal>
        // If it fails.
        ensures refused { IfErr result (λ e. first_refusal (send_checks false false self.old (Ask.AskAdjust channel bytes))
            ≡ Some e) }
        ensures kept { OnErr result (self.new ≡ self.old) }
        // What it does.
        ensures passed { OnOk result (first_refusal (send_checks false false self.old (Ask.AskAdjust channel bytes)) ≡ None) }
        ensures sent { IfOk result (λ t. SendsRow self.old (Ask.AskAdjust channel bytes) t self.new) }
        ensures fits { IfOk result (λ t. Fits t.message) }
        ensures short { IfOk result (λ t. payload_size (meaning t.message) ≤ longest_payload) }
    {
        let Some(mut entry) = self.open_entry(channel) else {
            return Err(AskRefusal::NoChannel);
        };
        if entry.close_said {
            return Err(AskRefusal::Ended);
        }
        if bytes > LARGEST_WINDOW - entry.receive_window {
            return Err(AskRefusal::TooMuch);
        }
        entry.receive_window += bytes;
        self.table.set(channel, entry);
        Ok(MessageToSend {
            channel: Some(channel),
            message: Message::ChannelWindowAdjust {
                recipient: entry.peer_number,
                bytes,
            },
        })
    }
}
