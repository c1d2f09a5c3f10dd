//! EOF and CLOSE (RFC 4254 section 5.3).

ghost use Rattle.std.specs.Prelude.{◌≡◌, Bool, ◌≤◌, Some, None, IfOk, IfErr, OnOk, OnErr, false};
ghost use Rattle.ssh_message.specs.Meaning.{meaning};
ghost use Rattle.ssh_message.specs.Written.{Fits};
ghost use Rattle.ssh_model.specs.Protocol.Bounds.{longest_payload};
ghost use Rattle.ssh_model.specs.Protocol.Wire.Message as Msg;
ghost use Rattle.ssh_model.specs.Laws.Sizes.{payload_size};
ghost use Rattle.ssh_model.specs.Protocol.Sessions.Items as Ask;
ghost use Rattle.ssh_model.specs.Protocol.Sessions.Refusals.{first_refusal};
ghost use Rattle.ssh_model.specs.State.Channels.Kept.{send_checks, take_checks};
ghost use Rattle.ssh_channels.specs.Rows.{SendsRow, TakesRow};

use super::Channels;
use crate::{MessageToSend, Reply, Taken};
use ssh_message::Message;
use ssh_types::{AskRefusal, Refusal};

impl Channels {
    /// CHANNEL_EOF.
    #[tactic(auto, using(crate::proofs::Taking::eof_taken))]
    pub(super) fn take_eof(&mut self, recipient: u32) -> Result<Taken, Refusal>
        ensures refused { IfErr result (λ e. first_refusal (take_checks false self.old (Msg.ChannelEof recipient)) ≡ Some e) }
        ensures kept { OnErr result (self.new ≡ self.old) }
        ensures passed { OnOk result (first_refusal (take_checks false self.old (Msg.ChannelEof recipient)) ≡ None) }
        ensures taken { IfOk result (λ t. (is_blocked : Bool) → TakesRow is_blocked self.old (Msg.ChannelEof recipient) t
            self.new) }
    {
        let Some(mut entry) = self.open_entry(recipient) else {
            return Err(Refusal::UnknownChannel);
        };
        if entry.eof_taken {
            return Err(Refusal::Unexpected);
        }
        entry.eof_taken = true;
        self.table.set(recipient, entry);
        Ok(Taken {
            channel: Some(recipient),
            reply: None,
        })
    }

    /// CHANNEL_CLOSE. It is answered by a CLOSE unless one was said, at once or, within a key exchange, later. After both the number is
    /// free.
    #[tactic(auto, using(crate::proofs::Taking::closed))]
    pub(super) fn take_close(&mut self, blocked: bool, recipient: u32) -> Result<Taken, Refusal>
        ensures refused { IfErr result (λ e. first_refusal (take_checks blocked self.old (Msg.ChannelClose recipient))
            ≡ Some e) }
        ensures kept { OnErr result (self.new ≡ self.old) }
        ensures passed { OnOk result (first_refusal (take_checks blocked self.old (Msg.ChannelClose recipient)) ≡ None) }
        ensures taken { IfOk result (λ t. TakesRow blocked self.old (Msg.ChannelClose recipient) t self.new) }
    {
        let Some(mut entry) = self.open_entry(recipient) else {
            return Err(Refusal::UnknownChannel);
        };
        let reply = Reply::Close {
            channel: recipient,
            recipient: entry.peer_number,
        };
        if entry.close_said || !blocked {
            self.table.remove(recipient);
            return Ok(Taken {
                channel: Some(recipient),
                reply: if entry.close_said { None } else { Some(reply) },
            });
        }
        if self.is_queue_full(blocked) {
            return Err(Refusal::OwedFull);
        }
        self.owe(reply);
        entry.close_said = true;
        entry.close_owed = true;
        entry.close_taken = true;
        self.table.set(recipient, entry);
        Ok(Taken {
            channel: Some(recipient),
            reply: None,
        })
    }

    /// Asks for EOF.
    #[tactic(auto, using(crate::proofs::Asking::eof_sent))]
    pub(super) fn ask_eof<'a>(&mut self, channel: u32) -> Result<MessageToSend<'a>, AskRefusal>
        // If it fails.
        ensures refused { IfErr result (λ e. first_refusal (send_checks false false self.old (Ask.AskEof channel))
            ≡ Some e) }
        ensures kept { OnErr result (self.new ≡ self.old) }
        // What it does.
        ensures passed { OnOk result (first_refusal (send_checks false false self.old (Ask.AskEof channel)) ≡ None) }
        ensures sent { IfOk result (λ t. SendsRow self.old (Ask.AskEof channel) t self.new) }
        ensures fits { IfOk result (λ t. Fits t.message) }
        ensures short { IfOk result (λ t. payload_size (meaning t.message) ≤ longest_payload) }
    {
        let Some(mut entry) = self.open_entry(channel) else {
            return Err(AskRefusal::NoChannel);
        };
        if entry.is_ended() {
            return Err(AskRefusal::Ended);
        }
        entry.eof_sent = true;
        self.table.set(channel, entry);
        Ok(MessageToSend {
            channel: Some(channel),
            message: Message::ChannelEof {
                recipient: entry.peer_number,
            },
        })
    }

    /// Asks for CLOSE.
    #[tactic(auto, using(crate::proofs::Asking::close_sent))]
    pub(super) fn ask_close<'a>(&mut self, channel: u32) -> Result<MessageToSend<'a>, AskRefusal>
        // If it fails.
        ensures refused { IfErr result (λ e. first_refusal (send_checks false false self.old (Ask.AskClose channel))
            ≡ Some e) }
        ensures kept { OnErr result (self.new ≡ self.old) }
        // What it does.
        ensures passed { OnOk result (first_refusal (send_checks false false self.old (Ask.AskClose channel)) ≡ None) }
        ensures sent { IfOk result (λ t. SendsRow self.old (Ask.AskClose channel) t self.new) }
        ensures fits { IfOk result (λ t. Fits t.message) }
        ensures short { IfOk result (λ t. payload_size (meaning t.message) ≤ longest_payload) }
    {
        let Some(mut entry) = self.open_entry(channel) else {
            return Err(AskRefusal::NoChannel);
        };
        if entry.close_said {
            return Err(AskRefusal::Ended);
        }
        entry.close_said = true;
        self.table.set(channel, entry);
        Ok(MessageToSend {
            channel: Some(channel),
            message: Message::ChannelClose {
                recipient: entry.peer_number,
            },
        })
    }
}
