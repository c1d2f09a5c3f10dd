//! Requests on channels and their replies (RFC 4254 section 5.4).

ghost use Rattle.std.specs.Prelude.{◌≡◌, ℕ, Bool, ◌≤◌, List, Some, None, IfOk, IfErr, OnOk, OnErr, false, []};
ghost use Rattle.ssh_message.specs.Meaning.{meaning};
ghost use Rattle.ssh_message.specs.Written.{Fits};
ghost use Rattle.ssh_model.specs.Protocol.Bounds.{longest_payload};
ghost use Rattle.ssh_model.specs.Protocol.Wire.Message as Msg;
ghost use Rattle.ssh_model.specs.Laws.Sizes.{payload_size};
ghost use Rattle.ssh_model.specs.Protocol.Sessions.Items as Ask;
ghost use Rattle.ssh_model.specs.Protocol.Sessions.Refusals.{first_refusal};
ghost use Rattle.ssh_model.specs.State.Channels.Places.{at};
ghost use Rattle.ssh_model.specs.State.Channels.Kept.{reply_checks, send_checks, take_checks};
ghost use Rattle.ssh_channels.specs.Rows.{SendsRow, TakesRow, reply_message};

use super::sizes::is_too_long_with;
use super::{Channels, count_where};
use crate::{MessageToSend, Taken};
use ssh_message::Message;
use ssh_types::bounds::MOST_WAITING_REQUESTS;
use ssh_types::{AskRefusal, Refusal};

impl Channels {
    /// CHANNEL_REQUEST. One that comes after this end's CLOSE does not wait for a reply. Whether it is refused does not depend on its
    /// texts.
    #[tactic(auto, using(crate::proofs::Taking::request_taken))]
    pub(super) fn take_request(&mut self, recipient: u32, want: bool) -> Result<Taken, Refusal>
        ensures refused { IfErr result (λ e.
            first_refusal (take_checks false self.old (Msg.ChannelRequest recipient [] want [])) ≡ Some e) }
        ensures kept { OnErr result (self.new ≡ self.old) }
        ensures passed { OnOk result (first_refusal (take_checks false self.old (Msg.ChannelRequest recipient [] want [])) ≡ None) }
        ensures taken { IfOk result (λ t. (is_blocked : Bool) (name rest : List ℕ) →
            TakesRow is_blocked self.old (Msg.ChannelRequest recipient name want rest) t self.new) }
    {
        let Some(mut entry) = self.open_entry(recipient) else {
            return Err(Refusal::UnknownChannel);
        };
        let waits = want && !entry.close_said;
        let Some(waiting_here) = count_where(waits, entry.waiting_here, MOST_WAITING_REQUESTS)
        else {
            return Err(Refusal::OwedFull);
        };
        entry.waiting_here = waiting_here;
        self.table.set(recipient, entry);
        Ok(Taken {
            channel: Some(recipient),
            reply: None,
        })
    }

    /// CHANNEL_SUCCESS or CHANNEL_FAILURE.
    #[tactic(auto, using(crate::proofs::Taking::request_done, crate::proofs::Taking::request_failed))]
    pub(super) fn take_reply(&mut self, recipient: u32) -> Result<Taken, Refusal>
        // If it fails.
        ensures refused { IfErr result (λ e. first_refusal (reply_checks (at self.old.places recipient)) ≡ Some e) }
        ensures kept { OnErr result (self.new ≡ self.old) }
        // What it does.
        ensures passed { OnOk result (first_refusal (reply_checks (at self.old.places recipient)) ≡ None) }
        ensures success { IfOk result (λ t. (is_blocked : Bool) →
            TakesRow is_blocked self.old (Msg.ChannelSuccess recipient) t self.new) }
        ensures failure { IfOk result (λ t. (is_blocked : Bool) →
            TakesRow is_blocked self.old (Msg.ChannelFailure recipient) t self.new) }
    {
        let Some(mut entry) = self.open_entry(recipient) else {
            return Err(Refusal::UnknownChannel);
        };
        if entry.waiting_there == 0 {
            return Err(Refusal::Unexpected);
        }
        entry.waiting_there -= 1;
        self.table.set(recipient, entry);
        Ok(Taken {
            channel: Some(recipient),
            reply: None,
        })
    }

    /// Asks for a request.
    #[tactic(auto, using(crate::proofs::Asking::request_sent))]
    pub(super) fn ask_request<'a>(
        &mut self,
        channel: u32,
        name: &'a [u8],
        want: bool,
        rest: &'a [u8],
    ) -> Result<MessageToSend<'a>, AskRefusal>
        // If it fails.
        ensures refused { IfErr result (λ e. first_refusal (send_checks false false self.old
            (Ask.AskRequest channel name.now want rest.now)) ≡ Some e) }
        ensures kept { OnErr result (self.new ≡ self.old) }
        // What it does.
        ensures passed { OnOk result (first_refusal (send_checks false false self.old (Ask.AskRequest channel name.now want rest.now))
            ≡ None) }
        ensures sent { IfOk result (λ t. SendsRow self.old (Ask.AskRequest channel name.now want rest.now) t self.new) }
        ensures fits { IfOk result (λ t. Fits t.message) }
        ensures short { IfOk result (λ t. payload_size (meaning t.message) ≤ longest_payload) }
    {
        let Some(mut entry) = self.table.get(channel) else {
            return Err(AskRefusal::NoChannel);
        };
        let Some(waiting_there) = count_where(want, entry.waiting_there, MOST_WAITING_REQUESTS)
        else {
            return Err(AskRefusal::Busy);
        };
        if !entry.is_open() {
            return Err(AskRefusal::NoChannel);
        }
        if entry.close_said {
            return Err(AskRefusal::Ended);
        }
        if is_too_long_with(6, name, rest) {
            return Err(AskRefusal::TooLong);
        }
        entry.waiting_there = waiting_there;
        self.table.set(channel, entry);
        Ok(MessageToSend {
            channel: Some(channel),
            message: Message::ChannelRequest {
                recipient: entry.peer_number,
                name,
                want,
                rest,
            },
        })
    }

    /// Asks for a reply to the oldest request that waits.
    #[tactic(auto, using(crate::proofs::Asking::reply_sent))]
    pub(super) fn ask_reply<'a>(
        &mut self,
        channel: u32,
        success: bool,
    ) -> Result<MessageToSend<'a>, AskRefusal>
        // If it fails.
        ensures refused { IfErr result (λ e. first_refusal (send_checks false false self.old (Ask.AskReply channel success))
            ≡ Some e) }
        ensures kept { OnErr result (self.new ≡ self.old) }
        // What it does.
        ensures passed { OnOk result (first_refusal (send_checks false false self.old (Ask.AskReply channel success)) ≡ None) }
        ensures sent { IfOk result (λ t. SendsRow self.old (Ask.AskReply channel success) t self.new) }
        ensures fits { IfOk result (λ t. Fits t.message) }
        ensures short { IfOk result (λ t. payload_size (meaning t.message) ≤ longest_payload) }
    {
        let Some(mut entry) = self.open_entry(channel) else {
            return Err(AskRefusal::NoChannel);
        };
        if entry.close_said {
            return Err(AskRefusal::Ended);
        }
        if entry.waiting_here == 0 {
            return Err(AskRefusal::NothingOwed);
        }
        entry.waiting_here -= 1;
        self.table.set(channel, entry);
        Ok(MessageToSend {
            channel: Some(channel),
            message: reply_message(entry.peer_number, success),
        })
    }
}

// CHANNEL_SUCCESS or CHANNEL_FAILURE.
fn reply_message<'a>(recipient: u32, success: bool) -> Message<'a>
    ensures means { meaning result ≡ reply_message recipient success }
    ensures fits { Fits result }
    ensures short { payload_size (meaning result) ≤ longest_payload }
{
    if success {
        Message::ChannelSuccess { recipient }
    } else {
        Message::ChannelFailure { recipient }
    }
}
