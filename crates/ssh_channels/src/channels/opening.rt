//! The opening of channels (RFC 4254 section 5.1).

ghost use Rattle.std.specs.Prelude.{◌≡◌, ◌≤◌, ℕ, Bool, List, Some, None, IfOk, IfErr, OnOk, OnErr, option_map, true, false, []};
ghost use Rattle.ssh_message.specs.Meaning.{meaning};
ghost use Rattle.ssh_message.specs.Written.{Fits};
ghost use Rattle.ssh_model.specs.Protocol.Bounds.{longest_payload};
ghost use Rattle.ssh_model.specs.Protocol.Wire.Message as Msg;
ghost use Rattle.ssh_model.specs.Laws.Sizes.{payload_size};
ghost use Rattle.ssh_model.specs.Protocol.Sessions.Items as Ask;
ghost use Rattle.ssh_model.specs.declared.ask_refusal.AskRefusal.TheVariants as ask_refusals;
ghost use Rattle.ssh_model.specs.declared.refusal.Refusal.TheVariants as refusals;
ghost use Rattle.ssh_model.specs.Protocol.Sessions.Refusals.{first_refusal};
ghost use Rattle.ssh_model.specs.State.Channels.Places.{at, is_at, is_opening, is_waiting_place};
ghost use Rattle.ssh_model.specs.State.Channels.Kept as DueReply;
ghost use Rattle.ssh_model.specs.State.Channels.Kept.{is_queue_full, is_table_full, opening_checks, owed_where, send_checks};
ghost use Rattle.ssh_model.specs.State.Channels.Kept.{sent_at_once, take_checks};
ghost use Rattle.ssh_channels.specs.Entries.{place_of};
ghost use Rattle.ssh_channels.specs.Rows.{IsAskError, IsTakeError, SendsRow, TakesRow};
ghost use Rattle.ssh_channels.specs.Values.{reply_of};

use super::Channels;
use super::sizes::{is_max_packet, is_too_long, is_too_long_with};
use crate::entry::Entry;
use crate::{MessageToSend, Reply, Taken};
use ssh_message::Message;
use ssh_types::{AskRefusal, CallError, Refusal};
use std::alloc::AllocError;

impl Channels {
    /// CHANNEL_OPEN. Whether it is refused does not depend on its texts.
    #[tactic(auto, using(crate::proofs::Taking::open_declined))]
    pub(super) fn take_open(
        &mut self,
        blocked: bool,
        sender: u32,
        window: u32,
        max_packet: u32,
    ) -> Result<Taken, CallError<Refusal>>
        ensures refused { IfErr result (λ e. IsTakeError blocked self.old (Msg.ChannelOpen [] sender window max_packet []) e) }
        ensures kept { OnErr result (self.new ≡ self.old) }
        ensures passed { OnOk result (first_refusal (take_checks blocked self.old
            (Msg.ChannelOpen [] sender window max_packet [])) ≡ None) }
        ensures taken { IfOk result (λ t. (kind rest : List ℕ) →
            TakesRow blocked self.old (Msg.ChannelOpen kind sender window max_packet rest) t self.new) }
    {
        if !self.is_table_full() {
            return match self.accept_open(sender, window, max_packet) {
                Ok(taken) => Ok(taken),
                Err(_) => Err(CallError::Memory),
            };
        }
        match self.decline_open(blocked, sender) {
            Ok(taken) => Ok(taken),
            Err(refusal) => Err(CallError::Refused(refusal)),
        }
    }

    /// CHANNEL_OPEN when no number is free: it is refused, at once or, within a key exchange, later.
    fn decline_open(&mut self, blocked: bool, sender: u32) -> Result<Taken, Refusal>
        // If it fails.
        ensures refused { IfErr result (λ e. e ≡ refusals.OwedFull) }
        ensures many { OnErr result (is_queue_full blocked self.old.owed ≡ true) }
        ensures kept { OnErr result (self.new ≡ self.old) }
        // What it does.
        ensures few { OnOk result (is_queue_full blocked self.old.owed ≡ false) }
        ensures channel { IfOk result (λ t. t.channel ≡ None) }
        ensures reply { IfOk result (λ t. option_map reply_of t.reply ≡ sent_at_once blocked (DueReply.RefusesOpen sender)) }
        ensures owed { OnOk result (self.new ≡ owed_where blocked (DueReply.RefusesOpen sender) self.old) }
    {
        let reply = Reply::OpenFailure { recipient: sender };
        if !blocked {
            return Ok(Taken {
                channel: None,
                reply: Some(reply),
            });
        }
        if self.is_queue_full(blocked) {
            return Err(Refusal::OwedFull);
        }
        self.owe(reply);
        Ok(Taken {
            channel: None,
            reply: None,
        })
    }

    /// CHANNEL_OPEN when a number is free: the channel waits there for this end's answer.
    #[tactic(auto, using(crate::proofs::Taking::opened))]
    fn accept_open(
        &mut self,
        sender: u32,
        window: u32,
        max_packet: u32,
    ) -> Result<Taken, AllocError>
        requires { is_table_full self.old.places ≡ false }
        ensures kept { OnErr result (self.new ≡ self.old) }
        ensures taken { IfOk result (λ t. (is_blocked : Bool) (kind rest : List ℕ) →
            TakesRow is_blocked self.old (Msg.ChannelOpen kind sender window max_packet rest) t self.new) }
    {
        let entry = Entry::waiting(sender, window, max_packet);
        let number = self.table.insert(entry)?;
        Ok(Taken {
            channel: Some(number),
            reply: None,
        })
    }

    // The channel of an answer to this end's OPEN.
    fn opening_entry(&self, number: u32) -> Result<Entry, Refusal>
        ensures found { IfOk result (λ entry. at self.now.places number ≡ Some (place_of entry)) }
        ensures opening { IfOk result (λ entry. is_opening (place_of entry) ≡ true) }
        ensures refused { IfErr result (λ e. first_refusal (opening_checks (at self.now.places number)) ≡ Some e) }
    {
        match self.table.get(number) {
            Some(entry) if entry.is_own && !entry.is_answered => Ok(entry),
            Some(_) => Err(Refusal::Unexpected),
            None => Err(Refusal::UnknownChannel),
        }
    }

    /// CHANNEL_OPEN_CONFIRMATION.
    #[tactic(auto, using(crate::proofs::Taking::confirmed))]
    pub(super) fn take_confirmation(
        &mut self,
        recipient: u32,
        sender: u32,
        window: u32,
        max_packet: u32,
    ) -> Result<Taken, Refusal>
        ensures refused { IfErr result (λ e. first_refusal (opening_checks (at self.old.places recipient)) ≡ Some e) }
        ensures kept { OnErr result (self.new ≡ self.old) }
        ensures passed { OnOk result (first_refusal (opening_checks (at self.old.places recipient)) ≡ None) }
        ensures taken { IfOk result (λ t. (is_blocked : Bool) (rest : List ℕ) →
            TakesRow is_blocked self.old (Msg.ChannelOpenConfirmation recipient sender window max_packet rest) t self.new) }
    {
        let mut entry = self.opening_entry(recipient)?;
        entry.is_answered = true;
        entry.peer_number = sender;
        entry.send_window = window;
        entry.max_packet_there = max_packet;
        self.table.set(recipient, entry);
        Ok(Taken {
            channel: Some(recipient),
            reply: None,
        })
    }

    /// CHANNEL_OPEN_FAILURE.
    #[tactic(auto, using(crate::proofs::Taking::open_failed))]
    pub(super) fn take_failure(&mut self, recipient: u32) -> Result<Taken, Refusal>
        ensures refused { IfErr result (λ e. first_refusal (opening_checks (at self.old.places recipient)) ≡ Some e) }
        ensures kept { OnErr result (self.new ≡ self.old) }
        ensures passed { OnOk result (first_refusal (opening_checks (at self.old.places recipient)) ≡ None) }
        ensures taken { IfOk result (λ t. (is_blocked : Bool) (reason : ℕ) (description language : List ℕ) →
            TakesRow is_blocked self.old (Msg.ChannelOpenFailure recipient reason description language) t self.new) }
    {
        let _entry = self.opening_entry(recipient)?;
        self.table.remove(recipient);
        Ok(Taken {
            channel: Some(recipient),
            reply: None,
        })
    }

    /// Asks for a new channel.
    #[tactic(auto, using(crate::proofs::Asking::opening_sent))]
    pub(super) fn ask_open<'a>(
        &mut self,
        kind: &'a [u8],
        window: u32,
        max_packet: u32,
        rest: &'a [u8],
    ) -> Result<MessageToSend<'a>, CallError<AskRefusal>>
        // If it fails.
        ensures refused { IfErr result (λ e. IsAskError false false self.old (Ask.AskOpen kind.now window max_packet rest.now) e) }
        ensures kept { OnErr result (self.new ≡ self.old) }
        // What it does.
        ensures passed { OnOk result (first_refusal (send_checks false false self.old (Ask.AskOpen kind.now window max_packet rest.now))
            ≡ None) }
        ensures sent { IfOk result (λ t. SendsRow self.old (Ask.AskOpen kind.now window max_packet rest.now) t self.new) }
        ensures fits { IfOk result (λ t. Fits t.message) }
        ensures short { IfOk result (λ t. payload_size (meaning t.message) ≤ longest_payload) }
    {
        if self.is_table_full() {
            return Err(CallError::Refused(AskRefusal::TableFull));
        }
        if !is_max_packet(max_packet) {
            return Err(CallError::Refused(AskRefusal::TooMuch));
        }
        if is_too_long_with(13, kind, rest) {
            return Err(CallError::Refused(AskRefusal::TooLong));
        }
        let number = match self.table.insert(Entry::opening(window, max_packet)) {
            Ok(number) => number,
            Err(_) => return Err(CallError::Memory),
        };
        Ok(MessageToSend {
            channel: Some(number),
            message: Message::ChannelOpen {
                kind,
                sender: number,
                window,
                max: max_packet,
                rest,
            },
        })
    }

    // The channel that the peer opened, of an ask that answers it.
    fn waiting_entry(&self, number: u32) -> Result<Entry, AskRefusal>
        ensures found { IfOk result (λ entry. at self.now.places number ≡ Some (place_of entry)) }
        ensures waiting { IfOk result (λ entry. is_waiting_place (place_of entry) ≡ true) }
        ensures refused { IfErr result (λ e. e ≡ ask_refusals.NoChannel) }
        ensures none { OnErr result (is_at is_waiting_place (at self.now.places number) ≡ false) }
    {
        match self.table.get(number) {
            Some(entry) if !entry.is_own && !entry.is_answered => Ok(entry),
            _ => Err(AskRefusal::NoChannel),
        }
    }

    /// Asks for the confirmation of a channel.
    #[tactic(auto, using(crate::proofs::Asking::confirmation_sent))]
    pub(super) fn ask_confirm<'a>(
        &mut self,
        channel: u32,
        window: u32,
        max_packet: u32,
        rest: &'a [u8],
    ) -> Result<MessageToSend<'a>, AskRefusal>
        // If it fails.
        ensures refused { IfErr result (λ e. first_refusal (send_checks false false self.old
            (Ask.AskConfirm channel window max_packet rest.now)) ≡ Some e) }
        ensures kept { OnErr result (self.new ≡ self.old) }
        // What it does.
        ensures passed { OnOk result (first_refusal (send_checks false false self.old (Ask.AskConfirm channel window max_packet rest.now))
            ≡ None) }
        ensures sent { IfOk result (λ t. SendsRow self.old (Ask.AskConfirm channel window max_packet rest.now) t self.new) }
        ensures fits { IfOk result (λ t. Fits t.message) }
        ensures short { IfOk result (λ t. payload_size (meaning t.message) ≤ longest_payload) }
    {
        let mut entry = self.waiting_entry(channel)?;
        if !is_max_packet(max_packet) {
            return Err(AskRefusal::TooMuch);
        }
        if is_too_long(17, rest) {
            return Err(AskRefusal::TooLong);
        }
        entry.is_answered = true;
        entry.receive_window = window;
        entry.max_packet_here = max_packet;
        self.table.set(channel, entry);
        Ok(MessageToSend {
            channel: Some(channel),
            message: Message::ChannelOpenConfirmation {
                recipient: entry.peer_number,
                sender: channel,
                window,
                max: max_packet,
                rest,
            },
        })
    }

    /// Asks for the refusal of a channel.
    #[tactic(auto, using(crate::proofs::Asking::failure_sent))]
    pub(super) fn ask_refuse<'a>(
        &mut self,
        channel: u32,
        reason: u32,
    ) -> Result<MessageToSend<'a>, AskRefusal>
        // If it fails.
        ensures refused { IfErr result (λ e. first_refusal (send_checks false false self.old (Ask.AskRefuse channel reason))
            ≡ Some e) }
        ensures kept { OnErr result (self.new ≡ self.old) }
        // What it does.
        ensures passed { OnOk result (first_refusal (send_checks false false self.old (Ask.AskRefuse channel reason)) ≡ None) }
        ensures sent { IfOk result (λ t. SendsRow self.old (Ask.AskRefuse channel reason) t self.new) }
        ensures fits { IfOk result (λ t. Fits t.message) }
        ensures short { IfOk result (λ t. payload_size (meaning t.message) ≤ longest_payload) }
    {
        let entry = self.waiting_entry(channel)?;
        self.table.remove(channel);
        Ok(MessageToSend {
            channel: Some(channel),
            message: Message::ChannelOpenFailure {
                recipient: entry.peer_number,
                reason,
                description: b"",
                language: b"",
            },
        })
    }
}
