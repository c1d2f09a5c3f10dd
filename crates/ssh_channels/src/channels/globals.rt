//! Global requests and their replies (RFC 4254 section 4).

ghost use Rattle.std.specs.Prelude.{◌≡◌, ℕ, Bool, ◌≤◌, List, Some, None, IfOk, IfErr, OnOk, OnErr, true, false, []};
ghost use Rattle.ssh_message.specs.Meaning.{meaning};
ghost use Rattle.ssh_message.specs.Written.{Fits};
ghost use Rattle.ssh_model.specs.Protocol.Bounds.{longest_payload};
ghost use Rattle.ssh_model.specs.Protocol.Wire.Message as Msg;
ghost use Rattle.ssh_model.specs.Laws.Sizes.{payload_size};
ghost use Rattle.ssh_model.specs.Protocol.Sessions.Items as Ask;
ghost use Rattle.ssh_model.specs.Protocol.Sessions.Refusals.{first_refusal};
ghost use Rattle.ssh_model.specs.State.Channels.Kept.{send_checks, take_checks};
ghost use Rattle.ssh_channels.specs.Rows.{SendsRow, TakesRow};

use super::sizes::{is_too_long, is_too_long_with};
use super::{Channels, count_where};
use crate::{MessageToSend, Taken};
use ssh_message::Message;
use ssh_types::bounds::MOST_WAITING_GLOBALS;
use ssh_types::{AskRefusal, Refusal};

impl Channels {
    /// GLOBAL_REQUEST. Whether it is refused does not depend on its texts.
    #[tactic(auto, using(crate::proofs::Taking::global_taken))]
    pub(super) fn take_global(&mut self, want: bool) -> Result<Taken, Refusal>
        ensures refused { IfErr result (λ e. first_refusal (take_checks false self.old (Msg.GlobalRequest [] want [])) ≡ Some e) }
        ensures kept { OnErr result (self.new ≡ self.old) }
        ensures passed { OnOk result (first_refusal (take_checks false self.old (Msg.GlobalRequest [] want [])) ≡ None) }
        ensures taken { IfOk result (λ t. (is_blocked : Bool) (name rest : List ℕ) →
            TakesRow is_blocked self.old (Msg.GlobalRequest name want rest) t self.new) }
    {
        let Some(waiting) = count_where(want, self.globals_here, MOST_WAITING_GLOBALS) else {
            return Err(Refusal::OwedFull);
        };
        self.globals_here = waiting;
        Ok(Taken {
            channel: None,
            reply: None,
        })
    }

    /// REQUEST_SUCCESS or REQUEST_FAILURE.
    #[tactic(auto, using(crate::proofs::Taking::global_done, crate::proofs::Taking::global_failed))]
    pub(super) fn take_global_reply(&mut self) -> Result<Taken, Refusal>
        // If it fails.
        ensures refused { IfErr result (λ e. first_refusal (take_checks false self.old (Msg.RequestFailure)) ≡ Some e) }
        ensures kept { OnErr result (self.new ≡ self.old) }
        // What it does.
        ensures passed { OnOk result (first_refusal (take_checks false self.old (Msg.RequestFailure)) ≡ None) }
        ensures success { IfOk result (λ t. (is_blocked : Bool) (rest : List ℕ) →
            TakesRow is_blocked self.old (Msg.RequestSuccess rest) t self.new) }
        ensures failure { IfOk result (λ t. (is_blocked : Bool) → TakesRow is_blocked self.old Msg.RequestFailure t self.new) }
    {
        if self.globals_there == 0 {
            return Err(Refusal::Unexpected);
        }
        self.globals_there -= 1;
        Ok(Taken {
            channel: None,
            reply: None,
        })
    }

    /// Asks for a global request.
    #[tactic(auto, using(crate::proofs::Asking::global_sent))]
    pub(super) fn ask_global<'a>(
        &mut self,
        name: &'a [u8],
        want: bool,
        rest: &'a [u8],
    ) -> Result<MessageToSend<'a>, AskRefusal>
        // If it fails.
        ensures refused { IfErr result (λ e. first_refusal (send_checks false false self.old (Ask.AskGlobal name.now want rest.now))
            ≡ Some e) }
        ensures kept { OnErr result (self.new ≡ self.old) }
        // What it does.
        ensures passed { OnOk result (first_refusal (send_checks false false self.old (Ask.AskGlobal name.now want rest.now)) ≡ None) }
        ensures sent { IfOk result (λ t. SendsRow self.old (Ask.AskGlobal name.now want rest.now) t self.new) }
        ensures fits { IfOk result (λ t. Fits t.message) }
        ensures short { IfOk result (λ t. payload_size (meaning t.message) ≤ longest_payload) }
    {
        let Some(waiting) = count_where(want, self.globals_there, MOST_WAITING_GLOBALS) else {
            return Err(AskRefusal::Busy);
        };
        if is_too_long_with(2, name, rest) {
            return Err(AskRefusal::TooLong);
        }
        self.globals_there = waiting;
        Ok(MessageToSend {
            channel: None,
            message: Message::GlobalRequest { name, want, rest },
        })
    }

    /// Asks for a reply to the oldest global request that waits.
    #[tactic(auto, using(crate::proofs::Asking::global_reply_sent))]
    pub(super) fn ask_global_reply<'a>(
        &mut self,
        success: bool,
        rest: &'a [u8],
    ) -> Result<MessageToSend<'a>, AskRefusal>
        // If it fails.
        ensures refused { IfErr result (λ e. first_refusal (send_checks false false self.old (Ask.AskGlobalReply success rest.now))
            ≡ Some e) }
        ensures kept { OnErr result (self.new ≡ self.old) }
        // What it does.
        ensures passed { OnOk result (first_refusal (send_checks false false self.old (Ask.AskGlobalReply success rest.now)) ≡ None) }
        ensures sent { IfOk result (λ t. SendsRow self.old (Ask.AskGlobalReply success rest.now) t self.new) }
        ensures fits { IfOk result (λ t. Fits t.message) }
        ensures short { IfOk result (λ t. payload_size (meaning t.message) ≤ longest_payload) }
    {
        if success {
            return self.ask_global_success(rest);
        }
        if self.globals_here == 0 {
            return Err(AskRefusal::NothingOwed);
        }
        self.globals_here -= 1;
        Ok(MessageToSend {
            channel: None,
            message: Message::RequestFailure,
        })
    }

    // Asks for REQUEST_SUCCESS.
    #[tactic(auto, using(crate::proofs::Asking::global_reply_sent))]
    fn ask_global_success<'a>(&mut self, rest: &'a [u8]) -> Result<MessageToSend<'a>, AskRefusal>
        // If it fails.
        ensures refused { IfErr result (λ e. first_refusal (send_checks false false self.old (Ask.AskGlobalReply true rest.now))
            ≡ Some e) }
        ensures kept { OnErr result (self.new ≡ self.old) }
        // What it does.
        ensures passed { OnOk result (first_refusal (send_checks false false self.old (Ask.AskGlobalReply true rest.now)) ≡ None) }
        ensures sent { IfOk result (λ t. SendsRow self.old (Ask.AskGlobalReply true rest.now) t self.new) }
        ensures fits { IfOk result (λ t. Fits t.message) }
        ensures short { IfOk result (λ t. payload_size (meaning t.message) ≤ longest_payload) }
    {
        if self.globals_here == 0 {
            return Err(AskRefusal::NothingOwed);
        }
        if is_too_long(1, rest) {
            return Err(AskRefusal::TooLong);
        }
        self.globals_here -= 1;
        Ok(MessageToSend {
            channel: None,
            message: Message::RequestSuccess { rest },
        })
    }
}
