//! An end of either role, with the values that a program keeps next to it.

ghost use Rattle.std.specs.Prelude.{◌≡◌, ◌+◌, ◌≤◌, ◌++◌, ◌∷◌, cond, IfErr, IfOk, IfSome, List, None, OnErr, OnOk, [], drop, false, length};
ghost use Rattle.std.specs.Prelude.{nat_le, true, ℕ};
ghost use Rattle.std.specs.VecDeque.{deque_capacity, deque_len};
ghost use Rattle.divrelca_c.specs.Embedded.Flows.{flows_of};
ghost use Rattle.divrelca_c.specs.Embedded.Forms.{IsAsked, fault_of, form_asks};
ghost use Rattle.divrelca_c.specs.Embedded.Output.{waiting_of};
ghost use Rattle.divrelca_c.specs.Embedded.Padding.{PadsOn};
ghost use Rattle.divrelca_c.specs.Embedded.Performing.{Acts, IsLeft, IsMade, acting_of};
ghost use Rattle.divrelca_c.specs.Embedded.Queues.{IsMadeFor, IsOldestMade, asked_by, is_early, is_past, put_in};
ghost use Rattle.divrelca_c.specs.Embedded.Taking.{TakesStep};
ghost use Rattle.divrelca_c.specs.Embedded.Windows.{room_on};
ghost use Rattle.ssh_end_machine.specs.Asking.{OnAnswered};
ghost use Rattle.ssh_end_machine.specs.Ends.{sending_from, sending_to};
ghost use Rattle.ssh_end_machine.specs.Stands.{FeedsTo, StandsAt};
ghost use Rattle.ssh_end_machine.specs.Steps.{Shows, shown_by};
ghost use Rattle.ssh_end_machine.specs.Turn.{TurnShows, channels_in, payloads_in};
ghost use Rattle.ssh_end_machine.specs.declared.step.Step.{Step};
ghost use Rattle.ssh_model.specs.Protocol.Sessions.Items.{Item};
ghost use Rattle.ssh_model.specs.declared.ask_refusal.AskRefusal.TheVariants as AskRefusal;
ghost use Rattle.ssh_model.specs.Protocol.Sessions.Parties.{Parties};
ghost use Rattle.ssh_model.specs.State.TransportLayer.Kept.{after_fed, can_be_fed};
ghost use Rattle.ssh_transport_machine.specs.Padding.{PadsTo};

use crate::embedded::ahead::Ahead;
use crate::embedded::ask_form::{AskForm, FormFault};
use crate::embedded::flows::Flows;
use crate::embedded::noted::Noted;
use crate::embedded::waiting::{Queued, Waiting};
use ssh_end::{Ask, AskStep, End, EndRole, Fault, Turn};
use ssh_packet::{Filler, Sealing};
use ssh_transport::Role;
use ssh_types::AskRefusal;
use std::alloc::{AllocError, Global};
use std::collections::VecDeque;
use std::mem::replace;

/// An end, with the bytes for its peer that are not written yet, the asks that wait, and the account of its channels' windows.
pub struct Embedded<R: EndRole> {
    /// The end.
    pub end: End<R>,
    /// The bytes that it put out, of which the first `gone` are written.
    pub out: Vec<u8>,
    /// How many of them are written. They are dropped once they are half of all, so that no more bytes are moved than were written.
    pub(crate) gone: usize,
    // The public key that its user signs with, as it goes over the wire. A server has none.
    pub(crate) key: Option<[u8; 51]>,
    // The oldest first.
    pub(crate) waiting: VecDeque<Queued>,
    pub(crate) flows: Flows,
    // Whose key or password was asked for, and who was set. A client has nobody here.
    pub(crate) noted: Noted,
    // The packet that was looked at last. It is there if the program answers in its own time.
    pub(crate) ahead: Option<Ahead>,
}

impl<R: EndRole> Drop for Embedded<R> {
    fn drop(self) {
        let Embedded {
            end: _,
            out: _,
            gone: _,
            key: _,
            waiting: _,
            flows: _,
            noted: _,
            ahead: _,
        } = self;
    }
}

impl<R: EndRole> Embedded<R> {
    /// The same as `ssh_end::End::take_step`. Bytes put out go after those that wait, and the account of the channels' windows follows the
    /// events. If the key or password of a user is asked for, the user is noted, for `Server::set_user`.
    ///
    /// # Errors
    ///
    /// Those of `ssh_end::End::take`.
    pub fn take_step(&mut self, bytes: &[u8]) -> Result<usize, Fault>
        ensures { TakesStep R.EndRole R.Exchange.Role R.Exchange.Sealing.crypto R.Exchange.Filler.gives self.old bytes.now result self.new }
    {
        let used = self.end.take_step(bytes, &mut self.out)?;
        let turn = self.end.last_turn();
        self.noted.hear(&turn);
        self.flows.hear(turn.told);
        Ok(used)
    }

    /// The turn of the last `take_step`. After `ask_step`, `send` and `work` it shows that nothing was taken.
    pub fn last_turn(&self) -> Turn<'_>
        ensures shows { (items : List Item) → Shows (shown_by self.now.end.step self.now.end.machine) self.now.end.step items →
            TurnShows result items }
        ensures more { self.now.end.step ≡ Step.More → TurnShows result [] }
        ensures used { result.used ≡ self.now.end.used }
        ensures sent { payloads_in result.sent ≡ self.now.end.sent }
        ensures channels { channels_in result.sent ≡ self.now.end.channels }
    {
        self.end.last_turn()
    }

    /// The same as `ssh_end::End::ask_step`. Bytes put out go after those that wait, and the account of the channels' windows follows the
    /// ask.
    ///
    /// # Errors
    ///
    /// Those of `ssh_end::End::ask`.
    pub fn ask_step(&mut self, ask: &Ask<'_>) -> Result<AskStep, Fault>
        ensures acts { Acts R.EndRole R.Exchange.Role R.Exchange.Sealing.crypto R.Exchange.Filler.gives (acting_of self.old) ask.now
            result (acting_of self.new) }
        ensures same { self.new ≡ record self.old { end = self.new.end; out = self.new.out; flows = self.new.flows } }
    {
        let done = self.end.ask_step(ask, &mut self.out);
        if let Ok(step) = done {
            self.flows.note(ask, step);
        }
        done
    }

    /// Does what a form asks for.
    ///
    /// # Errors
    ///
    /// Those of `AskForm::ask`, and nothing changes. Otherwise the answer is that of `ask_step`.
    pub fn ask(&mut self, form: &AskForm<'_>) -> Result<Result<AskStep, Fault>, FormFault>
        // What is done if the form is an ask.
        ensures asked { IfOk result (λ done. IsAsked (form_asks form.now self.old.key) (λ asked.
            Acts R.EndRole R.Exchange.Role R.Exchange.Sealing.crypto R.Exchange.Filler.gives (acting_of self.old) asked done
            (acting_of self.new))) }
        ensures padded { IfOk result (λ done. OnAnswered done (PadsTo R.Exchange.Sealing.crypto R.Exchange.Filler.gives
            (sending_from self.old.end self.old.out.items) (sending_to self.new.end self.new.out.items))) }
        // If it is none.
        ensures none { OnErr result (form_asks form.now self.old.key ≡ None) }
        ensures why { IfErr result (λ why. why ≡ fault_of form.now) }
        ensures unchanged { OnErr result (self.new ≡ self.old) }
        // What stays.
        ensures same { self.new ≡ record self.old { end = self.new.end; out = self.new.out; flows = self.new.flows } }
    {
        let key = self.key;
        let ask = form.ask(&key)?;
        Ok(self.ask_step(&ask))
    }

    /// Tests whether a form is an ask of this end.
    ///
    /// # Errors
    ///
    /// Those of `AskForm::ask`.
    pub fn is_ask(&self, form: &AskForm<'_>) -> Result<(), FormFault>
        ensures is { OnOk result (form_asks form.now self.now.key ≡ None → ⊥) }
        ensures none { OnErr result (form_asks form.now self.now.key ≡ None) }
        ensures why { IfErr result (λ why. why ≡ fault_of form.now) }
    {
        match form.ask(&self.key) {
            Ok(_) => Ok(()),
            Err(fault) => Err(fault),
        }
    }

    /// The same as `ssh_end::End::feed_material`.
    pub fn feed(&mut self, cookie: [u8; 16], secret: [u8; 32]) -> bool
        // Whether the pair is kept, and what changes by it.
        ensures fed { result ≡ can_be_fed self.old.end.machine.kept }
        ensures kept { result ≡ true → self.new.end.machine ≡ record self.old.end.machine
            { kept = after_fed cookie secret self.old.end.machine.kept } }
        ensures rest { self.new.end ≡ record self.old.end { machine = self.new.end.machine } }
        ensures unchanged { result ≡ false → self.new ≡ self.old }
        // The next place of a run.
        ensures placed { (p : Parties R.Exchange.Sealing.Key) (history : List Item) →
            StandsAt R.EndRole R.Exchange.Role p history self.old.end →
            FeedsTo R.EndRole R.Exchange.Role p history cookie secret result self.new.end }
        // What stays.
        ensures same { self.new ≡ record self.old { end = self.new.end } }
    {
        self.end.feed_material(cookie, secret)
    }

    /// Tests whether an exchange of keys is due.
    pub fn rekey_due(&self) -> bool
        ensures { result ≡ nat_le self.now.end.machine.kept.settings.epoch_limit self.now.end.machine.kept.sending.count }
    {
        self.end.rekey_due()
    }

    /// Tests whether the end is over.
    pub fn is_over(&self) -> bool
        ensures { result ≡ self.now.end.machine.kept.dead }
    {
        self.end.is_dead()
    }

    /// How many bytes of data fit into the peer's window on a channel; none if the channel is not confirmed.
    pub fn room(&self, channel: u32) -> u32
        ensures { result ≡ room_on self.now channel }
    {
        self.end.channels().room(channel).unwrap_or(0)
    }

    /// The bytes that wait to be written.
    pub fn output(&self) -> &[u8]
        ensures { result.now ≡ waiting_of self.now }
    {
        let gone = self.gone.min(self.out.len());
        self.out.as_slice().split_at(gone).1
    }

    /// So many of the bytes that wait were written. They are dropped from `out` once half of it is written. So the time for all of them is
    /// linear in their number, in however many pieces they are written.
    #[tactic(auto, using(crate::proofs::Written::left))]
    pub fn written(&mut self, count: usize)
        ensures waits { waiting_of self.new ≡ drop count (waiting_of self.old) }
        ensures half { self.new.gone + self.new.gone ≤ length self.new.out.items }
        ensures same { self.new ≡ record self.old { out = self.new.out; gone = self.new.gone } }
    {
        let gone = self.gone.saturating_add(count).min(self.out.len());
        if gone < self.out.len() - gone {
            self.gone = gone;
        } else {
            drop(self.out.drain(..gone));
            self.gone = 0;
        }
    }

    /// Puts an ask after those that wait. If it names a channel, it is for the one that has this number now (`Flows::begun`).
    ///
    /// # Errors
    ///
    /// Only if memory is refused: nothing changes.
    pub fn queue(&mut self, ask: Waiting) -> Result<(), AllocError>
        ensures queued { OnOk result (self.new.waiting.items ≡ self.old.waiting.items ++ put_in ask (flows_of self.old.flows) ∷ []) }
        ensures kept { OnErr result (self.new.waiting.items ≡ self.old.waiting.items) }
        ensures full { OnErr result (deque_capacity self.old.waiting ≤ deque_len self.old.waiting) }
        ensures same { self.new ≡ record self.old { waiting = self.new.waiting } }
    {
        let begun = self.flows.begun(ask.channel());
        self.waiting
            .push_back(Queued { ask, begun })
            .map_err(|_| AllocError)
    }

    /// How many asks wait.
    pub fn queued(&self) -> usize
        ensures { result ≡ deque_len self.now.waiting }
    {
        self.waiting.len()
    }

    /// Makes the oldest ask that waits. If it comes too early (`is_later`), it goes on waiting; otherwise it waits no longer. `None` if no
    /// ask waits.
    ///
    /// # Errors
    ///
    /// Those of `ask_step`; `NoChannel`, and nothing else changes, if the channel for which the ask was queued is over and another one began
    /// at its number.
    #[tactic(auto, using(crate::proofs::OfEmbedded::Oldest::oldest_made))]
    pub fn work(&mut self, alloc: Global) -> Option<Result<AskStep, Fault>>
        // If none waits.
        ensures none { result ≡ None → self.old.waiting.items ≡ [] }
        ensures unchanged { result ≡ None → self.new ≡ self.old }
        // What is done on the oldest, and what is put out and with which padding.
        ensures made { IfSome result (λ done. IsOldestMade self.old.waiting.items (flows_of self.old.flows) self.old.key
            (λ asked. Acts R.EndRole R.Exchange.Role R.Exchange.Sealing.crypto R.Exchange.Filler.gives (acting_of self.old) asked done
            (acting_of self.new)) (IsLeft (acting_of self.old) done (acting_of self.new))) }
        ensures padded { IfSome result (λ done. OnOk done (PadsTo R.Exchange.Sealing.crypto R.Exchange.Filler.gives
            (sending_from self.old.end self.old.out.items) (sending_to self.new.end self.new.out.items))) }
        ensures chains { IfSome result (λ done. OnAnswered done (PadsOn R.Exchange.Sealing.crypto R.Exchange.Filler.gives
            self.old.end self.old.out.items self.new.end self.new.out.items)) }
        // What waits then.
        ensures waits { IfSome result (λ done. self.new.waiting.items ≡ cond (is_early done) self.old.waiting.items
            (drop 1 self.old.waiting.items)) }
        // What stays.
        ensures same { self.new ≡ record self.old {
          end = self.new.end;
          out = self.new.out;
          waiting = self.new.waiting;
          flows = self.new.flows;
        } }
    {
        let mut waiting = replace(&mut self.waiting, VecDeque::new(alloc));
        let Some(front) = waiting.front() else {
            self.waiting = waiting;
            return None;
        };
        let done = self.make(front);
        if !is_later(&done) {
            waiting.pop_front();
        }
        self.waiting = waiting;
        Some(done)
    }

    // Makes an ask that waits, if the channel for which it waits has its number still. Only asks are put there.
    #[tactic(auto, using(crate::specs::Embedded::PaddingLaws::pads_on, crate::specs::Embedded::PaddingLaws::pads_on_none))]
    fn make(&mut self, queued: &Queued) -> Result<AskStep, Fault>
        // What it does.
        ensures made { IsMadeFor (is_past queued.now (flows_of self.old.flows)) (asked_by queued.now.ask self.old.key)
            (λ asked. Acts R.EndRole R.Exchange.Role R.Exchange.Sealing.crypto R.Exchange.Filler.gives (acting_of self.old) asked result
            (acting_of self.new)) (IsLeft (acting_of self.old) result (acting_of self.new)) }
        ensures chains { OnAnswered result (PadsOn R.Exchange.Sealing.crypto R.Exchange.Filler.gives
            self.old.end self.old.out.items self.new.end self.new.out.items) }
        // Where the padding comes from.
        ensures padded { OnOk result (PadsTo R.Exchange.Sealing.crypto R.Exchange.Filler.gives
            (sending_from self.old.end self.old.out.items) (sending_to self.new.end self.new.out.items)) }
        // What stays.
        ensures same { self.new ≡ record self.old { end = self.new.end; out = self.new.out; flows = self.new.flows } }
    {
        if queued.begun != self.flows.begun(queued.ask.channel()) {
            return Err(Fault::Ask(AskRefusal::NoChannel));
        }
        self.make_ask(&queued.ask)
    }

    // Makes an ask, for whichever channel has its number.
    #[tactic(auto, using(crate::specs::Embedded::PaddingLaws::pads_on, crate::specs::Embedded::PaddingLaws::pads_on_none))]
    fn make_ask(&mut self, waiting: &Waiting) -> Result<AskStep, Fault>
        // What it does.
        ensures made { IsMade (asked_by waiting.now self.old.key)
            (λ asked. Acts R.EndRole R.Exchange.Role R.Exchange.Sealing.crypto R.Exchange.Filler.gives (acting_of self.old) asked result
            (acting_of self.new)) (IsLeft (acting_of self.old) result (acting_of self.new) AskRefusal.WrongSide) }
        ensures chains { OnAnswered result (PadsOn R.Exchange.Sealing.crypto R.Exchange.Filler.gives
            self.old.end self.old.out.items self.new.end self.new.out.items) }
        // Where the padding comes from.
        ensures padded { OnOk result (PadsTo R.Exchange.Sealing.crypto R.Exchange.Filler.gives
            (sending_from self.old.end self.old.out.items) (sending_to self.new.end self.new.out.items)) }
        // What stays.
        ensures same { self.new ≡ record self.old { end = self.new.end; out = self.new.out; flows = self.new.flows } }
    {
        match waiting {
            Waiting::Form(kept) => match self.ask(&kept.form()) {
                Ok(done) => done,
                Err(_) => Err(Fault::Ask(AskRefusal::WrongSide)),
            },
            Waiting::Known(ask) => self.ask_step(ask),
        }
    }
}

/// Tests whether an ask came too early: keys are being exchanged or have to be, or the ask needs something that is still to come.
pub fn is_later(done: &Result<AskStep, Fault>) -> bool
    ensures { result ≡ is_early done.now }
{
    matches!(
        done,
        Err(Fault::Ask(AskRefusal::NotYet | AskRefusal::Busy | AskRefusal::RekeyDue))
    )
}
