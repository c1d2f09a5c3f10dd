//! Data within the windows of both ends, and answers to events that a program does not know.

ghost use Rattle.std.specs.Prelude.{◌≡◌, ◌<◌, ◌≤◌, Err, IfErr, IfOk, OnErr, is_err, length};
ghost use Rattle.std.specs.Option.{option_map};
ghost use Rattle.std.specs.VecDeque.{deque_capacity, deque_len};
ghost use Rattle.divrelca_c.specs.Embedded.Padding.{PadsOn};
ghost use Rattle.divrelca_c.specs.Embedded.Flows.{flows_of};
ghost use Rattle.divrelca_c.specs.Embedded.Queues.{GivesBack, IsDeclined, IsOwed};
ghost use Rattle.divrelca_c.specs.Embedded.Sending.{SendsData};
ghost use Rattle.ssh_end_machine.specs.Asking.{OnAnswered, ask_of};
ghost use Rattle.ssh_end_machine.specs.Ends.{sending_from, sending_to};
ghost use Rattle.ssh_end_machine.specs.Steps.{shown_by};
ghost use Rattle.ssh_transport_machine.specs.Padding.{PadsTo};

use crate::embedded::state::Embedded;
use crate::embedded::waiting::Waiting;
use divrelca::{data_len, default_answer};
use ssh_channels::Ask as ChannelAsk;
use ssh_end::{Ask, EndRole, Fault};
use ssh_packet::{Filler, Sealing};
use ssh_transport::Role;
use ssh_types::{AskRefusal, CallError};
use std::alloc::AllocError;

impl<R: EndRole> Embedded<R> {
    /// Sends as many bytes of data as the peer's window, its largest packet and 32,768 bytes allow, in one packet, and answers how many.
    /// They are the first bytes of `body`, and extended data if a kind is given (RFC 4254 section 5.2). If nothing fits, nothing is sent.
    ///
    /// # Errors
    ///
    /// - `Ask`: the ask for the data is refused, by the first refusal that holds; `NoChannel` if the channel is not confirmed.
    /// - `Memory`: memory was refused, and the end is over.
    /// - `Dead`: the end was over before, or no sequence number was left for the data, and it is over now.
    #[tactic(auto, using(crate::specs::Embedded::PaddingLaws::pads_on, crate::specs::Embedded::PaddingLaws::pads_on_none))]
    pub fn send(&mut self, channel: u32, kind: Option<u32>, body: &[u8]) -> Result<usize, Fault>
        // What is done: which bytes are sent on which channel, and how many.
        ensures sends { SendsData R.EndRole R.Exchange.Role R.Exchange.Sealing.crypto R.Exchange.Filler.gives self.old channel kind
            body.now result self.new }
        ensures taken { IfOk result (λ taken. taken ≤ length body.now) }
        ensures none { IfOk result (λ taken. taken ≡ 0 → self.new ≡ self.old) }
        ensures chains { OnAnswered result (PadsOn R.Exchange.Sealing.crypto R.Exchange.Filler.gives
            self.old.end self.old.out.items self.new.end self.new.out.items) }
        // If it fails.
        ensures out { IfErr result (λ fault. (fault ≡ Fault.Dead → ⊥) → self.new.out.items ≡ self.old.out.items) }
        // Where the padding comes from.
        ensures padded { IfOk result (λ taken. 0 < taken → PadsTo R.Exchange.Sealing.crypto R.Exchange.Filler.gives
            (sending_from self.old.end self.old.out.items) (sending_to self.new.end self.new.out.items)) }
    {
        let Some(room) = self.end.channels().room(channel) else {
            return Err(Fault::Ask(AskRefusal::NoChannel));
        };
        let count = data_len(room, self.flows.max_packet(channel), body.len());
        if count == 0 {
            return Ok(0);
        }
        let data = ChannelAsk::Data {
            channel,
            kind,
            body: body.split_at(count).0,
        };
        let step = self.ask_step(&Ask::Connection(data))?;
        match step.refused {
            None => Ok(count),
            Some(_) => Err(Fault::Dead),
        }
    }

    /// Queues the answer that the peer is owed for the event that `last_turn` shows, if a program does not know that event. A channel is
    /// refused, and a request that wants a reply fails. If no answer is owed, nothing changes.
    ///
    /// # Errors
    ///
    /// Only if the queue is full and memory is refused: nothing changes.
    pub fn decline(&mut self) -> Result<(), AllocError>
        ensures declined { IsDeclined (shown_by self.old.end.step self.old.end.machine) self.old.end.step (is_err result)
            (flows_of self.old.flows) self.old.waiting.items self.new.waiting.items }
        ensures full { OnErr result (deque_capacity self.old.waiting ≤ deque_len self.old.waiting) }
        ensures same { self.new ≡ record self.old { waiting = self.new.waiting } }
    {
        match self.answer() {
            Some(answer) => self.queue(Waiting::Known(answer)),
            None => Ok(()),
        }
    }

    // The answer that the peer is owed for the event of the last turn.
    fn answer(&self) -> Option<Ask<'static>>
        ensures { IsOwed (shown_by self.now.end.step self.now.end.machine) self.now.end.step (option_map ask_of result) }
    {
        match self.end.last_turn().told {
            Some(told) => default_answer(&told),
            None => None,
        }
    }

    /// So many bytes of data that came on a channel are done with. Once half of its window is done with, an ask that gives the bytes back
    /// is queued, for this channel alone. The number means the channel that began there last.
    ///
    /// # Errors
    ///
    /// - `NoChannel`: the number is none of a channel. Nothing changes.
    /// - `Memory`: the queue is full, and memory was refused. The bytes count as done with, and the next call gives them back.
    pub fn consume(&mut self, channel: u32, bytes: usize) -> Result<(), CallError<AskRefusal>>
        // If the number is none of a channel.
        ensures unknown { length (flows_of self.old.flows) ≤ channel → result ≡ Err (CallError.Refused AskRefusal.NoChannel) }
        ensures unchanged { length (flows_of self.old.flows) ≤ channel → self.new ≡ self.old }
        // What is asked for if it is one.
        ensures gives_back { channel < length (flows_of self.old.flows) → GivesBack channel bytes (flows_of self.old.flows) (is_err result)
            self.old.waiting.items self.new.waiting.items (flows_of self.new.flows) }
        ensures memory { channel < length (flows_of self.old.flows) → IfErr result (λ why. why ≡ CallError.Memory) }
        ensures full { channel < length (flows_of self.old.flows) → OnErr result
            (deque_capacity self.old.waiting ≤ deque_len self.old.waiting) }
        ensures same { self.new ≡ record self.old { waiting = self.new.waiting; flows = self.new.flows } }
    {
        if !self.flows.has(channel) {
            return Err(AskRefusal::NoChannel.into());
        }
        self.flows.finish(channel, bytes);
        let Some(bytes) = self.flows.due(channel) else {
            return Ok(());
        };
        self.queue(Waiting::Known(Ask::Connection(ChannelAsk::Adjust { channel, bytes })))?;
        self.flows.give_back(channel);
        Ok(())
    }
}
