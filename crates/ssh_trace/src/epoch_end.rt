ghost use Rattle.std.specs.Prelude.{◌≡◌, ◌<◌, ◌≤◌, ◌+◌, ◌++◌, Some, false, length, take, IfOk, OnErr};
ghost use Rattle.ssh_model.specs.Laws.MacOnly.{mac_only};
ghost use Rattle.ssh_model.specs.Laws.Units.{IsPartialPacket};
ghost use Rattle.ssh_trace.specs.EpochEnd.{EndAsks, EndFinds, SameKeys, new_end};

use ssh_packet::{HmacKey, LONGEST_PAYLOAD, MacOnly, PacketReceiver, PacketSender, PacketStep};
use ssh_toys::ToyFiller;
use ssh_types::Refusal;
use std::alloc::{AllocError, Global};
use std::marker::Model;

/// One end of an epoch. It seals the packets that it sends under one key, and opens those that it takes under another. Its padding is
/// zeros.
#[derive(Drop)]
pub(crate) struct EpochEnd {
    sender: PacketSender<MacOnly>,
    receiver: PacketReceiver<MacOnly>,
    dead: bool,
}

impl Model for EpochEnd {
    ghost use Rattle.ssh_trace.specs.EpochEnd.{End, IsKept, end_of};

    ghost Value = { End };

    ghost view = { λ e. end_of e.sender e.receiver e.dead };

    ghost invariant = { λ e. IsKept e.sender e.receiver e.dead };
}

/// The result of an ask at an end.
#[derive(Clone, Copy)]
pub(crate) enum AskStep {
    Sent,
    TooLong,
    Spent,
}

impl EpochEnd {
    /// An end of one epoch, under these two keys.
    ///
    /// # Errors
    ///
    /// Only if memory is refused.
    pub fn new(
        alloc: Global,
        sending_key: HmacKey,
        taking_key: HmacKey,
    ) -> Result<EpochEnd, AllocError>
        ensures { IfOk result (λ end. end ≡ new_end sending_key taking_key) }
    {
        Ok(EpochEnd {
            sender: PacketSender::with_key(sending_key),
            receiver: PacketReceiver::with_key(alloc, taking_key)?,
            dead: false,
        })
    }

    /// Tests whether the end is over.
    pub fn is_dead(&self) -> bool
        ensures { result ≡ self.now.dead }
    {
        self.dead
    }

    /// The payload that was taken last.
    pub fn payload(&self) -> &[u8]
        ensures { result.now ≡ self.now.payload }
    {
        self.receiver.payload()
    }

    /// How many bytes of a partial packet are held. Those of a living end are the first bytes of a packet.
    pub fn held(&self) -> usize
        ensures held { result ≡ length self.now.buffered }
        ensures buffered { self.now.dead ≡ false → IsPartialPacket mac_only (Some self.now.taking_key) self.now.taken self.now.buffered }
    {
        self.receiver.held()
    }

    /// Sends a payload.
    ///
    /// # Errors
    ///
    /// Only if memory is refused: nothing is put out, and no payload is counted.
    #[tactic(auto, using(crate::proofs::Counts::sealed_as))]
    pub fn ask(&mut self, payload: &[u8], out: &mut Vec<u8>) -> Result<AskStep, AllocError>
        // What the caller must ensure.
        requires alive { self.old.dead ≡ false }
        requires some { 1 ≤ length payload.now }
        // What it does.
        ensures asked { IfOk result (λ step. EndAsks payload.now self.old step self.new out.old.items out.new.items) }
        ensures keys { SameKeys self.old self.new }
        // If it fails.
        ensures kept { OnErr result (self.new ≡ self.old) }
        ensures out { OnErr result (out.new.items ≡ out.old.items) }
    {
        if payload.len() > LONGEST_PAYLOAD {
            return Ok(AskStep::TooLong);
        }
        if self.sender.is_spent() {
            self.dead = true;
            return Ok(AskStep::Spent);
        }
        let mut zeros = ToyFiller { byte: 0 };
        self.sender.send(payload, &mut zeros, out)?;
        Ok(AskStep::Sent)
    }

    /// Takes bytes to the end of one packet.
    #[tactic(auto, using(crate::proofs::Counts::unit_of))]
    pub fn take(&mut self, bytes: &[u8]) -> (usize, PacketStep<Refusal>)
        // What the caller must ensure.
        requires alive { self.old.dead ≡ false }
        // What it does.
        ensures used { result.0 ≤ length bytes.now }
        ensures progress { 0 < length bytes.now → 0 < result.0 }
        ensures more { result.1 ≡ PacketStep.More → result.0 ≡ length bytes.now }
        ensures found { EndFinds (self.old.buffered ++ take result.0 bytes.now) self.old result.1 self.new }
        ensures keys { SameKeys self.old self.new }
    {
        let (used, step) = self.receiver.take(bytes);
        if matches!(step, PacketStep::Refused(_)) {
            self.dead = true;
        }
        (used, step)
    }
}
