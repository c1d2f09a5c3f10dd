//! Messages that an end sends.

ghost use Rattle.std.specs.Prelude.{◌≡◌, ◌<◌, ◌≤◌, IfOk, OnOk, OnErr, length, true};
ghost use Rattle.ssh_model.specs.Protocol.Bounds.{longest_payload, numbers_of_epoch};
ghost use Rattle.ssh_model.specs.Protocol.Wire.Message.{FitsContext};
ghost use Rattle.ssh_model.specs.Laws.Sizes.{payload_size};
ghost use Rattle.ssh_model.specs.Protocol.Sessions.Turns.{IsEncoded};
ghost use Rattle.ssh_model.specs.State.TransportLayer.Kept.{after_sent};
ghost use Rattle.ssh_message.specs.Meaning.{meaning};
ghost use Rattle.ssh_message.specs.Written.{Fits};
ghost use Rattle.ssh_transport_machine.specs.Padding.{PadsTo, sending_by};
ghost use Rattle.ssh_transport_machine.specs.Puts.{PutsPayload, Sends, outs};
ghost use Rattle.ssh_transport_machine.specs.State.{dead_state};

use crate::machine::Machine;
use crate::parts::Outgoing;
use ssh_message::{Message, encode};
use ssh_packet::{Filler, Sealing};
use std::alloc::AllocError;

/// Whether a turn put out its message.
#[derive(Clone, Copy, Debug, PartialEq, Eq)]
pub enum SendOutcome {
    /// All that it sends was sent.
    Done,
    /// Too few numbers are left in the epoch. Nothing was sent, and the end is over.
    Spent,
}

impl<S: Sealing> Machine<S> {
    /// Sends a message.
    ///
    /// # Errors
    ///
    /// Only if memory is refused: nothing is put out, and the end is over.
    pub fn send<F: Filler + Drop>(
        &mut self,
        message: &Message<'_>,
        out: &mut Vec<u8>,
        sent: &mut Outgoing<F>,
    ) -> Result<(), AllocError>
        // What the caller must ensure.
        requires left { self.old.kept.sending.count < numbers_of_epoch }
        requires fits { Fits message.now }
        requires context { FitsContext true (meaning message.now) }
        requires most { payload_size (meaning message.now) ≤ longest_payload }
        // What it does.
        ensures sends { OnOk result (Sends S.crypto self.old.kept.sending (meaning message.now) (outs out.old out.new sent.old sent.new)) }
        ensures after { OnOk result (self.new ≡ record self.old { kept = after_sent self.old.kept }) }
        // If it fails.
        ensures dead { OnErr result (self.new ≡ dead_state self.old) }
        ensures out { OnErr result (out.new.items ≡ out.old.items) }
        ensures kept { OnErr result (sent.new.payloads.items ≡ sent.old.payloads.items) }
        // Where the padding comes from.
        ensures padded { OnOk result (PadsTo S.crypto F.gives (sending_by self.old sent.old out.old)
            (sending_by self.new sent.new out.new)) }
    {
        match self.encode_payload(message) {
            Ok(payload) => self.put(payload, out, sent),
            Err(error) => {
                self.dead = true;
                Err(error)
            }
        }
    }

    /// The payload of a message.
    ///
    /// # Errors
    ///
    /// Only if memory is refused.
    pub fn encode_payload(&self, message: &Message<'_>) -> Result<Vec<u8>, AllocError>
        // What the caller must ensure.
        requires fits { Fits message.now }
        requires context { FitsContext true (meaning message.now) }
        requires most { payload_size (meaning message.now) ≤ longest_payload }
        // What it returns.
        ensures encoded { IfOk result (λ payload. IsEncoded (meaning message.now) payload.items) }
        ensures some { IfOk result (λ payload. 1 ≤ length payload.items) }
    {
        let mut payload = Vec::new(self.alloc);
        encode(message, &mut payload)?;
        Ok(payload)
    }

    /// Puts out the packet of a payload, and lists it.
    ///
    /// # Errors
    ///
    /// Only if memory is refused: nothing is put out, and the end is over.
    pub fn put<F: Filler + Drop>(
        &mut self,
        payload: Vec<u8>,
        out: &mut Vec<u8>,
        sent: &mut Outgoing<F>,
    ) -> Result<(), AllocError>
        // What the caller must ensure.
        requires left { self.old.kept.sending.count < numbers_of_epoch }
        requires some { 1 ≤ length payload.items }
        requires most { length payload.items ≤ longest_payload }
        // What it does.
        ensures puts { OnOk result (PutsPayload S.crypto self.old.kept.sending payload.items (outs out.old out.new sent.old sent.new)) }
        ensures after { OnOk result (self.new ≡ record self.old { kept = after_sent self.old.kept }) }
        // If it fails.
        ensures dead { OnErr result (self.new ≡ dead_state self.old) }
        ensures out { OnErr result (out.new.items ≡ out.old.items) }
        ensures kept { OnErr result (sent.new.payloads.items ≡ sent.old.payloads.items) }
        // Where the padding comes from.
        ensures padded { OnOk result (PadsTo S.crypto F.gives (sending_by self.old sent.old out.old)
            (sending_by self.new sent.new out.new)) }
    {
        if let Err(error) = self.try_put(payload, out, sent) {
            self.dead = true;
            return Err(error);
        }
        Ok(())
    }

    // All growths come first.
    fn try_put<F: Filler + Drop>(
        &mut self,
        payload: Vec<u8>,
        out: &mut Vec<u8>,
        sent: &mut Outgoing<F>,
    ) -> Result<(), AllocError>
        // What the caller must ensure.
        requires left { self.old.kept.sending.count < numbers_of_epoch }
        requires some { 1 ≤ length payload.items }
        requires most { length payload.items ≤ longest_payload }
        // What it does.
        ensures puts { OnOk result (PutsPayload S.crypto self.old.kept.sending payload.items (outs out.old out.new sent.old sent.new)) }
        ensures after { OnOk result (self.new ≡ record self.old { kept = after_sent self.old.kept }) }
        // If it fails.
        ensures same { OnErr result (self.new ≡ self.old) }
        ensures out { OnErr result (out.new.items ≡ out.old.items) }
        ensures kept { OnErr result (sent.new.payloads.items ≡ sent.old.payloads.items) }
        // Where the padding comes from.
        ensures padded { OnOk result (PadsTo S.crypto F.gives (sending_by self.old sent.old out.old)
            (sending_by self.new sent.new out.new)) }
    {
        sent.payloads.reserve(1)?;
        self.sending.send(&payload, &mut sent.filler, out)?;
        sent.payloads.push_reserved(payload);
        Ok(())
    }
}
