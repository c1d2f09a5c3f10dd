//! Messages that an end sends if a number is left for them.

ghost use Rattle.ssh_transport_machine.specs.Padding.{PadsTo, sending_by};
ghost use Rattle.ssh_transport_machine.specs.Puts.{outs};
ghost use Rattle.std.specs.Prelude.{◌≡◌, ◌≤◌, IfOk, OnErr, OnOk, codes, true};
ghost use Rattle.ssh_model.specs.Protocol.Bounds.{longest_payload};
ghost use Rattle.ssh_model.specs.Protocol.Wire.Message.{FitsContext, ServiceAccept, Unimplemented};
ghost use Rattle.ssh_model.specs.Laws.Sizes.{payload_size};
ghost use Rattle.ssh_model.specs.State.TransportLayer.Kept.{after_sent};
ghost use Rattle.ssh_message.specs.Meaning.{meaning};
ghost use Rattle.ssh_message.specs.Written.{Fits};
ghost use Rattle.ssh_transport_machine.specs.State.{dead_state, last_number};
ghost use Rattle.ssh_transport_machine.specs.Answering.{Answers, HasRoom};

use crate::machine::service::USERAUTH;
use crate::machine::{Machine, SendOutcome};
use crate::parts::Outgoing;
use ssh_message::Message;
use ssh_packet::{Filler, Sealing};
use std::alloc::AllocError;

impl<S: Sealing> Machine<S> {
    /// Sends a message if a number is left for it, and otherwise is over.
    ///
    /// # Errors
    ///
    /// Only if memory is refused: nothing is put out, and the end is over.
    pub fn send_if_numbered<F: Filler + Drop>(
        &mut self,
        message: &Message<'_>,
        out: &mut Vec<u8>,
        sent: &mut Outgoing<F>,
    ) -> Result<SendOutcome, AllocError>
        // What the caller must ensure.
        requires fits { Fits message.now }
        requires context { FitsContext true (meaning message.now) }
        requires most { payload_size (meaning message.now) ≤ longest_payload }
        // What it does.
        ensures answers { IfOk result (λ answer. Answers S.crypto self.old (meaning message.now) (after_sent self.old.kept) answer
            self.new (outs out.old out.new sent.old sent.new)) }
        // If it fails.
        ensures dead { OnErr result (self.new ≡ dead_state self.old) }
        ensures room { OnErr result (HasRoom self.old) }
        ensures out { OnErr result (out.new.items ≡ out.old.items) }
        ensures kept { OnErr result (sent.new.payloads.items ≡ sent.old.payloads.items) }
        // Where the padding comes from.
        ensures padded { OnOk result (PadsTo S.crypto F.gives (sending_by self.old sent.old out.old)
            (sending_by self.new sent.new out.new)) }
    {
        if self.is_spent() {
            self.dead = true;
            return Ok(SendOutcome::Spent);
        }
        self.send(message, out, sent)?;
        Ok(SendOutcome::Done)
    }

    /// Says that the packet whose payload is shown wasn't understood (RFC 4253 section 11.4).
    ///
    /// # Errors
    ///
    /// Only if memory is refused: nothing is put out, and the end is over.
    pub fn reply_unknown<F: Filler + Drop>(
        &mut self,
        out: &mut Vec<u8>,
        sent: &mut Outgoing<F>,
    ) -> Result<SendOutcome, AllocError>
        // What it does.
        ensures answers { IfOk result (λ answer. Answers S.crypto self.old (Unimplemented (last_number self.old.kept.taking))
            (after_sent self.old.kept) answer self.new (outs out.old out.new sent.old sent.new)) }
        // If it fails.
        ensures dead { OnErr result (self.new.kept.dead ≡ true) }
        ensures room { OnErr result (HasRoom self.old) }
        ensures out { OnErr result (out.new.items ≡ out.old.items) }
        ensures kept { OnErr result (sent.new.payloads.items ≡ sent.old.payloads.items) }
        // Where the padding comes from.
        ensures padded { OnOk result (PadsTo S.crypto F.gives (sending_by self.old sent.old out.old)
            (sending_by self.new sent.new out.new)) }
    {
        let number = self.taking.last_number();
        self.send_if_numbered(&Message::Unimplemented { number }, out, sent)
    }

    /// Grants the service that a client asked for.
    ///
    /// # Errors
    ///
    /// Only if memory is refused: nothing is put out, and the end is over.
    pub fn accept_service<F: Filler + Drop>(
        &mut self,
        out: &mut Vec<u8>,
        sent: &mut Outgoing<F>,
    ) -> Result<SendOutcome, AllocError>
        // What it does.
        ensures answers { IfOk result (λ answer. Answers S.crypto self.old (ServiceAccept (codes "ssh-userauth"))
            (record (after_sent self.old.kept) { requested = true }) answer self.new (outs out.old out.new sent.old sent.new)) }
        // If it fails.
        ensures dead { OnErr result (self.new.kept.dead ≡ true) }
        ensures room { OnErr result (HasRoom self.old) }
        ensures out { OnErr result (out.new.items ≡ out.old.items) }
        ensures kept { OnErr result (sent.new.payloads.items ≡ sent.old.payloads.items) }
        // Where the padding comes from.
        ensures padded { OnOk result (PadsTo S.crypto F.gives (sending_by self.old sent.old out.old)
            (sending_by self.new sent.new out.new)) }
    {
        let accept = Message::ServiceAccept { service: USERAUTH };
        match self.send_if_numbered(&accept, out, sent)? {
            SendOutcome::Done => {
                self.requested = true;
                Ok(SendOutcome::Done)
            }
            SendOutcome::Spent => Ok(SendOutcome::Spent),
        }
    }
}
