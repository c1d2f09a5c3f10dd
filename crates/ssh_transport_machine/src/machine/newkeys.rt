//! NEWKEYS, sent and taken (RFC 4253 section 7.3).

ghost use Rattle.std.specs.Prelude.{◌≡◌, ◌<◌, ◌-◌, None, OnOk, OnErr, Some, false, true};
ghost use Rattle.ssh_model.specs.Protocol.Sessions.Phases as model;
ghost use Rattle.ssh_model.specs.Protocol.Wire.Message.{NewKeys};
ghost use Rattle.ssh_model.specs.State.TransportLayer.Directions.{counted, renewed};
ghost use Rattle.ssh_packet.specs.Directions.{newkeys};
ghost use Rattle.ssh_transport_machine.specs.Padding.{PadsTo, sending_by};
ghost use Rattle.ssh_transport_machine.specs.Puts.{PutsPayload, Sends, outs};
ghost use Rattle.ssh_model.specs.Protocol.Bounds.{most_exchanges, numbers_of_epoch};

use crate::machine::{Machine, Phase};
use crate::parts::Outgoing;
use ssh_packet::{Filler, Sealing};
use std::alloc::AllocError;

impl<S: Sealing> Machine<S> {
    /// Sends NEWKEYS, by which the exchange is completed: from then on packets are sealed under the first key, and opened under the second
    /// one once the peer's NEWKEYS is taken. The session id is that with this exchange.
    ///
    /// # Errors
    ///
    /// Only if memory is refused: nothing is put out, and the end is over.
    pub fn send_newkeys<F: Filler + Drop>(
        &mut self,
        key: S::Key,
        peer_key: S::Key,
        session: [u8; 32],
        out: &mut Vec<u8>,
        sent: &mut Outgoing<F>,
    ) -> Result<(), AllocError>
        // What the caller must ensure.
        requires left { self.old.kept.sending.count < numbers_of_epoch }
        requires epoch { self.old.kept.sending.epoch < most_exchanges }
        // What it does.
        ensures sends { OnOk result (Sends S.crypto self.old.kept.sending NewKeys (outs out.old out.new sent.old sent.new)) }
        ensures after { OnOk result (self.new ≡ record self.old {
          kept = record self.old.kept {
            sending = renewed self.old.kept.strict key (counted self.old.kept.sending);
            pending = Some peer_key;
            phase = model.Keying;
            blocked = false;
            session = Some session;
          };
        }) }
        // If it fails.
        ensures dead { OnErr result (self.new.kept.dead ≡ true) }
        ensures out { OnErr result (out.new.items ≡ out.old.items) }
        ensures kept { OnErr result (sent.new.payloads.items ≡ sent.old.payloads.items) }
        // Where the padding comes from.
        ensures padded { OnOk result (PadsTo S.crypto F.gives (sending_by self.old sent.old out.old)
            (sending_by self.new sent.new out.new)) }
    {
        if let Err(error) = self.try_newkeys(key, out, sent) {
            self.dead = true;
            return Err(error);
        }
        self.pending = Some(peer_key);
        self.phase = Phase::Keying;
        self.blocked = false;
        self.session = Some(session);
        Ok(())
    }

    // All growths come first.
    fn try_newkeys<F: Filler + Drop>(
        &mut self,
        key: S::Key,
        out: &mut Vec<u8>,
        sent: &mut Outgoing<F>,
    ) -> Result<(), AllocError>
        // What the caller must ensure.
        requires left { self.old.kept.sending.count < numbers_of_epoch }
        requires epoch { self.old.kept.sending.epoch < most_exchanges }
        // What it does.
        ensures puts { OnOk result (PutsPayload S.crypto self.old.kept.sending newkeys (outs out.old out.new sent.old sent.new)) }
        ensures after { OnOk result (self.new ≡ record self.old
            { kept = record self.old.kept { sending = renewed self.old.kept.strict key (counted self.old.kept.sending) } }) }
        // If it fails.
        ensures out { OnErr result (out.new.items ≡ out.old.items) }
        ensures kept { OnErr result (sent.new.payloads.items ≡ sent.old.payloads.items) }
        // Where the padding comes from.
        ensures padded { OnOk result (PadsTo S.crypto F.gives (sending_by self.old sent.old out.old)
            (sending_by self.new sent.new out.new)) }
    {
        let mut payload = Vec::new(self.alloc);
        payload.push(21)?;
        sent.payloads.reserve(1)?;
        self.sending
            .send_newkeys(key, self.strict, &mut sent.filler, out)?;
        sent.payloads.push_reserved(payload);
        Ok(())
    }

    /// Takes NEWKEYS, if it is awaited: the next epoch begins under the pending key.
    pub fn take_newkeys(&mut self)
        // What the caller must ensure.
        requires pending { self.old.kept.pending ≡ None → ⊥ }
        requires shown { self.old.receiver.payload ≡ newkeys }
        requires taken { 0 < self.old.receiver.direction.count }
        requires epoch { self.old.receiver.direction.epoch < most_exchanges }
        // What it does.
        ensures { (key : S.Key) → self.old.kept.pending ≡ Some key →
            self.new ≡ record self.old {
              receiver = record self.old.receiver
                  { direction = renewed self.old.kept.strict key self.old.receiver.direction };
              kept = record self.old.kept {
                taking = renewed self.old.kept.strict key self.old.receiver.direction;
                phase = model.Normal;
                pending = None;
              };
            } }
    {
        match self.pending.take() {
            Some(key) => {
                self.taking.start_epoch(key, self.strict);
                self.phase = Phase::Normal;
            }
            None => unreachable!(),
        }
    }
}
