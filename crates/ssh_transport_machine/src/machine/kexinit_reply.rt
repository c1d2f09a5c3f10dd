//! Answers to the peer's KEXINIT (RFC 4253 section 7.1, RFC 5656 section 4).

ghost use Rattle.std.specs.Prelude.{◌≡◌, ◌<◌, ◌+◌, OnOk, OnErr, map, true};
ghost use Rattle.ssh_model.specs.Protocol.Wire.Message.{KexEcdhInit};
ghost use Rattle.ssh_model.specs.State.TransportLayer.Kept.{after_sent};
ghost use Rattle.ssh_transport_machine.specs.Padding.{PadsTo, sending_by};
ghost use Rattle.ssh_transport_machine.specs.Offering.{BothAnswered, OwnAnswered};
ghost use Rattle.ssh_transport_machine.specs.Puts.{Sends, outs};
ghost use Rattle.ssh_transport_machine.specs.State.{noted};
ghost use Rattle.ssh_model.specs.Protocol.Bounds.{numbers_of_epoch};

use crate::machine::Machine;
use crate::machine::kexinit::KexinitFacts;
use crate::machine::material::Material;
use crate::parts::Outgoing;
use ssh_message::Message;
use ssh_packet::{Filler, Sealing};
use std::alloc::AllocError;

impl<S: Sealing> Machine<S> {
    /// A client that sent its KEXINIT answers by its point.
    ///
    /// # Errors
    ///
    /// Only if memory is refused: nothing is put out, and the end is over.
    pub fn reply_with_ecdh_init<F: Filler + Drop>(
        &mut self,
        facts: KexinitFacts,
        point: &[u8; 32],
        out: &mut Vec<u8>,
        sent: &mut Outgoing<F>,
    ) -> Result<(), AllocError>
        // What the caller must ensure.
        requires left { self.old.kept.sending.count < numbers_of_epoch }
        // What it does.
        ensures sends { OnOk result (Sends S.crypto self.old.kept.sending (KexEcdhInit point.now)
            (outs out.old out.new sent.old sent.new)) }
        ensures after { OnOk result (self.new ≡ record self.old
            { kept = after_sent (noted facts.wrong facts.strict facts.extensions self.old.receiver.payload self.old.kept) }) }
        // If it fails.
        ensures dead { OnErr result (self.new.kept.dead ≡ true) }
        ensures out { OnErr result (out.new.items ≡ out.old.items) }
        ensures kept { OnErr result (sent.new.payloads.items ≡ sent.old.payloads.items) }
        // Where the padding comes from.
        ensures padded { OnOk result (PadsTo S.crypto F.gives (sending_by self.old sent.old out.old)
            (sending_by self.new sent.new out.new)) }
    {
        self.send(&Message::KexEcdhInit { q_c: point }, out, sent)?;
        self.record_kexinit(facts);
        Ok(())
    }

    /// A server that sent no KEXINIT of its own answers by it.
    ///
    /// # Errors
    ///
    /// Only if memory is refused: nothing is put out, and the end is over.
    pub fn reply_with_kexinit<F: Filler + Drop>(
        &mut self,
        facts: KexinitFacts,
        material: Material,
        out: &mut Vec<u8>,
        sent: &mut Outgoing<F>,
    ) -> Result<(), AllocError>
        // What the caller must ensure.
        requires left { self.old.kept.sending.count < numbers_of_epoch }
        // What it does.
        ensures sends { OnOk result (OwnAnswered S.crypto self.old (record { cookie = material.cookie; secret = material.secret }) facts
            self.new (outs out.old out.new sent.old sent.new)) }
        // If it fails.
        ensures dead { OnErr result (self.new.kept.dead ≡ true) }
        ensures out { OnErr result (out.new.items ≡ out.old.items) }
        ensures kept { OnErr result (sent.new.payloads.items ≡ sent.old.payloads.items) }
        // Where the padding comes from.
        ensures padded { OnOk result (PadsTo S.crypto F.gives (sending_by self.old sent.old out.old)
            (sending_by self.new sent.new out.new)) }
    {
        self.send_kexinit(material, out, sent)?;
        self.record_kexinit(facts);
        Ok(())
    }

    /// A client that sent no KEXINIT of its own answers by it and by its point.
    ///
    /// # Errors
    ///
    /// Only if memory is refused: nothing is put out, and the end is over.
    pub fn reply_with_both<F: Filler + Drop>(
        &mut self,
        facts: KexinitFacts,
        material: Material,
        point: &[u8; 32],
        out: &mut Vec<u8>,
        sent: &mut Outgoing<F>,
    ) -> Result<(), AllocError>
        // What the caller must ensure.
        requires left { self.old.kept.sending.count + 1 < numbers_of_epoch }
        // What it does.
        ensures sends { OnOk result (BothAnswered S.crypto self.old (record { cookie = material.cookie; secret = material.secret })
            point.now facts self.new (outs out.old out.new sent.old sent.new)) }
        // If it fails.
        ensures dead { OnErr result (self.new.kept.dead ≡ true) }
        ensures out { OnErr result (out.new.items ≡ out.old.items) }
        ensures kept { OnErr result (map (λ v. v.items) sent.new.payloads.items ≡ map (λ v. v.items) sent.old.payloads.items) }
        // Where the padding comes from.
        ensures padded { OnOk result (PadsTo S.crypto F.gives (sending_by self.old sent.old out.old)
            (sending_by self.new sent.new out.new)) }
    {
        let bytes = out.len();
        let payloads = sent.payloads.as_slice().len();
        self.send_kexinit(material, out, sent)?;
        if let Err(error) = self.send(&Message::KexEcdhInit { q_c: point }, out, sent) {
            out.truncate(bytes);
            sent.payloads.truncate(payloads);
            return Err(error);
        }
        self.record_kexinit(facts);
        Ok(())
    }
}
