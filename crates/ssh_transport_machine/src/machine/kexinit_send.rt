//! The KEXINIT that an end sends, and the messages that it sends with it.

ghost use Rattle.ssh_transport_machine.specs.Padding.{PadsTo, sending_by};
ghost use Rattle.ssh_transport_machine.specs.Puts.{outs};
ghost use Rattle.std.specs.Prelude.{◌≡◌, ◌<◌, ◌≤◌, IfOk, OnOk, OnErr, false, length, true};
ghost use Rattle.ssh_model.specs.Protocol.Wire.Message.{KexInit};
ghost use Rattle.ssh_model.specs.Protocol.Sessions.Parties.{offer_of};
ghost use Rattle.ssh_model.specs.Protocol.Sessions.Turns.{IsEncoded};
ghost use Rattle.ssh_model.specs.State.TransportLayer.Kept.{after_fed, can_be_fed};
ghost use Rattle.ssh_transport_machine.specs.Offering.{OwnSent};
ghost use Rattle.ssh_model.specs.Protocol.Bounds.{most_exchanges, numbers_of_epoch};

use crate::machine::Machine;
use crate::machine::material::Material;
use crate::parts::Outgoing;
use crate::put_kexinit;
use ssh_model::laws;
use ssh_packet::{Filler, Sealing};
use ssh_types::bounds::MOST_EXCHANGES;
use std::alloc::AllocError;

impl<S: Sealing> Machine<S> {
    /// Sends this end's KEXINIT with a pair of cookie and secret, which is then used up.
    ///
    /// # Errors
    ///
    /// Only if memory is refused: nothing is put out, and the end is over.
    pub fn send_kexinit<F: Filler + Drop>(
        &mut self,
        material: Material,
        out: &mut Vec<u8>,
        sent: &mut Outgoing<F>,
    ) -> Result<(), AllocError>
        // What the caller must ensure.
        requires left { self.old.kept.sending.count < numbers_of_epoch }
        // What it does.
        ensures sends { OnOk result (OwnSent S.crypto self.old (record { cookie = material.cookie; secret = material.secret }) self.new
            (outs out.old out.new sent.old sent.new)) }
        // If it fails.
        ensures dead { OnErr result (self.new.kept.dead ≡ true) }
        ensures out { OnErr result (out.new.items ≡ out.old.items) }
        ensures kept { OnErr result (sent.new.payloads.items ≡ sent.old.payloads.items) }
        // Where the padding comes from.
        ensures padded { OnOk result (PadsTo S.crypto F.gives (sending_by self.old sent.old out.old)
            (sending_by self.new sent.new out.new)) }
    {
        match self.encode_kexinit(false, &material.cookie) {
            Ok(payload) => {
                self.own.set(&payload);
                self.secret = material.secret;
                self.material = None;
                self.blocked = true;
                self.put(payload, out, sent)
            }
            Err(error) => {
                self.dead = true;
                Err(error)
            }
        }
    }

    /// The payload of a KEXINIT of this end.
    ///
    /// # Errors
    ///
    /// Only if memory is refused.
    pub(crate) fn encode_kexinit(
        &self,
        first: bool,
        cookie: &[u8; 16],
    ) -> Result<Vec<u8>, AllocError>
        ensures encoded { IfOk result (λ payload. IsEncoded (KexInit
            (offer_of self.now.kept.settings self.now.kept.side first cookie.now)) payload.items) }
        ensures some { IfOk result (λ payload. 1 ≤ length payload.items) }
    {
        laws::payload_sizes();
        let mut payload = Vec::new(self.alloc);
        put_kexinit(
            self.alloc,
            &self.config,
            self.side,
            first,
            cookie,
            &mut payload,
        )?;
        Ok(payload)
    }

    /// Keeps a pair of cookie and secret for the next KEXINIT, if none is kept.
    pub fn feed(&mut self, cookie: [u8; 16], secret: [u8; 32]) -> bool
        ensures fed { result ≡ can_be_fed self.old.kept }
        ensures kept { result ≡ true → self.new ≡ record self.old { kept = after_fed cookie secret self.old.kept } }
        ensures same { result ≡ false → self.new ≡ self.old }
    {
        if !self.can_feed() {
            return false;
        }
        self.material = Some(Material { cookie, secret });
        self.fed += 1;
        true
    }

    // Tests whether a pair may be fed.
    fn can_feed(&self) -> bool
        ensures fed { result ≡ can_be_fed self.now.kept }
        ensures left { result ≡ true → self.now.kept.fed < most_exchanges }
    {
        !self.dead && !self.has_material() && self.fed < MOST_EXCHANGES
    }
}
