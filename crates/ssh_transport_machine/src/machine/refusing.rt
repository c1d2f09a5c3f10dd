//! Refusals of the peer.

ghost use Rattle.std.specs.Prelude.{◌≡◌, ◌<◌, ◌≤◌, IsTrue, OnOk, OnErr, false, length, true};
ghost use Rattle.ssh_model.specs.Protocol.Sessions.Refusals.{refusal_name};
ghost use Rattle.ssh_transport_machine.specs.Padding.{PadsTo, sending_by};
ghost use Rattle.ssh_transport_machine.specs.Puts.{Refuses, outs};
ghost use Rattle.ssh_transport_machine.specs.State.{dead_state};
ghost use Rattle.ssh_transport_machine.specs.Answering.{RefusalNeedsMemory};
ghost use Rattle.ssh_model.specs.Protocol.Bounds.{numbers_of_epoch};

use crate::machine::Machine;
use crate::parts::Outgoing;
use ssh_message::Message;
use ssh_packet::{Filler, Sealing};
use ssh_types::Refusal;
use std::alloc::AllocError;

impl<S: Sealing> Machine<S> {
    /// Refuses the peer: says why in a DISCONNECT, if the refusal has a reason code and a number is left, and is over (RFC 4253 section
    /// 11.1).
    ///
    /// # Errors
    ///
    /// Only if memory is refused: nothing is put out, and the end is over.
    pub fn refuse<F: Filler + Drop>(
        &mut self,
        refusal: Refusal,
        out: &mut Vec<u8>,
        sent: &mut Outgoing<F>,
    ) -> Result<(), AllocError>
        // What it does.
        ensures refuses { OnOk result (Refuses S.crypto self.old.kept refusal self.new.kept
            (outs out.old out.new sent.old sent.new)) }
        ensures reading { OnOk result (self.new ≡ record self.old { kept = self.new.kept }) }
        // If it fails.
        ensures dead { OnErr result (self.new ≡ dead_state self.old) }
        ensures needs_memory { OnErr result (RefusalNeedsMemory self.old refusal) }
        ensures out { OnErr result (out.new.items ≡ out.old.items) }
        ensures kept { OnErr result (sent.new.payloads.items ≡ sent.old.payloads.items) }
        // Where the padding comes from.
        ensures padded { OnOk result (PadsTo S.crypto F.gives (sending_by self.old sent.old out.old)
            (sending_by self.new sent.new out.new)) }
    {
        let Some(reason) = refusal.code() else {
            self.dead = true;
            return Ok(());
        };
        if self.is_spent() {
            self.dead = true;
            return Ok(());
        }
        let farewell = Message::Disconnect {
            reason,
            description: name_of(refusal),
            language: b"",
        };
        self.send(&farewell, out, sent)?;
        self.dead = true;
        Ok(())
    }

    /// Tests whether no number is left in the epoch.
    pub fn is_spent(&self) -> bool
        ensures spent { IsTrue result → self.now.kept.sending.count ≡ numbers_of_epoch }
        ensures left { result ≡ false → self.now.kept.sending.count < numbers_of_epoch }
    {
        self.sending.is_spent()
    }
}

// What the DISCONNECT describes.
#[tactic(auto, using(crate::proofs::Refusals::short_name))]
fn name_of(refusal: Refusal) -> &'static [u8]
    ensures value { result.now ≡ refusal_name refusal }
    ensures short { length result.now ≤ 20 }
{
    refusal.name().as_bytes()
}
