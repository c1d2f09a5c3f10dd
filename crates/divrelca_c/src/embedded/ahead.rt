//! The next packet of the peer, looked at before it is taken.

ghost use Rattle.std.specs.Prelude.{◌≡◌, IfOk, OnErr, false, is_some, not, true};
ghost use Rattle.divrelca_c.specs.Embedded.Deciding.{is_open};
ghost use Rattle.ssh_transport_machine.specs.State.{line_taken};

use crate::embedded::state::Embedded;
use ssh_end::EndRole;
use ssh_packet::PacketReader;
use std::alloc::{AllocError, Global};

/// The packet that was looked at last, for an end whose program answers in its own time.
#[derive(Drop)]
pub struct Ahead {
    /// It shows the payload of the packet.
    pub reader: PacketReader,
    /// The packet asks the program, which has said nothing on it.
    pub is_wanted: bool,
    /// The hash that the host of a client's reply signed, if the program is asked about that signature.
    pub hash: Option<[u8; 32]>,
}

impl<R: EndRole> Embedded<R> {
    /// From here on `take` of a server and of a client holds back what asks the program, until that answers. This takes 35,000 bytes. It has
    /// to come before the peer's version line was taken: otherwise nothing changes, and the answer is `false`.
    ///
    /// # Errors
    ///
    /// Only if memory is refused: nothing changes.
    pub fn decide_later(&mut self, alloc: Global) -> Result<bool, AllocError>
        ensures early { IfOk result (λ done. done ≡ not (is_some (line_taken self.old.end.machine.kept.lines))) }
        ensures looks { IfOk result (λ done. done ≡ true → is_some self.new.ahead ≡ true) }
        ensures shut { IfOk result (λ done. done ≡ true → is_open self.new.ahead ≡ false) }
        ensures late { IfOk result (λ done. done ≡ false → self.new ≡ self.old) }
        ensures refused { OnErr result (self.new ≡ self.old) }
        ensures memory { OnErr result (is_some (line_taken self.old.end.machine.kept.lines) ≡ false) }
        ensures same { self.new ≡ record self.old { ahead = self.new.ahead } }
    {
        if self.end.version_line().is_some() {
            return Ok(false);
        }
        let reader = PacketReader::new(alloc)?;
        self.ahead = Some(Ahead {
            reader,
            is_wanted: false,
            hash: None,
        });
        Ok(true)
    }

    // No packet asks the program any more.
    pub(crate) fn shut(&mut self)
        ensures shut { is_open self.new.ahead ≡ false }
        ensures same { self.new ≡ record self.old { ahead = self.new.ahead } }
    {
        if let Some(ahead) = &mut self.ahead {
            ahead.is_wanted = false;
        }
    }
}
