//! The hash of the exchange under way at a client, for a reply of its server that is only looked at.

ghost use Rattle.std.specs.Prelude.{◌≡◌, IfSome, None};
ghost use Rattle.ssh_transport_machine.specs.Peeking.{AwaitsHashed, AwaitsNone};

use crate::client::Client;
use crate::transport::Transport;
use ssh_transport_machine::{ClientParts, reply_hash};

impl<P: ClientParts> Transport<Client<P>> {
    /// The hash of the exchange under way (RFC 5656 section 4), if the peer's next message of it is awaited, which is read, and the
    /// payload is a reply of a good point. `take` of that reply has its host judged over this hash. Otherwise, and once the transport is
    /// over, it is `None`. It needs no memory.
    pub fn reply_hash(&self, payload: &[u8]) -> Option<[u8; 32]>
        ensures hash { IfSome result (λ hash. AwaitsHashed (P.Agreement.does self.now.role.agreement) self.now.machine.kept payload.now
            hash) }
        ensures none { result ≡ None → AwaitsNone (P.Agreement.does self.now.role.agreement) self.now.machine.kept payload.now }
    {
        if self.machine.is_dead() {
            return None;
        }
        if !self.machine.is_exchanging() {
            return None;
        }
        reply_hash(&self.machine, &self.role.agreement, payload)
    }
}
