//! The service that a client asks for (RFC 4253 section 10), and authentication by it.

ghost use Rattle.std.specs.Prelude.{◌≡◌, true};

use crate::machine::Machine;
use ssh_packet::Sealing;

/// The one service that a client asks for.
pub const USERAUTH: &[u8] = b"ssh-userauth";

impl<S: Sealing> Machine<S> {
    /// The service that this client asked for was granted.
    pub fn mark_service_accepted(&mut self)
        ensures { self.new ≡ record self.old { kept = record self.old.kept { accepted = true } } }
    {
        self.accepted = true;
    }

    /// This client asked for the service.
    pub fn mark_requested(&mut self)
        ensures { self.new ≡ record self.old { kept = record self.old.kept { requested = true } } }
    {
        self.requested = true;
    }

    /// The layer above says that the user is authenticated.
    pub fn mark_authenticated(&mut self)
        ensures { self.new ≡ record self.old { kept = record self.old.kept { authenticated = true } } }
    {
        self.authenticated = true;
    }
}
