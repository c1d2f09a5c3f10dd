//! The pair of cookie and secret that is kept for the next KEXINIT.

ghost use Rattle.std.specs.Prelude.{◌≡◌};
ghost use Rattle.ssh_transport_machine.specs.State.{material_of};

use crate::machine::Machine;
use ssh_packet::Sealing;

/// A cookie and a secret, which one exchange of keys uses up.
#[derive(Clone, Copy)]
pub struct Material {
    /// The cookie of the KEXINIT (RFC 4253 section 7.1).
    pub cookie: [u8; 16],
    /// The secret of the public point (RFC 8731 section 3).
    pub secret: [u8; 32],
}

impl<S: Sealing> Machine<S> {
    /// That pair, if one is kept.
    pub fn material(&self) -> Option<Material>
        ensures { material_of result ≡ self.now.kept.material }
    {
        self.material
    }
}
