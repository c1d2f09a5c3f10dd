ghost use Rattle.std.specs.Prelude.{◌≡◌, ◌≤◌, IfOk, [], length};
ghost use Rattle.ssh_model.specs.Protocol.Bounds.{largest_packet};

use ssh_types::bounds::LARGEST_PACKET;
use std::alloc::{AllocError, Global};
use std::marker::Model;

/// The payload of a KEXINIT, for which there is room from the start.
#[derive(Drop)]
pub struct KexinitPayload {
    bytes: Vec<u8>,
}

impl Model for KexinitPayload {
    ghost use Rattle.std.specs.Prelude.{◌≤◌, ℕ, List, length, vec_capacity};
    ghost use Rattle.ssh_model.specs.Protocol.Bounds.{largest_packet};

    ghost Value = { List ℕ };

    ghost view = { λ p. p.bytes.items };

    ghost invariant = { λ p. (largest_packet ≤ vec_capacity p.bytes) × (length p.bytes.items ≤ largest_packet) };
}

impl KexinitPayload {
    /// Room for a payload, and none there. This takes the only memory.
    ///
    /// # Errors
    ///
    /// Only if memory is refused.
    pub fn new(alloc: Global) -> Result<KexinitPayload, AllocError>
        ensures { IfOk result (λ payload. payload ≡ []) }
    {
        Ok(KexinitPayload {
            bytes: Vec::with_capacity(alloc, LARGEST_PACKET)?,
        })
    }

    /// Puts a payload in place of the old one. It needs no memory.
    pub fn set(&mut self, payload: &[u8])
        requires { length payload.now ≤ largest_packet }
        ensures { self.new ≡ payload.now }
    {
        self.bytes.clear();
        match self.bytes.extend_from_slice(payload) {
            Ok(()) => {}
            Err(_) => unreachable!(),
        }
    }

    /// The payload, at most 35,000 bytes.
    pub fn as_slice(&self) -> &[u8]
        ensures payload { result.now ≡ self.now }
        ensures most { length self.now ≤ largest_packet }
    {
        &self.bytes
    }
}
