ghost use Rattle.std.specs.Prelude.{◌<◌, ◌^◌, ℕ, List, Option};
ghost use Rattle.ssh_model.specs.Protocol.Wire.Sealing.{IsSealed, IsWire};

use crate::sealing::Sealing;

/// A sealed packet opens to the same payload under the same key and number (RFC 4253 section 6), by the laws of the
/// sealing. So `PacketReader::take` finds the packets that `write_packet` puts out.
pub fn every_sealed_is_a_wire<S: Sealing>()
    ensures { (key : Option S.Key) (number : ℕ) (payload bytes : List ℕ) → number < 2 ^ 32 → IsSealed S.crypto key number payload bytes →
        IsWire S.crypto key number payload bytes }
{}
