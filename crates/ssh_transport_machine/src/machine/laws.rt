//! Laws of the state of a machine. Facts for proofs, at no cost.

ghost use Rattle.std.specs.Prelude.{◌≡◌, false, length};
ghost use Rattle.ssh_model.specs.Protocol.Sessions.Parties.{offer_of};
ghost use Rattle.ssh_model.specs.Protocol.Sessions.TurnClaims.{HasEncoding};
ghost use Rattle.ssh_model.specs.Protocol.Wire.Message.{KexInit};
ghost use Rattle.ssh_transport_machine.specs.Finishing.{HasAnnouncement};

use crate::machine::Machine;
use ssh_packet::Sealing;

/// A later KEXINIT of this end, with this cookie, fits a packet.
pub fn offer_fits<S: Sealing>(machine: &Machine<S>, cookie: &[u8; 16])
    ensures { HasEncoding (KexInit (offer_of machine.now.kept.settings machine.now.kept.side false cookie.now)) }
{
    ssh_config::laws::every_config_is_good(&machine.config);
    has_16_bytes(cookie);
}

/// The message that is announced after NEWKEYS has an encoding.
pub fn announcement_fits<S: Sealing>(machine: &Machine<S>)
    ensures { HasAnnouncement machine.now.kept }
{
    ssh_model::laws::payload_sizes();
    ssh_config::laws::every_config_is_good(&machine.config);
}

// The length that the type says.
fn has_16_bytes(bytes: &[u8; 16])
    ensures { length bytes.now ≡ 16 }
{}
