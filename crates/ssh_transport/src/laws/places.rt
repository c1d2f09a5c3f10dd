//! Laws of where a transport stands in a run of its own. Facts for proofs, at no cost.

ghost use Rattle.ssh_model.specs.Protocol.Sessions.Turns.{IsMaterial};
ghost use Rattle.ssh_transport.specs.Stands.{TransportLifts};

use crate::role::Role;
use ssh_model::laws;
use ssh_packet::Sealing;

/// What a transport does is a turn of a run of the transport of one end, whatever the layers above it do. Where it stands after a history:
///
/// - one that was made stands after its opening;
/// - bytes of the peer that are no whole line or packet are buffered, and it stands where it stood;
/// - else they are one line or one packet, and it stands after what it made of that. A payload for the layers above may be taken for any
///   message of its number;
/// - so it stands after an ask, after a payload that they send for any message of its number, and after they refuse the peer;
/// - it stands after a pair of cookie and secret that it was fed, and after its death.
///
/// At each place it keeps to what a transport keeps to, whoever its peer is.
pub fn transports_lift<R: Role>()
    ensures { TransportLifts R.SIDE R.Sealing.crypto R.is_of R.does }
{
    R::lifts();
    crate::laws::units_taken::<R>();
    crate::laws::machine::openings::<<R::Sealing as Sealing>::Key>();
    crate::laws::machine::ask_turns::<<R::Sealing as Sealing>::Key>();
    laws::transport::items_of_other_layers::<<R::Sealing as Sealing>::Key>();
    laws::transport::ask_checks::<<R::Sealing as Sealing>::Key>();
    laws::transport::guesses_and_material::<<R::Sealing as Sealing>::Key>();
    laws::any_peer::against_any_layers::<<R::Sealing as Sealing>::Key>();
}

/// A cookie of 16 bytes and a secret of 32 are what a transport is fed.
pub fn is_material(cookie: &[u8; 16], secret: &[u8; 32])
    ensures { IsMaterial cookie.now secret.now }
{
    ssh_types::laws::are_bytes(cookie);
    ssh_types::laws::are_bytes(secret);
}
