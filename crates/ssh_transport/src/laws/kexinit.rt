//! Laws of what an end makes of its peer's KEXINIT. Facts for proofs, at no cost.

ghost use Rattle.ssh_model.specs.declared.side.Side.{Side};
ghost use Rattle.ssh_transport.specs.Laws.{DiesOfKexinits, StandsAfterKexinits, TakesKexinits};

use ssh_model::laws;

/// What an end does with its peer's KEXINIT that nothing refuses is what an end of its side does in a session whose agreement it has.
/// If memory is refused, something would be sent in a session.
pub fn kexinits_taken<K>()
    ensures taken { (side : Side) → TakesKexinits K side }
    ensures died { (side : Side) → DiesOfKexinits K side }
{
    laws::payload_numbers();
    laws::transport::payload_is_one_turn::<K>();
}

/// What holds of a live machine goes on holding with a KEXINIT that is answered, by which there is a choice.
pub fn kexinits_stand<K>()
    ensures { (side : Side) → StandsAfterKexinits K side }
{
    crate::laws::exchanges_live::<K>();
    crate::laws::machine::live_machines::<K>();
    crate::laws::choices_kept::<K>();
}
