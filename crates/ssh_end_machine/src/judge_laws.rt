//! A law of who judges the users of a server. A fact for proofs, at no cost.

ghost use Rattle.std.specs.Prelude.{◌≡◌, List, false};
ghost use Rattle.ssh_model.specs.Laws.Verdicts.{AgreeOnAsked, judged_by};
ghost use Rattle.ssh_model.specs.Protocol.Authentication.Requests.{Judge};
ghost use Rattle.ssh_model.specs.Protocol.Sessions.Items.{Item};
ghost use Rattle.ssh_model.specs.Protocol.Sessions.Parties.{Parties};
ghost use Rattle.ssh_model.specs.Protocol.Wire.Sealing.{Crypto};
ghost use Rattle.ssh_model.specs.State.TransportLayer.Kept.{ExchangeParts};
ghost use Rattle.ssh_end_machine.specs.Layers.{Layers};
ghost use Rattle.ssh_transport_machine.specs.State.{State};
ghost use Rattle.ssh_end_machine.specs.Stands.{ServerStandsAt};

use ssh_model::laws;

/// A server that is not over, and gets another judge of its users, stands where it stood: as the server of the parties with that judge.
/// Both judges have to agree on each request for authentication that it took.
pub fn users_exchanged<K>()
    ensures { (p : Parties K) (c : Crypto K) (parts : ExchangeParts) (one other : Judge) (history : List Item) (machine : State K)
        (layers : Layers) → ServerStandsAt p c parts one history machine layers → machine.kept.dead ≡ false →
        AgreeOnAsked one other history → ServerStandsAt (judged_by other p) c parts other history machine layers }
{
    laws::judges::judges_exchanged::<K>();
    laws::any_peer::against_any_peer::<K>();
}
