//! A law of the parts that an end was given. A fact for proofs, at no cost.

ghost use Rattle.std.specs.Prelude.{◌≡◌, List, false, ℕ};
ghost use Rattle.ssh_model.specs.Laws.Supplied.{AgreeOnAnswered, supplied_of};
ghost use Rattle.ssh_model.specs.Laws.Verdicts.{judged_by};
ghost use Rattle.ssh_model.specs.Protocol.Authentication.Requests.{Judge};
ghost use Rattle.ssh_model.specs.Protocol.Sessions.Items.{Item};
ghost use Rattle.ssh_model.specs.Protocol.Sessions.Parties.{Agreement, Parties};
ghost use Rattle.ssh_model.specs.Protocol.Wire.Sealing.{Crypto};
ghost use Rattle.ssh_model.specs.State.TransportLayer.Kept.{ExchangeParts};
ghost use Rattle.ssh_transport_machine.specs.Replies.{Trusts};
ghost use Rattle.ssh_transport_machine.specs.State.{State};
ghost use Rattle.ssh_end_machine.specs.Asking.{UserSignatures};
ghost use Rattle.ssh_end_machine.specs.Layers.{Layers};
ghost use Rattle.ssh_end_machine.specs.Stands.{ServerStandsAt};
ghost use Rattle.ssh_end_machine.specs.Supplying.{ClientStandsAt};

use ssh_model::laws;

/// An end that is not over, and gets another part, stands where it stood: as the end of the parties with that part. Both parts have to agree
/// on each question that the end put to them: on the requests that a server took, on the host keys that a client took, on the signatures
/// that it sent, and on the hashes that a server signed.
pub fn parts_exchanged<K>()
    ensures judge { (p : Parties K) (c : Crypto K) (parts : ExchangeParts) (one other : Judge) (history : List Item) (machine : State K)
        (layers : Layers) → ServerStandsAt p c parts one history machine layers → machine.kept.dead ≡ false →
        AgreeOnAnswered p (record (supplied_of p) { judge = other }) history →
        ServerStandsAt (judged_by other p) c parts other history machine layers }
    ensures host_trust { (p : Parties K) (c : Crypto K) (agreement : Agreement) (one other : Trusts) (signature : UserSignatures)
        (history : List Item) (machine : State K) (layers : Layers) →
        ClientStandsAt p c agreement one signature history machine layers → machine.kept.dead ≡ false →
        AgreeOnAnswered p (record (supplied_of p) { trusts = other }) history →
        ClientStandsAt (record p { trusts = other }) c agreement other signature history machine layers }
    ensures user_signature { (p : Parties K) (c : Crypto K) (agreement : Agreement) (trusts : Trusts) (one other : UserSignatures)
        (history : List Item) (machine : State K) (layers : Layers) →
        ClientStandsAt p c agreement trusts one history machine layers → machine.kept.dead ≡ false →
        AgreeOnAnswered p (record (supplied_of p) { user_signature = other }) history →
        ClientStandsAt (record p { user_signature = other }) c agreement trusts other history machine layers }
    ensures host_signature { (p : Parties K) (c : Crypto K) (parts : ExchangeParts) (judge : Judge) (other : List ℕ → List ℕ → List ℕ)
        (history : List Item) (machine : State K) (layers : Layers) → ServerStandsAt p c parts judge history machine layers →
        machine.kept.dead ≡ false → AgreeOnAnswered p (record (supplied_of p) { host_signature = other }) history →
        ServerStandsAt (record p { host_signature = other }) c (record parts { host_signature = other }) judge history machine layers }
{
    laws::supplied::parts_exchanged::<K>();
    laws::any_peer::against_any_peer::<K>();
}
