//! What an end tells of its next packet before it takes it is what it takes. Facts for proofs, at no cost.

ghost use Rattle.std.specs.Prelude.{◌≡◌, ◌≤◌, ◌++◌, List, None, false, length, take, ℕ};
ghost use Rattle.ssh_model.specs.Protocol.KeyExchange.Exchanges.{choice};
ghost use Rattle.ssh_model.specs.Protocol.Sessions.Epochs.{epoch};
ghost use Rattle.ssh_model.specs.Laws.Supplied.{TakesNone};
ghost use Rattle.ssh_model.specs.Protocol.Sessions.Items.{Item, has_died, sent};
ghost use Rattle.ssh_model.specs.Protocol.Sessions.Parties.{Agreement, AreLawful, Parties};
ghost use Rattle.ssh_model.specs.Protocol.Sessions.Phases.{Phase.Exchanging};
ghost use Rattle.ssh_model.specs.Protocol.Sessions.Transport.{is_point, is_trusted};
ghost use Rattle.ssh_model.specs.Protocol.Sessions.Turns.{OnUnit};
ghost use Rattle.ssh_model.specs.Protocol.Wire.Delivery.{Waits};
ghost use Rattle.ssh_model.specs.Protocol.Wire.Message.{IsPayload, Msg.KexEcdhReply};
ghost use Rattle.ssh_model.specs.Protocol.Wire.Sealing.{Crypto};
ghost use Rattle.ssh_model.specs.State.End.Reading.{end_reading};
ghost use Rattle.ssh_model.specs.State.End.Summary.{EndSumsUp};
ghost use Rattle.ssh_model.specs.State.TransportLayer.Kept.{is_good_point};
ghost use Rattle.ssh_model.specs.declared.side.Side.{Side};
ghost use Rattle.ssh_model.specs.declared.side.Side.TheVariants.{Client};
ghost use Rattle.ssh_transport_machine.specs.Peeking.{AwaitsHashed, Peeks};
ghost use Rattle.ssh_transport_machine.specs.Replies.{Trusts};
ghost use Rattle.ssh_transport_machine.specs.State.{State, buffered_of};
ghost use Rattle.ssh_end_machine.specs.Asking.{UserSignatures};
ghost use Rattle.ssh_end_machine.specs.Layers.{Layers};
ghost use Rattle.ssh_end_machine.specs.Peeking.{AnswersPayload, Foresees, TakesOnly};
ghost use Rattle.ssh_end_machine.specs.Sessions.{end_of};
ghost use Rattle.ssh_end_machine.specs.Steps.{UnitTurned};
ghost use Rattle.ssh_end_machine.specs.declared.step.Step.{Step};
ghost use Rattle.ssh_end_machine.specs.Supplying.{ClientStandsAt};
ghost use Rattle.ssh_model.specs.State.End.State.{EndState};
ghost use Rattle.ssh_transport_machine.specs.Puts.{Outs};

use ssh_model::laws;

/// At each place of a run, what an end tells of its next packet (`Peeks`) is what its session has next (`foreseen`). A turn of the session
/// by bytes that begin so answers that payload (`answered`), takes nothing else (`taken`),
/// and the session does not wait for more (`whole`). Where the end tells of none, a turn by the bytes takes no payload (`unforeseen`).
pub fn peeked_is_answered<K>()
    ensures foreseen { (p : Parties K) (side : Side) (history : List Item) (machine : State K) (layers : Layers) →
        EndSumsUp p side history (end_of machine.kept layers) → (bytes payload : List ℕ) →
        Peeks p.crypto machine bytes payload → Foresees p side history (buffered_of machine) bytes payload }
    ensures answered { (p : Parties K) (side : Side) (history : List Item) (held bytes payload : List ℕ) → AreLawful p →
        Foresees p side history held bytes payload → (used : ℕ) (items : List Item) → OnUnit p side history (held ++ take used bytes) items →
        AnswersPayload p side history payload items }
    ensures taken { (p : Parties K) (side : Side) (history : List Item) (held bytes payload : List ℕ) → AreLawful p →
        Foresees p side history held bytes payload → (used : ℕ) (shown : List ℕ) (done : Step) (new : EndState K) (o : Outs) →
        (x : UnitTurned p side history (held ++ take used bytes) shown done new o) → TakesOnly payload x.items }
    ensures unforeseen { (p : Parties K) (side : Side) (history : List Item) (machine : State K) (layers : Layers) →
        EndSumsUp p side history (end_of machine.kept layers) → machine.kept.dead ≡ false → machine.kept.taking ≡ machine.receiver.direction →
        machine.receiver.ended ≡ None → (bytes : List ℕ) → ((payload : List ℕ) → Peeks p.crypto machine bytes payload → ⊥) → (used : ℕ) →
        used ≤ length bytes → (items : List Item) → OnUnit p side history (buffered_of machine ++ take used bytes) items → TakesNone items }
    ensures whole { (p : Parties K) (side : Side) (history : List Item) (held bytes payload : List ℕ) → AreLawful p →
        Foresees p side history held bytes payload → has_died history ≡ false →
        Waits (end_reading p side) history (held ++ bytes) → ⊥ }
{
    laws::stream_units::<K>();
    laws::transport::same_units::<K>();
}

/// At each place of a run of a client, the hash that it tells for a reply (`AwaitsHashed`) is the one over which the host of that reply is
/// judged in its session (`judged`). The points that are good for it are those of the session (`points`).
pub fn replies_are_hashed<K>()
    ensures judged { (p : Parties K) (c : Crypto K) (agreement : Agreement) (trusts : Trusts) (user : UserSignatures) (history : List Item)
        (machine : State K) (layers : Layers) → ClientStandsAt p c agreement trusts user history machine layers →
        (payload hash k_s q_s signature : List ℕ) → AwaitsHashed agreement machine.kept payload hash →
        IsPayload false (KexEcdhReply k_s q_s signature) payload → is_trusted p history k_s q_s signature
        ≡ p.trusts (choice Client (epoch (sent history)) history).host k_s hash signature }
    ensures points { (p : Parties K) (c : Crypto K) (agreement : Agreement) (trusts : Trusts) (user : UserSignatures) (history : List Item)
        (machine : State K) (layers : Layers) → ClientStandsAt p c agreement trusts user history machine layers →
        machine.kept.dead ≡ false → machine.kept.phase ≡ Exchanging → (point : List ℕ) →
        is_point p Client history point ≡ is_good_point agreement machine.kept point }
{
    laws::one_message();
    laws::transport::checks::<K>();
    laws::supplied::parts_exchanged::<K>();
}
