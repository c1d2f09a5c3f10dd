//! Laws of an end's turns: what it does is what an end of a session does. Facts for proofs, at no cost.

ghost use Rattle.std.specs.Prelude.{◌≡◌, ◌++◌, ◌↔◌, List, [], false, true, ℕ};
ghost use Rattle.ssh_model.specs.Protocol.Wire.Delivery.{Delivered};
ghost use Rattle.ssh_model.specs.Laws.Delivery.{InPieces};
ghost use Rattle.ssh_model.specs.State.End.Reading.{end_reading};
ghost use Rattle.ssh_model.specs.Protocol.Sessions.Items.{Item};
ghost use Rattle.ssh_model.specs.Protocol.Sessions.Parties.{Parties, Settings};
ghost use Rattle.ssh_model.specs.declared.side.Side.{Side};
ghost use Rattle.ssh_model.specs.Protocol.Wire.Sealing.{Crypto};
ghost use Rattle.ssh_transport_machine.specs.Opening.{IsOpened};
ghost use Rattle.ssh_transport_machine.specs.Puts.{Outs};
ghost use Rattle.ssh_transport_machine.specs.State.{State, buffered_of};
ghost use Rattle.ssh_end_machine.specs.Layers.{Layers};
ghost use Rattle.ssh_end_machine.specs.Places.{EndLifts, StandsAfter, TookUnit, Waited};
ghost use Rattle.ssh_end_machine.specs.RoleValues.{RoleValue};
ghost use Rattle.ssh_end_machine.specs.Reading.{IsReading};
ghost use Rattle.ssh_end_machine.specs.Sessions.{AreOf, end_of};
ghost use Rattle.ssh_end_machine.specs.declared.step.Step.{Step};

use crate::role::EndRole;
use ssh_packet::Sealing;
use ssh_transport::Role;

/// What an end does is what the end of a session does of the parties whose parts it has. Where it stands after a history:
///
/// - bytes that are no whole line or packet yet are those for which the end of a session waits. They are buffered, nothing is put out, and
///   it stands where it stood;
/// - else the bytes are one line or one packet. What is shown, put out and listed is a turn of a session by them, after which the end
///   stands. No byte is buffered;
/// - where it answers that memory was refused, the end of a session dies;
/// - what comes of an ask is a turn of a session, after which the end stands.
pub fn ends_lift<R: EndRole>()
    ensures { EndLifts R.Exchange.SIDE R.Exchange.Sealing.crypto (λ (w : RoleValue R.Exchange R) p. R.is_of w.exchange w.own p)
        (λ w. R.Exchange.does w.exchange) (λ w. R.Exchange.needs_memory w.exchange) (λ w. R.judging w.own) (λ w. R.signing w.own) }
{
    R::has_parts();
    R::Exchange::lifts();
    ssh_transport::laws::units_taken::<R::Exchange>();
    ssh_transport::laws::turns_left::<R::Exchange>();
    crate::fact_laws::facts_told();
    ssh_model::laws::end::transport_turns::<<<R::Exchange as Role>::Sealing as Sealing>::Key>();
    ssh_model::laws::end::unit_turns::<<<R::Exchange as Role>::Sealing as Sealing>::Key>();
    ssh_model::laws::end::payload_is_one_turn::<<<R::Exchange as Role>::Sealing as Sealing>::Key>();
    ssh_model::laws::end::exchange_ends::<<<R::Exchange as Role>::Sealing as Sealing>::Key>();
    ssh_model::laws::end::owed_replies::<<<R::Exchange as Role>::Sealing as Sealing>::Key>();
    ssh_model::laws::end::peer_numbers::<<<R::Exchange as Role>::Sealing as Sealing>::Key>();
    ssh_model::laws::end::waiting::<<<R::Exchange as Role>::Sealing as Sealing>::Key>();
    ssh_model::laws::stream_units::<<<R::Exchange as Role>::Sealing as Sealing>::Key>();
    ssh_transport::laws::machine::unit_turns::<<<R::Exchange as Role>::Sealing as Sealing>::Key>();
    ssh_model::laws::end::identified::<<<R::Exchange as Role>::Sealing as Sealing>::Key>();
    ssh_model::laws::end::unit_is_one_turn::<<<R::Exchange as Role>::Sealing as Sealing>::Key>();
    ssh_model::laws::end::deaths::<<<R::Exchange as Role>::Sealing as Sealing>::Key>();
    ssh_model::laws::end::ask_is_one_turn::<<<R::Exchange as Role>::Sealing as Sealing>::Key>();
    ssh_model::laws::one_end::kept_by_one_end::<<<R::Exchange as Role>::Sealing as Sealing>::Key>();
    ssh_model::laws::any_peer::against_any_peer::<
        <<R::Exchange as Role>::Sealing as Sealing>::Key,
    >();
}

/// How bytes are cut into pieces does not change what an end does. At each place of a run take a piece and then another, with no ask
/// between. They allow the same histories and leave the same bytes as the one piece of both (`pieces`).
///
/// The other clauses make such a delivery of the calls. Bytes that a call took as one line or one packet stand in front of what is made of
/// the bytes after them (`takes`). Bytes of no whole one are left (`waits`), and an end that is over drops all (`dead`).
pub fn any_pieces<R: EndRole>()
    ensures pieces { (role : RoleValue R.Exchange R) (p : Parties R.Exchange.Sealing.Key) (history : List Item)
        (machine : State R.Exchange.Sealing.Key)
        (layers : Layers) →
        StandsAfter p R.Exchange.SIDE (R.is_of role.exchange role.own p) (AreOf p layers) history machine (end_of machine.kept layers) →
        (last : List Item) (one two rest : List ℕ) → Delivered (end_reading p R.Exchange.SIDE) history (one ++ two) last rest ↔
        InPieces (end_reading p R.Exchange.SIDE) history one two last rest }
    ensures takes { (role : RoleValue R.Exchange R) (p : Parties R.Exchange.Sealing.Key) (history : List Item)
        (machine : State R.Exchange.Sealing.Key)
        (layers : Layers) →
        StandsAfter p R.Exchange.SIDE (R.is_of role.exchange role.own p) (AreOf p layers) history machine (end_of machine.kept layers) →
        machine.kept.dead ≡ false → (unit : List ℕ) (done : Step) (new : State R.Exchange.Sealing.Key) (later : Layers) (o : Outs) →
        (x : TookUnit p R.Exchange.SIDE (R.is_of role.exchange role.own p) (AreOf p later) history unit done new (end_of new.kept later)
        o) → (following : List ℕ) (last : List Item) (rest : List ℕ) →
        Delivered (end_reading p R.Exchange.SIDE) (x.turned.items ++ history) following last rest →
        Delivered (end_reading p R.Exchange.SIDE) history (unit ++ following) last rest }
    ensures waits { (role : RoleValue R.Exchange R) (p : Parties R.Exchange.Sealing.Key) (history : List Item)
        (machine : State R.Exchange.Sealing.Key)
        (layers : Layers) →
        StandsAfter p R.Exchange.SIDE (R.is_of role.exchange role.own p) (AreOf p layers) history machine (end_of machine.kept layers) →
        machine.kept.dead ≡ false → (bytes : List ℕ) (new : State R.Exchange.Sealing.Key) (later : Layers) (o : Outs) →
        Waited p R.Exchange.SIDE (R.is_of role.exchange role.own p) (AreOf p later) history bytes new (end_of new.kept later) o →
        Delivered (end_reading p R.Exchange.SIDE) history bytes history bytes }
    ensures dead { (role : RoleValue R.Exchange R) (p : Parties R.Exchange.Sealing.Key) (history : List Item)
        (machine : State R.Exchange.Sealing.Key)
        (layers : Layers) →
        StandsAfter p R.Exchange.SIDE (R.is_of role.exchange role.own p) (AreOf p layers) history machine (end_of machine.kept layers) →
        machine.kept.dead ≡ true → (bytes : List ℕ) → Delivered (end_reading p R.Exchange.SIDE) history bytes history [] }
{
    ssh_model::laws::end::pieces::<<<R::Exchange as Role>::Sealing as Sealing>::Key>();
    ssh_model::laws::end::deliveries::<<<R::Exchange as Role>::Sealing as Sealing>::Key>();
}

/// An end that was just made holds no byte of a line or a packet.
pub fn new_ends_read<K>()
    ensures reading { (c : Crypto K) (settings : Settings) (side : Side) (cookie secret : List ℕ) (new : State K) (o : Outs) →
        IsOpened c settings side cookie secret new o → IsReading c new }
    ensures buffered { (c : Crypto K) (settings : Settings) (side : Side) (cookie secret : List ℕ) (new : State K) (o : Outs) →
        IsOpened c settings side cookie secret new o → buffered_of new ≡ [] }
{}
