//! Laws of the machine in a session. If what it keeps sums up the history of an end, then it does with a line, a packet, a
//! payload or an ask what that end does. Facts for proofs, at no cost.

ghost use Rattle.std.specs.Prelude.{◌≡◌, ◌<◌, List, ℕ, false, true};
ghost use Rattle.ssh_model.specs.declared.side.Side.{Side};
ghost use Rattle.ssh_model.specs.Protocol.Wire.Message.{Msg};
ghost use Rattle.ssh_model.specs.Protocol.Wire.Sealing.{Crypto};
ghost use Rattle.ssh_model.specs.Protocol.Sessions.Items.{Ask, Ask.AskDisconnect, Item};
ghost use Rattle.ssh_model.specs.Protocol.Sessions.Parties.{Parties, Settings, settings_of};
ghost use Rattle.ssh_model.specs.State.TransportLayer.Kept.{Transport, after_fed, after_sent, after_taken, can_be_fed};
ghost use Rattle.ssh_model.specs.State.TransportLayer.Summary.{SumsUp};
ghost use Rattle.ssh_model.specs.State.TransportLayer.Turns.{IsTransportAsk};
ghost use Rattle.ssh_transport.specs.Asking.{AskDone, DisconnectDone};
ghost use Rattle.ssh_transport_machine.specs.LineTurns.{LineTaken};
ghost use Rattle.ssh_transport_machine.specs.Opening.{IsOpened};
ghost use Rattle.ssh_transport_machine.specs.Puts.{Outs};
ghost use Rattle.ssh_transport.specs.Shown.{IsAskTurn, IsOpening, LineTurnOf, PacketTurnOf, WouldAnswer, WouldAnswerPacket};
ghost use Rattle.ssh_transport_machine.specs.State.{State};
ghost use Rattle.ssh_transport.specs.Living.{IsKeptLive, IsLive};
ghost use Rattle.ssh_transport_machine.specs.Answering.{Answers};
ghost use Rattle.ssh_transport.specs.Dispatching.{PacketNeedsMemory, PacketTaken, TurnNeedsMemory};
ghost use Rattle.ssh_transport_machine.specs.declared.machine.LineTurn.{LineTurn};
ghost use Rattle.ssh_transport_machine.specs.declared.machine.sending.SendOutcome.{SendOutcome};
ghost use Rattle.ssh_transport.specs.declared.outcome.AskTurn.{AskTurn};
ghost use Rattle.ssh_transport.specs.Own.{Share};

use ssh_model::laws;

/// What a machine does on an ask for a service, for an exchange of keys, or to disconnect, is a turn of a session.
pub fn ask_turns<K>()
    ensures asked { (p : Parties K) (side : Side) (history : List Item) (old : State K) → SumsUp p side history old.kept →
        old.kept.dead ≡ false → (ask : Ask) (done : AskTurn) (new : State K) (o : Outs) → IsTransportAsk ask →
        AskDone p.crypto old ask done new o → IsAskTurn p side history ask done new.kept o }
    ensures disconnected { (p : Parties K) (side : Side) (history : List Item) (old : State K) → SumsUp p side history old.kept →
        old.kept.dead ≡ false → (description : List ℕ) (done : AskTurn) (new : State K) (o : Outs) →
        DisconnectDone p.crypto old description done new o → IsAskTurn p side history (AskDisconnect description) done new.kept o }
{
    laws::transport::ask_turns::<K>();
    laws::transport::refused_and_spent::<K>();
}

/// What a machine finds in a line or a packet is what an end of a session finds; and where it refuses that, it does as one.
pub fn unit_turns<K>()
    ensures lines { (p : Parties K) (side : Side) (history : List Item) (old : State K) → SumsUp p side history old.kept →
        old.kept.dead ≡ false → IsLive old → old.kept.lines.found ≡ false → (bytes : List ℕ) (done : LineTurn) (new : State K) →
        LineTaken old bytes done new → LineTurnOf p side history old.kept bytes done new }
    ensures packets { (p : Parties K) (side : Side) (history : List Item) (old : State K) → SumsUp p side history old.kept →
        old.kept.dead ≡ false → IsLive old → old.kept.lines.found ≡ true →
        (bytes : List ℕ) (done : Share) (new : State K) (o : Outs) → PacketTaken p.crypto old bytes done new o →
        PacketTurnOf p side history old.kept bytes done new o }
{
    laws::transport::same_units::<K>();
    laws::transport::lines_are_summed_up::<K>();
    laws::transport::payload_is_one_turn::<K>();
    laws::payload_numbers();
}

/// What a new machine keeps sums up the history of its opening, and it put out what an end of a session puts out.
pub fn openings<K>()
    ensures { (p : Parties K) (side : Side) (cookie secret : List ℕ) (new : State K) (o : Outs) →
        IsOpened p.crypto (settings_of p side) side cookie secret new o → IsOpening p side cookie secret new.kept o }
{
    laws::transport::new_transports::<K>();
}

/// What holds of a machine that is not over holds of a new one, and goes on holding: with each line and packet, and with each ask.
/// What an end does in a turn of its own keeps it where the readers are as before, and what is kept has it.
pub fn live_machines<K>()
    // A new machine, and one that took a line or a packet.
    ensures opened { (c : Crypto K) (settings : Settings) (side : Side) (cookie secret : List ℕ) (new : State K) (o : Outs) →
        IsOpened c settings side cookie secret new o → IsLive new }
    ensures lines { (old : State K) (bytes : List ℕ) (done : LineTurn) (new : State K) → IsLive old → LineTaken old bytes done new →
        new.kept.dead ≡ false → IsLive new }
    ensures packets { (c : Crypto K) (old : State K) (bytes : List ℕ) (done : Share) (new : State K) (o : Outs) →
        IsLive old → PacketTaken c old bytes done new o → new.kept.dead ≡ false → IsLive new }
    // One that was asked, that sent an answer, and that was fed a pair.
    ensures asks { (c : Crypto K) (old : State K) (ask : Ask) (done : AskTurn) (new : State K) (o : Outs) → IsLive old →
        AskDone c old ask done new o → new.kept.dead ≡ false → IsLive new }
    ensures answers { (c : Crypto K) (old : State K) (message : Msg) (answer : SendOutcome) (new : State K) (o : Outs) → IsLive old →
        Answers c old message (after_sent old.kept) answer new o → new.kept.dead ≡ false → IsLive new }
    ensures fed { (old new : State K) (cookie secret : List ℕ) → IsLive old → can_be_fed old.kept ≡ true →
        new ≡ record old { kept = after_fed cookie secret old.kept } → IsLive new }
    // One whose readers are as before.
    ensures others { (old new : State K) (kept : Transport K) → new ≡ record old { kept = kept } → kept.lines ≡ old.kept.lines →
        kept.side ≡ old.kept.side → kept.taking ≡ old.kept.taking → IsKeptLive kept → IsLive old → IsLive new }
{}

/// Where a machine answers that memory was refused, something would be sent in a session on the payload or the packet. It has
/// an encoding, and a number of its own.
pub fn memory_deaths<K>()
    ensures payloads { (p : Parties K) (side : Side) (history : List Item) (s : Transport K) → SumsUp p side history s → s.dead ≡ false →
        (old : State K) → old.kept ≡ after_taken s → TurnNeedsMemory old → WouldAnswer p side s old.receiver.payload }
    ensures packets { (p : Parties K) (side : Side) (history : List Item) (old : State K) → SumsUp p side history old.kept →
        old.kept.dead ≡ false → IsLive old → old.kept.lines.found ≡ true → (bytes : List ℕ) → PacketNeedsMemory p.crypto old bytes →
        WouldAnswerPacket p side old.kept bytes }
{
    laws::transport::same_units::<K>();
    laws::transport::lines_are_summed_up::<K>();
    laws::transport::payload_is_one_turn::<K>();
    laws::payload_numbers();
}
