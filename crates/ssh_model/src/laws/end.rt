//! Laws of the state of an end of a session: from its transport, its authentication and its channels to one turn of a
//! session. An end is proved against its state alone, and these laws turn that into claims on histories.
//!
//! # What an end has to meet
//!
//! Its state is `EndState` (`specs/State/End/State.antt`): the `Transport`, the state of authentication at its side, and the `Channels`.
//! It holds no logic of its own, except which layer judges the input and in which order things go out. Its rows mention no history:
//!
//! - a new one: it is `new_end`, having put out its line and its first KEXINIT (`end::openings`).
//! - take a unit of its stream: `TakesUnit`: a line by the transport, a packet refused, or a payload that is opened
//!   (`end::unit_is_one_turn`: `taken`).
//! - take a payload: `TakesPayload`. Below 50: the rows of a transport, and the end of an exchange with the replies that are owed after
//!   it. From 50 on: `ReadsAbove`, refused by the first of `above_checks` that holds, else `AnswersAbove`. `AnswersAbove` is
//!   authentication to 79, the channels from 80 on, UNIMPLEMENTED to an unknown number (`end::payload_is_one_turn`, `end::layers_above`).
//! - only a prefix of a unit is there: it waits (`end::waiting`).
//! - an ask: `TakesAsk`: refused by the first of `end_ask_checks` that holds, else by the layer that the ask is for
//!   (`end::ask_is_one_turn`: `refused`, `taken`).
//! - memory fails in a turn: `WouldTake` of the payload, in which something is sent or a channel made; `CanSay` of a refusal; an ask that
//!   nothing refuses (the same).
//! - fed a pair: `TakesPair` (`end::feed_is_one_turn`: `taken`).
//!
//! The laws speak of `EndSumsUp p side history`. Each gives an `EndTurned` of its rule (`OnUnit`, `OnPayload`, `AsksTurn`, `FeedsTurn`),
//! which says three things. The items are a turn of a session. The state after the turn sums up the history with them. The bytes put out
//! are those of `PutsOut`. The clauses `run` continue the `EndRun` of the end.
//!
//! A transport that lifts its own rows is cited as it stands. `end::transport_turns` and `end::unit_turns` make an `EndTurned` of its
//! `Turned`, `AskTurned`, `UnitRefused` and lines. `end::exchange_ends` makes one of its `EndedBy` with the replies that were owed, and
//! `end::deaths` makes one of a death of a session.
//!
//! `end::pieces` is the law of bytes in any pieces. `end::deliveries` puts a unit in front of what an end makes of the bytes after it
//! (`unit`, with `waits` and `dead` at the end). It takes the whole to the run of the end (`run`), and to a delivery in a run of two
//! (`session`).
//!
//! `end::identified` says who has a session id: an end that goes on, outside an exchange (`normal`), and of lawful parties a client whose
//! authentication was opened (`opened`).
//!
//! Two laws are about an end of lawful parties. `end::owed_replies` says that the replies that it owes can all be given and have
//! encodings (`CanSettle`). `end::peer_numbers` says that the numbers that the peer gave its channels are uint32s.
//!
//! Where a number or memory is wanting, nothing is written. So the message that would have been sent has to be shown to have an encoding.
//! `encodings` and `request_encodings` say so of each message, `end::owed_replies` of all replies that are owed. An end that is not
//! blocked may write over the secret of the exchange (`end::secrets`, `transport::secrets`).
//!
//! Lemmas that the layers above need stand in `specs/Laws/`, and are cited as the definitions are. They say that messages have encodings
//! (`Written`, `Farewells`), and that the number of a sender is a uint32 (`Senders`). They say what follows from checks that refuse
//! nothing (`Checks`), and that a table with room has a free place (`Places`).

ghost use Rattle.std.specs.Prelude.{◌≡◌, ◌<◌, ◌≤◌, ◌^◌, ◌++◌, ◌↔◌, ℕ, List, [], ◌∷◌, None, true, false};
ghost use Rattle.ssh_model.specs.declared.side.Side.{Side};
ghost use Rattle.ssh_model.specs.declared.side.Side.TheVariants.{Client};
ghost use Rattle.ssh_model.specs.Protocol.Side.{part};
ghost use Rattle.ssh_model.specs.Protocol.Wire.Message.{Msg, Msg.KexInit};
ghost use Rattle.ssh_model.specs.Protocol.Wire.Line.{line_end};
ghost use Rattle.ssh_model.specs.Laws.Units.{IsPartialLine, IsPartialPacket};
ghost use Rattle.ssh_model.specs.Protocol.Wire.Sealing.{IsSealing};
ghost use Rattle.ssh_model.specs.Protocol.Wire.Unit.{IsUnit};
ghost use Rattle.ssh_model.specs.Protocol.Wire.Outcome.{Outcome.OtherLine, Outcome.VersionLine, Outcome.RefusedLine, Outcome.Opens};
ghost use Rattle.ssh_model.specs.Protocol.Wire.Outcome.{Outcome.RefusedPacket};
ghost use Rattle.ssh_model.specs.Protocol.Wire.Delivery.{Delivered, Waits};
ghost use Rattle.ssh_model.specs.Laws.Delivery.{InPieces};
ghost use Rattle.ssh_model.specs.Protocol.KeyExchange.Exchanges.{exchanges, session_id};
ghost use Rattle.ssh_model.specs.declared.refusal.Refusal.{Refusal};
ghost use Rattle.ssh_model.specs.Protocol.Sessions.Refusals.{first_refusal};
ghost use Rattle.ssh_model.specs.Protocol.Sessions.Parties.{AreLawful, Parties, offer, settings_of};
ghost use Rattle.ssh_model.specs.Protocol.Sessions.Items.{Ask, Done, Item, Fact.Completed, Item.Fed, Item.SentLine, Item.Sent, Item.Took};
ghost use Rattle.ssh_model.specs.Protocol.Sessions.Items.{Item.TookLine, Item.TookOtherLine, Item.Told, Item.Died, Encoded.EncodedBy};
ghost use Rattle.ssh_model.specs.Protocol.Sessions.Items.{messages_sent};
ghost use Rattle.ssh_model.specs.Protocol.Sessions.Phases.{Phase.Normal, may_take, probing};
ghost use Rattle.ssh_model.specs.Protocol.Sessions.Turns.{AsksTurn, EndRun, FeedsTurn, IsMaterial, OnPayload, OnUnit, answer_checks};
ghost use Rattle.ssh_model.specs.Protocol.Sessions.Turns.{ask_checks, stage};
ghost use Rattle.ssh_model.specs.State.TransportLayer.Directions.{new_direction};
ghost use Rattle.ssh_model.specs.State.TransportLayer.Kept.{Transport, after_wiping};
ghost use Rattle.ssh_model.specs.State.TransportLayer.Summary.{SumsUp};
ghost use Rattle.ssh_model.specs.State.TransportLayer.Turns.{AskTurned, EndedBy, PutsPackets, Turned, UnitRefused};
ghost use Rattle.ssh_model.specs.State.End.State.{Authentication.OfClient, EndState, above_checks, after_items, new_end, probes};
ghost use Rattle.ssh_model.specs.State.End.State.{session_of, takes_above};
ghost use Rattle.ssh_model.specs.State.End.Summary.{EndSumsUp, EndTurned, HasOpened};
ghost use Rattle.ssh_model.specs.State.End.Payloads.{GivesOwed, ReadsAbove, TakesPayload};
ghost use Rattle.ssh_model.specs.State.End.Below.{AreBelow, opened_by_all};
ghost use Rattle.ssh_model.specs.Protocol.Channels.Connection.{AreReplies, owed_replies};
ghost use Rattle.ssh_model.specs.State.Authentication.Kept as kept;
ghost use Rattle.ssh_model.specs.State.Channels.Kept.{Channels, peer_of};
ghost use Rattle.ssh_model.specs.State.Channels.Places.{at};
ghost use Rattle.ssh_model.specs.State.End.Deaths.{CanSettle};
ghost use Rattle.ssh_model.specs.State.End.Units.{TakesPair, TakesUnit};
ghost use Rattle.ssh_model.specs.State.End.Asks.{TakesAsk, end_ask_checks};
ghost use Rattle.ssh_model.specs.State.End.Reading.{DeliversTo, end_reading};

/// An end that was fed a pair and put out its version line with CR LF and a packet of its first KEXINIT has opened, and
/// its state sums up its opening, with which its run begins.
pub fn openings<K>()
    ensures opened { (p : Parties K) (side : Side) (cookie secret payload more : List ℕ) → IsMaterial cookie secret →
        PutsPackets p.crypto new_direction (EncodedBy (KexInit (offer p side true cookie)) payload ∷ []) more →
        HasOpened p side (Sent None (KexInit (offer p side true cookie)) payload ∷ SentLine (settings_of p side).line ∷ Fed cookie secret
        ∷ []) (((settings_of p side).line ++ line_end) ++ more) (new_end (settings_of p side) side secret payload) }
    ensures run { (p : Parties K) (side : Side) (items : List Item) (bytes : List ℕ) (e : EndState K) → HasOpened p side items bytes e →
        EndRun p side items }
{}

/// Outside an exchange an end, by its state, takes the numbers from 50 on that a session takes. It refuses the messages
/// that may be taken as a session does. It knows the session id, and whether a key probe is outstanding.
pub fn layers_above<K>()
    ensures numbers { (p : Parties K) (side : Side) (history : List Item) (e : EndState K) → EndSumsUp p side history e →
        e.transport.dead ≡ false → (number : ℕ) → 50 ≤ number → e.transport.phase ≡ Normal →
        may_take p side history number ≡ takes_above e number }
    ensures refused { (p : Parties K) (side : Side) (history : List Item) (e : EndState K) → EndSumsUp p side history e →
        e.transport.dead ≡ false → (message : Msg) (payload : List ℕ) → ReadsAbove e message payload →
        first_refusal (answer_checks p side history message) ≡ first_refusal (above_checks p e message) }
    ensures session { (p : Parties K) (side : Side) (history : List Item) (e : EndState K) → EndSumsUp p side history e →
        e.transport.dead ≡ false → e.transport.phase ≡ Normal → session_of e ≡ session_id (exchanges p side history) }
    ensures probes { (p : Parties K) (side : Side) (history : List Item) (e : EndState K) → EndSumsUp p side history e →
        e.transport.dead ≡ false → probing history ≡ probes e.authentication }
{}

/// Outside an exchange an end that goes on has a session id, and so has a client whose authentication was opened.
pub fn identified<K>()
    ensures normal { (p : Parties K) (side : Side) (history : List Item) (e : EndState K) → EndSumsUp p side history e →
        EndRun p side history → e.transport.dead ≡ false → e.transport.phase ≡ Normal → e.transport.session ≡ None → ⊥ }
    ensures opened { (p : Parties K) → AreLawful p → (history : List Item) (transport : Transport K) (client : kept.Client)
        (channels : Channels) → EndSumsUp p Client history
        (record { transport = transport; authentication = OfClient client; channels = channels }) → EndRun p Client history →
        transport.dead ≡ false → client.opened ≡ true → transport.session ≡ None → ⊥ }
{}

/// The turn of an end on a payload, of whichever layer, is a turn of a session. The end's state goes on summing up its
/// history, and its bytes are put out.
pub fn payload_is_one_turn<K>()
    ensures { (p : Parties K) (side : Side) (history : List Item) (e : EndState K) → EndSumsUp p side history e →
        e.transport.dead ≡ false → (payload : List ℕ) (items : List Item) (more : List ℕ) (new : EndState K) →
        TakesPayload p side e payload items more new → EndTurned p side history (OnPayload p side history payload) items more new }
{}

/// A turn of the transport alone is a turn of the end. The states of the layers above stay, except that SERVICE_ACCEPT opens
/// authentication. If the transport is over, so is the end.
pub fn transport_turns<K>()
    ensures payload { (p : Parties K) (side : Side) (history : List Item) (e : EndState K) → EndSumsUp p side history e →
        e.transport.dead ≡ false → (payload : List ℕ) (items : List Item) (more : List ℕ) (transport : Transport K) → AreBelow items →
        Turned p side history payload items more transport →
        EndTurned p side history (OnPayload p side history payload) items more
        (record e { transport = transport; authentication = opened_by_all items e.authentication }) }
    ensures payload_over { (p : Parties K) (side : Side) (history : List Item) (e : EndState K) → EndSumsUp p side history e →
        e.transport.dead ≡ false → (payload : List ℕ) (items : List Item) (more : List ℕ) (new : EndState K) →
        Turned p side history payload items more new.transport → new.transport.dead ≡ true →
        EndTurned p side history (OnPayload p side history payload) items more new }
    ensures ask { (p : Parties K) (side : Side) (history : List Item) (e : EndState K) → EndSumsUp p side history e →
        e.transport.dead ≡ false → (ask : Ask) (items : List Item) (more : List ℕ) (transport : Transport K) → AreBelow items →
        AskTurned p side history ask items more transport → EndTurned p side history (AsksTurn p side history ask) items more
        (record e { transport = transport; authentication = opened_by_all items e.authentication }) }
    ensures ask_over { (p : Parties K) (side : Side) (history : List Item) (e : EndState K) → EndSumsUp p side history e →
        e.transport.dead ≡ false → (ask : Ask) (items : List Item) (more : List ℕ) (new : EndState K) →
        AskTurned p side history ask items more new.transport → new.transport.dead ≡ true →
        EndTurned p side history (AsksTurn p side history ask) items more new }
{}

/// A unit that is a line, or a packet that is refused, is a turn of the end by its transport's turn on it. A packet of a
/// payload is one by the end's turn on the payload.
pub fn unit_turns<K>()
    ensures version { (p : Parties K) (side : Side) (history : List Item) (e : EndState K) → EndSumsUp p side history e →
        e.transport.dead ≡ false → (unit line : List ℕ) (transport : Transport K) →
        IsUnit p.crypto (stage p side history) unit (VersionLine line) → SumsUp p side (TookLine line ∷ history) transport →
        EndTurned p side history (OnUnit p side history unit) (TookLine line ∷ []) [] (record e { transport = transport }) }
    ensures other { (p : Parties K) (side : Side) (history : List Item) (e : EndState K) → EndSumsUp p side history e →
        e.transport.dead ≡ false → (unit line : List ℕ) (transport : Transport K) →
        IsUnit p.crypto (stage p side history) unit (OtherLine line) → SumsUp p side (TookOtherLine line ∷ history) transport →
        EndTurned p side history (OnUnit p side history unit) (TookOtherLine line ∷ []) [] (record e { transport = transport }) }
    ensures refused_line { (p : Parties K) (side : Side) (history : List Item) (e : EndState K) → EndSumsUp p side history e →
        e.transport.dead ≡ false → (unit : List ℕ) (refusal : Refusal) (items : List Item) (more : List ℕ) (new : EndState K) →
        IsUnit p.crypto (stage p side history) unit (RefusedLine refusal) → UnitRefused p side history items refusal more new.transport →
        new.transport.dead ≡ true → EndTurned p side history (OnUnit p side history unit) items more new }
    ensures refused_packet { (p : Parties K) (side : Side) (history : List Item) (e : EndState K) → EndSumsUp p side history e →
        e.transport.dead ≡ false → (unit : List ℕ) (refusal : Refusal) (items : List Item) (more : List ℕ) (new : EndState K) →
        IsUnit p.crypto (stage p side history) unit (RefusedPacket refusal) →
        UnitRefused p side history items refusal more new.transport → new.transport.dead ≡ true →
        EndTurned p side history (OnUnit p side history unit) items more new }
    ensures opened { (p : Parties K) (side : Side) (history : List Item) (e : EndState K) → EndSumsUp p side history e →
        e.transport.dead ≡ false → (unit payload : List ℕ) (items : List Item) (more : List ℕ) (new : EndState K) →
        IsUnit p.crypto (stage p side history) unit (Opens payload) →
        EndTurned p side history (OnPayload p side history payload) items more new →
        EndTurned p side history (OnUnit p side history unit) items more new }
{}

/// The messages that end an exchange at the transport, with all replies that were owed after it, and then the fact that is told, are a
/// turn of the end. The replies that are sent are those that a session owes.
pub fn exchange_ends<K>()
    ensures ended { (p : Parties K) (side : Side) (history : List Item) (e : EndState K) → EndSumsUp p side history e →
        e.transport.dead ≡ false → (message : Msg) (payload : List ℕ) (position : ℕ) (items : List Item) (more later : List ℕ)
        (transport : Transport K) (owed : List Item) (channels : Channels) →
        EndedBy p side history message payload position items more transport → transport.dead ≡ false →
        GivesOwed e.channels owed channels → channels.owed ≡ [] → PutsPackets p.crypto transport.sending (messages_sent owed) later →
        EndTurned p side history (OnPayload p side history payload)
        ((Told (Completed position) ∷ (owed ++ items)) ++ Took None message payload ∷ []) (more ++ later)
        (record e { transport = after_items side owed transport; channels = channels }) }
    ensures given { (p : Parties K) (side : Side) (history : List Item) (e : EndState K) → EndSumsUp p side history e →
        e.transport.dead ≡ false → (owed : List Item) (channels : Channels) → GivesOwed e.channels owed channels → channels.owed ≡ [] →
        AreReplies (owed_replies side history) owed }
{}

/// If a session may die because memory fails, so may an end.
pub fn deaths<K>()
    ensures units { (p : Parties K) (side : Side) (history : List Item) (unit : List ℕ) (new : EndState K) →
        OnUnit p side history unit (Died ∷ []) → new.transport.dead ≡ true →
        EndTurned p side history (OnUnit p side history unit) (Died ∷ []) [] new }
    ensures asks { (p : Parties K) (side : Side) (history : List Item) (ask : Ask) (new : EndState K) →
        AsksTurn p side history ask (Died ∷ []) → new.transport.dead ≡ true →
        EndTurned p side history (AsksTurn p side history ask) (Died ∷ []) [] new }
{}

/// The turn of an end on the next unit of its stream is a turn of a session, and its run goes on with it.
pub fn unit_is_one_turn<K>()
    ensures taken { (p : Parties K) (side : Side) (history : List Item) (e : EndState K) → EndSumsUp p side history e →
        e.transport.dead ≡ false → (unit : List ℕ) (items : List Item) (more : List ℕ) (new : EndState K) →
        TakesUnit p side e unit items more new → EndTurned p side history (OnUnit p side history unit) items more new }
    ensures run { (p : Parties K) (side : Side) (history : List Item) (e : EndState K) → EndSumsUp p side history e →
        EndRun p side history → e.transport.dead ≡ false → (unit : List ℕ) (items : List Item) (more : List ℕ) (new : EndState K) →
        EndTurned p side history (OnUnit p side history unit) items more new → EndRun p side (items ++ history) }
{}

/// An end refuses an ask as a session does. Its turn on an ask is a turn of a session, and its run goes on with it.
pub fn ask_is_one_turn<K>()
    ensures refused { (p : Parties K) (side : Side) (history : List Item) (e : EndState K) → EndSumsUp p side history e →
        e.transport.dead ≡ false → (ask : Ask) → first_refusal (ask_checks p side history ask) ≡ first_refusal
        (end_ask_checks p side e ask) }
    ensures taken { (p : Parties K) (side : Side) (history : List Item) (e : EndState K) → EndSumsUp p side history e →
        (ask : Ask) (items : List Item) (more : List ℕ) (new : EndState K) → TakesAsk p side e ask items more new →
        EndTurned p side history (AsksTurn p side history ask) items more new }
    ensures run { (p : Parties K) (side : Side) (history : List Item) (e : EndState K) → EndSumsUp p side history e →
        EndRun p side history → (ask : Ask) (items : List Item) (more : List ℕ) (new : EndState K) →
        EndTurned p side history (AsksTurn p side history ask) items more new → EndRun p side (items ++ history) }
{}

/// The turn of an end that is fed a pair of cookie and secret is a turn of a session, and its run goes on with it.
pub fn feed_is_one_turn<K>()
    ensures taken { (p : Parties K) (side : Side) (history : List Item) (e : EndState K) → EndSumsUp p side history e →
        (cookie secret : List ℕ) (items : List Item) (new : EndState K) → TakesPair e cookie secret items new →
        EndTurned p side history (FeedsTurn side history cookie secret) items [] new }
    ensures run { (p : Parties K) (side : Side) (history : List Item) (e : EndState K) → EndSumsUp p side history e →
        EndRun p side history → (cookie secret : List ℕ) (items : List Item) (more : List ℕ) (new : EndState K) →
        EndTurned p side history (FeedsTurn side history cookie secret) items more new → EndRun p side (items ++ history) }
{}

/// The secret of an exchange that is over may be written over: the end's state goes on summing up its history.
pub fn secrets<K>()
    ensures { (p : Parties K) (side : Side) (history : List Item) (e : EndState K) (bytes : List ℕ) → e.transport.blocked ≡ false →
        EndSumsUp p side history e → EndSumsUp p side history (record e { transport = after_wiping bytes e.transport }) }
{}

/// The replies that an end of lawful parties owes can all be sent, and each has an encoding.
pub fn owed_replies<K>()
    ensures { (p : Parties K) → AreLawful p → (side : Side) (history : List Item) (e : EndState K) → EndSumsUp p side history e →
        e.transport.dead ≡ false → EndRun p side history → CanSettle e.channels }
{}

/// The numbers that the peer gave the channels of an end of lawful parties, as the end keeps them, are uint32s.
pub fn peer_numbers<K>()
    ensures { (p : Parties K) → AreLawful p → (side : Side) (history : List Item) (e : EndState K) → EndSumsUp p side history e →
        e.transport.dead ≡ false → EndRun p side history → (number : ℕ) → peer_of (at e.channels.places number) < 2 ^ 32 }
{}

/// An end that has a prefix of a line or of a packet, by its state, waits for more.
pub fn waiting<K>()
    ensures packets { (p : Parties K) (side : Side) (history : List Item) (s : Transport K) → SumsUp p side history s → s.dead ≡ false →
        IsSealing p.crypto → s.lines.found ≡ true → (bytes : List ℕ) → IsPartialPacket p.crypto s.taking.key s.taking.count bytes →
        Waits (end_reading p side) history bytes }
    ensures lines { (p : Parties K) (side : Side) (history : List Item) (s : Transport K) → SumsUp p side history s → s.dead ≡ false →
        IsSealing p.crypto → s.lines.found ≡ false → (bytes : List ℕ) → IsPartialLine bytes → Waits (end_reading p side) history bytes }
{}

/// Two pieces that are delivered to an end one after the other, with no ask between, allow the same histories and leave the same
/// bytes as the one piece of both. The bytes that are left over wait at the front of those that come next.
pub fn pieces<K>()
    ensures { (p : Parties K) → IsSealing p.crypto → (side : Side) (history last : List Item) (one two rest : List ℕ) →
        Delivered (end_reading p side) history (one ++ two) last rest ↔ InPieces (end_reading p side) history one two last rest }
{}

/// The history and the rest that an end reaches by a unit, and then by the bytes after it, are those of all of these bytes. An end that
/// waits keeps them, and a dead end drops them. The items go on with the end's run, and are a delivery in each run of two
/// of which its history is a part.
pub fn deliveries<K>()
    ensures unit { (p : Parties K) (side : Side) (history : List Item) (e : EndState K) → EndSumsUp p side history e →
        e.transport.dead ≡ false → (unit : List ℕ) (items : List Item) (more : List ℕ) (new : EndState K) →
        EndTurned p side history (OnUnit p side history unit) items more new → (following : List ℕ) (last : List Item) (rest : List ℕ) →
        Delivered (end_reading p side) (items ++ history) following last rest →
        Delivered (end_reading p side) history (unit ++ following) last rest }
    ensures waits { (p : Parties K) (side : Side) (history : List Item) (e : EndState K) → EndSumsUp p side history e →
        e.transport.dead ≡ false → (bytes : List ℕ) → Waits (end_reading p side) history bytes →
        Delivered (end_reading p side) history bytes history bytes }
    ensures dead { (p : Parties K) (side : Side) (history : List Item) (e : EndState K) → EndSumsUp p side history e →
        e.transport.dead ≡ true → (bytes : List ℕ) → Delivered (end_reading p side) history bytes history [] }
    ensures run { (p : Parties K) (side : Side) (history last : List Item) (bytes rest : List ℕ) →
        Delivered (end_reading p side) history bytes last rest → EndRun p side history → EndRun p side last }
    ensures session { (p : Parties K) (side : Side) (run : List Done) (last : List Item) (bytes rest : List ℕ) →
        Delivered (end_reading p side) (part side run) bytes last rest → DeliversTo p side run bytes last rest }
{}
