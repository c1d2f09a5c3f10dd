//! Laws of the state of a transport (RFC 4253): from it, the turns on a message and an ask are those of a session. A layer is
//! proved against its state alone, and these laws turn that into claims on histories.
//!
//! # What a transport has to meet
//!
//! Its state is `Transport` (`specs/State/TransportLayer/Kept.antt`). It has settings, the peer's lines, two directions with their keys,
//! the key that is pending, and the phase. It also has the exchange under way, the pair of cookie and secret, the session id, and flags.
//! Its rows mention no history:
//!
//! - a new one: `new_transport`, having put out its line and its first KEXINIT (`transport::new_transports`).
//! - take a line: found by `LineUnit` of the side and the count of other lines; then `after_line` or `after_other_line`, or dead
//!   (`transport::same_units`: `lines`, `refused`; `transport::lines_are_summed_up`).
//! - take a packet: found by `PacketUnit` of the key, number and count of `taking` (`transport::same_units`: `packets`, `refused`).
//! - judge a payload: below 50 by `takes`, and where the phase is not `Normal` from 50 on too. Then by whether it is a message. Then
//!   refused by the first of `message_checks` that holds (`transport::same_numbers`, `checks`; `payload_is_one_turn`: `refused`).
//! - a KEXINIT chooses: `choice_with` of the end's own lists and the peer's; later `IsChosen`, from the payload that is kept (the same;
//!   `transport::choices`: that choice is the history's).
//! - answer a payload: `Takes`, with packets put out by `PutsPackets` of `sending`; nothing else where too few numbers are left
//!   (`payload_is_one_turn`: `answered`, `spent`, `skipped`, `disconnected`).
//! - answer the message that ends an exchange: `Completes`: up to NEWKEYS by `PutsPackets` of `sending`, and the announced messages by
//!   that of `sending` right after it; nothing where too few numbers are left (`transport::exchange_ends`: `ended`; `refused_and_spent`:
//!   `end_spent`).
//! - a payload from 50 on: `after_taken`, once the layer above takes it (`transport::items_of_other_layers`: `taken`).
//! - send for a layer above: `after_sent` (the same: `sent`).
//! - told that the user is authenticated: `after_success` (the same: `success_sent`, `success_taken`).
//! - an ask of its own: refused by the first of `message_ask_checks` that holds; else `Asks`, or DISCONNECT; nothing where no number is
//!   left (`transport::ask_checks`: `asks`; `ask_turns`; `refused_and_spent`).
//! - fed a pair: where `can_be_fed`; then `after_fed` (`ask_checks`: `feeds`; `transport::guesses_and_material`).
//!
//! The laws speak of `SumsUp p side history`, which each of these keeps. In the turn that ends an exchange the owed replies stand after
//! NEWKEYS (and the messages announced after it) and before the fact that is told. The transport's part is `EndedBy`. The end sends the
//! replies as messages of a layer above. `exchange_ends`: `closed` makes the turn of both.

ghost use Rattle.std.specs.Prelude.{◌≡◌, ◌<◌, ◌≤◌, ◌+◌, ◌++◌, ℕ, Bool, length, Some, List, [], ◌∷◌, Option, None, true, false};
ghost use Rattle.ssh_model.specs.declared.side.Side.{Side};
ghost use Rattle.ssh_model.specs.declared.side.Side.TheVariants.{Client, Server};
ghost use Rattle.ssh_model.specs.Protocol.Wire.Message.{Msg, Msg.Disconnect, Msg.KexInit, Msg.UserauthSuccess};
ghost use Rattle.ssh_model.specs.Protocol.KeyExchange.Choice.{Chosen};
ghost use Rattle.ssh_model.specs.Protocol.KeyExchange.Exchanges.{choice};
ghost use Rattle.ssh_model.specs.declared.ask_refusal.AskRefusal.{AskRefusal};
ghost use Rattle.ssh_model.specs.declared.refusal.Refusal.{Refusal};
ghost use Rattle.ssh_model.specs.declared.refusal.Refusal.TheVariants.{NumberSpent};
ghost use Rattle.ssh_model.specs.Protocol.Sessions.Refusals.{first_refusal};
ghost use Rattle.ssh_model.specs.Protocol.Sessions.Transport.{transport_ask_checks};
ghost use Rattle.ssh_model.specs.Protocol.Sessions.Turns.{AreEncoded, IsEncoded, OnPayload, answer_checks, can_feed, number_of, stage};
ghost use Rattle.ssh_model.specs.Protocol.Channels.Connection.{AreReplies, owed_replies};
ghost use Rattle.ssh_model.specs.Protocol.Wire.Line.{LineUnit};
ghost use Rattle.ssh_model.specs.Protocol.Wire.Outcome.{Outcome};
ghost use Rattle.ssh_model.specs.Protocol.Wire.Unit.{IsUnit, PacketUnit};
ghost use Rattle.ssh_model.specs.Protocol.Sessions.Parties.{Parties, agreement_of, offer, settings_of};
ghost use Rattle.ssh_model.specs.Protocol.Sessions.Items.{Ask, Ask.AskDisconnect, Fact.Completed, Fact.Disconnected, Fact.Ignored, Item};
ghost use Rattle.ssh_model.specs.Protocol.Sessions.Items.{Item.Asked, Item.AskRefused, Item.Died, Item.Refused, Item.Told, Item.Fed};
ghost use Rattle.ssh_model.specs.Protocol.Sessions.Items.{Item.SentLine, Item.Sent, Item.Took, Item.TookLine, Item.TookGuess};
ghost use Rattle.ssh_model.specs.Protocol.Sessions.Items.{Item.TookOtherLine, Encoded, Encoded.EncodedBy, Payload, Payload.NewkeysOf};
ghost use Rattle.ssh_model.specs.Protocol.Sessions.Items.{Payload.OtherOf, sent};
ghost use Rattle.ssh_model.specs.Protocol.Sessions.Epochs.{epoch};
ghost use Rattle.ssh_model.specs.Protocol.Sessions.Phases.{Phase.Exchanging, Phase.Guessed, is_client, has_line, may_take};
ghost use Rattle.ssh_model.specs.State.TransportLayer.Directions as directions;
ghost use Rattle.ssh_model.specs.State.TransportLayer.Directions.{Direction, counted, new_direction, renewed};
ghost use Rattle.ssh_model.specs.State.TransportLayer.Kept.{Answered, Asks, Completes, IsChosen, Takes, Transport, new_transport, after_sent};
ghost use Rattle.ssh_model.specs.State.TransportLayer.Kept.{after_taken, after_line, after_other_line, after_success, after_fed};
ghost use Rattle.ssh_model.specs.State.TransportLayer.Kept.{after_guess, after_wiping, can_be_fed, message_ask_checks, message_checks};
ghost use Rattle.ssh_model.specs.State.TransportLayer.Kept.{takes};
ghost use Rattle.ssh_model.specs.State.TransportLayer.Summary.{Accepts, Allows, Ends, SumsUp, answer_items, items_sent, parts_of};
ghost use Rattle.ssh_model.specs.State.TransportLayer.Summary.{IsAwaited, IsPlain, IsTransportMessage, LeavesTransport};
ghost use Rattle.ssh_model.specs.State.TransportLayer.Turns.{AskTurned, EndedBy, IsRefused, IsTransportAsk, PutOut, PutsPackets, Reads};
ghost use Rattle.ssh_model.specs.State.TransportLayer.Turns.{SaysWhy, Turned, UnitRefused, refusal_items};
ghost use Rattle.ssh_model.specs.Protocol.Bounds.{numbers_of_epoch};

/// A direction sums up the payloads that went through it, the newest first: its number is that of the next packet (RFC
/// 4253 section 6.4, and OpenSSH's strict key exchange), its count is of those after the last NEWKEYS, and its epoch of
/// the NEWKEYS. It does so before the first payload, after each, and after a NEWKEYS once the next epoch has begun.
/// Before the first NEWKEYS it is the same whether key exchange is strict or not.
#[tactic(auto, using(crate::proofs::TransportLayer::Steps::none_summed, crate::proofs::TransportLayer::Steps::other_summed, crate::proofs::TransportLayer::Steps::newkeys_summed, crate::proofs::TransportLayer::Steps::either_way))]
pub fn directions<K>()
    ensures none { (strict : Bool) → directions.SumsUp strict [] (new_direction {K = K}) }
    ensures other { (strict : Bool) (l : List Payload) (direction : Direction K) (bytes : List ℕ) → directions.SumsUp strict l direction →
        directions.SumsUp strict (OtherOf bytes ∷ l) (counted direction) }
    ensures newkeys { (strict : Bool) (l : List Payload) (direction : Direction K) (key : K) (bytes : List ℕ) →
        directions.SumsUp strict l direction → directions.SumsUp strict (NewkeysOf bytes ∷ l) (renewed strict key (counted direction)) }
    ensures first_epoch { (strict other : Bool) (l : List Payload) (direction : Direction K) → epoch l ≡ 0 →
        directions.SumsUp strict l direction → directions.SumsUp other l direction }
{}

/// The state of a new transport sums up the history of its opening.
#[tactic(auto, using(crate::proofs::Items::opened))]
pub fn new_transports<K>()
    ensures { (p : Parties K) (side : Side) (cookie secret payload : List ℕ) →
        SumsUp p side (Sent None (KexInit (offer p side true cookie)) payload ∷ SentLine (settings_of p side).line ∷ Fed cookie secret
        ∷ []) (new_transport (settings_of p side) side secret payload) }
{}

/// The state goes on summing up the history with each line of the peer.
#[tactic(auto, using(crate::proofs::Items::line_taken, crate::proofs::Items::other_line_taken))]
pub fn lines_are_summed_up<K>()
    ensures version { (p : Parties K) (side : Side) (history : List Item) (s : Transport K) (line : List ℕ) → SumsUp p side history s →
        SumsUp p side (TookLine line ∷ history) (after_line line s) }
    ensures other { (p : Parties K) (side : Side) (history : List Item) (s : Transport K) (line : List ℕ) → has_line history ≡ false →
        SumsUp p side history s → SumsUp p side (TookOtherLine line ∷ history) (after_other_line s) }
{}

/// The state goes on summing up the history with the items of other layers. It keeps nothing of asks and facts. It keeps
/// of a message that is sent or taken that a packet went, and of USERAUTH_SUCCESS that the user is authenticated.
#[tactic(auto, using(crate::proofs::Items::left, crate::proofs::Items::plain_sent, crate::proofs::Items::plain_taken, crate::proofs::Items::success_sent, crate::proofs::Items::success_taken))]
pub fn items_of_other_layers<K>()
    ensures left { (p : Parties K) (side : Side) (history : List Item) (s : Transport K) (item : Item) → LeavesTransport item →
        SumsUp p side history s → SumsUp p side (item ∷ history) s }
    ensures sent { (p : Parties K) (side : Side) (history : List Item) (s : Transport K) (channel : Option ℕ) (message : Msg)
        (payload : List ℕ) → IsPlain message → SumsUp p side history s →
        SumsUp p side (Sent channel message payload ∷ history) (after_sent s) }
    ensures taken { (p : Parties K) (side : Side) (history : List Item) (s : Transport K) (channel : Option ℕ) (message : Msg)
        (payload : List ℕ) → IsPlain message → SumsUp p side history s →
        SumsUp p side (Took channel message payload ∷ history) (after_taken s) }
    ensures success_sent { (p : Parties K) (history : List Item) (s : Transport K) (channel : Option ℕ) (payload : List ℕ) →
        SumsUp p Server history s → SumsUp p Server (Sent channel UserauthSuccess payload ∷ history) (after_success (after_sent s)) }
    ensures success_taken { (p : Parties K) (history : List Item) (s : Transport K) (channel : Option ℕ) (payload : List ℕ) →
        SumsUp p Client history s → SumsUp p Client (Took channel UserauthSuccess payload ∷ history) (after_success (after_taken s)) }
{}

/// By its state a transport takes the numbers below 50 that a session takes.
#[tactic(auto, using(crate::proofs::TransportLayer::Numbers::numbers_are))]
pub fn same_numbers<K>()
    ensures { (p : Parties K) (side : Side) (history : List Item) (s : Transport K) → SumsUp p side history s → s.dead ≡ false →
        (number : ℕ) → number < 50 → may_take p side history number ≡ takes s number }
{}

/// By its state a transport refuses a message as a session does, if an exchange's point or reply is the awaited one.
#[tactic(auto, using(crate::proofs::TransportLayer::Checks::messages_same))]
pub fn checks<K>()
    ensures { (p : Parties K) (side : Side) (history : List Item) (s : Transport K) → SumsUp p side history s → s.dead ≡ false →
        (message : Msg) (c : Chosen) → IsTransportMessage message → IsAwaited s c message →
        first_refusal (answer_checks p side history message) ≡ first_refusal (message_checks (agreement_of p side) p.trusts c s message) }
{}

/// By its state a transport refuses an ask as a session does, and can be fed if a session can.
#[tactic(auto, using(crate::proofs::TransportLayer::Checks::asks_same, crate::proofs::TransportLayer::Checks::feeds_same))]
pub fn ask_checks<K>()
    ensures asks { (p : Parties K) (side : Side) (history : List Item) (s : Transport K) → SumsUp p side history s → s.dead ≡ false →
        (ask : Ask) → first_refusal (transport_ask_checks p side history ask) ≡ first_refusal (message_ask_checks s ask) }
    ensures feeds { (p : Parties K) (side : Side) (history : List Item) (s : Transport K) → SumsUp p side history s →
        can_feed history ≡ can_be_fed s }
{}

/// If nothing is refused, a message that ends no exchange is answered as in a session, and the new state sums up the
/// history with the message and its answer.
#[tactic(auto, using(crate::proofs::TransportLayer::Rows::accepted))]
pub fn messages<K>()
    ensures { (p : Parties K) (side : Side) (history : List Item) (s : Transport K) → SumsUp p side history s → s.dead ≡ false →
        (payload : List ℕ) (message : Msg) (answered : Answered) (new : Transport K) →
        Takes (agreement_of p side) s payload message answered new → Accepts p side history message payload answered new }
{}

/// The message that ends an exchange is answered, up to NEWKEYS and the announcement after it, as in a session, and the new
/// state sums up the history so far. The replies that the layers above owe come next, and then the fact that is told. With
/// these the answer is one of a session.
#[tactic(auto, using(crate::proofs::TransportLayer::Rows::ended))]
pub fn exchanges<K>()
    ensures { (p : Parties K) (side : Side) (history : List Item) (s : Transport K) → SumsUp p side history s → s.dead ≡ false →
        (chosen : Chosen) (payload : List ℕ) (message : Msg) (last announced : List Encoded) (completed new : Transport K) →
        Completes p.crypto (parts_of p side) chosen s message last announced completed new →
        Ends p side history message payload (announced ++ last) (s.sending.epoch + 1) new }
{}

/// The message that is sent on an ask that is not refused is one that a session sends, and the new state sums up the history with it.
#[tactic(auto, using(crate::proofs::TransportLayer::Rows::allowed))]
pub fn asks_are_summed_up<K>()
    ensures { (p : Parties K) (side : Side) (history : List Item) (s : Transport K) → SumsUp p side history s → s.dead ≡ false →
        (ask : Ask) (message : Msg) (payload : List ℕ) (new : Transport K) → Asks s ask message payload new →
        Allows p side history ask message payload new }
{}

/// The state goes on summing up the history with the packet after a wrong guess, and with a pair of cookie and secret
/// that is fed when none is kept.
#[tactic(auto, using(crate::proofs::TransportLayer::Rows::guess_taken, crate::proofs::TransportLayer::Rows::pair_fed))]
pub fn guesses_and_material<K>()
    ensures guess { (p : Parties K) (side : Side) (history : List Item) (s : Transport K) (payload : List ℕ) → s.phase ≡ Guessed →
        SumsUp p side history s → SumsUp p side (TookGuess payload ∷ history) (after_guess s) }
    ensures fed { (p : Parties K) (side : Side) (history : List Item) (s : Transport K) (cookie secret : List ℕ) → s.material ≡ None →
        SumsUp p side history s → SumsUp p side (Fed cookie secret ∷ history) (after_fed cookie secret s) }
{}

/// The secret of an exchange is needed only while the end is blocked: the state goes on summing up the history with
/// any bytes in its place.
#[tactic(auto, using(crate::proofs::TransportLayer::Secrets::wiped))]
pub fn secrets<K>()
    ensures { (p : Parties K) (side : Side) (history : List Item) (s : Transport K) (bytes : List ℕ) → s.blocked ≡ false →
        SumsUp p side history s → SumsUp p side history (after_wiping bytes s) }
{}

/// The outcome of a line or a packet by the state of a transport is its outcome in a session, and that of a packet in a session is its
/// outcome by the state. If the line or packet is refused for that, the refusal is one of a session.
#[tactic(auto, using(crate::proofs::TransportLayer::Units::packets_same, crate::proofs::TransportLayer::Units::packets_back, crate::proofs::TransportLayer::Units::lines_same, crate::proofs::TransportLayer::Turning::unit_refused))]
pub fn same_units<K>()
    ensures packets { (p : Parties K) (side : Side) (history : List Item) (s : Transport K) → SumsUp p side history s → s.dead ≡ false →
        s.lines.found ≡ true → (bytes : List ℕ) (outcome : Outcome) →
        PacketUnit p.crypto s.taking.key s.taking.number s.taking.count bytes outcome →
        IsUnit p.crypto (stage p side history) bytes outcome }
    ensures back { (p : Parties K) (side : Side) (history : List Item) (s : Transport K) → SumsUp p side history s → s.dead ≡ false →
        s.lines.found ≡ true → (bytes : List ℕ) (outcome : Outcome) → IsUnit p.crypto (stage p side history) bytes outcome →
        PacketUnit p.crypto s.taking.key s.taking.number s.taking.count bytes outcome }
    ensures lines { (p : Parties K) (side : Side) (history : List Item) (s : Transport K) → SumsUp p side history s → s.dead ≡ false →
        s.lines.found ≡ false → (bytes : List ℕ) (outcome : Outcome) → LineUnit (is_client s.side) s.lines.others bytes outcome →
        IsUnit p.crypto (stage p side history) bytes outcome }
    ensures refused { (p : Parties K) (side : Side) (history : List Item) (s : Transport K) → SumsUp p side history s → s.dead ≡ false →
        (refusal : Refusal) (sent : List Encoded) (more : List ℕ) (new : Transport K) → SaysWhy p.crypto s refusal sent more →
        new.dead ≡ true → UnitRefused p side history (refusal_items refusal None sent) refusal more new }
{}

/// The turn of a transport on a payload that ends no exchange is a turn of a session: it answers a message, skips the packet
/// after a wrong guess, ends with DISCONNECT, refuses the payload, or has no number left for its answer.
pub fn payload_is_one_turn<K>()
    ensures answered { (p : Parties K) (side : Side) (history : List Item) (s : Transport K) → SumsUp p side history s → s.dead ≡ false →
        (chosen : Chosen) (message : Msg) (payload : List ℕ) (answered : Answered) (new : Transport K) (more : List ℕ) →
        Reads s message payload → IsAwaited s chosen message →
        first_refusal (message_checks (agreement_of p side) p.trusts chosen s message) ≡ None →
        Takes (agreement_of p side) s payload message answered new → PutsPackets p.crypto s.sending answered.sent more →
        Turned p side history payload (answer_items answered ++ Took None message payload ∷ []) more new }
    ensures skipped { (p : Parties K) (side : Side) (history : List Item) (s : Transport K) → SumsUp p side history s → s.dead ≡ false →
        (payload : List ℕ) → number_of payload < 50 → takes s (number_of payload) ≡ true → s.phase ≡ Guessed →
        Turned p side history payload (Told Ignored ∷ TookGuess payload ∷ []) [] (after_guess s) }
    ensures disconnected { (p : Parties K) (side : Side) (history : List Item) (s : Transport K) → SumsUp p side history s →
        s.dead ≡ false → (reason : ℕ) (description language payload : List ℕ) (new : Transport K) →
        Reads s (Disconnect reason description language) payload → new.dead ≡ true →
        Turned p side history payload (Died ∷ Told (Disconnected reason description) ∷ Took None (Disconnect reason description language)
        payload ∷ []) [] new }
    ensures refused { (p : Parties K) (side : Side) (history : List Item) (s : Transport K) → SumsUp p side history s → s.dead ≡ false →
        (payload : List ℕ) (refusal : Refusal) (sent : List Encoded) (more : List ℕ) (new : Transport K) →
        IsRefused (agreement_of p side) p.trusts s payload refusal → SaysWhy p.crypto s refusal sent more → new.dead ≡ true →
        Turned p side history payload (refusal_items refusal (Some payload) sent) more new }
    ensures spent { (p : Parties K) (side : Side) (history : List Item) (s : Transport K) → SumsUp p side history s → s.dead ≡ false →
        (chosen : Chosen) (message : Msg) (payload : List ℕ) (answered : Answered) (new dead : Transport K) → Reads s message payload →
        IsAwaited s chosen message → first_refusal (message_checks (agreement_of p side) p.trusts chosen s message) ≡ None →
        Takes (agreement_of p side) s payload message answered new → AreEncoded (items_sent answered.sent) → 1 ≤ length answered.sent →
        numbers_of_epoch < s.sending.count + length answered.sent → dead.dead ≡ true →
        Turned p side history payload (Died ∷ Refused NumberSpent (Some payload) ∷ []) [] dead }
{}

/// The choice by the kept KEXINIT of the peer is the choice of the exchange under way in the history (RFC 4253 section 7.1).
pub fn choices<K>()
    ensures { (p : Parties K) (side : Side) (history : List Item) (s : Transport K) → SumsUp p side history s → s.dead ≡ false →
        (chosen : Chosen) → s.phase ≡ Exchanging → IsChosen s chosen → choice side (epoch (sent history)) history ≡ chosen }
{}

/// The turn of a transport on the message that ends an exchange is, up to its announcement, that of a session. With
/// the replies that the layers above owe, and then the fact that is told, it is a turn of a session.
pub fn exchange_ends<K>()
    ensures ended { (p : Parties K) (side : Side) (history : List Item) (s : Transport K) → SumsUp p side history s → s.dead ≡ false →
        (chosen : Chosen) (message : Msg) (payload : List ℕ) (last announced : List Encoded) (completed new : Transport K)
        (early late : List ℕ) → Reads s message payload → IsAwaited s chosen message →
        first_refusal (message_checks (agreement_of p side) p.trusts chosen s message) ≡ None →
        Completes p.crypto (parts_of p side) chosen s message last announced completed new → PutsPackets p.crypto s.sending last early →
        PutsPackets p.crypto completed.sending announced late →
        EndedBy p side history message payload (s.sending.epoch + 1) (items_sent (announced ++ last)) (early ++ late) new }
    ensures closed { (p : Parties K) (side : Side) (history : List Item) (message : Msg) (payload : List ℕ) (position : ℕ)
        (items owed : List Item) (more late : List ℕ) (new : Transport K) →
        EndedBy p side history message payload position items more new → AreReplies (owed_replies side history) owed →
        PutOut p side (items ++ (Took None message payload ∷ history)) owed late →
        OnPayload p side history payload ((Told (Completed position) ∷ (owed ++ items)) ++ Took None message payload ∷ []) }
{}

/// The turn of a transport that sends on an ask is a turn of a session.
pub fn ask_turns<K>()
    ensures sent { (p : Parties K) (side : Side) (history : List Item) (s : Transport K) → SumsUp p side history s → s.dead ≡ false →
        (ask : Ask) (message : Msg) (payload : List ℕ) (new : Transport K) (more : List ℕ) →
        first_refusal (message_ask_checks s ask) ≡ None → Asks s ask message payload new →
        PutsPackets p.crypto s.sending (EncodedBy message payload ∷ []) more →
        AskTurned p side history ask (Sent None message payload ∷ Asked ask ∷ []) more new }
    ensures disconnected { (p : Parties K) (side : Side) (history : List Item) (s : Transport K) → SumsUp p side history s →
        s.dead ≡ false → (description payload : List ℕ) (new : Transport K) (more : List ℕ) →
        first_refusal (message_ask_checks s (AskDisconnect description)) ≡ None → new.dead ≡ true →
        PutsPackets p.crypto s.sending (EncodedBy (Disconnect 11 description []) payload ∷ []) more →
        AskTurned p side history (AskDisconnect description)
        (Died ∷ Sent None (Disconnect 11 description []) payload ∷ Asked (AskDisconnect description) ∷ []) more new }
{}

/// An ask that is refused changes nothing. If no number is left for the messages of an ask or of the end of an exchange, the
/// end is over. Both are turns of a session. The replies that the layers above owe have to be there, for an exchange would end
/// with them.
pub fn refused_and_spent<K>()
    ensures ask_refused { (p : Parties K) (side : Side) (history : List Item) (s : Transport K) → SumsUp p side history s →
        s.dead ≡ false → (ask : Ask) (refusal : AskRefusal) → IsTransportAsk ask →
        first_refusal (message_ask_checks s ask) ≡ Some refusal →
        AskTurned p side history ask (AskRefused refusal ∷ Asked ask ∷ []) [] s }
    ensures ask_spent { (p : Parties K) (side : Side) (history : List Item) (s : Transport K) → SumsUp p side history s → s.dead ≡ false →
        (ask : Ask) (message : Msg) (payload : List ℕ) (new dead : Transport K) → first_refusal (message_ask_checks s ask) ≡ None →
        Asks s ask message payload new → IsEncoded message payload → s.sending.count ≡ numbers_of_epoch → dead.dead ≡ true →
        AskTurned p side history ask (Died ∷ Refused NumberSpent None ∷ Asked ask ∷ []) [] dead }
    ensures disconnect_spent { (p : Parties K) (side : Side) (history : List Item) (s : Transport K) → SumsUp p side history s →
        s.dead ≡ false → (description payload : List ℕ) (dead : Transport K) →
        first_refusal (message_ask_checks s (AskDisconnect description)) ≡ None → IsEncoded (Disconnect 11 description []) payload →
        s.sending.count ≡ numbers_of_epoch → dead.dead ≡ true → AskTurned p side history (AskDisconnect description)
        (Died ∷ Refused NumberSpent None ∷ Asked (AskDisconnect description) ∷ []) [] dead }
    ensures end_spent { (p : Parties K) (side : Side) (history : List Item) (s : Transport K) → SumsUp p side history s → s.dead ≡ false →
        (chosen : Chosen) (message : Msg) (payload : List ℕ) (last announced : List Encoded) (completed new dead : Transport K)
        (owed : List Item) → Reads s message payload → IsAwaited s chosen message →
        first_refusal (message_checks (agreement_of p side) p.trusts chosen s message) ≡ None →
        Completes p.crypto (parts_of p side) chosen s message last announced completed new → AreEncoded (items_sent (announced ++ last)) →
        AreReplies (owed_replies side history) owed → AreEncoded owed → numbers_of_epoch < s.sending.count + length last →
        dead.dead ≡ true → Turned p side history payload (Died ∷ Refused NumberSpent (Some payload) ∷ []) [] dead }
{}
