//! Laws of the state of an end's channels (RFC 4254): from it, the turns on a message, an ask and an owed reply are those
//! of a session. A layer of channels is proved against its state alone, and these laws turn that into claims on
//! histories.
//!
//! # What a layer of channels has to meet
//!
//! Its state is `Channels` (`specs/State/Channels/Kept.antt`): a place for each local number, the replies that it owes, and two counts.
//! It has to meet these rows, which mention no history. For each row a law says what it means for histories:
//!
//! - a new one: it is `no_channels` (`connection::no_channels_at_first`).
//! - take a message, blocked or not: refused by the first of `take_checks` that holds, and then unchanged; else `Takes` of its answer and
//!   of the state after it (`connection::messages`: `refused`, `accepted`).
//! - ask, blocked or not, an exchange due or not: refused by the first of `send_checks` that holds, and then unchanged; else `Sends`
//!   (`connection::same_asks`: `refused`, `allowed`).
//! - the next owed reply: `Unblocks` (`connection::owed_replies_given`).
//! - state, room, count: `shown_state`, `shown_room` of the place with the number; `used` (`connection::same_state_shown`).
//!
//! The laws speak of `SumsUp side history waiting channels`: the channels sum up a history of which the replies `waiting` fell due and
//! were not sent. Between turns these are `owed_replies side history`. A NEWKEYS that is sent keeps the summary, with the replies that
//! waited before it (`connection::items_of_other_layers`). Each reply that is given takes the oldest away. With the last one none is
//! left, and `owed_replies` of the longer history says so too. Items of other layers keep the summary. Whoever uses the layer tests first
//! that the end is authenticated (`connection_ask_checks`).

ghost use Rattle.std.specs.Prelude.{◌≡◌, ℕ, Bool, List, [], ◌∷◌, Some, None};
ghost use Rattle.ssh_model.specs.declared.side.Side.{Side};
ghost use Rattle.ssh_model.specs.Protocol.Wire.Message.{Msg};
ghost use Rattle.ssh_model.specs.Protocol.Sessions.Refusals.{first_refusal};
ghost use Rattle.ssh_model.specs.Protocol.Sessions.Items.{Ask, Item};
ghost use Rattle.ssh_model.specs.Protocol.Sessions.Phases.{blocked};
ghost use Rattle.ssh_model.specs.Protocol.Channels.History as channel;
ghost use Rattle.ssh_model.specs.State.Channels.Places.{at, shown_state, channel_state, shown_room, room, count};
ghost use Rattle.ssh_model.specs.Protocol.Channels.Connection.{connection_checks, channel_ask_checks, notes, owed_replies};
ghost use Rattle.ssh_model.specs.State.Channels.Kept.{Channels, no_channels, used, DueReply, Taken, Takes, take_checks, Unblocks, Sent};
ghost use Rattle.ssh_model.specs.State.Channels.Kept.{Sends, send_checks};
ghost use Rattle.ssh_model.specs.State.Channels.Summary.{SumsUp, Accepts, SendsOwed, Allows, LeavesChannels, IsNoNewkeys};

/// No channels sum up the empty history.
#[tactic(auto, using(crate::proofs::Channels::Elsewhere::starts))]
pub fn no_channels_at_first()
    ensures { (side : Side) → SumsUp side [] [] no_channels }
{}

/// The state refuses a message as a session does. If it does not refuse it, the answer is one of a session, and the new
/// state sums up the history with the message and its answer.
#[tactic(auto, using(crate::proofs::Channels::Checking::checked, crate::proofs::Channels::Replying::accepted))]
pub fn messages()
    ensures refused { (side : Side) (history : List Item) (channels : Channels) →
        SumsUp side history (owed_replies side history) channels → (message : Msg) →
        first_refusal (connection_checks side history message) ≡ first_refusal (take_checks (blocked history) channels message) }
    ensures accepted { (side : Side) (history : List Item) (channels : Channels) →
        SumsUp side history (owed_replies side history) channels → (is_blocked : Bool) → blocked history ≡ is_blocked →
        (message : Msg) (taken : Taken) (new : Channels) → first_refusal (take_checks is_blocked channels message) ≡ None →
        Takes is_blocked channels message taken new → Accepts side history message taken new }
{}

/// The state refuses an ask as a session does, after the check that the end is authenticated. If it does not refuse it,
/// the message that is sent is one that a session sends, and the new state sums up the history with it.
#[tactic(auto, using(crate::proofs::Channels::Checking::ask_checked, crate::proofs::Channels::Allowing::allowed))]
pub fn same_asks()
    ensures refused { (side : Side) (history : List Item) (channels : Channels) →
        SumsUp side history (owed_replies side history) channels → (is_due : Bool) (ask : Ask) →
        first_refusal (channel_ask_checks (blocked history) is_due side history ask)
        ≡ first_refusal (send_checks (blocked history) is_due channels ask) }
    ensures allowed { (side : Side) (history : List Item) (channels : Channels) →
        SumsUp side history (owed_replies side history) channels → (is_due : Bool) (is_blocked : Bool) → blocked history ≡ is_blocked →
        (ask : Ask) (sent : Sent) (new : Channels) → first_refusal (send_checks is_blocked is_due channels ask) ≡ None →
        Sends channels ask sent new → Allows side history is_due ask sent new }
{}

/// Owed replies are sent in the order in which they fell due, each once. Nothing is sent exactly if none is
/// owed.
#[tactic(auto, using(crate::proofs::Channels::Unblocking::unblocked, crate::proofs::Channels::Unblocking::settled_now))]
pub fn owed_replies_given()
    ensures given { (side : Side) (history : List Item) (waiting : List channel.Item) (channels : Channels) →
        SumsUp side history waiting channels → (reply : DueReply) (new : Channels) → Unblocks channels (Some reply) new →
        SendsOwed side history waiting reply new }
    ensures none_left { (side : Side) (history : List Item) (waiting : List channel.Item) (channels : Channels) →
        SumsUp side history waiting channels → (new : Channels) → Unblocks channels None new → (waiting ≡ []) × (new ≡ channels) }
{}

/// The state also sums up the history with an item of another layer. So do the owed replies, except for NEWKEYS. After
/// NEWKEYS none is owed, and the replies that waited are sent.
#[tactic(auto, using(crate::proofs::Channels::Elsewhere::kept_elsewhere, crate::proofs::Channels::Elsewhere::owed_elsewhere))]
pub fn items_of_other_layers()
    ensures kept { (side : Side) (history : List Item) (waiting : List channel.Item) (channels : Channels) (item : Item) →
        LeavesChannels item → SumsUp side history waiting channels → SumsUp side (item ∷ history) waiting channels }
    ensures owed { (side : Side) (history : List Item) (item : Item) → LeavesChannels item → IsNoNewkeys item →
        owed_replies side (item ∷ history) ≡ owed_replies side history }
{}

/// The state shows what the history tells: the state of each number, the window left for data if a
/// channel is confirmed, and how many numbers are in use.
#[tactic(auto, using(crate::proofs::Channels::Elsewhere::state_shown, crate::proofs::Channels::Elsewhere::room_shown, crate::proofs::Channels::Elsewhere::count_shown))]
pub fn same_state_shown()
    ensures state { (side : Side) (history : List Item) (waiting : List channel.Item) (channels : Channels) →
        SumsUp side history waiting channels → (number : ℕ) →
        shown_state (at channels.places number) ≡ channel_state side (notes side history) waiting number }
    ensures room { (side : Side) (history : List Item) (waiting : List channel.Item) (channels : Channels) →
        SumsUp side history waiting channels → (number : ℕ) →
        shown_room (at channels.places number) ≡ room (notes side history) waiting number }
    ensures count { (side : Side) (history : List Item) (waiting : List channel.Item) (channels : Channels) →
        SumsUp side history waiting channels → used channels.places ≡ count (notes side history) waiting }
{}
