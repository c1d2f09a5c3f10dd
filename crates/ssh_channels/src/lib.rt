//! The channels and global requests of one end (RFC 4254), without the applications that use them.
//!
//! `Channels` takes the messages of the connection, which `ssh_message` decoded. For each it answers the channel that the message belongs
//! to and the reply that is sent at once, or why the peer is refused. For an ask of the user it answers the message that is sent, or why
//! none is sent. A refused message or ask leaves it as it was.
//!
//! One function, `ChannelEvent::of_message`, makes the event for the user, from the message and its channel.
//!
//! A channel is named by this end's own number. A number is in use from the OPEN on, until CLOSE was both sent and taken. There are
//! `ssh_types::bounds::MOST_CHANNELS` of them. Each window is kept as the bytes that are left of it, `LARGEST_WINDOW` at most. At most
//! `MOST_WAITING_REQUESTS` requests of a channel, and `MOST_WAITING_GLOBALS` global ones, wait for a reply at each end.
//!
//! During a key exchange of this end no message of the connection is sent. A reply that falls due then is owed, at most `MOST_OWED_REPLIES`
//! of them. Once the exchange is over, `unblock` gives one after the other.
//!
//! `Channels::new` takes memory, and so does a new channel. No other call does.
//!
//! The answer of each call, and the state after it, are a row of the model (`Takes`, `Sends`, `Unblocks`). Each call also says what that
//! means in a session, for every history that the channels sum up. The message, the ask or the reply is answered as in the session, and the
//! channels then sum up the history with it.
//!
//! The peer opens a channel, is sent data, and closes within a key exchange:
//!
//! ```rust
//! let mut channels = Channels::new(alloc)?;
//! let open = Message::ChannelOpen {
//!     kind: b"session",
//!     sender: 5,
//!     window: 2048,
//!     max: 32_768,
//!     rest: b"",
//! };
//! let taken = channels.take(&open, false)?;
//! let told = ChannelEvent::of_message(&open, taken.channel);      // Some(Opened { channel: 0, .. })
//! let confirm = Ask::Confirm {
//!     channel: 0,
//!     window: 4096,
//!     max_packet: 32_768,
//!     rest: b"",
//! };
//! channels.ask(&confirm, false, false)?;      // sent: ChannelOpenConfirmation { recipient: 5, sender: 0, .. }
//! let data = Ask::Data {
//!     channel: 0,
//!     kind: None,
//!     body: b"hello",
//! };
//! channels.ask(&data, false, false)?;         // sent: ChannelData { recipient: 5, .. }
//! let left = channels.room(0);                // Some(2043)
//!
//! let close = Message::ChannelClose { recipient: 0 };
//! let taken = channels.take(&close, true)?;   // no reply yet
//! let told = ChannelEvent::of_message(&close, taken.channel);     // Some(Closed { channel: 0 })
//! let first = channels.unblock();             // Some(Reply::Close { channel: 0, recipient: 5 })
//! let second = channels.unblock();            // None, and the number 0 is free
//! ```
//!
//! # What it promises
//!
//! - `Channels` stands for the model's record of that name. `new` is `no_channels`.
//! - `{:?}` of an event shows its channel, its numbers and how many bytes it has, and no text (`shown_event` of `specs/Shown.antt`). Edit:
//!   `debugged_data_are_shown`.
//! - `take` refuses a message by the first of `message_checks` that holds. Before the checks of the model comes `Unexpected`, for a message
//!   that is not one of the connection. Otherwise the answer and the state after it are `Takes`.
//! - `ask` refuses by the first of `send_checks` that holds; otherwise `Sends`. The message that is sent can be encoded (`Fits`), and its
//!   payload has at most 34,000 bytes. The same holds of a `Reply`. The caller has to test that the end is authenticated.
//! - The event of a message is `fact_by` of the message and its channel (`specs/Facts.antt`). `ChannelEvent::of_message` makes it, and
//!   `Takes` says that this event is told (`taken_of`). For an ask that opens a channel its opening is told, and for no other ask anything
//!   (`opening_by`): `Ask::opening` answers the number, and `Sends` says that this is told (`sent_of`).
//! - `unblock` is `Unblocks`: call it after NEWKEYS was sent, until it answers `None`.
//! - `state`, `room` and `count` are `shown_state`, `shown_room` and `used` of the kept state, and `owed` is how many replies are owed.
//! - Each call has a clause `in_session`, for every side and every history that the channels sum up (`SumsUp`). The call's answer is what
//!   a session has (`TakesInSession`, `AsksInSession`, `UnblocksInSession`, `IsStateInSession` and its like), and the channels sum up the
//!   history with it.
//! - If a call is refused, or memory is refused, the channels are as before. Only `new` takes memory, and `take` and `ask` for a new
//!   channel. `Memory` comes only if an OPEN is taken or asked for and nothing else refuses it.
//! - A new channel has the number that equals its key in the slab if that is below `most_channels` and free, and otherwise the lowest free
//!   one. No contract says so: in the model any free number will do.
#![tactic(auto)]

mod ask;
mod channels;
mod entry;
mod event;
mod of_message;
mod reply;
mod state;
mod table;

pub use ask::Ask;
pub use channels::Channels;
pub use event::{ChannelEvent, MessageToSend, Taken};
pub use reply::Reply;
pub use state::ChannelState;
