//! The layers above a transport of SSH-2 (RFC 4253): authentication (RFC 4252) and channels (RFC 4254) together, as `Layers`. They say
//! which payloads from 50 on they take, what they answer, and why they refuse the peer.
//!
//! Before authentication is completed, no message of a channel is taken or asked for. If a payload could be refused for two reasons, the
//! one that is checked first counts. They make of a payload what an end of a session in `ssh_model` makes of it (`laws`). They know of the
//! transport what `TransportView` has. They read no bytes of the peer except payloads, and send nothing themselves. `Login` has the
//! authentication state of a server or of a client.
//!
//! ```rust
//! let login = Login::server(alloc, 6, &methods)?;
//! let mut layers = Layers::new(alloc, login)?;
//! layers.authentication.open();                         // SERVICE_ACCEPT was sent
//! let below = TransportView { session: &session_id, blocked: false, authenticated: false };
//! let taken = layers.take(&judge, &below, payload)?;
//! if let Some(reply) = layers.message(&taken.answer, number) {
//!     encode(&reply, &mut out)?;                        // a reply that goes out at once
//! }
//! ```
//!
//! # What it promises
//!
//! - `Layers` is one type for both roles: what is kept of authentication (`Login`, with a case for each role) and of channels. New
//!   layers have no channel. `Login::server` and `Login::client` are before SERVICE_ACCEPT (`new_login`). `Login::open` tells them that it
//!   was sent, or taken (`opened`).
//! - `take` requires a payload from 50 on, outside an exchange of keys of the peer's. `Ok`: `LayersTake`. Its number may be taken
//!   (`may_take`: by authentication below 80, and from 80 on if the user is authenticated). The payload is the message that is answered, no
//!   check refuses it, and the layer that it is for did its row. `Refused`: `LayersRefuse`, in the order number, message, checks of the
//!   layer. `Memory`: a new channel was due, or the text of a signature that is longer than that of any request in one packet
//!   (`LayersNeedMemory`). After `Err` the layers are as before.
//! - `layers::laws::layers_in_sessions` turns `take` into the rows of an end: for every transport of these parties, outside an exchange,
//!   `Accepts` (`ReadsAbove`, `AnswersAbove`), and `RefusesAbove`. The layers have the settings of the parties (`AreOf`), and a server's
//!   judge is theirs (`IsJudgedBy`).
//! - `message` is the message that is sent at once for an answer, if its packet had that number (`message_of`). It can be written, and has
//!   at most 34,000 bytes.
//! - Both fields, `authentication` and `channels`, are public: every clause holds for any value of them. `ask_channels` is `Channels::ask`,
//!   and `NotYet` before the user is authenticated (`AskFails`); `layer_of` says which layer a message is for. Owed replies are given by
//!   `Channels::unblock`, and a user is authenticated by `AuthClient::ask`.
mod answer;
mod connection;
pub mod laws;
mod layer;
mod login;
mod stack;

pub use answer::{LayerAnswer, LayerTaken};
pub use connection::ask_channels;
pub use layer::{Layer, layer_of};
pub use login::Login;
pub use stack::{Layers, TransportView};
