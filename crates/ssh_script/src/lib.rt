//! The language of scripts, read from text to types. A script says, line by line, what two ends are asked to do and which bytes they get.
//!
//! A script is read as a whole before any line of it runs: `Script::read` gives the script of a session, or of one epoch if its first line
//! is `epoch`, or a fault with the number of its line. A `Network` keeps the bytes that the ends of a running script put out, and gives
//! those that a line delivers.
//!
//! A script that asks a client for a service once each end took the other's first bytes:
//!
//! ```rust
//! let script = Script::read(alloc, b"user u p\npass c s all\npass s c all\nask c service\n")?;
//! let Script::Session(session) = &script else { return Ok(()) };
//! let mut network = Network::new(alloc, Shortage::Refused);
//! for line in &session.steps {
//!     match &line.content {
//!         Step::Feed { side, byte } => feed(*side, *byte),
//!         Step::Ask { side, ask } => network.put_out(*side, asked(*side, &ask.to_ask()))?,
//!         Step::Network(delivery) => {
//!             if let Some(parcel) = network.deliver(delivery)? {
//!                 for piece in parcel.pieces() {
//!                     deliver(parcel.to, piece);
//!                 }
//!             }
//!         }
//!     }
//! }
//! ```
//!
//! # What it promises
//!
//! - `to_ask` of `AskLine`, `UserLine`, `OpeningLine`, `DataLine` and `RequestLine`: the ask is that of the line in the words of the model
//!   (`specs/Asks.antt`).
//! - `Network::put_out` adds bytes after all that a side put out, and leaves those that were passed as they are. `deliver` gives the bytes
//!   that the line delivers (`Delivers`, `specs/Network.antt`). These are the first of the waiting bytes, named ones of those put out, or
//!   bytes of the line itself. It also says to which side they go, and in which pieces. In a network that shortens (`Shortage::Shortened`)
//!   it never fails. Which bytes wait after it is a clause of the stream inside the network alone, since the bytes delivered still borrow
//!   the network. `Parcel::pieces` cuts all bytes of a parcel, into one piece or into single bytes; both players deliver these. `whole`
//!   lends all bytes that a side put out.
//! - `Script::read` refuses more than 2^24 bytes as `TooLong`. A message repeats at most 200 bytes of a word, and a word of at most that
//!   many whole (`front_of`). Edits: `longer_script_is_read`, `message_repeats_a_byte_more`.
//! - A word of a line is a number exactly if it is decimal digits of a value below 2^32; the number is that value. The bytes of a word are
//!   those that its hexadecimal digits encode. No clause says how lines are told from one another, which words a form has and what a fault
//!   says. That code is proved safe and proved to end, and is tested.
#![tactic(auto)]

mod ask_line;
mod data_line;
mod delivery;
mod form;
mod line;
mod network;
mod opening_line;
mod parcel;
mod reading;
mod request_line;
mod script;
mod script_fault;
mod setup;
mod shortage;
mod shortened;
mod stream;
mod user_line;
mod word_fault;
mod words;

pub use ask_line::AskLine;
pub use data_line::DataLine;
pub use delivery::{Count, Delivery};
pub use line::Line;
pub use network::Network;
pub use opening_line::OpeningLine;
pub use parcel::{Cut, Origin, Parcel};
pub use request_line::RequestLine;
pub use script::{EpochScript, EpochStep, Keys, MOST_SCRIPT_BYTES, Script, SessionScript, Step};
pub use script_fault::{RunFault, ScriptFault, SettingsFault};
pub use setup::{Credential, EndSetup, ExtensionPair, Setup};
pub use shortage::Shortage;
pub use shortened::Shortened;
pub use user_line::UserLine;
pub use word_fault::HexFault;
