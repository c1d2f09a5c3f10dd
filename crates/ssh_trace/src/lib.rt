//! The program `ssh_trace` as a library: it shows one packet, or plays a script of two ends and prints what they did.
//!
//! # What it promises
//!
//! - `packet_of`: what a text of hexadecimal digits shows of one packet in clear. The faults are tested in the order length, missing bytes,
//!   padding, bytes after. `NotHex` comes if the text is not pairs of such digits, and always if its length is odd.
//! - `EpochPair::play`, for every place of a run at which the pair stands: the items and bytes that it answers, after the earlier ones, are
//!   a run of the two ends on these events (`Plays`). The pair stands at the end of that run. If each tag passed only for a payload that
//!   the peer had sent under that number, the payloads that each side took are a prefix of those that the other sent. An ask has at least
//!   one byte.
#![tactic(auto)]

mod answer;
mod blame;
pub mod command_line;
mod decode;
mod deliver;
mod draw;
mod epoch_end;
mod epoch_pair;
mod epoch_player;
mod history;
mod play;
mod shown;
mod status;
mod transcript;

pub use answer::{report, version_to};
pub use decode::decode_to;
pub use draw::draw_to;
pub use epoch_pair::EpochPair;
pub use history::{Done, Event, Item, Memory, Transcript};
pub use play::{check_to, play_to, sweep_to};
pub use shown::{Shown, packet_of};
pub use status::Status;
