//! Plays the scripts of whole sessions: two ends over the toy parts, which protect nothing, and between them the network that the
//! script's lines are.
//!
//! Both ends begin with one setup, of which a script changes a little: `curve25519-sha256`, a toy host key, no encryption, and
//! `hmac-sha2-256`. `play` gives the transcript, a line for each thing that an end did. `compare` tells whether these are the lines that
//! the script expects. `play_through` plays on when a line finds fewer bytes than it wants. `sweep` does so again and again, each time with
//! one byte changed on its way. `watch` plays a script and makes a `draw::Drawing` of it.
//!
//! ```rust
//! let Script::Session(script) = Script::read(alloc, b"pass c s 11\n> c sent line 9\n")? else { return Ok(()) };
//! let played = play(alloc, &script)?;
//! // c sent line 9
//! // c sent 20 KEXINIT 165
//! // s sent line 9
//! // s sent 20 KEXINIT 165
//! // s took line 9
//! show(played.lines.as_str());
//! // differs at 2: the script expects one line, and there are five
//! show(compare(played.lines.as_str(), script.expected.as_slice()));
//! ```
//!
//! # What it promises
//!
//! - `compare`: `Compares`. `Same` has the number of lines, if the text is the expected lines, each with LF after it. `DiffersAt` has the
//!   line, from 1, before which the text has just the expected lines (`Differs`). The text does not go on with that line, or goes on after
//!   the last one. No expected line may have an LF; the lines of a script have none.
//! - `play` and `sweep` are proved to end and to do nothing undefined; that the lines are those of docs/SCRIPTS.md is tested, and so is
//!   the number of runs. Below `play` it is proved with which word and which numbers an event is told, an ask is named and a message is
//!   shown (`specs/Lines.antt`). It is also proved that `play` says a peer is refused exactly if an item says so (`is_refusal`), and which
//!   cookie and secret a line `feed` hands in. Edits: `ended_channel_is_the_first`, `reply_that_failed_is_a_yes`,
//!   `extended_data_are_told_as_data`, `refusal_of_the_client_alone_counts`, `every_pair_that_is_fed_is_zeros`. Below `sweep` it is proved
//!   which bytes come for a byte that is changed (`changes`). It is also proved exactly when a run is safe (`Course::is_safe`). The
//!   payloads that each end took after its first NEWKEYS have to be a prefix of those that the other sent after its own. That is `IsSafe`
//!   of `specs/Runs.antt`, over the items of the pair's transcripts. `Course::put_out` lends the bytes of a side.
#![tactic(auto)]

mod alteration;
mod comparison;
mod course;
pub mod draw;
mod lines;
mod player;
mod playing;
mod safety;
mod standard;
mod sweeping;
mod watching;

pub use comparison::{Comparison, compare};
pub use course::{Course, play_through};
pub use playing::{Played, play};
pub use sweeping::{Tally, sweep};
pub use watching::{origin_of, watch};
