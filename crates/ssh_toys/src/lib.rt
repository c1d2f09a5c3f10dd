//! Parts that can be supplied to an end, for tests and for the program that plays scripts. On them are settings and users, transports of
//! both roles, whole ends, and two ends with the bytes on the way between them. **They protect nothing**: the filler always gives the same
//! byte, anyone who sees a public point knows the shared secret, and everyone knows the cookies and secrets. Never use them on a network.
//!
//! Each part is proved against the contract of its part, so these contracts can be met. Keys are exchanged strictly by `curve25519-sha256`
//! with a toy host key; there is no encryption, and `hmac-sha2-256` seals. The user u has the password p and the key k.
//!
//! `ToyTransport` and `ToyEnd` have either role. Each call of a transport, and most calls of an end, say by cases what the type of that
//! role says. `ToyEnds` says which end a call leaves as it was, and which bytes are then on the way.
//!
//! The module `plain` has ciphers and curves as plain programs, for tests and times of the crate `ciphers`. The module `lines` reads tests
//! that are lines of files. `Counted` is a source of random bytes that only count up.
//!
//! ```rust
//! let mut ends = ToyEnds::new(alloc)?;
//! ends.begin()?;
//! ends.send(Side::Client, b"hi")?;
//! ends.take(Side::Server)?;
//! // the server's user is told of two bytes of data on the channel 0
//! show(ends.last_turn(Side::Server).told);
//! ```
//!
//! # What it promises
//!
//! - Each toy meets the contract of its part, by the words that stand in its `impl`. It protects nothing.
//! - `settings` are the values of `toy_given` with that software (`specs/Standard.antt`). `config` keeps just the settings that it takes,
//!   and they are good. `client_parts` and `server_parts` have a filler of zeros. `ToyFiller` gives its byte alone (`gives_byte`).
//! - A `ToyTransport` has either role. Each call has, by cases, the clauses of `Transport` at that role's type (`specs/Transports.antt`,
//!   `specs/Roles.antt`): what is taken, shown, refused, put out and padded. The role's parts stay. `send` answers `None` exactly if the
//!   payload can't be sent, and changes nothing then.
//! - A `ToyEnd` is an `End` of either role (`specs/Ends.antt`). `new` makes one of the side that is asked for, with that side's cookie and
//!   secret. `feed_material`, `last_turn` and the questions have, by cases, the clauses of `End`. `take` says how many bytes are used, and
//!   when memory was needed. After an `Err`, `take` and `ask` put nothing out. Nothing else is said of these two.
//! - `ToyEnds` are two ends and the bytes on the way between them (`specs/Pairs.antt`). `new` makes both (`IsNewEnd`). `ask`, `send` and
//!   `take` leave the other end as it was. After `take` nothing is on the way to that end, or after an `Err` just what was. After `pass`
//!   nothing is on the way to the client. `begin` has no clause.
//! - `plain` has plain programs for the functions that `ciphers` computes, without clauses except of safety.
//! - Only tests, programs and `ssh_play` use them. Edits: those of `ssh_toys/falsify`.
#![tactic(auto)]

mod agreement;
mod counted;
mod end;
mod ends;
mod filler;
mod host;
mod length_in_clear;
pub mod lines;
mod material;
mod parts;
pub mod plain;
mod standard;
mod transport;
mod user;

pub use agreement::ToyAgreement;
pub use counted::Counted;
pub use end::ToyEnd;
pub use ends::ToyEnds;
pub use filler::ToyFiller;
pub use host::{HOST_KEY, ToySigner, ToyTrust};
pub use length_in_clear::LengthInClear;
pub use material::{CLIENT_COOKIE, CLIENT_SECRET, SERVER_COOKIE, SERVER_SECRET};
pub use parts::{CREDENTIALS, ToyClient, ToyServer, client_parts, server_parts};
pub use standard::{config, settings};
pub use transport::ToyTransport;
pub use user::{ToyCredential, ToyJudge, ToyUserSigner};
