//! SSH-2 for a program that embeds one end: every name that it needs, from the crates in which these are proved. This crate adds the parts
//! of an end with real ciphers, the decisions of a program, and `default_answer`.
//!
//! A line of crates.txt names it: `echo_server: divrelca anyhow`.
//!
//! **Parts.** An end is generic over its sealing, key agreement, keys and padding. These are real parts:
//!
//! ```rust
//! struct Parts;
//!
//! impl ServerParts for Parts {
//!     type Sealing = AesGcm;
//!     type Filler = PaddingSource;
//!     type Agreement = Curve25519;
//!     type HostSigner = Ed25519Signer;
//! }
//! ```
//!
//! **Settings.** `GcmSettings` are the settings of an end that seals by AES-GCM. `Config::new` checks them:
//!
//! ```rust
//! let config = Config::new(alloc, &GcmSettings::new(b"echo").settings())?;
//! ```
//!
//! **An end.** It is made from the parts, a judge of users, and a cookie and a secret of random bytes of the system. It puts its first
//! bytes into `out`:
//!
//! ```rust
//! let mut keys = KeySupply::new(RandomBytes(&rt));
//! let first = keys.draw()?;
//! let parts = ServerPartValues { filler: keys.padding()?, agreement: Curve25519, host_signer: signer };
//! let mut end = ServerEnd::<Parts, _>::new(alloc, config, parts, judge, first.cookie, first.secret, &mut out)?;
//! ```
//!
//! **The loop.** Bytes of the peer go in, events and bytes for the peer come out. Requests that the program does not know are answered all
//! the same:
//!
//! ```rust
//! let turn = end.take(rest, &mut out)?;
//! rest = rest.split_at(turn.used).1;              // give the rest again
//! match turn.told {
//!     Some(Told::Channel(ChannelEvent::GotData { channel, body, .. })) => work.take(channel, body)?,
//!     Some(told) => if let Some(answer) = default_answer(&told) {
//!         tasks.push_back(answer)?;               // asked for once `turn` is let go
//!     },
//!     None => {}
//! }
//! keys.keep_fresh(&mut end, &mut out)?;           // a fresh cookie and secret, and an exchange of keys where one is due
//! ```
//!
//! **An ask** goes through `asked`, which returns `Later` while keys are exchanged: keep the task, and ask again after the next `take`.
//!
//! **The decisions of a program** are made here: how large windows and packets are, when a window is given back, how much is sent at once,
//! when keys are fed and exchanged, and whom a server lets in. Everything else belongs to the protocol, and the end does it.
//!
//! - **Windows.** A channel's `Window` counts three kinds of bytes: those that the peer may send, those that came and are not done with,
//!   and those that are done with and not given back. Together they are the window's size at all times, so more than that is never held.
//!   Window is given back once half of it is done with.
//! - **Sending.** A packet has as many of the waiting bytes as the peer's window and its largest packet allow, and at most 32,768
//!   (`data_len`).
//! - **Keys.** A `KeySupply` keeps an `End` fed with one cookie and one secret, and begins an exchange when it is due: after as many
//!   packets as the settings say, which is `EPOCH_LIMIT` for those of `GcmSettings::new`.
//! - **Users.** A server lets in `OneUser`, by keys and by a password; a client's user signs with a `UserKey`.
//!
//! The loop over the data of a channel, which gives the window back once half of it is done with:
//!
//! ```rust
//! let mut window = Window::new(Policy::DEFAULT.window);
//! window.take(body.len());                    // data came
//! window.finish(body.len());                  // and is done with
//! if let Some(bytes) = window.due() {
//!     let adjust = ChannelAsk::Adjust { channel, bytes };
//!     if asked(&mut end, &Ask::Connection(adjust), &mut out)? == AskOutcome::Done {
//!         window.give_back();
//!     }
//! }
//! ```
//!
//! The crate `example_embedding` is a whole client and a whole server, and docs/EMBEDDING.md has their parts and loop, and tables of all events
//! and refusals.
//!
//! # What it promises
//!
//! It exports names of the crates below it. Its own names are parts of an end, and the decisions of a program. The module `release` has the
//! version and the kit.
//!
//! - `default_answer` is `default_answer_of` of the event (`specs/Unknown.antt`). `Refuse` with reason 3 answers `Opened`, and a failure
//!   answers `Requested` and `Global` that want a reply; no other event has an answer. Edits: `keepalive_gets_no_answer`,
//!   `request_that_wants_no_reply_gets_one`, `unknown_channel_gets_another_reason`.
//! - `End` has a ghost member for each call, and the clause of the call is that member. For an end of `ssh_end` the members are the clauses
//!   of its own calls (`specs/Ends.antt`). `takes` is `TakesBytes`: which bytes are used and what is done with them, what is put out and
//!   with which padding, and the next place of a run; or why no byte is used. `shows` is `ShowsLast`. `asks` is `Performs`: what is done on
//!   the ask, and what the channels are then, or the first refusal that holds. An end that was over before stays as it was, with its filler
//!   (`unchanged`). `feeds` is `FeedsPair`: just these bytes are kept, or none. `is_over`, `is_due` and `channels_of` are the answers of
//!   the calls that only look. `take` is `take_step` and then `last_turn`, also for the end that the turn is borrowed from (`TakesTurn`).
//!   No call of any end drops bytes that wait for the peer (`out`). Edits: `real_end_is_asked_for_an_exchange`, `real_end_is_never_over`,
//!   `real_end_drops_what_waits`, `other_pair_is_fed`.
//! - `asked` asks the end once. Its answer is the outcome of the end's answer (`IsOutcome`, `outcome_of` of `specs/Asking.antt`), and
//!   nothing besides this ask changes the end or the bytes that wait. Edits: `ask_is_made_twice`, `ask_drops_what_waits`,
//!   `nothing_is_asked`, `a_busy_end_is_gone`, `a_refused_ask_is_done`.
//! - `data_len` is the least of the peer's window, its largest packet, 32,768 bytes and the bytes that wait.
//! - `KeySupply` draws from a source of random bytes whose value says which bytes a call may give (`Entropy`). `draw` gives a cookie and a
//!   secret from two calls, one after the other (`IsDrawn`). `keep_fresh` hands the end the pair that is kept, or else one that is drawn
//!   now, and no other. If the end took the pair, the supply keeps it no longer, so no pair is handed in twice. After that `keep_fresh`
//!   asks for an exchange of keys, once, if one is due (`HandsIn` of `specs/Supplies.antt`). The same holds if the end fails on that ask.
//!   If no pair was kept and none could be drawn, nothing is handed in, and the end and the bytes that wait are as before
//!   (`HandsNothingIn`). `padding` is a ChaCha20 stream whose key is drawn now (`SeedsPadding`), and a `PaddingSource` fills in the next
//!   bytes of its stream (`next_bytes`). `PaddingSource::from_key` is that stream under a given key, from its first byte (`padding_under`).
//!   `open` makes a new end with a pair that is drawn now (`IsFresh`, `IsNewEnd` of `specs/Opening.antt`), and puts out nothing if it fails.
//!   Nothing is promised of the bytes of the system's source. Edits: `padding_is_not_filled`, `padding_of_a_known_stream`,
//!   `key_of_the_padding_is_ignored`, `zeros_are_fed_for_want_of_bytes`, `pair_is_kept_where_the_end_refuses`, `handed_in_pair_is_kept`,
//!   `exchange_is_asked_for_twice`, `feeding_drops_what_waits`.
//! - `{}` shows a `SupplyError` of an end with the words of its fault (`supply_text` of `specs/Faults.antt`). Of that of a source nothing is
//!   promised. Edit: `what_the_end_said_is_not_told`.
//! - `Window`: `granted`, `held` and `done` add up to `size` (the ghost field `adds_up`), so more than `size` is never held. Each call is
//!   an equation over the four counts (`counts_of` of `specs/Windows.antt`). `take` moves bytes from `granted` to `held`, at most those
//!   that are granted (`after_taking`). `finish` moves bytes from `held` to `done`, at most those that are held (`after_finishing`). `due`
//!   is `due_of`: all of `done`, once it is half of `size`. So something is due if neither `granted` nor `held` has a byte. `give_back`
//!   moves all of `done` to `granted` (`after_giving_back`). Edits: `data_beyond_a_window_are_not_counted`, `bytes_are_done_with_twice`,
//!   `window_is_never_given_back`, `given_back_bytes_are_lost`, `held_bytes_are_given_back`.
//! - `EPOCH_LIMIT` packets of the most blocks that a packet can have are fewer than 2^32 blocks. The values of `Policy::DEFAULT` and the
//!   bounds that pages name by number are compared with these numbers (`prove!` in `policy`). Edits: `none_is_offered_where_nothing_is_set`,
//!   `twenty_tries_where_nothing_is_set`, `exchanges_are_due_late`.
//! - `Ciphers::named` is `choice_of` (`specs/Ciphers.antt`): one of three lists of names, and no other. `names` is `names_of`: the names
//!   that such a choice offers, in order, with `none` last if that is offered.
//! - `fingerprint` is the SHA-256 of a key in base64 digits without padding. Edit: `fingerprint_is_of_no_key`.
//! - `OneUser` is a `UserJudge` (`verdicts_of` of `specs/Users.antt`): it gives the verdicts of `Ed25519Judge` on its keys. A password is
//!   right if the name is the user's and the SHA-256 of the word is that of `PasswordHash::new`. `UserKey` is a `UserSigner`
//!   (`signature_by`): it gives the signature of its key pair, or no bytes.
#![tactic(auto)]

mod cipher_choice;
mod end;
mod error;
mod fingerprints;
pub mod key_files;
mod keys;
pub mod laws;
mod parts;
mod policy;
mod release;
mod unknown;
mod user_key;
mod users;
mod window;

pub use cipher_choice::Ciphers;
pub use end::{AskOutcome, End, asked};
pub use error::SupplyError;
pub use fingerprints::fingerprint;
pub use keys::{Entropy, KeySupply, Material, PaddingSource, RandomBytes};
pub use parts::{
    AcceptedKey, AesGcm, Curve25519, Ed25519HostKeys, Ed25519Judge, Ed25519Signatures,
    Ed25519Signer, Ed25519Trust, Either, EitherKey, GcmSettings, PacketKey,
};
pub use policy::{
    EPOCH_LIMIT, LEAST_WINDOW, MOST_DATA, MOST_SESSIONS, MOST_WAITING, MOST_WINDOW, Policy, TRIES,
    WINDOW, data_len,
};
pub use release::{KIT, VERSION};
pub use ssh_auth::{UserAsk, UserJudge, UserSigner};
pub use ssh_channels::{Ask as ChannelAsk, ChannelEvent, ChannelState, Channels};
pub use ssh_end::{
    Ask, AskStep, ClientEnd, ClientRole, Credential, EndRole, Fault, SentPayloads, ServerEnd,
    ServerRole, Told, Took, Turn,
};
pub use ssh_kex::{Agreement, HostSigner, HostTrust};
pub use ssh_message::{Extension, Extensions, Message};
pub use ssh_packet::{Filler, Lengths, MacOnly, Sealing, tags_equal};
pub use ssh_transport::{
    ClientPartValues, ClientParts, Config, ConfigLimit, ConfigList, ConfigRefusal, ExtensionFault,
    ListFault, ServerPartValues, ServerParts, Settings, Strictness,
};
pub use ssh_types::bounds::LEAST_EPOCH_LIMIT;
pub use ssh_types::{AskRefusal, CallError, NameList, Refusal, RequestKind, Side};
pub use unknown::default_answer;
pub use user_key::UserKey;
pub use users::{OneUser, PasswordHash};
pub use window::Window;
