//! The key exchange of SSH (RFC 4253 sections 7 and 8, RFC 5656 section 4, RFC 8731): the choice of algorithms, the text
//! that both ends hash, and the keys.
//!
//! `choose` picks, for each kind, the client's first name that is also in the server's list. `exchange_hash` hashes the text of
//! an exchange and `derive` makes its keys, piece by piece and without memory; `exchange_text` is the text itself. Each
//! follows the definition in `ssh_model`, in the standard's words. Ends that hashed equal texts agree on all of their inputs
//! (`laws::equal_texts_have_equal_inputs`).
//!
//! `Agreement`, `HostSigner` and `HostTrust` are the supplied parts.
//!
//! The keys of a connection, from the lists on:
//!
//! ```rust
//! let choice = choose(&client_lists, &server_lists)?;
//! let inputs = ExchangeInputs {
//!     client_version: b"SSH-2.0-c",
//!     server_version: b"SSH-2.0-s",
//!     client_init,
//!     server_init,
//!     host_key: signer.key(choice.host.as_bytes()),
//!     client_point,
//!     server_point: &agreement.public(&secret),
//!     shared: &shared,
//! };
//! let hash = exchange_hash(&inputs);
//! let session_id = hash;               // of the first exchange; a later one keeps it
//! let mut mac_key = [0; 32];
//! derive(&shared, &hash, KeyPurpose::E, &session_id, &mut mac_key);
//! ```
//!
//! # What it promises
//!
//! - `choose` answers `IsChoice` of the two ends' lists, or names the kind that `IsFirstWithout` holds of. `guess_wrong` is false
//!   exactly for `IsRightGuess`. `markers` says which of the two markers stand in a kex list. All three answer in the model's computed
//!   words too (`has_choice`, `chosen`, `is_wrong_guess`, `has_marker`). No call needs memory. An `OwnedChoice` is the same choice
//!   without the payloads that it was made from.
//! - `exchange_hash` and `derive` are `exchange_hash` and `derived` of the definitions and take no memory. `exchange_text` is the text, or
//!   fails for lack of memory. The bytes after the length of each string and of K have to be fewer than 2^32.
//! - Law: equal texts have equal inputs (`equal_texts_have_equal_inputs`). The claim that two ends agree rests on this.
//! - The shared number and both points are 32 bytes, so that `derive` asks nothing of its caller.
//! - The ghost members of the parts say what they do. An `Agreement` has `does`, an `Agreement` of the model. A `HostSigner` has `keys`,
//!   the `HostKeys` of `specs/Parts.antt`. A `HostTrust` has `judged`.
#![tactic(auto)]

mod choice;
mod common;
mod exchange;
mod inputs;
mod keys;
mod kind;
pub mod laws;
mod lists;
mod owned_choice;
mod parts;
mod pieces;

pub use choice::{Choice, choose, guess_wrong};
pub use exchange::{exchange_hash, exchange_text};
pub use inputs::ExchangeInputs;
pub use keys::{KeyPurpose, derive};
pub use kind::{Kind, NoCommon};
pub use lists::{KexLists, extension_marker, extension_markers, markers, strict_marker};
pub use owned_choice::OwnedChoice;
pub use parts::{Agreement, HostSigner, HostTrust};
