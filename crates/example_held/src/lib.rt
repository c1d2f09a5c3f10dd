//! An example: a server's loop, and the loop of a client, whose programs answer in their own time, with contracts of their own.
//!
//! They show how a program builds on the ends of `ssh_held`. The program gives a look-up (`LookUp`). Where the end wants an answer, the
//! loop asks the look-up, gives the end the answer, and goes on with the same bytes. `take` goes from one place of a run to the next
//! (`HeldAt`, `ClientHeldAt`). So does `give`: the judge of the parties changes, and the history stays. What a loop promises speaks of the
//! history and the verdicts at its end, and of each turn on the way by what had been said until then.
//!
//! ```rust
//! let served = serve(&mut server, &mut directory, alloc, bytes_of_the_client, &mut out)?;
//! if served.is_in {
//!     // the last turn of the server tells who, and `bytes_of_the_client[served.used..]` is still to be taken
//! }
//! let met = meet(&mut client, &mut person, alloc, bytes_of_the_server, &mut out)?;
//! ```
//!
//! # What it promises
//!
//! - What a server or a client was told is what the look-up answered, one answer after another (`said`, by `SaidOn`): no more verdicts, no
//!   others, and on no other questions. Edits: `yes_at_will`, `trusted_at_will`, `a_verdict_is_given_without_asking`,
//!   `a_host_is_trusted_without_asking`, `a_verdict_is_given_on_another_users_question`, `a_verdict_is_given_on_another_host_key`.
//! - The look-up is asked what the end wants, and nothing else. So the same bytes want nothing after the answer, or a signature after the
//!   answer on its key and nothing after that, and the loops end. Edits: `a_request_is_answered_with_another_question`,
//!   `a_host_key_is_answered_with_another`, `a_signature_is_not_asked_about`.
//! - Whoever is told as let in, in the whole history of the server, sent a request that the server accepted, with the credential that is
//!   told, and the program had said yes to this very request, and to its signature if the server's judge does not know the algorithm
//!   (`by_verdict` of `ServedTo`). `serve` says whether a user is told as let in by
//!   these bytes (`says`). Edits: `every_turn_lets_a_user_in`, `no_turn_lets_a_user_in`, `a_user_let_in_is_not_said`.
//! - In each exchange of keys that the client completed in its whole history, the program had said yes to the very host key (`by_verdict`
//!   of `MetBy`). `meet` says whether one is told as completed by these bytes (`says`). Edits: `every_turn_completes_an_exchange`,
//!   `no_turn_completes_an_exchange`, `a_complete_exchange_is_not_said`.
//! - All bytes are used, unless a user is let in, an exchange is complete, or the end is over (`all`). The bytes that are used are lines
//!   and packets, and each was a turn of the session (`went`, by `WentBy`). Edits: `only_half_of_the_bytes_are_taken`,
//!   `only_half_of_the_bytes_of_a_server_are_taken`, `a_wanted_turn_counts_its_bytes_as_used`,
//!   `a_wanted_turn_of_a_client_counts_its_bytes_as_used`.
//! - Whatever the result is, the end stands at a place of its run. All of this holds for all lawful parties that have the parts of the end,
//!   and whoever the peer is.
#![tactic(auto)]

mod client;
mod look_up;
mod server;

pub use client::{Met, meet};
pub use look_up::LookUp;
pub use server::{Served, serve};
