//! Ends of SSH-2 for a program that keeps each in one value: the end with real parts, the bytes that it put out and that are not written
//! yet, the asks that wait until it can do them, and the account of its channels' windows. `Embedded` is the value of either role; `Server`
//! and `Client` are its names for the two, and `AnyEnd` is one of them.
//!
//! ```rust
//! let mut server = open_server(alloc, &settings, users, material)?;
//! let used = server.take_step(&bytes)?;       // to the end of one line or one packet
//! let turn = server.last_turn();                 // what that was
//! server.queue(Waiting::Known(Ask::Rekey))?;    // asked for once the end can do it
//! while let Some(done) = server.work() {    // the oldest that waits
//!     if is_later(&done) {
//!         break;
//!     }
//! }
//! socket.write_all(server.output())?;
//! ```
//!
//! # What it promises
//!
//! - `Embedded` is an end of either role with its output, its queue and its account of windows. `take_step` and `ask_step` have the clauses
//!   of `ssh_end::End::take_step` and `ssh_end::End::ask_step`, over its `end` and `out`, as `divrelca` lists them for its trait `End`
//!   (`TookBytes`, `FailedBytes` and `Performs` of its `specs/Ends.antt`). `last_turn` and `feed` have the clauses of the calls that they
//!   make, `placed` among them. `ask` has `padded` if the ask was done or refused, `work` if it was done, and `send` if it took bytes.
//!   `work` and `send` also have `chains` if the ask was done or refused, or nothing fitted (`PadsOn` of `specs/Embedded/Padding.antt`).
//!   That is `padded`, except that the end may still list the payloads of an earlier call if nothing was done. So the padding of one call
//!   follows on that of the call before, over refused asks and over asks that come too early. A `feed` that answers `false` changes
//!   nothing. Each call says that nothing changes besides what it names (`same`). `output` is the bytes that wait (`waiting_of` of
//!   `specs/Embedded/Output.antt`). `written` drops as many of them as it is told, and keeps at most as many written bytes as wait
//!   (`half`). `room` is the window that is shown, or none. `send` sends the first bytes of its data, as many as fit (`fitting` of
//!   `specs/Embedded/Windows.antt`), by one ask for data of this channel and kind (`SendsData` of `specs/Embedded/Sending.antt`). If none
//!   fits, nothing changes. Edits: `advance_eats`, `output_is_empty`, `a_channel_takes_no_data`, `form_that_is_no_ask_drops_output`,
//!   `one_byte_is_not_sent`, `last_bytes_are_sent_first`, `output_shows_what_is_written`, `the_last_written_byte_waits`,
//!   `written_bytes_are_kept`.
//! - `Flows` is the account of each channel's windows, by the counts of `divrelca`'s `Window` (`flows_of` of `specs/Embedded/Flows.antt`).
//!   Each of its calls is an equation over them: after an event (`heard`), after an ask (`opened_by`), after bytes are done with
//!   (`finished`), the bytes that are due (`due_on`), and after they were given back (`given_back`). Edits:
//!   `data_that_came_are_not_counted`, `peer_takes_packets_of_any_size`, `confirmed_channel_has_no_window`, `another_window_is_due`.
//! - `open_server` and `open_client` make a new end (`IsMade` of `specs/Embedded/Making.antt`) from the settings that were handed in
//!   (`settings_by`), with these keys and users. Its version line and its first KEXINIT wait to be written. No event is shown, no ask
//!   waits, nobody is noted, and the account of the windows is empty. The end stands at the first place of a run (`placed`, by `MadeOf` of
//!   `ssh_end_machine`). The KEXINIT is padded with the first bytes of the ChaCha20 stream under the key that was passed, and the end keeps
//!   the rest of that stream (`padded`, by `padding_under` of `divrelca`). If a setting is refused, it is the first one that is not good
//!   (`IsMadeError`, `IsClientError`). A client trusts its host by the keys that were handed in, in their order, and by no other. None of
//!   them is of small order (`strong`). Edits: `first_host_key_alone_is_trusted`, `no_host_key_is_trusted`, `no_host_key_is_looked_at`,
//!   `none_is_offered`, `passwords_are_named_unasked`, `a_server_has_a_key_to_log_in`, `padding_is_of_another_key`,
//!   `new_end_has_noted_somebody`, `bad_setting_is_want_of_memory`.
//! - `Embedded::ask` does what its form asks for (`IsAsked` of `specs/Embedded/Forms.antt`), and changes nothing if the form is no ask.
//!   `queue` puts an ask after those that wait. `work` makes the oldest one (`IsOldestMade` of `specs/Embedded/Queues.antt`). If it came
//!   too early, it goes on waiting, and otherwise it waits no longer (`is_early`). `decline` queues the answer that is owed for the event
//!   of the last turn, none if no line or packet was complete (`IsDeclined`). `consume` counts these bytes as done with, and queues an ask
//!   that gives back what is due of the channel's window (`GivesBack`). A `KeptForm` asks for the same as the form of which it is a copy.
//!   Edits: `an_ask_overtakes_the_others`, `an_early_ask_is_lost`, `the_newest_ask_is_made_first`, `a_busy_end_is_not_asked_again`,
//!   `a_kept_form_loses_its_flag`, `a_request_gets_no_answer`, `half_a_packet_is_declined`, `unknown_channel_is_consumed`.
//! - An ask that names a channel is for the one that has its number when it is queued. The queue keeps with it how many channels had begun
//!   there (`put_in`); `Flows` counts them at each OPEN of either end (`begun_flow`). If another one has begun since, the ask is refused
//!   with `NoChannel`, and nothing is done (`is_past`). So neither data nor a CLOSE nor credit for a channel that is over reaches the next
//!   one of its number. The count wraps at 2^64. Edits: `ask_is_for_a_later_channel`, `ask_is_queued_for_the_next_channel`,
//!   `next_channel_counts_as_the_one_before`, `form_is_for_no_channel`, `credit_is_for_no_channel`.
//! - `AskForm::ask` is `form_asks` of `specs/Embedded/Forms.antt`: which ask a form is, by its kind and its fields, or none, and then
//!   `fault_of` says why. Edits: `data_is_extended`, `form_of_a_rekey_disconnects`, `probe_signs`, `unknown_kind_lacks_a_key`.
//! - `Users` is a `UserJudge` (`verdicts_of` of `specs/Embedded/Users.antt`): what the program said on a request counts; where it said
//!   nothing, a key or a password of any entry of the user's name lets in. A signature of ssh-ed25519 is judged by its key, and any other one
//!   by what the program said on it (`is_right_by` of `ssh_held`). `add` puts this name with this login after the others (`entry_of`). A
//!   word that is tried is hashed once, and each entry is looked at. Edits: `key_lets_in_by_password`, `password_lets_in_by_key`,
//!   `last_entry_alone_counts`, `user_loses_the_first_letter`, `entries_come_before_the_program`,
//!   `signature_of_an_unknown_algorithm_is_wrong`.
//! - `TrustedHosts` is a `HostTrust` (`trusts_of` of `specs/Embedded/Hosts.antt`): a host has signed with one of the keys that the client
//!   was made with, or with one to which the program said yes. Of another algorithm than ssh-ed25519 the program said yes to the very
//!   signature of the very hash too. Edits: `keys_of_the_settings_are_not_trusted`.
//! - After `decide_later` a program answers in its own time. `take` of a `Server` answers `Wanted` only if the next packet is a request of a
//!   user without an entry on which the program said nothing, or one by a key to which it said yes, with a signature of another algorithm
//!   than ssh-ed25519 on which it said nothing (`IsUndecided` of `specs/Embedded/Deciding.antt`); `take` of a `Client` only if it is the
//!   awaited reply with a host key that the client was not made with, and on which the program said nothing, or nothing on the signature
//!   that it has to judge (`IsUnknownHost`). Then nothing else changes (`HoldsBack`). Otherwise the bytes are taken as `take_step` takes
//!   them, and the next packet asks nothing that
//!   is not settled (`settled`, `known`). So each request that a server took while one can let somebody in is settled (`settles`), by what
//!   the program said or since the user has an entry. `decide` adds what the program says on the very question that is wanted (`Answered`,
//!   `HostAnswered`), and nothing if none is. A server then stands where it stood, as that of the parties whose judge has the answer besides,
//!   and all that was settled stays so (`stands`, by `StandsSettled`); a client too, whatever came before (`StandsTrusting`). `wanted`
//!   shows the question (`ReadsRequest`, `ReadsHost`). Edits: `request_is_taken_unasked`, `user_with_an_entry_is_asked`,
//!   `question_is_shown_as_no_bytes`, `answer_is_always_yes`, `answer_is_dropped`, `host_key_is_taken_unasked`, `known_host_is_asked`,
//!   `host_answer_is_always_yes`, `wanted_request_is_not_shown`, `hash_of_the_signature_is_not_kept`,
//!   `host_signature_is_shown_as_a_key`, `host_signature_is_its_hash`, `signature_that_is_missing_is_settled`,
//!   `signature_is_answered_as_the_key_again`, `signature_is_of_another_session`.
//! - A client's signatures are those of its user's own key, and those that its program set (`signatures_by` of
//!   `specs/Embedded/Signing.antt`). `set_signature` sets the one of the text of a login in this session, if none is known, and the client
//!   stands where it stood (`stands`, by `StandsSigning`). `lacks` and `oldest_lacks` find each ask for a login that a live client cannot
//!   sign (`LacksSignature`); every other ask is signed or is no such login (`IsSignedAsk`). So the texts that are signed go on having a
//!   signature (`signing_laws::signed_goes_on`), and each signature that the client sent was its own key's, or one that the program set for
//!   that very text (`signing_laws::signed_by_program`). Edits: `login_goes_out_without_a_signature`,
//!   `login_by_the_own_key_lacks_a_signature`, `signature_is_set_for_another_user`, `known_ask_that_waits_needs_no_signature`,
//!   `newest_ask_is_dropped`, `key_of_the_form_is_not_read`, `own_key_is_needed_for_any_key`.
//! - `Embedded::take_step` notes whose key or password is asked for: after each turn, every user for whom the history has such a request is
//!   noted (`noted`, by `AreNoted` of `specs/Embedded/Asked.antt`), and so is everyone who was (`kept`). If memory is refused for a name,
//!   everybody counts as noted (`all`). Otherwise nobody is noted except those from before and those of a request in the turn
//!   (`noted_only`). If no packet is complete yet, that does not change (`unnoted`). `Server::set_user` puts the entries of one name after
//!   those that there are. If it does, each entry has the name (`named`), the name was not noted (`fresh`), and it is noted now (`noted`).
//!   Nobody else is noted, unless everybody counts as noted (`noted_only`). If the server stood at a place with its old users, it stands
//!   there with its new ones (`stands`): as the server of the parties whose judge has them (`judged_by`). What was settled stays so
//!   (`settled`). If the entries are not added, nothing of the server changes. Edits: `asked_user_is_not_noted`, `password_asks_for_nobody`, `set_user_is_not_noted`,
//!   `noted_user_is_set`, `entry_of_another_name_is_set`, `set_users_are_dropped`, `server_notes_everybody`, `turn_notes_another_user`.
//! - `set_user` answers the first fault that holds: `Over` if the server is over (`over`), `Name` if the name has no bytes or an entry has
//!   another one (`nameless`, `another`), and `Known` if the name is noted (`known`). If none of these holds, it adds the entries or
//!   answers `Memory` (`otherwise`). So each fault except `Memory` comes exactly when the clauses say. `Users::add` says in the same way
//!   when it answers `Login` and `Key` (`nameless`, `weak`, `otherwise`). Edits: `server_refuses_every_user`,
//!   `server_says_another_fault_first`. No clause says when memory is refused. So no clause refuses a body that claims this for each user,
//!   or one that lets everybody count as noted. There is also no clause that the opening of a server and its asks add no request to the
//!   history: a proof that chains the clauses has to show that of `AreNoted`.
mod ahead;
mod any_end;
mod ask_form;
mod deciding;
mod flowing;
mod flows;
mod host_deciding;
mod hosts;
pub mod laws;
mod making;
mod noted;
mod opening;
mod parts;
mod server;
mod signing;
pub mod signing_laws;
mod state;
mod users;
mod waiting;

pub use ahead::Ahead;
pub use any_end::AnyEnd;
pub use ask_form::{AskForm, FormFault};
pub use flows::{Flow, Flows};
pub use hosts::TrustedHosts;
pub use making::{ClientSettings, MakeError, MakeRefusal, Material, Methods, ServerSettings};
pub use noted::Noted;
pub use opening::{Client, Server, open_client, open_server};
pub use parts::{EmbeddedClient, EmbeddedServer, UserSignatures};
pub use server::{UserError, UserRefusal};
pub use signing::SignatureLack;
pub use state::{Embedded, is_later};
pub use users::{Login, User, Users};
pub use waiting::{KeptForm, Queued, Waiting};
