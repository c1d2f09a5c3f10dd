//! A server and a client of SSH-2 for C, and for any language that can call C. `bindings/include/divrelca.h` declares the exports of this
//! crate. One call is one call of an end of the module `embedded`. There are no callbacks and no global state.
//!
//! # What it promises
//!
//! - A handle, `DvEnd`, owns what the box of its pointer owns (`handle_owns` of `specs/Handles.antt`): an `AnyEnd`, a server or a client.
//!   `state` lends that end, and the handle then holds the value that the end was left with; `into_box` is the box. Both are proved by
//!   hand, for any end that meets `Handle` of `proofs/Handling.antt`. It is also proved by hand that a handle is `Send`. A `DvView` has the
//!   same bytes, for the two calls that only look. Outside `handle` it has nothing but `look`, which leaves the end as it is (`same`).
//! - The module `calls` has what an export does, over an end of any role. Each export has one clause, a record of `specs/Calls.antt`
//!   (`Takes`, `AsksNow`, `Works`, `Sends`, `Queues` and others); its fields are named here. The clause holds for the end in its role, with
//!   the ghost members of that role (`InRole` of `specs/Ends.antt`, `specs/Embedded/Roles.antt`), which the end keeps. Each clause says of
//!   everything that is kept besides the end whether it changes, and to what value (`same` and the fields around it).
//! - `dv_take` does with the bytes what `End::take_step` of `ssh_end` does (`TookBytes`, `FailedBytes` of `divrelca`): which of them are
//!   used, at least one if the end is not over, what is done with them, what is put out, and the next place of a run. The code and the
//!   count are functions of that answer (`code_held`, `count_held` of `specs/Codes.antt`). The code is -1 only if the step needs memory,
//!   and then the end is over. It is -2 only if the end was over, and then the end's state stays as it was. With both no byte is used, and
//!   nothing is put out. The users whose key or password the turn asks for are noted, and the account of the windows follows the event
//!   (`Hears` of `specs/Embedded/Taking.antt`). If no packet is complete yet, neither changes. Edits: `take_forgets_the_users_key`,
//!   `half_a_packet_notes_somebody`, `held_bytes_count_as_used`, `memory_is_wanted_of_the_program`.
//! - After `dv_decide_later` the code of `dv_take` may be 310. Then it has the clauses of `Server::take` and `Client::take` of the module
//!   `embedded` for what is wanted: nothing changes, and the next packet asks the program what `dv_show_wanted` shows (`TakesIn` and
//!   `ShowsAsked` of `specs/Wanted.antt`). `dv_answer` has those of `Server::decide` and `Client::decide` (`AnswersIn`): it answers 0 if what
//!   is said was added to what was said before, on the very question that is wanted, 311 if none is, and -1 if memory was refused. A request
//!   with a signed key asks about the key first. If the program says yes to that, and the key is of another algorithm than ssh-ed25519, it
//!   asks about the signature then (kind 5 of `dv_show_wanted`), and the answer counts for the text that is signed in this session alone.
//!   Without `dv_decide_later` nothing is wanted (`looks`), and no clause says anything of a program. `laws::accepted_by_program` and
//!   `laws::trusted_by_program` of `embedded`: whoever a server tells as accepted sent a request that the server accepted, and the program
//!   said yes to this very request, or said nothing and an entry lets in; and it said yes to the very signature, if that is of another
//!   algorithm than ssh-ed25519. A client completed no exchange of keys but with a host that signed by a key that it was made with, or to
//!   which the program said yes. Of another algorithm than ssh-ed25519 the program said yes to the very signature of the hash of that
//!   exchange too. Both hold whoever the peer is. Edits: `no_line_is_too_late`, `answer_is_the_other_one`,
//!   `password_is_shown_as_a_key`, `nothing_is_asked`, `signature_is_shown_as_a_key`, `key_is_shown_where_its_signature_is_missing`,
//!   `signature_is_answered_as_the_key_again`, `signature_is_of_another_session`.
//! - `dv_show_event` shows every field of a turn that shows the items of the step, and nothing if no line or packet is complete yet
//!   (`ShowsTurn` of `specs/Events.antt`). It and `dv_output` get a `DvView`. `dv_written`, `dv_feed`, `dv_is_over` and `dv_rekey_due` have
//!   the clauses of the calls that they make, and `dv_is_over` and `dv_rekey_due` leave the end as it is. Codes are those of
//!   `specs/Codes.antt`; the code of a fault, a setting or a file is never 0. `dv_public_key` is `pair_of` of `ciphers::ed25519`. The
//!   readers of key files answer and write what the equations of `divrelca::key_files` say (`specs/Files.antt`). Edits:
//!   `half_a_packet_lets_a_user_in`, `look_feeds_zeros`, `written_forgets_the_queue`, `feed_forgets_the_queue`, and others of
//!   `divrelca_c/falsify`.
//! - `dv_sent` shows just the payload at a place of those that the last call sent, `dv_peer_version` and `dv_session_id` what the end keeps of
//!   its session; or each answers `false`, and shows no bytes (`ShowsBytes` of `specs/Ends.antt`). Edits: `sent_payload_is_the_next_one`,
//!   `nothing_is_said_to_be_there`, `session_id_is_never_there`, `version_of_the_peer_is_not_shown`.
//! - `dv_ask_now` and `dv_work` do what the end does on that ask (`Performs` of `divrelca`, with `Asks` of `ssh_end_machine`), and answer
//!   the code of that and the number of a channel that opens. `dv_queue`, `dv_queued`, `dv_decline`, `dv_consume` and `dv_room` have the
//!   clauses of the calls that they make. `dv_consume` counts just these bytes as done with, and gives back what is due by the account of
//!   the window (`GivesBack` of `specs/Embedded/Queues.antt`). Edits: `consumed_bytes_are_not_counted`, `unknown_channel_is_consumed`,
//!   `half_a_packet_is_declined`.
//! - A client does not make a login by a key without a signature (`AsksIn` and `WorksIn` of `specs/Signing.antt`): the code says why it has
//!   none (`LacksSignature`, `lack_code`), and nothing changes, except that an ask that waited is dropped unless its text may still come.
//!   Every other ask is done as before. `dv_text_to_sign` writes the text of a login in the session of an end of either role, and nothing
//!   besides (`WritesText`). `dv_set_signature` has the clauses of `Client::set_signature` (`SetsSignature`), and leaves a server as it is.
//!   Edits: `unsigned_login_is_asked_for`, `unsigned_login_goes_on_waiting`, `written_text_has_one_byte_less`,
//!   `set_signature_does_nothing`, `server_is_given_a_signature`, `client_logs_in_unsigned`, `text_is_for_another_key`,
//!   `unsigned_login_lacks_a_key`, `bad_signature_is_known`.
//! - `dv_send` asks the end, once, to send the first bytes of its data on this channel and this stream: as many as the peer's window and
//!   its largest packet, 32,768 and the data allow (`fitting` of `specs/Embedded/Windows.antt`). It answers 0 and takes none only if
//!   nothing fits, and then nothing changes. It answers 3 if the channel is not confirmed. Otherwise the code is that of the ask
//!   (`SendsData` of `specs/Embedded/Sending.antt`). Edits: `data_go_to_the_first_channel`, `stream_is_forgotten`, `one_byte_is_not_sent`,
//!   `last_bytes_are_sent_first`.
//! - If `dv_take`, `dv_ask_now` or `dv_work` answers 0, each packet that it put out is padded with the next bytes of the end's stream, and
//!   it put out nothing else (`padded`, by `PadsTo` of `ssh_transport_machine` with `next_bytes` of `divrelca`). The same holds for
//!   `dv_send` if it took bytes. `dv_ask_now`, `dv_work` and `dv_send` say it for every code except -1 and -2 (`chains`, by `PadsOn` of
//!   `specs/Embedded/Padding.antt`). So they also say it if an ask is refused, if it comes too early, if a form is no ask, and if no ask
//!   waits. After -1 and -2 an end is over. If it was over before, its stream stands where it was (`unchanged` of `divrelca`). `dv_feed`
//!   changes nothing of an end except its machine (`rest`), so the stream stands where it was, and `dv_show_event` and `dv_output` change
//!   nothing at all. No clause says how far the stream went in a call that answers -1. An ask that is answered -2 for want of a sequence
//!   number may put out a packet: its padding is said (`padded` of `divrelca`), but which one it is only of an end at a place of a run.
//! - `dv_server_set_user` leaves a client's end as it is, and answers 11. For a server's end it has the clauses of `Server::set_user` over
//!   the entries that C passes (`entry_by`; `SetsUser` of `specs/Users.antt`). If it answers 0, these come after those that the server has,
//!   and all are of that name. The server then stands with them where it stood (`stands`). If it answers another code, neither the users
//!   nor the noted names change. Nothing else of the server ever changes. An entry is taken if `IsTaken` holds: it has a name, and besides
//!   it a password with bytes, or a key of 32 bytes that is not of small order. The answer is 0 only if each entry is taken (`taken`). If
//!   one is not, the code is -1 or that of the first such entry (`faulty`, by `users_fault` of `specs/Making.antt`). If each is taken, the
//!   code is -1, or else the first of these that holds: -2 if the server is over (`over`), 303 if the name has no bytes or an entry has
//!   another one (`nameless`, `another`), and 309 if the name is noted (`known`). Otherwise it is 0 (`otherwise`). No clause says when
//!   memory is refused. Edits: `user_is_set_without_keys`, `known_user_is_done`, `user_has_the_name_of_the_first_entry`,
//!   `every_user_is_refused`, `other_fault_comes_first`, `everybody_is_noted`, `client_is_given_a_user`,
//!   `first_fault_of_users_is_the_last`.
//! - `dv_server_new` and `dv_client_new` have `Leaves` with `IsNewServer` or `IsNewClient`: if they answer 0, they leave a new end of that
//!   role at `out`, with the clauses of `open_server` and `open_client` over what C passes. That is settings (`server_settings`,
//!   `client_settings` of `specs/Making.antt`), the key pair of the seed, and users (`entry_by`). A client trusts just the keys of its
//!   host that are passed, at most 16 (`keys_of`). Their clauses say which values are taken as settings (`IsServerSettings`,
//!   `IsClientSettings`). If they answer another code, nothing is written, and the code is that of the first fault (`IsServerFault`,
//!   `IsClientFault`), or -1. The code is not -1 if the first fault is found before memory is asked for; so are all faults of a client, and
//!   of a server all that `server_fault` lists. `out` is a `DvNewEnd`, of the same bytes as a handle. It owns nothing until an end is
//!   there, and then owns what the box owns (`place_owns` of `specs/Handles.antt`). `of`, which makes it from the box, is proved by hand.
//!   The padding comes from the stream under `padding`, from its first byte (`padded`). No clause says when memory is refused. Edits:
//!   `servers_padding_is_its_secret`, `clients_padding_is_its_secret`, `server_is_refused_at_will`, `client_is_refused_at_will`,
//!   `bad_setting_is_want_of_memory`, `new_end_has_noted_somebody`, `host_without_keys_is_refused`, `rest_of_a_host_key_is_dropped`.
#![tactic(auto)]

pub mod bytes;
mod calls;
mod codes;
pub mod embedded;
pub mod ends;
mod event;
pub mod handle;
pub mod keys;
mod making;
pub mod names;
mod signing;
pub mod wanted;
