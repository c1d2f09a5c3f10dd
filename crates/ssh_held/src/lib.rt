//! Ends whose questions a program answers in its own time.
//!
//! An end asks its parts at once. A program that has to ask a directory, a person or another machine holds the bytes back instead, finds the
//! answer, gives it, and delivers the bytes then. By the model nothing was taken before, so all that is proved of an end goes on holding.
//!
//! A `HeldServer` is a server whose program says who may log in:
//!
//! ```rust
//! match server.take(bytes, &mut out)? {
//!     Taken::Used(used) => show(&server.end().last_turn()),
//!     Taken::Wanted => {
//!         // nothing is used: look the question up, and come back with the same bytes
//!         if let Some(question) = server.question(alloc)? {
//!             let accepts = look_up(&question);
//!             server.give(alloc, question, accepts)?;
//!         }
//!     }
//! }
//! ```
//!
//! The judge of signatures of a server's book says which algorithms it knows (`KnowsAlgorithms`). A signature of another algorithm is a question
//! of its own, `Asked::Signature`, once the program said yes to the key: so a program lets users in by algorithms that the library does not
//! compute.
//!
//! A `HeldClient` is a client whose program says which host keys are trusted, in the same way. `HeldParts` are the parts of a client with
//! `HostVerdicts` as their host trust, and with a part that judges the signatures by these keys. That part says which algorithms it knows
//! (`KnowsAlgorithms`). The signatures of all others are questions to the program too: is this the signature of this hash by this key?
//!
//! A client whose user's key is held by an agent is a `ClientEnd` with `GivenSignatures` as its user. Before the ask for the login its program
//! writes the text, has it signed, and gives the signature:
//!
//! ```rust
//! let count = write_text_to_sign(&client, user, algorithm, key, &mut text)?;
//! let signature = agent.sign(key, &text[..count])?;
//! give_signature(alloc, &mut client, user, algorithm, key, &signature)?;
//! client.ask_step(&Ask::User(UserAsk::Sign { user, algorithm, key }), &mut out)?;
//! ```
//!
//! `give` is for questions that each have an answer of their own, such as a password that a directory checks. Where all keys and passwords
//! of a user are known at once, before the first question on that user, `set_user` of the library for C answers all of them: both put
//! another judge in place by `End::replace_user`.
//!
//! # What it promises
//!
//! - `Verdicts` judges a server's users by what a program said (`judge_by`): that a user needs no credential, that this is a password of
//!   the user, or a key. The first verdict on a question counts (`said`), and what was not said is no. Signatures of the algorithms that
//!   another judge knows are judged by that one. A signature of any other algorithm is right if the program said yes to it, and for the
//!   text of that verdict alone (`is_signed`); the first verdict on an algorithm, a key and a signature counts. Edits:
//!   `last_verdict_counts`, `unsaid_is_yes`, `verdict_on_another_users_key`, `verdict_on_another_users_password`,
//!   `last_verdict_on_a_signature_counts`, `signature_of_another_text_is_right`, `signature_of_another_key_is_right`,
//!   `known_signature_is_not_judged`.
//! - `HostVerdicts` trusts a host key if the program said yes to it under its algorithm, and another part judges its signature right. If
//!   that part does not know the algorithm, the program has to have said yes to this very signature of this very hash (`trust_by`). The
//!   first verdict on a question counts (`said_of_host`), and what was not said is no. Edits: `last_host_verdict_counts`,
//!   `unsaid_host_is_trusted`, `verdict_on_another_host_key`, `host_verdict_under_another_algorithm`,
//!   `signature_of_the_host_is_not_judged`, `signature_of_an_unknown_algorithm_is_not_asked_about`, `verdict_on_another_hash`,
//!   `verdict_on_another_signature`, `verdict_on_the_key_is_one_on_its_signature`, `verdict_on_the_signature_is_one_on_the_key`,
//!   `last_verdict_on_a_host_signature_counts`.
//! - `request_in` reads the request that a payload is, and finds each; `host_key_in` and `host_reply_in` read the host key and the
//!   signature of a server's reply.
//!   `Request::asks` says whether a request asks a program (`asks`): one that every judge fails asks nothing. `Request::question` and
//!   `HostKey::question` are what they ask (`is_about`, `is_on_host`). `Request::next_question` and `HeldServer::question` are what a request
//!   asks by what was said so far (`is_next`, `AsksNext`): its first question, or that on its signature, over the very text that is signed
//!   in this session, if only this is missing. `Verdicts::awaits_signature` says which: the program said yes to the key, the judge of
//!   signatures does not know the algorithm, and nothing was said on the signature. Edits: `request_for_another_service_asks`,
//!   `question_is_of_no_user`, `host_question_has_no_key`, `host_question_has_no_signature`, `point_is_the_host_key`,
//!   `signature_is_the_host_key`, `signature_is_asked_of_another_text`,
//!   `signature_is_asked_as_a_key`, `signature_is_never_asked`, `refused_key_asks_for_its_signature`, `known_signature_is_asked`.
//! - `HeldServer::take` answers `Wanted` only if the user is not authenticated, and the next packet is a request that asks the program,
//!   which has said nothing on it, or nothing on its signature (`IsWanted`).
//!   `HeldClient::take` does so only if the next packet is the reply that the client awaits, and
//!   the program has said nothing on its host key under the algorithm of this exchange. Once it has said yes to the key, `take` does so if
//!   the algorithm is not known, and the program has said nothing on the signature of the hash of this exchange (`WantsHost`). That hash
//!   is the one over which the client has its host judged (`ssh_end_machine::peeking_laws`). Then the end is as it was,
//!   and nothing is put out (`same`, `quiet`). Otherwise the next packet asks nothing on which the program said nothing (`answered`, by
//!   `IsAnswered` and `IsHostAnswered`), and the bytes are taken as `End::take_step` takes them. Edits: `wanted_uses_bytes`,
//!   `request_is_taken_undecided`, `host_is_taken_undecided`, `decided_request_is_wanted`, `decided_host_is_wanted`,
//!   `signature_is_taken_undecided`, `signature_by_a_refused_key_is_wanted`, `signature_of_a_known_algorithm_is_wanted`.
//! - `unanswered_request` and `unanswered_host` look at the next packet in the same way. They are for an end that a program keeps itself,
//!   whose judge or host trust has a book of verdicts beside something else. What then settles a request is any function of its user and
//!   method: each request stays settled (`laws::settled_goes_on`), and of a book the first verdict counts (`laws::first_verdict_counts`,
//!   `laws::judged_asks`).
//! - `wanted` shows what the last `take` wanted, and shows something exactly then. It is the request, or the host key, of the packet that
//!   was looked at. If the question is on the signature, that and the hash stand beside the key, and otherwise not. Asks, pairs of cookie and secret, and answers do not change it. Edits: `wanted_request_is_none`,
//!   `wanted_request_is_hidden`, `wanted_request_is_not_kept`, `wanted_host_key_is_none`, `wanted_host_is_not_kept`,
//!   `wanted_signature_is_shown_as_a_key`, `wanted_signature_is_the_key`.
//! - Each call goes from one place of a run to the next (`placed`, by `HeldAt` and `ClientHeldAt`): `take` by a turn for the bytes that
//!   it used (`TurnedOn`), `ask_step` by one for the ask (`AskedOn`), `feed_material` (`FedOn`), and `give`, which leaves the history. As
//!   long as a question can come to a server, the program had said all that the requests asked (`AllDecided`), so that a new verdict
//!   changes nothing of what was decided (`laws::verdicts_added`). A client that is told more verdicts trusts what it trusted
//!   before (`laws::hosts_added`). Edits: `verdict_is_not_added`, `host_verdict_is_not_added`, `a_done_ask_is_denied`,
//!   `a_kept_pair_is_denied`.
//! - A client logs in by a key of which it has no seed, if its program has an agent sign the text. `write_text_to_sign` writes that text for
//!   this user, algorithm and key, and nothing besides (`text_in`); it answers how many bytes it has, or that there is no session id yet or
//!   no room (`early`, `long`). `give_signature` adds the signature of that very text (`AddsSignature`), and the client stands where it
//!   stood (`placed`, by `SigningAt`). It says which fault holds first. Edits: `text_has_no_session_id`, `text_has_no_user`,
//!   `text_that_fills_the_room_is_too_long`, `text_of_no_session_is_too_long`, `signature_is_given_for_another_users_text`,
//!   `signature_is_given_for_the_users_name`, `known_signature_is_given_again`, `long_signature_is_given`, `signature_is_not_added`,
//!   `given_signatures_are_dropped`.
//! - `GivenSignatures` signs by the client's own signer where that signs, and otherwise by the first signature that was given for the text,
//!   by this key under this algorithm (`signature_by`). `knows_signature` says whether there is one (`is_signed`). Without one a program does
//!   not ask for the login. Edits: `own_signer_comes_last`, `last_given_signature_counts`, `signature_is_for_any_text`,
//!   `signature_is_cut_short`, `empty_signature_has_a_size`, `only_own_signatures_are_known`, `every_signature_is_known`.
//! - If a signature of each text was known before the ask, it goes on so over each turn (`signing_laws::settled_goes_on`, with
//!   `signing_laws::text_of_now`), and one more signature changes nothing of what was sent (`signing_laws::signatures_added`). Then each
//!   signature that a client sent in its whole run is one of its own signer over that very text, or one that the program gave for it
//!   (`signing_laws::own_or_given`). This holds whoever the peer is. Edits: `given_signature_comes_first`,
//!   `text_without_a_signature_is_signed`, `signature_is_of_another_text`.
//! - An answer settles its question: the same bytes do not want it after that, and want nothing but a signature that they did not want
//!   before (`laws::answer_settles`).
//! - Once the user of a server is authenticated, nothing is looked at any more, and so it is at a client outside of an exchange of keys:
//!   a packet costs what it does without this crate.
//! - `laws::accepted_by_verdict`: whoever a server tells as accepted sent a request that the server accepted, with the credential that is
//!   told, and the program had said yes to this very request, and to its very signature, over the text of this session, if the judge of
//!   signatures does not know the algorithm (`LetInByVerdict`). `laws::trusted_by_verdict`: in each exchange of keys
//!   that a client completed, the program had said yes to the very host key whose signature was judged right for it, under the algorithm
//!   that was chosen in it. If that algorithm is not known, it had said yes to that very signature of the hash of this very exchange
//!   (`TrustsEachByVerdict`). Both hold whoever the peer is. Edits: `who_is_told_may_have_had_a_no`,
//!   `who_is_told_may_have_signed_another_text`, `trusted_host_may_have_had_a_no`, `unknown_signature_may_have_had_a_no`.
#![tactic(auto)]

mod asking;
mod book;
mod client;
mod held_parts;
mod host_book;
mod host_key;
mod known_algorithms;
mod known_signature;
pub mod laws;
mod login_text;
mod next_reply;
mod next_request;
mod server;
mod signing;
pub mod signing_laws;
mod taken;
mod texts;

pub use asking::{Request, request_in};
pub use book::{Asked, Verdict, Verdicts};
pub use client::HeldClient;
pub use held_parts::HeldParts;
pub use host_book::{HostAsked, HostVerdict, HostVerdicts, SignedHash};
pub use host_key::{HostKey, HostReply, HostSignature, host_key_in, host_reply_in};
pub use known_algorithms::KnowsAlgorithms;
pub use known_signature::{SignatureRefusal, give_signature, knows_signature};
pub use login_text::{TextRefusal, write_text_to_sign};
pub use next_reply::{HostWanted, unanswered_host};
pub use next_request::unanswered_request;
pub use server::HeldServer;
pub use signing::{GivenSignature, GivenSignatures};
pub use taken::Taken;
