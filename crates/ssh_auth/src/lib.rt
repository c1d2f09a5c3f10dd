//! User authentication of SSH (RFC 4252): the state of a server and of a client, what they make of each message, and the requests that a
//! client sends.
//!
//! An `AuthServer` takes USERAUTH_REQUEST and answers it by the verdicts of a supplied `UserJudge`: by `none`, by `password` and by
//! `publickey` with its key probes. An `AuthClient` makes the requests that its user asks for, one outstanding at a time, has a
//! `UserSigner` sign them, and takes the answers. Neither reads or writes bytes: they take decoded messages, and answer what has to be sent
//! and told. Every request is for the service `ssh-connection`.
//!
//! The layer below tells them by `open` that SERVICE_ACCEPT was sent or taken, tests by `may_take` whether a number may come, and decodes
//! under `probing`. Their state depends on no other message of another layer. Their answers and their state are those that `ssh_model`
//! defines for both ends of a session, so each of them sums up the history of its end (`laws`).
//!
//! Memory is asked for by `AuthServer::new`, and by a client's `ask` for the text that a signed request covers. A server makes such a text
//! in `take`, for the signature of a known key. It has room for that text from `new` on, of each request that comes in one packet.
//! Passwords and keys are slices of the payload or of the ask, and are copied into that text alone.
//!
//! A payload at a server, and a request of a client:
//!
//! ```rust
//! let mut server = AuthServer::new(alloc, 6, &config.methods())?;
//! server.open();                                        // SERVICE_ACCEPT was sent
//! let message = decode(server.probing(), payload)?;
//! let answer = server.take(&session_id, &judge, &message)?;
//! if let Some(reply) = server.message(&answer) {
//!     encode(&reply, &mut out)?;                        // SUCCESS, FAILURE or PK_OK
//! }
//! if answer == ServerAnswer::Accepted {
//!     println!(rt; "the user of this request is authenticated")?;
//! }
//!
//! let mut client = AuthClient::new(alloc);
//! client.open();                                        // SERVICE_ACCEPT was taken
//! let ask = UserAsk::Password { user: b"u", password: b"p" };
//! let request = client.ask(&session_id, &signer, &ask)?;
//! encode(&request.message(), &mut out)?;
//! ```
//!
//! # What it promises
//!
//! - For a clause an `AuthServer` is its tries, its methods and a `Server` of the model (`Serving.Server`). An `AuthClient` is a `Client`
//!   of the model, and a `UserRequest` the message that it is. A `UserJudge` is known by its ghost member `verdicts`, a `Judge` of the
//!   model, and a `UserSigner` by `signature_of`. Of a signature at most 4,096 bytes count.
//! - `may_take` is `server_takes` and `client_takes` of the kept state. The caller asks it before it decodes, and decodes under
//!   `probing`.
//! - `AuthServer::take` requires a message that fits (`Fits`), which `decode` promises. `Ok`: nothing is refused, the tries and methods
//!   stay, and the row of the message holds (`ServerAnswers`): one of `ServerTakes`, or `Unimplemented` for an unknown message. `Refused`:
//!   the first refusal that holds, by the number and then by `server_checks`. `Memory`: the signature of a request was due to be looked at,
//!   and the text that it covers is longer than the server has room for (`NeedsText`). After `Err` the server is as it was.
//! - `laws::signed_texts_fit`: a request that comes in one packet has no such text. Edit: `room_for_a_short_text_alone`.
//! - An answer holds no text of an event: the text is in the message. The event of a message is `fact_by`, or `accepted_by` for the user of
//!   a request that is let in, and its credential (`specs/Facts.antt`). A client's answer to USERAUTH_SUCCESS has the kind of the request
//!   that was outstanding. Edits: `success_is_always_told_as_signed`, `password_is_kept_as_nothing`.
//! - A `UserJudge` is asked about no key over 16,384 bytes and none under a name over 64: its calls require that. Edit:
//!   `judge_is_asked_about_any_key`.
//! - `AuthServer::message` makes the message of an answer: it fits, and has at most 34,000 bytes. It requires that the key of a `KeyOk` is
//!   no longer than a known one (`IsShortAnswer`), which `take` promises of its answers.
//! - `AuthClient::take` answers the row of the message (`ClientAnswers`), by the answer to a message of that kind (`is_answer_to`). If the
//!   number may not be taken, and only then, it refuses the message as `Unexpected`, and the client is then as it was. `ask` makes the
//!   request (`ClientAsks`). `Refused` is the first of `client_checks` that holds. `Memory` comes only for a signed request that nothing
//!   refuses. After `Err` the client is as it was.
//! - `UserRequest::message` fits, and has at most 34,000 bytes.
//! - Laws (`laws`): `server_turns` and `client_turns` say what these clauses mean for a history that the state sums up. The session of that
//!   history has this judge, these settings and this session id (`IsServerOf`). The laws give the numbers, the refusals and the answers,
//!   and that the new state sums up the history with the message and its answer (`ServerTurns`, `ClientTurns`). `client_ask_turns` does so
//!   of an ask. The model's `userauth::server_beginnings` and `client_beginnings` say what a new or opened state sums up, and that items of
//!   other layers keep it.
//! - `put_signed_text` appends `signed_text` of the model. If that does not fit the capacity and memory is refused, it leaves the bytes as
//!   they were.
//! - Memory is asked for by `AuthServer::new`, by a `take` that looks at a signature, by an `ask` for a signed request and by
//!   `put_signed_text`, and by no other call.
#![tactic(auto)]

mod answer;
mod ask;
mod client;
mod configured;
mod judging;
pub mod laws;
mod number;
mod parts;
mod progress;
mod request;
mod server;
mod signature;
mod signed_text;

pub use answer::{ClientAnswer, ServerAnswer};
pub use ask::UserAsk;
pub use client::AuthClient;
pub use parts::{UserJudge, UserSigner};
pub use request::UserRequest;
pub use server::AuthServer;
pub use signed_text::{SignedText, put_signed_text};
