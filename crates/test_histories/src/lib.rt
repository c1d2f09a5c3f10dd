//! A second reading of the standards, compared with the definitions of `ssh_model`. Nothing here runs: the functions have empty bodies.
//!
//! The definitions and the code come of one reading of the standards. `tools/second_reading` is another one, a program in Python. The
//! definitions are functions of a history. The program has no history, but a state that each item changes. It draws sessions of one end,
//! turn after turn, and says after each turn what these functions are. A clause states one function over all turns of a session, and the
//! prover computes it from the definitions. So a clause is false where the two readings differ.
//!
//! # What it says
//!
//! - `sessions_1` to `sessions_7` have 21 drawn sessions, of 11 clients and 10 servers, strict and plain. They have wrong guesses, asks that
//!   are refused, further exchanges, channels, peers that are refused, and deaths. `sessions_8` has two that are not drawn: they reach the
//!   number of requests that may wait, and the peer speaks after their CLOSE. In all there are 1,091 histories.
//! - Of each history: the phase, whether the end is blocked, may be fed or is dead, its secret and next cookie, epochs and sequence numbers,
//!   the algorithms of the keys in use, which of twelve numbers it may take, the service, the login, the failures and the outstanding
//!   request, extensions, what it refuses of some messages and asks, three channels with windows and waiting requests, the replies that
//!   are due and owed, and the global requests. Of two moments of each session: which of all numbers it may take. Of its end: the offers,
//!   the texts that are hashed, the algorithms, the session id and the names of the keys.
//! - `answers`: in each of the 21 sessions the end takes messages that the definitions do not refuse, and refuses the asks that they refuse. To each
//!   message that it takes and each ask that it does not refuse it adds what a row of the definitions has it send, tell and do.
//! - `rows` has values besides histories: choices of algorithms and guesses, verdicts on requests, numbers and names of messages, reason
//!   codes, sizes of packets, small mpints, the text that a client signs, and the blocks of which keys are made.
//! - Each refusal of a message that opened is among the values, but for BadMessage and NumberSpent. So is each of an ask but for TableFull.
//!
//! # What it does not say
//!
//! - Relations besides the rows of answers are not compared: encodings, lines, packets, and the claims. Most payloads are left empty, so the
//!   sessions are no runs of the definitions. How a peer is told of a refusal is not compared either.
//! - A hash stays a hash: the hashed texts are compared, with the shared number in place of the bytes of its mpint. A full table of
//!   channels, 256 owed replies and sequence numbers near 2^32 do not occur.
//! - The second reading takes the choices of docs/STRICTER.md, and knows the parts of the ends in `specs/Words`.
//!
//! # Where the readings differ
//!
//! They agree on all of these values. Read by hand, they differ in three points:
//!
//! - RFC 4253 section 11.4 has each unknown number answered by UNIMPLEMENTED. In the first exchange of a plain session `may_take` refuses
//!   it. The program follows the definitions there, and docs/STRICTER.md has a row for it.
//! - RFC 4253 section 6 has no packet below 16 bytes. For blocks of 8 bytes after a length in clear `is_size` allows 12. No cipher here has
//!   such blocks, and no clause is about them.
//! - RFC 4253 section 7 calls a guess wrong also if some other kind has no common name. `is_wrong_guess` does not, and `kexinit_checks` refuses
//!   such a KEXINIT before its guess matters. The program follows the definition there too.
//!
//! # What it notices
//!
//! Each of these changes of a definition made clauses false. One or two sessions were tried with each; the clauses are theirs.
//!
//! | Change | Clauses |
//! |---|---|
//! | the packet after a wrong guess is read (`phase`) | `phases`, `may_take`, `refused` of `server04` |
//! | the number is not reset at NEWKEYS (`wire_number`) | `numbers_sent`, `numbers_taken` of `server04` |
//! | the number is reset without strict key exchange too (`wire_number`) | `numbers_sent`, `numbers_taken` of `client01` |
//! | the skipped packet has no number (`took`) | `counts_taken`, `later_taken`, `numbers_taken` of `server04` |
//! | an epoch begins at the KEXINIT sent (`sent`) | `epochs_sent`, `keys_sent`, `texts` and eleven more of `server04` |
//! | the names are chosen by the server's order (`common`) | `chosen` of `rows`; `keys_sent`, `keys_taken`, `algorithms` of `server04` |
//! | a marker counts as a method (`methods`) | `wrong_guesses` of `rows` |
//! | the two points are hashed in the other order (`exchange_text`) | `texts`, `session`, `sending_key`, `taking_key` of `server04` |
//! | the session id is the hash of the last exchange (`session_id`) | `session`, `sending_key`, `taking_key` of `server04` |
//! | IGNORE may come in a strict first exchange (`is_allowed_at_first`) | `refused` of `server04`, `all_numbers_3` of `client05` |
//! | EXT_INFO may come in any place (`may_take_extensions`) | `may_take`, `extensions`, `all_numbers_18` of `client02` |
//! | the end is blocked until it takes NEWKEYS (`blocked`) | `blocked`, `asks_refused` of `server04` |
//! | FAILURE leaves the request outstanding (`outstanding`) | `outstanding` of `client05` |
//! | one more request may fail (`authentication_checks`) | `refused` of `server02` and `server03` |
//! | a window is granted twice (`window`) | `channel_0`, `channel_1` of `client07` |
//! | a window may grow beyond 2^32 - 1 (`is_window_too_large`) | `refused` of `server04` |
//! | data may come after EOF (`connection_checks`) | `refused` of `client01`, `client03`, `server01` and `server10` |
//! | extended data take no window (`size`) | `channel_0`, `channel_1`, `channel_2` of `server05` |
//! | a CLOSE that falls due while blocked is not owed (`owed`) | `owed`, `held`, `channel_0`, `channel_1` of `server09` |
//! | a number is free after one CLOSE (`over_at`) | `refused`, `channel_1`, `held` of `client02` |
//! | UNIMPLEMENTED has the number of the end's own next packet (`TransportAnswer`) | `answered` of `client01` and `server04` |
//! | a request after this end's CLOSE waits (`waits_here`) | `channel_0` of `clientlimits` |
#![tactic(auto)]

pub mod answers;
pub mod rows;
pub mod sessions_1;
pub mod sessions_2;
pub mod sessions_3;
pub mod sessions_4;
pub mod sessions_5;
pub mod sessions_6;
pub mod sessions_7;
pub mod sessions_8;
