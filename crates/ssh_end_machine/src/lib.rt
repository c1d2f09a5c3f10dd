//! One end of SSH-2: its transport (RFC 4253) with authentication (RFC 4252) and channels (RFC 4254) on it (`layers`). `ServerEnd` and
//! `ClientEnd` are an `End` of either role. A client or a server takes these names from `ssh_end`.
//!
//! An end takes bytes by `take`, and does what its user asks for by `ask`. After each call it shows what it did (`Turn`). That is a turn of
//! a session (`turn_laws`), whoever its peer is. A server that gets another judge of its users stands where it stood (`judge_laws`).
//!
//! ```rust
//! let mut server = ServerEnd::<Parts, Judge>::new(alloc, config, parts, judge, cookie, secret, &mut out)?;
//! let turn = server.take(&bytes, &mut out)?;
//! // the bytes after the first `turn.used` are given again
//! ```
//!
//! # What it promises
//!
//! `ssh_end` exports these names.
//!
//! - There is one end, `End`, for both roles; `ServerEnd` and `ClientEnd` are its names. The trait `EndRole` has what one role has and the
//!   other does not. That is the type of its part in an exchange of keys (`Exchange`), a server's verdicts on users (`judging`), and the
//!   signatures of a client's user (`signing`). A `Party` is such a role, and `ServerRole` and `ClientRole` are its names for the two. A
//!   client judges nobody, and a server signs nothing (`Nobody`). All else is written and proved once. `SuppliedEnd` says who judges or
//!   signs for a role (`is_made_of`). `Supplied` of `ssh_transport` says which parts its transport is made of, and which filler pads its
//!   packets.
//! - An end holds a `Transport` of `ssh_transport`, and all that it does with its peer goes through the calls of that transport. For a
//!   clause it is an `EndValue`: the machine and the filler of its transport, its role, its layers, and what its last turn did and sent.
//!   The role is a `RoleValue`: what the transport does in an exchange of keys, and who judges or signs.
//! - `end_laws::end_stands` says what holds of each end. Until it is over, its transport stands (`Stands`), and authentication follows the
//!   transport (`FollowsOn`; `Follows` of `specs/Following.antt`). If the transport counts the user as authenticated, authentication does
//!   too. A client may ask for a user only if the service was granted. At any time a server's end keeps a server's authentication, and a
//!   client's end a client's (`side_of`). `FollowsOn` and `side_of` are the invariant of an end (`HasLogin`). Edit:
//!   `client_has_a_servers_login`.
//! - So each payload that an end sends meets the requirement of `send` of a transport, without a test (`CanSend`; `MayGo` of a message). If
//!   a payload is handed to the layers while the end is blocked, its user is authenticated (`LetsIn`). Then a server answers no request, a
//!   client makes none, and channels owe their replies.
//! - `{:?}` of what was taken and sent in a turn shows no text and no payload, but how many bytes or payloads there are, and the number and
//!   the name of a message (`shown_took` and `shown_sent` of `specs/Shown.antt`). Edit: `debugged_payload_is_shown`.
//! - `{}` shows a `Fault` in the words of `fault_text` of `specs/Faults.antt`, an `Ask` in those of its refusal. Edits:
//!   `dead_end_is_told_as_want_of_memory`, `refusal_of_an_ask_is_not_told`.
//! - `new` is `IsNew` of the side, and the KEXINIT of a new end belongs to no channel. If `new` fails, it puts out nothing.
//! - `take_step` uses bytes to the end of one line or one packet and no further, and answers how many. `Ok`: `TakesStep` says what it made
//!   of the bytes kept of an unfinished line or packet together with those that it used. That is what the transport made of them (`Took`)
//!   and, by the transport's answer, what the end does (`Handles` of `specs/Units.antt`). `Handles` is one of three. Either nothing more is
//!   done (SERVICE_ACCEPT opens authentication). Or the layers judged the payload, and then something may have been sent (`ToServices`). Or
//!   the replies owed after NEWKEYS were given (`AfterNewkeys`). `Memory`: the end was not over before, nothing was put out, and it is over
//!   now. The bytes kept together with some of those that came would have taken memory (`EndNeedsMemory`): the transport would send
//!   something, or a layer made a text or a channel, or would send something, or replies were owed after NEWKEYS (`HandlingNeedsMemory`).
//!   `Dead`: the end was over before, and is as it was (`IsFault`). A step `More` has used all bytes.
//! - `new`, `take`, `take_step`, `ask`, `ask_step` and `feed_material` have `placed`. It is a clause of its own, or a field of `advances`
//!   (`take_step`) and of `done` (`take`, `ask`). From each place of a run at which the end stands (`StandsAt` of `specs/Stands.antt`) a
//!   call takes it to the next place. The next place is `TakesTo`, `FailsTo`, `AsksTo` or `FeedsTo`, and of a new end `MadeOf`. At
//!   each place the history is guarded against any peer (`IsGuarded`). All this follows from one law for both roles, `turn_laws::ends_lift`
//!   (`EndLifts` of `specs/Places.antt`). For it a role has to show that its parts are those of an end of parties (`EndRole::has_parts`,
//!   `HasParts`), and its exchange of keys has to show `Lifts` of `ssh_transport`. The layers have the settings of the parties (`AreOf`).
//! - `new`, `take_step`, `take`, `ask_step` and `ask` have `padded`, as a clause or in the clause about their turn (`EndTook`, `EndAsked`).
//!   The padding of the bytes put out is what the filler gave (`PadsTo`). Each packet holds a payload that the turn shows as sent. For
//!   `new` this holds of all bytes after the version line, and the filler is the part that was handed in. It also holds for an ask that is
//!   refused: nothing is put out then, and the filler is as before. If memory is refused, nothing is said of the filler (`OnAnswered`).
//!   If the end was over before, its filler is as it was (`unchanged`).
//! - `ends_lift` says what a `take_step` is in a session (`turned`, by `TurnedTo`). It holds for all lawful parties that have this end's
//!   parts and layers, and for every history after which the end stands. For bytes of no whole line or packet, the end of a session waits
//!   too. Then nothing is put out, and the end keeps the bytes. Otherwise there are items that show what the step says (`Shows`), with the
//!   payload or the text of a line that the end then shows (`shown_by`). These items are a turn of a session by these bytes as one unit,
//!   with the bytes put out and the payloads listed (`UnitTurned`). The end sums up the history with them, and keeps no byte of the next
//!   line or packet. The bytes that it keeps are a prefix of a line or of a packet (`IsReading`); a new end keeps none (`new_ends_read`).
//!   The law `end::identified` of the model says that there is a session id outside an exchange. The methods that a server names fit into a
//!   packet (`failure` of `IsServers`), because of the way in which a `Config` is made (`every_config_is_good`).
//! - The same law is about bytes of one line or one packet that took memory (`UnitNeedsMemory`): they are a turn of a session that dies
//!   (`died`, by `DiedOn`).
//! - `last_turn` shows what was taken, sent, told and refused in the last `take_step`. `TurnShows` holds for all items that `Shows` has
//!   of the step and of what was taken (`shown_by`: the text of a line, or the payload of a packet). The turn also shows how many bytes
//!   were used, and the payloads that were sent (`payloads_in`). Each payload has the end's own number of its channel, or none
//!   (`channels_in`). The turn's texts are slices of the end's buffers.
//! - `version_line` is the peer's line that the end keeps, once it was taken (`line_taken`). The history has that line by `SumsUp`.
//! - The channel on which each payload of a `take_step` or `take` was sent is a function of the step and the replies that were owed before
//!   it (`channels_by`). If an exchange was completed, the last payloads have the channels of the owed replies. Otherwise the last payload
//!   has the channel of the step. All others have none. In every session these are the channels of the messages that were sent
//!   (`channels_sent`), one for each: `SendsOn` of `UnitTurned` says so. Of an ask the same is a clause of `ask_step` and `ask` themselves
//!   (`AreAskChannels`).
//! - `take` is `take_step` and `last_turn` in one call, and lends its turn. It says what `take_step` says, about the end once the turn is
//!   dropped (`EndTakes`). It also says that the turn shows that step, its payloads and their channels (`ShowsTurn`). Other clauses say how
//!   many bytes are used, when memory is taken, and that nothing is put out if memory is refused. The borrow checker refuses a program that
//!   keeps a turn over the next call (`tools/misuse.sh`).
//! - `ask_step` has the clause `asks` (`Asks` of `specs/Asking.antt`). It holds for all parties that have this end's parts (`AsksBy`) and
//!   every history that the end sums up. What `ask_step` does is a turn of a session (`DoneInSession`; `asked` of `EndLifts`). An ask is
//!   refused by the first refusal that a session has, and the end is then unchanged. The bytes of an unfinished line or packet and the
//!   payload that is shown stay (`SameReading`), and so does a server's authentication (`KeepsSettings`). A client's session has one
//!   premise more: authentication is not opened before there is a session id (`identified`). The law `end::identified` of the model says
//!   that no history of lawful parties breaks this.
//! - `ask` is the same with the turn that shows it (`EndAsked`). The turn shows the payload that was sent and its channel, the channel
//!   that is opening, and the refusal of this end's own numbers (`ShowsStep`).
//! - If an ask ends the end, by a DISCONNECT or because no number is left, it changes nothing else of the transport except the number of
//!   that DISCONNECT (`EndsAlone`). The session id, the numbers, the epochs and the payload that is shown stay. Edit:
//!   `an_end_over_by_an_ask_is_authenticated`.
//! - An ask for anything but a message of the connection leaves the channels as they were. One for such a message changes them as channels
//!   do, whether or not the message is then sent (`ChannelsAsked`). Edit: `an_owed_reply_is_gone_after_a_disconnect`.
//! - A `take` or an `ask` that fails shows nothing as sent, and no step. An end that was over before keeps its layers too (`EndFailed`,
//!   `KeepsLayers`). Edits: `dead_end_is_opened`, `a_failed_take_shows_the_turn_before`,
//!   `a_failed_ask_shows_the_turn_before`.
//! - `turn_laws::any_pieces`: how bytes are cut into pieces makes no difference. It holds at each place at which an end stands, and makes
//!   one delivery of the calls that take the pieces.
//! - `feed_material` changes nothing except the transport, and if it answers `false`, nothing at all. After it `last_turn` shows what it
//!   showed before. After a `take` it shows as many bytes used as the turn that was lent. After `new` and `ask_step`, and after a `take` or
//!   `take_step` that failed, it shows that no byte was used. After such a failure it shows that nothing was sent.
//!   Edit: `a_turn_hides_how_many_bytes_were_used`.
//! - `peek` takes nothing. It answers whether the bytes that are held, followed by some of those that came, are the next packet and open, and
//!   another reader then shows the payload (`Peeks`). `peeking_laws::peeked_is_answered`: at each place of a run that packet is the next one
//!   of the session (`foreseen`). A turn by bytes that begin so answers that payload (`answered`), takes no other (`taken`), and the session
//!   does not wait for more bytes (`whole`). Where no packet is told, a turn by these bytes takes no payload (`unforeseen`). Edits:
//!   `end_peeks_nothing`, `any_payload_may_be_taken`.
//! - `host_algorithm` is the algorithm of the host key in the exchange of keys under way, while the peer's next message of it is awaited
//!   (`AwaitsHost`). Edit: `no_host_algorithm_is_told`.
//! - `reply_hash` of a client is the hash of the exchange that a reply ends, for one that is awaited and only looked at (`AwaitsHashed`).
//!   It is `None` where the payload is no reply of a good point (`AwaitsNone`). By `peeking_laws::replies_are_hashed` that is the hash over
//!   which the host is judged in the session (`judged`), and the good points are those of the session (`points`). Edit:
//!   `reply_is_hashed_without_its_end`.
//! - `replace_user` and `replace_host_signer` of a server, `replace_host_trust` and `replace_user` of a client: each puts another part in the
//!   place of one, answers the old one, and changes nothing else. An end that is not over then stands where it stood, as that of the
//!   parties with the new part (`placed`, by `ServerEndAt` and `ClientEndAt`). Both parts have to agree on each question that the end put
//!   to them (`AgreeOnAnswered`). One law has all four (`parts_laws::parts_exchanged`). `user` and `host_trust` show the parts that there are. For the judge there is `judge_laws::users_exchanged`
//!   too, whose premise is on requests alone. Edits: `judge_is_not_replaced`, `both_judges_may_differ`, `users_signatures_may_differ`,
//!   `host_signer_is_given_back`, `signer_is_given_back`, `trust_is_given_back`.
//! - Below these calls: `EndRole::judge` is what the layers make of the payload that is shown (`JudgesPayload`), and encodes the reply that
//!   is sent at once. `send_reply` sends that reply, and `refuse` refuses the peer (`Finished`). `flush_owed_replies` gives the replies
//!   that are owed (`OwedFlushed`), by `give_owed` (`OwedGiven`, `ListsChannels`). `handle_turn` does the rest for an answer of the
//!   transport (`Handles`, `HandlingNeedsMemory`). `take_step` cuts back the bytes that were put out if memory is refused. `send_message`
//!   sends the message of an ask: it tests the number, encodes the message, and has the transport send it.
//! - The event of a message is `fact_by` of the message and its channel. For a message of authentication `ssh_auth` defines it (`fact_by`,
//!   `accepted_by`). For one of the connection `ssh_channels` defines it, and its `ChannelEvent::of_message` makes it. An event is made in
//!   one place, when its turn is shown (`told_in`). `facts_told`: the rows of a server's authentication have that event. The event of a login
//!   has the credential of its request, or at a client the kind of the request that was answered. Edits:
//!   `login_by_a_key_is_told_as_one_by_password`, `credential_is_the_name_of_the_key`, `every_login_is_told_as_signed`.
#![tactic(auto)]

mod ask_kind;
mod asking;
mod client_role;
mod end;
pub mod end_laws;
mod fact_laws;
mod handling;
pub mod judge_laws;
pub mod layers;
mod nobody;
mod opening;
pub mod opening_laws;
mod owed;
mod owed_replies;
pub mod parts_laws;
mod party;
pub mod peeking_laws;
mod replying;
mod role;
mod server_role;
mod step;
mod told;
mod told_kind;
mod turn;
pub mod turn_laws;

pub use ask_kind::AskKind;
pub use asking::{Ask, AskStep, Fault};
pub use client_role::{ClientEnd, ClientRole};
pub use end::End;
pub use nobody::Nobody;
pub use party::Party;
pub use role::{EndRole, SuppliedEnd};
pub use server_role::{ServerEnd, ServerRole};
pub use told::{Credential, Told};
pub use told_kind::ToldKind;
pub use turn::{SentPayloads, Took, Turn};
