//! The ends of SSH-2, `ServerEnd` and `ClientEnd`, under the names that users need. Each is a transport (RFC 4253) with authentication (RFC
//! 4252) and channels (RFC 4254) on it (`layers`). The contracts of one end are in `ssh_end_machine`. Each call keeps the end at a place of
//! a run in which it is guarded against any peer, and `turn_laws::any_pieces` says that the bytes may come in any pieces.
//!
//! ```rust
//! let mut server = ServerEnd::<Parts, Judge>::new(alloc, config, parts, judge, cookie, secret, &mut out)?;
//! // bytes came
//! let turn = server.take(&bytes, &mut out)?;
//! if let Some(told) = turn.told {
//!     tell(told);
//! }
//! // the bytes after the first `turn.used` are given again
//! // the user wants something
//! server.ask(&Ask::Rekey, &mut out)?;
//! // what stands in `out` goes to the client
//! ```
//!
//! A `Pair` has both ends and plays them against each other. The network between them does whatever the events say: it may lose, repeat,
//! move and inject bytes.
//!
//! ```rust
//! let (mut pair, opening) = Pair::<Sealing, Client, Signer, Server, Judge>::new(alloc, client, server)?;
//! // what the client put out so far reaches the server
//! let played = pair.play(&[Event::Deliver(Side::Server, opening.client_bytes.as_slice())])?;
//! for done in played.items.iter() {
//!     show(done);
//! }
//! ```
//!
//! # What it promises
//!
//! It has the names of `ssh_end_machine`, and two ends against each other.
//!
//! - For a clause, a `Pair` is the values of both its ends, and whether the pair failed (`PairState`). By the ghost members of their roles
//!   (`both`) it stands at a place of a run (`PairStands p w`). A run of two ends led to `w`. Each end stands after its part of that run
//!   (`EndStands`, which is `StandsAfter`, so each is guarded there). At each end the bytes of an unfinished line or packet are those that
//!   `w` leaves.
//! - `new`: `PairOpens`, for all parties of these settings and parts (`PairMade`). The pair stands where both ends have opened, each with
//!   the pair of cookie and secret that was handed in for it. The transcript records the openings, and the bytes are those that each end
//!   put out. The run is as two ends promise (`Promises`): if it is honest and both offer strict key exchange, it is `IsSafe`. If each end
//!   took just what the other sent, it is `IsSettled`. If each payload that an end opened was the next that the other sent (`IsFaithful`),
//!   none was refused but for a reason that lies in the two ends (`KillsNobody`). The parts and users of the two ends are those handed in (`IsClientOf`, `IsServerOf`).
//! - `play`: `Played`, for all parties and every place at which the pair stands (`PairPlays`). A play of the model on these events
//!   (`Plays`) leads to where the pair then stands. The items recorded are those of the run since that place, in order (`Records`). The
//!   bytes are those that each end put out for them (`PutsOut`). The run is as two ends promise. An end to which memory is refused has died
//!   in that run. After `Err` the pair has failed, and goes on failing.
//! - `new` and `play` have `padded`. All that an end puts out after its version line are packets, each with the padding that its filler
//!   gave in one call (`PairPadsFirst`, `PairPads`). Until an end is over, its filler stands after the last packet. An end to which memory
//!   is refused is over, and puts out nothing more (`PadsOn`). `feed` leaves both fillers (`fillers`). The payloads in these packets are
//!   those that the transcript records as sent by this end, in order (`recorded_sent` of `specs/TwoEnds/Recorded.antt`). So `padded` and
//!   `PutsOut` speak of packets with the same payloads.
//! - `feed`: the same for a pair of cookie and secret (`PairFeeds`, `PairFed`). It answers `true` exactly if the end could be fed
//!   (`can_feed` of its history), and then the run has one more `Fed`, of this cookie and secret. A failed pair answers `false`. If the
//!   answer is `false`, nothing changes.
//! - `IsItem` says which item of a session an item shows, with the text of each line, and the payload and the channel of each message.
//!   Each end says of its turn on which channels messages were sent, by `SendsOn` and by `AreAskChannels`; its first KEXINIT belongs to
//!   none.
//! - `ask_end` and `deliver_to_end` do the same for one end of either role (`Answers`, `Advances`). Their contracts follow from the clauses
//!   `placed` of `ssh_end_machine`. They go from each place of a run to the next, with the items that were recorded (`Adds`) and the bytes
//!   that were put out (`PutsMore`).
#![tactic(auto)]

mod event;
mod item;
mod one_end;
mod pair;
mod recording;
mod values;

pub use event::Event;
pub use item::{Done, Item, Transcript};
pub use pair::Pair;
pub use ssh_end_machine::{
    Ask, AskKind, AskStep, ClientEnd, ClientRole, Credential, End, EndRole, Fault, Nobody, Party,
    SentPayloads, ServerEnd, ServerRole, SuppliedEnd, Told, ToldKind, Took, Turn, end_laws,
    judge_laws, layers, opening_laws, parts_laws, peeking_laws, turn_laws,
};
pub use values::EndValues;
