//! The parts of a transport of either role (RFC 4253): the supplied parts of one end, the KEXINIT that it sends (section 7.1), and the
//! machine that both roles share. A client or a server takes these names from `ssh_transport`.
//!
//! The supplied parts of an end are named by one type of the user's own, a `ClientParts` or a `ServerParts`; their
//! values are a `ClientPartValues` or a `ServerPartValues`.
//!
//! The offer of an end in a KEXINIT follows from its settings (`offer_of`): its lists in both directions, no compression, no
//! languages and no guess. The first KEXINIT has the markers last in its kex list: that of extensions if the end takes some, and that of
//! strict key exchange if the end offers it.
//!
//! A `Machine` takes and classifies lines and packets, refuses the peer, sends messages and makes keys. `ssh_transport` has what is done
//! with a packet or an ask. A machine says which end it is. The parts that only one side has belong to the role, and are handed to the
//! machine. `judge_reply` judges the reply of a server for a client. It decodes the payload, tests the point, and then has a `HostTrust`
//! judge the host key and the signature (RFC 5656 section 4).
//!
//! # What it promises
//!
//! - `ClientParts` and `ServerParts` name the types of the supplied parts. Each type has its trait and, except the sealing, `Drop`. They
//!   have no calls. `ClientPartValues` and `ServerPartValues` hold the values, and are `Drop`.
//! - `put_kexinit` appends the payload of `offer_of` of the config's settings (`IsWrittenPayload`), at most 34,000 bytes. If an allocation
//!   fails, it leaves the bytes as they were.
//! - For a clause, a `Machine` is a `State`: the reader of lines, the receiver of packets, and a `Transport`, which is the state of a
//!   transport. `IsLive` of `ssh_transport` holds of each machine that is not over, whichever role it plays.
//! - `Machine::new` puts out the version line and the first KEXINIT (`IsOpened`). If it fails, it puts out nothing.
//! - `take_line` takes bytes to the end of one line, and finds the outcome of `LineUnit` (`LineTaken`). `take_packet` takes bytes to the
//!   end of one packet (`Receives`), and says what they are to the end (`PacketIs`): no whole packet yet, a refused packet, or a payload
//!   of some kind (`PayloadIs`). The payload is classified by the `Transport` before its packet was taken (`before_taken`).
//!   KEX_ECDH_INIT and KEX_ECDH_REPLY are classified only by their numbers, and decoded by the role that has the parts for them.
//! - The answer is `Spent` if no number is left for the message: nothing is put out, and the end is over. This is tested before any memory
//!   is asked for.
//! - After a refusal, a DISCONNECT or the answer `Spent` the end is over (`Refuses`, `DisconnectSent`, `SpentBy`). The rest of its state
//!   is as it was, except for the number of the DISCONNECT that it sent: the session id, the numbers, the epochs, whether the user is
//!   authenticated, and the payload that is shown.
//! - `send_if_numbered` sends a message if a number is left for it (`Answers`); `refuse` refuses the peer. `accept_service` grants the
//!   service, and `reply_unknown` answers a number that is not known.
//! - These calls say that memory was refused only if something would be sent, with a number left for it (`HasRoom`, `RefusalNeedsMemory`).
//!   Then nothing is put out, and the end is over.
//! - `Puts`, `Sends` or `Refuses` says which bytes are put out and which payloads are listed.
//! - **Padding.** A machine has no filler. A call that may send is lent one, together with the list of payloads (`Outgoing`), and says
//!   where the padding comes from (`padded`, by `PadsTo` of `specs/Padding.antt`). Packets are put out one after another, each with the
//!   padding that the filler gave in one call. No other byte is put out, and the filler is asked for nothing else. `PadsTo` follows the
//!   direction: each packet is under the key and the number that the direction then has, and holds the payload that is listed for it.
//!   `Machine::new` says so of all bytes after its version line. If memory is refused, nothing is said of the filler: the end is over then.
//! - `choice` chooses anew by both KEXINITs (`IsChosen`). `exchange_end` makes both keys and the session id of an exchange (`AreKeys`),
//!   encodes the EXT_INFO if it is due (`IsAnnouncement`), and copies the choice into a box, or lacks memory.
//! - `judge_reply` returns those if the reply is trusted, and `None` if no number is left for NEWKEYS. Otherwise it returns why the reply
//!   is refused, or that memory was refused for a reply that would be trusted (`IsReplyJudged`).
//! - `reply_hash` is the hash over which `judge_reply` has the host judged, for a payload that is only looked at (`HashesReply`). It is
//!   `None` where the payload is no reply of a good point, or is too long for a packet (`HashesNone`). Edits:
//!   `reply_hash_of_another_point`, `reply_hash_of_no_host_key`, `no_reply_is_hashed`, `hash_of_a_bad_point`.
//! - `finish` and `finish_after` send NEWKEYS, after it EXT_INFO if it is due (`Finishes`), and drop the secret (`forgotten`): all of
//!   this, or nothing.
#![tactic(auto)]

pub mod bytes;
mod host;
mod kexinit;
mod key_making;
mod machine;
mod parts;
mod peeked_reply;

pub use host::judge_reply;
pub use kexinit::put_kexinit;
pub use machine::{
    Classified, ExchangeEnd, ExchangeKeys, ExchangeValues, KexinitFacts, LineTurn, Machine,
    Material, SendOutcome, USERAUTH, laws,
};
pub use parts::{ClientPartValues, ClientParts, Outgoing, ServerPartValues, ServerParts};
pub use peeked_reply::reply_hash;
