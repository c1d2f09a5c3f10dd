//! Lines before the first packet (RFC 4253 section 4.2), packets of SSH (section 6) over bytes, and their sealing.
//!
//! A `LineReader` finds the other lines and the version line of a peer in a stream that comes in any pieces.
//!
//! `write_packet` puts the packet of a payload at the end of a `Vec<u8>`, and a `PacketReader` finds the packets of a
//! stream that comes in any pieces. Both are generic over a `Sealing`, which brings the cipher and the MAC. Without a
//! key, packets are in the clear. A packet that is written under a key and a number is read again under the same key and
//! number, whatever the sealing. That is a law of the trait. No two packets of one key should have one number.
//!
//! The packets of one direction of a session pass through its epochs. A `PacketSender` puts them out and a `PacketReceiver`
//! takes them, each with the key and the sequence number that its epoch then has.
//!
//! `MacOnly` is the sealing of encryption `none` with MAC `hmac-sha2-256`, and `HmacKey` its key.
//!
//! A version line, and the bytes after it:
//!
//! ```rust
//! let mut lines = LineReader::new(true);
//! let (used, step) = lines.take(b"SSH-2.0-x of y\r\n\0\0\0\x0c");
//! // 16, LineStep::Version { protoversion: "2.0", software: "x of y" }
//! ```
//!
//! The first packet under a key, sealed and read again:
//!
//! ```rust
//! struct Zeros;
//!
//! impl Filler for Zeros {
//!     ghost gives = { λ before bytes after. bytes ≡ replicate (length bytes) 0 };
//!
//!     fn fill(&mut self, out: &mut [u8]) {
//!         out.fill(0);
//!     }
//! }
//!
//! let key = HmacKey::new(&[1; 32]);
//! let mut out = Vec::new(alloc);
//! write_packet::<MacOnly, Zeros>(b"\x15", Some(&key), 0, &mut Zeros, &mut out)?;
//! // 00 00 00 0c | 0a | 15 | ten zeros | the 32 bytes of the tag
//!
//! let mut reader = PacketReader::new(alloc)?;
//! let (used, step) = reader.take::<MacOnly>(Some(&key), 0, &out);
//! // 48, PacketStep::Payload
//! let payload = reader.payload();    // 15
//! ```
//!
//! # What it promises
//!
//! - `tags_equal` is `is_text` of the model: the same bytes, and as many.
//! - `LineReader::take` uses bytes to the end of one line and no further. All bytes since the last line are an other line, the version
//!   line, or a refused line, as `LineUnit` says for the side of the peer and the count of other lines. Or they are `IsPartialLine`, and it
//!   has used all of them. The two texts of `Version` are those before and after the second minus (`HasVersion`). After `Version` and
//!   `Refused` it always answers the same and uses nothing. No call needs memory, and none asks anything of its caller. For a clause a
//!   reader is a `LineReading` (`specs/Lines.antt`). It says whose lines are read, the count of other lines, and the text of the one that
//!   the last call took. It also has the bytes of an unfinished line, and the result with which the reader ended. A `LineStep` borrows the
//!   reader. So the claim of `take` about the reader (`Takes`, `specs/LineSteps.antt`) is about its value after the step is dropped.
//! - `version_line` shows the text of the version line once it was taken, at most 253 bytes. `other_line` shows the text of the other
//!   line that the last call took, and nothing if that call took none.
//! - `write_packet` appends an `IsSealed` of the payload, with padding that the filler gave (`Pads`), or leaves the bytes as they were. If
//!   it leaves them, they and the packet together are more than the vector's capacity.
//! - `PacketReader::take` uses bytes to the end of one packet and no further. All bytes since the last packet are one of three things.
//!   They are an `IsWire` of the payload that it shows. Or they are `IsPartial`, and it has used all of them. Or they are `IsBadLength`,
//!   `IsBadTag` or `IsBadPadding`, and from then on it answers the same. The tag is judged under the key and the number of the call that
//!   brings the last byte. No call needs memory: `capacity` is always 35,000.
//! - `payload` has at most 35,000 bytes.
//! - While a packet is unfinished, the caller keeps the blocks and the tag length.
//! - The ghost member `crypto` of a `Sealing` has the functions that it computes, and the sealing proves `IsSealing` of them. Its calls
//!   `block` and `counts_length` answer the two facts of `crypto.blocks`: the block size, and whether packet_length counts in the blocks.
//!   `MacOnly` is `mac_only`, for which packet_length counts.
//! - Law: a packet that was sealed opens to the same payload (`every_sealed_is_a_wire`), for every `Sealing`.
//! - A direction of packets is for a clause a `Direction`: its key, the number of the next packet, the count of packets under the key,
//!   and the epoch. Law (`directions_sum_up`): it sums up the payloads that went through it, the newest first (`SumsUp`). The number is
//!   `wire_number` of them modulo 2^32, the count `count`, the epoch `epoch`. It does so with no payload, after each one (`counted`), and
//!   after a NEWKEYS once the next epoch has begun (`renewed`). Before the first NEWKEYS it does so for strict and plain key exchange
//!   alike.
//! - A `PacketSender<S>` is a `Direction`. `send` appends an `IsSealed` under its key and number and counts it, or changes nothing. If
//!   it changes nothing, bytes and packet together are more than the vector's capacity. A number has to be left. `send_newkeys` does two
//!   things in one call: it sends the packet of NEWKEYS under the old key, then begins the new epoch.
//! - A `PacketReceiver<S>` is a `Receiver`: a `Direction` with the bytes of an unfinished packet, the payload that is shown, and the
//!   refusal that ended it. `take` finds the outcome that `PacketUnit` gives to all bytes since the last packet, or `IsPartialPacket`,
//!   having used all bytes (`Receives`). `start_epoch` asks that the payload shown is NEWKEYS and was counted in this epoch, so it can be
//!   called once for each NEWKEYS.
//! - `PacketReceiver::peek` takes nothing. It answers whether the bytes that are held, followed by some of those that came, are the next packet
//!   and open (`NextOpens`); another reader, which becomes a copy of this one, then shows the payload. It answers `true` for no other bytes,
//!   and `false` for none of these. Law (`peeked_is_taken`): `take` makes the same of the bytes, whichever way they are cut afterwards. Edits:
//!   `packet_after_next_is_peeked`, `part_of_a_packet_is_peeked`, `payload_before_is_peeked` and two more.
//! - The numbers of an epoch are `numbers_of_epoch`. `number` of both types is that value if all of them are used.
#![tactic(auto)]

mod blocks;
mod hmac;
mod keys;
mod laws;
mod limits;
mod line_reader;
mod mac_only;
mod packets;
mod reader;
mod refusal;
mod sealing;
mod step;
mod tag;
mod version;
mod writer;

pub use hmac::HmacKey;
pub use laws::every_sealed_is_a_wire;
pub use limits::{LARGEST_PACKET, LENGTH_FIELD, LONGEST_PAYLOAD};
pub use line_reader::{LineReader, LineStep};
pub use mac_only::MacOnly;
pub use packets::{PacketReceiver, PacketSender, directions_sum_up, peeked_is_taken};
pub use reader::PacketReader;
pub use refusal::{LineRefusal, PacketRefusal};
pub use sealing::{Lengths, Sealing};
pub use step::PacketStep;
pub use tag::tags_equal;
pub use writer::{Filler, write_packet};
