//! The messages of SSH: transport (RFC 4253), authentication (RFC 4252), channels (RFC 4254) and the key exchange on
//! elliptic curves (RFC 5656 section 4).
//!
//! A payload is the number of a message as one byte, and then its fields. `decode` answers the message that a payload
//! is: its texts are slices of the payload, and no memory is taken. `encode` puts the payload of a message at the end
//! of a `Vec<u8>`. Which payload is which message is defined in `ssh_model`, with one row for each number.
//!
//! `decode` refuses a payload exactly if it is no message. A payload is one message at most (`one_message`), and
//! a written message is read as the same message (`written_is_read`, and `decode`'s clause `again`). The number 60 is
//! the answer to a key probe only if the caller says that one is outstanding. Other methods of authentication give that
//! number to other messages.
//!
//! Every other number is `Message::Unknown`, and the bytes after it are not kept: an `Unknown` is written as only its
//! number. A truth value is read from any byte, with 0 as false, and written as 0 or 1.
//!
//! Bytes for a channel, written, read and shown:
//!
//! ```rust
//! let mut payload = Vec::new(alloc);
//! encode(&Message::ChannelData { recipient: 0, body: b"hi" }, &mut payload)?;
//! // 5e | 00 00 00 00 | 00 00 00 02 68 69
//!
//! match decode(false, &payload)? {
//!     Message::ChannelData { recipient, body } => println!(rt; "{recipient}: {} bytes", body.len())?,
//!     other => println!(rt; "{}", name(other.number()))?,
//! }
//! println!(rt; "{}", Line::new(false, &payload)?)?;   // 94 CHANNEL_DATA recipient=0 data=6869
//! ```
//!
//! # What it promises
//!
//! - `decode` answers a message exactly if the whole payload is one in its context (`IsPayload`), and it answers that one. It answers
//!   `BadMessage` exactly if the payload is none. The number of the answered message is the payload's (`number`). `decode` takes no
//!   memory: texts are slices of the payload. A decoded message can be written.
//! - `encode` appends the payload of a message as it is written (`IsWrittenPayload`), which has `payload_size` of the message bytes. For
//!   an unknown message it appends only the number. Or it leaves the bytes as they were, and then they and the payload together are more
//!   than the vector's capacity. The message's texts have to be shorter than 2^32 bytes, an `Unknown` number has to be unknown, and an
//!   `Other` method none of the three that are known.
//! - `Extensions` are pairs of a name and a value, as a payload has them; `ExtensionsBuf` owns some. The bounds of 1,024 bytes for a
//!   value and of 16 extensions bind those of a config.
//! - `{:?}` shows the number and the name of a message, and the kind of a method, and no text of either (`shown_message` and `shown_method`
//!   of `specs/Shown.antt`). Edits: `debugged_password_is_shown`, `debugged_message_shows_its_texts`.
//! - Laws: a payload is one message at most (`one_message`). The bytes written for a message are a payload of it if the context fits
//!   (`written_is_read`), so decoding an encoded message gives it back if the context fits.
#![tactic(auto)]

mod decoding;
mod encoding;
mod extensions;
mod laws;
mod line;
mod message;
mod naming;
mod read;
mod write;

pub use decoding::decode;
pub use encoding::encode;
pub use extensions::{Extension, Extensions, ExtensionsBuf, ExtensionsIter};
pub use laws::{one_message, written_is_read};
pub use line::Line;
pub use message::{BadMessage, Message, Method, Proposal};
pub use naming::name;
