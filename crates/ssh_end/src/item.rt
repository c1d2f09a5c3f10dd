//! What two ends did.

ghost use Rattle.std.specs.Prelude.{◌≡◌, []};

use crate::{AskKind, ToldKind};
use ssh_types::{AskRefusal, Refusal, Side};
use std::alloc::Global;
use std::fmt;

/// What an end did. A payload is a whole message (RFC 4253 section 6). A channel is given by the end's own number, if the message belongs
/// to a channel. `{:?}` shows of a payload and of a line how many bytes they have.
#[derive(PartialEq, Eq, Drop)]
pub enum Item {
    /// It was asked for this.
    Asked(AskKind),
    /// It refused the ask, and nothing changed.
    AskRefused(AskRefusal),
    /// It sent its version line (RFC 4253 section 4.2), here without CR LF.
    SentLine(Vec<u8>),
    /// It took a line: the version line, or one before it (RFC 4253 section 4.2). Here without its line end.
    TookLine(Vec<u8>),
    /// It sent a message.
    Sent {
        /// The end's own number of the channel, where the message belongs to one.
        channel: Option<u32>,
        /// The whole message.
        payload: Vec<u8>,
    },
    /// It took a message.
    Took {
        /// The end's own number of the channel, where the message belongs to one.
        channel: Option<u32>,
        /// The whole message.
        payload: Vec<u8>,
    },
    /// It took the packet after a wrong guess, and did not read it (RFC 4253 section 7).
    Skipped(Vec<u8>),
    /// It told its user this.
    Told(ToldKind),
    /// It refused its peer, or found its own numbers spent.
    Refused(Refusal),
    /// It is over.
    Died,
}

impl fmt::Debug for Item {
    fn fmt<W: fmt::Write>(&self, f: &mut fmt::Formatter<W>) -> fmt::Result {
        match self {
            Item::Asked(kind) => write!(f, "Asked({kind:?})"),
            Item::AskRefused(why) => write!(f, "AskRefused({why:?})"),
            Item::SentLine(line) => write!(f, "SentLine({} bytes)", line.len()),
            Item::TookLine(line) => write!(f, "TookLine({} bytes)", line.len()),
            Item::Sent { channel, payload } => {
                write!(
                    f,
                    "Sent {{ channel: {channel:?}, {} bytes }}",
                    payload.len()
                )
            }
            Item::Took { channel, payload } => {
                write!(
                    f,
                    "Took {{ channel: {channel:?}, {} bytes }}",
                    payload.len()
                )
            }
            Item::Skipped(payload) => write!(f, "Skipped({} bytes)", payload.len()),
            Item::Told(kind) => write!(f, "Told({kind:?})"),
            Item::Refused(why) => write!(f, "Refused({why:?})"),
            Item::Died => write!(f, "Died"),
        }
    }
}

/// What an end did, and which end it was.
#[derive(Debug, PartialEq, Eq, Drop)]
pub struct Done {
    /// Which end it was.
    pub side: Side,
    /// What it did.
    pub item: Item,
}

/// What events added to a run.
#[derive(Drop)]
pub struct Transcript {
    /// What was done, the oldest first.
    pub items: Vec<Done>,
    /// The bytes that the client put out.
    pub client_bytes: Vec<u8>,
    /// The bytes that the server put out.
    pub server_bytes: Vec<u8>,
}

impl Transcript {
    // Nothing was done.
    pub(crate) fn new(alloc: Global) -> Transcript
        ensures items { result.items.items ≡ [] }
        ensures client { result.client_bytes.items ≡ [] }
        ensures server { result.server_bytes.items ≡ [] }
    {
        Transcript {
            items: Vec::new(alloc),
            client_bytes: Vec::new(alloc),
            server_bytes: Vec::new(alloc),
        }
    }
}
