//! What an end did in a turn, without the texts.

ghost use Rattle.std.specs.Prelude.{◌≡◌};
ghost use Rattle.ssh_end_machine.specs.WithChannels.{channel_of};

use ssh_types::{Refusal, RequestKind};

/// What an end did with the bytes of one line or one packet.
#[derive(Clone, Copy)]
pub enum Step {
    // No whole line and no whole packet yet.
    More,
    // A line before the version line.
    OtherLine,
    VersionLine,
    // The packet after a wrong guess, which is not read.
    Skipped,
    // A message.
    Took(TakenMessage),
    // The peer was refused, or too few numbers were left for what has to be sent. The end is over.
    Refused(Refusal),
}

impl Step {
    /// The channel of what was taken, which is that of what was sent at once.
    pub fn channel(self) -> Option<u32>
        ensures { result ≡ channel_of self }
    {
        match self {
            Step::Took(took) => took.channel,
            _ => None,
        }
    }
}

/// How the message of a packet was taken.
#[derive(Clone, Copy)]
pub struct TakenMessage {
    // The end's own number of its channel, where it belongs to one.
    pub channel: Option<u32>,
    // A key probe was outstanding, by which 60 is USERAUTH_PK_OK.
    pub probing: bool,
    pub event_kind: EventKind,
}

/// What the user is told of a message.
#[derive(Clone, Copy)]
pub enum EventKind {
    // What the message says by itself, if anything.
    Message,
    // The user of the request was let in.
    Accepted,
    // This end's user was let in, by a request of this kind.
    Authenticated(RequestKind),
    // The request came after the user was let in.
    Ignored,
    // The exchange at this position, from 1, is completed.
    Completed(u32),
}
