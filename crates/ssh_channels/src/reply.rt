ghost use Rattle.std.specs.Prelude.{◌≡◌, ◌≤◌};
ghost use Rattle.ssh_message.specs.Meaning.{meaning};
ghost use Rattle.ssh_message.specs.Written.{Fits};
ghost use Rattle.ssh_model.specs.Protocol.Bounds.{longest_payload};
ghost use Rattle.ssh_model.specs.Laws.Sizes.{payload_size};
ghost use Rattle.ssh_model.specs.State.Channels.Summary.{reply_channel, reply_sent};
ghost use Rattle.ssh_channels.specs.Values.{reply_of};

use ssh_message::Message;

// The reason of an OPEN_FAILURE when no number is free, SSH_OPEN_RESOURCE_SHORTAGE (RFC 4254 section 5.1).
const RESOURCE_SHORTAGE: u32 = 4;

/// A reply that a message makes due.
#[derive(Clone, Copy, Debug, PartialEq, Eq)]
pub enum Reply {
    /// OPEN_FAILURE, because no number is free, to the peer's number of the channel.
    OpenFailure { recipient: u32 },
    /// CLOSE on a channel, to the peer's number of it.
    Close { channel: u32, recipient: u32 },
}

impl Reply {
    /// This end's own number of the channel, if there is one.
    pub fn channel(self) -> Option<u32>
        ensures { result ≡ reply_channel (reply_of self) }
    {
        match self {
            Reply::OpenFailure { .. } => None,
            Reply::Close { channel, .. } => Some(channel),
        }
    }

    /// The message of the reply.
    pub fn message(self) -> Message<'static>
        ensures means { meaning result ≡ reply_sent (reply_of self) }
        ensures fits { Fits result }
        ensures short { payload_size (meaning result) ≤ longest_payload }
    {
        match self {
            Reply::OpenFailure { recipient } => Message::ChannelOpenFailure {
                recipient,
                reason: RESOURCE_SHORTAGE,
                description: b"",
                language: b"",
            },
            Reply::Close { recipient, .. } => Message::ChannelClose { recipient },
        }
    }
}
