use crate::Reply;
use ssh_message::Message;
use std::fmt;

/// What a user is told about channels and global requests (RFC 4254 sections 4 and 5). A channel is named by this end's own number. Texts
/// are slices of the message or the ask; `{:?}` shows their lengths alone.
#[derive(Clone, Copy, PartialEq, Eq)]
pub enum ChannelEvent<'a> {
    /// The peer makes a global request (RFC 4254 section 4).
    Global {
        /// The name of the request.
        name: &'a [u8],
        /// Whether the request waits for a reply.
        want: bool,
        /// The request's own bytes after these fields.
        rest: &'a [u8],
    },
    /// The peer replied to the oldest global request of this end that waits (section 4).
    GlobalDone {
        /// Whether the request succeeded.
        success: bool,
        /// The bytes of the reply.
        rest: &'a [u8],
    },
    /// This end's OPEN goes out (section 5.1).
    Opening {
        /// The number that the channel has at this end.
        channel: u32,
    },
    /// The peer opens a channel, which waits to be confirmed or refused (section 5.1).
    Opened {
        /// The number that the channel has at this end.
        channel: u32,
        /// The kind of the channel, such as `session`.
        kind: &'a [u8],
        /// How many bytes of data this end may send at first.
        window: u32,
        /// The most bytes of data that the peer takes in one message.
        max_packet: u32,
        /// The kind's own bytes after these fields.
        rest: &'a [u8],
    },
    /// The peer confirms the channel (section 5.1).
    Confirmed {
        /// The channel.
        channel: u32,
        /// How many bytes of data this end may send at first.
        window: u32,
        /// The most bytes of data that the peer takes in one message.
        max_packet: u32,
        /// The kind's own bytes after these fields.
        rest: &'a [u8],
    },
    /// The peer refuses the channel (section 5.1).
    OpenFailed {
        /// The channel, whose number is free again.
        channel: u32,
        /// The code of the reason (RFC 4250 section 4.3).
        reason: u32,
        /// The reason, for people.
        description: &'a [u8],
    },
    /// Data came, or extended data if a kind is given (section 5.2).
    GotData {
        /// The channel.
        channel: u32,
        /// The type of extended data, such as 1 for standard error.
        kind: Option<u32>,
        /// The data.
        body: &'a [u8],
    },
    /// The window left for this end's data grew (section 5.2).
    Adjusted {
        /// The channel.
        channel: u32,
        /// By how many bytes.
        bytes: u32,
    },
    /// The peer sends no more data (section 5.3).
    Ended {
        /// The channel.
        channel: u32,
    },
    /// The peer closes the channel (section 5.3).
    Closed {
        /// The channel.
        channel: u32,
    },
    /// The peer makes a request on the channel (section 5.4).
    Requested {
        /// The channel.
        channel: u32,
        /// The name of the request, such as `exec`.
        name: &'a [u8],
        /// Whether the request waits for a reply.
        want: bool,
        /// The request's own bytes after these fields.
        rest: &'a [u8],
    },
    /// The peer replied to the oldest request of this end that waits on the channel (section 5.4).
    RequestDone {
        /// The channel.
        channel: u32,
        /// Whether the request succeeded.
        success: bool,
    },
}

impl fmt::Debug for ChannelEvent<'_> {
    ghost use Rattle.std.specs.Prelude.{Some};
    ghost use Rattle.ssh_channels.specs.Shown.{shown_event};

    ghost debug_output = { λ event. Some (shown_event event) };

    fn fmt<W: fmt::Write>(&self, f: &mut fmt::Formatter<W>) -> fmt::Result {
        match *self {
            ChannelEvent::Global { want, rest, .. } => {
                write!(f, "Global {{ want: {want}, {} bytes }}", rest.len())
            }
            ChannelEvent::GlobalDone { success, rest } => {
                write!(
                    f,
                    "GlobalDone {{ success: {success}, {} bytes }}",
                    rest.len()
                )
            }
            ChannelEvent::Opening { channel } => write!(f, "Opening {{ channel: {channel} }}"),
            ChannelEvent::Opened { channel, .. } => write!(f, "Opened {{ channel: {channel} }}"),
            ChannelEvent::Confirmed { channel, .. } => {
                write!(f, "Confirmed {{ channel: {channel} }}")
            }
            ChannelEvent::OpenFailed {
                channel,
                reason,
                ..
            } => write!(f, "OpenFailed {{ channel: {channel}, reason: {reason} }}"),
            ChannelEvent::GotData {
                channel,
                kind,
                body,
            } => {
                let length = body.len();
                write!(
                    f,
                    "GotData {{ channel: {channel}, kind: {kind:?}, {length} bytes }}"
                )
            }
            ChannelEvent::Adjusted { channel, bytes } => {
                write!(f, "Adjusted {{ channel: {channel}, bytes: {bytes} }}")
            }
            ChannelEvent::Ended { channel } => write!(f, "Ended {{ channel: {channel} }}"),
            ChannelEvent::Closed { channel } => write!(f, "Closed {{ channel: {channel} }}"),
            ChannelEvent::Requested { channel, want, .. } => {
                write!(f, "Requested {{ channel: {channel}, want: {want} }}")
            }
            ChannelEvent::RequestDone { channel, success } => {
                write!(
                    f,
                    "RequestDone {{ channel: {channel}, success: {success} }}"
                )
            }
        }
    }
}

/// The answer to a message that was taken. The event for the user is `ChannelEvent::of_message` of the message and this channel.
#[derive(Clone, Copy, Debug, PartialEq, Eq)]
pub struct Taken {
    /// This end's own number of the channel, where the message belongs to one.
    pub channel: Option<u32>,
    /// The reply that is sent at once.
    pub reply: Option<Reply>,
}

/// What is sent on an ask. If it opens a channel, the user is told so (`Ask::opening` of the ask and this channel).
#[derive(Clone, Copy)]
pub struct MessageToSend<'a> {
    /// This end's own number of the channel, where the message belongs to one.
    pub channel: Option<u32>,
    /// The message, whose texts are those of the ask.
    pub message: Message<'a>,
}
