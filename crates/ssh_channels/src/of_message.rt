//! What a user is told.

ghost use Rattle.std.specs.Prelude.{◌≡◌, None, Some, false, option_map};
ghost use Rattle.ssh_message.specs.Meaning.{meaning};
ghost use Rattle.ssh_channels.specs.Facts.{fact_by, is_within, opening_by};
ghost use Rattle.ssh_channels.specs.Values.{ask_of, fact_of};

use crate::{Ask, ChannelEvent};
use ssh_message::Message;

impl<'a> ChannelEvent<'a> {
    /// What a user is told about a message that `Channels::take` took, which belongs to this channel or to none (`Taken::channel`). Nothing
    /// is told about an OPEN that is refused because no number is free, which belongs to no channel, or about a message of another layer.
    pub fn of_message(message: &Message<'a>, channel: Option<u32>) -> Option<ChannelEvent<'a>>
        ensures { option_map fact_of result ≡ fact_by (meaning message.now) channel }
    {
        match channel {
            Some(channel) => told_on(message, channel),
            None => told_globally(message),
        }
    }
}

impl Ask<'_> {
    /// The number of the channel that this ask opens, given the channel of its message, if any (`MessageToSend::channel`). The user is then
    /// told `ChannelEvent::Opening` of it. For any other ask nothing is told.
    pub fn opening(&self, channel: Option<u32>) -> Option<u32>
        ensures { result ≡ opening_by (ask_of self.now) channel }
    {
        match *self {
            Ask::Open { .. } => channel,
            _ => None,
        }
    }
}

// What is told of a message on a channel.
fn told_on<'a>(message: &Message<'a>, channel: u32) -> Option<ChannelEvent<'a>>
    ensures { option_map fact_of result ≡ fact_by (meaning message.now) (Some channel) }
{
    match *message {
        Message::ChannelData { body, .. } => Some(ChannelEvent::GotData {
            channel,
            kind: None,
            body,
        }),
        Message::ChannelExtendedData { kind, body, .. } => Some(ChannelEvent::GotData {
            channel,
            kind: Some(kind),
            body,
        }),
        Message::ChannelWindowAdjust { bytes, .. } => Some(ChannelEvent::Adjusted {
            channel,
            bytes,
        }),
        Message::ChannelEof { .. } => Some(ChannelEvent::Ended { channel }),
        Message::ChannelClose { .. } => Some(ChannelEvent::Closed { channel }),
        Message::ChannelRequest {
            name,
            want,
            rest,
            ..
        } => Some(ChannelEvent::Requested {
            channel,
            name,
            want,
            rest,
        }),
        Message::ChannelSuccess { .. } => Some(ChannelEvent::RequestDone {
            channel,
            success: true,
        }),
        Message::ChannelFailure { .. } => Some(ChannelEvent::RequestDone {
            channel,
            success: false,
        }),
        _ => told_of_opening(message, channel),
    }
}

// What is told of a message that opens the channel, or that answers the one that does.
fn told_of_opening<'a>(message: &Message<'a>, channel: u32) -> Option<ChannelEvent<'a>>
    requires { is_within (meaning message.now) ≡ false }
    ensures { option_map fact_of result ≡ fact_by (meaning message.now) (Some channel) }
{
    match *message {
        Message::ChannelOpen {
            kind,
            window,
            max: max_packet,
            rest,
            ..
        } => Some(ChannelEvent::Opened {
            channel,
            kind,
            window,
            max_packet,
            rest,
        }),
        Message::ChannelOpenConfirmation {
            window,
            max: max_packet,
            rest,
            ..
        } => Some(ChannelEvent::Confirmed {
            channel,
            window,
            max_packet,
            rest,
        }),
        Message::ChannelOpenFailure {
            reason,
            description,
            ..
        } => Some(ChannelEvent::OpenFailed {
            channel,
            reason,
            description,
        }),
        _ => told_globally(message),
    }
}

// What is told of a global request, or of the reply to one.
fn told_globally<'a>(message: &Message<'a>) -> Option<ChannelEvent<'a>>
    ensures { option_map fact_of result ≡ fact_by (meaning message.now) None }
{
    match *message {
        Message::GlobalRequest { name, want, rest } => Some(ChannelEvent::Global {
            name,
            want,
            rest,
        }),
        Message::RequestSuccess { rest } => Some(ChannelEvent::GlobalDone {
            success: true,
            rest,
        }),
        Message::RequestFailure => Some(ChannelEvent::GlobalDone {
            success: false,
            rest: b"",
        }),
        _ => None,
    }
}
