//! What an end told its user, without texts.

ghost use Rattle.std.specs.Prelude.{◌≡◌};
ghost use Rattle.ssh_channels.specs.Values.{fact_of as channel_fact_of};
ghost use Rattle.ssh_end_machine.specs.Told.{told_of};
ghost use Rattle.ssh_end_machine.specs.Kinds.{shown_fact};

use crate::Told;
use ssh_types::RequestKind;

/// What an end told its user. The texts stand in the payload that it took before. Channels go by its own numbers, lengths are in bytes.
#[derive(Clone, Copy, Debug, PartialEq, Eq)]
pub enum ToldKind {
    /// The exchange of keys at this position, from 1, is completed (RFC 4253 section 7.3).
    Completed {
        position: u32,
    },
    /// The service is granted (RFC 4253 section 10).
    Service,
    /// A user was let in, at the server (RFC 4252 section 5.1).
    Accepted,
    /// The user was let in, at the client, by a request of this kind (RFC 4252 section 5.1).
    Authenticated {
        request: RequestKind,
    },
    /// The request failed (RFC 4252 section 5.1).
    Failed,
    /// A text to show (RFC 4252 section 5.4).
    Banner,
    /// A signature by this key would be looked at (RFC 4252 section 7).
    KeyOk,
    /// The message or the packet means nothing here.
    Ignored,
    /// The extensions of the peer (RFC 8308 section 2.3).
    Extensions,
    /// A text for whoever looks for faults (RFC 4253 section 11.3).
    Debugged,
    /// The peer did not understand the packet with this sequence number (RFC 4253 section 11.4).
    Unimplemented {
        number: u32,
    },
    /// The peer ended the connection (RFC 4253 section 11.1).
    Disconnected {
        reason: u32,
    },
    /// The peer makes a global request (RFC 4254 section 4).
    Global,
    /// The peer replied to one (RFC 4254 section 4).
    GlobalDone {
        success: bool,
    },
    /// A channel of its own is being opened (RFC 4254 section 5.1).
    Opening {
        channel: u32,
    },
    /// The peer opens a channel (RFC 4254 section 5.1).
    Opened {
        channel: u32,
    },
    /// The peer confirmed a channel (RFC 4254 section 5.1).
    Confirmed {
        channel: u32,
    },
    /// The peer refused a channel (RFC 4254 section 5.1).
    OpenFailed {
        channel: u32,
        reason: u32,
    },
    /// Data came, extended data where a kind is given (RFC 4254 section 5.2).
    GotData {
        channel: u32,
        kind: Option<u32>,
        length: usize,
    },
    /// The window for its data grew (RFC 4254 section 5.2).
    Adjusted {
        channel: u32,
        bytes: u32,
    },
    /// The peer sends no more data (RFC 4254 section 5.3).
    Ended {
        channel: u32,
    },
    /// The peer closes the channel (RFC 4254 section 5.3).
    Closed {
        channel: u32,
    },
    /// The peer makes a request on the channel (RFC 4254 section 5.4).
    Requested {
        channel: u32,
    },
    /// The peer replied to one (RFC 4254 section 5.4).
    RequestDone {
        channel: u32,
        success: bool,
    },
}

impl ToldKind {
    /// What is told, without its texts.
    pub fn of(told: &Told<'_>) -> ToldKind
        ensures { result ≡ shown_fact (told_of told.now) }
    {
        match *told {
            Told::Completed { position } => ToldKind::Completed { position },
            Told::Service => ToldKind::Service,
            Told::Accepted { .. } => ToldKind::Accepted,
            Told::Authenticated { request } => ToldKind::Authenticated { request },
            Told::Failed { .. } => ToldKind::Failed,
            Told::Banner { .. } => ToldKind::Banner,
            Told::KeyOk { .. } => ToldKind::KeyOk,
            Told::Ignored => ToldKind::Ignored,
            Told::Extensions(_) => ToldKind::Extensions,
            Told::Debugged { .. } => ToldKind::Debugged,
            Told::Unimplemented { number } => ToldKind::Unimplemented { number },
            Told::Disconnected { reason, .. } => ToldKind::Disconnected { reason },
            Told::Channel(fact) => of_channels(&fact),
        }
    }
}

// What is told of channels and global requests.
fn of_channels(fact: &ssh_channels::ChannelEvent<'_>) -> ToldKind
    ensures { result ≡ shown_fact (channel_fact_of fact.now) }
{
    match *fact {
        ssh_channels::ChannelEvent::Global { .. } => ToldKind::Global,
        ssh_channels::ChannelEvent::GlobalDone { success, .. } => ToldKind::GlobalDone { success },
        ssh_channels::ChannelEvent::Opening { channel } => ToldKind::Opening { channel },
        ssh_channels::ChannelEvent::Opened { channel, .. } => ToldKind::Opened { channel },
        ssh_channels::ChannelEvent::Confirmed { channel, .. } => ToldKind::Confirmed { channel },
        ssh_channels::ChannelEvent::OpenFailed {
            channel,
            reason,
            ..
        } => ToldKind::OpenFailed { channel, reason },
        ssh_channels::ChannelEvent::GotData {
            channel,
            kind,
            body,
        } => ToldKind::GotData {
            channel,
            kind,
            length: body.len(),
        },
        ssh_channels::ChannelEvent::Adjusted { channel, bytes } => ToldKind::Adjusted {
            channel,
            bytes,
        },
        ssh_channels::ChannelEvent::Ended { channel } => ToldKind::Ended { channel },
        ssh_channels::ChannelEvent::Closed { channel } => ToldKind::Closed { channel },
        ssh_channels::ChannelEvent::Requested { channel, .. } => ToldKind::Requested { channel },
        ssh_channels::ChannelEvent::RequestDone { channel, success } => ToldKind::RequestDone {
            channel,
            success,
        },
    }
}
