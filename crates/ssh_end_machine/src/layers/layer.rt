//! Which layer a message is for.

ghost use Rattle.std.specs.Prelude.{◌≡◌, ◌≤◌};
ghost use Rattle.ssh_model.specs.Protocol.Sessions.Turns.{number_of};
ghost use Rattle.ssh_message.specs.Meaning.{meaning};
ghost use Rattle.ssh_end_machine.specs.Layer.{layer_of as layer_for};

use ssh_message::Message;

/// A layer above a transport.
#[derive(Clone, Copy)]
pub enum Layer {
    /// Authentication (RFC 4252), and at an end each message below 50.
    Authentication,
    /// Channels (RFC 4254).
    Channels,
    /// No layer: the message has a number that no standard gives.
    Unknown,
}

/// The layer that takes a message.
pub fn layer_of(message: &Message<'_>) -> Layer
    ensures { result ≡ layer_for (meaning message.now) }
{
    match *message {
        Message::GlobalRequest { .. }
        | Message::RequestSuccess { .. }
        | Message::RequestFailure
        | Message::ChannelOpen { .. }
        | Message::ChannelOpenConfirmation { .. }
        | Message::ChannelOpenFailure { .. }
        | Message::ChannelWindowAdjust { .. }
        | Message::ChannelData { .. }
        | Message::ChannelExtendedData { .. }
        | Message::ChannelEof { .. }
        | Message::ChannelClose { .. }
        | Message::ChannelRequest { .. }
        | Message::ChannelSuccess { .. }
        | Message::ChannelFailure { .. } => Layer::Channels,
        Message::Unknown(_) => Layer::Unknown,
        _ => Layer::Authentication,
    }
}

/// The number of the message that a payload begins with.
pub fn number_in(payload: &[u8]) -> u8
    requires { 50 ≤ number_of payload.now }
    ensures { result ≡ number_of payload.now }
{
    payload[0]
}
