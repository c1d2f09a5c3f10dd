//! What the layers above a transport answer to a message.

use ssh_auth::{ClientAnswer, ServerAnswer};
use ssh_channels::Taken;
use ssh_message::Message;

/// What the layers above a transport answer to a message.
#[derive(Clone, Copy, Debug, PartialEq, Eq)]
pub enum LayerAnswer<'a> {
    /// The authentication of a server took it.
    Server(ServerAnswer<'a>),
    /// The authentication of a client took it.
    Client(ClientAnswer),
    /// Channels took it.
    Channels(Taken),
    /// No message has this number: UNIMPLEMENTED is sent with the sequence number of the packet (RFC 4253 section 11.4).
    Unknown,
}

/// A message that was taken, and what is answered to it. Both hold texts of the payload.
#[derive(Clone, Copy, Debug)]
pub struct LayerTaken<'a> {
    /// The message.
    pub message: Message<'a>,
    /// What is answered.
    pub answer: LayerAnswer<'a>,
}
