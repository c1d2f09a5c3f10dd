//! The request of a client to the server, and as which user.

use crate::login::Login;
use divrelca::UserKey;
use ssh_channels::Ask as ChannelAsk;

/// A client's session: the host that it trusts, the user who logs in, and the task for the server.
#[derive(Clone, Copy)]
pub struct ClientSession<'a> {
    /// The host keys of ssh-ed25519 that are trusted, 32 bytes each.
    pub host: &'a [[u8; 32]],
    /// Signs for the user.
    pub key: UserKey,
    /// The user, and the credentials that let the user in.
    pub login: Login<'a>,
    /// The task for the server.
    pub request: Request<'a>,
}

/// The task for the server.
#[derive(Clone, Copy)]
pub struct Request<'a> {
    /// `exec` or `subsystem` (RFC 4254 section 6.5).
    pub kind: RequestKind,
    /// The command, or the name of the subsystem, as a string (RFC 4251 section 5).
    pub text: &'a [u8],
}

impl<'a> Request<'a> {
    /// The request on this channel.
    pub(super) fn ask_on(&self, channel: u32) -> ChannelAsk<'a> {
        ChannelAsk::Request {
            channel,
            name: match self.kind {
                RequestKind::Exec => b"exec",
                RequestKind::Subsystem => b"subsystem",
            },
            want: true,
            rest: self.text,
        }
    }
}

/// The command to run.
#[derive(Clone, Copy)]
pub enum RequestKind {
    /// A command.
    Exec,
    /// A subsystem.
    Subsystem,
}
