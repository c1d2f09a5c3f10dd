//! What is asked, without its texts and numbers.

ghost use Rattle.std.specs.Prelude.{◌≡◌};
ghost use Rattle.ssh_auth.specs.Asking.{ask_of as user_ask_of};
ghost use Rattle.ssh_channels.specs.Values.{ask_of as channel_ask_of};
ghost use Rattle.ssh_end_machine.specs.Asking.{ask_of};
ghost use Rattle.ssh_end_machine.specs.Kinds.{kind_of};

use crate::Ask;
use ssh_auth::UserAsk;

/// What an end was asked for.
#[derive(Clone, Copy, Debug, PartialEq, Eq)]
pub enum AskKind {
    /// The service of authentication (RFC 4253 section 10).
    Service,
    /// A request by `none` (RFC 4252 section 5.2).
    None,
    /// A request by `password` (RFC 4252 section 8).
    Password,
    /// Whether a key would do (RFC 4252 section 7).
    Probe,
    /// A request by a signature (RFC 4252 section 7).
    Sign,
    /// A new exchange of keys (RFC 4253 section 9).
    Rekey,
    /// A channel of its own (RFC 4254 section 5.1).
    Open,
    /// To confirm a channel of the peer (RFC 4254 section 5.1).
    Confirm,
    /// To refuse one (RFC 4254 section 5.1).
    Refuse,
    /// Data on a channel (RFC 4254 section 5.2).
    Data,
    /// Extended data on one (RFC 4254 section 5.2).
    Extended,
    /// More room in the window of a channel (RFC 4254 section 5.2).
    Adjust,
    /// The end of its data on a channel (RFC 4254 section 5.3).
    Eof,
    /// To close a channel (RFC 4254 section 5.3).
    Close,
    /// A request on a channel (RFC 4254 section 5.4).
    Request,
    /// A reply to one (RFC 4254 section 5.4).
    Reply,
    /// A global request (RFC 4254 section 4).
    Global,
    /// A reply to one (RFC 4254 section 4).
    GlobalReply,
    /// The end of the connection (RFC 4253 section 11.1).
    Disconnect,
}

impl AskKind {
    /// What is asked.
    pub fn of(ask: &Ask<'_>) -> AskKind
        ensures { result ≡ kind_of (ask_of ask.now) }
    {
        match ask {
            Ask::Service => AskKind::Service,
            Ask::User(ask) => of_user(ask),
            Ask::Rekey => AskKind::Rekey,
            Ask::Connection(ask) => of_connection(ask),
            Ask::Disconnect(_) => AskKind::Disconnect,
        }
    }
}

// What a client's user asks.
fn of_user(ask: &UserAsk<'_>) -> AskKind
    ensures { result ≡ kind_of (user_ask_of ask.now) }
{
    match ask {
        UserAsk::None { .. } => AskKind::None,
        UserAsk::Password { .. } => AskKind::Password,
        UserAsk::Probe { .. } => AskKind::Probe,
        UserAsk::Sign { .. } => AskKind::Sign,
    }
}

// What is asked of channels.
fn of_connection(ask: &ssh_channels::Ask<'_>) -> AskKind
    ensures { result ≡ kind_of (channel_ask_of ask.now) }
{
    match ask {
        ssh_channels::Ask::Open { .. } => AskKind::Open,
        ssh_channels::Ask::Confirm { .. } => AskKind::Confirm,
        ssh_channels::Ask::Refuse { .. } => AskKind::Refuse,
        ssh_channels::Ask::Data { kind: None, .. } => AskKind::Data,
        ssh_channels::Ask::Data { kind: Some(_), .. } => AskKind::Extended,
        ssh_channels::Ask::Adjust { .. } => AskKind::Adjust,
        ssh_channels::Ask::Eof { .. } => AskKind::Eof,
        ssh_channels::Ask::Close { .. } => AskKind::Close,
        ssh_channels::Ask::Request { .. } => AskKind::Request,
        ssh_channels::Ask::Reply { .. } => AskKind::Reply,
        ssh_channels::Ask::Global { .. } => AskKind::Global,
        ssh_channels::Ask::GlobalReply { .. } => AskKind::GlobalReply,
    }
}
