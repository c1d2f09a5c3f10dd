//! What a user is told.

ghost use Rattle.std.specs.Prelude.{◌≡◌, option_map};
ghost use Rattle.ssh_message.specs.Meaning.{meaning};
ghost use Rattle.ssh_auth.specs.Facts.{accepted_by as accepted};
ghost use Rattle.ssh_end_machine.specs.Steps.{fact_told};
ghost use Rattle.ssh_end_machine.specs.Told.{told_of};

use crate::step::EventKind;
use crate::told_kind::ToldKind;
use ssh_channels::ChannelEvent;
use ssh_message::{Extensions, Message, Method};
use ssh_types::{NameList, RequestKind};
use std::fmt;

/// By what a server let a user in (RFC 4252). It holds no password and no signature, so a program may log it.
#[derive(Clone, Copy, Debug, PartialEq, Eq)]
pub enum Credential<'a> {
    /// Nothing: the method `none` (section 5.2).
    None,
    /// A password (section 8).
    Password,
    /// A signature by this key, which the server verified (section 7). It is never a key that was only offered.
    Key {
        /// The name of the algorithm of the request.
        algorithm: &'a [u8],
        /// The public key.
        key: &'a [u8],
    },
}

impl<'a> Credential<'a> {
    ghost use Rattle.std.specs.Prelude.{◌≡◌};
    ghost use Rattle.ssh_message.specs.Meaning.{method_meaning};
    ghost use Rattle.ssh_model.specs.Protocol.Sessions.Items.{credential};
    ghost use Rattle.ssh_end_machine.specs.Told.{credential_of};

    // What a request shows whose method a server accepted.
    fn of(method: &Method<'a>) -> Credential<'a>
        ensures { credential_of result ≡ credential (method_meaning method.now) }
    {
        match *method {
            Method::Password { .. } => Credential::Password,
            Method::Publickey { algorithm, key, .. } => Credential::Key { algorithm, key },
            _ => Credential::None,
        }
    }
}

/// What a user is told about a message that was taken. Its texts are slices of the payload; `{:?}` shows their lengths alone.
#[derive(Clone, Copy, PartialEq, Eq)]
pub enum Told<'a> {
    /// The exchange of keys at this position, from 1, is completed at this end: it sent NEWKEYS, and seals under the new keys from here on.
    /// The peer's NEWKEYS may still be to come (RFC 4253 section 7.3).
    Completed {
        position: u32,
    },
    /// The service that the client asked for is granted (RFC 4253 section 10).
    Service,
    /// A server let this user in, by this credential (RFC 4252 section 5.1).
    Accepted {
        user: &'a [u8],
        credential: Credential<'a>,
    },
    /// A client's user is let in, as the answer to a request of this kind (RFC 4252 section 5.1).
    Authenticated {
        request: RequestKind,
    },
    /// The request failed, and these methods can go on (RFC 4252 section 5.1).
    Failed {
        methods: NameList<'a>,
        /// The request was right, and more is wanted.
        partial: bool,
    },
    /// A text to show before anyone is let in (RFC 4252 section 5.4).
    Banner {
        message: &'a [u8],
    },
    /// The server would look at a signature by this key (RFC 4252 section 7).
    KeyOk {
        algorithm: &'a [u8],
        key: &'a [u8],
    },
    /// Nothing to do: IGNORE (RFC 4253 section 11.2), the packet after a wrong guess (section 7), or a request after the user was let
    /// in (RFC 4252 section 5.1).
    Ignored,
    /// The extensions that the peer announces (RFC 8308 section 2.3).
    Extensions(Extensions<'a>),
    /// A text for debugging, to be shown or not (RFC 4253 section 11.3).
    Debugged {
        display: bool,
        message: &'a [u8],
    },
    /// The peer did not understand the packet with this sequence number (RFC 4253 section 11.4).
    Unimplemented {
        number: u32,
    },
    /// The peer ended the connection (RFC 4253 section 11.1).
    Disconnected {
        reason: u32,
        description: &'a [u8],
    },
    /// An event of a channel, or of a global request (RFC 4254).
    Channel(ChannelEvent<'a>),
}

impl fmt::Debug for Told<'_> {
    fn fmt<W: fmt::Write>(&self, f: &mut fmt::Formatter<W>) -> fmt::Result {
        match self {
            Told::Accepted { credential, .. } => {
                write!(f, "Accepted {{ credential: {credential:?} }}")
            }
            Told::Channel(event) => write!(f, "{event:?}"),
            _ => write!(f, "{:?}", ToldKind::of(self)),
        }
    }
}

/// What is told about a message, which belongs to this channel or to none. Channels make the event of a message of the connection.
pub fn told_in<'a>(
    event_kind: EventKind,
    message: &Message<'a>,
    channel: Option<u32>,
) -> Option<Told<'a>>
    ensures { option_map told_of result ≡ fact_told event_kind (meaning message.now) channel }
{
    match event_kind {
        EventKind::Message => {}
        EventKind::Accepted => return accepted_by(message),
        EventKind::Authenticated(request) => return Some(Told::Authenticated { request }),
        EventKind::Ignored => return Some(Told::Ignored),
        EventKind::Completed(position) => return Some(Told::Completed { position }),
    }
    match *message {
        Message::Disconnect {
            reason,
            description,
            ..
        } => Some(Told::Disconnected {
            reason,
            description,
        }),
        Message::Ignore { .. } => Some(Told::Ignored),
        Message::Unimplemented { number } => Some(Told::Unimplemented { number }),
        Message::Debug {
            display,
            message,
            ..
        } => Some(Told::Debugged { display, message }),
        Message::ServiceAccept { .. } => Some(Told::Service),
        Message::ExtInfo { extensions } => Some(Told::Extensions(extensions)),
        Message::UserauthFailure { methods, partial } => Some(Told::Failed { methods, partial }),
        Message::UserauthBanner { message, .. } => Some(Told::Banner { message }),
        Message::UserauthPkOk { algorithm, key } => Some(Told::KeyOk { algorithm, key }),
        _ => match ChannelEvent::of_message(message, channel) {
            Some(fact) => Some(Told::Channel(fact)),
            None => None,
        },
    }
}

// Who makes the request, and by which credential.
fn accepted_by<'a>(message: &Message<'a>) -> Option<Told<'a>>
    ensures { option_map told_of result ≡ accepted (meaning message.now) }
{
    match *message {
        Message::UserauthRequest { user, method, .. } => Some(Told::Accepted {
            user,
            credential: Credential::of(&method),
        }),
        _ => None,
    }
}
