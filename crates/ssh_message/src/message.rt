use crate::extensions::Extensions;
use crate::naming::name;
use ssh_types::{NameList, ReadRefusal, Refusal};
use std::fmt;
use thiserror::Error;

/// A message. Its texts are slices of the payload that it was read from, or of whatever its maker has.
///
/// `{:?}` shows only its number and its name, since it may hold a password or users' data; `Line` shows all of a payload.
#[derive(Clone, Copy, PartialEq, Eq)]
pub enum Message<'a> {
    /// 1: the sender ends the connection (RFC 4253 section 11.1).
    Disconnect {
        /// Why, by the codes of RFC 4250 section 4.2.2.
        reason: u32,
        /// A text for people, in UTF-8.
        description: &'a [u8],
        /// The language of that text (RFC 3066).
        language: &'a [u8],
    },
    /// 2: bytes that mean nothing (RFC 4253 section 11.2).
    Ignore {
        /// The bytes, of any length.
        body: &'a [u8],
    },
    /// 3: the packet with this sequence number wasn't understood (RFC 4253 section 11.4).
    Unimplemented {
        /// The sequence number of that packet, as its sender counted it.
        number: u32,
    },
    /// 4: a text for debugging (RFC 4253 section 11.3).
    Debug {
        /// Whether the text is to be shown.
        display: bool,
        /// The text, in UTF-8.
        message: &'a [u8],
        /// The language of that text (RFC 3066).
        language: &'a [u8],
    },
    /// 5: asks for a service (RFC 4253 section 10).
    ServiceRequest {
        /// The name of the service, such as `ssh-userauth`.
        service: &'a [u8],
    },
    /// 6: grants the service (RFC 4253 section 10).
    ServiceAccept {
        /// The name that was asked for.
        service: &'a [u8],
    },
    /// 7: the extensions that the sender announces (RFC 8308 section 2.3).
    ExtInfo {
        /// Pairs of a name and a value, in the order sent.
        extensions: Extensions<'a>,
    },
    /// 20: the offer of an end for a key exchange (RFC 4253 section 7.1).
    KexInit(Proposal<'a>),
    /// 21: the packets after this one are under the new keys (RFC 4253 section 7.3).
    NewKeys,
    /// 30: the client's public value (RFC 5656 section 4).
    KexEcdhInit {
        /// Q_C, the client's public point: 32 bytes for curve25519.
        q_c: &'a [u8],
    },
    /// 31: the host key, the server's public value and the signature (RFC 5656 section 4).
    KexEcdhReply {
        /// K_S, the host key, as a string that begins with its algorithm.
        k_s: &'a [u8],
        /// Q_S, the server's public point: 32 bytes for curve25519.
        q_s: &'a [u8],
        /// The signature of the exchange hash by the host key.
        signature: &'a [u8],
    },
    /// 50: asks for authentication (RFC 4252 section 5).
    UserauthRequest {
        /// The name of the user, in UTF-8.
        user: &'a [u8],
        /// The service to begin after authentication, such as `ssh-connection`.
        service: &'a [u8],
        /// How the user is to be authenticated.
        method: Method<'a>,
    },
    /// 51: not authenticated, and the methods that can go on (RFC 4252 section 5.1).
    UserauthFailure {
        /// The methods by which authentication can go on.
        methods: NameList<'a>,
        /// Whether the request was right, and more is wanted.
        partial: bool,
    },
    /// 52: authenticated (RFC 4252 section 5.1).
    UserauthSuccess,
    /// 53: a text to show before anyone is authenticated (RFC 4252 section 5.4).
    UserauthBanner {
        /// The text, in UTF-8.
        message: &'a [u8],
        /// The language of that text (RFC 3066).
        language: &'a [u8],
    },
    /// 60, as the answer to a key probe: a signature by this key would be judged (RFC 4252 section 7).
    UserauthPkOk {
        /// The algorithm of the key that was asked for.
        algorithm: &'a [u8],
        /// The key that was asked for.
        key: &'a [u8],
    },
    /// 80: a request that isn't about a channel; `rest` is its own (RFC 4254 section 4).
    GlobalRequest {
        /// The name of the request.
        name: &'a [u8],
        /// Whether a reply is wanted.
        want: bool,
        /// The rest of the request, which is not read here.
        rest: &'a [u8],
    },
    /// 81: the request was done (RFC 4254 section 4).
    RequestSuccess {
        /// The rest of the reply, which is not read here.
        rest: &'a [u8],
    },
    /// 82: the request wasn't done (RFC 4254 section 4).
    RequestFailure,
    /// 90: asks for a channel of this kind; `rest` is the kind's own (RFC 4254 section 5.1).
    ChannelOpen {
        /// The type of the channel, such as `session`.
        kind: &'a [u8],
        /// The sender's number of the channel.
        sender: u32,
        /// How many bytes may be sent to the sender.
        window: u32,
        /// The most bytes that one message may send it.
        max: u32,
        /// The rest of the message, by the type, which is not read here.
        rest: &'a [u8],
    },
    /// 91: the channel is open (RFC 4254 section 5.1).
    ChannelOpenConfirmation {
        /// The recipient's number of the channel.
        recipient: u32,
        /// The sender's number of the channel.
        sender: u32,
        /// How many bytes may be sent to the sender.
        window: u32,
        /// The most bytes that one message may send it.
        max: u32,
        /// The rest of the message, by the type, which is not read here.
        rest: &'a [u8],
    },
    /// 92: the channel isn't opened (RFC 4254 section 5.1).
    ChannelOpenFailure {
        /// The recipient's number of the channel.
        recipient: u32,
        /// Why, by the codes of RFC 4250 section 4.3.2.
        reason: u32,
        /// A text for people, in UTF-8.
        description: &'a [u8],
        /// The language of that text (RFC 3066).
        language: &'a [u8],
    },
    /// 93: this many more bytes may be sent on the channel (RFC 4254 section 5.2).
    ChannelWindowAdjust {
        /// The recipient's number of the channel.
        recipient: u32,
        /// How many more bytes the recipient may send.
        bytes: u32,
    },
    /// 94: bytes of the channel (RFC 4254 section 5.2).
    ChannelData {
        /// The recipient's number of the channel.
        recipient: u32,
        /// The bytes.
        body: &'a [u8],
    },
    /// 95: bytes of the channel besides its main stream, such as those of standard error (RFC 4254 section 5.2).
    ChannelExtendedData {
        /// The recipient's number of the channel.
        recipient: u32,
        /// Which stream they are of: 1 is standard error.
        kind: u32,
        /// The bytes.
        body: &'a [u8],
    },
    /// 96: no more bytes will be sent on the channel (RFC 4254 section 5.3).
    ChannelEof {
        /// The recipient's number of the channel.
        recipient: u32,
    },
    /// 97: the sender is done with the channel (RFC 4254 section 5.3).
    ChannelClose {
        /// The recipient's number of the channel.
        recipient: u32,
    },
    /// 98: a request on a channel; `rest` is its own (RFC 4254 section 5.4).
    ChannelRequest {
        /// The recipient's number of the channel.
        recipient: u32,
        /// The name of the request, such as `exec`.
        name: &'a [u8],
        /// Whether a reply is wanted.
        want: bool,
        /// The rest of the request, which is not read here.
        rest: &'a [u8],
    },
    /// 99: the request was done (RFC 4254 section 5.4).
    ChannelSuccess {
        /// The recipient's number of the channel.
        recipient: u32,
    },
    /// 100: the request wasn't done (RFC 4254 section 5.4).
    ChannelFailure {
        /// The recipient's number of the channel.
        recipient: u32,
    },
    /// A number that none of these has. The bytes after it are not kept. 60 is such a number if no key probe is outstanding.
    Unknown(u8),
}

impl<'a> Message<'a> {
    ghost use Rattle.std.specs.Prelude.{◌≡◌};
    ghost use Rattle.ssh_model.specs.Protocol.Wire.Message.{message_number};
    ghost use Rattle.ssh_message.specs.Meaning.{meaning};

    /// The number of the message, as it stands at the front of its payload.
    pub fn number(&self) -> u8
        ensures { result ≡ message_number (meaning self.now) }
    {
        match *self {
            Message::Disconnect { .. } => 1,
            Message::Ignore { .. } => 2,
            Message::Unimplemented { .. } => 3,
            Message::Debug { .. } => 4,
            Message::ServiceRequest { .. } => 5,
            Message::ServiceAccept { .. } => 6,
            Message::ExtInfo { .. } => 7,
            Message::KexInit(_) => 20,
            Message::NewKeys => 21,
            Message::KexEcdhInit { .. } => 30,
            Message::KexEcdhReply { .. } => 31,
            Message::UserauthRequest { .. } => 50,
            Message::UserauthFailure { .. } => 51,
            Message::UserauthSuccess => 52,
            Message::UserauthBanner { .. } => 53,
            Message::UserauthPkOk { .. } => 60,
            Message::GlobalRequest { .. } => 80,
            Message::RequestSuccess { .. } => 81,
            Message::RequestFailure => 82,
            Message::ChannelOpen { .. } => 90,
            Message::ChannelOpenConfirmation { .. } => 91,
            Message::ChannelOpenFailure { .. } => 92,
            Message::ChannelWindowAdjust { .. } => 93,
            Message::ChannelData { .. } => 94,
            Message::ChannelExtendedData { .. } => 95,
            Message::ChannelEof { .. } => 96,
            Message::ChannelClose { .. } => 97,
            Message::ChannelRequest { .. } => 98,
            Message::ChannelSuccess { .. } => 99,
            Message::ChannelFailure { .. } => 100,
            Message::Unknown(number) => number,
        }
    }
}

impl fmt::Debug for Message<'_> {
    ghost use Rattle.std.specs.Prelude.{Some};
    ghost use Rattle.ssh_message.specs.Shown.{shown_message};

    ghost debug_output = { λ message. Some (shown_message message) };

    fn fmt<W: fmt::Write>(&self, f: &mut fmt::Formatter<W>) -> fmt::Result {
        let number = self.number();
        match self {
            Message::Unknown(_) => write!(f, "{number} UNKNOWN"),
            _ => write!(f, "{number} {}", name(number)),
        }
    }
}

/// The offer of an end for a key exchange (RFC 4253 section 7.1): `cs` is from client to server, `sc` back. The number
/// that stands at the end, reserved and always 0, is not kept.
#[derive(Clone, Copy, Debug, PartialEq, Eq)]
pub struct Proposal<'a> {
    /// Random bytes of the sender.
    pub cookie: &'a [u8; 16],
    /// Methods of key exchange, and the markers.
    pub kex: NameList<'a>,
    /// Algorithms of host keys.
    pub host: NameList<'a>,
    /// Ciphers, from client to server.
    pub enc_cs: NameList<'a>,
    /// Ciphers, from server to client.
    pub enc_sc: NameList<'a>,
    /// MACs, from client to server.
    pub mac_cs: NameList<'a>,
    /// MACs, from server to client.
    pub mac_sc: NameList<'a>,
    /// Compression methods, from client to server.
    pub comp_cs: NameList<'a>,
    /// Compression methods, from server to client.
    pub comp_sc: NameList<'a>,
    /// Languages, from client to server.
    pub lang_cs: NameList<'a>,
    /// Languages, from server to client.
    pub lang_sc: NameList<'a>,
    /// A packet of the exchange that was guessed follows at once.
    pub follows: bool,
}

/// How a client asks for authentication (RFC 4252). `{:?}` shows only the name of the method.
#[derive(Clone, Copy, PartialEq, Eq)]
pub enum Method<'a> {
    /// `none` (section 5.2).
    None,
    /// `password` (section 8), with the new password if it is to be changed.
    Password {
        /// The password, in UTF-8.
        password: &'a [u8],
        /// The password that is to be set in its place.
        new_password: Option<&'a [u8]>,
    },
    /// `publickey` (section 7). Without a signature it is a key probe.
    Publickey {
        /// The algorithm of the key, or of the signature.
        algorithm: &'a [u8],
        /// The public key, as a string that begins with its own algorithm.
        key: &'a [u8],
        /// The signature of the session id and of the request.
        signature: Option<&'a [u8]>,
    },
    /// Any other method, by its name, with the bytes after the name.
    Other {
        /// The name of the method.
        name: &'a [u8],
        /// The bytes after the name.
        rest: &'a [u8],
    },
}

impl fmt::Debug for Method<'_> {
    ghost use Rattle.std.specs.Prelude.{Some};
    ghost use Rattle.ssh_message.specs.Shown.{shown_method};

    ghost debug_output = { λ method. Some (shown_method method) };

    fn fmt<W: fmt::Write>(&self, f: &mut fmt::Formatter<W>) -> fmt::Result {
        match self {
            Method::None => write!(f, "none"),
            Method::Password { .. } => write!(f, "password"),
            Method::Publickey { .. } => write!(f, "publickey"),
            Method::Other { .. } => write!(f, "other"),
        }
    }
}

/// The payload is no message. It is empty, ends within a field, or has bytes left over. Or a name-list in it has a
/// text that is no name, or the reserved number of a KEXINIT is not 0.
#[derive(Clone, Copy, Debug, PartialEq, Eq, Error)]
#[error("a malformed message")]
pub struct BadMessage;

impl From<ReadRefusal> for BadMessage {
    fn from(_refusal: ReadRefusal) -> BadMessage {
        BadMessage
    }
}

impl From<BadMessage> for Refusal {
    ghost use Rattle.std.specs.Prelude.{◌≡◌};
    ghost use Rattle.ssh_model.specs.declared.refusal.Refusal.TheVariants as refusals;

    ghost from_gives = { λ _ refusal. refusal ≡ refusals.BadMessage };

    fn from(_fault: BadMessage) -> Refusal {
        Refusal::BadMessage
    }
}
