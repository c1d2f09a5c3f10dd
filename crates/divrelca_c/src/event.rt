//! The event of a turn, for C.

ghost use Rattle.std.specs.Prelude.{◌≡◌, false, []};
ghost use Rattle.divrelca_c.specs.Events.{announced, credential_key, credential_number, data_fields, fact_fields, fields_of, method_data, method_number, opened_fields};
ghost use Rattle.divrelca_c.specs.Events.{request_number, requested_fields, simple, told_fields, told_or_tried, took_of, tried_fields, turn_fields};
ghost use Rattle.ssh_model.specs.Protocol.Sessions.Refusals.{refusal_name, refusal_number};

use ssh_channels::ChannelEvent;
use ssh_end::{Credential, Told, Took, Turn};
use ssh_message::{Message, Method};
use ssh_types::{Refusal, RequestKind};

/// The event of the last call of `dv_take`. Which fields mean something depends on `kind`; the others are 0, false and no bytes.
#[repr(C)]
#[derive(Clone, Copy, Drop)]
pub struct DvEvent<'a> {
    pub kind: u32,
    pub channel: u32,
    pub window: u32,
    pub max_packet: u32,
    /// A position, a reason, a count of bytes, a kind of extended data, a number of a refusal.
    pub number: u32,
    /// The number of the message that was taken, 0 if none was.
    pub took: u8,
    pub flag: bool,
    pub extended: bool,
    pub name: &'a [u8],
    pub text: &'a [u8],
}

const NOTHING: u32 = 0;

const REFUSED: u32 = 1;

const COMPLETED: u32 = 2;

const SERVICE: u32 = 3;

const ACCEPTED: u32 = 4;

const AUTHENTICATED: u32 = 5;

const FAILED: u32 = 6;

const BANNER: u32 = 7;

const KEY_OK: u32 = 8;

const IGNORED: u32 = 9;

const DEBUGGED: u32 = 10;

const UNIMPLEMENTED: u32 = 11;

const DISCONNECTED: u32 = 12;

const EXTENSIONS: u32 = 13;

const TRIED: u32 = 14;

const GLOBAL: u32 = 16;

const GLOBAL_DONE: u32 = 17;

const OPENING: u32 = 18;

const OPENED: u32 = 19;

const CONFIRMED: u32 = 20;

const OPEN_FAILED: u32 = 21;

const DATA: u32 = 22;

const ADJUSTED: u32 = 23;

const ENDED: u32 = 24;

const CLOSED: u32 = 25;

const REQUESTED: u32 = 26;

const REQUEST_DONE: u32 = 27;

// What a user showed: nothing, a signature by a key, a password, a key alone, or something by another method.

const BY_NOTHING: u32 = 0;

const BY_KEY: u32 = 1;

const BY_PASSWORD: u32 = 2;

const BY_PROBE: u32 = 3;

const BY_ANOTHER: u32 = 4;

/// The event of a turn.
pub fn event_of<'a>(turn: &Turn<'a>) -> DvEvent<'a>
    ensures fields { fields_of result ≡ turn_fields turn.now.refused turn.now.told turn.now.took }
    ensures took { result.took ≡ took_of turn.now.took }
{
    let took = number_of(turn.took);
    DvEvent {
        took,
        ..event_shown(turn)
    }
}

// The number of the message that was taken.
fn number_of(took: Option<Took<'_>>) -> u8
    ensures { result ≡ took_of took.entry }
{
    match took {
        Some(Took::Message { payload, .. }) => payload.first().copied().unwrap_or(0),
        _ => 0,
    }
}

// An event with these fields, and no others.
fn shown<'a>(
    kind: u32,
    channel: u32,
    number: u32,
    flag: bool,
    name: &'a [u8],
    text: &'a [u8],
) -> DvEvent<'a>
    ensures { fields_of result ≡ simple kind channel number flag name.now text.now }
{
    DvEvent {
        kind,
        channel,
        window: 0,
        max_packet: 0,
        number,
        took: 0,
        flag,
        extended: false,
        name,
        text,
    }
}

// What was refused, told, or tried.
fn event_shown<'a>(turn: &Turn<'a>) -> DvEvent<'a>
    ensures { fields_of result ≡ turn_fields turn.now.refused turn.now.told turn.now.took }
{
    match turn.refused {
        Some(refusal) => event_refused(refusal),
        None => event_told_or_tried(turn.told, turn.took),
    }
}

// The refusal of the peer.
fn event_refused(refusal: Refusal) -> DvEvent<'static>
    ensures { fields_of result ≡ simple 1 0 (refusal_number refusal) false (refusal_name refusal) [] }
{
    let number = u32::from(refusal.number());
    shown(REFUSED, 0, number, false, refusal.name().as_bytes(), b"")
}

// What was told, or tried if nothing was told. Extensions are shown as they were taken.
fn event_told_or_tried<'a>(told: Option<Told<'a>>, took: Option<Took<'a>>) -> DvEvent<'a>
    ensures { fields_of result ≡ told_or_tried told.entry took.entry }
{
    match told {
        Some(Told::Extensions(all)) => {
            shown(EXTENSIONS, 0, all.count(), false, b"", announced(took))
        }
        Some(told) => event_told(&told),
        None => event_tried(took),
    }
}

// The names and values of extensions, as they stand in the message after their count (RFC 8308 section 2.3).
fn announced<'a>(took: Option<Took<'a>>) -> &'a [u8]
    ensures { result.now ≡ announced took.entry }
{
    match took {
        Some(Took::Message { payload, .. }) => payload.get(5..).unwrap_or(b""),
        _ => b"",
    }
}

// A request for authentication that let nobody in.
fn event_tried<'a>(took: Option<Took<'a>>) -> DvEvent<'a>
    ensures { fields_of result ≡ tried_fields took.entry }
{
    match took {
        Some(Took::Message { message, .. }) => event_requested(message),
        _ => shown(NOTHING, 0, 0, false, b"", b""),
    }
}

// The same, of a message.
fn event_requested<'a>(message: Message<'a>) -> DvEvent<'a>
    ensures { fields_of result ≡ requested_fields message.entry }
{
    match message {
        Message::UserauthRequest { user, method, .. } => {
            let number = method_number(method);
            shown(TRIED, 0, number, false, user, method_data(method))
        }
        _ => shown(NOTHING, 0, 0, false, b"", b""),
    }
}

// The number of what a request by this method shows.
fn method_number(method: Method<'_>) -> u32
    ensures { result ≡ method_number method.entry }
{
    match method {
        Method::None => BY_NOTHING,
        Method::Password { .. } => BY_PASSWORD,
        Method::Publickey { signature, .. } => match signature {
            Some(_) => BY_KEY,
            None => BY_PROBE,
        },
        Method::Other { .. } => BY_ANOTHER,
    }
}

// The key of a request by key, and the name of a method that is another one.
fn method_data<'a>(method: Method<'a>) -> &'a [u8]
    ensures { result.now ≡ method_data method.entry }
{
    match method {
        Method::Publickey { key, .. } => key,
        Method::Other { name, .. } => name,
        _ => b"",
    }
}

// What was told.
fn event_told<'a>(told: &Told<'a>) -> DvEvent<'a>
    ensures { fields_of result ≡ told_fields told.now }
{
    match *told {
        Told::Completed { position } => shown(COMPLETED, 0, position, false, b"", b""),
        Told::Service => shown(SERVICE, 0, 0, false, b"", b""),
        Told::Accepted { user, credential } => event_accepted(user, credential),
        Told::Authenticated { request } => {
            shown(AUTHENTICATED, 0, request_number(request), false, b"", b"")
        }
        Told::Failed { methods, partial } => {
            shown(FAILED, 0, 0, partial, b"", methods.as_bytes())
        }
        Told::Banner { message } => shown(BANNER, 0, 0, false, b"", message),
        Told::KeyOk { algorithm, key } => shown(KEY_OK, 0, 0, false, algorithm, key),
        Told::Ignored => shown(IGNORED, 0, 0, false, b"", b""),
        Told::Extensions(all) => shown(EXTENSIONS, 0, all.count(), false, b"", b""),
        Told::Debugged { display, message } => shown(DEBUGGED, 0, 0, display, b"", message),
        Told::Unimplemented { number } => shown(UNIMPLEMENTED, 0, number, false, b"", b""),
        Told::Disconnected {
            reason,
            description,
        } => shown(DISCONNECTED, 0, reason, false, b"", description),
        Told::Channel(fact) => event_fact(fact),
    }
}

// A user was let in, by this credential.
fn event_accepted<'a>(user: &'a [u8], credential: Credential<'a>) -> DvEvent<'a>
    ensures { fields_of result ≡ simple 4 0 (credential_number credential.entry) false user.now (credential_key credential.entry) }
{
    match credential {
        Credential::None => shown(ACCEPTED, 0, BY_NOTHING, false, user, b""),
        Credential::Password => shown(ACCEPTED, 0, BY_PASSWORD, false, user, b""),
        Credential::Key { key, .. } => shown(ACCEPTED, 0, BY_KEY, false, user, key),
    }
}

// The number of what a client's request showed.
fn request_number(request: RequestKind) -> u32
    ensures { result ≡ request_number request }
{
    match request {
        RequestKind::Nothing => BY_NOTHING,
        RequestKind::Signature => BY_KEY,
        RequestKind::Password => BY_PASSWORD,
        RequestKind::Probe => BY_PROBE,
    }
}

// What was told of channels and global requests.
fn event_fact<'a>(fact: ChannelEvent<'a>) -> DvEvent<'a>
    ensures { fields_of result ≡ fact_fields fact.entry }
{
    match fact {
        ChannelEvent::Global { name, want, rest } => shown(GLOBAL, 0, 0, want, name, rest),
        ChannelEvent::GlobalDone { success, rest } => shown(GLOBAL_DONE, 0, 0, success, b"", rest),
        ChannelEvent::Opening { channel } => shown(OPENING, channel, 0, false, b"", b""),
        ChannelEvent::Opened { .. } | ChannelEvent::Confirmed { .. } => event_opened(fact),
        ChannelEvent::OpenFailed {
            channel,
            reason,
            description,
        } => shown(OPEN_FAILED, channel, reason, false, b"", description),
        ChannelEvent::GotData {
            channel,
            kind,
            body,
        } => event_data(channel, kind, body),
        ChannelEvent::Adjusted { channel, bytes } => shown(
            ADJUSTED, channel, bytes, false, b"", b"",
        ),
        ChannelEvent::Ended { channel } => shown(ENDED, channel, 0, false, b"", b""),
        ChannelEvent::Closed { channel } => shown(CLOSED, channel, 0, false, b"", b""),
        ChannelEvent::Requested {
            channel,
            name,
            want,
            rest,
        } => shown(REQUESTED, channel, 0, want, name, rest),
        ChannelEvent::RequestDone { channel, success } => {
            shown(REQUEST_DONE, channel, 0, success, b"", b"")
        }
    }
}

// A channel that the peer opens, or confirms.
fn event_opened<'a>(fact: ChannelEvent<'a>) -> DvEvent<'a>
    ensures { fields_of result ≡ opened_fields fact.entry }
{
    match fact {
        ChannelEvent::Opened {
            channel,
            kind,
            window,
            max_packet,
            rest,
        } => DvEvent {
            window,
            max_packet,
            ..shown(OPENED, channel, 0, false, kind, rest)
        },
        ChannelEvent::Confirmed {
            channel,
            window,
            max_packet,
            rest,
        } => DvEvent {
            window,
            max_packet,
            ..shown(CONFIRMED, channel, 0, false, b"", rest)
        },
        _ => shown(NOTHING, 0, 0, false, b"", b""),
    }
}

// Data that came.
fn event_data<'a>(channel: u32, kind: Option<u32>, body: &'a [u8]) -> DvEvent<'a>
    ensures { fields_of result ≡ data_fields channel kind body.now }
{
    match kind {
        None => shown(DATA, channel, 0, false, b"", body),
        Some(kind) => DvEvent {
            extended: true,
            ..shown(DATA, channel, kind, false, b"", body)
        },
    }
}
