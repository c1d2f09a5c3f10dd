ghost use Rattle.std.specs.Prelude.{◌≡◌, ◌<◌, ◌+◌, ℕ, [], ◌∷◌, ◌++◌, length, vec_capacity, OnOk, OnErr};
ghost use Rattle.ssh_model.specs.Laws.Reading.{Writes};
ghost use Rattle.ssh_model.specs.Protocol.Wire.Message.{IsWrittenPayload, Unknown};
ghost use Rattle.ssh_model.specs.Laws.Sizes.{payload_size};
ghost use Rattle.ssh_message.specs.Meaning.{meaning};
ghost use Rattle.ssh_message.specs.Written.{Fits};

use crate::message::Message;
use crate::write::{authentication, connection, exchange, transport};
use ssh_model::laws;
use std::alloc::AllocError;

/// Puts the payload of the message at the end of `out`. An `Unknown` is put as only its number.
///
/// An `Unknown` number is none that another message has (60 may be one). The name of an `Other` method is none of
/// `none`, `password` and `publickey`. Each text with its length in front, and each name-list, is shorter than 2^32
/// bytes. What `decode` answers is all that.
///
/// # Errors
///
/// `AllocError` if the payload does not fit the capacity of `out` and memory was refused; `out` is then as before.
pub fn encode(message: &Message<'_>, out: &mut Vec<u8>) -> Result<(), AllocError>
    requires { Fits message.now }
    // What is put.
    ensures written { OnOk result (Writes (IsWrittenPayload (meaning message.now)) out.old.items out.new.items) }
    ensures unknown { (n : ℕ) → meaning message.now ≡ Unknown n → OnOk result (out.new.items ≡ out.old.items ++ n ∷ []) }
    ensures size { OnOk result (length out.new.items ≡ length out.old.items + payload_size (meaning message.now)) }
    // If it fails.
    ensures kept { OnErr result (out.new.items ≡ out.old.items) }
    ensures full { OnErr result (vec_capacity out.old < length out.old.items + payload_size (meaning message.now)) }
{
    laws::payload_sizes();
    put(message, out)
}

// Puts the payload by the row of its number.
fn put(message: &Message<'_>, out: &mut Vec<u8>) -> Result<(), AllocError>
    // What the caller must ensure.
    requires { Fits message.now }
    // What it does.
    ensures written { OnOk result (Writes (IsWrittenPayload (meaning message.now)) out.old.items out.new.items) }
    ensures unknown { (n : ℕ) → meaning message.now ≡ Unknown n → OnOk result (out.new.items ≡ out.old.items ++ n ∷ []) }
    // If it fails.
    ensures kept { OnErr result (out.new.items ≡ out.old.items) }
    ensures full { OnErr result (vec_capacity out.old < length out.old.items + payload_size (meaning message.now)) }
{
    match *message {
        Message::Disconnect {
            reason,
            description,
            language,
        } => transport::disconnect(out, reason, description, language),
        Message::Ignore { body } => transport::ignore(out, body),
        Message::Unimplemented { number } => transport::unimplemented(out, number),
        Message::Debug {
            display,
            message,
            language,
        } => transport::debug(out, display, message, language),
        Message::ServiceRequest { service } => transport::service_request(out, service),
        Message::ServiceAccept { service } => transport::service_accept(out, service),
        Message::ExtInfo { extensions } => transport::ext_info(out, &extensions),
        Message::KexInit(proposal) => exchange::kexinit(out, &proposal),
        Message::NewKeys => transport::newkeys(out),
        Message::KexEcdhInit { q_c } => exchange::kex_ecdh_init(out, q_c),
        Message::KexEcdhReply {
            k_s,
            q_s,
            signature,
        } => exchange::kex_ecdh_reply(out, k_s, q_s, signature),
        Message::UserauthRequest {
            user,
            service,
            method,
        } => authentication::request(out, user, service, &method),
        Message::UserauthFailure { methods, partial } => authentication::failure(
            out, &methods, partial,
        ),
        Message::UserauthSuccess => authentication::success(out),
        Message::UserauthBanner { message, language } => authentication::banner(
            out, message, language,
        ),
        Message::UserauthPkOk { algorithm, key } => authentication::pk_ok(out, algorithm, key),
        Message::GlobalRequest { name, want, rest } => connection::global_request(
            out, name, want, rest,
        ),
        Message::RequestSuccess { rest } => connection::request_success(out, rest),
        Message::RequestFailure => connection::request_failure(out),
        Message::ChannelOpen {
            kind,
            sender,
            window,
            max,
            rest,
        } => connection::channel_open(out, kind, sender, window, max, rest),
        Message::ChannelOpenConfirmation {
            recipient,
            sender,
            window,
            max,
            rest,
        } => connection::channel_open_confirmation(out, recipient, sender, window, max, rest),
        Message::ChannelOpenFailure {
            recipient,
            reason,
            description,
            language,
        } => connection::channel_open_failure(out, recipient, reason, description, language),
        Message::ChannelWindowAdjust { recipient, bytes } => connection::channel_window_adjust(
            out, recipient, bytes,
        ),
        Message::ChannelData { recipient, body } => connection::channel_data(out, recipient, body),
        Message::ChannelExtendedData {
            recipient,
            kind,
            body,
        } => connection::channel_extended_data(out, recipient, kind, body),
        Message::ChannelEof { recipient } => connection::channel_eof(out, recipient),
        Message::ChannelClose { recipient } => connection::channel_close(out, recipient),
        Message::ChannelRequest {
            recipient,
            name,
            want,
            rest,
        } => connection::channel_request(out, recipient, name, want, rest),
        Message::ChannelSuccess { recipient } => connection::channel_success(out, recipient),
        Message::ChannelFailure { recipient } => connection::channel_failure(out, recipient),
        Message::Unknown(number) => transport::unknown(out, number),
    }
}
