ghost use Rattle.std.specs.Prelude.{◌≡◌, ◌∷◌, IfOk, IfErr, IsOkAnd};
ghost use Rattle.ssh_model.specs.Protocol.Wire.Message.{Msg, IsPayload, IsWrittenPayload, FitsContext, message_number};
ghost use Rattle.ssh_model.specs.Protocol.Sessions.Turns.{number_of};
ghost use Rattle.ssh_message.specs.Meaning.{meaning, NoMessage};
ghost use Rattle.ssh_message.specs.Written.{Fits};

use crate::message::{BadMessage, Message};
use crate::read::{authentication, connection, exchange, transport};
use ssh_model::laws;
use ssh_types::Reader;

/// The message that the payload is (RFC 4252 to 4254, RFC 5656 section 4). Its texts are slices of the payload, and
/// no memory is taken.
///
/// `probing` says whether a key probe is outstanding. Only then is the number 60 the answer to it, and otherwise it is unknown.
///
/// # Errors
///
/// `BadMessage` exactly if the whole payload is no message. It is empty, ends within a field, or has bytes left
/// over. Or a name-list in it has a text that is no name, or the reserved number of a KEXINIT is not 0.
pub fn decode(probing: bool, payload: &[u8]) -> Result<Message<'_>, BadMessage>
    // The payload is the message that is answered.
    ensures found { IfOk result (λ m. IsPayload probing (meaning m) payload.now) }
    // Its number is the first byte.
    ensures number { IfOk result (λ m. message_number (meaning m) ≡ number_of payload.now) }
    // It can be written.
    ensures fits { IfOk result (λ m. Fits m) }
    // Nothing is refused that is a message.
    ensures refused { IfErr result (λ _. NoMessage probing payload.now) }
    // Whatever message the payload is, that one is answered.
    ensures only { (m : Msg) → IsPayload probing m payload.now → IsOkAnd result (λ x. meaning x ≡ m) }
    // What was written for a message is read as that message, where the context fits.
    ensures again { (m : Msg) → FitsContext probing m → IsWrittenPayload m payload.now → IsOkAnd result (λ x. meaning x ≡ m) }
{
    laws::one_message();
    laws::payload_numbers();
    read(probing, payload)
}

#[tactic(auto, using(crate::proofs::Payloads::payloads))]
fn read(probing: bool, payload: &[u8]) -> Result<Message<'_>, BadMessage>
    ensures found { IfOk result (λ m. IsPayload probing (meaning m) payload.now) }
    ensures fits { IfOk result (λ m. Fits m) }
    ensures refused { IfErr result (λ _. NoMessage probing payload.now) }
{
    let mut fields = Reader::new(payload);
    let number = fields.u8()?;
    body(probing, number, &mut fields)
}

// The message with this number, from the bytes after the number.
fn body<'a>(probing: bool, number: u8, fields: &mut Reader<'a>) -> Result<Message<'a>, BadMessage>
    ensures found { IfOk result (λ m. IsPayload probing (meaning m) (number ∷ fields.old)) }
    ensures fits { IfOk result (λ m. Fits m) }
    ensures refused { IfErr result (λ _. NoMessage probing (number ∷ fields.old)) }
{
    match number {
        1 => transport::disconnect(fields),
        2 => transport::ignore(fields),
        3 => transport::unimplemented(fields),
        4 => transport::debug(fields),
        5 => transport::service_request(fields),
        6 => transport::service_accept(fields),
        7 => transport::ext_info(fields),
        20 => exchange::kexinit(fields),
        21 => transport::newkeys(fields),
        30 => exchange::kex_ecdh_init(fields),
        31 => exchange::kex_ecdh_reply(fields),
        50 => authentication::request(fields),
        51 => authentication::failure(fields),
        52 => authentication::success(fields),
        53 => authentication::banner(fields),
        60 if probing => authentication::pk_ok(fields),
        80 => connection::global_request(fields),
        81 => Ok(connection::request_success(fields)),
        82 => connection::request_failure(fields),
        90 => connection::channel_open(fields),
        91 => connection::channel_open_confirmation(fields),
        92 => connection::channel_open_failure(fields),
        93 => connection::channel_window_adjust(fields),
        94 => connection::channel_data(fields),
        95 => connection::channel_extended_data(fields),
        96 => connection::channel_eof(fields),
        97 => connection::channel_close(fields),
        98 => connection::channel_request(fields),
        99 => connection::channel_success(fields),
        100 => connection::channel_failure(fields),
        _ => Ok(Message::Unknown(number)),
    }
}
