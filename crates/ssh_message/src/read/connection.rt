// The messages of channels (RFC 4254).

ghost use Rattle.std.specs.Prelude.{◌∷◌, IfOk, IfErr};
ghost use Rattle.ssh_message.specs.Meaning.{IsMeant, IsNone};
ghost use Rattle.ssh_message.specs.Written.{Fits};

use crate::message::{BadMessage, Message};
use crate::read::part::{End, Rest, Whole};
use ssh_types::Reader;

#[tactic(auto, using(crate::proofs::Fields::fields, crate::proofs::Rows::no_global_request))]
pub(crate) fn global_request<'a>(fields: &mut Reader<'a>) -> Result<Message<'a>, BadMessage>
    ensures found { IfOk result (λ m. IsMeant m (80 ∷ fields.old)) }
    ensures fits { IfOk result (λ m. Fits m) }
    ensures refused { IfErr result (λ _. IsNone (80 ∷ fields.old)) }
{
    let (name, (want, Rest(rest))) = Whole::whole(fields)?;
    Ok(Message::GlobalRequest { name, want, rest })
}

#[tactic(auto, using(crate::proofs::Fields::fields))]
pub(crate) fn request_success<'a>(fields: &mut Reader<'a>) -> Message<'a>
    ensures found { IsMeant result (81 ∷ fields.old) }
    ensures fits { Fits result }
{
    let rest = fields.rest();
    Message::RequestSuccess { rest }
}

#[tactic(auto, using(crate::proofs::Fields::fields, crate::proofs::Rows::no_request_failure))]
pub(crate) fn request_failure<'a>(fields: &mut Reader<'a>) -> Result<Message<'a>, BadMessage>
    ensures found { IfOk result (λ m. IsMeant m (82 ∷ fields.old)) }
    ensures fits { IfOk result (λ m. Fits m) }
    ensures refused { IfErr result (λ _. IsNone (82 ∷ fields.old)) }
{
    let End = Whole::whole(fields)?;
    Ok(Message::RequestFailure)
}

#[tactic(auto, using(crate::proofs::Fields::fields, crate::proofs::Rows::no_channel_open))]
pub(crate) fn channel_open<'a>(fields: &mut Reader<'a>) -> Result<Message<'a>, BadMessage>
    ensures found { IfOk result (λ m. IsMeant m (90 ∷ fields.old)) }
    ensures fits { IfOk result (λ m. Fits m) }
    ensures refused { IfErr result (λ _. IsNone (90 ∷ fields.old)) }
{
    let (kind, (sender, (window, (max, Rest(rest))))) = Whole::whole(fields)?;
    Ok(Message::ChannelOpen {
        kind,
        sender,
        window,
        max,
        rest,
    })
}

#[tactic(auto, using(crate::proofs::Fields::fields, crate::proofs::Rows::no_channel_open_confirmation))]
pub(crate) fn channel_open_confirmation<'a>(
    fields: &mut Reader<'a>,
) -> Result<Message<'a>, BadMessage>
    ensures found { IfOk result (λ m. IsMeant m (91 ∷ fields.old)) }
    ensures fits { IfOk result (λ m. Fits m) }
    ensures refused { IfErr result (λ _. IsNone (91 ∷ fields.old)) }
{
    let (recipient, (sender, (window, (max, Rest(rest))))) = Whole::whole(fields)?;
    Ok(Message::ChannelOpenConfirmation {
        recipient,
        sender,
        window,
        max,
        rest,
    })
}

#[tactic(auto, using(crate::proofs::Fields::fields, crate::proofs::Rows::no_channel_open_failure))]
pub(crate) fn channel_open_failure<'a>(fields: &mut Reader<'a>) -> Result<Message<'a>, BadMessage>
    ensures found { IfOk result (λ m. IsMeant m (92 ∷ fields.old)) }
    ensures fits { IfOk result (λ m. Fits m) }
    ensures refused { IfErr result (λ _. IsNone (92 ∷ fields.old)) }
{
    let (recipient, (reason, (description, (language, End)))) = Whole::whole(fields)?;
    Ok(Message::ChannelOpenFailure {
        recipient,
        reason,
        description,
        language,
    })
}

#[tactic(auto, using(crate::proofs::Fields::fields, crate::proofs::Rows::no_channel_window_adjust))]
pub(crate) fn channel_window_adjust<'a>(fields: &mut Reader<'a>) -> Result<Message<'a>, BadMessage>
    ensures found { IfOk result (λ m. IsMeant m (93 ∷ fields.old)) }
    ensures fits { IfOk result (λ m. Fits m) }
    ensures refused { IfErr result (λ _. IsNone (93 ∷ fields.old)) }
{
    let (recipient, (bytes, End)) = Whole::whole(fields)?;
    Ok(Message::ChannelWindowAdjust { recipient, bytes })
}

#[tactic(auto, using(crate::proofs::Fields::fields, crate::proofs::Rows::no_channel_data))]
pub(crate) fn channel_data<'a>(fields: &mut Reader<'a>) -> Result<Message<'a>, BadMessage>
    ensures found { IfOk result (λ m. IsMeant m (94 ∷ fields.old)) }
    ensures fits { IfOk result (λ m. Fits m) }
    ensures refused { IfErr result (λ _. IsNone (94 ∷ fields.old)) }
{
    let (recipient, (body, End)) = Whole::whole(fields)?;
    Ok(Message::ChannelData { recipient, body })
}

#[tactic(auto, using(crate::proofs::Fields::fields, crate::proofs::Rows::no_channel_extended_data))]
pub(crate) fn channel_extended_data<'a>(fields: &mut Reader<'a>) -> Result<Message<'a>, BadMessage>
    ensures found { IfOk result (λ m. IsMeant m (95 ∷ fields.old)) }
    ensures fits { IfOk result (λ m. Fits m) }
    ensures refused { IfErr result (λ _. IsNone (95 ∷ fields.old)) }
{
    let (recipient, (kind, (body, End))) = Whole::whole(fields)?;
    Ok(Message::ChannelExtendedData {
        recipient,
        kind,
        body,
    })
}

#[tactic(auto, using(crate::proofs::Fields::fields, crate::proofs::Rows::no_channel_eof))]
pub(crate) fn channel_eof<'a>(fields: &mut Reader<'a>) -> Result<Message<'a>, BadMessage>
    ensures found { IfOk result (λ m. IsMeant m (96 ∷ fields.old)) }
    ensures fits { IfOk result (λ m. Fits m) }
    ensures refused { IfErr result (λ _. IsNone (96 ∷ fields.old)) }
{
    let (recipient, End) = Whole::whole(fields)?;
    Ok(Message::ChannelEof { recipient })
}

#[tactic(auto, using(crate::proofs::Fields::fields, crate::proofs::Rows::no_channel_close))]
pub(crate) fn channel_close<'a>(fields: &mut Reader<'a>) -> Result<Message<'a>, BadMessage>
    ensures found { IfOk result (λ m. IsMeant m (97 ∷ fields.old)) }
    ensures fits { IfOk result (λ m. Fits m) }
    ensures refused { IfErr result (λ _. IsNone (97 ∷ fields.old)) }
{
    let (recipient, End) = Whole::whole(fields)?;
    Ok(Message::ChannelClose { recipient })
}

#[tactic(auto, using(crate::proofs::Fields::fields, crate::proofs::Rows::no_channel_request))]
pub(crate) fn channel_request<'a>(fields: &mut Reader<'a>) -> Result<Message<'a>, BadMessage>
    ensures found { IfOk result (λ m. IsMeant m (98 ∷ fields.old)) }
    ensures fits { IfOk result (λ m. Fits m) }
    ensures refused { IfErr result (λ _. IsNone (98 ∷ fields.old)) }
{
    let (recipient, (name, (want, Rest(rest)))) = Whole::whole(fields)?;
    Ok(Message::ChannelRequest {
        recipient,
        name,
        want,
        rest,
    })
}

#[tactic(auto, using(crate::proofs::Fields::fields, crate::proofs::Rows::no_channel_success))]
pub(crate) fn channel_success<'a>(fields: &mut Reader<'a>) -> Result<Message<'a>, BadMessage>
    ensures found { IfOk result (λ m. IsMeant m (99 ∷ fields.old)) }
    ensures fits { IfOk result (λ m. Fits m) }
    ensures refused { IfErr result (λ _. IsNone (99 ∷ fields.old)) }
{
    let (recipient, End) = Whole::whole(fields)?;
    Ok(Message::ChannelSuccess { recipient })
}

#[tactic(auto, using(crate::proofs::Fields::fields, crate::proofs::Rows::no_channel_failure))]
pub(crate) fn channel_failure<'a>(fields: &mut Reader<'a>) -> Result<Message<'a>, BadMessage>
    ensures found { IfOk result (λ m. IsMeant m (100 ∷ fields.old)) }
    ensures fits { IfOk result (λ m. Fits m) }
    ensures refused { IfErr result (λ _. IsNone (100 ∷ fields.old)) }
{
    let (recipient, End) = Whole::whole(fields)?;
    Ok(Message::ChannelFailure { recipient })
}
