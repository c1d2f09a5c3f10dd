// The messages of the transport (RFC 4253).

ghost use Rattle.std.specs.Prelude.{◌∷◌, IfOk, IfErr};
ghost use Rattle.ssh_message.specs.Meaning.{IsMeant, IsNone};
ghost use Rattle.ssh_message.specs.Written.{Fits};

use crate::message::{BadMessage, Message};
use crate::read::part::{End, Whole};
use ssh_types::Reader;

#[tactic(auto, using(crate::proofs::Fields::fields, crate::proofs::Rows::no_disconnect))]
pub(crate) fn disconnect<'a>(fields: &mut Reader<'a>) -> Result<Message<'a>, BadMessage>
    ensures found { IfOk result (λ m. IsMeant m (1 ∷ fields.old)) }
    ensures fits { IfOk result (λ m. Fits m) }
    ensures refused { IfErr result (λ _. IsNone (1 ∷ fields.old)) }
{
    let (reason, (description, (language, End))) = Whole::whole(fields)?;
    Ok(Message::Disconnect {
        reason,
        description,
        language,
    })
}

#[tactic(auto, using(crate::proofs::Fields::fields, crate::proofs::Rows::no_ignore))]
pub(crate) fn ignore<'a>(fields: &mut Reader<'a>) -> Result<Message<'a>, BadMessage>
    ensures found { IfOk result (λ m. IsMeant m (2 ∷ fields.old)) }
    ensures fits { IfOk result (λ m. Fits m) }
    ensures refused { IfErr result (λ _. IsNone (2 ∷ fields.old)) }
{
    let (body, End) = Whole::whole(fields)?;
    Ok(Message::Ignore { body })
}

#[tactic(auto, using(crate::proofs::Fields::fields, crate::proofs::Rows::no_unimplemented))]
pub(crate) fn unimplemented<'a>(fields: &mut Reader<'a>) -> Result<Message<'a>, BadMessage>
    ensures found { IfOk result (λ m. IsMeant m (3 ∷ fields.old)) }
    ensures fits { IfOk result (λ m. Fits m) }
    ensures refused { IfErr result (λ _. IsNone (3 ∷ fields.old)) }
{
    let (number, End) = Whole::whole(fields)?;
    Ok(Message::Unimplemented { number })
}

#[tactic(auto, using(crate::proofs::Fields::fields, crate::proofs::Rows::no_debug))]
pub(crate) fn debug<'a>(fields: &mut Reader<'a>) -> Result<Message<'a>, BadMessage>
    ensures found { IfOk result (λ m. IsMeant m (4 ∷ fields.old)) }
    ensures fits { IfOk result (λ m. Fits m) }
    ensures refused { IfErr result (λ _. IsNone (4 ∷ fields.old)) }
{
    let (display, (message, (language, End))) = Whole::whole(fields)?;
    Ok(Message::Debug {
        display,
        message,
        language,
    })
}

#[tactic(auto, using(crate::proofs::Fields::fields, crate::proofs::Rows::no_service_request))]
pub(crate) fn service_request<'a>(fields: &mut Reader<'a>) -> Result<Message<'a>, BadMessage>
    ensures found { IfOk result (λ m. IsMeant m (5 ∷ fields.old)) }
    ensures fits { IfOk result (λ m. Fits m) }
    ensures refused { IfErr result (λ _. IsNone (5 ∷ fields.old)) }
{
    let (service, End) = Whole::whole(fields)?;
    Ok(Message::ServiceRequest { service })
}

#[tactic(auto, using(crate::proofs::Fields::fields, crate::proofs::Rows::no_service_accept))]
pub(crate) fn service_accept<'a>(fields: &mut Reader<'a>) -> Result<Message<'a>, BadMessage>
    ensures found { IfOk result (λ m. IsMeant m (6 ∷ fields.old)) }
    ensures fits { IfOk result (λ m. Fits m) }
    ensures refused { IfErr result (λ _. IsNone (6 ∷ fields.old)) }
{
    let (service, End) = Whole::whole(fields)?;
    Ok(Message::ServiceAccept { service })
}

#[tactic(auto, using(crate::proofs::Fields::fields, crate::proofs::Rows::no_ext_info))]
pub(crate) fn ext_info<'a>(fields: &mut Reader<'a>) -> Result<Message<'a>, BadMessage>
    ensures found { IfOk result (λ m. IsMeant m (7 ∷ fields.old)) }
    ensures fits { IfOk result (λ m. Fits m) }
    ensures refused { IfErr result (λ _. IsNone (7 ∷ fields.old)) }
{
    let extensions = Whole::whole(fields)?;
    Ok(Message::ExtInfo { extensions })
}

#[tactic(auto, using(crate::proofs::Fields::fields, crate::proofs::Rows::no_new_keys))]
pub(crate) fn newkeys<'a>(fields: &mut Reader<'a>) -> Result<Message<'a>, BadMessage>
    ensures found { IfOk result (λ m. IsMeant m (21 ∷ fields.old)) }
    ensures fits { IfOk result (λ m. Fits m) }
    ensures refused { IfErr result (λ _. IsNone (21 ∷ fields.old)) }
{
    let End = Whole::whole(fields)?;
    Ok(Message::NewKeys)
}
