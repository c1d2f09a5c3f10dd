// The messages of authentication (RFC 4252).

ghost use Rattle.std.specs.Prelude.{◌∷◌, true, IfOk, IfErr};
ghost use Rattle.ssh_model.specs.Protocol.Wire.Message.{IsPayload};
ghost use Rattle.ssh_message.specs.Meaning.{meaning, IsMeant, IsNone, NoMessage};
ghost use Rattle.ssh_message.specs.Written.{Fits};

use crate::message::{BadMessage, Message};
use crate::read::part::{End, Whole};
use ssh_types::Reader;

#[tactic(auto, using(crate::proofs::Fields::fields, crate::proofs::Rows::no_userauth_request))]
pub(crate) fn request<'a>(fields: &mut Reader<'a>) -> Result<Message<'a>, BadMessage>
    ensures found { IfOk result (λ m. IsMeant m (50 ∷ fields.old)) }
    ensures fits { IfOk result (λ m. Fits m) }
    ensures refused { IfErr result (λ _. IsNone (50 ∷ fields.old)) }
{
    let (user, (service, method)) = Whole::whole(fields)?;
    Ok(Message::UserauthRequest {
        user,
        service,
        method,
    })
}

#[tactic(auto, using(crate::proofs::Fields::fields, crate::proofs::Rows::no_userauth_failure))]
pub(crate) fn failure<'a>(fields: &mut Reader<'a>) -> Result<Message<'a>, BadMessage>
    ensures found { IfOk result (λ m. IsMeant m (51 ∷ fields.old)) }
    ensures fits { IfOk result (λ m. Fits m) }
    ensures refused { IfErr result (λ _. IsNone (51 ∷ fields.old)) }
{
    let (methods, (partial, End)) = Whole::whole(fields)?;
    Ok(Message::UserauthFailure { methods, partial })
}

#[tactic(auto, using(crate::proofs::Fields::fields, crate::proofs::Rows::no_userauth_success))]
pub(crate) fn success<'a>(fields: &mut Reader<'a>) -> Result<Message<'a>, BadMessage>
    ensures found { IfOk result (λ m. IsMeant m (52 ∷ fields.old)) }
    ensures fits { IfOk result (λ m. Fits m) }
    ensures refused { IfErr result (λ _. IsNone (52 ∷ fields.old)) }
{
    let End = Whole::whole(fields)?;
    Ok(Message::UserauthSuccess)
}

#[tactic(auto, using(crate::proofs::Fields::fields, crate::proofs::Rows::no_userauth_banner))]
pub(crate) fn banner<'a>(fields: &mut Reader<'a>) -> Result<Message<'a>, BadMessage>
    ensures found { IfOk result (λ m. IsMeant m (53 ∷ fields.old)) }
    ensures fits { IfOk result (λ m. Fits m) }
    ensures refused { IfErr result (λ _. IsNone (53 ∷ fields.old)) }
{
    let (message, (language, End)) = Whole::whole(fields)?;
    Ok(Message::UserauthBanner { message, language })
}

#[tactic(auto, using(crate::proofs::Fields::fields, crate::proofs::Rows::no_userauth_pk_ok))]
pub(crate) fn pk_ok<'a>(fields: &mut Reader<'a>) -> Result<Message<'a>, BadMessage>
    ensures found { IfOk result (λ m. IsPayload true (meaning m) (60 ∷ fields.old)) }
    ensures fits { IfOk result (λ m. Fits m) }
    ensures refused { IfErr result (λ _. NoMessage true (60 ∷ fields.old)) }
{
    let (algorithm, (key, End)) = Whole::whole(fields)?;
    Ok(Message::UserauthPkOk { algorithm, key })
}
