// The method of a request for authentication (RFC 4252 sections 5.2, 7 and 8).

ghost use Rattle.std.specs.Prelude.{codes, IfOk, IfErr};
ghost use Rattle.ssh_model.specs.Protocol.Wire.Message as model;
ghost use Rattle.ssh_model.specs.Protocol.Wire.DataTypes.{IsBoolean};
ghost use Rattle.ssh_model.specs.Protocol.Wire.Message.{IsMethod};
ghost use Rattle.ssh_message.specs.Meaning.{method_meaning};
ghost use Rattle.ssh_message.specs.Written.{MethodFits};
ghost use Rattle.ssh_message.specs.Methods.{AreArguments, NoArguments};

use crate::message::{BadMessage, Method};
use crate::read::part::{End, Part, Rest, Whole};
use ssh_types::Reader;

impl<'a> Whole<'a> for Method<'a> {
    ghost Value = { model.Method };

    ghost value = { λ method. method_meaning method };

    ghost Encodes = { IsMethod IsBoolean };

    ghost CanBeWritten = { λ method. MethodFits method };

    #[tactic(auto, using(crate::proofs::Methods::methods))]
    fn whole(fields: &mut Reader<'a>) -> Result<Method<'a>, BadMessage> {
        let name: &'a [u8] = Part::part(fields)?;
        if name == b"none".as_slice() {
            return none(fields);
        }
        if name == b"password".as_slice() {
            return password(fields);
        }
        if name == b"publickey".as_slice() {
            return publickey(fields);
        }
        let Rest(rest) = Whole::whole(fields)?;
        Ok(Method::Other { name, rest })
    }
}

#[tactic(auto, using(crate::proofs::Methods::no_none))]
fn none<'a>(fields: &mut Reader<'a>) -> Result<Method<'a>, BadMessage>
    ensures found { IfOk result (λ m. AreArguments (codes "none") (method_meaning m) fields.old) }
    ensures fits { IfOk result (λ m. MethodFits m) }
    ensures refused { IfErr result (λ _. NoArguments (codes "none") fields.old) }
{
    let End = Whole::whole(fields)?;
    Ok(Method::None)
}

#[tactic(auto, using(crate::proofs::Methods::passwords))]
fn password<'a>(fields: &mut Reader<'a>) -> Result<Method<'a>, BadMessage>
    ensures found { IfOk result (λ m. AreArguments (codes "password") (method_meaning m) fields.old) }
    ensures fits { IfOk result (λ m. MethodFits m) }
    ensures refused { IfErr result (λ _. NoArguments (codes "password") fields.old) }
{
    let change = Part::part(fields)?;
    if change {
        let (password, (new_password, End)) = Whole::whole(fields)?;
        return Ok(Method::Password {
            password,
            new_password: Some(new_password),
        });
    }
    let (password, End) = Whole::whole(fields)?;
    Ok(Method::Password {
        password,
        new_password: None,
    })
}

#[tactic(auto, using(crate::proofs::Methods::publickeys))]
fn publickey<'a>(fields: &mut Reader<'a>) -> Result<Method<'a>, BadMessage>
    ensures found { IfOk result (λ m. AreArguments (codes "publickey") (method_meaning m) fields.old) }
    ensures fits { IfOk result (λ m. MethodFits m) }
    ensures refused { IfErr result (λ _. NoArguments (codes "publickey") fields.old) }
{
    let signed = Part::part(fields)?;
    if signed {
        let (algorithm, (key, (signature, End))) = Whole::whole(fields)?;
        return Ok(Method::Publickey {
            algorithm,
            key,
            signature: Some(signature),
        });
    }
    let (algorithm, (key, End)) = Whole::whole(fields)?;
    Ok(Method::Publickey {
        algorithm,
        key,
        signature: None,
    })
}
