// The messages of a key exchange (RFC 4253 section 7.1 and RFC 5656 section 4).

ghost use Rattle.std.specs.Prelude.{◌∷◌, IfOk, IfErr};
ghost use Rattle.ssh_message.specs.Meaning.{IsMeant, IsNone};
ghost use Rattle.ssh_message.specs.Written.{Fits};

use crate::message::{BadMessage, Message, Proposal};
use crate::read::part::{End, Reserved, Whole};
use ssh_types::Reader;

#[tactic(auto, using(crate::proofs::Fields::fields, crate::proofs::Rows::no_kex_init))]
pub(crate) fn kexinit<'a>(fields: &mut Reader<'a>) -> Result<Message<'a>, BadMessage>
    ensures found { IfOk result (λ m. IsMeant m (20 ∷ fields.old)) }
    ensures fits { IfOk result (λ m. Fits m) }
    ensures refused { IfErr result (λ _. IsNone (20 ∷ fields.old)) }
{
    let (cookie, (kex, (host, (enc_cs, (enc_sc, (mac_cs, (mac_sc, later))))))) = Whole::whole(
        fields,
    )?;
    let (comp_cs, (comp_sc, (lang_cs, (lang_sc, (follows, (Reserved, End)))))) = later;
    Ok(Message::KexInit(Proposal {
        cookie,
        kex,
        host,
        enc_cs,
        enc_sc,
        mac_cs,
        mac_sc,
        comp_cs,
        comp_sc,
        lang_cs,
        lang_sc,
        follows,
    }))
}

#[tactic(auto, using(crate::proofs::Fields::fields, crate::proofs::Rows::no_kex_ecdh_init))]
pub(crate) fn kex_ecdh_init<'a>(fields: &mut Reader<'a>) -> Result<Message<'a>, BadMessage>
    ensures found { IfOk result (λ m. IsMeant m (30 ∷ fields.old)) }
    ensures fits { IfOk result (λ m. Fits m) }
    ensures refused { IfErr result (λ _. IsNone (30 ∷ fields.old)) }
{
    let (q_c, End) = Whole::whole(fields)?;
    Ok(Message::KexEcdhInit { q_c })
}

#[tactic(auto, using(crate::proofs::Fields::fields, crate::proofs::Rows::no_kex_ecdh_reply))]
pub(crate) fn kex_ecdh_reply<'a>(fields: &mut Reader<'a>) -> Result<Message<'a>, BadMessage>
    ensures found { IfOk result (λ m. IsMeant m (31 ∷ fields.old)) }
    ensures fits { IfOk result (λ m. Fits m) }
    ensures refused { IfErr result (λ _. IsNone (31 ∷ fields.old)) }
{
    let (k_s, (q_s, (signature, End))) = Whole::whole(fields)?;
    Ok(Message::KexEcdhReply {
        k_s,
        q_s,
        signature,
    })
}
