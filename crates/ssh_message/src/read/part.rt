// Fields that follow one another. A `Part` is read from the front of what is left, a `Whole` is all that is left: a pair
// is its first value and then its second, up to the end.

ghost use Rattle.std.specs.Prelude.{List, ℕ, Bool, IfOk, IfErr};
ghost use Rattle.ssh_model.specs.Protocol.Wire.DataTypes.{IsBoolean, IsUint32, IsString, IsNameList};
ghost use Rattle.ssh_model.specs.Laws.Reading.{Reads, NoFront, OneForm};
ghost use Rattle.ssh_model.specs.Protocol.Wire.Message.{IsCookie, IsRest};
ghost use Rattle.ssh_types.specs.Values.{names, names_text};
ghost use Rattle.ssh_message.specs.Meaning.{IsZero};
ghost use Rattle.ssh_message.specs.Parts.{Both, IsNothing, NoWhole, one_zero};
ghost use Rattle.ssh_message.specs.Written.{IsShort};
ghost use Rattle.ssh_model.specs.Laws.Encodings.{one_boolean, one_cookie, one_uint32, one_string, one_name_list};

use crate::message::BadMessage;
use ssh_types::{NameList, Reader};

/// A value that tells its own length.
pub(crate) trait Part<'a>: Sized {
    ghost Value: { Type 0 };

    // The value without the places of its texts.
    ghost value: { Self → Value };

    ghost Encodes: { Value → List ℕ → Type 0 };

    // It can be written.
    ghost CanBeWritten: { Self → Type 0 };

    fn part(fields: &mut Reader<'a>) -> Result<Self, BadMessage>
        ensures found { IfOk result (λ x. Reads (Encodes (value x)) fields.old fields.new) }
        ensures fits { IfOk result (λ x. CanBeWritten x) }
        ensures refused { IfErr result (λ _. NoFront Encodes fields.old) };

    ghost one: { OneForm Encodes };
}

/// A value that is all that is left.
pub(crate) trait Whole<'a>: Sized {
    ghost Value: { Type 0 };

    ghost value: { Self → Value };

    ghost Encodes: { Value → List ℕ → Type 0 };

    ghost CanBeWritten: { Self → Type 0 };

    fn whole(fields: &mut Reader<'a>) -> Result<Self, BadMessage>
        ensures found { IfOk result (λ x. Encodes (value x) fields.old) }
        ensures fits { IfOk result (λ x. CanBeWritten x) }
        ensures refused { IfErr result (λ _. NoWhole Encodes fields.old) };
}

impl<'a> Part<'a> for u32 {
    ghost Value = { ℕ };

    ghost value = { λ n. n };

    ghost Encodes = { IsUint32 };

    ghost CanBeWritten = { λ _. Unit {0} };

    ghost one = { one_uint32 };

    fn part(fields: &mut Reader<'a>) -> Result<u32, BadMessage> {
        Ok(fields.u32()?)
    }
}

impl<'a> Part<'a> for bool {
    ghost Value = { Bool };

    ghost value = { λ truth. truth };

    ghost Encodes = { IsBoolean };

    ghost CanBeWritten = { λ _. Unit {0} };

    ghost one = { one_boolean };

    fn part(fields: &mut Reader<'a>) -> Result<bool, BadMessage> {
        Ok(fields.boolean()?)
    }
}

impl<'a> Part<'a> for &'a [u8] {
    ghost Value = { List ℕ };

    ghost value = { λ text. text.now };

    ghost Encodes = { IsString };

    ghost CanBeWritten = { λ text. IsShort text.now };

    ghost one = { one_string };

    fn part(fields: &mut Reader<'a>) -> Result<&'a [u8], BadMessage> {
        Ok(fields.string()?)
    }
}

impl<'a> Part<'a> for NameList<'a> {
    ghost Value = { List (List ℕ) };

    ghost value = { λ list. names list };

    ghost Encodes = { IsNameList };

    ghost CanBeWritten = { λ list. IsShort (names_text list) };

    ghost one = { one_name_list };

    fn part(fields: &mut Reader<'a>) -> Result<NameList<'a>, BadMessage> {
        Ok(fields.names()?)
    }
}

/// The 16 random bytes of a KEXINIT (RFC 4253 section 7.1).
impl<'a> Part<'a> for &'a [u8; 16] {
    ghost Value = { List ℕ };

    ghost value = { λ cookie. cookie.now };

    ghost Encodes = { IsCookie };

    ghost CanBeWritten = { λ _. Unit {0} };

    ghost one = { one_cookie };

    #[tactic(auto, using(crate::proofs::Fields::reads_cookie, crate::proofs::Fields::no_cookie))]
    fn part(fields: &mut Reader<'a>) -> Result<&'a [u8; 16], BadMessage> {
        let bytes = fields.rest();
        let Some((cookie, rest)) = bytes.split_first_chunk::<16>() else {
            return Err(BadMessage);
        };
        *fields = Reader::new(rest);
        Ok(cookie)
    }
}

/// The uint32 of a KEXINIT that is reserved, and has to be 0 (RFC 4253 section 7.1).
#[derive(Drop)]
pub(crate) struct Reserved;

impl<'a> Part<'a> for Reserved {
    ghost Value = { Unit {0} };

    ghost value = { λ _. tt };

    ghost Encodes = { IsZero };

    ghost CanBeWritten = { λ _. Unit {0} };

    ghost one = { one_zero };

    #[tactic(auto, using(crate::proofs::Fields::no_zero, crate::proofs::Fields::other_zero))]
    fn part(fields: &mut Reader<'a>) -> Result<Reserved, BadMessage> {
        if fields.reserved()? {
            Ok(Reserved)
        } else {
            Err(BadMessage)
        }
    }
}

/// Nothing more.
#[derive(Drop)]
pub(crate) struct End;

impl<'a> Whole<'a> for End {
    ghost Value = { Unit {0} };

    ghost value = { λ _. tt };

    ghost Encodes = { IsNothing };

    ghost CanBeWritten = { λ _. Unit {0} };

    #[tactic(auto, using(crate::proofs::Fields::none_end))]
    fn whole(fields: &mut Reader<'a>) -> Result<End, BadMessage> {
        fields.end()?;
        Ok(End)
    }
}

/// All that is left, whatever it is.
#[derive(Drop)]
pub(crate) struct Rest<'a>(pub(crate) &'a [u8]);

impl<'a> Whole<'a> for Rest<'a> {
    ghost Value = { List ℕ };

    ghost value = { λ rest. rest.0.now };

    ghost Encodes = { IsRest };

    ghost CanBeWritten = { λ _. Unit {0} };

    fn whole(fields: &mut Reader<'a>) -> Result<Rest<'a>, BadMessage> {
        Ok(Rest(fields.rest()))
    }
}

impl<'a, A: Part<'a> + Drop, B: Whole<'a>> Whole<'a> for (A, B) {
    ghost Value = { A.Value × B.Value };

    ghost value = { λ both. (A.value both.0, B.value both.1) };

    ghost Encodes = { Both A.Encodes B.Encodes };

    ghost CanBeWritten = { λ both. A.CanBeWritten both.0 × B.CanBeWritten both.1 };

    #[tactic(auto, using(crate::proofs::Fields::pairs))]
    fn whole(fields: &mut Reader<'a>) -> Result<(A, B), BadMessage> {
        let first = A::part(fields)?;
        let second = B::whole(fields)?;
        Ok((first, second))
    }
}
