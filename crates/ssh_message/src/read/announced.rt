// The extensions of an EXT_INFO (RFC 8308 section 2.3).

ghost use Rattle.std.specs.Prelude.{List};
ghost use Rattle.ssh_model.specs.Protocol.Wire.Message.{Extension as announced};
ghost use Rattle.ssh_message.specs.Announced.{extensions_of, IsAnnounced};

use crate::extensions::Extensions;
use crate::message::BadMessage;
use crate::read::part::Whole;
use ssh_types::Reader;

impl<'a> Whole<'a> for Extensions<'a> {
    ghost Value = { List announced };

    ghost value = { λ all. extensions_of all };

    ghost Encodes = { IsAnnounced };

    ghost CanBeWritten = { λ _. Unit {0} };

    #[tactic(auto, using(crate::proofs::Announcing::announced, crate::proofs::Announcing::no_count, crate::proofs::Announcing::not_announced))]
    fn whole(fields: &mut Reader<'a>) -> Result<Extensions<'a>, BadMessage> {
        let count = fields.u32()?;
        match Extensions::new(count, fields.rest()) {
            Some(extensions) => Ok(extensions),
            None => Err(BadMessage),
        }
    }
}
