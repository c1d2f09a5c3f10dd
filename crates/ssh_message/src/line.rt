mod column;

use crate::decoding::decode;
use crate::message::{BadMessage, Message};
use crate::naming::name;
use column::{Column, columns};
use ssh_types::Reader;
use std::fmt;

/// A payload as a line for people: `number NAME field=value ..`, the fields in their order. Strings and what is left
/// are lower case hexadecimal, name-lists are text, numbers are decimal, truth values `true` or `false`. An unknown
/// number has no fields, and its name is `UNKNOWN`.
#[derive(Clone, Copy, Debug)]
pub struct Line<'a> {
    payload: &'a [u8],
    message: Message<'a>,
}

impl<'a> Line<'a> {
    ghost use Rattle.std.specs.Prelude.{◌≡◌, IfOk, IfErr};
    ghost use Rattle.ssh_model.specs.Protocol.Wire.Message.{IsPayload};
    ghost use Rattle.ssh_message.specs.Meaning.{meaning, NoMessage};

    /// The line of the message that the payload is. `probing` is that of `decode`.
    ///
    /// # Errors
    ///
    /// `BadMessage` if the payload is no message, as that of `decode`.
    pub fn new(probing: bool, payload: &'a [u8]) -> Result<Line<'a>, BadMessage>
        ensures found { IfOk result (λ line. IsPayload probing (meaning line.message) payload.now) }
        ensures whole { IfOk result (λ line. line.payload.now ≡ payload.now) }
        ensures refused { IfErr result (λ _. NoMessage probing payload.now) }
    {
        let message = decode(probing, payload)?;
        Ok(Line { payload, message })
    }
}

impl<'a> fmt::Display for Line<'a> {
    fn fmt<W: fmt::Write>(&self, f: &mut fmt::Formatter<W>) -> fmt::Result {
        let number = self.message.number();
        let (name, columns): (&str, &[Column]) = match self.message {
            Message::Unknown(_) => ("UNKNOWN", &[]),
            _ => (name(number), columns(number)),
        };
        write!(f, "{number} {name}")?;
        let mut fields = Reader::new(self.payload);
        let _number = fields.u8();
        for column in columns {
            column.show(&mut fields, f)?;
        }
        Ok(())
    }
}
