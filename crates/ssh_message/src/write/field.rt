// A field of a message, and how it is written (RFC 4251 section 5).

ghost use Rattle.std.specs.Prelude.{◌≡◌, ◌<◌, ◌≤◌, ◌+◌, length, vec_capacity, OnOk, OnErr};
ghost use Rattle.ssh_model.specs.Protocol.Wire.Message.{IsCookie};
ghost use Rattle.ssh_model.specs.Laws.Reading.{Writes};
ghost use Rattle.ssh_message.specs.Fields.{field_size, FieldFits, IsField};

use ssh_types::{NameList, Put};
use std::alloc::AllocError;

#[derive(Clone, Copy)]
pub(crate) enum Field<'a> {
    // 1 for true and 0 for false
    Boolean(bool),
    Uint32(u32),
    // with its length in front
    Text(&'a [u8]),
    Names(NameList<'a>),
    // with no length in front
    Cookie(&'a [u8; 16]),
}

// Puts the field at the end. If an allocation fails, nothing is put.
pub(crate) fn put_field(out: &mut Vec<u8>, field: &Field<'_>) -> Result<(), AllocError>
    // What the caller must ensure.
    requires { FieldFits field.now }
    // What it does.
    ensures written { OnOk result (Writes (IsField field.now) out.old.items out.new.items) }
    ensures size { OnOk result (length out.new.items ≡ length out.old.items + field_size field.now) }
    ensures grows { vec_capacity out.old ≤ vec_capacity out.new }
    // If it fails.
    ensures kept { OnErr result (out.new.items ≡ out.old.items) }
    ensures full { OnErr result (vec_capacity out.old < length out.old.items + field_size field.now) }
{
    match *field {
        Field::Boolean(truth) => out.put_boolean(truth),
        Field::Uint32(number) => out.put_u32(number),
        Field::Text(text) => out.put_string(text),
        Field::Names(list) => out.put_names(&list),
        Field::Cookie(cookie) => put_cookie(out, cookie),
    }
}

// Puts 16 bytes.
fn put_cookie(out: &mut Vec<u8>, cookie: &[u8; 16]) -> Result<(), AllocError>
    // What it does.
    ensures written { OnOk result (Writes (IsCookie cookie.now) out.old.items out.new.items) }
    ensures size { OnOk result (length out.new.items ≡ length out.old.items + 16) }
    ensures grows { vec_capacity out.old ≤ vec_capacity out.new }
    // If it fails.
    ensures kept { OnErr result (out.new.items ≡ out.old.items) }
    ensures full { OnErr result (vec_capacity out.old < length out.old.items + 16) }
{
    out.extend_from_slice(cookie.as_slice())
}
