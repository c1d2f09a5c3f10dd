// The payload of a message: its number, its fields, and the bytes after them.

ghost use Rattle.std.specs.Prelude.{◌≡◌, ◌<◌, ◌+◌, length, vec_capacity, OnOk, OnErr};
ghost use Rattle.ssh_model.specs.Laws.Reading.{Writes};
ghost use Rattle.ssh_message.specs.Fields.{row_size, AreFit, IsRowOf};
ghost use Rattle.ssh_message.specs.Written.{Grown};

use crate::write::field::{Field, put_field};
use ssh_types::Put;
use std::alloc::AllocError;

// Puts a payload at the end: the number, the fields and the rest. If an allocation fails, `out` is as before.
pub(crate) fn put_row(
    out: &mut Vec<u8>,
    number: u8,
    fields: &[Field<'_>],
    rest: &[u8],
) -> Result<(), AllocError>
    requires { AreFit fields.now }
    ensures written { OnOk result (Writes (IsRowOf number fields.now rest.now) out.old.items out.new.items) }
    ensures kept { OnErr result (out.new.items ≡ out.old.items) }
    ensures full { OnErr result (vec_capacity out.old < length out.old.items + row_size fields.now rest.now) }
{
    let start = out.len();
    if let Err(error) = put_parts(out, number, fields, rest) {
        out.truncate(start);
        return Err(error);
    }
    Ok(())
}

// The same, but if an allocation fails, some of the bytes may stand there.
fn put_parts(
    out: &mut Vec<u8>,
    number: u8,
    fields: &[Field<'_>],
    rest: &[u8],
) -> Result<(), AllocError>
    requires { AreFit fields.now }
    ensures written { OnOk result (Writes (IsRowOf number fields.now rest.now) out.old.items out.new.items) }
    ensures grown { OnErr result (Grown out.old.items out.new.items) }
    ensures full { OnErr result (vec_capacity out.old < length out.old.items + row_size fields.now rest.now) }
{
    out.put_u8(number)?;
    for field in fields {
        put_field(out, field)?;
    }
    out.extend_from_slice(rest)?;
    Ok(())
}
