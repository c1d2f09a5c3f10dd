// The messages of the transport (RFC 4253).

ghost use Rattle.std.specs.Prelude.{◌≡◌, [], ◌∷◌, ◌++◌, OnOk, OnErr, ◌<◌, ◌+◌, length, vec_capacity};
ghost use Rattle.ssh_model.specs.Laws.Sizes.{payload_size};
ghost use Rattle.ssh_model.specs.Protocol.Wire.DataTypes.{IsWrittenBoolean};
ghost use Rattle.ssh_model.specs.Laws.Reading.{Writes};
ghost use Rattle.ssh_model.specs.Protocol.Wire.Message.{IsRow, Disconnect, Ignore, Unimplemented, Debug, ServiceRequest, ServiceAccept};
ghost use Rattle.ssh_model.specs.Protocol.Wire.Message.{ExtInfo, NewKeys, Unknown};
ghost use Rattle.ssh_message.specs.Announced.{extensions_of};
ghost use Rattle.ssh_message.specs.Written.{IsShort};

use crate::extensions::Extensions;
use crate::write::field::Field;
use crate::write::row::put_row;
use ssh_types::Put;
use std::alloc::AllocError;

pub(crate) fn disconnect<'a>(
    out: &mut Vec<u8>,
    reason: u32,
    description: &'a [u8],
    language: &'a [u8],
) -> Result<(), AllocError>
    // What the caller must ensure.
    requires description { IsShort description.now }
    requires language { IsShort language.now }
    // What it does.
    ensures written { OnOk result (Writes (IsRow IsWrittenBoolean (Disconnect reason description.now language.now)) out.old.items
        out.new.items) }
    // If it fails.
    ensures kept { OnErr result (out.new.items ≡ out.old.items) }
    ensures full { OnErr result (vec_capacity out.old < length out.old.items + payload_size
        (Disconnect reason description.now language.now)) }
{
    put_row(
        out,
        1,
        &[
            Field::Uint32(reason),
            Field::Text(description),
            Field::Text(language),
        ],
        b"",
    )
}

pub(crate) fn ignore(out: &mut Vec<u8>, body: &[u8]) -> Result<(), AllocError>
    requires { IsShort body.now }
    ensures written { OnOk result (Writes (IsRow IsWrittenBoolean (Ignore body.now)) out.old.items out.new.items) }
    ensures kept { OnErr result (out.new.items ≡ out.old.items) }
    ensures full { OnErr result (vec_capacity out.old < length out.old.items + payload_size (Ignore body.now)) }
{
    put_row(out, 2, &[Field::Text(body)], b"")
}

pub(crate) fn unimplemented(out: &mut Vec<u8>, number: u32) -> Result<(), AllocError>
    ensures written { OnOk result (Writes (IsRow IsWrittenBoolean (Unimplemented number)) out.old.items out.new.items) }
    ensures kept { OnErr result (out.new.items ≡ out.old.items) }
    ensures full { OnErr result (vec_capacity out.old < length out.old.items + payload_size (Unimplemented number)) }
{
    put_row(out, 3, &[Field::Uint32(number)], b"")
}

pub(crate) fn debug<'a>(
    out: &mut Vec<u8>,
    display: bool,
    message: &'a [u8],
    language: &'a [u8],
) -> Result<(), AllocError>
    // What the caller must ensure.
    requires message { IsShort message.now }
    requires language { IsShort language.now }
    // What it does.
    ensures written { OnOk result (Writes (IsRow IsWrittenBoolean (Debug display message.now language.now)) out.old.items out.new.items) }
    // If it fails.
    ensures kept { OnErr result (out.new.items ≡ out.old.items) }
    ensures full { OnErr result (vec_capacity out.old < length out.old.items + payload_size (Debug display message.now language.now)) }
{
    put_row(
        out,
        4,
        &[
            Field::Boolean(display),
            Field::Text(message),
            Field::Text(language),
        ],
        b"",
    )
}

pub(crate) fn service_request(out: &mut Vec<u8>, service: &[u8]) -> Result<(), AllocError>
    requires { IsShort service.now }
    ensures written { OnOk result (Writes (IsRow IsWrittenBoolean (ServiceRequest service.now)) out.old.items out.new.items) }
    ensures kept { OnErr result (out.new.items ≡ out.old.items) }
    ensures full { OnErr result (vec_capacity out.old < length out.old.items + payload_size (ServiceRequest service.now)) }
{
    put_row(out, 5, &[Field::Text(service)], b"")
}

pub(crate) fn service_accept(out: &mut Vec<u8>, service: &[u8]) -> Result<(), AllocError>
    requires { IsShort service.now }
    ensures written { OnOk result (Writes (IsRow IsWrittenBoolean (ServiceAccept service.now)) out.old.items out.new.items) }
    ensures kept { OnErr result (out.new.items ≡ out.old.items) }
    ensures full { OnErr result (vec_capacity out.old < length out.old.items + payload_size (ServiceAccept service.now)) }
{
    put_row(out, 6, &[Field::Text(service)], b"")
}

#[tactic(auto, using(crate::proofs::Announcing::writes_extensions, crate::proofs::Announcing::announced_size))]
pub(crate) fn ext_info(out: &mut Vec<u8>, extensions: &Extensions<'_>) -> Result<(), AllocError>
    ensures written { OnOk result (Writes (IsRow IsWrittenBoolean (ExtInfo (extensions_of extensions.now))) out.old.items out.new.items) }
    ensures kept { OnErr result (out.new.items ≡ out.old.items) }
    ensures full { OnErr result (vec_capacity out.old < length out.old.items + payload_size (ExtInfo (extensions_of extensions.now))) }
{
    let count = extensions.count();
    let bytes = extensions.as_bytes();
    put_row(out, 7, &[Field::Uint32(count)], bytes)
}

pub(crate) fn newkeys(out: &mut Vec<u8>) -> Result<(), AllocError>
    ensures written { OnOk result (Writes (IsRow IsWrittenBoolean NewKeys) out.old.items out.new.items) }
    ensures kept { OnErr result (out.new.items ≡ out.old.items) }
    ensures full { OnErr result (vec_capacity out.old < length out.old.items + payload_size NewKeys) }
{
    put_row(out, 21, &[], b"")
}

// The number of no known message, and nothing after it (section 11.4).
pub(crate) fn unknown(out: &mut Vec<u8>, number: u8) -> Result<(), AllocError>
    ensures written { OnOk result (Writes (IsRow IsWrittenBoolean (Unknown number)) out.old.items out.new.items) }
    ensures alone { OnOk result (out.new.items ≡ out.old.items ++ number ∷ []) }
    ensures kept { OnErr result (out.new.items ≡ out.old.items) }
    ensures full { OnErr result (vec_capacity out.old < length out.old.items + payload_size (Unknown number)) }
{
    out.put_u8(number)
}
