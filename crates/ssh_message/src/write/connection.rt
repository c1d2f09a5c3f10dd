// The messages of channels (RFC 4254).

ghost use Rattle.std.specs.Prelude.{◌≡◌, OnOk, OnErr, ◌<◌, ◌+◌, length, vec_capacity};
ghost use Rattle.ssh_model.specs.Laws.Sizes.{payload_size};
ghost use Rattle.ssh_model.specs.Protocol.Wire.DataTypes.{IsWrittenBoolean};
ghost use Rattle.ssh_model.specs.Laws.Reading.{Writes};
ghost use Rattle.ssh_model.specs.Protocol.Wire.Message.{IsRow, GlobalRequest, RequestSuccess, RequestFailure, ChannelOpen};
ghost use Rattle.ssh_model.specs.Protocol.Wire.Message.{ChannelOpenConfirmation, ChannelOpenFailure, ChannelWindowAdjust, ChannelData};
ghost use Rattle.ssh_model.specs.Protocol.Wire.Message.{ChannelExtendedData, ChannelEof, ChannelClose, ChannelRequest, ChannelSuccess};
ghost use Rattle.ssh_model.specs.Protocol.Wire.Message.{ChannelFailure};
ghost use Rattle.ssh_message.specs.Written.{IsShort};

use crate::write::field::Field;
use crate::write::row::put_row;
use std::alloc::AllocError;

pub(crate) fn global_request(
    out: &mut Vec<u8>,
    name: &[u8],
    want: bool,
    rest: &[u8],
) -> Result<(), AllocError>
    requires { IsShort name.now }
    ensures written { OnOk result (Writes (IsRow IsWrittenBoolean (GlobalRequest name.now want rest.now)) out.old.items out.new.items) }
    ensures kept { OnErr result (out.new.items ≡ out.old.items) }
    ensures full { OnErr result (vec_capacity out.old < length out.old.items + payload_size (GlobalRequest name.now want rest.now)) }
{
    put_row(out, 80, &[Field::Text(name), Field::Boolean(want)], rest)
}

pub(crate) fn request_success(out: &mut Vec<u8>, rest: &[u8]) -> Result<(), AllocError>
    ensures written { OnOk result (Writes (IsRow IsWrittenBoolean (RequestSuccess rest.now)) out.old.items out.new.items) }
    ensures kept { OnErr result (out.new.items ≡ out.old.items) }
    ensures full { OnErr result (vec_capacity out.old < length out.old.items + payload_size (RequestSuccess rest.now)) }
{
    put_row(out, 81, &[], rest)
}

pub(crate) fn request_failure(out: &mut Vec<u8>) -> Result<(), AllocError>
    ensures written { OnOk result (Writes (IsRow IsWrittenBoolean RequestFailure) out.old.items out.new.items) }
    ensures kept { OnErr result (out.new.items ≡ out.old.items) }
    ensures full { OnErr result (vec_capacity out.old < length out.old.items + payload_size RequestFailure) }
{
    put_row(out, 82, &[], b"")
}

pub(crate) fn channel_open(
    out: &mut Vec<u8>,
    kind: &[u8],
    sender: u32,
    window: u32,
    max: u32,
    rest: &[u8],
) -> Result<(), AllocError>
    requires { IsShort kind.now }
    ensures written { OnOk result (Writes (IsRow IsWrittenBoolean (ChannelOpen kind.now sender window max rest.now)) out.old.items
        out.new.items) }
    ensures kept { OnErr result (out.new.items ≡ out.old.items) }
    ensures full { OnErr result (vec_capacity out.old < length out.old.items + payload_size
        (ChannelOpen kind.now sender window max rest.now)) }
{
    let fields = [
        Field::Text(kind),
        Field::Uint32(sender),
        Field::Uint32(window),
        Field::Uint32(max),
    ];
    put_row(out, 90, &fields, rest)
}

pub(crate) fn channel_open_confirmation(
    out: &mut Vec<u8>,
    recipient: u32,
    sender: u32,
    window: u32,
    max: u32,
    rest: &[u8],
) -> Result<(), AllocError>
    ensures written { OnOk result (Writes (IsRow IsWrittenBoolean (ChannelOpenConfirmation recipient sender window max rest.now))
        out.old.items out.new.items) }
    ensures kept { OnErr result (out.new.items ≡ out.old.items) }
    ensures full { OnErr result (vec_capacity out.old < length out.old.items + payload_size
        (ChannelOpenConfirmation recipient sender window max rest.now)) }
{
    let fields = [
        Field::Uint32(recipient),
        Field::Uint32(sender),
        Field::Uint32(window),
        Field::Uint32(max),
    ];
    put_row(out, 91, &fields, rest)
}

pub(crate) fn channel_open_failure<'a>(
    out: &mut Vec<u8>,
    recipient: u32,
    reason: u32,
    description: &'a [u8],
    language: &'a [u8],
) -> Result<(), AllocError>
    // What the caller must ensure.
    requires description { IsShort description.now }
    requires language { IsShort language.now }
    // What it does.
    ensures written { OnOk result (Writes (IsRow IsWrittenBoolean (ChannelOpenFailure recipient reason description.now language.now))
        out.old.items out.new.items) }
    // If it fails.
    ensures kept { OnErr result (out.new.items ≡ out.old.items) }
    ensures full { OnErr result (vec_capacity out.old < length out.old.items + payload_size
        (ChannelOpenFailure recipient reason description.now language.now)) }
{
    let fields = [
        Field::Uint32(recipient),
        Field::Uint32(reason),
        Field::Text(description),
        Field::Text(language),
    ];
    put_row(out, 92, &fields, b"")
}

pub(crate) fn channel_window_adjust(
    out: &mut Vec<u8>,
    recipient: u32,
    bytes: u32,
) -> Result<(), AllocError>
    ensures written { OnOk result (Writes (IsRow IsWrittenBoolean (ChannelWindowAdjust recipient bytes)) out.old.items out.new.items) }
    ensures kept { OnErr result (out.new.items ≡ out.old.items) }
    ensures full { OnErr result (vec_capacity out.old < length out.old.items + payload_size (ChannelWindowAdjust recipient bytes)) }
{
    put_row(
        out,
        93,
        &[Field::Uint32(recipient), Field::Uint32(bytes)],
        b"",
    )
}

pub(crate) fn channel_data(out: &mut Vec<u8>, recipient: u32, body: &[u8]) -> Result<(), AllocError>
    requires { IsShort body.now }
    ensures written { OnOk result (Writes (IsRow IsWrittenBoolean (ChannelData recipient body.now)) out.old.items out.new.items) }
    ensures kept { OnErr result (out.new.items ≡ out.old.items) }
    ensures full { OnErr result (vec_capacity out.old < length out.old.items + payload_size (ChannelData recipient body.now)) }
{
    put_row(out, 94, &[Field::Uint32(recipient), Field::Text(body)], b"")
}

pub(crate) fn channel_extended_data(
    out: &mut Vec<u8>,
    recipient: u32,
    kind: u32,
    body: &[u8],
) -> Result<(), AllocError>
    requires { IsShort body.now }
    ensures written { OnOk result (Writes (IsRow IsWrittenBoolean (ChannelExtendedData recipient kind body.now)) out.old.items
        out.new.items) }
    ensures kept { OnErr result (out.new.items ≡ out.old.items) }
    ensures full { OnErr result (vec_capacity out.old < length out.old.items + payload_size (ChannelExtendedData recipient kind body.now)) }
{
    put_row(
        out,
        95,
        &[
            Field::Uint32(recipient),
            Field::Uint32(kind),
            Field::Text(body),
        ],
        b"",
    )
}

pub(crate) fn channel_eof(out: &mut Vec<u8>, recipient: u32) -> Result<(), AllocError>
    ensures written { OnOk result (Writes (IsRow IsWrittenBoolean (ChannelEof recipient)) out.old.items out.new.items) }
    ensures kept { OnErr result (out.new.items ≡ out.old.items) }
    ensures full { OnErr result (vec_capacity out.old < length out.old.items + payload_size (ChannelEof recipient)) }
{
    put_row(out, 96, &[Field::Uint32(recipient)], b"")
}

pub(crate) fn channel_close(out: &mut Vec<u8>, recipient: u32) -> Result<(), AllocError>
    ensures written { OnOk result (Writes (IsRow IsWrittenBoolean (ChannelClose recipient)) out.old.items out.new.items) }
    ensures kept { OnErr result (out.new.items ≡ out.old.items) }
    ensures full { OnErr result (vec_capacity out.old < length out.old.items + payload_size (ChannelClose recipient)) }
{
    put_row(out, 97, &[Field::Uint32(recipient)], b"")
}

pub(crate) fn channel_request(
    out: &mut Vec<u8>,
    recipient: u32,
    name: &[u8],
    want: bool,
    rest: &[u8],
) -> Result<(), AllocError>
    requires { IsShort name.now }
    ensures written { OnOk result (Writes (IsRow IsWrittenBoolean (ChannelRequest recipient name.now want rest.now)) out.old.items
        out.new.items) }
    ensures kept { OnErr result (out.new.items ≡ out.old.items) }
    ensures full { OnErr result (vec_capacity out.old < length out.old.items + payload_size
        (ChannelRequest recipient name.now want rest.now)) }
{
    put_row(
        out,
        98,
        &[
            Field::Uint32(recipient),
            Field::Text(name),
            Field::Boolean(want),
        ],
        rest,
    )
}

pub(crate) fn channel_success(out: &mut Vec<u8>, recipient: u32) -> Result<(), AllocError>
    ensures written { OnOk result (Writes (IsRow IsWrittenBoolean (ChannelSuccess recipient)) out.old.items out.new.items) }
    ensures kept { OnErr result (out.new.items ≡ out.old.items) }
    ensures full { OnErr result (vec_capacity out.old < length out.old.items + payload_size (ChannelSuccess recipient)) }
{
    put_row(out, 99, &[Field::Uint32(recipient)], b"")
}

pub(crate) fn channel_failure(out: &mut Vec<u8>, recipient: u32) -> Result<(), AllocError>
    ensures written { OnOk result (Writes (IsRow IsWrittenBoolean (ChannelFailure recipient)) out.old.items out.new.items) }
    ensures kept { OnErr result (out.new.items ≡ out.old.items) }
    ensures full { OnErr result (vec_capacity out.old < length out.old.items + payload_size (ChannelFailure recipient)) }
{
    put_row(out, 100, &[Field::Uint32(recipient)], b"")
}
