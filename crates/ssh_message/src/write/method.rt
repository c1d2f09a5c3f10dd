// The requests for authentication, one function a method (RFC 4252 sections 5.2, 7 and 8).

ghost use Rattle.std.specs.Prelude.{◌≡◌, Some, None, OnOk, OnErr, ◌<◌, ◌+◌, length, vec_capacity};
ghost use Rattle.ssh_model.specs.Laws.Sizes.{payload_size};
ghost use Rattle.ssh_model.specs.Protocol.Wire.DataTypes.{IsWrittenBoolean};
ghost use Rattle.ssh_model.specs.Laws.Reading.{Writes};
ghost use Rattle.ssh_model.specs.Protocol.Wire.Message.{IsRow, IsOther, UserauthRequest, NoMethod, Password, Publickey, Other};
ghost use Rattle.ssh_message.specs.Written.{IsShort};

use crate::write::field::Field;
use crate::write::row::put_row;
use std::alloc::AllocError;

pub(crate) fn none<'a>(
    out: &mut Vec<u8>,
    user: &'a [u8],
    service: &'a [u8],
) -> Result<(), AllocError>
    // What the caller must ensure.
    requires user { IsShort user.now }
    requires service { IsShort service.now }
    // What it does.
    ensures written { OnOk result (Writes (IsRow IsWrittenBoolean (UserauthRequest user.now service.now NoMethod)) out.old.items
        out.new.items) }
    // If it fails.
    ensures kept { OnErr result (out.new.items ≡ out.old.items) }
    ensures full { OnErr result (vec_capacity out.old < length out.old.items + payload_size
        (UserauthRequest user.now service.now NoMethod)) }
{
    put_row(
        out,
        50,
        &[
            Field::Text(user),
            Field::Text(service),
            Field::Text(b"none"),
        ],
        b"",
    )
}

pub(crate) fn password<'a>(
    out: &mut Vec<u8>,
    user: &'a [u8],
    service: &'a [u8],
    password: &'a [u8],
) -> Result<(), AllocError>
    // What the caller must ensure.
    requires user { IsShort user.now }
    requires service { IsShort service.now }
    requires password { IsShort password.now }
    // What it does.
    ensures written { OnOk result (Writes (IsRow IsWrittenBoolean (UserauthRequest user.now service.now (Password password.now None)))
        out.old.items out.new.items) }
    // If it fails.
    ensures kept { OnErr result (out.new.items ≡ out.old.items) }
    ensures full { OnErr result (vec_capacity out.old < length out.old.items + payload_size
        (UserauthRequest user.now service.now (Password password.now None))) }
{
    let fields = [
        Field::Text(user),
        Field::Text(service),
        Field::Text(b"password"),
        Field::Boolean(false),
        Field::Text(password),
    ];
    put_row(out, 50, &fields, b"")
}

pub(crate) fn new_password<'a>(
    out: &mut Vec<u8>,
    user: &'a [u8],
    service: &'a [u8],
    password: &'a [u8],
    new_password: &'a [u8],
) -> Result<(), AllocError>
    // What the caller must ensure.
    requires user { IsShort user.now }
    requires service { IsShort service.now }
    requires password { IsShort password.now }
    requires new_password { IsShort new_password.now }
    // What it does.
    ensures written { OnOk result (Writes (IsRow IsWrittenBoolean
        (UserauthRequest user.now service.now (Password password.now (Some new_password.now)))) out.old.items out.new.items) }
    // If it fails.
    ensures kept { OnErr result (out.new.items ≡ out.old.items) }
    ensures full { OnErr result (vec_capacity out.old < length out.old.items + payload_size
        (UserauthRequest user.now service.now (Password password.now (Some new_password.now)))) }
{
    let fields = [
        Field::Text(user),
        Field::Text(service),
        Field::Text(b"password"),
        Field::Boolean(true),
        Field::Text(password),
        Field::Text(new_password),
    ];
    put_row(out, 50, &fields, b"")
}

pub(crate) fn probe<'a>(
    out: &mut Vec<u8>,
    user: &'a [u8],
    service: &'a [u8],
    algorithm: &'a [u8],
    key: &'a [u8],
) -> Result<(), AllocError>
    // What the caller must ensure.
    requires user { IsShort user.now }
    requires service { IsShort service.now }
    requires algorithm { IsShort algorithm.now }
    requires key { IsShort key.now }
    // What it does.
    ensures written { OnOk result (Writes (IsRow IsWrittenBoolean
        (UserauthRequest user.now service.now (Publickey algorithm.now key.now None))) out.old.items out.new.items) }
    // If it fails.
    ensures kept { OnErr result (out.new.items ≡ out.old.items) }
    ensures full { OnErr result (vec_capacity out.old < length out.old.items + payload_size
        (UserauthRequest user.now service.now (Publickey algorithm.now key.now None))) }
{
    let fields = [
        Field::Text(user),
        Field::Text(service),
        Field::Text(b"publickey"),
        Field::Boolean(false),
        Field::Text(algorithm),
        Field::Text(key),
    ];
    put_row(out, 50, &fields, b"")
}

pub(crate) fn signed<'a>(
    out: &mut Vec<u8>,
    user: &'a [u8],
    service: &'a [u8],
    algorithm: &'a [u8],
    key: &'a [u8],
    signature: &'a [u8],
) -> Result<(), AllocError>
    // What the caller must ensure.
    requires user { IsShort user.now }
    requires service { IsShort service.now }
    requires algorithm { IsShort algorithm.now }
    requires key { IsShort key.now }
    requires signature { IsShort signature.now }
    // What it does.
    ensures written { OnOk result (Writes (IsRow IsWrittenBoolean
        (UserauthRequest user.now service.now (Publickey algorithm.now key.now (Some signature.now)))) out.old.items out.new.items) }
    // If it fails.
    ensures kept { OnErr result (out.new.items ≡ out.old.items) }
    ensures full { OnErr result (vec_capacity out.old < length out.old.items + payload_size
        (UserauthRequest user.now service.now (Publickey algorithm.now key.now (Some signature.now)))) }
{
    let fields = [
        Field::Text(user),
        Field::Text(service),
        Field::Text(b"publickey"),
        Field::Boolean(true),
        Field::Text(algorithm),
        Field::Text(key),
        Field::Text(signature),
    ];
    put_row(out, 50, &fields, b"")
}

pub(crate) fn other<'a>(
    out: &mut Vec<u8>,
    user: &'a [u8],
    service: &'a [u8],
    name: &'a [u8],
    rest: &[u8],
) -> Result<(), AllocError>
    // What the caller must ensure.
    requires other { IsOther name.now }
    requires user { IsShort user.now }
    requires service { IsShort service.now }
    requires name { IsShort name.now }
    // What it does.
    ensures written { OnOk result (Writes (IsRow IsWrittenBoolean (UserauthRequest user.now service.now (Other name.now rest.now)))
        out.old.items out.new.items) }
    // If it fails.
    ensures kept { OnErr result (out.new.items ≡ out.old.items) }
    ensures full { OnErr result (vec_capacity out.old < length out.old.items + payload_size
        (UserauthRequest user.now service.now (Other name.now rest.now))) }
{
    put_row(
        out,
        50,
        &[Field::Text(user), Field::Text(service), Field::Text(name)],
        rest,
    )
}
