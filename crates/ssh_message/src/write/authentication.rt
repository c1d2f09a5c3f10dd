// The messages of authentication (RFC 4252).

ghost use Rattle.std.specs.Prelude.{◌≡◌, OnOk, OnErr, ◌<◌, ◌+◌, length, vec_capacity};
ghost use Rattle.ssh_model.specs.Laws.Sizes.{payload_size};
ghost use Rattle.ssh_model.specs.Protocol.Wire.DataTypes.{IsWrittenBoolean};
ghost use Rattle.ssh_model.specs.Laws.Reading.{Writes};
ghost use Rattle.ssh_model.specs.Protocol.Wire.Message.{IsRow, UserauthRequest, UserauthFailure, UserauthSuccess, UserauthBanner};
ghost use Rattle.ssh_model.specs.Protocol.Wire.Message.{UserauthPkOk};
ghost use Rattle.ssh_types.specs.Values.{names, names_text};
ghost use Rattle.ssh_message.specs.Meaning.{method_meaning};
ghost use Rattle.ssh_message.specs.Written.{IsShort, MethodFits};

use crate::message::Method;
use crate::write::field::Field;
use crate::write::method;
use crate::write::row::put_row;
use ssh_types::NameList;
use std::alloc::AllocError;

pub(crate) fn request<'a>(
    out: &mut Vec<u8>,
    user: &'a [u8],
    service: &'a [u8],
    method: &Method<'a>,
) -> Result<(), AllocError>
    // What the caller must ensure.
    requires user { IsShort user.now }
    requires service { IsShort service.now }
    requires method { MethodFits method.now }
    // What it does.
    ensures written { OnOk result (Writes (IsRow IsWrittenBoolean (UserauthRequest user.now service.now (method_meaning method.now)))
        out.old.items out.new.items) }
    // If it fails.
    ensures kept { OnErr result (out.new.items ≡ out.old.items) }
    ensures full { OnErr result (vec_capacity out.old < length out.old.items + payload_size
        (UserauthRequest user.now service.now (method_meaning method.now))) }
{
    match *method {
        Method::None => method::none(out, user, service),
        Method::Password {
            password,
            new_password: None,
        } => method::password(out, user, service, password),
        Method::Password {
            password,
            new_password: Some(new_password),
        } => method::new_password(out, user, service, password, new_password),
        Method::Publickey {
            algorithm,
            key,
            signature: None,
        } => method::probe(out, user, service, algorithm, key),
        Method::Publickey {
            algorithm,
            key,
            signature: Some(signature),
        } => method::signed(out, user, service, algorithm, key, signature),
        Method::Other { name, rest } => method::other(out, user, service, name, rest),
    }
}

pub(crate) fn failure(
    out: &mut Vec<u8>,
    methods: &NameList<'_>,
    partial: bool,
) -> Result<(), AllocError>
    requires { IsShort (names_text methods.now) }
    ensures written { OnOk result (Writes (IsRow IsWrittenBoolean (UserauthFailure (names methods.now) partial)) out.old.items
        out.new.items) }
    ensures kept { OnErr result (out.new.items ≡ out.old.items) }
    ensures full { OnErr result (vec_capacity out.old < length out.old.items + payload_size (UserauthFailure (names methods.now) partial)) }
{
    put_row(
        out,
        51,
        &[Field::Names(*methods), Field::Boolean(partial)],
        b"",
    )
}

pub(crate) fn success(out: &mut Vec<u8>) -> Result<(), AllocError>
    ensures written { OnOk result (Writes (IsRow IsWrittenBoolean UserauthSuccess) out.old.items out.new.items) }
    ensures kept { OnErr result (out.new.items ≡ out.old.items) }
    ensures full { OnErr result (vec_capacity out.old < length out.old.items + payload_size UserauthSuccess) }
{
    put_row(out, 52, &[], b"")
}

pub(crate) fn banner<'a>(
    out: &mut Vec<u8>,
    message: &'a [u8],
    language: &'a [u8],
) -> Result<(), AllocError>
    // What the caller must ensure.
    requires message { IsShort message.now }
    requires language { IsShort language.now }
    // What it does.
    ensures written { OnOk result (Writes (IsRow IsWrittenBoolean (UserauthBanner message.now language.now)) out.old.items out.new.items) }
    // If it fails.
    ensures kept { OnErr result (out.new.items ≡ out.old.items) }
    ensures full { OnErr result (vec_capacity out.old < length out.old.items + payload_size (UserauthBanner message.now language.now)) }
{
    put_row(out, 53, &[Field::Text(message), Field::Text(language)], b"")
}

pub(crate) fn pk_ok<'a>(
    out: &mut Vec<u8>,
    algorithm: &'a [u8],
    key: &'a [u8],
) -> Result<(), AllocError>
    // What the caller must ensure.
    requires algorithm { IsShort algorithm.now }
    requires key { IsShort key.now }
    // What it does.
    ensures written { OnOk result (Writes (IsRow IsWrittenBoolean (UserauthPkOk algorithm.now key.now)) out.old.items out.new.items) }
    // If it fails.
    ensures kept { OnErr result (out.new.items ≡ out.old.items) }
    ensures full { OnErr result (vec_capacity out.old < length out.old.items + payload_size (UserauthPkOk algorithm.now key.now)) }
{
    put_row(out, 60, &[Field::Text(algorithm), Field::Text(key)], b"")
}
