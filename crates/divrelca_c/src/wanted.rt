//! What an end asks its program, for C.

ghost use Rattle.std.specs.Prelude.{◌≡◌};
ghost use Rattle.divrelca_c.specs.Wanted.{host_shown, nothing_asked, request_shown, shown, shown_in, signature_shown};
ghost use Rattle.ssh_held.specs.Hosts.{signed_by};
ghost use Rattle.ssh_message.specs.Meaning.{method_meaning};

use ssh_held::{HostKey, HostSignature, Request};
use ssh_message::Method;

/// What an end asks its program. Which fields mean something depends on `kind`; the others have no bytes.
#[repr(C)]
#[derive(Clone, Copy, Drop)]
pub struct DvWanted<'a> {
    pub kind: u32,
    /// The user's name.
    pub user: &'a [u8],
    /// The algorithm of the key.
    pub algorithm: &'a [u8],
    /// The password, or the key.
    pub text: &'a [u8],
    /// The hash that a host signed.
    pub hash: &'a [u8],
    /// The signature.
    pub signature: &'a [u8],
}

const NOTHING: u32 = 0;

const ADMISSION: u32 = 1;

const PASSWORD: u32 = 2;

const KEY: u32 = 3;

const HOST_KEY: u32 = 4;

const SIGNATURE: u32 = 5;

const HOST_SIGNATURE: u32 = 6;

/// It asks nothing.
pub fn nothing_wanted<'a>() -> DvWanted<'a>
    ensures { shown_in result ≡ nothing_asked }
{
    wanted(NOTHING, b"", b"", b"")
}

/// A server asks about this request: about its signature if that is what is missing, and else about the password or the key.
pub fn wanted_request<'a>(request: &Request<'a>, awaits_signature: bool) -> DvWanted<'a>
    ensures { shown_in result ≡ request_shown awaits_signature request.now.user.now (method_meaning request.now.method) }
{
    match request.method {
        Method::None => wanted(ADMISSION, request.user, b"", b""),
        Method::Password {
            password,
            new_password: None,
        } => wanted(PASSWORD, request.user, b"", password),
        Method::Publickey {
            algorithm,
            key,
            signature: Some(signature),
        } if awaits_signature => wanted_signature(request.user, algorithm, key, signature),
        Method::Publickey { algorithm, key, .. } => wanted(KEY, request.user, algorithm, key),
        _ => nothing_wanted(),
    }
}

fn wanted_signature<'a>(
    user: &'a [u8],
    algorithm: &'a [u8],
    key: &'a [u8],
    signature: &'a [u8],
) -> DvWanted<'a>
    ensures { shown_in result ≡ signature_shown user.now algorithm.now key.now signature.now }
{
    DvWanted {
        signature,
        ..wanted(SIGNATURE, user, algorithm, key)
    }
}

/// A client asks about this host key, or about a signature by it.
pub fn wanted_host<'a>(host: &HostKey<'a>) -> DvWanted<'a>
    ensures { shown_in result ≡ host_shown host.now.algorithm.now host.now.key.now (signed_by host.now) }
{
    match host.signed {
        Some(HostSignature { hash, signature }) => DvWanted {
            kind: HOST_SIGNATURE,
            user: b"",
            algorithm: host.algorithm,
            text: host.key,
            hash: hash.as_slice(),
            signature,
        },
        None => wanted(HOST_KEY, b"", host.algorithm, host.key),
    }
}

fn wanted<'a>(kind: u32, user: &'a [u8], algorithm: &'a [u8], text: &'a [u8]) -> DvWanted<'a>
    ensures { shown_in result ≡ shown kind user.now algorithm.now text.now }
{
    DvWanted {
        kind,
        user,
        algorithm,
        text,
        hash: b"",
        signature: b"",
    }
}
