//! The requests of a client.

ghost use Rattle.std.specs.Prelude.{◌≡◌, ◌≤◌, ◌+◌, IfOk, None, Some, codes};
ghost use Rattle.ssh_model.specs.Protocol.Bounds.{longest_payload};
ghost use Rattle.ssh_model.specs.Protocol.Wire.Message.{Method.NoMethod, Method.Password, Method.Publickey};
ghost use Rattle.ssh_model.specs.Laws.Sizes.{payload_size};
ghost use Rattle.ssh_model.specs.Protocol.Authentication.Requests.{signed_text};
ghost use Rattle.ssh_model.specs.State.Authentication.Kept.{request_by};
ghost use Rattle.ssh_message.specs.Meaning.{meaning, method_meaning};
ghost use Rattle.ssh_message.specs.Written.{Fits};
ghost use Rattle.ssh_auth.specs.Asking.{short_signature};

use crate::configured::CONNECTION;
use crate::parts::UserSigner;
use crate::signature::Signature;
use crate::signed_text::{SignedText, request_text};
use ssh_message::{Message, Method};
use std::alloc::{AllocError, Global};
use std::marker::Model;

/// A request for the service `ssh-connection`, as a client sends it (RFC 4252 section 5). Its user, password and key are slices of the ask.
#[derive(Drop)]
pub struct UserRequest<'a> {
    user: &'a [u8],
    method: RequestMethod<'a>,
}

impl<'a> Model for UserRequest<'a> {
    ghost use Rattle.std.specs.Prelude.{◌≤◌};
    ghost use Rattle.ssh_model.specs.Protocol.Bounds.{longest_payload};
    ghost use Rattle.ssh_model.specs.Protocol.Wire.Message.{Msg};
    ghost use Rattle.ssh_model.specs.Laws.Sizes.{payload_size};
    ghost use Rattle.ssh_model.specs.State.Authentication.Kept.{request_by};
    ghost use Rattle.ssh_auth.specs.Asking.{method_in};

    ghost Value = { Msg };

    ghost view = { λ r. request_by r.user.now (method_in r.method) };

    ghost invariant = { λ r. payload_size (request_by r.user.now (method_in r.method)) ≤ longest_payload };
}

#[derive(Drop)]
enum RequestMethod<'a> {
    None,
    Password(&'a [u8]),
    Probe {
        algorithm: &'a [u8],
        key: &'a [u8],
    },
    Signed {
        algorithm: &'a [u8],
        key: &'a [u8],
        signature: Signature,
    },
}

impl<'a> UserRequest<'a> {
    /// The message to be sent. It fits, and its payload has at most 34,000 bytes.
    pub fn message(&self) -> Message<'_>
        ensures message { meaning result ≡ self.now }
        ensures fits { Fits result }
        ensures short { payload_size self.now ≤ longest_payload }
    {
        Message::UserauthRequest {
            user: self.user,
            service: CONNECTION,
            method: self.method.as_method(),
        }
    }

    // By `none`.
    pub(crate) fn none(user: &'a [u8]) -> UserRequest<'a>
        requires { payload_size (request_by user.now NoMethod) ≤ longest_payload }
        ensures { result ≡ request_by user.now NoMethod }
    {
        UserRequest {
            user,
            method: RequestMethod::None,
        }
    }

    // By a password.
    pub(crate) fn password(user: &'a [u8], password: &'a [u8]) -> UserRequest<'a>
        requires { payload_size (request_by user.now (Password password.now None)) ≤ longest_payload }
        ensures { result ≡ request_by user.now (Password password.now None) }
    {
        UserRequest {
            user,
            method: RequestMethod::Password(password),
        }
    }

    // To learn whether a key would do.
    pub(crate) fn probe(user: &'a [u8], algorithm: &'a [u8], key: &'a [u8]) -> UserRequest<'a>
        requires { payload_size (request_by user.now (Publickey algorithm.now key.now None)) ≤ longest_payload }
        ensures { result ≡ request_by user.now (Publickey algorithm.now key.now None) }
    {
        UserRequest {
            user,
            method: RequestMethod::Probe { algorithm, key },
        }
    }

    // By a signature. It fails only if memory is refused for the text to be signed.
    pub(crate) fn signed<S: UserSigner>(
        alloc: Global,
        session: &[u8; 32],
        signer: &S,
        user: &'a [u8],
        algorithm: &'a [u8],
        key: &'a [u8],
    ) -> Result<UserRequest<'a>, AllocError>
        requires { payload_size (request_by user.now (Publickey algorithm.now key.now None)) + 4100 ≤ longest_payload }
        ensures { IfOk result (λ request. request ≡ request_by user.now
            (Publickey algorithm.now key.now (Some
            (short_signature (S.signature_of signer.now) user.now algorithm.now key.now
            (signed_text session.now user.now (codes "ssh-connection") algorithm.now key.now))))) }
    {
        let text = SignedText::for_connection(session, user, algorithm, key);
        let bytes = request_text(alloc, &text)?;
        let signature = Signature::of(signer, user, algorithm, key, &bytes);
        Ok(UserRequest {
            user,
            method: RequestMethod::Signed {
                algorithm,
                key,
                signature,
            },
        })
    }
}

impl RequestMethod<'_> {
    ghost use Rattle.std.specs.Prelude.{◌≡◌};
    ghost use Rattle.ssh_auth.specs.Asking.{method_in};

    fn as_method(&self) -> Method<'_>
        ensures { method_meaning result ≡ method_in self.now }
    {
        match self {
            RequestMethod::None => Method::None,
            RequestMethod::Password(password) => Method::Password {
                password,
                new_password: None,
            },
            RequestMethod::Probe { algorithm, key } => Method::Publickey {
                algorithm,
                key,
                signature: None,
            },
            RequestMethod::Signed {
                algorithm,
                key,
                signature,
            } => Method::Publickey {
                algorithm,
                key,
                signature: Some(signature.as_bytes()),
            },
        }
    }
}
