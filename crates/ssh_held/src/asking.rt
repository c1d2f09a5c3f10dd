//! The request for authentication that a payload is, and what it asks a program.

ghost use Rattle.std.specs.Prelude.{◌≡◌, Bool, IfOk, IfSome, IsSomeAnd, List, codes, false, true, ℕ};
ghost use Rattle.ssh_model.specs.Protocol.Wire.Message.{IsPayload, Method as ModelMethod, Msg.UserauthRequest};
ghost use Rattle.ssh_message.specs.Meaning.{meaning, method_meaning};
ghost use Rattle.std.specs.Option.{option_map};
ghost use Rattle.ssh_auth.specs.Texts.{IsShortText, text_of};
ghost use Rattle.ssh_held.specs.Asking.{RequestFits, request_of, value_of};
ghost use Rattle.ssh_held.specs.Book.{asks, is_about, is_next, is_on_signature, is_over};

use crate::book::{Asked, Verdicts};
use crate::known_algorithms::KnowsAlgorithms;
use crate::texts::text;
use ssh_auth::{SignedText, UserJudge, put_signed_text};
use ssh_message::{Message, Method, decode};
use ssh_types::bounds::{LONGEST_ALGORITHM_NAME, LONGEST_USER_KEY};
use std::alloc::{AllocError, Global};

// The service that a user is authenticated for (RFC 4252 section 5).
const CONNECTION: &[u8] = b"ssh-connection";

/// A request for authentication (RFC 4252 section 5).
#[derive(Clone, Copy)]
pub struct Request<'a> {
    /// The name of the user.
    pub user: &'a [u8],
    /// The service that is asked for.
    pub service: &'a [u8],
    /// How the user is to be authenticated.
    pub method: Method<'a>,
}

/// The request for authentication that the payload is, if it is one. Its texts are slices of the payload.
pub fn request_in(payload: &[u8]) -> Option<Request<'_>>
    ensures found { IfSome result (λ request. IsPayload false (UserauthRequest request.user.now request.service.now
        (method_meaning request.method)) payload.now) }
    ensures only { (probing : Bool) (user service : List ℕ) (method : ModelMethod) →
        IsPayload probing (UserauthRequest user service method) payload.now →
        IsSomeAnd result (λ request. value_of request ≡ record { user = user; service = service; method = method }) }
    ensures fits { IfSome result (λ request. RequestFits request) }
{
    match decode(false, payload) {
        Ok(message) => request_of(&message),
        Err(_) => None,
    }
}

// The request that a message is.
fn request_of<'a>(message: &Message<'a>) -> Option<Request<'a>>
    ensures { option_map value_of result ≡ request_of (meaning message.now) }
{
    match *message {
        Message::UserauthRequest {
            user,
            service,
            method,
        } => Some(Request {
            user,
            service,
            method,
        }),
        _ => None,
    }
}

impl Request<'_> {
    /// Tests whether it asks a program. One that every judge fails asks nothing: for another service, by another method, to change a
    /// password, or with a key or an algorithm name that is too long.
    pub fn asks(&self) -> bool
        ensures { result ≡ asks self.now.service.now (method_meaning self.now.method) }
    {
        self.service == CONNECTION && is_open(&self.method)
    }

    /// The first question that it asks, if it asks a program.
    ///
    /// # Errors
    ///
    /// Only if memory is refused.
    pub fn question(&self, alloc: Global) -> Result<Asked, AllocError>
        ensures { IfOk result (λ asked. asks self.now.service.now (method_meaning self.now.method) ≡ true →
            is_about self.now.user.now (method_meaning self.now.method) asked ≡ true) }
    {
        let user = text(alloc, self.user)?;
        match self.method {
            Method::Password { password, .. } => Ok(Asked::Password(user, text(alloc, password)?)),
            Method::Publickey { algorithm, key, .. } => {
                Ok(Asked::Key(user, text(alloc, algorithm)?, text(alloc, key)?))
            }
            _ => Ok(Asked::Admission(user)),
        }
    }

    /// The question that it asks next, if it asks a program that has said this so far. Where only its signature is missing, that is asked
    /// about, over the text that is signed in the session of this id (RFC 4252 section 7). Otherwise it is `question`.
    ///
    /// # Errors
    ///
    /// Only if memory is refused.
    pub fn next_question<S: UserJudge + KnowsAlgorithms + Copy + Drop>(
        &self,
        alloc: Global,
        session: &[u8; 32],
        book: &Verdicts<S>,
    ) -> Result<Asked, AllocError>
        requires { RequestFits self.now }
        ensures { IfOk result (λ asked. asks self.now.service.now (method_meaning self.now.method) ≡ true →
            is_next (S.knows book.now.signatures) book.now.list.items session.now self.now.user.now (method_meaning self.now.method)
            asked ≡ true) }
    {
        if !book.awaits_signature(self.user, &self.method) {
            return self.question(alloc);
        }
        match self.method {
            Method::Publickey {
                algorithm,
                key,
                signature: Some(signature),
            } => {
                let signed = SignedText {
                    session,
                    user: self.user,
                    service: CONNECTION,
                    algorithm,
                    key,
                };
                signature_question(alloc, &signed, signature)
            }
            _ => self.question(alloc),
        }
    }
}

// The question on the signature of this text.
fn signature_question(
    alloc: Global,
    signed: &SignedText<'_>,
    signature: &[u8],
) -> Result<Asked, AllocError>
    requires { IsShortText signed.now }
    ensures signature { IfOk result (λ asked.
        is_on_signature signed.now.algorithm.now signed.now.key.now signature.now asked ≡ true) }
    ensures over { IfOk result (λ asked. is_over (text_of signed.now) asked ≡ true) }
{
    let mut over = Vec::new(alloc);
    put_signed_text(&mut over, signed)?;
    Ok(Asked::Signature {
        algorithm: text(alloc, signed.algorithm)?,
        key: text(alloc, signed.key)?,
        text: over,
        signature: text(alloc, signature)?,
    })
}

// Tests whether a request with this method for the right service asks a program.
fn is_open(method: &Method<'_>) -> bool
    ensures { result ≡ asks (codes "ssh-connection") (method_meaning method.now) }
{
    match *method {
        Method::None => true,
        Method::Password { new_password, .. } => new_password.is_none(),
        Method::Publickey { algorithm, key, .. } => {
            key.len() <= LONGEST_USER_KEY && algorithm.len() <= LONGEST_ALGORITHM_NAME
        }
        Method::Other { .. } => false,
    }
}
