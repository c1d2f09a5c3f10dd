//! The client of authentication.

ghost use Rattle.std.specs.Prelude.{◌≡◌, ◌≤◌, ◌<◌, ◌+◌, ◌^◌, false, true, IfErr, IfOk, OnErr, OnOk, None, Some, is_some};
ghost use Rattle.ssh_model.specs.Protocol.Bounds.{longest_payload};
ghost use Rattle.ssh_model.specs.Protocol.Wire.Message.{message_number};
ghost use Rattle.ssh_model.specs.Protocol.Sessions.Refusals.{first_refusal};
ghost use Rattle.ssh_model.specs.Protocol.Sessions.Sizes as sizes;
ghost use Rattle.ssh_model.specs.Protocol.Authentication.Rows as sizes_of;
ghost use Rattle.ssh_model.specs.State.Authentication.Kept.{client_checks, client_takes, is_key_probe};
ghost use Rattle.ssh_model.specs.State.Authentication.Kept.{new_client, opened_client};
ghost use Rattle.ssh_message.specs.Meaning.{meaning};
ghost use Rattle.ssh_auth.specs.Asking.{ClientAnswers, ClientAsks, ClientRefuses, ask_of, ask_size};
ghost use Rattle.ssh_model.specs.declared.refusal.Refusal.TheVariants as refusals;

use crate::answer::ClientAnswer;
use crate::ask::UserAsk;
use crate::configured::{CONNECTION, PASSWORD, PUBLICKEY};
use crate::number::is_unassigned;
use crate::parts::UserSigner;
use crate::progress::Progress;
use crate::request::UserRequest;
use ssh_message::Message;
use ssh_types::bounds::LONGEST_PAYLOAD;
use ssh_types::{AskRefusal, CallError, Refusal, RequestKind};
use std::alloc::Global;
use std::marker::Model;

// The most bytes of a signature.
const MOST_SIGNATURE_BYTES: u128 = 4_096;

/// The authentication of a client's user (RFC 4252). It keeps whether SERVICE_ACCEPT was taken, what an outstanding request
/// showed, and whether USERAUTH_SUCCESS was taken.
#[derive(Drop)]
pub struct AuthClient {
    alloc: Global,
    // What the request showed that is not answered yet.
    outstanding: Option<RequestKind>,
    progress: Progress,
}

impl Model for AuthClient {
    ghost use Rattle.ssh_model.specs.State.Authentication.Kept.{Client};
    ghost use Rattle.ssh_auth.specs.Asking.{client_of};

    ghost Value = { Client };

    ghost view = { λ c. client_of c.progress.opened c.outstanding c.progress.authenticated };
}

impl AuthClient {
    /// A client that took no SERVICE_ACCEPT. This needs no memory; `ask` needs some for a text to be signed.
    pub fn new(alloc: Global) -> AuthClient
        ensures { result ≡ new_client }
    {
        AuthClient {
            alloc,
            outstanding: None,
            progress: Progress::new(),
        }
    }

    /// Call it once SERVICE_ACCEPT was taken for `ssh-userauth` (RFC 4253 section 10). It needs no memory.
    pub fn open(&mut self)
        ensures { self.new ≡ opened_client self.old }
    {
        self.progress.opened = true;
    }

    /// Tests whether a message of this number, 50 to 79, may come now outside a key exchange:
    ///
    /// - USERAUTH_FAILURE and USERAUTH_SUCCESS while a request is outstanding;
    /// - USERAUTH_BANNER from SERVICE_ACCEPT until the user is let in;
    /// - USERAUTH_PK_OK while a key probe is outstanding;
    /// - numbers that no message has.
    ///
    /// It needs no memory.
    pub fn may_take(&self, number: u8) -> bool
        ensures { result ≡ client_takes self.now number }
    {
        ((number == 51 || number == 52) && self.is_outstanding())
            || (number == 53 && self.progress.opened && !self.progress.authenticated)
            || (number == 60 && self.probing())
            || is_unassigned(number)
    }

    /// Whether a key probe is outstanding (RFC 4252 section 7), as `decode` of `ssh_message` asks.
    /// It needs no memory.
    pub fn probing(&self) -> bool
        ensures { result ≡ is_key_probe self.now.outstanding }
    {
        self.outstanding == Some(RequestKind::Probe)
    }

    // Whether a request is outstanding.
    fn is_outstanding(&self) -> bool
        ensures { result ≡ is_some self.now.outstanding }
    {
        self.outstanding.is_some()
    }

    /// Takes a message of authentication, and answers what has to be told. It needs no memory. The law `laws::client_turns` says what this
    /// means for the history of a session.
    ///
    /// # Errors
    ///
    /// `Unexpected` if the message may not come here; the client is then as before.
    #[tactic(auto, using(crate::proofs::Clients::taken, crate::proofs::Clients::failure_row, crate::proofs::Clients::success_row, crate::proofs::Clients::banner_row, crate::proofs::Clients::key_row))]
    pub fn take(&mut self, message: &Message<'_>) -> Result<ClientAnswer, Refusal>
        ensures answered { IfOk result (λ answer. ClientAnswers self.old (meaning message.now) answer self.new) }
        ensures unexpected { OnErr result (client_takes self.old (message_number (meaning message.now)) ≡ false) }
        ensures refused { IfErr result (λ refusal. refusal ≡ refusals.Unexpected) }
        ensures kept { OnErr result (self.new ≡ self.old) }
    {
        if !self.may_take(message.number()) {
            return Err(Refusal::Unexpected);
        }
        match *message {
            Message::UserauthFailure { .. } => {
                self.outstanding = None;
                Ok(ClientAnswer::Failed)
            }
            Message::UserauthSuccess => Ok(ClientAnswer::Authenticated(self.let_in())),
            Message::UserauthBanner { .. } => Ok(ClientAnswer::Banner),
            Message::UserauthPkOk { .. } => {
                self.outstanding = None;
                Ok(ClientAnswer::KeyOk)
            }
            Message::Unknown(_) => Ok(ClientAnswer::Unimplemented),
            _ => unreachable!(),
        }
    }

    // The user is let in, by the request that is outstanding.
    fn let_in(&mut self) -> RequestKind
        requires { is_some self.old.outstanding ≡ true }
        ensures answered { self.old.outstanding ≡ Some result }
        ensures new { self.new ≡ record self.old { outstanding = None; authenticated = true } }
    {
        self.progress.authenticated = true;
        self.outstanding.take().unwrap()
    }

    /// Makes the request that is asked for, with the session id of the connection (RFC 4253 section 7.2). It is then outstanding. Memory is
    /// needed only for the text of a signature, if one is made (`put_signed_text`). The law `laws::client_ask_turns` says what this means
    /// for the history of a session.
    ///
    /// # Errors
    ///
    /// The client is then as before.
    ///
    /// - `Refused`, the first of these that holds. `NotYet`: SERVICE_ACCEPT was not taken. `Busy`: a request is outstanding. `Ended`:
    ///   USERAUTH_SUCCESS was taken. `TooLong`: the payload would have over 34,000 bytes, counting 4,096 bytes for the signature if it is
    ///   signed.
    /// - `Memory`: memory was refused for the text to be signed.
    #[tactic(auto, using(crate::proofs::Clients::none_row, crate::proofs::Clients::password_row, crate::proofs::Clients::probe_row, crate::proofs::Clients::sign_row))]
    pub fn ask<'a, S: UserSigner>(
        &mut self,
        session: &[u8; 32],
        signer: &S,
        ask: &UserAsk<'a>,
    ) -> Result<UserRequest<'a>, CallError<AskRefusal>>
        ensures sent { IfOk result (λ request. ClientAsks (S.signature_of signer.now) session.now self.old (ask_of ask.now) request
            self.new) }
        ensures refused { IfErr result (λ error. ClientRefuses self.old (ask_of ask.now) error) }
        ensures kept { OnErr result (self.new ≡ self.old) }
    {
        self.check(ask)?;
        match *ask {
            UserAsk::None { user } => {
                self.outstanding = Some(RequestKind::Nothing);
                Ok(UserRequest::none(user))
            }
            UserAsk::Password { user, password } => {
                self.outstanding = Some(RequestKind::Password);
                Ok(UserRequest::password(user, password))
            }
            UserAsk::Probe {
                user,
                algorithm,
                key,
            } => {
                self.outstanding = Some(RequestKind::Probe);
                Ok(UserRequest::probe(user, algorithm, key))
            }
            UserAsk::Sign {
                user,
                algorithm,
                key,
            } => {
                let request = UserRequest::signed(
                    self.alloc, session, signer, user, algorithm, key,
                )?;
                self.outstanding = Some(RequestKind::Signature);
                Ok(request)
            }
        }
    }

    // The checks of an ask, in their order.
    #[tactic(auto, using(crate::proofs::Asks::checks_are))]
    fn check(&self, ask: &UserAsk<'_>) -> Result<(), AskRefusal>
        ensures fine { OnOk result (first_refusal (client_checks self.now (ask_of ask.now)) ≡ None) }
        ensures short { OnOk result (ask_size ask.now ≤ longest_payload) }
        ensures refused { IfErr result (λ refusal. first_refusal (client_checks self.now (ask_of ask.now))
            ≡ Some refusal) }
    {
        if !self.progress.opened {
            return Err(AskRefusal::NotYet);
        }
        if self.is_outstanding() {
            return Err(AskRefusal::Busy);
        }
        if self.progress.authenticated {
            return Err(AskRefusal::Ended);
        }
        if payload_size(ask) > LONGEST_PAYLOAD as u128 {
            return Err(AskRefusal::TooLong);
        }
        Ok(())
    }
}

// The bytes of the payload, with a signature of 4,096 bytes if it is signed.
fn payload_size(ask: &UserAsk<'_>) -> u128
    ensures { result ≡ ask_size ask.now }
{
    match *ask {
        UserAsk::None { user } => request_size(user, b"none"),
        UserAsk::Password { user, password } => {
            request_size(user, PASSWORD) + 1 + text_size(password)
        }
        UserAsk::Probe {
            user,
            algorithm,
            key,
        } => probe_size(user, algorithm, key),
        UserAsk::Sign {
            user,
            algorithm,
            key,
        } => probe_size(user, algorithm, key) + 4 + MOST_SIGNATURE_BYTES,
    }
}

fn probe_size(user: &[u8], algorithm: &[u8], key: &[u8]) -> u128
    ensures size { result ≡ sizes_of.probe_size user.now algorithm.now key.now }
    ensures most { result < 2 ^ 68 }
{
    request_size(user, PUBLICKEY) + 1 + text_size(algorithm) + text_size(key)
}

// The bytes up to the name of the method.
fn request_size(user: &[u8], method: &[u8]) -> u128
    ensures size { result ≡ sizes.request_size user.now method.now }
    ensures most { result < 2 ^ 67 }
{
    1 + text_size(user) + text_size(CONNECTION) + text_size(method)
}

// The bytes of a string.
fn text_size(text: &[u8]) -> u128
    ensures size { result ≡ sizes.string_size text.now }
    ensures most { result < 2 ^ 65 }
{
    4 + text.len() as u128
}
