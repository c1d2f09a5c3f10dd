//! The server of authentication.

ghost use Rattle.std.specs.Prelude.{◌≡◌, ◌<◌, ◌≤◌, false, true, IfErr, IfOk, IfSome, OnErr, OnOk, length};
ghost use Rattle.std.specs.Option.{option_map};
ghost use Rattle.ssh_model.specs.Protocol.Bounds.{longest_payload};
ghost use Rattle.ssh_model.specs.Laws.Bounds.{longest_methods};
ghost use Rattle.ssh_model.specs.Protocol.Wire.Message as model;
ghost use Rattle.ssh_model.specs.State.Authentication.Kept.{new_server, opened_server, server_takes};
ghost use Rattle.ssh_types.specs.Names.{names_of};
ghost use Rattle.ssh_types.specs.Values.{names, names_text};
ghost use Rattle.ssh_message.specs.Meaning.{meaning, method_meaning};
ghost use Rattle.ssh_message.specs.Written.{Fits, IsShort};
ghost use Rattle.ssh_model.specs.Protocol.Wire.DataTypes.{IsNameText};
ghost use Rattle.ssh_model.specs.Laws.Sizes.{payload_size};
ghost use Rattle.ssh_auth.specs.Serving.{IsJudged, IsShortAnswer, LacksRoom, ServerAnswers, ServerRefuses, reply_by, settled};
ghost use Rattle.ssh_auth.specs.Texts.{longest_text};
ghost use Rattle.ssh_auth.specs.declared.answer.ServerAnswer.TheVariants as answers;
ghost use Rattle.ssh_model.specs.declared.refusal.Refusal.TheVariants as refusals;

use crate::answer::ServerAnswer;
use crate::judging::{Request, judge_request};
use crate::number::is_unassigned;
use crate::parts::UserJudge;
use crate::progress::Progress;
use crate::signed_text::LONGEST_TEXT;
use ssh_message::Message;
use ssh_types::{CallError, NameList, Refusal};
use std::alloc::{AllocError, Global};
use std::marker::Model;

/// The authentication of a user at a server (RFC 4252). It keeps whether SERVICE_ACCEPT was sent, how many requests
/// failed, and whether USERAUTH_SUCCESS was sent. It also keeps how many requests may fail and the methods that it
/// names.
///
/// From `new` on it has room for the text that a signature covers, of each request that comes in one packet.
#[derive(Drop)]
pub struct AuthServer {
    tries: u32,
    methods: Vec<u8>,
    failures: u32,
    progress: Progress,
    // The text that the last signature covers.
    text: Vec<u8>,
}

impl Model for AuthServer {
    ghost use Rattle.std.specs.Prelude.{vec_capacity};
    ghost use Rattle.ssh_auth.specs.Serving.{IsMade, Server, server_of};

    ghost Value = { Server };

    ghost view = { λ s. server_of s.tries s.methods.items s.progress.opened s.failures s.progress.authenticated };

    ghost invariant = { λ s. IsMade s.methods.items (vec_capacity s.text) };
}

impl AuthServer {
    /// A server that lets `tries` requests fail and names these methods (RFC 4252 section 5.1). SERVICE_ACCEPT was
    /// not sent.
    ///
    /// The text of the methods has at most 33,994 bytes, so that a USERAUTH_FAILURE has at most 34,000.
    ///
    /// # Errors
    ///
    /// Only if memory is refused: for a copy of the methods, or for the room of 35,036 bytes in which the text of a signature is made.
    pub fn new(alloc: Global, tries: u32, methods: &NameList<'_>) -> Result<AuthServer, AllocError>
        requires { length (names_text methods.now) ≤ longest_methods }
        ensures tries { IfOk result (λ server. server.tries ≡ tries) }
        ensures methods { IfOk result (λ server. server.methods ≡ names methods.now) }
        ensures kept { IfOk result (λ server. server.kept ≡ new_server) }
    {
        let methods = methods.as_bytes().to_vec(alloc)?;
        Ok(AuthServer {
            tries,
            methods,
            failures: 0,
            progress: Progress::new(),
            text: Vec::with_capacity(alloc, LONGEST_TEXT)?,
        })
    }

    /// Call it once SERVICE_ACCEPT was sent for `ssh-userauth` (RFC 4253 section 10). It needs no memory.
    pub fn open(&mut self)
        ensures { self.new ≡ record self.old { kept = opened_server self.old.kept } }
    {
        self.progress.opened = true;
    }

    /// Tests whether a message of this number, 50 to 79, may come now outside a key exchange: USERAUTH_REQUEST once
    /// SERVICE_ACCEPT was sent, and numbers that no message has. It needs no memory.
    pub fn may_take(&self, number: u8) -> bool
        ensures { result ≡ server_takes self.now.kept number }
    {
        (number == 50 && self.progress.opened) || is_unassigned(number)
    }

    /// Whether a key probe is outstanding (RFC 4252 section 7), as `decode` of `ssh_message` asks.
    /// A server sends none.
    pub fn probing(&self) -> bool
        ensures { result ≡ false }
    {
        false
    }

    /// The methods that the server names in each USERAUTH_FAILURE.
    pub fn methods(&self) -> NameList<'_>
        ensures names { names result ≡ self.now.methods }
        ensures text { IsNameText (names result) (names_text result) }
        ensures short { length (names_text result) ≤ longest_methods }
    {
        list_in(&self.methods)
    }

    /// The message that has to be sent for an answer of `take`. It is `None` if nothing is sent, or UNIMPLEMENTED. The message fits, and
    /// its payload has at most 34,000 bytes. The call needs no memory.
    pub fn message<'a>(&'a self, answer: &ServerAnswer<'a>) -> Option<Message<'a>>
        requires { IsShortAnswer answer.now }
        ensures message { option_map meaning result ≡ reply_by self.now.methods answer.now }
        ensures fits { IfSome result (λ message. Fits message) }
        ensures short { IfSome result (λ message. payload_size (meaning message) ≤ longest_payload) }
    {
        match *answer {
            ServerAnswer::Ignored | ServerAnswer::Unimplemented => None,
            ServerAnswer::Accepted => Some(Message::UserauthSuccess),
            ServerAnswer::KeyOk { algorithm, key } => {
                Some(Message::UserauthPkOk { algorithm, key })
            }
            ServerAnswer::Failed => Some(Message::UserauthFailure {
                methods: self.methods(),
                partial: false,
            }),
        }
    }

    /// Takes a message of authentication, with the session id of the connection (RFC 4253 section 7.2), and answers what has to be sent and
    /// told. The message has to fit, as each message from `decode` does.
    ///
    /// Once USERAUTH_SUCCESS was sent, a request is ignored. Before that, it is accepted if its service is `ssh-connection` and the judge
    /// accepts it. It may be by `none`, by a password that is not to be changed, or by a signature of a known key. The last two need the
    /// server to name the method. A key probe for a known key is answered by `KeyOk`. Every other request fails and is counted. A key over
    /// 16,384 bytes, or one under a name over 64 bytes, is not known. The law `laws::server_turns` says what this means for the history of
    /// a session.
    ///
    /// # Errors
    ///
    /// The server is then as before.
    ///
    /// - `Refused(Unexpected)`: the message may not come here.
    /// - `Refused(TooManyTries)`: a request fails, and as many failed before as may fail.
    /// - `Memory`: the text that a signature covers is longer than that of any request which comes in one packet, and memory was refused
    ///   for it. The request was signed and by a known key.
    pub fn take<'a, J: UserJudge>(
        &mut self,
        session: &[u8; 32],
        judge: &J,
        message: &Message<'a>,
    ) -> Result<ServerAnswer<'a>, CallError<Refusal>>
        // What the caller must ensure.
        requires { Fits message.now }
        // What it does.
        ensures answered { IfOk result (λ answer. ServerAnswers (J.verdicts judge.now) session.now self.old (meaning message.now) answer
            self.new) }
        ensures short { IfOk result (λ answer. IsShortAnswer answer) }
        // If it fails.
        ensures refused { IfErr result (λ error. ServerRefuses (J.verdicts judge.now) session.now self.old (meaning message.now) error) }
        ensures kept { OnErr result (self.new ≡ self.old) }
    {
        if !self.may_take(message.number()) {
            return Err(CallError::Refused(Refusal::Unexpected));
        }
        match *message {
            Message::UserauthRequest {
                user,
                service,
                method,
            } => {
                let request = Request {
                    user,
                    service,
                    method,
                };
                self.take_request(session, judge, &request)
            }
            Message::Unknown(_) => Ok(ServerAnswer::Unimplemented),
            _ => unreachable!(),
        }
    }

    // Whether USERAUTH_SUCCESS was sent.
    fn is_authenticated(&self) -> bool
        ensures { result ≡ self.now.kept.authenticated }
    {
        self.progress.authenticated
    }

    // Takes a request, which may come.
    fn take_request<'a, J: UserJudge>(
        &mut self,
        session: &[u8; 32],
        judge: &J,
        request: &Request<'a>,
    ) -> Result<ServerAnswer<'a>, CallError<Refusal>>
        // What the caller must ensure.
        requires short { IsShort request.now.user.now }
        requires opened { self.old.kept.opened ≡ true }
        // What it does.
        ensures answered { IfOk result (λ answer. ServerAnswers (J.verdicts judge.now) session.now self.old
            (model.UserauthRequest request.now.user.now request.now.service.now (method_meaning request.now.method)) answer self.new) }
        ensures short { IfOk result (λ answer. IsShortAnswer answer) }
        // If it fails.
        ensures refused { IfErr result (λ error. ServerRefuses (J.verdicts judge.now) session.now self.old
            (model.UserauthRequest request.now.user.now request.now.service.now (method_meaning request.now.method)) error) }
        ensures kept { OnErr result (self.new ≡ self.old) }
    {
        if self.is_authenticated() {
            return Ok(ServerAnswer::Ignored);
        }
        let answer = self.judge(session, judge, request)?;
        self.settle(&answer)?;
        Ok(answer)
    }

    // Judges a request by the methods that the server names.
    fn judge<'a, J: UserJudge>(
        &mut self,
        session: &[u8; 32],
        judge: &J,
        request: &Request<'a>,
    ) -> Result<ServerAnswer<'a>, AllocError>
        requires { IsShort request.now.user.now }
        ensures judged { IfOk result (λ answer. IsJudged (J.verdicts judge.now) self.old.methods session.now request.now.user.now
            request.now.service.now (method_meaning request.now.method) answer) }
        ensures short { IfOk result (λ answer. IsShortAnswer answer) }
        ensures memory { OnErr result (LacksRoom longest_text (J.verdicts judge.now) self.old.methods session.now request.now.user.now
            request.now.service.now (method_meaning request.now.method)) }
        ensures kept { self.new ≡ self.old }
    {
        let methods = list_in(&self.methods);
        judge_request(&mut self.text, judge, &methods, session, request)
    }

    // Keeps what a judged request changes, or refuses one that fails too often.
    fn settle(&mut self, answer: &ServerAnswer<'_>) -> Result<(), Refusal>
        // What it does.
        ensures settled { OnOk result (self.new ≡ settled self.old answer.now) }
        ensures counted { OnOk result (answer.now ≡ answers.Failed → self.old.kept.failures < self.old.tries) }
        // If it fails.
        ensures refused { IfErr result (λ refusal. refusal ≡ refusals.TooManyTries) }
        ensures failed { OnErr result (answer.now ≡ answers.Failed) }
        ensures spent { OnErr result (self.old.tries ≤ self.old.kept.failures) }
        ensures kept { OnErr result (self.new ≡ self.old) }
    {
        match *answer {
            ServerAnswer::Accepted => {
                self.progress.authenticated = true;
                Ok(())
            }
            ServerAnswer::Failed => {
                if self.failures >= self.tries {
                    return Err(Refusal::TooManyTries);
                }
                self.failures += 1;
                Ok(())
            }
            _ => Ok(()),
        }
    }
}

// The names of a text that is a list.
fn list_in(text: &[u8]) -> NameList<'_>
    requires { IsNameText (names_of text.now) text.now }
    ensures names { names result ≡ names_of text.now }
    ensures text { names_text result ≡ text.now }
{
    NameList::new(text).unwrap()
}
