//! What an end keeps of the authentication of its user.

ghost use Rattle.std.specs.Prelude.{◌≡◌, ◌≤◌, IfErr, IfOk, IfSome, OnErr, [], length, option_map};
ghost use Rattle.ssh_model.specs.Protocol.Bounds.{longest_payload};
ghost use Rattle.ssh_model.specs.Laws.Bounds.{longest_methods};
ghost use Rattle.ssh_model.specs.declared.side.Side.TheVariants as sides;
ghost use Rattle.ssh_model.specs.Laws.Sizes.{payload_size};
ghost use Rattle.ssh_message.specs.Meaning.{meaning};
ghost use Rattle.ssh_message.specs.Written.{Fits};
ghost use Rattle.ssh_end_machine.specs.Layers.{IsShort};
ghost use Rattle.ssh_types.specs.Values.{names, names_text};
ghost use Rattle.ssh_transport.specs.declared.outcome.TransportTurn.TheVariants as outcome;
ghost use Rattle.ssh_end_machine.specs.Login.{LoginAnswers, LoginFails, login_message, login_takes, new_login, opened, probes, side_of};
ghost use Rattle.ssh_end_machine.specs.Units.{opened_by};

use crate::layers::answer::LayerAnswer;
use ssh_auth::{AuthClient, AuthServer, UserJudge};
use ssh_message::Message;
use ssh_transport::Handled;
use ssh_types::{CallError, NameList, Refusal};
use std::alloc::{AllocError, Global};

/// What an end keeps of the authentication of its user (RFC 4252), by its role.
#[derive(Drop)]
pub enum Login {
    /// At a server: what the user is asked for, and whether it is let in.
    Server(AuthServer),
    /// At a client: which request is outstanding, and whether the user is let in.
    Client(AuthClient),
}

impl Login {
    /// That of a server that lets so many requests of a user fail and names these methods, before SERVICE_ACCEPT was sent. The text of
    /// the methods has at most 33,994 bytes.
    ///
    /// # Errors
    ///
    /// Only if memory is refused.
    pub fn server(alloc: Global, tries: u32, methods: &NameList<'_>) -> Result<Login, AllocError>
        requires { length (names_text methods.now) ≤ longest_methods }
        ensures { IfOk result (λ login. login ≡ new_login sides.Server tries (names methods.now)) }
    {
        let server = AuthServer::new(alloc, tries, methods)?;
        Ok(Login::Server(server))
    }

    /// That of a client, before SERVICE_ACCEPT was taken.
    pub fn client(alloc: Global) -> Login
        ensures { result ≡ new_login sides.Client 0 [] }
    {
        Login::Client(AuthClient::new(alloc))
    }

    /// Is called once SERVICE_ACCEPT was sent by a server, or taken by a client (RFC 4253 section 10). It needs no memory.
    pub fn open(&mut self)
        ensures { self.new ≡ opened self.old }
    {
        match self {
            Login::Server(server) => server.open(),
            Login::Client(client) => client.open(),
        }
    }

    // Opens authentication if this is SERVICE_ACCEPT that a server sent, or that a client took.
    #[tactic(auto, using(crate::proofs::Sides::opened_side))]
    pub(crate) fn open_on(&mut self, handled: Handled)
        ensures opened { self.new ≡ opened_by (outcome.Done handled) self.old }
        ensures side { side_of self.new ≡ side_of self.old }
    {
        let opens = match self {
            Login::Server(_) => handled == Handled::ServiceRequested,
            Login::Client(_) => handled == Handled::ServiceAccepted,
        };
        if opens {
            self.open();
        }
    }

    /// Tests whether a message of this number from 50 to 79 may come. It needs no memory.
    pub(crate) fn may_take(&self, number: u8) -> bool
        ensures { result ≡ login_takes self.now number }
    {
        match self {
            Login::Server(server) => server.may_take(number),
            Login::Client(client) => client.may_take(number),
        }
    }

    /// Tests whether a key probe is outstanding, so that number 60 is PK_OK (RFC 4252 section 7).
    pub(crate) fn probing(&self) -> bool
        ensures { result ≡ probes self.now }
    {
        match self {
            Login::Server(server) => server.probing(),
            Login::Client(client) => client.probing(),
        }
    }

    /// The message that is sent at once for an answer of `take`; `None` where nothing is. It fits, and its payload has at most 34,000
    /// bytes. It needs no memory.
    pub(crate) fn message<'a>(&'a self, answer: &LayerAnswer<'a>) -> Option<Message<'a>>
        requires { IsShort answer.now }
        ensures message { option_map meaning result ≡ login_message self.now answer.now }
        ensures fits { IfSome result (λ message. Fits message) }
        ensures short { IfSome result (λ message. payload_size (meaning message) ≤ longest_payload) }
    {
        match self {
            Login::Server(server) => match *answer {
                LayerAnswer::Server(given) => server.message(&given),
                _ => None,
            },
            Login::Client(_) => None,
        }
    }

    /// Takes a message of authentication, by this judge of a server's users, in the session of this id.
    ///
    /// # Errors
    ///
    /// Nothing changes.
    ///
    /// - `Refused`: the peer is refused, by the first refusal that holds.
    /// - `Memory`: memory was refused for the text that a signature covers, of a request that comes in no packet.
    pub(crate) fn take<'a, J: UserJudge>(
        &mut self,
        judge: &J,
        session: &[u8; 32],
        message: &Message<'a>,
    ) -> Result<LayerAnswer<'a>, CallError<Refusal>>
        // What the caller must ensure.
        requires { Fits message.now }
        // What it does.
        ensures answered { IfOk result (λ answer. LoginAnswers (J.verdicts judge.now) session.now self.old (meaning message.now) answer
            self.new) }
        ensures short { IfOk result (λ answer. IsShort answer) }
        // If it fails.
        ensures failed { IfErr result (λ fault. LoginFails (J.verdicts judge.now) session.now self.old (meaning message.now) fault) }
        ensures kept { OnErr result (self.new ≡ self.old) }
    {
        match self {
            Login::Server(server) => match server.take(session, judge, message) {
                Ok(answer) => Ok(LayerAnswer::Server(answer)),
                Err(error) => Err(error),
            },
            Login::Client(client) => match client.take(message) {
                Ok(answer) => Ok(LayerAnswer::Client(answer)),
                Err(refusal) => Err(CallError::Refused(refusal)),
            },
        }
    }
}
