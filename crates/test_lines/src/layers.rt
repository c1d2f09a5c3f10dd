//! The layers above the transports of a server and of a client, authentication and channels in one. `server`, a number and a list makes
//! those of a server that lets so many requests fail and names these methods, `client` those of a client, and `open` and a letter is for
//! SERVICE_ACCEPT. `s take` and a payload from 50 on is one that the server's layers take, of the packet with the number 9, and `c take`
//! one of the client's; `s ask` and `c ask` what their users ask; `s owed` and `c owed` give the oldest reply that a key exchange held
//! back. `blocked` before it does it within a key exchange, and `in` once the user is authenticated. The user `u` has the password `p`.

ghost use Rattle.std.specs.Prelude.{◌≡◌, ◌≤◌, true, IfSome};
ghost use Rattle.ssh_model.specs.Protocol.Sessions.Turns.{number_of};
ghost use Rattle.ssh_message.specs.Written.{Fits};
ghost use Rattle.ssh_end_machine.specs.Layers.{IsShort};

use crate::call::{ask_of, ask_refused, refused, sent};
use crate::events::put_event;
use crate::logins::methods;
use ssh_auth::UserAsk;
use ssh_channels::{Ask as ChannelAsk, ChannelEvent, Channels, Reply, Taken};
use ssh_end::Ask;
use ssh_end::layers::{LayerAnswer, LayerTaken, Layers, Login, TransportView, ask_channels};
use ssh_message::Message;
use ssh_toys::lines::{Layer, Problem, bytes_of, parsed, text_of};
use ssh_toys::{ToyCredential, ToyJudge, ToyUserSigner};
use ssh_types::{AskRefusal, CallError, Refusal};
use std::alloc::{AllocError, Global};

const SESSION: [u8; 32] = [7; 32];

// The number of a packet whose payload is taken.
const NUMBER: u32 = 9;

const JUDGE: ToyJudge<'static> = ToyJudge {
    credentials: &[ToyCredential::Password {
        user: b"u",
        word: b"p",
    }],
};

/// Layers of a server and of a client that are told lines.
#[derive(Drop)]
pub struct LayerLines {
    alloc: Global,
    // None until a line makes them.
    server: Option<Layers>,
    client: Layers,
}

impl LayerLines {
    /// Lines of both layers, of which nothing was played.
    ///
    /// # Errors
    ///
    /// Only if memory is refused.
    pub fn new(alloc: Global) -> Result<LayerLines, AllocError> {
        Ok(LayerLines {
            alloc,
            server: None,
            client: Layers::new(alloc, Login::client(alloc))?,
        })
    }

    fn made(&mut self, tries: &str, names: &str) -> Result<String, Problem> {
        let tries = parsed(tries)?;
        let login = Login::server(self.alloc, tries, &methods(names)?)?;
        self.server = Some(Layers::new(self.alloc, login)?);
        Ok(String::new(self.alloc))
    }

    fn opened(&mut self, letter: &str) -> Result<String, Problem> {
        match (letter, &mut self.server) {
            ("s", Some(server)) => server.authentication.open(),
            ("c", _) => self.client.authentication.open(),
            _ => return Err(Problem::NotALine),
        }
        Ok(String::new(self.alloc))
    }

    fn of_server(&mut self, below: &TransportView<'_>, text: &str) -> Result<String, Problem> {
        let Some(server) = &mut self.server else {
            return Err(Problem::NotALine);
        };
        match text.split_once(' ') {
            Some(("take", digits)) => heard(self.alloc, server, below, digits),
            None if text == "owed" => given(self.alloc, server.channels.unblock()),
            _ => Err(Problem::NotALine),
        }
    }

    fn of_client(&mut self, below: &TransportView<'_>, text: &str) -> Result<String, Problem> {
        match text.split_once(' ') {
            Some(("take", digits)) => heard(self.alloc, &mut self.client, below, digits),
            None if text == "owed" => given(self.alloc, self.client.channels.unblock()),
            _ => Err(Problem::NotALine),
        }
    }

    // What a user of the server or of the client asks.
    fn asked(
        &mut self,
        below: &TransportView<'_>,
        letter: &str,
        words: &str,
    ) -> Result<String, Problem> {
        let ask = ask_of(self.alloc, words)?;
        match (ask.to_ask(), letter, &mut self.server) {
            (Ask::Connection(ask), "s", Some(server)) => {
                asked_on(self.alloc, &mut server.channels, below, &ask)
            }
            (Ask::Connection(ask), "c", _) => {
                asked_on(self.alloc, &mut self.client.channels, below, &ask)
            }
            (Ask::User(ask), "c", _) => self.requested(below, &ask),
            _ => Err(Problem::NotALine),
        }
    }

    // What a user of the client asks for authentication.
    fn requested(
        &mut self,
        below: &TransportView<'_>,
        ask: &UserAsk<'_>,
    ) -> Result<String, Problem> {
        let Login::Client(client) = &mut self.client.authentication else {
            return Err(Problem::NotALine);
        };
        match client.ask(below.session, &ToyUserSigner, ask) {
            Ok(request) => sent(self.alloc, &request.message()),
            Err(CallError::Refused(why)) => ask_refused(self.alloc, AskRefusal::from(why)),
            Err(CallError::Memory) => Err(Problem::from(AllocError)),
        }
    }
}

impl Layer for LayerLines {
    fn said_to(&mut self, line: &str) -> Result<String, Problem> {
        let after_blocked = line.strip_prefix("blocked ");
        let line = after_blocked.unwrap_or(line);
        let following_in = line.strip_prefix("in ");
        let line = following_in.unwrap_or(line);
        let below = TransportView {
            session: &SESSION,
            blocked: after_blocked.is_some(),
            authenticated: following_in.is_some(),
        };
        if line == "client" {
            self.client = Layers::new(self.alloc, Login::client(self.alloc))?;
            return Ok(String::new(self.alloc));
        }
        let Some((word, rest)) = line.split_once(' ') else {
            return Err(Problem::NotALine);
        };
        match (word, rest.split_once(' ')) {
            ("server", Some((tries, names))) => self.made(tries, names),
            ("open", None) => self.opened(rest),
            ("s", Some(("ask", words))) | ("c", Some(("ask", words))) => {
                self.asked(&below, word, words)
            }
            ("s", _) => self.of_server(&below, rest),
            ("c", _) => self.of_client(&below, rest),
            _ => Err(Problem::NotALine),
        }
    }
}

// What the layers of an end make of a payload.
fn heard(
    alloc: Global,
    layers: &mut Layers,
    below: &TransportView<'_>,
    digits: &str,
) -> Result<String, Problem> {
    let payload = bytes_of(alloc, digits)?;
    if !is_above(&payload) {
        return Err(Problem::NotALine);
    }
    match layers.take(&JUDGE, below, &payload) {
        Ok(taken) => answered(alloc, layers, &taken),
        Err(fault) => faulted(alloc, fault),
    }
}

fn answered(alloc: Global, layers: &Layers, taken: &LayerTaken<'_>) -> Result<String, Problem>
    requires { IsShort taken.now.answer }
{
    let message = layers.message(&taken.answer, NUMBER);
    match taken.answer {
        LayerAnswer::Server(given) => {
            told(
                alloc,
                format!(in alloc; "Authentication({given:?})")?,
                message,
            )
        }
        LayerAnswer::Client(given) => {
            told(
                alloc,
                format!(in alloc; "Authentication({given:?})")?,
                message,
            )
        }
        LayerAnswer::Channels(given) => {
            told(alloc, of_channels(alloc, given, &taken.message)?, message)
        }
        LayerAnswer::Unknown => told(alloc, text_of(alloc, "Unknown")?, message),
    }
}

// What channels answer to a message, with what is told of it.
fn of_channels(alloc: Global, taken: Taken, message: &Message<'_>) -> Result<String, Problem> {
    let Taken { channel, reply } = taken;
    let mut text = format!(in alloc;
        "Channels(Taken {{ channel: {channel:?}, reply: {reply:?}, fact: "
    )?;
    match ChannelEvent::of_message(message, channel) {
        Some(fact) => {
            text.push_str("Some(")?;
            put_event(&mut text, fact)?;
            text.push_str(") })")?;
        }
        None => text.push_str("None })")?,
    }
    Ok(text)
}

// A payload is one for the layers above a transport.
fn is_above(payload: &[u8]) -> bool
    ensures { result ≡ true → 50 ≤ number_of payload.now }
{
    match payload.first() {
        Some(number) => 50 <= *number,
        None => false,
    }
}

// What is answered, and what is sent for it.
fn told(alloc: Global, answer: String, message: Option<Message<'_>>) -> Result<String, Problem>
    requires { IfSome message (λ m. Fits m) }
{
    match message {
        Some(message) => Ok(format!(in alloc; "{answer} {}", sent(alloc, &message)?)?),
        None => Ok(answer),
    }
}

fn faulted(alloc: Global, fault: CallError<Refusal>) -> Result<String, Problem> {
    match fault {
        CallError::Refused(refusal) => refused(alloc, refusal),
        CallError::Memory => Err(Problem::from(AllocError)),
    }
}

// What is sent for an ask of these channels.
fn asked_on(
    alloc: Global,
    channels: &mut Channels,
    below: &TransportView<'_>,
    ask: &ChannelAsk<'_>,
) -> Result<String, Problem> {
    match ask_channels(channels, below, ask, false) {
        Ok(given) => sent(alloc, &given.message),
        Err(CallError::Refused(why)) => ask_refused(alloc, why),
        Err(CallError::Memory) => Err(Problem::from(AllocError)),
    }
}

// A reply that was owed.
fn given(alloc: Global, reply: Option<Reply>) -> Result<String, Problem> {
    match reply {
        Some(reply) => sent(alloc, &reply.message()),
        None => text_of(alloc, "nothing"),
    }
}
