//! A server and a client of authentication, each by itself. `server`, a number and a list makes a server that lets so many requests fail
//! and names these methods, `client` a client, `open` and a letter has one open its service. `s take` and a payload is a message that the
//! server takes, `c take` one of the client, `c ask` and an ask what its user asks. `s may` and a number says whether a message may come.
//! The user `u` has the password `p` and the key of one byte, `aa`; after `lenient` everybody is let in.

ghost use Rattle.std.specs.Prelude.{◌≤◌, true, IfOk, length};
ghost use Rattle.ssh_model.specs.Laws.Bounds.{longest_methods};
ghost use Rattle.ssh_types.specs.Values.{names_text};
ghost use Rattle.ssh_auth.specs.Serving.{IsShortAnswer};

use crate::call::{ask_of, ask_refused, message_of, refused, sent};
use ssh_auth::{AuthClient, AuthServer, ServerAnswer, UserJudge};
use ssh_end::Ask;
use ssh_toys::lines::{Layer, Problem, bytes_of, parsed, shown};
use ssh_toys::{ToyCredential, ToyJudge, ToyUserSigner};
use ssh_types::bounds::LONGEST_METHODS;
use ssh_types::{AskRefusal, CallError, NameList, Refusal};
use std::alloc::{AllocError, Global};

const SESSION: [u8; 32] = [7; 32];

const JUDGE: ToyJudge<'static> = ToyJudge {
    credentials: &[
        ToyCredential::Password {
            user: b"u",
            word: b"p",
        },
        ToyCredential::Key {
            user: b"u",
            key: &[0xaa],
        },
    ],
};

// Lets everybody in.
struct Lenient;

impl UserJudge for Lenient {
    ghost verdicts = { λ _. record {
      admits = λ _. true;
      password_is_right = λ _ _. true;
      knows_key = λ _ _ _. true;
      signature_is_right = λ _ _ _ _. true;
    } };

    fn none(&self, _user: &[u8]) -> bool {
        true
    }

    fn password(&self, _user: &[u8], _word: &[u8]) -> bool {
        true
    }

    fn key_known(&self, _user: &[u8], _algorithm: &[u8], _key: &[u8]) -> bool {
        true
    }

    fn signature(&self, _algorithm: &[u8], _key: &[u8], _text: &[u8], _signature: &[u8]) -> bool {
        true
    }
}

/// A server and a client that are told lines.
#[derive(Drop)]
pub struct LoginLines {
    alloc: Global,
    // None until a line makes one.
    server: Option<AuthServer>,
    client: AuthClient,
    is_lenient: bool,
}

impl LoginLines {
    /// Lines of authentication, of which nothing was played.
    pub fn new(alloc: Global) -> LoginLines {
        LoginLines {
            alloc,
            server: None,
            client: AuthClient::new(alloc),
            is_lenient: false,
        }
    }

    // A line of one word, where it is one.
    fn begun(&mut self, text: &str) -> Result<String, Problem> {
        match text {
            "client" => self.client = AuthClient::new(self.alloc),
            "lenient" => self.is_lenient = true,
            _ => return Err(Problem::NotALine),
        }
        Ok(String::new(self.alloc))
    }

    fn made(&mut self, tries: &str, names: &str) -> Result<String, Problem> {
        let tries = parsed(tries)?;
        self.server = Some(AuthServer::new(self.alloc, tries, &methods(names)?)?);
        self.is_lenient = false;
        Ok(String::new(self.alloc))
    }

    fn opened(&mut self, letter: &str) -> Result<String, Problem> {
        match (letter, &mut self.server) {
            ("s", Some(server)) => server.open(),
            ("c", _) => self.client.open(),
            _ => return Err(Problem::NotALine),
        }
        Ok(String::new(self.alloc))
    }

    fn of_server(&mut self, text: &str) -> Result<String, Problem> {
        let Some(server) = &mut self.server else {
            return Err(Problem::NotALine);
        };
        match text.split_once(' ') {
            Some(("take", digits)) => served(self.alloc, server, self.is_lenient, digits),
            Some(("may", number)) => match number.parse::<u8>() {
                Ok(number) => shown(self.alloc, server.may_take(number)),
                Err(_) => Err(Problem::NotALine),
            },
            _ => Err(Problem::NotALine),
        }
    }

    fn of_client(&mut self, text: &str) -> Result<String, Problem> {
        match text.split_once(' ') {
            Some(("take", digits)) => self.heard(digits),
            Some(("ask", words)) => self.asked(words),
            Some(("may", number)) => match number.parse::<u8>() {
                Ok(number) => shown(self.alloc, self.client.may_take(number)),
                Err(_) => Err(Problem::NotALine),
            },
            _ => Err(Problem::NotALine),
        }
    }

    fn heard(&mut self, digits: &str) -> Result<String, Problem> {
        let payload = bytes_of(self.alloc, digits)?;
        let message = message_of(self.alloc, self.client.probing(), &payload)?;
        match self.client.take(&message) {
            Ok(answer) => Ok(format!(in self.alloc; "{answer:?}")?),
            Err(refusal) => refused(self.alloc, Refusal::from(refusal)),
        }
    }

    fn asked(&mut self, words: &str) -> Result<String, Problem> {
        let ask = ask_of(self.alloc, words)?;
        let Ask::User(ask) = ask.to_ask() else {
            return Err(Problem::NotALine);
        };
        match self.client.ask(&SESSION, &ToyUserSigner, &ask) {
            Ok(request) => sent(self.alloc, &request.message()),
            Err(CallError::Refused(refusal)) => ask_refused(self.alloc, AskRefusal::from(refusal)),
            Err(CallError::Memory) => Err(Problem::from(AllocError)),
        }
    }
}

impl Layer for LoginLines {
    fn said_to(&mut self, line: &str) -> Result<String, Problem> {
        match line.split_once(' ') {
            None => self.begun(line),
            Some(("open", letter)) => self.opened(letter),
            Some(("s", text)) => self.of_server(text),
            Some(("c", text)) => self.of_client(text),
            Some(("server", text)) => match text.split_once(' ') {
                Some((tries, names)) => self.made(tries, names),
                None => self.made(text, ""),
            },
            Some(_) => Err(Problem::NotALine),
        }
    }
}

// What a server answers to a payload.
fn served(
    alloc: Global,
    server: &mut AuthServer,
    is_lenient: bool,
    digits: &str,
) -> Result<String, Problem> {
    let payload = bytes_of(alloc, digits)?;
    let message = message_of(alloc, server.probing(), &payload)?;
    let answer = if is_lenient {
        server.take(&SESSION, &Lenient, &message)
    } else {
        server.take(&SESSION, &JUDGE, &message)
    };
    match answer {
        Ok(answer) => answered(alloc, server, &answer),
        Err(CallError::Refused(refusal)) => refused(alloc, Refusal::from(refusal)),
        Err(CallError::Memory) => Err(Problem::from(AllocError)),
    }
}

/// The list, if a server can name its methods.
///
/// # Errors
///
/// `Problem` if the text is no list of names, or one that no server can name.
pub fn methods(text: &str) -> Result<NameList<'_>, Problem>
    ensures { IfOk result (λ list. length (names_text list) ≤ longest_methods) }
{
    match NameList::new(text.as_bytes()) {
        Some(list) if list.as_bytes().len() <= LONGEST_METHODS => Ok(list),
        _ => Err(Problem::NotALine),
    }
}

fn answered(
    alloc: Global,
    server: &AuthServer,
    answer: &ServerAnswer<'_>,
) -> Result<String, Problem>
    requires { IsShortAnswer answer.now }
{
    match server.message(answer) {
        Some(message) => Ok(format!(in alloc; "{answer:?} {}", sent(alloc, &message)?)?),
        None => Ok(format!(in alloc; "{answer:?}")?),
    }
}
