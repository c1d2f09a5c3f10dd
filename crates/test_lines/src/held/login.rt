//! A server that is held, and a client.

use crate::held::answering::{Always, UNITS, answer_of, drop_front, turn_text};
use crate::held::signing::{HeldJudge, HeldSigner};
use example_held::serve;
use ssh_auth::UserAsk;
use ssh_end_machine::{Ask, ClientEnd, Fault, ServerEnd};
use ssh_held::{Asked, HeldServer, Request, Taken, Verdicts};
use ssh_message::Method;
use ssh_packet::PacketReader;
use ssh_toys::lines::{Problem, digits_of};
use ssh_toys::{
    CLIENT_COOKIE, CLIENT_SECRET, SERVER_COOKIE, SERVER_SECRET, ToyClient, ToyServer, client_parts,
    config, server_parts, settings,
};
use std::alloc::Global;

/// Both ends, and the bytes on their way to each.
pub struct HeldLogin {
    alloc: Global,
    // The algorithm of the user's key.
    algorithm: &'static [u8],
    client: ClientEnd<ToyClient, HeldSigner>,
    server: HeldServer<ToyServer, HeldJudge>,
    to_client: Vec<u8>,
    to_server: Vec<u8>,
}

// Written out, since a derive would ask it of the parts' names too.
impl Drop for HeldLogin {
    fn drop(self) {
        let HeldLogin {
            alloc: _,
            algorithm: _,
            client: _,
            server: _,
            to_client: _,
            to_server: _,
        } = self;
    }
}

impl HeldLogin {
    /// Both ends, where the client has asked to be let in by a key of this algorithm.
    ///
    /// # Errors
    ///
    /// `Problem` if memory is refused, or an end does not do its part.
    pub fn new(alloc: Global, algorithm: &'static [u8]) -> Result<HeldLogin, Problem> {
        let mut to_client = Vec::new(alloc);
        let mut to_server = Vec::new(alloc);
        let client = ClientEnd::<ToyClient, HeldSigner>::new(
            alloc,
            config(alloc, &settings(b"c"))?,
            client_parts(),
            HeldSigner,
            CLIENT_COOKIE,
            CLIENT_SECRET,
            &mut to_server,
        )?;
        let server = ServerEnd::<ToyServer, Verdicts<HeldJudge>>::new(
            alloc,
            config(alloc, &settings(b"s"))?,
            server_parts(),
            Verdicts::new(alloc, HeldJudge),
            SERVER_COOKIE,
            SERVER_SECRET,
            &mut to_client,
        )?;
        let mut ends = HeldLogin {
            alloc,
            algorithm,
            client,
            server: HeldServer::of(server, PacketReader::new(alloc)?),
            to_client,
            to_server,
        };
        ends.pass()?;
        ends.pass()?;
        ends.asks(&Ask::Service)?;
        ends.pass()?;
        ends.signs(b"u")?;
        ends.to_client = Vec::new(alloc);
        Ok(ends)
    }

    fn asks(&mut self, ask: &Ask<'_>) -> Result<(), Problem> {
        match self.client.ask_step(ask, &mut self.to_server) {
            Ok(_) => Ok(()),
            Err(fault) => Err(self.problem(fault)),
        }
    }

    // The client asks to be let in as this user.
    fn signs(&mut self, user: &[u8]) -> Result<(), Problem> {
        self.asks(&Ask::User(UserAsk::Sign {
            user,
            algorithm: self.algorithm,
            key: b"k",
        }))
    }

    // What a fault is to a line.
    fn problem(&self, fault: Fault) -> Problem {
        match format!(in self.alloc; "{fault}") {
            Ok(text) => Problem::Said(text),
            Err(_) => Problem::NotALine,
        }
    }

    // All bytes reach the server, and then the client. Nothing is asked meanwhile.
    fn pass(&mut self) -> Result<(), Problem> {
        let mut look_up = Always { accepts: false };
        if let Err(fault) = serve(
            &mut self.server,
            &mut look_up,
            self.alloc,
            &self.to_server,
            &mut self.to_client,
        ) {
            return Err(self.problem(fault));
        }
        self.to_server = Vec::new(self.alloc);
        self.deliver()
    }

    // All bytes that the server has put out reach the client.
    fn deliver(&mut self) -> Result<(), Problem> {
        for _ in 0..UNITS {
            if self.to_client.is_empty() || self.client.is_dead() {
                break;
            }
            match self.client.take_step(&self.to_client, &mut self.to_server) {
                Ok(used) => drop_front(self.alloc, &mut self.to_client, used)?,
                Err(fault) => return Err(self.problem(fault)),
            }
        }
        Ok(())
    }

    /// The results of words for the server.
    ///
    /// # Errors
    ///
    /// `Problem` if they are no such words, and want of memory.
    pub fn said_to(&mut self, words: &str) -> Result<String, Problem> {
        let alloc = self.alloc;
        match words.split_once(' ') {
            Some(("give", word)) => self.given(answer_of(word)?),
            Some(("say", word)) => self.served(answer_of(word)?),
            Some(("ask", user)) => {
                self.deliver()?;
                self.signs(user.as_bytes())?;
                Ok(String::new(alloc))
            }
            None if words == "take" => self.taken(),
            None if words == "way" => Ok(format!(in alloc;
                "{} {}",
                self.to_server.len(),
                self.to_client.len()
            )?),
            None if words == "numbers" => {
                let (sending, taking) = self.server.end().numbers();
                Ok(format!(in alloc; "{sending} {taking}")?)
            }
            None if words == "wanted" => match self.server.wanted() {
                Some(request) => request_text(alloc, &request),
                None => Ok(format!(in alloc; "nothing")?),
            },
            None if words == "question" => match self.server.question(alloc)? {
                Some(question) => question_text(alloc, &question),
                None => Ok(format!(in alloc; "nothing")?),
            },
            _ => Err(Problem::NotALine),
        }
    }

    fn taken(&mut self) -> Result<String, Problem> {
        match self.server.take(&self.to_server, &mut self.to_client) {
            Ok(Taken::Used(used)) => {
                drop_front(self.alloc, &mut self.to_server, used)?;
                turn_text(self.alloc, used, &self.server.end().last_turn())
            }
            Ok(Taken::Wanted) => Ok(format!(in self.alloc; "wanted")?),
            Err(fault) => Err(self.problem(fault)),
        }
    }

    fn given(&mut self, accepts: bool) -> Result<String, Problem> {
        let Some(question) = self.server.question(self.alloc)? else {
            return Err(Problem::NotALine);
        };
        self.server.give(self.alloc, question, accepts)?;
        Ok(String::new(self.alloc))
    }

    fn served(&mut self, accepts: bool) -> Result<String, Problem> {
        let mut look_up = Always { accepts };
        match serve(
            &mut self.server,
            &mut look_up,
            self.alloc,
            &self.to_server,
            &mut self.to_client,
        ) {
            Ok(served) => Ok(format!(in self.alloc;
                "used {} let in {}",
                served.used, served.is_in
            )?),
            Err(fault) => Err(self.problem(fault)),
        }
    }
}

// A request, with its texts in digits.
fn request_text(alloc: Global, request: &Request<'_>) -> Result<String, Problem> {
    let user = digits_of(alloc, request.user)?;
    match request.method {
        Method::Publickey {
            algorithm,
            key,
            signature,
        } => {
            let algorithm = digits_of(alloc, algorithm)?;
            let key = digits_of(alloc, key)?;
            Ok(format!(in alloc; "{user} {algorithm} {key} signed {}", signature.is_some())?)
        }
        _ => Ok(format!(in alloc; "{user} otherwise")?),
    }
}

// A question, with its texts in digits.
fn question_text(alloc: Global, question: &Asked) -> Result<String, Problem> {
    match question {
        Asked::Key(user, algorithm, key) => {
            let user = digits_of(alloc, user)?;
            let algorithm = digits_of(alloc, algorithm)?;
            let key = digits_of(alloc, key)?;
            Ok(format!(in alloc; "key {user} {algorithm} {key}")?)
        }
        Asked::Signature {
            algorithm,
            key,
            text,
            signature,
        } => {
            let algorithm = digits_of(alloc, algorithm)?;
            let key = digits_of(alloc, key)?;
            let text = digits_of(alloc, text)?;
            let signature = digits_of(alloc, signature)?;
            Ok(format!(in alloc; "signature {algorithm} {key} {text} {signature}")?)
        }
        _ => Ok(format!(in alloc; "otherwise")?),
    }
}
