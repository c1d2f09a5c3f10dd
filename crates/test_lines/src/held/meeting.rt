//! A client that is held, and a server.

ghost use Rattle.std.specs.Prelude.{◌&&◌, nat_eq, codes};
ghost use Rattle.std.specs.Cmp.Lexicographic.{pointwise};

use crate::held::answering::{Always, UNITS, answer_of, drop_front, turn_text};
use example_held::meet;
use ssh_end_machine::{ClientEnd, Fault, ServerEnd};
use ssh_held::{HeldClient, HeldParts, HostKey, HostVerdicts, KnowsAlgorithms, Taken};
use ssh_kex::HostTrust;
use ssh_packet::PacketReader;
use ssh_toys::lines::{Problem, digits_of};
use ssh_toys::{
    CLIENT_COOKIE, CLIENT_SECRET, CREDENTIALS, SERVER_COOKIE, SERVER_SECRET, ToyAgreement,
    ToyClient, ToyFiller, ToyJudge, ToyServer, ToyTrust, ToyUserSigner, config, server_parts,
    settings,
};
use ssh_transport::ClientPartValues;
use std::alloc::Global;

type Parts = HeldParts<ToyClient, HeldTrust>;

/// Judges signatures as the toys do, and knows all algorithms or none.
#[derive(Clone, Copy)]
pub struct HeldTrust {
    knows_all: bool,
}

impl HostTrust for HeldTrust {
    ghost judged = { λ _ _ key hash signature. pointwise nat_eq key (codes "toy-host") && pointwise nat_eq signature hash };

    fn judge(&self, algorithm: &[u8], key: &[u8], hash: &[u8; 32], signature: &[u8]) -> bool {
        ToyTrust.judge(algorithm, key, hash, signature)
    }
}

impl KnowsAlgorithms for HeldTrust {
    ghost knows = { λ trust _. trust.knows_all };

    fn knows(&self, _algorithm: &[u8]) -> bool {
        self.knows_all
    }
}

/// Both ends, and the bytes on their way to each.
pub struct HeldMeeting {
    alloc: Global,
    client: HeldClient<ToyClient, HeldTrust, ToyUserSigner>,
    server: ServerEnd<ToyServer, ToyJudge<'static>>,
    to_client: Vec<u8>,
    to_server: Vec<u8>,
}

// Written out, since a derive would ask it of the parts' names too.
impl Drop for HeldMeeting {
    fn drop(self) {
        let HeldMeeting {
            alloc: _,
            client: _,
            server: _,
            to_client: _,
            to_server: _,
        } = self;
    }
}

impl HeldMeeting {
    /// Both ends, where the server has sent its reply. The client judges signatures, or its program does.
    ///
    /// # Errors
    ///
    /// `Problem` if memory is refused, or an end does not do its part.
    pub fn new(alloc: Global, knows_all: bool) -> Result<HeldMeeting, Problem> {
        let mut to_client = Vec::new(alloc);
        let mut to_server = Vec::new(alloc);
        let parts: ClientPartValues<Parts> = ClientPartValues {
            filler: ToyFiller { byte: 0 },
            agreement: ToyAgreement,
            host_trust: HostVerdicts::new(alloc, HeldTrust { knows_all }),
        };
        let client = ClientEnd::<Parts, ToyUserSigner>::new(
            alloc,
            config(alloc, &settings(b"c"))?,
            parts,
            ToyUserSigner,
            CLIENT_COOKIE,
            CLIENT_SECRET,
            &mut to_server,
        )?;
        let judge = ToyJudge {
            credentials: CREDENTIALS,
        };
        let server = ServerEnd::<ToyServer, ToyJudge<'static>>::new(
            alloc,
            config(alloc, &settings(b"s"))?,
            server_parts(),
            judge,
            SERVER_COOKIE,
            SERVER_SECRET,
            &mut to_client,
        )?;
        let mut ends = HeldMeeting {
            alloc,
            client: HeldClient::of(client, PacketReader::new(alloc)?),
            server,
            to_client,
            to_server,
        };
        ends.begin()?;
        Ok(ends)
    }

    // The client takes what the server put out at first, and the server what the client then has put out. Nothing is asked meanwhile.
    fn begin(&mut self) -> Result<(), Problem> {
        let mut look_up = Always { accepts: false };
        if let Err(fault) = meet(
            &mut self.client,
            &mut look_up,
            self.alloc,
            &self.to_client,
            &mut self.to_server,
        ) {
            return Err(self.problem(fault));
        }
        self.to_client = Vec::new(self.alloc);
        for _ in 0..UNITS {
            if self.to_server.is_empty() || self.server.is_dead() {
                break;
            }
            match self.server.take_step(&self.to_server, &mut self.to_client) {
                Ok(used) => drop_front(self.alloc, &mut self.to_server, used)?,
                Err(fault) => return Err(self.problem(fault)),
            }
        }
        Ok(())
    }

    // What a fault is to a line.
    fn problem(&self, fault: Fault) -> Problem {
        match format!(in self.alloc; "{fault}") {
            Ok(text) => Problem::Said(text),
            Err(_) => Problem::NotALine,
        }
    }

    /// The results of words for the client.
    ///
    /// # Errors
    ///
    /// `Problem` if they are no such words, and want of memory.
    pub fn said_to(&mut self, words: &str) -> Result<String, Problem> {
        let alloc = self.alloc;
        match words.split_once(' ') {
            Some(("give", word)) => self.given(answer_of(word)?),
            Some(("say", word)) => self.met(answer_of(word)?),
            None if words == "take" => self.taken(),
            None if words == "way" => Ok(format!(in alloc;
                "{} {}",
                self.to_client.len(),
                self.to_server.len()
            )?),
            None if words == "numbers" => {
                let (sending, taking) = self.client.end().numbers();
                Ok(format!(in alloc; "{sending} {taking}")?)
            }
            None if words == "wanted" => match self.client.wanted() {
                Some(host) => question_text(alloc, &host),
                None => Ok(format!(in alloc; "nothing")?),
            },
            _ => Err(Problem::NotALine),
        }
    }

    fn taken(&mut self) -> Result<String, Problem> {
        match self.client.take(&self.to_client, &mut self.to_server) {
            Ok(Taken::Used(used)) => {
                drop_front(self.alloc, &mut self.to_client, used)?;
                turn_text(self.alloc, used, &self.client.end().last_turn())
            }
            Ok(Taken::Wanted) => Ok(format!(in self.alloc; "wanted")?),
            Err(fault) => Err(self.problem(fault)),
        }
    }

    fn given(&mut self, accepts: bool) -> Result<String, Problem> {
        let Some(host) = self.client.wanted() else {
            return Err(Problem::NotALine);
        };
        let question = host.question(self.alloc)?;
        self.client.give(self.alloc, question, accepts)?;
        Ok(String::new(self.alloc))
    }

    fn met(&mut self, accepts: bool) -> Result<String, Problem> {
        let mut look_up = Always { accepts };
        match meet(
            &mut self.client,
            &mut look_up,
            self.alloc,
            &self.to_client,
            &mut self.to_server,
        ) {
            Ok(met) => Ok(format!(in self.alloc;
                "used {} complete {}",
                met.used, met.is_complete
            )?),
            Err(fault) => Err(self.problem(fault)),
        }
    }
}

// What is asked on a host.
fn question_text(alloc: Global, host: &HostKey<'_>) -> Result<String, Problem> {
    let (algorithm, key) = (host.algorithm, host.key);
    let algorithm = digits_of(alloc, algorithm)?;
    let key = digits_of(alloc, key)?;
    match &host.signed {
        Some(signed) => {
            let (hash, signature) = (signed.hash, signed.signature);
            let hash = digits_of(alloc, hash)?;
            let signature = digits_of(alloc, signature)?;
            Ok(format!(in alloc; "{algorithm} {key} signed {hash} {signature}")?)
        }
        None => Ok(format!(in alloc; "{algorithm} {key}")?),
    }
}
