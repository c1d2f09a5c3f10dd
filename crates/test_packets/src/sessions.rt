//! Ends that take the bytes that others sent, and recorded sessions.
//!
//! `real` makes a client and a server of X25519 and AES-128-GCM, `c` and `s`, that have put out their lines and KEXINITs. `recorded` and
//! bytes make a client and a server of what was recorded of a session of two exchanges of keys, `rc` and `rs`. The bytes are the cookie
//! of the end that is played, what was first shared, the two points of that end, the host key, and then the hash of each exchange with the
//! host's signature of it. What was shared is the secret of an end.
//!
//! `c pass` lets all waiting bytes of the client reach the server, and `s pass` those of the server the client. `same session` says whether
//! both have one session id. What else is said to each end stands in the module `party`.
//!
//! `client`, a key and a MAC, and `server` and a MAC show toy parts that are handed over to such an end.

mod ends;
mod handed;
mod parts;
mod party;
mod real;
mod recorded;

use handed::{of_client, of_server};
pub use parts::put_signature;
use real::{RealEnds, real_ends};
use recorded::{RecordedEnds, recorded_ends};
use ssh_toys::lines::{Layer, Problem, bytes_of};
use ssh_toys::{ToyAgreement, ToyClient, ToyFiller, ToyServer, ToySigner, ToyTrust};
use ssh_transport::{ClientPartValues, ServerPartValues};
use std::alloc::Global;

/// Ends that are told lines.
#[derive(Drop)]
pub struct SessionLines {
    alloc: Global,
    // None until a line makes them.
    real: Option<RealEnds>,
    recorded: Option<RecordedEnds>,
}

impl SessionLines {
    /// Lines of sessions, of which nothing was played.
    pub fn new(alloc: Global) -> SessionLines {
        SessionLines {
            alloc,
            real: None,
            recorded: None,
        }
    }

    // What is said to ends that were made.
    fn told(&mut self, word: &str, rest: &str) -> Result<String, Problem> {
        if let Some(word) = word.strip_prefix('r') {
            return match &mut self.recorded {
                Some(ends) => ends.said_to(word, rest),
                None => Err(Problem::NotALine),
            };
        }
        match &mut self.real {
            Some(ends) => ends.said_to(word, rest),
            None => Err(Problem::NotALine),
        }
    }
}

impl Layer for SessionLines {
    fn said_to(&mut self, line: &str) -> Result<String, Problem> {
        match line.split_once(' ') {
            None if line == "real" => {
                self.real = Some(real_ends(self.alloc)?);
                Ok(String::new(self.alloc))
            }
            Some(("client", rest)) => {
                let (key, mac) = rest.split_once(' ').unwrap_or((rest, ""));
                let mut parts: ClientPartValues<ToyClient> = ClientPartValues {
                    filler: ToyFiller { byte: 9 },
                    agreement: ToyAgreement,
                    host_trust: ToyTrust,
                };
                of_client(self.alloc, &mut parts, key, mac)
            }
            Some(("server", mac)) => {
                let mut parts: ServerPartValues<ToyServer> = ServerPartValues {
                    filler: ToyFiller { byte: 8 },
                    agreement: ToyAgreement,
                    host_signer: ToySigner,
                };
                of_server(self.alloc, &mut parts, mac)
            }
            Some(("recorded", digits)) => {
                let bytes = bytes_of(self.alloc, digits)?;
                self.recorded = Some(recorded_ends(self.alloc, &bytes)?);
                Ok(String::new(self.alloc))
            }
            Some((word, rest)) => self.told(word, rest),
            None => Err(Problem::NotALine),
        }
    }
}
