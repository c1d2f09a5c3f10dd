//! A server and a client of authentication, each by itself, over what was recorded of a session. OpenSSH 9.2p1 (Debian 12) was its server,
//! and an independent client logged in.
//!
//! `server` and a list make a server that names these methods and lets the key of the client in, where its signatures are right. `request`
//! and a payload show what it answers, and the payload that it sends. `elsewhere` and a payload do so in another session. `client` makes
//! a client. `reply` and a payload show what that makes of a message. `ask` with `none`, `probe` or `sign` shows the payload that it
//! sends, and `text` what the signature covers.

use crate::sessions::put_signature;
use divrelca::{AcceptedKey, Ed25519Judge};
use ssh_auth::{AuthClient, AuthServer, SignedText, UserAsk, UserSigner, put_signed_text};
use ssh_message::{decode, encode};
use ssh_toys::lines::{Layer, Problem, bytes_of, digits_of};
use ssh_types::NameList;
use ssh_types::bounds::LONGEST_METHODS;
use std::alloc::Global;

const SESSION: [u8; 32] = *b"\
    \xc7\xaf\xa3\xae\x9f\xd0R\xfb\xa8VMd\xf7\xb0\x91@\x0d\x06#}\xa7\x0e(r;\xe4\xa4\xd0\xf4\xce\x97]";

const KEY: &[u8] = b"\
    \x00\x00\x00\x0bssh-ed25519\x00\x00\x00 k\x9f:\x1f\x92\xc9\xa9/oY\xe8\xa9Hf\xa8\xe5a q\xacl\x88\x9d$\
    6_Z\xb6@%-e";

const SIGNATURE: [u8; 83] = *b"\
    \x00\x00\x00\x0bssh-ed25519\x00\x00\x00@\xc4\xdb+\xfcc\xf9\xdd1\xb6j\xf9\xc9\xe61\xea\x17\x7f\xc1\
    \xa6\x97\xae\xbd\xa6\xd3j$80\x01nA4\x9ewe\x89\xdd\xbf\xbdv\x9c\x9f\xcf3\xb4\x98\x9d1D\x9f\x89\x92\
    \x08{-\xaf\x1d46\xf3\xcbRF\x06";

const PUBLIC: [u8; 32] = *b"\
    k\x9f:\x1f\x92\xc9\xa9/oY\xe8\xa9Hf\xa8\xe5a q\xacl\x88\x9d$6_Z\xb6@%-e";

const JUDGE: Ed25519Judge<'static> = Ed25519Judge {
    accepted: &[AcceptedKey {
        user: ROOT,
        public: PUBLIC,
    }],
};

// Gives one signature.
#[derive(Clone, Copy)]
struct RecordedSigner<'a> {
    signature: &'a [u8; 83],
}

impl UserSigner for RecordedSigner<'_> {
    ghost signature_of = { λ signer _ _ _ _. signer.signature.now };

    fn sign(
        &self,
        _user: &[u8],
        _algorithm: &[u8],
        _key: &[u8],
        _text: &[u8],
        out: &mut [u8; 4096],
    ) -> usize {
        let signature = self.signature;
        put_signature(signature, out);
        83
    }
}

const SIGNER: RecordedSigner<'static> = RecordedSigner {
    signature: &SIGNATURE,
};

const ROOT: &[u8] = b"root";

const ED25519: &[u8] = b"ssh-ed25519";

/// A server and a client that are told lines.
#[derive(Drop)]
pub struct LoginLines {
    alloc: Global,
    // None until a line makes one.
    server: Option<AuthServer>,
    client: AuthClient,
}

impl LoginLines {
    /// Lines of authentication, of which nothing was played.
    pub fn new(alloc: Global) -> LoginLines {
        LoginLines {
            alloc,
            server: None,
            client: AuthClient::new(alloc),
        }
    }

    // A server with these methods, where it can name them.
    fn made(&mut self, names: &str) -> Result<String, Problem> {
        let Some(list) = NameList::new(names.as_bytes()) else {
            return Err(Problem::NotALine);
        };
        if list.as_bytes().len() > LONGEST_METHODS {
            return Err(Problem::NotALine);
        }
        let mut server = AuthServer::new(self.alloc, 6, &list)?;
        server.open();
        self.server = Some(server);
        Ok(String::new(self.alloc))
    }

    // What the server answers to a payload.
    fn served(&mut self, session: &[u8; 32], digits: &str) -> Result<String, Problem> {
        let payload = bytes_of(self.alloc, digits)?;
        let Some(server) = &mut self.server else {
            return Err(Problem::NotALine);
        };
        let Ok(message) = decode(server.probing(), &payload) else {
            return Err(Problem::NotALine);
        };
        let Ok(answer) = server.take(session, &JUDGE, &message) else {
            return Err(Problem::NotALine);
        };
        let mut out = Vec::new(self.alloc);
        if let Some(reply) = server.message(&answer) {
            encode(&reply, &mut out)?;
        }
        let sent = digits_of(self.alloc, &out)?;
        Ok(format!(in self.alloc; "{answer:?} {sent}")?)
    }

    // What the client makes of a payload.
    fn heard(&mut self, digits: &str) -> Result<String, Problem> {
        let payload = bytes_of(self.alloc, digits)?;
        let Ok(message) = decode(self.client.probing(), &payload) else {
            return Err(Problem::NotALine);
        };
        match self.client.take(&message) {
            Ok(answer) => Ok(format!(in self.alloc; "{answer:?}")?),
            Err(_) => Err(Problem::NotALine),
        }
    }

    // What the client sends where it is asked for this.
    fn asked(&mut self, ask: &UserAsk<'_>) -> Result<String, Problem> {
        let Ok(request) = self.client.ask(&SESSION, &SIGNER, ask) else {
            return Err(Problem::NotALine);
        };
        let mut out = Vec::new(self.alloc);
        encode(&request.message(), &mut out)?;
        digits_of(self.alloc, &out)
    }
}

impl Layer for LoginLines {
    fn said_to(&mut self, line: &str) -> Result<String, Problem> {
        let (user, algorithm, key) = (ROOT, ED25519, KEY);
        match line.split_once(' ') {
            Some(("server", names)) => self.made(names),
            Some(("request", digits)) => self.served(&SESSION, digits),
            Some(("elsewhere", digits)) => self.served(&[7; 32], digits),
            Some(("reply", digits)) => self.heard(digits),
            Some(("ask", "none")) => self.asked(&UserAsk::None { user }),
            Some(("ask", "probe")) => self.asked(&UserAsk::Probe {
                user,
                algorithm,
                key,
            }),
            Some(("ask", "sign")) => self.asked(&UserAsk::Sign {
                user,
                algorithm,
                key,
            }),
            None if line == "text" => signed_text(self.alloc),
            None if line == "client" => {
                self.client = AuthClient::new(self.alloc);
                self.client.open();
                Ok(String::new(self.alloc))
            }
            _ => Err(Problem::NotALine),
        }
    }
}

// The text that the signature covers.
fn signed_text(alloc: Global) -> Result<String, Problem> {
    let mut text = Vec::new(alloc);
    let signed = SignedText {
        session: &SESSION,
        user: ROOT,
        service: b"ssh-connection",
        algorithm: ED25519,
        key: KEY,
    };
    put_signed_text(&mut text, &signed)?;
    digits_of(alloc, &text)
}
