//! The hash, the choice and the keys of a key exchange (RFC 4253 sections 7 and 8, RFC 5656 section 4).
//!
//! - `set`, a name and digits gives a value to the text of an exchange, by the names of `ExchangeInputs`. `hash` and `session` are set
//! too, of which keys are made.
//! - `text hash` gives the hash of the exchange. `text digest`, `text length` and `text` with two places give the digest, the length and a
//! part of what is hashed.
//! - `key`, a letter and a length gives a key.
//! - `lists choice` gives what the two KEXINITs choose. `lists owned` gives the method and the encryption to the client, of a choice that
//! owns its names.
//! - `lists guess` says whether a guess is wrong. `lists client` and `lists server` say which markers a KEXINIT has, the client's and the
//! server's.
//! - `toy key` is the host key of the toys. `toy share` and two secrets is the result that two ends share.
//! - `toy trust`, a key and two hashes says whether this key and the signature of the first hash are trusted for the second.

use sha2::{Digest, Sha256};
use ssh_kex::{
    Agreement, Choice, ExchangeInputs, HostSigner, HostTrust, KexLists, KeyPurpose, NoCommon,
    OwnedChoice, choose, derive, exchange_hash, exchange_text, extension_markers, guess_wrong,
    markers,
};
use ssh_message::{Message, decode};
use ssh_toys::lines::{Layer, Problem, bytes_of, digits_of, parsed, shown, text_of};
use ssh_toys::{ToyAgreement, ToySigner, ToyTrust};
use std::alloc::Global;

// The algorithm of the host key of the toys.
const ALGORITHM: &[u8] = b"toy@example.com";

/// The values of a key exchange, which lines set.
#[derive(Drop)]
pub struct ValueLines {
    alloc: Global,
    client_version: Vec<u8>,
    server_version: Vec<u8>,
    client_init: Vec<u8>,
    server_init: Vec<u8>,
    host_key: Vec<u8>,
    client_point: [u8; 32],
    server_point: [u8; 32],
    shared: [u8; 32],
    hash: [u8; 32],
    session: [u8; 32],
}

impl ValueLines {
    /// Lines of an exchange, of which nothing was set.
    pub fn new(alloc: Global) -> ValueLines {
        ValueLines {
            alloc,
            client_version: Vec::new(alloc),
            server_version: Vec::new(alloc),
            client_init: Vec::new(alloc),
            server_init: Vec::new(alloc),
            host_key: Vec::new(alloc),
            client_point: [0; 32],
            server_point: [0; 32],
            shared: [0; 32],
            hash: [0; 32],
            session: [0; 32],
        }
    }

    fn set(&mut self, name: &str, digits: &str) -> Result<String, Problem> {
        let bytes = bytes_of(self.alloc, digits)?;
        match name {
            "client_version" => self.client_version = bytes,
            "server_version" => self.server_version = bytes,
            "client_init" => self.client_init = bytes,
            "server_init" => self.server_init = bytes,
            "host_key" => self.host_key = bytes,
            _ => self.set_block(name, block_in(&bytes)?)?,
        }
        Ok(String::new(self.alloc))
    }

    // Sets one of the values of 32 bytes.
    fn set_block(&mut self, name: &str, block: [u8; 32]) -> Result<(), Problem> {
        match name {
            "client_point" => self.client_point = block,
            "server_point" => self.server_point = block,
            "shared" => self.shared = block,
            "hash" => self.hash = block,
            "session" => self.session = block,
            _ => return Err(Problem::NotALine),
        }
        Ok(())
    }

    fn inputs(&self) -> ExchangeInputs<'_> {
        ExchangeInputs {
            client_version: &self.client_version,
            server_version: &self.server_version,
            client_init: &self.client_init,
            server_init: &self.server_init,
            host_key: &self.host_key,
            client_point: &self.client_point,
            server_point: &self.server_point,
            shared: &self.shared,
        }
    }

    // What comes of the text of the exchange.
    fn hashed(&self, words: &str) -> Result<String, Problem> {
        let inputs = self.inputs();
        if !inputs.fits() {
            return Err(Problem::NotALine);
        }
        let text = exchange_text(self.alloc, &inputs)?;
        match words {
            "hash" => digits_of(self.alloc, &exchange_hash(&inputs)),
            "digest" => digits_of(self.alloc, &Sha256::digest(&text)),
            "length" => shown(self.alloc, text.len()),
            _ => part_of(self.alloc, &text, words),
        }
    }

    // A key of so many bytes.
    fn key(&self, letter: &str, length: &str) -> Result<String, Problem> {
        let letter = letter_of(letter)?;
        let mut key = vec![in self.alloc; 0; parsed(length)? as usize]?;
        derive(&self.shared, &self.hash, letter, &self.session, &mut key);
        if key.is_empty() {
            return text_of(self.alloc, "nothing");
        }
        digits_of(self.alloc, &key)
    }

    // What comes of the lists of the two KEXINITs.
    fn listed(&self, word: &str) -> Result<String, Problem> {
        let client = lists_of(&self.client_init)?;
        let server = lists_of(&self.server_init)?;
        match word {
            "choice" => chosen(self.alloc, choose(&client, &server)),
            "owned" => owned(self.alloc, choose(&client, &server)),
            "guess" => shown(self.alloc, guess_wrong(&client, &server)),
            "client" => marked(self.alloc, &client),
            "server" => marked(self.alloc, &server),
            _ => Err(Problem::NotALine),
        }
    }
}

impl Layer for ValueLines {
    fn said_to(&mut self, line: &str) -> Result<String, Problem> {
        let Some((word, rest)) = line.split_once(' ') else {
            return Err(Problem::NotALine);
        };
        match (word, rest.split_once(' ')) {
            ("set", Some((name, digits))) => self.set(name, digits),
            ("key", Some((letter, length))) => self.key(letter, length),
            ("text", _) => self.hashed(rest),
            ("lists", None) => self.listed(rest),
            ("toy", None) => digits_of(self.alloc, ToySigner.key(ALGORITHM)),
            ("toy", Some(("share", secrets))) => shared(self.alloc, secrets),
            ("toy", Some(("trust", words))) => trusted(self.alloc, words),
            _ => Err(Problem::NotALine),
        }
    }
}

fn block_in(bytes: &[u8]) -> Result<[u8; 32], Problem> {
    <[u8; 32]>::try_from(bytes).map_err(|_| Problem::NotALine)
}

fn letter_of(word: &str) -> Result<KeyPurpose, Problem> {
    match word {
        "A" => Ok(KeyPurpose::A),
        "B" => Ok(KeyPurpose::B),
        "C" => Ok(KeyPurpose::C),
        "D" => Ok(KeyPurpose::D),
        "E" => Ok(KeyPurpose::E),
        "F" => Ok(KeyPurpose::F),
        _ => Err(Problem::NotALine),
    }
}

// The bytes between two places.
fn part_of(alloc: Global, text: &[u8], places: &str) -> Result<String, Problem> {
    let Some((from, to)) = places.split_once(' ') else {
        return Err(Problem::NotALine);
    };
    match text.get(parsed(from)? as usize..parsed(to)? as usize) {
        Some(part) => digits_of(alloc, part),
        None => Err(Problem::NotALine),
    }
}

// The lists of a KEXINIT.
fn lists_of(payload: &[u8]) -> Result<KexLists<'_>, Problem> {
    match decode(false, payload) {
        Ok(Message::KexInit(proposal)) => Ok(KexLists::from(proposal)),
        _ => Err(Problem::NotALine),
    }
}

fn chosen(alloc: Global, choice: Result<Choice<'_>, NoCommon>) -> Result<String, Problem> {
    let choice = match choice {
        Ok(choice) => choice,
        Err(refusal) => return Ok(format!(in alloc; "refused {:?}", refusal.kind)?),
    };
    let mut text = format!(in alloc; "{}", choice.kex.as_bytes().escape_ascii())?;
    let names = [
        choice.host,
        choice.enc_cs,
        choice.enc_sc,
        choice.mac_cs,
        choice.mac_sc,
        choice.comp_cs,
        choice.comp_sc,
    ];
    for name in names {
        write!(text, " {}", name.as_bytes().escape_ascii())?;
    }
    Ok(text)
}

// The method and the encryption from the server to the client.
fn owned(alloc: Global, choice: Result<Choice<'_>, NoCommon>) -> Result<String, Problem> {
    let Ok(choice) = choice else {
        return Err(Problem::NotALine);
    };
    let owned = OwnedChoice::from(choice);
    let kex = owned.kex.as_name().as_bytes().escape_ascii();
    let enc_sc = owned.enc_sc.as_bytes().escape_ascii();
    Ok(format!(in alloc; "{kex} {enc_sc}")?)
}

// Which markers a KEXINIT has.
fn marked(alloc: Global, lists: &KexLists<'_>) -> Result<String, Problem> {
    let strict = markers(lists);
    let extensions = extension_markers(lists);
    Ok(format!(in alloc; "strict {strict:?} extensions {extensions:?}")?)
}

// What one end shares with another, each knowing the other's point.
fn shared(alloc: Global, secrets: &str) -> Result<String, Problem> {
    let Some((secret, other)) = secrets.split_once(' ') else {
        return Err(Problem::NotALine);
    };
    let secret = block_in(&bytes_of(alloc, secret)?)?;
    let other = block_in(&bytes_of(alloc, other)?)?;
    match ToyAgreement.shared(&secret, &ToyAgreement.public(&other)) {
        Some(number) => digits_of(alloc, &number),
        None => text_of(alloc, "nothing"),
    }
}

// Whether a key and the signature of a hash are trusted for another hash.
fn trusted(alloc: Global, words: &str) -> Result<String, Problem> {
    let mut words = words.split(' ');
    let key = bytes_of(alloc, words.next().unwrap_or(""))?;
    let signed = bytes_of(alloc, words.next().unwrap_or(""))?;
    let hash = bytes_of(alloc, words.next().unwrap_or(""))?;
    let mut room = [0; 4096];
    let length = ToySigner.sign(ALGORITHM, &block_in(&signed)?, &mut room);
    let answer = ToyTrust.judge(ALGORITHM, &key, &block_in(&hash)?, &room[..length]);
    shown(alloc, answer)
}
