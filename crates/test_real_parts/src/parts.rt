//! Parts of an end with real ciphers. Of curve25519-sha256, `point` and a secret give a public point, and `share`, a secret and a point
//! what is shared.
//!
//! `trust` and a host key say whether a host can be trusted by it, which then is done. `public` and 32 bytes have a key trusted without a
//! look. The trusted key is also that of the user `u`, and the user `v` has one of 32 bytes 01.
//!
//! `host-key`, a secret and an algorithm give a host's key, and `host-sign`, these and a hash its signature. `user-key` and a secret give a
//! user's key, and `user-sign`, a secret, an algorithm, a key and a text its signature. `host-judge` and `user-judge` say whether it is
//! accepted: an algorithm, a key, a hash or a text, and a signature. `user-known`, a user, an algorithm and a key say whether the key may
//! be used. No longer key or name is taken than a server puts to its judge. `password`, a user and a word say whether the user is let in
//! by the word, and `none` and a user whether by nothing.
//!
//! `lengths`, an encryption and a MAC give how much key material they take, where AES-GCM or else a MAC alone seals. `key`, the two names,
//! an IV, a key and a MAC's key have packets sealed so. It gives the size of a block, whether the length counts in it, and the size of a
//! tag. `nonce` and a number give the nonce of a packet under AES-GCM. `seal`, a number and a payload give the payload's packet, padded by
//! zeros. `open`, a number and bytes say how many of the bytes are taken and what they are, and give the payload.

use crate::cipher_lines::{key_bytes, parted, shown, verdict};
use divrelca::{
    AcceptedKey, AesGcm, Curve25519, Ed25519Judge, Ed25519Signer, Ed25519Trust, Either, EitherKey,
    PacketKey,
};
use ssh_auth::{UserJudge, UserSigner};
use ssh_kex::{Agreement, HostSigner, HostTrust};
use ssh_packet::{HmacKey, MacOnly, PacketReader, Sealing, write_packet};
use ssh_toys::ToyFiller;
use ssh_toys::lines::{Layer, Problem, bytes_of, parsed};
use ssh_types::bounds::{LONGEST_ALGORITHM_NAME, LONGEST_USER_KEY};
use std::alloc::Global;

type Both = Either<AesGcm, MacOnly>;

/// Parts that are told lines.
#[derive(Drop)]
pub struct PartLines {
    alloc: Global,
    trust: Ed25519Trust,
    // None until a line makes one.
    key: Option<EitherKey<PacketKey, HmacKey>>,
}

impl PartLines {
    /// Lines of parts, where no key is trusted.
    pub fn new(alloc: Global) -> PartLines {
        PartLines {
            alloc,
            trust: Ed25519Trust { public: [0; 32] },
            key: None,
        }
    }

    fn pointed(&self, secret: &str) -> Result<String, Problem> {
        shown(self.alloc, &Curve25519.public(&key_bytes(secret)?))
    }

    fn shared(&self, secret: &str, point: &str) -> Result<String, Problem> {
        match Curve25519.shared(&key_bytes(secret)?, &key_bytes(point)?) {
            Some(bytes) => shown(self.alloc, &bytes),
            None => shown(self.alloc, b""),
        }
    }

    fn trusted(&mut self, key: &str) -> Result<String, Problem> {
        let found = Ed25519Trust::from_key(&bytes_of(self.alloc, key)?);
        if let Some(trust) = found {
            self.trust = trust;
        }
        verdict(self.alloc, found.is_some())
    }

    fn made_public(&mut self, key: &str) -> Result<String, Problem> {
        let public = key_bytes(key)?;
        self.trust = Ed25519Trust { public };
        Ok(String::new(self.alloc))
    }

    // The keys of the users `v` and `u`.
    fn accepted(&self) -> [AcceptedKey<'static>; 2] {
        let public = self.trust.public;
        [
            AcceptedKey {
                user: b"v",
                public: [1; 32],
            },
            AcceptedKey { user: b"u", public },
        ]
    }

    // Whether a user is let in by a word, or by nothing.
    fn is_let_in(&self, user: &str, word: Option<&str>) -> bool {
        let accepted = self.accepted();
        let judge = Ed25519Judge {
            accepted: &accepted,
        };
        match word {
            Some(word) => judge.password(user.as_bytes(), word.as_bytes()),
            None => judge.none(user.as_bytes()),
        }
    }

    fn judged_as_host(&self, algorithm: &str, rest: &str) -> Result<String, Problem> {
        let (key, rest) = parted(rest)?;
        let (hash, signature) = parted(rest)?;
        let key = bytes_of(self.alloc, key)?;
        let hash = key_bytes(hash)?;
        let signature = bytes_of(self.alloc, signature)?;
        let is_good = self
            .trust
            .judge(algorithm.as_bytes(), &key, &hash, &signature);
        verdict(self.alloc, is_good)
    }

    fn judged_as_user(&self, algorithm: &str, rest: &str) -> Result<String, Problem> {
        let (key, rest) = parted(rest)?;
        let (text, signature) = parted(rest)?;
        let key = bytes_of(self.alloc, key)?;
        let text = bytes_of(self.alloc, text)?;
        let signature = bytes_of(self.alloc, signature)?;
        let accepted = self.accepted();
        let judge = Ed25519Judge {
            accepted: &accepted,
        };
        if algorithm.len() > LONGEST_ALGORITHM_NAME || key.len() > LONGEST_USER_KEY {
            return Err(Problem::NotALine);
        }
        let is_good = judge.signature(algorithm.as_bytes(), &key, &text, &signature);
        verdict(self.alloc, is_good)
    }

    fn known(&self, user: &str, rest: &str) -> Result<String, Problem> {
        let (algorithm, key) = parted(rest)?;
        let key = bytes_of(self.alloc, key)?;
        let accepted = self.accepted();
        let judge = Ed25519Judge {
            accepted: &accepted,
        };
        if algorithm.len() > LONGEST_ALGORITHM_NAME || key.len() > LONGEST_USER_KEY {
            return Err(Problem::NotALine);
        }
        let is_known = judge.key_known(user.as_bytes(), algorithm.as_bytes(), &key);
        verdict(self.alloc, is_known)
    }

    fn keyed(&mut self, enc: &str, rest: &str) -> Result<String, Problem> {
        let (mac, rest) = parted(rest)?;
        let (iv, rest) = parted(rest)?;
        let (key, mac_key) = parted(rest)?;
        let iv = bytes_of(self.alloc, iv)?;
        let key = bytes_of(self.alloc, key)?;
        let mac_key = bytes_of(self.alloc, mac_key)?;
        let made = packet_key(self.alloc, (enc, mac), &iv, &key, &mac_key)?;
        let sizes = (
            Both::block(&made),
            Both::counts_length(&made),
            Both::tag_len(&made),
        );
        self.key = Some(made);
        Ok(format!(in self.alloc; "{sizes:?}")?)
    }

    fn nonce(&self, number: &str) -> Result<String, Problem> {
        match &self.key {
            Some(EitherKey::First(key)) => shown(self.alloc, &key.nonce(parsed(number)?)),
            _ => Err(Problem::NotALine),
        }
    }

    fn sealed(&self, number: &str, payload: &str) -> Result<String, Problem> {
        let number = parsed(number)?;
        let payload = bytes_of(self.alloc, payload)?;
        if payload.is_empty() || payload.len() > 1000 {
            return Err(Problem::NotALine);
        }
        let mut filler = ToyFiller { byte: 0 };
        let mut out = Vec::new(self.alloc);
        write_packet::<Both, ToyFiller>(
            &payload,
            self.key.as_ref(),
            number,
            &mut filler,
            &mut out,
        )?;
        shown(self.alloc, &out)
    }

    fn opened(&self, number: &str, bytes: &str) -> Result<String, Problem> {
        let number = parsed(number)?;
        let bytes = bytes_of(self.alloc, bytes)?;
        let mut reader = PacketReader::new(self.alloc)?;
        let (used, step) = reader.take::<Both>(self.key.as_ref(), number, &bytes);
        let payload = shown(self.alloc, reader.payload())?;
        Ok(format!(in self.alloc; "{used} {step:?} {payload}")?)
    }
}

impl Layer for PartLines {
    fn said_to(&mut self, line: &str) -> Result<String, Problem> {
        let (word, rest) = parted(line)?;
        match (word, rest.split_once(' ')) {
            ("point", None) => self.pointed(rest),
            ("share", Some((secret, point))) => self.shared(secret, point),
            ("trust", None) => self.trusted(rest),
            ("public", None) => self.made_public(rest),
            ("none", None) => verdict(self.alloc, self.is_let_in(rest, None)),
            ("password", Some((user, word))) => {
                verdict(self.alloc, self.is_let_in(user, Some(word)))
            }
            ("user-known", Some((user, rest))) => self.known(user, rest),
            ("user-judge", Some((algorithm, rest))) => self.judged_as_user(algorithm, rest),
            ("host-judge", Some((algorithm, rest))) => self.judged_as_host(algorithm, rest),
            ("key", Some((enc, rest))) => self.keyed(enc, rest),
            ("nonce", None) => self.nonce(rest),
            ("seal", Some((number, payload))) => self.sealed(number, payload),
            ("open", Some((number, bytes))) => self.opened(number, bytes),
            (_, Some((first, rest))) => unkept(self.alloc, word, first, rest),
            ("user-key", None) => shown(self.alloc, signer(rest)?.public_key()),
            _ => Err(Problem::NotALine),
        }
    }
}

// Lines that are the same whatever was told before.
fn unkept(alloc: Global, word: &str, first: &str, rest: &str) -> Result<String, Problem> {
    match word {
        "host-key" => shown(alloc, HostSigner::key(&signer(first)?, rest.as_bytes())),
        "host-sign" => signed_by_host(alloc, first, rest),
        "user-sign" => signed_by_user(alloc, first, rest),
        "lengths" => {
            let lengths = Both::lengths(first.as_bytes(), rest.as_bytes());
            Ok(format!(in alloc; "{lengths:?}")?)
        }
        _ => Err(Problem::NotALine),
    }
}

fn signer(seed: &str) -> Result<Ed25519Signer, Problem> {
    Ok(Ed25519Signer::new(&key_bytes(seed)?))
}

fn signed_by_host(alloc: Global, seed: &str, rest: &str) -> Result<String, Problem> {
    let (algorithm, hash) = parted(rest)?;
    let mut out = [0; 4096];
    let pair = signer(seed)?;
    let size = HostSigner::sign(&pair, algorithm.as_bytes(), &key_bytes(hash)?, &mut out);
    shown(alloc, &out[..size])
}

fn signed_by_user(alloc: Global, seed: &str, rest: &str) -> Result<String, Problem> {
    let (algorithm, rest) = parted(rest)?;
    let (key, text) = parted(rest)?;
    let key = bytes_of(alloc, key)?;
    let text = bytes_of(alloc, text)?;
    let mut out = [0; 4096];
    let pair = signer(seed)?;
    let size = UserSigner::sign(&pair, b"u", algorithm.as_bytes(), &key, &text, &mut out);
    shown(alloc, &out[..size])
}

// A key of packets, whose material has the lengths that go with the names of an encryption and a MAC.
fn packet_key(
    alloc: Global,
    names: (&str, &str),
    iv: &[u8],
    key: &[u8],
    mac_key: &[u8],
) -> Result<EitherKey<PacketKey, HmacKey>, Problem> {
    let enc = names.0.as_bytes();
    let mac = names.1.as_bytes();
    match Both::lengths(enc, mac) {
        Some(l) if l.iv == iv.len() && l.cipher == key.len() && l.mac == mac_key.len() => {
            Ok(Both::make(alloc, enc, mac, iv, key, mac_key)?)
        }
        _ => Err(Problem::NotALine),
    }
}
