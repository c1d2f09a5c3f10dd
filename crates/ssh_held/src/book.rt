//! What a program said on users.

ghost use Rattle.std.specs.Prelude.{◌≡◌, ◌++◌, None, OnErr, OnOk, [], ◌∷◌};
ghost use Rattle.std.specs.Option.{option_copied};
ghost use Rattle.ssh_model.specs.Protocol.Wire.Message.{Method.Publickey};
ghost use Rattle.ssh_message.specs.Meaning.{method_meaning};
ghost use Rattle.ssh_held.specs.Book.{awaits_signature, is_about, is_admission, is_key, is_on_signature, is_over, is_said, is_signed};
ghost use Rattle.ssh_held.specs.Book.{is_word, judge_by, said, verdict_on};
ghost use Rattle.ssh_held.specs.Held.{signatures_by};

use crate::known_algorithms::KnowsAlgorithms;
use ssh_auth::UserJudge;
use ssh_message::Method;
use std::alloc::{AllocError, Global};

/// What a request for authentication asks a program.
#[derive(Drop)]
pub enum Asked {
    /// Whether this user is admitted without a credential (RFC 4252 section 5.2).
    Admission(Vec<u8>),
    /// Whether this is the password of this user (RFC 4252 section 8): the user, then the password.
    Password(Vec<u8>, Vec<u8>),
    /// Whether this is a key of this user (RFC 4252 section 7): the user, the name of the algorithm, and the key.
    Key(Vec<u8>, Vec<u8>, Vec<u8>),
    /// Whether this is the signature of this text by this key (RFC 4252 section 7). It is asked about a key to which the program said
    /// yes, of an algorithm that the judge of signatures does not know.
    Signature {
        /// The name of the algorithm.
        algorithm: Vec<u8>,
        /// The key.
        key: Vec<u8>,
        /// The text that is signed: it has the session id, the user, the algorithm and the key.
        text: Vec<u8>,
        /// The signature.
        signature: Vec<u8>,
    },
}

/// What a program said on a question.
#[derive(Drop)]
pub struct Verdict {
    /// The question.
    pub asked: Asked,
    /// Whether the program accepts.
    pub accepts: bool,
}

/// A judge of a server's users by what a program said. It accepts nothing on which nothing was said.
#[derive(Drop)]
pub struct Verdicts<S: UserJudge + KnowsAlgorithms + Copy + Drop> {
    /// The verdicts, the oldest first.
    pub list: Vec<Verdict>,
    /// It judges the signatures of the algorithms that it knows, and is asked about nothing else.
    pub signatures: S,
}

impl<S: UserJudge + KnowsAlgorithms + Copy + Drop> Verdicts<S> {
    /// No verdicts, so that nobody is let in.
    pub fn new(alloc: Global, signatures: S) -> Verdicts<S>
        ensures list { result.list.items ≡ [] }
        ensures signatures { result.signatures ≡ signatures }
    {
        Verdicts {
            list: Vec::new(alloc),
            signatures,
        }
    }

    /// Adds what the program said on a question. The first verdict on a question counts, and another one changes nothing.
    ///
    /// # Errors
    ///
    /// Only if memory is refused: nothing changes.
    pub fn give(&mut self, asked: Asked, accepts: bool) -> Result<(), AllocError>
        ensures given { OnOk result (self.new.list.items ≡ self.old.list.items ++ record { asked = asked; accepts = accepts } ∷ []) }
        ensures same { OnErr result (self.new.list.items ≡ self.old.list.items) }
        ensures signatures { self.new.signatures ≡ self.old.signatures }
    {
        self.list.push(Verdict { asked, accepts })?;
        Ok(())
    }

    /// What the program said on the first question of a request of this user with this method, if it said something. Of a request with a
    /// key that is the key, whatever is signed with it.
    pub fn said(&self, user: &[u8], method: &Method<'_>) -> Option<bool>
        ensures { result ≡ said self.now.list.items user.now (method_meaning method.now) }
    {
        match self
            .list
            .iter()
            .find(|verdict| is_about(user, method, &verdict.asked))
        {
            Some(verdict) => Some(verdict.accepts),
            None => None,
        }
    }

    /// What the program said on this key of this user, if it said something: the question of a request with this key, signed or not.
    pub fn said_of_key(&self, user: &[u8], algorithm: &[u8], key: &[u8]) -> Option<bool>
        ensures { result ≡ said self.now.list.items user.now (Publickey algorithm.now key.now None) }
    {
        match self
            .list
            .iter()
            .find(|verdict| asks_key(&verdict.asked, user, algorithm, key))
        {
            Some(verdict) => Some(verdict.accepts),
            None => None,
        }
    }

    // The first verdict on this signature by this key, whatever text it is over.
    fn verdict_on(&self, algorithm: &[u8], key: &[u8], signature: &[u8]) -> Option<&Verdict>
        ensures { option_copied result ≡ verdict_on self.now.list.items algorithm.now key.now signature.now }
    {
        self.list.iter().find(|verdict| asks_signature(&verdict.asked, algorithm, key, signature))
    }

    /// Tests whether the program said yes to this signature by this key, over this text. The first verdict on a signature counts, so the
    /// same signature for another text is wrong.
    pub fn is_signed(&self, algorithm: &[u8], key: &[u8], text: &[u8], signature: &[u8]) -> bool
        ensures { result ≡ is_signed self.now.list.items algorithm.now key.now text.now signature.now }
    {
        match self.verdict_on(algorithm, key, signature) {
            Some(verdict) => verdict.accepts && is_over(&verdict.asked, text),
            None => false,
        }
    }

    /// Tests whether the signature is what a request of this user with this method asks about next: the program said yes to its key, the
    /// judge of signatures does not know its algorithm, and nothing was said on the signature.
    pub fn awaits_signature(&self, user: &[u8], method: &Method<'_>) -> bool
        ensures { result ≡ awaits_signature (S.knows self.now.signatures) self.now.list.items user.now (method_meaning method.now) }
    {
        match *method {
            Method::Publickey {
                algorithm,
                key,
                signature: Some(signature),
            } => {
                self.said_of_key(user, algorithm, key).unwrap_or(false)
                    && !self.signatures.knows(algorithm)
                    && self.verdict_on(algorithm, key, signature).is_none()
            }
            _ => false,
        }
    }

    /// Tests whether a request of this user with this method asks nothing more: the program said something on it, and its signature is not
    /// awaited.
    pub fn settles(&self, user: &[u8], method: &Method<'_>) -> bool
        ensures { result ≡ is_said (S.knows self.now.signatures) self.now.list.items user.now (method_meaning method.now) }
    {
        self.said(user, method).is_some() && !self.awaits_signature(user, method)
    }
}

impl<S: UserJudge + KnowsAlgorithms + Copy + Drop> UserJudge for Verdicts<S> {
    ghost verdicts = { λ judge. judge_by (signatures_by S.verdicts S.knows judge.signatures) judge.list.items };

    fn none(&self, user: &[u8]) -> bool {
        self.said(user, &Method::None).unwrap_or(false)
    }

    fn password(&self, user: &[u8], word: &[u8]) -> bool {
        let method = Method::Password {
            password: word,
            new_password: None,
        };
        self.said(user, &method).unwrap_or(false)
    }

    fn key_known(&self, user: &[u8], algorithm: &[u8], key: &[u8]) -> bool {
        self.said_of_key(user, algorithm, key).unwrap_or(false)
    }

    fn signature(&self, algorithm: &[u8], key: &[u8], text: &[u8], signature: &[u8]) -> bool {
        if self.signatures.knows(algorithm) {
            self.signatures.signature(algorithm, key, text, signature)
        } else {
            self.is_signed(algorithm, key, text, signature)
        }
    }
}

// Tests whether this is the first question of a request of this user with this method.
fn is_about(user: &[u8], method: &Method<'_>, asked: &Asked) -> bool
    ensures { result ≡ is_about user.now (method_meaning method.now) asked.now }
{
    match *method {
        Method::None => asks_admission(asked, user),
        Method::Password {
            password,
            new_password,
        } => match new_password {
            None => asks_word(asked, user, password),
            Some(_) => false,
        },
        Method::Publickey {
            algorithm,
            key,
            signature,
        } => match signature {
            None => asks_key(asked, user, algorithm, key),
            Some(_) => asks_key(asked, user, algorithm, key),
        },
        Method::Other { .. } => false,
    }
}

// Tests whether the question is on this user without a credential.
fn asks_admission(asked: &Asked, user: &[u8]) -> bool
    ensures { result ≡ is_admission user.now asked.now }
{
    match asked {
        Asked::Admission(name) => name.as_slice() == user,
        _ => false,
    }
}

// Tests whether the question is on this password of this user.
fn asks_word(asked: &Asked, user: &[u8], word: &[u8]) -> bool
    ensures { result ≡ is_word user.now word.now asked.now }
{
    match asked {
        Asked::Password(name, given) => name.as_slice() == user && given.as_slice() == word,
        _ => false,
    }
}

// Tests whether the question is on this key of this user.
fn asks_key(asked: &Asked, user: &[u8], algorithm: &[u8], key: &[u8]) -> bool
    ensures { result ≡ is_key user.now algorithm.now key.now asked.now }
{
    match asked {
        Asked::Key(name, method, given) => {
            name.as_slice() == user && method.as_slice() == algorithm && given.as_slice() == key
        }
        _ => false,
    }
}

// Tests whether the question is on this signature by this key.
fn asks_signature(asked: &Asked, algorithm: &[u8], key: &[u8], signature: &[u8]) -> bool
    ensures { result ≡ is_on_signature algorithm.now key.now signature.now asked.now }
{
    match asked {
        Asked::Signature {
            algorithm: method,
            key: given,
            text: _,
            signature: shown,
        } => {
            method.as_slice() == algorithm
                && given.as_slice() == key
                && shown.as_slice() == signature
        }
        _ => false,
    }
}

// Tests whether the question is on a signature of this text.
fn is_over(asked: &Asked, text: &[u8]) -> bool
    ensures { result ≡ is_over text.now asked.now }
{
    match asked {
        Asked::Signature { text: over, .. } => over.as_slice() == text,
        _ => false,
    }
}
