//! Asks of a client's user: requests for the connection.

ghost use Rattle.std.specs.Prelude.{◌≡◌};
ghost use Rattle.ssh_auth.specs.Asking.{ask_of};
ghost use Rattle.ssh_script.specs.Asks.{ask_of_user};

use crate::ask_line::AskLine;
use crate::form::AskForm;
use crate::word_fault::WordFault;
use crate::words;
use ssh_auth::UserAsk;
use std::alloc::Global;

/// A request for the connection that a client is asked to send (RFC 4252).
#[derive(Drop)]
pub enum UserLine {
    /// By `none` (section 5.2).
    None {
        user: Vec<u8>,
    },
    /// By `password` (section 8).
    Password {
        user: Vec<u8>,
        password: Vec<u8>,
    },
    /// By `publickey` without a signature (section 7).
    Probe {
        user: Vec<u8>,
        algorithm: Vec<u8>,
        key: Vec<u8>,
    },
    /// By `publickey`, signed (section 7).
    Sign {
        user: Vec<u8>,
        algorithm: Vec<u8>,
        key: Vec<u8>,
    },
}

impl UserLine {
    /// The ask, as a client takes it.
    pub fn to_ask(&self) -> UserAsk<'_>
        ensures { ask_of result ≡ ask_of_user self.now }
    {
        match self {
            UserLine::None { user } => UserAsk::None {
                user: user.as_slice(),
            },
            UserLine::Password { user, password } => UserAsk::Password {
                user: user.as_slice(),
                password: password.as_slice(),
            },
            UserLine::Probe {
                user,
                algorithm,
                key,
            } => UserAsk::Probe {
                user: user.as_slice(),
                algorithm: algorithm.as_slice(),
                key: key.as_slice(),
            },
            UserLine::Sign {
                user,
                algorithm,
                key,
            } => UserAsk::Sign {
                user: user.as_slice(),
                algorithm: algorithm.as_slice(),
                key: key.as_slice(),
            },
        }
    }
}

// Each takes the words after the line's first: the side, the ask's word, and what is asked.

pub(crate) fn none<'a>(alloc: Global, words: &[&'a str]) -> Result<AskLine, WordFault<'a>> {
    let [_, _, user] = words else {
        return AskForm::None.other_words(words);
    };
    let user = words::text(alloc, user)?;
    Ok(AskLine::User(UserLine::None { user }))
}

pub(crate) fn password<'a>(alloc: Global, words: &[&'a str]) -> Result<AskLine, WordFault<'a>> {
    let [_, _, user, password] = words else {
        return AskForm::Password.other_words(words);
    };
    let user = words::text(alloc, user)?;
    let password = words::text(alloc, password)?;
    Ok(AskLine::User(UserLine::Password { user, password }))
}

pub(crate) fn probe<'a>(alloc: Global, words: &[&'a str]) -> Result<AskLine, WordFault<'a>> {
    let [_, _, user, algorithm, key] = words else {
        return AskForm::Probe.other_words(words);
    };
    Ok(AskLine::User(UserLine::Probe {
        user: words::text(alloc, user)?,
        algorithm: words::text(alloc, algorithm)?,
        key: words::bytes(alloc, key)?,
    }))
}

pub(crate) fn sign<'a>(alloc: Global, words: &[&'a str]) -> Result<AskLine, WordFault<'a>> {
    let [_, _, user, algorithm, key] = words else {
        return AskForm::Sign.other_words(words);
    };
    Ok(AskLine::User(UserLine::Sign {
        user: words::text(alloc, user)?,
        algorithm: words::text(alloc, algorithm)?,
        key: words::bytes(alloc, key)?,
    }))
}
