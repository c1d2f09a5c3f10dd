//! The setup of the two ends of a session, besides the parts that every session has.

use crate::form::Form;
use crate::line::Line;
use crate::word_fault::WordFault;
use crate::words;
use ssh_message::Extension;
use ssh_transport::{ConfigLimit, ConfigRefusal, ExtensionFault, Strictness};
use ssh_types::bounds::{LONGEST_EXTENSION_VALUE, MOST_EXTENSIONS};
use ssh_types::{Name, Side};
use std::alloc::Global;

/// Whom a server lets in, and the settings of both ends.
#[derive(Drop)]
pub struct Setup {
    /// In the order of their lines.
    pub credentials: Vec<Credential>,
    pub client: EndSetup,
    pub server: EndSetup,
}

/// The requests that a server's judge accepts.
#[derive(Drop)]
pub enum Credential {
    /// This password of the user.
    Password { user: Vec<u8>, word: Vec<u8> },
    /// This key of the user, under any name of an algorithm.
    Key { user: Vec<u8>, key: Vec<u8> },
}

/// The settings of an end that a script may choose.
#[derive(Drop)]
pub struct EndSetup {
    /// None if the script does not say it.
    pub epoch_limit: Option<Line<u32>>,
    pub strictness: Strictness,
    /// Whether it takes extensions of its peer.
    pub takes_extensions: bool,
    /// The extensions that it announces, in the order of the lines.
    pub extensions: Vec<Line<ExtensionPair>>,
}

/// An extension of RFC 8308, with texts of its own.
#[derive(Drop)]
pub struct ExtensionPair {
    pub name: Vec<u8>,
    pub value: Vec<u8>,
}

impl ExtensionPair {
    /// The extension, as settings take it.
    pub fn to_extension(&self) -> Extension<'_> {
        Extension {
            name: self.name.as_slice(),
            value: self.value.as_slice(),
        }
    }
}

impl EndSetup {
    fn new(alloc: Global) -> EndSetup {
        EndSetup {
            epoch_limit: None,
            strictness: Strictness::Require,
            takes_extensions: false,
            extensions: Vec::new(alloc),
        }
    }

    /// The number of the line because of which settings with this setup are refused in this way. None if it is no line of the script.
    pub(crate) fn line_of(&self, refusal: ConfigRefusal) -> Option<usize> {
        match refusal {
            ConfigRefusal::BadLimit(ConfigLimit::EpochLimit) => {
                self.epoch_limit.as_ref().map(|limit| limit.number)
            }
            ConfigRefusal::BadExtension(fault) => self.line_of_extension(fault),
            _ => None,
        }
    }

    fn line_of_extension(&self, fault: ExtensionFault) -> Option<usize> {
        let lines = self.extensions.as_slice();
        let line = match fault {
            ExtensionFault::NotTaken => lines.first(),
            ExtensionFault::TooMany => lines.get(MOST_EXTENSIONS),
            ExtensionFault::NotName => lines
                .iter()
                .find(|line| Name::new(line.content.name.as_slice()).is_none()),
            ExtensionFault::LongValue => lines
                .iter()
                .find(|line| line.content.value.len() > LONGEST_EXTENSION_VALUE),
            ExtensionFault::NameTwice => second_of_a_name(lines),
        };
        line.map(|line| line.number)
    }
}

// The first line whose name stands in one before it.
fn second_of_a_name(lines: &[Line<ExtensionPair>]) -> Option<&Line<ExtensionPair>> {
    for (at, line) in lines.iter().enumerate() {
        let before = lines.get(..at)?;
        if before
            .iter()
            .any(|other| other.content.name == line.content.name)
        {
            return Some(line);
        }
    }
    None
}

impl Setup {
    pub(crate) fn new(alloc: Global) -> Setup {
        Setup {
            credentials: Vec::new(alloc),
            client: EndSetup::new(alloc),
            server: EndSetup::new(alloc),
        }
    }

    pub(crate) fn user<'a>(
        &mut self,
        alloc: Global,
        words: &[&'a str],
    ) -> Result<(), WordFault<'a>> {
        let [user, word] = words else {
            return Form::User.other_words(words);
        };
        let user = words::text(alloc, user)?;
        let word = words::text(alloc, word)?;
        self.credentials.push(Credential::Password { user, word })?;
        Ok(())
    }

    pub(crate) fn key<'a>(
        &mut self,
        alloc: Global,
        words: &[&'a str],
    ) -> Result<(), WordFault<'a>> {
        let [user, key] = words else {
            return Form::Key.other_words(words);
        };
        let user = words::text(alloc, user)?;
        let key = words::bytes(alloc, key)?;
        self.credentials.push(Credential::Key { user, key })?;
        Ok(())
    }

    pub(crate) fn limit<'a>(
        &mut self,
        number: usize,
        words: &[&'a str],
    ) -> Result<(), WordFault<'a>> {
        let [side, limit] = words else {
            return Form::Limit.other_words(words);
        };
        let side = words::side(side)?;
        let content = words::number(limit)?;
        self.end(side).epoch_limit = Some(Line { number, content });
        Ok(())
    }

    pub(crate) fn strict<'a>(&mut self, words: &[&'a str]) -> Result<(), WordFault<'a>> {
        let [side, strictness] = words else {
            return Form::Strict.other_words(words);
        };
        let side = words::side(side)?;
        self.end(side).strictness = match *strictness {
            "require" => Strictness::Require,
            "offer" => Strictness::Offer,
            "off" => Strictness::Off,
            met => return Form::Strict.other_word(met),
        };
        Ok(())
    }

    pub(crate) fn extension<'a>(
        &mut self,
        alloc: Global,
        number: usize,
        words: &[&'a str],
    ) -> Result<(), WordFault<'a>> {
        let (side, pair) = match words {
            [side] => (words::side(side)?, None),
            [side, name, value] => (words::side(side)?, Some((name, value))),
            _ => return Form::Extension.other_words(words),
        };
        let end = self.end(side);
        if let Some((name, value)) = pair {
            let name = words::text(alloc, name)?;
            let value = words::bytes(alloc, value)?;
            let content = ExtensionPair { name, value };
            end.extensions.push(Line { number, content })?;
        }
        end.takes_extensions = true;
        Ok(())
    }

    fn end(&mut self, side: Side) -> &mut EndSetup {
        match side {
            Side::Client => &mut self.client,
            Side::Server => &mut self.server,
        }
    }
}
