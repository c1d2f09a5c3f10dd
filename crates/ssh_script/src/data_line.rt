//! Asks for data on a channel, for room for the peer's, and for an end of both.

ghost use Rattle.std.specs.Prelude.{◌≡◌};
ghost use Rattle.ssh_channels.specs.Values.{ask_of};
ghost use Rattle.ssh_script.specs.Asks.{ask_of_data};

use crate::ask_line::AskLine;
use crate::form::AskForm;
use crate::word_fault::WordFault;
use crate::words;
use ssh_channels::Ask;
use std::alloc::Global;

/// An ask about an open channel (RFC 4254 sections 5.2 and 5.3). It goes by the end's own number.
#[derive(Drop)]
pub enum DataLine {
    Data {
        channel: u32,
        body: Vec<u8>,
    },
    /// Sends data of a kind.
    Extended {
        channel: u32,
        kind: u32,
        body: Vec<u8>,
    },
    /// Lets the peer send this many more bytes.
    Adjust {
        channel: u32,
        bytes: u32,
    },
    /// Says that no more data is sent.
    Eof {
        channel: u32,
    },
    Close {
        channel: u32,
    },
}

impl DataLine {
    /// The ask, as channels take it.
    pub fn to_ask(&self) -> Ask<'_>
        ensures { ask_of result ≡ ask_of_data self.now }
    {
        match self {
            DataLine::Data { channel, body } => Ask::Data {
                channel: *channel,
                kind: None,
                body: body.as_slice(),
            },
            DataLine::Extended {
                channel,
                kind,
                body,
            } => Ask::Data {
                channel: *channel,
                kind: Some(*kind),
                body: body.as_slice(),
            },
            DataLine::Adjust { channel, bytes } => Ask::Adjust {
                channel: *channel,
                bytes: *bytes,
            },
            DataLine::Eof { channel } => Ask::Eof { channel: *channel },
            DataLine::Close { channel } => Ask::Close { channel: *channel },
        }
    }
}

// Each takes the words after the line's first: the side, the ask's word, and what is asked.

pub(crate) fn data<'a>(alloc: Global, words: &[&'a str]) -> Result<AskLine, WordFault<'a>> {
    let [_, _, channel, body] = words else {
        return AskForm::Data.other_words(words);
    };
    let channel = words::number(channel)?;
    let body = words::bytes(alloc, body)?;
    Ok(AskLine::Data(DataLine::Data { channel, body }))
}

pub(crate) fn extended<'a>(alloc: Global, words: &[&'a str]) -> Result<AskLine, WordFault<'a>> {
    let [_, _, channel, kind, body] = words else {
        return AskForm::Extended.other_words(words);
    };
    Ok(AskLine::Data(DataLine::Extended {
        channel: words::number(channel)?,
        kind: words::number(kind)?,
        body: words::bytes(alloc, body)?,
    }))
}

pub(crate) fn adjust<'a>(words: &[&'a str]) -> Result<AskLine, WordFault<'a>> {
    let [_, _, channel, bytes] = words else {
        return AskForm::Adjust.other_words(words);
    };
    let channel = words::number(channel)?;
    let bytes = words::number(bytes)?;
    Ok(AskLine::Data(DataLine::Adjust { channel, bytes }))
}

pub(crate) fn eof<'a>(words: &[&'a str]) -> Result<AskLine, WordFault<'a>> {
    let [_, _, channel] = words else {
        return AskForm::Eof.other_words(words);
    };
    let channel = words::number(channel)?;
    Ok(AskLine::Data(DataLine::Eof { channel }))
}

pub(crate) fn close<'a>(words: &[&'a str]) -> Result<AskLine, WordFault<'a>> {
    let [_, _, channel] = words else {
        return AskForm::Close.other_words(words);
    };
    let channel = words::number(channel)?;
    Ok(AskLine::Data(DataLine::Close { channel }))
}
