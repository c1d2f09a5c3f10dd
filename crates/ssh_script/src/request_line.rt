//! Asks for requests of the connection or of a channel, and replies to those of the peer.

ghost use Rattle.std.specs.Prelude.{◌≡◌, ◌↔◌, Ok, true, false, codes};
ghost use Rattle.ssh_channels.specs.Values.{ask_of};
ghost use Rattle.ssh_script.specs.Asks.{ask_of_request};

use crate::ask_line::AskLine;
use crate::form::{AskForm, Form};
use crate::word_fault::WordFault;
use crate::words;
use ssh_channels::Ask;
use std::alloc::Global;

/// An ask about requests (RFC 4254 sections 4 and 5.4). A channel goes by the end's own number.
#[derive(Drop)]
pub enum RequestLine {
    /// Makes a request on a channel, with a reply or without; `rest` is the request's own.
    Channel {
        channel: u32,
        name: Vec<u8>,
        want: bool,
        rest: Vec<u8>,
    },
    /// Replies to a request on a channel.
    Reply {
        channel: u32,
        success: bool,
    },
    /// Makes a global request, with a reply or without; `rest` is the request's own.
    Global {
        name: Vec<u8>,
        want: bool,
        rest: Vec<u8>,
    },
    /// Replies to a global request that it succeeded.
    GlobalSuccess {
        rest: Vec<u8>,
    },
    /// Replies to a global request that it failed.
    GlobalFailure,
}

impl RequestLine {
    /// The ask, as channels take it.
    pub fn to_ask(&self) -> Ask<'_>
        ensures { ask_of result ≡ ask_of_request self.now }
    {
        match self {
            RequestLine::Channel {
                channel,
                name,
                want,
                rest,
            } => Ask::Request {
                channel: *channel,
                name: name.as_slice(),
                want: *want,
                rest: rest.as_slice(),
            },
            RequestLine::Reply { channel, success } => Ask::Reply {
                channel: *channel,
                success: *success,
            },
            RequestLine::Global { name, want, rest } => Ask::Global {
                name: name.as_slice(),
                want: *want,
                rest: rest.as_slice(),
            },
            RequestLine::GlobalSuccess { rest } => Ask::GlobalReply {
                success: true,
                rest: rest.as_slice(),
            },
            RequestLine::GlobalFailure => Ask::GlobalReply {
                success: false,
                rest: &[],
            },
        }
    }
}

// Each takes the words after the line's first: the side, the ask's word, and what is asked.

pub(crate) fn request<'a>(alloc: Global, words: &[&'a str]) -> Result<AskLine, WordFault<'a>> {
    let [_, _, channel, name, want, rest @ ..] = words else {
        return AskForm::Request.other_words(words);
    };
    let Some(rest) = words::optional(rest) else {
        return AskForm::Request.other_words(words);
    };
    Ok(AskLine::Request(RequestLine::Channel {
        channel: words::number(channel)?,
        name: words::text(alloc, name)?,
        want: yes_or_no(AskForm::Request, want)?,
        rest: words::bytes(alloc, rest)?,
    }))
}

pub(crate) fn reply<'a>(words: &[&'a str]) -> Result<AskLine, WordFault<'a>> {
    let [_, _, channel, success] = words else {
        return AskForm::Reply.other_words(words);
    };
    let channel = words::number(channel)?;
    let success = yes_or_no(AskForm::Reply, success)?;
    Ok(AskLine::Request(RequestLine::Reply { channel, success }))
}

pub(crate) fn global<'a>(alloc: Global, words: &[&'a str]) -> Result<AskLine, WordFault<'a>> {
    let [_, _, name, want, rest @ ..] = words else {
        return AskForm::Global.other_words(words);
    };
    let Some(rest) = words::optional(rest) else {
        return AskForm::Global.other_words(words);
    };
    Ok(AskLine::Request(RequestLine::Global {
        name: words::text(alloc, name)?,
        want: yes_or_no(AskForm::Global, want)?,
        rest: words::bytes(alloc, rest)?,
    }))
}

pub(crate) fn global_reply<'a>(alloc: Global, words: &[&'a str]) -> Result<AskLine, WordFault<'a>> {
    let [_, _, success, rest @ ..] = words else {
        return AskForm::GlobalReply.other_words(words);
    };
    let success = yes_or_no(AskForm::GlobalReply, success)?;
    match (success, rest) {
        (false, []) => Ok(AskLine::Request(RequestLine::GlobalFailure)),
        (true, []) => Ok(AskLine::Request(RequestLine::GlobalSuccess {
            rest: Vec::new(alloc),
        })),
        (true, [rest]) => Ok(AskLine::Request(RequestLine::GlobalSuccess {
            rest: words::bytes(alloc, rest)?,
        })),
        _ => AskForm::GlobalReply.other_words(words),
    }
}

fn yes_or_no(form: AskForm, word: &str) -> Result<bool, WordFault<'_>>
    ensures yes { (result ≡ Ok true) ↔ (word.now ≡ codes "yes") }
    ensures no { (result ≡ Ok false) ↔ (word.now ≡ codes "no") }
{
    match word {
        "yes" => Ok(true),
        "no" => Ok(false),
        met => Form::Ask(form).other_word(met),
    }
}
