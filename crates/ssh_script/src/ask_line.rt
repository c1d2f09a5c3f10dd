//! The asks of a line.

ghost use Rattle.std.specs.Prelude.{◌≡◌};
ghost use Rattle.ssh_end_machine.specs.Asking.{ask_of as asked};
ghost use Rattle.ssh_script.specs.Asks.{ask_of_line};

use crate::data_line::{DataLine, adjust, close, data, eof, extended};
use crate::form::{AskForm, Form};
use crate::opening_line::{OpeningLine, confirm, open, refuse};
use crate::request_line::{RequestLine, global, global_reply, reply, request};
use crate::user_line::{UserLine, none, password, probe, sign};
use crate::word_fault::WordFault;
use crate::words;
use ssh_end::Ask;
use ssh_types::Side;
use std::alloc::Global;

/// An ask of a line, with texts of its own.
#[derive(Drop)]
pub enum AskLine {
    /// Asks for the service of authentication (RFC 4253 section 10).
    Service,
    /// Makes a request for the connection (RFC 4252 section 5).
    User(UserLine),
    /// Begins an exchange of keys (RFC 4253 section 9).
    Rekey,
    /// Opens a channel, or answers to one that is opened (RFC 4254 section 5.1).
    Opening(OpeningLine),
    /// Sends data on a channel, or ends it (RFC 4254 sections 5.2 and 5.3).
    Data(DataLine),
    /// Makes or answers a request of the connection or of a channel (RFC 4254 sections 4 and 5.4).
    Request(RequestLine),
    /// Ends the connection with this description (RFC 4253 section 11.1).
    Disconnect(Vec<u8>),
}

impl AskLine {
    /// The ask, as an end takes it.
    pub fn to_ask(&self) -> Ask<'_>
        ensures { asked result ≡ ask_of_line self.now }
    {
        match self {
            AskLine::Service => Ask::Service,
            AskLine::User(line) => Ask::User(line.to_ask()),
            AskLine::Rekey => Ask::Rekey,
            AskLine::Opening(line) => Ask::Connection(line.to_ask()),
            AskLine::Data(line) => Ask::Connection(line.to_ask()),
            AskLine::Request(line) => Ask::Connection(line.to_ask()),
            AskLine::Disconnect(description) => Ask::Disconnect(description.as_slice()),
        }
    }
}

/// The side and the ask of a line, by the words after its first.
pub(crate) fn side_and_ask<'a>(
    alloc: Global,
    words: &[&'a str],
) -> Result<(Side, AskLine), WordFault<'a>> {
    let [side, kind, ..] = words else {
        return Form::AnyAsk.other_words(words);
    };
    Ok((words::side(side)?, ask_line(alloc, kind, words)?))
}

fn ask_line<'a>(alloc: Global, kind: &'a str, words: &[&'a str]) -> Result<AskLine, WordFault<'a>> {
    match kind {
        "service" => service(words),
        "none" => none(alloc, words),
        "password" => password(alloc, words),
        "probe" => probe(alloc, words),
        "sign" => sign(alloc, words),
        "rekey" => rekey(words),
        "open" => open(alloc, words),
        "confirm" => confirm(alloc, words),
        "refuse" => refuse(words),
        "data" => data(alloc, words),
        "extended" => extended(alloc, words),
        "adjust" => adjust(words),
        "eof" => eof(words),
        "close" => close(words),
        "request" => request(alloc, words),
        "reply" => reply(words),
        "global" => global(alloc, words),
        "globalreply" => global_reply(alloc, words),
        "disconnect" => disconnect(alloc, words),
        kind => Err(WordFault::UnknownAsk(kind)),
    }
}

fn service<'a>(words: &[&'a str]) -> Result<AskLine, WordFault<'a>> {
    let [_, _] = words else {
        return AskForm::Service.other_words(words);
    };
    Ok(AskLine::Service)
}

fn rekey<'a>(words: &[&'a str]) -> Result<AskLine, WordFault<'a>> {
    let [_, _] = words else {
        return AskForm::Rekey.other_words(words);
    };
    Ok(AskLine::Rekey)
}

fn disconnect<'a>(alloc: Global, words: &[&'a str]) -> Result<AskLine, WordFault<'a>> {
    let [_, _, description] = words else {
        return AskForm::Disconnect.other_words(words);
    };
    Ok(AskLine::Disconnect(words::text(alloc, description)?))
}
