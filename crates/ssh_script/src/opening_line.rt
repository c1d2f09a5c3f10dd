//! Asks for a channel, and answers to one that the peer opens.

ghost use Rattle.std.specs.Prelude.{◌≡◌};
ghost use Rattle.ssh_channels.specs.Values.{ask_of};
ghost use Rattle.ssh_script.specs.Asks.{ask_of_opening};

use crate::ask_line::AskLine;
use crate::form::AskForm;
use crate::word_fault::WordFault;
use crate::words;
use ssh_channels::Ask;
use std::alloc::Global;

/// An ask about a channel that is opened (RFC 4254 section 5.1). A channel goes by the end's own number.
#[derive(Drop)]
pub enum OpeningLine {
    /// Opens a channel of a kind; `rest` is the kind's own.
    Open {
        kind: Vec<u8>,
        window: u32,
        max_packet: u32,
        rest: Vec<u8>,
    },
    /// Confirms a channel of the peer; `rest` is its kind's own.
    Confirm {
        channel: u32,
        window: u32,
        max_packet: u32,
        rest: Vec<u8>,
    },
    /// Refuses a channel of the peer.
    Refuse {
        channel: u32,
        reason: u32,
    },
}

impl OpeningLine {
    /// The ask, as channels take it.
    pub fn to_ask(&self) -> Ask<'_>
        ensures { ask_of result ≡ ask_of_opening self.now }
    {
        match self {
            OpeningLine::Open {
                kind,
                window,
                max_packet,
                rest,
            } => Ask::Open {
                kind: kind.as_slice(),
                window: *window,
                max_packet: *max_packet,
                rest: rest.as_slice(),
            },
            OpeningLine::Confirm {
                channel,
                window,
                max_packet,
                rest,
            } => Ask::Confirm {
                channel: *channel,
                window: *window,
                max_packet: *max_packet,
                rest: rest.as_slice(),
            },
            OpeningLine::Refuse { channel, reason } => Ask::Refuse {
                channel: *channel,
                reason: *reason,
            },
        }
    }
}

// Each takes the words after the line's first: the side, the ask's word, and what is asked.

pub(crate) fn open<'a>(alloc: Global, words: &[&'a str]) -> Result<AskLine, WordFault<'a>> {
    let [_, _, kind, window, max_packet, rest @ ..] = words else {
        return AskForm::Open.other_words(words);
    };
    let Some(rest) = words::optional(rest) else {
        return AskForm::Open.other_words(words);
    };
    Ok(AskLine::Opening(OpeningLine::Open {
        kind: words::text(alloc, kind)?,
        window: words::number(window)?,
        max_packet: words::number(max_packet)?,
        rest: words::bytes(alloc, rest)?,
    }))
}

pub(crate) fn confirm<'a>(alloc: Global, words: &[&'a str]) -> Result<AskLine, WordFault<'a>> {
    let [_, _, channel, window, max_packet, rest @ ..] = words else {
        return AskForm::Confirm.other_words(words);
    };
    let Some(rest) = words::optional(rest) else {
        return AskForm::Confirm.other_words(words);
    };
    Ok(AskLine::Opening(OpeningLine::Confirm {
        channel: words::number(channel)?,
        window: words::number(window)?,
        max_packet: words::number(max_packet)?,
        rest: words::bytes(alloc, rest)?,
    }))
}

pub(crate) fn refuse<'a>(words: &[&'a str]) -> Result<AskLine, WordFault<'a>> {
    let [_, _, channel, reason] = words else {
        return AskForm::Refuse.other_words(words);
    };
    let channel = words::number(channel)?;
    let reason = words::number(reason)?;
    Ok(AskLine::Opening(OpeningLine::Refuse { channel, reason }))
}
