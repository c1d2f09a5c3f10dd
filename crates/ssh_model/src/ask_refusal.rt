use std::fmt;
use thiserror::Error;

/// Why an end refuses an ask of its user. It then sends nothing, and is as before.
///
/// A layer that can give only some of these refusals has an enum of its own, which converts to this one by `From`. `{}` shows
/// it in words.
#[derive(Clone, Copy, Debug, PartialEq, Eq, Error)]
pub enum AskRefusal {
    /// The ask comes too early: before authentication, before the first exchange is completed, or before the service is there.
    NotYet,
    /// A key exchange, or another request, is under way.
    Busy,
    /// No channel of this number can take part.
    NoChannel,
    /// The peer's window is too small for the data (RFC 4254 section 5.2).
    NoRoom,
    /// The payload would be too long, or the data are longer than the channel takes.
    TooLong,
    /// EOF or CLOSE was sent on the channel, or authentication is over.
    Ended,
    /// All numbers that an end has for channels are in use.
    TableFull,
    /// No request of the peer waits for a reply.
    NothingOwed,
    /// So many packets were sent in this epoch that a key exchange has to come first.
    RekeyDue,
    /// A window or a packet size is out of its bounds.
    TooMuch,
    /// The ask is for the other end.
    WrongSide,
    /// The end keeps no cookie and secret for a key exchange.
    NoMaterial,
}

impl AskRefusal {
    ghost use Rattle.std.specs.Prelude.{◌≡◌};
    ghost use Rattle.ssh_model.specs.Laws.RefusalTexts.{ask_refusal_text};
    ghost use Rattle.ssh_model.specs.Protocol.Sessions.Refusals.{ask_refusal_name, ask_refusal_number};

    /// The number of the refusal, 1 to 12.
    pub fn number(self) -> u8
        ensures { result ≡ ask_refusal_number self }
    {
        match self {
            AskRefusal::NotYet => 1,
            AskRefusal::Busy => 2,
            AskRefusal::NoChannel => 3,
            AskRefusal::NoRoom => 4,
            AskRefusal::TooLong => 5,
            AskRefusal::Ended => 6,
            AskRefusal::TableFull => 7,
            AskRefusal::NothingOwed => 8,
            AskRefusal::RekeyDue => 9,
            AskRefusal::TooMuch => 10,
            AskRefusal::WrongSide => 11,
            AskRefusal::NoMaterial => 12,
        }
    }

    /// The name of the refusal, as `NotYet`.
    pub fn name(self) -> &'static str
        ensures { result.now ≡ ask_refusal_name self }
    {
        match self {
            AskRefusal::NotYet => "NotYet",
            AskRefusal::Busy => "Busy",
            AskRefusal::NoChannel => "NoChannel",
            AskRefusal::NoRoom => "NoRoom",
            AskRefusal::TooLong => "TooLong",
            AskRefusal::Ended => "Ended",
            AskRefusal::TableFull => "TableFull",
            AskRefusal::NothingOwed => "NothingOwed",
            AskRefusal::RekeyDue => "RekeyDue",
            AskRefusal::TooMuch => "TooMuch",
            AskRefusal::WrongSide => "WrongSide",
            AskRefusal::NoMaterial => "NoMaterial",
        }
    }

    // The words for it.
    fn text(self) -> &'static str
        ensures { result.now ≡ ask_refusal_text self }
    {
        match self {
            AskRefusal::NotYet => "the ask comes too early",
            AskRefusal::Busy => "another request is under way",
            AskRefusal::NoChannel => "there is no such channel",
            AskRefusal::NoRoom => "the window is too small",
            AskRefusal::TooLong => "the message would be too long",
            AskRefusal::Ended => "it is over already",
            AskRefusal::TableFull => "no more channels can be opened",
            AskRefusal::NothingOwed => "no request waits for a reply",
            AskRefusal::RekeyDue => "a key exchange is due first",
            AskRefusal::TooMuch => "a window or a packet size is out of its bounds",
            AskRefusal::WrongSide => "it is for the other end",
            AskRefusal::NoMaterial => "no cookie and secret are kept for a key exchange",
        }
    }
}

impl fmt::Display for AskRefusal {
    ghost use Rattle.std.specs.Prelude.{Some};
    ghost use Rattle.ssh_model.specs.Laws.RefusalTexts.{ask_refusal_text};

    ghost output = { λ refusal. Some (ask_refusal_text refusal) };

    fn fmt<W: fmt::Write>(&self, f: &mut fmt::Formatter<W>) -> fmt::Result {
        write!(f, "{}", self.text())
    }
}
