//! What a transport answers to its caller.

ghost use Rattle.ssh_transport.specs.declared.outcome.TransportFault.TheVariants.{Memory};
ghost use Rattle.std.specs.Prelude.{◌≡◌};
ghost use Rattle.ssh_transport.specs.Outcomes.{LineOutcome, answer_outcome as of_answer};

use ssh_kex::OwnedChoice;
use ssh_transport_machine::{LineTurn, SendOutcome};
use ssh_types::{AskRefusal, Refusal};
use std::alloc::AllocError;
use thiserror::Error;

/// What a transport made of the bytes of one line or one packet.
#[derive(Debug, Drop)]
pub enum TransportTurn {
    /// No whole line and no whole packet yet: all bytes were used.
    More,
    /// A line or a packet was taken, and the transport did what it asks for.
    Done(Handled),
    /// A packet with a payload for the layers above was taken, which is shown. It has this sequence number.
    Up(u32),
    /// The message that ends an exchange was taken, and NEWKEYS was sent: the exchange with these algorithms is completed. Their names are
    /// in a box, so that the turn of every other packet is small.
    Completed(Box<OwnedChoice>),
    /// The peer was refused, or too few numbers were left in the epoch for what has to be sent (`NumberSpent`). The end is over.
    Refused(Refusal),
}

/// The kind of line or packet that a transport took, and what it did.
#[derive(Clone, Copy, Debug)]
pub enum Handled {
    /// A line before the version line, which is dropped (RFC 4253 section 4.2).
    OtherLine,
    /// The version line of the peer.
    VersionLine,
    /// The packet after a wrong guess, which is not read (RFC 4253 section 7).
    Skipped,
    /// DISCONNECT: the end is over (RFC 4253 section 11.1).
    Disconnected,
    /// IGNORE, UNIMPLEMENTED, DEBUG or EXT_INFO, which is told to a user, and has no answer.
    Told,
    /// A message of a number that isn't known, answered by UNIMPLEMENTED (RFC 4253 section 11.4).
    Unknown,
    /// SERVICE_REQUEST, answered by SERVICE_ACCEPT (RFC 4253 section 10).
    ServiceRequested,
    /// SERVICE_ACCEPT.
    ServiceAccepted,
    /// KEXINIT. The end sent what it has to send for it (RFC 4253 section 7.1).
    Kexinit,
    /// NEWKEYS: the next packet is taken under the new key (RFC 4253 section 7.3).
    NewKeys,
}

/// What a transport can be asked to send.
#[derive(Clone, Copy, Debug)]
pub enum TransportAsk<'a> {
    /// SERVICE_REQUEST for authentication, at a client (RFC 4253 section 10).
    Service,
    /// KEXINIT, by which an exchange of keys begins (RFC 4253 section 9).
    Rekey,
    /// DISCONNECT with this description, at most 1,024 bytes (RFC 4253 section 11.1). The end is then over.
    Disconnect(&'a [u8]),
}

/// What was done on an ask.
#[derive(Clone, Copy, Debug, PartialEq, Eq)]
pub enum AskTurn {
    /// It was refused, and changed nothing.
    Refused(AskRefusal),
    /// Its message was sent, or no number was left for it.
    Answered(SendOutcome),
}

/// Why a transport did nothing.
#[derive(Clone, Copy, Debug, PartialEq, Eq, Error)]
pub enum TransportFault {
    /// Memory was refused: nothing was put out, and the end is over.
    #[error("memory was refused")]
    Memory,
    /// The end was over before.
    #[error("the end is over")]
    Dead,
}

impl From<AllocError> for TransportFault {
    ghost use Rattle.std.specs.Prelude.{◌≡◌};

    ghost from_gives = { λ _ fault. fault ≡ Memory };

    fn from(_error: AllocError) -> TransportFault {
        TransportFault::Memory
    }
}

/// The turn for the bytes of a line.
pub(crate) fn line_outcome(done: LineTurn) -> TransportTurn
    ensures { LineOutcome done result }
{
    match done {
        LineTurn::More => TransportTurn::More,
        LineTurn::Other => TransportTurn::Done(Handled::OtherLine),
        LineTurn::Version => TransportTurn::Done(Handled::VersionLine),
        LineTurn::Refused(why) => TransportTurn::Refused(Refusal::from(why)),
    }
}

/// The turn for an answer by which this was done.
pub(crate) fn answer_outcome(answer: SendOutcome, handled: Handled) -> TransportTurn
    ensures { result ≡ of_answer answer handled }
{
    match answer {
        SendOutcome::Done => TransportTurn::Done(handled),
        SendOutcome::Spent => TransportTurn::Refused(Refusal::NumberSpent),
    }
}
