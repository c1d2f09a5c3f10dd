//! How a session ended.

use ssh_types::Refusal;
use std::fmt;

// What an end offers, which has no algorithm in common with a peer that offers others.
const METHODS: &str = "this end has curve25519-sha256, ssh-ed25519 and what --cipher names";

/// How a session ended, as one of its ends saw it.
#[derive(Drop, PartialEq, Eq)]
pub enum Ending {
    /// This end refused its peer.
    Refused(Refusal),
    /// The peer said that it ends the connection (RFC 4253 section 11.1).
    Disconnected { reason: u32, description: Vec<u8> },
    /// The command ended with this status (RFC 4254 section 6.10).
    Status(u32),
    /// A signal of this name ended the command (RFC 4254 section 6.10).
    Signal(Vec<u8>),
    /// The channel was closed, and how the command ended was not said.
    NoStatus,
    /// The user is not let in; these methods could go on (RFC 4252 section 5.1).
    NotLetIn { methods: Vec<u8> },
    /// The user offered neither a key nor a password and is not let in; these methods could go on.
    NothingOffered { methods: Vec<u8> },
    /// The server opens no channel (RFC 4254 section 5.1).
    NoChannel { reason: u32, description: Vec<u8> },
    /// The server doesn't run the command.
    NoCommand,
    /// The client closed the connection with no channel open.
    Left,
    /// The client closed the connection and was not let in.
    LeftOutside,
    /// The client's stream ended while a channel was open.
    BrokenOff,
}

// Texts of the peer are shown with all but printable US-ASCII characters as escapes, so that they do nothing to a terminal.
impl fmt::Display for Ending {
    fn fmt<W: fmt::Write>(&self, f: &mut fmt::Formatter<W>) -> fmt::Result {
        match self {
            Ending::Refused(refusal) => write_refused(*refusal, f),
            Ending::Disconnected {
                reason,
                description,
            } => {
                let text = description.as_slice().escape_ascii();
                write!(f, "the peer ended the connection: {text} (reason {reason})")
            }
            Ending::Status(status) => write!(f, "the command ended with status {status}"),
            Ending::Signal(name) => {
                let name = name.as_slice().escape_ascii();
                write!(f, "the command was ended by the signal {name}")
            }
            Ending::NoStatus => write!(f, "the server did not say how the command ended"),
            Ending::NotLetIn { methods } => {
                write_methods("the server does not let the user in", methods, f)
            }
            Ending::NothingOffered { methods } => write_methods(
                "no key and no password was offered, and the server lets nobody in without",
                methods,
                f,
            ),
            Ending::NoChannel {
                reason,
                description,
            } => {
                let text = description.as_slice().escape_ascii();
                write!(f, "the server opens no channel: {text} (reason {reason})")
            }
            Ending::NoCommand => write!(f, "the server does not run this command"),
            Ending::Left => write!(f, "the client closed the connection"),
            Ending::LeftOutside => write!(
                f,
                "the client closed the connection before it was let in"
            ),
            Ending::BrokenOff => write!(f, "the connection broke off while a channel was open"),
        }
    }
}

// That this end refused its peer, and why.
fn write_refused<W: fmt::Write>(refusal: Refusal, f: &mut fmt::Formatter<W>) -> fmt::Result {
    let (number, name) = (refusal.number(), refusal.name());
    write!(
        f,
        "the peer is refused: {refusal} (refusal {number} {name})"
    )?;
    if refusal == Refusal::NoCommon {
        write!(f, ": {METHODS}")?;
    }
    Ok(())
}

// That the user is not let in, and by which methods it could go on.
fn write_methods<W: fmt::Write>(
    why: &str,
    methods: &[u8],
    f: &mut fmt::Formatter<W>,
) -> fmt::Result {
    let methods = methods.escape_ascii();
    write!(f, "{why} (methods: {methods})")
}
