use std::fmt::{self, Display, Formatter};
use thiserror::Error;

/// The kinds of choices, in the order of the lists in a KEXINIT (RFC 4253 section 7.1). `Cs` is from the client to the
/// server, and `Sc` the other way.
#[derive(Clone, Copy, Debug, PartialEq, Eq)]
pub enum Kind {
    /// The key exchange method.
    Kex,
    /// The algorithm of the host key.
    HostKey,
    /// The encryption from the client to the server.
    EncCs,
    /// The encryption from the server to the client.
    EncSc,
    /// The MAC from the client to the server.
    MacCs,
    /// The MAC from the server to the client.
    MacSc,
    /// The compression from the client to the server.
    CompCs,
    /// The compression from the server to the client.
    CompSc,
}

impl Display for Kind {
    fn fmt<W: fmt::Write>(&self, out: &mut Formatter<W>) -> fmt::Result {
        out.write_str(match self {
            Kind::Kex => "key exchange method",
            Kind::HostKey => "host key algorithm",
            Kind::EncCs => "encryption from client to server",
            Kind::EncSc => "encryption from server to client",
            Kind::MacCs => "MAC from client to server",
            Kind::MacSc => "MAC from server to client",
            Kind::CompCs => "compression from client to server",
            Kind::CompSc => "compression from server to client",
        })
    }
}

/// The lists of this kind have no name in common, and each kind before it has one.
#[derive(Clone, Copy, Debug, PartialEq, Eq, Error)]
#[error("the two ends have no {kind} in common")]
pub struct NoCommon {
    /// The kind of which no name could be chosen.
    pub kind: Kind,
}
