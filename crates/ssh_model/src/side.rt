ghost use Rattle.std.specs.Prelude.{◌≡◌};
ghost use Rattle.ssh_model.specs.Protocol.Side.{peer as peer_of};

/// One of the two ends of a connection (RFC 4253 section 1).
#[derive(Clone, Copy, Debug, PartialEq, Eq)]
pub enum Side {
    /// The end that opened the connection.
    Client,
    /// The end that was connected to.
    Server,
}

impl Side {
    /// The other end.
    pub fn peer(self) -> Side
        ensures { result ≡ peer_of self }
    {
        match self {
            Side::Client => Side::Server,
            Side::Server => Side::Client,
        }
    }
}
