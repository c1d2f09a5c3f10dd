/// The state of a channel at its number (RFC 4254 section 5).
#[derive(Clone, Copy, Debug, PartialEq, Eq)]
pub enum ChannelState {
    /// This end opened it, and the peer did not answer yet.
    Opening,
    /// The peer opened it, and this end did not answer yet.
    Waiting,
    /// It was confirmed. A CLOSE that is owed does not count as sent.
    Confirmed {
        eof_sent: bool,
        eof_taken: bool,
        close_sent: bool,
        close_taken: bool,
    },
}
