//! What an end does on an ask of its user.

mod connection;
mod end;
mod memory;
mod numbers;
mod outcome;
mod transport;
mod user;

pub use end::take_ask;
pub use outcome::{AskStep, Fault};
use ssh_auth::UserAsk;
pub use user::session_of;

/// What a user asks of an end.
#[derive(Clone, Copy)]
pub enum Ask<'a> {
    /// Asks for the service of authentication, at a client (RFC 4253 section 10).
    Service,
    /// Makes a request for authentication, at a client (RFC 4252 section 5).
    User(UserAsk<'a>),
    /// Begins an exchange of keys (RFC 4253 section 9).
    Rekey,
    /// Asks channels for a message of the connection (RFC 4254).
    Connection(ssh_channels::Ask<'a>),
    /// Ends the connection with this description, at most 1,024 bytes (RFC 4253 section 11.1).
    Disconnect(&'a [u8]),
}
