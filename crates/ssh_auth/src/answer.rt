//! What an end answers to a message of authentication.

use ssh_types::RequestKind;

/// A server's answer to a message that it took: what has to be sent, and what has to be told.
#[derive(Clone, Copy, Debug, PartialEq, Eq)]
pub enum ServerAnswer<'a> {
    /// Nothing is sent: USERAUTH_SUCCESS was sent before. The event is that the request was ignored (RFC 4252 section 5.1).
    Ignored,
    /// USERAUTH_SUCCESS is sent (RFC 4252 section 5.1). The event is that the user of the message was authenticated, by its credential.
    Accepted,
    /// USERAUTH_PK_OK is sent: the server would look at a signature by this key (RFC 4252 section 7). Nothing is told.
    KeyOk { algorithm: &'a [u8], key: &'a [u8] },
    /// USERAUTH_FAILURE is sent with the methods that the server names, and FALSE: there was no partial success (RFC
    /// 4252 section 5.1). Nothing is told.
    Failed,
    /// UNIMPLEMENTED is sent with the sequence number of the packet, which the layer below knows (RFC 4253 section
    /// 11.4). Nothing is told.
    Unimplemented,
}

/// A client's answer to a message that it took. The texts of the event are in the message.
#[derive(Clone, Copy, Debug, PartialEq, Eq)]
pub enum ClientAnswer {
    /// USERAUTH_FAILURE: the request failed, and the methods of the message can go on (RFC 4252 section 5.1).
    Failed,
    /// USERAUTH_SUCCESS: the user is authenticated (RFC 4252 section 5.1), by the request of this kind that was outstanding.
    Authenticated(RequestKind),
    /// USERAUTH_BANNER: a text to show (RFC 4252 section 5.4).
    Banner,
    /// USERAUTH_PK_OK: the server would look at a signature by the key of the message (RFC 4252 section 7).
    KeyOk,
    /// Nothing is told. UNIMPLEMENTED is sent with the sequence number of the packet, which the layer below knows
    /// (RFC 4253 section 11.4).
    Unimplemented,
}
