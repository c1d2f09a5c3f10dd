/// What a user asks the channels of an end to do (RFC 4254 sections 4 and 5). A channel is named by the end's own number.
#[derive(Clone, Copy)]
pub enum Ask<'a> {
    /// Opens a channel (RFC 4254 section 5.1).
    Open {
        /// The kind of the channel, such as `session`.
        kind: &'a [u8],
        /// How many bytes of data the peer may send at first.
        window: u32,
        /// The most bytes of data that this end takes in one message.
        max_packet: u32,
        /// The kind's own bytes after these fields.
        rest: &'a [u8],
    },
    /// Confirms a channel that the peer opened (section 5.1).
    Confirm {
        /// The channel.
        channel: u32,
        /// How many bytes of data the peer may send at first.
        window: u32,
        /// The most bytes of data that this end takes in one message.
        max_packet: u32,
        /// The kind's own bytes after these fields.
        rest: &'a [u8],
    },
    /// Refuses a channel that the peer opened (section 5.1).
    Refuse {
        /// The channel.
        channel: u32,
        /// The code of the reason (RFC 4250 section 4.3).
        reason: u32,
    },
    /// Sends data, or extended data if a kind is given (section 5.2).
    Data {
        /// The channel.
        channel: u32,
        /// The type of extended data, such as 1 for standard error.
        kind: Option<u32>,
        /// The data: no more bytes than the window has left and the peer takes in one message.
        body: &'a [u8],
    },
    /// Lets the peer send more bytes (section 5.2).
    Adjust {
        /// The channel.
        channel: u32,
        /// By how many bytes its window grows.
        bytes: u32,
    },
    /// Says that no more data is sent (section 5.3).
    Eof {
        /// The channel.
        channel: u32,
    },
    /// Closes a channel: nothing more is sent on it (section 5.3).
    Close {
        /// The channel.
        channel: u32,
    },
    /// Makes a request on a channel (section 5.4).
    Request {
        /// The channel.
        channel: u32,
        /// The name of the request, such as `exec`.
        name: &'a [u8],
        /// Whether a reply is wanted.
        want: bool,
        /// The request's own bytes after these fields.
        rest: &'a [u8],
    },
    /// Replies to the oldest request of the peer that waits on the channel (section 5.4).
    Reply {
        /// The channel.
        channel: u32,
        /// Whether the request succeeded.
        success: bool,
    },
    /// Makes a global request (section 4).
    Global {
        /// The name of the request.
        name: &'a [u8],
        /// Whether a reply is wanted.
        want: bool,
        /// The request's own bytes after these fields.
        rest: &'a [u8],
    },
    /// Replies to the oldest global request of the peer that waits (section 4).
    GlobalReply {
        /// Whether the request succeeded.
        success: bool,
        /// The bytes of the reply, which go with success alone.
        rest: &'a [u8],
    },
}
