//! How large windows and packets are, how much is sent at once, and when keys are exchanged.

ghost use Rattle.std.specs.Prelude.{◌≡◌, ◌<◌, min};

use crate::cipher_choice::Ciphers;
use ssh_types::bounds::{LARGEST_DATA, LEAST_EPOCH_LIMIT, MOST_EPOCH_LIMIT};

/// The largest data of one packet, sent and offered to be taken, in bytes (RFC 4254 section 5.2). An ask for more is refused.
pub const MOST_DATA: u32 = LARGEST_DATA;

/// The window of a channel, in bytes, unless its user names another. The bytes that are under way to this end then fit into a pipe of 64
/// KiB, so a peer is never kept from reading because it writes. If both windows were larger than the pipes, two ends that write before they
/// read would wait for each other for ever.
pub const WINDOW: u32 = 32_768;

/// The smallest window that a user may name, in bytes.
pub const LEAST_WINDOW: u32 = 1_024;

/// The largest window that a user may name, in bytes.
pub const MOST_WINDOW: u32 = 1_073_741_824;

/// After so many packets sent under the keys of one exchange the next exchange is due.
pub const EPOCH_LIMIT: u32 = 1_048_576;

// The blocks of 16 bytes in the longest packet, of 35,000 bytes.
const MOST_BLOCKS: u64 = 2_188;

// Fewer than 2^32 blocks go under one key, as RFC 4344 section 3.2 asks for blocks of 16 bytes.
const _: () = prove!((EPOCH_LIMIT as u64) * MOST_BLOCKS < 4_294_967_296);

// What pages and programs name by number: another value is another promise.
const _: () = prove!(MOST_DATA == 32_768 && WINDOW == 32_768);

const _: () = prove!(LEAST_WINDOW == 1_024 && MOST_WINDOW == 1_073_741_824);

const _: () = prove!(EPOCH_LIMIT == 1_048_576 && TRIES == 6);

const _: () = prove!(MOST_WAITING == 1_048_576 && MOST_SESSIONS == 10);

// If the user sets nothing, no bytes go without encryption, and all values are within their bounds.
const _: () = prove!(!Policy::DEFAULT.offers_none);

const _: () = prove!(Policy::DEFAULT.ciphers as u8 == Ciphers::Aes128 as u8);

const _: () = prove!(
    Policy::DEFAULT.window == WINDOW && Policy::DEFAULT.epoch_limit == EPOCH_LIMIT
);

const _: () = prove!(LEAST_WINDOW <= WINDOW && WINDOW <= MOST_WINDOW);

const _: () = prove!(LEAST_EPOCH_LIMIT <= EPOCH_LIMIT && EPOCH_LIMIT <= MOST_EPOCH_LIMIT);

/// Once so many bytes wait to be written, they are written before more are added.
pub const MOST_WAITING: usize = 1_048_576;

/// How many channels a client may have at a server at a time.
pub const MOST_SESSIONS: usize = 10;

/// How many requests for authentication a server lets fail (RFC 4252 section 4).
pub const TRIES: u32 = 6;

/// The values that a user can set.
#[derive(Clone, Copy, Debug, PartialEq, Eq)]
pub struct Policy {
    /// The window of a channel, in bytes: `LEAST_WINDOW` to `MOST_WINDOW`.
    pub window: u32,
    /// After so many packets sent under the keys of one exchange the next one is due: `LEAST_EPOCH_LIMIT` to `EPOCH_LIMIT`.
    pub epoch_limit: u32,
    /// Which encryptions are offered.
    pub ciphers: Ciphers,
    /// Whether `none` with hmac-sha2-256 is offered after them. **It hides nothing**: whoever sees the bytes reads them, passwords
    /// too.
    pub offers_none: bool,
}

impl Policy {
    /// The values if the user sets nothing.
    pub const DEFAULT: Policy = Policy {
        window: WINDOW,
        epoch_limit: EPOCH_LIMIT,
        ciphers: Ciphers::Aes128,
        offers_none: false,
    };
}

/// How many of the bytes that wait go into the next packet of data (RFC 4254 section 5.2). `room` bytes fit into the window of the channel,
/// and its peer takes at most `max_packet` at once. The answer is the least of these three and of `MOST_DATA`.
pub fn data_len(room: u32, max_packet: u32, waiting: usize) -> usize
    ensures { result ≡ min (min (min room max_packet) MOST_DATA) waiting }
{
    let most = room.min(max_packet).min(MOST_DATA) as usize;
    most.min(waiting)
}
