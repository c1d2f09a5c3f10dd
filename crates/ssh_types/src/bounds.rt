//! The bounds that both ends keep, as the model has them in its `Bounds`.

/// The bytes of the largest packet, its tag included. An end has to take packets of this size (RFC 4253 section 6.1), and no
/// larger one is taken or written here.
pub const LARGEST_PACKET: usize = 35_000;

/// The bytes of the longest payload that an end sends: whatever the sealing, its packet is none larger than the largest.
pub const LONGEST_PAYLOAD: usize = 34_000;

/// The bytes of the longest tag of a packet, as those of hmac-sha2-512 (RFC 6668 section 2).
pub const LONGEST_TAG: usize = 64;

/// The most bytes of an IV, of a cipher's key and of a MAC's key (RFC 4253 section 7.2).
pub const LONGEST_KEY_MATERIAL: usize = 64;

/// How many other lines a server may send before its version line.
pub const MOST_OTHER_LINES: usize = 64;

/// The most bytes of a name of the standard, as each name of a name-list is (RFC 4251 section 6).
pub const LONGEST_NAME: usize = 64;

/// How many names each list of settings has at most.
pub const MOST_NAMES: usize = 16;

/// How many extensions settings announce at most.
pub const MOST_EXTENSIONS: usize = 16;

/// The most bytes of an extension's value that settings announce.
pub const LONGEST_EXTENSION_VALUE: usize = 1_024;

/// The most bytes of the text of a server's methods, so that no USERAUTH_FAILURE has more bytes than a payload that is sent.
pub const LONGEST_METHODS: usize = LONGEST_PAYLOAD - 6;

/// The most bytes of a user's public key that may be known.
pub const LONGEST_USER_KEY: usize = 16_384;

/// The most bytes of the name of the algorithm of such a key.
pub const LONGEST_ALGORITHM_NAME: usize = 64;

/// The most bytes of data that an end sends in one message, and that it lets the peer send in one (RFC 4254 section 5.1).
pub const LARGEST_DATA: u32 = 32_768;

/// How many numbers an end has for channels.
pub const MOST_CHANNELS: usize = 1_024;

/// The largest window of a channel, in bytes (RFC 4254 section 5.2).
pub const LARGEST_WINDOW: u32 = u32::MAX;

/// How many requests of one side on one channel wait for a reply at most (RFC 4254 section 5.4).
pub const MOST_WAITING_REQUESTS: u32 = 256;

/// How many global requests of one side wait for a reply at most (RFC 4254 section 4).
pub const MOST_WAITING_GLOBALS: u32 = 256;

/// How many replies an end owes at most while a key exchange lets it send none.
pub const MOST_OWED_REPLIES: usize = 256;

/// The most bytes of the text of a DISCONNECT that a user asks for.
pub const LONGEST_DESCRIPTION: usize = 1_024;

/// The sequence numbers of an epoch, and so the packets of one direction under one key: a sequence number is a uint32 (RFC
/// 4253 section 6.4).
pub const NUMBERS_OF_EPOCH: u64 = 1 << 32;

/// The fewest packets of an epoch after which settings may have the next key exchange due.
pub const LEAST_EPOCH_LIMIT: u32 = 64;

/// The most packets of an epoch after which settings may have the next key exchange due (RFC 4344 section 3.1).
pub const MOST_EPOCH_LIMIT: u32 = 1 << 31;

/// The most key exchanges of one end, which is fed a cookie and a secret for each.
pub const MOST_EXCHANGES: u32 = u32::MAX;
