//! The limits of packets and of the lines before them.

pub use ssh_types::bounds::{LARGEST_PACKET, LONGEST_PAYLOAD};

/// The bytes of packet_length (RFC 4253 section 6).
pub const LENGTH_FIELD: usize = 4;

// The most bytes of padding, whose number is one byte (RFC 4253 section 6).
pub(crate) const MOST_PADDING: usize = 255;

// The bytes of the longest line, CR LF included (RFC 4253 section 4.2).
pub(crate) const LONGEST_LINE: usize = 255;
