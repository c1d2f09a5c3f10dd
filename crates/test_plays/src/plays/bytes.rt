//! How many bytes an end put out, from the messages that its transcript says it sent.

use ssh_end::{Done, Item};
use ssh_types::Side;

// The number of NEWKEYS (RFC 4253 section 7.3).
const NEWKEYS: u8 = 21;

// The bytes of a tag of hmac-sha2-256 (RFC 6668).
const TAG: usize = 32;

/// How many bytes hold the lines and messages that an end sent: a line with CR LF, a packet with the least padding, and a tag from the
/// first NEWKEYS on.
pub fn sent_bytes(items: &[Done], side: Side) -> usize {
    let mut bytes: usize = 0;
    let mut is_sealed = false;
    for done in items {
        if done.side != side {
            continue;
        }
        bytes = bytes.saturating_add(bytes_of(&done.item, is_sealed));
        is_sealed = is_sealed || is_newkeys(&done.item);
    }
    bytes
}

fn bytes_of(item: &Item, is_sealed: bool) -> usize {
    match item {
        Item::SentLine(line) => line.len().saturating_add(2),
        Item::Sent { payload, .. } if is_sealed => packet(payload.len()).saturating_add(TAG),
        Item::Sent { payload, .. } => packet(payload.len()),
        _ => 0,
    }
}

fn is_newkeys(item: &Item) -> bool {
    match item {
        Item::Sent { payload, .. } => payload.first() == Some(&NEWKEYS),
        _ => false,
    }
}

// The packet of a payload of so many bytes: its length, that of the padding, and 4 bytes of padding at least, in blocks of 8 (RFC 4253
// section 6).
fn packet(payload: usize) -> usize {
    let least = payload.saturating_add(4 + 1 + 4);
    least.saturating_add(7) / 8 * 8
}
