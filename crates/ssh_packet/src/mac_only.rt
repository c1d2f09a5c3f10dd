ghost use Rattle.ssh_model.specs.Laws.MacOnly.{mac_only_laws, mac_only};

use crate::hmac::HmacKey;
use crate::sealing::{Lengths, Sealing};
use crate::tag::tags_equal;
use std::alloc::{AllocError, Global};

// The bytes of a tag.
const TAG: usize = 32;

/// The sealing of encryption `none` with MAC `hmac-sha2-256` (RFC 6668). Packets are in clear. Each has a tag of 32 bytes that covers its
/// number and all of its bytes (RFC 4253 section 6.4). Blocks have 8 bytes, and packet_length counts. It knows that pair of names alone,
/// and takes no IV, no key of a cipher and 32 bytes of MAC key. No method needs memory.
#[derive(Clone, Copy, Debug, PartialEq, Eq)]
pub struct MacOnly;

impl Sealing for MacOnly {
    type Key = HmacKey;

    ghost crypto = { mac_only };

    fn lengths(enc: &[u8], mac: &[u8]) -> Option<Lengths> {
        if enc == b"none".as_slice() && mac == b"hmac-sha2-256".as_slice() {
            Some(Lengths {
                iv: 0,
                cipher: 0,
                mac: 32,
            })
        } else {
            None
        }
    }

    fn make(
        _alloc: Global,
        _enc: &[u8],
        _mac: &[u8],
        _iv: &[u8],
        _cipher: &[u8],
        mac_key: &[u8],
    ) -> Result<HmacKey, AllocError> {
        Ok(HmacKey::new(mac_key))
    }

    fn block(_key: &HmacKey) -> usize {
        8
    }

    fn counts_length(_key: &HmacKey) -> bool {
        true
    }

    fn tag_len(_key: &HmacKey) -> usize {
        TAG
    }

    fn seal(key: &HmacKey, number: u32, packet: &mut [u8]) {
        let size = packet.len() - TAG;
        let tag = key.tag(number, &packet[..size]);
        packet[size..].copy_from_slice(&tag);
    }

    fn open(key: &HmacKey, number: u32, packet: &mut [u8]) -> bool {
        let (text, tag) = packet.split_at(packet.len() - TAG);
        tags_equal(tag, key.tag(number, text).as_slice())
    }

    ghost laws = { mac_only_laws };
}
