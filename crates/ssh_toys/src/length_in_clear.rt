ghost use Rattle.ssh_toys.specs.LengthInClear.{length_in_clear, length_in_clear_laws};

use ssh_packet::{HmacKey, Lengths, MacOnly, Sealing};
use std::alloc::{AllocError, Global};

/// `MacOnly` in blocks that begin after packet_length, as `none` with `hmac-sha2-256-etm@openssh.com` would have it.
#[derive(Clone, Copy)]
pub struct LengthInClear;

impl Sealing for LengthInClear {
    type Key = HmacKey;

    ghost crypto = { length_in_clear };

    fn lengths(enc: &[u8], mac: &[u8]) -> Option<Lengths> {
        MacOnly::lengths(enc, mac)
    }

    fn make(
        alloc: Global,
        enc: &[u8],
        mac: &[u8],
        iv: &[u8],
        cipher: &[u8],
        mac_key: &[u8],
    ) -> Result<HmacKey, AllocError> {
        MacOnly::make(alloc, enc, mac, iv, cipher, mac_key)
    }

    fn block(_key: &HmacKey) -> usize {
        8
    }

    fn counts_length(_key: &HmacKey) -> bool {
        false
    }

    fn tag_len(key: &HmacKey) -> usize {
        MacOnly::tag_len(key)
    }

    fn seal(key: &HmacKey, number: u32, packet: &mut [u8]) {
        let size = packet.len() - 32;
        let tag = key.tag(number, &packet[..size]);
        packet[size..].copy_from_slice(&tag);
    }

    fn open(key: &HmacKey, number: u32, packet: &mut [u8]) -> bool {
        let (text, tag) = packet.split_at(packet.len() - 32);
        tag == key.tag(number, text).as_slice()
    }

    ghost laws = { length_in_clear_laws };
}
