//! Packets sealed by AES-128-GCM or AES-256-GCM.

ghost use Rattle.divrelca.specs.Parts.AesGcm.{aes_gcm};
ghost use Rattle.divrelca.specs.Parts.AesGcmLaws.{aes_gcm_laws};

use crate::parts::packet_key::PacketKey;
use ssh_packet::{Lengths, Sealing, tags_equal};
use std::alloc::{AllocError, Global};

// The bytes of a tag.
const TAG: usize = 16;

/// The sealing of the encryptions aes128-gcm@openssh.com and aes256-gcm@openssh.com (RFC 5647). It goes with any name of a MAC, since it
/// brings its own tag of 16 bytes. It takes 12 bytes of IV, 16 or 32 of a key and none of a MAC key. Blocks have 16 bytes, and
/// packet_length, which is in clear, doesn't count in them. Only `make` needs memory.
///
/// The nonce of a packet is the first four bytes of the IV, and after them the IV's other eight as a counter, to which the packet's number
/// is added. OpenSSH counts the packets under the key instead. The two are the same if numbers begin at zero with each key, as they do
/// under strict key exchange.
#[derive(Clone, Copy, Debug, PartialEq, Eq)]
pub struct AesGcm;

impl Sealing for AesGcm {
    type Key = PacketKey;

    ghost crypto = { aes_gcm };

    fn lengths(enc: &[u8], _mac: &[u8]) -> Option<Lengths> {
        if enc == b"aes128-gcm@openssh.com".as_slice() {
            Some(Lengths {
                iv: 12,
                cipher: 16,
                mac: 0,
            })
        } else if enc == b"aes256-gcm@openssh.com".as_slice() {
            Some(Lengths {
                iv: 12,
                cipher: 32,
                mac: 0,
            })
        } else {
            None
        }
    }

    #[tactic(auto, using(crate::proofs::OfParts::KeySizes::key_size))]
    fn make(
        alloc: Global,
        _enc: &[u8],
        _mac: &[u8],
        iv: &[u8],
        cipher: &[u8],
        _mac_key: &[u8],
    ) -> Result<PacketKey, AllocError> {
        PacketKey::new(alloc, iv, cipher)
    }

    fn block(_key: &PacketKey) -> usize {
        16
    }

    fn counts_length(_key: &PacketKey) -> bool {
        false
    }

    fn tag_len(_key: &PacketKey) -> usize {
        TAG
    }

    fn seal(key: &PacketKey, number: u32, packet: &mut [u8]) {
        let size = packet.len() - TAG;
        key.mask(number, &mut packet[..size]);
        let tag = key.tag(number, &packet[..size]);
        packet[size..].copy_from_slice(&tag);
    }

    fn open(key: &PacketKey, number: u32, packet: &mut [u8]) -> bool {
        let size = packet.len() - TAG;
        let (text, tag) = packet.split_at(size);
        if !tags_equal(tag, key.tag(number, text).as_slice()) {
            return false;
        }
        key.mask(number, &mut packet[..size]);
        true
    }

    ghost laws = { aes_gcm_laws };
}
