//! The key of one direction.

ghost use Rattle.std.specs.Prelude.{◌≡◌, ◌≤◌, ◌^◌, ◌++◌, IfOk, drop, length, take};
ghost use Rattle.ciphers.specs.AesGcm.Gcm.{masked, stream};
ghost use Rattle.divrelca.specs.Parts.AesGcm.{IsKeySize, counter_of, gcm_key_of, made_of, masked_packet, nonce, tag_of_packet};

use ciphers::aes_gcm::GcmKey;
use std::alloc::{AllocError, Global};

// The bytes of packet_length.
const FIELD: usize = 4;

/// A key of one direction: the key of the cipher, the four bytes with which each nonce begins, and the counter after them
/// in the nonce of packet 0.
#[derive(Drop)]
pub struct PacketKey {
    gcm: GcmKey,
    fixed: [u8; 4],
    counter: u64,
}

impl PacketKey {
    /// The key that an IV of 12 bytes and a key of 16 or 32 make.
    ///
    /// # Errors
    ///
    /// Only if memory is refused.
    pub fn new(alloc: Global, iv: &[u8], key: &[u8]) -> Result<PacketKey, AllocError>
        requires iv { length iv.now ≡ 12 }
        requires key { IsKeySize (length key.now) }
        ensures { IfOk result (λ made. made ≡ made_of iv.now key.now) }
    {
        Ok(PacketKey {
            gcm: gcm_key(alloc, key)?,
            fixed: [iv[0], iv[1], iv[2], iv[3]],
            counter: counter_of(iv),
        })
    }

    /// The nonce of the packet of this number.
    pub fn nonce(&self, number: u32) -> [u8; 12]
        ensures { result ≡ nonce self.now number }
    {
        let f = self.fixed;
        let c = self.counter.wrapping_add(number as u64).to_be_bytes();
        [
            f[0], f[1], f[2], f[3], c[0], c[1], c[2], c[3], c[4], c[5], c[6], c[7],
        ]
    }

    /// Encrypts a packet after its length, or decrypts it.
    #[tactic(auto, unfolding(crate::specs::Parts::AesGcm::masked_packet))]
    pub fn mask(&self, number: u32, packet: &mut [u8])
        requires from { 4 ≤ length packet.old }
        requires to { length packet.old ≤ 2 ^ 32 }
        ensures { packet.new ≡ masked_packet self.now number packet.old }
    {
        mask_after_length(&self.gcm, &self.nonce(number), packet)
    }

    /// The tag of an encrypted packet.
    #[tactic(auto, unfolding(crate::specs::Parts::AesGcm::tag_of_packet))]
    pub fn tag(&self, number: u32, packet: &[u8]) -> [u8; 16]
        requires from { 4 ≤ length packet.now }
        requires to { length packet.now ≤ 2 ^ 32 }
        ensures { result ≡ tag_of_packet self.now number packet.now }
    {
        let (field, rest) = packet.split_at(FIELD);
        self.gcm.tag(&self.nonce(number), field, rest)
    }
}

// The key of AES-128-GCM or AES-256-GCM, by its length.
fn gcm_key(alloc: Global, key: &[u8]) -> Result<GcmKey, AllocError>
    requires { IsKeySize (length key.now) }
    ensures { IfOk result (λ made. made ≡ gcm_key_of key.now) }
{
    if key.len() == 32 {
        let mut bytes = [0; 32];
        bytes.copy_from_slice(key);
        return GcmKey::new_256(alloc, &bytes);
    }
    let mut bytes = [0; 16];
    bytes.copy_from_slice(key);
    GcmKey::new(alloc, &bytes)
}

// Adds the key stream after the first four bytes.
fn mask_after_length(gcm: &GcmKey, nonce: &[u8; 12], packet: &mut [u8])
    requires from { 4 ≤ length packet.old }
    requires to { length packet.old ≤ 2 ^ 32 }
    ensures { packet.new ≡ take 4 packet.old ++ masked (stream gcm.now nonce.now) 16 (drop 4 packet.old) }
{
    gcm.mask(nonce, &mut packet[FIELD..])
}

// The counter in an IV.
fn counter_of(iv: &[u8]) -> u64
    requires { length iv.now ≡ 12 }
    ensures { result ≡ counter_of iv.now }
{
    u64::from_be_bytes([iv[4], iv[5], iv[6], iv[7], iv[8], iv[9], iv[10], iv[11]])
}
