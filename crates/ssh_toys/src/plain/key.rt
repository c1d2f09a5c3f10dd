//! Galois/Counter Mode (NIST SP 800-38D) with nonces of 12 bytes.

ghost use Rattle.std.specs.Prelude.{◌≤◌, ◌<◌, ◌+◌, ◌^◌, length};

use crate::plain::ghash::{absorbed, absorbed_all, word_at};
use ciphers::aes_gcm::{Element, Schedule, encrypted, schedule_of};

/// A key of AES-128-GCM: its round keys, and the encrypted zero block.
#[derive(Clone, Copy)]
pub struct PlainKey {
    schedule: Schedule,
    hash: Element,
}

impl PlainKey {
    /// The key of these bytes.
    pub fn new(key: &[u8; 16]) -> PlainKey {
        let schedule = schedule_of(key);
        let zero = encrypted(&schedule, &[0; 64]);
        PlainKey {
            schedule,
            hash: Element {
                hi: word_at(&zero, 0),
                lo: word_at(&zero, 8),
            },
        }
    }

    /// Adds the key stream of this nonce to the text: encrypts it, or decrypts it.
    pub fn mask(&self, nonce: &[u8; 12], text: &mut [u8])
        requires { length text.old ≤ 2 ^ 32 }
    {
        let mut block = self.batch(nonce, 0);
        for i in 0..text.len() {
            let place = 16 + i;
            if place % 64 == 0 {
                block = self.batch(nonce, place / 64);
            }
            text[i] ^= block[place % 64];
        }
    }

    /// The tag of an encrypted text, and of data besides it that stay in clear.
    pub fn tag(&self, nonce: &[u8; 12], clear: &[u8], text: &[u8]) -> [u8; 16]
        requires clear { length clear.now ≤ 2 ^ 32 }
        requires text { length text.now ≤ 2 ^ 32 }
    {
        let none = Element { hi: 0, lo: 0 };
        let sum = absorbed_all(self.hash, none, clear);
        let sum = absorbed_all(self.hash, sum, text);
        let lengths = Element {
            hi: 8 * clear.len() as u64,
            lo: 8 * text.len() as u64,
        };
        let sum = absorbed(self.hash, sum, lengths);
        let block = self.batch(nonce, 0);
        let hi = (sum.hi ^ word_at(&block, 0)).to_be_bytes();
        let lo = (sum.lo ^ word_at(&block, 8)).to_be_bytes();
        [
            hi[0], hi[1], hi[2], hi[3], hi[4], hi[5], hi[6], hi[7], lo[0], lo[1], lo[2], lo[3],
            lo[4], lo[5], lo[6], lo[7],
        ]
    }

    // Four blocks of the key stream: those of the counters from 4 n + 1 on.
    fn batch(&self, nonce: &[u8; 12], n: usize) -> [u8; 64]
        requires { n < 2 ^ 28 }
    {
        let mut blocks = [0; 64];
        for i in 0..4usize {
            blocks[16 * i..16 * i + 12].copy_from_slice(nonce);
            let counter = (4 * n + i) as u32 + 1;
            blocks[16 * i + 12..16 * i + 16].copy_from_slice(&counter.to_be_bytes());
        }
        encrypted(&self.schedule, &blocks)
    }
}
