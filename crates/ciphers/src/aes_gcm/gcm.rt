//! Galois/Counter Mode (NIST SP 800-38D) with nonces of 12 bytes.

ghost use Rattle.std.specs.Prelude.{◌≡◌, ◌≤◌, ◌<◌, ◌^◌, ◌+◌, IfOk, length};
ghost use Rattle.ciphers.specs.AesGcm.Gcm.{counter_blocks, key_by, key_of, long_key_of, masked, stream, tag_of};

use crate::aes_gcm::aes::{Schedule, encrypted, long_schedule_of, schedule_of};
use crate::aes_gcm::ghash::{Element, absorbed, absorbed_all, word_at};
use crate::aes_gcm::key_stream::{add_block, fill};
use crate::aes_gcm::table::{absorbed_by, table_of};
use crate::aes_gcm::vector_keys::vector_keys;
use crate::aes_gcm::vector_rounds::VectorKeys;
use std::alloc::{AllocError, Global};
use std::marker::Model;

/// The parts of a key of AES-GCM: its round keys, and the encrypted zero block.
#[derive(Clone, Copy)]
pub struct KeyParts {
    pub schedule: Schedule,
    pub hash: Element,
}

/// A key of AES-128-GCM or AES-256-GCM, with its round keys as vectors, and a table of 8192 bytes of products by the encrypted zero block,
/// which the tag of a text of 512 bytes or more reads.
#[derive(Drop)]
pub struct GcmKey {
    parts: KeyParts,
    keys: VectorKeys,
    table: Vec<u8>,
}

impl Model for GcmKey {
    ghost use Rattle.ciphers.specs.declared.aes_gcm.gcm.KeyParts.{KeyParts};

    ghost Value = { KeyParts };

    ghost use Rattle.ciphers.specs.AesGcm.Keys.{IsMadeReady};

    ghost view = { λ k. k.parts };

    ghost invariant = { λ k. IsMadeReady k.parts k.keys k.table.items };
}

impl GcmKey {
    /// The key of AES-128-GCM of these bytes.
    ///
    /// # Errors
    ///
    /// Only if memory is refused.
    pub fn new(alloc: Global, key: &[u8; 16]) -> Result<GcmKey, AllocError>
        ensures { IfOk result (λ made. made ≡ key_of key.now) }
    {
        GcmKey::by(alloc, schedule_of(key))
    }

    /// The key of AES-256-GCM of these bytes.
    ///
    /// # Errors
    ///
    /// Only if memory is refused.
    pub fn new_256(alloc: Global, key: &[u8; 32]) -> Result<GcmKey, AllocError>
        ensures { IfOk result (λ made. made ≡ long_key_of key.now) }
    {
        GcmKey::by(alloc, long_schedule_of(key))
    }

    // The key of these round keys.
    fn by(alloc: Global, schedule: Schedule) -> Result<GcmKey, AllocError>
        ensures { IfOk result (λ made. made ≡ key_by schedule) }
    {
        let zero = encrypted(&schedule, &[0; 64]);
        let hash = Element {
            hi: word_at(&zero, 0),
            lo: word_at(&zero, 8),
        };
        Ok(GcmKey {
            parts: KeyParts { schedule, hash },
            keys: vector_keys(&schedule),
            table: table_of(alloc, hash)?,
        })
    }

    /// Adds the key stream of this nonce to the text: encrypts it, or decrypts it.
    pub fn mask(&self, nonce: &[u8; 12], text: &mut [u8])
        requires { length text.old ≤ 2 ^ 32 }
        ensures { text.new ≡ masked (stream self.now nonce.now) 16 text.old }
    {
        let mut bytes = [0; 128];
        fill(&self.keys, nonce, 0, &mut bytes);
        for i in 0..text.len().div_ceil(16) {
            let block = i + 1;
            if block % 8 == 0 {
                fill(&self.keys, nonce, block / 8, &mut bytes);
            }
            add_block(text, 16 * i, &bytes, 16 * (block % 8));
        }
    }

    /// The tag of an encrypted text, and of data besides it that stay in clear.
    #[tactic(auto, unfolding(crate::specs::AesGcm::Gcm::tag_of))]
    pub fn tag(&self, nonce: &[u8; 12], additional: &[u8], text: &[u8]) -> [u8; 16]
        requires additional { length additional.now ≤ 2 ^ 32 }
        requires text { length text.now ≤ 2 ^ 32 }
        ensures { result ≡ tag_of self.now nonce.now additional.now text.now }
    {
        let hash = self.parts.hash;
        let none = Element { hi: 0, lo: 0 };
        let sum = absorbed_all(hash, none, additional);
        let sum = absorbed_by(&self.table, hash, sum, text);
        let lengths = Element {
            hi: 8 * additional.len() as u64,
            lo: 8 * text.len() as u64,
        };
        let sum = absorbed(hash, sum, lengths);
        let block = encrypted(&self.parts.schedule, &counter_blocks(nonce, 1));
        let hi = (sum.hi ^ word_at(&block, 0)).to_be_bytes();
        let lo = (sum.lo ^ word_at(&block, 8)).to_be_bytes();
        [
            hi[0], hi[1], hi[2], hi[3], hi[4], hi[5], hi[6], hi[7], lo[0], lo[1], lo[2], lo[3],
            lo[4], lo[5], lo[6], lo[7],
        ]
    }
}

// Four blocks of the nonce, with counters from this one on.
fn counter_blocks(nonce: &[u8; 12], first: u32) -> [u8; 64]
    requires { first + 4 ≤ 2 ^ 32 }
    ensures { result ≡ counter_blocks nonce.now first }
{
    let n = nonce;
    let a = first.to_be_bytes();
    let b = (first + 1).to_be_bytes();
    let c = (first + 2).to_be_bytes();
    let d = (first + 3).to_be_bytes();
    [
        n[0], n[1], n[2], n[3], n[4], n[5], n[6], n[7], n[8], n[9], n[10], n[11], a[0], a[1], a[2],
        a[3], n[0], n[1], n[2], n[3], n[4], n[5], n[6], n[7], n[8], n[9], n[10], n[11], b[0], b[1],
        b[2], b[3], n[0], n[1], n[2], n[3], n[4], n[5], n[6], n[7], n[8], n[9], n[10], n[11], c[0],
        c[1], c[2], c[3], n[0], n[1], n[2], n[3], n[4], n[5], n[6], n[7], n[8], n[9], n[10], n[11],
        d[0], d[1], d[2], d[3],
    ]
}
