//! AES-128-GCM and AES-256-GCM (FIPS 197 and NIST SP 800-38D): eight blocks at once in vectors of bits, and GHASH in sixteen streams. No
//! place in memory and no branch depends on a key or a text.
//!
//! # What it promises
//!
//! - `ciphers::aes_gcm`: `schedule_of` and `long_schedule_of` are the key expansion of 128 and of 256 bits, and `encrypted` is the cipher
//!   on four blocks. They are as `specs/AesGcm/Aes.antt` has them, plane by plane. `GcmKey::new`, `new_256`, `mask` and `tag` are
//!   `key_of`, `long_key_of`, `masked` with the key's `stream`, and `tag_of` (`specs/AesGcm/Gcm.antt`, `Ghash.antt`). A text has at most
//!   2^32 bytes, and so have the data next to it. A `GcmKey` stands for its `KeyParts`, round keys and the encrypted zero block. Its
//!   round keys as vectors and its table of products are an invariant (`IsMadeReady` of `specs/AesGcm/Keys.antt`) and no part of what it
//!   means. `new` and `new_256` alone need memory. Law: a counter block belongs to one nonce and one counter
//!   (`laws::counter_blocks_differ`).

mod aes;
mod gcm;
mod ghash;
mod key_stream;
mod lanes;
pub mod laws;
mod packing;
mod planes;
mod streams;
mod sub_bytes;
mod table;
mod vector_bytes;
mod vector_keys;
mod vector_packing;
mod vector_rounds;

pub use aes::{MoreKeys, Schedule, encrypted, long_schedule_of, schedule_of};
pub use gcm::{GcmKey, KeyParts};
pub use ghash::Element;
pub use planes::Planes;
