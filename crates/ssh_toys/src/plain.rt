//! AES-128-GCM, X25519 and Ed25519 as plain programs, for tests and times: the key stream four blocks at a time, byte by byte, and GHASH
//! bit by bit; squares are products, and each bit of a number doubles and adds. The crate `ciphers` computes the same faster.
//! Nothing is claimed of these programs but that they are safe.

mod encoding;
mod field;
mod ghash;
mod key;
mod keys;
mod ladder;
mod point;
mod powers;
mod scalar;
mod verification;

pub use key::PlainKey;
pub use keys::PlainPair;
pub use ladder::x25519;
pub use verification::verify;
