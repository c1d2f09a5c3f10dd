//! X25519 (RFC 7748): the function, the public point of a secret, and what two ends share; and the field of 2^255 - 19 elements under it.
//!
//! # What it promises
//!
//! - `ciphers::x25519`: an `Element` stands for a number below the prime (`residue`). `field` and `powers` have the clauses of arithmetic
//!   modulo the prime (`specs/X25519/Residues.antt`: `plus`, `minus`, `times`, `power`), `bytes` those of a number's 32 bytes (`value`,
//!   `le_bytes`). A sum and a difference ask for tight elements and are loose, a product asks for loose ones and is tight; no limb and no
//!   carry wraps. `squares::squared` is the product of an element and itself. `x25519`, `public` and `shared` are those of
//!   `specs/X25519/Curve.antt`, the ladder over these numbers. `shared` is `None` exactly if 32 zero bytes would be shared.

pub mod bytes;
mod curve;
pub mod field;
pub mod powers;
pub mod squares;

pub use curve::{clamped, public, shared, x25519};
pub use field::Element;
