//! Ed25519 (RFC 8032 section 5.1): key pairs, signatures and their verification.
//!
//! ```rust
//! let pair = KeyPair::from_seed(&seed);
//! let signature = pair.sign(message);
//! let good = verify(pair.public(), message, &signature);
//! ```
//!
//! # What it promises
//!
//! - `ciphers::ed25519`: `KeyPair::from_seed` is `pair_of`, `sign` is `signature_of` of the pair, and `verify` is `is_signature`
//!   (`specs/Ed25519/Signature.antt`). They are over `encoded` and `decoded` (`Encoding.antt`), the points of `Point.antt` and whole
//!   numbers modulo `order`. They ask for no memory. The code adds in other orders, of `Comb.antt` and `Windows.antt`, which no public
//!   contract names. The laws are `curve_numbers`, `decoded_is_on_curve`, `prime_field` and `group_law`. `curve_numbers` says what d, the
//!   base point and the root of -1 are. `prime_field` says that 2^255 - 19 is prime and d no square. `group_law` says that the points of
//!   the curve (`IsCurve`, `AreSame` of `Group.antt`) are a group under the sum, and are encoded alike by whatever coordinates.

mod comb;
mod encoding;
mod keys;
pub mod laws;
mod order;
mod point;
mod scalar;
mod teeth;
mod verification;
mod windows;

pub use keys::KeyPair;
pub use order::is_small_order;
pub use verification::verify;
