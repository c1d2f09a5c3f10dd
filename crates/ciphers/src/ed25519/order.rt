//! Points of small order.

ghost use Rattle.std.specs.Prelude.{◌≡◌};
ghost use Rattle.ciphers.specs.Ed25519.Order.{is_small_order};

use crate::ed25519::encoding::{decoded, encoded};
use crate::ed25519::point::added;

// The bytes of the identity, whose x is 0 and whose y is 1.
const IDENTITY: [u8; 32] = [
    1, 0, 0, 0, 0, 0, 0, 0, 0, 0, 0, 0, 0, 0, 0, 0, 0, 0, 0, 0, 0, 0, 0, 0, 0, 0, 0, 0, 0, 0, 0, 0,
];

/// Tests whether a public key is one of the eight points whose order divides eight (RFC 8032 section 5.1: the cofactor is 8), as 32 zeros
/// are. Under such a key a signature says nothing: anyone can make one that is right for any message. `verify` takes these keys, as the
/// standard does; who accepts keys from outside tests for them.
#[tactic(auto, unfolding(crate::specs::Ed25519::Order::is_small_order))]
pub fn is_small_order(public: &[u8; 32]) -> bool
    ensures { result ≡ is_small_order public.now }
{
    match decoded(public) {
        Some(point) => {
            let twice = added(point, point);
            let four_times = added(twice, twice);
            encoded(added(four_times, four_times)) == IDENTITY
        }
        None => false,
    }
}
