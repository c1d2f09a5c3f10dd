//! Facts for proofs, each the contract of a function without a body. A call of one costs nothing.

ghost use Rattle.std.specs.Prelude.{◌≡◌, ◌<◌, ◌^◌, List, ℕ, length};
ghost use Rattle.ciphers.specs.AesGcm.Gcm.{counter_block};

/// A counter block belongs to one nonce of 12 bytes and to one counter of 32 bits (NIST SP 800-38D section 7.1): so where no nonce comes
/// twice under a key, no block of its key stream does.
#[tactic(auto, using(crate::proofs::AesGcmLemmas::CounterBlocks::nonces_same, crate::proofs::AesGcmLemmas::CounterBlocks::counters_same))]
pub fn counter_blocks_differ()
    ensures nonce { (m n : List ℕ) (i j : ℕ) → length m ≡ 12 → length n ≡ 12 → counter_block m i ≡ counter_block n j → m ≡ n }
    ensures counter { (m n : List ℕ) (i j : ℕ) → i < 2 ^ 32 → j < 2 ^ 32 → counter_block m i ≡ counter_block n j → i ≡ j }
{}
