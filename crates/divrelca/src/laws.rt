//! Facts for proofs, each the contract of a function without a body. A call of such a function costs nothing.

ghost use Rattle.std.specs.Prelude.{◌≡◌, ◌<◌, ◌^◌, List, ℕ, Some, length};
ghost use Rattle.divrelca.specs.Parts.AesGcm.{nonce};
ghost use Rattle.divrelca.specs.Parts.Ed25519.{key_blob, key_in, signature_blob, signature_in};
ghost use Rattle.divrelca.specs.declared.parts.packet_key.PacketKey.{PacketKey};

/// A key and a signature of ssh-ed25519 are read as they were written.
#[tactic(auto, using(crate::proofs::OfParts::Encodings::keys_are_read, crate::proofs::OfParts::Encodings::signatures_are_read))]
pub fn written_is_read()
    ensures key { (key : List ℕ) → length key ≡ 32 → key_in (key_blob key) ≡ Some key }
    ensures signature { (signature : List ℕ) → length signature ≡ 64 → signature_in (signature_blob signature) ≡ Some signature }
{}

/// Two packets whose numbers of 32 bits differ have different nonces under one IV, also if the IV's counter wraps.
#[tactic(auto, using(crate::proofs::OfParts::Nonces::numbers_same))]
pub fn nonces_differ()
    ensures { (key : PacketKey) (m n : ℕ) → m < 2 ^ 32 → n < 2 ^ 32 → nonce key m ≡ nonce key n → m ≡ n }
{}
