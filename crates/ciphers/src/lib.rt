//! Ciphers and curves, which know nothing of SSH: AES-GCM (`aes_gcm`), the field of 2^255 - 19 elements with X25519 over it (`x25519`), and
//! signatures by Ed25519 over that field (`ed25519`).
#![tactic(auto)]

pub mod aes_gcm;
pub mod ed25519;
pub mod x25519;
