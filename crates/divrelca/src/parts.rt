//! The parts of a real end: the sealing of packets by AES-GCM, the agreement of curve25519-sha256, and keys of ssh-ed25519.
//!
//! `AesGcm` seals packets as aes128-gcm@openssh.com and aes256-gcm@openssh.com (RFC 5647, with packet_length in clear and a tag of 16
//! bytes). An end that offers other encryptions too takes `Either`, as `Either<AesGcm, MacOnly>`. `GcmSettings` are settings for AES-GCM,
//! which always require strict key exchange. `Curve25519` is X25519 (RFC 7748). An `Ed25519Signer` is a host key
//! or a user's key (RFC 8709), `Ed25519Trust` the host key that a client trusts, `Ed25519HostKeys` several of them, and `Ed25519Judge` the
//! keys that let users in. `Ed25519Signatures` judges signatures alone, by the key that each comes with.
//!
//! Keys that both ends have made from one exchange:
//!
//! ```rust
//! let secret = [1; 32];
//! let point = Curve25519.public(&secret);     // goes to the peer
//! let shared = Curve25519.shared(&secret, &theirs);
//! ```
//!
//! A server's host key, and the trust in it:
//!
//! ```rust
//! let signer = Ed25519Signer::new(&seed);
//! let trust = Ed25519Trust::from_key(signer.public_key());
//! ```
//!
//! # What it promises
//!
//! - `AesGcm` is a `Sealing` by its `crypto`, `aes_gcm` of `specs/Parts/AesGcm.antt`, with all its laws. Its keys have 16 bytes for
//!   aes128-gcm@openssh.com and 32 for aes256-gcm@openssh.com. `make` alone asks for memory. A `PacketKey` is its key: `made_of` an IV
//!   and a key of the cipher. Law: packets whose numbers of 32 bits differ have different nonces under one IV (`laws::nonces_differ`).
//! - `GcmSettings::settings` gives settings of an end (`given`) with the values set and AES-128-GCM alone, and with `Require`, whatever
//!   is set (`gcm_given` of `specs/Parts/GcmSettings.antt`). `new` gives the values of `standard_given`. Edits: `plain_peers_are_taken`,
//!   `settings_name_no_cipher`, `keys_are_kept_for_too_long`.
//! - `Curve25519` is an `Agreement` by the functions of `ciphers::x25519`.
//! - `Ed25519Signer` is a `HostSigner` (`host_keys`) and a `UserSigner` (`user_signature`), `Ed25519Trust` a `HostTrust` (`is_trusted`),
//!   `Ed25519HostKeys` one that trusts by any of its keys (`is_trusted_by_any`), and `Ed25519Judge` a `UserJudge` (`judge_of`), all of `specs/Parts/Ed25519.antt`.
//!   `Ed25519Signatures` is a `UserJudge` that knows nobody (`by_signature`), and a `HostTrust` that takes every host that has signed
//!   (`has_host_signed`). It knows the signatures of ssh-ed25519 alone (`is_name`). Bytes are a key or a signature if they are
//!   `key_blob` or `signature_blob` of 32 or 64 bytes. For every algorithm except ssh-ed25519 a signer gives no bytes, and trust and judge
//!   say no. A user signer gives no bytes for a key that is not its own. They ask for no memory. Law: a key or a signature that is written
//!   in this form is read (`laws::written_is_read`).
//! - `Either<A, B>` is a `Sealing` by its `crypto`, `either` of both (`specs/Parts/Either.antt`): the names that `A` knows are `A`'s, all
//!   others `B`'s. A key belongs to one of the two.

mod curve25519;
mod ed25519_blobs;
mod ed25519_judge;
mod ed25519_signatures;
mod ed25519_signer;
mod ed25519_trust;
mod either;
mod gcm_sealing;
mod gcm_settings;
mod packet_key;

pub use curve25519::Curve25519;
pub use ed25519_judge::{AcceptedKey, Ed25519Judge};
pub use ed25519_signatures::Ed25519Signatures;
pub use ed25519_signer::Ed25519Signer;
pub use ed25519_trust::{Ed25519HostKeys, Ed25519Trust};
pub use either::{Either, EitherKey};
pub use gcm_sealing::AesGcm;
pub use gcm_settings::GcmSettings;
pub use packet_key::PacketKey;
