//! The key of a direction.

ghost use Rattle.std.specs.Prelude.{◌≡◌, ◌≤◌, IfOk, IsSome, take};
ghost use Rattle.ssh_model.specs.Protocol.Bounds.{longest_key_material};
ghost use Rattle.ssh_model.specs.Protocol.Wire.DataTypes.{number};
ghost use Rattle.ssh_model.specs.Protocol.KeyExchange.Exchange.{derived};
ghost use Rattle.ssh_kex.specs.Values.{letter_of};
ghost use Rattle.ssh_packet.specs.Sealing.{lengths_of};
ghost use Rattle.ssh_transport_machine.specs.Hashing.{key_with, lengths_in};

use crate::machine::sides::{cipher_of, iv_of, mac_of};
use ssh_kex::{KeyPurpose, derive};
use ssh_packet::{Lengths, Sealing};
use ssh_types::Side;
use ssh_types::bounds::LONGEST_KEY_MATERIAL;
use std::alloc::{AllocError, Global};

/// The results of an exchange: the shared number, the hash, and the session id.
#[derive(Clone, Copy)]
pub(crate) struct Agreed<'a> {
    /// The shared number, the most significant byte first.
    pub shared: &'a [u8; 32],
    /// The exchange hash.
    pub hash: &'a [u8; 32],
    /// The session id.
    pub session: &'a [u8; 32],
}

/// The key of the direction from this side (RFC 4253 section 7.2), for names that the sealing knows.
///
/// # Errors
///
/// Only if memory is refused.
pub(crate) fn key_from<S: Sealing>(
    alloc: Global,
    from: Side,
    agreed: &Agreed<'_>,
    encryption: &[u8],
    mac: &[u8],
) -> Result<S::Key, AllocError>
    requires { IsSome (S.crypto.lengths encryption.now mac.now) }
    ensures { IfOk result (λ key. key ≡ key_with S.crypto from (number agreed.now.shared.now) agreed.now.hash.now
        agreed.now.session.now encryption.now mac.now) }
{
    let sizes = sizes_of::<S>(encryption, mac);
    let iv = filled(agreed, iv_of(from), sizes.iv);
    let cipher = filled(agreed, cipher_of(from), sizes.cipher);
    let key = filled(agreed, mac_of(from), sizes.mac);
    S::make(
        alloc,
        encryption,
        mac,
        &iv[..sizes.iv],
        &cipher[..sizes.cipher],
        &key[..sizes.mac],
    )
}

// How much key material the sealing takes.
fn sizes_of<S: Sealing>(encryption: &[u8], mac: &[u8]) -> Lengths
    // What the caller must ensure.
    requires { IsSome (S.crypto.lengths encryption.now mac.now) }
    // What it returns.
    ensures sizes { lengths_of result ≡ lengths_in S.crypto encryption.now mac.now }
    ensures iv { result.iv ≤ longest_key_material }
    ensures cipher { result.cipher ≤ longest_key_material }
    ensures mac { result.mac ≤ longest_key_material }
{
    S::lengths(encryption, mac).unwrap()
}

// So much key material of this letter, and zeros after it.
fn filled(agreed: &Agreed<'_>, letter: KeyPurpose, count: usize) -> [u8; LONGEST_KEY_MATERIAL]
    requires { count ≤ longest_key_material }
    ensures { take count result ≡ derived (number agreed.now.shared.now) agreed.now.hash.now (letter_of letter)
        agreed.now.session.now count }
{
    let shared = agreed.shared;
    let hash = agreed.hash;
    let session = agreed.session;
    let mut out = [0; LONGEST_KEY_MATERIAL];
    derive(shared, hash, letter, session, &mut out[..count]);
    out
}
