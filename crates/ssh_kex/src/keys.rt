ghost use Rattle.std.specs.Prelude.{◌≡◌, ◌≤◌, ◌+◌, ◌++◌, ◌∷◌, List, ℕ, length, take, drop};
ghost use Rattle.sha2.specs.Hashers.{Holds256};
ghost use Rattle.sha2.specs.Sha256.{sha256};
ghost use Rattle.ssh_model.specs.Protocol.Wire.DataTypes.{number};
ghost use Rattle.ssh_model.specs.Protocol.KeyExchange.Exchange.{derived, key_front as front_of};
ghost use Rattle.ssh_kex.specs.Values.{letter_of};

use crate::pieces::hash_mpint;
use sha2::{Digest, Sha256};

// The bytes of a block.
const BLOCK: usize = 32;

/// The letter that tells the keys of an exchange apart (RFC 4253 section 7.2).
#[derive(Clone, Copy, Debug, PartialEq, Eq)]
pub enum KeyPurpose {
    /// The initial IV from the client to the server.
    A,
    /// The initial IV from the server to the client.
    B,
    /// The encryption key from the client to the server.
    C,
    /// The encryption key from the server to the client.
    D,
    /// The integrity key from the client to the server.
    E,
    /// The integrity key from the server to the client.
    F,
}

impl KeyPurpose {
    /// The letter in US-ASCII.
    pub fn as_byte(self) -> u8
        ensures { result ≡ letter_of self }
    {
        match self {
            KeyPurpose::A => b'A',
            KeyPurpose::B => b'B',
            KeyPurpose::C => b'C',
            KeyPurpose::D => b'D',
            KeyPurpose::E => b'E',
            KeyPurpose::F => b'F',
        }
    }
}

/// Fills `out` with the key of this letter, as long as `out` is (RFC 4253 section 7.2). It needs no memory.
///
/// `shared` is the shared number K, unsigned, the most significant byte first. `hash` is the hash of this exchange, and `session_id` the
/// hash of the first one.
#[tactic(auto, using(crate::proofs::Blocks::begun, crate::proofs::Blocks::goes_on, crate::proofs::Blocks::filled_up))]
pub fn derive(
    shared: &[u8; 32],
    hash: &[u8; 32],
    letter: KeyPurpose,
    session_id: &[u8; 32],
    out: &mut [u8],
)
    ensures { out.new ≡ derived (number shared.now) hash.now (letter_of letter) session_id.now (length out.old) }
{
    let mut chain = key_front(shared, hash);
    let mut block = first_block(&chain, letter, session_id);
    let mut filled = 0;
    while out.len() - filled > BLOCK {
        put_at(out, filled, &block);
        filled += BLOCK;
        chain.update(&block);
        block = digest_so_far(&chain);
    }
    let rest = out.len() - filled;
    put_at(out, filled, &block[..rest]);
}

// Puts bytes in the place of others.
fn put_at(out: &mut [u8], at: usize, bytes: &[u8])
    requires { at + length bytes.now ≤ length out.old }
    ensures { out.new ≡ take at out.old ++ bytes.now ++ drop (at + length bytes.now) out.old }
{
    out[at..at + bytes.len()].copy_from_slice(bytes);
}

// The beginning of each block.
fn key_front(shared: &[u8; 32], hash: &[u8; 32]) -> Sha256
    ensures { Holds256 result (front_of (number shared.now) hash.now) }
{
    crate::laws::short_number(shared);
    let mut front = Sha256::new();
    hash_mpint(&mut front, shared);
    front.update(hash);
    front
}

// The block that the letter and the session id begin.
fn first_block(front: &Sha256, letter: KeyPurpose, session_id: &[u8; 32]) -> [u8; 32]
    ensures { (m : List ℕ) → Holds256 front.now m → result ≡ sha256 (m ++ letter_of letter ∷ session_id.now) }
{
    let mut first = copy_of(front);
    first.update(&[letter.as_byte()]);
    first.update(session_id);
    first.finalize()
}

// The digest of the state so far; the state can go on.
fn digest_so_far(state: &Sha256) -> [u8; 32]
    ensures { (m : List ℕ) → Holds256 state.now m → result ≡ sha256 m }
{
    copy_of(state).finalize()
}

// The same state again.
fn copy_of(state: &Sha256) -> Sha256
    ensures { result ≡ state.now }
{
    match state.clone() {
        Ok(copy) => copy,
        Err(_) => unreachable!(),
    }
}
