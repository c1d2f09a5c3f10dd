ghost use Rattle.std.specs.Prelude.{◌≡◌, ◌≤◌, ◌++◌, ◌-◌, ◌+◌, List, ℕ, [], length, replicate};
ghost use Rattle.std.specs.Int.{to_be_bytes};
ghost use Rattle.ssh_model.specs.Laws.MacOnly.{key_block, padded, tag_of, hmac_under};

use sha2::{Digest, Sha256};
use std::marker::Model;

const BLOCK: usize = 64;

const INNER_PAD: u8 = 0x36;

const OUTER_PAD: u8 = 0x5c;

/// A key of HMAC-SHA-256 (RFC 2104, RFC 6668): its block of 64 bytes, with the hash states that have taken in the
/// block against each pad. So a text costs two hashed blocks less than under a key made anew. A clause sees it as
/// the block. It takes no memory but its own.
#[derive(Drop)]
pub struct HmacKey {
    block: [u8; 64],
    inner: Sha256,
    outer: Sha256,
}

impl Model for HmacKey {
    ghost use Rattle.std.specs.Prelude.{List, ℕ};
    ghost use Rattle.sha2.specs.Hashers.{Holds256};
    ghost use Rattle.ssh_model.specs.Laws.MacOnly.{padded};

    ghost Value = { List ℕ };

    ghost view = { λ k. k.block };

    ghost invariant = { λ k. Holds256 k.inner (padded 0x36 k.block) × Holds256 k.outer (padded 0x5c k.block) };
}

impl HmacKey {
    /// The key of any number of bytes. Up to 64 of them are filled up with zeros; more are hashed first.
    pub fn new(key: &[u8]) -> HmacKey
        ensures { result ≡ key_block key.now }
    {
        let block = block_of(key);
        let mut inner = Sha256::new();
        inner.update(&against(&block, INNER_PAD));
        let mut outer = Sha256::new();
        outer.update(&against(&block, OUTER_PAD));
        HmacKey {
            block,
            inner,
            outer,
        }
    }

    /// The HMAC of a text of any length under this key (RFC 2104 section 2): 32 bytes.
    pub fn mac(&self, text: &[u8]) -> [u8; 32]
        ensures { result ≡ hmac_under self.now text.now }
    {
        self.mac_of_parts(&[], text)
    }

    /// The tag of a packet: the HMAC of its number as a uint32, and then of its bytes in clear (RFC 4253 section
    /// 6.4). They go from the length field to the last byte of the padding.
    pub fn tag(&self, number: u32, packet: &[u8]) -> [u8; 32]
        ensures { result ≡ tag_of self.now number packet.now }
    {
        self.mac_of_parts(&number.to_be_bytes(), packet)
    }

    // The HMAC of a text in two parts.
    fn mac_of_parts(&self, front: &[u8], text: &[u8]) -> [u8; 32]
        ensures { result ≡ hmac_under self.now (front.now ++ text.now) }
    {
        let mut inner = copy_of(&self.inner);
        inner.update(front);
        inner.update(text);
        let digest = inner.finalize();
        let mut outer = copy_of(&self.outer);
        outer.update(&digest);
        outer.finalize()
    }
}

// The key as one block.
fn block_of(key: &[u8]) -> [u8; 64]
    ensures { result ≡ key_block key.now }
{
    if key.len() > BLOCK {
        let digest = Sha256::digest(key);
        return filled(&digest);
    }
    filled(key)
}

// The bytes, and zeros after them.
#[tactic(auto, using(crate::proofs::Pads::zeros_left))]
fn filled(bytes: &[u8]) -> [u8; 64]
    requires { length bytes.now ≤ 64 }
    ensures { result ≡ bytes.now ++ replicate (64 - length bytes.now) 0 }
{
    let mut block = [0; 64];
    block[..bytes.len()].copy_from_slice(bytes);
    block
}

// Each byte of the block against the pad.
#[tactic(auto, using(crate::proofs::Pads::one_more, crate::proofs::Pads::all_of))]
fn against(block: &[u8; 64], pad: u8) -> [u8; 64]
    ensures { result ≡ padded pad block.now }
{
    let mut bytes = [0; 64];
    for i in 0..BLOCK {
        bytes[i] = block[i] ^ pad;
    }
    bytes
}

// The same state again.
fn copy_of(state: &Sha256) -> Sha256
    ensures { result ≡ state.now }
{
    match state.clone() {
        Ok(copy) => copy,
        Err(_) => unreachable!(),
    }
}
