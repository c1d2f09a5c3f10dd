ghost use Rattle.std.specs.Prelude.{◌≡◌, ◌-◌, IfOk, IsSomeAnd, IsTrue, length, take};
ghost use Rattle.std.specs.Option.{option_map};
ghost use Rattle.ssh_model.specs.Protocol.Wire.Sealing.{Crypto, IsSealing, is_wire_size};
ghost use Rattle.ssh_packet.specs.Sealing.{lengths_of};

use std::alloc::{AllocError, Global};

/// How many bytes of key material a sealing takes in one direction (RFC 4253 section 7.2).
#[derive(Clone, Copy, Debug, PartialEq, Eq)]
pub struct Lengths {
    /// The bytes of the initial IV.
    pub iv: usize,
    /// The bytes of the key of the cipher.
    pub cipher: usize,
    /// The bytes of the key of the MAC.
    pub mac: usize,
}

/// A sealing of packets: a supplied cipher and MAC (RFC 4253 sections 6.3 and 6.4). Its ghost member `crypto` has the
/// functions that it computes, and `laws` their properties. Opening restores a packet that was sealed under the same key and number.
/// Both keep the first four bytes, the packet's length, so that it stays in the clear.
///
/// No method but `make` can fail. `seal` and `open` work in place, on whole blocks of `block` bytes. A packet has at
/// least 16 bytes, or at least one block after packet_length if packet_length does not count. It has at most 35,000
/// bytes with the tag.
pub trait Sealing {
    /// The keys of one direction in one epoch.
    type Key: Drop;

    ghost crypto: { Crypto Self.Key };

    /// The lengths of the key material under these names of encryption and MAC (RFC 4253 section 7.2), each
    /// at most 64 bytes. It is `None` if the sealing does not know the pair.
    fn lengths(enc: &[u8], mac: &[u8]) -> Option<Lengths>
        ensures { option_map lengths_of result ≡ crypto.lengths enc.now mac.now };

    /// The key that these bytes make, for a pair of names that `lengths` knows and material of those lengths (RFC 4253
    /// section 7.2).
    ///
    /// # Errors
    ///
    /// Only if memory is refused.
    fn make(
        alloc: Global,
        enc: &[u8],
        mac: &[u8],
        iv: &[u8],
        cipher: &[u8],
        mac_key: &[u8],
    ) -> Result<Self::Key, AllocError>
        requires { IsSomeAnd (crypto.lengths enc.now mac.now) (λ n. (length iv.now ≡ n.iv) × (length cipher.now ≡ n.cipher)
            × (length mac_key.now ≡ n.mac)) }
        ensures { IfOk result (λ key. key ≡ crypto.made enc.now mac.now iv.now cipher.now mac_key.now) };

    /// The block size in bytes (RFC 4253 section 6): 8, 16, 32 or 64.
    fn block(key: &Self::Key) -> usize
        ensures { result ≡ (crypto.blocks key.now).size };

    /// Whether the four bytes of packet_length count in the blocks, as in RFC 4253 section 6. They don't count if
    /// packet_length stands in the clear next to a cipher: under AES-GCM (RFC 5647 section 7.2) and in the encrypt-then-MAC modes of
    /// OpenSSH. There a packet without these four bytes fills whole blocks, at least one.
    fn counts_length(key: &Self::Key) -> bool
        ensures { result ≡ (crypto.blocks key.now).counts_length };

    /// The length of the tag in bytes (RFC 4253 section 6.4), at most 64.
    fn tag_len(key: &Self::Key) -> usize
        ensures { result ≡ crypto.tag key.now };

    /// Seals a packet in place, as the one of this number. The last `tag_len` bytes are room for the tag, whatever
    /// they hold before.
    fn seal(key: &Self::Key, number: u32, packet: &mut [u8])
        requires { IsTrue (is_wire_size (crypto.blocks key.now) (crypto.tag key.now) (length packet.old)) }
        ensures { packet.new ≡ crypto.sealed key.now number (take (length packet.old - crypto.tag key.now) packet.old) };

    /// Opens a packet with its tag in place, as the one of this number, and answers whether the tag is good. The
    /// bytes of the tag may then be any.
    fn open(key: &Self::Key, number: u32, packet: &mut [u8]) -> bool
        requires { IsTrue (is_wire_size (crypto.blocks key.now) (crypto.tag key.now) (length packet.old)) }
        ensures good { result ≡ (crypto.opened key.now number packet.old).good }
        ensures bytes { take (length packet.old - crypto.tag key.now) packet.new ≡ (crypto.opened key.now number packet.old).bytes };

    ghost laws: { IsSealing crypto };
}
