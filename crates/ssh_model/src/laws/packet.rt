ghost use Rattle.std.specs.Prelude.{◌≡◌, ◌++◌, ◌⊎◌, ℕ, true, false, List, [], ◌∷◌, replicate, Option, None};
ghost use Rattle.ssh_model.specs.Protocol.Wire.DataTypes.{AreBytes};
ghost use Rattle.ssh_model.specs.Protocol.Wire.Outcome.{Outcome, Outcome.Opens, Outcome.RefusedPacket};
ghost use Rattle.ssh_model.specs.Laws.Units.{HasUnit, IsPartialPacket, IsPlace};
ghost use Rattle.ssh_model.specs.Protocol.Wire.Packet.{IsPacket, is_size, with_length, without_length};
ghost use Rattle.ssh_model.specs.Protocol.Wire.Sealing.{Crypto, IsBadLength, IsSealing};
ghost use Rattle.ssh_model.specs.Protocol.Wire.Unit.{PacketUnit};
ghost use Rattle.ssh_model.specs.declared.refusal.Refusal.TheVariants.{BadLength, BadPadding, NumberSpent};

/// Under one key, with one number and one count of packets, no unit of a stream of packets (RFC 4253 section 6) is a
/// prefix of another, a unit has one outcome and at least one byte, and bytes begin with a unit exactly if they
/// are not a partial packet.
pub fn packet_units<K>()
    ensures stand_alone { (c : Crypto K) (key : Option K) (number count : ℕ) (unit more other : List ℕ) (a b : Outcome) → IsSealing c →
        PacketUnit c key number count unit a → PacketUnit c key number count other b → unit ++ more ≡ other → more ≡ [] }
    ensures have_one_outcome { (c : Crypto K) (key : Option K) (number count : ℕ) (unit : List ℕ) (a b : Outcome) → IsSealing c →
        PacketUnit c key number count unit a → PacketUnit c key number count unit b → a ≡ b }
    ensures have_bytes { (c : Crypto K) (key : Option K) (number count : ℕ) (a : Outcome) → IsSealing c →
        PacketUnit c key number count [] a → ⊥ }
    ensures come_after_what_is_begun { (c : Crypto K) (key : Option K) (number count : ℕ) (bytes unit more : List ℕ) (a : Outcome) →
        IsSealing c → IsPartialPacket c key count bytes → unit ++ more ≡ bytes → PacketUnit c key number count unit a → ⊥ }
    ensures leave_no_gap { (c : Crypto K) (key : Option K) (number count : ℕ) (bytes : List ℕ) → IsSealing c → IsPlace number count →
        AreBytes bytes → IsPartialPacket c key count bytes ⊎ HasUnit (PacketUnit c key number count) bytes }
{}

/// The sizes of packets with a tag of 16 bytes, on both sides of each bound: in blocks of which packet_length is a
/// part (RFC 4253 section 6), and in blocks after it (RFC 5647 section 7.2, encrypt-then-MAC). There the least packet
/// is one block after packet_length.
pub fn size_examples()
    ensures whole_blocks { is_size (with_length 16) 16 32 ≡ true }
    ensures no_whole_blocks { is_size (with_length 16) 16 36 ≡ false }
    ensures least { is_size (with_length 8) 16 16 ≡ true }
    ensures less { is_size (with_length 8) 16 8 ≡ false }
    ensures least_block { is_size (with_length 64) 16 64 ≡ true }
    ensures no_block { is_size (with_length 64) 16 0 ≡ false }
    ensures largest { is_size (with_length 8) 16 34984 ≡ true }
    ensures larger { is_size (with_length 8) 16 34992 ≡ false }
    ensures whole_blocks_following { is_size (without_length 16) 16 36 ≡ true }
    ensures no_whole_blocks_following { is_size (without_length 16) 16 32 ≡ false }
    ensures least_following { is_size (without_length 8) 16 12 ≡ true }
    ensures less_following { is_size (without_length 8) 16 4 ≡ false }
    ensures least_block_following { is_size (without_length 64) 16 68 ≡ true }
    ensures no_block_following { is_size (without_length 64) 16 4 ≡ false }
    ensures largest_following { is_size (without_length 16) 16 34980 ≡ true }
    ensures larger_following { is_size (without_length 16) 16 34996 ≡ false }
    ensures largest_with_any_tag { is_size (without_length 8) 12 34988 ≡ true }
    ensures larger_by_one { is_size (without_length 8) 13 34988 ≡ false }
{}

/// The outcomes of some bytes at an end that awaits a packet in the clear.
pub fn packet_examples<K>()
    ensures newkeys { (c : Crypto K) → PacketUnit c None 0 0 (0 ∷ 0 ∷ 0 ∷ 12 ∷ 10 ∷ 21 ∷ replicate 10 0) (Opens (21 ∷ [])) }
    ensures last_number { (c : Crypto K) → PacketUnit c None 4294967295 4294967295 (0 ∷ 0 ∷ 0 ∷ 12 ∷ 10 ∷ 21 ∷ replicate 10 0)
        (Opens (21 ∷ [])) }
    ensures spent_number { (c : Crypto K) → PacketUnit c None 4294967296 4294967296 (0 ∷ 0 ∷ 0 ∷ 12 ∷ []) (RefusedPacket NumberSpent) }
    ensures last_of_plain_epoch { (c : Crypto K) → PacketUnit c None 3 4294967295 (0 ∷ 0 ∷ 0 ∷ 12 ∷ 10 ∷ 21 ∷ replicate 10 0)
        (Opens (21 ∷ [])) }
    ensures spent_plain_epoch { (c : Crypto K) → PacketUnit c None 4 4294967296 (0 ∷ 0 ∷ 0 ∷ 12 ∷ []) (RefusedPacket NumberSpent) }
    ensures no_whole_blocks { (c : Crypto K) → PacketUnit c None 0 0 (0 ∷ 0 ∷ 0 ∷ 11 ∷ []) (RefusedPacket BadLength) }
    ensures largest { (c : Crypto K) → IsPartialPacket c None 0 (0 ∷ 0 ∷ 136 ∷ 180 ∷ []) }
    ensures larger { (c : Crypto K) → PacketUnit c None 0 0 (0 ∷ 0 ∷ 136 ∷ 188 ∷ []) (RefusedPacket BadLength) }
    ensures no_payload { (c : Crypto K) → PacketUnit c None 0 0 (0 ∷ 0 ∷ 0 ∷ 12 ∷ 11 ∷ replicate 11 0) (RefusedPacket BadPadding) }
    ensures short_padding { (c : Crypto K) → PacketUnit c None 0 0 (0 ∷ 0 ∷ 0 ∷ 12 ∷ 3 ∷ replicate 11 0) (RefusedPacket BadPadding) }
{}

/// Which bytes are a packet, and which are not, if blocks of 8 bytes begin after packet_length and the tag has 16 bytes.
pub fn following_examples()
    ensures least { IsPacket (without_length 8) 16 (52 ∷ []) (0 ∷ 0 ∷ 0 ∷ 8 ∷ 6 ∷ 52 ∷ replicate 6 0) }
    ensures least_padding { IsPacket (without_length 8) 16 (9 ∷ 9 ∷ 9 ∷ []) (0 ∷ 0 ∷ 0 ∷ 8 ∷ 4 ∷ 9 ∷ 9 ∷ 9 ∷ replicate 4 0) }
    ensures short_padding { (payload : List ℕ) → IsPacket (without_length 8) 16 payload (0 ∷ 0 ∷ 0 ∷ 8 ∷ 3 ∷ replicate 7 0) → ⊥ }
    ensures no_payload { (payload : List ℕ) → IsPacket (without_length 8) 16 payload (0 ∷ 0 ∷ 0 ∷ 8 ∷ 7 ∷ replicate 7 0) → ⊥ }
    ensures counted { IsBadLength (with_length 8) 16 (0 ∷ 0 ∷ 0 ∷ 8 ∷ []) }
    ensures following { IsBadLength (without_length 8) 16 (0 ∷ 0 ∷ 0 ∷ 12 ∷ []) }
{}
