ghost use Rattle.std.specs.Prelude.{IsTrue};
ghost use Rattle.ssh_types.specs.Digits.{is_canonical as passes_canonical};

use crate::digits::{is_canonical, split_mark};

/// A whole number of any size, as its shortest bytes in two's complement, the most significant first (the mpint of
/// RFC 4251 section 5). Zero has no bytes.
///
/// It is a slice of bytes and a mark whether one zero byte stands in front of them. A zero byte in front is always the
/// mark, and never in the slice. Numbers are equal if their bytes are.
#[derive(Clone, Copy, Debug, PartialEq, Eq)]
pub struct MpInt<'a> {
    // One zero byte stands in front of the digits.
    marked: bool,
    digits: &'a [u8],
    ghost canonical: { IsTrue (passes_canonical marked digits.now) },
}

impl<'a> MpInt<'a> {
    ghost use Rattle.std.specs.Prelude.{◌≡◌, ◌↔◌, ◌++◌, pos, ◌≤◌, ◌+◌, length, false, IfSome, IfNone, ℤ};
    ghost use Rattle.ssh_model.specs.Protocol.Wire.DataTypes.{number};
    ghost use Rattle.ssh_model.specs.Laws.DataTypes.{IsShortest};
    ghost use Rattle.ssh_types.specs.Digits.{marked_bytes, starts_with_zero};
    ghost use Rattle.ssh_types.specs.Values.{bytes_of, value_of};

    #[tactic(auto, using(crate::specs::WholeNumbers::unsigned_marked, crate::specs::WholeNumbers::unsigned_low, crate::specs::WholeNumbers::bytes_by_index))]
    /// The number that the bytes are, unsigned, the most significant first. Zero bytes in front are left away, and the mark
    /// is set if the first bit after them would otherwise be read as a sign.
    pub fn from_unsigned(bytes: &'a [u8]) -> MpInt<'a>
        ensures value { value_of result ≡ pos (number bytes.now) }
        ensures length { length (bytes_of result) ≤ length bytes.now + 1 }
    {
        let mut digits = bytes;
        while let [0, rest @ ..] = digits {
            digits = rest;
        }
        if let [128..=255, ..] = digits {
            return MpInt {
                marked: true,
                digits,
            };
        }
        MpInt {
            marked: false,
            digits,
        }
    }

    /// The number whose shortest bytes these are, or `None` if they are the shortest of no number.
    #[tactic(auto, using(crate::specs::WholeNumbers::shortest_parts, crate::specs::WholeNumbers::spare_parts, crate::specs::WholeNumbers::bytes_by_index))]
    pub fn from_shortest(bytes: &'a [u8]) -> Option<MpInt<'a>>
        ensures found { IfSome result (λ m. IsShortest (value_of m) bytes.now) }
        ensures bytes { IfSome result (λ m. bytes_of m ≡ bytes.now) }
        ensures none { IfNone result ((z : ℤ) → IsShortest z bytes.now → ⊥) }
    {
        let (marked, digits) = split_mark(bytes);
        crate::laws::are_bytes(digits);
        if !is_canonical(marked, digits) {
            return None;
        }
        Some(MpInt { marked, digits })
    }

    /// Tests whether both are the same number.
    #[tactic(auto, using(crate::specs::WholeNumbers::same_value))]
    pub fn is_same(&self, other: &MpInt<'_>) -> bool
        ensures { IsTrue result ↔ (value_of self.now ≡ value_of other.now) }
    {
        crate::laws::are_bytes(self.digits);
        crate::laws::are_bytes(other.digits);
        self.marked == other.marked && self.digits == other.digits
    }

    /// The mark whether one zero byte stands in front, and the bytes after it, which never begin with one.
    pub fn parts(&self) -> (bool, &'a [u8])
        ensures whole { marked_bytes result.0 result.1.now ≡ bytes_of self.now }
        ensures digits { starts_with_zero result.1.now ≡ false }
    {
        (self.marked, self.digits)
    }

    // The bytes in two parts: the zero byte if there is one, and the digits.
    #[tactic(auto, using(crate::specs::WholeNumbers::kept_shortest))]
    pub(crate) fn halves(&self) -> (&'a [u8], &'a [u8])
        ensures whole { result.0.now ++ result.1.now ≡ bytes_of self.now }
        ensures shortest { IsShortest (value_of self.now) (result.0.now ++ result.1.now) }
    {
        crate::laws::are_bytes(self.digits);
        if self.marked {
            return (&[0], self.digits);
        }
        (&[], self.digits)
    }
}
