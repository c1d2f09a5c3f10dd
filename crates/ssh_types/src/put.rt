ghost use Rattle.std.specs.Prelude.{◌≡◌, ◌<◌, ◌≤◌, ◌+◌, ◌^◌, ◌++◌, List, ℕ, length, OnOk, OnErr, vec_capacity};
ghost use Rattle.ssh_model.specs.Protocol.Wire.DataTypes.{IsByte, IsWrittenBoolean, IsUint32, IsString, IsNameList};
ghost use Rattle.ssh_model.specs.Laws.DataTypes.{IsUint64, IsMpint};
ghost use Rattle.ssh_model.specs.Laws.Reading.{Writes, Extends};
ghost use Rattle.ssh_model.specs.Laws.Sizes.{names_size};
ghost use Rattle.ssh_types.specs.Values.{value_of, bytes_of, names, names_text};

use crate::mpint::MpInt;
use crate::name_list::NameList;
use byteorder::{BigEndian, ByteOrder};
use std::alloc::AllocError;

/// Writes values at the end of bytes, as RFC 4251 section 5 encodes them.
///
/// Each call gives an `AllocError` only if the encoding does not fit the capacity and memory was refused. The bytes
/// are then as before the call. The capacity never shrinks.
pub trait Put {
    ghost contents: { Self → List ℕ };

    ghost capacity: { Self → ℕ };

    /// Writes a byte.
    ///
    /// # Errors
    ///
    /// Only if the bytes do not fit the capacity and memory was refused.
    fn put_u8(&mut self, byte: u8) -> Result<(), AllocError>
        ensures written { OnOk result (Writes (IsByte byte) (contents self.old) (contents self.new)) }
        ensures kept { OnErr result (contents self.new ≡ contents self.old) }
        ensures full { OnErr result (capacity self.old < length (contents self.old) + 1) }
        ensures grows { capacity self.old ≤ capacity self.new };

    /// Writes a truth value as one byte: 1 for true and 0 for false.
    ///
    /// # Errors
    ///
    /// Only if the bytes do not fit the capacity and memory was refused.
    fn put_boolean(&mut self, truth: bool) -> Result<(), AllocError>
        ensures written { OnOk result (Writes (IsWrittenBoolean truth) (contents self.old) (contents self.new)) }
        ensures kept { OnErr result (contents self.new ≡ contents self.old) }
        ensures full { OnErr result (capacity self.old < length (contents self.old) + 1) }
        ensures grows { capacity self.old ≤ capacity self.new };

    /// Writes a uint32: four bytes, the most significant first.
    ///
    /// # Errors
    ///
    /// Only if the bytes do not fit the capacity and memory was refused.
    fn put_u32(&mut self, number: u32) -> Result<(), AllocError>
        ensures written { OnOk result (Writes (IsUint32 number) (contents self.old) (contents self.new)) }
        ensures kept { OnErr result (contents self.new ≡ contents self.old) }
        ensures full { OnErr result (capacity self.old < length (contents self.old) + 4) }
        ensures grows { capacity self.old ≤ capacity self.new };

    /// Writes a uint64: eight bytes, the most significant first.
    ///
    /// # Errors
    ///
    /// Only if the bytes do not fit the capacity and memory was refused.
    fn put_u64(&mut self, number: u64) -> Result<(), AllocError>
        ensures written { OnOk result (Writes (IsUint64 number) (contents self.old) (contents self.new)) }
        ensures kept { OnErr result (contents self.new ≡ contents self.old) }
        ensures full { OnErr result (capacity self.old < length (contents self.old) + 8) }
        ensures grows { capacity self.old ≤ capacity self.new };

    /// Writes a string: its length as a uint32, and its bytes. The text is shorter than 2^32 bytes.
    ///
    /// # Errors
    ///
    /// Only if the bytes do not fit the capacity and memory was refused.
    fn put_string(&mut self, text: &[u8]) -> Result<(), AllocError>
        requires { length text.now < 2 ^ 32 }
        ensures written { OnOk result (Writes (IsString text.now) (contents self.old) (contents self.new)) }
        ensures kept { OnErr result (contents self.new ≡ contents self.old) }
        ensures full { OnErr result (capacity self.old < length (contents self.old) + (4 + length text.now)) }
        ensures grows { capacity self.old ≤ capacity self.new };

    /// Writes an mpint: the shortest bytes of the number in two's complement, as a string. They are fewer than 2^32.
    ///
    /// # Errors
    ///
    /// Only if the bytes do not fit the capacity and memory was refused.
    fn put_mpint(&mut self, number: &MpInt<'_>) -> Result<(), AllocError>
        requires { length (bytes_of number.now) < 2 ^ 32 }
        ensures written { OnOk result (Writes (IsMpint (value_of number.now)) (contents self.old) (contents self.new)) }
        ensures kept { OnErr result (contents self.new ≡ contents self.old) }
        ensures full { OnErr result (capacity self.old < length (contents self.old) + (4 + length (bytes_of number.now))) }
        ensures grows { capacity self.old ≤ capacity self.new };

    /// Writes a name-list: the names joined by commas, as a string. The text is shorter than 2^32 bytes.
    ///
    /// # Errors
    ///
    /// Only if the bytes do not fit the capacity and memory was refused.
    fn put_names(&mut self, list: &NameList<'_>) -> Result<(), AllocError>
        requires { length (names_text list.now) < 2 ^ 32 }
        ensures written { OnOk result (Writes (IsNameList (names list.now)) (contents self.old) (contents self.new)) }
        ensures kept { OnErr result (contents self.new ≡ contents self.old) }
        ensures full { OnErr result (capacity self.old < length (contents self.old) + names_size (names list.now)) }
        ensures grows { capacity self.old ≤ capacity self.new };
}

impl Put for Vec<u8> {
    ghost contents = { λ v. v.items };

    ghost capacity = { λ v. vec_capacity v };

    fn put_u8(&mut self, byte: u8) -> Result<(), AllocError> {
        self.push(byte)?;
        Ok(())
    }

    fn put_boolean(&mut self, truth: bool) -> Result<(), AllocError> {
        self.put_u8(if truth { 1 } else { 0 })
    }

    fn put_u32(&mut self, number: u32) -> Result<(), AllocError> {
        let mut bytes = [0u8; 4];
        BigEndian::write_u32(&mut bytes, number);
        crate::laws::are_bytes(&bytes);
        self.extend_from_slice(&bytes)
    }

    fn put_u64(&mut self, number: u64) -> Result<(), AllocError> {
        let mut bytes = [0u8; 8];
        BigEndian::write_u64(&mut bytes, number);
        crate::laws::are_bytes(&bytes);
        self.extend_from_slice(&bytes)
    }

    fn put_string(&mut self, text: &[u8]) -> Result<(), AllocError> {
        put_joined(self, &[], text)
    }

    #[tactic(auto, using(crate::proofs::Mpints::writes_mpint))]
    fn put_mpint(&mut self, number: &MpInt<'_>) -> Result<(), AllocError> {
        let (front, digits) = number.halves();
        put_joined(self, front, digits)?;
        Ok(())
    }

    #[tactic(auto, using(crate::proofs::Joined::writes_names, crate::proofs::Joined::joined_size))]
    fn put_names(&mut self, list: &NameList<'_>) -> Result<(), AllocError> {
        self.put_string(list.as_bytes())
    }
}

// Writes a string of two parts.
fn put_joined(out: &mut Vec<u8>, front: &[u8], text: &[u8]) -> Result<(), AllocError>
    // What the caller must ensure.
    requires { length front.now + length text.now < 2 ^ 32 }
    // What it does.
    ensures written { OnOk result (Writes (IsString (front.now ++ text.now)) out.old.items out.new.items) }
    ensures grows { vec_capacity out.old ≤ vec_capacity out.new }
    // If it fails.
    ensures kept { OnErr result (out.new.items ≡ out.old.items) }
    ensures full { OnErr result (vec_capacity out.old < length out.old.items + (4 + (length front.now + length text.now))) }
{
    let start = out.len();
    out.put_u32((front.len() + text.len()) as u32)?;
    if let Err(error) = put_both(out, front, text) {
        out.truncate(start);
        return Err(error);
    }
    Ok(())
}

// Writes bytes after those that are there.
fn put_both(out: &mut Vec<u8>, front: &[u8], text: &[u8]) -> Result<(), AllocError>
    ensures written { OnOk result (out.new.items ≡ out.old.items ++ (front.now ++ text.now)) }
    ensures kept { OnErr result (Extends out.old.items out.new.items) }
    ensures full { OnErr result (vec_capacity out.old < length out.old.items + (length front.now + length text.now)) }
    ensures grows { vec_capacity out.old ≤ vec_capacity out.new }
{
    out.extend_from_slice(front)?;
    out.extend_from_slice(text)
}
