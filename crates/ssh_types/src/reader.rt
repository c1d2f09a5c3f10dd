ghost use Rattle.ssh_types.specs.declared.read_refusal.ReadRefusal.TheVariants.{Short, BadNames, NotCanonical, LeftOver};
ghost use Rattle.std.specs.Prelude.{◌≡◌, ◌<◌, ◌^◌, ◌++◌, List, [], ℕ, length, IfOk, IfErr, OnOk, OnErr};
ghost use Rattle.ssh_model.specs.Protocol.Wire.DataTypes.{IsByte, IsBoolean, IsUint32, IsString, IsNameList};
ghost use Rattle.ssh_model.specs.Laws.DataTypes.{IsUint64, IsMpint};
ghost use Rattle.ssh_model.specs.Laws.Reading.{Reads, NoFront};

use crate::mpint::MpInt;
use crate::name_list::NameList;
use crate::read_refusal::ReadRefusal;
use byteorder::{BigEndian, ByteOrder};
use std::marker::Model;

/// Reads values from the front of bytes, as RFC 4251 section 5 encodes them. A contract sees a reader as the bytes that
/// are left.
///
/// After a refusal the reader is as before the call.
#[derive(Drop)]
pub struct Reader<'a> {
    rest: &'a [u8],
}

impl<'a> Model for Reader<'a> {
    ghost Value = { List ℕ };

    ghost view = { λ r. r.rest.now };
}

impl<'a> Reader<'a> {
    ghost use Rattle.ssh_types.specs.Values.{IsMpintRefusal, IsNamesRefusal, ReadsReserved, value_of, bytes_of, names, names_text};

    /// A reader of all of the bytes.
    pub fn new(bytes: &'a [u8]) -> Reader<'a>
        ensures { result ≡ bytes.now }
    {
        Reader { rest: bytes }
    }

    // A second reader of the same bytes.
    fn fork(&self) -> Reader<'a>
        ensures { result ≡ self.now }
    {
        Reader { rest: self.rest }
    }

    // The first bytes, as many as are asked for.
    fn take(&mut self, count: usize) -> Result<&'a [u8], ReadRefusal>
        ensures found { IfOk result (λ bytes. (length bytes.now ≡ count) × (self.old ≡ bytes.now ++ self.new)) }
        ensures refused { IfErr result (λ e. (e ≡ Short) × (self.new ≡ self.old) × (length self.old < count)) }
    {
        if self.rest.len() < count {
            return Err(ReadRefusal::Short);
        }
        let (bytes, rest) = self.rest.split_at(count);
        self.rest = rest;
        Ok(bytes)
    }

    /// Reads a byte.
    ///
    /// # Errors
    ///
    /// `Short` if no byte is left.
    pub fn u8(&mut self) -> Result<u8, ReadRefusal>
        ensures found { IfOk result (λ n. Reads (IsByte n) self.old self.new) }
        ensures refused { IfErr result (λ e. (e ≡ Short) × (self.new ≡ self.old) × NoFront IsByte self.old) }
    {
        let bytes = self.take(1)?;
        Ok(bytes[0])
    }

    /// Reads a truth value of one byte: 0 is false, and every other byte is true.
    ///
    /// # Errors
    ///
    /// `Short` if no byte is left.
    pub fn boolean(&mut self) -> Result<bool, ReadRefusal>
        ensures found { IfOk result (λ truth. Reads (IsBoolean truth) self.old self.new) }
        ensures refused { IfErr result (λ e. (e ≡ Short) × (self.new ≡ self.old) × NoFront IsBoolean self.old) }
    {
        let bytes = self.take(1)?;
        Ok(bytes[0] != 0)
    }

    /// Reads a uint32: four bytes, the most significant first.
    ///
    /// # Errors
    ///
    /// `Short` if fewer than four bytes are left.
    pub fn u32(&mut self) -> Result<u32, ReadRefusal>
        ensures found { IfOk result (λ n. Reads (IsUint32 n) self.old self.new) }
        ensures refused { IfErr result (λ e. (e ≡ Short) × (self.new ≡ self.old) × NoFront IsUint32 self.old) }
    {
        let bytes = self.take(4)?;
        crate::laws::are_bytes(bytes);
        Ok(BigEndian::read_u32(bytes))
    }

    /// Reads a uint32 that is reserved for later versions of a standard (RFC 4253 section 7.1), and answers whether it is 0.
    ///
    /// # Errors
    ///
    /// `Short` if fewer than four bytes are left.
    pub fn reserved(&mut self) -> Result<bool, ReadRefusal>
        ensures found { IfOk result (λ is_zero. ReadsReserved is_zero self.old self.new) }
        ensures refused { IfErr result (λ e. (e ≡ Short) × (self.new ≡ self.old) × NoFront IsUint32 self.old) }
    {
        Ok(self.u32()? == 0)
    }

    /// Reads a uint64: eight bytes, the most significant first.
    ///
    /// # Errors
    ///
    /// `Short` if fewer than eight bytes are left.
    pub fn u64(&mut self) -> Result<u64, ReadRefusal>
        ensures found { IfOk result (λ n. Reads (IsUint64 n) self.old self.new) }
        ensures refused { IfErr result (λ e. (e ≡ Short) × (self.new ≡ self.old) × NoFront IsUint64 self.old) }
    {
        let bytes = self.take(8)?;
        crate::laws::are_bytes(bytes);
        Ok(BigEndian::read_u64(bytes))
    }

    /// Reads a string: a uint32 length and that many bytes, which may be any.
    ///
    /// # Errors
    ///
    /// `Short` if the length or the bytes after it aren't all there.
    #[tactic(auto, using(crate::proofs::Fronts::no_string_short, crate::proofs::Fronts::no_string_long, crate::proofs::Fronts::reads_string))]
    pub fn string(&mut self) -> Result<&'a [u8], ReadRefusal>
        ensures found { IfOk result (λ text. Reads (IsString text.now) self.old self.new) }
        ensures length { IfOk result (λ text. length text.now < 2 ^ 32) }
        ensures refused { IfErr result (λ e. (e ≡ Short) × (self.new ≡ self.old) × NoFront IsString self.old) }
    {
        let mut ahead = self.fork();
        let length = ahead.u32()?;
        let text = ahead.take(length as usize)?;
        *self = ahead;
        Ok(text)
    }

    /// Reads an mpint: a whole number of any size in two's complement, as a string.
    ///
    /// # Errors
    ///
    /// `Short` if no whole string is there, and `NotCanonical` if one is there whose bytes are not the shortest of
    /// their number: an unnecessary 0 or 255 stands in front.
    #[tactic(auto, using(crate::proofs::Mpints::no_mpint_short, crate::proofs::Mpints::no_mpint_form, crate::proofs::Mpints::reads_mpint, crate::proofs::Mpints::is_uncanonical))]
    pub fn mpint(&mut self) -> Result<MpInt<'a>, ReadRefusal>
        ensures found { IfOk result (λ m. Reads (IsMpint (value_of m)) self.old self.new) }
        ensures length { IfOk result (λ m. length (bytes_of m) < 2 ^ 32) }
        ensures refused { IfErr result (λ e. IsMpintRefusal e self.old × NoFront IsMpint self.old) }
        ensures kept { OnErr result (self.new ≡ self.old) }
    {
        let mut ahead = self.fork();
        let bytes = ahead.string()?;
        let Some(number) = MpInt::from_shortest(bytes) else {
            return Err(ReadRefusal::NotCanonical);
        };
        *self = ahead;
        Ok(number)
    }

    /// Reads a name-list: names joined by commas, as a string. The empty string is the empty list.
    ///
    /// # Errors
    ///
    /// `Short` if no whole string is there, and `BadNames` if one is there and a part of it between commas is no
    /// name.
    #[tactic(auto, using(crate::proofs::Joined::no_names_short, crate::proofs::Joined::no_names_form, crate::proofs::Joined::reads_names, crate::proofs::Joined::is_bad_names))]
    pub fn names(&mut self) -> Result<NameList<'a>, ReadRefusal>
        ensures found { IfOk result (λ list. Reads (IsNameList (names list)) self.old self.new) }
        ensures length { IfOk result (λ list. length (names_text list) < 2 ^ 32) }
        ensures refused { IfErr result (λ e. IsNamesRefusal e self.old × NoFront IsNameList self.old) }
        ensures kept { OnErr result (self.new ≡ self.old) }
    {
        let mut ahead = self.fork();
        let text = ahead.string()?;
        let Some(list) = NameList::new(text) else {
            return Err(ReadRefusal::BadNames);
        };
        *self = ahead;
        Ok(list)
    }

    /// Reads all bytes that are left.
    pub fn rest(&mut self) -> &'a [u8]
        ensures found { result.now ≡ self.old }
        ensures empty { self.new ≡ [] }
    {
        let bytes = self.rest;
        self.rest = &[];
        bytes
    }

    /// Tests that nothing is left. The reader is unchanged either way.
    ///
    /// # Errors
    ///
    /// `LeftOver` if bytes are left.
    pub fn end(&mut self) -> Result<(), ReadRefusal>
        ensures found { OnOk result (self.old ≡ []) }
        ensures refused { IfErr result (λ e. (e ≡ LeftOver) × (0 < length self.old)) }
        ensures kept { self.new ≡ self.old }
    {
        if self.rest.is_empty() {
            Ok(())
        } else {
            Err(ReadRefusal::LeftOver)
        }
    }
}
