//! Facts for proofs, each the contract of a function without a body. A call of one costs nothing.

ghost use Rattle.std.specs.Prelude.{◌≡◌, ◌↔◌, Bool, List, length, ℕ, ℤ};
ghost use Rattle.ssh_model.specs.Protocol.Wire.DataTypes.{AreBytes, IsByte, IsBoolean, IsWrittenBoolean, IsUint32, IsString, IsNameList};
ghost use Rattle.ssh_model.specs.Laws.DataTypes.{IsUint64, IsShortest, IsMpint};
ghost use Rattle.ssh_model.specs.Laws.Reading.{OneForm, OneEncoding};

/// No encoding of a value begins with an encoding of another, so a written value is read again,
/// whatever follows it.
pub fn one_form()
    ensures byte { OneForm IsByte }
    ensures boolean { OneForm IsBoolean }
    ensures uint32 { OneForm IsUint32 }
    ensures uint64 { OneForm IsUint64 }
    ensures string { OneForm IsString }
    ensures mpint { OneForm IsMpint }
    ensures names { OneForm IsNameList }
{}

/// A value is written in one way. A truth value is read from more bytes than are ever written for it.
pub fn one_encoding()
    ensures byte { OneEncoding IsByte }
    ensures boolean { OneEncoding IsWrittenBoolean }
    ensures uint32 { OneEncoding IsUint32 }
    ensures uint64 { OneEncoding IsUint64 }
    ensures string { OneEncoding IsString }
    ensures mpint { OneEncoding IsMpint }
    ensures names { OneEncoding IsNameList }
{}

/// The byte that a writer stores for a truth value is one of its encodings.
pub fn written_boolean()
    ensures { (truth : Bool) (bytes : List ℕ) → IsWrittenBoolean truth bytes → IsBoolean truth bytes }
{}

/// Two whole numbers are equal exactly if their shortest bytes are.
#[tactic(auto, using(crate::specs::WholeNumbers::one_shortest, crate::specs::WholeNumbers::one_integer))]
pub fn one_number()
    ensures { (y z : ℤ) (a b : List ℕ) → IsShortest y a → IsShortest z b → (y ≡ z) ↔ (a ≡ b) }
{}

/// Each byte of a slice is below 256.
#[tactic(auto, using(crate::specs::WholeNumbers::bytes_by_index))]
pub fn are_bytes(bytes: &[u8])
    ensures { AreBytes bytes.now }
{}

/// An array of 32 bytes has the length that its type says.
pub fn has_32_bytes(bytes: &[u8; 32])
    ensures { length bytes.now ≡ 32 }
{}
