//! The words of a line: sides, numbers, texts and bytes.

ghost use Rattle.std.specs.Prelude.{◌≡◌, ◌⊎◌, ◌↔◌, ◌^◌, ◌<◌, [], ◌∷◌, Ok, IfOk, OnErr, IsErr, codes};
ghost use Rattle.std.specs.Result.{OkIff};
ghost use Rattle.std.specs.Str.Parse.{IsNumeral, digits_value};
ghost use Rattle.hex.specs.Hex.{decode_of, decode_sized};
ghost use Rattle.ssh_model.specs.declared.side.Side.TheVariants.{Client, Server};

use crate::word_fault::{HexFault, WordFault};
use hex::{FromHex, FromHexError};
use ssh_types::Side;
use std::alloc::{AllocError, Global};
use std::num::IntErrorKind;

/// The word for no bytes.
const NOTHING: &str = "-";

/// `c` and `s`.
pub(crate) fn side(word: &str) -> Result<Side, WordFault<'_>>
    ensures client { (result ≡ Ok Client) ↔ (word.now ≡ codes "c") }
    ensures server { (result ≡ Ok Server) ↔ (word.now ≡ codes "s") }
{
    match word {
        "c" => Ok(Side::Client),
        "s" => Ok(Side::Server),
        _ => Err(WordFault::Side(word)),
    }
}

/// The side from which bytes go, of the two different sides of a line.
pub(crate) fn sender<'a>(from: &'a str, to: &'a str) -> Result<Side, WordFault<'a>>
    ensures client { (result ≡ Ok Client) ↔ ((from.now ≡ codes "c") × (to.now ≡ codes "s")) }
    ensures server { (result ≡ Ok Server) ↔ ((from.now ≡ codes "s") × (to.now ≡ codes "c")) }
{
    let side_from = side(from)?;
    if side(to)? == side_from {
        return Err(WordFault::SameSide(from));
    }
    Ok(side_from)
}

/// One decimal digit or more, of a number below 2^32.
pub(crate) fn number(word: &str) -> Result<u32, WordFault<'_>>
    ensures { OkIff result (IsNumeral 10 word.now × (digits_value 10 word.now < 2 ^ 32)) (digits_value 10 word.now) }
{
    // `parse` would take a sign too.
    if word.starts_with('+') {
        return Err(WordFault::not_number(word));
    }
    word.parse::<u32>().map_err(|error| match error.kind() {
        IntErrorKind::PosOverflow => WordFault::NumberTooLarge(word),
        _ => WordFault::not_number(word),
    })
}

/// A name or a text, as it stands.
pub(crate) fn text(alloc: Global, word: &str) -> Result<Vec<u8>, AllocError>
    ensures { IfOk result (λ text. text.items ≡ word.now) }
{
    Vec::from_slice(alloc, word.as_bytes())
}

/// Pairs of hexadecimal digits, or `-`.
pub(crate) fn bytes(alloc: Global, word: &str) -> Result<Vec<u8>, WordFault<'_>>
    ensures nothing { word.now ≡ codes "-" → IfOk result (λ bytes. bytes.items ≡ []) }
    ensures pairs { IfOk result (λ bytes. (word.now ≡ codes "-") ⊎ (decode_of word.now ≡ Ok bytes.items)) }
{
    if word == NOTHING {
        return Ok(Vec::new(alloc));
    }
    hex::decode(alloc, word).map_err(|error| match error {
        FromHexError::OutOfMemory => WordFault::Memory(AllocError),
        _ => WordFault::Hex(HexFault::of(word)),
    })
}

/// The word of bytes that may be left out at a line's end: `-` if it is. None if more words than one stand there.
pub(crate) fn optional<'a>(words: &[&'a str]) -> Option<&'a str> {
    match words {
        [] => Some(NOTHING),
        [word] => Some(word),
        _ => None,
    }
}

/// One pair of hexadecimal digits.
pub(crate) fn byte(word: &str) -> Result<u8, WordFault<'_>>
    ensures value { IfOk result (λ byte. decode_sized word.now 1 ≡ Ok (byte ∷ [])) }
    ensures refused { OnErr result (IsErr (decode_sized word.now 1)) }
{
    let bytes = <[u8; 1] as FromHex>::from_hex(word).map_err(|_| WordFault::Byte(word))?;
    Ok(bytes[0])
}

/// The 32 bytes of a key.
pub(crate) fn key(word: &str) -> Result<[u8; 32], WordFault<'_>>
    ensures value { IfOk result (λ key. decode_sized word.now 32 ≡ Ok key) }
    ensures refused { OnErr result (IsErr (decode_sized word.now 32)) }
{
    <[u8; 32] as FromHex>::from_hex(word).map_err(|_| WordFault::not_key(word))
}
