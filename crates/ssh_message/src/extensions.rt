ghost use Rattle.std.specs.Prelude.{IsTrue};
ghost use Rattle.ssh_message.specs.Extensions.{are_extensions as passes_extensions};

mod encoding;
mod owned;
mod reading;

pub use owned::ExtensionsBuf;
use reading::{are_extensions, split_extension};

/// An extension that an end announces (RFC 8308 section 2.5).
#[derive(Clone, Copy, Debug, PartialEq, Eq)]
pub struct Extension<'a> {
    /// The name of the extension, which a reader does not check.
    pub name: &'a [u8],
    /// Its value, whose meaning depends on the name.
    pub value: &'a [u8],
}

/// Checked names and values of extensions, as they stand in an EXT_INFO (RFC 8308 section 2.3): a slice that is iterated
/// without memory.
#[derive(Clone, Copy, Debug, PartialEq, Eq)]
pub struct Extensions<'a> {
    count: u32,
    bytes: &'a [u8],
    ghost checked: { IsTrue (passes_extensions count bytes.now) },
}

/// Goes over the extensions of an EXT_INFO in order, without memory.
#[derive(Clone, Copy, Debug)]
pub struct ExtensionsIter<'a> {
    rest: Extensions<'a>,
}

impl<'a> Extensions<'a> {
    ghost use Rattle.std.specs.Prelude.{◌≡◌, IfSome, IfNone, List, length};
    ghost use Rattle.ssh_model.specs.Protocol.Wire.Message.{Extension as announced, IsExtensions};
    ghost use Rattle.ssh_message.specs.Announced.{extensions_of, extensions_left};

    /// The extensions that the bytes are: so many names, each with its value, every one a string. `None` if they are
    /// not so many, or bytes are left over.
    #[tactic(auto, using(crate::proofs::Announcing::encoded, crate::proofs::Announcing::counted, crate::proofs::Announcing::none_encoded))]
    pub fn new(count: u32, bytes: &'a [u8]) -> Option<Extensions<'a>>
        ensures found { IfSome result (λ all. IsExtensions (extensions_of all) bytes.now) }
        ensures counted { IfSome result (λ all. length (extensions_of all) ≡ count) }
        ensures none { IfNone result ((all : List announced) → length all ≡ count → IsExtensions all bytes.now → ⊥) }
    {
        ssh_types::laws::are_bytes(bytes);
        if !are_extensions(count, bytes) {
            return None;
        }
        Some(Extensions { count, bytes })
    }

    /// How many there are.
    #[tactic(auto, using(crate::proofs::Announcing::counted))]
    pub fn count(&self) -> u32
        ensures { result ≡ length (extensions_of self.now) }
    {
        self.count
    }

    /// Names and values as they stand in the message, after their count.
    #[tactic(auto, using(crate::proofs::Announcing::encoded))]
    pub fn as_bytes(&self) -> &'a [u8]
        ensures { IsExtensions (extensions_of self.now) result.now }
    {
        ssh_types::laws::are_bytes(self.bytes);
        self.bytes
    }

    /// The extensions, in order.
    pub fn iter(&self) -> ExtensionsIter<'a>
        ensures { extensions_left result ≡ extensions_of self.now }
    {
        ExtensionsIter { rest: *self }
    }
}

impl<'a> Iterator for ExtensionsIter<'a> {
    ghost use Rattle.std.specs.Iterator.{YieldsFirstBy, item_count};
    ghost use Rattle.ssh_message.specs.Announced.{extension_of, extensions_left};

    type Item = Extension<'a>;

    ghost next_gives = { YieldsFirstBy extension_of extensions_left };

    ghost remaining = { item_count extensions_left };

    fn next(&mut self) -> Option<Extension<'a>> {
        if self.rest.count == 0 {
            return None;
        }
        let (extension, bytes) = split_extension(self.rest.bytes)?;
        self.rest = Extensions {
            count: self.rest.count - 1,
            bytes,
        };
        Some(extension)
    }
}
