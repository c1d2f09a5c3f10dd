ghost use Rattle.std.specs.Prelude.{IsTrue};
ghost use Rattle.ssh_message.specs.Extensions.{are_extensions as passes_extensions};

use super::encoding::encoded;
use super::{Extension, Extensions};
use std::alloc::{AllocError, Global};

/// Extensions that own their bytes: those that an end announces for as long as it lives.
#[derive(Drop)]
pub struct ExtensionsBuf {
    count: u32,
    // Names and values, as an EXT_INFO has them after their count.
    bytes: Vec<u8>,
    ghost checked: { IsTrue (passes_extensions count bytes.items) },
}

impl ExtensionsBuf {
    ghost use Rattle.std.specs.Prelude.{◌≡◌, ◌<◌, ◌^◌, IfOk, length, map};
    ghost use Rattle.std.specs.List.{list_all};
    ghost use Rattle.ssh_message.specs.Announced.{extension_of, extensions_of, is_short, owned_extensions};

    /// Copies of these, in their order. They are fewer than 2^32, and each name and value is shorter than 2^32 bytes.
    ///
    /// # Errors
    ///
    /// Only if memory was refused.
    pub fn new(alloc: Global, extensions: &[Extension<'_>]) -> Result<ExtensionsBuf, AllocError>
        requires few { length extensions.now < 2 ^ 32 }
        requires short { IsTrue (list_all is_short (map extension_of extensions.now)) }
        ensures { IfOk result (λ owned. owned_extensions owned ≡ map extension_of extensions.now) }
    {
        let count = extensions.len() as u32;
        let bytes = encoded(alloc, extensions)?;
        Ok(ExtensionsBuf { count, bytes })
    }

    /// The extensions, as they are borrowed.
    pub fn as_extensions(&self) -> Extensions<'_>
        ensures { extensions_of result ≡ owned_extensions self.now }
    {
        Extensions {
            count: self.count,
            bytes: &self.bytes,
        }
    }
}
