//! Copies of texts.

ghost use Rattle.std.specs.Prelude.{◌≡◌, IfOk};

use std::alloc::{AllocError, Global};

/// A copy of a text.
///
/// # Errors
///
/// Only if memory is refused.
pub(crate) fn text(alloc: Global, bytes: &[u8]) -> Result<Vec<u8>, AllocError>
    ensures { IfOk result (λ owned. owned.items ≡ bytes.now) }
{
    let mut owned = Vec::new(alloc);
    owned.extend_from_slice(bytes)?;
    Ok(owned)
}
