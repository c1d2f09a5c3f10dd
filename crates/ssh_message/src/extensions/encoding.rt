ghost use Rattle.std.specs.Prelude.{◌<◌, IfOk, IsTrue, map};
ghost use Rattle.std.specs.List.{list_all};
ghost use Rattle.ssh_model.specs.Protocol.Wire.Message.{IsExtensions};
ghost use Rattle.ssh_message.specs.Announced.{extension_of, is_short};

use super::Extension;
use ssh_types::Put;
use std::alloc::{AllocError, Global};

// Names and values, one after the other.
pub(super) fn encoded(alloc: Global, extensions: &[Extension<'_>]) -> Result<Vec<u8>, AllocError>
    requires { IsTrue (list_all is_short (map extension_of extensions.now)) }
    ensures { IfOk result (λ bytes. IsExtensions (map extension_of extensions.now) bytes.items) }
{
    let mut bytes = Vec::new(alloc);
    for extension in extensions {
        bytes.put_string(extension.name)?;
        bytes.put_string(extension.value)?;
    }
    Ok(bytes)
}
