ghost use Rattle.std.specs.Prelude.{IsTrue, ◌≤◌, take};
ghost use Rattle.ssh_model.specs.Protocol.Bounds.{longest_name};
ghost use Rattle.ssh_model.specs.Protocol.Wire.DataTypes.{is_name as passes_name};

use crate::bounds::LONGEST_NAME;
use crate::name::Name;

/// A name that owns its bytes, without an allocation, so that a name chosen from a message outlives the message.
#[derive(Clone, Copy, Debug)]
pub struct NameBuf {
    // The bytes of the name, and after them zeros.
    bytes: [u8; LONGEST_NAME],
    len: usize,
    ghost fits: { len ≤ longest_name },
    ghost checked: { IsTrue (passes_name (take len bytes)) },
}

impl NameBuf {
    ghost use Rattle.std.specs.Prelude.{◌≡◌};
    ghost use Rattle.ssh_types.specs.Values.{name_text, owned_text};

    /// The name, as it is borrowed.
    pub fn as_name(&self) -> Name<'_>
        ensures { name_text result ≡ owned_text self.now }
    {
        Name::of_checked(&self.bytes[..self.len])
    }

    /// The bytes of the name, 1 to 64.
    pub fn as_bytes(&self) -> &[u8]
        ensures bytes { result.now ≡ owned_text self.now }
        ensures name { IsTrue (passes_name result.now) }
    {
        &self.bytes[..self.len]
    }
}

impl From<Name<'_>> for NameBuf {
    ghost use Rattle.std.specs.Prelude.{◌≡◌};
    ghost use Rattle.ssh_types.specs.Values.{name_text, owned_text};

    ghost from_gives = { λ name owned. owned_text owned ≡ name_text name };

    /// A copy of the name.
    fn from(name: Name<'_>) -> NameBuf {
        let text = name.as_bytes();
        let mut bytes = [0; LONGEST_NAME];
        bytes[..text.len()].copy_from_slice(text);
        NameBuf {
            bytes,
            len: text.len(),
        }
    }
}
