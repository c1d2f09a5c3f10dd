ghost use Rattle.std.specs.Prelude.{IsTrue};
ghost use Rattle.ssh_model.specs.Protocol.Wire.DataTypes.{is_name as passes_name};

use crate::name_bytes::is_name;

/// A name: 1 to 64 printable US-ASCII characters without a comma, of which at most one is an at-sign
/// (RFC 4251 section 6). Names are equal if their bytes are.
#[derive(Clone, Copy, Debug, PartialEq, Eq)]
pub struct Name<'a> {
    bytes: &'a [u8],
    ghost checked: { IsTrue (passes_name bytes.now) },
}

impl<'a> Name<'a> {
    ghost use Rattle.std.specs.Prelude.{◌≡◌, IfSome, IfNone, false, is_some};
    ghost use Rattle.ssh_types.specs.Values.{name_text};

    /// The name that the bytes are, or `None` if they are no name.
    pub fn new(bytes: &'a [u8]) -> Option<Name<'a>>
        ensures found { IfSome result (λ name. name_text name ≡ bytes.now) }
        ensures name { IfSome result (λ _. IsTrue (passes_name bytes.now)) }
        ensures none { IfNone result (passes_name bytes.now ≡ false) }
        ensures there { is_some result ≡ passes_name bytes.now }
    {
        if !is_name(bytes) {
            return None;
        }
        Some(Name { bytes })
    }

    // The name that checked bytes are.
    pub(crate) fn of_checked(bytes: &'a [u8]) -> Name<'a>
        requires { IsTrue (passes_name bytes.now) }
        ensures { name_text result ≡ bytes.now }
    {
        Name { bytes }
    }

    /// The bytes of the name.
    pub fn as_bytes(&self) -> &'a [u8]
        ensures bytes { result.now ≡ name_text self.now }
        ensures name { IsTrue (passes_name result.now) }
    {
        self.bytes
    }
}
