//! Points of 32 bytes.

ghost use Rattle.std.specs.Prelude.{◌≡◌, length};

/// A copy of 32 bytes.
pub fn copied(bytes: &[u8]) -> [u8; 32]
    requires { length bytes.now ≡ 32 }
    ensures { result ≡ bytes.now }
{
    let mut copy = [0; 32];
    copy.copy_from_slice(bytes);
    copy
}
