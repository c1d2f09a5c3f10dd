//! Which encryptions are offered.

ghost use Rattle.std.specs.Prelude.{◌≡◌, ◌<◌, length, map};
ghost use Rattle.divrelca.specs.Ciphers.{choice_of, names_of};

/// A choice of encryptions. `none` is offered after these if a policy says so.
#[derive(Clone, Copy, Debug, PartialEq, Eq)]
pub enum Ciphers {
    /// aes128-gcm@openssh.com.
    Aes128,
    /// aes256-gcm@openssh.com.
    Aes256,
    /// Both, aes256-gcm@openssh.com first, as OpenSSH has them.
    Both,
}

const AES_128: &[u8] = b"aes128-gcm@openssh.com";

const AES_256: &[u8] = b"aes256-gcm@openssh.com";

const NONE: &[u8] = b"none";

impl Ciphers {
    /// The choice that a list of names with commas asks for; `None` if it is not one of the three lists.
    pub fn named(names: &str) -> Option<Ciphers>
        ensures { result ≡ choice_of names.now }
    {
        match names {
            "aes128-gcm@openssh.com" => Some(Ciphers::Aes128),
            "aes256-gcm@openssh.com" => Some(Ciphers::Aes256),
            "aes256-gcm@openssh.com,aes128-gcm@openssh.com" => Some(Ciphers::Both),
            _ => None,
        }
    }

    /// The names that go into a KEXINIT (RFC 4253 section 7.1), with `none` last if it is offered.
    pub fn names(self, offers_none: bool) -> &'static [&'static [u8]]
        ensures names { map (λ name. name.now) result.now ≡ names_of self offers_none }
        ensures some { 0 < length result.now }
    {
        match (self, offers_none) {
            (Ciphers::Aes128, false) => &[AES_128],
            (Ciphers::Aes128, true) => &[AES_128, NONE],
            (Ciphers::Aes256, false) => &[AES_256],
            (Ciphers::Aes256, true) => &[AES_256, NONE],
            (Ciphers::Both, false) => &[AES_256, AES_128],
            (Ciphers::Both, true) => &[AES_256, AES_128, NONE],
        }
    }
}
