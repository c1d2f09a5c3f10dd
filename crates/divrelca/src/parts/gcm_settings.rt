//! The settings of an end that seals by AES-128-GCM.

ghost use Rattle.std.specs.Prelude.{◌≡◌};
ghost use Rattle.divrelca.specs.Parts.GcmSettings.{gcm_given, standard_given};
ghost use Rattle.ssh_config.specs.Values.{given};

use ssh_message::Extension;
use ssh_transport::{Settings, Strictness};

/// The settings of an end that offers aes128-gcm@openssh.com and requires strict key exchange. They have no field for either: the counter
/// of AES-GCM begins anew with each NEWKEYS (RFC 5647 section 7.1), and a packet's number does so under strict key exchange alone.
#[derive(Clone, Copy, Debug)]
pub struct GcmSettings<'a> {
    /// The version of the software (RFC 4253 section 4.2), as `Settings` has it.
    pub software: &'a [u8],
    /// Comments on it, any bytes except 0, CR and LF.
    pub comments: Option<&'a [u8]>,
    /// The algorithms of host keys, the preferred one first.
    pub host: &'a [&'a [u8]],
    /// After so many packets sent under the keys of one exchange the next exchange is due: 64 to 2^31.
    pub epoch_limit: u32,
    /// How many requests for authentication a server lets fail: 1 to 20.
    pub tries: u32,
    /// The methods of authentication that a server names (RFC 4252).
    pub methods: &'a [&'a [u8]],
    /// Whether the end takes extensions of its peer (RFC 8308 section 2.1).
    pub takes_extensions: bool,
    /// The extensions that it announces to a peer that takes some, as `Settings` has them.
    pub extensions: &'a [Extension<'a>],
}

impl<'a> GcmSettings<'a> {
    /// The settings of an end whose version line has this software. They have host keys of ssh-ed25519, an exchange of keys after 2^20
    /// packets, and no extensions. Six requests for authentication may fail, by a key or a password. Fewer than 2^32 blocks of 16 bytes
    /// then go under one key, as RFC 4344 section 3.2 asks.
    pub fn new(software: &'a [u8]) -> GcmSettings<'a>
        ensures { gcm_given result ≡ standard_given software.now }
    {
        GcmSettings {
            software,
            comments: None,
            host: &[b"ssh-ed25519"],
            epoch_limit: 1 << 20,
            tries: 6,
            methods: &[b"publickey", b"password"],
            takes_extensions: false,
            extensions: &[],
        }
    }

    /// The settings for `Config::new`: these values, the key exchange curve25519-sha256, the encryption aes128-gcm@openssh.com, and strict
    /// key exchange, required. The MAC is hmac-sha2-256, which both ends name and AES-GCM does not use.
    pub fn settings(&self) -> Settings<'a>
        ensures { given result ≡ gcm_given self.now }
    {
        Settings {
            software: self.software,
            comments: self.comments,
            kex: &[b"curve25519-sha256"],
            host: self.host,
            encryption: &[b"aes128-gcm@openssh.com"],
            mac: &[b"hmac-sha2-256"],
            epoch_limit: self.epoch_limit,
            tries: self.tries,
            methods: self.methods,
            strictness: Strictness::Require,
            takes_extensions: self.takes_extensions,
            extensions: self.extensions,
        }
    }
}
