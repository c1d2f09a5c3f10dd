use ssh_message::Extension;
use ssh_model::Strictness;

/// The settings from which a config is made. Nothing is checked here: `Config::new` does that.
#[derive(Clone, Copy, Debug)]
pub struct Settings<'a> {
    /// The version of the software (RFC 4253 section 4.2): at least one printable US-ASCII character, none of them a
    /// space or a minus.
    pub software: &'a [u8],
    /// Comments on the software, any bytes but 0, CR and LF.
    pub comments: Option<&'a [u8]>,
    /// The names of the key exchange method, in the order of preference (RFC 8731).
    pub kex: &'a [&'a [u8]],
    /// The algorithms of host keys (RFC 4253 section 7.1), in the order of preference.
    pub host: &'a [&'a [u8]],
    /// The encryptions of both directions (RFC 4253 section 7.1), in the order of preference.
    pub encryption: &'a [&'a [u8]],
    /// The MACs of both directions (RFC 4253 section 7.1), in the order of preference.
    pub mac: &'a [&'a [u8]],
    /// How many packets sent under the keys of one exchange make the next exchange due (RFC 4253
    /// section 9): 64 to 2^31.
    pub epoch_limit: u32,
    /// How many requests for authentication a server lets fail (RFC 4252 section 4): 1 to 20.
    pub tries: u32,
    /// The methods of authentication that a server names (RFC 4252 section 5.1).
    pub methods: &'a [&'a [u8]],
    /// Whether the end offers or requires strict key exchange.
    pub strictness: Strictness,
    /// Whether the end takes extensions of its peer, as its first KEXINIT then says (RFC 8308 section 2.1).
    pub takes_extensions: bool,
    /// The extensions that it announces to a peer that takes some (RFC 8308 section 2.3), at most 16 with values of at most
    /// 1,024 bytes. There have to be none if it takes none itself.
    pub extensions: &'a [Extension<'a>],
}
