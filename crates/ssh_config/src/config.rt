//! The settings of one end, checked once.

ghost use Rattle.std.specs.Prelude.{◌≡◌, ◌≤◌, ◌+◌, IsTrue, length};
ghost use Rattle.ssh_config.specs.Config.{version_text};
ghost use Rattle.ssh_message.specs.Announced.{owned_extensions};
ghost use Rattle.ssh_config.specs.Checks.{are_good, comments_in, kept, software_in};
ghost use Rattle.ssh_types.specs.Values.{owned_names};
ghost use Rattle.ssh_model.specs.Laws.Bounds.{least_epoch_limit, most_epoch_limit};

use crate::checks::check;
use crate::error::ConfigRefusal;
use crate::settings::Settings;
use crate::texts::{names_of, short_list, version_line};
use ssh_message::{Extensions, ExtensionsBuf};
use ssh_model::Strictness;
use ssh_packet::Sealing;
use ssh_types::{CallError, NameList, NameListBuf};
use std::alloc::{AllocError, Global};
use std::marker::PhantomData;

// The bytes of a version line before the software.
const FRONT: usize = 8;

/// The settings of one end, checked once: the parts of its version line, the algorithms that it offers, and its limits.
///
/// `S` is the sealing of the end. It decides which encryptions go with which MACs. Every config holds only such pairs,
/// lists of 1 to 16 names, and limits within their bounds (`every_config_is_good`). Each list is kept in the form of a
/// KEXINIT (RFC 4253 section 7.1).
pub struct Config<S: Sealing> {
    line: Vec<u8>,
    software_len: usize,
    kex: NameListBuf,
    host: NameListBuf,
    encryption: NameListBuf,
    mac: NameListBuf,
    epoch_limit: u32,
    tries: u32,
    methods: NameListBuf,
    strictness: Strictness,
    takes_extensions: bool,
    extensions: ExtensionsBuf,
    sealing: PhantomData<S>,
    ghost line_is: { line.items ≡ version_text (software_in software_len line.items) (comments_in software_len line.items) },
    ghost software_fits: { 8 + software_len ≤ length line.items },
    ghost good: { IsTrue (are_good S.crypto (kept line.items software_len (owned_names kex) (owned_names host) (owned_names encryption)
        (owned_names mac) epoch_limit tries (owned_names methods) strictness takes_extensions
        (owned_extensions extensions))) },
}

// Written out, since a derive would ask it of the sealing too.
impl<S: Sealing> Drop for Config<S> {
    fn drop(self) {
        let Config {
            line: _,
            software_len: _,
            kex: _,
            host: _,
            encryption: _,
            mac: _,
            epoch_limit: _,
            tries: _,
            methods: _,
            strictness: _,
            takes_extensions: _,
            extensions: _,
            sealing: _,
        } = self;
    }
}

impl<S: Sealing> Config<S> {
    ghost use Rattle.std.specs.Prelude.{◌++◌, IfOk, IfErr};
    ghost use Rattle.std.specs.Option.{option_copied};
    ghost use Rattle.ssh_model.specs.Protocol.Wire.Line.{line_end};
    ghost use Rattle.ssh_types.specs.Values.{names, names_text as text_of};
    ghost use Rattle.ssh_config.specs.Config.{AreGood, IsList, IsLineOf};
    ghost use Rattle.ssh_config.specs.Errors.{IsError};
    ghost use Rattle.ssh_message.specs.Announced.{extensions_of};
    ghost use Rattle.ssh_config.specs.Values.{given};
    ghost use Rattle.ssh_config.specs.Meaning.{given_of, settings_of};

    /// The config of these settings. Names may stand in a list twice.
    ///
    /// # Errors
    ///
    /// `Refused` holds the lowest refusal whose condition the settings meet:
    ///
    /// 1. `BadSoftware`: no version line has this software and these comments (RFC 4253 section 4.2). The software is empty
    ///    or has a byte outside 33 to 126 or a minus. Or the comments have a byte 0, 10 or 13. Or the line is longer than
    ///    255 bytes with CR LF.
    /// 2. `BadList`: a list is empty, has over 16 texts or a text that is no name (RFC 4251 section 6). Or `kex` has a
    ///    name other than `curve25519-sha256` and `curve25519-sha256@libssh.org` (RFC 8731). Or `methods` has a name
    ///    other than `publickey` and `password`. Or the sealing does not know a pair of an encryption and a MAC of the
    ///    lists. It says which list and why, by the first fault in this order: the texts of `kex`, `host`, `encryption`,
    ///    `mac` and `methods`, the names of `kex` and of `methods`, the pairs.
    /// 3. `BadLimit`: `epoch_limit` is outside 64 to 2^31, or otherwise `tries` is outside 1 to 20.
    /// 4. `BadExtension`: `extensions` has any although `takes_extensions` does not hold, or has over 16. Or one has a text that
    ///    is no name (RFC 4251 section 6) or a value of over 1,024 bytes, or two have one name. It says which, in this order.
    ///
    /// `Memory` comes only if memory was refused. Memory is asked for after all these tests.
    pub fn new(
        alloc: Global,
        settings: &Settings<'_>,
    ) -> Result<Config<S>, CallError<ConfigRefusal>>
        ensures made { IfOk result (λ config. given_of config ≡ given settings.now) }
        ensures good { IfOk result (λ _. AreGood S.crypto (given settings.now)) }
        ensures refused { IfErr result (λ error. IsError S.crypto (given settings.now) error) }
    {
        check::<S>(settings)?;
        let config = Config::made(alloc, settings)?;
        Ok(config)
    }

    // A config of good settings.
    fn made(alloc: Global, settings: &Settings<'_>) -> Result<Config<S>, AllocError>
        requires { AreGood S.crypto (given settings.now) }
        ensures { IfOk result (λ config. given_of config ≡ given settings.now) }
    {
        let line = version_line(alloc, settings.software, settings.comments)?;
        let kex = names_of(alloc, settings.kex)?;
        let host = names_of(alloc, settings.host)?;
        let encryption = names_of(alloc, settings.encryption)?;
        let mac = names_of(alloc, settings.mac)?;
        let methods = names_of(alloc, settings.methods)?;
        let extensions = ExtensionsBuf::new(alloc, settings.extensions)?;
        Ok(Config {
            line,
            software_len: settings.software.len(),
            kex,
            host,
            encryption,
            mac,
            epoch_limit: settings.epoch_limit,
            tries: settings.tries,
            methods,
            strictness: settings.strictness,
            takes_extensions: settings.takes_extensions,
            extensions,
            sealing: PhantomData,
        })
    }

    /// The version line without CR LF (RFC 4253 section 4.2), at most 253 bytes: `SSH-2.0-`, the software and, if there
    /// are comments, a space and the comments.
    pub fn line(&self) -> &[u8]
        ensures line { result.now ≡ (settings_of self.now).line }
        ensures version { IsLineOf (given_of self.now) (result.now ++ line_end) }
        ensures short { length result.now ≤ 253 }
    {
        crate::laws::every_config_is_good(self);
        self.line.as_slice()
    }

    /// The version of the software, as it stands in the version line (RFC 4253 section 4.2).
    pub fn software(&self) -> &[u8]
        ensures { result.now ≡ (given_of self.now).software }
    {
        &self.line[FRONT..FRONT + self.software_len]
    }

    /// The comments on the software, or `None` if the version line has none (RFC 4253 section
    /// 4.2).
    pub fn comments(&self) -> Option<&[u8]>
        ensures { option_copied result ≡ (given_of self.now).comments }
    {
        if self.line.len() > FRONT + self.software_len {
            Some(&self.line[FRONT + self.software_len + 1..])
        } else {
            None
        }
    }

    /// The names of the key exchange method, in the order of preference. They are names of one method (RFC 8731),
    /// and no marker stands among them.
    pub fn kex(&self) -> NameList<'_>
        ensures names { names result ≡ (given_of self.now).kex }
        ensures listed { IsList (names result) }
        ensures short { length (text_of result) ≤ 1040 }
    {
        crate::laws::every_config_is_good(self);
        short_list(&self.kex)
    }

    /// The algorithms of host keys (RFC 4253 section 7.1), in the order of preference.
    pub fn host(&self) -> NameList<'_>
        ensures names { names result ≡ (given_of self.now).host }
        ensures listed { IsList (names result) }
        ensures short { length (text_of result) ≤ 1040 }
    {
        crate::laws::every_config_is_good(self);
        short_list(&self.host)
    }

    /// The encryptions of both directions (RFC 4253 section 7.1), in the order of preference.
    pub fn encryption(&self) -> NameList<'_>
        ensures names { names result ≡ (given_of self.now).encryption }
        ensures listed { IsList (names result) }
        ensures short { length (text_of result) ≤ 1040 }
    {
        crate::laws::every_config_is_good(self);
        short_list(&self.encryption)
    }

    /// The MACs of both directions (RFC 4253 section 7.1), in the order of preference.
    pub fn mac(&self) -> NameList<'_>
        ensures names { names result ≡ (given_of self.now).mac }
        ensures listed { IsList (names result) }
        ensures short { length (text_of result) ≤ 1040 }
    {
        crate::laws::every_config_is_good(self);
        short_list(&self.mac)
    }

    /// How many packets sent under the keys of one exchange make the next exchange due (RFC 4253
    /// section 9): 64 to 2^31.
    pub fn epoch_limit(&self) -> u32
        ensures value { result ≡ (given_of self.now).epoch_limit }
        ensures some { least_epoch_limit ≤ result }
        ensures most { result ≤ most_epoch_limit }
    {
        crate::laws::every_config_is_good(self);
        self.epoch_limit
    }

    /// How many requests for authentication a server lets fail (RFC 4252 section 4): 1 to 20.
    pub fn tries(&self) -> u32
        ensures value { result ≡ (given_of self.now).tries }
        ensures some { 1 ≤ result }
        ensures most { result ≤ 20 }
    {
        crate::laws::every_config_is_good(self);
        self.tries
    }

    /// The methods of authentication that a server names, `publickey` and `password` (RFC 4252 sections 7 and 8).
    pub fn methods(&self) -> NameList<'_>
        ensures names { names result ≡ (given_of self.now).methods }
        ensures listed { IsList (names result) }
        ensures short { length (text_of result) ≤ 1040 }
    {
        crate::laws::every_config_is_good(self);
        short_list(&self.methods)
    }

    /// Whether the end offers or requires strict key exchange.
    pub fn strictness(&self) -> Strictness
        ensures { result ≡ (given_of self.now).strictness }
    {
        self.strictness
    }

    /// Tests whether the end takes extensions of its peer (RFC 8308 section 2.1).
    pub fn takes_extensions(&self) -> bool
        ensures { result ≡ (given_of self.now).takes_extensions }
    {
        self.takes_extensions
    }

    /// The extensions that the end announces to a peer that takes some (RFC 8308 section 2.3), at
    /// most 16.
    pub fn extensions(&self) -> Extensions<'_>
        ensures { extensions_of result ≡ (given_of self.now).extensions }
    {
        self.extensions.as_extensions()
    }
}
