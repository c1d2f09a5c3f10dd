ghost use Rattle.ssh_types.specs.declared.call_error.CallError.TheVariants.{Refused};

use ssh_types::CallError;
use thiserror::Error;

/// One of the five lists of settings.
#[derive(Clone, Copy, Debug, PartialEq, Eq, Error)]
pub enum ConfigList {
    /// The names of the key exchange method.
    #[error("kex")]
    Kex,
    /// The algorithms of host keys.
    #[error("host")]
    Host,
    /// The encryptions.
    #[error("encryption")]
    Encryption,
    /// The MACs.
    #[error("mac")]
    Mac,
    /// The methods of authentication.
    #[error("methods")]
    Methods,
}

/// The fault in a list of settings.
#[derive(Clone, Copy, Debug, PartialEq, Eq, Error)]
pub enum ListFault {
    #[error("is empty")]
    Empty,
    #[error("has over 16 names")]
    TooMany,
    /// A text is no name (RFC 4251 section 6).
    #[error("has a text that is no name")]
    NotName,
    /// A name is none of those of the key exchange method, or no method of authentication.
    #[error("has a name that is not known")]
    Unknown,
    /// The sealing does not know an encryption of the list with a MAC of the other.
    #[error("has a name that the sealing does not know with each MAC")]
    UnknownPair,
}

/// One of the limits of settings.
#[derive(Clone, Copy, Debug, PartialEq, Eq, Error)]
pub enum ConfigLimit {
    /// The packets of an epoch: 64 to 2^31.
    #[error("epoch_limit is outside 64 to 2^31")]
    EpochLimit,
    /// The requests for authentication that may fail: 1 to 20.
    #[error("tries is outside 1 to 20")]
    Tries,
}

/// The fault in the extensions of settings.
#[derive(Clone, Copy, Debug, PartialEq, Eq, Error)]
pub enum ExtensionFault {
    /// Some are announced, and the end takes none itself.
    #[error("are announced by an end that takes none")]
    NotTaken,
    #[error("are over 16")]
    TooMany,
    /// A name is none (RFC 4251 section 6).
    #[error("have a name that is none")]
    NotName,
    /// A value has over 1,024 bytes.
    #[error("have a value of over 1,024 bytes")]
    LongValue,
    #[error("have two of one name")]
    NameTwice,
}

/// Why settings are refused. As text it is a sentence for a log.
#[derive(Clone, Copy, Debug, PartialEq, Eq, Error)]
pub enum ConfigRefusal {
    /// No version line has this software and these comments (RFC 4253 section 4.2). One of them has a byte that it may
    /// not have, the software is empty, or the line is longer than 255 bytes with CR LF.
    #[error("no version line has this software and these comments")]
    BadSoftware,
    /// The list is not good.
    #[error("the list {list} {fault}")]
    BadList { list: ConfigList, fault: ListFault },
    /// The limit is outside its bounds.
    #[error("the limit {0}")]
    BadLimit(ConfigLimit),
    /// The extensions are not good.
    #[error("the extensions {0}")]
    BadExtension(ExtensionFault),
}

impl ConfigRefusal {
    ghost use Rattle.std.specs.Prelude.{◌≡◌};
    ghost use Rattle.ssh_config.specs.Errors.{refusal_name, refusal_number};

    /// The number of the refusal: 1 of `BadSoftware`, 2 of `BadList`, 3 of `BadLimit`, 4 of `BadExtension`.
    pub fn number(self) -> u8
        ensures { result ≡ refusal_number self }
    {
        match self {
            ConfigRefusal::BadSoftware => 1,
            ConfigRefusal::BadList { .. } => 2,
            ConfigRefusal::BadLimit(_) => 3,
            ConfigRefusal::BadExtension(_) => 4,
        }
    }

    /// The name of the refusal, as the variant is spelled.
    pub fn name(self) -> &'static str
        ensures { result.now ≡ refusal_name self }
    {
        match self {
            ConfigRefusal::BadSoftware => "BadSoftware",
            ConfigRefusal::BadList { .. } => "BadList",
            ConfigRefusal::BadLimit(_) => "BadLimit",
            ConfigRefusal::BadExtension(_) => "BadExtension",
        }
    }
}

impl From<ConfigRefusal> for CallError<ConfigRefusal> {
    ghost use Rattle.std.specs.Prelude.{◌≡◌};

    ghost from_gives = { λ refusal error. error ≡ Refused refusal };

    fn from(refusal: ConfigRefusal) -> CallError<ConfigRefusal> {
        CallError::Refused(refusal)
    }
}
