use thiserror::Error;

/// Why a value could not be read.
#[derive(Clone, Copy, Debug, PartialEq, Eq, Error)]
pub enum ReadRefusal {
    /// The bytes end within the value.
    #[error("the bytes end too early")]
    Short,
    /// A name-list holds a text that is no name.
    #[error("a list of names is malformed")]
    BadNames,
    /// A whole number is not written in the shortest way.
    #[error("a number is not in its shortest form")]
    NotCanonical,
    /// Bytes are left over at the end.
    #[error("bytes are left over")]
    LeftOver,
}

impl ReadRefusal {
    ghost use Rattle.std.specs.Prelude.{◌≡◌};
    ghost use Rattle.ssh_types.specs.ReadRefusals.{refusal_number, refusal_name};

    /// The number of the refusal, 1 to 4.
    pub fn number(&self) -> u8
        ensures { result ≡ refusal_number self.now }
    {
        match self {
            ReadRefusal::Short => 1,
            ReadRefusal::BadNames => 2,
            ReadRefusal::NotCanonical => 3,
            ReadRefusal::LeftOver => 4,
        }
    }

    /// The name of the refusal, as `BadNames`.
    pub fn name(&self) -> &'static str
        ensures { result.now ≡ refusal_name self.now }
    {
        match self {
            ReadRefusal::Short => "Short",
            ReadRefusal::BadNames => "BadNames",
            ReadRefusal::NotCanonical => "NotCanonical",
            ReadRefusal::LeftOver => "LeftOver",
        }
    }
}
