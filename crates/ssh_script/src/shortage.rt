ghost use Rattle.std.specs.Prelude.{◌≡◌};
ghost use Rattle.ssh_script.specs.Shortage.{meant as meant_of};

/// What is done where a line wants more bytes than there are.
#[derive(Clone, Copy)]
pub enum Shortage {
    /// The line can't be run.
    Refused,
    /// The line stands for the bytes that are there.
    Shortened,
}

impl Shortage {
    /// How many bytes a line stands for that wants this many.
    pub(crate) fn meant(self, wanted: usize, there: usize) -> usize
        ensures { result ≡ meant_of self wanted there }
    {
        match self {
            Shortage::Refused => wanted,
            Shortage::Shortened => wanted.min(there),
        }
    }
}
