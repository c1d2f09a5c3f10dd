ghost use Rattle.std.specs.Prelude.{◌≡◌};
ghost use Rattle.ssh_trace.specs.Status.{code_of};

/// The status of a run of the program.
#[derive(Clone, Copy)]
pub enum Status {
    /// Done, and nothing was refused.
    Done,
    /// The packet is refused, incomplete or has bytes left over, or an end refused its peer.
    Refused,
    /// A fault of usage, file, digits, script, memory or output.
    Fault,
}

impl Status {
    /// The exit status: 0 for `Done`, 1 for `Refused`, 2 for `Fault`.
    pub fn code(self) -> u8
        ensures { result ≡ code_of self }
    {
        match self {
            Status::Done => 0,
            Status::Refused => 1,
            Status::Fault => 2,
        }
    }
}
