//! Exit statuses.

ghost use Rattle.std.specs.Prelude.{◌≡◌};
ghost use Rattle.ssh_pipe_program.specs.Status.{code_of};

/// The status of a run of the program.
#[derive(Clone, Copy)]
pub enum Status {
    /// A server's session is over as its client wanted it.
    Done,
    /// A server refused its peer, or the session broke off.
    Refused,
    /// A fault of usage, file, memory or input and output.
    Fault,
    /// A client's command ended with this status, or with one above 255, which stands as 255.
    Command(u8),
    /// A client has no status of a command.
    Failed,
}

impl Status {
    /// The exit status: 0 for `Done`, 1 for `Refused`, 2 for `Fault`, the command's own, and 255 for `Failed`, as `ssh` has it.
    pub fn code(self) -> u8
        ensures { result ≡ code_of self }
    {
        match self {
            Status::Done => 0,
            Status::Refused => 1,
            Status::Fault => 2,
            Status::Command(status) => status,
            Status::Failed => 255,
        }
    }
}
