//! The one error of calls that refuse or need memory.

ghost use Rattle.ssh_types.specs.declared.call_error.CallError.TheVariants.{Memory, Refused};

use ssh_model::{AskRefusal, Refusal};
use std::alloc::AllocError;
use std::error::Error;
use std::fmt;
use std::fmt::{Display, Formatter};

/// Why a call did nothing. `R` is the refusals that the call can name.
#[derive(Clone, Copy, Debug, PartialEq, Eq)]
pub enum CallError<R> {
    /// The call is refused.
    Refused(R),
    /// Memory was refused.
    Memory,
}

impl<R: Display> Display for CallError<R> {
    fn fmt<W: fmt::Write>(&self, out: &mut Formatter<W>) -> fmt::Result {
        match self {
            CallError::Refused(refusal) => refusal.fmt(out),
            CallError::Memory => write!(out, "out of memory"),
        }
    }
}

impl<R: Error> Error for CallError<R> {}

impl<R> From<AllocError> for CallError<R> {
    ghost use Rattle.std.specs.Prelude.{◌≡◌};

    ghost from_gives = { λ _ error. error ≡ Memory };

    fn from(_error: AllocError) -> CallError<R> {
        CallError::Memory
    }
}

impl From<Refusal> for CallError<Refusal> {
    ghost use Rattle.std.specs.Prelude.{◌≡◌};

    ghost from_gives = { λ refusal error. error ≡ Refused refusal };

    fn from(refusal: Refusal) -> CallError<Refusal> {
        CallError::Refused(refusal)
    }
}

impl From<AskRefusal> for CallError<AskRefusal> {
    ghost use Rattle.std.specs.Prelude.{◌≡◌};

    ghost from_gives = { λ refusal error. error ≡ Refused refusal };

    fn from(refusal: AskRefusal) -> CallError<AskRefusal> {
        CallError::Refused(refusal)
    }
}
