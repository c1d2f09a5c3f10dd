//! Why a supply of keys can't go on.

ghost use Rattle.divrelca.specs.declared.error.SupplyError.TheVariants as supply_error;

use ssh_end::Fault;
use std::{fmt, io};
use thiserror::Error;

/// Why a supply can't feed its end, other than by what the peer does. `{}` shows it, with the error or the fault in it.
#[derive(Debug, Drop, Error)]
pub enum SupplyError {
    /// The source gave no random bytes.
    Random(io::Error),
    /// The end refused to exchange keys when that was due, or memory was refused to it.
    End(Fault),
}

impl fmt::Display for SupplyError {
    ghost use Rattle.divrelca.specs.Faults.{supply_text};

    ghost output = { λ error. supply_text error };

    fn fmt<W: fmt::Write>(&self, f: &mut fmt::Formatter<W>) -> fmt::Result {
        match self {
            SupplyError::Random(error) => write!(f, "no random bytes: {error}"),
            SupplyError::End(fault) => write!(f, "the end refused what it was asked for: {fault}"),
        }
    }
}

impl From<Fault> for SupplyError {
    ghost use Rattle.std.specs.Prelude.{◌≡◌};

    ghost from_gives = { λ fault error. error ≡ supply_error.End fault };

    fn from(fault: Fault) -> SupplyError {
        SupplyError::End(fault)
    }
}
