//! Why a line can't be told.

use hex::FromHexError;
use std::alloc::AllocError;
use thiserror::Error;

/// Why a line can't be told.
#[derive(Debug, Drop, Error)]
pub enum Problem {
    /// What has to be bytes is none.
    #[error("no pairs of hexadecimal digits")]
    NotHex(#[from] FromHexError),
    /// The line has another form.
    #[error("no line of this file")]
    NotALine,
    /// The words of a layer about it.
    #[error("{0}")]
    Said(String),
    /// Memory was refused.
    #[error("out of memory")]
    Memory(#[from] AllocError),
}
