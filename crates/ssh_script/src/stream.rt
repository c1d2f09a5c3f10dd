//! The bytes of one direction.

ghost use Rattle.std.specs.Prelude.{◌≡◌, ◌≤◌, ◌<◌, ◌+◌, ◌-◌, ◌++◌, [], ℕ, vec_len, take, drop, IfOk, OnOk, OnErr};
ghost use Rattle.ssh_script.specs.Shortage.{meant};

use crate::delivery::Count;
use crate::script_fault::RunFault;
use crate::shortage::Shortage;
use std::alloc::{AllocError, Global};

/// All bytes that a side ever put out. The first of them are passed, the others wait.
#[derive(Drop)]
pub(crate) struct Stream {
    bytes: Vec<u8>,
    passed: usize,
    ghost within: { passed ≤ vec_len bytes },
}

impl Stream {
    /// A stream into which nothing was put.
    pub fn new(alloc: Global) -> Stream
        ensures bytes { result.bytes.items ≡ [] }
        ensures passed { result.passed ≡ 0 }
    {
        Stream {
            bytes: Vec::new(alloc),
            passed: 0,
        }
    }

    /// All bytes that were put out.
    pub fn whole(&self) -> &[u8]
        ensures { result.now ≡ self.now.bytes.items }
    {
        self.bytes.as_slice()
    }

    /// How many of them don't wait any more.
    pub fn passed(&self) -> usize
        ensures { result ≡ self.now.passed }
    {
        self.passed
    }

    /// Adds bytes that the side put out.
    ///
    /// # Errors
    ///
    /// Only if memory is refused: nothing is added.
    pub fn put_out(&mut self, bytes: &[u8]) -> Result<(), AllocError>
        ensures bytes { OnOk result (self.new.bytes.items ≡ self.old.bytes.items ++ bytes.now) }
        ensures passed { self.new.passed ≡ self.old.passed }
    {
        self.bytes.extend_from_slice(bytes)
    }

    /// Passes the next waiting bytes.
    ///
    /// # Errors
    ///
    /// Fewer bytes wait, and the shortage is `Refused`.
    pub fn pass(&mut self, count: Count, shortage: Shortage) -> Result<(), RunFault>
        // What it does.
        ensures all { count ≡ Count.All → OnOk result (self.new.passed ≡ vec_len self.old.bytes) }
        ensures next { (n : ℕ) → count ≡ Count.Next n → OnOk result (self.new.passed
            ≡ self.old.passed + meant shortage n (vec_len self.old.bytes - self.old.passed)) }
        ensures on { self.old.passed ≤ self.new.passed }
        ensures bytes { self.new.bytes ≡ self.old.bytes }
        // If it fails.
        ensures refused { OnErr result (self.new ≡ self.old) }
        ensures short { OnErr result ((n : ℕ) × (count ≡ Count.Next n) × (shortage ≡ Shortage.Refused)
            × (vec_len self.old.bytes < self.old.passed + n)) }
    {
        let waiting = self.bytes.len() - self.passed;
        let wanted = match count {
            Count::All => waiting,
            Count::Next(wanted) => shortage.meant(wanted as usize, waiting),
        };
        if waiting < wanted {
            return Err(RunFault::FewWaiting { wanted, waiting });
        }
        self.passed += wanted;
        Ok(())
    }

    /// The bytes that were passed from this place on.
    pub fn passed_from(&self, start: usize) -> &[u8]
        requires { start ≤ self.now.passed }
        ensures { result.now ≡ take (self.now.passed - start) (drop start self.now.bytes.items) }
    {
        &self.bytes.as_slice()[start..self.passed]
    }

    /// Bytes that were put out, waiting or not.
    ///
    /// # Errors
    ///
    /// Fewer bytes were put out, and the shortage is `Refused`.
    pub fn part(&self, start: usize, count: usize, shortage: Shortage) -> Result<&[u8], RunFault>
        ensures part { IfOk result (λ piece. piece.now ≡ take count (drop start self.now.bytes.items)) }
        ensures whole { shortage ≡ Shortage.Refused → OnOk result (start + count ≤ vec_len self.now.bytes) }
        ensures short { OnErr result ((shortage ≡ Shortage.Refused) × (vec_len self.now.bytes < start + count)) }
    {
        let bytes = self.bytes.as_slice();
        let whole = bytes.len();
        let start_meant = shortage.meant(start, whole);
        if whole < start_meant {
            return Err(RunFault::NotPutOut {
                start,
                count,
                whole,
            });
        }
        let (_, rest) = bytes.split_at(start_meant);
        let count_meant = shortage.meant(count, rest.len());
        if rest.len() < count_meant {
            return Err(RunFault::NotPutOut {
                start,
                count,
                whole,
            });
        }
        Ok(rest.split_at(count_meant).0)
    }
}
