//! Random bytes that are none.

use std::cell::Cell;
use std::io;
use std::random::RandomSource;

/// Gives bytes that count: each call fills with one byte, and the next call with the next one. So the padding of a packet shows from which
/// call it is.
#[derive(Drop)]
pub struct Counted {
    next: Cell<u8>,
}

impl Counted {
    /// Bytes that begin after this one.
    pub fn new(before: u8) -> Counted {
        Counted {
            next: Cell::new(before),
        }
    }
}

impl RandomSource for Counted {
    fn fill_bytes(&self, bytes: &mut [u8]) -> io::Result<()> {
        self.next.set(self.next.get().wrapping_add(1));
        bytes.fill(self.next.get());
        Ok(())
    }
}
