//! Bytes on their way to a side.

ghost use Rattle.std.specs.Prelude.{◌≡◌, ◌<◌, ◌≤◌, length};
ghost use Rattle.std.specs.Slice.Iter.{chunks_rest, chunks_size};

use ssh_types::Side;
use std::slice::Chunks;

/// The bytes that a line delivers to a side.
#[derive(Clone, Copy)]
pub struct Parcel<'a> {
    pub to: Side,
    pub bytes: &'a [u8],
    pub origin: Origin,
    pub cut: Cut,
}

/// The source of the bytes of a parcel.
#[derive(Clone, Copy)]
pub enum Origin {
    /// The other side put them out, the first of them after this many others.
    PutOut { start: usize },
    /// The script's line has them.
    Script,
}

/// In which pieces the bytes of a parcel come.
#[derive(Clone, Copy)]
pub enum Cut {
    /// In one piece.
    Whole,
    /// Each byte is a piece.
    Bytes,
}

impl<'a> Parcel<'a> {
    /// The pieces, in their order. No piece is empty, so no bytes are none.
    pub fn pieces(&self) -> Chunks<'a, u8>
        ensures rest { chunks_rest result ≡ self.now.bytes.now }
        ensures some { 0 < chunks_size result }
        ensures whole { self.now.cut ≡ Cut.Whole → length self.now.bytes.now ≤ chunks_size result }
        ensures bytes { self.now.cut ≡ Cut.Bytes → chunks_size result ≡ 1 }
    {
        match self.cut {
            Cut::Whole => self.bytes.chunks(self.bytes.len().max(1)),
            Cut::Bytes => self.bytes.chunks(1),
        }
    }
}
