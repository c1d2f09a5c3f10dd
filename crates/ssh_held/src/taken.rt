//! What became of bytes of the peer.

/// What became of bytes of the peer.
#[derive(Clone, Copy, PartialEq, Eq)]
pub enum Taken {
    /// So many were used. `last_turn` of the end shows what was done.
    Used(usize),
    /// None were used: the next packet asks the program, which has said nothing on it. `wanted` shows the question.
    Wanted,
}
