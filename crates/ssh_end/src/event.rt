use crate::Ask;
use ssh_types::Side;

/// What happens to one of two ends.
#[derive(Clone, Copy)]
pub enum Event<'a> {
    /// Its user asks for this.
    Ask(Side, Ask<'a>),
    /// These bytes come to it, as one piece.
    Deliver(Side, &'a [u8]),
}
