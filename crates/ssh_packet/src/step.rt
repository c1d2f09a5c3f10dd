/// The result of one call of a `PacketReader` or a `PacketReceiver`. `Why` says why bytes are refused.
#[derive(Clone, Copy, Debug, PartialEq, Eq)]
pub enum PacketStep<Why> {
    /// A whole packet; its payload is shown.
    Payload,
    /// No whole packet yet. All bytes of the call were used.
    More,
    /// The bytes are no packet that may come. The same is refused from now on.
    Refused(Why),
}
