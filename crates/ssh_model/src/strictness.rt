/// Whether an end exchanges keys strictly, as OpenSSH does against prefix truncation. Then only the first exchange comes
/// before its NEWKEYS, and the sequence numbers of a direction begin at zero after each NEWKEYS. Key exchange is
/// strict if both ends offer it.
#[derive(Clone, Copy, Debug, Default, PartialEq, Eq)]
pub enum Strictness {
    /// The end offers strict key exchange, and refuses a peer that doesn't.
    #[default]
    Require,
    /// The end offers strict key exchange, and takes a peer that doesn't.
    Offer,
    /// The end doesn't offer strict key exchange.
    Off,
}

impl Strictness {
    ghost use Rattle.std.specs.Prelude.{◌≡◌};
    ghost use Rattle.ssh_model.specs.Protocol.Sessions.Parties as model;

    /// Tests whether the end's first KEXINIT has the marker of strict key exchange.
    pub fn is_offered(self) -> bool
        ensures { result ≡ model.is_offered self }
    {
        match self {
            Strictness::Require | Strictness::Offer => true,
            Strictness::Off => false,
        }
    }

    /// Tests whether the end refuses a peer that doesn't offer strict key exchange.
    pub fn is_required(self) -> bool
        ensures { result ≡ model.is_required self }
    {
        match self {
            Strictness::Require => true,
            Strictness::Offer | Strictness::Off => false,
        }
    }
}
