//! The supplied parts of an end.

ghost use Rattle.std.specs.Prelude.{◌≡◌};

use ssh_kex::{Agreement, HostSigner, HostTrust};
use ssh_packet::{Filler, Sealing};

/// The types of the supplied parts of a client. It has no calls: a type of the user's own names the parts that go
/// together, and a client takes that type as its one parameter. The values are a `ClientPartValues`.
pub trait ClientParts {
    /// Seals and opens packets. Its calls need no value.
    type Sealing: Sealing;

    /// Gives the bytes of the padding (RFC 4253 section 6).
    type Filler: Filler + Drop;

    /// Agrees on the shared number of an exchange (RFC 8731).
    type Agreement: Agreement + Drop;

    /// Says which host keys are trusted, and judges their signatures (RFC 4253 section 8).
    type HostTrust: HostTrust + Drop;
}

/// The types of the supplied parts of a server. It has no calls: a type of the user's own names the parts that go
/// together, and a server takes that type as its one parameter. The values are a `ServerPartValues`.
pub trait ServerParts {
    /// Seals and opens packets. Its calls need no value.
    type Sealing: Sealing;

    /// Gives the bytes of the padding (RFC 4253 section 6).
    type Filler: Filler + Drop;

    /// Agrees on the shared number of an exchange (RFC 8731).
    type Agreement: Agreement + Drop;

    /// Has the host keys, and signs by them (RFC 4253 section 8).
    type HostSigner: HostSigner + Drop;
}

/// The supplied parts of a client: each type of `ClientParts` but the sealing, whose calls need no value.
pub struct ClientPartValues<P: ClientParts> {
    /// Gives the bytes of the padding.
    pub filler: P::Filler,
    /// Agrees on the shared number of an exchange.
    pub agreement: P::Agreement,
    /// Says which host keys are trusted, and judges their signatures.
    pub host_trust: P::HostTrust,
}

// Written out, since a derive would ask it of the parts' name too.
impl<P: ClientParts> Drop for ClientPartValues<P> {
    fn drop(self) {
        let ClientPartValues {
            filler: _,
            agreement: _,
            host_trust: _,
        } = self;
    }
}

impl<P: ClientParts> ClientPartValues<P> {
    /// The values one by one: filler, agreement, and who judges host keys.
    pub fn into_parts(self) -> (P::Filler, P::Agreement, P::HostTrust)
        ensures { result ≡ (self.filler, self.agreement, self.host_trust) }
    {
        let ClientPartValues {
            filler,
            agreement,
            host_trust,
        } = self;
        (filler, agreement, host_trust)
    }
}

/// The supplied parts of a server: each type of `ServerParts` but the sealing, whose calls need no value.
pub struct ServerPartValues<P: ServerParts> {
    /// Gives the bytes of the padding.
    pub filler: P::Filler,
    /// Agrees on the shared number of an exchange.
    pub agreement: P::Agreement,
    /// Has the host keys, and signs by them.
    pub host_signer: P::HostSigner,
}

// Written out, since a derive would ask it of the parts' name too.
impl<P: ServerParts> Drop for ServerPartValues<P> {
    fn drop(self) {
        let ServerPartValues {
            filler: _,
            agreement: _,
            host_signer: _,
        } = self;
    }
}

impl<P: ServerParts> ServerPartValues<P> {
    /// The values one by one: filler, agreement, and who signs by the host keys.
    pub fn into_parts(self) -> (P::Filler, P::Agreement, P::HostSigner)
        ensures { result ≡ (self.filler, self.agreement, self.host_signer) }
    {
        let ServerPartValues {
            filler,
            agreement,
            host_signer,
        } = self;
        (filler, agreement, host_signer)
    }
}

/// The padding of the packets that an end sends, and the payloads of those that it sent.
#[derive(Drop)]
pub struct Outgoing<F: Filler + Drop> {
    /// Gives the bytes of the padding (RFC 4253 section 6).
    pub filler: F,
    /// The payloads, the oldest first.
    pub payloads: Vec<Vec<u8>>,
}
