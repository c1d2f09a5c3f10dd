//! The toys that go together.

ghost use Rattle.std.specs.Prelude.{◌≡◌};
ghost use Rattle.ssh_toys.specs.Standard.{zeros};

use crate::{ToyAgreement, ToyCredential, ToyFiller, ToySigner, ToyTrust};
use ssh_packet::MacOnly;
use ssh_transport::{ClientPartValues, ClientParts, ServerPartValues, ServerParts};

/// The parts of a client.
pub struct ToyClient;

impl ClientParts for ToyClient {
    type Sealing = MacOnly;

    type Filler = ToyFiller;

    type Agreement = ToyAgreement;

    type HostTrust = ToyTrust;
}

/// The parts of a server.
pub struct ToyServer;

impl ServerParts for ToyServer {
    type Sealing = MacOnly;

    type Filler = ToyFiller;

    type Agreement = ToyAgreement;

    type HostSigner = ToySigner;
}

// The padding is zeros.
const ZEROS: ToyFiller = ToyFiller { byte: 0 };

/// The parts of a client: a filler of zeros. The other parts have one value each.
pub fn client_parts() -> ClientPartValues<ToyClient>
    ensures { result.filler ≡ zeros }
{
    ClientPartValues {
        filler: ZEROS,
        agreement: ToyAgreement,
        host_trust: ToyTrust,
    }
}

/// The parts of a server: a filler of zeros. The other parts have one value each.
pub fn server_parts() -> ServerPartValues<ToyServer>
    ensures { result.filler ≡ zeros }
{
    ServerPartValues {
        filler: ZEROS,
        agreement: ToyAgreement,
        host_signer: ToySigner,
    }
}

/// The judge that lets the user u in.
pub const CREDENTIALS: &[ToyCredential<'static>] = &[
    ToyCredential::Password {
        user: b"u",
        word: b"p",
    },
    ToyCredential::Key {
        user: b"u",
        key: b"k",
    },
];
