//! The supplied parts of both ends.

ghost use Rattle.std.specs.Prelude.{◌≡◌};
ghost use Rattle.divrelca.specs.Supplies.{padding_under};

use crate::embedded::hosts::TrustedHosts;
use divrelca::{AesGcm, Curve25519, Ed25519Signer, PaddingSource, UserKey};
use ssh_held::GivenSignatures;
use ssh_transport::{ClientPartValues, ClientParts, ServerPartValues, ServerParts};

/// The parts of a server: AES-GCM, X25519 and Ed25519.
pub struct EmbeddedServer;

impl ServerParts for EmbeddedServer {
    type Sealing = AesGcm;

    type Filler = PaddingSource;

    type Agreement = Curve25519;

    type HostSigner = Ed25519Signer;
}

/// The parts of a client: the same.
pub struct EmbeddedClient;

impl ClientParts for EmbeddedClient {
    type Sealing = AesGcm;

    type Filler = PaddingSource;

    type Agreement = Curve25519;

    type HostTrust = TrustedHosts;
}

/// The signatures of a client's user: by its own key pair, and those that the program gave.
pub type UserSignatures = GivenSignatures<UserKey>;

/// Those of a server with this key pair, which pads packets by the stream under this key.
pub(crate) fn server_parts(
    padding: [u8; 32],
    host: Ed25519Signer,
) -> ServerPartValues<EmbeddedServer>
    ensures filler { result.filler ≡ padding_under padding }
    ensures host { result.host_signer ≡ host }
{
    ServerPartValues {
        filler: PaddingSource::from_key(padding),
        agreement: Curve25519,
        host_signer: host,
    }
}

/// Those of a client that trusts these hosts, and pads packets by the stream under this key.
pub(crate) fn client_parts(
    padding: [u8; 32],
    host: TrustedHosts,
) -> ClientPartValues<EmbeddedClient>
    ensures filler { result.filler ≡ padding_under padding }
    ensures host { result.host_trust ≡ host }
{
    ClientPartValues {
        filler: PaddingSource::from_key(padding),
        agreement: Curve25519,
        host_trust: host,
    }
}
