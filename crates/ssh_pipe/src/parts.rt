//! Settings and supplied parts of both ends.

use divrelca::{
    AesGcm, Curve25519, Ed25519HostKeys, Ed25519Signer, Either, GcmSettings, PaddingSource, Policy,
    TRIES,
};
use ssh_packet::MacOnly;
use ssh_transport::{
    ClientPartValues, ClientParts, Config, ConfigRefusal, ServerPartValues, ServerParts, Settings,
};
use ssh_types::CallError;
use std::alloc::Global;

/// The sealing of both ends: AES-GCM, and `none` with hmac-sha2-256 if a policy offers it.
pub type PipeSealing = Either<AesGcm, MacOnly>;

/// The parts of a client.
pub struct PipeClient;

impl ClientParts for PipeClient {
    type Sealing = PipeSealing;

    type Filler = PaddingSource;

    type Agreement = Curve25519;

    type HostTrust = Ed25519HostKeys;
}

/// The parts of a server.
pub struct PipeServer;

impl ServerParts for PipeServer {
    type Sealing = PipeSealing;

    type Filler = PaddingSource;

    type Agreement = Curve25519;

    type HostSigner = Ed25519Signer;
}

/// The parts of a server with this key pair, whose packets are padded so.
pub fn server_parts(
    filler: PaddingSource,
    host_signer: Ed25519Signer,
) -> ServerPartValues<PipeServer> {
    ServerPartValues {
        filler,
        agreement: Curve25519,
        host_signer,
    }
}

/// The parts of a client that trusts these keys, whose packets are padded so.
pub fn client_parts(
    filler: PaddingSource,
    host_trust: Ed25519HostKeys,
) -> ClientPartValues<PipeClient> {
    ClientPartValues {
        filler,
        agreement: Curve25519,
        host_trust,
    }
}

/// The methods of authentication that there are (RFC 4252 sections 7 and 8).
pub const METHODS: &[&[u8]] = &[b"publickey", b"password"];

/// The settings of an end, which requires strict key exchange, under this policy. `methods` are those of authentication that a server
/// names; at a client they mean nothing.
///
/// # Errors
///
/// Those of `Config::new`: `Refused` settings, or `Memory`.
pub fn config(
    alloc: Global,
    policy: &Policy,
    methods: &[&[u8]],
) -> Result<Config<PipeSealing>, CallError<ConfigRefusal>> {
    let settings = GcmSettings {
        epoch_limit: policy.epoch_limit,
        tries: TRIES,
        methods,
        ..GcmSettings::new(b"Divrelca")
    }
    .settings();
    Config::new(
        alloc,
        &Settings {
            encryption: policy.ciphers.names(policy.offers_none),
            ..settings
        },
    )
}
