//! The two ends, over real parts and counted bytes.

use divrelca::{
    AcceptedKey, AesGcm, ClientEnd, ClientPartValues, ClientParts, Config, Curve25519,
    Ed25519Judge, Ed25519Signer, Ed25519Trust, GcmSettings, KeySupply, PaddingSource, RandomBytes,
    ServerEnd, ServerPartValues, ServerParts,
};
use ssh_toys::Counted;
use std::alloc::Global;

/// The parts of a server.
pub struct RealServer;

impl ServerParts for RealServer {
    type Sealing = AesGcm;

    type Filler = PaddingSource;

    type Agreement = Curve25519;

    type HostSigner = Ed25519Signer;
}

/// The parts of a client.
pub struct RealClient;

impl ClientParts for RealClient {
    type Sealing = AesGcm;

    type Filler = PaddingSource;

    type Agreement = Curve25519;

    type HostTrust = Ed25519Trust;
}

/// A server that lets these users in, after its first line and KEXINIT were put into `out`.
///
/// # Errors
///
/// Memory is refused.
pub fn server_end<'a>(
    alloc: Global,
    supply: &mut KeySupply<RandomBytes<Counted>>,
    host_signer: Ed25519Signer,
    accepted: &'a [AcceptedKey<'a>],
    out: &mut Vec<u8>,
) -> anyhow::Result<ServerEnd<RealServer, Ed25519Judge<'a>>> {
    let first = supply.draw()?;
    let parts = ServerPartValues {
        filler: supply.padding()?,
        agreement: Curve25519,
        host_signer,
    };
    let config = Config::new(alloc, &GcmSettings::new(b"s").settings())?;
    let judge = Ed25519Judge { accepted };
    let end = ServerEnd::new(alloc, config, parts, judge, first.cookie, first.secret, out)?;
    Ok(end)
}

/// A client that trusts this host and whose user signs with this key, after its first line and KEXINIT were put into `out`.
///
/// # Errors
///
/// Memory is refused.
pub fn client_end(
    alloc: Global,
    supply: &mut KeySupply<RandomBytes<Counted>>,
    host_trust: Ed25519Trust,
    user: Ed25519Signer,
    out: &mut Vec<u8>,
) -> anyhow::Result<ClientEnd<RealClient, Ed25519Signer>> {
    let first = supply.draw()?;
    let parts = ClientPartValues {
        filler: supply.padding()?,
        agreement: Curve25519,
        host_trust,
    };
    let config = Config::new(alloc, &GcmSettings::new(b"c").settings())?;
    let end = ClientEnd::new(alloc, config, parts, user, first.cookie, first.secret, out)?;
    Ok(end)
}
