//! The parts of both ends: AES-128-GCM, X25519, Ed25519, and random bytes of the system.

ghost use Rattle.std.specs.Prelude.{◌≡◌, IfOk};
ghost use Rattle.divrelca.specs.Opening.{Client, DrawsAll, IsNewEnd, Server, settings_of};
ghost use Rattle.divrelca.specs.Parts.AesGcm.{aes_gcm};
ghost use Rattle.divrelca.specs.Supplies.{next_bytes};
ghost use Rattle.example_embedding.specs.Echo.{echo_settings};

use divrelca::{
    AesGcm, ClientEnd, ClientPartValues, ClientParts, ClientRole, Config, Curve25519,
    Ed25519HostKeys, Ed25519Judge, Ed25519Signer, EndRole, Entropy, GcmSettings, KeySupply,
    PaddingSource, ServerEnd, ServerPartValues, ServerParts, ServerRole,
};
use std::alloc::Global;

/// The parts of a server.
pub struct EchoServer;

impl ServerParts for EchoServer {
    type Sealing = AesGcm;

    type Filler = PaddingSource;

    type Agreement = Curve25519;

    type HostSigner = Ed25519Signer;
}

/// The parts of a client.
pub struct EchoClient;

impl ClientParts for EchoClient {
    type Sealing = AesGcm;

    type Filler = PaddingSource;

    type Agreement = Curve25519;

    type HostTrust = Ed25519HostKeys;
}

/// A server with this host key, which lets these users in and put its version line and its first KEXINIT into `out`.
///
/// # Errors
///
/// No random bytes were there, or memory was refused.
pub fn server_end<'a, S: Entropy>(
    alloc: Global,
    keys: &mut KeySupply<S>,
    host_signer: Ed25519Signer,
    judge: Ed25519Judge<'a>,
    out: &mut Vec<u8>,
) -> anyhow::Result<ServerEnd<EchoServer, Ed25519Judge<'a>>>
    ensures opened { IfOk result (λ end. DrawsAll S.gives keys.old.source (λ padding. IsNewEnd aes_gcm
        ⟦<ServerRole<EchoServer, Ed25519Judge<'a>> as EndRole>⟧ next_bytes Server echo_settings padding out.old.items
        out.new.items end) keys.new.source) }
    ensures host { IfOk result (λ end. end.role.exchange.host_signer ≡ host_signer) }
    ensures users { IfOk result (λ end. end.role.own.judge ≡ judge.entry) }
{
    let parts = ServerPartValues {
        filler: keys.padding()?,
        agreement: Curve25519,
        host_signer,
    };
    Ok(keys.open(alloc, config(alloc)?, parts, judge, out)?)
}

/// A client that trusts this host, whose user signs with this key, and that put its version line and its first KEXINIT into `out`.
///
/// # Errors
///
/// No random bytes were there, or memory was refused.
pub fn client_end<S: Entropy>(
    alloc: Global,
    keys: &mut KeySupply<S>,
    host_trust: Ed25519HostKeys,
    signer: Ed25519Signer,
    out: &mut Vec<u8>,
) -> anyhow::Result<ClientEnd<EchoClient, Ed25519Signer>>
    ensures opened { IfOk result (λ end. DrawsAll S.gives keys.old.source (λ padding. IsNewEnd aes_gcm
        ⟦<ClientRole<EchoClient, Ed25519Signer> as EndRole>⟧ next_bytes Client echo_settings padding out.old.items
        out.new.items end) keys.new.source) }
    ensures host { IfOk result (λ end. end.role.exchange.host_trust ≡ host_trust) }
    ensures user { IfOk result (λ end. end.role.own.signer ≡ signer) }
{
    let parts = ClientPartValues {
        filler: keys.padding()?,
        agreement: Curve25519,
        host_trust,
    };
    Ok(keys.open(alloc, config(alloc)?, parts, signer, out)?)
}

// What either end is configured by: AES-GCM, and users who come in by a key alone.
fn config(alloc: Global) -> anyhow::Result<Config<AesGcm>>
    ensures { IfOk result (λ config. settings_of config ≡ echo_settings) }
{
    let settings = GcmSettings {
        methods: &[b"publickey"],
        ..GcmSettings::new(b"echo")
    };
    Ok(Config::new(alloc, &settings.settings())?)
}
