//! A client and a server of X25519 and AES-128-GCM.

use crate::sessions::ends::Ends;
use crate::sessions::party::Party;
use divrelca::{AesGcm, Curve25519};
use ssh_toys::lines::Problem;
use ssh_toys::{ToyFiller, ToySigner, ToyTrust};
use ssh_transport::{
    Client, ClientPartValues, ClientParts, Config, Server, ServerPartValues, ServerParts, Settings,
};
use std::alloc::Global;

/// Both ends.
pub type RealEnds = Ends<Client<RealClient>, Server<RealServer>>;

/// The parts of such a client.
pub struct RealClient;

impl ClientParts for RealClient {
    type Sealing = AesGcm;

    type Filler = ToyFiller;

    type Agreement = Curve25519;

    type HostTrust = ToyTrust;
}

/// Those of such a server.
pub struct RealServer;

impl ServerParts for RealServer {
    type Sealing = AesGcm;

    type Filler = ToyFiller;

    type Agreement = Curve25519;

    type HostSigner = ToySigner;
}

// What an end is configured by, which takes host keys of ssh-ed25519.
fn config(alloc: Global) -> Result<Config<AesGcm>, Problem> {
    let settings = Settings {
        host: &[b"ssh-ed25519"],
        encryption: &[b"aes128-gcm@openssh.com"],
        ..ssh_toys::settings(b"d")
    };
    match Config::<AesGcm>::new(alloc, &settings) {
        Ok(config) => Ok(config),
        Err(_) => Err(Problem::NotALine),
    }
}

/// Both ends, that have put out their lines and KEXINITs.
///
/// # Errors
///
/// `NotALine` if the settings are refused, and want of memory.
pub fn real_ends(alloc: Global) -> Result<RealEnds, Problem> {
    let of_client = config(alloc)?;
    let of_server = config(alloc)?;
    let parts = ClientPartValues {
        filler: ToyFiller { byte: 0 },
        agreement: Curve25519,
        host_trust: ToyTrust,
    };
    let client = Party::<Client<RealClient>>::new(alloc, of_client, parts, ([0xc1; 16], [1; 32]))?;
    let parts = ServerPartValues {
        filler: ToyFiller { byte: 0 },
        agreement: Curve25519,
        host_signer: ToySigner,
    };
    let server = Party::<Server<RealServer>>::new(alloc, of_server, parts, ([0xd1; 16], [2; 32]))?;
    Ok(Ends {
        alloc,
        client,
        server,
    })
}
