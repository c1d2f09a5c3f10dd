//! Ends with the parts that were recorded of a session of two exchanges.

use crate::sessions::ends::Ends;
use crate::sessions::parts::{Recorded, RecordedClient, RecordedServer};
use crate::sessions::party::Party;
use crate::words::bytes_at;
use ssh_toys::{ToyFiller, config};
use ssh_transport::{Client, ClientPartValues, Server, ServerPartValues, Settings};
use std::alloc::{AllocError, Global};

/// Both ends of such a session.
pub type RecordedEnds = Ends<Client<RecordedClient>, Server<RecordedServer>>;

// What these bytes are, in the order that the module `sessions` has.
fn recorded(bytes: &[u8]) -> Recorded {
    Recorded {
        cookie: bytes_at(bytes, 0),
        first_shared: bytes_at(bytes, 16),
        first_point: bytes_at(bytes, 48),
        second_point: bytes_at(bytes, 80),
        key: bytes_at(bytes, 112),
        first_hash: bytes_at(bytes, 163),
        first_signature: bytes_at(bytes, 195),
        second_hash: bytes_at(bytes, 278),
        second_signature: bytes_at(bytes, 310),
    }
}

/// A client and a server that are made of these bytes. They have the settings of the independent ends, which take extensions and announce
/// none.
///
/// # Errors
///
/// Only if memory is refused.
pub fn recorded_ends(alloc: Global, bytes: &[u8]) -> Result<RecordedEnds, AllocError> {
    let of_session = recorded(bytes);
    let cookie = of_session.cookie;
    let secret = of_session.first_shared;
    let material = (cookie, secret);
    let settings = Settings {
        kex: &[b"curve25519-sha256", b"curve25519-sha256@libssh.org"],
        host: &[b"ssh-ed25519"],
        takes_extensions: true,
        ..ssh_toys::settings(b"oracle_1")
    };
    let of_client = config(alloc, &settings)?;
    let of_server = config(alloc, &settings)?;
    let parts = ClientPartValues {
        filler: ToyFiller { byte: 0 },
        agreement: of_session,
        host_trust: of_session,
    };
    let client = Party::<Client<RecordedClient>>::new(alloc, of_client, parts, material)?;
    let parts = ServerPartValues {
        filler: ToyFiller { byte: 0 },
        agreement: of_session,
        host_signer: of_session,
    };
    let server = Party::<Server<RecordedServer>>::new(alloc, of_server, parts, material)?;
    Ok(Ends {
        alloc,
        client,
        server,
    })
}
