//! Calls that make something, and give nothing if memory is refused.

use super::outcome::Outcome;
use ssh_auth::AuthServer;
use ssh_channels::Channels;
use ssh_end::layers::{Layers, Login};
use ssh_kex::{ExchangeInputs, exchange_text};
use ssh_message::{Extension, ExtensionsBuf};
use ssh_packet::{HmacKey, MacOnly, PacketReader, PacketReceiver, Sealing};
use ssh_script::{Script, ScriptFault};
use ssh_toys::{ToyEnd, config, settings};
use ssh_trace::{EpochPair, Shown, packet_of};
use ssh_types::{NameList, NameListBuf, Side};
use std::alloc::{AllocError, Global};

/// A call that makes something.
#[derive(Clone, Copy, Debug)]
pub enum Making {
    NameList,
    Extensions,
    PacketReader,
    PacketReceiver,
    SealedReceiver,
    Key,
    ExchangeText,
    Config,
    AuthServer,
    Channels,
    ServerLayers,
    ClientLayers,
    EpochPair,
    ShownPacket,
    Script,
    /// The end of this side.
    End(Side),
}

/// Each of them.
pub const MAKING: &[Making] = &[
    Making::NameList,
    Making::Extensions,
    Making::PacketReader,
    Making::PacketReceiver,
    Making::SealedReceiver,
    Making::Key,
    Making::ExchangeText,
    Making::Config,
    Making::AuthServer,
    Making::Channels,
    Making::ServerLayers,
    Making::ClientLayers,
    Making::EpochPair,
    Making::ShownPacket,
    Making::Script,
    Making::End(Side::Client),
    Making::End(Side::Server),
];

const NAMES: &[u8] = b"zlib,none";

/// Makes the call twice, of which one may be refused memory.
pub fn make(alloc: Global, call: Making) -> Outcome {
    match (made(alloc, call), made(alloc, call)) {
        (Ok(true), Ok(true)) => Outcome::Done,
        (Err(_), Ok(true)) | (Ok(true), Err(_)) => Outcome::Refused,
        _ => Outcome::Wrong,
    }
}

// Whether what is made is what was asked for.
fn made(alloc: Global, call: Making) -> Result<bool, AllocError> {
    match call {
        Making::NameList => made_names(alloc),
        Making::Extensions => made_extensions(alloc),
        Making::PacketReader => Ok(PacketReader::new(alloc)?.capacity() == 35_000),
        Making::PacketReceiver => Ok(PacketReceiver::<MacOnly>::new(alloc)?.count() == 0),
        Making::SealedReceiver => made_receiver(alloc),
        Making::Key => made_key(alloc),
        Making::ExchangeText => made_text(alloc),
        Making::Config => Ok(config(alloc, &settings(b"c"))?.software() == b"c".as_slice()),
        Making::AuthServer => made_server(alloc),
        Making::Channels => Ok(Channels::new(alloc)?.count() == 0),
        Making::ServerLayers => made_layers(alloc),
        Making::ClientLayers => {
            Ok(Layers::new(alloc, Login::client(alloc))?.channels.count() == 0)
        }
        Making::EpochPair => made_pair(alloc),
        Making::ShownPacket => made_packet(alloc),
        Making::Script => made_script(alloc),
        Making::End(side) => made_end(alloc, side),
    }
}

fn made_names(alloc: Global) -> Result<bool, AllocError> {
    let Some(list) = NameList::new(NAMES) else {
        return Ok(false);
    };
    let copy = NameListBuf::copied(alloc, &list)?;
    Ok(copy.as_list().as_bytes() == NAMES)
}

fn made_extensions(alloc: Global) -> Result<bool, AllocError> {
    let extension = Extension {
        name: b"n",
        value: b"v",
    };
    let copies = ExtensionsBuf::new(alloc, &[extension])?;
    Ok(copies.as_extensions().count() == 1)
}

fn made_receiver(alloc: Global) -> Result<bool, AllocError> {
    let key = HmacKey::new(&[1; 32]);
    let receiver = PacketReceiver::<MacOnly>::with_key(alloc, key)?;
    Ok(receiver.count() == 0 && receiver.held() == 0)
}

fn made_key(alloc: Global) -> Result<bool, AllocError> {
    let key = MacOnly::make(alloc, b"none", b"hmac-sha2-256", b"", b"", &[1; 32])?;
    Ok(MacOnly::tag_len(&key) == 32)
}

fn made_text(alloc: Global) -> Result<bool, AllocError> {
    let inputs = ExchangeInputs {
        client_version: b"SSH-2.0-c",
        server_version: b"SSH-2.0-s",
        client_init: b"I_C",
        server_init: b"I_S",
        host_key: b"K_S",
        client_point: &[1; 32],
        server_point: &[2; 32],
        shared: &[3; 32],
    };
    if !inputs.fits() {
        return Ok(false);
    }
    let text = exchange_text(alloc, &inputs)?;
    Ok(text.as_slice().starts_with(b"\0\0\0\x09SSH-2.0-c"))
}

fn made_server(alloc: Global) -> Result<bool, AllocError> {
    let Some(methods) = NameList::new(b"publickey") else {
        return Ok(false);
    };
    let server = AuthServer::new(alloc, 1, &methods)?;
    Ok(server.methods().contains(b"publickey"))
}

fn made_layers(alloc: Global) -> Result<bool, AllocError> {
    let Some(methods) = NameList::new(b"publickey") else {
        return Ok(false);
    };
    let login = Login::server(alloc, 1, &methods)?;
    let layers = Layers::new(alloc, login)?;
    Ok(layers.channels.count() == 0)
}

fn made_pair(alloc: Global) -> Result<bool, AllocError> {
    match EpochPair::new(alloc, &[1; 32], &[2; 32]) {
        Ok(_) => Ok(true),
        Err(_) => Err(AllocError),
    }
}

fn made_packet(alloc: Global) -> Result<bool, AllocError> {
    match packet_of(alloc, "0000000c0a1500000000000000000000") {
        Ok(Shown::Payload(payload)) => Ok(payload.as_slice() == b"\x15".as_slice()),
        Ok(_) => Ok(false),
        Err(_) => Err(AllocError),
    }
}

fn made_script(alloc: Global) -> Result<bool, AllocError> {
    match Script::read(alloc, b"user u p\nask c open session 10 32768\n") {
        Ok(Script::Session(script)) => Ok(script.steps.as_slice().len() == 1),
        Err(ScriptFault::Memory) => Err(AllocError),
        _ => Ok(false),
    }
}

const OLD: &[u8] = b"old";

// An end puts its first line and its KEXINIT after three bytes, or nothing.
fn made_end(alloc: Global, side: Side) -> Result<bool, AllocError> {
    let mut out = OLD.to_vec(alloc)?;
    match ToyEnd::new(alloc, side, &mut out) {
        Ok(end) => Ok(!end.is_dead() && out.as_slice().starts_with(b"oldSSH-2.0-")),
        Err(_) if out.as_slice() == OLD => Err(AllocError),
        Err(_) => Ok(false),
    }
}
