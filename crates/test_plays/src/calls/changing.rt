//! Calls that change a value, and leave it as it was if memory is refused.

use super::outcome::{Outcome, came};
use ssh_auth::{AuthClient, AuthServer, ServerAnswer, UserAsk};
use ssh_channels::{Ask, Channels};
use ssh_message::{Message, decode};
use ssh_packet::{HmacKey, MacOnly, PacketSender};
use ssh_toys::{CLIENT_COOKIE, CREDENTIALS, ToyFiller, ToyJudge, ToyUserSigner, config, settings};
use ssh_transport::put_kexinit;
use ssh_types::{CallError, Name, NameList, NameListBuf, Side};
use std::alloc::{AllocError, Global};

/// A call that changes a value.
#[derive(Clone, Copy, Debug)]
pub enum Changing {
    PushedName,
    SentPacket,
    SentNewKeys,
    PutKexInit,
    AskedChannel,
    TakenChannel,
    SignedRequest,
    JudgedRequest,
}

/// Each of them.
pub const CHANGING: &[Changing] = &[
    Changing::PushedName,
    Changing::SentPacket,
    Changing::SentNewKeys,
    Changing::PutKexInit,
    Changing::AskedChannel,
    Changing::TakenChannel,
    Changing::SignedRequest,
    Changing::JudgedRequest,
];

/// Makes the call, and again if memory is refused.
///
/// # Errors
///
/// Only if memory is refused.
pub fn change(alloc: Global, call: Changing) -> Result<Outcome, AllocError> {
    match call {
        Changing::PushedName => push_name(alloc),
        Changing::SentPacket => Ok(send_packet(alloc)),
        Changing::SentNewKeys => Ok(send_newkeys(alloc)),
        Changing::PutKexInit => put_offer(alloc),
        Changing::AskedChannel => ask_channel(alloc),
        Changing::TakenChannel => take_channel(alloc),
        Changing::SignedRequest => Ok(sign_request(alloc)),
        Changing::JudgedRequest => judge_request(alloc),
    }
}

fn push_name(alloc: Global) -> Result<Outcome, AllocError> {
    let (Some(list), Some(name)) = (NameList::new(b"zlib"), Name::new(b"none")) else {
        return Ok(Outcome::Wrong);
    };
    let mut names = NameListBuf::copied(alloc, &list)?;
    let is_first = names.push(name).is_ok();
    let is_kept = names.as_list().as_bytes() == b"zlib".as_slice();
    let is_second = is_first || names.push(name).is_ok();
    if names.as_list().as_bytes() != b"zlib,none".as_slice() {
        return Ok(Outcome::Wrong);
    }
    Ok(came(is_first, is_kept, is_second))
}

fn send_packet(alloc: Global) -> Outcome {
    let mut sender = PacketSender::<MacOnly>::new();
    let mut zeros = ToyFiller { byte: 0 };
    let mut out = Vec::new(alloc);
    let is_first = sender.send(b"\x15", &mut zeros, &mut out).is_ok();
    if is_first {
        return Outcome::Done;
    }
    let is_kept = out.is_empty() && sender.count() == 0;
    let is_second = !sender.is_spent() && sender.send(b"\x15", &mut zeros, &mut out).is_ok();
    came(is_first, is_kept, is_second && sender.count() == 1)
}

// The epoch is the old one where memory is refused, and the next packet is still in clear.
fn send_newkeys(alloc: Global) -> Outcome {
    let mut sender = PacketSender::<MacOnly>::new();
    let mut out = Vec::new(alloc);
    if renew(&mut sender, &mut out) {
        return Outcome::Done;
    }
    let is_kept = out.is_empty() && sender.count() == 0 && sender.epoch() == 0;
    let is_second = renew(&mut sender, &mut out)
        && out.as_slice().starts_with(b"\0\0\0\x0c\x0a\x15");
    came(
        false,
        is_kept,
        is_second && sender.count() == 0 && sender.epoch() == 1,
    )
}

// Whether NEWKEYS found memory.
fn renew(sender: &mut PacketSender<MacOnly>, out: &mut Vec<u8>) -> bool {
    if sender.is_spent() || sender.epoch() != 0 {
        return false;
    }
    let key = HmacKey::new(&[1; 32]);
    let mut zeros = ToyFiller { byte: 0 };
    sender.send_newkeys(key, true, &mut zeros, out).is_ok()
}

const OLD: &[u8] = b"old";

// The first KEXINIT of a client, of 165 bytes, after three bytes, which stay where memory is refused.
fn put_offer(alloc: Global) -> Result<Outcome, AllocError> {
    let config = config(alloc, &settings(b"c"))?;
    let mut out = OLD.to_vec(alloc)?;
    let is_first = put_kexinit(
        alloc,
        &config,
        Side::Client,
        true,
        &CLIENT_COOKIE,
        &mut out,
    ).is_ok();
    let is_kept = out.as_slice() == OLD;
    let is_second = is_first
        || put_kexinit(alloc, &config, Side::Client, true, &CLIENT_COOKIE, &mut out).is_ok();
    let is_put = out.len() == 168 && out.as_slice().starts_with(b"old\x14\xc1");
    if is_first && !is_put {
        return Ok(Outcome::Wrong);
    }
    Ok(came(is_first, is_kept, is_second && is_put))
}

/// A channel is asked for.
pub const OPEN: Ask<'static> = Ask::Open {
    kind: b"session",
    window: 10,
    max_packet: 32_768,
    rest: b"",
};

fn ask_channel(alloc: Global) -> Result<Outcome, AllocError> {
    let mut channels = Channels::new(alloc)?;
    let first = channels.ask(&OPEN, false, false).err();
    let is_kept = first == Some(CallError::Memory) && channels.count() == 0;
    let is_second = first.is_none() || channels.ask(&OPEN, false, false).is_ok();
    Ok(came(first.is_none(), is_kept, is_second && channels.count() == 1))
}

fn take_channel(alloc: Global) -> Result<Outcome, AllocError> {
    let mut channels = Channels::new(alloc)?;
    let open = Message::ChannelOpen {
        kind: b"session",
        sender: 0,
        window: 10,
        max: 32_768,
        rest: b"",
    };
    let first = channels.take(&open, false).err();
    let is_kept = first == Some(CallError::Memory) && channels.count() == 0;
    let is_second = first.is_none() || channels.take(&open, false).is_ok();
    Ok(came(first.is_none(), is_kept, is_second && channels.count() == 1))
}

/// The session id.
pub const SESSION: [u8; 32] = [7; 32];

/// The user signs.
pub const SIGN: UserAsk<'static> = UserAsk::Sign {
    user: b"u",
    algorithm: b"toy@example.com",
    key: b"k",
};

// A client that was refused memory has no request outstanding.
fn sign_request(alloc: Global) -> Outcome {
    let mut client = AuthClient::new(alloc);
    client.open();
    let first = client.ask(&SESSION, &ToyUserSigner, &SIGN).err();
    let is_kept = first == Some(CallError::Memory) && !client.may_take(52);
    let is_second = first.is_none() || client.ask(&SESSION, &ToyUserSigner, &SIGN).is_ok();
    came(first.is_none(), is_kept, is_second && client.may_take(52))
}

/// The key of the user, with a signature of one byte, which is wrong.
pub const SIGNED: &[u8] = b"2\0\0\0\x01u\0\0\0\x0essh-connection\0\0\0\x09publickey\x01\
    \0\0\0\x0ftoy@example.com\0\0\0\x01k\0\0\0\x01s";

// One request may fail. One for which memory was refused did not.
fn judge_request(alloc: Global) -> Result<Outcome, AllocError> {
    let judge = ToyJudge {
        credentials: CREDENTIALS,
    };
    let (Some(methods), Ok(message)) = (NameList::new(b"publickey"), decode(false, SIGNED)) else {
        return Ok(Outcome::Wrong);
    };
    let mut server = AuthServer::new(alloc, 1, &methods)?;
    server.open();
    let mut answer = server.take(&SESSION, &judge, &message);
    let is_first = answer != Err(CallError::Memory);
    if !is_first {
        answer = server.take(&SESSION, &judge, &message);
    }
    Ok(came(is_first, true, answer == Ok(ServerAnswer::Failed)))
}
