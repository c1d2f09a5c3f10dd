//! Calls that need no memory.

use super::outcome::Outcome;
use ssh_auth::{AuthClient, AuthServer, UserAsk};
use ssh_channels::{Ask, Channels};
use ssh_end::Ask as EndAsk;
use ssh_kex::{KexLists, KeyPurpose, choose, derive, guess_wrong, markers};
use ssh_message::{Extension, Message, decode};
use ssh_packet::{HmacKey, LineReader, LineStep, MacOnly, PacketReader, PacketStep, write_packet};
use ssh_toys::{CREDENTIALS, ToyEnd, ToyFiller, ToyJudge, ToyUserSigner, settings};
use ssh_transport::{Config, Settings};
use ssh_types::{CallError, MpInt, NameList, Reader, Side};
use std::alloc::{AllocError, Global};

const KEY: [u8; 32] = [1; 32];

const SESSION: [u8; 32] = [7; 32];

/// Makes the calls, and says `taking` before them and `taken` after them.
///
/// # Errors
///
/// Only if memory is refused.
pub fn make_without(rt: &HostRuntime) -> Result<Outcome, AllocError> {
    let alloc = rt.alloc();
    let Some(methods) = NameList::new(b"publickey,password") else {
        return Ok(Outcome::Wrong);
    };
    let key = HmacKey::new(&KEY);
    let sealed = sealed_packet(alloc, &key)?;
    let mut server = AuthServer::new(alloc, 20, &methods)?;
    let mut client = AuthClient::new(alloc);
    let mut channels = Channels::new(alloc)?;
    let mut out = Vec::new(alloc);
    let mut end = ToyEnd::new(alloc, Side::Client, &mut out)?;
    let mut reader = PacketReader::new(alloc)?;
    let _ = println!(rt; "taking");
    let (_, step) = reader.take::<MacOnly>(Some(&key), 0, &sealed);
    let is_packet = step == PacketStep::Payload && is_newkeys(reader.payload());
    let are_made = values_are_read() && settings_are_refused(alloc) && keys_are_made();
    let is_judged = line_is_taken() && user_is_judged(&mut server, &mut client);
    let are_refused = asks_are_refused(&mut channels, &mut end, &mut out);
    let _ = println!(rt; "taken");
    Ok(if is_packet && are_made && is_judged && are_refused {
        Outcome::Done
    } else {
        Outcome::Wrong
    })
}

// A packet of NEWKEYS.
fn sealed_packet(alloc: Global, key: &HmacKey) -> Result<Vec<u8>, AllocError> {
    let mut packet = Vec::new(alloc);
    let mut zeros = ToyFiller { byte: 0 };
    write_packet::<MacOnly, ToyFiller>(b"\x15", Some(key), 0, &mut zeros, &mut packet)?;
    Ok(packet)
}

// A value of each type.
const VALUES: &[u8] =
    b"\x07\x01\0\0\0\x07\0\0\0\0\0\0\0\x07\0\0\0\x02hi\0\0\0\x02\0\x80\0\0\0\x09zlib,none";

fn values_are_read() -> bool {
    let mut reader = Reader::new(VALUES);
    let are_numbers = reader.u8() == Ok(7)
        && reader.boolean() == Ok(true)
        && reader.u32() == Ok(7)
        && reader.u64() == Ok(7);
    let are_texts = reader.string() == Ok(b"hi".as_slice())
        && reader.mpint() == Ok(MpInt::from_unsigned(&[0, 0x80]))
        && reader.names().is_ok_and(|names| names.iter().count() == 2);
    are_numbers && are_texts && reader.end().is_ok()
}

// Settings are judged before memory is asked for.
fn settings_are_refused(alloc: Global) -> bool {
    is_refused(alloc, &with_four(b"", KEX, 20, &[]), 1)
        && is_refused(alloc, &with_four(b"x", &[], 20, &[]), 2)
        && is_refused(alloc, &with_four(b"x", KEX, 0, &[]), 3)
        && is_refused(alloc, &with_four(b"x", KEX, 20, UNANNOUNCED), 4)
}

const KEX: &[&[u8]] = &[b"curve25519-sha256"];

// The software, the methods of key exchange, how many requests may fail, and the extensions.
fn with_four(
    software: &'static [u8],
    kex: &'static [&'static [u8]],
    tries: u32,
    extensions: &'static [Extension<'static>],
) -> Settings<'static> {
    Settings {
        kex,
        tries,
        extensions,
        ..settings(software)
    }
}

// Whether settings are refused under this number.
fn is_refused(alloc: Global, settings: &Settings<'_>, number: u8) -> bool {
    match Config::<MacOnly>::new(alloc, settings) {
        Err(CallError::Refused(refusal)) => refusal.number() == number,
        _ => false,
    }
}

// Extensions of an end that takes none.
const UNANNOUNCED: &[Extension<'static>] = &[Extension {
    name: b"n",
    value: b"v",
}];

// Ten lists of the same names.
fn ten_lists(names: &[u8]) -> Option<KexLists<'_>> {
    let list = NameList::new(names)?;
    Some(KexLists {
        kex: list,
        host: list,
        enc_cs: list,
        enc_sc: list,
        mac_cs: list,
        mac_sc: list,
        comp_cs: list,
        comp_sc: list,
        lang_cs: list,
        lang_sc: list,
    })
}

// Sixteen names in each list, of which the last one is common, and a key of two blocks.
fn keys_are_made() -> bool {
    let (Some(client), Some(server)) = (
        ten_lists(b"a,b,c,d,e,f,g,h,i,j,k,l,m,n,o,p"),
        ten_lists(b"A,B,C,D,E,F,G,H,I,J,K,L,M,N,O,p"),
    ) else {
        return false;
    };
    let is_chosen = choose(&client, &server).is_ok_and(|choice| choice.comp_sc.as_bytes()
        == b"p".as_slice());
    let mut key = [0; 64];
    derive(&[3; 32], &[4; 32], KeyPurpose::D, &[5; 32], &mut key);
    is_chosen
        && guess_wrong(&client, &server)
        && markers(&client) == (false, false)
        && key != [0; 64]
}

fn line_is_taken() -> bool {
    let mut lines = LineReader::new(false);
    matches!(lines.take(b"SSH-2.0-c\r\n"), (11, LineStep::Version { .. }))
}

fn is_newkeys(payload: &[u8]) -> bool {
    decode(false, payload) == Ok(Message::NewKeys)
}

// No request, a password, and whether a key would do. A signature is over a text, which takes memory.
fn user_is_judged(server: &mut AuthServer, client: &mut AuthClient) -> bool {
    server.open();
    client.open();
    let probe = UserAsk::Probe {
        user: b"u",
        algorithm: b"toy@example.com",
        key: b"k",
    };
    let password = UserAsk::Password {
        user: b"u",
        password: b"p",
    };
    is_answered(server, client, &UserAsk::None { user: b"u" })
        && is_answered(server, client, &probe)
        && is_answered(server, client, &password)
}

// Whether the client asks, the server answers, and the client takes the answer.
fn is_answered(server: &mut AuthServer, client: &mut AuthClient, ask: &UserAsk<'_>) -> bool {
    let judge = ToyJudge {
        credentials: CREDENTIALS,
    };
    let Ok(request) = client.ask(&SESSION, &ToyUserSigner, ask) else {
        return false;
    };
    let message = request.message();
    let Ok(answer) = server.take(&SESSION, &judge, &message) else {
        return false;
    };
    match server.message(&answer) {
        Some(reply) => client.take(&reply).is_ok(),
        None => false,
    }
}

// A channel that is none, a rekey before anyone is let in, and a second pair of cookie and secret.
fn asks_are_refused(channels: &mut Channels, end: &mut ToyEnd, out: &mut Vec<u8>) -> bool {
    let close = Ask::Close { channel: 0 };
    let is_refused = channels.ask(&close, false, false).is_err()
        && end.ask(&EndAsk::Rekey, out).is_err();
    let is_fed = end.feed_material([1; 16], [1; 32]);
    is_refused && is_fed && !end.feed_material([2; 16], [2; 32]) && !end.is_dead()
}
