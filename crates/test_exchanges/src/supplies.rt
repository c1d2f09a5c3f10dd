//! A client and a server over real parts exchange keys three times, each kept fed by a `KeySupply` over bytes that only count. Printed is
//! the draw that each cookie and each public value is of. The first draw of a supply gives the first cookie, the second the first secret,
//! the third the key of the padding, and each exchange of keys takes the next two. So a draw that is used twice, one that is left out, or a
//! secret that was never drawn is seen here. The last line is of draws from the system.

mod line;
mod parts;

use divrelca::{
    AcceptedKey, Ask, Ed25519Signer, Ed25519Trust, End, KeySupply, RandomBytes, UserAsk,
};
use line::{Line, Seen, ask, take_all};
use parts::{client_end, server_end};
use ssh_packet::Filler;
use std::alloc::Global;

// The draws of the client count from 1 on, and those of the server after this one.
const BEFORE_SERVER: u8 = 100;

/// Plays the session, and prints the draw that each cookie and each public value is of.
///
/// # Errors
///
/// Memory is refused, or an end refuses the other; or what is printed can't be written.
pub fn show_draws(rt: &HostRuntime) -> anyhow::Result<()> {
    let alloc = rt.alloc();
    let mut client = Line::new(alloc, 0);
    let mut server = Line::new(alloc, BEFORE_SERVER);
    play(alloc, &mut client, &mut server)?;
    show(rt, "client", &client.seen)?;
    show(rt, "server", &server.seen)?;
    show_system(rt)
}

// Prints whether what a supply draws from the system differs from draw to draw, and is no zeros: a source that draws nothing has no clause
// against it.
fn show_system(rt: &HostRuntime) -> anyhow::Result<()> {
    let mut supply = KeySupply::new(RandomBytes(rt));
    let one = supply.draw()?;
    let other = supply.draw()?;
    let (mut first, mut second) = ([0; 32], [0; 32]);
    supply.padding()?.fill(&mut first);
    supply.padding()?.fill(&mut second);
    let cookies = one.cookie != other.cookie && one.cookie != [0; 16] && other.cookie != [0; 16];
    let secrets = are_drawn(&one.secret, &other.secret);
    let paddings = are_drawn(&first, &second);
    println!(rt; "system: cookies differ {cookies}, secrets {secrets}, padding {paddings}")?;
    Ok(())
}

// Tests whether these differ from each other and from zeros.
fn are_drawn(one: &[u8; 32], other: &[u8; 32]) -> bool {
    one != other && *one != [0; 32] && *other != [0; 32]
}

// The session: keys are exchanged, the user is let in, and each end asks for an exchange in turn.
fn play(alloc: Global, client: &mut Line, server: &mut Line) -> anyhow::Result<()> {
    let host = Ed25519Signer::new(&[11; 32]);
    let user = Ed25519Signer::new(&[12; 32]);
    let trust = trust_in(&host)?;
    let accepted = [AcceptedKey {
        user: b"u",
        public: trust_in(&user)?.public,
    }];
    let login = UserAsk::Sign {
        user: b"u",
        algorithm: b"ssh-ed25519",
        key: user.public_key(),
    };
    let mut at_client = client_end(alloc, &mut client.supply, trust, user, &mut client.out)?;
    let mut at_server = server_end(alloc, &mut server.supply, host, &accepted, &mut server.out)?;
    let asks = [
        (None, Some(Ask::Service)),
        (None, Some(Ask::User(login))),
        (None, Some(Ask::Rekey)),
        (Some(Ask::Rekey), None),
        (None, None),
    ];
    for asks in &asks {
        pass(alloc, &mut at_client, client, &mut at_server, server)?;
        ask_both(&mut at_client, client, &mut at_server, server, asks)?;
    }
    Ok(())
}

// Both ends take what the other put out, until there is nothing more.
fn pass<C: End, S: End>(
    alloc: Global,
    at_client: &mut C,
    client: &mut Line,
    at_server: &mut S,
    server: &mut Line,
) -> anyhow::Result<()> {
    for _ in 0..3 {
        take_all(alloc, at_server, server, client)?;
        take_all(alloc, at_client, client, server)?;
    }
    Ok(())
}

// The server is asked for the first of these, and the client for the second.
fn ask_both<C: End, S: End>(
    at_client: &mut C,
    client: &mut Line,
    at_server: &mut S,
    server: &mut Line,
    (of_server, of_client): &(Option<Ask<'_>>, Option<Ask<'_>>),
) -> anyhow::Result<()> {
    if let Some(of_server) = of_server {
        ask(at_server, server, of_server)?;
    }
    if let Some(of_client) = of_client {
        ask(at_client, client, of_client)?;
    }
    Ok(())
}

// Trust in the key of this signer.
fn trust_in(signer: &Ed25519Signer) -> anyhow::Result<Ed25519Trust> {
    match Ed25519Trust::from_key(signer.public_key()) {
        Some(trust) => Ok(trust),
        None => Err(anyhow::Error::msg("the key is of small order")),
    }
}

// Prints what the peer of an end saw of its draws.
fn show(rt: &HostRuntime, side: &str, seen: &Seen) -> anyhow::Result<()> {
    for cookie in seen.cookies.iter() {
        match draw_of(cookie) {
            Some(draw) => println!(rt; "{side}: a cookie of draw {draw}")?,
            None => println!(rt; "{side}: a cookie of no draw")?,
        }
    }
    for point in seen.points.iter() {
        match secret_of(point.as_slice()) {
            Some(draw) => println!(rt; "{side}: a public value of the secret of draw {draw}")?,
            None => println!(rt; "{side}: a public value of no draw's secret")?,
        }
    }
    Ok(())
}

// The draw that filled these bytes.
fn draw_of(cookie: &[u8; 16]) -> Option<u8> {
    let draw = cookie[0];
    if *cookie == [draw; 16] {
        Some(draw)
    } else {
        None
    }
}

// The draw that filled the secret of this public value (RFC 7748 section 6.1).
fn secret_of(point: &[u8]) -> Option<u8> {
    for draw in 1..=u8::MAX {
        if ciphers::x25519::public(&[draw; 32]).as_slice() == point {
            return Some(draw);
        }
    }
    None
}
