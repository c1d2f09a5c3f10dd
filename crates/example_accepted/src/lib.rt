//! An example: a server's loop whose own contract says that whoever it let in passed its judge, whatever the client sent.
//!
//! It shows how a program builds on the contract of one end. `new` gives a place of a run at which the end stands (`StandsAt`). Each call
//! takes the end from there to the next place, where it is guarded (`IsGuarded`). The promise of the program follows from `IsGuarded` at
//! the place where its loop ends: the history holds a request that the judge accepts, of the very user whom the end told. Where the program
//! says that nobody was let in, nobody is told in its part of the history. It uses all bytes that it is given.
//!
//! ```rust
//! let is_in = serve(&mut server, bytes_of_the_client, &mut out)?;
//! ```
#![tactic(auto)]

ghost use Rattle.std.specs.Prelude.{◌≡◌, ◌<◌, ◌≤◌, ◌||◌, IfOk, List, false, length, take};
ghost use Rattle.ssh_model.specs.Protocol.Sessions.Items.{Item};
ghost use Rattle.ssh_model.specs.Protocol.Sessions.Parties.{Parties};
ghost use Rattle.example_accepted.specs.Serving.{Serves, is_told_in};

use ssh_auth::UserJudge;
use ssh_end::{Fault, ServerEnd, Told, Turn};
use ssh_model::laws;
use ssh_packet::Sealing;
use ssh_transport::ServerParts;

/// Takes bytes that a client sent, until the server is over, and answers whether the server let a user in by them. If it did, the history
/// from the place at which the server stood holds the request of that user, which its judge accepts. If it did not, no user is told as
/// accepted in what these bytes added to the history. This holds for all lawful parties that have this server's parts, and every history
/// after which it stood.
///
/// # Errors
///
/// Those of `ssh_end::End::take`: memory was refused.
pub fn serve<P: ServerParts, U: UserJudge + Drop>(
    server: &mut ServerEnd<P, U>,
    bytes: &[u8],
    out: &mut Vec<u8>,
) -> Result<bool, Fault>
    ensures serves { IfOk result (λ is_in. (p : Parties P.Sealing.Key) (history : List Item) →
        Serves P.Sealing.crypto P.Agreement.does P.HostSigner.keys U.verdicts p history server.old bytes.now is_in server.new) }
{
    let mut is_in = false;
    let mut at = 0;
    while at < bytes.len() {
        if server.is_dead() {
            return Ok(is_in);
        }
        let (used, is_told) = serve_unit(server, bytes.split_at(at).1, out)?;
        is_in = either(is_in, is_told);
        at += used;
    }
    Ok(is_in)
}

// The same to the end of one line or one packet, with how many bytes were used.
fn serve_unit<P: ServerParts, U: UserJudge + Drop>(
    server: &mut ServerEnd<P, U>,
    bytes: &[u8],
    out: &mut Vec<u8>,
) -> Result<(usize, bool), Fault>
    requires alive { server.old.machine.kept.dead ≡ false }
    ensures used { IfOk result (λ r. r.0 ≤ length bytes.now) }
    ensures progress { IfOk result (λ r. 0 < length bytes.now → 0 < r.0) }
    ensures serves { IfOk result (λ r. (p : Parties P.Sealing.Key) (history : List Item) →
        Serves P.Sealing.crypto P.Agreement.does P.HostSigner.keys U.verdicts p history server.old (take r.0 bytes.now) r.1 server.new) }
{
    laws::end::deliveries::<<P::Sealing as Sealing>::Key>();
    let used = server.take_step(bytes, out)?;
    Ok((used, lets_in(&server.last_turn())))
}

// Tests whether a user is told as accepted.
fn lets_in(turn: &Turn<'_>) -> bool
    ensures { result ≡ is_told_in turn.now.told }
{
    match turn.told {
        Some(Told::Accepted { .. }) => true,
        _ => false,
    }
}

// Tests whether one of them is true.
fn either(one: bool, other: bool) -> bool
    ensures { result ≡ (one || other) }
{
    one || other
}
