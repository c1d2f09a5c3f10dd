//! A server's loop.

ghost use Rattle.std.specs.Prelude.{◌≡◌, ◌<◌, ◌≤◌, IfOk, List, OnOk, false, length, true};
ghost use Rattle.ssh_model.specs.Protocol.Sessions.Items.{Item};
ghost use Rattle.ssh_model.specs.Protocol.Sessions.Parties.{Parties};
ghost use Rattle.ssh_end_machine.specs.Steps.{Shows, shown_by};
ghost use Rattle.ssh_end_machine.specs.declared.step.Step.TheVariants as step;
ghost use Rattle.ssh_held.specs.Held.{HeldAt, session_of, signatures_by};
ghost use Rattle.example_held.specs.LookUps.{SaidOn, SaidOne};
ghost use Rattle.example_held.specs.Serving.{IsOnRequest, ServesTo, is_accepted_in, let_in};
ghost use Rattle.example_held.specs.Turning.{SaysWhether};

use crate::look_up::LookUp;
use ssh_auth::UserJudge;
use ssh_end_machine::{Fault, Told, Turn};
use ssh_held::{Asked, HeldServer, KnowsAlgorithms, Taken};
use ssh_packet::Sealing;
use ssh_transport_machine::ServerParts;
use std::alloc::Global;

/// How far a server came with bytes of its peer.
#[derive(Clone, Copy, PartialEq, Eq)]
pub struct Served {
    /// How many bytes were used.
    pub used: usize,
    /// Whether a user was let in by them. The last turn of the server then tells who, and nothing after it was used.
    pub is_in: bool,
}

/// Takes bytes that a client sent, until a user is let in, or the bytes are used, or the server is over. Where the server wants an answer
/// on a request, it asks the look-up, gives the answer, and goes on with the same bytes. Whoever was let in sent a request to which the
/// look-up had said yes, or the server had been told yes before. This holds for all lawful parties that have this server's parts, and every
/// history after which it stood.
///
/// # Errors
///
/// Those of `ssh_end_machine::End::take_step`, and `Fault::Memory` too if memory was refused for a question or a verdict.
pub fn serve<P: ServerParts, S: UserJudge + KnowsAlgorithms + Copy + Drop, L: LookUp<Asked>>(
    server: &mut HeldServer<P, S>,
    look_up: &mut L,
    alloc: Global,
    bytes: &[u8],
    out: &mut Vec<u8>,
) -> Result<Served, Fault>
    ensures used { IfOk result (λ served. served.used ≤ length bytes.now) }
    // All bytes are used, unless it ended early.
    ensures all { IfOk result (λ served. served.is_in ≡ false → server.new.end.machine.kept.dead ≡ false →
        served.used ≡ length bytes.now) }
    // What the server was told is what the look-up answered.
    ensures said { OnOk result (SaidOn (λ old verdict new. L.answers old verdict.asked verdict.accepts new)
        server.old.end.role.own.judge.list.items server.new.end.role.own.judge.list.items look_up.old look_up.new) }
    ensures serves { (p : Parties P.Sealing.Key) (history : List Item) →
        HeldAt P.Sealing.crypto P.Agreement.does P.HostSigner.keys (signatures_by S.verdicts S.knows) p server.old.end history →
        ServesTo P.Sealing.crypto P.Agreement.does P.HostSigner.keys (signatures_by S.verdicts S.knows) p history server.old.end bytes.now
        result server.new.end }
{
    ssh_held::laws::accepted_by_verdict::<<P::Sealing as Sealing>::Key>();
    let mut at = 0;
    while at < bytes.len() {
        if server.end().is_dead() {
            return Ok(Served {
                used: at,
                is_in: false,
            });
        }
        let served = serve_unit(server, look_up, alloc, bytes.split_at(at).1, out)?;
        at += served.used;
        if served.is_in {
            return Ok(Served {
                used: at,
                is_in: true,
            });
        }
    }
    Ok(Served {
        used: at,
        is_in: false,
    })
}

// The same to the end of one line or one packet.
fn serve_unit<P: ServerParts, S: UserJudge + KnowsAlgorithms + Copy + Drop, L: LookUp<Asked>>(
    server: &mut HeldServer<P, S>,
    look_up: &mut L,
    alloc: Global,
    bytes: &[u8],
    out: &mut Vec<u8>,
) -> Result<Served, Fault>
    requires alive { server.old.end.machine.kept.dead ≡ false }
    ensures used { IfOk result (λ served. served.used ≤ length bytes.now) }
    ensures progress { IfOk result (λ served. 0 < length bytes.now → 0 < served.used) }
    ensures said { OnOk result (SaidOn (λ old verdict new. L.answers old verdict.asked verdict.accepts new)
        server.old.end.role.own.judge.list.items server.new.end.role.own.judge.list.items look_up.old look_up.new) }
    ensures serves { (p : Parties P.Sealing.Key) (history : List Item) →
        HeldAt P.Sealing.crypto P.Agreement.does P.HostSigner.keys (signatures_by S.verdicts S.knows) p server.old.end history →
        ServesTo P.Sealing.crypto P.Agreement.does P.HostSigner.keys (signatures_by S.verdicts S.knows) p history server.old.end bytes.now
        result server.new.end }
{
    ssh_held::laws::accepted_by_verdict::<<P::Sealing as Sealing>::Key>();
    if let Taken::Used(used) = server.take(bytes, out)? {
        return Ok(after_turn(server, used));
    }
    ssh_held::laws::answer_settles::<P::Sealing>();
    answer(server, look_up, alloc)?;
    if let Taken::Used(used) = server.take(bytes, out)? {
        return Ok(after_turn(server, used));
    }
    // The key has its yes now, and the signature is asked about.
    answer(server, look_up, alloc)?;
    match server.take(bytes, out)? {
        Taken::Used(used) => Ok(after_turn(server, used)),
        Taken::Wanted => unreachable!(),
    }
}

// Asks the look-up what the server wanted, and gives the server its answer.
fn answer<P: ServerParts, S: UserJudge + KnowsAlgorithms + Copy + Drop, L: LookUp<Asked>>(
    server: &mut HeldServer<P, S>,
    look_up: &mut L,
    alloc: Global,
) -> Result<(), Fault>
    requires wanted { server.old.next.is_wanted ≡ true }
    requires alive { server.old.end.machine.kept.dead ≡ false }
    requires out { server.old.end.machine.kept.authenticated ≡ false }
    ensures said { OnOk result (SaidOne (λ old verdict new. L.answers old verdict.asked verdict.accepts new)
        (IsOnRequest (S.knows server.old.end.role.own.judge.signatures) server.old.end.role.own.judge.list.items
        (session_of server.old.end.machine) server.old.next.payload)
        server.old.end.role.own.judge.list.items server.new.end.role.own.judge.list.items look_up.old look_up.new) }
    ensures rest { server.new.end ≡ record server.old.end {
      role = record server.old.end.role { own = record server.old.end.role.own { judge = server.new.end.role.own.judge } };
    } }
    ensures signatures { server.new.end.role.own.judge.signatures ≡ server.old.end.role.own.judge.signatures }
    ensures placed { (p : Parties P.Sealing.Key) (history : List Item) →
        HeldAt P.Sealing.crypto P.Agreement.does P.HostSigner.keys (signatures_by S.verdicts S.knows) p server.old.end history →
        HeldAt P.Sealing.crypto P.Agreement.does P.HostSigner.keys (signatures_by S.verdicts S.knows) p server.new.end history }
{
    let Ok(found) = server.question(alloc) else {
        return Err(Fault::Memory);
    };
    let Some(question) = found else {
        unreachable!();
    };
    let accepts = look_up.answer(&question);
    match server.give(alloc, question, accepts) {
        Ok(()) => Ok(()),
        Err(_) => Err(Fault::Memory),
    }
}

// What was served by the last turn, which used so many bytes.
fn after_turn<P: ServerParts, S: UserJudge + KnowsAlgorithms + Copy + Drop>(
    server: &HeldServer<P, S>,
    used: usize,
) -> Served
    ensures used { result.used ≡ used }
    ensures says { (items : List Item) → Shows (shown_by server.now.end.step server.now.end.machine) server.now.end.step items →
        SaysWhether let_in items result.is_in }
    ensures waits { server.now.end.step ≡ step.More → result.is_in ≡ false }
{
    Served {
        used,
        is_in: lets_in(&server.end().last_turn()),
    }
}

// Tests whether a user is told as accepted.
fn lets_in(turn: &Turn<'_>) -> bool
    ensures { result ≡ is_accepted_in turn.now.told }
{
    match turn.told {
        Some(Told::Accepted { .. }) => true,
        _ => false,
    }
}
