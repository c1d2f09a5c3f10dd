//! The loop of a client that asks about the host.

ghost use Rattle.std.specs.Prelude.{◌≡◌, ◌<◌, ◌≤◌, IfOk, IsSome, List, OnOk, false, length, true};
ghost use Rattle.ssh_model.specs.Protocol.Sessions.Items.{Item};
ghost use Rattle.ssh_model.specs.Protocol.Sessions.Parties.{Parties};
ghost use Rattle.ssh_end_machine.specs.Steps.{Shows, shown_by};
ghost use Rattle.ssh_end_machine.specs.declared.step.Step.TheVariants as step;
ghost use Rattle.ssh_held.specs.HeldHosts.{ClientHeldAt};
ghost use Rattle.example_held.specs.LookUps.{SaidOn, SaidOne};
ghost use Rattle.example_held.specs.Meeting.{IsOnHost, MeetsBy, completed, is_completed_in};
ghost use Rattle.example_held.specs.Turning.{SaysWhether};

use crate::look_up::LookUp;
use ssh_auth::UserSigner;
use ssh_end_machine::{Fault, Told, Turn};
use ssh_held::{HeldClient, HostAsked, KnowsAlgorithms, Taken};
use ssh_kex::HostTrust;
use ssh_model::laws;
use ssh_packet::Sealing;
use ssh_transport_machine::ClientParts;
use std::alloc::Global;

/// How far a client came with bytes of its peer.
#[derive(Clone, Copy, PartialEq, Eq)]
pub struct Met {
    /// How many bytes were used.
    pub used: usize,
    /// Whether an exchange of keys is complete by them. Nothing after it was used.
    pub is_complete: bool,
}

/// Takes bytes that a server sent, until an exchange of keys is complete, or the bytes are used, or the client is over. Where the client
/// wants an answer on the host key, or on its signature by an algorithm that `S` does not know, it asks the look-up, gives the answer, and
/// goes on with the same bytes. In each exchange that the client completed, the look-up had said yes to the very host key, and to such a
/// signature, or the client had been told yes before. This holds for all lawful parties that have this client's parts, and every history
/// after which it stood.
///
/// # Errors
///
/// Those of `ssh_end_machine::End::take_step`, and `Fault::Memory` too if memory was refused for a question or a verdict.
pub fn meet<
    P: ClientParts,
    S: HostTrust + KnowsAlgorithms + Copy + Drop,
    U: UserSigner + Drop,
    L: LookUp<HostAsked>,
>(
    client: &mut HeldClient<P, S, U>,
    look_up: &mut L,
    alloc: Global,
    bytes: &[u8],
    out: &mut Vec<u8>,
) -> Result<Met, Fault>
    ensures used { IfOk result (λ met. met.used ≤ length bytes.now) }
    // All bytes are used, unless it ended early.
    ensures all { IfOk result (λ met. met.is_complete ≡ false → client.new.end.machine.kept.dead ≡ false →
        met.used ≡ length bytes.now) }
    // What the client was told is what the look-up answered.
    ensures said { OnOk result (SaidOn (λ old verdict new. L.answers old verdict.asked verdict.accepts new)
        client.old.end.role.exchange.host_trust.list.items client.new.end.role.exchange.host_trust.list.items look_up.old look_up.new) }
    ensures meets { (p : Parties P.Sealing.Key) (history : List Item) →
        ClientHeldAt P.Sealing.crypto P.Agreement.does S.knows S.judged U.signature_of p client.old.end history →
        MeetsBy P.Sealing.crypto P.Agreement.does S.knows S.judged U.signature_of p history client.old.end bytes.now result client.new.end }
{
    ssh_held::laws::trusted_by_verdict::<<P::Sealing as Sealing>::Key>();
    let mut at = 0;
    while at < bytes.len() {
        if client.end().is_dead() {
            return Ok(Met {
                used: at,
                is_complete: false,
            });
        }
        let met = meet_unit(client, look_up, alloc, bytes.split_at(at).1, out)?;
        at += met.used;
        if met.is_complete {
            return Ok(Met {
                used: at,
                is_complete: true,
            });
        }
    }
    Ok(Met {
        used: at,
        is_complete: false,
    })
}

// The same to the end of one line or one packet.
fn meet_unit<
    P: ClientParts,
    S: HostTrust + KnowsAlgorithms + Copy + Drop,
    U: UserSigner + Drop,
    L: LookUp<HostAsked>,
>(
    client: &mut HeldClient<P, S, U>,
    look_up: &mut L,
    alloc: Global,
    bytes: &[u8],
    out: &mut Vec<u8>,
) -> Result<Met, Fault>
    requires alive { client.old.end.machine.kept.dead ≡ false }
    ensures used { IfOk result (λ met. met.used ≤ length bytes.now) }
    ensures progress { IfOk result (λ met. 0 < length bytes.now → 0 < met.used) }
    ensures said { OnOk result (SaidOn (λ old verdict new. L.answers old verdict.asked verdict.accepts new)
        client.old.end.role.exchange.host_trust.list.items client.new.end.role.exchange.host_trust.list.items look_up.old look_up.new) }
    ensures meets { (p : Parties P.Sealing.Key) (history : List Item) →
        ClientHeldAt P.Sealing.crypto P.Agreement.does S.knows S.judged U.signature_of p client.old.end history →
        MeetsBy P.Sealing.crypto P.Agreement.does S.knows S.judged U.signature_of p history client.old.end bytes.now result client.new.end }
{
    ssh_held::laws::trusted_by_verdict::<<P::Sealing as Sealing>::Key>();
    ssh_held::laws::answer_settles::<P::Sealing>();
    if let Taken::Used(used) = client.take(bytes, out)? {
        return Ok(after_turn(client, used));
    }
    answer(client, look_up, alloc)?;
    if let Taken::Used(used) = client.take(bytes, out)? {
        return Ok(after_turn(client, used));
    }
    // The look-up said yes to the host key, and now has to judge its signature.
    answer(client, look_up, alloc)?;
    match client.take(bytes, out)? {
        Taken::Used(used) => Ok(after_turn(client, used)),
        Taken::Wanted => unreachable!(),
    }
}

// Asks the look-up what the client wanted, and gives the client its answer.
fn answer<
    P: ClientParts,
    S: HostTrust + KnowsAlgorithms + Copy + Drop,
    U: UserSigner + Drop,
    L: LookUp<HostAsked>,
>(client: &mut HeldClient<P, S, U>, look_up: &mut L, alloc: Global) -> Result<(), Fault>
    requires wanted { IsSome client.old.next.algorithm }
    requires alive { client.old.end.machine.kept.dead ≡ false }
    ensures said { OnOk result (SaidOne (λ old verdict new. L.answers old verdict.asked verdict.accepts new) (IsOnHost client.old.next)
        client.old.end.role.exchange.host_trust.list.items client.new.end.role.exchange.host_trust.list.items look_up.old look_up.new) }
    ensures signatures { client.new.end.role.exchange.host_trust.signatures ≡ client.old.end.role.exchange.host_trust.signatures }
    ensures rest { client.new.end ≡ record client.old.end {
      role = record client.old.end.role {
        exchange = record client.old.end.role.exchange { host_trust = client.new.end.role.exchange.host_trust };
      };
    } }
    ensures placed { (p : Parties P.Sealing.Key) (history : List Item) →
        ClientHeldAt P.Sealing.crypto P.Agreement.does S.knows S.judged U.signature_of p client.old.end history →
        ClientHeldAt P.Sealing.crypto P.Agreement.does S.knows S.judged U.signature_of p client.new.end history }
{
    laws::one_message();
    let Some(host) = client.wanted() else {
        unreachable!();
    };
    let Ok(question) = host.question(alloc) else {
        return Err(Fault::Memory);
    };
    let accepts = look_up.answer(&question);
    match client.give(alloc, question, accepts) {
        Ok(()) => Ok(()),
        Err(_) => Err(Fault::Memory),
    }
}

// What was met by the last turn, which used so many bytes.
fn after_turn<P: ClientParts, S: HostTrust + KnowsAlgorithms + Copy + Drop, U: UserSigner + Drop>(
    client: &HeldClient<P, S, U>,
    used: usize,
) -> Met
    ensures used { result.used ≡ used }
    ensures says { (items : List Item) → Shows (shown_by client.now.end.step client.now.end.machine) client.now.end.step items →
        SaysWhether completed items result.is_complete }
    ensures waits { client.now.end.step ≡ step.More → result.is_complete ≡ false }
{
    Met {
        used,
        is_complete: completes(&client.end().last_turn()),
    }
}

// Tests whether an exchange of keys is told as completed.
fn completes(turn: &Turn<'_>) -> bool
    ensures { result ≡ is_completed_in turn.now.told }
{
    match turn.told {
        Some(Told::Completed { .. }) => true,
        _ => false,
    }
}
