//! Asks for a request of a user, at a client.

ghost use Rattle.ssh_transport_machine.specs.Padding.{PadsTo};
ghost use Rattle.ssh_transport.specs.States.{sending_of};
ghost use Rattle.ssh_transport_machine.specs.Puts.{listed_outs};
ghost use Rattle.std.specs.Prelude.{◌≡◌, IfErr, IfOk, OnErr, List, Some, length, map, true, ℕ, false};
ghost use Rattle.ssh_model.specs.Protocol.Wire.Message.{FitsContext};
ghost use Rattle.ssh_auth.specs.Asking.{ask_of};
ghost use Rattle.ssh_end_machine.specs.Asking.{EndsSpent, Fails, GivenFails, KeepsDead, KeepsLayers, OnAnswered, RequestSent, UserRow};
ghost use Rattle.ssh_transport.specs.Roles.{KeepsUser};
ghost use Rattle.ssh_end_machine.specs.Following.{FollowsOn, MayGo};
ghost use Rattle.ssh_end_machine.specs.declared.layers.login.Login.TheVariants as Login;
ghost use Rattle.ssh_end_machine.specs.Reading.{SameReading};

use crate::asking::memory::lack_memory;
use crate::asking::outcome::{AskStep, Fault, outcome_step};
use crate::asking::transport::send_message;
use ssh_auth::{AuthClient, UserAsk, UserRequest, UserSigner};
use ssh_transport::{Role, Transport};
use ssh_types::CallError;

/// Asks authentication for a request, and sends it.
///
/// # Errors
///
/// - `Ask`: the ask is refused, by the first refusal that holds. Nothing changes.
/// - `Memory`: memory was refused. Nothing is put out, and the end is over.
/// - `Dead`: the end was over before. Nothing changes.
#[tactic(auto, using(crate::proofs::Padding::answered, crate::proofs::Padding::pads_none))]
pub fn ask_user<X: Role, U: UserSigner>(
    transport: &mut Transport<X>,
    client: &mut AuthClient,
    signer: &U,
    ask: &UserAsk<'_>,
    out: &mut Vec<u8>,
    sent: &mut Vec<Vec<u8>>,
) -> Result<AskStep, Fault>
    // What the caller must ensure.
    requires follows { FollowsOn transport.old.machine (Login.Client client.old) }
    // What it does.
    ensures row { UserRow X.Sealing.crypto (U.signature_of signer.now) transport.old.machine client.old (ask_of ask.now) result
        transport.new.machine client.new (listed_outs out.old out.new sent.old sent.new) }
    ensures over { IfOk result (λ step. EndsSpent transport.old.machine step.refused transport.new.machine) }
    // If it fails.
    ensures fails { IfErr result (λ fault. Fails transport.old.machine fault transport.new.machine) }
    ensures unchanged { IfErr result (λ fault. KeepsDead transport.old fault transport.new) }
    ensures layers { IfErr result (λ fault. KeepsLayers client.old fault client.new) }
    ensures reading { transport.new.machine.kept.dead ≡ false → SameReading transport.old.machine transport.new.machine }
    ensures out { OnErr result (out.new.items ≡ out.old.items) }
    ensures kept { OnErr result (map (λ v. v.items) sent.new.items ≡ map (λ v. v.items) sent.old.items) }
    // The role stays. Where the padding comes from.
    ensures follows { FollowsOn transport.new.machine (Login.Client client.new) }
    ensures role { transport.new.role ≡ transport.old.role }
    ensures padded { OnAnswered result (PadsTo X.Sealing.crypto X.Filler.gives (sending_of transport.old out.old sent.old)
        (sending_of transport.new out.new sent.new)) }
{
    ssh_transport::laws::transport_stands(transport);
    if transport.is_dead() {
        return Err(Fault::Dead);
    }
    let session = session_of(transport);
    match client.ask(&session, signer, ask) {
        Ok(request) => send_request(transport, &request, out, sent),
        Err(CallError::Refused(why)) => Err(Fault::Ask(why)),
        Err(CallError::Memory) => lack_memory(transport),
    }
}

/// The session id. Before there is one, no payload from 50 on comes, authentication refuses each ask, and no text with it is signed: these
/// are 32 zeros.
pub fn session_of<X: Role>(transport: &Transport<X>) -> [u8; 32]
    ensures id { (session : List ℕ) → transport.now.machine.kept.session ≡ Some session → result ≡ session }
    ensures size { length result ≡ 32 }
{
    let session = match transport.session_id() {
        Some(session) => *session,
        None => [0; 32],
    };
    ssh_types::laws::has_32_bytes(&session);
    session
}

// Sends a request.
fn send_request<X: Role>(
    transport: &mut Transport<X>,
    request: &UserRequest<'_>,
    out: &mut Vec<u8>,
    sent: &mut Vec<Vec<u8>>,
) -> Result<AskStep, Fault>
    // What the caller must ensure.
    requires context { FitsContext true request.now }
    requires goes { MayGo transport.old.machine.kept request.now }
    // What it does.
    ensures sent { IfOk result (λ step. RequestSent X.Sealing.crypto transport.old.machine request.now transport.new.machine
        (listed_outs out.old out.new sent.old sent.new)
        step) }
    ensures over { IfOk result (λ step. EndsSpent transport.old.machine step.refused transport.new.machine) }
    // If it fails.
    ensures failed { IfErr result (λ fault. GivenFails transport.old.machine fault transport.new.machine) }
    ensures fails { IfErr result (λ fault. Fails transport.old.machine fault transport.new.machine) }
    ensures unchanged { IfErr result (λ fault. KeepsDead transport.old fault transport.new) }
    ensures reading { transport.new.machine.kept.dead ≡ false → SameReading transport.old.machine transport.new.machine }
    ensures out { OnErr result (out.new.items ≡ out.old.items) }
    ensures kept { OnErr result (map (λ v. v.items) sent.new.items ≡ map (λ v. v.items) sent.old.items) }
    // The role stays. Where the padding comes from.
    ensures user { transport.new.machine.kept.dead ≡ false → KeepsUser transport.old.machine.kept transport.new.machine.kept }
    ensures role { transport.new.role ≡ transport.old.role }
    ensures padded { OnAnswered result (PadsTo X.Sealing.crypto X.Filler.gives (sending_of transport.old out.old sent.old)
        (sending_of transport.new out.new sent.new)) }
{
    let answer = send_message(transport, &request.message(), out, sent)?;
    Ok(outcome_step(answer))
}
