//! What an end does on an ask of its user.

ghost use Rattle.ssh_transport_machine.specs.Padding.{PadsTo};
ghost use Rattle.ssh_transport.specs.States.{sending_of};
ghost use Rattle.ssh_transport_machine.specs.Puts.{listed_outs};
ghost use Rattle.std.specs.Prelude.{◌≡◌, IfErr, IfOk, OnErr, cond, map, false};
ghost use Rattle.ssh_model.specs.declared.ask_refusal.AskRefusal.TheVariants.{WrongSide};
ghost use Rattle.ssh_auth.specs.Asking.{ask_of as user_ask_of};
ghost use Rattle.ssh_end_machine.specs.Asking.{AsksRow, ChannelsAsked, EndsAlone, EndsSpent, Fails, KeepsDead, KeepsLayers};
ghost use Rattle.ssh_end_machine.specs.Asking.{KeepsSettings, LoginAskRow, OnAnswered, ask_of};
ghost use Rattle.ssh_end_machine.specs.Following.{FollowsOn};
ghost use Rattle.ssh_end_machine.specs.Reading.{SameReading};
ghost use Rattle.ssh_end_machine.specs.declared.asking.outcome.Fault.TheVariants as fault;

use crate::asking::Ask;
use crate::asking::connection::ask_connection;
use crate::asking::outcome::{AskStep, Fault};
use crate::asking::transport::ask_transport;
use crate::asking::user::ask_user;
use crate::layers::{Layers, Login};
use ssh_auth::{UserAsk, UserSigner};
use ssh_transport::{Role, Transport, TransportAsk};
use ssh_types::AskRefusal;

/// Does what an end is asked for, by the layer that it is for. A client's user signs by this signer.
///
/// # Errors
///
/// - `Ask`: the ask is refused, by the first refusal that holds. Nothing changes.
/// - `Memory`: memory was refused. Nothing is put out, and the end is over.
/// - `Dead`: the end was over before. Nothing changes.
#[tactic(auto, using(crate::proofs::Padding::answered, crate::proofs::Padding::pads_none))]
pub fn take_ask<X: Role, U: UserSigner>(
    transport: &mut Transport<X>,
    layers: &mut Layers,
    signer: &U,
    ask: &Ask<'_>,
    out: &mut Vec<u8>,
    sent: &mut Vec<Vec<u8>>,
) -> Result<AskStep, Fault>
    // What the caller must ensure.
    requires follows { FollowsOn transport.old.machine layers.old.authentication }
    // What it does.
    ensures row { AsksRow X.Sealing.crypto (U.signature_of signer.now) transport.old.machine layers.old (ask_of ask.now) result
        transport.new.machine layers.new (listed_outs out.old out.new sent.old sent.new) }
    ensures settings { KeepsSettings layers.old.authentication layers.new.authentication }
    ensures over { IfOk result (λ step. EndsAlone transport.old.machine ask.now step.refused transport.new.machine) }
    // If it fails.
    ensures fails { IfErr result (λ fault. Fails transport.old.machine fault transport.new.machine) }
    ensures unchanged { IfErr result (λ fault. KeepsDead transport.old fault transport.new) }
    ensures layers { IfErr result (λ fault. KeepsLayers layers.old fault layers.new) }
    ensures asked_channels { ChannelsAsked layers.old.channels ask.now layers.new.channels }
    ensures reading { transport.new.machine.kept.dead ≡ false → SameReading transport.old.machine transport.new.machine }
    ensures out { OnErr result (out.new.items ≡ out.old.items) }
    ensures kept { OnErr result (map (λ v. v.items) sent.new.items ≡ map (λ v. v.items) sent.old.items) }
    // The role stays. Where the padding comes from.
    ensures follows { FollowsOn transport.new.machine layers.new.authentication }
    ensures role { transport.new.role ≡ transport.old.role }
    ensures padded { OnAnswered result (PadsTo X.Sealing.crypto X.Filler.gives (sending_of transport.old out.old sent.old)
        (sending_of transport.new out.new sent.new)) }
{
    match *ask {
        Ask::Service => ask_transport(transport, TransportAsk::Service, out, sent),
        Ask::User(ask) => ask_login(
            transport,
            &mut layers.authentication,
            signer,
            &ask,
            out,
            sent,
        ),
        Ask::Rekey => ask_transport(transport, TransportAsk::Rekey, out, sent),
        Ask::Connection(ask) => ask_connection(transport, &mut layers.channels, &ask, out, sent),
        Ask::Disconnect(description) => {
            ask_transport(transport, TransportAsk::Disconnect(description), out, sent)
        }
    }
}

// Asks for a request of a user. A server makes none.
#[tactic(auto, using(crate::proofs::Padding::answered, crate::proofs::Padding::pads_none))]
fn ask_login<X: Role, U: UserSigner>(
    transport: &mut Transport<X>,
    login: &mut Login,
    signer: &U,
    ask: &UserAsk<'_>,
    out: &mut Vec<u8>,
    sent: &mut Vec<Vec<u8>>,
) -> Result<AskStep, Fault>
    // What the caller must ensure.
    requires follows { FollowsOn transport.old.machine login.old }
    // What it does.
    ensures row { LoginAskRow X.Sealing.crypto (U.signature_of signer.now) transport.old.machine login.old (user_ask_of ask.now) result
        transport.new.machine login.new (listed_outs out.old out.new sent.old sent.new) }
    ensures settings { KeepsSettings login.old login.new }
    ensures over { IfOk result (λ step. EndsSpent transport.old.machine step.refused transport.new.machine) }
    // If it fails.
    ensures fails { IfErr result (λ fault. Fails transport.old.machine fault transport.new.machine) }
    ensures unchanged { IfErr result (λ fault. KeepsDead transport.old fault transport.new) }
    ensures layers { IfErr result (λ fault. KeepsLayers login.old fault login.new) }
    ensures reading { transport.new.machine.kept.dead ≡ false → SameReading transport.old.machine transport.new.machine }
    ensures out { OnErr result (out.new.items ≡ out.old.items) }
    ensures kept { OnErr result (map (λ v. v.items) sent.new.items ≡ map (λ v. v.items) sent.old.items) }
    // The role stays. Where the padding comes from.
    ensures follows { FollowsOn transport.new.machine login.new }
    ensures role { transport.new.role ≡ transport.old.role }
    ensures padded { OnAnswered result (PadsTo X.Sealing.crypto X.Filler.gives (sending_of transport.old out.old sent.old)
        (sending_of transport.new out.new sent.new)) }
{
    match login {
        Login::Server(_) => Err(user_fault(transport)),
        Login::Client(client) => ask_user(transport, client, signer, ask, out, sent),
    }
}

// Why a server makes no request of a user.
fn user_fault<X: Role>(transport: &Transport<X>) -> Fault
    ensures { result ≡ cond transport.now.machine.kept.dead fault.Dead (fault.Ask WrongSide) }
{
    if transport.is_dead() {
        Fault::Dead
    } else {
        Fault::Ask(AskRefusal::WrongSide)
    }
}
