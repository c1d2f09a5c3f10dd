//! What one end has and the other does not.

ghost use Rattle.std.specs.Prelude.{◌≡◌, ◌≤◌, IfErr, IfOk, OnErr, false, map};
ghost use Rattle.ssh_model.specs.Protocol.Authentication.Requests.{Judge};
ghost use Rattle.ssh_model.specs.Protocol.Sessions.Parties.{Parties};
ghost use Rattle.ssh_model.specs.Protocol.Sessions.Turns.{number_of};
ghost use Rattle.ssh_transport_machine.specs.Padding.{PadsTo};
ghost use Rattle.ssh_transport.specs.States.{sending_of};
ghost use Rattle.ssh_transport_machine.specs.Puts.{listed_outs};
ghost use Rattle.ssh_end_machine.specs.Above.{CanFinish, OnJudged, OnMemory};
ghost use Rattle.ssh_end_machine.specs.Asking.{Asks, ChannelsAsked, EndsAlone, Fails, KeepsDead, KeepsLayers};
ghost use Rattle.ssh_end_machine.specs.Asking.{OnAnswered, UserSignatures, ask_of};
ghost use Rattle.ssh_end_machine.specs.Following.{Follows, FollowsOn, FollowsThen, LetsIn};
ghost use Rattle.ssh_end_machine.specs.RoleValues.{RoleValue};
ghost use Rattle.ssh_end_machine.specs.Judging.{JudgeNeedsMemory, JudgesPayload};
ghost use Rattle.ssh_config.specs.Meaning.{settings_of};
ghost use Rattle.ssh_end_machine.specs.Login.{new_login, side_of};
ghost use Rattle.ssh_end_machine.specs.Places.{HasParts};
ghost use Rattle.ssh_end_machine.specs.Reading.{SameReading};

use crate::asking::{Ask, AskStep, Fault};
use crate::layers::{Layers, Login};
use crate::replying::ServiceReply;
use ssh_config::Config;
use ssh_transport::{Role, Transport};
use ssh_types::{CallError, Refusal};
use std::alloc::{AllocError, Global};

/// What the layers above a transport make of a payload, or why they make nothing of it.
pub type ServiceVerdict = Result<ServiceReply, CallError<Refusal>>;

/// What one end has and the other does not: its part in an exchange of keys, and the judge of its users, or the signer for its user. A
/// `Party` is such a role.
pub trait EndRole: Drop {
    /// What it does in an exchange of keys.
    type Exchange: Role;

    ghost is_of: { Self.Exchange → Self → Parties Self.Exchange.Sealing.Key → Type 0 };

    ghost judging: { Self → Judge };

    ghost signing: { Self → UserSignatures };

    /// Has the layers above the transport judge the payload that is shown, from 50 on, and encodes the reply to it.
    ///
    /// # Errors
    ///
    /// - `Refused`: the peer is refused, by the layers or because no number is left for the reply (`NumberSpent`).
    /// - `Memory`: memory was refused.
    fn judge(&self, transport: &Transport<Self::Exchange>, layers: &mut Layers) -> ServiceVerdict
        // What the caller must ensure.
        requires above { 50 ≤ number_of transport.now.machine.receiver.payload }
        requires alive { transport.now.machine.kept.dead ≡ false }
        requires let_in { LetsIn transport.now.machine }
        requires follows { Follows transport.now.machine.kept layers.old.authentication }
        // What it does.
        ensures judged { OnJudged result (λ given. JudgesPayload (judging self.now) transport.now.machine layers.old given layers.new) }
        ensures needs_memory { OnMemory result (JudgeNeedsMemory (judging self.now) transport.now.machine layers.old) }
        ensures can { OnJudged result (λ given. CanFinish transport.now.machine given) }
        // What goes on holding.
        ensures follows { OnJudged result (λ given. FollowsThen transport.now.machine given layers.new.authentication) }
        ensures side { side_of layers.new.authentication ≡ side_of layers.old.authentication };

    /// Does what a user asks for, or refuses the ask.
    ///
    /// # Errors
    ///
    /// - `Ask`: the ask is refused, by the first refusal that holds. Nothing changes.
    /// - `Memory`: memory was refused. Nothing is put out, and the end is over.
    /// - `Dead`: the end was over before. Nothing changes.
    fn ask(
        &self,
        transport: &mut Transport<Self::Exchange>,
        layers: &mut Layers,
        ask: &Ask<'_>,
        out: &mut Vec<u8>,
        sent: &mut Vec<Vec<u8>>,
    ) -> Result<AskStep, Fault>
        // What the caller must ensure.
        requires follows { FollowsOn transport.old.machine layers.old.authentication }
        // What it does.
        ensures asks { Asks Self.Exchange.Sealing.crypto (signing self.now) transport.old.machine layers.old (ask_of ask.now) result
            transport.new.machine layers.new (listed_outs out.old out.new sent.old sent.new) }
        ensures over { IfOk result (λ step. EndsAlone transport.old.machine ask.now step.refused transport.new.machine) }
        // If it fails.
        ensures fails { IfErr result (λ fault. Fails transport.old.machine fault transport.new.machine) }
        ensures unchanged { IfErr result (λ fault. KeepsDead transport.old fault transport.new) }
        ensures layers { IfErr result (λ fault. KeepsLayers layers.old fault layers.new) }
        ensures asked_channels { ChannelsAsked layers.old.channels ask.now layers.new.channels }
        ensures reading { transport.new.machine.kept.dead ≡ false → SameReading transport.old.machine transport.new.machine }
        ensures out { OnErr result (out.new.items ≡ out.old.items) }
        ensures kept { OnErr result (map (λ v. v.items) sent.new.items ≡ map (λ v. v.items) sent.old.items) }
        // The role stays. Where the padding comes from.
        ensures padded { OnAnswered result (PadsTo Self.Exchange.Sealing.crypto Self.Exchange.Filler.gives
            (sending_of transport.old out.old sent.old) (sending_of transport.new out.new sent.new)) }
        ensures follows { FollowsOn transport.new.machine layers.new.authentication }
        ensures role { transport.new.role ≡ transport.old.role };

    /// A role whose parts are those of an end of parties has what that end has. A fact for proofs, at no cost.
    fn has_parts()
        ensures { HasParts Self.Exchange.SIDE (λ (w : RoleValue Self.Exchange Self) p. is_of w.exchange w.own p)
            (λ w p. Self.Exchange.is_of w.exchange p) (λ w. judging w.own) (λ w. signing w.own) };
}

/// A role that is made from the judge of its users, or the signer for its user. Its transport is made from the parts that a caller
/// supplies.
pub trait SuppliedEnd: EndRole {
    /// The judge of a server's users, or the signer for a client's user.
    type User: Drop;

    ghost is_made_of: { Self → Self.User → Type 0 };

    /// The role that is made from it.
    fn of(user: Self::User) -> Self
        ensures { is_made_of result user };

    /// What a new end of this role and these settings keeps of authentication.
    ///
    /// # Errors
    ///
    /// Only if memory is refused.
    fn login(
        alloc: Global,
        config: &Config<<Self::Exchange as Role>::Sealing>,
    ) -> Result<Login, AllocError>
        ensures { IfOk result (λ login. login ≡ new_login Self.Exchange.SIDE (settings_of config.now).tries
            (settings_of config.now).methods) };
}
