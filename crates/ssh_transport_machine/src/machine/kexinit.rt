//! The judgement of an end on its peer's KEXINIT (RFC 4253 section 7.1).

ghost use Rattle.std.specs.Prelude.{◌≡◌, ◌≤◌, ◌-◌, ◌==◌, ◌&&◌, IfErr, IfOk, Some, not, nat_lt, is_some, cond, if◌then◌else◌};
ghost use Rattle.ssh_model.specs.Protocol.Wire.Message.{Proposal as ModelProposal};
ghost use Rattle.ssh_model.specs.Protocol.KeyExchange.Exchanges.{has_marker};
ghost use Rattle.ssh_model.specs.Protocol.Sessions.Parties.{extension_marker_of, is_required, lists_of as lists_offered, marker_of};
ghost use Rattle.ssh_model.specs.Protocol.Sessions.Phases as model_phase;
ghost use Rattle.ssh_model.specs.Protocol.Sessions.Phases.{is_wrong_guess};
ghost use Rattle.ssh_model.specs.Protocol.Side.{peer};
ghost use Rattle.ssh_model.specs.Protocol.Sessions.Refusals.{first_refusal};
ghost use Rattle.ssh_model.specs.State.TransportLayer.Kept.{becomes_strict, first_kex, offer_checks, own_offer};
ghost use Rattle.ssh_message.specs.Meaning.{proposal_meaning};
ghost use Rattle.ssh_types.specs.Values.{names};
ghost use Rattle.ssh_kex.specs.Values.{lists_of, proposed};
ghost use Rattle.ssh_transport_machine.specs.Kexinits.{AreFacts, IsFine};
ghost use Rattle.ssh_config.specs.Meaning.{settings_of};
ghost use Rattle.ssh_transport_machine.specs.State.{before_taken, noted, phase_of};

use crate::kexinit::{no_names, uncompressed};
use crate::machine::numbers::offers_strictness;
use crate::machine::sides::{peer_extension_marker, peer_marker};
use crate::machine::{Machine, Phase};
use ssh_config::Config;
use ssh_kex::{KexLists, guess_wrong};
use ssh_message::Proposal;
use ssh_packet::Sealing;
use ssh_types::{Refusal, Side};

/// The values that a KEXINIT settles if it is not refused.
#[derive(Clone, Copy)]
pub struct KexinitFacts {
    /// Whether a packet follows that was guessed, and wrongly: it is not read.
    pub wrong: bool,
    /// Whether keys are exchanged strictly from now on.
    pub strict: bool,
    /// Whether the peer takes extensions.
    pub extensions: bool,
}

impl<S: Sealing> Machine<S> {
    /// What a proposal settles that nothing refuses.
    ///
    /// # Errors
    ///
    /// The first refusal of these, in their order: `NotStrict`, `Unexpected`, `NoCommon`, `NoMaterial`.
    pub(crate) fn judge_kexinit(&self, theirs: Proposal<'_>) -> Result<KexinitFacts, Refusal>
        requires { 1 ≤ self.now.kept.taking.count }
        ensures fine { IfOk result (λ facts. IsFine (before_taken self.now.kept) (proposal_meaning theirs.entry) facts) }
        ensures refused { IfErr result (λ why. first_refusal (offer_checks (before_taken self.now.kept)
            (proposal_meaning theirs.entry)) ≡ Some why) }
    {
        let lists = KexLists::from(theirs);
        if self.lacks_marker(&lists) {
            return Err(Refusal::NotStrict);
        }
        if self.comes_late(&lists) {
            return Err(Refusal::Unexpected);
        }
        if !self.can_choose(&lists) {
            return Err(Refusal::NoCommon);
        }
        if self.lacks_material() {
            return Err(Refusal::NoMaterial);
        }
        Ok(self.facts(theirs, &lists))
    }

    // What the proposal settles.
    fn facts(&self, theirs: Proposal<'_>, lists: &KexLists<'_>) -> KexinitFacts
        requires { lists.now ≡ proposed theirs }
        ensures { AreFacts self.now.kept (proposal_meaning theirs.entry) result }
    {
        let own = self.own_lists();
        KexinitFacts {
            wrong: is_wrong(theirs, lists, &own),
            strict: self.strict_with(lists),
            extensions: self.extensions_with(lists),
        }
    }

    // Keys are exchanged strictly with this KEXINIT: the first one settles it.
    fn strict_with(&self, lists: &KexLists<'_>) -> bool
        ensures { (theirs : ModelProposal) → theirs.kex ≡ names lists.now.kex →
            result ≡ (if self.now.kept.taking.epoch == 0 then becomes_strict self.now.kept theirs else self.now.kept.strict) }
    {
        if self.taking.epoch() == 0 {
            makes_strict(&self.config, self.side, lists)
        } else {
            self.strict
        }
    }

    // The peer takes extensions with this KEXINIT: the first one settles it.
    fn extensions_with(&self, lists: &KexLists<'_>) -> bool
        ensures { result ≡ (if self.now.kept.taking.epoch == 0 then has_marker (extension_marker_of (peer self.now.kept.side))
            (names lists.now.kex) else self.now.kept.peer_takes_extensions) }
    {
        if self.taking.epoch() == 0 {
            peer_extension_marker(self.side, lists)
        } else {
            self.peer_takes_extensions
        }
    }

    // The peer's first KEXINIT lacks its marker, and it is required.
    fn lacks_marker(&self, lists: &KexLists<'_>) -> bool
        ensures { result ≡ (self.now.kept.taking.epoch == 0 && is_required self.now.kept.settings.strictness
            && not (has_marker (marker_of (peer self.now.kept.side)) (names lists.now.kex))) }
    {
        self.taking.epoch() == 0
            && self.config.strictness().is_required()
            && !peer_marker(self.side, lists)
    }

    // The peer's first KEXINIT makes key exchange strict, and is not its first packet.
    fn comes_late(&self, lists: &KexLists<'_>) -> bool
        requires { 1 ≤ self.now.kept.taking.count }
        ensures { (theirs : ModelProposal) → theirs.kex ≡ names lists.now.kex →
            result ≡ (self.now.kept.taking.epoch == 0 && (becomes_strict self.now.kept theirs
            && nat_lt 0 (self.now.kept.taking.count - 1))) }
    {
        self.taking.epoch() == 0
            && (makes_strict(&self.config, self.side, lists) && self.had_packets())
    }

    // A packet was taken in the epoch before the one whose payload is shown.
    fn had_packets(&self) -> bool
        requires { 1 ≤ self.now.kept.taking.count }
        ensures { result ≡ nat_lt 0 (self.now.kept.taking.count - 1) }
    {
        1 < self.taking.count()
    }

    /// The lists of this end, without markers.
    pub(crate) fn own_lists(&self) -> KexLists<'_>
        ensures { lists_of result ≡ lists_offered (own_offer self.now.kept.settings self.now.kept.side) }
    {
        KexLists {
            kex: self.config.kex(),
            host: self.config.host(),
            enc_cs: self.config.encryption(),
            enc_sc: self.config.encryption(),
            mac_cs: self.config.mac(),
            mac_sc: self.config.mac(),
            comp_cs: uncompressed(),
            comp_sc: uncompressed(),
            lang_cs: no_names(),
            lang_sc: no_names(),
        }
    }

    // A KEXINIT would have to be sent, and there is no pair for it.
    fn lacks_material(&self) -> bool
        ensures { result ≡ (not self.now.kept.blocked && not (is_some self.now.kept.material)) }
    {
        !self.blocked && !self.has_material()
    }

    /// Keeps the KEXINIT whose payload is shown, and the values that it settles. It needs no memory.
    pub fn record_kexinit(&mut self, facts: KexinitFacts)
        ensures { self.new ≡ record self.old {
          kept = noted facts.wrong facts.strict facts.extensions self.old.receiver.payload
              self.old.kept;
        } }
    {
        self.theirs.set(self.taking.payload());
        self.phase = phase_after(facts.wrong);
        self.strict = facts.strict;
        self.peer_takes_extensions = facts.extensions;
    }

    /// The packet after a wrong guess was passed over (RFC 4253 section 7).
    pub fn skip_guessed(&mut self)
        ensures { self.new ≡ record self.old { kept = record self.old.kept { phase = model_phase.Exchanging } } }
    {
        self.phase = Phase::Exchanging;
    }

    /// A pair of cookie and secret is kept.
    pub fn has_material(&self) -> bool
        ensures { result ≡ is_some self.now.kept.material }
    {
        self.material.is_some()
    }
}

// What is awaited after a KEXINIT.
fn phase_after(wrong: bool) -> Phase
    ensures { phase_of result ≡ cond wrong model_phase.Guessed model_phase.Exchanging }
{
    if wrong {
        Phase::Guessed
    } else {
        Phase::Exchanging
    }
}

// Both ends offer strict key exchange.
fn makes_strict<S: Sealing>(config: &Config<S>, side: Side, lists: &KexLists<'_>) -> bool
    ensures { result ≡ (has_marker (marker_of side) (first_kex (settings_of config.now) side)
        && has_marker (marker_of (peer side)) (names lists.now.kex)) }
{
    offers_strictness(config, side) && peer_marker(side, lists)
}

// A guess came, and it is wrong.
fn is_wrong(theirs: Proposal<'_>, lists: &KexLists<'_>, own: &KexLists<'_>) -> bool
    requires { lists.now ≡ proposed theirs }
    ensures { (ours : ModelProposal) → lists_offered ours ≡ lists_of own.now →
        result ≡ is_wrong_guess (proposal_meaning theirs.entry) ours }
{
    theirs.follows && guess_wrong(lists, own)
}
