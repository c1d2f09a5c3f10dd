//! Which payloads an end may take, by their numbers.

ghost use Rattle.std.specs.Prelude.{◌≡◌, ◌≤◌, ◌-◌, ◌||◌, ◌&&◌, ◌==◌, not, nat_lt};
ghost use Rattle.ssh_model.specs.Protocol.KeyExchange.Exchanges.{has_marker};
ghost use Rattle.ssh_model.specs.Protocol.Sessions.Parties.{extension_marker_of, marker_of};
ghost use Rattle.ssh_model.specs.Protocol.Sessions.Phases as model;
ghost use Rattle.ssh_model.specs.Protocol.Sessions.Turns.{number_of};
ghost use Rattle.ssh_model.specs.Protocol.Wire.Message as messages;
ghost use Rattle.ssh_model.specs.State.TransportLayer.Kept as kept;
ghost use Rattle.ssh_model.specs.State.TransportLayer.Kept.{first_kex, takes_announced};
ghost use Rattle.ssh_config.specs.Meaning.{settings_of};
ghost use Rattle.ssh_transport_machine.specs.State.{before_taken};

use crate::machine::sides::awaited;
use crate::machine::{Machine, Phase};
use ssh_config::Config;
use ssh_packet::Sealing;
use ssh_types::Side;

impl<S: Sealing> Machine<S> {
    // The payload that is shown, of this number below 50, may be taken where the end stands.
    pub(crate) fn takes(&self, number: u8) -> bool
        requires { 1 ≤ self.now.kept.taking.count }
        ensures { result ≡ kept.takes (before_taken self.now.kept) number }
    {
        match self.phase {
            Phase::Start => self.takes_at_first(number),
            Phase::Guessed => 30 <= number && number <= 49,
            Phase::Exchanging => self.takes_with(number) || number == awaited(self.side),
            Phase::Keying => self.takes_with(number) || number == 21,
            Phase::Normal => self.takes_normally(number),
        }
    }

    // Before the first KEXINIT of the peer.
    fn takes_at_first(&self, number: u8) -> bool
        ensures { result ≡ kept.takes_in model.Start (before_taken self.now.kept) number }
    {
        at_first(self.config.strictness().is_required(), number) || number == 20
    }

    // What may come in an exchange besides the message that is awaited.
    fn takes_with(&self, number: u8) -> bool
        ensures { result ≡ model.is_allowed_during_exchange self.now.kept.strict self.now.kept.taking.epoch number }
    {
        if self.taking.epoch() == 0 {
            return at_first(self.strict, number);
        }
        is_generic_transport(number) || is_unassigned_early(number)
    }

    // Outside an exchange.
    fn takes_normally(&self, number: u8) -> bool
        requires { 1 ≤ self.now.kept.taking.count }
        ensures { result ≡ kept.takes_in model.Normal (before_taken self.now.kept) number }
    {
        is_generic_transport(number)
            || self.takes_service(number)
            || (number == 7 && self.takes_announced())
            || (number == 20 && self.authenticated)
            || is_unassigned(number)
    }

    // EXT_INFO may come (RFC 8308 section 2.4).
    fn takes_announced(&self) -> bool
        requires { 1 ≤ self.now.kept.taking.count }
        ensures { result ≡ takes_announced (before_taken self.now.kept) }
    {
        offers_extensions(&self.config, self.side)
            && (self.taking.epoch() == 1 && self.is_first_of_epoch())
    }

    // The packet whose payload is shown is the first one of the epoch.
    fn is_first_of_epoch(&self) -> bool
        requires { 1 ≤ self.now.kept.taking.count }
        ensures { result ≡ (self.now.kept.taking.count - 1 == 0) }
    {
        self.taking.count() == 1
    }
}

/// The first KEXINIT of an end with this config has the marker of extensions.
#[tactic(auto, using(crate::proofs::OwnMarkers::own_extensions))]
pub(crate) fn offers_extensions<S: Sealing>(config: &Config<S>, side: Side) -> bool
    ensures { result ≡ has_marker (extension_marker_of side) (first_kex (settings_of config.now) side) }
{
    ssh_config::laws::every_config_is_good(config);
    config.takes_extensions()
}

/// The first KEXINIT of an end with this config has the marker of strict key exchange.
#[tactic(auto, using(crate::proofs::OwnMarkers::own_strict))]
pub(crate) fn offers_strictness<S: Sealing>(config: &Config<S>, side: Side) -> bool
    ensures { result ≡ has_marker (marker_of side) (first_kex (settings_of config.now) side) }
{
    ssh_config::laws::every_config_is_good(config);
    config.strictness().is_offered()
}

// In the first exchange: DISCONNECT, and where keys are not exchanged strictly the other general messages.
fn at_first(strict: bool, number: u8) -> bool
    ensures { result ≡ model.is_allowed_at_first strict number }
{
    if strict {
        number == 1
    } else {
        is_generic_transport(number)
    }
}

// DISCONNECT, IGNORE, UNIMPLEMENTED and DEBUG.
fn is_generic_transport(number: u8) -> bool
    ensures { result ≡ model.is_generic_transport number }
{
    1 <= number && number <= 4
}

// The number of a message that is known.
fn is_known(number: u8) -> bool
    ensures { result ≡ messages.is_known number }
{
    (1 <= number && number <= 7)
        || (20 <= number && number <= 21)
        || (30 <= number && number <= 31)
        || (50 <= number && number <= 53)
        || number == 60
        || (80 <= number && number <= 82)
        || (90 <= number && number <= 100)
}

// An unknown number below those of the key exchange methods.
fn is_unassigned_early(number: u8) -> bool
    ensures { result ≡ (nat_lt number 30 && not (messages.is_known number)) }
{
    number < 30 && !is_known(number)
}

// An unknown number below those of the connection.
fn is_unassigned(number: u8) -> bool
    ensures { result ≡ model.is_unassigned number }
{
    number < 80 && !is_known(number)
}

// The number of the message of a payload: its first byte.
pub(crate) fn number_in(payload: &[u8]) -> u8
    ensures { result ≡ number_of payload.now }
{
    match payload.first() {
        Some(number) => *number,
        None => 0,
    }
}
