//! The decisions by the side of an end: which message ends an exchange for it, whether it asks for the service and which service message it
//! may take, whose lists choose, whose lines and KEXINITs come first in the exchange hash, and which keys are of its direction.

ghost use Rattle.std.specs.Prelude.{◌≡◌, ◌≤◌, IfOk, if◌then◌else◌, length, true};
ghost use Rattle.ssh_model.specs.Protocol.Bounds.{largest_packet};
ghost use Rattle.ssh_model.specs.Laws.KeyExchange.{IsChoice, Fits};
ghost use Rattle.ssh_model.specs.Protocol.KeyExchange.Exchanges as model;
ghost use Rattle.ssh_model.specs.Protocol.KeyExchange.Exchanges.{cipher_letter, has_marker, iv_letter, mac_letter};
ghost use Rattle.ssh_model.specs.Protocol.Sessions.Parties.{extension_marker_of, lists_of as lists_offered, marker_of};
ghost use Rattle.ssh_model.specs.Protocol.Sessions.Phases as phases;
ghost use Rattle.ssh_model.specs.Protocol.Side.{peer};
ghost use Rattle.ssh_model.specs.Protocol.Wire.DataTypes.{number};
ghost use Rattle.ssh_model.specs.State.TransportLayer.Kept.{choice_with, has_choice_with, own_offer, takes_service};
ghost use Rattle.ssh_types.specs.Values.{names};
ghost use Rattle.ssh_kex.specs.Values.{chosen_of, inputs_of, letter_of, lists_of};
ghost use Rattle.ssh_transport_machine.specs.Finishing.{AreKnown, is_choice_with, key_by};
ghost use Rattle.ssh_transport_machine.specs.Hashing.{inputs_in};

use crate::key_making::{Agreed, key_from};
use crate::machine::Machine;
use crate::machine::hashing::ExchangeValues;
use ssh_kex::{Choice, ExchangeInputs, KexLists, KeyPurpose, choose, extension_markers, markers};
use ssh_packet::Sealing;
use ssh_types::{Side, laws};
use std::alloc::AllocError;

impl<S: Sealing> Machine<S> {
    /// Tests whether this end is the one that asks for the service, which a client is (RFC 4253 section 10).
    pub fn asks_for_service(&self) -> bool
        ensures { result ≡ phases.is_client self.now.kept.side }
    {
        match self.side {
            Side::Client => true,
            Side::Server => false,
        }
    }

    // A message of service that may come.
    pub(crate) fn takes_service(&self, number: u8) -> bool
        ensures { result ≡ takes_service self.now.kept.side self.now.kept.requested self.now.kept.accepted number }
    {
        match self.side {
            Side::Client => number == 6 && self.requested && !self.accepted,
            Side::Server => number == 5 && !self.requested,
        }
    }

    // Each kind has a common name in the lists of this end and of the peer.
    pub(crate) fn can_choose(&self, theirs: &KexLists<'_>) -> bool
        ensures { result ≡ has_choice_with self.now.kept.side (lists_offered (own_offer self.now.kept.settings self.now.kept.side))
            (lists_of theirs.now) }
    {
        let own = self.own_lists();
        match self.side {
            Side::Client => choose(&own, theirs).is_ok(),
            Side::Server => choose(theirs, &own).is_ok(),
        }
    }

    // The choice of the lists of this end and of the peer.
    pub(crate) fn choice_of<'a>(&'a self, own: &KexLists<'a>, theirs: &KexLists<'a>) -> Choice<'a>
        requires { has_choice_with self.now.kept.side (lists_of own.now) (lists_of theirs.now) ≡ true }
        ensures chosen { chosen_of result ≡ choice_with self.now.kept.side (lists_of own.now) (lists_of theirs.now) }
        ensures is_choice { is_choice_with self.now.kept.side (lists_of own.now) (lists_of theirs.now) (chosen_of result) }
    {
        match self.side {
            Side::Client => chosen(own, theirs),
            Side::Server => chosen(theirs, own),
        }
    }

    // What both ends hash.
    pub(crate) fn inputs<'a>(&'a self, values: &ExchangeValues<'a>) -> ExchangeInputs<'a>
        requires { length values.now.host_key.now ≤ largest_packet }
        ensures inputs { inputs_of result ≡ inputs_in self.now.kept.side self.now.kept values.now.host_key.now values.now.client.now
            values.now.server.now (number values.now.shared.now) }
        ensures fits { Fits (inputs_of result) }
    {
        let shared = values.shared;
        ssh_kex::laws::short_number(shared);
        laws::has_32_bytes(shared);
        laws::has_32_bytes(values.client);
        laws::has_32_bytes(values.server);
        let own_line = self.config.line();
        let line = self.line();
        let own = self.own.as_slice();
        let theirs = self.theirs.as_slice();
        match self.side {
            Side::Client => ExchangeInputs {
                client_version: own_line,
                server_version: line,
                client_init: own,
                server_init: theirs,
                host_key: values.host_key,
                client_point: values.client,
                server_point: values.server,
                shared: values.shared,
            },
            Side::Server => ExchangeInputs {
                client_version: line,
                server_version: own_line,
                client_init: theirs,
                server_init: own,
                host_key: values.host_key,
                client_point: values.client,
                server_point: values.server,
                shared: values.shared,
            },
        }
    }

    // The key of the direction from this side.
    pub(crate) fn key_of_side(
        &self,
        from: Side,
        agreed: &Agreed<'_>,
        choice: &Choice<'_>,
    ) -> Result<S::Key, AllocError>
        requires { AreKnown S.crypto (chosen_of choice.now) }
        ensures { IfOk result (λ key. key ≡ key_by S.crypto from (chosen_of choice.now) (number agreed.now.shared.now)
            agreed.now.hash.now agreed.now.session.now) }
    {
        match from {
            Side::Client => key_from::<S>(
                self.alloc,
                Side::Client,
                agreed,
                choice.enc_cs.as_bytes(),
                choice.mac_cs.as_bytes(),
            ),
            Side::Server => key_from::<S>(
                self.alloc,
                Side::Server,
                agreed,
                choice.enc_sc.as_bytes(),
                choice.mac_sc.as_bytes(),
            ),
        }
    }
}

// The message of the exchange that comes from the peer.
pub(crate) fn awaited(side: Side) -> u8
    ensures { result ≡ phases.awaited side }
{
    match side {
        Side::Server => 30,
        Side::Client => 31,
    }
}

// The lines are those of a server.
pub(crate) fn reads_server(side: Side) -> bool
    ensures { result ≡ phases.is_client side }
{
    match side {
        Side::Client => true,
        Side::Server => false,
    }
}

// The peer's marker of strict key exchange stands in its kex list.
pub(crate) fn peer_marker(side: Side, lists: &KexLists<'_>) -> bool
    ensures { result ≡ has_marker (marker_of (peer side)) (names lists.now.kex) }
{
    of_peer(side, markers(lists))
}

// The peer's marker of extensions stands in its kex list.
pub(crate) fn peer_extension_marker(side: Side, lists: &KexLists<'_>) -> bool
    ensures { result ≡ has_marker (extension_marker_of (peer side)) (names lists.now.kex) }
{
    of_peer(side, extension_markers(lists))
}

// What holds of the peer, of what holds of a client and of a server.
fn of_peer(side: Side, holds: (bool, bool)) -> bool
    ensures { result ≡ (if phases.is_client side then holds.1 else holds.0) }
{
    match side {
        Side::Client => holds.1,
        Side::Server => holds.0,
    }
}

// The choice of a client's lists and a server's.
fn chosen<'a>(client: &KexLists<'a>, server: &KexLists<'a>) -> Choice<'a>
    requires { model.has_choice (lists_of client.now) (lists_of server.now) ≡ true }
    ensures chosen { chosen_of result ≡ model.chosen (lists_of client.now) (lists_of server.now) }
    ensures is_choice { IsChoice (lists_of client.now) (lists_of server.now) (chosen_of result) }
{
    match choose(client, server) {
        Ok(choice) => choice,
        Err(_) => unreachable!(),
    }
}

// The letter of a direction's IV.
pub(crate) fn iv_of(from: Side) -> KeyPurpose
    ensures { letter_of result ≡ iv_letter from }
{
    match from {
        Side::Client => KeyPurpose::A,
        Side::Server => KeyPurpose::B,
    }
}

// The letter of its cipher key.
pub(crate) fn cipher_of(from: Side) -> KeyPurpose
    ensures { letter_of result ≡ cipher_letter from }
{
    match from {
        Side::Client => KeyPurpose::C,
        Side::Server => KeyPurpose::D,
    }
}

// The letter of its MAC key.
pub(crate) fn mac_of(from: Side) -> KeyPurpose
    ensures { letter_of result ≡ mac_letter from }
{
    match from {
        Side::Client => KeyPurpose::E,
        Side::Server => KeyPurpose::F,
    }
}
