//! Two ends that share the two keys of one epoch.

ghost use Rattle.std.specs.Prelude.{◌≡◌, ◌≤◌, ◌∷◌, [], length, false, true, IfOk, IsErr, OnErr, OnOk};
ghost use Rattle.ssh_model.specs.OneEpoch.Runs as epoch;
ghost use Rattle.ssh_model.specs.OneEpoch.Runs.{World, fresh};
ghost use Rattle.ssh_model.specs.OneEpoch.History.{IsHonestEpoch, TakenInOrder};
ghost use Rattle.ssh_model.specs.Laws.MacOnly.{key_block};
ghost use Rattle.ssh_trace.specs.History.{AreFilled, event_of, events_of, logged};
ghost use Rattle.ssh_trace.specs.Pair.{PairState, Plays, PlaysOne, StandsAt, keys_of};

use crate::deliver::{ask, deliver};
use crate::epoch_end::EpochEnd;
use crate::history::{Event, Memory, Transcript};
use ssh_model::laws;
use ssh_packet::HmacKey;
use ssh_types::Side;
use std::alloc::{AllocError, Global};
use std::marker::Model;

/// Two ends in one sealed epoch, each direction under one key of the sealing `none` with `hmac-sha2-256`. There are no
/// version lines and no exchange, and both numbers begin at zero. The network between them is whatever the events
/// deliver: it may lose, repeat, move and inject bytes.
#[derive(Drop)]
pub struct EpochPair {
    alloc: Global,
    client: EpochEnd,
    server: EpochEnd,
    failed: bool,
}

impl Model for EpochPair {
    ghost use Rattle.ssh_trace.specs.Pair.{PairState, ShareKeys};

    ghost Value = { PairState };

    ghost view = { λ p. record { client = p.client; server = p.server; failed = p.failed } };

    ghost invariant = { λ p. ShareKeys p.client p.server };
}

impl EpochPair {
    /// A pair before its first event, with the MAC keys for the packets that the client sends and for those that the server sends.
    ///
    /// # Errors
    ///
    /// `Memory`: memory was refused.
    pub fn new(
        alloc: Global,
        client_key: &[u8; 32],
        server_key: &[u8; 32],
    ) -> Result<EpochPair, Memory>
        ensures stands { IfOk result (λ pair. StandsAt fresh pair) }
        ensures keys { IfOk result (λ pair. keys_of pair ≡ record {
          client = key_block client_key.now;
          server = key_block server_key.now;
        }) }
        ensures fine { IfOk result (λ pair. pair.failed ≡ false) }
    {
        Ok(EpochPair {
            alloc,
            client: EpochEnd::new(alloc, HmacKey::new(client_key), HmacKey::new(server_key))?,
            server: EpochEnd::new(alloc, HmacKey::new(server_key), HmacKey::new(client_key))?,
            failed: false,
        })
    }

    /// Plays events, and answers the items that they added. An ask for a payload over 34,000 bytes is refused, and an event for
    /// an end that is dead adds nothing.
    ///
    /// # Errors
    ///
    /// `Memory`: the transcript finds no memory. The pair has then failed, and each later call answers `Memory` too.
    pub fn play(&mut self, events: &[Event<'_>]) -> Result<Transcript, Memory>
        requires filled { AreFilled (events_of events.now) }
        ensures failed { self.old.failed ≡ true → IsErr result }
        ensures fails { OnErr result (self.new.failed ≡ true) }
        ensures fine { OnOk result (self.new.failed ≡ false) }
        ensures keys { keys_of self.new ≡ keys_of self.old }

        // The transcript, put after all that was done before, is a run of the two ends on these events.
        ensures plays { IfOk result (λ t. (w : World) → StandsAt w self.old →
            Plays (events_of events.now) self.old self.new t.items.items t.client_bytes.items t.server_bytes.items w) }

        // Where a tag passed only for a payload that the peer had sent under that number, what each side took is a
        // beginning of what the other sent.
        ensures in_order { IfOk result (λ t. (w : World) → StandsAt w self.old → IsHonestEpoch (logged w.run t.items.items) →
            TakenInOrder (logged w.run t.items.items)) }
    {
        laws::taken_in_order();
        if self.failed {
            return Err(Memory);
        }
        let mut transcript = Transcript {
            items: Vec::new(self.alloc),
            client_bytes: Vec::new(self.alloc),
            server_bytes: Vec::new(self.alloc),
        };
        for event in events {
            match self.play_one(*event, &mut transcript) {
                Ok(()) => {}
                Err(_) => {
                    self.failed = true;
                    return Err(Memory);
                }
            }
        }
        Ok(transcript)
    }

    // Plays one event.
    fn play_one(&mut self, event: Event<'_>, transcript: &mut Transcript) -> Result<(), AllocError>
        requires filled { AreFilled (event_of event ∷ []) }
        ensures failed { self.new.failed ≡ self.old.failed }
        ensures keys { keys_of self.new ≡ keys_of self.old }
        ensures plays { OnOk result ((w : World) → StandsAt w self.old → PlaysOne (event_of event.entry) self.old self.new
            transcript.old.items.items transcript.new.items.items transcript.old.client_bytes.items transcript.new.client_bytes.items
            transcript.old.server_bytes.items transcript.new.server_bytes.items w) }
    {
        match event {
            Event::Ask(side, payload) => self.ask(side, payload, transcript),
            Event::Deliver(side, bytes) => self.deliver(side, bytes, transcript),
        }
    }

    // Asks a side to send a payload.
    fn ask(
        &mut self,
        side: Side,
        payload: &[u8],
        transcript: &mut Transcript,
    ) -> Result<(), AllocError>
        requires filled { 1 ≤ length payload.now }
        ensures failed { self.new.failed ≡ self.old.failed }
        ensures keys { keys_of self.new ≡ keys_of self.old }
        ensures plays { OnOk result ((w : World) → StandsAt w self.old → PlaysOne (epoch.Ask side payload.now) self.old self.new
            transcript.old.items.items transcript.new.items.items transcript.old.client_bytes.items transcript.new.client_bytes.items
            transcript.old.server_bytes.items transcript.new.server_bytes.items w) }
    {
        match side {
            Side::Client => ask(
                &mut self.client,
                self.alloc,
                Side::Client,
                payload,
                &mut transcript.items,
                &mut transcript.client_bytes,
            ),
            Side::Server => ask(
                &mut self.server,
                self.alloc,
                Side::Server,
                payload,
                &mut transcript.items,
                &mut transcript.server_bytes,
            ),
        }
    }

    // Delivers bytes to a side. They were sealed under the key of the other.
    fn deliver(
        &mut self,
        side: Side,
        bytes: &[u8],
        transcript: &mut Transcript,
    ) -> Result<(), AllocError>
        ensures failed { self.new.failed ≡ self.old.failed }
        ensures keys { keys_of self.new ≡ keys_of self.old }
        ensures plays { OnOk result ((w : World) → StandsAt w self.old → PlaysOne (epoch.Deliver side bytes.now) self.old self.new
            transcript.old.items.items transcript.new.items.items transcript.old.client_bytes.items transcript.new.client_bytes.items
            transcript.old.server_bytes.items transcript.new.server_bytes.items w) }
    {
        match side {
            Side::Client => deliver(
                &mut self.client,
                self.alloc,
                Side::Client,
                bytes,
                &mut transcript.items,
            ),
            Side::Server => deliver(
                &mut self.server,
                self.alloc,
                Side::Server,
                bytes,
                &mut transcript.items,
            ),
        }
    }
}
