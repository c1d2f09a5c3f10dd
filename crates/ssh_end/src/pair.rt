//! Two ends of SSH-2.

ghost use Rattle.std.specs.Prelude.{◌≡◌, IfOk, IsErr, List, OnErr, OnOk, [], false, true};
ghost use Rattle.ssh_model.specs.Protocol.Sessions.Events as session;
ghost use Rattle.ssh_model.specs.Protocol.Sessions.Items.{Done};
ghost use Rattle.ssh_model.specs.Protocol.Sessions.Parties.{AreLawful, Parties};
ghost use Rattle.ssh_model.specs.Protocol.Sessions.Turns.{Run};
ghost use Rattle.ssh_config.specs.Meaning.{settings_of};
ghost use Rattle.ssh_end_machine.specs.Asking.{ask_of};
ghost use Rattle.ssh_end_machine.specs.Ends.{sending_from_line};
ghost use Rattle.ssh_end_machine.specs.Parts.{IsClientOf, IsServerOf};
ghost use Rattle.ssh_end.specs.TwoEnds.Padding.{PairPads, PairPadsFirst, SameFillers, nothing_shown, shown_in};
ghost use Rattle.ssh_end.specs.TwoEnds.Playing.{GoesOn, PairFeeds, PairMade, PairPlays, Promises, events_of};
ghost use Rattle.ssh_end.specs.TwoEnds.Standing.{SameParts};

use crate::event::Event;
use crate::item::Transcript;
use crate::one_end::{ask_end, deliver_to_end, open_end};
use crate::values::EndValues;
use crate::{Ask, ClientEnd, ClientRole, EndRole, ServerEnd, ServerRole};
use ssh_auth::{UserJudge, UserSigner};
use ssh_model::laws;
use ssh_packet::Sealing;
use ssh_transport_machine::{ClientPartValues, ClientParts, ServerPartValues, ServerParts};
use ssh_types::Side;
use std::alloc::{AllocError, Global};
use std::marker::Model;

/// A client and a server of one sealing. The network between them does whatever the events say.
pub struct Pair<
    S: Sealing,
    C: ClientParts<Sealing = S>,
    U: UserSigner + Drop,
    V: ServerParts<Sealing = S>,
    J: UserJudge + Drop,
> {
    alloc: Global,
    client: ClientEnd<C, U>,
    server: ServerEnd<V, J>,
    failed: bool,
}

impl<
    S: Sealing,
    C: ClientParts<Sealing = S>,
    U: UserSigner + Drop,
    V: ServerParts<Sealing = S>,
    J: UserJudge + Drop,
> Model for Pair<S, C, U, V, J> {
    ghost use Rattle.ssh_end_machine.specs.Ends.{EndValue};
    ghost use Rattle.ssh_end_machine.specs.Parts.{ClientRole, ServerRole};
    ghost use Rattle.ssh_end.specs.TwoEnds.Standing.{PairState};

    ghost Value = { PairState (EndValue S.Key (ClientRole C U S C.Filler C.Agreement C.HostTrust S.Key) C.Filler)
        (EndValue S.Key (ServerRole V J S V.Filler V.Agreement V.HostSigner S.Key) V.Filler) };

    ghost view = { λ pair. record { client = pair.client; server = pair.server; failed = pair.failed } };
}

impl<
    S: Sealing,
    C: ClientParts<Sealing = S>,
    U: UserSigner + Drop,
    V: ServerParts<Sealing = S>,
    J: UserJudge + Drop,
> Drop for Pair<S, C, U, V, J> {
    fn drop(self) {
        let Pair {
            alloc: _,
            client: _,
            server: _,
            failed: _,
        } = self;
    }
}

impl<
    S: Sealing,
    C: ClientParts<Sealing = S>,
    U: UserSigner + Drop,
    V: ServerParts<Sealing = S>,
    J: UserJudge + Drop,
> Pair<S, C, U, V, J> {
    /// Two ends that put out their version lines and first KEXINITs (RFC 4253 sections 4.2 and 7.1), and the transcript of that. Each has
    /// the parts, the user, and the pair of cookie and secret that were handed in for it.
    ///
    /// # Errors
    ///
    /// Only if memory is refused: the values handed in are dropped.
    pub fn new(
        alloc: Global,
        client: EndValues<S, ClientPartValues<C>, U>,
        server: EndValues<S, ServerPartValues<V>, J>,
    ) -> Result<(Pair<S, C, U, V, J>, Transcript), AllocError>
        // What it returns.
        ensures opens { IfOk result (λ r. PairMade ⟦<ClientRole<C, U> as EndRole>⟧ ⟦<ServerRole<V, J> as EndRole>⟧
            (settings_of client.config) (settings_of server.config) (record { cookie = client.cookie; secret = client.secret })
            (record { cookie = server.cookie; secret = server.secret }) r.0 r.1) }
        ensures fine { IfOk result (λ r. r.0.failed ≡ false) }
        ensures client_parts { IfOk result (λ r. IsClientOf client.parts.agreement client.parts.host_trust client.user r.0.client.role) }
        ensures server_parts { IfOk result (λ r. IsServerOf server.parts.agreement server.parts.host_signer server.user r.0.server.role) }
        // Where the padding comes from.
        ensures padded { IfOk result (λ r. PairPadsFirst S.crypto C.Filler.gives V.Filler.gives
            (sending_from_line (settings_of client.config) client.parts.filler [])
            (sending_from_line (settings_of server.config) server.parts.filler []) r.0 (shown_in r.1)) }
    {
        laws::pair::items_stay_on_one_side();
        laws::pair::openings::<S::Key>();
        promises::<S::Key>();
        crate::opening_laws::settings_fit(&client.config);
        crate::opening_laws::settings_fit(&server.config);
        let mut transcript = Transcript::new(alloc);
        let client = open_end::<ClientRole<C, U>>(
            alloc,
            client,
            &mut transcript.items,
            &mut transcript.client_bytes,
        )?;
        let server = open_end::<ServerRole<V, J>>(
            alloc,
            server,
            &mut transcript.items,
            &mut transcript.server_bytes,
        )?;
        let pair = Pair {
            alloc,
            client,
            server,
            failed: false,
        };
        Ok((pair, transcript))
    }

    /// Plays events, and returns what they added to the run. An event for an end that is over adds nothing, and an end to which memory is
    /// refused is over.
    ///
    /// # Errors
    ///
    /// If memory for the transcript is refused, the pair has failed: each later call returns that too.
    pub fn play(&mut self, events: &[Event<'_>]) -> Result<Transcript, AllocError>
        // When it fails, and that it then has failed for good.
        ensures failed { self.old.failed ≡ true → IsErr result }
        ensures fails { OnErr result (self.new.failed ≡ true) }
        ensures fine { OnOk result (self.new.failed ≡ false) }
        // The parts stay.
        ensures parts { SameParts self.old self.new }
        // What is done at both ends, and the claims of the run.
        ensures plays { IfOk result (λ t. PairPlays ⟦<ClientRole<C, U> as EndRole>⟧ ⟦<ServerRole<V, J> as EndRole>⟧ self.old
            (events_of events.now) self.new t) }
        ensures padded { IfOk result (λ t. PairPads S.crypto C.Filler.gives V.Filler.gives self.old self.new
            nothing_shown (shown_in t)) }
    {
        laws::pair::plays_go_on::<S::Key>();
        promises::<S::Key>();
        if self.failed {
            return Err(AllocError);
        }
        let mut transcript = Transcript::new(self.alloc);
        for event in events {
            let played = match *event {
                Event::Ask(side, ask) => self.ask(side, &ask, &mut transcript),
                Event::Deliver(side, bytes) => self.deliver(side, bytes, &mut transcript),
            };
            match played {
                Ok(()) => {}
                Err(_) => {
                    self.failed = true;
                    return Err(AllocError);
                }
            }
        }
        Ok(transcript)
    }

    /// Hands an end a fresh pair of cookie and secret for its next exchange of keys. It answers `false` and changes nothing if the end
    /// keeps a pair, was fed 2^32 - 1 of them, or is over. It does the same if this pair of ends has failed. Otherwise it answers `true`.
    /// It needs no memory.
    pub fn feed(&mut self, side: Side, cookie: [u8; 16], secret: [u8; 32]) -> bool
        // When nothing changes.
        ensures failed { self.old.failed ≡ true → result ≡ false }
        ensures still { self.new.failed ≡ self.old.failed }
        ensures unchanged { result ≡ false → self.new ≡ self.old }
        // The parts stay.
        ensures parts { SameParts self.old self.new }
        ensures fillers { SameFillers self.old self.new }
        // What is done at the end that is fed.
        ensures fed { self.old.failed ≡ false → PairFeeds ⟦<ClientRole<C, U> as EndRole>⟧ ⟦<ServerRole<V, J> as EndRole>⟧ self.old
            side (record { cookie = cookie; secret = secret }) result self.new }
    {
        laws::pair::items_stay_on_one_side();
        laws::pair::turns_are_events::<S::Key>();
        promises::<S::Key>();
        if self.failed {
            return false;
        }
        match side {
            Side::Client => self.client.feed_material(cookie, secret),
            Side::Server => self.server.feed_material(cookie, secret),
        }
    }

    // Asks an end for something.
    fn ask(
        &mut self,
        side: Side,
        ask: &Ask<'_>,
        transcript: &mut Transcript,
    ) -> Result<(), AllocError>
        ensures failed { self.new.failed ≡ self.old.failed }
        ensures parts { SameParts self.old self.new }
        ensures plays { OnOk result (GoesOn ⟦<ClientRole<C, U> as EndRole>⟧ ⟦<ServerRole<V, J> as EndRole>⟧ self.old
            (session.Asks side (ask_of ask.now)) self.new transcript.old transcript.new) }
        ensures padded { OnOk result (PairPads S.crypto C.Filler.gives V.Filler.gives self.old self.new (shown_in transcript.old)
            (shown_in transcript.new)) }
    {
        laws::pair::items_stay_on_one_side();
        laws::pair::turns_are_events::<S::Key>();
        match side {
            Side::Client => ask_end(
                &mut self.client,
                self.alloc,
                ask,
                &mut transcript.items,
                &mut transcript.client_bytes,
            ),
            Side::Server => ask_end(
                &mut self.server,
                self.alloc,
                ask,
                &mut transcript.items,
                &mut transcript.server_bytes,
            ),
        }
    }

    // Delivers bytes to an end.
    fn deliver(
        &mut self,
        side: Side,
        bytes: &[u8],
        transcript: &mut Transcript,
    ) -> Result<(), AllocError>
        ensures failed { self.new.failed ≡ self.old.failed }
        ensures parts { SameParts self.old self.new }
        ensures plays { OnOk result (GoesOn ⟦<ClientRole<C, U> as EndRole>⟧ ⟦<ServerRole<V, J> as EndRole>⟧ self.old
            (session.Delivers side bytes.now) self.new transcript.old transcript.new) }
        ensures padded { OnOk result (PairPads S.crypto C.Filler.gives V.Filler.gives self.old self.new (shown_in transcript.old)
            (shown_in transcript.new)) }
    {
        laws::pair::items_stay_on_one_side();
        laws::pair::turns_are_events::<S::Key>();
        laws::pair::deliveries::<S::Key>();
        laws::end::waiting::<S::Key>();
        match side {
            Side::Client => deliver_to_end(
                &mut self.client,
                self.alloc,
                bytes,
                &mut transcript.items,
                &mut transcript.client_bytes,
            ),
            Side::Server => deliver_to_end(
                &mut self.server,
                self.alloc,
                bytes,
                &mut transcript.items,
                &mut transcript.server_bytes,
            ),
        }
    }
}

// What two ends promise holds of every run of lawful parties.
fn promises<K>()
    ensures { (p : Parties K) → AreLawful p → (run : List Done) → Run p run → Promises p run }
{
    laws::session::safety::<K>();
    laws::quiet::no_deadlock::<K>();
    laws::faithful::kills_nobody::<K>();
}
