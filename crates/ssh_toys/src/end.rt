//! An end of either role.

ghost use Rattle.std.specs.Prelude.{◌≡◌, ◌∷◌, ◌<◌, ◌≤◌, IfErr, IfOk, List, None, OnErr, [], false, length, true};
ghost use Rattle.ssh_config.specs.Config.{settings_given};
ghost use Rattle.ssh_config.specs.Meaning.{settings_of};
ghost use Rattle.ssh_end_machine.specs.WithChannels.{channels_with};
ghost use Rattle.ssh_end_machine.specs.Ends.{IsNew, sending_from_line};
ghost use Rattle.ssh_end_machine.specs.Steps.{Shows, shown_by};
ghost use Rattle.ssh_end_machine.specs.Turn.{TurnShows, channels_in, payloads_in};
ghost use Rattle.ssh_end_machine.specs.declared.step.Step.{Step};
ghost use Rattle.ssh_model.specs.Protocol.Sessions.Items.{Item};
ghost use Rattle.ssh_model.specs.Laws.MacOnly.{mac_only};
ghost use Rattle.ssh_model.specs.State.TransportLayer.Kept.{after_fed, can_be_fed};
ghost use Rattle.ssh_transport_machine.specs.Padding.{PadsTo};
ghost use Rattle.ssh_toys.specs.Ends.{FedIn, NeedsMemoryIn, MadeIn};
ghost use Rattle.ssh_toys.specs.Ends.{channels_of, layers_of, machine_of, sending_after, sent_of, side_of, step_of, used_of, with_machine};
ghost use Rattle.ssh_toys.specs.Standard.{cookie_of, gives_byte, secret_of, software_of, toy_given, zeros};

use crate::{
    CLIENT_COOKIE, CLIENT_SECRET, CREDENTIALS, SERVER_COOKIE, SERVER_SECRET, ToyClient, ToyJudge,
    ToyServer, ToyUserSigner, client_parts, config, server_parts, settings,
};
use ssh_end::{Ask, ClientEnd, Fault, ServerEnd, Turn};
use ssh_packet::MacOnly;
use ssh_transport::Config;
use ssh_types::Side;
use std::alloc::{AllocError, Global};

/// One end.
pub enum ToyEnd {
    Client(ClientEnd<ToyClient, ToyUserSigner>),
    Server(ServerEnd<ToyServer, ToyJudge<'static>>),
}

// Written out, since a derive would ask it of the parts' name too.
impl Drop for ToyEnd {
    fn drop(self) {
        match self {
            ToyEnd::Client(_) => {}
            ToyEnd::Server(_) => {}
        }
    }
}

impl ToyEnd {
    /// The end of a side, after the bytes that it put out at first.
    ///
    /// # Errors
    ///
    /// Only if memory is refused.
    pub fn new(alloc: Global, side: Side, out: &mut Vec<u8>) -> Result<ToyEnd, AllocError>
        ensures opened { IfOk result (λ made. IsNew mac_only side (settings_given (toy_given (software_of side))) (cookie_of side)
            (secret_of side) (machine_of made) (layers_of made) out.old.items out.new.items (sent_of made)) }
        ensures padded { IfOk result (λ made. PadsTo mac_only gives_byte (sending_from_line (settings_given (toy_given (software_of side)))
            zeros out.old.items) (sending_after made out.new.items)) }
        ensures role { IfOk result (λ made. side_of made ≡ side) }
        ensures step { IfOk result (λ made. step_of made ≡ Step.More) }
        ensures used { IfOk result (λ made. used_of made ≡ 0) }
        ensures channels { IfOk result (λ made. channels_of made ≡ channels_with (sent_of made) (None ∷ [])) }
        ensures placed { IfOk result (λ made. MadeIn (settings_given (toy_given (software_of side)))
            (record { cookie = cookie_of side; secret = secret_of side }) made
            out.old.items out.new.items) }
        ensures out { OnErr result (out.new.items ≡ out.old.items) }
    {
        let config = toy_config(alloc, side)?;
        opened(alloc, side, config, out)
    }

    /// Takes bytes to the end of one line or packet, and shows the turn.
    ///
    /// # Errors
    ///
    /// Those of `ServerEnd::take` and `ClientEnd::take`.
    pub fn take<'a>(&'a mut self, bytes: &[u8], out: &mut Vec<u8>) -> Result<Turn<'a>, Fault>
        ensures used { IfOk result (λ turn. turn.used ≤ length bytes.now) }
        ensures progress { IfOk result (λ turn. (machine_of self.old).kept.dead ≡ false → 0 < length bytes.now → 0 < turn.used) }
        ensures needs_memory { IfErr result (λ fault. fault ≡ Fault.Memory → NeedsMemoryIn self.old bytes.now) }
        ensures out { OnErr result (out.new.items ≡ out.old.items) }
    {
        match self {
            ToyEnd::Client(end) => end.take(bytes, out),
            ToyEnd::Server(end) => end.take(bytes, out),
        }
    }

    /// The turn of the last call: what `take` did, or what `ask` sent.
    pub fn last_turn(&self) -> Turn<'_>
        ensures shows { (items : List Item) → Shows (shown_by (step_of self.now) (machine_of self.now)) (step_of self.now) items →
            TurnShows result items }
        ensures more { step_of self.now ≡ Step.More → TurnShows result [] }
        ensures used { result.used ≡ used_of self.now }
        ensures sent { payloads_in result.sent ≡ sent_of self.now }
        ensures channels { channels_in result.sent ≡ channels_of self.now }
    {
        match self {
            ToyEnd::Client(end) => end.last_turn(),
            ToyEnd::Server(end) => end.last_turn(),
        }
    }

    /// Does the ask.
    ///
    /// # Errors
    ///
    /// Those of `ServerEnd::ask` and `ClientEnd::ask`.
    pub fn ask<'a>(&'a mut self, ask: &Ask<'_>, out: &mut Vec<u8>) -> Result<Turn<'a>, Fault>
        ensures out { OnErr result (out.new.items ≡ out.old.items) }
    {
        match self {
            ToyEnd::Client(end) => end.ask(ask, out),
            ToyEnd::Server(end) => end.ask(ask, out),
        }
    }

    /// Keeps a pair of cookie and secret, or answers `false`.
    pub fn feed_material(&mut self, cookie: [u8; 16], secret: [u8; 32]) -> bool
        ensures fed { result ≡ can_be_fed (machine_of self.old).kept }
        ensures kept { result ≡ true → self.new ≡ with_machine self.old
            (record (machine_of self.old) { kept = after_fed cookie secret (machine_of self.old).kept }) }
        ensures same { result ≡ false → self.new ≡ self.old }
        ensures placed { FedIn self.old cookie secret result self.new }
    {
        match self {
            ToyEnd::Client(end) => end.feed_material(cookie, secret),
            ToyEnd::Server(end) => end.feed_material(cookie, secret),
        }
    }

    /// The session id.
    pub fn session_id(&self) -> Option<[u8; 32]>
        ensures { result ≡ (machine_of self.now).kept.session }
    {
        match self {
            ToyEnd::Client(end) => end.session_id().copied(),
            ToyEnd::Server(end) => end.session_id().copied(),
        }
    }

    /// Whether the end is over.
    pub fn is_dead(&self) -> bool
        ensures { result ≡ (machine_of self.now).kept.dead }
    {
        match self {
            ToyEnd::Client(end) => end.is_dead(),
            ToyEnd::Server(end) => end.is_dead(),
        }
    }
}

// What the version line of a side names as its software.
fn software(side: Side) -> &'static [u8]
    ensures { result.now ≡ software_of side }
{
    match side {
        Side::Client => b"c",
        Side::Server => b"s",
    }
}

// The config of the end of a side.
fn toy_config(alloc: Global, side: Side) -> Result<Config<MacOnly>, AllocError>
    ensures { IfOk result (λ config. settings_of config ≡ settings_given (toy_given (software_of side))) }
{
    config(alloc, &settings(software(side)))
}

// An end of a side with this config.
fn opened(
    alloc: Global,
    side: Side,
    config: Config<MacOnly>,
    out: &mut Vec<u8>,
) -> Result<ToyEnd, AllocError>
    ensures opened { IfOk result (λ made. IsNew mac_only side (settings_of config) (cookie_of side) (secret_of side) (machine_of made)
        (layers_of made) out.old.items out.new.items (sent_of made)) }
    ensures padded { IfOk result (λ made. PadsTo mac_only gives_byte (sending_from_line (settings_of config) zeros out.old.items)
        (sending_after made out.new.items)) }
    ensures role { IfOk result (λ made. side_of made ≡ side) }
    ensures step { IfOk result (λ made. step_of made ≡ Step.More) }
    ensures used { IfOk result (λ made. used_of made ≡ 0) }
    ensures channels { IfOk result (λ made. channels_of made ≡ channels_with (sent_of made) (None ∷ [])) }
    ensures placed { IfOk result (λ made. MadeIn (settings_of config) (record { cookie = cookie_of side; secret = secret_of side }) made
        out.old.items out.new.items) }
    ensures out { OnErr result (out.new.items ≡ out.old.items) }
{
    match side {
        Side::Client => {
            let (cookie, secret) = (CLIENT_COOKIE, CLIENT_SECRET);
            let end = ClientEnd::new(
                alloc,
                config,
                client_parts(),
                ToyUserSigner,
                cookie,
                secret,
                out,
            )?;
            Ok(ToyEnd::Client(end))
        }
        Side::Server => {
            let judge = ToyJudge {
                credentials: CREDENTIALS,
            };
            let (cookie, secret) = (SERVER_COOKIE, SERVER_SECRET);
            let end = ServerEnd::new(alloc, config, server_parts(), judge, cookie, secret, out)?;
            Ok(ToyEnd::Server(end))
        }
    }
}
