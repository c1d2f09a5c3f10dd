//! The end of either role.

ghost use Rattle.std.specs.Borrow.{sem};
ghost use Rattle.std.specs.Io.BufRead.{Rests};
ghost use Rattle.std.specs.Option.{option_copied};
ghost use Rattle.std.specs.Prelude.{◌≡◌, ◌<◌, ◌≤◌, IfErr, IfNone, IfOk, IfSome, List, OnErr, OnOk, [], false, length, nat_le, true, ℕ};
ghost use Rattle.ssh_model.specs.Protocol.Sessions.Items.{Item};
ghost use Rattle.ssh_model.specs.Protocol.Sessions.Parties.{Parties};
ghost use Rattle.ssh_model.specs.State.TransportLayer.Kept.{after_fed, can_be_fed};
ghost use Rattle.ssh_model.specs.Protocol.Sessions.Phases.{Phase.Exchanging};
ghost use Rattle.ssh_packet.specs.Directions.{next_number};
ghost use Rattle.ssh_types.specs.Values.{name_text};
ghost use Rattle.ssh_transport_machine.specs.Padding.{PadsTo};
ghost use Rattle.ssh_transport_machine.specs.Peeking.{AwaitsHost, Peeks};
ghost use Rattle.ssh_transport_machine.specs.State.{line_taken};
ghost use Rattle.ssh_end_machine.specs.Asking.{AreAskChannels, Asks, ChannelsAsked, EndsAlone, Fails};
ghost use Rattle.ssh_end_machine.specs.Asking.{KeepsDead, KeepsLayers, OnAnswered, ask_of};
ghost use Rattle.ssh_end_machine.specs.Calls.{EndAsked, EndTakes, TakesStep, outs_of};
ghost use Rattle.ssh_end_machine.specs.Ends.{EndNeedsMemory, IsFault, sending_from, sending_to};
ghost use Rattle.ssh_end_machine.specs.Reading.{SameReading};
ghost use Rattle.ssh_end_machine.specs.Stands.{AsksTo, FailsTo, FeedsTo, StandsAt};
ghost use Rattle.ssh_end_machine.specs.Steps.{Shows, shown_by};
ghost use Rattle.ssh_end_machine.specs.Turn.{TurnShows, channels_in, payloads_in};

use crate::asking::{Ask, AskStep, Fault};
use crate::handling::handle_turn;
use crate::layers::Layers;
use crate::role::EndRole;
use crate::step::Step;
use crate::turn::{SentInTurn, SentPayloads, Turn, asked_turn, sent_payloads};
use ssh_channels::Channels;
use ssh_model::laws;
use ssh_packet::{PacketReader, Sealing};
use ssh_transport::{Role, Transport};
use ssh_types::Name;
use std::marker::Model;

/// An end of SSH-2: its transport (RFC 4253), the authentication of its user (RFC 4252), and channels (RFC 4254). `ServerEnd` and
/// `ClientEnd` are its names for the two roles.
///
/// Each call takes it from one place of a run of its own to the next (`placed`). At each place its history is guarded, whoever the peer is.
/// How the peer's bytes are cut into pieces makes no difference (`turn_laws::any_pieces`).
///
/// It has no socket, no clock and no source of random bytes. Bytes of the peer go in by `take`, and the asks of its user by `ask`; bytes
/// for the peer are appended to `out`. It holds room for one packet of at most 35,000 bytes and for all its channels from the beginning on.
pub struct End<R: EndRole> {
    pub(crate) transport: Transport<R::Exchange>,
    // What its role has besides its part in an exchange of keys; that part is in its transport.
    pub(crate) role: R,
    pub(crate) layers: Layers,
    // What was sent in the turn.
    pub(crate) sent: SentInTurn,
    // What was done in the turn, with how many bytes, and the channel of a single payload that was sent.
    pub(crate) step: Step,
    pub(crate) used: usize,
    pub(crate) channel: [Option<u32>; 1],
}

impl<R: EndRole> Model for End<R> {
    ghost use Rattle.std.specs.Prelude.{map};
    ghost use Rattle.ssh_end_machine.specs.Ends.{EndValue};
    ghost use Rattle.ssh_end_machine.specs.Following.{HasLogin};
    ghost use Rattle.ssh_end_machine.specs.RoleValues.{RoleValue};
    ghost use Rattle.ssh_end_machine.specs.WithChannels.{channels_with, last_channels};

    ghost Value = { EndValue R.Exchange.Sealing.Key (RoleValue R.Exchange R) R.Exchange.Filler };

    ghost view = { λ e. record {
      machine = e.transport.machine;
      role = record { exchange = e.transport.role; own = e.role };
      layers = e.layers;
      filler = e.transport.filler;
      step = e.step;
      used = e.used;
      sent = map (λ v. v.items) e.sent.payloads.items;
      channels = channels_with (map (λ v. v.items) e.sent.payloads.items)
          (last_channels e.channel e.sent.numbers.items);
    } };

    ghost invariant = { λ e. HasLogin R.Exchange.SIDE e.transport.machine e.layers.authentication };
}

impl<R: EndRole> Drop for End<R> {
    fn drop(self) {
        let End {
            transport: _,
            role: _,
            layers: _,
            sent: _,
            step: _,
            used: _,
            channel: _,
        } = self;
    }
}

impl<R: EndRole> End<R> {
    ghost use Rattle.ssh_end_machine.specs.contracts.end.End.{the_row};

    /// Takes bytes of the peer to the end of one line or one packet (RFC 4253 sections 4.2 and 6), and acts on it. The turn shows what was
    /// done. `used` of the bytes are used; give the others again. The texts of the turn are slices of the end's buffer, so nothing else can
    /// be done with the end while they are in use.
    ///
    /// A call that sends nothing and makes no channel and no key asks for no memory.
    ///
    /// # Errors
    ///
    /// - `Memory`: memory was refused. Nothing is put out, and the end is over.
    /// - `Dead`: the end was over before. Nothing is put out.
    pub fn take<'a>(&'a mut self, bytes: &[u8], out: &mut Vec<u8>) -> Result<Turn<'a>, Fault>
        // How many bytes are used.
        ensures used { IfOk result (λ turn. turn.used ≤ length bytes.now) }
        ensures progress { IfOk result (λ turn. self.old.machine.kept.dead ≡ false → 0 < length bytes.now → 0 < turn.used) }
        // If it fails.
        ensures needs_memory { IfErr result (λ fault. fault ≡ Fault.Memory →
            EndNeedsMemory R.EndRole R.Exchange.Role R.Exchange.Sealing.crypto self.old bytes.now) }
        ensures out { OnErr result (out.new.items ≡ out.old.items) }
        // What is done and shown: the end that is left once the turn is let go.
        ensures* done { sem 𝓛 (Rests (the_row R.row R.Exchange.row R.Exchange.Sealing.row R.Exchange.Filler.row
            R.Exchange.Sealing.Key.row R.EndRole R.Exchange.Role R.Exchange.Sealing.Sealing R.Exchange.Filler.Filler) self.entry
            (λ new. EndTakes R.EndRole R.Exchange.Role R.Exchange.Sealing.crypto R.Exchange.Filler.gives self.old bytes.now
            out.old.items out.new.items result new)) }
    {
        self.take_step(bytes, out)?;
        Ok(self.last_turn())
    }

    /// The same as `take`, for a program that needs the end before it looks at the turn. It returns how many bytes were used, and
    /// `last_turn` shows the turn until the next call.
    ///
    /// # Errors
    ///
    /// Those of `take`.
    pub fn take_step(&mut self, bytes: &[u8], out: &mut Vec<u8>) -> Result<usize, Fault>
        // How many bytes are used.
        ensures used { IfOk result (λ used. used ≤ length bytes.now) }
        ensures progress { IfOk result (λ used. self.old.machine.kept.dead ≡ false → 0 < length bytes.now → 0 < used) }
        ensures more { IfOk result (λ used. self.new.step ≡ Step.More → used ≡ length bytes.now) }
        // What is done with them, what is put out and with which padding, and the next place of a run.
        ensures advances { IfOk result (λ used. TakesStep R.EndRole R.Exchange.Role R.Exchange.Sealing.crypto self.old bytes.now used
            out.old.items out.new.items self.new) }
        ensures padded { OnOk result (PadsTo R.Exchange.Sealing.crypto R.Exchange.Filler.gives (sending_from self.old out.old.items)
            (sending_to self.new out.new.items)) }
        // What `last_turn` shows afterwards.
        ensures shown { IfOk result (λ used. self.new.used ≡ used) }
        ensures none { OnErr result (self.new.step ≡ Step.More) }
        ensures unused { OnErr result (self.new.used ≡ 0) }
        ensures unsent { OnErr result (self.new.sent ≡ []) }
        // Where it fails: what is left of the end, why, and the next place of a run. Nothing is put out.
        ensures failed { IfErr result (λ fault. IsFault self.old.machine fault self.new.machine) }
        ensures dead { IfErr result (λ fault. fault ≡ Fault.Dead → self.new.layers ≡ self.old.layers) }
        ensures unchanged { IfErr result (λ fault. KeepsDead self.old.filler fault self.new.filler) }
        ensures needs_memory { IfErr result (λ fault. fault ≡ Fault.Memory →
            EndNeedsMemory R.EndRole R.Exchange.Role R.Exchange.Sealing.crypto self.old bytes.now) }
        ensures placed { IfErr result (λ fault. (p : Parties R.Exchange.Sealing.Key) (history : List Item) →
            StandsAt R.EndRole R.Exchange.Role p history self.old →
            FailsTo R.EndRole R.Exchange.Role p history self.old bytes.now fault self.new) }
        ensures out { OnErr result (out.new.items ≡ out.old.items) }
        // The role stays.
        ensures role { self.new.role ≡ self.old.role }
    {
        crate::turn_laws::ends_lift::<R>();
        ssh_transport::laws::turns_left::<R::Exchange>();
        self.step = Step::More;
        self.used = 0;
        self.sent.payloads.clear();
        self.sent.numbers.clear();
        let start = out.as_slice().len();
        let (used, taken) = self.transport.take(bytes, out, &mut self.sent.payloads);
        let turn = taken?;
        let done = handle_turn(
            &mut self.transport,
            &self.role,
            &mut self.layers,
            &turn,
            out,
            &mut self.sent,
        );
        let Ok(step) = done else {
            // The bytes put out so far are taken back.
            out.truncate(start);
            self.sent.payloads.clear();
            return Err(Fault::Memory);
        };
        self.step = step;
        self.used = used;
        self.channel = [step.channel()];
        Ok(used)
    }

    /// Looks at the next packet and takes nothing: it answers whether these bytes, after those that are held, have that whole packet, and
    /// it opens. The other reader then shows its payload, which the next `take` of these bytes takes: `peeking_laws`. So a program can find
    /// out what a question of the peer needs before the end puts it to its parts, and deliver the bytes afterwards.
    ///
    /// Nothing is said before the version line, or by an end that is over. No call needs memory.
    pub fn peek(&self, bytes: &[u8], other: &mut PacketReader) -> bool
        ensures opens { result ≡ true → Peeks R.Exchange.Sealing.crypto self.now.machine bytes.now other.new.payload }
        ensures none { result ≡ false → (payload : List ℕ) → Peeks R.Exchange.Sealing.crypto self.now.machine bytes.now payload → ⊥ }
    {
        self.transport.peek(bytes, other)
    }

    /// The algorithm of the host key in the exchange of keys under way (RFC 4253 section 7.1), while the peer's next message of the exchange is
    /// awaited, which is read: at a client the reply with the host key. Otherwise, and once the end is over, it is `None`.
    pub fn host_algorithm(&self) -> Option<Name<'_>>
        ensures awaited { IfSome result (λ algorithm. AwaitsHost self.now.machine.kept (name_text algorithm)) }
        ensures other { IfNone result (self.now.machine.kept.dead ≡ false → self.now.machine.kept.phase ≡ Exchanging → ⊥) }
    {
        self.transport.host_algorithm()
    }

    // What was sent in the last call.
    pub(crate) fn sent_in_turn(&self) -> SentPayloads<'_>
        ensures sent { payloads_in result ≡ self.now.sent }
        ensures channels { channels_in result ≡ self.now.channels }
    {
        sent_payloads(
            self.sent.payloads.as_slice(),
            self.channel.as_slice(),
            self.sent.numbers.as_slice(),
        )
    }

    // What was taken in the last call of `take_step` or `take`.
    pub(crate) fn shown(&self) -> &[u8]
        ensures { result.now ≡ shown_by self.now.step self.now.machine }
    {
        match self.step {
            Step::OtherLine => self.transport.other_line(),
            Step::VersionLine => self.transport.line(),
            _ => self.transport.payload(),
        }
    }

    /// Does what a user asks for, or refuses the ask, which changes nothing. The turn shows the payload that was sent, and the event that a
    /// channel is opening. If no sequence number was left, it shows the refusal `NumberSpent`, which is about this end's own numbers. Then
    /// nothing was sent, and the end is over.
    ///
    /// # Errors
    ///
    /// - `Ask`: the ask is refused, by the first refusal that holds.
    /// - `Memory`: memory was refused. Nothing is put out, and the end is over.
    /// - `Dead`: the end was over before. Nothing is put out.
    pub fn ask<'a>(&'a mut self, ask: &Ask<'_>, out: &mut Vec<u8>) -> Result<Turn<'a>, Fault>
        ensures out { OnErr result (out.new.items ≡ out.old.items) }
        ensures* done { sem 𝓛 (Rests (the_row R.row R.Exchange.row R.Exchange.Sealing.row R.Exchange.Filler.row
            R.Exchange.Sealing.Key.row R.EndRole R.Exchange.Role R.Exchange.Sealing.Sealing R.Exchange.Filler.Filler) self.entry
            (λ new. EndAsked R.EndRole R.Exchange.Role R.Exchange.Sealing.crypto R.Exchange.Filler.gives self.old ask.now
            out.old.items out.new.items result new)) }
    {
        let step = self.ask_step(ask, out)?;
        Ok(asked_turn(step, self.sent_in_turn()))
    }

    /// The same as `ask`, for a program that needs the end before it looks at the turn: `last_turn` shows the payload that was sent.
    ///
    /// # Errors
    ///
    /// Those of `ask`.
    pub fn ask_step(&mut self, ask: &Ask<'_>, out: &mut Vec<u8>) -> Result<AskStep, Fault>
        // What is done on the ask, and what is put out and with which padding.
        ensures asks { Asks R.Exchange.Sealing.crypto (R.signing self.old.role.own) self.old.machine self.old.layers (ask_of ask.now) result
            self.new.machine self.new.layers (outs_of out.old.items out.new.items self.new.sent) }
        ensures padded { OnAnswered result (PadsTo R.Exchange.Sealing.crypto R.Exchange.Filler.gives (sending_from self.old out.old.items)
            (sending_to self.new out.new.items)) }
        // Nothing is taken.
        ensures reading { self.new.machine.kept.dead ≡ false → SameReading self.old.machine self.new.machine }
        ensures step { self.new.step ≡ Step.More }
        ensures used { self.new.used ≡ 0 }
        // On which channel it was sent, and the next place of a run.
        ensures channels { IfOk result (λ step. AreAskChannels (ask_of ask.now) step self.new.sent self.new.channels) }
        ensures placed { (p : Parties R.Exchange.Sealing.Key) (history : List Item) →
            StandsAt R.EndRole R.Exchange.Role p history self.old →
            AsksTo R.EndRole R.Exchange.Role p history self.old (ask_of ask.now) result out.old.items out.new.items self.new }
        // What else changes if the ask ends the end.
        ensures over { IfOk result (λ step. EndsAlone self.old.machine ask.now step.refused self.new.machine) }
        // If it fails. Nothing is put out.
        ensures fails { IfErr result (λ fault. Fails self.old.machine fault self.new.machine) }
        ensures unchanged { IfErr result (λ fault. KeepsDead self.old.filler fault self.new.filler) }
        ensures layers { IfErr result (λ fault. KeepsLayers self.old.layers fault self.new.layers) }
        ensures asked_channels { ChannelsAsked self.old.layers.channels ask.now self.new.layers.channels }
        ensures unsent { OnErr result (self.new.sent ≡ []) }
        ensures out { OnErr result (out.new.items ≡ out.old.items) }
        // The role stays.
        ensures role { self.new.role ≡ self.old.role }
    {
        crate::turn_laws::ends_lift::<R>();
        self.step = Step::More;
        self.used = 0;
        self.sent.payloads.clear();
        self.sent.numbers.clear();
        let done = self.role.ask(
            &mut self.transport,
            &mut self.layers,
            ask,
            out,
            &mut self.sent.payloads,
        );
        if let Ok(step) = done {
            self.channel = [step.channel];
        }
        done
    }

    /// Keeps a fresh pair of cookie and secret for the next exchange of keys (RFC 4253 section 9). It answers `false` and changes nothing
    /// in three cases: a pair is kept, 2^32 - 1 pairs were handed in (that of `new` among them), or the end is over. It needs no memory.
    pub fn feed_material(&mut self, cookie: [u8; 16], secret: [u8; 32]) -> bool
        // Whether the pair is kept, and what changes by it.
        ensures fed { result ≡ can_be_fed self.old.machine.kept }
        ensures kept { result ≡ true → self.new.machine ≡ record self.old.machine { kept = after_fed cookie secret self.old.machine.kept } }
        ensures same { result ≡ false → self.new.machine ≡ self.old.machine }
        // Nothing else changes.
        ensures layers { self.new.layers ≡ self.old.layers }
        ensures rest { self.new ≡ record self.old { machine = self.new.machine } }
        ensures unchanged { result ≡ false → self.new ≡ self.old }
        // The next place of a run.
        ensures placed { (p : Parties R.Exchange.Sealing.Key) (history : List Item) →
            StandsAt R.EndRole R.Exchange.Role p history self.old →
            FeedsTo R.EndRole R.Exchange.Role p history cookie secret result self.new }
        // The role stays.
        ensures role { self.new.role ≡ self.old.role }
    {
        laws::end::feed_is_one_turn::<<<R::Exchange as Role>::Sealing as Sealing>::Key>();
        laws::any_peer::against_any_peer::<<<R::Exchange as Role>::Sealing as Sealing>::Key>();
        ssh_transport::laws::is_material(&cookie, &secret);
        self.transport.feed_material(cookie, secret)
    }

    /// The channels, to show their states and windows.
    pub fn channels(&self) -> &Channels
        ensures { result.now ≡ self.now.layers.channels }
    {
        &self.layers.channels
    }

    /// Tests whether as many packets were sent in this epoch as its limit says, so that the next exchange of keys is due
    /// (RFC 4253 section 9).
    pub fn rekey_due(&self) -> bool
        ensures { result ≡ nat_le self.now.machine.kept.settings.epoch_limit self.now.machine.kept.sending.count }
    {
        self.transport.rekey_due()
    }

    /// The sequence numbers of the next packet to be sent and of the next one to be taken (RFC 4253 section 6.4). It is 2^32 after the
    /// last number of an epoch.
    pub fn numbers(&self) -> (u64, u64)
        ensures sending { result.0 ≡ next_number self.now.machine.kept.sending }
        ensures taking { result.1 ≡ next_number self.now.machine.kept.taking }
    {
        self.transport.numbers()
    }

    /// The version line of the peer without CR LF (RFC 4253 section 4.2), at most 253 bytes, once it was taken.
    pub fn version_line(&self) -> Option<&[u8]>
        ensures { option_copied result ≡ line_taken self.now.machine.kept.lines }
    {
        self.transport.version_line()
    }

    /// The session id (RFC 4253 section 7.2), once an exchange of keys was completed.
    pub fn session_id(&self) -> Option<&[u8; 32]>
        ensures { option_copied result ≡ self.now.machine.kept.session }
    {
        self.transport.session_id()
    }

    /// Tests whether the user is authenticated: USERAUTH_SUCCESS was sent, or taken (RFC 4252 section 5.1).
    pub fn is_authenticated(&self) -> bool
        ensures { result ≡ self.now.machine.kept.authenticated }
    {
        self.transport.is_authenticated()
    }

    /// Tests whether the end is over: it then takes nothing, and sends nothing.
    pub fn is_dead(&self) -> bool
        ensures { result ≡ self.now.machine.kept.dead }
    {
        self.transport.is_dead()
    }
}
