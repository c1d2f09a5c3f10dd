//! The end of an exchange: both keys are made, NEWKEYS is sent, and after it the announcement.

ghost use Rattle.std.specs.Prelude.{◌≡◌, ◌<◌, ◌≤◌, ◌+◌, ◌-◌, ◌∷◌, [], None, Some, IfOk, OnOk, OnErr, length, map, true};
ghost use Rattle.std.specs.Prelude.{false};
ghost use Rattle.std.specs.Option.{option_map};
ghost use Rattle.ssh_model.specs.Protocol.Bounds.{longest_payload, most_exchanges, numbers_of_epoch};
ghost use Rattle.ssh_model.specs.Protocol.Sessions.Items.{EncodedBy};
ghost use Rattle.ssh_model.specs.Protocol.Sessions.Turns.{IsEncoded};
ghost use Rattle.ssh_model.specs.Protocol.Wire.DataTypes.{number};
ghost use Rattle.ssh_model.specs.Protocol.Wire.Message.{Msg, NewKeys};
ghost use Rattle.ssh_model.specs.State.TransportLayer.Kept.{after_sent};
ghost use Rattle.ssh_kex.specs.Values.{chosen_of, owned_chosen};
ghost use Rattle.ssh_transport_machine.specs.Padding.{PadsTo, sending_by};
ghost use Rattle.ssh_transport_machine.specs.Finishing.{AreKeys, AreKnown, Finishes, IsAnnouncement, IsDue, after_announced, announced_by};
ghost use Rattle.ssh_transport_machine.specs.Finishing.{forgotten, keyed, session_by};
ghost use Rattle.ssh_transport_machine.specs.Puts.{Sends, outs};

use crate::key_making::Agreed;
use crate::machine::Machine;
use crate::parts::Outgoing;
use ssh_kex::{Choice, OwnedChoice};
use ssh_packet::{Filler, Sealing};
use std::alloc::AllocError;

/// The results of an exchange for an end: the key under which it sends, the one under which it takes, and the session id.
#[derive(Drop)]
pub struct ExchangeKeys<K: Drop> {
    /// The key under which this end sends.
    pub own: K,
    /// The key under which it takes.
    pub theirs: K,
    /// The session id.
    pub session: [u8; 32],
}

/// What an end has of an exchange before it sends NEWKEYS: the keys, the payload of EXT_INFO where it is due, and the algorithms.
#[derive(Drop)]
pub struct ExchangeEnd<K: Drop> {
    /// The keys of both directions, and the session id.
    pub keys: ExchangeKeys<K>,
    /// The payload of the EXT_INFO that follows NEWKEYS, where one does.
    pub announcement: Option<Vec<u8>>,
    /// The algorithms that were chosen.
    pub choice: Box<OwnedChoice>,
}

impl<S: Sealing> Machine<S> {
    /// Makes the keys of an exchange of this shared number and this hash, and what is announced after NEWKEYS, and copies the choice.
    ///
    /// # Errors
    ///
    /// Only if memory is refused: nothing changes.
    pub fn exchange_end(
        &self,
        choice: Choice<'_>,
        shared: &[u8; 32],
        hash: &[u8; 32],
    ) -> Result<ExchangeEnd<S::Key>, AllocError>
        // What the caller must ensure.
        requires { AreKnown S.crypto (chosen_of choice) }
        // What it returns.
        ensures keys { IfOk result (λ given. AreKeys S.crypto self.now.kept (chosen_of choice.entry) (number shared.now) hash.now
            given.keys.own given.keys.theirs given.keys.session) }
        ensures announcement { IfOk result (λ given. IsAnnouncement self.now.kept (option_map (λ v. v.items) given.announcement)) }
        ensures chosen { IfOk result (λ given. owned_chosen given.choice.value ≡ chosen_of choice.entry) }
    {
        let keys = self.exchange_keys(&choice, shared, hash)?;
        let announcement = self.encode_announcement()?;
        let choice = self.keep_choice(choice)?;
        Ok(ExchangeEnd {
            keys,
            announcement,
            choice,
        })
    }

    // Makes the keys of both directions (RFC 4253 section 7.2).
    fn exchange_keys(
        &self,
        choice: &Choice<'_>,
        shared: &[u8; 32],
        hash: &[u8; 32],
    ) -> Result<ExchangeKeys<S::Key>, AllocError>
        requires { AreKnown S.crypto (chosen_of choice.now) }
        ensures { IfOk result (λ keys. AreKeys S.crypto self.now.kept (chosen_of choice.now) (number shared.now) hash.now keys.own
            keys.theirs keys.session) }
    {
        let session = self.session_with(hash);
        let agreed = Agreed {
            shared,
            hash,
            session: &session,
        };
        let own = self.key_of_side(self.side, &agreed, choice)?;
        let theirs = self.key_of_side(self.side.peer(), &agreed, choice)?;
        Ok(ExchangeKeys {
            own,
            theirs,
            session,
        })
    }

    // The session id with an exchange of this hash: the first one is it for good.
    fn session_with(&self, hash: &[u8; 32]) -> [u8; 32]
        ensures { result ≡ session_by self.now.kept hash.now }
    {
        match self.session {
            Some(session) => session,
            None => *hash,
        }
    }

    /// Sends NEWKEYS and the announcement after it, which completes the exchange, and drops its secret.
    ///
    /// # Errors
    ///
    /// Only if memory is refused: nothing is put out, and the end is over.
    pub fn finish<F: Filler + Drop>(
        &mut self,
        keys: ExchangeKeys<S::Key>,
        announcement: Option<Vec<u8>>,
        out: &mut Vec<u8>,
        sent: &mut Outgoing<F>,
    ) -> Result<(), AllocError>
        // What the caller must ensure.
        requires left { self.old.kept.sending.count < numbers_of_epoch }
        requires epoch { self.old.kept.sending.epoch < most_exchanges }
        requires due { IsAnnouncement self.old.kept (option_map (λ v. v.items) announcement) }
        // What it does.
        ensures finishes { OnOk result (Finishes S.crypto self.old.kept [] keys.own
            (announced_by self.old.kept.settings.extensions (option_map (λ v. v.items) announcement))
            (outs out.old out.new sent.old sent.new)) }
        ensures after { OnOk result (self.new ≡ record self.old {
          kept = after_announced (option_map (λ v. v.items) announcement)
              (forgotten (keyed keys.own keys.theirs keys.session self.old.kept));
        }) }
        // If it fails.
        ensures dead { OnErr result (self.new.kept.dead ≡ true) }
        ensures out { OnErr result (out.new.items ≡ out.old.items) }
        ensures kept { OnErr result (map (λ v. v.items) sent.new.payloads.items ≡ map (λ v. v.items) sent.old.payloads.items) }
        // Where the padding comes from.
        ensures padded { OnOk result (PadsTo S.crypto F.gives (sending_by self.old sent.old out.old)
            (sending_by self.new sent.new out.new)) }
    {
        match announcement {
            Some(payload) => self.finish_announcing(keys, payload, out, sent),
            None => self.finish_silently(keys, out, sent),
        }
    }

    // With nothing after NEWKEYS.
    fn finish_silently<F: Filler + Drop>(
        &mut self,
        keys: ExchangeKeys<S::Key>,
        out: &mut Vec<u8>,
        sent: &mut Outgoing<F>,
    ) -> Result<(), AllocError>
        // What the caller must ensure.
        requires left { self.old.kept.sending.count < numbers_of_epoch }
        requires epoch { self.old.kept.sending.epoch < most_exchanges }
        // What it does.
        ensures sends { OnOk result (Sends S.crypto self.old.kept.sending NewKeys (outs out.old out.new sent.old sent.new)) }
        ensures after { OnOk result (self.new ≡ record self.old
            { kept = forgotten (keyed keys.own keys.theirs keys.session self.old.kept) }) }
        // If it fails.
        ensures dead { OnErr result (self.new.kept.dead ≡ true) }
        ensures out { OnErr result (out.new.items ≡ out.old.items) }
        ensures kept { OnErr result (sent.new.payloads.items ≡ sent.old.payloads.items) }
        // Where the padding comes from.
        ensures padded { OnOk result (PadsTo S.crypto F.gives (sending_by self.old sent.old out.old)
            (sending_by self.new sent.new out.new)) }
    {
        let ExchangeKeys {
            own,
            theirs,
            session,
        } = keys;
        self.send_newkeys(own, theirs, session, out, sent)?;
        self.secret = [0; 32];
        Ok(())
    }

    // With this EXT_INFO after NEWKEYS.
    fn finish_announcing<F: Filler + Drop>(
        &mut self,
        keys: ExchangeKeys<S::Key>,
        payload: Vec<u8>,
        out: &mut Vec<u8>,
        sent: &mut Outgoing<F>,
    ) -> Result<(), AllocError>
        // What the caller must ensure.
        requires left { self.old.kept.sending.count < numbers_of_epoch }
        requires epoch { self.old.kept.sending.epoch < most_exchanges }
        requires due { IsDue self.old.kept payload.items }
        // What it does.
        ensures finishes { OnOk result (Finishes S.crypto self.old.kept [] keys.own
            (announced_by self.old.kept.settings.extensions (Some payload.items)) (outs out.old out.new sent.old sent.new)) }
        ensures after { OnOk result (self.new ≡ record self.old
            { kept = after_sent (forgotten (keyed keys.own keys.theirs keys.session self.old.kept)) }) }
        // If it fails.
        ensures dead { OnErr result (self.new.kept.dead ≡ true) }
        ensures out { OnErr result (out.new.items ≡ out.old.items) }
        ensures kept { OnErr result (map (λ v. v.items) sent.new.payloads.items ≡ map (λ v. v.items) sent.old.payloads.items) }
        // Where the padding comes from.
        ensures padded { OnOk result (PadsTo S.crypto F.gives (sending_by self.old sent.old out.old)
            (sending_by self.new sent.new out.new)) }
    {
        let bytes = out.len();
        let payloads = sent.payloads.as_slice().len();
        self.finish_silently(keys, out, sent)?;
        if let Err(error) = self.put(payload, out, sent) {
            out.truncate(bytes);
            sent.payloads.truncate(payloads);
            return Err(error);
        }
        Ok(())
    }

    /// The same as `finish` after a message of the exchange, by its payload.
    ///
    /// # Errors
    ///
    /// Only if memory is refused: nothing is put out, and the end is over.
    pub fn finish_after<F: Filler + Drop>(
        &mut self,
        payload: Vec<u8>,
        keys: ExchangeKeys<S::Key>,
        announcement: Option<Vec<u8>>,
        out: &mut Vec<u8>,
        sent: &mut Outgoing<F>,
    ) -> Result<(), AllocError>
        // What the caller must ensure.
        requires left { self.old.kept.sending.count + 1 < numbers_of_epoch }
        requires epoch { self.old.kept.sending.epoch < most_exchanges }
        requires some { 1 ≤ length payload.items }
        requires most { length payload.items ≤ longest_payload }
        requires due { IsAnnouncement self.old.kept (option_map (λ v. v.items) announcement) }
        // What it does.
        ensures finishes { (message : Msg) → IsEncoded message payload.items →
            OnOk result (Finishes S.crypto self.old.kept (EncodedBy message payload.items ∷ []) keys.own
            (announced_by self.old.kept.settings.extensions (option_map (λ v. v.items) announcement))
            (outs out.old out.new sent.old sent.new)) }
        ensures after { OnOk result (self.new ≡ record self.old {
          kept = after_announced (option_map (λ v. v.items) announcement)
              (forgotten (keyed keys.own keys.theirs keys.session (after_sent self.old.kept)));
        }) }
        // If it fails.
        ensures dead { OnErr result (self.new.kept.dead ≡ true) }
        ensures out { OnErr result (out.new.items ≡ out.old.items) }
        ensures kept { OnErr result (map (λ v. v.items) sent.new.payloads.items ≡ map (λ v. v.items) sent.old.payloads.items) }
        // Where the padding comes from.
        ensures padded { OnOk result (PadsTo S.crypto F.gives (sending_by self.old sent.old out.old)
            (sending_by self.new sent.new out.new)) }
    {
        let bytes = out.len();
        let payloads = sent.payloads.as_slice().len();
        self.put(payload, out, sent)?;
        if let Err(error) = self.finish(keys, announcement, out, sent) {
            out.truncate(bytes);
            sent.payloads.truncate(payloads);
            return Err(error);
        }
        Ok(())
    }

    /// Tests whether numbers for this many packets are left in the epoch.
    pub fn has_numbers(&self, packets: u64) -> bool
        ensures has { result ≡ true → self.now.kept.sending.count + packets ≤ numbers_of_epoch }
        ensures lacks { result ≡ false → numbers_of_epoch < self.now.kept.sending.count + packets }
    {
        packets <= self.sending.numbers_left()
    }
}
