//! A client that completes no exchange of keys before its program has said something on the host key, and on a signature that only the program
//! can judge.

ghost use Rattle.std.specs.Prelude.{◌≡◌, ◌++◌, ◌<◌, ◌≤◌, IfOk, IfSome, IsSome, List, None, OnErr, OnOk, Some, [], ◌∷◌, false, length, true};
ghost use Rattle.std.specs.Option.{option_map};
ghost use Rattle.ssh_model.specs.Protocol.Sessions.Items.{Item};
ghost use Rattle.ssh_model.specs.Protocol.Sessions.Parties.{Parties};
ghost use Rattle.ssh_model.specs.declared.side.Side.TheVariants as sides;
ghost use Rattle.ssh_transport_machine.specs.Padding.{PadsTo};
ghost use Rattle.ssh_end_machine.specs.Asking.{OnAnswered, ask_of};
ghost use Rattle.ssh_end_machine.specs.Calls.{outs_of};
ghost use Rattle.ssh_end_machine.specs.Ends.{sending_from, sending_to};
ghost use Rattle.ssh_end_machine.specs.Stands.{state_of};
ghost use Rattle.ssh_held.specs.HeldHosts.{ClientHeldAt, HasHostKey, HasReply, IsHostAnswered, WantsHost, trusting_book};
ghost use Rattle.ssh_held.specs.Places.{AskedOn, FedOn, IfUsed, TakenTo, UnlessWanted};

use crate::held_parts::HeldParts;
use crate::host_book::{HostAsked, HostVerdicts};
use crate::host_key::HostKey;
use crate::known_algorithms::KnowsAlgorithms;
use crate::next_reply::NextReply;
use crate::taken::Taken;
use ssh_auth::UserSigner;
use ssh_end_machine::{Ask, AskStep, ClientEnd, Fault};
use ssh_kex::HostTrust;
use ssh_model::laws;
use ssh_packet::{PacketReader, Sealing};
use ssh_transport_machine::ClientParts;
use std::alloc::{AllocError, Global};

/// A client whose program says in its own time which host keys are trusted, and which signatures are right whose algorithm `S` does not know.
pub struct HeldClient<
    P: ClientParts,
    S: HostTrust + KnowsAlgorithms + Copy + Drop,
    U: UserSigner + Drop,
> {
    end: ClientEnd<HeldParts<P, S>, U>,
    next: NextReply,
}

// Written out, since a derive would ask it of the parts' name too.
impl<P: ClientParts, S: HostTrust + KnowsAlgorithms + Copy + Drop, U: UserSigner + Drop> Drop
    for HeldClient<P, S, U> {
    fn drop(self) {
        let HeldClient { end: _, next: _ } = self;
    }
}

impl<P: ClientParts, S: HostTrust + KnowsAlgorithms + Copy + Drop, U: UserSigner + Drop> HeldClient<
    P,
    S,
    U,
> {
    /// Holds bytes of this client back. It looks at the next packet in this reader.
    pub fn of(end: ClientEnd<HeldParts<P, S>, U>, ahead: PacketReader) -> HeldClient<P, S, U>
        ensures end { result.end ≡ end }
        ensures none { result.next.algorithm ≡ None }
    {
        HeldClient {
            end,
            next: NextReply::new(ahead),
        }
    }

    /// The client, to show what it knows and what its last turn was.
    pub fn end(&self) -> &ClientEnd<HeldParts<P, S>, U>
        ensures { result.now ≡ self.now.end }
    {
        &self.end
    }

    /// Takes bytes of the peer to the end of one line or one packet, as `ssh_end_machine::End::take_step` does, unless the next packet is the
    /// reply that the client awaits, and the program has said nothing on its host key, or nothing on its signature, which it has to judge. That
    /// is so if it said yes to the key, and `S` does not know the algorithm. Then nothing changes and nothing is put out: find the answer,
    /// `give` it, and give the same bytes again. Outside of an exchange of keys nothing is looked at.
    ///
    /// # Errors
    ///
    /// Those of `End::take_step`.
    pub fn take(&mut self, bytes: &[u8], out: &mut Vec<u8>) -> Result<Taken, Fault>
        // How many bytes are used.
        ensures used { IfOk result (λ taken. IfUsed taken (λ used. used ≤ length bytes.now)) }
        ensures progress { IfOk result (λ taken. IfUsed taken (λ used. self.old.end.machine.kept.dead ≡ false → 0 < length bytes.now →
            0 < used)) }
        // Where an answer is wanted: on which host. Nothing changes.
        ensures wanted { IfOk result (λ taken. taken ≡ Taken.Wanted → WantsHost P.Sealing.crypto
            (P.Agreement.does self.old.end.role.exchange.agreement) (S.knows self.old.end.role.exchange.host_trust.signatures)
            self.old.end.machine self.old.end.role.exchange.host_trust.list.items bytes.now self.new.next) }
        ensures same { IfOk result (λ taken. taken ≡ Taken.Wanted → self.new.end ≡ self.old.end) }
        ensures quiet { IfOk result (λ taken. taken ≡ Taken.Wanted → out.new.items ≡ out.old.items) }
        // Otherwise the next packet asks nothing on which the program said nothing. Where the padding comes from.
        ensures answered { UnlessWanted result (IsHostAnswered P.Sealing.crypto
            (P.Agreement.does self.old.end.role.exchange.agreement) (S.knows self.old.end.role.exchange.host_trust.signatures)
            self.old.end.machine self.old.end.role.exchange.host_trust.list.items bytes.now) }
        ensures shut { UnlessWanted result (self.new.next.algorithm ≡ None) }
        ensures padded { IfOk result (λ taken. IfUsed taken (λ used. PadsTo P.Sealing.crypto P.Filler.gives
            (sending_from self.old.end out.old.items) (sending_to self.new.end out.new.items))) }
        // The next place of a run.
        ensures placed { (p : Parties P.Sealing.Key) (history : List Item) →
            ClientHeldAt P.Sealing.crypto P.Agreement.does S.knows S.judged U.signature_of p self.old.end history →
            TakenTo (ClientHeldAt P.Sealing.crypto P.Agreement.does S.knows S.judged U.signature_of p self.new.end)
            (trusting_book S.knows S.judged self.old.end.role.exchange.host_trust p) sides.Client history self.old.end.machine bytes.now
            out.old.items out.new.items result self.new.end }
        ensures role { self.new.end.role ≡ self.old.end.role }
        // Where it fails, nothing is put out.
        ensures out { OnErr result (out.new.items ≡ out.old.items) }
    {
        if self.next.look(&self.end, self.end.host_trust(), bytes) {
            return Ok(Taken::Wanted);
        }
        match self.end.take_step(bytes, out) {
            Ok(used) => Ok(Taken::Used(used)),
            Err(fault) => Err(fault),
        }
    }

    /// The host key on which the last `take` wanted an answer. If that is on its signature, the hash and the signature stand beside it. They
    /// are slices of the client's buffer.
    pub fn wanted(&self) -> Option<HostKey<'_>>
        ensures is { IfSome result (λ host. HasHostKey self.now.next.payload host.key.now) }
        ensures algorithm { IfSome result (λ host. self.now.next.algorithm ≡ Some host.algorithm.now) }
        ensures hash { IfSome result (λ host. self.now.next.hash ≡ option_map (λ signed. signed.hash.now) host.signed) }
        ensures signature { IfSome result (λ host. IfSome host.signed
            (λ signed. HasReply self.now.next.payload host.key.now signed.signature.now)) }
        ensures some { IsSome self.now.next.algorithm → IsSome result }
    {
        self.next.host_key()
    }

    /// Adds what the program said on a host. The first answer to a question counts. Once the client is over, nothing is asked any more, and
    /// nothing is added.
    ///
    /// # Errors
    ///
    /// Only if memory is refused: nothing changes.
    pub fn give(&mut self, alloc: Global, asked: HostAsked, accepts: bool) -> Result<(), AllocError>
        ensures given { OnOk result (self.old.end.machine.kept.dead ≡ false → self.new.end.role.exchange.host_trust.list.items
            ≡ self.old.end.role.exchange.host_trust.list.items ++ record { asked = asked; accepts = accepts } ∷ []) }
        ensures same { OnErr result (self.new.end.role.exchange.host_trust.list.items
            ≡ self.old.end.role.exchange.host_trust.list.items) }
        ensures signatures { self.new.end.role.exchange.host_trust.signatures ≡ self.old.end.role.exchange.host_trust.signatures }
        ensures rest { self.new.end ≡ record self.old.end {
          role = record self.old.end.role {
            exchange = record self.old.end.role.exchange { host_trust = self.new.end.role.exchange.host_trust };
          };
        } }
        ensures next { self.new.next ≡ self.old.next }
        // The next place of a run.
        ensures placed { (p : Parties P.Sealing.Key) (history : List Item) →
            ClientHeldAt P.Sealing.crypto P.Agreement.does S.knows S.judged U.signature_of p self.old.end history →
            ClientHeldAt P.Sealing.crypto P.Agreement.does S.knows S.judged U.signature_of p self.new.end history }
    {
        if self.end.is_dead() {
            return Ok(());
        }
        ssh_end_machine::parts_laws::parts_exchanged::<<P::Sealing as Sealing>::Key>();
        laws::supplied::trust_widened::<<P::Sealing as Sealing>::Key>();
        crate::laws::hosts_added();
        let none = HostVerdicts::new(alloc, self.end.host_trust().signatures);
        let mut verdicts = self.end.replace_host_trust(none);
        let done = verdicts.give(asked, accepts);
        self.end.replace_host_trust(verdicts);
        done
    }

    /// Does what its user asks for, or refuses the ask, as `ssh_end_machine::End::ask_step` does. Nothing is taken by it.
    ///
    /// # Errors
    ///
    /// Those of `End::ask_step`.
    pub fn ask_step(&mut self, ask: &Ask<'_>, out: &mut Vec<u8>) -> Result<AskStep, Fault>
        ensures padded { OnAnswered result (PadsTo P.Sealing.crypto P.Filler.gives (sending_from self.old.end out.old.items)
            (sending_to self.new.end out.new.items)) }
        ensures role { self.new.end.role ≡ self.old.end.role }
        ensures next { self.new.next ≡ self.old.next }
        // The next place of a run.
        ensures placed { (p : Parties P.Sealing.Key) (history : List Item) →
            ClientHeldAt P.Sealing.crypto P.Agreement.does S.knows S.judged U.signature_of p self.old.end history →
            AskedOn (ClientHeldAt P.Sealing.crypto P.Agreement.does S.knows S.judged U.signature_of p self.new.end)
            (trusting_book S.knows S.judged self.old.end.role.exchange.host_trust p) sides.Client history (state_of self.old.end)
            (ask_of ask.now) result (state_of self.new.end) (outs_of out.old.items out.new.items self.new.end.sent) }
        // Where it fails, nothing is put out.
        ensures out { OnErr result (out.new.items ≡ out.old.items) }
    {
        self.end.ask_step(ask, out)
    }

    /// Keeps a fresh pair of cookie and secret for the next exchange of keys, as `ssh_end_machine::End::feed_material` does.
    pub fn feed_material(&mut self, cookie: [u8; 16], secret: [u8; 32]) -> bool
        ensures unchanged { result ≡ false → self.new.end ≡ self.old.end }
        ensures role { self.new.end.role ≡ self.old.end.role }
        ensures next { self.new.next ≡ self.old.next }
        // The next place of a run.
        ensures placed { (p : Parties P.Sealing.Key) (history : List Item) →
            ClientHeldAt P.Sealing.crypto P.Agreement.does S.knows S.judged U.signature_of p self.old.end history →
            FedOn (ClientHeldAt P.Sealing.crypto P.Agreement.does S.knows S.judged U.signature_of p self.new.end) sides.Client history cookie secret
            result }
    {
        self.end.feed_material(cookie, secret)
    }
}
