//! What is of a client alone.

ghost use Rattle.std.specs.Prelude.{◌≡◌, IfSome, List, None, false};
ghost use Rattle.ssh_model.specs.Laws.Supplied.{AgreeOnAnswered, supplied_of};
ghost use Rattle.ssh_model.specs.Protocol.Sessions.Items.{Item};
ghost use Rattle.ssh_model.specs.Protocol.Sessions.Parties.{Parties};
ghost use Rattle.ssh_transport_machine.specs.Peeking.{AwaitsHashed, AwaitsNone};
ghost use Rattle.ssh_end_machine.specs.Supplying.{ClientEndAt};

use crate::end::End;
use crate::layers::Login;
use crate::nobody::Nobody;
use crate::party::Party;
use crate::role::SuppliedEnd;
use ssh_auth::UserSigner;
use ssh_config::Config;
use ssh_packet::Sealing;
use ssh_transport::Client;
use ssh_transport_machine::ClientParts;
use std::alloc::{AllocError, Global};
use std::marker::PhantomData;
use std::mem::replace;

/// The end of a client.
pub type ClientEnd<P, U> = End<ClientRole<P, U>>;

/// What is of a client alone: its part in an exchange of keys, and who signs for its user. It judges no users.
pub type ClientRole<P, U> = Party<Client<P>, Nobody, U>;

impl<P: ClientParts, U: UserSigner + Drop> SuppliedEnd for Party<Client<P>, Nobody, U> {
    type User = U;

    ghost is_made_of = { λ role user. role.signer ≡ user };

    fn of(user: U) -> Party<Client<P>, Nobody, U> {
        Party {
            judge: Nobody,
            signer: user,
            exchange: PhantomData,
        }
    }

    fn login(alloc: Global, _config: &Config<P::Sealing>) -> Result<Login, AllocError> {
        Ok(Login::client(alloc))
    }
}

impl<P: ClientParts, U: UserSigner + Drop> End<Party<Client<P>, Nobody, U>> {
    /// The part that says which host keys are trusted.
    pub fn host_trust(&self) -> &P::HostTrust
        ensures { result.now ≡ self.now.role.exchange.host_trust }
    {
        self.transport.host_trust()
    }

    /// The hash of the exchange under way (RFC 5656 section 4), if the peer's next message of it is awaited, which is read, and the
    /// payload is a reply of a good point. The end has the host of that reply judged over this hash: `peeking_laws`. So a program can judge
    /// the host's signature before it delivers the bytes. Otherwise, and once the end is over, it is `None`. It needs no memory.
    pub fn reply_hash(&self, payload: &[u8]) -> Option<[u8; 32]>
        ensures hash { IfSome result (λ hash. AwaitsHashed (P.Agreement.does self.now.role.exchange.agreement) self.now.machine.kept
            payload.now hash) }
        ensures none { result ≡ None →
            AwaitsNone (P.Agreement.does self.now.role.exchange.agreement) self.now.machine.kept payload.now }
    {
        self.transport.reply_hash(payload)
    }

    /// Puts another part in the place of the one that says which host keys are trusted, and gives that back. The next exchange of keys asks
    /// the new one.
    pub fn replace_host_trust(&mut self, trust: P::HostTrust) -> P::HostTrust
        ensures old { result ≡ self.old.role.exchange.host_trust }
        ensures new { self.new ≡ record self.old {
          role = record self.old.role { exchange = record self.old.role.exchange { host_trust = trust } };
        } }
        // The next place of a run: the same with the new part, if both agree on each host key that was taken.
        ensures placed { (p : Parties P.Sealing.Key) (history : List Item) →
            ClientEndAt P.Sealing.crypto P.Agreement.does P.HostTrust.judged U.signature_of p history self.old →
            self.old.machine.kept.dead ≡ false →
            AgreeOnAnswered p (record (supplied_of p) { trusts = P.HostTrust.judged trust }) history →
            ClientEndAt P.Sealing.crypto P.Agreement.does P.HostTrust.judged U.signature_of
            (record p { trusts = P.HostTrust.judged trust }) history self.new }
    {
        crate::parts_laws::parts_exchanged::<<P::Sealing as Sealing>::Key>();
        self.transport.replace_host_trust(trust)
    }

    /// Who signs for its user.
    pub fn user(&self) -> &U
        ensures { result.now ≡ self.now.role.own.signer }
    {
        &self.role.signer
    }

    /// Puts another signer for its user in the place of the one that it has, and gives that back. Asks from here on are for the new one.
    pub fn replace_user(&mut self, user: U) -> U
        ensures old { result ≡ self.old.role.own.signer }
        ensures new { self.new ≡ record self.old { role = record self.old.role { own = record self.old.role.own { signer = user } } } }
        // The next place of a run: the same with the new signer, if both give each signature that was sent.
        ensures placed { (p : Parties P.Sealing.Key) (history : List Item) →
            ClientEndAt P.Sealing.crypto P.Agreement.does P.HostTrust.judged U.signature_of p history self.old →
            self.old.machine.kept.dead ≡ false →
            AgreeOnAnswered p (record (supplied_of p) { user_signature = U.signature_of user }) history →
            ClientEndAt P.Sealing.crypto P.Agreement.does P.HostTrust.judged U.signature_of
            (record p { user_signature = U.signature_of user }) history self.new }
    {
        crate::parts_laws::parts_exchanged::<<P::Sealing as Sealing>::Key>();
        replace(&mut self.role.signer, user)
    }
}
