//! What is of a server alone.

ghost use Rattle.std.specs.Prelude.{◌≡◌, List, false};
ghost use Rattle.ssh_model.specs.Laws.Supplied.{AgreeOnAnswered, supplied_of};
ghost use Rattle.ssh_model.specs.Laws.Verdicts.{judged_by};
ghost use Rattle.ssh_model.specs.Protocol.Sessions.Items.{Item};
ghost use Rattle.ssh_model.specs.Protocol.Sessions.Parties.{Parties};
ghost use Rattle.ssh_end_machine.specs.Supplying.{ServerEndAt};

use crate::end::End;
use crate::layers::Login;
use crate::nobody::Nobody;
use crate::party::Party;
use crate::role::SuppliedEnd;
use ssh_auth::UserJudge;
use ssh_config::Config;
use ssh_packet::Sealing;
use ssh_transport::Server;
use ssh_transport_machine::ServerParts;
use std::alloc::{AllocError, Global};
use std::marker::PhantomData;
use std::mem::replace;

/// The end of a server.
pub type ServerEnd<P, U> = End<ServerRole<P, U>>;

/// What is of a server alone: its part in an exchange of keys, and who judges its users. It signs for none.
pub type ServerRole<P, U> = Party<Server<P>, U, Nobody>;

impl<P: ServerParts, U: UserJudge + Drop> SuppliedEnd for Party<Server<P>, U, Nobody> {
    type User = U;

    ghost is_made_of = { λ role user. role.judge ≡ user };

    fn of(user: U) -> Party<Server<P>, U, Nobody> {
        Party {
            judge: user,
            signer: Nobody,
            exchange: PhantomData,
        }
    }

    fn login(alloc: Global, config: &Config<P::Sealing>) -> Result<Login, AllocError> {
        Login::server(alloc, config.tries(), &config.methods())
    }
}

impl<P: ServerParts, U: UserJudge + Drop> End<Party<Server<P>, U, Nobody>> {
    /// Who judges its users.
    pub fn user(&self) -> &U
        ensures { result.now ≡ self.now.role.own.judge }
    {
        &self.role.judge
    }

    /// Puts another judge of its users in the place of the one that it has, and gives that back. Requests that come from here on are for
    /// the new one.
    pub fn replace_user(&mut self, user: U) -> U
        ensures old { result ≡ self.old.role.own.judge }
        ensures new { self.new ≡ record self.old { role = record self.old.role { own = record self.old.role.own { judge = user } } } }
        // The next place of a run: the same with the new judge, if both agree on each request that was taken.
        ensures placed { (p : Parties P.Sealing.Key) (history : List Item) →
            ServerEndAt P.Sealing.crypto P.Agreement.does P.HostSigner.keys U.verdicts p history self.old →
            self.old.machine.kept.dead ≡ false →
            AgreeOnAnswered p (record (supplied_of p) { judge = U.verdicts user }) history →
            ServerEndAt P.Sealing.crypto P.Agreement.does P.HostSigner.keys U.verdicts (judged_by (U.verdicts user) p) history self.new }
    {
        crate::parts_laws::parts_exchanged::<<P::Sealing as Sealing>::Key>();
        replace(&mut self.role.judge, user)
    }

    /// Puts another part in the place of the one that has the host keys, and gives that back. The next exchange of keys asks the new one.
    pub fn replace_host_signer(&mut self, signer: P::HostSigner) -> P::HostSigner
        ensures old { result ≡ self.old.role.exchange.host_signer }
        ensures new { self.new ≡ record self.old {
          role = record self.old.role { exchange = record self.old.role.exchange { host_signer = signer } };
        } }
        // The next place of a run: the same with the new part, if it has the same keys, and both agree on each hash that was signed.
        ensures placed { (p : Parties P.Sealing.Key) (history : List Item) →
            ServerEndAt P.Sealing.crypto P.Agreement.does P.HostSigner.keys U.verdicts p history self.old →
            self.old.machine.kept.dead ≡ false →
            (P.HostSigner.keys signer).key ≡ (P.HostSigner.keys self.old.role.exchange.host_signer).key →
            AgreeOnAnswered p (record (supplied_of p) { host_signature = (P.HostSigner.keys signer).signature }) history →
            ServerEndAt P.Sealing.crypto P.Agreement.does P.HostSigner.keys U.verdicts
            (record p { host_signature = (P.HostSigner.keys signer).signature }) history self.new }
    {
        crate::parts_laws::parts_exchanged::<<P::Sealing as Sealing>::Key>();
        self.transport.replace_host_signer(signer)
    }
}
