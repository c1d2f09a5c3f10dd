//! Other parts in the place of those that a transport has.

ghost use Rattle.std.specs.Prelude.{◌≡◌, List, false};
ghost use Rattle.ssh_model.specs.Laws.Supplied.{AgreeOnAnswered, supplied_of};
ghost use Rattle.ssh_model.specs.Protocol.Sessions.Items.{Item};
ghost use Rattle.ssh_model.specs.Protocol.Sessions.Parties.{Parties};
ghost use Rattle.ssh_transport.specs.Replacing.{ClientTransportAt, ServerTransportAt};

use crate::client::Client;
use crate::server::Server;
use crate::transport::Transport;
use ssh_model::laws;
use ssh_packet::Sealing;
use ssh_transport_machine::{ClientParts, ServerParts};
use std::mem::replace;

impl<P: ClientParts> Transport<Client<P>> {
    /// The part that says which host keys are trusted.
    pub fn host_trust(&self) -> &P::HostTrust
        ensures { result.now ≡ self.now.role.host_trust }
    {
        &self.role.host_trust
    }

    /// Puts another part in the place of the one that says which host keys are trusted, and gives that back. The next exchange of keys
    /// asks the new one.
    pub fn replace_host_trust(&mut self, trust: P::HostTrust) -> P::HostTrust
        ensures old { result ≡ self.old.role.host_trust }
        ensures new { self.new ≡ record self.old { role = record self.old.role { host_trust = trust } } }
        // The next place of a run: the same with the new part, if both agree on each host key that was taken.
        ensures placed { (p : Parties P.Sealing.Key) (history : List Item) →
            ClientTransportAt P.Sealing.crypto P.Agreement.does P.HostTrust.judged p history self.old →
            self.old.machine.kept.dead ≡ false →
            AgreeOnAnswered p (record (supplied_of p) { trusts = P.HostTrust.judged trust }) history →
            ClientTransportAt P.Sealing.crypto P.Agreement.does P.HostTrust.judged (record p { trusts = P.HostTrust.judged trust })
            history self.new }
    {
        laws::supplied::parts_exchanged::<<P::Sealing as Sealing>::Key>();
        laws::any_peer::against_any_layers::<<P::Sealing as Sealing>::Key>();
        replace(&mut self.role.host_trust, trust)
    }
}

impl<P: ServerParts> Transport<Server<P>> {
    /// Puts another part in the place of the one that has the host keys, and gives that back. The next exchange of keys asks the new one.
    pub fn replace_host_signer(&mut self, signer: P::HostSigner) -> P::HostSigner
        ensures old { result ≡ self.old.role.host_signer }
        ensures new { self.new ≡ record self.old { role = record self.old.role { host_signer = signer } } }
        // The next place of a run: the same with the new part, if it has the same keys, and both agree on each hash that was signed.
        ensures placed { (p : Parties P.Sealing.Key) (history : List Item) →
            ServerTransportAt P.Sealing.crypto P.Agreement.does P.HostSigner.keys p history self.old →
            self.old.machine.kept.dead ≡ false →
            (P.HostSigner.keys signer).key ≡ (P.HostSigner.keys self.old.role.host_signer).key →
            AgreeOnAnswered p (record (supplied_of p) { host_signature = (P.HostSigner.keys signer).signature }) history →
            ServerTransportAt P.Sealing.crypto P.Agreement.does P.HostSigner.keys
            (record p { host_signature = (P.HostSigner.keys signer).signature }) history self.new }
    {
        laws::supplied::parts_exchanged::<<P::Sealing as Sealing>::Key>();
        laws::any_peer::against_any_layers::<<P::Sealing as Sealing>::Key>();
        replace(&mut self.role.host_signer, signer)
    }
}
