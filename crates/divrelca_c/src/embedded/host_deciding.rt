//! A client whose program says in its own time which host keys are trusted, and judges signatures of other algorithms than ssh-ed25519.

ghost use Rattle.std.specs.Prelude.{◌≡◌, ◌++◌, IfOk, IfSome, List, None, Ok, OnErr, OnOk, [], ◌∷◌, false, is_some, true, ℕ};
ghost use Rattle.divrelca.specs.Parts.AesGcm.{aes_gcm};
ghost use Rattle.divrelca.specs.Parts.Curve25519.{x25519_agreement};
ghost use Rattle.divrelca_c.specs.Embedded.Deciding.{AsksHost, HoldsBack, HostAnswered, IsUnknownHost, OnlyHosts, ReadsHost, StandsTrusting};
ghost use Rattle.divrelca_c.specs.Embedded.Deciding.{TakesKnown, TakesOr, hash_of, is_open, payload_of};
ghost use Rattle.divrelca_c.specs.Embedded.Hosts.{is_known};
ghost use Rattle.ssh_held.specs.HeldHosts.{IsHostSettled};

use crate::embedded::hosts::TrustedHosts;
use crate::embedded::opening::Client;
use crate::embedded::parts::{EmbeddedClient, UserSignatures};
use divrelca::AesGcm;
use ssh_end::{ClientEnd, Fault};
use ssh_held::{
    HostAsked, HostKey, HostWanted, Taken, host_key_in, host_reply_in, unanswered_host,
};
use ssh_model::laws;
use ssh_packet::{PacketReader, Sealing};
use std::alloc::{AllocError, Global};
use std::mem::replace;

impl Client {
    /// Takes bytes of the peer as `take_step` does. If this client decides later (`decide_later`), it takes no reply with a host key that its
    /// program has to decide on: one that it was not made with, and on which the program said nothing. Once it said yes to a key of another
    /// algorithm than ssh-ed25519, it has to decide on the signature too. Then nothing changes and nothing is put out: find the answer,
    /// `decide` it, and give the same bytes again. Outside of an exchange of keys nothing is looked at.
    ///
    /// # Errors
    ///
    /// Those of `take_step`.
    pub fn take(&mut self, bytes: &[u8]) -> Result<Taken, Fault>
        ensures { TakesOr (HoldsBack (IsUnknownHost self.old.end.role.exchange.host_trust self.old.end.machine bytes.now
            (hash_of self.new.ahead)) self.old self.new) (λ done. TakesKnown self.old bytes.now done self.new) result }
    {
        if self.is_asked(bytes) {
            return Ok(Taken::Wanted);
        }
        match self.take_step(bytes) {
            Ok(used) => Ok(Taken::Used(used)),
            Err(fault) => Err(fault),
        }
    }

    // Looks at the next packet, and notes whether it asks the program.
    fn is_asked(&mut self, bytes: &[u8]) -> bool
        ensures wanted { result ≡ true → HoldsBack (IsUnknownHost self.old.end.role.exchange.host_trust self.old.end.machine bytes.now
            (hash_of self.new.ahead)) self.old self.new }
        ensures known { result ≡ false → is_some self.old.ahead ≡ true → IsHostSettled aes_gcm x25519_agreement self.old.end.machine
            (is_known self.old.end.role.exchange.host_trust) bytes.now }
        ensures shut { result ≡ false → is_open self.new.ahead ≡ false }
        ensures looks { is_some self.new.ahead ≡ is_some self.old.ahead }
        ensures same { self.new ≡ record self.old { ahead = self.new.ahead } }
    {
        let Some(mut ahead) = replace(&mut self.ahead, None) else {
            return false;
        };
        match unknown_host(&self.end, &mut ahead.reader, bytes) {
            Some(wanted) => {
                ahead.is_wanted = true;
                ahead.hash = wanted.hash;
                self.ahead = Some(ahead);
                true
            }
            None => {
                ahead.is_wanted = false;
                self.ahead = Some(ahead);
                false
            }
        }
    }

    /// The host key that the last `take` wanted an answer on (RFC 4253 section 8), or the one by whose signature it wanted one on. It is a slice
    /// of the client's buffer.
    pub fn wanted(&self) -> Option<HostKey<'_>>
        ensures none { is_open self.now.ahead ≡ false → result ≡ None }
        ensures reads { is_open self.now.ahead ≡ true → ReadsHost self.now.end.machine (payload_of self.now.ahead)
            (hash_of self.now.ahead) result }
    {
        let ahead = self.ahead.as_ref()?;
        if !ahead.is_wanted {
            return None;
        }
        let Some(reply) = host_reply_in(ahead.reader.payload()) else {
            return None;
        };
        let Some(algorithm) = self.end.host_algorithm() else {
            return None;
        };
        Some(HostKey {
            algorithm: algorithm.as_bytes(),
            key: reply.key,
            signed: reply.signed_with(&ahead.hash),
        })
    }

    /// Adds what the program says on the host that the last `take` wanted an answer on, and answers `true`. It answers `false`, and
    /// nothing changes, if none is wanted, or the end is over.
    ///
    /// # Errors
    ///
    /// Only if memory is refused: nothing of what was said changes.
    pub fn decide(&mut self, alloc: Global, accepts: bool) -> Result<bool, AllocError>
        ensures answered { IfOk result (λ done. done ≡ true → HostAnswered accepts self.old self.new) }
        ensures unchanged { result ≡ Ok false → self.new ≡ self.old }
        ensures kept { OnErr result (self.new.end.role.exchange.host_trust.book.list.items
            ≡ self.old.end.role.exchange.host_trust.book.list.items) }
        ensures keys { self.new.end.role.exchange.host_trust.keys ≡ self.old.end.role.exchange.host_trust.keys }
        ensures none { is_open self.old.ahead ≡ false → result ≡ Ok false }
        // What goes on holding of the client's run, and what stays.
        ensures stands { IfOk result (λ done. done ≡ true → StandsTrusting self.old self.new) }
        ensures rest { OnlyHosts self.old self.new }
        ensures same { self.new ≡ record self.old { end = self.new.end; ahead = self.new.ahead } }
    {
        let Some(asked) = self.question(alloc)? else {
            return Ok(false);
        };
        ssh_end_machine::parts_laws::parts_exchanged::<<AesGcm as Sealing>::Key>();
        laws::supplied::trust_widened::<<AesGcm as Sealing>::Key>();
        ssh_held::laws::hosts_added();
        self.say(alloc, asked, accepts)?;
        self.shut();
        Ok(true)
    }

    // The question on which an answer is wanted, if one still is.
    fn question(&self, alloc: Global) -> Result<Option<HostAsked>, AllocError>
        ensures asked { IfOk result (λ found. IfSome found (λ asked. AsksHost self.now asked)) }
        ensures none { is_open self.now.ahead ≡ false → result ≡ Ok None }
    {
        if self.end.is_dead() {
            return Ok(None);
        }
        match self.wanted() {
            Some(host) => Ok(Some(host.question(alloc)?)),
            None => Ok(None),
        }
    }

    // Adds what the program says on a host.
    fn say(&mut self, alloc: Global, asked: HostAsked, accepts: bool) -> Result<(), AllocError>
        ensures said { OnOk result (self.new.end.role.exchange.host_trust.book.list.items
            ≡ self.old.end.role.exchange.host_trust.book.list.items ++ record { asked = asked; accepts = accepts } ∷ []) }
        ensures kept { OnErr result (self.new.end.role.exchange.host_trust.book.list.items
            ≡ self.old.end.role.exchange.host_trust.book.list.items) }
        ensures keys { self.new.end.role.exchange.host_trust.keys ≡ self.old.end.role.exchange.host_trust.keys }
        ensures rest { OnlyHosts self.old self.new }
        ensures same { self.new ≡ record self.old { end = self.new.end } }
    {
        let mut hosts = self.end.replace_host_trust(TrustedHosts::new(alloc));
        let done = hosts.book.give(asked, accepts);
        self.end.replace_host_trust(hosts);
        done
    }
}

// What the next packet of a client asks its program, if that is the reply of a host that its program has to decide on. The reader then shows it.
fn unknown_host(
    end: &ClientEnd<EmbeddedClient, UserSignatures>,
    ahead: &mut PacketReader,
    bytes: &[u8],
) -> Option<HostWanted>
    ensures unknown { IfSome result (λ wanted. IsUnknownHost end.now.role.exchange.host_trust end.now.machine bytes.now wanted.hash
        ahead.new.payload) }
    ensures known { result ≡ None → IsHostSettled aes_gcm x25519_agreement end.now.machine
        (is_known end.now.role.exchange.host_trust) bytes.now }
{
    let Some(wanted) = unanswered_host(end, &end.host_trust().book, ahead, bytes) else {
        return None;
    };
    let Some(key) = host_key_in(ahead.payload()) else {
        return None;
    };
    if end.host_trust().keys.has(wanted.algorithm.as_bytes(), key) {
        return None;
    }
    Some(wanted)
}
