//! A server that takes no request before its program has said something on it.

ghost use Rattle.std.specs.Prelude.{◌≡◌, ◌++◌, ◌<◌, ◌≤◌, IfOk, IfSome, IsSome, List, None, Ok, OnErr, OnOk, [], ◌∷◌, false, length, true};
ghost use Rattle.ssh_model.specs.Protocol.Sessions.Items.{Item};
ghost use Rattle.ssh_model.specs.Protocol.Sessions.Parties.{Parties};
ghost use Rattle.ssh_model.specs.Protocol.Wire.Message.{IsPayload, Msg.UserauthRequest};
ghost use Rattle.ssh_model.specs.declared.side.Side.TheVariants as sides;
ghost use Rattle.ssh_message.specs.Meaning.{method_meaning};
ghost use Rattle.ssh_transport_machine.specs.Padding.{PadsTo};
ghost use Rattle.ssh_end_machine.specs.Asking.{OnAnswered, ask_of};
ghost use Rattle.ssh_end_machine.specs.Calls.{outs_of};
ghost use Rattle.ssh_end_machine.specs.Ends.{sending_from, sending_to};
ghost use Rattle.ssh_end_machine.specs.Stands.{state_of};
ghost use Rattle.ssh_held.specs.Asking.{RequestFits};
ghost use Rattle.ssh_held.specs.Held.{AsksNext, HeldAt, IsAnswered, IsWanted, judged_by_book, session_of, signatures_by};
ghost use Rattle.ssh_held.specs.Places.{AskedOn, FedOn, IfUsed, TakenTo, UnlessWanted};

use crate::asking::Request;
use crate::book::{Asked, Verdicts};
use crate::known_algorithms::KnowsAlgorithms;
use crate::next_request::NextRequest;
use crate::taken::Taken;
use ssh_auth::UserJudge;
use ssh_end_machine::{Ask, AskStep, Fault, ServerEnd};
use ssh_model::laws;
use ssh_packet::{PacketReader, Sealing};
use ssh_transport_machine::ServerParts;
use std::alloc::{AllocError, Global};

/// A server whose program answers in its own time.
pub struct HeldServer<P: ServerParts, S: UserJudge + KnowsAlgorithms + Copy + Drop> {
    end: ServerEnd<P, Verdicts<S>>,
    next: NextRequest,
}

// Written out, since a derive would ask it of the parts' name too.
impl<P: ServerParts, S: UserJudge + KnowsAlgorithms + Copy + Drop> Drop for HeldServer<P, S> {
    fn drop(self) {
        let HeldServer { end: _, next: _ } = self;
    }
}

impl<P: ServerParts, S: UserJudge + KnowsAlgorithms + Copy + Drop> HeldServer<P, S> {
    /// Holds bytes of this server back. It looks at the next packet in this reader.
    pub fn of(end: ServerEnd<P, Verdicts<S>>, ahead: PacketReader) -> HeldServer<P, S>
        ensures end { result.end ≡ end }
        ensures none { result.next.is_wanted ≡ false }
    {
        HeldServer {
            end,
            next: NextRequest::new(ahead),
        }
    }

    /// The server, to show what it knows and what its last turn was.
    pub fn end(&self) -> &ServerEnd<P, Verdicts<S>>
        ensures { result.now ≡ self.now.end }
    {
        &self.end
    }

    /// Takes bytes of the peer to the end of one line or one packet, as `ssh_end_machine::End::take_step` does, unless the next packet is a
    /// request that asks the program, and the program has said nothing on it, or nothing on its signature. Then nothing changes and
    /// nothing is put out: find the answer to the `question`, `give` it, and give the same bytes again.
    ///
    /// # Errors
    ///
    /// Those of `End::take_step`.
    pub fn take(&mut self, bytes: &[u8], out: &mut Vec<u8>) -> Result<Taken, Fault>
        // How many bytes are used.
        ensures used { IfOk result (λ taken. IfUsed taken (λ used. used ≤ length bytes.now)) }
        ensures progress { IfOk result (λ taken. IfUsed taken (λ used. self.old.end.machine.kept.dead ≡ false → 0 < length bytes.now →
            0 < used)) }
        // Where an answer is wanted: what is asked. Nothing changes.
        ensures wanted { IfOk result (λ taken. taken ≡ Taken.Wanted → IsWanted P.Sealing.crypto self.old.end.machine
            (S.knows self.old.end.role.own.judge.signatures) self.old.end.role.own.judge.list.items bytes.now self.new.next.payload) }
        ensures shows { IfOk result (λ taken. taken ≡ Taken.Wanted → self.new.next.is_wanted ≡ true) }
        ensures same { IfOk result (λ taken. taken ≡ Taken.Wanted → self.new.end ≡ self.old.end) }
        ensures quiet { IfOk result (λ taken. taken ≡ Taken.Wanted → out.new.items ≡ out.old.items) }
        // Otherwise the next packet asks nothing on which the program said nothing. Where the padding comes from.
        ensures answered { UnlessWanted result (IsAnswered P.Sealing.crypto self.old.end.machine
            (S.knows self.old.end.role.own.judge.signatures) self.old.end.role.own.judge.list.items bytes.now) }
        ensures shut { UnlessWanted result (self.new.next.is_wanted ≡ false) }
        ensures padded { IfOk result (λ taken. IfUsed taken (λ used. PadsTo P.Sealing.crypto P.Filler.gives
            (sending_from self.old.end out.old.items) (sending_to self.new.end out.new.items))) }
        // The next place of a run.
        ensures placed { (p : Parties P.Sealing.Key) (history : List Item) →
            HeldAt P.Sealing.crypto P.Agreement.does P.HostSigner.keys (signatures_by S.verdicts S.knows) p self.old.end history →
            TakenTo (HeldAt P.Sealing.crypto P.Agreement.does P.HostSigner.keys (signatures_by S.verdicts S.knows) p self.new.end)
            (judged_by_book (signatures_by S.verdicts S.knows) self.old.end.role.own.judge p) sides.Server history self.old.end.machine
            bytes.now out.old.items out.new.items result self.new.end }
        ensures role { self.new.end.role ≡ self.old.end.role }
        // Where it fails, nothing is put out.
        ensures out { OnErr result (out.new.items ≡ out.old.items) }
    {
        if self.next.look(&self.end, self.end.user(), bytes) {
            return Ok(Taken::Wanted);
        }
        ssh_end_machine::end_laws::end_stands(&self.end);
        ssh_end_machine::peeking_laws::peeked_is_answered::<<P::Sealing as Sealing>::Key>();
        match self.end.take_step(bytes, out) {
            Ok(used) => Ok(Taken::Used(used)),
            Err(fault) => Err(fault),
        }
    }

    /// The request on which the last `take` wanted an answer. Its texts are slices of the server's buffer.
    pub fn wanted(&self) -> Option<Request<'_>>
        ensures is { IfSome result (λ request. IsPayload false (UserauthRequest request.user.now request.service.now
            (method_meaning request.method)) self.now.next.payload) }
        ensures fits { IfSome result (λ request. RequestFits request) }
        ensures some { self.now.next.is_wanted ≡ true → IsSome result }
        ensures none { self.now.next.is_wanted ≡ false → result ≡ None }
    {
        self.next.request()
    }

    /// The question that this request asks next, by what the program said so far. A request with a signed key asks about the key first,
    /// and then about the signature, if the program said yes to the key and the judge of signatures does not know the algorithm.
    ///
    /// # Errors
    ///
    /// Only if memory is refused.
    pub fn question(&self, alloc: Global) -> Result<Option<Asked>, AllocError>
        ensures is { IfOk result (λ found. IfSome found (λ asked. AsksNext (S.knows self.now.end.role.own.judge.signatures)
            self.now.end.role.own.judge.list.items (session_of self.now.end.machine) self.now.next.payload asked)) }
        ensures some { self.now.next.is_wanted ≡ true → IfOk result (λ found. IsSome found) }
        ensures none { self.now.next.is_wanted ≡ false → result ≡ Ok None }
    {
        let Some(request) = self.wanted() else {
            return Ok(None);
        };
        laws::one_message();
        let session = self.end.session_id().copied().unwrap_or([0; 32]);
        Ok(Some(request.next_question(alloc, &session, self.end.user())?))
    }

    /// Adds what the program said on a question. The first answer to a question counts. Once the user is authenticated, or the server is
    /// over, nothing is asked any more, and nothing is added.
    ///
    /// # Errors
    ///
    /// Only if memory is refused: nothing changes.
    pub fn give(&mut self, alloc: Global, asked: Asked, accepts: bool) -> Result<(), AllocError>
        ensures given { OnOk result (self.old.end.machine.kept.dead ≡ false → self.old.end.machine.kept.authenticated ≡ false →
            self.new.end.role.own.judge.list.items
            ≡ self.old.end.role.own.judge.list.items ++ record { asked = asked; accepts = accepts } ∷ []) }
        ensures same { OnErr result (self.new.end.role.own.judge.list.items ≡ self.old.end.role.own.judge.list.items) }
        ensures rest { self.new.end ≡ record self.old.end {
          role = record self.old.end.role { own = record self.old.end.role.own { judge = self.new.end.role.own.judge } };
        } }
        ensures signatures { self.new.end.role.own.judge.signatures ≡ self.old.end.role.own.judge.signatures }
        ensures next { self.new.next ≡ self.old.next }
        // The next place of a run.
        ensures placed { (p : Parties P.Sealing.Key) (history : List Item) →
            HeldAt P.Sealing.crypto P.Agreement.does P.HostSigner.keys (signatures_by S.verdicts S.knows) p self.old.end history →
            HeldAt P.Sealing.crypto P.Agreement.does P.HostSigner.keys (signatures_by S.verdicts S.knows) p self.new.end history }
    {
        if self.end.is_dead() || self.end.is_authenticated() {
            return Ok(());
        }
        ssh_end_machine::parts_laws::parts_exchanged::<<P::Sealing as Sealing>::Key>();
        crate::laws::verdicts_added::<<P::Sealing as Sealing>::Key>();
        let none = Verdicts::new(alloc, self.end.user().signatures);
        let mut verdicts = self.end.replace_user(none);
        let done = verdicts.give(asked, accepts);
        self.end.replace_user(verdicts);
        done
    }

    /// Does what its user asks for, or refuses the ask, as `ssh_end_machine::End::ask_step` does. Nothing is taken by it.
    ///
    /// # Errors
    ///
    /// Those of `End::ask_step`.
    pub fn ask_step(&mut self, ask: &Ask<'_>, out: &mut Vec<u8>) -> Result<AskStep, Fault>
        ensures padded { OnAnswered result (PadsTo P.Sealing.crypto P.Filler.gives (sending_from self.old.end out.old.items)
            (sending_to self.new.end out.new.items)) }
        ensures role { self.new.end.role ≡ self.old.end.role }
        ensures next { self.new.next ≡ self.old.next }
        // The next place of a run.
        ensures placed { (p : Parties P.Sealing.Key) (history : List Item) →
            HeldAt P.Sealing.crypto P.Agreement.does P.HostSigner.keys (signatures_by S.verdicts S.knows) p self.old.end history →
            AskedOn (HeldAt P.Sealing.crypto P.Agreement.does P.HostSigner.keys (signatures_by S.verdicts S.knows) p self.new.end)
            (judged_by_book (signatures_by S.verdicts S.knows) self.old.end.role.own.judge p) sides.Server history (state_of self.old.end)
            (ask_of ask.now) result (state_of self.new.end) (outs_of out.old.items out.new.items self.new.end.sent) }
        // Where it fails, nothing is put out.
        ensures out { OnErr result (out.new.items ≡ out.old.items) }
    {
        laws::supplied::asks_take_none::<<P::Sealing as Sealing>::Key>();
        self.end.ask_step(ask, out)
    }

    /// Keeps a fresh pair of cookie and secret for the next exchange of keys, as `ssh_end_machine::End::feed_material` does.
    pub fn feed_material(&mut self, cookie: [u8; 16], secret: [u8; 32]) -> bool
        ensures unchanged { result ≡ false → self.new.end ≡ self.old.end }
        ensures role { self.new.end.role ≡ self.old.end.role }
        ensures next { self.new.next ≡ self.old.next }
        // The next place of a run.
        ensures placed { (p : Parties P.Sealing.Key) (history : List Item) →
            HeldAt P.Sealing.crypto P.Agreement.does P.HostSigner.keys (signatures_by S.verdicts S.knows) p self.old.end history →
            FedOn (HeldAt P.Sealing.crypto P.Agreement.does P.HostSigner.keys (signatures_by S.verdicts S.knows) p self.new.end) sides.Server
            history cookie secret result }
    {
        self.end.feed_material(cookie, secret)
    }
}
