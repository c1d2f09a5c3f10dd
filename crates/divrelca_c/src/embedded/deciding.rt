//! A server whose program says in its own time who may log in.

ghost use Rattle.std.specs.Prelude.{◌≡◌, ◌++◌, IfOk, IfSome, List, None, Ok, OnErr, OnOk, [], ◌∷◌, false, is_some, true, ℕ};
ghost use Rattle.divrelca_c.specs.Embedded.Deciding.{Answered, Asks, HoldsBack, IsUndecided, OnlyUsers, ReadsRequest, StandsSettled};
ghost use Rattle.divrelca_c.specs.Embedded.Deciding.{TakesOr, TakesSettled, is_open, payload_of};
ghost use Rattle.divrelca_c.specs.Embedded.Users.{is_settled};
ghost use Rattle.ssh_held.specs.Held.{IsSettled};
ghost use Rattle.divrelca.specs.Parts.AesGcm.{aes_gcm};

use crate::embedded::opening::Server;
use crate::embedded::parts::EmbeddedServer;
use crate::embedded::users::Users;
use divrelca::AesGcm;
use ssh_end::{Fault, ServerEnd};
use ssh_held::{Asked, Request, Taken, request_in, unanswered_request};
use ssh_model::laws;
use ssh_packet::{PacketReader, Sealing};
use std::alloc::{AllocError, Global};
use std::mem::replace;

impl Server {
    /// Takes bytes of the peer as `take_step` does. If this server decides later (`decide_later`), it takes no request that its program has to
    /// decide on: one of a user without an entry on which the program said nothing, or one by a key to which it said yes, with a signature
    /// that it has to judge. Then nothing changes and nothing is put out: find the answer, `decide` it, and give the same bytes again. Once
    /// the user is authenticated, nothing is looked at.
    ///
    /// # Errors
    ///
    /// Those of `take_step`.
    pub fn take(&mut self, bytes: &[u8]) -> Result<Taken, Fault>
        ensures { TakesOr (HoldsBack (IsUndecided self.old.end.role.own.judge self.old.end.machine bytes.now) self.old self.new)
            (λ done. TakesSettled self.old bytes.now done self.new) result }
    {
        if self.is_asked(bytes) {
            return Ok(Taken::Wanted);
        }
        ssh_end_machine::end_laws::end_stands(&self.end);
        ssh_held::laws::settled_goes_on::<<AesGcm as Sealing>::Key>();
        match self.take_step(bytes) {
            Ok(used) => Ok(Taken::Used(used)),
            Err(fault) => Err(fault),
        }
    }

    // Looks at the next packet, and notes whether it asks the program.
    fn is_asked(&mut self, bytes: &[u8]) -> bool
        ensures wanted { result ≡ true → HoldsBack (IsUndecided self.old.end.role.own.judge self.old.end.machine bytes.now) self.old self.new }
        ensures settled { result ≡ false → is_some self.old.ahead ≡ true → IsSettled aes_gcm self.old.end.machine
            (is_settled self.old.end.role.own.judge.book.list.items self.old.end.role.own.judge.list.items) bytes.now }
        ensures shut { result ≡ false → is_open self.new.ahead ≡ false }
        ensures looks { is_some self.new.ahead ≡ is_some self.old.ahead }
        ensures same { self.new ≡ record self.old { ahead = self.new.ahead } }
    {
        let Some(mut ahead) = replace(&mut self.ahead, None) else {
            return false;
        };
        let is_wanted = is_undecided(&self.end, &mut ahead.reader, bytes);
        ahead.is_wanted = is_wanted;
        self.ahead = Some(ahead);
        is_wanted
    }

    /// The request that the last `take` wanted an answer on. Its texts are slices of the server's buffer.
    pub fn wanted(&self) -> Option<Request<'_>>
        ensures none { is_open self.now.ahead ≡ false → result ≡ None }
        ensures reads { is_open self.now.ahead ≡ true → ReadsRequest (payload_of self.now.ahead) result }
    {
        let ahead = self.ahead.as_ref()?;
        if !ahead.is_wanted {
            return None;
        }
        request_in(ahead.reader.payload())
    }

    /// Adds what the program says on the request that the last `take` wanted an answer on, and answers `true`: on its signature if that is
    /// what is missing, over the text that is signed in this session. It answers `false`, and nothing changes, if none is wanted: the end
    /// is over, the user is authenticated, or the user got an entry in the meantime.
    ///
    /// # Errors
    ///
    /// Only if memory is refused: nothing of what was said changes.
    pub fn decide(&mut self, alloc: Global, accepts: bool) -> Result<bool, AllocError>
        ensures answered { IfOk result (λ done. done ≡ true → Answered accepts self.old self.new) }
        ensures unchanged { result ≡ Ok false → self.new ≡ self.old }
        ensures kept { OnErr result (self.new.end.role.own.judge.book.list.items ≡ self.old.end.role.own.judge.book.list.items) }
        ensures entries { self.new.end.role.own.judge.list ≡ self.old.end.role.own.judge.list }
        ensures none { is_open self.old.ahead ≡ false → result ≡ Ok false }
        // What goes on holding of the server's run, and what stays.
        ensures stands { IfOk result (λ done. done ≡ true → StandsSettled self.old self.new) }
        ensures rest { OnlyUsers self.old self.new }
        ensures same { self.new ≡ record self.old { end = self.new.end; ahead = self.new.ahead } }
    {
        let Some(asked) = self.question(alloc)? else {
            return Ok(false);
        };
        ssh_end_machine::parts_laws::parts_exchanged::<<AesGcm as Sealing>::Key>();
        laws::supplied::judge_exchanged::<<AesGcm as Sealing>::Key>();
        ssh_held::laws::first_verdict_counts();
        ssh_held::laws::judged_asks();
        self.say(alloc, asked, accepts)?;
        self.shut();
        Ok(true)
    }

    // The question on which an answer is wanted, if one still is.
    fn question(&self, alloc: Global) -> Result<Option<Asked>, AllocError>
        ensures asked { IfOk result (λ found. IfSome found (λ asked. Asks self.now asked)) }
        ensures none { is_open self.now.ahead ≡ false → result ≡ Ok None }
    {
        if self.end.is_dead() || self.end.is_authenticated() {
            return Ok(None);
        }
        let Some(request) = self.wanted() else {
            return Ok(None);
        };
        if !request.asks() || self.end.user().settles(request.user, &request.method) {
            return Ok(None);
        }
        let session = self.end.session_id().copied().unwrap_or([0; 32]);
        let book = &self.end.user().book;
        Ok(Some(request.next_question(alloc, &session, book)?))
    }

    // Adds what the program says on a question.
    fn say(&mut self, alloc: Global, asked: Asked, accepts: bool) -> Result<(), AllocError>
        ensures said { OnOk result (self.new.end.role.own.judge.book.list.items
            ≡ self.old.end.role.own.judge.book.list.items ++ record { asked = asked; accepts = accepts } ∷ []) }
        ensures kept { OnErr result (self.new.end.role.own.judge.book.list.items ≡ self.old.end.role.own.judge.book.list.items) }
        ensures entries { self.new.end.role.own.judge.list ≡ self.old.end.role.own.judge.list }
        ensures rest { OnlyUsers self.old self.new }
        ensures same { self.new ≡ record self.old { end = self.new.end } }
    {
        let mut users = self.end.replace_user(Users::new(alloc));
        let done = users.book.give(asked, accepts);
        self.end.replace_user(users);
        done
    }
}

// Tests whether the next packet of a server is a request that its program has to decide on. The reader then shows it.
fn is_undecided(
    end: &ServerEnd<EmbeddedServer, Users>,
    ahead: &mut PacketReader,
    bytes: &[u8],
) -> bool
    ensures undecided { result ≡ true → IsUndecided end.now.role.own.judge end.now.machine bytes.now ahead.new.payload }
    ensures settled { result ≡ false → IsSettled aes_gcm end.now.machine
        (is_settled end.now.role.own.judge.book.list.items end.now.role.own.judge.list.items) bytes.now }
{
    if !unanswered_request(end, &end.user().book, ahead, bytes) {
        return false;
    }
    match request_in(ahead.payload()) {
        Some(request) => !end.user().settles(request.user, &request.method),
        None => false,
    }
}
