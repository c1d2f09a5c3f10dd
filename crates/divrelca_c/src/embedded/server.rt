//! The part of a server alone: users that are set while it runs.

ghost use Rattle.std.specs.Prelude.{◌≡◌, ◌++◌, ◌||◌, Err, IfErr, List, OnErr, OnOk, [], false, true, ℕ};
ghost use Rattle.std.specs.List.{list_all};
ghost use Rattle.divrelca_c.specs.Embedded.Asked.{AreNoted, is_noted};
ghost use Rattle.divrelca_c.specs.Embedded.Users.{AreSettled, verdicts_of};
ghost use Rattle.ssh_end_machine.specs.Stands.{ServerStandsAt};
ghost use Rattle.ssh_model.specs.Laws.Verdicts.{judged_by};
ghost use Rattle.ssh_model.specs.Protocol.Sessions.Items.{Item};
ghost use Rattle.ssh_model.specs.Protocol.Sessions.Parties.{Parties};
ghost use Rattle.ssh_model.specs.Protocol.Wire.DataTypes.{is_text};
ghost use Rattle.ssh_model.specs.State.TransportLayer.Kept.{ExchangeParts};
ghost use Rattle.ssh_types.specs.declared.call_error.CallError.TheVariants.{Refused};
ghost use Rattle.divrelca.specs.Parts.AesGcm.{aes_gcm};

use crate::embedded::opening::Server;
use crate::embedded::users::Users;
use divrelca::AesGcm;
use ssh_packet::Sealing;
use ssh_types::CallError;
use std::alloc::{AllocError, Global};

/// Why a user is not set.
#[derive(Clone, Copy)]
pub enum UserRefusal {
    /// The server is over.
    Over,
    /// The name has no bytes, or an entry has another one.
    Name,
    /// A key or a password of this user was asked for, or the user was set before.
    Known,
}

/// Why a user is not set, or that memory was refused.
pub type UserError = CallError<UserRefusal>;

impl From<UserRefusal> for CallError<UserRefusal> {
    ghost from_gives = { λ refusal error. error ≡ Refused refusal };

    fn from(refusal: UserRefusal) -> CallError<UserRefusal> {
        CallError::Refused(refusal)
    }
}

impl Server {
    /// Gives a server the keys and passwords of one user, once, after those that it has. They have to come before a key or a password of
    /// that user is asked for. So a program that knows all of a user answers all questions on that user at once; `decide` answers one. A
    /// request by the method `none`, which no entry grants, may come first: it shows the name (RFC 4252 section 5.2).
    ///
    /// So a verdict stays a function of the request, and what is proved of the server's run holds with the new users, too.
    ///
    /// # Errors
    ///
    /// Nothing changes.
    ///
    /// - `Over`: the server is over.
    /// - `Name`: the name has no bytes, or an entry has another one.
    /// - `Known`: a key or a password of this user was asked for, or the user was set before.
    /// - `Memory`: memory was refused.
    pub fn set_user(&mut self, alloc: Global, name: &[u8], users: Users) -> Result<(), UserError>
        // What it does.
        ensures set { OnOk result (self.new.end.role.own.judge.list.items ≡ self.old.end.role.own.judge.list.items ++ users.list.items) }
        ensures named { OnOk result (list_all (λ user. is_text user.name.items name.now) users.list.items ≡ true) }
        ensures fresh { OnOk result (is_noted name.now self.old.noted ≡ false) }
        ensures noted { OnOk result (is_noted name.now self.new.noted ≡ true) }
        ensures kept { (user : List ℕ) → is_noted user self.old.noted ≡ true → is_noted user self.new.noted ≡ true }
        ensures noted_only { OnOk result (self.new.noted.all ≡ false → (user : List ℕ) →
            is_noted user self.new.noted ≡ (is_noted user self.old.noted || is_text name.now user)) }
        // Which fault is answered: the first that holds, or that memory was refused.
        ensures over { self.old.end.machine.kept.dead ≡ true → result ≡ Err (CallError.Refused UserRefusal.Over) }
        ensures nameless { self.old.end.machine.kept.dead ≡ false → name.now ≡ [] → result ≡ Err (CallError.Refused UserRefusal.Name) }
        ensures another { self.old.end.machine.kept.dead ≡ false →
            list_all (λ user. is_text user.name.items name.now) users.list.items ≡ false →
            result ≡ Err (CallError.Refused UserRefusal.Name) }
        ensures known { self.old.end.machine.kept.dead ≡ false → (name.now ≡ [] → ⊥) →
            list_all (λ user. is_text user.name.items name.now) users.list.items ≡ true → is_noted name.now self.old.noted ≡ true →
            result ≡ Err (CallError.Refused UserRefusal.Known) }
        ensures otherwise { self.old.end.machine.kept.dead ≡ false → (name.now ≡ [] → ⊥) →
            list_all (λ user. is_text user.name.items name.now) users.list.items ≡ true → is_noted name.now self.old.noted ≡ false →
            IfErr result (λ fault. fault ≡ CallError.Memory) }
        // What goes on holding of the server's run, and what stays.
        ensures stands { OnOk result ((p : Parties _) (parts : ExchangeParts) (history : List Item) →
            ServerStandsAt p aes_gcm parts (verdicts_of self.old.end.role.own.judge) history self.old.end.machine
            self.old.end.layers → AreNoted history self.old.noted →
            ServerStandsAt (judged_by (verdicts_of self.new.end.role.own.judge) p) aes_gcm parts
            (verdicts_of self.new.end.role.own.judge) history self.new.end.machine self.new.end.layers) }
        // What was settled before it stays so.
        ensures settled { (history : List Item) → AreSettled self.old.end.role.own.judge history →
            AreSettled self.new.end.role.own.judge history }
        ensures book { self.new.end.role.own.judge.book ≡ self.old.end.role.own.judge.book }
        ensures rest { self.new.end ≡ record self.old.end {
          role = record self.old.end.role { own = record self.old.end.role.own { judge = self.new.end.role.own.judge } };
        } }
        ensures same { self.new ≡ record self.old { end = self.new.end; noted = self.new.noted } }
        // Where it fails, nothing changes.
        ensures unchanged { OnErr result (self.new.end.role.own.judge.list.items ≡ self.old.end.role.own.judge.list.items) }
        ensures unnoted { OnErr result (self.new.noted ≡ self.old.noted) }
    {
        if self.is_over() {
            return Err(UserRefusal::Over.into());
        }
        if name.is_empty() || !users.are_of(name) {
            return Err(UserRefusal::Name.into());
        }
        if self.noted.has(name) {
            return Err(UserRefusal::Known.into());
        }
        ssh_end::judge_laws::users_exchanged::<<AesGcm as Sealing>::Key>();
        self.extend(alloc, users)?;
        self.noted.add(name);
        Ok(())
    }

    // Adds users after those that there are.
    fn extend(&mut self, alloc: Global, users: Users) -> Result<(), AllocError>
        ensures set { OnOk result (self.new.end.role.own.judge.list.items ≡ self.old.end.role.own.judge.list.items ++ users.list.items) }
        ensures rest { self.new.end ≡ record self.old.end {
          role = record self.old.end.role { own = record self.old.end.role.own { judge = self.new.end.role.own.judge } };
        } }
        ensures unchanged { OnErr result (self.new.end.role.own.judge.list.items ≡ self.old.end.role.own.judge.list.items) }
        ensures book { self.new.end.role.own.judge.book ≡ self.old.end.role.own.judge.book }
        ensures same { self.new ≡ record self.old { end = self.new.end } }
    {
        let mut all = self.end.replace_user(Users::new(alloc));
        let Users {
            list: mut more,
            book: _,
        } = users;
        let done = all.list.append(&mut more);
        self.end.replace_user(all);
        done
    }
}
