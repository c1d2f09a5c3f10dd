//! The logins of a client by keys that are not its own: its program has them signed.

ghost use Rattle.std.specs.Prelude.{◌≡◌, Err, IfErr, IfSome, None, OnErr, OnOk, Some, cond, drop, false, true};
ghost use Rattle.divrelca_c.specs.Embedded.Forms.{form_asks};
ghost use Rattle.divrelca_c.specs.Embedded.Signing.{IsSignedAsk, LacksSignature, OnlySigner, StandsSigning, is_signed_by, is_still_early, oldest_asks};
ghost use Rattle.ssh_end_machine.specs.Asking.{ask_of};
ghost use Rattle.ssh_model.specs.Protocol.Sessions.Items.{Ask.AskSign};
ghost use Rattle.ssh_held.specs.Signing.{AddsSignature, fits, is_known_in, is_sized, longest_text};
ghost use Rattle.ssh_held.specs.declared.known_signature.SignatureRefusal.TheVariants as SignatureRefusal;
ghost use Rattle.ssh_held.specs.declared.login_text.TextRefusal.TheVariants as TextRefusal;
ghost use Rattle.ssh_types.specs.declared.call_error.CallError.TheVariants as CallError;

use crate::embedded::ask_form::AskForm;
use crate::embedded::opening::Client;
use crate::embedded::waiting::Waiting;
use ssh_auth::UserAsk;
use ssh_end::Ask;
use ssh_held::{SignatureRefusal, TextRefusal, give_signature, knows_signature};
use ssh_types::CallError;
use std::alloc::Global;

/// Why a login by a key has no signature.
#[derive(Clone, Copy)]
pub enum SignatureLack {
    /// There is no text to sign.
    Text(TextRefusal),
    /// Neither the user's own key signs the text, nor was a signature of it set.
    Unknown,
}

impl Client {
    /// Sets the signature for a login of this user by this key, in the session of this client (`ssh_held::give_signature`).
    ///
    /// # Errors
    ///
    /// Nothing changes.
    ///
    /// - `Over`: the client is over.
    /// - `Text`: there is no text to sign.
    /// - `Size`: the signature has no bytes, or more than 4,096.
    /// - `Known`: the user's own key signs the text, or a signature of it was set.
    /// - `Memory`: memory was refused.
    pub fn set_signature(
        &mut self,
        alloc: Global,
        user: &[u8],
        algorithm: &[u8],
        key: &[u8],
        signature: &[u8],
    ) -> Result<(), CallError<SignatureRefusal>>
        // What it does.
        ensures given { OnOk result (AddsSignature self.old.end.machine.kept.session user.now algorithm.now key.now signature.now
            self.old.end.role.own.signer.list.items self.new.end.role.own.signer.list.items) }
        ensures fresh { OnOk result (is_known_in (is_signed_by self.old.end.role.own.signer) self.old.end.machine.kept.session user.now
            algorithm.now key.now ≡ false) }
        ensures kept { OnErr result (self.new.end.role.own.signer.list.items ≡ self.old.end.role.own.signer.list.items) }
        ensures own { self.new.end.role.own.signer.own ≡ self.old.end.role.own.signer.own }
        // Which fault is answered: the first that holds, or that memory was refused.
        ensures over { self.old.end.machine.kept.dead ≡ true → result ≡ Err (CallError.Refused SignatureRefusal.Over) }
        ensures early { self.old.end.machine.kept.dead ≡ false → self.old.end.machine.kept.session ≡ None →
            result ≡ Err (CallError.Refused (SignatureRefusal.Text TextRefusal.NotYet)) }
        ensures long { self.old.end.machine.kept.dead ≡ false → (self.old.end.machine.kept.session ≡ None → ⊥) →
            fits longest_text user.now algorithm.now key.now ≡ false →
            result ≡ Err (CallError.Refused (SignatureRefusal.Text TextRefusal.TooLong)) }
        ensures size { self.old.end.machine.kept.dead ≡ false → (self.old.end.machine.kept.session ≡ None → ⊥) →
            fits longest_text user.now algorithm.now key.now ≡ true → is_sized signature.now ≡ false →
            result ≡ Err (CallError.Refused SignatureRefusal.Size) }
        ensures known { self.old.end.machine.kept.dead ≡ false → (self.old.end.machine.kept.session ≡ None → ⊥) →
            fits longest_text user.now algorithm.now key.now ≡ true → is_sized signature.now ≡ true →
            is_known_in (is_signed_by self.old.end.role.own.signer) self.old.end.machine.kept.session user.now algorithm.now key.now ≡ true →
            result ≡ Err (CallError.Refused SignatureRefusal.Known) }
        ensures otherwise { self.old.end.machine.kept.dead ≡ false → (self.old.end.machine.kept.session ≡ None → ⊥) →
            fits longest_text user.now algorithm.now key.now ≡ true → is_sized signature.now ≡ true →
            is_known_in (is_signed_by self.old.end.role.own.signer) self.old.end.machine.kept.session user.now algorithm.now key.now
            ≡ false →
            IfErr result (λ fault. fault ≡ CallError.Memory) }
        // What goes on holding of the client's run, and what stays.
        ensures stands { StandsSigning self.old self.new }
        ensures rest { OnlySigner self.old self.new }
        ensures same { self.new ≡ record self.old { end = self.new.end } }
    {
        give_signature(alloc, &mut self.end, user, algorithm, key, signature)
    }

    /// Why a form is a login by a key for which the client has no signature, if it is one. Such an ask does not go to the end, which would send
    /// a login without a signature. An end that is over refuses it by itself.
    pub fn lacks(&self, form: &AskForm<'_>) -> Option<SignatureLack>
        ensures signed { result ≡ None → IsSignedAsk self.now (form_asks form.now self.now.key) }
        ensures lacks { IfSome result (LacksSignature self.now (form_asks form.now self.now.key)) }
    {
        match form.ask(&self.key) {
            Ok(ask) => self.lack_of(&ask),
            Err(_) => None,
        }
    }

    /// The same of the oldest ask that waits.
    pub fn oldest_lacks(&self) -> Option<SignatureLack>
        ensures signed { result ≡ None → IsSignedAsk self.now (oldest_asks self.now.waiting.items self.now.key) }
        ensures lacks { IfSome result (LacksSignature self.now (oldest_asks self.now.waiting.items self.now.key)) }
    {
        match &self.waiting.front()?.ask {
            Waiting::Form(kept) => self.lacks(&kept.form()),
            Waiting::Known(ask) => self.lack_of(ask),
        }
    }

    /// Drops the oldest ask that waits, a login without a signature, unless its text may still come.
    pub fn drop_unsigned(&mut self, why: SignatureLack)
        ensures waits { self.new.waiting.items ≡ cond (is_still_early why) self.old.waiting.items (drop 1 self.old.waiting.items) }
        ensures same { self.new ≡ record self.old { waiting = self.new.waiting } }
    {
        match why {
            SignatureLack::Text(TextRefusal::NotYet) => {}
            SignatureLack::Text(TextRefusal::TooLong) | SignatureLack::Unknown => {
                self.waiting.pop_front();
            }
        }
    }

    // Why an ask is for a login by a key for which the client has no signature, if it is for one.
    fn lack_of(&self, ask: &Ask<'_>) -> Option<SignatureLack>
        ensures signed { result ≡ None → IsSignedAsk self.now (Some (ask_of ask.now)) }
        ensures lacks { IfSome result (LacksSignature self.now (Some (ask_of ask.now))) }
    {
        match ask {
            Ask::User(
                UserAsk::Sign {
                    user,
                    algorithm,
                    key,
                },
            ) => self.lack_in(user, algorithm, key),
            _ => None,
        }
    }

    // The same of a login of this user by this key.
    fn lack_in(&self, user: &[u8], algorithm: &[u8], key: &[u8]) -> Option<SignatureLack>
        ensures signed { result ≡ None → IsSignedAsk self.now (Some (AskSign user.now algorithm.now key.now)) }
        ensures lacks { IfSome result (LacksSignature self.now (Some (AskSign user.now algorithm.now key.now))) }
    {
        if self.end.is_dead() {
            return None;
        }
        match knows_signature(&self.end, user, algorithm, key) {
            Ok(true) => None,
            Ok(false) => Some(SignatureLack::Unknown),
            Err(why) => Some(SignatureLack::Text(why)),
        }
    }
}
