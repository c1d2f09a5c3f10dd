//! Whom a server lets in, and which requests it asks its program about.

ghost use Rattle.std.specs.Prelude.{◌≡◌, ◌≤◌, ◌++◌, Err, IfErr, IfOk, [], ◌∷◌, false, length, map, true};
ghost use Rattle.ssh_model.specs.Protocol.Bounds.{longest_algorithm_name, longest_user_key};
ghost use Rattle.std.specs.List.{list_all, list_any};
ghost use Rattle.ssh_model.specs.Protocol.Wire.DataTypes.{is_text};
ghost use Rattle.divrelca_c.specs.Embedded.Users.{entry_of, has_entry, has_hash, has_key, is_settled, is_weak, verdicts_of};
ghost use Rattle.ssh_message.specs.Meaning.{method_meaning};

use crate::embedded::making::{MakeError, MakeRefusal};
use ciphers::ed25519::is_small_order;
use divrelca::{AcceptedKey, Ed25519Judge, Ed25519Signatures, PasswordHash};
use ssh_auth::UserJudge;
use ssh_held::Verdicts;
use ssh_message::Method;
use ssh_types::CallError;
use std::alloc::Global;

/// What lets one user in.
#[derive(Clone, Copy)]
pub enum Login {
    /// A key of ssh-ed25519, by the 32 bytes of its public key.
    Key([u8; 32]),
    /// A password.
    Password(PasswordHash),
}

/// One user and one thing that lets this user in.
#[derive(Drop)]
pub struct User {
    pub name: Vec<u8>,
    pub login: Login,
}

/// The users of a server: the entries that it was made with or that were set, and what its program said in the meantime. A user may have several
/// entries. What the program said on a request comes before the entries.
#[derive(Drop)]
pub struct Users {
    pub list: Vec<User>,
    pub book: Verdicts<Ed25519Signatures>,
}

impl Users {
    /// No user.
    pub fn new(alloc: Global) -> Users
        ensures list { result.list.items ≡ [] }
        ensures book { result.book.list.items ≡ [] }
    {
        Users {
            list: Vec::new(alloc),
            book: Verdicts::new(alloc, Ed25519Signatures),
        }
    }

    /// Adds a user, who is let in by a key or by a password.
    ///
    /// # Errors
    ///
    /// - `Login`: the name has no bytes.
    /// - `Key`: the key is a point of small order.
    /// - `Memory`: memory was refused.
    pub fn add(&mut self, alloc: Global, name: &[u8], login: Login) -> Result<(), MakeError>
        // What is added.
        ensures added { IfOk result (λ done.
            map entry_of self.new.list.items ≡ map entry_of self.old.list.items ++ (name.now, login) ∷ []) }
        ensures book { self.new.book ≡ self.old.book }
        ensures named { IfOk result (λ done. name.now ≡ [] → ⊥) }
        // Where it fails: nothing changes, and the first fault that holds is answered.
        ensures kept { IfErr result (λ error. self.new.list.items ≡ self.old.list.items) }
        ensures nameless { name.now ≡ [] → result ≡ Err (CallError.Refused MakeRefusal.Login) }
        ensures weak { (name.now ≡ [] → ⊥) → is_weak login ≡ true → result ≡ Err (CallError.Refused MakeRefusal.Key) }
        ensures otherwise { (name.now ≡ [] → ⊥) → is_weak login ≡ false → IfErr result (λ error. error ≡ CallError.Memory) }
    {
        if name.is_empty() {
            return Err(CallError::Refused(MakeRefusal::Login));
        }
        if let Login::Key(public) = login
            && is_small_order(&public)
        {
            return Err(CallError::Refused(MakeRefusal::Key));
        }
        let mut owned = Vec::new(alloc);
        owned.extend_from_slice(name)?;
        self.list
            .push(User { name: owned, login })
            .map_err(|_| CallError::Memory)
    }

    // Tests whether a password of the user has this hash. Each entry is looked at, wherever the first one is that lets the user in.
    fn has_hash(&self, user: &[u8], word: PasswordHash) -> bool
        ensures { result ≡ list_any (has_hash user.now word) self.now.list.items }
    {
        let mut found = false;
        for entry in self.list.iter() {
            found = found | has_hash(entry, user, word);
        }
        found
    }

    /// Tests whether a request of this user with this method is no question to the program: it said something on it, or the user has an
    /// entry; and its signature is not what is missing.
    pub fn settles(&self, user: &[u8], method: &Method<'_>) -> bool
        ensures { result ≡ is_settled self.now.book.list.items self.now.list.items user.now (method_meaning method.now) }
    {
        (self.book.said(user, method).is_some() || self.has_entry(user))
            && !self.book.awaits_signature(user, method)
    }

    /// Tests whether a user has an entry.
    pub fn has_entry(&self, user: &[u8]) -> bool
        ensures { result ≡ has_entry self.now.list.items user.now }
    {
        self.list.iter().any(|entry| is_named(entry, user))
    }

    // Tests whether an entry of this user has this key.
    fn has_key(&self, user: &[u8], algorithm: &[u8], key: &[u8]) -> bool
        requires named { length algorithm.now ≤ longest_algorithm_name }
        requires short { length key.now ≤ longest_user_key }
        ensures { result ≡ list_any (has_key user.now algorithm.now key.now) self.now.list.items }
    {
        self.list
            .iter()
            .any(|entry| has_key(entry, user, algorithm, key))
    }

    /// Tests whether every entry has this name.
    pub fn are_of(&self, name: &[u8]) -> bool
        ensures { result ≡ list_all (λ user. is_text user.name.items name.now) self.now.list.items }
    {
        self.list.iter().all(|user| is_named(user, name))
    }
}

impl UserJudge for Users {
    ghost verdicts = { verdicts_of };

    fn none(&self, user: &[u8]) -> bool {
        self.book.said(user, &Method::None).unwrap_or(false)
    }

    fn password(&self, user: &[u8], word: &[u8]) -> bool {
        let method = Method::Password {
            password: word,
            new_password: None,
        };
        match self.book.said(user, &method) {
            Some(accepts) => accepts,
            None => self.has_hash(user, PasswordHash::new(word)),
        }
    }

    fn key_known(&self, user: &[u8], algorithm: &[u8], key: &[u8]) -> bool {
        match self.book.said_of_key(user, algorithm, key) {
            Some(is_known) => is_known,
            None => self.has_key(user, algorithm, key),
        }
    }

    fn signature(&self, algorithm: &[u8], key: &[u8], text: &[u8], signature: &[u8]) -> bool {
        self.book.signature(algorithm, key, text, signature)
    }
}

// Whether the entry has this name.
fn is_named(user: &User, name: &[u8]) -> bool
    ensures { result ≡ is_text user.now.name.items name.now }
{
    user.name.as_slice() == name
}

// Whether this is the hash of the password of this entry, which is the user's. The password is looked at whatever the name is.
fn has_hash(entry: &User, user: &[u8], word: PasswordHash) -> bool
    ensures { result ≡ has_hash user.now word entry.now }
{
    match entry.login {
        Login::Password(hash) => {
            let is_word = word.is(&hash);
            is_named(entry, user) & is_word
        }
        Login::Key(_) => false,
    }
}

// Whether the key is that of this entry, which is the user's.
fn has_key(entry: &User, user: &[u8], algorithm: &[u8], key: &[u8]) -> bool
    requires named { length algorithm.now ≤ longest_algorithm_name }
    requires short { length key.now ≤ longest_user_key }
    ensures { result ≡ has_key user.now algorithm.now key.now entry.now }
{
    match entry.login {
        Login::Key(public) => {
            let accepted = [AcceptedKey {
                user: entry.name.as_slice(),
                public,
            }];
            let judge = Ed25519Judge {
                accepted: accepted.as_slice(),
            };
            judge.key_known(user, algorithm, key)
        }
        Login::Password(_) => false,
    }
}
