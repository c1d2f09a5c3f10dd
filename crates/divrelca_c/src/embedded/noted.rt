//! Whose keys and passwords a server was asked for.

ghost use Rattle.std.specs.Prelude.{◌≡◌, ◌≤◌, ◌++◌, IfOk, None, OnErr, OnOk, Some, [], ◌∷◌, false, option_map};
ghost use Rattle.std.specs.Vec.{vec_capacity, vec_len};
ghost use Rattle.std.specs.List.{list_any};
ghost use Rattle.divrelca_c.specs.Embedded.Asked.{Notes, asked_of, is_name_of, is_noted};

use ssh_end::{Took, Turn};
use ssh_message::{Message, Method};
use std::alloc::{AllocError, Global};

/// Names of users.
#[derive(Drop)]
pub struct Noted {
    names: Vec<Vec<u8>>,
    // Memory was refused for a name, so that every user counts as noted.
    all: bool,
    alloc: Global,
}

impl Noted {
    /// Nobody.
    pub fn new(alloc: Global) -> Noted
        ensures names { result.names.items ≡ [] }
        ensures all { result.all ≡ false }
    {
        Noted {
            names: Vec::new(alloc),
            all: false,
            alloc,
        }
    }

    /// Tests whether a user is noted.
    pub fn has(&self, user: &[u8]) -> bool
        ensures { result ≡ is_noted user.now self.now }
    {
        self.all || self.is_listed(user)
    }

    // Tests whether the name of a user is kept.
    fn is_listed(&self, user: &[u8]) -> bool
        ensures { result ≡ list_any (is_name_of user.now) self.now.names.items }
    {
        self.names.iter().any(|name| is_name_of(name, user))
    }

    /// Notes a user.
    pub fn add(&mut self, user: &[u8])
        ensures { Notes (Some user.now) self.old self.new }
    {
        if self.try_add(user).is_err() {
            self.all = true;
        }
    }

    // The same where memory is not refused.
    fn try_add(&mut self, user: &[u8]) -> Result<(), AllocError>
        ensures { OnOk result (Notes (Some user.now) self.old self.new) }
    {
        let name = copied(self.alloc, user)?;
        self.push(name)?;
        Ok(())
    }

    // Puts a name after the others.
    fn push(&mut self, name: Vec<u8>) -> Result<(), AllocError>
        ensures pushed { OnOk result (self.new.names.items ≡ self.old.names.items ++ name ∷ []) }
        ensures all { self.new.all ≡ self.old.all }
        ensures full { OnErr result (vec_capacity self.old.names ≤ vec_len self.old.names) }
    {
        self.names.push(name).map_err(|_| AllocError)
    }

    /// Notes whose key or password a turn's message asks for.
    pub fn hear(&mut self, turn: &Turn<'_>)
        ensures notes { Notes (asked_of turn.now.took) self.old self.new }
        ensures nobody { asked_of turn.now.took ≡ None → self.new ≡ self.old }
    {
        if let Some(user) = asked(turn)
            && !self.has(user)
        {
            self.add(user);
        }
    }
}

// The same bytes.
fn copied(alloc: Global, bytes: &[u8]) -> Result<Vec<u8>, AllocError>
    ensures { IfOk result (λ copy. copy.items ≡ bytes.now) }
{
    let mut copy = Vec::new(alloc);
    copy.extend_from_slice(bytes)?;
    Ok(copy)
}

// Whose key or password a turn's message asks for.
fn asked<'a>(turn: &Turn<'a>) -> Option<&'a [u8]>
    ensures { option_map (λ user. user.now) result ≡ asked_of turn.now.took }
{
    match turn.took {
        Some(
            Took::Message {
                message: Message::UserauthRequest { user, method, .. },
                ..
            },
        ) => match method {
            Method::Password { .. } | Method::Publickey { .. } => Some(user),
            _ => None,
        },
        _ => None,
    }
}

// Whether this is the name of the user.
fn is_name_of(name: &Vec<u8>, user: &[u8]) -> bool
    ensures { result ≡ is_name_of user.now name.now }
{
    name.as_slice() == user
}
