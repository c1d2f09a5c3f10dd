ghost use Rattle.std.specs.Prelude.{◌≡◌, ◌<◌, None, Some, IfOk, IfSome, IfNone, ℕ, OnErr, IsSome, Contains, length, replicate, slice_set};
ghost use Rattle.std.specs.Prelude.{option_map};
ghost use Rattle.ssh_model.specs.Protocol.Bounds.{most_channels};
ghost use Rattle.ssh_model.specs.State.Channels.Places.{at};
ghost use Rattle.ssh_model.specs.State.Channels.Kept.{used, IsUnused};
ghost use Rattle.ssh_channels.specs.Entries.{place_of};

use crate::entry::Entry;
use slab::Slab;
use ssh_types::bounds::MOST_CHANNELS;
use std::alloc::{AllocError, Global};
use std::marker::Model;

/// The channels of an end by their local numbers: for each number in use the key of an entry.
#[derive(Drop)]
pub(crate) struct Table {
    entries: Slab<Entry>,
    keys: Vec<Option<usize>>,
}

impl Model for Table {
    ghost use Rattle.std.specs.Prelude.{List, Option};
    ghost use Rattle.ssh_model.specs.State.Channels.Places.{Place};
    ghost use Rattle.ssh_channels.specs.Entries.{place_of};
    ghost use Rattle.ssh_channels.specs.Table.{places, IsTable};

    ghost Value = { List (Option Place) };

    ghost view = { λ t. places place_of t.entries t.keys.items };

    ghost invariant = { λ t. IsTable t.entries t.keys.items };
}

// The key at a number.
#[tactic(auto, using(crate::proofs::Tables::nothing_there, crate::proofs::Tables::something_there))]
fn key_at(keys: &[Option<usize>], number: u32) -> Option<usize>
    ensures { result ≡ at keys.now number }
{
    match keys.get(number as usize) {
        Some(&key) => key,
        None => None,
    }
}

// The lowest free number.
fn lowest_free(keys: &[Option<usize>]) -> Option<usize>
    ensures inside { IfSome result (λ number. number < length keys.now) }
    ensures free { IfSome result (λ number. at keys.now number ≡ None) }
    ensures lowest { IfSome result (λ number. (lower : ℕ) → lower < number → IsSome (at keys.now lower)) }
    ensures full { IfNone result ((number : ℕ) → number < length keys.now → IsSome (at keys.now number)) }
{
    for number in 0..keys.len() {
        if keys[number].is_none() {
            return Some(number);
        }
    }
    None
}

// The number for a new entry under this key: the key itself if it is a free number, and otherwise the lowest free one.
#[tactic(auto, using(crate::proofs::Tables::not_full))]
fn number_for(keys: &[Option<usize>], key: usize) -> usize
    requires { Contains keys.now None }
    ensures inside { result < length keys.now }
    ensures free { at keys.now result ≡ None }
    ensures own { key < length keys.now → at keys.now key ≡ None → result ≡ key }
{
    if key < keys.len() && keys[key].is_none() {
        return key;
    }
    match lowest_free(keys) {
        Some(number) => number,
        None => key,
    }
}

impl Table {
    /// No number is in use.
    ///
    /// # Errors
    ///
    /// Only if memory is refused.
    pub fn new(alloc: Global) -> Result<Table, AllocError>
        ensures { IfOk result (λ table. table ≡ replicate most_channels None) }
    {
        let keys = Vec::from_array(alloc, [None; MOST_CHANNELS])?;
        Ok(Table {
            entries: Slab::new(alloc),
            keys,
        })
    }

    /// The entry at a number.
    #[tactic(auto, using(crate::proofs::Tables::at_places))]
    pub fn get(&self, number: u32) -> Option<Entry>
        ensures { option_map place_of result ≡ at self.now number }
    {
        match key_at(&self.keys, number) {
            Some(key) => self.entries.get(key).copied(),
            None => None,
        }
    }

    /// Changes the entry at a number in use.
    #[tactic(auto, using(crate::proofs::Tables::at_places))]
    pub fn set(&mut self, number: u32, entry: Entry)
        requires { IsSome (at self.old number) }
        ensures { self.new ≡ slice_set self.old number (Some (place_of entry)) }
    {
        match key_at(&self.keys, number) {
            Some(key) => self.entries[key] = entry,
            None => {}
        }
    }

    /// Frees a number.
    #[tactic(auto, using(crate::proofs::Tables::at_places))]
    pub fn remove(&mut self, number: u32)
        ensures { self.new ≡ slice_set self.old number None }
    {
        match key_at(&self.keys, number) {
            Some(key) => {
                self.keys[number as usize] = None;
                self.entries.remove(key);
            }
            None => {}
        }
    }

    /// Puts an entry at a free number.
    ///
    /// # Errors
    ///
    /// Only if memory is refused: nothing changes.
    pub fn insert(&mut self, entry: Entry) -> Result<u32, AllocError>
        requires { used self.old < most_channels }
        ensures unused { IfOk result (λ number. IsUnused self.old number) }
        ensures put { IfOk result (λ number. self.new ≡ slice_set self.old number (Some (place_of entry))) }
        ensures kept { OnErr result (self.new ≡ self.old) }
    {
        match self.entries.insert(entry) {
            Ok(key) => {
                let number = number_for(&self.keys, key);
                self.keys[number] = Some(key);
                Ok(number as u32)
            }
            Err(_) => Err(AllocError),
        }
    }

    /// How many numbers are in use.
    pub fn count(&self) -> usize
        ensures { result ≡ used self.now }
    {
        self.entries.len()
    }
}
