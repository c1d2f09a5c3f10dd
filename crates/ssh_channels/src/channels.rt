//! The channels of one end (RFC 4254 section 5).

ghost use Rattle.std.specs.Prelude.{◌≡◌, ◌<◌, ◌&&◌, Some, None, IfOk, IfSome, IfNone, true, false, length};
ghost use Rattle.ssh_model.specs.Protocol.Bounds.{most_owed_replies};
ghost use Rattle.ssh_model.specs.Protocol.Channels.Connection.{is_limit_reached};
ghost use Rattle.ssh_model.specs.State.Channels.Places.{at, is_at, is_open};
ghost use Rattle.ssh_model.specs.State.Channels.Kept.{no_channels, count_where, is_queue_full, is_table_full, owe};
ghost use Rattle.ssh_channels.specs.Entries.{place_of};
ghost use Rattle.ssh_channels.specs.Values.{reply_of};

use crate::Reply;
use crate::entry::Entry;
use crate::table::Table;
use ssh_types::bounds::{MOST_CHANNELS, MOST_OWED_REPLIES};
use std::alloc::{AllocError, Global};
use std::collections::VecDeque;
use std::marker::Model;

mod asking;
mod closing;
mod data;
mod globals;
mod opening;
mod requests;
mod showing;
mod sizes;
mod taking;
mod unblocking;

/// The channels of one end.
#[derive(Drop)]
pub struct Channels {
    table: Table,
    // The oldest first.
    owed: VecDeque<Reply>,
    // Global requests of the peer, and of this end, that wait for a reply.
    globals_here: u32,
    globals_there: u32,
}

impl Model for Channels {
    ghost use Rattle.std.specs.Prelude.{◌≤◌, map};
    ghost use Rattle.std.specs.VecDeque.{deque_capacity};
    ghost use Rattle.ssh_model.specs.Protocol.Bounds.{most_owed_replies};
    ghost use Rattle.ssh_model.specs.State.Channels.Kept as kept;
    ghost use Rattle.ssh_channels.specs.Values.{reply_of};

    ghost Value = { kept.Channels };

    ghost view = { λ c. record {
      places = c.table;
      owed = map reply_of c.owed.items;
      globals_here = c.globals_here;
      globals_there = c.globals_there;
    } };

    ghost invariant = { λ c. most_owed_replies ≤ deque_capacity c.owed };
}

impl Channels {
    /// No channels, and no requests that wait or replies that are owed.
    ///
    /// # Errors
    ///
    /// Only if memory is refused.
    pub fn new(alloc: Global) -> Result<Channels, AllocError>
        ensures { IfOk result (λ channels. channels ≡ no_channels) }
    {
        let table = Table::new(alloc)?;
        let owed = VecDeque::with_capacity(alloc, MOST_OWED_REPLIES)?;
        Ok(Channels {
            table,
            owed,
            globals_here: 0,
            globals_there: 0,
        })
    }

    // What is kept of a channel that is confirmed and that the peer did not close.
    fn open_entry(&self, number: u32) -> Option<Entry>
        ensures found { IfSome result (λ entry. at self.now.places number ≡ Some (place_of entry)) }
        ensures open { IfSome result (λ entry. is_open (place_of entry) ≡ true) }
        ensures closed { IfNone result (is_at is_open (at self.now.places number) ≡ false) }
    {
        match self.table.get(number) {
            Some(entry) if entry.is_open() => Some(entry),
            _ => None,
        }
    }

    // Each number is in use.
    fn is_table_full(&self) -> bool
        ensures { result ≡ is_table_full self.now.places }
    {
        self.table.count() >= MOST_CHANNELS
    }

    // One reply more cannot be owed.
    fn is_queue_full(&self, blocked: bool) -> bool
        ensures { result ≡ is_queue_full blocked self.now.owed }
    {
        blocked && self.owed.len() >= MOST_OWED_REPLIES
    }

    // A reply is owed after the others.
    fn owe(&mut self, reply: Reply)
        requires { length self.old.owed < most_owed_replies }
        ensures { self.new ≡ owe (reply_of reply) self.old }
    {
        self.owed.push_back_reserved(reply);
    }
}

// One more request that waits, if a reply is wanted; `None` if so many wait already.
fn count_where(want: bool, waiting: u32, most: u32) -> Option<u32>
    ensures counted { IfSome result (λ count. count ≡ count_where want waiting) }
    ensures fits { IfSome result (λ count. (want && is_limit_reached most waiting) ≡ false) }
    ensures many { IfNone result ((want && is_limit_reached most waiting) ≡ true) }
{
    if !want {
        return Some(waiting);
    }
    if waiting >= most {
        return None;
    }
    Some(waiting + 1)
}
