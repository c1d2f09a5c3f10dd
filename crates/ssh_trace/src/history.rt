//! The events and the items of the two ends of an epoch.

ghost use Rattle.std.specs.Prelude.{◌≡◌, ◌∷◌, List, OnOk};
ghost use Rattle.ssh_model.specs.OneEpoch.History as history;
ghost use Rattle.ssh_model.specs.Protocol.Side.{DoneBy.By};
ghost use Rattle.ssh_trace.specs.History.{item_of, logged};

use ssh_types::{AskRefusal, Refusal, Side};
use std::alloc::{AllocError, Global};
use thiserror::Error;

/// An item of an end.
#[derive(Drop)]
pub enum Item {
    /// It was asked to send a payload.
    Asked,
    /// The ask was refused.
    AskRefused(AskRefusal),
    /// It took this payload.
    Took(Vec<u8>),
    /// It sent this payload.
    Sent(Vec<u8>),
    /// It refused its peer, or found its own numbers spent.
    Refused(Refusal),
    /// It is dead from now on.
    Died,
}

/// An item, and the end that did it.
#[derive(Drop)]
pub struct Done {
    pub side: Side,
    pub item: Item,
}

/// An event of an end.
#[derive(Clone, Copy)]
pub enum Event<'a> {
    /// It is asked to send this payload, of at least one byte.
    Ask(Side, &'a [u8]),
    /// These bytes come to it.
    Deliver(Side, &'a [u8]),
}

/// The items that events added, the oldest first, and the bytes that each side put out.
#[derive(Drop)]
pub struct Transcript {
    pub items: Vec<Done>,
    pub client_bytes: Vec<u8>,
    pub server_bytes: Vec<u8>,
}

/// An allocation failed, for a transcript or for the buffers of a pair. A pair that answered it has failed for good.
#[derive(Clone, Copy, Debug, PartialEq, Eq, Error)]
#[error("out of memory")]
pub struct Memory;

impl From<AllocError> for Memory {
    fn from(_error: AllocError) -> Memory {
        Memory
    }
}

// Records what an end did.
#[tactic(auto, using(crate::proofs::Logs::logged_one))]
pub(crate) fn note(log: &mut Vec<Done>, side: Side, item: Item) -> Result<(), AllocError>
    ensures { OnOk result ((run : List history.Done) → logged run log.new.items ≡ By side (item_of item) ∷ logged run
        log.old.items) }
{
    log.push(Done { side, item })?;
    Ok(())
}

// Records a payload that an end took.
pub(crate) fn note_took(
    alloc: Global,
    log: &mut Vec<Done>,
    side: Side,
    payload: &[u8],
) -> Result<(), AllocError>
    ensures { OnOk result ((run : List history.Done) → logged run log.new.items ≡ By side (history.Took payload.now) ∷ logged
        run log.old.items) }
{
    note(log, side, Item::Took(payload.to_vec(alloc)?))
}

// Records a payload that an end sent.
pub(crate) fn note_sent(
    alloc: Global,
    log: &mut Vec<Done>,
    side: Side,
    payload: &[u8],
) -> Result<(), AllocError>
    ensures { OnOk result ((run : List history.Done) → logged run log.new.items ≡ By side (history.Sent payload.now) ∷ logged
        run log.old.items) }
{
    note(log, side, Item::Sent(payload.to_vec(alloc)?))
}
