//! Whether the payloads that each end took under keys are those that the other sent under them.

ghost use Rattle.std.specs.Prelude.{◌≡◌, ◌↔◌, ◌∷◌, IfOk, IfSome, IfNone, IsTrue, []};
ghost use Rattle.ssh_model.specs.Protocol.Lists.{IsPrefix};
ghost use Rattle.ssh_play.specs.Prefixes.{begins, after_first, has_newkeys, payloads_in};
ghost use Rattle.ssh_play.specs.Runs.{IsSafe, TakesWhatIsSent, is_side, payload_in, went};
ghost use Rattle.ssh_play.specs.declared.safety.Way.TheVariants.{Sent, Taken};

use ssh_end::{Done, Item};
use ssh_types::Side;
use std::alloc::{AllocError, Global};

// The number of NEWKEYS (RFC 4253 section 7.3).
const NEWKEYS: u8 = 21;

// Which payloads of an end are meant.
#[derive(Clone, Copy)]
enum Way {
    Taken,
    Sent,
}

/// Whether the payloads that each end took after its first NEWKEYS are a prefix of those that the other sent after its own.
pub(crate) fn is_safe(alloc: Global, run: &[Done]) -> Result<bool, AllocError>
    ensures { IfOk result (λ safe. IsTrue safe ↔ IsSafe run.now) }
{
    Ok(
        takes_what_is_sent(alloc, run, Side::Client)?
            && takes_what_is_sent(alloc, run, Side::Server)?,
    )
}

// The same of one end.
fn takes_what_is_sent(alloc: Global, run: &[Done], side: Side) -> Result<bool, AllocError>
    ensures { IfOk result (λ safe. IsTrue safe ↔ TakesWhatIsSent side run.now) }
{
    let taken = payloads(alloc, run, side, Way::Taken)?;
    let sent = payloads(alloc, run, side.peer(), Way::Sent)?;
    Ok(is_prefix(
        after_newkeys(taken.as_slice()),
        after_newkeys(sent.as_slice()),
    ))
}

// The payloads of one end, in their order.
fn payloads<'a>(
    alloc: Global,
    run: &'a [Done],
    side: Side,
    way: Way,
) -> Result<Vec<&'a [u8]>, AllocError>
    ensures { IfOk result (λ payloads. payloads_in payloads.items ≡ went side way run.now) }
{
    let mut payloads = Vec::new(alloc);
    for done in run {
        if !is_by(done, side) {
            continue;
        }
        if let Some(payload) = payload_of(&done.item, way) {
            payloads.push(payload)?;
        }
    }
    Ok(payloads)
}

fn is_by(done: &Done, side: Side) -> bool
    ensures { result ≡ is_side done.now.side side }
{
    done.side == side
}

// The payload that was taken or sent. That of a packet after a wrong guess was taken too.
fn payload_of(item: &Item, way: Way) -> Option<&[u8]>
    ensures some { IfSome result (λ payload. payload_in way item.now ≡ payload.now ∷ []) }
    ensures none { IfNone result (payload_in way item.now ≡ []) }
{
    match (item, way) {
        (Item::Took { payload, .. }, Way::Taken) => Some(payload.as_slice()),
        (Item::Skipped(payload), Way::Taken) => Some(payload.as_slice()),
        (Item::Sent { payload, .. }, Way::Sent) => Some(payload.as_slice()),
        _ => None,
    }
}

// Those after the first NEWKEYS.
fn after_newkeys<'a, 'b>(payloads: &'b [&'a [u8]]) -> &'b [&'a [u8]]
    ensures { payloads_in result.now ≡ after_first (payloads_in payloads.now) }
{
    for (index, payload) in payloads.iter().enumerate() {
        if is_newkeys(payload) {
            return &payloads[index + 1..];
        }
    }
    &[]
}

fn is_newkeys(payload: &[u8]) -> bool
    ensures { result ≡ has_newkeys payload.now }
{
    payload.first() == Some(&NEWKEYS)
}

// Whether the first list is a prefix of the second.
#[tactic(auto, using(crate::proofs::Prefixes::begins_is))]
fn is_prefix(begun: &[&[u8]], whole: &[&[u8]]) -> bool
    ensures { IsTrue result ↔ IsPrefix (payloads_in begun.now) (payloads_in whole.now) }
{
    has_prefix(whole, begun)
}

#[tactic(auto, using(crate::proofs::Prefixes::short_begins))]
fn has_prefix(whole: &[&[u8]], begun: &[&[u8]]) -> bool
    ensures { result ≡ begins (payloads_in begun.now) (payloads_in whole.now) }
{
    for (index, payload) in begun.iter().enumerate() {
        let Some(other) = whole.get(index) else {
            return false;
        };
        if *payload != *other {
            return false;
        }
    }
    true
}
