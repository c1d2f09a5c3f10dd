//! What an end did, recorded for a transcript.

ghost use Rattle.std.specs.Prelude.{◌∷◌, ◌≡◌, IfOk, List, OnOk, [], option_map};
ghost use Rattle.ssh_model.specs.Protocol.Wire.Message.{Msg};
ghost use Rattle.ssh_model.specs.Protocol.Side.{DoneBy.By};
ghost use Rattle.ssh_model.specs.Protocol.Sessions.Items as session;
ghost use Rattle.ssh_end_machine.specs.Asking.{ask_of};
ghost use Rattle.ssh_end_machine.specs.Told.{told_of};
ghost use Rattle.ssh_end_machine.specs.Turn.{channels_in, payloads_in};
ghost use Rattle.ssh_end.specs.TwoEnds.Items.{IsItem, Records};
ghost use Rattle.ssh_end.specs.TwoEnds.Recorded.{RecordsAsked, RecordsSent, payload_in};
ghost use Rattle.ssh_end.specs.TwoEnds.Recording.{Adds, AddsAsk, AddsDeath, AddsRefused, AddsSent, AddsStep, AddsTold, AddsTook, AddsTurn};

use crate::item::{Done, Item};
use crate::{Ask, AskKind, AskStep, End, EndRole, Fault, SentPayloads, Told, ToldKind, Took, Turn};
use ssh_types::{Refusal, Side};
use std::alloc::{AllocError, Global};

// Records what an end did.
pub(crate) fn record_item(log: &mut Vec<Done>, side: Side, item: Item) -> Result<(), AllocError>
    ensures records { OnOk result ((run : List session.Done) (what : session.Item) → IsItem item what → Records log.old.items run →
        Records log.new.items (By side what ∷ run)) }
    ensures sent { OnOk result (RecordsSent side (payload_in item) log.old.items log.new.items) }
{
    log.push(Done { side, item })?;
    Ok(())
}

// Records what was done in a turn of an end, after which the end may be over.
pub(crate) fn record_turn(
    alloc: Global,
    log: &mut Vec<Done>,
    side: Side,
    turn: &Turn<'_>,
    is_over: bool,
) -> Result<(), AllocError>
    ensures records { OnOk result (AddsTurn side turn.now is_over log.old.items log.new.items) }
    ensures sent { OnOk result (RecordsSent side (payloads_in turn.now.sent) log.old.items log.new.items) }
{
    record_took(alloc, log, side, turn.took)?;
    record_refused(log, side, turn.refused)?;
    record_sent(alloc, log, side, &turn.sent)?;
    record_told(log, side, turn.told)?;
    record_death(log, side, is_over)
}

// Records what was taken.
#[tactic(auto, using(crate::proofs::TwoEnds::Recorded::records_none))]
fn record_took(
    alloc: Global,
    log: &mut Vec<Done>,
    side: Side,
    took: Option<Took<'_>>,
) -> Result<(), AllocError>
    ensures records { OnOk result (AddsTook side took.entry log.old.items log.new.items) }
    ensures sent { OnOk result (RecordsSent side [] log.old.items log.new.items) }
{
    match took {
        None => Ok(()),
        Some(Took::OtherLine { text } | Took::VersionLine { text }) => {
            record_item(log, side, Item::TookLine(text.to_vec(alloc)?))
        }
        Some(Took::Skipped { payload }) => record_item(
            log,
            side,
            Item::Skipped(payload.to_vec(alloc)?),
        ),
        Some(
            Took::Message {
                channel,
                payload,
                ..
            },
        ) => {
            let payload = payload.to_vec(alloc)?;
            record_item(log, side, Item::Took { channel, payload })
        }
    }
}

// Records why the peer was refused.
#[tactic(auto, using(crate::proofs::TwoEnds::Recorded::records_none))]
fn record_refused(
    log: &mut Vec<Done>,
    side: Side,
    refused: Option<Refusal>,
) -> Result<(), AllocError>
    ensures records { OnOk result (AddsRefused side refused log.old.items log.new.items) }
    ensures sent { OnOk result (RecordsSent side [] log.old.items log.new.items) }
{
    match refused {
        None => Ok(()),
        Some(why) => record_item(log, side, Item::Refused(why)),
    }
}

// The end, once what it sent in its last turn is recorded.
pub(crate) fn recorded<R: EndRole>(
    alloc: Global,
    log: &mut Vec<Done>,
    side: Side,
    end: End<R>,
) -> Result<End<R>, AllocError>
    ensures same { IfOk result (λ given. given ≡ end) }
    ensures records { OnOk result (AddsSent side end.sent end.channels log.old.items log.new.items) }
    ensures sent { OnOk result (RecordsSent side end.sent log.old.items log.new.items) }
{
    record_sent(alloc, log, side, &end.last_turn().sent)?;
    Ok(end)
}

// Records what was sent.
fn record_sent(
    alloc: Global,
    log: &mut Vec<Done>,
    side: Side,
    sent: &SentPayloads<'_>,
) -> Result<(), AllocError>
    ensures records { OnOk result (AddsSent side (payloads_in sent.now) (channels_in sent.now) log.old.items log.new.items) }
    ensures sent { OnOk result (RecordsSent side (payloads_in sent.now) log.old.items log.new.items) }
{
    for (index, payload) in sent.payloads().iter().enumerate() {
        record_payload(alloc, log, side, sent.channel(index), payload.as_slice())?;
    }
    Ok(())
}

// Records that a payload was sent, on this channel or on none.
fn record_payload(
    alloc: Global,
    log: &mut Vec<Done>,
    side: Side,
    channel: Option<u32>,
    payload: &[u8],
) -> Result<(), AllocError>
    ensures records { OnOk result ((message : Msg) → Adds side (session.Item.Sent channel message payload.now ∷ []) log.old.items
        log.new.items) }
    ensures sent { OnOk result (RecordsSent side (payload.now ∷ []) log.old.items log.new.items) }
{
    let payload = payload.to_vec(alloc)?;
    record_item(log, side, Item::Sent { channel, payload })
}

// Records what the user is told.
#[tactic(auto, using(crate::proofs::TwoEnds::Recorded::records_none))]
fn record_told(log: &mut Vec<Done>, side: Side, told: Option<Told<'_>>) -> Result<(), AllocError>
    ensures records { OnOk result (AddsTold side (option_map told_of told.entry) log.old.items log.new.items) }
    ensures sent { OnOk result (RecordsSent side [] log.old.items log.new.items) }
{
    match told {
        None => Ok(()),
        Some(told) => record_item(log, side, Item::Told(ToldKind::of(&told))),
    }
}

// Records that an end is over, if it is.
#[tactic(auto, using(crate::proofs::TwoEnds::Recorded::records_none))]
pub(crate) fn record_death(log: &mut Vec<Done>, side: Side, is_over: bool) -> Result<(), AllocError>
    ensures records { OnOk result (AddsDeath side is_over log.old.items log.new.items) }
    ensures sent { OnOk result (RecordsSent side [] log.old.items log.new.items) }
{
    if is_over {
        record_item(log, side, Item::Died)
    } else {
        Ok(())
    }
}

// An ask, what an end did on it, and whether the end is over then.
#[derive(Clone, Copy)]
pub(crate) struct AskResult<'a> {
    pub(crate) ask: &'a Ask<'a>,
    pub(crate) done: Result<AskStep, Fault>,
    pub(crate) is_over: bool,
}

// Records an ask, what an end did on it, and what it sent.
pub(crate) fn record_ask(
    alloc: Global,
    log: &mut Vec<Done>,
    side: Side,
    given: AskResult<'_>,
    sent: &SentPayloads<'_>,
) -> Result<(), AllocError>
    ensures records { OnOk result (AddsAsk side (ask_of given.entry.ask.now) given.entry.done (payloads_in sent.now) (channels_in sent.now)
        given.entry.is_over log.old.items log.new.items) }
    ensures sent { OnOk result (RecordsAsked side given.entry.done (payloads_in sent.now) log.old.items log.new.items) }
{
    match given.done {
        Ok(step) => {
            record_item(log, side, Item::Asked(AskKind::of(given.ask)))?;
            record_step(alloc, log, side, &step, sent)?;
            record_death(log, side, given.is_over)
        }
        Err(Fault::Ask(why)) => {
            record_item(log, side, Item::Asked(AskKind::of(given.ask)))?;
            record_item(log, side, Item::AskRefused(why))
        }
        Err(Fault::Memory) => record_item(log, side, Item::Died),
        Err(Fault::Dead) => Ok(()),
    }
}

// Records what was sent on an ask, and told.
fn record_step(
    alloc: Global,
    log: &mut Vec<Done>,
    side: Side,
    step: &AskStep,
    sent: &SentPayloads<'_>,
) -> Result<(), AllocError>
    ensures records { OnOk result (AddsStep side step.now (payloads_in sent.now) (channels_in sent.now) log.old.items log.new.items) }
    ensures sent { OnOk result (RecordsSent side (payloads_in sent.now) log.old.items log.new.items) }
{
    record_refused(log, side, step.refused)?;
    record_sent(alloc, log, side, sent)?;
    match step.opening {
        None => Ok(()),
        Some(channel) => record_item(log, side, Item::Told(ToldKind::Opening { channel })),
    }
}

// Records that an end sent its version line.
pub(crate) fn record_line(
    alloc: Global,
    log: &mut Vec<Done>,
    side: Side,
    line: &[u8],
) -> Result<(), AllocError>
    ensures records { OnOk result (Adds side (session.Item.SentLine line.now ∷ []) log.old.items log.new.items) }
    ensures sent { OnOk result (RecordsSent side [] log.old.items log.new.items) }
{
    let line = line.to_vec(alloc)?;
    record_item(log, side, Item::SentLine(line))
}
