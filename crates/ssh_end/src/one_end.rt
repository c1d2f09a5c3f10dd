//! What one end of a pair does, of either role.

ghost use Rattle.std.specs.Prelude.{◌≡◌, IfOk, OnOk};
ghost use Rattle.ssh_model.specs.Protocol.Side.{peer};
ghost use Rattle.ssh_transport.specs.Standing.{Stands};
ghost use Rattle.ssh_config.specs.Meaning.{settings_of};
ghost use Rattle.ssh_transport_machine.specs.Padding.{PadsTo};
ghost use Rattle.ssh_end_machine.specs.Asking.{ask_of};
ghost use Rattle.ssh_end_machine.specs.Ends.{sending_from_line, sending_to};
ghost use Rattle.ssh_end.specs.TwoEnds.Recorded.{RecordsSent, recorded_sent};
ghost use Rattle.ssh_end.specs.TwoEnds.Padding.{PadsOn};
ghost use Rattle.ssh_end.specs.TwoEnds.Playing.{Advances, Answers, OpensAs};

use crate::item::Done;
use crate::recording::{AskResult, record_ask, record_death, record_line, record_turn, recorded};
use crate::values::EndValues;
use crate::{Ask, End, EndRole, SuppliedEnd};
use ssh_model::laws;
use ssh_packet::Sealing;
use ssh_transport::{Role, Supplied};
use std::alloc::{AllocError, Global};

// An end that put out its version line and its first KEXINIT.
#[tactic(auto, using(crate::proofs::TwoEnds::Recorded::records_after))]
pub(crate) fn open_end<R: SuppliedEnd>(
    alloc: Global,
    values: EndValues<<R::Exchange as Role>::Sealing, <R::Exchange as Supplied>::Parts, R::User>,
    log: &mut Vec<Done>,
    out: &mut Vec<u8>,
) -> Result<End<R>, AllocError>
where
    R::Exchange: Supplied,
    ensures opens { IfOk result (λ end. OpensAs R.EndRole R.Exchange.SIDE (settings_of values.config)
        (record { cookie = values.cookie; secret = values.secret }) end log.old.items log.new.items out.old.items out.new.items) }
    ensures padded { IfOk result (λ end. PadsTo R.Exchange.Sealing.crypto R.Exchange.Filler.gives
        (sending_from_line (settings_of values.config) (R.Exchange.filler_of values.parts) out.old.items)
        (sending_to end out.new.items)) }
    ensures sent { IfOk result (λ end. RecordsSent R.Exchange.SIDE end.sent log.old.items log.new.items) }
    ensures made { IfOk result (λ end. R.Exchange.is_made_of end.role.exchange values.parts) }
    ensures user { IfOk result (λ end. R.is_made_of end.role.own values.user) }
{
    let side = <R::Exchange as Role>::SIDE;
    let (config, parts, user, cookie, secret) = values.into_parts();
    record_line(alloc, log, side, config.line())?;
    let opened = End::<R>::new(alloc, config, parts, user, cookie, secret, out)?;
    let end = recorded(alloc, log, side, opened)?;
    Ok(end)
}

// Asks an end for something. An end that is over does nothing.
pub(crate) fn ask_end<R: EndRole>(
    end: &mut End<R>,
    alloc: Global,
    ask: &Ask<'_>,
    log: &mut Vec<Done>,
    out: &mut Vec<u8>,
) -> Result<(), AllocError>
    ensures answers { OnOk result (Answers R.EndRole R.Exchange.SIDE end.old (ask_of ask.now) end.new log.old.items
        log.new.items out.old.items out.new.items) }
    ensures padded { OnOk result (PadsOn R.Exchange.Sealing.crypto R.Exchange.Filler.gives R.Exchange.SIDE end.old
        log.old.items out.old.items end.new log.new.items out.new.items) }
    ensures alone { OnOk result (recorded_sent (peer R.Exchange.SIDE) log.new.items ≡ recorded_sent (peer R.Exchange.SIDE)
        log.old.items) }
    ensures role { end.new.role ≡ end.old.role }
{
    laws::pair::items_stay_on_one_side();
    if end.is_dead() {
        return Ok(());
    }
    let done = end.ask_step(ask, out);
    let is_over = end.is_dead();
    let given = AskResult { ask, done, is_over };
    let sent = end.last_turn().sent;
    record_ask(alloc, log, <R::Exchange as Role>::SIDE, given, &sent)
}

// Delivers a piece of the peer's stream to an end. An end that is over does nothing.
pub(crate) fn deliver_to_end<R: EndRole>(
    end: &mut End<R>,
    alloc: Global,
    piece: &[u8],
    log: &mut Vec<Done>,
    out: &mut Vec<u8>,
) -> Result<(), AllocError>
    // What it does.
    ensures advanced { OnOk result (Advances R.EndRole R.Exchange.SIDE end.old piece.now end.new log.old.items log.new.items
        out.old.items out.new.items) }
    ensures alone { OnOk result (recorded_sent (peer R.Exchange.SIDE) log.new.items ≡ recorded_sent (peer R.Exchange.SIDE)
        log.old.items) }
    ensures live { OnOk result (Stands R.Exchange.SIDE end.new.machine) }
    // What goes on holding.
    ensures role { end.new.role ≡ end.old.role }
    // Where the padding comes from.
    ensures padded { OnOk result (PadsOn R.Exchange.Sealing.crypto R.Exchange.Filler.gives R.Exchange.SIDE end.old
        log.old.items out.old.items end.new log.new.items out.new.items) }
{
    laws::pair::items_stay_on_one_side();
    laws::pair::deliveries::<<<R::Exchange as Role>::Sealing as Sealing>::Key>();
    laws::end::deaths::<<<R::Exchange as Role>::Sealing as Sealing>::Key>();
    let side = <R::Exchange as Role>::SIDE;
    let mut at = 0;
    while at < piece.len() {
        if end.is_dead() {
            return Ok(());
        }
        let rest = piece.split_at(at).1;
        let Ok(used) = end.take_step(rest, out) else {
            record_death(log, side, true)?;
            ssh_end_machine::end_laws::end_stands(end);
            return Ok(());
        };
        let is_over = end.is_dead();
        record_turn(alloc, log, side, &end.last_turn(), is_over)?;
        at += used;
    }
    ssh_end_machine::end_laws::end_stands(end);
    Ok(())
}
