//! What a server's and a client's end have in common.

ghost use Rattle.std.specs.Borrow.{sem};
ghost use Rattle.std.specs.Io.BufRead.{Rests};
ghost use Rattle.std.specs.Io.{StartsWith};
ghost use Rattle.std.specs.Prelude.{◌≡◌, ◌<◌, ◌≤◌, Bool, IfOk, List, false, length, nat_le, ℕ};
ghost use Rattle.divrelca.specs.Asking.{IsOutcome};
ghost use Rattle.divrelca.specs.Ends.{DoesOnAsk, DoesWithBytes, FeedsPair, Performs, ShowsLast, TakesBytes, TakesTurn};
ghost use Rattle.ssh_end_machine.specs.declared.turn.Turn.{Turn as TurnValue};
ghost use Rattle.ssh_model.specs.State.Channels.Kept.{Channels as ChannelsValue};

use ssh_channels::Channels;
use ssh_end::{Ask, AskStep, EndRole, Fault, Turn};
use ssh_types::AskRefusal;

/// An end, a server's or a client's: each call does the same as the call of this name of `ServerEnd` and `ClientEnd`. The ghost members
/// say what each does.
pub trait End {
    // What it does with bytes of its peer, and what its last turn shows.
    ghost takes: { DoesWithBytes Self };

    ghost shows: { Self → TurnValue → Type 0 };

    ghost used: { Self → ℕ };

    // What it does on an ask, and with a cookie and a secret.
    ghost asks: { DoesOnAsk Self };

    ghost feeds: { Self → List ℕ → List ℕ → Bool → Self → Type 0 };

    // What is seen of it.
    ghost is_due: { Self → Bool };

    ghost is_over: { Self → Bool };

    ghost channels_of: { Self → ChannelsValue };

    /// What `take` does, for a program that needs the end before it looks at what was done. It answers how many bytes were used, and
    /// `last_turn` shows the rest until the next call.
    ///
    /// # Errors
    ///
    /// Those of `take`.
    fn take_step(&mut self, bytes: &[u8], out: &mut Vec<u8>) -> Result<usize, Fault>
        ensures takes { takes self.old bytes.now out.old.items out.new.items result self.new }
        ensures most { IfOk result (λ count. count ≤ length bytes.now) }
        ensures progress { IfOk result (λ count. is_over self.old ≡ false → 0 < length bytes.now → 0 < count) }
        ensures used { IfOk result (λ count. used self.new ≡ count) }
        ensures out { StartsWith out.new.items out.old.items };

    /// What was done in the last `take_step` or `take`. After `ask_step` it shows the payload that was sent.
    fn last_turn(&self) -> Turn<'_>
        ensures shows { shows self.now result }
        ensures used { result.used ≡ used self.now };

    /// Takes bytes of the peer to the end of one line or one packet, and shows what was done.
    ///
    /// # Errors
    ///
    /// - `Memory`: memory was refused, and the end is over.
    /// - `Dead`: the end was over before.
    fn take<'a>(&'a mut self, bytes: &[u8], out: &mut Vec<u8>) -> Result<Turn<'a>, Fault>
        ensures most { IfOk result (λ turn. turn.used ≤ length bytes.now) }
        ensures progress { IfOk result (λ turn. is_over self.old ≡ false → 0 < length bytes.now → 0 < turn.used) }
        ensures out { StartsWith out.new.items out.old.items }
        ensures* done { sem 𝓛 (Rests Self.row self.entry (TakesTurn takes shows self.old bytes.now out.old.items out.new.items result)) }
    {
        self.take_step(bytes, out)?;
        Ok(self.last_turn())
    }

    /// Tests whether the end is over.
    fn is_dead(&self) -> bool
        ensures { result ≡ is_over self.now };

    /// Does what the ask says.
    ///
    /// # Errors
    ///
    /// - `Ask`: the ask is refused, and changes nothing.
    /// - `Memory`: memory was refused, and the end is over.
    /// - `Dead`: the end was over before.
    fn ask_step(&mut self, ask: &Ask<'_>, out: &mut Vec<u8>) -> Result<AskStep, Fault>
        ensures asks { asks self.old ask.now out.old.items out.new.items result self.new }
        ensures out { StartsWith out.new.items out.old.items };

    /// Its channels.
    fn channels(&self) -> &Channels
        ensures { result.now ≡ channels_of self.now };

    /// Tests whether an exchange of keys is due.
    fn rekey_due(&self) -> bool
        ensures { result ≡ is_due self.now };

    /// Keeps a cookie and a secret for the next exchange, or answers `false` if it has some already.
    fn feed_material(&mut self, cookie: [u8; 16], secret: [u8; 32]) -> bool
        ensures { feeds self.old cookie secret result self.new };
}

impl<R: EndRole> End for ssh_end::End<R> {
    ghost takes = { TakesBytes R.EndRole R.Exchange.Role R.Exchange.Sealing.crypto R.Exchange.Filler.gives };

    ghost shows = { ShowsLast };

    ghost used = { λ end. end.used };

    ghost asks = { Performs R.EndRole R.Exchange.Role R.Exchange.Sealing.crypto R.Exchange.Filler.gives };

    ghost feeds = { FeedsPair R.EndRole R.Exchange.Role R.Exchange.Sealing.crypto R.Exchange.Filler.gives };

    ghost is_due = { λ end. nat_le end.machine.kept.settings.epoch_limit end.machine.kept.sending.count };

    ghost is_over = { λ end. end.machine.kept.dead };

    ghost channels_of = { λ end. end.layers.channels };

    fn take_step(&mut self, bytes: &[u8], out: &mut Vec<u8>) -> Result<usize, Fault> {
        ssh_end::End::take_step(self, bytes, out)
    }

    fn last_turn(&self) -> Turn<'_> {
        ssh_end::End::last_turn(self)
    }

    fn is_dead(&self) -> bool {
        ssh_end::End::is_dead(self)
    }

    fn ask_step(&mut self, ask: &Ask<'_>, out: &mut Vec<u8>) -> Result<AskStep, Fault> {
        ssh_end::End::ask_step(self, ask, out)
    }

    fn channels(&self) -> &Channels {
        ssh_end::End::channels(self)
    }

    fn rekey_due(&self) -> bool {
        ssh_end::End::rekey_due(self)
    }

    fn feed_material(&mut self, cookie: [u8; 16], secret: [u8; 32]) -> bool {
        ssh_end::End::feed_material(self, cookie, secret)
    }
}

/// What became of an ask.
#[derive(Clone, Copy, Debug, PartialEq, Eq)]
pub enum AskOutcome {
    /// It is done.
    Done,
    /// It can't be done yet, since keys are being exchanged or have to be, or the peer's NEWKEYS is still to come: ask again later.
    Later,
    /// It has no use any more: the peer closed the channel, or the end was over before.
    Gone,
}

/// Asks an end for something.
///
/// # Errors
///
/// - `Fault::Ask` with any other refusal: the end goes on.
/// - `Memory`: memory was refused, and the end is over.
pub fn asked<E: End>(end: &mut E, ask: &Ask<'_>, out: &mut Vec<u8>) -> Result<AskOutcome, Fault>
    ensures done { IsOutcome (E.asks end.old ask.now out.old.items out.new.items) result end.new }
    ensures out { StartsWith out.new.items out.old.items }
{
    match end.ask_step(ask, out) {
        Ok(_) => Ok(AskOutcome::Done),
        Err(Fault::Ask(AskRefusal::NotYet | AskRefusal::Busy | AskRefusal::RekeyDue)) => {
            Ok(AskOutcome::Later)
        }
        Err(Fault::Ask(AskRefusal::NoChannel | AskRefusal::Ended | AskRefusal::NothingOwed)) => {
            Ok(AskOutcome::Gone)
        }
        // The end was over before: nothing is to be done any more.
        Err(Fault::Dead) => Ok(AskOutcome::Gone),
        Err(fault) => Err(fault),
    }
}
