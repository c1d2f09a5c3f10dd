//! An end whose turns are told.

ghost use Rattle.std.specs.Prelude.{◌≡◌, IfErr};
ghost use Rattle.divrelca.specs.Asking.{IsPassedOn};

use super::Log;
use divrelca::End;
use ssh_channels::Channels;
use ssh_end::{Ask, AskStep, Fault, Turn};
use std::alloc::Global;
use std::io;

/// An end whose turns are told in a log. It does what the end in it does; a turn that can't be told because memory fails answers
/// `Fault::Memory`.
#[derive(Drop)]
pub struct Watched<E: End + Drop> {
    end: E,
    log: Log,
}

impl<E: End + Drop> Watched<E> {
    /// This end, with a log in which nothing stands.
    pub fn new(alloc: Global, end: E) -> Watched<E> {
        Watched {
            end,
            log: Log::new(alloc),
        }
    }

    /// Shows messages from now on, as `Log::show_messages` does.
    ///
    /// # Errors
    ///
    /// Memory was refused.
    pub fn show_messages(&mut self) -> io::Result<()> {
        self.log.show_messages()
    }

    /// The log.
    pub fn lines(&self) -> &[u8] {
        self.log.lines()
    }

    /// All that stands in the log is told.
    pub fn clear_lines(&mut self) {
        self.log.clear();
    }

    // Tells of the last turn.
    fn tell(&mut self) -> Result<(), Fault>
        ensures memory { IfErr result (λ why. why ≡ Fault.Memory) }
        ensures end { self.new.end ≡ self.old.end }
    {
        match self.log.hear(&self.end.last_turn()) {
            Ok(()) => Ok(()),
            Err(_) => Err(Fault::Memory),
        }
    }
}

impl<E: End + Drop> End for Watched<E> {
    ghost takes = { λ watched bytes before after given new. IsPassedOn (E.takes watched.end bytes before after) given new.end };

    ghost shows = { λ watched turn. E.shows watched.end turn };

    ghost used = { λ watched. E.used watched.end };

    ghost asks = { λ watched asked before after given new. IsPassedOn (E.asks watched.end asked before after) given new.end };

    ghost feeds = { λ watched cookie secret is_taken new. E.feeds watched.end cookie secret is_taken new.end };

    ghost is_due = { λ watched. E.is_due watched.end };

    ghost is_over = { λ watched. E.is_over watched.end };

    ghost channels_of = { λ watched. E.channels_of watched.end };

    fn take_step(&mut self, bytes: &[u8], out: &mut Vec<u8>) -> Result<usize, Fault> {
        let used = self.end.take_step(bytes, out)?;
        self.tell()?;
        Ok(used)
    }

    fn last_turn(&self) -> Turn<'_> {
        self.end.last_turn()
    }

    fn is_dead(&self) -> bool {
        self.end.is_dead()
    }

    fn ask_step(&mut self, ask: &Ask<'_>, out: &mut Vec<u8>) -> Result<AskStep, Fault> {
        let step = self.end.ask_step(ask, out)?;
        self.tell()?;
        Ok(step)
    }

    fn channels(&self) -> &Channels {
        self.end.channels()
    }

    fn rekey_due(&self) -> bool {
        self.end.rekey_due()
    }

    fn feed_material(&mut self, cookie: [u8; 16], secret: [u8; 32]) -> bool {
        self.end.feed_material(cookie, secret)
    }
}
