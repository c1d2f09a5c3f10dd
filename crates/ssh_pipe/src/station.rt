//! The work of both roles by themselves: an end goes on with the parts from which it draws and the asks of its desk.

use crate::agenda::Agenda;
use crate::ending::Ending;
use crate::error::PipeError;
use crate::log::Watched;
use crate::machine::Machine;
use crate::start::Start;
use divrelca::{End, KeySupply, Material, RandomBytes};
use ssh_end::{Fault, SuppliedEnd, Told};
use ssh_transport::{Config, Role, Supplied};
use std::alloc::AllocError;
use std::random::RandomSource;

/// One role's handling of what its end tells. `ServerDesk` and `ClientDesk` are the two.
pub trait Desk<'a> {
    /// Listens to what the end told, keeps the parts that are needed, and puts the asks for the end on the agenda.
    ///
    /// # Errors
    ///
    /// Only if memory is refused: what was told may be kept in part.
    fn hear(&mut self, told: &Told<'_>, agenda: &mut Agenda<'a>) -> Result<(), AllocError>;

    /// Sends what can be sent on channels, and gives their windows back.
    ///
    /// # Errors
    ///
    /// - `Memory`: memory was refused, and the end is over.
    /// - `Dead`: the end was over before.
    fn flow_on<E: End>(&mut self, end: &mut E, out: &mut Vec<u8>) -> Result<(), Fault>;
}

/// One end of a connection with all that it does by itself: bytes of its peer go in, and bytes for its peer come out. `Server` and `Client`
/// are its names for the two roles.
#[derive(Drop)]
pub struct Station<'a, E: End + Drop, R: RandomSource + Drop, D: Desk<'a> + Drop> {
    end: Watched<E>,
    supply: KeySupply<RandomBytes<R>>,
    agenda: Agenda<'a>,
    pub(crate) desk: D,
}

impl<'a, T: SuppliedEnd, R: RandomSource + Drop, D: Desk<'a> + Drop> Station<
    'a,
    ssh_end::End<T>,
    R,
    D,
>
where
    T::Exchange: Supplied,
{
    // An end of these settings, these parts and this user, which put its version line and its first KEXINIT into `out`, and goes on with
    // this desk. Where memory is refused, what was handed in is dropped.
    pub(crate) fn open(
        start: Start<'_, R>,
        config: Config<<T::Exchange as Role>::Sealing>,
        parts: <T::Exchange as Supplied>::Parts,
        user: T::User,
        desk: D,
        out: &mut Vec<u8>,
    ) -> Result<Station<'a, ssh_end::End<T>, R, D>, PipeError> {
        let Start {
            alloc,
            policy: _,
            supply,
            material,
        } = start;
        let Material { cookie, secret } = material;
        let end = ssh_end::End::<T>::new(alloc, config, parts, user, cookie, secret, out)?;
        Ok(Station {
            end: Watched::new(alloc, end),
            supply,
            agenda: Agenda::new(alloc),
            desk,
        })
    }
}

impl<'a, E: End + Drop, R: RandomSource + Drop, D: Desk<'a> + Drop> Station<'a, E, R, D> {
    /// Shows messages from now on, by number and name, in what it tells.
    ///
    /// # Errors
    ///
    /// Only `Memory`: messages are not shown.
    pub fn show_messages(&mut self) -> Result<(), PipeError> {
        self.end.show_messages().map_err(|_| PipeError::Memory)
    }
}

impl<'a, E: End + Drop, R: RandomSource + Drop, D: Desk<'a> + Drop> Machine
    for Station<'a, E, R, D> {
    fn take(&mut self, piece: &[u8], out: &mut Vec<u8>) -> Result<(), PipeError> {
        let mut rest = piece;
        // Each call uses a byte at least.
        for _ in 0..piece.len() {
            if rest.is_empty() || self.end.is_dead() {
                break;
            }
            let turn = self.end.take(rest, out)?;
            rest = rest.split_at(turn.used).1;
            self.agenda.hear(&turn)?;
            if let Some(told) = &turn.told {
                self.desk.hear(told, &mut self.agenda)?;
            }
            self.go_on(out)?;
        }
        Ok(())
    }

    fn go_on(&mut self, out: &mut Vec<u8>) -> Result<(), PipeError> {
        if self.end.is_dead() {
            return Ok(());
        }
        self.supply.keep_fresh(&mut self.end, out)?;
        if self.agenda.work(&mut self.end, out)? {
            self.desk.flow_on(&mut self.end, out)?;
        }
        Ok(())
    }

    fn is_over(&self) -> bool {
        self.end.is_dead()
    }

    fn lines(&self) -> &[u8] {
        self.end.lines()
    }

    fn clear_lines(&mut self) {
        self.end.clear_lines();
    }

    fn take_ending(&mut self) -> Option<Ending> {
        self.agenda.take_ending()
    }
}
