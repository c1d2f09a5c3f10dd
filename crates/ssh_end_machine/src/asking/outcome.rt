//! What was done on an ask, and why nothing was done.

ghost use Rattle.std.specs.Prelude.{◌≡◌, None, Some};
ghost use Rattle.ssh_end_machine.specs.declared.asking.outcome.Fault.TheVariants.{Dead, Memory};
ghost use Rattle.ssh_end_machine.specs.Asking.{step_by};

use ssh_transport::TransportFault;
use ssh_transport_machine::SendOutcome;
use ssh_types::{AskRefusal, Refusal};
use std::fmt;
use thiserror::Error;

/// What was done on an ask that was not refused.
#[derive(Clone, Copy, Debug)]
pub struct AskStep {
    /// The end's own number of the channel of the message that was sent, if it belongs to one.
    pub channel: Option<u32>,
    /// The number of a channel that is opening, of which the user is told.
    pub opening: Option<u32>,
    /// No sequence number was left for the message: nothing was sent, and the end is over.
    pub refused: Option<Refusal>,
}

/// Why nothing was done on an ask. `{}` shows it in words, an `Ask` as its refusal.
#[derive(Clone, Copy, Debug, PartialEq, Eq, Error)]
pub enum Fault {
    /// Memory was refused: nothing was put out, and the end is over.
    Memory,
    /// The end was over before.
    Dead,
    /// The ask is refused, and changed nothing.
    Ask(AskRefusal),
}

impl fmt::Display for Fault {
    ghost use Rattle.ssh_end_machine.specs.Faults.{fault_text};

    ghost output = { λ fault. Some (fault_text fault) };

    fn fmt<W: fmt::Write>(&self, f: &mut fmt::Formatter<W>) -> fmt::Result {
        match self {
            Fault::Memory => write!(f, "memory was refused"),
            Fault::Dead => write!(f, "the end is over"),
            Fault::Ask(refusal) => write!(f, "{refusal}"),
        }
    }
}

impl From<TransportFault> for Fault {
    ghost use Rattle.ssh_end_machine.specs.Asking.{fault_by};

    ghost from_gives = { λ fault given. given ≡ fault_by fault };

    fn from(fault: TransportFault) -> Fault {
        match fault {
            TransportFault::Memory => Fault::Memory,
            TransportFault::Dead => Fault::Dead,
        }
    }
}

/// The step of what belongs to no channel.
pub fn outcome_step(answer: SendOutcome) -> AskStep
    ensures { result ≡ step_by answer }
{
    let refused = match answer {
        SendOutcome::Done => None,
        SendOutcome::Spent => Some(Refusal::NumberSpent),
    };
    AskStep {
        channel: None,
        opening: None,
        refused,
    }
}
