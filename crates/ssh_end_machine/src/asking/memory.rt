//! Memory that is refused above the transport.

ghost use Rattle.std.specs.Prelude.{◌≡◌, IfErr, IfOk, OnErr, OnOk};
ghost use Rattle.ssh_transport_machine.specs.State.{dead_state};
ghost use Rattle.ssh_transport_machine.specs.Answering.{HasRoom};
ghost use Rattle.ssh_transport_machine.specs.declared.machine.sending.SendOutcome.TheVariants.{Spent};
ghost use Rattle.ssh_end_machine.specs.Asking.{step_by};
ghost use Rattle.ssh_end_machine.specs.declared.asking.outcome.Fault.TheVariants.{Memory};
ghost use Rattle.ssh_model.specs.Protocol.Bounds.{numbers_of_epoch};

use crate::asking::outcome::{AskStep, Fault, outcome_step};
use ssh_transport::{Role, Transport};
use ssh_transport_machine::SendOutcome;

/// A layer above got no memory for what it would send. The end is over, and where no number is left for that, for want of one.
///
/// # Errors
///
/// - `Memory`: a number is left for what would be sent.
/// - `Dead`: the end was over before.
pub fn lack_memory<X: Role>(transport: &mut Transport<X>) -> Result<AskStep, Fault>
    // What it does.
    ensures spent { IfOk result (λ step. step ≡ step_by Spent) }
    ensures none_left { OnOk result (transport.old.machine.kept.sending.count ≡ numbers_of_epoch) }
    ensures rest { transport.new ≡ record transport.old { machine = transport.new.machine } }
    ensures over { transport.new.machine ≡ dead_state transport.old.machine }
    // If it fails.
    ensures memory { IfErr result (λ fault. fault ≡ Memory) }
    ensures room { OnErr result (HasRoom transport.old.machine) }
{
    if transport.is_spent() {
        transport.die();
        return Ok(outcome_step(SendOutcome::Spent));
    }
    transport.die();
    Err(Fault::Memory)
}
