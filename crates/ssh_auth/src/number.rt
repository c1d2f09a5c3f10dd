// Numbers of messages.

ghost use Rattle.std.specs.Prelude.{◌≡◌};
ghost use Rattle.ssh_model.specs.Protocol.Sessions.Phases.{is_unassigned as model_spare};

// Tests whether the number is below those of the connection and no message has it (RFC 4250 section 4.1.2).
pub(crate) fn is_unassigned(number: u8) -> bool
    ensures { result ≡ model_spare number }
{
    match number {
        1..=7 | 20..=21 | 30..=31 | 50..=53 | 60 => false,
        _ => number < 80,
    }
}
