//! The answers of a program, and the bytes on their way to an end.

ghost use Rattle.std.specs.Prelude.{◌≡◌, ◌≤◌, length};

use example_held::LookUp;
use ssh_end_machine::{Told, Turn};
use ssh_toys::lines::{Problem, digits_of};
use std::alloc::Global;

/// No more lines and packets are on their way to an end at once.
pub const UNITS: u32 = 16;

/// A look-up that gives one answer to each question.
#[derive(Drop)]
pub struct Always {
    /// The answer.
    pub accepts: bool,
}

impl<Question> LookUp<Question> for Always {
    ghost answers = { λ old question accepts new. accepts ≡ old.accepts };

    fn answer(&mut self, _question: &Question) -> bool {
        self.accepts
    }
}

/// Whether the word is a yes.
///
/// # Errors
///
/// `NotALine` if it is neither a yes nor a no.
pub fn answer_of(word: &str) -> Result<bool, Problem> {
    match word {
        "yes" => Ok(true),
        "no" => Ok(false),
        _ => Err(Problem::NotALine),
    }
}

/// Takes bytes off the front.
///
/// # Errors
///
/// Only if memory is refused: nothing changes.
pub fn drop_front(alloc: Global, bytes: &mut Vec<u8>, used: usize) -> Result<(), Problem>
    requires { used ≤ length bytes.old.items }
{
    let mut rest = Vec::new(alloc);
    rest.extend_from_slice(bytes.as_slice().split_at(used).1)?;
    *bytes = rest;
    Ok(())
}

/// What a turn shows, which used so many bytes.
///
/// # Errors
///
/// Only if memory is refused.
pub fn turn_text(alloc: Global, used: usize, turn: &Turn<'_>) -> Result<String, Problem> {
    let mut text = format!(in alloc; "used {used}")?;
    match turn.told {
        Some(Told::Accepted { user, .. }) => {
            let user = digits_of(alloc, user)?;
            write!(text, " accepted {user}")?;
        }
        Some(Told::Completed { position }) => write!(text, " completed {position}")?,
        _ => {}
    }
    if let Some(refusal) = turn.refused {
        write!(text, " refused {} {}", refusal.number(), refusal.name())?;
    }
    Ok(text)
}
