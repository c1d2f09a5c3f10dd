//! The asks and payloads of a line, and the texts of its results.

ghost use Rattle.std.specs.Prelude.{IfOk};
ghost use Rattle.ssh_message.specs.Written.{Fits};

use ssh_message::{Line, Message, decode, encode};
use ssh_script::{AskLine, Script, Step};
use ssh_toys::lines::Problem;
use ssh_types::{AskRefusal, Refusal};
use std::alloc::Global;

/// The ask of a line, in the words of a script.
///
/// # Errors
///
/// `Problem` if the words are no ask, or memory is refused.
pub fn ask_of(alloc: Global, words: &str) -> Result<AskLine, Problem> {
    let text = format!(in alloc; "ask c {words}")?;
    let Script::Session(script) = script_of(alloc, text.as_str())? else {
        return Err(Problem::NotALine);
    };
    for line in script.steps {
        if let Step::Ask { ask, .. } = line.content {
            return Ok(ask);
        }
    }
    Err(Problem::NotALine)
}

fn script_of(alloc: Global, text: &str) -> Result<Script, Problem> {
    match Script::read(alloc, text.as_bytes()) {
        Ok(script) => Ok(script),
        Err(fault) => Err(Problem::Said(format!(in alloc; "{fault}")?)),
    }
}

/// The message of a payload.
///
/// # Errors
///
/// `Problem` if the payload is no message, or memory is refused.
pub fn message_of(alloc: Global, is_probing: bool, payload: &[u8]) -> Result<Message<'_>, Problem>
    ensures { IfOk result (λ message. Fits message) }
{
    match decode(is_probing, payload) {
        Ok(message) => Ok(message),
        Err(fault) => Err(Problem::Said(format!(in alloc; "{fault}")?)),
    }
}

/// A message that is sent, as a line.
///
/// # Errors
///
/// `Problem` if memory is refused.
pub fn sent(alloc: Global, message: &Message<'_>) -> Result<String, Problem>
    requires { Fits message.now }
{
    let mut payload = Vec::new(alloc);
    encode(message, &mut payload)?;
    match Line::new(true, &payload) {
        Ok(line) => Ok(format!(in alloc; "sent {line}")?),
        Err(fault) => Err(Problem::Said(format!(in alloc; "{fault}")?)),
    }
}

/// A refusal of the peer.
///
/// # Errors
///
/// `Problem` if memory is refused.
pub fn refused(alloc: Global, refusal: Refusal) -> Result<String, Problem> {
    Ok(format!(in alloc; "refused {} {}", refusal.number(), refusal.name())?)
}

/// A refusal of an ask.
///
/// # Errors
///
/// `Problem` if memory is refused.
pub fn ask_refused(alloc: Global, refusal: AskRefusal) -> Result<String, Problem> {
    Ok(format!(in alloc; "ask refused {} {}", refusal.number(), refusal.name())?)
}
