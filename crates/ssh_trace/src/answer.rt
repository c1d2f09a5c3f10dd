ghost use Rattle.std.specs.Prelude.{◌≡◌, ◌⊎◌, IfOk, OnErr, OnOk, string_bytes};
ghost use Rattle.std.specs.Io.KnownBytes.{Appends};
ghost use Rattle.ssh_trace.specs.declared.status.Status.TheVariants.{Fault};

use crate::status::Status;
use divrelca::{KIT, VERSION};
use std::alloc::{AllocError, Global};
use std::fmt::Display;
use std::io;
use std::io::Write;

/// The lines that a command prints, and its status.
#[derive(Drop)]
pub(crate) struct Answer {
    pub text: String,
    pub status: Status,
}

/// Writes an answer to `out`, or says on `err` why there is none.
pub(crate) fn finish<F: Display + Drop, W: Write, E: Write>(
    answer: Result<Answer, F>,
    out: &mut W,
    err: &mut E,
) -> Status
    ensures printed { IfOk answer (λ a. (result ≡ Fault)
        ⊎ ((result ≡ a.status) × Appends (W.contents out.old) (W.contents out.new) (string_bytes a.text))) }
    ensures fault { OnErr answer (result ≡ Fault) }
    ensures nothing { OnErr answer (out.new ≡ out.old) }
{
    let answer = match answer {
        Ok(answer) => answer,
        Err(fault) => return report(fault, err),
    };
    match put(answer.text.as_str(), out) {
        Ok(()) => answer.status,
        Err(error) => report(format_args!("can't write the output: {error}"), err),
    }
}

/// Prints on `out` what the program is: its name, its version and the kit that it is proved with, as one line.
pub fn version_to<W: Write, E: Write>(alloc: Global, out: &mut W, err: &mut E) -> Status {
    finish(version(alloc), out, err)
}

fn version(alloc: Global) -> Result<Answer, AllocError> {
    Ok(Answer {
        text: format!(in alloc; "ssh_trace {VERSION}, proved with {KIT}\n")?,
        status: Status::Done,
    })
}

/// Says on `err` why a command did nothing.
pub fn report<F: Display + Drop, E: Write>(fault: F, err: &mut E) -> Status
    ensures { result ≡ Fault }
{
    say(format_args!("error: {fault}"), err)
}

/// Writes a text of more than one line, which says by itself that it is an error, to `err`.
pub(crate) fn say<F: Display + Drop, E: Write>(text: F, err: &mut E) -> Status
    ensures { result ≡ Fault }
{
    // Where even this can't be written, the status alone tells of the fault.
    let _ = writeln!(err, "{text}");
    Status::Fault
}

fn put<W: Write>(text: &str, out: &mut W) -> io::Result<()>
    ensures { OnOk result (Appends (W.contents out.old) (W.contents out.new) text.now) }
{
    out.write_all(text.as_bytes())?;
    out.flush()
}
