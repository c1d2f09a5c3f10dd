use crate::answer::{Answer, finish};
use crate::epoch_player::watch_epoch;
use crate::play::text_of;
use crate::status::Status;
use ssh_play::watch;
use ssh_script::{Script, ScriptFault};
use std::alloc::Global;
use std::io::{Read, Write};

/// Plays a script and draws the run to `out`, as an SVG of at most 860 by 1,400 pixels: the messages as arrows, what the
/// network did to them, what users asked and were told, and which end refused what. It is called `name`.
///
/// The status is that of `play_to`, and so are the faults.
pub fn draw_to<R: Read, W: Write, E: Write>(
    alloc: Global,
    name: &str,
    script: &mut R,
    out: &mut W,
    err: &mut E,
) -> Status {
    finish(drawn(alloc, name, script), out, err)
}

fn drawn<R: Read>(alloc: Global, name: &str, script: &mut R) -> Result<Answer, ScriptFault> {
    let text = text_of(alloc, script)?;
    let drawing = match Script::read(alloc, text.as_slice())? {
        Script::Epoch(script) => watch_epoch(alloc, &script)?,
        Script::Session(script) => watch(alloc, &script)?,
    };
    let status = if drawing.has_refusal() {
        Status::Refused
    } else {
        Status::Done
    };
    Ok(Answer {
        text: drawing.finish(name)?,
        status,
    })
}
