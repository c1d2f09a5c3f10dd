use crate::answer::{Answer, finish};
use crate::epoch_player::play_epoch;
use crate::status::Status;
use ssh_play::{Comparison, Played, Tally, compare, play, sweep};
use ssh_script::{MOST_SCRIPT_BYTES, Script, ScriptFault};
use std::alloc::Global;
use std::io::{Read, Write};

/// Plays a script, read to its end, and prints its transcript on `out`: a line for each thing that an end did, in their order.
///
/// `Status::Done` if no end refused its peer, `Status::Refused` if one did. `Status::Fault`, with a message on
/// `err` and nothing on `out`, if the script can't be read or has more than `MOST_SCRIPT_BYTES`, a line of it is wrong (the message
/// gives its number, from 1), or an allocation failed; and if writing to `out` failed.
pub fn play_to<R: Read, W: Write, E: Write>(
    alloc: Global,
    script: &mut R,
    out: &mut W,
    err: &mut E,
) -> Status {
    finish(transcript(alloc, script), out, err)
}

/// Plays a script, and compares its transcript with the lines that the script expects: prints `ok N` for N lines, or `differs at K` for the
/// first line, from 1, that differs or that one of the two lacks.
///
/// `Status::Done` if all are the same, whoever refused whom, and `Status::Refused` if they differ. `Status::Fault` as for `play_to`.
pub fn check_to<R: Read, W: Write, E: Write>(
    alloc: Global,
    script: &mut R,
    out: &mut W,
    err: &mut E,
) -> Status {
    finish(checked(alloc, script), out, err)
}

/// Plays the script of a session once, and then three times for each byte that an end put out, with that byte changed, left out and
/// delivered twice. Prints `N runs, M unsafe`. A run is unsafe if the payloads that an end took after its first NEWKEYS are no prefix of
/// those that the other sent after its own.
///
/// `Status::Done` if no run is unsafe, otherwise `Status::Refused`. `Status::Fault` as for `play_to`, and for the script of an epoch.
pub fn sweep_to<R: Read, W: Write, E: Write>(
    alloc: Global,
    script: &mut R,
    out: &mut W,
    err: &mut E,
) -> Status {
    finish(swept(alloc, script), out, err)
}

fn transcript<R: Read>(alloc: Global, script: &mut R) -> Result<Answer, ScriptFault> {
    let script = script_of(alloc, script)?;
    let Played { lines, refused } = played(alloc, &script)?;
    Ok(Answer {
        text: lines,
        status: if refused {
            Status::Refused
        } else {
            Status::Done
        },
    })
}

fn checked<R: Read>(alloc: Global, script: &mut R) -> Result<Answer, ScriptFault> {
    let script = script_of(alloc, script)?;
    let played = played(alloc, &script)?;
    let expected = match &script {
        Script::Epoch(script) => script.expected.as_slice(),
        Script::Session(script) => script.expected.as_slice(),
    };
    let comparison = compare(played.lines.as_str(), expected);
    Ok(Answer {
        text: format!(in alloc; "{comparison}\n")?,
        status: match comparison {
            Comparison::Same(_) => Status::Done,
            Comparison::DiffersAt(_) => Status::Refused,
        },
    })
}

fn swept<R: Read>(alloc: Global, script: &mut R) -> Result<Answer, ScriptFault> {
    let tally = match script_of(alloc, script)? {
        Script::Epoch(_) => return Err(ScriptFault::Epoch),
        Script::Session(script) => sweep(alloc, &script)?,
    };
    let Tally { unsafe_runs, .. } = tally;
    Ok(Answer {
        text: format!(in alloc; "{tally}\n")?,
        status: if unsafe_runs == 0 {
            Status::Done
        } else {
            Status::Refused
        },
    })
}

// The script that a reader gives.
fn script_of<R: Read>(alloc: Global, script: &mut R) -> Result<Script, ScriptFault> {
    let text = text_of(alloc, script)?;
    Script::read(alloc, text.as_slice())
}

/// The text that a reader gives. No more is read than shows that it is too long.
pub(crate) fn text_of<R: Read>(alloc: Global, script: &mut R) -> Result<Vec<u8>, ScriptFault> {
    let mut text = Vec::new(alloc);
    let mut limited = script.by_ref().take(MOST_SCRIPT_BYTES as u64 + 1);
    if let Err(error) = limited.read_to_end(&mut text) {
        return Err(ScriptFault::Unreadable(error));
    }
    Ok(text)
}

fn played(alloc: Global, script: &Script) -> Result<Played, ScriptFault> {
    match script {
        Script::Epoch(script) => play_epoch(alloc, script),
        Script::Session(script) => play(alloc, script),
    }
}
