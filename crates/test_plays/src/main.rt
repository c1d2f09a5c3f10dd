//! What is run as a program, since no test reads a file or meets its own allocations alone: stored scripts, recorded payloads of OpenSSH,
//! Dropbear and PuTTY, and what becomes of calls, plays and ends if memory is refused. `make memory` runs the parts `calls`, `plays` and
//! `data` with each allocation refused in turn, until a run meets no refusal, and `sweeping` with some of its many refused.
//!
//! The word `scripts`, `payloads`, `calls`, `plays`, `data`, `sweeping` or `sweep` names the part that is run, and `unswept` all but the
//! last; without a word all are. The status is 0 where nothing was refused or a smaller allocation made up for it, 3 where memory was
//! refused before what the part is about, and 4 where it was refused within that; what this means is said next to each part. All else is
//! wrong: a part says so, and the status is 1. It is 2 for other words.
#![tactic(auto)]

mod calls;
mod data;
mod payloads;
mod plays;
mod scripts;
mod status;
mod sweeping;

use status::Status;
use std::process::ExitCode;
use std::{env, io};

// What is run.
#[derive(Clone, Copy)]
enum Part {
    Scripts,
    Payloads,
    Calls,
    Plays,
    Data,
    Sweeping,
    Sweep,
}

impl Part {
    fn run(&self, rt: &HostRuntime) -> Status {
        match self {
            Part::Scripts => scripts::run(rt),
            Part::Payloads => payloads::run(rt),
            Part::Calls => calls::run(rt),
            Part::Plays => plays::run(rt),
            Part::Data => data::run(rt),
            Part::Sweeping => sweeping::run(rt),
            Part::Sweep => scripts::sweep(rt),
        }
    }
}

const ALL: &[Part] = &[
    Part::Scripts,
    Part::Payloads,
    Part::Calls,
    Part::Plays,
    Part::Data,
    Part::Sweeping,
    Part::Sweep,
];

const UNSWEPT: &[Part] = &[
    Part::Scripts,
    Part::Payloads,
    Part::Calls,
    Part::Plays,
    Part::Data,
    Part::Sweeping,
];

fn main(rt: HostRuntime) -> ExitCode {
    let words = match words_of(&rt) {
        Ok(words) => words,
        Err(_) => return ExitCode::from(Status::Before.code()),
    };
    let Some(parts) = parts_of(words.as_slice()) else {
        let _ = println!(rt;
            "usage: test_plays [scripts | payloads | calls | plays | data | sweeping | sweep | unswept]"
        );
        return ExitCode::from(2);
    };
    for part in parts {
        let status = part.run(&rt);
        if status != Status::Done {
            return ExitCode::from(status.code());
        }
    }
    ExitCode::from(0)
}

fn words_of(rt: &HostRuntime) -> io::Result<Vec<String>> {
    let words: Vec<String> = env::args(rt)?.collect(rt.alloc())?;
    Ok(words)
}

// The parts that the words name, after the name of the program.
fn parts_of(words: &[String]) -> Option<&'static [Part]> {
    match words {
        [] | [_] => Some(ALL),
        [_, word] => match word.as_str() {
            "scripts" => Some(&[Part::Scripts]),
            "payloads" => Some(&[Part::Payloads]),
            "calls" => Some(&[Part::Calls]),
            "plays" => Some(&[Part::Plays]),
            "data" => Some(&[Part::Data]),
            "sweeping" => Some(&[Part::Sweeping]),
            "sweep" => Some(&[Part::Sweep]),
            "unswept" => Some(UNSWEPT),
            _ => None,
        },
        _ => None,
    }
}
