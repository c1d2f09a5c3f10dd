//! The program `ssh_trace`: `decode HEX` shows one clear packet, `play FILE` plays a script, `check FILE` compares what it prints with what
//! it expects, `sweep FILE` plays it with each byte changed in turn, and `draw FILE` draws what happens. A `-` for FILE is standard input.
#![tactic(auto)]

use ssh_script::Shortened;
use ssh_trace::command_line::{Call, Source, Task, call_of, refuse};
use ssh_trace::{Status, check_to, decode_to, draw_to, play_to, report, sweep_to, version_to};
use std::io::Read;
use std::process::ExitCode;
use std::{env, fs, io};

fn main(rt: HostRuntime) -> ExitCode {
    ExitCode::from(run(&rt).code())
}

fn run(rt: &HostRuntime) -> Status {
    let (out, err) = (&mut rt.stdout(), &mut rt.stderr());
    let words = match words_of(rt) {
        Ok(words) => words,
        Err(error) => return report(format_args!("can't read the words: {error}"), err),
    };
    match call_of(rt.alloc(), words.as_slice()) {
        Ok(Call::Version) => version_to(rt.alloc(), out, err),
        Ok(Call::Decode(text)) => decode_to(rt.alloc(), text, out, err),
        Ok(Call::Script(task, Source::Input)) => {
            done(rt, task, "standard input", &mut rt.stdin())
        }
        Ok(Call::Script(task, Source::File(file))) => match fs::open(rt, file) {
            Ok(mut script) => done(rt, task, name_of(file), &mut script),
            Err(error) => {
                let file = Shortened(file);
                report(format_args!("can't open {file}: {error}"), err)
            }
        },
        Err(fault) => refuse(fault, err),
    }
}

// The name of a file without its folders.
fn name_of(file: &str) -> &str {
    file.rsplit('/').next().unwrap_or(file)
}

// Does this with a script that has this name.
fn done<S: Read>(rt: &HostRuntime, task: Task, name: &str, script: &mut S) -> Status {
    let (out, err) = (&mut rt.stdout(), &mut rt.stderr());
    match task {
        Task::Play => play_to(rt.alloc(), script, out, err),
        Task::Check => check_to(rt.alloc(), script, out, err),
        Task::Sweep => sweep_to(rt.alloc(), script, out, err),
        Task::Draw => draw_to(rt.alloc(), name, script, out, err),
    }
}

fn words_of(rt: &HostRuntime) -> io::Result<Vec<String>> {
    let words: Vec<String> = env::args(rt)?.collect(rt.alloc())?;
    Ok(words)
}
