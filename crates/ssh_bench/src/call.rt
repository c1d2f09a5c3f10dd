use std::{env, io};

/// The task of a call of the program, and in how many rounds each time is taken.
#[derive(Clone, Copy)]
pub enum Call {
    /// `run ROUNDS`: the work of the core.
    Run(u32),
    /// `ciphers ROUNDS`: the ciphers and curves.
    Ciphers(u32),
}

/// The times for which the words of the call ask, if they ask for times.
///
/// # Errors
///
/// The arguments can't be read, or memory is refused.
pub fn call_of(rt: &HostRuntime) -> io::Result<Option<Call>> {
    let words: Vec<String> = env::args(rt)?.collect(rt.alloc())?;
    let [_, command, rounds] = words.as_slice() else {
        return Ok(None);
    };
    let Ok(rounds) = rounds.as_str().parse() else {
        return Ok(None);
    };
    match command.as_str() {
        "run" => Ok(Some(Call::Run(rounds))),
        "ciphers" => Ok(Some(Call::Ciphers(rounds))),
        _ => Ok(None),
    }
}
