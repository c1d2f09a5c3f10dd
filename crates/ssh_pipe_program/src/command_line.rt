//! The words after the program's name.

mod words;

use clap::ArgMatches;
use ssh_pipe::{
    Ciphers, EPOCH_LIMIT, LEAST_EPOCH_LIMIT, LEAST_WINDOW, MOST_WINDOW, Policy, RequestKind,
};
use std::alloc::{AllocError, Global};
use std::convert::AsStr;
use thiserror::Error;
use words::{VERBOSE, command};

/// The task that the program is called to do.
#[derive(Clone, Copy)]
pub enum Call<'a> {
    /// Be a client.
    Client(ClientOptions<'a>),
    /// Be a server.
    Server(ServerOptions<'a>),
    /// Say what the program is.
    Version,
}

/// The options of a client.
#[derive(Clone, Copy)]
pub struct ClientOptions<'a> {
    /// The user's name at the server.
    pub user: &'a str,
    /// The file with the key of the server.
    pub host_key: &'a str,
    /// The name under which the file has it.
    pub host: Option<&'a str>,
    /// The file of the user's private key.
    pub identity: Option<&'a str>,
    /// The file with the user's password.
    pub password_file: Option<&'a str>,
    /// The file that is the command's input.
    pub input: Option<&'a str>,
    /// The file for the command's output.
    pub output: Option<&'a str>,
    /// The file for its error output.
    pub error_output: Option<&'a str>,
    /// Whether the command is one or the name of a subsystem.
    pub kind: RequestKind,
    /// The command.
    pub command: &'a str,
    /// Windows, exchanges of keys, and whether `none` is offered.
    pub policy: Policy,
    /// Whether messages are shown on standard error.
    pub is_verbose: bool,
}

/// The options of a server.
#[derive(Clone, Copy)]
pub struct ServerOptions<'a> {
    /// The file of the server's private key.
    pub host_key: &'a str,
    /// The name of the one user.
    pub user: &'a str,
    /// The file of the user's public keys.
    pub authorized_keys: Option<&'a str>,
    /// The file with the user's password.
    pub password_file: Option<&'a str>,
    /// Windows, exchanges of keys, and whether `none` is offered.
    pub policy: Policy,
    /// Whether messages are shown on standard error.
    pub is_verbose: bool,
}

/// Why the words are no call.
#[derive(Debug, Drop, Error)]
pub enum UsageFault {
    /// The words are other ones than the program takes, or ask for help; the text says which it takes.
    #[error("{0}")]
    Words(clap::Error),
    /// A word is missing.
    #[error("no call: the words are client .. or server ..")]
    NoCall,
    /// A number is not one that the option takes.
    #[error("{option} takes a number of {least} to {most}")]
    Number {
        option: &'static str,
        least: u32,
        most: u32,
    },
    /// The ciphers are none of the lists that there are.
    #[error("--cipher takes aes128-gcm@openssh.com, aes256-gcm@openssh.com, or both in the order aes256-gcm@openssh.com,aes128-gcm@openssh.com")]
    Cipher,
    /// Memory was refused.
    #[error("memory was refused")]
    Memory(#[from(alloc)] AllocError),
}

/// Reads the words of a command line, the program's name the first.
///
/// # Errors
///
/// - `Words`: the words are other ones than the program takes, or ask for help.
/// - `NoCall`: a word is missing.
/// - `Number`, `Cipher`: an option has a value that it can't have.
/// - `Memory`: memory was refused.
pub fn call_of<'a, S: AsStr>(alloc: Global, words: &'a [S]) -> Result<Call<'a>, UsageFault> {
    if let [_, word] = words
        && word.as_str() == "--version"
    {
        return Ok(Call::Version);
    }
    let matches = match command(alloc)?.try_get_matches_from(words) {
        Ok(matches) => matches,
        Err(error) => return Err(UsageFault::Words(error)),
    };
    call_in(&matches)
}

// The call that these words are.
fn call_in<'a>(matches: &ArgMatches<'a>) -> Result<Call<'a>, UsageFault> {
    match matches.subcommand() {
        Some(("client", rest)) => Ok(Call::Client(client_options(rest)?)),
        Some(("server", rest)) => Ok(Call::Server(server_options(rest)?)),
        _ => Err(UsageFault::NoCall),
    }
}

fn client_options<'a>(words: &ArgMatches<'a>) -> Result<ClientOptions<'a>, UsageFault> {
    let kind = if words.get_flag("subsystem") {
        RequestKind::Subsystem
    } else {
        RequestKind::Exec
    };
    Ok(ClientOptions {
        user: needed(words, "user")?,
        host_key: needed(words, "host-key")?,
        host: words.get_str("host"),
        identity: words.get_str("identity"),
        password_file: words.get_str("password-file"),
        input: words.get_str("input"),
        output: words.get_str("output"),
        error_output: words.get_str("error-output"),
        kind,
        command: needed(words, "COMMAND")?,
        policy: policy(words)?,
        is_verbose: words.get_flag(VERBOSE),
    })
}

fn server_options<'a>(words: &ArgMatches<'a>) -> Result<ServerOptions<'a>, UsageFault> {
    Ok(ServerOptions {
        host_key: needed(words, "host-key")?,
        user: needed(words, "user")?,
        authorized_keys: words.get_str("authorized-keys"),
        password_file: words.get_str("password-file"),
        policy: policy(words)?,
        is_verbose: words.get_flag(VERBOSE),
    })
}

// The value of an option that is required.
fn needed<'a>(words: &ArgMatches<'a>, option: &str) -> Result<&'a str, UsageFault> {
    words.get_str(option).ok_or(UsageFault::NoCall)
}

fn policy(words: &ArgMatches<'_>) -> Result<Policy, UsageFault> {
    Ok(Policy {
        window: number(
            words.get_str("window"),
            "--window",
            LEAST_WINDOW,
            MOST_WINDOW,
        )?
        .unwrap_or(Policy::DEFAULT.window),
        epoch_limit: number(
            words.get_str("rekey-after"),
            "--rekey-after",
            LEAST_EPOCH_LIMIT,
            EPOCH_LIMIT,
        )?
        .unwrap_or(Policy::DEFAULT.epoch_limit),
        ciphers: match words.get_str("cipher") {
            Some(names) => Ciphers::named(names).ok_or(UsageFault::Cipher)?,
            None => Policy::DEFAULT.ciphers,
        },
        offers_none: words.get_flag("offer-none"),
    })
}

// The number that a word is, within these bounds.
fn number(
    word: Option<&str>,
    option: &'static str,
    least: u32,
    most: u32,
) -> Result<Option<u32>, UsageFault> {
    let Some(word) = word else {
        return Ok(None);
    };
    match word.parse::<u32>() {
        Ok(number) if least <= number && number <= most => Ok(Some(number)),
        _ => Err(UsageFault::Number {
            option,
            least,
            most,
        }),
    }
}
