//! The words that the program takes.

use clap::{Arg, ArgAction, Command};
use std::alloc::{AllocError, Global};

// The name in usage, whatever the file of the program is called.
const PROGRAM: &str = "ssh_pipe";

const ABOUT: &str =
    "SSH over standard input and output: what the peer sends is read from standard input, and what goes to it is written to standard output";

const ABOUT_CLIENT: &str = "Runs one command at the server";

const ENDING: &str = "\
It has one thread. The command's input is read to its end, or until the server takes no more, before the server is heard: so it is no
dialogue. dvssh, a client over the library for C (make lib programs), hears and speaks at a time, and so does a program that embeds the
library (docs/EMBEDDING.md).

Exit status: that of the command, or 255 for all else, as a server that is not trusted, a session that breaks off, or a fault of usage,
file, memory or input and output, which standard error tells. A fault of the words is 2.";

const ABOUT_SERVER: &str = "Serves one connection with commands of its own";

const EXAMPLES: &str = "\
A client of OpenSSH and this server, and this client and a server of OpenSSH over two FIFOs:
  ssh -o ProxyCommand='ssh_pipe server --host-key KEY --user me --authorized-keys KEYS' me@host sha256sum <FILE
  mkfifo up down
  sshd -i -f CONFIG <up >down & ssh_pipe client --user me --host-key known_hosts --identity KEY 'uname -a' >up <down

The methods are curve25519-sha256 with strict key exchange, ssh-ed25519, aes128-gcm@openssh.com and, by --cipher,
aes256-gcm@openssh.com. Keys are of ssh-ed25519, in files of OpenSSH without a passphrase: keys of RSA and ECDSA, passphrases
and agents are not there. A file of a key or a password is read to 64 KiB, a list of keys to 16 MiB. A private key that others
may read is told. Faults and refusals are told on standard error.

ssh_pipe --version says what the program is: its version, and the kit that it is proved with.";

const COMMANDS: &str = "\
Commands of the server:
  echo WORDS    these words as a line
  sha256sum     the SHA-256 of its input
  cat           its input
  sink          nothing; it takes its input
  source N      N bytes, of which that at place k, from 0, is k modulo 251
  exit N        nothing; it ends with this status

Exit status:
  0  the client ended the connection, or closed it with no channel open
  1  the client was refused, or the session broke off
  2  a fault of usage, file, memory or input and output
Who came in, by what, and how it ended is told on standard error.";

/// The words of the program.
pub(super) fn command<'a>(alloc: Global) -> Result<Command<'a>, AllocError> {
    let command = program(alloc)?.subcommand(client(alloc)?)?;
    command.subcommand(server(alloc)?)
}

// The program without its subcommands.
fn program<'a>(alloc: Global) -> Result<Command<'a>, AllocError> {
    let command = Command::new(alloc, PROGRAM).bin_name(PROGRAM)?;
    Ok(
        command
            .about(ABOUT)
            .after_help(EXAMPLES)
            .subcommand_required(true)
            .arg_required_else_help(true),
    )
}

fn client<'a>(alloc: Global) -> Result<Command<'a>, AllocError> {
    let command = subcommand(alloc, "client", ABOUT_CLIENT, CLIENT_OPTIONS)?;
    command.after_help(ENDING).arg(command_word(alloc))
}

// The one word of a client that is no option.
fn command_word<'a>(alloc: Global) -> Arg<'a> {
    Arg::new(alloc, "COMMAND")
        .help("The command, or with --subsystem the name of a subsystem")
        .required(true)
}

fn server<'a>(alloc: Global) -> Result<Command<'a>, AllocError> {
    let command = subcommand(alloc, "server", ABOUT_SERVER, SERVER_OPTIONS)?;
    Ok(command.after_help(COMMANDS))
}

// A command with these options, and after them those that both take.
fn subcommand<'a>(
    alloc: Global,
    name: &'static str,
    about: &'static str,
    rows: &[Row],
) -> Result<Command<'a>, AllocError> {
    let command = Command::new(alloc, name).about(about);
    let command = with_options(alloc, command, rows)?;
    with_options(alloc, command, POLICY_OPTIONS)?.arg(verbose(alloc))
}

/// The word of the flag that shows messages.
pub(super) const VERBOSE: &str = "verbose";

// The one option with a short form.
fn verbose<'a>(alloc: Global) -> Arg<'a> {
    Arg::new(alloc, VERBOSE)
        .short('v')
        .long(VERBOSE)
        .help(
            "Show each message by its number and name on standard error, and nothing of what is in it",
        )
        .action(ArgAction::SetTrue)
}

// An option of a command.
struct Row {
    // The word after `--`, by which it is also read back.
    name: &'static str,
    // What help calls its value. None: a flag, which has none.
    value: Option<&'static str>,
    help: &'static str,
    required: bool,
}

// Who asks, which server is trusted, what the command reads, and where its output goes.
const CLIENT_OPTIONS: &[Row] = &[
    Row {
        name: "user",
        value: Some("NAME"),
        help: "The user's name at the server",
        required: true,
    },
    Row {
        name: "host-key",
        value: Some("FILE"),
        help: "The server's key of ssh-ed25519: a public key file, or a file like known_hosts",
        required: true,
    },
    Row {
        name: "host",
        value: Some("NAME"),
        help: "The name under which known_hosts has the key, as it stands there",
        required: false,
    },
    Row {
        name: "identity",
        value: Some("FILE"),
        help: "The user's private key of ssh-ed25519",
        required: false,
    },
    Row {
        name: "password-file",
        value: Some("FILE"),
        help: PASSWORD,
        required: false,
    },
    Row {
        name: "input",
        value: Some("FILE"),
        help: "The command's input; without it there is none",
        required: false,
    },
    Row {
        name: "output",
        value: Some("FILE"),
        help: "For its output, in place of standard error",
        required: false,
    },
    Row {
        name: "error-output",
        value: Some("FILE"),
        help: "For its error output, in place of standard error",
        required: false,
    },
    Row {
        name: "subsystem",
        value: None,
        help: "Run a subsystem",
        required: false,
    },
];

const PASSWORD: &str = "The user's password, as the one line of a file";

// Who serves, and who is let in.
const SERVER_OPTIONS: &[Row] = &[
    Row {
        name: "host-key",
        value: Some("FILE"),
        help: "The server's private key of ssh-ed25519",
        required: true,
    },
    Row {
        name: "user",
        value: Some("NAME"),
        help: "The name of the one user that is let in",
        required: true,
    },
    Row {
        name: "authorized-keys",
        value: Some("FILE"),
        help: "The user's public keys, a line each",
        required: false,
    },
    Row {
        name: "password-file",
        value: Some("FILE"),
        help: PASSWORD,
        required: false,
    },
];

// What both take.
const POLICY_OPTIONS: &[Row] = &[
    Row {
        name: "window",
        value: Some("BYTES"),
        help: "The window of a channel; more is faster over a slow network, but may hang with a peer that writes before it reads [default: 32768]",
        required: false,
    },
    Row {
        name: "rekey-after",
        value: Some("PACKETS"),
        help: "Exchange keys again after so many packets [default: 1048576]",
        required: false,
    },
    Row {
        name: "cipher",
        value: Some("NAMES"),
        help: "Offer aes128-gcm@openssh.com, aes256-gcm@openssh.com, or aes256-gcm@openssh.com,aes128-gcm@openssh.com [default: the first]",
        required: false,
    },
    Row {
        name: "offer-none",
        value: None,
        help: "Offer no encryption too, with hmac-sha2-256: whoever sees the bytes reads them",
        required: false,
    },
];

// The command with these options, in help in this order.
fn with_options<'a>(
    alloc: Global,
    command: Command<'a>,
    rows: &[Row],
) -> Result<Command<'a>, AllocError> {
    let mut command = command;
    for row in rows {
        command = command.arg(option(alloc, row))?;
    }
    Ok(command)
}

fn option<'a>(alloc: Global, row: &Row) -> Arg<'a> {
    let option = Arg::new(alloc, row.name)
        .long(row.name)
        .help(row.help)
        .required(row.required);
    match row.value {
        Some(value) => option.value_name(value),
        None => option.action(ArgAction::SetTrue),
    }
}
