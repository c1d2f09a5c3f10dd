//! From options to a session and its exit status.

mod error;
mod inputs;

use crate::command_line::{ClientOptions, ServerOptions, UsageFault};
use crate::status::Status;
use divrelca::key_files::PrivateKey;
use divrelca::{AcceptedKey, Ed25519Signer, KIT, VERSION};
pub use error::RunError;
use inputs::{accepted_keys, opened, password_in, private_key_in, sink, trusted_keys_in};
use ssh_pipe::{
    Client, ClientSession, CommandFiles, Ending, Login, Machine, OneUser, PasswordHash, PipeError,
    Request, Server, Start, UserKey, pump, run_command, string_of,
};
use std::fmt::Display;
use std::io::{IsTerminal, Write};

/// Says on standard output what the program is: its name, its version and the kit that it is proved with, as one line.
pub fn version(rt: &HostRuntime) -> Status {
    match writeln!(rt.stdout(), "ssh_pipe {VERSION}, proved with {KIT}") {
        Ok(()) => Status::Done,
        Err(error) => report(rt, error, Status::Fault),
    }
}

/// Serves one connection as the options say. Standard error is told who came in and by which method, how the connection ended, and why it
/// can't be served.
pub fn serve(rt: &HostRuntime, options: &ServerOptions<'_>) -> Status {
    match served(rt, options) {
        Ok(ending) if is_orderly(&ending) => {
            let _ = writeln!(rt.stderr(), "{ending}");
            Status::Done
        }
        Ok(ending) => report(rt, ending, Status::Refused),
        Err(error) => report(rt, error, Status::Fault),
    }
}

// SSH_DISCONNECT_BY_APPLICATION: the peer is done (RFC 4253 section 11.1).
const BY_APPLICATION: u32 = 11;

// Tests whether a server's session ended as its client wanted it.
fn is_orderly(ending: &Ending) -> bool {
    match ending {
        Ending::Disconnected { reason, .. } => *reason == BY_APPLICATION,
        Ending::Left => true,
        _ => false,
    }
}

/// Runs one command at the server as the options say. Why it can't is told on standard error. The command's output goes there too, if
/// the options name no file. If they name one and standard error is a terminal, a line on it says how far the transfer is.
pub fn call(rt: &HostRuntime, options: &ClientOptions<'_>) -> Status {
    match called(rt, options) {
        Ok(Some(Ending::Status(status))) => Status::Command(u8::try_from(status).unwrap_or(255)),
        Ok(Some(ending)) => {
            tell_host(rt, &ending, options);
            report(rt, ending, Status::Failed)
        }
        Ok(None) => report(rt, "the server closed the connection", Status::Failed),
        Err(error) => report(rt, error, Status::Failed),
    }
}

// Says which key a host that is not trusted was to show, if that is how the session ended.
fn tell_host(rt: &HostRuntime, ending: &Ending, options: &ClientOptions<'_>) {
    let Ending::Refused(refusal) = ending else {
        return;
    };
    if refusal.name() == "BadHost" {
        let (file, host) = (options.host_key, options.host.unwrap_or("any host"));
        // Where even this can't be written, the status alone tells of the fault.
        let _ = writeln!(
            rt.stderr(),
            "{file}: no key in it for {host} is the one that the server shows and signs with"
        );
    }
}

// Who a server is, and who is let in: what the files hold that the options name.
#[derive(Drop)]
struct ServerSetup<'a> {
    host_key: PrivateKey,
    keys: Vec<AcceptedKey<'a>>,
    password: Option<Vec<u8>>,
}

impl ServerSetup<'_> {
    // The user of this name, by these keys and this password.
    fn user<'c>(&'c self, name: &'c str) -> OneUser<'c> {
        OneUser {
            name: name.as_bytes(),
            keys: self.keys.as_slice(),
            password: match &self.password {
                Some(word) => Some(PasswordHash::new(word.as_slice())),
                None => None,
            },
        }
    }
}

// The same, read.
fn server_setup<'a>(
    rt: &HostRuntime,
    options: &ServerOptions<'a>,
) -> Result<ServerSetup<'a>, RunError<'a>> {
    let host_key = private_key_in(rt, options.host_key)?;
    let keys = accepted_keys(rt, options.authorized_keys, options.user)?;
    let password = password_in(rt, options.password_file)?;
    if keys.is_empty() && password.is_none() {
        return Err(RunError::NoWayIn);
    }
    Ok(ServerSetup {
        host_key,
        keys,
        password,
    })
}

// A session of the server, and how it ended.
fn served<'a>(rt: &HostRuntime, options: &ServerOptions<'a>) -> Result<Ending, RunError<'a>> {
    let setup = server_setup(rt, options)?;
    Ok(server_ending(rt, options, &setup)?)
}

// A session of this server, and how it ended.
fn server_ending(
    rt: &HostRuntime,
    options: &ServerOptions<'_>,
    setup: &ServerSetup<'_>,
) -> Result<Ending, PipeError> {
    let mut out = Vec::new(rt.alloc());
    let mut server = server_of(rt, options, setup, &mut out)?;
    let (input, output, err) = (&mut rt.stdin(), &mut rt.stdout(), &mut rt.stderr());
    pump(rt.alloc(), &mut server, input, output, out, err)?;
    Ok(ending_of(&mut server))
}

// How the session of this server ended, whose stream ended.
fn ending_of(server: &mut Server<'_, &HostRuntime>) -> Ending {
    match server.take_ending() {
        Some(ending) => ending,
        None => server.ending_left(),
    }
}

// This server, after what it put out.
fn server_of<'c>(
    rt: &'c HostRuntime,
    options: &'c ServerOptions<'_>,
    setup: &'c ServerSetup<'_>,
    out: &mut Vec<u8>,
) -> Result<Server<'c, &'c HostRuntime>, PipeError> {
    let signer = Ed25519Signer::new(&setup.host_key.seed);
    let user = setup.user(options.user);
    let start = Start::new(rt.alloc(), &options.policy, rt)?;
    let mut server = Server::new(start, signer, user, out)?;
    if options.is_verbose {
        server.show_messages()?;
    }
    Ok(server)
}

// What a client knows of the host and of its user, and the command as a string.
#[derive(Drop)]
struct ClientSetup {
    host: Vec<[u8; 32]>,
    key: UserKey,
    password: Option<Vec<u8>>,
    text: Vec<u8>,
}

impl ClientSetup {
    // The session that the options ask for.
    fn session<'c>(&'c self, options: &'c ClientOptions<'_>) -> ClientSession<'c> {
        let password = match &self.password {
            Some(word) => Some(word.as_slice()),
            None => None,
        };
        ClientSession {
            host: self.host.as_slice(),
            key: self.key,
            login: Login::new(options.user.as_bytes(), &self.key, password),
            request: Request {
                kind: options.kind,
                text: self.text.as_slice(),
            },
        }
    }
}

// The same, of the options and the files that they name.
fn client_setup<'a>(
    rt: &HostRuntime,
    options: &ClientOptions<'a>,
) -> Result<ClientSetup, RunError<'a>> {
    let host = trusted_keys_in(rt, options.host_key, options.host)?;
    let key = user_key(rt, options.identity)?;
    let password = password_in(rt, options.password_file)?;
    let text = string_of(rt.alloc(), options.command.as_bytes())?.ok_or(RunError::LongCommand)?;
    Ok(ClientSetup {
        host,
        key,
        password,
        text,
    })
}

// A session of the client, and how it ended.
fn called<'a>(
    rt: &HostRuntime,
    options: &ClientOptions<'a>,
) -> Result<Option<Ending>, RunError<'a>> {
    let setup = client_setup(rt, options)?;
    ran(rt, options, &setup)
}

// A session of this client, and how it ended.
fn ran<'a>(
    rt: &HostRuntime,
    options: &ClientOptions<'a>,
    setup: &ClientSetup,
) -> Result<Option<Ending>, RunError<'a>> {
    let mut out = Vec::new(rt.alloc());
    let mut client = client_of(rt, options, setup, &mut out)?;
    let files = command_files(rt, options)?;
    Ok(run_command(rt, &mut client, files, out)?)
}

// This client, after what it put out.
fn client_of<'c>(
    rt: &'c HostRuntime,
    options: &'c ClientOptions<'_>,
    setup: &'c ClientSetup,
    out: &mut Vec<u8>,
) -> Result<Client<'c, &'c HostRuntime>, PipeError> {
    let session = setup.session(options);
    let start = Start::new(rt.alloc(), &options.policy, rt)?;
    let mut client = Client::new(start, session, out)?;
    if options.is_verbose {
        client.show_messages()?;
    }
    Ok(client)
}

// What the command reads, where its output goes, and where its error output. How far they are is shown where that leaves its output alone.
fn command_files<'a>(
    rt: &HostRuntime,
    options: &ClientOptions<'a>,
) -> Result<CommandFiles, RunError<'a>> {
    let err = rt.stderr();
    let is_shown = options.output.is_some() && err.is_terminal();
    Ok(CommandFiles {
        input: opened(rt, options.input)?,
        output: sink(rt, options.output)?,
        error_output: sink(rt, options.error_output)?,
        terminal: if is_shown { Some(err) } else { None },
    })
}

// The user's key, where there is one.
fn user_key<'a>(rt: &HostRuntime, file: Option<&'a str>) -> Result<UserKey, RunError<'a>> {
    let signer = match file {
        Some(file) => Some(Ed25519Signer::new(&private_key_in(rt, file)?.seed)),
        None => None,
    };
    Ok(UserKey { signer })
}

/// Tells of a fault of usage on standard error.
pub fn refuse(rt: &HostRuntime, fault: UsageFault) -> Status {
    match fault {
        UsageFault::Words(text) => {
            let _ = writeln!(rt.stderr(), "{text}");
            Status::Fault
        }
        fault => report(rt, fault, Status::Fault),
    }
}

/// Tells the fault on standard error, and answers the status.
pub fn report<F: Display + Drop>(rt: &HostRuntime, fault: F, status: Status) -> Status {
    // Where even this can't be written, the status alone tells of the fault.
    let _ = writeln!(rt.stderr(), "error: {fault}");
    status
}
