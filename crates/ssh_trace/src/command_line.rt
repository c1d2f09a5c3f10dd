//! The words after the program's name.

ghost use Rattle.std.specs.Prelude.{◌≡◌};
ghost use Rattle.ssh_trace.specs.declared.status.Status.TheVariants.{Fault};

use crate::answer::{report, say};
use crate::status::Status;
use clap::{Arg, ArgMatches, Command};
use std::alloc::{AllocError, Global};
use std::convert::AsStr;
use std::io::Write;
use thiserror::Error;

/// The task that the program is called to do.
#[derive(Clone, Copy)]
pub enum Call<'a> {
    /// Show the packet that this text is.
    Decode(&'a str),
    /// Do this with the script that stands there.
    Script(Task, Source<'a>),
    /// Say what the program is.
    Version,
}

/// What is done with a script.
#[derive(Clone, Copy)]
pub enum Task {
    /// It is played.
    Play,
    /// Its transcript is compared with the lines that it expects.
    Check,
    /// It is played with each byte changed in turn.
    Sweep,
    /// The events are drawn as the script is played.
    Draw,
}

/// The place of a script.
#[derive(Clone, Copy)]
pub enum Source<'a> {
    /// Standard input, if the word is `-`.
    Input,
    /// In the file of this name.
    File(&'a str),
}

/// Why the words are no call.
#[derive(Debug, Drop, Error)]
pub enum UsageFault {
    /// The words are other ones than the program takes, or ask for help; the text says which it takes.
    #[error("{0}")]
    Words(clap::Error),
    /// A word is missing.
    #[error("no call: the words are decode HEX, play FILE, check FILE, sweep FILE or draw FILE")]
    NoCall,
    #[error("out of memory")]
    Memory(#[from(alloc)] AllocError),
}

/// Reads the words of a command line, the program's name the first.
///
/// # Errors
///
/// - `Words`: the words are other ones than the program takes, or ask for help.
/// - `NoCall`: a word is missing.
/// - `Memory`: memory was refused.
pub fn call_of<'a, S: AsStr>(alloc: Global, words: &'a [S]) -> Result<Call<'a>, UsageFault> {
    if let [_, word] = words
        && word.as_str() == "--version"
    {
        return Ok(Call::Version);
    }
    let matches = match command(alloc)?.try_get_matches_from(words) {
        Ok(matches) => matches,
        // (the text of such a fault repeats the word)
        Err(_) if words.iter().any(is_long) => return Err(UsageFault::NoCall),
        Err(error) => return Err(UsageFault::Words(error)),
    };
    call_in(&matches).ok_or(UsageFault::NoCall)
}

// The call that these words are.
fn call_in<'a>(matches: &ArgMatches<'a>) -> Option<Call<'a>> {
    let (name, rest) = matches.subcommand()?;
    match name {
        "decode" => rest.get_str("HEX").map(Call::Decode),
        "play" => script_call(Task::Play, rest),
        "check" => script_call(Task::Check, rest),
        "sweep" => script_call(Task::Sweep, rest),
        "draw" => script_call(Task::Draw, rest),
        _ => None,
    }
}

// Tests whether no message repeats the whole of a word.
fn is_long<S: AsStr>(word: &S) -> bool {
    word.as_str().len() > MOST_REPEATED
}

// The call that does this with the script that the words name.
fn script_call<'a>(task: Task, words: &ArgMatches<'a>) -> Option<Call<'a>> {
    match words.get_str("FILE")? {
        "-" => Some(Call::Script(task, Source::Input)),
        file => Some(Call::Script(task, Source::File(file))),
    }
}

/// Says on `err` why the words are no call, with the words that the program takes.
pub fn refuse<E: Write>(fault: UsageFault, err: &mut E) -> Status
    ensures { result ≡ Fault }
{
    match fault {
        UsageFault::Words(text) => say(text, err),
        fault => report(fault, err),
    }
}

// No message repeats more bytes of a word.
const MOST_REPEATED: usize = 200;

// The name in usage, whatever the file of the program is called.
const PROGRAM: &str = "ssh_trace";

const STATUS: &str = "\
ssh_trace --version says what the program is: its version, and the kit that it is proved with.

Exit status:
  0  done
  1  the packet is refused, incomplete or followed by bytes, an end refused its peer, a transcript differs, or a run is unsafe
  2  a fault of usage, file, digits, script, memory or output, told on standard error";

const PACKETS: &str = "\
HEX is one packet that isn't sealed (RFC 4253 section 6), from packet_length to its padding, in pairs of hexadecimal
digits. The line is its message's number, name and fields, or the first of these that holds:
  refused 3 BadLength    no packet has this packet_length
  incomplete             bytes are missing
  refused 4 BadPadding   no packet has this padding_length
  trailing N             N bytes follow the packet
  refused 6 BadMessage   the payload isn't what its message number says
Standard error then says which field is wrong, at which byte of the packet, counted from 1, and why.";

const SCRIPTS: &str = "\
A script is lines of words, parted by one space. It plays a session between a client, c, and a server, s, from their version lines on.
Lines before the first event set the session up:
  user NAME WORD      the server lets this user in by this password
  key NAME HEX        the server knows this key of the user
  limit SIDE N        keys are due again after N packets: 64 to 2147483648
  strict SIDE require, strict SIDE offer, strict SIDE off
                      how the side takes strict key exchange
  ext SIDE, ext SIDE NAME HEX
                      the side takes extensions, and announces this one
Each further line is an event. F and T are the two sides, and the bytes go from F to T:
  feed SIDE BB        gives a cookie and a secret of this byte for the next exchange of keys
  ask SIDE ..         asks the side for something, by one of
      service, none USER, password USER WORD, probe USER ALG HEX, sign USER ALG HEX, rekey,
      open TYPE WINDOW MAX [HEX], confirm CH WINDOW MAX [HEX], refuse CH REASON,
      data CH HEX, extended CH TYPE HEX, adjust CH N, eof CH, close CH,
      request CH NAME yes or no [HEX], reply CH yes or no,
      global NAME yes or no [HEX], globalreply yes [HEX], globalreply no, disconnect WORD
  pass F T N          delivers the next N bytes that wait, as one piece
  pass F T all        delivers all bytes that wait, as one piece
  drip F T all        delivers all bytes that wait, each as a piece
  lose F T N          drops the next N bytes that wait
  give SIDE HEX       delivers these bytes to the side
  again F T A N       delivers N bytes that F put out before, waiting or not, from its byte A on, counted from 0
Where the first line gives the keys of hmac-sha2-256, client to server and server to client, the script plays one epoch without an exchange. Its one ask is to
send a payload, of at least one byte:
  epoch K1 K2         each of 32 bytes, in 64 hexadecimal digits
  ask SIDE raw HEX    asks the side to send a payload
HEX is pairs of hexadecimal digits, or - for no bytes. A number is decimal digits, and at most 4294967295. Lines end with LF. Empty lines and those that begin with
# do nothing. A script has at most 16777216 bytes. A line that begins with > and a space is expected of the transcript; check compares them.";

const PLAY: &str = "Plays a script between two ends and prints what they did";

const CHECK: &str =
    "Plays a script and says whether its transcript is the expected one: ok N, or differs at K";

const SWEEP: &str =
    "Plays a session with each byte changed, left out and doubled in turn: N runs, M unsafe";

const DRAW: &str = "Plays a script and prints what happened as a picture, an SVG";

fn command<'a>(alloc: Global) -> Result<Command<'a>, AllocError> {
    Command::new(alloc, PROGRAM)
        .bin_name(PROGRAM)?
        .about("Shows what two ends of SSH do")
        .after_help(STATUS)
        .subcommand_required(true)
        .arg_required_else_help(true)
        .subcommand(decode_command(alloc)?)?
        .subcommand(script_command(alloc, "play", PLAY)?)?
        .subcommand(script_command(alloc, "check", CHECK)?)?
        .subcommand(script_command(alloc, "sweep", SWEEP)?)?
        .subcommand(script_command(alloc, "draw", DRAW)?)
}

fn decode_command<'a>(alloc: Global) -> Result<Command<'a>, AllocError> {
    let packet = Arg::new(alloc, "HEX")
        .help("The packet, in hexadecimal digits")
        .required(true);
    Command::new(alloc, "decode")
        .about("Shows the message of one clear packet as a line")
        .after_help(PACKETS)
        .arg(packet)
}

fn script_command<'a>(
    alloc: Global,
    name: &'static str,
    about: &'static str,
) -> Result<Command<'a>, AllocError> {
    let file = Arg::new(alloc, "FILE")
        .help("The script's file, or - for standard input; a file of that name is ./-")
        .required(true);
    Command::new(alloc, name)
        .about(about)
        .after_help(SCRIPTS)
        .arg(file)
}
