//! The lines of a transcript, one for each thing that an end did.

ghost use Rattle.std.specs.Prelude.{◌≡◌, ◌++◌, OnOk, codes, string_bytes};
ghost use Rattle.ssh_model.specs.Protocol.Sessions.Turns.{number_of};
ghost use Rattle.ssh_play.specs.Lines.{after_word, message_line, word_of_ask, word_of_fact, yes_or_no};

use ssh_end::{AskKind, Done, Item, ToldKind};
use ssh_message::{Message, decode, name};
use ssh_types::Side;
use std::alloc::AllocError;

/// Writes the lines of these items, each with LF after it.
pub(crate) fn write_items(items: &[Done], text: &mut String) -> Result<(), AllocError> {
    let mut taken: &[u8] = &[];
    for done in items {
        if let Item::Took { payload, .. } = &done.item {
            taken = payload.as_slice();
        }
        write!(text, "{} ", letter_of(done.side))?;
        write_item(&done.item, taken, text)?;
    }
    Ok(())
}

fn letter_of(side: Side) -> char {
    match side {
        Side::Client => 'c',
        Side::Server => 's',
    }
}

// What is told stands after the payload that was taken last, where it is told of one.
fn write_item(item: &Item, taken: &[u8], text: &mut String) -> Result<(), AllocError> {
    match item {
        Item::Asked(kind) => writeln!(text, "asked {}", word_of_ask(*kind)),
        Item::AskRefused(refusal) => {
            let (number, name) = (refusal.number(), refusal.name());
            writeln!(text, "ask refused {number} {name}")
        }
        Item::SentLine(line) => writeln!(text, "sent line {}", line.len()),
        Item::TookLine(line) => writeln!(text, "took line {}", line.len()),
        Item::Sent { payload, .. } => write_message("sent", payload.as_slice(), text),
        Item::Took { payload, .. } => write_message("took", payload.as_slice(), text),
        Item::Skipped(payload) => write_message("took", payload.as_slice(), text),
        Item::Told(fact) => write_fact(*fact, taken, text),
        Item::Refused(refusal) => {
            let (number, name) = (refusal.number(), refusal.name());
            writeln!(text, "refused {number} {name}")
        }
        Item::Died => writeln!(text, "died"),
    }
}

// A payload is shown by its first byte, the message's number, and its length.
fn write_message(verb: &str, payload: &[u8], text: &mut String) -> Result<(), AllocError>
    ensures { OnOk result (string_bytes text.new ≡ string_bytes text.old ++ message_line verb.now payload.now) }
{
    let number = number_of(payload);
    let (name, length) = (name(number), payload.len());
    writeln!(text, "{verb} {number} {name} {length}")
}

fn number_of(payload: &[u8]) -> u8
    ensures { result ≡ number_of payload.now }
{
    payload.first().copied().unwrap_or(0)
}

// The word by which a script asks for this.
fn word_of_ask(kind: AskKind) -> &'static str
    ensures { result.now ≡ word_of_ask kind }
{
    match kind {
        AskKind::Service => "service",
        AskKind::None => "none",
        AskKind::Password => "password",
        AskKind::Probe => "probe",
        AskKind::Sign => "sign",
        AskKind::Rekey => "rekey",
        AskKind::Open => "open",
        AskKind::Confirm => "confirm",
        AskKind::Refuse => "refuse",
        AskKind::Data => "data",
        AskKind::Extended => "extended",
        AskKind::Adjust => "adjust",
        AskKind::Eof => "eof",
        AskKind::Close => "close",
        AskKind::Request => "request",
        AskKind::Reply => "reply",
        AskKind::Global => "global",
        AskKind::GlobalReply => "globalreply",
        AskKind::Disconnect => "disconnect",
    }
}

// What an end is told: a word, and after it the numbers that belong to it.
fn write_fact(fact: ToldKind, taken: &[u8], text: &mut String) -> Result<(), AllocError> {
    write_told(fact, text)?;
    write_numbers(fact, extension_count(taken), text)
}

fn write_told(fact: ToldKind, text: &mut String) -> Result<(), AllocError>
    ensures { OnOk result (string_bytes text.new ≡ string_bytes text.old ++ (codes "told " ++ word_of_fact fact)) }
{
    write!(text, "told {}", word_of_fact(fact))
}

// The numbers that belong to what is told, and the end of the line.
fn write_numbers(fact: ToldKind, extensions: u32, text: &mut String) -> Result<(), AllocError>
    ensures { OnOk result (string_bytes text.new ≡ string_bytes text.old ++ after_word fact extensions) }
{
    match fact {
        ToldKind::Completed { position: number }
        | ToldKind::Unimplemented { number }
        | ToldKind::Disconnected { reason: number }
        | ToldKind::Opening { channel: number }
        | ToldKind::Opened { channel: number }
        | ToldKind::Confirmed { channel: number }
        | ToldKind::Ended { channel: number }
        | ToldKind::Closed { channel: number }
        | ToldKind::Requested { channel: number } => writeln!(text, " {number}"),
        ToldKind::Extensions => writeln!(text, " {extensions}"),
        ToldKind::GlobalDone { success } => writeln!(text, " {}", yes_or_no(success)),
        ToldKind::OpenFailed { channel, reason } => writeln!(text, " {channel} {reason}"),
        ToldKind::GotData {
            channel,
            kind: None,
            length,
        } => writeln!(text, " {channel} {length}"),
        ToldKind::GotData {
            channel,
            kind: Some(kind),
            length,
        } => { writeln!(text, " {channel} {kind} {length}") }
        ToldKind::Adjusted { channel, bytes } => writeln!(text, " {channel} {bytes}"),
        ToldKind::RequestDone { channel, success } => {
            writeln!(text, " {channel} {}", yes_or_no(success))
        }
        ToldKind::Service
        | ToldKind::Accepted
        | ToldKind::Authenticated { .. }
        | ToldKind::Failed
        | ToldKind::Banner
        | ToldKind::KeyOk
        | ToldKind::Ignored
        | ToldKind::Debugged
        | ToldKind::Global => writeln!(text, ""),
    }
}

fn word_of_fact(fact: ToldKind) -> &'static str
    ensures { result.now ≡ word_of_fact fact }
{
    match fact {
        ToldKind::Completed { .. } => "completed",
        ToldKind::Service => "service",
        ToldKind::Accepted => "accepted",
        ToldKind::Authenticated { .. } => "authenticated",
        ToldKind::Failed => "failure",
        ToldKind::Banner => "banner",
        ToldKind::KeyOk => "key_ok",
        ToldKind::Ignored => "ignored",
        ToldKind::Extensions => "ext_info",
        ToldKind::Debugged => "debug",
        ToldKind::Unimplemented { .. } => "unimplemented",
        ToldKind::Disconnected { .. } => "disconnected",
        ToldKind::Global => "global",
        ToldKind::GlobalDone { .. } => "global_done",
        ToldKind::Opening { .. } => "opening",
        ToldKind::Opened { .. } => "open",
        ToldKind::Confirmed { .. } => "confirmed",
        ToldKind::OpenFailed { .. } => "open_failed",
        ToldKind::GotData { kind: None, .. } => "data",
        ToldKind::GotData { kind: Some(_), .. } => "extended",
        ToldKind::Adjusted { .. } => "adjusted",
        ToldKind::Ended { .. } => "eof",
        ToldKind::Closed { .. } => "closed",
        ToldKind::Requested { .. } => "request",
        ToldKind::RequestDone { .. } => "request_done",
    }
}

// How many extensions an EXT_INFO announces (RFC 8308 section 2.3).
fn extension_count(payload: &[u8]) -> u32 {
    match decode(false, payload) {
        Ok(Message::ExtInfo { extensions }) => extensions.count(),
        _ => 0,
    }
}

fn yes_or_no(success: bool) -> &'static str
    ensures { result.now ≡ yes_or_no success }
{
    if success { "yes" } else { "no" }
}
