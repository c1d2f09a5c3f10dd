//! The data types of RFC 4251 section 5, and how refusals and messages are shown.
//!
//! - `bytes` and digits are the bytes that are read next. `put`, a type and a value writes after them.
//! - `read` and a type reads a value. Of an mpint and of names it is said last what is written of them. `read end` tests that nothing is
//! left, and `read rest` gives the bytes that are left.
//! - `unsigned` and digits gives the mpint of a number, whether it is the same when it is read again, and whether 5 is.
//! - `shortest` and digits gives the number whose shortest bytes these are.
//! - `list` and a text gives the first name of a list, its text and each name. `has`, a name and a text says whether the name is in it.
//! - `same`, a name and a text says whether the text is the same name.
//! - `refusal`, `ask_refusal` and `peer` with a name give the number and the name of a refusal, also its code, and the other side.
//! - `message` and a payload shows a message in its debug form, and the method of a request.

ghost use Rattle.std.specs.Prelude.{◌<◌, ◌^◌, length};
ghost use Rattle.ssh_types.specs.Values.{bytes_of as digits_of, names_text};

use crate::call::message_of;
use ssh_message::Message;
use ssh_toys::lines::{Layer, Problem, bytes_of, digits_of, shown, text_of};
use ssh_types::{AskRefusal, MpInt, Name, NameList, Put, ReadRefusal, Reader, Refusal, Side};
use std::alloc::Global;

// The most bytes of a value that is written.
const MOST_BYTES: usize = 1000;

/// Bytes that lines write and read.
#[derive(Drop)]
pub struct TypeLines {
    alloc: Global,
    bytes: Vec<u8>,
}

impl TypeLines {
    /// Lines of values, of which none was written.
    pub fn new(alloc: Global) -> TypeLines {
        TypeLines {
            alloc,
            bytes: Vec::new(alloc),
        }
    }

    fn put(&mut self, kind: &str, value: &str) -> Result<String, Problem> {
        self.put_value(kind, value)?;
        digits_of(self.alloc, &self.bytes)
    }

    fn put_value(&mut self, kind: &str, value: &str) -> Result<(), Problem> {
        match (kind, value.parse::<u64>()) {
            ("u8", Ok(number)) => self.bytes.put_u8((number & 0xff) as u8)?,
            ("u32", Ok(number)) => self.bytes.put_u32((number & 0xffff_ffff) as u32)?,
            ("u64", Ok(number)) => self.bytes.put_u64(number)?,
            ("boolean", _) => self.bytes.put_boolean(value == "true")?,
            ("string", _) if value.len() <= MOST_BYTES => self.bytes.put_string(value.as_bytes())?,
            _ => return Err(Problem::NotALine),
        }
        Ok(())
    }

    // Reads, and keeps what is left.
    fn read(&mut self, kind: &str) -> Result<String, Problem> {
        let mut reader = Reader::new(&self.bytes);
        let said = read_by(self.alloc, &mut reader, kind)?;
        let mut left = Vec::new(self.alloc);
        left.extend_from_slice(reader.rest())?;
        self.bytes = left;
        Ok(said)
    }
}

impl Layer for TypeLines {
    fn said_to(&mut self, line: &str) -> Result<String, Problem> {
        let Some((word, rest)) = line.split_once(' ') else {
            return Err(Problem::NotALine);
        };
        match (word, rest.split_once(' ')) {
            ("bytes", _) => {
                self.bytes = bytes_of(self.alloc, rest)?;
                Ok(String::new(self.alloc))
            }
            ("put", Some((kind, value))) => self.put(kind, value),
            ("read", None) => self.read(rest),
            ("unsigned", _) => unsigned(self.alloc, rest),
            ("shortest", _) => shortest(self.alloc, rest),
            ("list", None) => listed(self.alloc, rest),
            ("has", Some((name, text))) => has(self.alloc, name, text),
            ("same", Some((name, text))) => same(self.alloc, name, text),
            ("message", _) => debugged(self.alloc, rest),
            ("refusal", None) => told(self.alloc, rest),
            ("ask_refusal", None) => ask_told(self.alloc, rest),
            ("peer", None) => peer(self.alloc, rest),
            _ => Err(Problem::NotALine),
        }
    }
}

fn read_by(alloc: Global, reader: &mut Reader<'_>, kind: &str) -> Result<String, Problem> {
    match kind {
        "string" => match reader.string() {
            Ok(text) => digits_of(alloc, text),
            Err(refusal) => refused(alloc, refusal),
        },
        "mpint" => match reader.mpint() {
            Ok(number) => number_shown(alloc, &number),
            Err(refusal) => refused(alloc, refusal),
        },
        "names" => match reader.names() {
            Ok(list) => names_shown(alloc, &list),
            Err(refusal) => refused(alloc, refusal),
        },
        "end" => match reader.end() {
            Ok(()) => text_of(alloc, "end"),
            Err(refusal) => refused(alloc, refusal),
        },
        "rest" => digits_of(alloc, reader.rest()),
        _ => scalar_by(alloc, reader, kind),
    }
}

// A number or a truth value.
fn scalar_by(alloc: Global, reader: &mut Reader<'_>, kind: &str) -> Result<String, Problem> {
    match kind {
        "u8" => match reader.u8() {
            Ok(byte) => shown(alloc, byte),
            Err(refusal) => refused(alloc, refusal),
        },
        "boolean" => match reader.boolean() {
            Ok(truth) => shown(alloc, truth),
            Err(refusal) => refused(alloc, refusal),
        },
        "u32" => match reader.u32() {
            Ok(number) => shown(alloc, number),
            Err(refusal) => refused(alloc, refusal),
        },
        "reserved" => match reader.reserved() {
            Ok(is_zero) => shown(alloc, is_zero),
            Err(refusal) => refused(alloc, refusal),
        },
        "u64" => match reader.u64() {
            Ok(number) => shown(alloc, number),
            Err(refusal) => refused(alloc, refusal),
        },
        _ => Err(Problem::NotALine),
    }
}

fn refused(alloc: Global, refusal: ReadRefusal) -> Result<String, Problem> {
    Ok(format!(in alloc; "refused {} {} {refusal}", refusal.number(), refusal.name())?)
}

// The parts of a number, and what is written of it.
fn number_shown(alloc: Global, number: &MpInt<'_>) -> Result<String, Problem>
    requires { length (digits_of number.now) < 2 ^ 32 }
{
    let mut out = Vec::new(alloc);
    out.put_mpint(number)?;
    let (is_marked, digits) = number.parts();
    Ok(format!(in alloc; "{is_marked} {digits:?} {}", hex::encode(alloc, &out)?)?)
}

// How many names there are, whether there are none, and what is written of them.
fn names_shown(alloc: Global, list: &NameList<'_>) -> Result<String, Problem>
    requires { length (names_text list.now) < 2 ^ 32 }
{
    let mut out = Vec::new(alloc);
    out.put_names(list)?;
    let count = list.iter().count();
    let is_empty = list.is_empty();
    Ok(format!(in alloc; "{count} {is_empty} {}", hex::encode(alloc, &out)?)?)
}

fn unsigned(alloc: Global, digits: &str) -> Result<String, Problem> {
    let bytes = bytes_of(alloc, digits)?;
    if bytes.len() > MOST_BYTES {
        return Err(Problem::NotALine);
    }
    let number = MpInt::from_unsigned(&bytes);
    let mut out = Vec::new(alloc);
    out.put_mpint(&number)?;
    let Ok(again) = Reader::new(&out).mpint() else {
        return Err(Problem::NotALine);
    };
    let is_same = again.is_same(&number);
    let is_five = again.is_same(&MpInt::from_unsigned(&[5]));
    Ok(format!(in alloc; "{} {is_same} {is_five}", hex::encode(alloc, &out)?)?)
}

fn shortest(alloc: Global, digits: &str) -> Result<String, Problem> {
    let bytes = bytes_of(alloc, digits)?;
    match MpInt::from_shortest(&bytes) {
        Some(number) if bytes.len() <= MOST_BYTES => number_shown(alloc, &number),
        _ => text_of(alloc, "nothing"),
    }
}

fn listed(alloc: Global, text: &str) -> Result<String, Problem> {
    let Some(list) = NameList::new(text.as_bytes()) else {
        return text_of(alloc, "no list");
    };
    let Some(first) = list.first() else {
        return text_of(alloc, "nothing");
    };
    let first = first.as_bytes().escape_ascii();
    let mut said = format!(in alloc; "{first} {}", list.as_bytes().escape_ascii())?;
    for name in list.iter() {
        write!(said, " {}", name.as_bytes().escape_ascii())?;
    }
    Ok(said)
}

fn has(alloc: Global, name: &str, text: &str) -> Result<String, Problem> {
    let Some(list) = NameList::new(text.as_bytes()) else {
        return Err(Problem::NotALine);
    };
    shown(alloc, list.contains(name.as_bytes()))
}

fn same(alloc: Global, name: &str, text: &str) -> Result<String, Problem> {
    match (Name::new(name.as_bytes()), Name::new(text.as_bytes())) {
        (Some(name), Some(other)) => shown(alloc, name == other),
        _ => text_of(alloc, "no name"),
    }
}

// The number, the name and the code of a refusal.
fn told(alloc: Global, name: &str) -> Result<String, Problem> {
    let refusals = [
        Refusal::BadLine,
        Refusal::BadTag,
        Refusal::Unexpected,
        Refusal::NotStrict,
        Refusal::BadHost,
        Refusal::NoService,
        Refusal::TooManyTries,
        Refusal::OwedFull,
    ];
    for refusal in refusals {
        if refusal.name() == name {
            let code = refusal.code();
            return Ok(format!(in alloc; "{} {name} {code:?}", refusal.number())?);
        }
    }
    Err(Problem::NotALine)
}

fn ask_told(alloc: Global, name: &str) -> Result<String, Problem> {
    for refusal in [AskRefusal::NotYet, AskRefusal::NoMaterial] {
        if refusal.name() == name {
            return Ok(format!(in alloc; "{} {name}", refusal.number())?);
        }
    }
    Err(Problem::NotALine)
}

fn peer(alloc: Global, side: &str) -> Result<String, Problem> {
    match side {
        "Client" => Ok(format!(in alloc; "{:?}", Side::Client.peer())?),
        "Server" => Ok(format!(in alloc; "{:?}", Side::Server.peer())?),
        _ => Err(Problem::NotALine),
    }
}

fn debugged(alloc: Global, digits: &str) -> Result<String, Problem> {
    let payload = bytes_of(alloc, digits)?;
    let message = message_of(alloc, false, &payload)?;
    match message {
        Message::UserauthRequest { method, .. } => {
            Ok(format!(in alloc; "{message:?} {method:?}")?)
        }
        _ => Ok(format!(in alloc; "{message:?}")?),
    }
}
