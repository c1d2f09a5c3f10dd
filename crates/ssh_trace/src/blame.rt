//! The faulty field of a payload that is no message.

use ssh_types::{ReadRefusal, Reader};
use thiserror::Error;

/// The first field of a payload that is wrong.
#[derive(Clone, Copy)]
pub(crate) struct FieldFault {
    /// The field, as the standard of its message names it.
    pub field: &'static str,
    /// The byte of the payload at which it begins, counted from 0.
    pub at: usize,
    pub refusal: FieldRefusal,
}

/// The fault in a field.
#[derive(Clone, Copy, Debug, Error)]
pub(crate) enum FieldRefusal {
    #[error("{0}")]
    Read(ReadRefusal),
    /// It is reserved (RFC 4253 section 7.1).
    #[error("a reserved number is not 0")]
    Reserved,
}

// A field, as RFC 4251 section 5 encodes it.
#[derive(Clone, Copy)]
enum Field {
    Flag(&'static str),
    Number(&'static str),
    Text(&'static str),
    Names(&'static str),
    // 16 bytes, a number each.
    Cookie,
    // A number that is 0.
    Reserved,
    // How many extensions there are, and then each (RFC 8308 section 2.3).
    Extensions,
    // The method of a request for authentication, and what is its own (RFC 4252 sections 5.2, 7 and 8).
    Method,
    // Nothing more. A message without this ends in bytes of any kind.
    End,
}

/// The first faulty field of a payload. None if there is none, as in a message.
pub(crate) fn fault_of(payload: &[u8]) -> Option<FieldFault> {
    let mut walk = Walk {
        whole: payload.len(),
        rest: payload,
    };
    let number = match walk.byte("message number") {
        Ok(number) => number,
        Err(fault) => return Some(fault),
    };
    for field in fields_of(number).iter() {
        if let Err(fault) = walk.pass(*field) {
            return Some(fault);
        }
    }
    None
}

// The fields after the number of a message (RFC 4250 section 4.1.2).
fn fields_of(number: u8) -> &'static [Field] {
    match number {
        1..=7 | 20..=31 => fields_of_transport(number),
        50 => &[
            Field::Text("user name"),
            Field::Text("service name"),
            Field::Method,
        ],
        51 => &[
            Field::Names("authentications that can continue"),
            Field::Flag("partial success"),
            Field::End,
        ],
        53 => &[
            Field::Text("message"),
            Field::Text("language tag"),
            Field::End,
        ],
        60 => &[
            Field::Text("algorithm name"),
            Field::Text("key blob"),
            Field::End,
        ],
        52 | 82 => &[Field::End],
        80 => &[Field::Text("request name"), Field::Flag("want reply")],
        90..=92 => fields_of_openings(number),
        93..=100 => fields_of_channels(number),
        _ => &[],
    }
}

// Those of a message of the transport (RFC 4253, RFC 5656 section 4).
fn fields_of_transport(number: u8) -> &'static [Field] {
    match number {
        1 => &[
            Field::Number("reason code"),
            Field::Text("description"),
            Field::Text("language tag"),
            Field::End,
        ],
        2 => &[Field::Text("data"), Field::End],
        3 => &[Field::Number("packet sequence number"), Field::End],
        4 => &[
            Field::Flag("always display"),
            Field::Text("message"),
            Field::Text("language tag"),
            Field::End,
        ],
        5 | 6 => &[Field::Text("service name"), Field::End],
        7 => &[Field::Extensions, Field::End],
        20 => KEXINIT,
        21 => &[Field::End],
        30 => &[Field::Text("Q_C"), Field::End],
        31 => &[
            Field::Text("K_S"),
            Field::Text("Q_S"),
            Field::Text("signature"),
            Field::End,
        ],
        _ => &[],
    }
}

// Those of KEXINIT (RFC 4253 section 7.1).
const KEXINIT: &[Field] = &[
    Field::Cookie,
    Field::Names("kex_algorithms"),
    Field::Names("server_host_key_algorithms"),
    Field::Names("encryption_algorithms_client_to_server"),
    Field::Names("encryption_algorithms_server_to_client"),
    Field::Names("mac_algorithms_client_to_server"),
    Field::Names("mac_algorithms_server_to_client"),
    Field::Names("compression_algorithms_client_to_server"),
    Field::Names("compression_algorithms_server_to_client"),
    Field::Names("languages_client_to_server"),
    Field::Names("languages_server_to_client"),
    Field::Flag("first_kex_packet_follows"),
    Field::Reserved,
    Field::End,
];

// Those of a message that opens a channel, or answers one that does (RFC 4254 section 5.1).
fn fields_of_openings(number: u8) -> &'static [Field] {
    match number {
        90 => &[
            Field::Text("channel type"),
            Field::Number("sender channel"),
            Field::Number("initial window size"),
            Field::Number("maximum packet size"),
        ],
        91 => &[
            Field::Number("recipient channel"),
            Field::Number("sender channel"),
            Field::Number("initial window size"),
            Field::Number("maximum packet size"),
        ],
        92 => &[
            Field::Number("recipient channel"),
            Field::Number("reason code"),
            Field::Text("description"),
            Field::Text("language tag"),
            Field::End,
        ],
        _ => &[],
    }
}

// Those of another message on a channel (RFC 4254 section 5).
fn fields_of_channels(number: u8) -> &'static [Field] {
    match number {
        93 => &[
            Field::Number("recipient channel"),
            Field::Number("bytes to add"),
            Field::End,
        ],
        94 => &[
            Field::Number("recipient channel"),
            Field::Text("data"),
            Field::End,
        ],
        95 => &[
            Field::Number("recipient channel"),
            Field::Number("data type code"),
            Field::Text("data"),
            Field::End,
        ],
        98 => &[
            Field::Number("recipient channel"),
            Field::Text("request type"),
            Field::Flag("want reply"),
        ],
        _ => &[Field::Number("recipient channel"), Field::End],
    }
}

// How far a payload was read.
#[derive(Clone, Copy)]
struct Walk<'a> {
    // The bytes of the payload.
    whole: usize,
    rest: &'a [u8],
}

impl<'a> Walk<'a> {
    // What was read of a field, with what follows it, or that it is wrong.
    fn step<T: Drop>(
        &mut self,
        field: &'static str,
        read: Result<T, ReadRefusal>,
        rest: &'a [u8],
    ) -> Result<T, FieldFault> {
        match read {
            Ok(value) => {
                self.rest = rest;
                Ok(value)
            }
            Err(refusal) => Err(self.fault(field, FieldRefusal::Read(refusal))),
        }
    }

    // That a field is wrong which begins here.
    fn fault(&self, field: &'static str, refusal: FieldRefusal) -> FieldFault {
        FieldFault {
            field,
            at: self.whole.saturating_sub(self.rest.len()),
            refusal,
        }
    }

    fn byte(&mut self, field: &'static str) -> Result<u8, FieldFault> {
        let mut reader = Reader::new(self.rest);
        let read = reader.u8();
        self.step(field, read, reader.rest())
    }

    fn flag(&mut self, field: &'static str) -> Result<bool, FieldFault> {
        let mut reader = Reader::new(self.rest);
        let read = reader.boolean();
        self.step(field, read, reader.rest())
    }

    fn number(&mut self, field: &'static str) -> Result<u32, FieldFault> {
        let mut reader = Reader::new(self.rest);
        let read = reader.u32();
        self.step(field, read, reader.rest())
    }

    fn text(&mut self, field: &'static str) -> Result<&'a [u8], FieldFault> {
        let mut reader = Reader::new(self.rest);
        let read = reader.string();
        self.step(field, read, reader.rest())
    }

    fn names(&mut self, field: &'static str) -> Result<(), FieldFault> {
        let mut reader = Reader::new(self.rest);
        let read = reader.names().map(|_| ());
        self.step(field, read, reader.rest())
    }

    fn end(&mut self) -> Result<(), FieldFault> {
        let mut reader = Reader::new(self.rest);
        let read = reader.end();
        self.step("the end of the message", read, reader.rest())
    }

    // Reads a field.
    fn pass(&mut self, field: Field) -> Result<(), FieldFault> {
        match field {
            Field::Flag(name) => self.flag(name).map(|_| ()),
            Field::Number(name) => self.number(name).map(|_| ()),
            Field::Text(name) => self.text(name).map(|_| ()),
            Field::Names(name) => self.names(name),
            Field::Cookie => self.cookie(),
            Field::Reserved => self.reserved(),
            Field::Extensions => self.extensions(),
            Field::Method => self.method(),
            Field::End => self.end(),
        }
    }

    fn cookie(&mut self) -> Result<(), FieldFault> {
        for _ in 0..16 {
            self.byte("cookie")?;
        }
        Ok(())
    }

    fn reserved(&mut self) -> Result<(), FieldFault> {
        let before = *self;
        match self.number("reserved")? {
            0 => Ok(()),
            _ => Err(before.fault("reserved", FieldRefusal::Reserved)),
        }
    }

    fn extensions(&mut self) -> Result<(), FieldFault> {
        let count = self.number("nr-extensions")?;
        for _ in 0..count {
            self.text("extension-name")?;
            self.text("extension-value")?;
        }
        Ok(())
    }

    fn method(&mut self) -> Result<(), FieldFault> {
        match self.text("method name")? {
            b"none" => self.end(),
            b"password" => {
                let is_change = self.flag("change of the password")?;
                self.text("plaintext password")?;
                if is_change {
                    self.text("plaintext new password")?;
                }
                self.end()
            }
            b"publickey" => {
                let is_signed = self.flag("signed or not")?;
                self.text("algorithm name")?;
                self.text("public key blob")?;
                if is_signed {
                    self.text("signature")?;
                }
                self.end()
            }
            _ => Ok(()),
        }
    }
}
