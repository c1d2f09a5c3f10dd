//! The data types of SSH (RFC 4251 section 5) as bytes: byte, boolean, uint32, uint64, string, mpint and name-list.
//!
//! A `Reader` reads values from the front of a slice, and `Put` writes them at the end of a `Vec<u8>`. Reading needs
//! no memory: texts, numbers and names are slices of the bytes that were read.
//!
//! The bytes that are read or written are an encoding of the value, as `ssh_model` defines the encodings. A read is refused
//! only if no prefix of the bytes encodes a value of the type, and a refused reader is as before. No encoding of a value begins
//! with an encoding of another (`laws::one_form`). So a written value is read again, whatever follows it.
//!
//! A message of two lists and a number, written and read again:
//!
//! ```rust
//! let mut out = Vec::new(alloc);
//! out.put_u8(20)?;
//! out.put_names(&NameList::new(b"zlib,none").ok_or("no names")?)?;
//! out.put_mpint(&MpInt::from_unsigned(&[0x80]))?;
//! // 14 | 00 00 00 09 7a 6c 69 62 2c 6e 6f 6e 65 | 00 00 00 02 00 80
//!
//! let mut reader = Reader::new(&out);
//! let kind = reader.u8()?;             // 20
//! let names = reader.names()?;         // zlib, none
//! let number = reader.mpint()?;        // 128
//! reader.end()?;                       // nothing is left over
//! for name in names.iter() {
//!     println!(rt; "{:?}", name.as_bytes())?;
//! }
//! ```
//!
//! # What it promises
//!
//! - A `Reader` is, for a clause, the bytes that are left. Each call that reads a type ends in one of two ways. `Ok`: bytes that encode
//!   the value stood in front (`Reads`). `Err`: no prefix of the bytes encodes a value of that type (`NoFront`), and the reader is as it
//!   was. `Short` means that the bytes end too early. `NotCanonical` means that a whole string is there, and is no shortest number.
//!   `BadNames` means that one is there, and is no list of names. `LeftOver` is the answer of `end` exactly if bytes are left. `reserved`
//!   reads a uint32 and answers whether it is 0 (`ReadsReserved`).
//! - Each call of `Put` puts bytes that encode the value at the end (`Writes`), or leaves the bytes as they were. If it leaves them,
//!   they and the encoding together are more than the vector's capacity. The bytes after the length of a string, an mpint or a name-list
//!   have to be fewer than 2^32.
//! - `Side`, `Refusal`, `AskRefusal` and `RequestKind` are the enums of `ssh_model`, shown again. `number` and `name` of a `ReadRefusal` are
//!   `refusal_number` and `refusal_name` of `specs/ReadRefusals`.
//! - Each constant of the module `bounds` is a bound of the model, `Protocol/Bounds`.
//! - A `NameBuf` is a name of 1 to 64 bytes that owns them. A `NameListBuf` is a list of names that owns its text; `push` puts one name
//!   after the others, or leaves the list as it was. A list that it lends has at most 65 bytes a name.
//! - Laws, in the module `laws`. No encoding of a value begins with an encoding of another (`one_form`). A value has one encoding
//!   (`one_encoding`). Two whole numbers are equal exactly if their shortest bytes are (`one_number`). The byte written for a truth value
//!   is one of its encodings (`written_boolean`). The elements of an array or slice of bytes are bytes (`are_bytes`).
#![tactic(auto)]

pub mod bounds;
mod call_error;
mod digits;
pub mod laws;
mod mpint;
mod name;
mod name_buf;
mod name_bytes;
mod name_list;
mod name_list_buf;
mod put;
mod read_refusal;
mod reader;

pub use call_error::CallError;
pub use mpint::MpInt;
pub use name::Name;
pub use name_buf::NameBuf;
pub use name_list::{NameList, Names};
pub use name_list_buf::NameListBuf;
pub use put::Put;
pub use read_refusal::ReadRefusal;
pub use reader::Reader;
pub use ssh_model::{AskRefusal, Refusal, RequestKind, Side};
