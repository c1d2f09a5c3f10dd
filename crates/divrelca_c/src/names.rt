//! Names of codes and messages.

ghost use Rattle.std.specs.Prelude.{◌≡◌};
ghost use Rattle.ssh_model.specs.Protocol.Wire.Message.{message_name};
ghost use Rattle.divrelca_c.specs.Names.{code_name, number_name};

use crate::bytes::DvBytes;
use ssh_message::name;

// The version of the interface: its first number in the upper 16 bits.
const VERSION: u32 = 0x0003_0000;

/// The version of the library.
#[unsafe(no_mangle)]
pub extern "C" fn dv_version() -> u32
    ensures { result ≡ 196608 }
{
    VERSION
}

/// The name of a message by its number.
#[unsafe(no_mangle)]
pub extern "C" fn dv_message_name(number: u8, text: &mut DvBytes<'static>)
    ensures { text.new.bytes.now ≡ message_name number }
{
    text.bytes = name(number).as_bytes();
}

/// The name of a code.
#[unsafe(no_mangle)]
pub extern "C" fn dv_code_name(code: i32, text: &mut DvBytes<'static>)
    ensures { text.new.bytes.now ≡ code_name code }
{
    text.bytes = match code {
        -1 => b"Memory",
        -2 => b"Over",
        _ => match u32::try_from(code) {
            Ok(number) => positive_name(number),
            Err(_) => b"UNKNOWN",
        },
    };
}

// Of a code that is no negative number.
fn positive_name(number: u32) -> &'static [u8]
    ensures { result.now ≡ number_name number }
{
    match number {
        0 => b"Done",
        1 => b"NotYet",
        2 => b"Busy",
        3 => b"NoChannel",
        4 => b"NoRoom",
        5 => b"TooLong",
        6 => b"Ended",
        7 => b"TableFull",
        8 => b"NothingOwed",
        9 => b"RekeyDue",
        10 => b"TooMuch",
        11 => b"WrongSide",
        12 => b"NoMaterial",
        101 => b"BadSoftware",
        102 => b"BadList",
        103 => b"BadLimit",
        104 => b"BadExtension",
        201 => b"FileBegin",
        202 => b"FileEnd",
        203 => b"FileBase64",
        204 => b"FileFormat",
        205 => b"FileUnencrypted",
        206 => b"FileEd25519",
        207 => b"FilePair",
        208 => b"FileKey",
        209 => b"FileHost",
        210 => b"FileMark",
        211 => b"FileHashedHost",
        212 => b"FileAuthorizedKey",
        213 => b"FileAnyHostKey",
        214 => b"FileOneHostKey",
        215 => b"FileUnrevoked",
        216 => b"FileAnyKey",
        217 => b"FilePassword",
        301 => b"BadSize",
        302 => b"BadKey",
        303 => b"BadLogin",
        304 => b"BadMethods",
        305 => b"BadCiphers",
        306 => b"BadAsk",
        307 => b"NoKey",
        308 => b"NothingQueued",
        309 => b"UserKnown",
        310 => b"Wanted",
        311 => b"NothingWanted",
        312 => b"TooLate",
        313 => b"NoSignature",
        314 => b"BadSignature",
        315 => b"SignatureKnown",
        _ => b"UNKNOWN",
    }
}
