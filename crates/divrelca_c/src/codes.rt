//! The codes that C is answered.

ghost use Rattle.std.specs.Prelude.{◌≡◌, pos};
ghost use Rattle.divrelca_c.specs.Asks.{channel_after};
ghost use Rattle.divrelca_c.specs.Codes.{answered_code, code_asked, code_held, code_of, count_held, fault_code, fault_line, file_code, form_code};
ghost use Rattle.divrelca_c.specs.Codes.{lack_code, made_code, signature_code, taken_code, text_code};
ghost use Rattle.divrelca_c.specs.Codes.{unread_code, unread_line, user_code};

use crate::embedded::{FormFault, MakeError, MakeRefusal, SignatureLack, UserError, UserRefusal};
use divrelca::key_files::{Expected, FileFault};
use ssh_end::{AskStep, Fault};
use ssh_held::{SignatureRefusal, Taken, TextRefusal};
use ssh_types::{AskRefusal, CallError};
use std::alloc::AllocError;

/// The call did what it was called for.
pub const DONE: i32 = 0;

/// The size of a settings struct is not that of this version.
pub const BAD_SIZE: i32 = 301;

/// A seed or a key does not have 32 bytes, or a key is a point of small order, under which anyone can sign.
pub const BAD_KEY: i32 = 302;

/// An entry of the users' list is neither a key nor a password, its name or its password has no bytes, or it is not of the user who is set.
pub const BAD_LOGIN: i32 = 303;

/// The methods of authentication are neither keys, nor passwords, nor both.
pub const BAD_METHODS: i32 = 304;

/// The encryptions are neither aes128-gcm, nor aes256-gcm, nor both.
pub const BAD_CIPHERS: i32 = 305;

/// The form is no ask of this end.
pub const BAD_ASK: i32 = 306;

/// A client that was made without a key pair is to log in by key.
pub const NO_KEY: i32 = 307;

/// No ask waits in the queue.
pub const NOTHING_QUEUED: i32 = 308;

/// A key or a password of the user was asked for before, or the user was set before.
pub const USER_KNOWN: i32 = 309;

/// The next packet asks the program, which has said nothing on it. No byte is used.
pub const WANTED: i32 = 310;

/// No answer is wanted of the program.
pub const NOTHING_WANTED: i32 = 311;

/// A line of the peer was taken already.
pub const TOO_LATE: i32 = 312;

/// No signature is known for a login by a key that is not the user's own.
pub const NO_SIGNATURE: i32 = 313;

/// A signature has no bytes, or more than 4,096.
pub const BAD_SIGNATURE: i32 = 314;

/// A signature of the text was set before, or the user's own key signs it.
pub const SIGNATURE_KNOWN: i32 = 315;

/// Memory was refused. After `dv_take`, `dv_ask_now`, `dv_send` and `dv_work` the end is over; after any other call nothing changed.
pub const MEMORY: i32 = -1;

/// The end was over before.
pub const OVER: i32 = -2;

/// The code of a fault. That of a refused ask is its number, 1 to 12.
pub fn code_of(fault: Fault) -> i32
    ensures { result ≡ code_of fault }
{
    match fault {
        Fault::Memory => MEMORY,
        Fault::Dead => OVER,
        Fault::Ask(refusal) => i32::from(refusal.number()),
    }
}

// The code of what was done on an ask.
fn code_asked(done: Result<AskStep, Fault>) -> i32
    ensures { result ≡ code_asked done }
{
    match done {
        Ok(step) => match step.refused {
            None => DONE,
            Some(_) => OVER,
        },
        Err(fault) => code_of(fault),
    }
}

/// The code of what was done on an ask. The number of a channel that opens is put into `channel`, which stays as it is if none opens.
pub fn answer(done: Result<AskStep, Fault>, channel: &mut u32) -> i32
    ensures code { result ≡ code_asked done }
    ensures channel { channel.new ≡ channel_after done channel.old }
{
    if let Ok(step) = done
        && let Some(number) = step.opening
    {
        *channel = number;
    }
    code_asked(done)
}

// The code of a fault in taking bytes; no ask is refused there.
fn code_taken(fault: Fault) -> i32
    ensures { result ≡ taken_code fault }
{
    match fault {
        Fault::Memory => MEMORY,
        Fault::Dead | Fault::Ask(_) => OVER,
    }
}

/// What C is answered for bytes of the peer: how many of them are used goes to `used`.
pub fn taken(done: Result<Taken, Fault>, used: &mut usize) -> i32
    ensures code { result ≡ code_held done }
    ensures count { used.new ≡ count_held done }
{
    *used = 0;
    match done {
        Ok(Taken::Used(count)) => {
            *used = count;
            DONE
        }
        Ok(Taken::Wanted) => WANTED,
        Err(fault) => code_taken(fault),
    }
}

/// What C is answered where the program says something: whether something was wanted, or that memory was refused.
pub fn code_answered(done: Result<bool, AllocError>) -> i32
    ensures { result ≡ answered_code done }
{
    match done {
        Ok(true) => DONE,
        Ok(false) => NOTHING_WANTED,
        Err(_) => MEMORY,
    }
}

/// The code of why no end is made. For a setting it is 100 plus the number of the refusal, 1 to 4.
pub fn code_made(error: MakeError) -> i32
    ensures code { result ≡ made_code error }
    ensures fails { result ≡ pos 0 → ⊥ }
{
    match error {
        CallError::Memory => MEMORY,
        CallError::Refused(MakeRefusal::Settings(why)) => 100 + i32::from(why.number()),
        CallError::Refused(MakeRefusal::Key) => BAD_KEY,
        CallError::Refused(MakeRefusal::Login) => BAD_LOGIN,
    }
}

/// The code of why a user is not set.
pub fn code_user(error: UserError) -> i32
    ensures code { result ≡ user_code error }
    ensures fails { result ≡ pos 0 → ⊥ }
{
    match error {
        CallError::Memory => MEMORY,
        CallError::Refused(UserRefusal::Over) => OVER,
        CallError::Refused(UserRefusal::Name) => BAD_LOGIN,
        CallError::Refused(UserRefusal::Known) => USER_KNOWN,
    }
}

/// The code of why a form is no ask.
pub fn code_form(fault: FormFault) -> i32
    ensures code { result ≡ form_code fault }
    ensures fails { result ≡ pos 0 → ⊥ }
{
    match fault {
        FormFault::Kind => BAD_ASK,
        FormFault::Key => NO_KEY,
    }
}

/// The code of why there is no text to sign. It is that of the refusal of an ask.
pub fn code_text(why: TextRefusal) -> i32
    ensures code { result ≡ text_code why }
    ensures fails { result ≡ pos 0 → ⊥ }
{
    match why {
        TextRefusal::NotYet => i32::from(AskRefusal::NotYet.number()),
        TextRefusal::TooLong => i32::from(AskRefusal::TooLong.number()),
    }
}

/// The code of why a login by a key has no signature.
pub fn code_lack(why: SignatureLack) -> i32
    ensures code { result ≡ lack_code why }
    ensures fails { result ≡ pos 0 → ⊥ }
{
    match why {
        SignatureLack::Text(why) => code_text(why),
        SignatureLack::Unknown => NO_SIGNATURE,
    }
}

/// The code of why a signature is not set.
pub fn code_signature(error: CallError<SignatureRefusal>) -> i32
    ensures code { result ≡ signature_code error }
    ensures fails { result ≡ pos 0 → ⊥ }
{
    match error {
        CallError::Memory => MEMORY,
        CallError::Refused(SignatureRefusal::Over) => OVER,
        CallError::Refused(SignatureRefusal::Text(why)) => code_text(why),
        CallError::Refused(SignatureRefusal::Size) => BAD_SIGNATURE,
        CallError::Refused(SignatureRefusal::Known) => SIGNATURE_KNOWN,
    }
}

/// The code of why a file is not read, and the line: 0 if memory was refused.
pub fn code_unread(error: CallError<FileFault>) -> (i32, usize)
    ensures code { result.0 ≡ unread_code error }
    ensures line { result.1 ≡ unread_line error }
    ensures fails { result.0 ≡ pos 0 → ⊥ }
{
    match error {
        CallError::Refused(fault) => code_file(fault),
        CallError::Memory => (MEMORY, 0),
    }
}

/// The code of what was expected in a file, 201 to 217, and the line: 0 for the file as a whole.
pub fn code_file(fault: FileFault) -> (i32, usize)
    ensures code { result.0 ≡ fault_code fault }
    ensures line { result.1 ≡ fault_line fault }
    ensures fails { result.0 ≡ pos 0 → ⊥ }
{
    match fault {
        FileFault::File(expected) => (expected_code(expected), 0),
        FileFault::Line { line, expected } => (expected_code(expected), line),
    }
}

fn expected_code(expected: Expected) -> i32
    ensures { result ≡ file_code expected }
{
    match expected {
        Expected::Begin => 201,
        Expected::End => 202,
        Expected::Base64 => 203,
        Expected::Format => 204,
        Expected::Unencrypted => 205,
        Expected::Ed25519 => 206,
        Expected::Pair => 207,
        Expected::Key => 208,
        Expected::Host => 209,
        Expected::Mark => 210,
        Expected::HashedHost => 211,
        Expected::AuthorizedKey => 212,
        Expected::AnyHostKey => 213,
        Expected::OneHostKey => 214,
        Expected::Unrevoked => 215,
        Expected::AnyKey => 216,
        Expected::Password => 217,
    }
}
