//! The work of the calls of C on logins that a program has signed.

ghost use Rattle.std.specs.Prelude.{◌≡◌};
ghost use Rattle.divrelca_c.specs.Signing.{AsksSigned, SetsSignature, WorksSigned, WritesText};

use crate::calls;
use crate::codes::{DONE, code_lack, code_signature, code_text};
use crate::embedded::{AskForm, Client, Embedded};
use ssh_end::EndRole;
use ssh_held::write_text_to_sign;
use std::alloc::Global;

/// Writes the text that is signed for a login to the front of `out`, and how many bytes it has to `written`.
pub fn write_text<R: EndRole>(
    end: &Embedded<R>,
    user: &[u8],
    algorithm: &[u8],
    key: &[u8],
    out: &mut [u8],
    written: &mut usize,
) -> i32
    ensures { WritesText end.now.end.machine.kept.session user.now algorithm.now key.now out.old out.new written.old written.new result }
{
    match write_text_to_sign(&end.end, user, algorithm, key, out) {
        Ok(count) => {
            *written = count;
            DONE
        }
        Err(why) => code_text(why),
    }
}

/// Sets the signature for a login of a client.
pub fn set_signature(
    alloc: Global,
    client: &mut Client,
    user: &[u8],
    algorithm: &[u8],
    key: &[u8],
    signature: &[u8],
) -> i32
    ensures { SetsSignature user.now algorithm.now key.now signature.now result client.old client.new }
{
    match client.set_signature(alloc, user, algorithm, key, signature) {
        Ok(()) => DONE,
        Err(error) => code_signature(error),
    }
}

/// Makes an ask of a client now, unless it is a login without a signature.
pub fn ask(client: &mut Client, ask: &AskForm<'_>, channel: &mut u32) -> i32
    ensures { AsksSigned client.old ask.now result channel.old channel.new client.new }
{
    match client.lacks(ask) {
        Some(why) => code_lack(why),
        None => calls::ask(client, ask, channel),
    }
}

/// Makes the oldest ask that waits at a client, unless it is a login without a signature. Then it waits no longer, unless it comes too early.
pub fn work(alloc: Global, client: &mut Client, channel: &mut u32) -> i32
    ensures { WorksSigned client.old result channel.old channel.new client.new }
{
    match client.oldest_lacks() {
        Some(why) => {
            client.drop_unsigned(why);
            code_lack(why)
        }
        None => calls::work(alloc, client, channel),
    }
}
