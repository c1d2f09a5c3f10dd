//! The calls of C on an end.

ghost use Rattle.std.specs.Prelude.{◌≡◌};
ghost use Rattle.std.specs.List.{slice_get};
ghost use Rattle.std.specs.VecDeque.{deque_len};
ghost use Rattle.divrelca.specs.Supplies.{next_bytes};
ghost use Rattle.divrelca_c.specs.Calls.{Consumes, DecidesLater, Declines, Feeds, Queues, Sends, Tells, Writes};
ghost use Rattle.divrelca_c.specs.Wanted.{AnswersIn, ShowsAsked, TakesIn, shown_in};
ghost use Rattle.divrelca_c.specs.Calls.{is_due};
ghost use Rattle.divrelca_c.specs.Embedded.Output.{waiting_of};
ghost use Rattle.divrelca_c.specs.Embedded.Windows.{room_on};
ghost use Rattle.divrelca_c.specs.Ends.{InRole, IsNewClient, IsNewServer, SetsUserOf, ShowsBytes, of_end};
ghost use Rattle.divrelca_c.specs.Events.{ShowsTurn};
ghost use Rattle.divrelca_c.specs.Making.{IsClientFault, IsServerFault, Leaves, material_by};
ghost use Rattle.divrelca_c.specs.Signing.{AsksIn, SetsSignatureIn, WorksIn, WritesText};
ghost use Rattle.ssh_end_machine.specs.Steps.{shown_by};
ghost use Rattle.ssh_transport_machine.specs.State.{line_taken};
ghost use Rattle.divrelca.specs.Parts.AesGcm.{aes_gcm};

use crate::bytes::{DvBytes, DvClientSettings, DvMaterial, DvServerSettings, DvUser};
use crate::codes::{code_answered, code_of, taken};
use crate::embedded::{AnyEnd, AskForm};
use crate::event::DvEvent;
use crate::handle::{DvEnd, DvNewEnd, DvView};
use crate::making::{client_in, server_in};
use crate::wanted::DvWanted;
use crate::{calls, signing};
use ssh_end::Fault;
use ssh_types::AskRefusal;
use std::alloc::Global;

/// Makes a server that put out its version line and its first KEXINIT.
#[unsafe(no_mangle)]
pub extern "C" fn dv_server_new(
    alloc: Global,
    out: &mut DvNewEnd,
    settings: &DvServerSettings<'_>,
    first: &DvMaterial,
    padding: &[u8; 32],
) -> i32
    ensures { Leaves (λ place. place.value) (IsNewServer settings.now (material_by first.now padding.now))
        (IsServerFault settings.now) result out.old out.new }
{
    match server_in(alloc, settings, first, padding) {
        Ok(server) => out.put(alloc, AnyEnd::Server(server)),
        Err(code) => code,
    }
}

/// Makes a client that put out its version line and its first KEXINIT.
#[unsafe(no_mangle)]
pub extern "C" fn dv_client_new(
    alloc: Global,
    out: &mut DvNewEnd,
    settings: &DvClientSettings<'_>,
    first: &DvMaterial,
    padding: &[u8; 32],
) -> i32
    ensures { Leaves (λ place. place.value) (IsNewClient settings.now (material_by first.now padding.now))
        (IsClientFault settings.now) result out.old out.new }
{
    match client_in(alloc, settings, first, padding) {
        Ok(client) => out.put(alloc, AnyEnd::Client(client)),
        Err(code) => code,
    }
}

/// Gives all memory of the end back.
#[unsafe(no_mangle)]
pub extern "C" fn dv_free(h: DvEnd) {
    drop(h.into_box());
}

/// Gives a server the keys and passwords of one user, after those that it has: once, and before a key or a password of that user is asked
/// for. So a verdict stays a function of the request. A client is left as it is.
#[unsafe(no_mangle)]
pub extern "C" fn dv_server_set_user(
    alloc: Global,
    h: &mut DvEnd,
    name: &[u8],
    users: &[DvUser<'_>],
) -> i32
    ensures { SetsUserOf name.now users.now result h.old.value h.new.value }
{
    match h.state() {
        AnyEnd::Server(server) => calls::set_user(alloc, server, name, users),
        AnyEnd::Client(_) => code_of(Fault::Ask(AskRefusal::WrongSide)),
    }
}

/// From here on `dv_take` holds back what asks the program: at a server a request of a user without an entry, at a client a host key that it
/// was not made with. It has to be called before a line of the peer is taken.
#[unsafe(no_mangle)]
pub extern "C" fn dv_decide_later(alloc: Global, h: &mut DvEnd) -> i32
    ensures { InRole (λ R X S ends exchanges old new. DecidesLater old result new) h.old.value h.new.value }
{
    match h.state() {
        AnyEnd::Server(end) => calls::decide_later(alloc, end),
        AnyEnd::Client(end) => calls::decide_later(alloc, end),
    }
}

/// Takes bytes of the peer to the end of one line or one packet. `dv_show_event` shows the event for it. If the next packet asks the program,
/// no byte is used, and `dv_show_wanted` shows the question.
#[unsafe(no_mangle)]
pub extern "C" fn dv_take(h: &mut DvEnd, bytes: &[u8], used: &mut usize) -> i32
    ensures { TakesIn bytes.now used.new result h.old.value h.new.value }
{
    match h.state() {
        AnyEnd::Server(end) => taken(end.take(bytes), used),
        AnyEnd::Client(end) => taken(end.take(bytes), used),
    }
}

/// Shows what the last call of `dv_take` wants the program to say. It only looks at the end.
#[unsafe(no_mangle)]
pub extern "C" fn dv_show_wanted<'a>(h: &'a mut DvView, wanted: &mut DvWanted<'a>)
    ensures { ShowsAsked h.old.end.value (shown_in wanted.new) }
{
    *wanted = match h.look() {
        AnyEnd::Server(end) => calls::request(end),
        AnyEnd::Client(end) => calls::host(end),
    };
}

/// The program says whether it accepts what the last call of `dv_take` asked. `dv_take` then takes the same bytes.
#[unsafe(no_mangle)]
pub extern "C" fn dv_answer(alloc: Global, h: &mut DvEnd, accepts: bool) -> i32
    ensures { AnswersIn accepts result h.old.value h.new.value }
{
    match h.state() {
        AnyEnd::Server(end) => code_answered(end.decide(alloc, accepts)),
        AnyEnd::Client(end) => code_answered(end.decide(alloc, accepts)),
    }
}

/// Shows the event of the last call of `dv_take`. It only looks at the end.
#[unsafe(no_mangle)]
pub extern "C" fn dv_show_event<'a>(h: &'a mut DvView, event: &mut DvEvent<'a>)
    ensures { ShowsTurn (of_end (λ R X S it. shown_by it.end.step it.end.machine) h.old.end.value)
        (of_end (λ R X S it. it.end.step) h.old.end.value) event.new }
{
    *event = match h.look() {
        AnyEnd::Server(end) => calls::event(end),
        AnyEnd::Client(end) => calls::event(end),
    };
}

/// Shows a whole payload that the end sent in its last call of `dv_take`, `dv_ask_now`, `dv_work` or `dv_send`: the one at this place, the
/// oldest first. Answers `false`, and shows no bytes, if there is none. It only looks at the end.
#[unsafe(no_mangle)]
pub extern "C" fn dv_sent<'a>(h: &'a mut DvView, place: usize, payload: &mut DvBytes<'a>) -> bool
    ensures { ShowsBytes (slice_get (of_end (λ R X S it. it.end.sent) h.old.end.value) place) result payload.new.bytes.now }
{
    let found = match h.look() {
        AnyEnd::Server(end) => calls::sent(end, place),
        AnyEnd::Client(end) => calls::sent(end, place),
    };
    calls::show(found, payload)
}

/// Shows the version line of the peer without CR LF (RFC 4253 section 4.2). Answers `false` as long as it has not come. It only looks at
/// the end.
#[unsafe(no_mangle)]
pub extern "C" fn dv_peer_version<'a>(h: &'a mut DvView, line: &mut DvBytes<'a>) -> bool
    ensures { ShowsBytes (of_end (λ R X S it. line_taken it.end.machine.kept.lines) h.old.end.value) result line.new.bytes.now }
{
    let found = match h.look() {
        AnyEnd::Server(end) => end.end.version_line(),
        AnyEnd::Client(end) => end.end.version_line(),
    };
    calls::show(found, line)
}

/// Shows the session id, 32 bytes (RFC 4253 section 7.2). Answers `false` as long as no exchange of keys is over. It only looks at the end.
#[unsafe(no_mangle)]
pub extern "C" fn dv_session_id<'a>(h: &'a mut DvView, id: &mut DvBytes<'a>) -> bool
    ensures { ShowsBytes (of_end (λ R X S it. it.end.machine.kept.session) h.old.end.value) result id.new.bytes.now }
{
    let found = match h.look() {
        AnyEnd::Server(end) => calls::session_id(end),
        AnyEnd::Client(end) => calls::session_id(end),
    };
    calls::show(found, id)
}

/// Writes the text that is signed for a login of this user by this key, in the session of the end (RFC 4252 section 7), to the front of `out`,
/// and how many bytes it has to `written`. Nothing is written if there is no session id yet, or no room. It only looks at the end.
#[unsafe(no_mangle)]
pub extern "C" fn dv_text_to_sign(
    h: &mut DvView,
    user: &[u8],
    algorithm: &[u8],
    key: &[u8],
    out: &mut [u8],
    written: &mut usize,
) -> i32
    ensures { WritesText (of_end (λ R X S it. it.end.machine.kept.session) h.old.end.value) user.now algorithm.now key.now out.old out.new
        written.old written.new result }
{
    match h.look() {
        AnyEnd::Server(end) => signing::write_text(end, user, algorithm, key, out, written),
        AnyEnd::Client(end) => signing::write_text(end, user, algorithm, key, out, written),
    }
}

/// Sets the signature for a login of a client's user by this key: of what `dv_text_to_sign` writes now. A server is left as it is.
#[unsafe(no_mangle)]
pub extern "C" fn dv_set_signature(
    alloc: Global,
    h: &mut DvEnd,
    user: &[u8],
    algorithm: &[u8],
    key: &[u8],
    signature: &[u8],
) -> i32
    ensures { SetsSignatureIn user.now algorithm.now key.now signature.now result h.old.value h.new.value }
{
    match h.state() {
        AnyEnd::Server(_) => code_of(Fault::Ask(AskRefusal::WrongSide)),
        AnyEnd::Client(client) => {
            signing::set_signature(alloc, client, user, algorithm, key, signature)
        }
    }
}

/// Shows the bytes that wait for the peer. It only looks at the end.
#[unsafe(no_mangle)]
pub extern "C" fn dv_output<'a>(h: &'a mut DvView, bytes: &mut DvBytes<'a>)
    ensures { bytes.new.bytes.now ≡ of_end (λ R X S it. waiting_of it) h.old.end.value }
{
    *bytes = match h.look() {
        AnyEnd::Server(end) => calls::output(end),
        AnyEnd::Client(end) => calls::output(end),
    };
}

/// The first `count` of the bytes that wait were written.
#[unsafe(no_mangle)]
pub extern "C" fn dv_written(h: &mut DvEnd, count: usize)
    ensures { InRole (λ R X S ends exchanges old new. Writes old count new) h.old.value h.new.value }
{
    match h.state() {
        AnyEnd::Server(end) => calls::written(end, count),
        AnyEnd::Client(end) => calls::written(end, count),
    }
}

/// Keeps a fresh pair for the next exchange of keys, or answers `false` if the end keeps one or can take no more.
#[unsafe(no_mangle)]
pub extern "C" fn dv_feed(h: &mut DvEnd, material: &DvMaterial) -> bool
    ensures { InRole (λ R X S ends exchanges old new. Feeds ends exchanges aes_gcm next_bytes old material.now.cookie
        material.now.secret result new) h.old.value h.new.value }
{
    match h.state() {
        AnyEnd::Server(end) => calls::feed(end, material),
        AnyEnd::Client(end) => calls::feed(end, material),
    }
}

/// Tests whether the end is over.
#[unsafe(no_mangle)]
pub extern "C" fn dv_is_over(h: &mut DvEnd) -> bool
    ensures { Tells (of_end (λ R X S it. it.end.machine.kept.dead) h.old.value) result h.old.value h.new.value }
{
    match h.state() {
        AnyEnd::Server(end) => end.is_over(),
        AnyEnd::Client(end) => end.is_over(),
    }
}

/// Tests whether an exchange of keys is due.
#[unsafe(no_mangle)]
pub extern "C" fn dv_rekey_due(h: &mut DvEnd) -> bool
    ensures { Tells (of_end (λ R X S it. is_due it) h.old.value) result h.old.value h.new.value }
{
    match h.state() {
        AnyEnd::Server(end) => end.rekey_due(),
        AnyEnd::Client(end) => end.rekey_due(),
    }
}

/// Tells how many bytes of data fit into the peer's window on a channel.
#[unsafe(no_mangle)]
pub extern "C" fn dv_room(h: &mut DvEnd, channel: u32) -> u32
    ensures { Tells (of_end (λ R X S it. room_on it channel) h.old.value) result h.old.value h.new.value }
{
    match h.state() {
        AnyEnd::Server(end) => end.room(channel),
        AnyEnd::Client(end) => end.room(channel),
    }
}

/// Makes an ask now. The number of a channel that it opens goes to `channel`. A client's login by a key without a signature is not made.
#[unsafe(no_mangle)]
pub extern "C" fn dv_ask_now(h: &mut DvEnd, ask: &AskForm<'_>, channel: &mut u32) -> i32
    ensures { AsksIn ask.now result channel.old channel.new h.old.value h.new.value }
{
    match h.state() {
        AnyEnd::Server(end) => calls::ask(end, ask, channel),
        AnyEnd::Client(end) => signing::ask(end, ask, channel),
    }
}

/// Puts an ask after those that wait.
#[unsafe(no_mangle)]
pub extern "C" fn dv_queue(alloc: Global, h: &mut DvEnd, ask: &AskForm<'_>) -> i32
    ensures { InRole (λ R X S ends exchanges old new. Queues old ask.now result new) h.old.value h.new.value }
{
    match h.state() {
        AnyEnd::Server(end) => calls::queue(alloc, end, ask),
        AnyEnd::Client(end) => calls::queue(alloc, end, ask),
    }
}

/// Tells how many asks wait.
#[unsafe(no_mangle)]
pub extern "C" fn dv_queued(h: &mut DvEnd) -> usize
    ensures { Tells (of_end (λ R X S it. deque_len it.waiting) h.old.value) result h.old.value h.new.value }
{
    match h.state() {
        AnyEnd::Server(end) => end.queued(),
        AnyEnd::Client(end) => end.queued(),
    }
}

/// Makes the oldest ask that waits. It goes on waiting if it comes too early.
#[unsafe(no_mangle)]
pub extern "C" fn dv_work(alloc: Global, h: &mut DvEnd, channel: &mut u32) -> i32
    ensures { WorksIn result channel.old channel.new h.old.value h.new.value }
{
    match h.state() {
        AnyEnd::Server(end) => calls::work(alloc, end, channel),
        AnyEnd::Client(end) => signing::work(alloc, end, channel),
    }
}

/// Queues the answer that the peer is owed for what `dv_show_event` shows.
#[unsafe(no_mangle)]
pub extern "C" fn dv_decline(h: &mut DvEnd) -> i32
    ensures { InRole (λ R X S ends exchanges old new. Declines old result new) h.old.value h.new.value }
{
    match h.state() {
        AnyEnd::Server(end) => calls::decline(end),
        AnyEnd::Client(end) => calls::decline(end),
    }
}

/// Sends as much data as one packet takes, or extended data if `stream` is not 0.
#[unsafe(no_mangle)]
pub extern "C" fn dv_send(
    h: &mut DvEnd,
    channel: u32,
    stream: u32,
    body: &[u8],
    taken: &mut usize,
) -> i32
    ensures { InRole (λ R X S ends exchanges old new. Sends ends exchanges aes_gcm next_bytes old channel stream body.now taken.new
        result new) h.old.value h.new.value }
{
    match h.state() {
        AnyEnd::Server(end) => calls::send(end, channel, stream, body, taken),
        AnyEnd::Client(end) => calls::send(end, channel, stream, body, taken),
    }
}

/// So many bytes that came on a channel are done with.
#[unsafe(no_mangle)]
pub extern "C" fn dv_consume(h: &mut DvEnd, channel: u32, bytes: usize) -> i32
    ensures { InRole (λ R X S ends exchanges old new. Consumes channel bytes old result new) h.old.value h.new.value }
{
    match h.state() {
        AnyEnd::Server(end) => calls::consume(end, channel, bytes),
        AnyEnd::Client(end) => calls::consume(end, channel, bytes),
    }
}
