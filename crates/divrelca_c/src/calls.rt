//! The work of the calls of C, on an end of either role, and on a server.

ghost use Rattle.std.specs.Prelude.{◌≡◌, List, false, true, ℕ};
ghost use Rattle.std.specs.List.{slice_get};
ghost use Rattle.std.specs.Option.{option_copied};
ghost use Rattle.divrelca_c.specs.Calls.{AsksNow, Consumes, DecidesLater, Declines, Feeds, Queues, Sends, Works, Writes};
ghost use Rattle.divrelca_c.specs.Embedded.Deciding.{hash_of, is_open, payload_of};
ghost use Rattle.divrelca_c.specs.Wanted.{ShowsHost, nothing_asked, request_shown, shown_in};
ghost use Rattle.divrelca.specs.Parts.Ed25519.{is_name};
ghost use Rattle.ssh_held.specs.Book.{awaits_signature};
ghost use Rattle.ssh_model.specs.Protocol.Wire.Message.{IsPayload, Method, Msg.UserauthRequest};
ghost use Rattle.divrelca_c.specs.Embedded.Output.{waiting_of};
ghost use Rattle.divrelca_c.specs.Ends.{ShowsBytes};
ghost use Rattle.divrelca_c.specs.Events.{ShowsTurn};
ghost use Rattle.divrelca_c.specs.Users.{SetsUser};
ghost use Rattle.ssh_end_machine.specs.Steps.{shown_by};

use crate::bytes::{DvBytes, DvMaterial, DvUser};
use crate::codes::{DONE, MEMORY, NOTHING_QUEUED, TOO_LATE, answer, code_form, code_of, code_user};
use crate::embedded::{AskForm, Client, Embedded, Server, Waiting};
use crate::event::{DvEvent, event_of};
use crate::making::users_in;
use crate::wanted::{DvWanted, nothing_wanted, wanted_host, wanted_request};
use ssh_end::{EndRole, Fault};
use ssh_packet::{Filler, Sealing};
use ssh_transport::Role;
use ssh_types::CallError;
use std::alloc::Global;

/// What a server asks its program.
pub fn request(server: &Server) -> DvWanted<'_>
    ensures none { is_open server.now.ahead ≡ false → shown_in result ≡ nothing_asked }
    ensures request { is_open server.now.ahead ≡ true → (user service : List ℕ) (method : Method) →
        IsPayload false (UserauthRequest user service method) (payload_of server.now.ahead) →
        shown_in result ≡ request_shown (awaits_signature is_name server.now.end.role.own.judge.book.list.items user method) user method }
{
    match server.wanted() {
        Some(request) => {
            let book = &server.end.user().book;
            wanted_request(
                &request,
                book.awaits_signature(request.user, &request.method),
            )
        }
        None => nothing_wanted(),
    }
}

/// What a client asks its program.
pub fn host(client: &Client) -> DvWanted<'_>
    ensures none { is_open client.now.ahead ≡ false → shown_in result ≡ nothing_asked }
    ensures host { is_open client.now.ahead ≡ true → ShowsHost client.now.end.machine (payload_of client.now.ahead)
        (hash_of client.now.ahead) (shown_in result) }
{
    match client.wanted() {
        Some(host) => wanted_host(&host),
        None => nothing_wanted(),
    }
}

/// From here on an end holds back what asks its program.
pub fn decide_later<R: EndRole>(alloc: Global, end: &mut Embedded<R>) -> i32
    ensures { DecidesLater end.old result end.new }
{
    match end.decide_later(alloc) {
        Ok(true) => DONE,
        Ok(false) => TOO_LATE,
        Err(_) => MEMORY,
    }
}

/// What was done in the last call of `take`.
pub fn event<R: EndRole>(end: &Embedded<R>) -> DvEvent<'_>
    ensures { ShowsTurn (shown_by end.now.end.step end.now.end.machine) end.now.end.step result }
{
    event_of(&end.last_turn())
}

/// The payload at this place of those that the last call sent, the oldest first.
pub fn sent<R: EndRole>(end: &Embedded<R>, place: usize) -> Option<&[u8]>
    ensures { option_copied result ≡ slice_get end.now.end.sent place }
{
    match end.last_turn().sent.payloads().get(place) {
        Some(payload) => Some(payload.as_slice()),
        None => None,
    }
}

/// The session id, once an exchange of keys is over.
pub fn session_id<R: EndRole>(end: &Embedded<R>) -> Option<&[u8]>
    ensures { option_copied result ≡ end.now.end.machine.kept.session }
{
    match end.end.session_id() {
        Some(id) => Some(id.as_slice()),
        None => None,
    }
}

/// Shows these bytes, or that there are none.
pub fn show<'a>(found: Option<&'a [u8]>, place: &mut DvBytes<'a>) -> bool
    ensures { ShowsBytes (option_copied found.entry) result place.new.bytes.now }
{
    match found {
        Some(bytes) => {
            place.bytes = bytes;
            true
        }
        None => {
            place.bytes = b"";
            false
        }
    }
}

/// The bytes that wait for the peer.
pub fn output<R: EndRole>(end: &Embedded<R>) -> DvBytes<'_>
    ensures { result.bytes.now ≡ waiting_of end.now }
{
    DvBytes {
        bytes: end.output(),
    }
}

/// The first `count` of the bytes that wait were written.
pub fn written<R: EndRole>(end: &mut Embedded<R>, count: usize)
    ensures { Writes end.old count end.new }
{
    end.written(count);
}

/// Keeps a fresh pair for the next exchange of keys, or answers `false` if the end keeps one or can take no more.
pub fn feed<R: EndRole>(end: &mut Embedded<R>, material: &DvMaterial) -> bool
    ensures { Feeds R.EndRole R.Exchange.Role R.Exchange.Sealing.crypto R.Exchange.Filler.gives end.old material.now.cookie
        material.now.secret result end.new }
{
    end.feed(material.cookie, material.secret)
}

/// Makes an ask now. The number of a channel that it opens goes to `channel`.
#[tactic(auto, using(crate::proofs::Padding::pads_on_none))]
pub fn ask<R: EndRole>(end: &mut Embedded<R>, ask: &AskForm<'_>, channel: &mut u32) -> i32
    ensures { AsksNow R.EndRole R.Exchange.Role R.Exchange.Sealing.crypto R.Exchange.Filler.gives end.old ask.now result channel.old
        channel.new end.new }
{
    match end.ask(ask) {
        Ok(done) => answer(done, channel),
        Err(fault) => code_form(fault),
    }
}

/// Puts an ask after those that wait.
pub fn queue<R: EndRole>(alloc: Global, end: &mut Embedded<R>, ask: &AskForm<'_>) -> i32
    ensures { Queues end.old ask.now result end.new }
{
    if let Err(fault) = end.is_ask(ask) {
        return code_form(fault);
    }
    let Ok(asked) = Waiting::of(alloc, ask) else {
        return MEMORY;
    };
    match end.queue(asked) {
        Ok(()) => DONE,
        Err(_) => MEMORY,
    }
}

/// Makes the oldest ask that waits. It goes on waiting if it comes too early.
#[tactic(auto, using(crate::proofs::Padding::pads_on_none))]
pub fn work<R: EndRole>(alloc: Global, end: &mut Embedded<R>, channel: &mut u32) -> i32
    ensures { Works R.EndRole R.Exchange.Role R.Exchange.Sealing.crypto R.Exchange.Filler.gives end.old result channel.old channel.new
        end.new }
{
    match end.work(alloc) {
        Some(done) => answer(done, channel),
        None => NOTHING_QUEUED,
    }
}

/// Queues the answer that the peer is owed for the event of the last call of `take`.
pub fn decline<R: EndRole>(end: &mut Embedded<R>) -> i32
    ensures { Declines end.old result end.new }
{
    match end.decline() {
        Ok(()) => DONE,
        Err(_) => MEMORY,
    }
}

/// Sends as much data as one packet takes, or extended data if `stream` is not 0.
pub fn send<R: EndRole>(
    end: &mut Embedded<R>,
    channel: u32,
    stream: u32,
    body: &[u8],
    taken: &mut usize,
) -> i32
    ensures { Sends R.EndRole R.Exchange.Role R.Exchange.Sealing.crypto R.Exchange.Filler.gives end.old channel stream body.now taken.new
        result end.new }
{
    *taken = 0;
    let kind = if stream == 0 { None } else { Some(stream) };
    match end.send(channel, kind, body) {
        Ok(count) => {
            *taken = count;
            DONE
        }
        Err(fault) => code_of(fault),
    }
}

/// So many bytes that came on a channel are done with.
pub fn consume<R: EndRole>(end: &mut Embedded<R>, channel: u32, bytes: usize) -> i32
    ensures { Consumes channel bytes end.old result end.new }
{
    match end.consume(channel, bytes) {
        Ok(()) => DONE,
        Err(CallError::Memory) => MEMORY,
        Err(CallError::Refused(refusal)) => code_of(Fault::Ask(refusal)),
    }
}

/// Gives a server the keys and passwords of one user.
pub fn set_user(alloc: Global, server: &mut Server, name: &[u8], users: &[DvUser<'_>]) -> i32
    ensures { SetsUser name.now users.now result server.old server.new }
{
    let given = match users_in(alloc, users) {
        Ok(given) => given,
        Err(code) => return code,
    };
    match server.set_user(alloc, name, given) {
        Ok(()) => DONE,
        Err(fault) => code_user(fault),
    }
}
