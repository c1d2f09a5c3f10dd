//! Calls of the layers above a transport, which are as before if memory is refused.

ghost use Rattle.std.specs.Prelude.{◌≡◌, ◌≤◌, true};
ghost use Rattle.ssh_model.specs.Protocol.Sessions.Turns.{number_of};

use super::changing::{OPEN, SESSION, SIGN, SIGNED};
use super::outcome::{Outcome, came};
use ssh_auth::ServerAnswer;
use ssh_channels::Channels;
use ssh_end::layers::{LayerAnswer, LayerTaken, Layers, Login, TransportView, ask_channels};
use ssh_toys::{CREDENTIALS, ToyJudge, ToyUserSigner};
use ssh_types::{CallError, NameList, Refusal};
use std::alloc::{AllocError, Global};

/// A call of layers.
#[derive(Clone, Copy, Debug)]
pub enum Layered {
    Asked,
    TakenByServer,
    TakenByClient,
    SignedRequest,
    JudgedRequest,
}

/// Each of them.
pub const LAYERED: &[Layered] = &[
    Layered::Asked,
    Layered::TakenByServer,
    Layered::TakenByClient,
    Layered::SignedRequest,
    Layered::JudgedRequest,
];

/// Makes the call, and again if memory is refused.
///
/// # Errors
///
/// Only if memory is refused.
pub fn layer(alloc: Global, call: Layered) -> Result<Outcome, AllocError> {
    match call {
        Layered::Asked => ask(alloc),
        Layered::TakenByServer => take_at_server(alloc, OPENED),
        Layered::TakenByClient => take_at_client(alloc, OPENED),
        Layered::SignedRequest => sign_request(alloc),
        Layered::JudgedRequest => judge_request(alloc, SIGNED),
    }
}

// What a transport says before the user is authenticated, and from then on.
fn below(authenticated: bool) -> TransportView<'static> {
    TransportView {
        session: &SESSION,
        blocked: false,
        authenticated,
    }
}

const JUDGE: ToyJudge<'static> = ToyJudge {
    credentials: CREDENTIALS,
};

// The peer opens a channel.
const OPENED: &[u8] = b"\x5a\0\0\0\x07session\0\0\0\0\0\0\0\x0a\0\0\x80\0";

// A payload is one for the layers above a transport.
fn is_above(payload: &[u8]) -> bool
    ensures { result ≡ true → 50 ≤ number_of payload.now }
{
    match payload.first() {
        Some(number) => 50 <= *number,
        None => false,
    }
}

fn ask(alloc: Global) -> Result<Outcome, AllocError> {
    let mut channels = Channels::new(alloc)?;
    let first = ask_channels(&mut channels, &below(true), &OPEN, false).err();
    let is_kept = first == Some(CallError::Memory) && channels.count() == 0;
    let is_second = first.is_none()
        || ask_channels(&mut channels, &below(true), &OPEN, false).is_ok();
    Ok(came(first.is_none(), is_kept, is_second && channels.count() == 1))
}

fn take_at_server(alloc: Global, payload: &[u8]) -> Result<Outcome, AllocError> {
    let Some(methods) = NameList::new(b"publickey") else {
        return Ok(Outcome::Wrong);
    };
    let login = Login::server(alloc, 1, &methods)?;
    Ok(take_at(Layers::new(alloc, login)?, payload))
}

fn take_at_client(alloc: Global, payload: &[u8]) -> Result<Outcome, AllocError> {
    Ok(take_at(Layers::new(alloc, Login::client(alloc))?, payload))
}

fn take_at(mut layers: Layers, payload: &[u8]) -> Outcome {
    if !is_above(payload) {
        return Outcome::Wrong;
    }
    let first = layers.take(&JUDGE, &below(true), payload).err();
    let is_kept = first == Some(CallError::Memory) && layers.channels.count() == 0;
    let is_second = first.is_none() || layers.take(&JUDGE, &below(true), payload).is_ok();
    came(
        first.is_none(),
        is_kept,
        is_second && layers.channels.count() == 1,
    )
}

// A client that was refused memory has no request outstanding.
fn sign_request(alloc: Global) -> Result<Outcome, AllocError> {
    let below = below(false);
    let mut layers = Layers::new(alloc, Login::client(alloc))?;
    layers.authentication.open();
    let Login::Client(client) = &mut layers.authentication else {
        return Ok(Outcome::Wrong);
    };
    let first = client.ask(below.session, &ToyUserSigner, &SIGN).err();
    let is_kept = first == Some(CallError::Memory) && !client.may_take(52);
    let is_second = first.is_none() || client.ask(below.session, &ToyUserSigner, &SIGN).is_ok();
    Ok(came(first.is_none(), is_kept, is_second && client.may_take(52)))
}

// One request may fail. One for which memory was refused did not.
fn judge_request(alloc: Global, payload: &[u8]) -> Result<Outcome, AllocError> {
    let Some(methods) = NameList::new(b"publickey") else {
        return Ok(Outcome::Wrong);
    };
    if !is_above(payload) {
        return Ok(Outcome::Wrong);
    }
    let below = below(false);
    let login = Login::server(alloc, 1, &methods)?;
    let mut layers = Layers::new(alloc, login)?;
    layers.authentication.open();
    let first = is_failure(layers.take(&JUDGE, &below, payload));
    let answered = match first {
        Some(_) => first,
        None => is_failure(layers.take(&JUDGE, &below, payload)),
    };
    if first == Some(false) {
        return Ok(Outcome::Wrong);
    }
    Ok(came(first.is_some(), true, answered == Some(true)))
}

// Whether a request is answered by a failure. Of one for which memory was refused it is not known.
fn is_failure(taken: Result<LayerTaken<'_>, CallError<Refusal>>) -> Option<bool> {
    match taken {
        Ok(taken) => { Some(taken.answer == LayerAnswer::Server(ServerAnswer::Failed)) }
        Err(CallError::Memory) => None,
        Err(_) => Some(false),
    }
}
