//! Authentication and channels on a transport.

ghost use Rattle.std.specs.Prelude.{◌≡◌, ◌≤◌, IfErr, IfOk, IfSome, OnErr, option_map};
ghost use Rattle.ssh_model.specs.Protocol.Bounds.{longest_payload};
ghost use Rattle.ssh_model.specs.State.Channels.Kept.{no_channels};
ghost use Rattle.ssh_model.specs.Laws.Sizes.{payload_size};
ghost use Rattle.ssh_model.specs.Protocol.Sessions.Turns.{number_of};
ghost use Rattle.ssh_message.specs.Meaning.{meaning};
ghost use Rattle.ssh_message.specs.Written.{Fits};
ghost use Rattle.ssh_end_machine.specs.Layer.{beneath_of};
ghost use Rattle.ssh_end_machine.specs.Layers.{IsShort, LayersFail, LayersTake, may_take as takes, message_of};

use crate::layers::answer::{LayerAnswer, LayerTaken};
use crate::layers::layer::{Layer, layer_of, number_in};
use crate::layers::login::Login;
use ssh_auth::UserJudge;
use ssh_channels::Channels;
use ssh_message::{Message, decode};
use ssh_types::{CallError, Refusal};
use std::alloc::{AllocError, Global};
use std::marker::Model;

/// What a transport says to the layers above it.
#[derive(Clone, Copy, Debug)]
pub struct TransportView<'a> {
    /// The session id (RFC 4253 section 7.2).
    pub session: &'a [u8; 32],
    /// The end sent its KEXINIT and not yet its NEWKEYS, so that no reply goes out (RFC 4253 section 7.1).
    pub blocked: bool,
    /// USERAUTH_SUCCESS was sent or taken.
    pub authenticated: bool,
}

/// The layers above a transport: authentication (RFC 4252) and channels (RFC 4254).
#[derive(Drop)]
pub struct Layers {
    /// What it keeps of authentication.
    pub authentication: Login,
    /// Its channels.
    pub channels: Channels,
}

impl Model for Layers {
    ghost use Rattle.ssh_end_machine.specs.Layers as layers;

    ghost Value = { layers.Layers };

    ghost view = { λ l. record { authentication = l.authentication; channels = l.channels } };
}

impl Layers {
    /// Layers with this of authentication and no channel.
    ///
    /// # Errors
    ///
    /// Only if memory is refused.
    pub fn new(alloc: Global, authentication: Login) -> Result<Layers, AllocError>
        ensures authentication { IfOk result (λ layers. layers.authentication ≡ authentication) }
        ensures channels { IfOk result (λ layers. layers.channels ≡ no_channels) }
    {
        let channels = Channels::new(alloc)?;
        Ok(Layers {
            authentication,
            channels,
        })
    }

    /// The message that is sent at once for an answer of `take`, where its packet had this sequence number; `None` where nothing is. It
    /// fits, and its payload has at most 34,000 bytes. It needs no memory.
    pub fn message<'a>(&'a self, answer: &LayerAnswer<'a>, number: u32) -> Option<Message<'a>>
        requires { IsShort answer.now }
        ensures message { option_map meaning result ≡ message_of self.now answer.now number }
        ensures fits { IfSome result (λ message. Fits message) }
        ensures short { IfSome result (λ message. payload_size (meaning message) ≤ longest_payload) }
    {
        match *answer {
            LayerAnswer::Channels(taken) => match taken.reply {
                Some(reply) => Some(reply.message()),
                None => None,
            },
            LayerAnswer::Unknown => Some(Message::Unimplemented { number }),
            LayerAnswer::Server(_) | LayerAnswer::Client(_) => self.authentication.message(answer),
        }
    }

    /// Takes a payload from 50 on, outside an exchange of keys of the peer's: tests its number, decodes it, and gives its message to the
    /// layer that it is for. A server's users are judged by this judge.
    ///
    /// # Errors
    ///
    /// The layers are then as before.
    ///
    /// - `Refused(Unexpected)`: a message of this number may not come here.
    /// - `Refused(BadMessage)`: the payload is no message.
    /// - `Refused` with what a layer refuses the peer for.
    /// - `Memory`: memory was refused for a new channel. Or the payload is larger than a packet can be, and memory was refused for the text
    ///   that its signature covers.
    pub fn take<'a, J: UserJudge>(
        &mut self,
        judge: &J,
        below: &TransportView<'_>,
        payload: &'a [u8],
    ) -> Result<LayerTaken<'a>, CallError<Refusal>>
        // What the caller must ensure.
        requires { 50 ≤ number_of payload.now }
        // What it does.
        ensures taken { IfOk result (λ taken. LayersTake (J.verdicts judge.now) (beneath_of below.now)
            self.old (meaning taken.message) payload.now taken.answer self.new) }
        ensures fits { IfOk result (λ taken. Fits taken.message) }
        ensures short { IfOk result (λ taken. IsShort taken.answer) }
        // If it fails.
        ensures failed { IfErr result (λ fault. LayersFail (J.verdicts judge.now) (beneath_of below.now)
            self.old payload.now fault) }
        ensures kept { OnErr result (self.new ≡ self.old) }
    {
        if !self.may_take(below, number_in(payload)) {
            return Err(CallError::Refused(Refusal::Unexpected));
        }
        let Ok(message) = decode(self.authentication.probing(), payload) else {
            return Err(CallError::Refused(Refusal::BadMessage));
        };
        match layer_of(&message) {
            Layer::Authentication => {
                let answer = self.authentication.take(judge, below.session, &message)?;
                Ok(LayerTaken { message, answer })
            }
            Layer::Channels => {
                let answer = LayerAnswer::Channels(self.channels.take(&message, below.blocked)?);
                Ok(LayerTaken { message, answer })
            }
            Layer::Unknown => Ok(LayerTaken {
                message,
                answer: LayerAnswer::Unknown,
            }),
        }
    }

    // Tests whether a message of this number from 50 on may come outside an exchange of keys.
    fn may_take(&self, below: &TransportView<'_>, number: u8) -> bool
        ensures { result ≡ takes (beneath_of below.now) self.now number }
    {
        if number < 80 {
            self.authentication.may_take(number)
        } else {
            below.authenticated
        }
    }
}
