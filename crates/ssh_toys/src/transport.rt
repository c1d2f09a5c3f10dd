//! The transport of either role.

ghost use Rattle.std.specs.Prelude.{◌≡◌, ◌++◌, ◌<◌, ◌≤◌, IfErr, IfNone, IfOk, IfSome, OnErr, OnOk, OnSome, false, length};
ghost use Rattle.std.specs.Prelude.{map, nat_le, take, true};
ghost use Rattle.ssh_config.specs.Config.{AreGood, settings_given};
ghost use Rattle.ssh_config.specs.Meaning.{settings_of};
ghost use Rattle.ssh_config.specs.Values.{given};
ghost use Rattle.ssh_message.specs.Meaning.{meaning};
ghost use Rattle.ssh_message.specs.Written.{Fits};
ghost use Rattle.ssh_model.specs.Laws.Sizes.{payload_size};
ghost use Rattle.ssh_model.specs.Protocol.Bounds.{longest_payload};
ghost use Rattle.ssh_model.specs.Protocol.Sessions.Turns.{IsEncoded};
ghost use Rattle.ssh_model.specs.Laws.MacOnly.{mac_only};
ghost use Rattle.ssh_model.specs.Protocol.Wire.Message.{FitsContext};
ghost use Rattle.ssh_model.specs.State.TransportLayer.Kept.{after_fed, can_be_fed};
ghost use Rattle.ssh_packet.specs.Directions.{next_number};
ghost use Rattle.ssh_transport.specs.Sending.{CanSend};
ghost use Rattle.ssh_transport.specs.States.{sending_from_line};
ghost use Rattle.ssh_transport.specs.Above.{PayloadSent, PeerRefused, RefuseFailed, SendFailed};
ghost use Rattle.ssh_transport.specs.Asks.{AskFailed, AskTaken};
ghost use Rattle.ssh_transport_machine.specs.Opening.{IsOpened};
ghost use Rattle.ssh_transport_machine.specs.Padding.{PadsTo};
ghost use Rattle.ssh_transport_machine.specs.Puts.{listed_outs};
ghost use Rattle.ssh_transport_machine.specs.State.{buffered_of};
ghost use Rattle.ssh_toys.specs.Standard.{cookie_of, gives_byte, secret_of, zeros};
ghost use Rattle.ssh_toys.specs.Transports.{FailsIn, SameParts, TakesIn, machine_of, sending_in, side_of, with_kept};

use crate::{
    CLIENT_COOKIE, CLIENT_SECRET, SERVER_COOKIE, SERVER_SECRET, ToyClient, ToyServer, client_parts,
    config, server_parts,
};
use ssh_message::Message;
use ssh_packet::MacOnly;
use ssh_transport::{
    AskTurn, ClientTransport, Config, SendOutcome, ServerTransport, Settings, TransportAsk,
    TransportFault, TransportTurn,
};
use ssh_types::{Refusal, Side};
use std::alloc::{AllocError, Global};

/// The transport of one end.
pub enum ToyTransport {
    Client(ClientTransport<ToyClient>),
    Server(ServerTransport<ToyServer>),
}

// Written out, since a derive would ask it of the parts' name too.
impl Drop for ToyTransport {
    fn drop(self) {
        match self {
            ToyTransport::Client(_) => {}
            ToyTransport::Server(_) => {}
        }
    }
}

impl ToyTransport {
    /// The transport of a side, after the bytes and payloads that it put out at first. Settings that are refused count as a lack of memory.
    ///
    /// # Errors
    ///
    /// Only if memory is refused.
    pub fn new(
        alloc: Global,
        side: Side,
        settings: &Settings<'_>,
        out: &mut Vec<u8>,
        sent: &mut Vec<Vec<u8>>,
    ) -> Result<ToyTransport, AllocError>
        ensures good { IfOk result (λ _. AreGood mac_only (given settings.now)) }
        ensures opened { IfOk result (λ made. IsOpened mac_only (settings_given (given settings.now)) side (cookie_of side) (secret_of side)
            (machine_of made) (listed_outs out.old out.new sent.old sent.new)) }
        ensures padded { IfOk result (λ made. PadsTo mac_only gives_byte (sending_from_line (settings_given (given settings.now)) zeros
            out.old sent.old) (sending_in made out.new sent.new)) }
        ensures role { IfOk result (λ made. side_of made ≡ side) }
        ensures out { OnErr result (out.new.items ≡ out.old.items) }
        ensures kept { OnErr result (sent.new.items ≡ sent.old.items) }
    {
        let config = config(alloc, settings)?;
        opened(alloc, side, config, out, sent)
    }

    /// Takes bytes to the end of one line or packet.
    ///
    /// # Errors
    ///
    /// Those of `ServerTransport::take` and `ClientTransport::take`.
    pub fn take(
        &mut self,
        bytes: &[u8],
        out: &mut Vec<u8>,
        sent: &mut Vec<Vec<u8>>,
    ) -> (usize, Result<TransportTurn, TransportFault>)
        ensures used { result.0 ≤ length bytes.now }
        ensures progress { (machine_of self.old).kept.dead ≡ false → 0 < length bytes.now → 0 < result.0 }
        ensures dead { (machine_of self.old).kept.dead ≡ true → result.0 ≡ 0 }
        ensures more { IfOk result.1 (λ turn. turn ≡ TransportTurn.More → result.0 ≡ length bytes.now) }
        ensures takes { IfOk result.1 (λ turn. TakesIn self.old
            (buffered_of (machine_of self.old) ++ take result.0 bytes.now) turn self.new (listed_outs out.old out.new sent.old sent.new)) }
        ensures padded { OnOk result.1 (PadsTo mac_only gives_byte (sending_in self.old out.old sent.old)
            (sending_in self.new out.new sent.new)) }
        ensures fails { IfErr result.1 (λ fault. FailsIn self.old
            (buffered_of (machine_of self.old) ++ take result.0 bytes.now) fault self.new) }
        ensures parts { SameParts self.old self.new }
        ensures out { OnErr result.1 (out.new.items ≡ out.old.items) }
        ensures kept { OnErr result.1 (map (λ v. v.items) sent.new.items ≡ map (λ v. v.items) sent.old.items) }
    {
        match self {
            ToyTransport::Client(end) => end.take(bytes, out, sent),
            ToyTransport::Server(end) => end.take(bytes, out, sent),
        }
    }

    /// Does the ask.
    ///
    /// # Errors
    ///
    /// Those of `ServerTransport::ask` and `ClientTransport::ask`.
    pub fn ask(
        &mut self,
        ask: TransportAsk<'_>,
        out: &mut Vec<u8>,
        sent: &mut Vec<Vec<u8>>,
    ) -> Result<AskTurn, TransportFault>
        ensures asked { IfOk result (λ turn. AskTaken mac_only (machine_of self.old) ask.entry turn (machine_of self.new)
            (listed_outs out.old out.new sent.old sent.new)) }
        ensures padded { OnOk result (PadsTo mac_only gives_byte (sending_in self.old out.old sent.old)
            (sending_in self.new out.new sent.new)) }
        ensures failed { IfErr result (λ fault. AskFailed (machine_of self.old) ask.entry fault (machine_of self.new)) }
        ensures parts { SameParts self.old self.new }
        ensures out { OnErr result (out.new.items ≡ out.old.items) }
        ensures kept { OnErr result (sent.new.items ≡ sent.old.items) }
    {
        match self {
            ToyTransport::Client(end) => end.ask(ask, out, sent),
            ToyTransport::Server(end) => end.ask(ask, out, sent),
        }
    }

    /// The payload of a message of a layer above.
    ///
    /// # Errors
    ///
    /// Only if memory is refused.
    pub fn encode_payload(&self, message: &Message<'_>) -> Result<Vec<u8>, AllocError>
        requires fits { Fits message.now }
        requires context { FitsContext true (meaning message.now) }
        requires most { payload_size (meaning message.now) ≤ longest_payload }
        ensures encoded { IfOk result (λ payload. IsEncoded (meaning message.now) payload.items) }
        ensures some { IfOk result (λ payload. 1 ≤ length payload.items) }
    {
        match self {
            ToyTransport::Client(end) => end.encode_payload(message),
            ToyTransport::Server(end) => end.encode_payload(message),
        }
    }

    /// Sends a payload of a layer above, or answers `None` if the transport can't send it now.
    ///
    /// # Errors
    ///
    /// Those of `ServerTransport::send` and `ClientTransport::send`.
    pub fn send(
        &mut self,
        payload: Vec<u8>,
        out: &mut Vec<u8>,
        sent: &mut Vec<Vec<u8>>,
    ) -> Result<Option<SendOutcome>, TransportFault>
        ensures can { IfOk result (λ answer. OnSome answer (CanSend (machine_of self.old).kept payload.items)) }
        ensures cannot { IfOk result (λ answer. IfNone answer (CanSend (machine_of self.old).kept payload.items → ⊥)) }
        ensures answered { IfOk result (λ some. IfSome some (λ answer. PayloadSent mac_only (machine_of self.old) payload.items answer
            (machine_of self.new) (listed_outs out.old out.new sent.old sent.new))) }
        ensures padded { IfOk result (λ answer. OnSome answer (PadsTo mac_only gives_byte (sending_in self.old out.old sent.old)
            (sending_in self.new out.new sent.new))) }
        ensures failed { IfErr result (λ fault. SendFailed (machine_of self.old) fault (machine_of self.new)) }
        ensures parts { SameParts self.old self.new }
        ensures unsent { IfOk result (λ answer. IfNone answer (self.new ≡ self.old)) }
        ensures unput { IfOk result (λ answer. IfNone answer (out.new.items ≡ out.old.items)) }
        ensures unlisted { IfOk result (λ answer. IfNone answer (sent.new.items ≡ sent.old.items)) }
        ensures out { OnErr result (out.new.items ≡ out.old.items) }
        ensures kept { OnErr result (sent.new.items ≡ sent.old.items) }
    {
        match self {
            ToyTransport::Client(end) => {
                if !end.can_send(payload.as_slice()) {
                    return Ok(None);
                }
                Ok(Some(end.send(payload, out, sent)?))
            }
            ToyTransport::Server(end) => {
                if !end.can_send(payload.as_slice()) {
                    return Ok(None);
                }
                Ok(Some(end.send(payload, out, sent)?))
            }
        }
    }

    /// Refuses the peer because of a payload that a layer above took.
    ///
    /// # Errors
    ///
    /// Those of `ServerTransport::refuse` and `ClientTransport::refuse`.
    pub fn refuse(
        &mut self,
        refusal: Refusal,
        out: &mut Vec<u8>,
        sent: &mut Vec<Vec<u8>>,
    ) -> Result<(), TransportFault>
        ensures refused { OnOk result (PeerRefused mac_only (machine_of self.old) refusal (machine_of self.new)
            (listed_outs out.old out.new sent.old sent.new)) }
        ensures padded { OnOk result (PadsTo mac_only gives_byte (sending_in self.old out.old sent.old)
            (sending_in self.new out.new sent.new)) }
        ensures failed { IfErr result (λ fault. RefuseFailed (machine_of self.old) refusal fault (machine_of self.new)) }
        ensures parts { SameParts self.old self.new }
        ensures out { OnErr result (out.new.items ≡ out.old.items) }
        ensures kept { OnErr result (sent.new.items ≡ sent.old.items) }
    {
        match self {
            ToyTransport::Client(end) => end.refuse(refusal, out, sent),
            ToyTransport::Server(end) => end.refuse(refusal, out, sent),
        }
    }

    /// Keeps a pair of cookie and secret, or answers `false`.
    pub fn feed_material(&mut self, cookie: [u8; 16], secret: [u8; 32]) -> bool
        ensures fed { result ≡ can_be_fed (machine_of self.old).kept }
        ensures kept { result ≡ true → self.new ≡ with_kept self.old (after_fed cookie secret (machine_of self.old).kept) }
        ensures same { result ≡ false → self.new ≡ self.old }
    {
        match self {
            ToyTransport::Client(end) => end.feed_material(cookie, secret),
            ToyTransport::Server(end) => end.feed_material(cookie, secret),
        }
    }

    /// The user is authenticated.
    pub fn authenticated(&mut self)
        ensures { self.new ≡ with_kept self.old (record (machine_of self.old).kept { authenticated = true }) }
    {
        match self {
            ToyTransport::Client(end) => end.authenticated(),
            ToyTransport::Server(end) => end.authenticated(),
        }
    }

    /// The payload taken last.
    pub fn payload(&self) -> &[u8]
        ensures { result.now ≡ (machine_of self.now).receiver.payload }
    {
        match self {
            ToyTransport::Client(end) => end.payload(),
            ToyTransport::Server(end) => end.payload(),
        }
    }

    /// The numbers of the next packets, to be sent and to be taken.
    pub fn numbers(&self) -> (u64, u64)
        ensures sending { result.0 ≡ next_number (machine_of self.now).kept.sending }
        ensures taking { result.1 ≡ next_number (machine_of self.now).kept.taking }
    {
        match self {
            ToyTransport::Client(end) => end.numbers(),
            ToyTransport::Server(end) => end.numbers(),
        }
    }

    /// How many NEWKEYS were sent and taken.
    pub fn epochs(&self) -> (u32, u32)
        ensures sending { result.0 ≡ (machine_of self.now).kept.sending.epoch }
        ensures taking { result.1 ≡ (machine_of self.now).kept.taking.epoch }
    {
        match self {
            ToyTransport::Client(end) => end.epochs(),
            ToyTransport::Server(end) => end.epochs(),
        }
    }

    /// Whether KEXINIT was sent and NEWKEYS was not.
    pub fn blocked(&self) -> bool
        ensures { result ≡ (machine_of self.now).kept.blocked }
    {
        match self {
            ToyTransport::Client(end) => end.blocked(),
            ToyTransport::Server(end) => end.blocked(),
        }
    }

    /// Whether an exchange of keys is due.
    pub fn rekey_due(&self) -> bool
        ensures { result ≡ nat_le (machine_of self.now).kept.settings.epoch_limit (machine_of self.now).kept.sending.count }
    {
        match self {
            ToyTransport::Client(end) => end.rekey_due(),
            ToyTransport::Server(end) => end.rekey_due(),
        }
    }

    /// The session id.
    pub fn session_id(&self) -> Option<[u8; 32]>
        ensures { result ≡ (machine_of self.now).kept.session }
    {
        match self {
            ToyTransport::Client(end) => end.session_id().copied(),
            ToyTransport::Server(end) => end.session_id().copied(),
        }
    }

    /// Whether the end is over.
    pub fn is_dead(&self) -> bool
        ensures { result ≡ (machine_of self.now).kept.dead }
    {
        match self {
            ToyTransport::Client(end) => end.is_dead(),
            ToyTransport::Server(end) => end.is_dead(),
        }
    }
}

// The transport of a side with this config.
fn opened(
    alloc: Global,
    side: Side,
    config: Config<MacOnly>,
    out: &mut Vec<u8>,
    sent: &mut Vec<Vec<u8>>,
) -> Result<ToyTransport, AllocError>
    ensures opened { IfOk result (λ made. IsOpened mac_only (settings_of config) side (cookie_of side) (secret_of side) (machine_of made)
        (listed_outs out.old out.new sent.old sent.new)) }
    ensures padded { IfOk result (λ made. PadsTo mac_only gives_byte (sending_from_line (settings_of config) zeros out.old sent.old)
        (sending_in made out.new sent.new)) }
    ensures role { IfOk result (λ made. side_of made ≡ side) }
    ensures out { OnErr result (out.new.items ≡ out.old.items) }
    ensures kept { OnErr result (sent.new.items ≡ sent.old.items) }
{
    match side {
        Side::Client => {
            let (cookie, secret) = (CLIENT_COOKIE, CLIENT_SECRET);
            let end = ClientTransport::new(
                alloc,
                config,
                client_parts(),
                cookie,
                secret,
                out,
                sent,
            )?;
            Ok(ToyTransport::Client(end))
        }
        Side::Server => {
            let (cookie, secret) = (SERVER_COOKIE, SERVER_SECRET);
            let end = ServerTransport::new(
                alloc,
                config,
                server_parts(),
                cookie,
                secret,
                out,
                sent,
            )?;
            Ok(ToyTransport::Server(end))
        }
    }
}
