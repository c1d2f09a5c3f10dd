//! The judgement of an end on a packet that it takes, before it acts.

ghost use Rattle.std.specs.Prelude.{◌≡◌, ◌<◌, ◌≤◌, ◌++◌, None, true, false, codes, length, take};
ghost use Rattle.ssh_model.specs.Protocol.Wire.Message.{KexInit, message_number};
ghost use Rattle.ssh_model.specs.Protocol.Wire.DataTypes.{is_text};
ghost use Rattle.ssh_message.specs.Meaning.{meaning, proposal_meaning};
ghost use Rattle.ssh_model.specs.Protocol.Sessions.Phases as model;
ghost use Rattle.ssh_model.specs.Protocol.Sessions.Turns.{number_of};
ghost use Rattle.ssh_model.specs.State.TransportLayer.Kept as kept;
ghost use Rattle.ssh_transport_machine.specs.Classifying.{AcceptIs, RequestIs, is_roles};
ghost use Rattle.ssh_transport_machine.specs.Classifying.{MessageIs, PacketIs, PayloadIs};
ghost use Rattle.ssh_transport_machine.specs.State.{before_taken};

use crate::machine::kexinit::KexinitFacts;
use crate::machine::numbers::number_in;
use crate::machine::{Machine, Phase};
use ssh_message::{Message, Proposal, decode};
use ssh_packet::{PacketStep, Sealing};
use ssh_types::Refusal;

/// The judgement of an end on the bytes of a packet.
#[derive(Clone, Copy)]
pub enum Classified {
    /// No whole packet yet.
    More,
    /// A packet or a payload that may not come.
    Refused(Refusal),
    /// The packet after a wrong guess, which is not read.
    Skipped,
    /// DISCONNECT.
    Disconnected,
    /// IGNORE, UNIMPLEMENTED, DEBUG or EXT_INFO, which are told and not answered.
    Told,
    /// A message of a number that isn't known.
    Unknown,
    /// SERVICE_REQUEST for authentication.
    ServiceRequested,
    /// SERVICE_ACCEPT for it.
    ServiceAccepted,
    /// A KEXINIT that nothing refuses.
    Kexinit(KexinitFacts),
    /// NEWKEYS.
    NewKeys,
    /// A payload of the number of a client's point, which is not read.
    EcdhInit,
    /// A payload of the number of a server's reply, which is not read.
    Reply,
    /// A payload for the layers above.
    Above,
}

impl<S: Sealing> Machine<S> {
    /// Takes bytes to the end of one packet, and tells what the packet and its payload are. It needs no memory.
    pub fn take_packet(&mut self, bytes: &[u8]) -> (usize, Classified)
        // What the caller must ensure.
        requires { self.old.receiver.ended ≡ None }
        // What it does.
        ensures used { result.0 ≤ length bytes.now }
        ensures progress { 0 < length bytes.now → 0 < result.0 }
        ensures more { result.1 ≡ Classified.More → result.0 ≡ length bytes.now }
        ensures classified { PacketIs S.crypto (self.old.receiver.buffered ++ take result.0 bytes.now) self.old self.new result.1 }
        ensures rest { self.new ≡ record self.old {
          receiver = self.new.receiver;
          kept = record self.old.kept { taking = self.new.receiver.direction };
        } }
    {
        let (used, step) = self.taking.take(bytes);
        match step {
            PacketStep::More => (used, Classified::More),
            PacketStep::Refused(why) => (used, Classified::Refused(why)),
            PacketStep::Payload => (used, self.classify()),
        }
    }

    // Tests the payload that is shown: by its number, then whether it is a message, and then what is checked of its message. The
    // point of a client and the reply of a server are told by their numbers: who has the parts for them reads them. A number from 50 on
    // comes in no exchange.
    fn classify(&self) -> Classified
        requires { 1 ≤ self.now.kept.taking.count }
        ensures { PayloadIs (before_taken self.now.kept) self.now.receiver.payload result }
    {
        let number = number_in(self.taking.payload());
        if number >= 50 {
            if self.is_normal() {
                return Classified::Above;
            }
            return Classified::Refused(Refusal::Unexpected);
        }
        if !self.takes(number) {
            return Classified::Refused(Refusal::Unexpected);
        }
        if self.is_guessed() {
            return Classified::Skipped;
        }
        match number {
            30 => Classified::EcdhInit,
            31 => Classified::Reply,
            _ => self.classify_read(),
        }
    }

    // Of a number that may be taken, and is read here.
    fn classify_read(&self) -> Classified
        // What the caller must ensure.
        requires count { 1 ≤ self.now.kept.taking.count }
        requires below { number_of self.now.receiver.payload < 50 }
        requires taken { kept.takes (before_taken self.now.kept) (number_of self.now.receiver.payload) ≡ true }
        requires read { self.now.kept.phase ≡ model.Guessed → ⊥ }
        requires other { is_roles (number_of self.now.receiver.payload) ≡ false }
        // What it returns.
        ensures { PayloadIs (before_taken self.now.kept) self.now.receiver.payload result }
    {
        match decode(false, self.taking.payload()) {
            Ok(message) => self.classify_message(message),
            Err(_) => Classified::Refused(Refusal::BadMessage),
        }
    }

    // What is checked of a message below 50.
    fn classify_message(&self, message: Message<'_>) -> Classified
        requires count { 1 ≤ self.now.kept.taking.count }
        requires below { message_number (meaning message) < 50 }
        requires other { is_roles (message_number (meaning message)) ≡ false }
        ensures { MessageIs (before_taken self.now.kept) (meaning message.entry) result }
    {
        match message {
            Message::Disconnect { .. } => Classified::Disconnected,
            Message::Ignore { .. } => Classified::Told,
            Message::Unimplemented { .. } => Classified::Told,
            Message::Debug { .. } => Classified::Told,
            Message::ServiceRequest { service } => classify_request(service),
            Message::ServiceAccept { service } => classify_accept(service),
            Message::ExtInfo { .. } => Classified::Told,
            Message::KexInit(theirs) => self.classify_offer(theirs),
            Message::NewKeys => Classified::NewKeys,
            Message::Unknown(_) => Classified::Unknown,
            _ => unreachable!(),
        }
    }

    // A proposal, as a message.
    fn classify_offer(&self, theirs: Proposal<'_>) -> Classified
        requires { 1 ≤ self.now.kept.taking.count }
        ensures { MessageIs (before_taken self.now.kept) (KexInit (proposal_meaning theirs.entry)) result }
    {
        match self.judge_kexinit(theirs) {
            Ok(facts) => Classified::Kexinit(facts),
            Err(why) => Classified::Refused(why),
        }
    }

    // The packet after a wrong guess is awaited.
    fn is_guessed(&self) -> bool
        ensures guessed { result ≡ true → self.now.kept.phase ≡ model.Guessed }
        ensures other { result ≡ false → self.now.kept.phase ≡ model.Guessed → ⊥ }
    {
        match self.phase {
            Phase::Guessed => true,
            _ => false,
        }
    }

    /// Nothing of an exchange is awaited.
    pub fn is_normal(&self) -> bool
        ensures { result ≡ model.is_normal self.now.kept.phase }
    {
        match self.phase {
            Phase::Normal => true,
            _ => false,
        }
    }

    /// The peer's KEXINIT was taken, and its next message of the exchange is awaited, which is read.
    pub fn is_exchanging(&self) -> bool
        ensures exchanging { result ≡ true → self.now.kept.phase ≡ model.Exchanging }
        ensures other { result ≡ false → self.now.kept.phase ≡ model.Exchanging → ⊥ }
    {
        match self.phase {
            Phase::Exchanging => true,
            _ => false,
        }
    }
}

// A request for a service.
fn classify_request(service: &[u8]) -> Classified
    ensures { RequestIs service.now result }
{
    if is_userauth(service) {
        Classified::ServiceRequested
    } else {
        Classified::Refused(Refusal::NoService)
    }
}

// A service that is granted.
fn classify_accept(service: &[u8]) -> Classified
    ensures { AcceptIs service.now result }
{
    if is_userauth(service) {
        Classified::ServiceAccepted
    } else {
        Classified::Refused(Refusal::Unexpected)
    }
}

// The service is that of authentication.
fn is_userauth(service: &[u8]) -> bool
    ensures { result ≡ is_text service.now (codes "ssh-userauth") }
{
    service == b"ssh-userauth".as_slice()
}
