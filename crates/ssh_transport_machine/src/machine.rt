//! The common part of the two ends of a connection: their lines, the packets of both directions, the key exchanges, and
//! their refusals. A side says which end it is.

ghost use Rattle.std.specs.Prelude.{◌≡◌, ◌<◌, ◌≤◌, ◌++◌, None, length, take};
ghost use Rattle.ssh_transport_machine.specs.LineTurns.{LineTaken};
ghost use Rattle.ssh_transport_machine.specs.State.{dead_state};

mod announcing;
mod choosing;
mod classifying;
mod exchange_end;
mod hashing;
mod kexinit;
mod kexinit_payload;
mod kexinit_reply;
mod kexinit_send;
pub mod laws;
mod material;
mod new;
mod newkeys;
mod numbers;
mod queries;
mod refusing;
mod replies;
mod sending;
mod service;
mod sharing;
pub(crate) mod sides;

pub use classifying::Classified;
pub use exchange_end::{ExchangeEnd, ExchangeKeys};
pub use hashing::ExchangeValues;
pub use kexinit::KexinitFacts;
use kexinit_payload::KexinitPayload;
pub use material::Material;
pub use sending::SendOutcome;
pub use service::USERAUTH;
use ssh_config::Config;
use ssh_packet::{LineReader, LineRefusal, LineStep, PacketReceiver, PacketSender, Sealing};
use ssh_types::Side;
use std::alloc::Global;
use std::marker::Model;

/// The phase of an end in its exchanges, by the messages that it took.
#[derive(Clone, Copy)]
pub enum Phase {
    /// Before the first KEXINIT of the peer.
    Start,
    /// Right after a KEXINIT with a wrong guess: the next packet is not read (RFC 4253 section 7).
    Guessed,
    /// After a KEXINIT: the client's point or the server's reply is awaited.
    Exchanging,
    /// After that: NEWKEYS is awaited.
    Keying,
    /// After NEWKEYS.
    Normal,
}

/// The result of one call while lines are read.
#[derive(Clone, Copy)]
pub enum LineTurn {
    /// No whole line yet.
    More,
    /// A line that is no version line.
    Other,
    /// The version line.
    Version,
    /// No line that may come; the end is over.
    Refused(LineRefusal),
}

/// One end, without the parts that only one side has.
pub struct Machine<S: Sealing> {
    alloc: Global,
    side: Side,
    config: Config<S>,
    lines: LineReader,
    sending: PacketSender<S>,
    taking: PacketReceiver<S>,
    // The key under which packets are taken after the NEWKEYS that is awaited.
    pending: Option<S::Key>,
    phase: Phase,
    // From this end's KEXINIT until its NEWKEYS (RFC 4253 section 7.1).
    blocked: bool,
    // The payloads of both KEXINITs of the exchange under way, and the secret of this end's point.
    own: KexinitPayload,
    theirs: KexinitPayload,
    secret: [u8; 32],
    // The pair for the next KEXINIT, and how many pairs there were.
    material: Option<Material>,
    fed: u32,
    session: Option<[u8; 32]>,
    strict: bool,
    peer_takes_extensions: bool,
    requested: bool,
    accepted: bool,
    authenticated: bool,
    dead: bool,
}

impl<S: Sealing> Model for Machine<S> {
    ghost use Rattle.ssh_config.specs.Meaning.{settings_of};
    ghost use Rattle.ssh_transport_machine.specs.State.{State, lines_of, material_of, phase_of};

    ghost Value = { State S.Key };

    ghost view = { λ s. record {
      reading = s.lines;
      receiver = s.taking;
      kept = record {
        side = s.side;
        settings = settings_of s.config;
        lines = lines_of s.lines;
        sending = s.sending;
        taking = s.taking.direction;
        pending = s.pending;
        phase = phase_of s.phase;
        blocked = s.blocked;
        underway = record { own = s.own; theirs = s.theirs; secret = s.secret };
        material = material_of s.material;
        fed = s.fed;
        session = s.session;
        strict = s.strict;
        peer_takes_extensions = s.peer_takes_extensions;
        requested = s.requested;
        accepted = s.accepted;
        authenticated = s.authenticated;
        dead = s.dead;
      };
    } };
}

impl<S: Sealing> Drop for Machine<S> {
    fn drop(self) {
        let Machine {
            alloc: _,
            side: _,
            config: _,
            lines: _,
            sending: _,
            taking: _,
            pending: _,
            phase: _,
            blocked: _,
            own: _,
            theirs: _,
            secret: _,
            material: _,
            fed: _,
            session: _,
            strict: _,
            peer_takes_extensions: _,
            requested: _,
            accepted: _,
            authenticated: _,
            dead: _,
        } = self;
    }
}

impl<S: Sealing> Machine<S> {
    /// Takes bytes to the end of one line. It needs no memory.
    pub fn take_line(&mut self, bytes: &[u8]) -> (usize, LineTurn)
        // What the caller must ensure.
        requires { self.old.reading.ended ≡ None }
        // What it does.
        ensures used { result.0 ≤ length bytes.now }
        ensures progress { 0 < length bytes.now → 0 < result.0 }
        ensures more { result.1 ≡ LineTurn.More → result.0 ≡ length bytes.now }
        ensures taken { LineTaken self.old (self.old.reading.buffered ++ take result.0 bytes.now) result.1 self.new }
        ensures sending { self.new.kept.sending ≡ self.old.kept.sending }
    {
        let (used, step) = self.lines.take(bytes);
        match step {
            LineStep::More => (used, LineTurn::More),
            LineStep::Other => (used, LineTurn::Other),
            LineStep::Version { .. } => (used, LineTurn::Version),
            LineStep::Refused(refusal) => {
                self.dead = true;
                (used, LineTurn::Refused(refusal))
            }
        }
    }

    /// Tests whether the end is over.
    pub fn is_dead(&self) -> bool
        ensures { result ≡ self.now.kept.dead }
    {
        self.dead
    }

    /// The end is over.
    pub fn die(&mut self)
        ensures { self.new ≡ dead_state self.old }
    {
        self.dead = true;
    }
}
