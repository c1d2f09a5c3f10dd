//! The values that an end shows. No call needs memory.

ghost use Rattle.std.specs.Prelude.{◌≡◌, ◌≤◌, List, false, length, nat_le, true, ℕ};
ghost use Rattle.std.specs.Option.{option_copied};
ghost use Rattle.ssh_packet.specs.Directions.{next_number};
ghost use Rattle.ssh_transport_machine.specs.Peeking.{Peeks};
ghost use Rattle.ssh_transport_machine.specs.State.{last_number as number_before, line_taken};
ghost use Rattle.ssh_model.specs.Protocol.Bounds.{largest_packet};

use crate::machine::Machine;
use ssh_packet::{PacketReader, Sealing};

impl<S: Sealing> Machine<S> {
    /// The payload that was taken last.
    pub fn payload(&self) -> &[u8]
        ensures payload { result.now ≡ self.now.receiver.payload }
        ensures most { length self.now.receiver.payload ≤ largest_packet }
    {
        self.taking.payload()
    }

    /// Looks at the next packet and takes nothing: it answers whether these bytes, after those that are held, have that whole packet, and
    /// it opens. The other reader then shows its payload. An end that is over, or still reads lines, has no next packet.
    pub fn peek(&self, bytes: &[u8], other: &mut PacketReader) -> bool
        ensures opens { result ≡ true → Peeks S.crypto self.now bytes.now other.new.payload }
        ensures none { result ≡ false → (payload : List ℕ) → Peeks S.crypto self.now bytes.now payload → ⊥ }
    {
        if self.is_dead() {
            return false;
        }
        if !self.has_line() {
            return false;
        }
        self.taking.peek(bytes, other)
    }

    /// The text of the line before the version line that was taken last, without CR LF; empty once more bytes of a line were taken.
    pub fn other_line(&self) -> &[u8]
        ensures { result.now ≡ self.now.reading.text }
    {
        self.lines.other_line()
    }

    /// The version line of the peer without CR LF, at most 253 bytes, once it was taken.
    pub fn version_line(&self) -> Option<&[u8]>
        ensures { option_copied result ≡ line_taken self.now.kept.lines }
    {
        self.lines.version_line()
    }

    /// The same; empty before.
    pub fn line(&self) -> &[u8]
        ensures line { result.now ≡ self.now.kept.lines.line }
        ensures short { length self.now.kept.lines.line ≤ 253 }
    {
        match self.lines.version_line() {
            Some(line) => line,
            None => b"",
        }
    }

    /// Tests whether the version line of the peer was taken.
    pub fn has_line(&self) -> bool
        ensures { result ≡ self.now.kept.lines.found }
    {
        self.lines.version_line().is_some()
    }

    /// The sequence number of the packet that was taken last, if one was taken in this epoch.
    pub fn last_number(&self) -> u32
        ensures { result ≡ number_before self.now.kept.taking }
    {
        self.taking.last_number()
    }

    /// The sequence numbers of the next packets, to be sent and to be taken; 2^32 if an epoch has had all of them.
    pub fn numbers(&self) -> (u64, u64)
        ensures sending { result.0 ≡ next_number self.now.kept.sending }
        ensures taking { result.1 ≡ next_number self.now.kept.taking }
    {
        (self.sending.number(), self.taking.number())
    }

    /// How many NEWKEYS were sent and taken.
    pub fn epochs(&self) -> (u32, u32)
        ensures sending { result.0 ≡ self.now.kept.sending.epoch }
        ensures taking { result.1 ≡ self.now.kept.taking.epoch }
    {
        (self.sending.epoch(), self.taking.epoch())
    }

    /// Tests whether this end sent its KEXINIT, and not yet its NEWKEYS.
    pub fn is_blocked(&self) -> bool
        ensures { result ≡ self.now.kept.blocked }
    {
        self.blocked
    }

    /// Tests whether the service was asked for, which is once at most.
    pub fn is_requested(&self) -> bool
        ensures { result ≡ self.now.kept.requested }
    {
        self.requested
    }

    /// Tests whether so many packets were sent in this epoch that the next key exchange is due.
    pub fn is_rekey_due(&self) -> bool
        ensures { result ≡ nat_le self.now.kept.settings.epoch_limit self.now.kept.sending.count }
    {
        u64::from(self.config.epoch_limit()) <= self.sending.count()
    }

    /// The id of the session, once an exchange of keys was completed.
    pub fn session_id(&self) -> Option<&[u8; 32]>
        ensures { option_copied result ≡ self.now.kept.session }
    {
        self.session.as_ref()
    }

    /// Tests whether the user is authenticated.
    pub fn is_authenticated(&self) -> bool
        ensures { result ≡ self.now.kept.authenticated }
    {
        self.authenticated
    }
}
