ghost use Rattle.std.specs.Prelude.{◌≡◌, ◌<◌, ◌≤◌, ◌+◌, ◌-◌, ◌%◌, ◌++◌, ◌^◌, IfOk, IfSome, List, None, false, length, take, true, ℕ};
ghost use Rattle.ssh_model.specs.Protocol.Bounds.{largest_packet, most_exchanges, numbers_of_epoch};
ghost use Rattle.ssh_model.specs.Protocol.Wire.DataTypes.{AreBytes};
ghost use Rattle.ssh_model.specs.Laws.Units.{IsPartialPacket};
ghost use Rattle.ssh_packet.specs.Directions.{NextOpens, Receives, new_direction, new_receiver, newkeys, next_number, renewed};
ghost use Rattle.ssh_packet.specs.Directions.{sealed_direction};

use crate::packets::first_number;
use crate::{LENGTH_FIELD, PacketReader, PacketStep, Sealing};
use ssh_types::Refusal;
use ssh_types::bounds::NUMBERS_OF_EPOCH;
use std::alloc::{AllocError, Global};
use std::marker::Model;

/// The packets of the direction in which an end takes (RFC 4253 section 6). It keeps the bytes of the partial packet, the key
/// (`None` before the first NEWKEYS) and the next sequence number. It counts the packets under the key and the NEWKEYS that
/// were taken.
///
/// The number begins at zero and grows by one with each packet, modulo 2^32 (section 6.4). If key exchange is strict,
/// it is zero again after each NEWKEYS. An epoch has at most 2^32 packets.
pub struct PacketReceiver<S: Sealing> {
    reader: PacketReader,
    key: Option<S::Key>,
    number: u32,
    count: u64,
    epoch: u32,
    ended: Option<Refusal>,
}

impl<S: Sealing> Model for PacketReceiver<S> {
    ghost use Rattle.ssh_packet.specs.Directions.{Receiver, IsReceiver, direction_of, receiver_of};

    ghost Value = { Receiver S.Key };

    ghost view = { λ r. receiver_of (direction_of r.key r.number r.count r.epoch) r.reader r.ended };

    ghost invariant = { λ r. IsReceiver S.crypto (direction_of r.key r.number r.count r.epoch) r.reader r.ended };
}

impl<S: Sealing> Drop for PacketReceiver<S> {
    fn drop(self) {
        let PacketReceiver {
            reader: _,
            key: _,
            number: _,
            count: _,
            epoch: _,
            ended: _,
        } = self;
    }
}

impl<S: Sealing> PacketReceiver<S> {
    /// A direction before its first packet, in the clear. This reserves the 35,000 bytes that a packet may have, the only memory that it
    /// ever takes.
    ///
    /// # Errors
    ///
    /// Only if memory is refused.
    pub fn new(alloc: Global) -> Result<PacketReceiver<S>, AllocError>
        ensures { IfOk result (λ receiver. receiver ≡ new_receiver new_direction) }
    {
        PacketReceiver::begun_with(alloc, None)
    }

    /// A direction before its first packet, whose packets are opened under this key from the first one on. It is for an end that
    /// shares the keys of one epoch with its peer. It reserves the same memory.
    ///
    /// # Errors
    ///
    /// Only if memory is refused.
    pub fn with_key(alloc: Global, key: S::Key) -> Result<PacketReceiver<S>, AllocError>
        ensures { IfOk result (λ receiver. receiver ≡ new_receiver (sealed_direction key)) }
    {
        PacketReceiver::begun_with(alloc, Some(key))
    }

    // A direction in which nothing came, with or without a key.
    fn begun_with(alloc: Global, key: Option<S::Key>) -> Result<PacketReceiver<S>, AllocError>
        ensures { IfOk result (λ receiver. receiver ≡ new_receiver (record new_direction { key = key })) }
    {
        Ok(PacketReceiver {
            reader: PacketReader::new(alloc)?,
            key,
            number: 0,
            count: 0,
            epoch: 0,
            ended: None,
        })
    }

    /// The payload that the last `take` found, at most 35,000 bytes. It has no bytes if `take` found none, and before the first call.
    pub fn payload(&self) -> &[u8]
        ensures payload { result.now ≡ self.now.payload }
        ensures most { length self.now.payload ≤ largest_packet }
    {
        self.reader.payload()
    }

    /// How many bytes of a partial packet are held; 0 after each payload, when the next epoch may begin, and after a refusal.
    /// They are the first bytes of a packet, and at most three if all numbers of the epoch are taken.
    pub fn held(&self) -> usize
        ensures held { result ≡ length self.now.buffered }
        ensures buffered { self.now.ended ≡ None →
            IsPartialPacket S.crypto self.now.direction.key self.now.direction.count self.now.buffered }
        ensures bytes { AreBytes self.now.buffered }
    {
        if self.ended.is_some() {
            return 0;
        }
        self.reader.held()
    }

    /// The sequence number of the next packet; 2^32 if none may be taken any more in this epoch.
    pub fn number(&self) -> u64
        ensures { result ≡ next_number self.now.direction }
    {
        if self.count == NUMBERS_OF_EPOCH {
            NUMBERS_OF_EPOCH
        } else {
            u64::from(self.number)
        }
    }

    /// The sequence number of the packet that was taken last, if one was taken in this epoch.
    pub fn last_number(&self) -> u32
        ensures { result ≡ (self.now.direction.number + (2 ^ 32 - 1)) % 2 ^ 32 }
    {
        self.number.wrapping_sub(1)
    }

    /// How many packets were taken in this epoch, at most 2^32.
    pub fn count(&self) -> u64
        ensures count { result ≡ self.now.direction.count }
        ensures most { result ≤ numbers_of_epoch }
    {
        self.count
    }

    /// How many NEWKEYS were taken.
    pub fn epoch(&self) -> u32
        ensures { result ≡ self.now.direction.epoch }
    {
        self.epoch
    }

    /// Takes bytes to the end of one packet and no further. It answers how many bytes it used, and what they were. A payload is shown
    /// until the next call.
    ///
    /// The length field is judged as soon as its four bytes are there: `BadLength`. If it is good and all 2^32 numbers of the
    /// epoch are taken, the answer is `NumberSpent`. The tag and then the padding are judged once the whole packet is there:
    /// `BadTag` and `BadPadding`. After `Refused` the answer always stays the same, and nothing is used. No call needs memory.
    pub fn take(&mut self, bytes: &[u8]) -> (usize, PacketStep<Refusal>)
        ensures used { result.0 ≤ length bytes.now }
        ensures progress { self.old.ended ≡ None → 0 < length bytes.now → 0 < result.0 }
        ensures more { result.1 ≡ PacketStep.More → result.0 ≡ length bytes.now }
        ensures received { self.old.ended ≡ None → Receives S.crypto (self.old.buffered ++ take result.0 bytes.now) self.old result.1
            self.new }
        ensures ended { IfSome self.old.ended (λ refusal. (result ≡ (0, PacketStep.Refused refusal)) × (self.new ≡ self.old)) }
    {
        if let Some(refusal) = self.ended {
            return (0, PacketStep::Refused(refusal));
        }
        if self.count == NUMBERS_OF_EPOCH {
            return self.take_field(bytes);
        }
        ssh_types::laws::are_bytes(bytes);
        let (used, step) = self.reader.take::<S>(self.key.as_ref(), self.number, bytes);
        match step {
            PacketStep::Payload => {
                self.number = self.number.wrapping_add(1);
                self.count += 1;
                (used, PacketStep::Payload)
            }
            PacketStep::More => (used, PacketStep::More),
            PacketStep::Refused(refusal) => {
                let refusal = Refusal::from(refusal);
                self.ended = Some(refusal);
                (used, PacketStep::Refused(refusal))
            }
        }
    }

    /// Looks at the next packet and takes nothing: it answers whether these bytes, after those that are held, have that whole packet, and
    /// it opens. The other reader then shows its payload. `take` of these bytes would show the same: `packets::peeked_is_taken`.
    ///
    /// The packet is opened in the other reader, which becomes a copy of this one first. No call needs memory.
    pub fn peek(&self, bytes: &[u8], other: &mut PacketReader) -> bool
        ensures opens { result ≡ true → NextOpens S.crypto self.now bytes.now other.new.payload }
        ensures none { result ≡ false → (payload : List ℕ) → NextOpens S.crypto self.now bytes.now payload → ⊥ }
    {
        ssh_model::laws::packet_units::<S::Key>();
        if let Some(_) = self.ended {
            return false;
        }
        if self.count == NUMBERS_OF_EPOCH {
            return false;
        }
        ssh_types::laws::are_bytes(bytes);
        other.copy_from(&self.reader);
        let (_, step) = other.take::<S>(self.key.as_ref(), self.number, bytes);
        match step {
            PacketStep::Payload => true,
            PacketStep::More => false,
            PacketStep::Refused(_) => false,
        }
    }

    // Takes at most a length field, when all numbers are taken. It is judged under any number.
    fn take_field(&mut self, bytes: &[u8]) -> (usize, PacketStep<Refusal>)
        // What the caller must ensure.
        requires live { self.old.ended ≡ None }
        requires spent { self.old.direction.count ≡ numbers_of_epoch }
        // What it does.
        ensures used { result.0 ≤ length bytes.now }
        ensures progress { 0 < length bytes.now → 0 < result.0 }
        ensures more { result.1 ≡ PacketStep.More → result.0 ≡ length bytes.now }
        ensures received { Receives S.crypto (self.old.buffered ++ take result.0 bytes.now) self.old result.1 self.new }
    {
        ssh_types::laws::are_bytes(bytes);
        let field = length_field(self.reader.held(), bytes);
        let (used, step) = self.reader.take::<S>(self.key.as_ref(), 0, field);
        match step {
            PacketStep::Payload => unreachable!(),
            PacketStep::More => {
                if self.reader.held() < LENGTH_FIELD {
                    return (used, PacketStep::More);
                }
                self.ended = Some(Refusal::NumberSpent);
                (used, PacketStep::Refused(Refusal::NumberSpent))
            }
            PacketStep::Refused(refusal) => {
                let refusal = Refusal::from(refusal);
                self.ended = Some(refusal);
                (used, PacketStep::Refused(refusal))
            }
        }
    }

    /// Begins the next epoch, if the last `take` found NEWKEYS. From now on packets are opened under this key (RFC 4253
    /// section 7.3), from number zero if key exchange is strict.
    #[tactic(auto, using(crate::proofs::DirectionUnits::epoch_begun))]
    pub fn start_epoch(&mut self, key: S::Key, strict: bool)
        requires newkeys { self.old.payload ≡ newkeys }
        requires taken { 0 < self.old.direction.count }
        requires epoch { self.old.direction.epoch < most_exchanges }
        ensures { self.new ≡ record self.old { direction = renewed strict key self.old.direction } }
    {
        self.key = Some(key);
        self.number = first_number(strict, self.number);
        self.count = 0;
        self.epoch += 1;
    }
}

// The bytes up to the end of the length field, if this many of its packet are there.
fn length_field(held: usize, bytes: &[u8]) -> &[u8]
    ensures { result.now ≡ take (4 - held) bytes.now }
{
    let room = LENGTH_FIELD.saturating_sub(held);
    bytes.split_at(room.min(bytes.len())).0
}
