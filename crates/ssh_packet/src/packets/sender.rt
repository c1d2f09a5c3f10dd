ghost use Rattle.std.specs.Prelude.{◌≡◌, ◌<◌, ◌≤◌, ◌+◌, ◌-◌, IsTrue, false, OnErr, OnOk, length, vec_capacity};
ghost use Rattle.ssh_model.specs.Protocol.Bounds.{longest_payload, most_exchanges, numbers_of_epoch};
ghost use Rattle.ssh_model.specs.Laws.Reading.{Writes};
ghost use Rattle.ssh_model.specs.Protocol.Wire.Sealing.{IsSealed, blocks_under, tag_under};
ghost use Rattle.ssh_packet.specs.Writing.{Pads, packet_size};
ghost use Rattle.ssh_packet.specs.Directions.{counted, new_direction, newkeys, next_number, renewed, sealed_direction};

use crate::packets::first_number;
use crate::{Filler, Sealing, write_packet};
use ssh_types::bounds::NUMBERS_OF_EPOCH;
use std::alloc::AllocError;
use std::marker::Model;

// The payload of NEWKEYS (RFC 4253 section 7.3).
const NEWKEYS: &[u8] = &[21];

/// The packets of the direction in which an end sends (RFC 4253 section 6). It keeps the key (`None` before the first
/// NEWKEYS) and the next sequence number. It counts the packets under the key and the NEWKEYS that were sent.
///
/// The number begins at zero and grows by one with each packet, modulo 2^32 (section 6.4). If key exchange is strict,
/// it is zero again after each NEWKEYS. An epoch has at most 2^32 packets, and so no two packets with one number.
pub struct PacketSender<S: Sealing> {
    key: Option<S::Key>,
    number: u32,
    count: u64,
    epoch: u32,
}

impl<S: Sealing> Model for PacketSender<S> {
    ghost use Rattle.std.specs.Prelude.{◌≤◌};
    ghost use Rattle.ssh_model.specs.Protocol.Bounds.{numbers_of_epoch};
    ghost use Rattle.ssh_packet.specs.Directions.{Direction, direction_of};

    ghost Value = { Direction S.Key };

    ghost view = { λ s. direction_of s.key s.number s.count s.epoch };

    ghost invariant = { λ s. s.count ≤ numbers_of_epoch };
}

impl<S: Sealing> Drop for PacketSender<S> {
    fn drop(self) {
        let PacketSender {
            key: _,
            number: _,
            count: _,
            epoch: _,
        } = self;
    }
}

impl<S: Sealing> PacketSender<S> {
    /// A direction before its first packet, in the clear.
    pub fn new() -> PacketSender<S>
        ensures { result ≡ new_direction }
    {
        PacketSender {
            key: None,
            number: 0,
            count: 0,
            epoch: 0,
        }
    }

    /// A direction before its first packet, whose packets are sealed under this key from the first one on. It is for
    /// an end that shares the keys of one epoch with its peer.
    pub fn with_key(key: S::Key) -> PacketSender<S>
        ensures { result ≡ sealed_direction key }
    {
        PacketSender {
            key: Some(key),
            number: 0,
            count: 0,
            epoch: 0,
        }
    }

    /// The sequence number of the next packet (RFC 4253 section 6.4). It is 2^32 if none may be
    /// sent any more in this epoch.
    pub fn number(&self) -> u64
        ensures { result ≡ next_number self.now }
    {
        if self.is_spent() {
            NUMBERS_OF_EPOCH
        } else {
            u64::from(self.number)
        }
    }

    /// How many packets were sent in this epoch, at most 2^32.
    pub fn count(&self) -> u64
        ensures count { result ≡ self.now.count }
        ensures most { result ≤ numbers_of_epoch }
    {
        self.count
    }

    /// How many NEWKEYS were sent.
    pub fn epoch(&self) -> u32
        ensures { result ≡ self.now.epoch }
    {
        self.epoch
    }

    /// How many packets may still be sent in this epoch, of 2^32.
    pub fn numbers_left(&self) -> u64
        ensures left { result ≡ numbers_of_epoch - self.now.count }
        ensures most { self.now.count ≤ numbers_of_epoch }
    {
        NUMBERS_OF_EPOCH - self.count
    }

    /// Tests whether no packet may be sent any more in this epoch.
    pub fn is_spent(&self) -> bool
        ensures spent { IsTrue result → self.now.count ≡ numbers_of_epoch }
        ensures left { result ≡ false → self.now.count < numbers_of_epoch }
    {
        self.count == NUMBERS_OF_EPOCH
    }

    /// Puts the packet of a payload of 1 to 34,000 bytes at the end of `out`, sealed as the next one of the direction (RFC
    /// 4253 section 6), and counts it. The packet has the least padding, whose bytes the filler gives. A number has to be
    /// left. NEWKEYS is sent by `send_newkeys`.
    ///
    /// # Errors
    ///
    /// Only if the packet doesn't fit the capacity of `out` and memory is refused: then `out` has its old bytes, and no
    /// packet is counted.
    pub fn send<F: Filler>(
        &mut self,
        payload: &[u8],
        filler: &mut F,
        out: &mut Vec<u8>,
    ) -> Result<(), AllocError>
        requires left { self.old.count < numbers_of_epoch }
        requires some { 1 ≤ length payload.now }
        requires most { length payload.now ≤ longest_payload }
        // What is put out and with which padding, and the next number.
        ensures written { OnOk result (Writes (IsSealed S.crypto self.old.key self.old.number payload.now) out.old.items out.new.items) }
        ensures padded { OnOk result (Pads S.crypto self.old.key self.old.number payload.now
            (λ padding. F.gives filler.old padding filler.new) out.old.items out.new.items) }
        ensures counted { OnOk result (self.new ≡ counted self.old) }
        // If it fails.
        ensures kept { OnErr result (self.new ≡ self.old) }
        ensures out { OnErr result (out.new.items ≡ out.old.items) }
        ensures full { OnErr result (vec_capacity out.old < length out.old.items + packet_size (blocks_under S.crypto self.old.key)
            (tag_under S.crypto self.old.key) (length payload.now)) }
    {
        write_packet::<S, F>(payload, self.key.as_ref(), self.number, filler, out)?;
        self.number = self.number.wrapping_add(1);
        self.count += 1;
        Ok(())
    }

    /// Puts the packet of NEWKEYS at the end of `out`, the last one under the old key, and begins the next epoch. From then on
    /// packets are sealed under this key (RFC 4253 section 7.3), from number zero if key exchange is strict. A number
    /// has to be left.
    ///
    /// # Errors
    ///
    /// The same as for `send`. The epoch is then the old one, and the key is dropped.
    pub fn send_newkeys<F: Filler>(
        &mut self,
        key: S::Key,
        strict: bool,
        filler: &mut F,
        out: &mut Vec<u8>,
    ) -> Result<(), AllocError>
        requires left { self.old.count < numbers_of_epoch }
        requires epoch { self.old.epoch < most_exchanges }
        // What is put out and with which padding, and the next epoch.
        ensures written { OnOk result (Writes (IsSealed S.crypto self.old.key self.old.number newkeys) out.old.items out.new.items) }
        ensures padded { OnOk result (Pads S.crypto self.old.key self.old.number newkeys
            (λ padding. F.gives filler.old padding filler.new) out.old.items out.new.items) }
        ensures renewed { OnOk result (self.new ≡ renewed strict key (counted self.old)) }
        // If it fails.
        ensures kept { OnErr result (self.new ≡ self.old) }
        ensures out { OnErr result (out.new.items ≡ out.old.items) }
        ensures full { OnErr result (vec_capacity out.old < length out.old.items + packet_size (blocks_under S.crypto self.old.key)
            (tag_under S.crypto self.old.key) 1) }
    {
        self.send(NEWKEYS, filler, out)?;
        self.key = Some(key);
        self.number = first_number(strict, self.number);
        self.count = 0;
        self.epoch += 1;
        Ok(())
    }
}
