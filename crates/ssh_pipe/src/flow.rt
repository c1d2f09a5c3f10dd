//! The bytes that go out on one channel, within the window of the peer (RFC 4254 section 5.2).

use divrelca::{AskOutcome, End, Window, asked, data_len};
use ssh_channels::Ask as ChannelAsk;
use ssh_end::{Ask, Fault};
use std::alloc::{AllocError, Global};

/// One channel: the bytes still to be sent on it, and the window that the peer was given.
#[derive(Drop)]
pub struct Flow {
    channel: u32,
    // The largest data of one packet that the peer takes.
    max_packet: u32,
    window: Window,
    waiting: Vec<u8>,
    // So many of these bytes are sent.
    sent: usize,
    // The type of extended data that they are, if they are.
    kind: Option<u32>,
}

impl Flow {
    /// A channel on which nothing went yet, whose peer takes at most `max_packet` bytes at once and was given a window of this size.
    pub fn new(alloc: Global, channel: u32, max_packet: u32, window: u32) -> Flow {
        Flow {
            channel,
            max_packet,
            window: Window::new(window),
            waiting: Vec::new(alloc),
            sent: 0,
            kind: None,
        }
    }

    /// The end's own number of the channel.
    pub fn channel(&self) -> u32 {
        self.channel
    }

    /// So many bytes came from the peer.
    pub fn take(&mut self, bytes: usize) {
        self.window.take(bytes);
    }

    /// So many of the bytes that came are done with.
    pub fn finish(&mut self, bytes: usize) {
        self.window.finish(bytes);
    }

    /// These bytes have to be sent as data.
    ///
    /// # Errors
    ///
    /// Only if memory is refused: nothing is added.
    pub fn add(&mut self, bytes: &[u8]) -> Result<(), AllocError> {
        if self.is_drained() {
            self.waiting.clear();
            self.sent = 0;
        }
        self.waiting.extend_from_slice(bytes)
    }

    /// These bytes have to be sent as extended data of this type, as all that is added after them.
    ///
    /// # Errors
    ///
    /// Only if memory is refused: no byte is added.
    pub fn add_extended(&mut self, kind: u32, bytes: &[u8]) -> Result<(), AllocError> {
        self.kind = Some(kind);
        self.add(bytes)
    }

    /// Tests whether all that was added is sent.
    pub fn is_drained(&self) -> bool {
        self.sent >= self.waiting.len()
    }

    /// Sends as much as one packet takes, and answers how many bytes that was: none where nothing can be sent now, for want of room in the
    /// peer's window or while keys are exchanged.
    ///
    /// # Errors
    ///
    /// - `Memory`: memory was refused, and the end is over.
    /// - `Dead`: the end was over before.
    pub fn send<E: End>(&mut self, end: &mut E, out: &mut Vec<u8>) -> Result<usize, Fault> {
        let rest = self.waiting.as_slice().get(self.sent..).unwrap_or(&[]);
        let room = end.channels().room(self.channel).unwrap_or(0);
        let body = match rest.get(..data_len(room, self.max_packet, rest.len())) {
            Some(body) if !body.is_empty() => body,
            _ => return Ok(0),
        };
        let data = ChannelAsk::Data {
            channel: self.channel,
            kind: self.kind,
            body,
        };
        match asked(end, &Ask::Connection(data), out)? {
            AskOutcome::Done => {
                let size = body.len();
                self.sent = self.sent.saturating_add(size);
                Ok(size)
            }
            AskOutcome::Later | AskOutcome::Gone => Ok(0),
        }
    }

    /// Gives the bytes that are done with back to the peer's window, if that is due.
    ///
    /// # Errors
    ///
    /// - `Memory`: memory was refused, and the end is over.
    /// - `Dead`: the end was over before.
    pub fn give_back<E: End>(&mut self, end: &mut E, out: &mut Vec<u8>) -> Result<(), Fault> {
        let Some(bytes) = self.window.due() else {
            return Ok(());
        };
        let adjust = ChannelAsk::Adjust {
            channel: self.channel,
            bytes,
        };
        if asked(end, &Ask::Connection(adjust), out)? == AskOutcome::Done {
            self.window.give_back();
        }
        Ok(())
    }
}
