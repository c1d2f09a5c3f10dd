//! The bytes in both directions of one channel, within the windows of both ends (RFC 4254 section 5.2).

use divrelca::{Ask, AskOutcome, ChannelAsk, End, Fault, WINDOW, Window, asked, data_len};
use std::alloc::{AllocError, Global};

/// The bytes still to be sent on a channel, and the window that the peer was given.
#[derive(Drop)]
pub struct Flow {
    channel: u32,
    // The largest data of one packet that the peer takes.
    max_packet: u32,
    window: Window,
    waiting: Vec<u8>,
    // So many of these bytes are sent.
    sent: usize,
}

impl Flow {
    /// A channel on which nothing went yet.
    pub fn new(alloc: Global, channel: u32, max_packet: u32) -> Flow {
        Flow {
            channel,
            max_packet,
            window: Window::new(WINDOW),
            waiting: Vec::new(alloc),
            sent: 0,
        }
    }

    /// So many bytes came and are done with: the peer may send as many more.
    pub fn consume(&mut self, count: usize) {
        self.window.take(count);
        self.window.finish(count);
    }

    /// These bytes have to be sent.
    ///
    /// # Errors
    ///
    /// Only where memory is refused: nothing is added.
    pub fn add(&mut self, bytes: &[u8]) -> Result<(), AllocError> {
        if self.is_drained() {
            self.waiting.clear();
            self.sent = 0;
        }
        self.waiting.extend_from_slice(bytes)
    }

    // Tests whether all that was added is sent.
    fn is_drained(&self) -> bool {
        self.sent >= self.waiting.len()
    }

    /// Gives back the window, and sends what can be sent now. The rest waits for room in the peer's window, or for the end of an exchange
    /// of keys. Answers whether there is no rest.
    ///
    /// # Errors
    ///
    /// - `Memory`: memory was refused, and the end is over.
    /// - `Dead`: the end was over before.
    pub fn push<E: End>(&mut self, end: &mut E, out: &mut Vec<u8>) -> Result<bool, Fault> {
        self.give_back(end, out)?;
        for _ in 0..self.waiting.len() {
            if !self.send(end, out)? {
                break;
            }
        }
        Ok(self.is_drained())
    }

    // Gives back to the peer what is done with, once it is half of the window.
    fn give_back<E: End>(&mut self, end: &mut E, out: &mut Vec<u8>) -> Result<(), Fault> {
        let Some(bytes) = self.window.due() else {
            return Ok(());
        };
        let adjust = ChannelAsk::Adjust {
            channel: self.channel,
            bytes,
        };
        if asked(end, &Ask::Connection(adjust), out)? == AskOutcome::Done {
            self.window.give_back();
        }
        Ok(())
    }

    // Sends as much as one packet takes. `false` where nothing can be sent now.
    fn send<E: End>(&mut self, end: &mut E, out: &mut Vec<u8>) -> Result<bool, Fault> {
        let rest = self.waiting.as_slice().get(self.sent..).unwrap_or(&[]);
        let room = end.channels().room(self.channel).unwrap_or(0);
        let count = data_len(room, self.max_packet, rest.len());
        let body = rest.get(..count).unwrap_or(&[]);
        if body.is_empty() {
            return Ok(false);
        }
        let data = ChannelAsk::Data {
            channel: self.channel,
            kind: None,
            body,
        };
        if asked(end, &Ask::Connection(data), out)? != AskOutcome::Done {
            return Ok(false);
        }
        self.sent = self.sent.saturating_add(count);
        Ok(true)
    }
}
