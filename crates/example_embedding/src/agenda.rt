//! The asks that an end is still to be given, and the bytes still to be sent on its one channel: the same at a server and at a client.

use crate::flow::Flow;
use divrelca::{Ask, AskOutcome, ChannelAsk, End, Fault, Told, asked, default_answer};
use std::alloc::{AllocError, Global};
use std::collections::VecDeque;

/// Asks in the order in which they came up, each of which waits until the end can do it, the channel while it is open, and the asks for
/// which it is time once all is sent on it.
#[derive(Drop)]
pub struct Agenda<'a> {
    alloc: Global,
    waiting: VecDeque<Ask<'a>>,
    flow: Option<Flow>,
    last: VecDeque<Ask<'a>>,
}

impl<'a> Agenda<'a> {
    /// No asks, and no channel.
    pub fn new(alloc: Global) -> Agenda<'a> {
        Agenda {
            alloc,
            waiting: VecDeque::new(alloc),
            flow: None,
            last: VecDeque::new(alloc),
        }
    }

    /// One ask more.
    ///
    /// # Errors
    ///
    /// Only where memory is refused: the ask is dropped.
    pub fn add(&mut self, ask: Ask<'a>) -> Result<(), AllocError> {
        self.waiting.push_back(ask).map_err(|_| AllocError)
    }

    /// One ask more, for which it is time once all is sent on the channel.
    ///
    /// # Errors
    ///
    /// Only where memory is refused: the ask is dropped.
    pub fn add_last(&mut self, ask: ChannelAsk<'a>) -> Result<(), AllocError> {
        self.last
            .push_back(Ask::Connection(ask))
            .map_err(|_| AllocError)
    }

    /// The answer that the peer is owed for a request that this program does not know, such as OpenSSH's keepalives, if it is owed one.
    ///
    /// # Errors
    ///
    /// Only where memory is refused: the answer is dropped.
    pub fn answer(&mut self, told: &Told<'_>) -> Result<(), AllocError> {
        match default_answer(told) {
            Some(answer) => self.add(answer),
            None => Ok(()),
        }
    }

    /// The channel is open under this number. The peer takes at most `max_packet` bytes of data at once.
    pub fn open(&mut self, channel: u32, max_packet: u32) {
        self.flow = Some(Flow::new(self.alloc, channel, max_packet));
    }

    /// Tests whether the channel is open.
    pub fn is_open(&self) -> bool {
        self.flow.is_some()
    }

    /// Nothing more goes over the channel.
    pub fn close(&mut self) {
        self.flow = None;
    }

    /// So many bytes came over the channel and are done with: the peer may send as many more.
    pub fn consume(&mut self, count: usize) {
        if let Some(flow) = &mut self.flow {
            flow.consume(count);
        }
    }

    /// These bytes have to be sent. Without a channel they are dropped.
    ///
    /// # Errors
    ///
    /// Only where memory is refused: nothing is added.
    pub fn send(&mut self, bytes: &[u8]) -> Result<(), AllocError> {
        match &mut self.flow {
            Some(flow) => flow.add(bytes),
            None => Ok(()),
        }
    }

    /// Gives the asks that wait, sends what can be sent, and after all is sent gives the ask that comes next. While keys are exchanged, and
    /// before the peer's NEWKEYS came, the tasks wait.
    ///
    /// # Errors
    ///
    /// - `Memory`: memory was refused, and the end is over.
    /// - `Dead`: the end was over before.
    pub fn go_on<E: End>(&mut self, end: &mut E, out: &mut Vec<u8>) -> Result<(), Fault> {
        if !worked(&mut self.waiting, end, out)? {
            return Ok(());
        }
        if let Some(flow) = &mut self.flow
            && !flow.push(end, out)?
        {
            return Ok(());
        }
        worked(&mut self.last, end, out)?;
        Ok(())
    }
}

// Asks for what waits in this queue, the oldest first, and answers whether nothing is left.
fn worked<E: End>(
    queue: &mut VecDeque<Ask<'_>>,
    end: &mut E,
    out: &mut Vec<u8>,
) -> Result<bool, Fault> {
    for _ in 0..queue.len() {
        let Some(ask) = queue.front().copied() else {
            break;
        };
        if asked(end, &ask, out)? == AskOutcome::Later {
            return Ok(false);
        }
        queue.pop_front();
    }
    Ok(true)
}
