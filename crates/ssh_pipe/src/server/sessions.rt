//! The channels of a server.

use crate::agenda::Agenda;
use crate::session::Session;
use divrelca::{End, MOST_DATA, MOST_SESSIONS};
use ssh_channels::{Ask as ChannelAsk, ChannelEvent};
use ssh_end::{Ask, Fault, Told};
use std::alloc::{AllocError, Global};

/// The channels that the client opened and that are not closed.
#[derive(Drop)]
pub struct Sessions {
    alloc: Global,
    // The window of each channel, in bytes.
    window: u32,
    list: Vec<Session>,
}

// The reasons for which a channel is refused (RFC 4254 section 5.1).
const UNKNOWN_TYPE: u32 = 3;

const RESOURCE_SHORTAGE: u32 = 4;

impl Sessions {
    /// No channels. Each that is opened has a window of this size.
    pub fn new(alloc: Global, window: u32) -> Sessions {
        Sessions {
            alloc,
            window,
            list: Vec::new(alloc),
        }
    }

    /// Tests whether no channel is open.
    pub fn is_empty(&self) -> bool {
        self.list.is_empty()
    }

    /// Listens to what the end told of channels and global requests, and puts the answers on the agenda.
    ///
    /// # Errors
    ///
    /// Only if memory is refused: the channel can't go on.
    pub fn hear<'a>(
        &mut self,
        fact: &ChannelEvent<'_>,
        agenda: &mut Agenda<'a>,
    ) -> Result<(), AllocError> {
        match *fact {
            ChannelEvent::Opened {
                channel,
                kind,
                max_packet,
                ..
            } => {
                let ask = self.open(channel, kind, max_packet)?;
                agenda.add(Ask::Connection(ask))
            }
            ChannelEvent::Requested {
                channel,
                name,
                want,
                rest,
            } => {
                let success = self.request(channel, name, rest)?;
                if want {
                    agenda.add(Ask::Connection(ChannelAsk::Reply { channel, success }))
                } else {
                    Ok(())
                }
            }
            ChannelEvent::GotData {
                channel,
                kind,
                body,
            } => self.take(channel, kind, body),
            ChannelEvent::Ended { channel } => {
                self.end(channel);
                Ok(())
            }
            ChannelEvent::Closed { channel } => {
                self.close(channel);
                Ok(())
            }
            other => agenda.answer(&Told::Channel(other)),
        }
    }

    // The client opens a channel: a session is taken, as long as there are not too many. Answers what it is told.
    fn open(
        &mut self,
        channel: u32,
        kind: &[u8],
        max_packet: u32,
    ) -> Result<ChannelAsk<'static>, AllocError> {
        if kind != b"session".as_slice() {
            return Ok(refuse(channel, UNKNOWN_TYPE));
        }
        if self.list.len() >= MOST_SESSIONS {
            return Ok(refuse(channel, RESOURCE_SHORTAGE));
        }
        let session = Session::new(self.alloc, channel, max_packet, self.window);
        self.list.push(session)?;
        Ok(ChannelAsk::Confirm {
            channel,
            window: self.window,
            max_packet: MOST_DATA,
            rest: b"",
        })
    }

    // The client makes a request on a channel. Answers whether it is granted.
    fn request(&mut self, channel: u32, name: &[u8], rest: &[u8]) -> Result<bool, AllocError> {
        match self.at(channel) {
            Some(session) => session.request(name, rest),
            None => Ok(false),
        }
    }

    // Takes data of the client on a channel.
    fn take(&mut self, channel: u32, kind: Option<u32>, body: &[u8]) -> Result<(), AllocError> {
        match self.at(channel) {
            Some(session) => session.take(kind, body),
            None => Ok(()),
        }
    }

    // The client sends no more on a channel.
    fn end(&mut self, channel: u32) {
        if let Some(session) = self.at(channel) {
            session.end();
        }
    }

    // A channel is closed.
    fn close(&mut self, channel: u32) {
        self.list.retain(|session| session.channel() != channel);
    }

    /// Sends what can be sent on all channels, and gives their windows back.
    ///
    /// # Errors
    ///
    /// - `Memory`: memory was refused, and the end is over.
    /// - `Dead`: the end was over before.
    pub fn flow_on<E: End>(&mut self, end: &mut E, out: &mut Vec<u8>) -> Result<(), Fault> {
        for session in self.list.iter_mut() {
            session.go_on(end, out)?;
        }
        Ok(())
    }

    // The session on a channel.
    fn at(&mut self, channel: u32) -> Option<&mut Session> {
        self.list
            .iter_mut()
            .find(|session| session.channel() == channel)
    }
}

// A channel is refused for this reason.
fn refuse(channel: u32, reason: u32) -> ChannelAsk<'static> {
    ChannelAsk::Refuse { channel, reason }
}
