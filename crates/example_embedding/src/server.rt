//! A server that sends back the bytes that come to it.

use crate::agenda::Agenda;
use crate::driving::Work;
use divrelca::{Ask, ChannelAsk, ChannelEvent, MOST_DATA, Told, WINDOW};
use std::alloc::AllocError;

/// A server with one channel. It keeps nothing: its tasks stand on its agenda.
#[derive(Drop)]
pub struct Server;

impl<'a> Work<'a> for Server {
    fn hear(&mut self, told: &Told<'_>, agenda: &mut Agenda<'a>) -> Result<(), AllocError> {
        match *told {
            Told::Channel(
                ChannelEvent::Opened {
                    channel,
                    kind: b"session",
                    max_packet,
                    ..
                },
            ) if !agenda.is_open() => {
                agenda.open(channel, max_packet);
                agenda.add(Ask::Connection(confirmation(channel)))
            }
            Told::Channel(
                ChannelEvent::Requested {
                    channel,
                    name: b"exec" | b"shell",
                    want: true,
                    ..
                },
            ) => agenda.add(Ask::Connection(ChannelAsk::Reply {
                channel,
                success: true,
            })),
            Told::Channel(ChannelEvent::GotData { body, .. }) => {
                agenda.consume(body.len());
                agenda.send(body)
            }
            Told::Channel(ChannelEvent::Ended { channel }) => end(channel, agenda),
            Told::Channel(ChannelEvent::Closed { .. }) => {
                agenda.close();
                Ok(())
            }
            ref other => agenda.answer(other),
        }
    }
}

// The client's session is opened.
fn confirmation(channel: u32) -> ChannelAsk<'static> {
    ChannelAsk::Confirm {
        channel,
        window: WINDOW,
        max_packet: MOST_DATA,
        rest: b"",
    }
}

// The client sends no more. Once all is sent back, it is told the exit status 0 (RFC 4254 section 6.10), the end of the output, and the end
// of the channel.
fn end(channel: u32, agenda: &mut Agenda<'_>) -> Result<(), AllocError> {
    agenda.add_last(ChannelAsk::Request {
        channel,
        name: b"exit-status",
        want: false,
        rest: b"\0\0\0\0",
    })?;
    agenda.add_last(ChannelAsk::Eof { channel })?;
    agenda.add_last(ChannelAsk::Close { channel })
}
