//! A client that runs `cat` at a server, sends it a text, and reads the text that comes back.

use crate::agenda::Agenda;
use crate::driving::Work;
use divrelca::{Ask, ChannelAsk, ChannelEvent, MOST_DATA, Told, UserAsk, WINDOW};
use std::alloc::{AllocError, Global};

/// A client with one channel.
#[derive(Drop)]
pub struct Client<'a> {
    // How the user asks to be let in.
    login: UserAsk<'a>,
    text: &'a [u8],
    /// The output of the command.
    pub read: Vec<u8>,
    /// The exit status of the command, once that is known.
    pub status: Option<u8>,
}

impl<'a> Client<'a> {
    /// A client whose user asks so to be let in, and whose command is to be sent this text.
    pub fn new(alloc: Global, login: UserAsk<'a>, text: &'a [u8]) -> Client<'a> {
        Client {
            login,
            text,
            read: Vec::new(alloc),
            status: None,
        }
    }

    // What is told of the client's channel, and of what the server asks for.
    fn hear_of_channels(
        &mut self,
        event: &ChannelEvent<'_>,
        agenda: &mut Agenda<'a>,
    ) -> Result<(), AllocError> {
        match *event {
            ChannelEvent::Confirmed {
                channel,
                max_packet,
                ..
            } => {
                agenda.open(channel, max_packet);
                agenda.add(run(channel))
            }
            // The command runs: it is sent the text, and then told that no more comes.
            ChannelEvent::RequestDone {
                channel,
                success: true,
            } => {
                agenda.send(self.text)?;
                agenda.add_last(ChannelAsk::Eof { channel })
            }
            ChannelEvent::GotData { kind, body, .. } => {
                agenda.consume(body.len());
                self.take(kind, body)
            }
            ChannelEvent::Requested {
                name: b"exit-status",
                rest,
                ..
            } => {
                self.status = Some(status_in(rest));
                Ok(())
            }
            ChannelEvent::RequestDone { success: false, .. }
            | ChannelEvent::OpenFailed { .. }
            | ChannelEvent::Closed { .. } => {
                agenda.close();
                agenda.add(Ask::Disconnect(b"done"))
            }
            other => agenda.answer(&Told::Channel(other)),
        }
    }

    // The command wrote something. Its error output is dropped.
    fn take(&mut self, kind: Option<u32>, body: &[u8]) -> Result<(), AllocError> {
        match kind {
            None => self.read.extend_from_slice(body),
            Some(_) => Ok(()),
        }
    }
}

impl<'a> Work<'a> for Client<'a> {
    fn hear(&mut self, told: &Told<'_>, agenda: &mut Agenda<'a>) -> Result<(), AllocError> {
        match *told {
            Told::Completed { position: 1 } => agenda.add(Ask::Service),
            Told::Service => agenda.add(Ask::User(self.login)),
            Told::Authenticated { .. } => agenda.add(open()),
            Told::Failed { .. } => agenda.add(Ask::Disconnect(b"not let in")),
            Told::Channel(event) => self.hear_of_channels(&event, agenda),
            _ => Ok(()),
        }
    }
}

// A session is opened (RFC 4254 section 6.1).
fn open() -> Ask<'static> {
    Ask::Connection(ChannelAsk::Open {
        kind: b"session",
        window: WINDOW,
        max_packet: MOST_DATA,
        rest: b"",
    })
}

// The command is run (RFC 4254 section 6.5): its name is a string, with its length before it.
fn run(channel: u32) -> Ask<'static> {
    Ask::Connection(ChannelAsk::Request {
        channel,
        name: b"exec",
        want: true,
        rest: b"\0\0\0\x03cat",
    })
}

// An exit status of four bytes (RFC 4254 section 6.10), of which a program has one.
fn status_in(rest: &[u8]) -> u8 {
    match *rest {
        [0, 0, 0, status] => status,
        _ => 255,
    }
}
