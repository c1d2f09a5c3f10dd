//! The handling of what a client's end tells: its user logs in, and one command is run.

use super::command::Command;
use super::request::Request;
use crate::agenda::Agenda;
use crate::ending::Ending;
use crate::login::Login;
use crate::station::Desk;
use divrelca::End;
use ssh_channels::ChannelEvent;
use ssh_end::{Ask, Fault, Told};
use ssh_types::NameList;
use std::alloc::{AllocError, Global};

/// The state of a client besides its end.
#[derive(Drop)]
pub struct ClientDesk<'a> {
    alloc: Global,
    login: Login<'a>,
    request: Request<'a>,
    /// The command that is run.
    pub command: Command,
    /// The text that the server shows to the user.
    pub notes: Vec<u8>,
}

impl<'a> ClientDesk<'a> {
    /// A client that heard nothing yet.
    pub fn new(
        alloc: Global,
        window: u32,
        login: Login<'a>,
        request: Request<'a>,
    ) -> ClientDesk<'a> {
        ClientDesk {
            alloc,
            login,
            request,
            command: Command::new(alloc, window),
            notes: Vec::new(alloc),
        }
    }

    // The request to be let in failed, and these methods can go on.
    fn fail(&mut self, methods: &NameList<'_>, agenda: &mut Agenda<'a>) -> Result<(), AllocError> {
        if self.login.fail(methods) {
            return agenda.add(Ask::User(self.login.ask()));
        }
        let methods = Vec::from_slice(self.alloc, methods.as_bytes())?;
        agenda.end_by(if self.login.is_empty() {
            Ending::NothingOffered { methods }
        } else {
            Ending::NotLetIn { methods }
        })
    }

    // Keeps what the server says to the user.
    fn note(&mut self, message: &[u8]) -> Result<(), AllocError> {
        for byte in message.iter() {
            let is_shown = matches!(*byte, b' '..=b'~' | b'\n');
            self.notes.push(if is_shown { *byte } else { b'?' })?;
        }
        Ok(())
    }

    // What is told of channels and global requests.
    fn hear_of_channels(
        &mut self,
        fact: &ChannelEvent<'_>,
        agenda: &mut Agenda<'a>,
    ) -> Result<(), AllocError> {
        match *fact {
            ChannelEvent::Confirmed {
                channel,
                max_packet,
                ..
            } => {
                self.command.confirm(channel, max_packet);
                agenda.add(Ask::Connection(self.request.ask_on(channel)))
            }
            ChannelEvent::OpenFailed {
                reason,
                description,
                ..
            } => {
                let description = Vec::from_slice(self.alloc, description)?;
                agenda.end_by(Ending::NoChannel {
                    reason,
                    description,
                })
            }
            ChannelEvent::RequestDone { success: true, .. } => {
                self.command.run();
                Ok(())
            }
            ChannelEvent::RequestDone { success: false, .. } => agenda.end_by(Ending::NoCommand),
            ChannelEvent::Closed { .. } => agenda.end_by(self.command.take_ending()),
            ChannelEvent::GotData { kind, body, .. } => self.command.take(kind, body),
            ChannelEvent::Requested { name, rest, .. } => {
                self.command.learn(name, rest)?;
                agenda.answer(&Told::Channel(*fact))
            }
            other => agenda.answer(&Told::Channel(other)),
        }
    }
}

impl<'a> Desk<'a> for ClientDesk<'a> {
    fn hear(&mut self, told: &Told<'_>, agenda: &mut Agenda<'a>) -> Result<(), AllocError> {
        match *told {
            Told::Completed { position: 1 } => agenda.add(Ask::Service),
            Told::Service => agenda.add(Ask::User(self.login.ask())),
            Told::Authenticated { .. } => agenda.add(Ask::Connection(self.command.opening())),
            Told::Failed { methods, .. } => self.fail(&methods, agenda),
            Told::Banner { message } => self.note(message),
            Told::Channel(fact) => self.hear_of_channels(&fact, agenda),
            _ => Ok(()),
        }
    }

    fn flow_on<E: End>(&mut self, end: &mut E, out: &mut Vec<u8>) -> Result<(), Fault> {
        self.command.flow_on(end, out)
    }
}
