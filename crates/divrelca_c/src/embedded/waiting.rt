//! Asks that wait until an end can do them.

ghost use Rattle.std.specs.Prelude.{◌≡◌, IfOk, List, None, Option, ℕ};
ghost use Rattle.ssh_channels.specs.Values.{ask_of as channel_ask_of};
ghost use Rattle.divrelca_c.specs.Embedded.Forms.{form_asks, form_of};
ghost use Rattle.divrelca_c.specs.Embedded.Queues.{IsCopyOf, about, channel_by, channel_in};
ghost use Rattle.ssh_end_machine.specs.Asking.{ask_of};

use crate::embedded::ask_form::AskForm;
use ssh_channels::Ask as ChannelAsk;
use ssh_end::Ask;
use std::alloc::{AllocError, Global};

/// A form with bytes of its own.
#[derive(Drop)]
pub struct KeptForm {
    kind: u32,
    channel: u32,
    window: u32,
    max_packet: u32,
    number: u32,
    flag: bool,
    name: Vec<u8>,
    text: Vec<u8>,
    algorithm: Vec<u8>,
}

impl KeptForm {
    /// A copy of a form.
    ///
    /// # Errors
    ///
    /// Only if memory is refused.
    pub fn new(alloc: Global, form: &AskForm<'_>) -> Result<KeptForm, AllocError>
        ensures { IfOk result (λ kept. (key : Option (List ℕ)) → form_asks (form_of kept) key ≡ form_asks form.now key) }
    {
        let mut name = Vec::new(alloc);
        name.extend_from_slice(form.name)?;
        let mut text = Vec::new(alloc);
        text.extend_from_slice(form.text)?;
        let mut algorithm = Vec::new(alloc);
        algorithm.extend_from_slice(form.algorithm)?;
        Ok(KeptForm {
            kind: form.kind,
            channel: form.channel,
            window: form.window,
            max_packet: form.max_packet,
            number: form.number,
            flag: form.flag,
            name,
            text,
            algorithm,
        })
    }

    // The channel that it names, if it names one.
    fn channel(&self) -> Option<u32>
        ensures { result ≡ channel_by (form_asks (form_of self.now) None) }
    {
        match self.form().ask(&None) {
            Ok(ask) => channel_of(&ask),
            Err(_) => None,
        }
    }

    /// The form.
    pub fn form(&self) -> AskForm<'_>
        ensures { (key : Option (List ℕ)) → form_asks result key ≡ form_asks (form_of self.now) key }
    {
        AskForm {
            kind: self.kind,
            channel: self.channel,
            window: self.window,
            max_packet: self.max_packet,
            number: self.number,
            flag: self.flag,
            name: self.name.as_slice(),
            text: self.text.as_slice(),
            algorithm: self.algorithm.as_slice(),
        }
    }
}

/// An ask that waits.
#[derive(Drop)]
pub enum Waiting {
    /// One that a user made.
    Form(KeptForm),
    /// One that needs no bytes of a user.
    Known(Ask<'static>),
}

impl Waiting {
    /// A copy of a form.
    ///
    /// # Errors
    ///
    /// Only if memory is refused.
    pub fn of(alloc: Global, form: &AskForm<'_>) -> Result<Waiting, AllocError>
        ensures { IfOk result (λ ask. IsCopyOf form.now ask) }
    {
        let kept = KeptForm::new(alloc, form)?;
        Ok(Waiting::Form(kept))
    }

    /// The channel that it is about, by its number, if it is about one.
    pub fn channel(&self) -> Option<u32>
        ensures { result ≡ about self.now }
    {
        match self {
            Waiting::Form(kept) => kept.channel(),
            Waiting::Known(ask) => channel_of(ask),
        }
    }
}

/// An ask in the queue. A number of a channel is used again once the channel is over, so it is kept with the ask which channel it is for.
#[derive(Drop)]
pub struct Queued {
    /// The ask.
    pub ask: Waiting,
    /// How many channels had begun at the number that it names (`Flows::begun`) when it was put there.
    pub begun: u64,
}

// The channel that an ask is about, by its number, if it is about one.
fn channel_of(ask: &Ask<'_>) -> Option<u32>
    ensures { result ≡ channel_in (ask_of ask.now) }
{
    match ask {
        Ask::Connection(ask) => named_channel(*ask),
        _ => None,
    }
}

// The same of an ask for channels.
fn named_channel(ask: ChannelAsk<'_>) -> Option<u32>
    ensures { result ≡ channel_in (channel_ask_of ask.entry) }
{
    match ask {
        ChannelAsk::Confirm { channel, .. }
        | ChannelAsk::Refuse { channel, .. }
        | ChannelAsk::Data { channel, .. }
        | ChannelAsk::Adjust { channel, .. }
        | ChannelAsk::Eof { channel }
        | ChannelAsk::Close { channel }
        | ChannelAsk::Request { channel, .. }
        | ChannelAsk::Reply { channel, .. } => Some(channel),
        ChannelAsk::Open { .. } | ChannelAsk::Global { .. } | ChannelAsk::GlobalReply { .. } =>
            None,
    }
}
