//! The account of the data on the channels of an end.

ghost use Rattle.std.specs.Prelude.{◌≡◌, IfOk, None, Some, length, nat_lt, option_map, replicate, slice_get, slice_set};
ghost use Rattle.divrelca_c.specs.Embedded.Flows.{begun_flow, begun_on, changed_at, due_on, finished, flow_of, flows_of, given_back, heard};
ghost use Rattle.divrelca_c.specs.Embedded.Flows.{heard_of, most_on, no_flow, opened_by};
ghost use Rattle.ssh_channels.specs.Values.{ask_of as channel_ask_of, fact_of};
ghost use Rattle.ssh_end_machine.specs.Asking.{ask_of};
ghost use Rattle.ssh_end_machine.specs.Told.{told_of};

use divrelca::Window;
use ssh_channels::{Ask as ChannelAsk, ChannelEvent};
use ssh_end::{Ask, AskStep, Told};
use ssh_types::bounds::MOST_CHANNELS;
use std::alloc::{AllocError, Global};

/// What is kept of one channel.
#[derive(Clone, Copy)]
pub struct Flow {
    /// The largest data of one packet that the peer takes, in bytes; 0 before it said so.
    pub max_packet: u32,
    /// The window that this end gave the peer.
    pub window: Window,
    /// How many channels began at its number so far, with it: the peer opened them, or this end did. After 2^64 - 1 it begins anew.
    pub begun: u64,
}

/// What is kept of each channel, at its number.
#[derive(Drop)]
pub struct Flows {
    list: Vec<Flow>,
}

impl Flows {
    /// No channel.
    ///
    /// # Errors
    ///
    /// Only if memory is refused.
    pub fn new(alloc: Global) -> Result<Flows, AllocError>
        ensures { IfOk result (λ flows. flows_of flows ≡ replicate MOST_CHANNELS no_flow) }
    {
        let flow = Flow {
            max_packet: 0,
            window: Window::new(0),
            begun: 0,
        };
        Ok(Flows {
            list: Vec::from_elem(alloc, flow, MOST_CHANNELS)?,
        })
    }

    /// Takes account of an event, if there was one: the peer's largest packet, or data that came.
    pub fn hear(&mut self, told: Option<Told<'_>>)
        ensures heard { flows_of self.new ≡ heard (option_map told_of told.entry) (flows_of self.old) }
        ensures nothing { told.entry ≡ None → self.new ≡ self.old }
    {
        if let Some(told) = told {
            self.hear_told(told);
        }
    }

    // The same of an event.
    fn hear_told(&mut self, told: Told<'_>)
        ensures { flows_of self.new ≡ heard_of (told_of told.entry) (flows_of self.old) }
    {
        if let Told::Channel(fact) = told {
            self.hear_fact(fact);
        }
    }

    // The same of an event of a channel.
    fn hear_fact(&mut self, fact: ChannelEvent<'_>)
        ensures { flows_of self.new ≡ heard_of (fact_of fact.entry) (flows_of self.old) }
    {
        match fact {
            ChannelEvent::Opened {
                channel,
                max_packet,
                ..
            } => self.open(channel, max_packet, 0),
            ChannelEvent::Confirmed {
                channel,
                max_packet,
                ..
            } => {
                if let Some(flow) = self.at(channel) {
                    self.set(channel, Flow { max_packet, ..flow });
                }
            }
            ChannelEvent::GotData { channel, body, .. } => {
                if let Some(mut flow) = self.at(channel) {
                    flow.window.take(body.len());
                    self.set(channel, flow);
                }
            }
            _ => {}
        }
    }

    /// Takes account of an ask that was done: the window that the end gave.
    pub fn note(&mut self, ask: &Ask<'_>, step: AskStep)
        ensures { flows_of self.new ≡ opened_by (ask_of ask.now) step.opening (flows_of self.old) }
    {
        if let Ask::Connection(ask) = *ask {
            self.note_channel(ask, step.opening);
        }
    }

    // The same of an ask for a channel.
    fn note_channel(&mut self, ask: ChannelAsk<'_>, opening: Option<u32>)
        ensures { flows_of self.new ≡ opened_by (channel_ask_of ask.entry) opening (flows_of self.old) }
    {
        match ask {
            ChannelAsk::Open { window, .. } => {
                if let Some(channel) = opening {
                    self.open(channel, 0, window);
                }
            }
            ChannelAsk::Confirm {
                channel,
                window,
                ..
            } => {
                if let Some(flow) = self.at(channel) {
                    let window = Window::new(window);
                    self.set(channel, Flow { window, ..flow });
                }
            }
            _ => {}
        }
    }

    // A channel begins, on which nothing was sent yet.
    fn open(&mut self, channel: u32, max_packet: u32, window: u32)
        ensures { flows_of self.new ≡ changed_at channel (begun_flow max_packet window) (flows_of self.old) }
    {
        if let Some(flow) = self.at(channel) {
            let window = Window::new(window);
            let begun = flow.begun.wrapping_add(1);
            self.set(
                channel,
                Flow {
                    max_packet,
                    window,
                    begun,
                },
            );
        }
    }

    /// How many channels began at a number so far, counted up to 2^64; 0 if there is no number. So an ask belongs to the channel that has
    /// its number as long as this stays.
    pub fn begun(&self, channel: Option<u32>) -> u64
        ensures { result ≡ begun_on (flows_of self.now) channel }
    {
        match channel {
            Some(channel) => self.begun_at(channel),
            None => 0,
        }
    }

    // The same of a number.
    fn begun_at(&self, channel: u32) -> u64
        ensures { result ≡ begun_on (flows_of self.now) (Some channel) }
    {
        match self.at(channel) {
            Some(flow) => flow.begun,
            None => 0,
        }
    }

    // The account of a channel, if this is the number of one.
    fn at(&self, channel: u32) -> Option<Flow>
        ensures { option_map flow_of result ≡ slice_get (flows_of self.now) channel }
    {
        self.list.get(channel as usize).copied()
    }

    // Sets the account of a channel, if this is the number of one.
    fn set(&mut self, channel: u32, flow: Flow)
        ensures { flows_of self.new ≡ slice_set (flows_of self.old) channel (flow_of flow) }
    {
        if self.has(channel) {
            self.list[channel as usize] = flow;
        }
    }

    /// Tests whether this is the number of a channel.
    pub fn has(&self, channel: u32) -> bool
        ensures { result ≡ nat_lt channel (length (flows_of self.now)) }
    {
        (channel as usize) < self.list.len()
    }

    /// The largest data of one packet that the peer takes on a channel, in bytes.
    pub fn max_packet(&self, channel: u32) -> u32
        ensures { result ≡ most_on (flows_of self.now) channel }
    {
        match self.at(channel) {
            Some(flow) => flow.max_packet,
            None => 0,
        }
    }

    /// So many bytes that came on a channel are done with.
    pub fn finish(&mut self, channel: u32, bytes: usize)
        ensures { flows_of self.new ≡ finished channel bytes (flows_of self.old) }
    {
        if let Some(mut flow) = self.at(channel) {
            flow.window.finish(bytes);
            self.set(channel, flow);
        }
    }

    /// How many bytes have to be given back on a channel now.
    pub fn due(&self, channel: u32) -> Option<u32>
        ensures { result ≡ due_on (flows_of self.now) channel }
    {
        self.at(channel)?.window.due()
    }

    /// The bytes that were due on a channel were given back.
    pub fn give_back(&mut self, channel: u32)
        ensures { flows_of self.new ≡ given_back channel (flows_of self.old) }
    {
        if let Some(mut flow) = self.at(channel) {
            flow.window.give_back();
            self.set(channel, flow);
        }
    }
}
