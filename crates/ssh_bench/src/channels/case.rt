use ssh_channels::{Ask, Channels};
use ssh_message::Message;
use std::alloc::Global;
use std::time::{Duration, Instant};

// How many messages are timed at once.
const MESSAGES: u32 = 65_536;

/// So many channels, all confirmed, with the largest windows.
#[derive(Drop)]
pub struct Case {
    channels: Channels,
    last: u32,
}

impl Case {
    /// Channels that this end opened, and the peer confirmed.
    ///
    /// # Errors
    ///
    /// Memory is refused, or a channel is.
    pub fn new(alloc: Global, count: usize) -> anyhow::Result<Case> {
        let mut channels = Channels::new(alloc)?;
        let mut last = 0;
        for _ in 0..count {
            let open = Ask::Open {
                kind: b"session",
                window: u32::MAX,
                max_packet: 32_768,
                rest: b"",
            };
            if let Some(channel) = channels.ask(&open, false, false)?.channel {
                last = channel;
            }
            let confirmation = Message::ChannelOpenConfirmation {
                recipient: last,
                sender: last,
                window: u32::MAX,
                max: 32_768,
                rest: b"",
            };
            channels.take(&confirmation, false)?;
        }
        Ok(Case { channels, last })
    }

    /// The time of taking data of one byte so often, on the channel that was opened last.
    ///
    /// # Errors
    ///
    /// Those of the clock, or memory is refused.
    pub fn take(&mut self, rt: &HostRuntime) -> anyhow::Result<Duration> {
        let data = Message::ChannelData {
            recipient: self.last,
            body: b"x",
        };
        let start = Instant::now(rt)?;
        for _ in 0..MESSAGES {
            self.channels.take(&data, false)?;
        }
        Ok(start.elapsed(rt)?)
    }
}
