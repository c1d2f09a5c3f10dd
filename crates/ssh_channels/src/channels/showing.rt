//! What channels show.

ghost use Rattle.std.specs.Prelude.{length, ◌≡◌, option_map};
ghost use Rattle.ssh_model.specs.State.Channels.Places.{at, shown_room, shown_state};
ghost use Rattle.ssh_model.specs.State.Channels.Kept.{used};
ghost use Rattle.ssh_channels.specs.Sessions.{IsCountInSession, IsRoomInSession, IsStateInSession};
ghost use Rattle.ssh_channels.specs.Values.{state_of};

use super::Channels;
use crate::ChannelState;
use ssh_model::laws;

impl Channels {
    /// The state of the channel with this number (RFC 4254 section 5); `None` if the number is not in use.
    pub fn state(&self, channel: u32) -> Option<ChannelState>
        ensures kept { option_map state_of result ≡ shown_state (at self.now.places channel) }
        ensures in_session { IsStateInSession self.now channel result }
    {
        laws::connection::same_state_shown();
        self.kept_state(channel)
    }

    /// The window left for data of this end, in bytes (RFC 4254 section 5.2); `None` if the channel is not confirmed. While a CLOSE is owed
    /// on the channel, the window is shown but can't be used.
    pub fn room(&self, channel: u32) -> Option<u32>
        ensures kept { result ≡ shown_room (at self.now.places channel) }
        ensures in_session { IsRoomInSession self.now channel result }
    {
        laws::connection::same_state_shown();
        self.kept_room(channel)
    }

    /// How many numbers are in use: those of channels that are open or being opened, and of those at which a CLOSE is owed.
    pub fn count(&self) -> usize
        ensures kept { result ≡ used self.now.places }
        ensures in_session { IsCountInSession self.now result }
    {
        laws::connection::same_state_shown();
        self.table.count()
    }

    /// How many replies are owed. `unblock` gives them once the end sent its NEWKEYS.
    pub fn owed(&self) -> usize
        ensures { result ≡ length self.now.owed }
    {
        self.owed.len()
    }

    fn kept_state(&self, channel: u32) -> Option<ChannelState>
        ensures { option_map state_of result ≡ shown_state (at self.now.places channel) }
    {
        let entry = self.table.get(channel)?;
        if entry.is_answered {
            return Some(ChannelState::Confirmed {
                eof_sent: entry.eof_sent,
                eof_taken: entry.eof_taken,
                close_sent: entry.close_said && !entry.close_owed,
                close_taken: entry.close_taken,
            });
        }
        if entry.is_own {
            return Some(ChannelState::Opening);
        }
        Some(ChannelState::Waiting)
    }

    fn kept_room(&self, channel: u32) -> Option<u32>
        ensures { result ≡ shown_room (at self.now.places channel) }
    {
        match self.table.get(channel) {
            Some(entry) if entry.is_answered => Some(entry.send_window),
            _ => None,
        }
    }
}
