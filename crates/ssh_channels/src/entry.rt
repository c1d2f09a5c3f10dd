/// What an end keeps of a channel (RFC 4254 section 5).
#[derive(Clone, Copy)]
pub(crate) struct Entry {
    // This end opened it; the other end answered with OPEN_CONFIRMATION.
    pub is_own: bool,
    pub is_answered: bool,
    // EOF sent and taken.
    pub eof_sent: bool,
    pub eof_taken: bool,
    // CLOSE said, which is sent unless it is owed, and taken.
    pub close_said: bool,
    pub close_owed: bool,
    pub close_taken: bool,
    pub peer_number: u32,
    // The window left for this end's data, and for the peer's.
    pub send_window: u32,
    pub receive_window: u32,
    // The largest data that this end takes, and that the peer takes.
    pub max_packet_here: u32,
    pub max_packet_there: u32,
    // Requests of the peer, and of this end, that wait for a reply.
    pub waiting_here: u32,
    pub waiting_there: u32,
}

impl Entry {
    ghost use Rattle.std.specs.Prelude.{◌≡◌};
    ghost use Rattle.ssh_model.specs.State.Channels.Places.{is_open};
    ghost use Rattle.ssh_model.specs.State.Channels.Kept.{is_ended, opening_place, waiting_place};
    ghost use Rattle.ssh_channels.specs.Entries.{place_of};

    /// The peer's OPEN waits for this end's answer.
    pub fn waiting(sender: u32, window: u32, max_packet: u32) -> Entry
        ensures { place_of result ≡ waiting_place sender window max_packet }
    {
        Entry {
            is_own: false,
            peer_number: sender,
            send_window: window,
            max_packet_there: max_packet,
            ..Entry::opening(0, 0)
        }
    }

    /// This end's OPEN waits for the peer's answer.
    pub fn opening(window: u32, max_packet: u32) -> Entry
        ensures { place_of result ≡ opening_place window max_packet }
    {
        Entry {
            is_own: true,
            is_answered: false,
            eof_sent: false,
            eof_taken: false,
            close_said: false,
            close_owed: false,
            close_taken: false,
            peer_number: 0,
            send_window: 0,
            receive_window: window,
            max_packet_here: max_packet,
            max_packet_there: 0,
            waiting_here: 0,
            waiting_there: 0,
        }
    }

    /// The channel is confirmed, and the peer did not close.
    pub fn is_open(&self) -> bool
        ensures { result ≡ is_open (place_of self.now) }
    {
        self.is_answered && !self.close_taken
    }

    /// EOF was sent, or CLOSE said, so no data goes out any more.
    pub fn is_ended(&self) -> bool
        ensures { result ≡ is_ended (place_of self.now) }
    {
        self.eof_sent || self.close_said
    }
}
