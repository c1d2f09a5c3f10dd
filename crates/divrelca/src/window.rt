//! The window of the peer on a channel.

ghost use Rattle.std.specs.Prelude.{◌≡◌, ◌<◌, ◌+◌, IsSome};

/// The window that this end gave the peer on a channel (RFC 4254 section 5.2), in bytes.
#[derive(Clone, Copy, Debug, PartialEq, Eq)]
pub struct Window {
    /// The bytes that were offered when the channel was opened.
    pub size: u32,
    /// The bytes that the peer may still send.
    pub granted: u32,
    /// The bytes that came and are not done with.
    pub held: u32,
    /// The bytes that are done with and not given back.
    pub done: u32,
    ghost adds_up: { granted + held + done ≡ size },
}

impl Window {
    ghost use Rattle.divrelca.specs.Windows.{after_finishing, after_giving_back, after_taking, counts_of, due_of, offered};

    /// A window of this size, of which nothing is used.
    pub fn new(size: u32) -> Window
        ensures { counts_of result ≡ offered size }
    {
        Window {
            size,
            granted: size,
            held: 0,
            done: 0,
        }
    }

    /// So many bytes came. An end refuses a peer that sends more than that, and no more than that is counted.
    pub fn take(&mut self, bytes: usize)
        ensures { counts_of self.new ≡ after_taking bytes (counts_of self.old) }
    {
        let bytes = bytes.min(self.granted as usize) as u32;
        *self = Window {
            size: self.size,
            granted: self.granted - bytes,
            held: self.held + bytes,
            done: self.done,
        };
    }

    /// So many of the bytes that came are done with, and no more than are held.
    pub fn finish(&mut self, bytes: usize)
        ensures { counts_of self.new ≡ after_finishing bytes (counts_of self.old) }
    {
        let bytes = bytes.min(self.held as usize) as u32;
        *self = Window {
            size: self.size,
            granted: self.granted,
            held: self.held - bytes,
            done: self.done + bytes,
        };
    }

    /// How many bytes to give back now: all that are done with, once they are half of the window. So a peer that used up the window is
    /// never left waiting once all its bytes are done with.
    pub fn due(&self) -> Option<u32>
        ensures due { result ≡ due_of self.now.size self.now.done }
        ensures never_waits { self.now.granted ≡ 0 → self.now.held ≡ 0 → 0 < self.now.size → IsSome result }
    {
        if self.done > 0 && self.done >= self.size / 2 {
            Some(self.done)
        } else {
            None
        }
    }

    /// The bytes that were due were given back.
    pub fn give_back(&mut self)
        ensures { counts_of self.new ≡ after_giving_back (counts_of self.old) }
    {
        *self = Window {
            size: self.size,
            granted: self.granted + self.done,
            held: self.held,
            done: 0,
        };
    }
}
