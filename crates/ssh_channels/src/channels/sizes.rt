//! The sizes of messages that are sent.

ghost use Rattle.std.specs.Prelude.{◌≡◌, ◌+◌, ◌≤◌, length};
ghost use Rattle.ssh_model.specs.Protocol.Channels.Connection.{is_max_packet};
ghost use Rattle.ssh_model.specs.Protocol.Sessions.Sizes.{string_size};
ghost use Rattle.ssh_model.specs.Protocol.Sessions.Sizes as model;

use ssh_types::bounds::{LARGEST_DATA, LONGEST_PAYLOAD};

/// A payload of so many bytes and these is too long for a packet.
pub(super) fn is_too_long(fixed: usize, rest: &[u8]) -> bool
    requires { fixed ≤ 100 }
    ensures { result ≡ model.is_too_long (fixed + length rest.now) }
{
    rest.len() > LONGEST_PAYLOAD - fixed
}

/// The same with a string in it.
pub(super) fn is_too_long_with(fixed: usize, text: &[u8], rest: &[u8]) -> bool
    requires { fixed ≤ 100 }
    ensures { result ≡ model.is_too_long (fixed + string_size text.now + length rest.now) }
{
    if text.len() > LONGEST_PAYLOAD {
        return true;
    }
    if rest.len() > LONGEST_PAYLOAD {
        return true;
    }
    fixed + (4 + text.len()) + rest.len() > LONGEST_PAYLOAD
}

/// An end may offer to take data of so many bytes in one message.
pub(super) fn is_max_packet(max_packet: u32) -> bool
    ensures { result ≡ is_max_packet max_packet }
{
    1 <= max_packet && max_packet <= LARGEST_DATA
}
