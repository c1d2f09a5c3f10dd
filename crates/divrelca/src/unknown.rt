//! Answers to events that a program does not know.

ghost use Rattle.std.specs.Prelude.{◌≡◌};
ghost use Rattle.std.specs.Option.{option_map};
ghost use Rattle.divrelca.specs.Unknown.{default_answer_of};
ghost use Rattle.ssh_end_machine.specs.Asking.{ask_of};
ghost use Rattle.ssh_end_machine.specs.Told.{told_of};

use ssh_channels::{Ask as ChannelAsk, ChannelEvent};
use ssh_end::{Ask, Told};

// The channel's type is not known (RFC 4254 section 5.1).
const UNKNOWN_TYPE: u32 = 3;

/// The answer that the peer is owed for a request that a program does not know. A channel that the peer opens is refused as of unknown type
/// (RFC 4254 section 5.1). A request that wants a reply fails, on a channel or global (sections 4 and 5.4). No other event is owed an
/// answer.
///
/// OpenSSH's `keepalive@openssh.com` is such a request, and any answer to it shows that this end is alive. A reply goes to the oldest
/// request that waits. So give this answer in the order in which the requests were told, together with the replies to requests that the
/// program knows.
pub fn default_answer(told: &Told<'_>) -> Option<Ask<'static>>
    ensures { option_map ask_of result ≡ default_answer_of (told_of told.now) }
{
    let Told::Channel(fact) = *told else {
        return None;
    };
    let ask = match fact {
        ChannelEvent::Opened { channel, .. } => ChannelAsk::Refuse {
            channel,
            reason: UNKNOWN_TYPE,
        },
        ChannelEvent::Requested {
            channel,
            want: true,
            ..
        } => ChannelAsk::Reply {
            channel,
            success: false,
        },
        ChannelEvent::Global { want: true, .. } => ChannelAsk::GlobalReply {
            success: false,
            rest: b"",
        },
        _ => return None,
    };
    Some(Ask::Connection(ask))
}
