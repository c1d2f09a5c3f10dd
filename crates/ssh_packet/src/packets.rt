//! The packets of one direction at one end, of a client as of a server: their key, their numbers and their epochs (RFC 4253
//! sections 6 and 6.4).

ghost use Rattle.std.specs.Prelude.{◌≡◌, ◌<◌, ◌^◌, if◌then◌else◌};

mod laws;
mod receiver;
mod sender;

pub use laws::{directions_sum_up, peeked_is_taken};
pub use receiver::PacketReceiver;
pub use sender::PacketSender;

// The number with which an epoch begins: zero if key exchange is strict, and otherwise the next one.
fn first_number(strict: bool, next: u32) -> u32
    ensures value { result ≡ if strict then 0 else next }
    ensures fits { result < 2 ^ 32 }
{
    if strict { 0 } else { next }
}
