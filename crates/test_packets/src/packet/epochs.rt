//! A NEWKEYS that is taken, with the epoch that begins after it.

ghost use Rattle.std.specs.Prelude.{◌≡◌, ◌<◌, ◌+◌, ◌-◌, IsTrue, None};
ghost use Rattle.ssh_model.specs.Protocol.Bounds.{most_exchanges};

use ssh_packet::{HmacKey, MacOnly, PacketReceiver, PacketStep};

// The payload of NEWKEYS.
const NEWKEYS: &[u8] = b"\x15";

/// Takes the packet of NEWKEYS and begins the next epoch under this key, whether key exchange is strict or not; `false`
/// if the bytes are another packet, or none.
pub fn take_newkeys(
    receiver: &mut PacketReceiver<MacOnly>,
    bytes: &[u8],
    key: HmacKey,
    strict: bool,
) -> bool
    requires live { receiver.old.ended ≡ None }
    requires epoch { receiver.old.direction.epoch < most_exchanges }
    ensures live { IsTrue result → receiver.new.ended ≡ None }
    ensures epoch { IsTrue result → receiver.new.direction.epoch ≡ receiver.old.direction.epoch + 1 }
{
    let (_, step) = receiver.take(bytes);
    if step != PacketStep::Payload {
        return false;
    }
    if receiver.payload() != NEWKEYS {
        return false;
    }
    receiver.start_epoch(key, strict);
    true
}
