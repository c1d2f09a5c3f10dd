ghost use Rattle.std.specs.Prelude.{◌≡◌, ◌≤◌};
ghost use Rattle.std.specs.Option.{option_copied};
ghost use Rattle.ssh_model.specs.Protocol.Bounds.{longest_tag};
ghost use Rattle.ssh_model.specs.Protocol.Wire.Packet.{IsBlock};
ghost use Rattle.ssh_model.specs.Protocol.Wire.Sealing.{blocks_under, tag_under};

use crate::blocks::Blocks;
use crate::sealing::Sealing;

// The blocks under a key; in clear of 8 bytes, and packet_length counts.
pub(crate) fn blocks_of<S: Sealing>(key: Option<&S::Key>) -> Blocks
    ensures value { result ≡ blocks_under S.crypto (option_copied key.entry) }
    ensures size { IsBlock result.size }
{
    match key {
        Some(key) => Blocks {
            size: S::block(key),
            counts_length: S::counts_length(key),
        },
        None => Blocks {
            size: 8,
            counts_length: true,
        },
    }
}

// The length of the tag under a key; in clear 0.
pub(crate) fn tag_of<S: Sealing>(key: Option<&S::Key>) -> usize
    ensures value { result ≡ tag_under S.crypto (option_copied key.entry) }
    ensures most { result ≤ longest_tag }
{
    match key {
        Some(key) => S::tag_len(key),
        None => 0,
    }
}
