//! The replies that channels owe once an exchange of keys is over.

ghost use Rattle.std.specs.Prelude.{◌≡◌, ◌+◌, ◌<◌, ◌≤◌, ◌++◌, ◌∷◌, [], OnErr, OnOk, false, length, true};
ghost use Rattle.ssh_model.specs.State.Channels.Summary.{reply_channel, reply_sent};
ghost use Rattle.ssh_model.specs.State.TransportLayer.Kept.{after_sent};
ghost use Rattle.ssh_channels.specs.Values.{reply_of};
ghost use Rattle.ssh_transport_machine.specs.Padding.{PadsTo};
ghost use Rattle.ssh_transport.specs.States.{sending_of};
ghost use Rattle.ssh_transport_machine.specs.Puts.{Sends, listed_outs};
ghost use Rattle.ssh_transport_machine.specs.State.{dead_state};
ghost use Rattle.ssh_transport.specs.Roles.{KeepsUser};
ghost use Rattle.ssh_end_machine.specs.Owed.{Extends, ListsChannels, OwedGiven};
ghost use Rattle.ssh_model.specs.Protocol.Bounds.{numbers_of_epoch};

use crate::replying::put;
use ssh_channels::{Channels, Reply};
use ssh_transport::{Role, Transport};
use std::alloc::AllocError;

/// Gives the replies that are owed, once NEWKEYS was sent: the oldest first, each in a packet of its own. The local number of the channel
/// of each is appended to `numbers`.
///
/// # Errors
///
/// Only if memory is refused: the end is over, and what was put out so far stands.
pub fn give_owed<X: Role>(
    transport: &mut Transport<X>,
    channels: &mut Channels,
    out: &mut Vec<u8>,
    sent: &mut Vec<Vec<u8>>,
    numbers: &mut Vec<Option<u32>>,
) -> Result<(), AllocError>
    // What the caller must ensure.
    requires alive { transport.old.machine.kept.dead ≡ false }
    requires free { transport.old.machine.kept.blocked ≡ false }
    requires room { transport.old.machine.kept.sending.count + length channels.old.owed ≤ numbers_of_epoch }
    // What it does.
    ensures given { OnOk result (OwedGiven X.Sealing.crypto transport.old.machine.kept channels.old transport.new.machine.kept channels.new
        (listed_outs out.old out.new sent.old sent.new)) }
    ensures user { OnOk result (KeepsUser transport.old.machine.kept transport.new.machine.kept) }
    ensures numbered { OnOk result (ListsChannels channels.old channels.new numbers.old.items numbers.new.items) }
    ensures rest { transport.new.machine ≡ record transport.old.machine { kept = transport.new.machine.kept } }
    // If it fails.
    ensures dead { OnErr result (transport.new.machine.kept.dead ≡ true) }
    ensures out { Extends out.old.items out.new.items }
    // The role stays. Where the padding comes from.
    ensures role { transport.new.role ≡ transport.old.role }
    ensures padded { OnOk result (PadsTo X.Sealing.crypto X.Filler.gives (sending_of transport.old out.old sent.old)
        (sending_of transport.new out.new sent.new)) }
{
    while let Some(reply) = channels.unblock() {
        give_reply(transport, reply, out, sent, numbers)?;
    }
    Ok(())
}

// Gives a reply, and appends the local number of its channel to `numbers`. Where memory is refused nothing is put out, and the end is
// over.
fn give_reply<X: Role>(
    transport: &mut Transport<X>,
    reply: Reply,
    out: &mut Vec<u8>,
    sent: &mut Vec<Vec<u8>>,
    numbers: &mut Vec<Option<u32>>,
) -> Result<(), AllocError>
    // What the caller must ensure.
    requires left { transport.old.machine.kept.sending.count < numbers_of_epoch }
    requires alive { transport.old.machine.kept.dead ≡ false }
    requires free { transport.old.machine.kept.blocked ≡ false }
    // What it does.
    ensures sends { OnOk result (Sends X.Sealing.crypto transport.old.machine.kept.sending (reply_sent (reply_of reply))
        (listed_outs out.old out.new sent.old sent.new)) }
    ensures after { OnOk result (transport.new.machine ≡ record transport.old.machine { kept = after_sent transport.old.machine.kept }) }
    ensures numbered { OnOk result (numbers.new.items ≡ numbers.old.items ++ reply_channel (reply_of reply) ∷ []) }
    // If it fails.
    ensures dead { OnErr result (transport.new.machine ≡ dead_state transport.old.machine) }
    ensures out { OnErr result (out.new.items ≡ out.old.items) }
    ensures kept { OnErr result (sent.new.items ≡ sent.old.items) }
    ensures numbers { OnErr result (numbers.new.items ≡ numbers.old.items) }
    // The role stays. Where the padding comes from.
    ensures role { transport.new.role ≡ transport.old.role }
    ensures padded { OnOk result (PadsTo X.Sealing.crypto X.Filler.gives (sending_of transport.old out.old sent.old)
        (sending_of transport.new out.new sent.new)) }
{
    if let Err(error) = numbers.reserve(1) {
        transport.die();
        return Err(error);
    }
    ssh_model::laws::payload_numbers();
    let payload = match transport.encode_payload(&reply.message()) {
        Ok(payload) => payload,
        Err(error) => {
            transport.die();
            return Err(error);
        }
    };
    put(transport, payload, out, sent)?;
    numbers.push_reserved(reply.channel());
    Ok(())
}
