//! The numbers of asks and messages are uint32s. Facts for proofs, at no cost.

ghost use Rattle.ssh_channels.specs.Values.{ask_of};
ghost use Rattle.ssh_message.specs.Meaning.{meaning};
ghost use Rattle.ssh_end_machine.specs.Asking.{AsksUint32s, HasRecipient, HasUint32s};

use ssh_channels::Ask;
use ssh_message::Message;

/// The numbers with which a channel is opened.
pub fn ask_numbers(ask: Ask<'_>)
    ensures { AsksUint32s (ask_of ask.entry) }
{}

/// The numbers of a message of the connection, except for its recipient.
pub fn message_numbers(message: Message<'_>)
    ensures { HasUint32s (meaning message.entry) }
{}

/// The recipient of a message of the connection.
pub fn recipient_number(message: Message<'_>)
    ensures { HasRecipient (meaning message.entry) }
{}
