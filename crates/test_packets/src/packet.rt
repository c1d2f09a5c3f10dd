//! The public calls of `ssh_packet`: packets by themselves, and the lines and packets of one direction of a connection.

mod directions;
mod epochs;
mod largest;
mod packets;
mod reading;
mod stream;

pub use directions::DirectionLines;
pub use packets::PacketLines;
