//! The laws of the definitions, by what they are about. A body cites a law by a call of it, which does nothing when the program runs.

pub mod any_peer;
pub mod bounds;
pub mod channel;
mod choice;
pub mod connection;
pub mod end;
mod epoch;
mod exchange;
pub mod faithful;
pub mod judges;
mod line;
pub mod logins;
mod message;
pub mod one_end;
mod packet;
pub mod pair;
pub mod parts;
pub mod quiet;
pub mod secrets;
pub mod session;
mod stream;
pub mod strict_exchange;
pub mod supplied;
pub mod transport;
mod turn;
pub mod userauth;

pub use choice::{computed_choice, first_common_name, guess, markers};
pub use epoch::taken_in_order;
pub use exchange::equal_texts;
pub use line::{line_examples, line_units, one_version};
pub use message::{encodings, one_message, payload_numbers, payload_sizes, request_encodings};
pub use packet::{following_examples, packet_examples, packet_units, size_examples};
pub use stream::{StreamEnd, any_pieces, stream_units, waits_where_begun};
pub use turn::{answers_are_fixed, guesses_are_skipped, numbers_are_fresh, turns_are_fixed};
