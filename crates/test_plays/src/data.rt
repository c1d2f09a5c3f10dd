//! 100 CHANNEL_DATA messages of 327 to 32,700 bytes at each of two ends. `taking` is said before the first is taken and `taken` after the
//! last: between the two no allocation may be refused, since no message is taken by one.

use crate::status::Status;
use ssh_channels::Ask as ChannelAsk;
use ssh_end::{Ask, Fault};
use ssh_toys::ToyEnds;
use ssh_types::Side;
use std::alloc::Global;

// How many messages each end takes.
const MESSAGES: usize = 100;

// Each has so many bytes more than the one before it.
const STEP: usize = 327;

/// Sends the messages, takes them, and closes the channel. Memory was refused before they were taken, or within the closing after them.
pub fn run(rt: &HostRuntime) -> Status {
    let mut ends = match sent(rt.alloc()) {
        Ok(ends) => ends,
        Err(fault) => return status_of(rt, fault, Status::Before),
    };
    let _ = println!(rt; "taking");
    let taken = take(&mut ends);
    let _ = println!(rt; "taken");
    match taken {
        Ok(count) => {
            let _ = println!(rt; "{count} messages were taken");
        }
        Err(fault) => return status_of(rt, fault, Status::Wrong),
    }
    match close(&mut ends) {
        Ok(true) => Status::Done,
        Ok(false) => {
            let _ = println!(rt;
                "wrong: the reply is of no channel, or the ends have two sessions"
            );
            Status::Wrong
        }
        Err(fault) => status_of(rt, fault, Status::Within),
    }
}

// The status where memory was refused is this one.
fn status_of(rt: &HostRuntime, fault: Fault, refused: Status) -> Status {
    if fault == Fault::Memory && refused != Status::Wrong {
        return refused;
    }
    let _ = println!(rt; "wrong: {fault}");
    Status::Wrong
}

// Two ends that have sent each other all messages, and taken none of them.
fn sent(alloc: Global) -> Result<ToyEnds, Fault> {
    let bytes = vec![in alloc; 0x61; STEP * MESSAGES].map_err(|_| Fault::Memory)?;
    let mut ends = ToyEnds::new(alloc).map_err(|_| Fault::Memory)?;
    ends.begin()?;
    for place in 1..=MESSAGES {
        let body = bytes.get(..place * STEP).unwrap_or(&[]);
        ends.send(Side::Client, body)?;
        ends.send(Side::Server, body)?;
    }
    Ok(ends)
}

// Each end takes what the other sent, and answers how many messages it was.
fn take(ends: &mut ToyEnds) -> Result<usize, Fault> {
    let at_server = ends.take(Side::Server)?;
    let at_client = ends.take(Side::Client)?;
    Ok(at_server.saturating_add(at_client))
}

// The client closes the channel, and the server does. It answers whether the server's reply is shown with that channel, and both ends have
// one session id.
fn close(ends: &mut ToyEnds) -> Result<bool, Fault> {
    let close = ChannelAsk::Close { channel: 0 };
    ends.ask(Side::Client, &Ask::Connection(close))?;
    ends.take(Side::Server)?;
    let is_shown = ends.last_turn(Side::Server).sent.channel(0) == Some(0);
    ends.take(Side::Client)?;
    let session_id = ends.session_id(Side::Client);
    Ok(is_shown && session_id.is_some() && session_id == ends.session_id(Side::Server))
}
