//! Ends whose questions a program answers later. `server` makes a server that is held, `s`, and a client that has exchanged keys with it and
//! asks to be let in as the user u by the key k at once. The server judges its signature itself; after `server other` that is of an algorithm
//! which the server's own judge does not know. `client` makes a client that is held, `c`, which has sent its point to a server, and
//! `unknowing_client` one that knows no algorithm, so that its program judges the signatures of hosts too. The bytes that come next for the end
//! that is held are then on their way to it: a request with a signature, or a reply with the host key.
//!
//! After `s` or `c`, `take` has the end take them once. `way` shows how many bytes are on their way to it, and how many it has put out since
//! then. `numbers` shows the numbers of the next packet to be sent and to be taken, and `wanted` what is asked. `give` and `yes` or `no` gives
//! the answer to that. `say` and `yes` or `no` has the loop of `example_held` take them, whose look-up answers so. `question` shows which
//! question of a request is next, and `ask` has the client take its answer and ask once more, as another user.

mod answering;
mod login;
mod meeting;
mod signing;

use login::HeldLogin;
use meeting::HeldMeeting;
use signing::{KNOWN, OTHER};
use ssh_toys::lines::{Layer, Problem};
use std::alloc::Global;

/// Ends that are told lines.
#[derive(Drop)]
pub struct HeldLines {
    alloc: Global,
    // None until a line makes them.
    login: Option<HeldLogin>,
    meeting: Option<HeldMeeting>,
}

impl HeldLines {
    /// Lines of ends that are held, of which nothing was played.
    pub fn new(alloc: Global) -> HeldLines {
        HeldLines {
            alloc,
            login: None,
            meeting: None,
        }
    }
}

impl Layer for HeldLines {
    fn said_to(&mut self, line: &str) -> Result<String, Problem> {
        match (line.split_once(' '), &mut self.login, &mut self.meeting) {
            (None, _, _) if line == "server" => {
                self.login = Some(HeldLogin::new(self.alloc, KNOWN)?);
                Ok(String::new(self.alloc))
            }
            (Some(("server", "other")), _, _) => {
                self.login = Some(HeldLogin::new(self.alloc, OTHER)?);
                Ok(String::new(self.alloc))
            }
            (None, _, _) if line == "client" => {
                self.meeting = Some(HeldMeeting::new(self.alloc, true)?);
                Ok(String::new(self.alloc))
            }
            (None, _, _) if line == "unknowing_client" => {
                self.meeting = Some(HeldMeeting::new(self.alloc, false)?);
                Ok(String::new(self.alloc))
            }
            (Some(("s", rest)), Some(login), _) => login.said_to(rest),
            (Some(("c", rest)), _, Some(meeting)) => meeting.said_to(rest),
            _ => Err(Problem::NotALine),
        }
    }
}
