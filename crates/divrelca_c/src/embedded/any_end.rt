//! An end whose role is known only when the program runs.

use crate::embedded::opening::{Client, Server};

/// A server or a client. An end keeps its role.
#[derive(Drop)]
pub enum AnyEnd {
    /// A server.
    Server(Server),
    /// A client.
    Client(Client),
}
