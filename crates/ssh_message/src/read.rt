// Reading: one function for each message, from the bytes after its number.

pub(crate) mod announced;
pub(crate) mod authentication;
pub(crate) mod connection;
pub(crate) mod exchange;
pub(crate) mod method;
pub(crate) mod part;
pub(crate) mod transport;
