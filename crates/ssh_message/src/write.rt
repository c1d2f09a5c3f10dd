// Writing: one function for each message. It puts the whole payload at the end, or nothing if an allocation fails.

pub(crate) mod authentication;
pub(crate) mod connection;
pub(crate) mod exchange;
pub(crate) mod field;
pub(crate) mod method;
pub(crate) mod row;
pub(crate) mod transport;
