//! The cookies and secrets of the first exchange of keys.

/// The cookie of the client's first KEXINIT.
pub const CLIENT_COOKIE: [u8; 16] = [0xc1; 16];

/// The secret of the client's first point.
pub const CLIENT_SECRET: [u8; 32] = [1; 32];

/// The cookie of the server's first KEXINIT.
pub const SERVER_COOKIE: [u8; 16] = [0xd1; 16];

/// The secret of the server's first point.
pub const SERVER_SECRET: [u8; 32] = [2; 32];
