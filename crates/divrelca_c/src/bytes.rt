//! The structs that C passes and is shown.

/// Bytes. Those that an end shows are valid until the next call on it.
#[repr(C)]
#[derive(Clone, Copy, Drop)]
pub struct DvBytes<'a> {
    pub bytes: &'a [u8],
}

/// One user and one thing that lets this user in: a public key of 32 bytes, or a password.
#[repr(C)]
#[derive(Clone, Copy, Drop)]
pub struct DvUser<'a> {
    pub name: &'a [u8],
    pub login: &'a [u8],
    /// 1 for a key, 2 for a password.
    pub kind: u32,
}

/// Random bytes of one exchange of keys.
#[repr(C)]
#[derive(Clone, Copy, Drop)]
pub struct DvMaterial {
    pub cookie: [u8; 16],
    pub secret: [u8; 32],
}

/// The settings of a server.
#[repr(C)]
#[derive(Clone, Copy, Drop)]
pub struct DvServerSettings<'a> {
    /// The bytes of this struct.
    pub size: usize,
    pub software: &'a [u8],
    pub host_seed: &'a [u8],
    pub users: &'a [DvUser<'a>],
    pub epoch_limit: u32,
    pub tries: u32,
    pub methods: u32,
    pub ciphers: u32,
    /// The names of the algorithms of users' keys that are announced, with commas. No bytes: nothing is announced.
    pub user_algorithms: &'a [u8],
}

/// The settings of a client.
#[repr(C)]
#[derive(Clone, Copy, Drop)]
pub struct DvClientSettings<'a> {
    /// The bytes of this struct.
    pub size: usize,
    pub software: &'a [u8],
    /// The public keys of the host to trust, 32 bytes each, one after the other.
    pub host_key: &'a [u8],
    /// No bytes if the user has no key.
    pub user_seed: &'a [u8],
    /// The names of the algorithms of host keys that are offered. None: ssh-ed25519 alone.
    pub host_algorithms: &'a [&'a [u8]],
    pub epoch_limit: u32,
    pub ciphers: u32,
    /// Whether the server may announce extensions.
    pub takes_extensions: bool,
}
