// How far authentication came, at an end of either role.

ghost use Rattle.std.specs.Prelude.{◌≡◌, false};

// What a server and a client keep alike (RFC 4252).
#[derive(Clone, Copy)]
pub(crate) struct Progress {
    // SERVICE_ACCEPT was sent by a server, or taken by a client (RFC 4253 section 10).
    pub(crate) opened: bool,
    // USERAUTH_SUCCESS was sent by a server, or taken by a client (section 5.1).
    pub(crate) authenticated: bool,
}

impl Progress {
    // Before SERVICE_ACCEPT.
    pub(crate) fn new() -> Progress
        ensures { result ≡ record { opened = false; authenticated = false } }
    {
        Progress {
            opened: false,
            authenticated: false,
        }
    }
}
