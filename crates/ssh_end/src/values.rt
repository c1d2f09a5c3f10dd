//! The values of which an end of a pair is made.

ghost use Rattle.std.specs.Prelude.{◌≡◌};

use ssh_config::Config;
use ssh_packet::Sealing;

/// The values of which an end of a pair is made: its settings, its supplied parts, its first cookie and secret, and the judge of a server's
/// users or the signer of a client's user.
pub struct EndValues<S: Sealing, P: Drop, U: Drop> {
    /// Its settings.
    pub config: Config<S>,
    /// Its supplied parts: `ServerPartValues` or `ClientPartValues`.
    pub parts: P,
    /// The judge of a server's users, or the signer of a client's user.
    pub user: U,
    /// The cookie of its first KEXINIT.
    pub cookie: [u8; 16],
    /// The secret of its first point.
    pub secret: [u8; 32],
}

// Written out, since a derive would ask it of the sealing's name too.
impl<S: Sealing, P: Drop, U: Drop> Drop for EndValues<S, P, U> {
    fn drop(self) {
        let EndValues {
            config: _,
            parts: _,
            user: _,
            cookie: _,
            secret: _,
        } = self;
    }
}

impl<S: Sealing, P: Drop, U: Drop> EndValues<S, P, U> {
    // The values one by one.
    pub(crate) fn into_parts(self) -> (Config<S>, P, U, [u8; 16], [u8; 32])
        ensures { result ≡ (self.config, self.parts, self.user, self.cookie, self.secret) }
    {
        let EndValues {
            config,
            parts,
            user,
            cookie,
            secret,
        } = self;
        (config, parts, user, cookie, secret)
    }
}
