//! The ends of a script: toy parts, and the settings that each script begins from.

use ssh_end::{EndValues, Pair, Transcript};
use ssh_message::Extension;
use ssh_packet::MacOnly;
use ssh_script::{Credential, EndSetup, ScriptFault, Setup};
use ssh_toys::{
    CLIENT_COOKIE, CLIENT_SECRET, SERVER_COOKIE, SERVER_SECRET, ToyClient, ToyCredential, ToyJudge,
    ToyServer, ToyUserSigner, client_parts, server_parts,
};
use ssh_transport::{Config, Settings};
use ssh_types::Side;
use std::alloc::{AllocError, Global};

/// The two ends of a script.
pub(crate) type ToyPair<'a> = Pair<MacOnly, ToyClient, ToyUserSigner, ToyServer, ToyJudge<'a>>;

/// The settings and parts of both ends of a script.
#[derive(Drop)]
pub(crate) struct Standard<'a> {
    setup: &'a Setup,
    credentials: Vec<ToyCredential<'a>>,
    client: Vec<Extension<'a>>,
    server: Vec<Extension<'a>>,
}

impl<'a> Standard<'a> {
    /// The setup for which a script's lines before its first event ask.
    ///
    /// # Errors
    ///
    /// Only if memory is refused.
    pub fn new(alloc: Global, setup: &'a Setup) -> Result<Standard<'a>, AllocError> {
        let mut credentials = Vec::new(alloc);
        for credential in setup.credentials.iter() {
            credentials.push(toy_credential(credential))?;
        }
        Ok(Standard {
            setup,
            credentials,
            client: extensions(alloc, &setup.client)?,
            server: extensions(alloc, &setup.server)?,
        })
    }

    /// Two ends that have put out their lines and their first KEXINITs.
    ///
    /// # Errors
    ///
    /// Only if memory is refused.
    pub fn open(&self, alloc: Global) -> Result<(ToyPair<'_>, Transcript), ScriptFault> {
        let client = EndValues {
            config: self.config(alloc, Side::Client)?,
            parts: client_parts(),
            user: ToyUserSigner,
            cookie: CLIENT_COOKIE,
            secret: CLIENT_SECRET,
        };
        let server = EndValues {
            config: self.config(alloc, Side::Server)?,
            parts: server_parts(),
            user: ToyJudge {
                credentials: self.credentials.as_slice(),
            },
            cookie: SERVER_COOKIE,
            secret: SERVER_SECRET,
        };
        Ok(Pair::new(alloc, client, server)?)
    }

    // What one of them is configured by.
    fn config(&self, alloc: Global, side: Side) -> Result<Config<MacOnly>, ScriptFault> {
        let (software, setup, extensions): (&[u8], &EndSetup, &[Extension<'_>]) = match side {
            Side::Client => (b"c", &self.setup.client, self.client.as_slice()),
            Side::Server => (b"s", &self.setup.server, self.server.as_slice()),
        };
        Config::new(alloc, &settings(software, setup, extensions)).map_err(
            |error| ScriptFault::of_settings(alloc, side, setup, error),
        )
    }
}

fn toy_credential(credential: &Credential) -> ToyCredential<'_> {
    match credential {
        Credential::Password { user, word } => ToyCredential::Password {
            user: user.as_slice(),
            word: word.as_slice(),
        },
        Credential::Key { user, key } => ToyCredential::Key {
            user: user.as_slice(),
            key: key.as_slice(),
        },
    }
}

fn extensions(alloc: Global, setup: &EndSetup) -> Result<Vec<Extension<'_>>, AllocError> {
    let mut extensions = Vec::new(alloc);
    for extension in setup.extensions.iter() {
        extensions.push(extension.content.to_extension())?;
    }
    Ok(extensions)
}

// The settings of an end whose version line has this software.
fn settings<'a>(
    software: &'a [u8],
    setup: &EndSetup,
    extensions: &'a [Extension<'a>],
) -> Settings<'a> {
    let standard = ssh_toys::settings(software);
    Settings {
        epoch_limit: setup
            .epoch_limit
            .as_ref()
            .map_or(standard.epoch_limit, |limit| limit.content),
        strictness: setup.strictness,
        takes_extensions: setup.takes_extensions,
        extensions,
        ..standard
    }
}
