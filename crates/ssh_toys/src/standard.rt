//! The settings of an end, and its config.

ghost use Rattle.std.specs.Prelude.{◌≡◌, IfOk};
ghost use Rattle.ssh_config.specs.Config.{AreGood, settings_given};
ghost use Rattle.ssh_config.specs.Meaning.{given_of, settings_of};
ghost use Rattle.ssh_config.specs.Values.{given};
ghost use Rattle.ssh_model.specs.Laws.MacOnly.{mac_only};
ghost use Rattle.ssh_toys.specs.Standard.{toy_given};

use ssh_packet::MacOnly;
use ssh_transport::{Config, Settings, Strictness};
use ssh_types::CallError;
use std::alloc::{AllocError, Global};

/// The settings of an end whose version line has this software.
pub const fn settings(software: &[u8]) -> Settings<'_>
    ensures { given result ≡ toy_given software.now }
{
    Settings {
        software,
        comments: None,
        kex: &[b"curve25519-sha256"],
        host: &[b"toy@example.com"],
        encryption: &[b"none"],
        mac: &[b"hmac-sha2-256"],
        epoch_limit: 1 << 31,
        tries: 20,
        methods: &[b"publickey", b"password"],
        strictness: Strictness::Require,
        takes_extensions: false,
        extensions: &[],
    }
}

/// The config of an end with these settings. Settings that are refused count as a lack of memory.
///
/// # Errors
///
/// Only if memory is refused.
pub fn config(alloc: Global, settings: &Settings<'_>) -> Result<Config<MacOnly>, AllocError>
    ensures made { IfOk result (λ config. given_of config ≡ given settings.now) }
    ensures kept { IfOk result (λ config. settings_of config ≡ settings_given (given settings.now)) }
    ensures good { IfOk result (λ _. AreGood mac_only (given settings.now)) }
{
    match Config::<MacOnly>::new(alloc, settings) {
        Ok(config) => Ok(config),
        Err(CallError::Memory | CallError::Refused(_)) => Err(AllocError),
    }
}
