//! The settings of one end of SSH (RFC 4253): the text of its version line, the algorithms that it offers, and its limits. `ssh_transport`
//! exports these names, too.
//!
//! `Config::new` checks the settings once, and refuses them by the lowest number whose condition holds: 1 `BadSoftware`, 2 `BadList`, 3
//! `BadLimit`, 4 `BadExtension`. A config shows each value by a call of its name. It holds exactly the settings given, and every config is
//! good (`every_config_is_good`). Its version line has at most 255 bytes with CR LF, and its lists have 1 to 16 names. The sealing knows
//! each pair of its encryptions and MACs. Its limits and extensions are within their bounds.
//!
//! The settings of an end whose sealing is `MacOnly`:
//!
//! ```rust
//! let settings = Settings {
//!     software: b"divrelca_1",
//!     comments: Some(b"a core"),
//!     kex: &[b"curve25519-sha256", b"curve25519-sha256@libssh.org"],
//!     host: &[b"ssh-ed25519"],
//!     encryption: &[b"none"],
//!     mac: &[b"hmac-sha2-256"],
//!     epoch_limit: 1 << 20,
//!     tries: 6,
//!     methods: &[b"publickey", b"password"],
//!     strictness: Strictness::Require,
//!     takes_extensions: false,
//!     extensions: &[],
//! };
//! let config = Config::<MacOnly>::new(alloc, &settings)?;
//! let line = config.line();                   // SSH-2.0-divrelca_1 a core
//! let kex = config.kex().as_bytes();          // curve25519-sha256,curve25519-sha256@libssh.org
//! ```
//!
//! # What it promises
//!
//! `ssh_transport` exports these names. `Strictness` is the enum of `ssh_model`, exported again.
//!
//! - A `Config<S>` stands for the settings that it was given (`given_of`), and in the model for the settings of an end
//!   (`settings_of`). `S` is a `Sealing`.
//! - `Config::new` answers a config of exactly these settings, which are then good (`AreGood`), or an error (`IsError`). `BadSoftware`
//!   comes exactly if no version line has the software and the comments. `BadList` comes exactly if there is such a line and the lists are
//!   not good. `BadLimit` comes exactly if line and lists are good and a limit is not. `BadExtension` comes exactly if all these are good
//!   and the extensions are not. The error names the list, limit or extension and the reason as the definition has it. `Memory` is answered
//!   only for good settings.
//! - Each call that shows a value answers its part of `given_of`, and needs no memory. The line is a version line with CR LF after it, and
//!   has at most 253 bytes without. Each list has 1 to 16 names (`IsList`) and a text of at most 1,040 bytes. The limits are within their
//!   bounds, that of an epoch from `least_epoch_limit` to `most_epoch_limit`.
//! - Law: the settings that any config was given are good (`every_config_is_good`). So each pair of its encryptions and MACs has lengths
//!   (`known_pair`), as `Sealing::make` requires.
#![tactic(auto)]

mod checks;
mod config;
mod error;
pub mod laws;
mod settings;
mod texts;

pub use config::Config;
pub use error::{ConfigLimit, ConfigList, ConfigRefusal, ExtensionFault, ListFault};
pub use settings::Settings;
pub use ssh_model::Strictness;
