ghost use Rattle.ssh_config.specs.Config.{AreGood};
ghost use Rattle.ssh_config.specs.Meaning.{given_of};

use crate::config::Config;
use ssh_packet::Sealing;

/// The settings of every config are good. The version line has at most 255 bytes, the lists have 1 to 16 names, the
/// sealing knows each pair of them, and the limits are within their bounds. A fact for proofs, at no cost.
pub fn every_config_is_good<S: Sealing>(config: &Config<S>)
    ensures { AreGood S.crypto (given_of config.now) }
{}
