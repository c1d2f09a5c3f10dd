//! Laws of how an end begins. Facts for proofs, at no cost.

ghost use Rattle.std.specs.Prelude.{◌≤◌, false, length};
ghost use Rattle.ssh_model.specs.Protocol.Sessions.TurnClaims.{HasEncoding};
ghost use Rattle.ssh_model.specs.Protocol.Wire.Message.{Msg.UserauthFailure};
ghost use Rattle.ssh_config.specs.Meaning.{settings_of};

use ssh_config::Config;
use ssh_packet::Sealing;

/// The version line of settings has at most 253 bytes without CR LF (RFC 4253 section 4.2), and the methods of authentication fit into a
/// USERAUTH_FAILURE (RFC 4252 section 5.1).
pub fn settings_fit<S: Sealing>(config: &Config<S>)
    ensures line { length (settings_of config.now).line ≤ 253 }
    ensures methods { HasEncoding (UserauthFailure (settings_of config.now).methods false) }
{
    ssh_config::laws::every_config_is_good(config);
    let _ = config.line();
}
