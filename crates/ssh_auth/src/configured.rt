// The names of service and methods (RFC 4252), and which methods a server names.

ghost use Rattle.std.specs.Prelude.{◌≡◌};
ghost use Rattle.ssh_model.specs.Protocol.Authentication.Requests.{is_configured as model_configured};
ghost use Rattle.ssh_types.specs.Values.{names};

use ssh_types::NameList;

// The service that is asked for (RFC 4254).
pub(crate) const CONNECTION: &[u8] = b"ssh-connection";

// The names of the two methods that can be named by a server (sections 7 and 8).
pub(crate) const PUBLICKEY: &[u8] = b"publickey";

pub(crate) const PASSWORD: &[u8] = b"password";

// Tests whether the server names the method.
pub(crate) fn is_configured(methods: &NameList<'_>, method: &[u8]) -> bool
    ensures { result ≡ model_configured (names methods.now) method.now }
{
    methods.contains(method)
}
