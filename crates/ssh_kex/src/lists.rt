ghost use Rattle.std.specs.Prelude.{◌≡◌, ◌↔◌, IsTrue};
ghost use Rattle.std.specs.List.{Contains};
ghost use Rattle.ssh_model.specs.Protocol.KeyExchange.Choice.{client_extension_marker, client_marker, server_extension_marker};
ghost use Rattle.ssh_model.specs.Protocol.KeyExchange.Choice.{server_marker};
ghost use Rattle.ssh_model.specs.Protocol.KeyExchange.Exchanges.{has_marker};
ghost use Rattle.ssh_model.specs.Protocol.Wire.DataTypes.{is_name};
ghost use Rattle.ssh_model.specs.Protocol.Sessions.Parties.{extension_marker_of, marker_of};
ghost use Rattle.ssh_types.specs.Values.{name_text, names};

use ssh_message::Proposal;
use ssh_model::laws;
use ssh_types::{Name, NameList, Side};

/// The marker of strict key exchange in the kex list of a client.
pub(crate) const CLIENT_MARKER: &[u8] = b"kex-strict-c-v00@openssh.com";

/// The marker of strict key exchange in the kex list of a server.
pub(crate) const SERVER_MARKER: &[u8] = b"kex-strict-s-v00@openssh.com";

/// The marker of extensions in the kex list of a client (RFC 8308 section 2.1).
pub(crate) const CLIENT_EXTENSION_MARKER: &[u8] = b"ext-info-c";

/// The marker of extensions in the kex list of a server.
pub(crate) const SERVER_EXTENSION_MARKER: &[u8] = b"ext-info-s";

/// The ten lists of a KEXINIT, in its order (RFC 4253 section 7.1). Each has the names that its end can do, the one it
/// likes best first.
#[derive(Clone, Copy, Debug)]
pub struct KexLists<'a> {
    /// The key exchange methods, and with them the markers.
    pub kex: NameList<'a>,
    /// The algorithms of host keys.
    pub host: NameList<'a>,
    /// The encryptions from the client to the server.
    pub enc_cs: NameList<'a>,
    /// The encryptions from the server to the client.
    pub enc_sc: NameList<'a>,
    /// The MACs from the client to the server.
    pub mac_cs: NameList<'a>,
    /// The MACs from the server to the client.
    pub mac_sc: NameList<'a>,
    /// The compressions from the client to the server.
    pub comp_cs: NameList<'a>,
    /// The compressions from the server to the client.
    pub comp_sc: NameList<'a>,
    /// The languages from the client to the server, which choose nothing.
    pub lang_cs: NameList<'a>,
    /// The languages from the server to the client, which choose nothing.
    pub lang_sc: NameList<'a>,
}

impl<'a> From<Proposal<'a>> for KexLists<'a> {
    ghost use Rattle.std.specs.Prelude.{◌≡◌};
    ghost use Rattle.ssh_kex.specs.Values.{proposed};

    ghost from_gives = { λ proposal lists. lists ≡ proposed proposal };

    /// The lists of a KEXINIT message, slices of its payload.
    fn from(proposal: Proposal<'a>) -> KexLists<'a> {
        KexLists {
            kex: proposal.kex,
            host: proposal.host,
            enc_cs: proposal.enc_cs,
            enc_sc: proposal.enc_sc,
            mac_cs: proposal.mac_cs,
            mac_sc: proposal.mac_sc,
            comp_cs: proposal.comp_cs,
            comp_sc: proposal.comp_sc,
            lang_cs: proposal.lang_cs,
            lang_sc: proposal.lang_sc,
        }
    }
}

/// The name by which the end of this side offers strict key exchange, in the kex list of its first KEXINIT (OpenSSH's
/// PROTOCOL).
pub fn strict_marker(side: Side) -> Name<'static>
    ensures { name_text result ≡ marker_of side }
{
    match side {
        Side::Client => name_of(CLIENT_MARKER),
        Side::Server => name_of(SERVER_MARKER),
    }
}

/// The name by which the end of this side says, in the kex list of its first KEXINIT, that it takes extensions (RFC 8308
/// section 2.1).
pub fn extension_marker(side: Side) -> Name<'static>
    ensures { name_text result ≡ extension_marker_of side }
{
    match side {
        Side::Client => name_of(CLIENT_EXTENSION_MARKER),
        Side::Server => name_of(SERVER_EXTENSION_MARKER),
    }
}

// The name that a text is.
fn name_of(text: &'static [u8]) -> Name<'static>
    requires { IsTrue (is_name text.now) }
    ensures { name_text result ≡ text.now }
{
    Name::new(text).unwrap()
}

/// Tests whether the kex list has the client's marker of strict key exchange, and whether it has the server's.
#[tactic(auto, using(crate::proofs::Truths::same_truth))]
pub fn markers(lists: &KexLists<'_>) -> (bool, bool)
    ensures client { IsTrue result.0 ↔ Contains (names lists.now.kex) client_marker }
    ensures server { IsTrue result.1 ↔ Contains (names lists.now.kex) server_marker }
    ensures client_computed { result.0 ≡ has_marker client_marker (names lists.now.kex) }
    ensures server_computed { result.1 ≡ has_marker server_marker (names lists.now.kex) }
{
    laws::markers();
    (
        lists.kex.contains(CLIENT_MARKER),
        lists.kex.contains(SERVER_MARKER),
    )
}

/// Tests whether the kex list has the client's marker of extensions, and whether it has the server's (RFC 8308 section 2.1).
#[tactic(auto, using(crate::proofs::Truths::same_truth))]
pub fn extension_markers(lists: &KexLists<'_>) -> (bool, bool)
    ensures client { IsTrue result.0 ↔ Contains (names lists.now.kex) client_extension_marker }
    ensures server { IsTrue result.1 ↔ Contains (names lists.now.kex) server_extension_marker }
    ensures client_computed { result.0 ≡ has_marker client_extension_marker (names lists.now.kex) }
    ensures server_computed { result.1 ≡ has_marker server_extension_marker (names lists.now.kex) }
{
    laws::markers();
    (
        lists.kex.contains(CLIENT_EXTENSION_MARKER),
        lists.kex.contains(SERVER_EXTENSION_MARKER),
    )
}
