ghost use Rattle.std.specs.Prelude.{◌≡◌, ◌↔◌, ◌&&◌, false, not, is_ok, IsTrue, IfOk, IfErr};
ghost use Rattle.ssh_model.specs.Protocol.KeyExchange.Exchanges.{chosen as computed_choice, has_choice};
ghost use Rattle.ssh_model.specs.Protocol.Sessions.Phases.{is_same as are_same};
ghost use Rattle.ssh_model.specs.Laws.KeyExchange.{HasCommon, HasNoCommon, IsChoice, IsFirstCommon, IsFirstWithout, IsRightGuess};
ghost use Rattle.ssh_model.specs.Protocol.KeyExchange.Choice.{Kex, methods};
ghost use Rattle.std.specs.List.{slice_get};
ghost use Rattle.std.specs.Option.{option_map};
ghost use Rattle.ssh_types.specs.Values.{name_text, names};
ghost use Rattle.ssh_kex.specs.Values.{chosen_of, kind_of, lists_of};

use crate::common::{first_common, first_common_method, first_method};
use crate::kind::{Kind, NoCommon};
use crate::lists::KexLists;
use ssh_model::laws;
use ssh_types::{Name, NameList};

/// The algorithms that two ends use, slices of the client's lists (RFC 4253 section 7.1).
#[derive(Clone, Copy, Debug)]
pub struct Choice<'a> {
    /// The key exchange method.
    pub kex: Name<'a>,
    /// The algorithm of the host key.
    pub host: Name<'a>,
    /// The encryption from the client to the server.
    pub enc_cs: Name<'a>,
    /// The encryption from the server to the client.
    pub enc_sc: Name<'a>,
    /// The MAC from the client to the server.
    pub mac_cs: Name<'a>,
    /// The MAC from the server to the client.
    pub mac_sc: Name<'a>,
    /// The compression from the client to the server.
    pub comp_cs: Name<'a>,
    /// The compression from the server to the client.
    pub comp_sc: Name<'a>,
}

/// Chooses of each kind the first name of the client's list that is in the server's (RFC 4253 section 7.1). The markers
/// of strict key exchange are no methods: they are taken out of both kex lists first. It needs no memory.
///
/// # Errors
///
/// `NoCommon` names the first kind, in the order of the lists, of which no name is in both lists.
pub fn choose<'a>(client: &KexLists<'a>, server: &KexLists<'_>) -> Result<Choice<'a>, NoCommon>
    ensures chosen { IfOk result (λ choice. IsChoice (lists_of client.now) (lists_of server.now) (chosen_of choice)) }
    ensures refused { IfErr result (λ refusal. IsFirstWithout (lists_of client.now) (lists_of server.now) (kind_of refusal.kind)) }
    ensures computed { is_ok result ≡ has_choice (lists_of client.now) (lists_of server.now) }
    ensures computed_names { IfOk result (λ choice. computed_choice (lists_of client.now) (lists_of server.now) ≡ chosen_of choice) }
{
    laws::computed_choice();
    all_eight(client, server)
}

// A name of each kind.
fn all_eight<'a>(client: &KexLists<'a>, server: &KexLists<'_>) -> Result<Choice<'a>, NoCommon>
    ensures chosen { IfOk result (λ choice. IsChoice (lists_of client.now) (lists_of server.now) (chosen_of choice)) }
    ensures refused { IfErr result (λ refusal. IsFirstWithout (lists_of client.now) (lists_of server.now) (kind_of refusal.kind)) }
{
    let kex = method(&client.kex, &server.kex)?;
    let host = algorithm(Kind::HostKey, &client.host, &server.host)?;
    let enc_cs = algorithm(Kind::EncCs, &client.enc_cs, &server.enc_cs)?;
    let enc_sc = algorithm(Kind::EncSc, &client.enc_sc, &server.enc_sc)?;
    let mac_cs = algorithm(Kind::MacCs, &client.mac_cs, &server.mac_cs)?;
    let mac_sc = algorithm(Kind::MacSc, &client.mac_sc, &server.mac_sc)?;
    let comp_cs = algorithm(Kind::CompCs, &client.comp_cs, &server.comp_cs)?;
    let comp_sc = algorithm(Kind::CompSc, &client.comp_sc, &server.comp_sc)?;
    Ok(Choice {
        kex,
        host,
        enc_cs,
        enc_sc,
        mac_cs,
        mac_sc,
        comp_cs,
        comp_sc,
    })
}

// The key exchange method.
fn method<'a>(client: &NameList<'a>, server: &NameList<'_>) -> Result<Name<'a>, NoCommon>
    ensures chosen { IfOk result (λ name. IsFirstCommon (methods (names client.now)) (methods (names server.now)) (name_text name)) }
    ensures common { IfOk result (λ _. HasCommon (methods (names client.now)) (methods (names server.now))) }
    ensures kind { IfErr result (λ refusal. kind_of refusal.kind ≡ Kex) }
    ensures none { IfErr result (λ _. HasNoCommon (methods (names client.now)) (methods (names server.now))) }
{
    first_common_method(client, server).ok_or(NoCommon { kind: Kind::Kex })
}

// The algorithm of another kind.
fn algorithm<'a>(
    kind: Kind,
    client: &NameList<'a>,
    server: &NameList<'_>,
) -> Result<Name<'a>, NoCommon>
    ensures chosen { IfOk result (λ name. IsFirstCommon (names client.now) (names server.now) (name_text name)) }
    ensures common { IfOk result (λ _. HasCommon (names client.now) (names server.now)) }
    ensures kind { IfErr result (λ refusal. refusal.kind ≡ kind) }
    ensures none { IfErr result (λ _. HasNoCommon (names client.now) (names server.now)) }
{
    first_common(client, server).ok_or(NoCommon { kind })
}

/// Tests whether a guess of one end is wrong: the first key exchange methods or the first algorithms of the host key
/// differ (RFC 4253 section 7). A guess is a packet that was sent before the lists of the other end were read. The
/// markers of strict key exchange are taken out first.
pub fn guess_wrong(client: &KexLists<'_>, server: &KexLists<'_>) -> bool
    ensures right { (result ≡ false) ↔ IsRightGuess (lists_of client.now) (lists_of server.now) }
    ensures computed { result ≡ not (are_same (slice_get (methods (names client.now.kex)) 0)
        (slice_get (methods (names server.now.kex)) 0) && are_same (slice_get (names client.now.host) 0)
        (slice_get (names server.now.host) 0)) }
{
    let same_method = is_same(first_method(&client.kex), first_method(&server.kex));
    let same_host = is_same(client.host.first(), server.host.first());
    !(same_method && same_host)
}

// The names are the same, or there is none.
fn is_same(one: Option<Name<'_>>, other: Option<Name<'_>>) -> bool
    ensures same { IsTrue result ↔ (option_map name_text one.entry ≡ option_map name_text other.entry) }
    ensures computed { result ≡ are_same (option_map name_text one.entry) (option_map name_text other.entry) }
{
    match (one, other) {
        (Some(one), Some(other)) => one.as_bytes() == other.as_bytes(),
        (None, None) => true,
        _ => false,
    }
}
