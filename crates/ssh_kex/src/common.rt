// The first name of one list that is in another.

ghost use Rattle.std.specs.Prelude.{◌≡◌, ◌↔◌, ◌||◌, IsTrue, IfSome, IfNone};
ghost use Rattle.std.specs.List.{Contains, slice_get};
ghost use Rattle.std.specs.Option.{option_map};
ghost use Rattle.ssh_model.specs.Protocol.KeyExchange.Choice.{client_extension_marker, client_marker, server_extension_marker};
ghost use Rattle.ssh_model.specs.Protocol.KeyExchange.Choice.{server_marker};
ghost use Rattle.ssh_model.specs.Laws.KeyExchange.{HasCommon, HasNoCommon, IsFirstCommon};
ghost use Rattle.ssh_model.specs.Protocol.KeyExchange.Choice.{is_method as passes_method, methods};
ghost use Rattle.ssh_model.specs.Protocol.Wire.DataTypes.{is_text};
ghost use Rattle.ssh_types.specs.Values.{name_text, names};

use crate::lists::{
    CLIENT_EXTENSION_MARKER, CLIENT_MARKER, SERVER_EXTENSION_MARKER, SERVER_MARKER,
};
use ssh_types::{Name, NameList};

// The first name of the client's that is in the server's.
#[tactic(auto, using(crate::proofs::Commons::begun, crate::proofs::Commons::goes_on, crate::proofs::Commons::found, crate::proofs::Commons::ended, crate::proofs::Commons::has_common))]
pub(crate) fn first_common<'a>(client: &NameList<'a>, server: &NameList<'_>) -> Option<Name<'a>>
    ensures found { IfSome result (λ name. IsFirstCommon (names client.now) (names server.now) (name_text name)) }
    ensures common { IfSome result (λ _. HasCommon (names client.now) (names server.now)) }
    ensures none { IfNone result (HasNoCommon (names client.now) (names server.now)) }
{
    for name in client.iter() {
        if server.contains(name.as_bytes()) {
            return Some(name);
        }
    }
    None
}

// The first key exchange method of the client's that is in the server's.
#[tactic(auto, using(crate::proofs::Commons::begun, crate::proofs::Commons::goes_on_methods, crate::proofs::Commons::found_method, crate::proofs::Commons::ended_methods, crate::proofs::Commons::has_common))]
pub(crate) fn first_common_method<'a>(
    client: &NameList<'a>,
    server: &NameList<'_>,
) -> Option<Name<'a>>
    ensures found { IfSome result (λ name. IsFirstCommon (methods (names client.now)) (methods (names server.now)) (name_text name)) }
    ensures common { IfSome result (λ _. HasCommon (methods (names client.now)) (methods (names server.now))) }
    ensures none { IfNone result (HasNoCommon (methods (names client.now)) (methods (names server.now))) }
{
    for name in client.iter() {
        if has_method(server, &name) {
            return Some(name);
        }
    }
    None
}

// The first key exchange method of a list.
#[tactic(auto, using(crate::proofs::Commons::first_is, crate::proofs::Commons::first_after, crate::proofs::Commons::no_first))]
pub(crate) fn first_method<'a>(list: &NameList<'a>) -> Option<Name<'a>>
    ensures { option_map name_text result ≡ slice_get (methods (names list.now)) 0 }
{
    for name in list.iter() {
        if is_method(&name) {
            return Some(name);
        }
    }
    None
}

// The name is a method of the list.
#[tactic(auto, using(crate::proofs::Commons::in_methods, crate::proofs::Commons::not_in_methods))]
fn has_method(list: &NameList<'_>, name: &Name<'_>) -> bool
    ensures { IsTrue result ↔ Contains (methods (names list.now)) (name_text name.now) }
{
    if !is_method(name) {
        return false;
    }
    list.contains(name.as_bytes())
}

// The name is no marker.
fn is_method(name: &Name<'_>) -> bool
    ensures { result ≡ passes_method (name_text name.now) }
{
    !(is_strict_marker(name.as_bytes()) || is_extension_marker(name.as_bytes()))
}

fn is_strict_marker(name: &[u8]) -> bool
    ensures { result ≡ (is_text name.now client_marker || is_text name.now server_marker) }
{
    name == CLIENT_MARKER || name == SERVER_MARKER
}

fn is_extension_marker(name: &[u8]) -> bool
    ensures { result ≡ (is_text name.now client_extension_marker || is_text name.now server_extension_marker) }
{
    name == CLIENT_EXTENSION_MARKER || name == SERVER_EXTENSION_MARKER
}
