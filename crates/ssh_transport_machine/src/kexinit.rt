//! The offer of an end in a KEXINIT of its own.

ghost use Rattle.std.specs.Prelude.{◌≡◌, ◌<◌, ◌≤◌, ◌+◌, ◌^◌, ◌++◌, ◌∷◌, [], if◌then◌else◌, IfOk, IsTrue, OnErr, OnOk, codes};
ghost use Rattle.std.specs.Prelude.{length};
ghost use Rattle.ssh_model.specs.Protocol.Bounds.{longest_payload};
ghost use Rattle.ssh_model.specs.Protocol.Wire.Message.{IsWrittenPayload, KexInit};
ghost use Rattle.ssh_model.specs.Laws.Reading.{Writes};
ghost use Rattle.ssh_message.specs.Meaning.{proposal_meaning};
ghost use Rattle.ssh_message.specs.Written.{ProposalFits};
ghost use Rattle.ssh_types.specs.Names.{are_names, names_of};
ghost use Rattle.ssh_types.specs.Values.{name_text, names, names_text as text_of, owned_names};
ghost use Rattle.ssh_config.specs.Meaning.{settings_of};
ghost use Rattle.ssh_transport_machine.specs.Offers.{offer_of, offer_with, offered_kex};

use ssh_config::Config;
use ssh_kex::{extension_marker, strict_marker};
use ssh_message::{Message, Proposal, encode};
use ssh_packet::Sealing;
use ssh_types::{Name, NameList, NameListBuf, Side};
use std::alloc::{AllocError, Global};

/// Puts the payload of a KEXINIT of this end after `out` (RFC 4253 section 7.1): the names of its config in both
/// directions, no compression, no languages and no guess. The first one has its markers last in its kex list: that of
/// extensions if the end takes some, and then that of strict key exchange if the end offers it. It has at most
/// 34,000 bytes.
///
/// # Errors
///
/// Only if an allocation fails, of the kex list or of `out`, which then has its old bytes.
pub fn put_kexinit<S: Sealing>(
    alloc: Global,
    config: &Config<S>,
    side: Side,
    first: bool,
    cookie: &[u8; 16],
    out: &mut Vec<u8>,
) -> Result<(), AllocError>
    ensures written { OnOk result (Writes (IsWrittenPayload (KexInit (offer_of (settings_of config.now) side first cookie.now)))
        out.old.items out.new.items) }
    ensures short { OnOk result (length out.new.items ≤ length out.old.items + longest_payload) }
    ensures kept { OnErr result (out.new.items ≡ out.old.items) }
{
    ssh_config::laws::every_config_is_good(config);
    let kex = kex_names(alloc, config, side, first)?;
    put_offer(config, kex.as_list(), cookie, out)
}

// The names of the kex list. In the first KEXINIT the markers stand last.
fn kex_names<S: Sealing>(
    alloc: Global,
    config: &Config<S>,
    side: Side,
    first: bool,
) -> Result<NameListBuf, AllocError>
    ensures { IfOk result (λ list. owned_names list ≡ offered_kex (settings_of config.now) side first) }
{
    let names = NameListBuf::copied(alloc, &config.kex())?;
    if !first {
        return Ok(names);
    }
    let names = pushed(names, config.takes_extensions(), extension_marker(side))?;
    pushed(names, config.strictness().is_offered(), strict_marker(side))
}

// One name more, where it is wanted.
#[tactic(auto, using(crate::proofs::Offers::marked, crate::proofs::Offers::unmarked))]
fn pushed(mut names: NameListBuf, wanted: bool, name: Name<'_>) -> Result<NameListBuf, AllocError>
    ensures { IfOk result (λ list. owned_names list ≡ owned_names names ++ (if wanted then name_text name.entry ∷ [] else [])) }
{
    if !wanted {
        return Ok(names);
    }
    names.push(name)?;
    Ok(names)
}

// Puts the payload of a KEXINIT with these kex names.
fn put_offer<S: Sealing>(
    config: &Config<S>,
    kex: NameList<'_>,
    cookie: &[u8; 16],
    out: &mut Vec<u8>,
) -> Result<(), AllocError>
    // What the caller must ensure.
    requires few { length (names kex) ≤ 18 }
    requires short { length (text_of kex) < 2 ^ 32 }
    // What it does.
    ensures written { OnOk result (Writes (IsWrittenPayload (KexInit (offer_with (settings_of config.now) (names kex.entry) cookie.now)))
        out.old.items out.new.items) }
    ensures short { OnOk result (length out.new.items ≤ length out.old.items + longest_payload) }
    // If it fails.
    ensures kept { OnErr result (out.new.items ≡ out.old.items) }
{
    ssh_config::laws::every_config_is_good(config);
    encode(&Message::KexInit(proposal(config, kex, cookie)), out)
}

// These kex names with what is the same in every KEXINIT of this end.
fn proposal<'a, S: Sealing>(
    config: &'a Config<S>,
    kex: NameList<'a>,
    cookie: &'a [u8; 16],
) -> Proposal<'a>
    requires { length (text_of kex) < 2 ^ 32 }
    ensures meaning { proposal_meaning result ≡ offer_with (settings_of config.now) (names kex.entry) cookie.now }
    ensures fits { ProposalFits result }
{
    Proposal {
        cookie,
        kex,
        host: config.host(),
        enc_cs: config.encryption(),
        enc_sc: config.encryption(),
        mac_cs: config.mac(),
        mac_sc: config.mac(),
        comp_cs: uncompressed(),
        comp_sc: uncompressed(),
        lang_cs: no_names(),
        lang_sc: no_names(),
        follows: false,
    }
}

/// The compression methods that are offered in both directions: none (RFC 4253 section 6.2).
pub(crate) fn uncompressed() -> NameList<'static>
    ensures names { names result ≡ codes "none" ∷ [] }
    ensures short { length (text_of result) ≤ 1040 }
{
    list_in(b"none")
}

/// The languages that are offered in both directions: none is named (RFC 4253 section 7.1).
pub(crate) fn no_names() -> NameList<'static>
    ensures names { names result ≡ [] }
    ensures short { length (text_of result) ≤ 1040 }
{
    list_in(b"")
}

// The names of a text that has names alone.
fn list_in(text: &'static [u8]) -> NameList<'static>
    requires { IsTrue (are_names text.now) }
    ensures names { names result ≡ names_of text.now }
    ensures text { text_of result ≡ text.now }
{
    NameList::new(text).unwrap()
}
