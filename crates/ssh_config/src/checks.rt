// Which settings are good.

ghost use Rattle.std.specs.Prelude.{◌≡◌, map, OnOk, IfErr};
ghost use Rattle.std.specs.List.{list_all, list_any};
ghost use Rattle.std.specs.Option.{option_copied};
ghost use Rattle.ssh_model.specs.Protocol.Wire.DataTypes.{is_name as passes_name};
ghost use Rattle.ssh_model.specs.Protocol.Wire.Line.{is_text_byte, is_version_byte};
ghost use Rattle.ssh_config.specs.Checks.{are_comments as pass_comments, are_distinct as pass_distinct, fits_line as passes_fit};
ghost use Rattle.ssh_config.specs.Checks.{has_line as passes_line, is_epoch_limit as passes_epoch_limit};
ghost use Rattle.ssh_config.specs.Checks.{is_kex_method as passes_kex_method, is_software as passes_software};
ghost use Rattle.ssh_config.specs.Checks.{is_tries as passes_tries, is_user_method as passes_user_method, knows as passes_pair};
ghost use Rattle.ssh_config.specs.Checks.{knows_each as passes_each, knows_pairs as pass_pairs};
ghost use Rattle.ssh_config.specs.Checks.{each_fault as fault_of_each, extension_fault as fault_of_extensions};
ghost use Rattle.ssh_config.specs.Checks.{number_fault as fault_of_number, lists_fault as fault_of_lists};
ghost use Rattle.ssh_config.specs.Checks.{name_fault as fault_of_names, pair_fault as fault_of_pairs};
ghost use Rattle.ssh_config.specs.Checks.{texts_fault as fault_of_texts, told_unless as told};
ghost use Rattle.ssh_message.specs.Announced.{extension_of};
ghost use Rattle.ssh_config.specs.Config.{AreGood, extension_names, is_same, is_short_value};
ghost use Rattle.ssh_config.specs.Errors.{IsRefused};
ghost use Rattle.ssh_config.specs.Values.{given};

use crate::error::{ConfigLimit, ConfigList, ConfigRefusal, ExtensionFault, ListFault};
use crate::settings::Settings;
use ssh_message::Extension;
use ssh_packet::Sealing;
use ssh_types::Name;
use ssh_types::bounds::{
    LEAST_EPOCH_LIMIT, LONGEST_EXTENSION_VALUE, MOST_EPOCH_LIMIT, MOST_EXTENSIONS, MOST_NAMES,
};

// The most requests for authentication that a server lets fail: RFC 4252 section 4 suggests 20.
const MOST_TRIES: u32 = 20;

// Refuses settings that are not good, by the lowest refusal that holds.
pub(crate) fn check<S: Sealing>(settings: &Settings<'_>) -> Result<(), ConfigRefusal>
    ensures good { OnOk result (AreGood S.crypto (given settings.now)) }
    ensures refused { IfErr result (λ refusal. IsRefused S.crypto (given settings.now) refusal) }
{
    if !has_line(settings.software, settings.comments) {
        return Err(ConfigRefusal::BadSoftware);
    }
    if let Some((list, fault)) = lists_fault::<S>(settings) {
        return Err(ConfigRefusal::BadList { list, fault });
    }
    if !is_epoch_limit(settings.epoch_limit) {
        return Err(ConfigRefusal::BadLimit(ConfigLimit::EpochLimit));
    }
    if !is_tries(settings.tries) {
        return Err(ConfigRefusal::BadLimit(ConfigLimit::Tries));
    }
    if let Some(fault) = extension_fault(settings.takes_extensions, settings.extensions) {
        return Err(ConfigRefusal::BadExtension(fault));
    }
    Ok(())
}

// The software and the comments make a version line.
fn has_line(software: &[u8], comments: Option<&[u8]>) -> bool
    ensures { result ≡ passes_line software.now (option_copied comments.entry) }
{
    let named = is_software(software);
    let commented = are_comments(comments);
    let short = fits_line(software, comments);
    named && commented && short
}

// At least one byte, each one that a version may have.
fn is_software(text: &[u8]) -> bool
    ensures { result ≡ passes_software text.now }
{
    let printable = are_version_bytes(text);
    text.len() >= 1 && printable
}

fn are_version_bytes(text: &[u8]) -> bool
    ensures { result ≡ list_all is_version_byte text.now }
{
    text.iter().all(|b| *b >= 33 && *b <= 126 && *b != b'-')
}

// Each byte is one that a line may have.
fn are_comments(comments: Option<&[u8]>) -> bool
    ensures { result ≡ pass_comments (option_copied comments.entry) }
{
    match comments {
        None => true,
        Some(text) => are_text_bytes(text),
    }
}

fn are_text_bytes(text: &[u8]) -> bool
    ensures { result ≡ list_all is_text_byte text.now }
{
    text.iter().all(|b| *b != 0 && *b != b'\n' && *b != b'\r')
}

// The line has at most 255 bytes with CR LF: eight before the software, and a space before comments.
fn fits_line(software: &[u8], comments: Option<&[u8]>) -> bool
    ensures { result ≡ passes_fit software.now (option_copied comments.entry) }
{
    match comments {
        None => software.len() <= 245,
        Some(text) => software.len() <= 244 && text.len() <= 244 - software.len(),
    }
}

// The first fault of the lists. Pairs are tried only if both lists are short.
fn lists_fault<S: Sealing>(settings: &Settings<'_>) -> Option<(ConfigList, ListFault)>
    ensures { result ≡ fault_of_lists S.crypto (given settings.now) }
{
    match each_fault(settings).or(name_fault(settings)) {
        Some(fault) => Some(fault),
        None => pair_fault::<S>(settings),
    }
}

// The first fault of a list's texts.
fn each_fault(settings: &Settings<'_>) -> Option<(ConfigList, ListFault)>
    ensures { result ≡ fault_of_each (given settings.now) }
{
    let kex = texts_fault(ConfigList::Kex, settings.kex);
    let host = texts_fault(ConfigList::Host, settings.host);
    let encryption = texts_fault(ConfigList::Encryption, settings.encryption);
    let mac = texts_fault(ConfigList::Mac, settings.mac);
    let methods = texts_fault(ConfigList::Methods, settings.methods);
    kex.or(host).or(encryption.or(mac).or(methods))
}

// The fault in the texts of a list.
fn texts_fault(list: ConfigList, texts: &[&[u8]]) -> Option<(ConfigList, ListFault)>
    ensures { result ≡ fault_of_texts list (map (λ text. text.now) texts.now) }
{
    let some = told_unless(texts.len() >= 1, (list, ListFault::Empty));
    let most = told_unless(texts.len() <= MOST_NAMES, (list, ListFault::TooMany));
    let names = told_unless(are_names(texts), (list, ListFault::NotName));
    some.or(most).or(names)
}

// The fault, unless the test passed.
fn told_unless<F: Copy>(passed: bool, fault: F) -> Option<F>
    ensures { result ≡ told passed fault }
{
    if passed { None } else { Some(fault) }
}

fn are_names(texts: &[&[u8]]) -> bool
    ensures { result ≡ list_all passes_name (map (λ text. text.now) texts.now) }
{
    texts.iter().all(|text| is_name(text))
}

fn is_name(text: &[u8]) -> bool
    ensures { result ≡ passes_name text.now }
{
    Name::new(text).is_some()
}

// The first list with a name that is not known.
fn name_fault(settings: &Settings<'_>) -> Option<(ConfigList, ListFault)>
    ensures { result ≡ fault_of_names (given settings.now) }
{
    let kex = are_kex_methods(settings.kex);
    let methods = are_user_methods(settings.methods);
    let kex = told_unless(kex, (ConfigList::Kex, ListFault::Unknown));
    kex.or(told_unless(methods, (ConfigList::Methods, ListFault::Unknown)))
}

// A pair that the sealing does not know.
fn pair_fault<S: Sealing>(settings: &Settings<'_>) -> Option<(ConfigList, ListFault)>
    ensures { result ≡ fault_of_pairs S.crypto (given settings.now) }
{
    let known = knows_pairs::<S>(settings.encryption, settings.mac);
    told_unless(known, (ConfigList::Encryption, ListFault::UnknownPair))
}

fn are_kex_methods(names: &[&[u8]]) -> bool
    ensures { result ≡ list_all passes_kex_method (map (λ name. name.now) names.now) }
{
    names.iter().all(|name| is_kex_method(name))
}

// One of the two names of RFC 8731.
fn is_kex_method(name: &[u8]) -> bool
    ensures { result ≡ passes_kex_method name.now }
{
    name == b"curve25519-sha256".as_slice() || name == b"curve25519-sha256@libssh.org".as_slice()
}

fn are_user_methods(names: &[&[u8]]) -> bool
    ensures { result ≡ list_all passes_user_method (map (λ name. name.now) names.now) }
{
    names.iter().all(|name| is_user_method(name))
}

// A method of RFC 4252 sections 7 and 8.
fn is_user_method(name: &[u8]) -> bool
    ensures { result ≡ passes_user_method name.now }
{
    name == b"publickey".as_slice() || name == b"password".as_slice()
}

// Each encryption goes with each MAC.
fn knows_pairs<S: Sealing>(encryption: &[&[u8]], mac: &[&[u8]]) -> bool
    ensures { result ≡ pass_pairs S.crypto (map (λ name. name.now) encryption.now) (map (λ name. name.now) mac.now) }
{
    encryption.iter().all(|enc| knows_each::<S>(enc, mac))
}

// The encryption goes with each MAC.
fn knows_each<S: Sealing>(enc: &[u8], macs: &[&[u8]]) -> bool
    ensures { result ≡ passes_each S.crypto (map (λ name. name.now) macs.now) enc.now }
{
    macs.iter().all(|mac| knows::<S>(enc, mac))
}

fn knows<S: Sealing>(enc: &[u8], mac: &[u8]) -> bool
    ensures { result ≡ passes_pair S.crypto enc.now mac.now }
{
    S::lengths(enc, mac).is_some()
}

// So many packets may be the limit of an epoch.
fn is_epoch_limit(packets: u32) -> bool
    ensures { result ≡ passes_epoch_limit packets }
{
    packets >= LEAST_EPOCH_LIMIT && packets <= MOST_EPOCH_LIMIT
}

// So many failed requests may be the limit.
fn is_tries(tries: u32) -> bool
    ensures { result ≡ passes_tries tries }
{
    tries >= 1 && tries <= MOST_TRIES
}

// The fault in the extensions. They are compared with one another only if they are few.
fn extension_fault(taken: bool, extensions: &[Extension<'_>]) -> Option<ExtensionFault>
    ensures { result ≡ fault_of_extensions taken (map extension_of extensions.now) }
{
    if let Some(fault) = number_fault(taken, extensions) {
        return Some(fault);
    }
    let names = told_unless(have_names(extensions), ExtensionFault::NotName);
    let values = told_unless(have_short_values(extensions), ExtensionFault::LongValue);
    let once = told_unless(are_distinct(extensions), ExtensionFault::NameTwice);
    names.or(values.or(once))
}

// There are none if none are taken, and at most `MOST_EXTENSIONS`.
fn number_fault(taken: bool, extensions: &[Extension<'_>]) -> Option<ExtensionFault>
    ensures { result ≡ fault_of_number taken (map extension_of extensions.now) }
{
    let some = told_unless(taken || extensions.is_empty(), ExtensionFault::NotTaken);
    let most = told_unless(extensions.len() <= MOST_EXTENSIONS, ExtensionFault::TooMany);
    some.or(most)
}

fn have_names(extensions: &[Extension<'_>]) -> bool
    ensures { result ≡ list_all passes_name (extension_names (map extension_of extensions.now)) }
{
    extensions.iter().all(|extension| is_name(extension.name))
}

fn have_short_values(extensions: &[Extension<'_>]) -> bool
    ensures { result ≡ list_all is_short_value (map extension_of extensions.now) }
{
    extensions.iter().all(|extension| extension.value.len() <= LONGEST_EXTENSION_VALUE)
}

// No two have one name.
fn are_distinct(extensions: &[Extension<'_>]) -> bool
    ensures { result ≡ pass_distinct (extension_names (map extension_of extensions.now)) }
{
    for place in 0..extensions.len() {
        if is_among(extensions[place].name, &extensions[place + 1..]) {
            return false;
        }
    }
    true
}

// One of them has this name.
fn is_among(name: &[u8], extensions: &[Extension<'_>]) -> bool
    ensures { result ≡ list_any (is_same name.now) (extension_names (map extension_of extensions.now)) }
{
    extensions.iter().any(|extension| name == extension.name)
}
