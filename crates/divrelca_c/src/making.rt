//! The settings and users that C passes for a new end, and the end that is made from them.

ghost use Rattle.std.specs.Prelude.{◌≡◌, ◌++◌, All, IfErr, IfOk, None, [], ◌∷◌, false, length, map, negsuc, pos, true};
ghost use Rattle.divrelca_c.specs.Making.{IsClientFault, IsClientOf, IsLogin, IsServerFault, IsServerOf, IsTaken, is_choice, is_seed};
ghost use Rattle.divrelca_c.specs.Making.{ciphers_by, code_at, are_keys, entry_by, entry_fault, keys_of, login_by, login_fault, material_by, methods_by};
ghost use Rattle.divrelca_c.specs.Making.{client_fault, server_fault, user_by, users_fault};
ghost use Rattle.divrelca_c.specs.Embedded.Users.{entry_of};
ghost use Rattle.divrelca.specs.Parts.Ed25519.{signer_of};

use crate::bytes::{DvClientSettings, DvMaterial, DvServerSettings, DvUser};
use crate::codes::{BAD_CIPHERS, BAD_KEY, BAD_LOGIN, BAD_METHODS, BAD_SIZE, code_made};
use crate::embedded::{
    Client, ClientSettings, Login, Material, Methods, Server, ServerSettings, Users, open_client,
    open_server,
};
use divrelca::{Ciphers, Ed25519Signer, PasswordHash};
use std::alloc::Global;

// The bytes of the settings of a server, and of those of a client.
const SERVER_SETTINGS: usize = 88;

const CLIENT_SETTINGS: usize = 88;

/// How many keys of its host a client trusts at most.
pub const MOST_HOST_KEYS: usize = 16;

// As many as DV_MOST_HOST_KEYS of the header.
const _: () = prove!(MOST_HOST_KEYS == 16);

/// A key of 32 bytes.
///
/// # Errors
///
/// `BAD_KEY`: there are more or fewer bytes.
pub fn key_in(bytes: &[u8]) -> Result<[u8; 32], i32>
    ensures key { IfOk result (λ key. key ≡ bytes.now) }
    ensures size { IfOk result (λ key. length bytes.now ≡ 32) }
    ensures refused { IfErr result (λ code. length bytes.now ≡ 32 → ⊥) }
    ensures code { IfErr result (λ code. code ≡ BAD_KEY) }
{
    <[u8; 32]>::try_from(bytes).map_err(|_| BAD_KEY)
}

/// The keys of a host, 32 bytes each, one after the other; none, if the program says itself which host keys are trusted.
///
/// # Errors
///
/// `BAD_KEY`: there are more than `MOST_HOST_KEYS`, or the last one has fewer bytes.
pub fn host_keys_in(bytes: &[u8]) -> Result<&[[u8; 32]], i32>
    ensures keys { IfOk result (λ keys. keys.now ≡ keys_of bytes.now) }
    ensures count { IfOk result (λ keys. are_keys bytes.now ≡ true) }
    ensures refused { IfErr result (λ code. are_keys bytes.now ≡ false) }
    ensures code { IfErr result (λ code. code ≡ BAD_KEY) }
{
    let (keys, rest) = bytes.as_chunks::<32>();
    if !rest.is_empty() || keys.len() > MOST_HOST_KEYS {
        return Err(BAD_KEY);
    }
    Ok(keys)
}

/// The key pair of a seed of 32 bytes.
///
/// # Errors
///
/// `BAD_KEY`: there are more or fewer bytes.
pub fn signer_in(seed: &[u8]) -> Result<Ed25519Signer, i32>
    ensures signer { IfOk result (λ signer. signer ≡ signer_of seed.now) }
    ensures size { IfOk result (λ signer. length seed.now ≡ 32) }
    ensures refused { IfErr result (λ code. length seed.now ≡ 32 → ⊥) }
    ensures code { IfErr result (λ code. code ≡ BAD_KEY) }
{
    let seed = key_in(seed)?;
    Ok(Ed25519Signer::new(&seed))
}

/// The key pair of a user, or none if there are no bytes.
///
/// # Errors
///
/// `BAD_KEY`: there are bytes, and not 32.
pub fn user_in(seed: &[u8]) -> Result<Option<Ed25519Signer>, i32>
    ensures user { IfOk result (λ user. user ≡ user_by seed.now) }
    ensures size { IfOk result (λ user. is_seed seed.now ≡ true) }
    ensures refused { IfErr result (λ code. is_seed seed.now ≡ false) }
    ensures code { IfErr result (λ code. code ≡ BAD_KEY) }
{
    if seed.is_empty() {
        Ok(None)
    } else {
        Ok(Some(signer_in(seed)?))
    }
}

/// The methods of authentication, by their bits: 1 for keys, 2 for passwords.
///
/// # Errors
///
/// `BAD_METHODS`: no bit is set, or another one.
pub fn methods_in(methods: u32) -> Result<Methods, i32>
    ensures methods { IfOk result (λ made. made ≡ methods_by methods) }
    ensures choice { IfOk result (λ made. is_choice methods ≡ true) }
    ensures refused { IfErr result (λ code. is_choice methods ≡ false) }
    ensures code { IfErr result (λ code. code ≡ BAD_METHODS) }
{
    match methods {
        1 => Ok(Methods::Key),
        2 => Ok(Methods::Password),
        3 => Ok(Methods::Both),
        _ => Err(BAD_METHODS),
    }
}

/// The encryptions, by their bits: 1 for aes128-gcm, 2 for aes256-gcm.
///
/// # Errors
///
/// `BAD_CIPHERS`: no bit is set, or another one.
pub fn ciphers_in(ciphers: u32) -> Result<Ciphers, i32>
    ensures ciphers { IfOk result (λ made. made ≡ ciphers_by ciphers) }
    ensures choice { IfOk result (λ made. is_choice ciphers ≡ true) }
    ensures refused { IfErr result (λ code. is_choice ciphers ≡ false) }
    ensures code { IfErr result (λ code. code ≡ BAD_CIPHERS) }
{
    match ciphers {
        1 => Ok(Ciphers::Aes128),
        2 => Ok(Ciphers::Aes256),
        3 => Ok(Ciphers::Both),
        _ => Err(BAD_CIPHERS),
    }
}

// What lets a user in.
fn login_in(user: &DvUser<'_>) -> Result<Login, i32>
    // What it returns.
    ensures login { IfOk result (λ made. made ≡ login_by user.now) }
    ensures taken { IfOk result (λ made. IsLogin user.now) }
    ensures faultless { IfOk result (λ made. login_fault user.now ≡ None) }
    // If it fails.
    ensures refused { IfErr result (λ code. (login_fault user.now ≡ None → ⊥) × (code ≡ code_at (login_fault user.now))) }
    ensures fails { IfErr result (λ code. code ≡ pos 0 → ⊥) }
{
    match user.kind {
        1 => Ok(Login::Key(key_in(user.login)?)),
        2 if !user.login.is_empty() => Ok(Login::Password(PasswordHash::new(user.login))),
        _ => Err(BAD_LOGIN),
    }
}

// One user more.
fn add_user(users: &mut Users, alloc: Global, user: &DvUser<'_>) -> Result<(), i32>
    // What it does.
    ensures added { IfOk result (λ done. map entry_of users.new.list.items ≡ map entry_of users.old.list.items ++ entry_by user.now ∷ []) }
    ensures book { users.new.book ≡ users.old.book }
    ensures taken { IfOk result (λ done. IsTaken user.now) }
    ensures faultless { IfOk result (λ done. entry_fault user.now ≡ None) }
    // If it fails.
    ensures refused { IfErr result (λ code. code ≡ code_at (entry_fault user.now)) }
    ensures fails { IfErr result (λ code. code ≡ pos 0 → ⊥) }
{
    let login = login_in(user)?;
    users.add(alloc, user.name, login).map_err(code_made)
}

/// The users, each with a key or a password.
///
/// # Errors
///
/// - `BAD_LOGIN`: an entry is of neither kind, or its name or its password is empty.
/// - `BAD_KEY`: a key does not have 32 bytes, or is a point of small order.
/// - `MEMORY`: memory was refused.
pub fn users_in(alloc: Global, given: &[DvUser<'_>]) -> Result<Users, i32>
    // What it returns.
    ensures users { IfOk result (λ users. map entry_of users.list.items ≡ map entry_by given.now) }
    ensures unsaid { IfOk result (λ users. users.book.list.items ≡ []) }
    ensures taken { IfOk result (λ users. All IsTaken given.now) }
    ensures faultless { IfOk result (λ users. users_fault given.now ≡ None) }
    // Where it fails: the first fault, unless memory was refused before.
    ensures refused { IfErr result (λ code. (code ≡ negsuc 0 → ⊥) → code ≡ code_at (users_fault given.now)) }
    ensures fails { IfErr result (λ code. code ≡ pos 0 → ⊥) }
{
    let mut users = Users::new(alloc);
    for user in given {
        add_user(&mut users, alloc, user)?;
    }
    Ok(users)
}

// The random bytes of a new end.
fn material_in(first: &DvMaterial, padding: &[u8; 32]) -> Material
    ensures { result ≡ material_by first.now padding.now }
{
    Material {
        cookie: first.cookie,
        secret: first.secret,
        padding: *padding,
    }
}

/// A server from the values that C passes.
///
/// # Errors
///
/// - `BAD_SIZE`: the settings have another size.
/// - Those of `methods_in`, `ciphers_in`, `signer_in` and `users_in`.
/// - Those of `code_made`: no server is made of them.
pub fn server_in(
    alloc: Global,
    given: &DvServerSettings<'_>,
    first: &DvMaterial,
    padding: &[u8; 32],
) -> Result<Server, i32>
    ensures made { IfOk result (λ made. IsServerOf given.now (material_by first.now padding.now) made) }
    ensures faultless { IfOk result (λ made. server_fault given.now ≡ None) }
    ensures refused { IfErr result (IsServerFault given.now) }
    ensures fails { IfErr result (λ code. code ≡ pos 0 → ⊥) }
{
    if given.size != SERVER_SETTINGS {
        return Err(BAD_SIZE);
    }
    let settings = ServerSettings {
        software: given.software,
        epoch_limit: given.epoch_limit,
        tries: given.tries,
        methods: methods_in(given.methods)?,
        ciphers: ciphers_in(given.ciphers)?,
        host: signer_in(given.host_seed)?,
        user_algorithms: given.user_algorithms,
    };
    let users = users_in(alloc, given.users)?;
    match open_server(alloc, &settings, users, material_in(first, padding)) {
        Ok(server) => Ok(server),
        Err(error) => Err(code_made(error)),
    }
}

/// A client from the values that C passes.
///
/// # Errors
///
/// - `BAD_SIZE`: the settings have another size.
/// - Those of `user_in`, `ciphers_in` and `host_keys_in`.
/// - Those of `code_made`: no client is made of them.
pub fn client_in(
    alloc: Global,
    given: &DvClientSettings<'_>,
    first: &DvMaterial,
    padding: &[u8; 32],
) -> Result<Client, i32>
    ensures made { IfOk result (λ made. IsClientOf given.now (material_by first.now padding.now) made) }
    ensures faultless { IfOk result (λ made. client_fault given.now ≡ None) }
    ensures refused { IfErr result (IsClientFault given.now) }
    ensures fails { IfErr result (λ code. code ≡ pos 0 → ⊥) }
{
    if given.size != CLIENT_SETTINGS {
        return Err(BAD_SIZE);
    }
    let user = user_in(given.user_seed)?;
    let settings = ClientSettings {
        software: given.software,
        epoch_limit: given.epoch_limit,
        ciphers: ciphers_in(given.ciphers)?,
        host_keys: host_keys_in(given.host_key)?,
        user,
        host_algorithms: given.host_algorithms,
        takes_extensions: given.takes_extensions,
    };
    match open_client(alloc, &settings, material_in(first, padding)) {
        Ok(client) => Ok(client),
        Err(error) => Err(code_made(error)),
    }
}
