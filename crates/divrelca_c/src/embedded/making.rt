//! What ends are made of, and why none is made.

ghost use Rattle.std.specs.Prelude.{◌≡◌, IfErr, IfOk, map};
ghost use Rattle.std.specs.Option.{option_map};
ghost use Rattle.divrelca.specs.Parts.AesGcm.{aes_gcm};
ghost use Rattle.divrelca.specs.Parts.GcmSettings.{gcm_given, standard_given};
ghost use Rattle.divrelca_c.specs.Embedded.Making.{IsMadeError, given_by, given_for_client, given_for_server, method_names, offered};
ghost use Rattle.ssh_config.specs.Config.{AreGood, settings_given};
ghost use Rattle.ssh_config.specs.Meaning.{settings_of};
ghost use Rattle.ssh_types.specs.declared.call_error.CallError.TheVariants.{Refused};

use divrelca::{AesGcm, Ciphers, Ed25519Signer, GcmSettings, TRIES};
use ssh_message::Extension;
use ssh_transport::{Config, ConfigRefusal, Settings};
use ssh_types::CallError;
use std::alloc::Global;

/// The random bytes that an end takes when it is made. Each comes from a good source, and is used once.
#[derive(Clone, Copy)]
pub struct Material {
    /// The cookie of the first KEXINIT (RFC 4253 section 7.1).
    pub cookie: [u8; 16],
    /// The secret; the peer gets its point (RFC 8731 section 3).
    pub secret: [u8; 32],
    /// The key of the stream from which the padding of packets comes (RFC 4253 section 6).
    pub padding: [u8; 32],
}

/// Which methods of authentication a server names and takes (RFC 4252).
#[derive(Clone, Copy)]
pub enum Methods {
    /// `publickey` (section 7).
    Key,
    /// `password` (section 8).
    Password,
    /// Both.
    Both,
}

impl Methods {
    // The names that a server gives.
    fn names(self) -> &'static [&'static [u8]]
        ensures { map (λ name. name.now) result.now ≡ method_names self }
    {
        match self {
            Methods::Key => &[b"publickey"],
            Methods::Password => &[b"password"],
            Methods::Both => &[b"publickey", b"password"],
        }
    }
}

/// The settings of a server besides its users.
#[derive(Clone, Copy)]
pub struct ServerSettings<'a> {
    /// The version of the software (RFC 4253 section 4.2).
    pub software: &'a [u8],
    /// After so many packets sent under the keys of one exchange the next one is due: 64 to 2^31.
    pub epoch_limit: u32,
    /// How many requests for authentication may fail: 1 to 20.
    pub tries: u32,
    /// The methods of authentication.
    pub methods: Methods,
    /// The encryptions.
    pub ciphers: Ciphers,
    /// The key pair of the host.
    pub host: Ed25519Signer,
    /// The names of the algorithms of users' keys, with commas, which a client that takes extensions is told as `server-sig-algs`
    /// (RFC 8308 section 3.1). No bytes: no extension is announced.
    pub user_algorithms: &'a [u8],
}

impl ServerSettings<'_> {
    // The config of a server.
    pub(crate) fn config(&self, alloc: Global) -> Result<Config<AesGcm>, MakeError>
        ensures settings { IfOk result (λ config. settings_of config ≡ settings_given (given_for_server self.now)) }
        ensures good { IfOk result (λ config. AreGood aes_gcm (given_for_server self.now)) }
        ensures refused { IfErr result (IsMadeError (given_for_server self.now)) }
    {
        if self.user_algorithms.is_empty() {
            return config(alloc, &self.silent(), self.ciphers);
        }
        let announced = [Extension {
            name: b"server-sig-algs",
            value: self.user_algorithms,
        }];
        let settings = GcmSettings {
            takes_extensions: true,
            extensions: &announced,
            ..self.silent()
        };
        config(alloc, &settings, self.ciphers)
    }

    // The settings of a server that announces nothing.
    fn silent(&self) -> GcmSettings<'_>
        ensures { gcm_given result ≡ record (standard_given self.now.software.now) {
          epoch_limit = self.now.epoch_limit;
          tries = self.now.tries;
          methods = method_names self.now.methods;
        } }
    {
        GcmSettings {
            epoch_limit: self.epoch_limit,
            tries: self.tries,
            methods: self.methods.names(),
            ..GcmSettings::new(self.software)
        }
    }
}

/// The settings of a client.
#[derive(Clone, Copy)]
pub struct ClientSettings<'a> {
    /// The version of the software (RFC 4253 section 4.2).
    pub software: &'a [u8],
    /// After so many packets sent under the keys of one exchange the next one is due: 64 to 2^31.
    pub epoch_limit: u32,
    /// The encryptions.
    pub ciphers: Ciphers,
    /// The public keys of the host, 32 bytes each. The client trusts the host by any one of them, and without one nobody.
    pub host_keys: &'a [[u8; 32]],
    /// The key pair of the user, if there is one.
    pub user: Option<Ed25519Signer>,
    /// The names of the algorithms of host keys that are offered, the preferred one first. None: ssh-ed25519 alone.
    pub host_algorithms: &'a [&'a [u8]],
    /// Whether the server may announce extensions (RFC 8308 section 2.1).
    pub takes_extensions: bool,
}

impl ClientSettings<'_> {
    // The config of a client, to which tries and methods mean nothing.
    pub(crate) fn config(&self, alloc: Global) -> Result<Config<AesGcm>, MakeError>
        ensures settings { IfOk result (λ config. settings_of config ≡ settings_given (given_for_client self.now)) }
        ensures good { IfOk result (λ config. AreGood aes_gcm (given_for_client self.now)) }
        ensures refused { IfErr result (IsMadeError (given_for_client self.now)) }
    {
        let settings = GcmSettings {
            epoch_limit: self.epoch_limit,
            tries: TRIES,
            host: offered(self.host_algorithms),
            takes_extensions: self.takes_extensions,
            ..GcmSettings::new(self.software)
        };
        config(alloc, &settings, self.ciphers)
    }

    // The public key of the user's key pair, as it goes over the wire.
    pub(crate) fn key(&self) -> Option<[u8; 51]>
        ensures { result ≡ option_map (λ signer. signer.key) self.now.user }
    {
        match &self.user {
            Some(signer) => Some(*signer.public_key()),
            None => None,
        }
    }
}

/// Why no end is made, or why an entry is no user.
#[derive(Clone, Copy)]
pub enum MakeRefusal {
    /// A setting is refused.
    Settings(ConfigRefusal),
    /// A public key is a point of small order, under which anyone can sign.
    Key,
    /// A user has no name, or an empty password.
    Login,
}

/// Why no end is made, or that memory was refused.
pub type MakeError = CallError<MakeRefusal>;

impl From<MakeRefusal> for CallError<MakeRefusal> {
    ghost from_gives = { λ refusal error. error ≡ Refused refusal };

    fn from(refusal: MakeRefusal) -> CallError<MakeRefusal> {
        CallError::Refused(refusal)
    }
}

// The algorithms of host keys that a client offers, of which these are named.
fn offered<'a>(named: &'a [&'a [u8]]) -> &'a [&'a [u8]]
    ensures { map (λ name. name.now) result.now ≡ offered (map (λ name. name.now) named.now) }
{
    if named.is_empty() {
        return &[b"ssh-ed25519"];
    }
    named
}

// The config of either end: AES-GCM, X25519 and strict key exchange, required.
fn config(
    alloc: Global,
    settings: &GcmSettings<'_>,
    ciphers: Ciphers,
) -> Result<Config<AesGcm>, MakeError>
    ensures settings { IfOk result (λ config. settings_of config ≡ settings_given (given_by (gcm_given settings.now) ciphers)) }
    ensures good { IfOk result (λ config. AreGood aes_gcm (given_by (gcm_given settings.now) ciphers)) }
    ensures refused { IfErr result (IsMadeError (given_by (gcm_given settings.now) ciphers)) }
{
    let settings = Settings {
        encryption: ciphers.names(false),
        ..settings.settings()
    };
    match Config::new(alloc, &settings) {
        Ok(config) => Ok(config),
        Err(CallError::Refused(why)) => Err(CallError::Refused(MakeRefusal::Settings(why))),
        Err(CallError::Memory) => Err(CallError::Memory),
    }
}
