//! How the end of a server and that of a client are made.

ghost use Rattle.std.specs.Prelude.{◌≡◌, IfErr, IfOk, None, [], false, replicate};
ghost use Rattle.std.specs.List.{list_any};
ghost use Rattle.std.specs.Option.{option_map};
ghost use Rattle.ciphers.specs.Ed25519.Order.{is_small_order};
ghost use Rattle.divrelca.specs.Parts.AesGcm.{aes_gcm};
ghost use Rattle.divrelca_c.specs.Embedded.Roles.{client_ends, server_ends};
ghost use Rattle.divrelca_c.specs.Embedded.Flows.{flows_of, no_flow};
ghost use Rattle.divrelca_c.specs.Embedded.Making.{IsClientError, IsMade, IsMadeError, given_for_client, given_for_server};
ghost use Rattle.ssh_config.specs.Config.{AreGood, settings_given};
ghost use Rattle.ssh_config.specs.Meaning.{settings_of};
ghost use Rattle.ssh_end_machine.specs.Ends.{IsNew, sending_from_line, sending_to};
ghost use Rattle.ssh_end_machine.specs.Sessions.{AreOf};
ghost use Rattle.ssh_end_machine.specs.Stands.{MadeOf, state_of};
ghost use Rattle.ssh_end_machine.specs.declared.step.Step.{Step};
ghost use Rattle.ssh_model.specs.declared.side.Side.TheVariants as sides;
ghost use Rattle.ssh_transport_machine.specs.Padding.{PadsTo};
ghost use Rattle.ssh_types.specs.declared.bounds.TheConstants.{MOST_CHANNELS};

use crate::embedded::flows::Flows;
use crate::embedded::hosts::TrustedHosts;
use crate::embedded::making::{ClientSettings, MakeError, MakeRefusal, Material, ServerSettings};
use crate::embedded::noted::Noted;
use crate::embedded::parts::{
    EmbeddedClient, EmbeddedServer, UserSignatures, client_parts, server_parts,
};
use crate::embedded::state::Embedded;
use crate::embedded::users::Users;
use ciphers::ed25519::is_small_order;
use divrelca::UserKey;
use ssh_end::{ClientRole, End, ServerRole, SuppliedEnd};
use ssh_held::GivenSignatures;
use ssh_packet::{Filler, Sealing};
use ssh_transport::{Config, Role, Supplied};
use std::alloc::{AllocError, Global};
use std::collections::VecDeque;

/// A server, with the values that a program keeps next to it.
pub type Server = Embedded<ServerRole<EmbeddedServer, Users>>;

/// A client, with the values that a program keeps next to it.
pub type Client = Embedded<ClientRole<EmbeddedClient, UserSignatures>>;

/// A server that put out its version line and its first KEXINIT.
///
/// # Errors
///
/// - `Settings`: a setting is refused.
/// - `Memory`: memory was refused.
pub fn open_server(
    alloc: Global,
    settings: &ServerSettings<'_>,
    users: Users,
    material: Material,
) -> Result<Server, MakeError>
    // What is made.
    ensures made { IfOk result (λ made. IsMade server_ends sides.Server (settings_given (given_for_server settings.now)) material made) }
    ensures host { IfOk result (λ made. made.end.role.exchange.host_signer ≡ settings.now.host) }
    ensures users { IfOk result (λ made. made.end.role.own.judge ≡ users) }
    ensures key { IfOk result (λ made. made.key ≡ None) }
    // When it is made, and when not.
    ensures good { IfOk result (λ made. AreGood aes_gcm (given_for_server settings.now)) }
    ensures refused { IfErr result (IsMadeError (given_for_server settings.now)) }
{
    let config = settings.config(alloc)?;
    let parts = server_parts(material.padding, settings.host);
    Ok(Embedded::open(alloc, config, parts, users, material, None)?)
}

/// A client that put out its version line and its first KEXINIT.
///
/// # Errors
///
/// - `Key`: a key of the host is a point of small order.
/// - `Settings`: a setting is refused.
/// - `Memory`: memory was refused.
pub fn open_client(
    alloc: Global,
    settings: &ClientSettings<'_>,
    material: Material,
) -> Result<Client, MakeError>
    // What is made.
    ensures made { IfOk result (λ made. IsMade client_ends sides.Client (settings_given (given_for_client settings.now)) material made) }
    ensures host { IfOk result (λ made. made.end.role.exchange.host_trust.keys.keys.items ≡ settings.now.host_keys.now) }
    ensures unsaid { IfOk result (λ made. made.end.role.exchange.host_trust.book.list.items ≡ []) }
    ensures user { IfOk result (λ made. made.end.role.own.signer.own.signer ≡ settings.now.user) }
    ensures ungiven { IfOk result (λ made. made.end.role.own.signer.list.items ≡ []) }
    ensures key { IfOk result (λ made. made.key ≡ option_map (λ signer. signer.key) settings.now.user) }
    // When it is made, and when not.
    ensures good { IfOk result (λ made. AreGood aes_gcm (given_for_client settings.now)) }
    ensures strong { IfOk result (λ made. list_any is_small_order settings.now.host_keys.now ≡ false) }
    ensures refused { IfErr result (IsClientError settings.now.host_keys.now (given_for_client settings.now)) }
{
    if is_any_of_small_order(settings.host_keys) {
        return Err(MakeRefusal::Key.into());
    }
    let config = settings.config(alloc)?;
    let mut trust = TrustedHosts::new(alloc);
    trust.keys.keys = Vec::from_slice(alloc, settings.host_keys)?;
    let parts = client_parts(material.padding, trust);
    let own = UserKey {
        signer: settings.user,
    };
    let user = GivenSignatures::new(alloc, own);
    Ok(Embedded::open(alloc, config, parts, user, material, settings.key())?)
}

fn is_any_of_small_order(keys: &[[u8; 32]]) -> bool
    ensures { result ≡ list_any is_small_order keys.now }
{
    keys.iter().any(|key| is_small_order(key))
}

impl<R: SuppliedEnd> Embedded<R>
where
    R::Exchange: Supplied,
{
    // An end of these parts that put out its version line and its first KEXINIT. No ask waits, and nobody is noted.
    pub(crate) fn open(
        alloc: Global,
        config: Config<<R::Exchange as Role>::Sealing>,
        parts: <R::Exchange as Supplied>::Parts,
        user: R::User,
        material: Material,
        key: Option<[u8; 51]>,
    ) -> Result<Embedded<R>, AllocError>
        // What it returns.
        ensures opened { IfOk result (λ made. IsNew R.Exchange.Sealing.crypto R.Exchange.SIDE (settings_of config) material.cookie
            material.secret made.end.machine made.end.layers [] made.out.items made.end.sent) }
        ensures placed { IfOk result (λ made. MadeOf R.Exchange.SIDE (settings_of config)
            (λ p. R.is_of made.end.role.exchange made.end.role.own p) (λ p. AreOf p made.end.layers)
            (record { cookie = material.cookie; secret = material.secret }) made.end.machine (state_of made.end) [] made.out.items
            made.end.sent) }
        ensures step { IfOk result (λ made. made.end.step ≡ Step.More) }
        ensures used { IfOk result (λ made. made.end.used ≡ 0) }
        // What is kept besides the end.
        ensures unwritten { IfOk result (λ made. made.gone ≡ 0) }
        ensures waiting { IfOk result (λ made. made.waiting.items ≡ []) }
        ensures nobody { IfOk result (λ made. made.noted.names.items ≡ []) }
        ensures not_all { IfOk result (λ made. made.noted.all ≡ false) }
        ensures flows { IfOk result (λ made. flows_of made.flows ≡ replicate MOST_CHANNELS no_flow) }
        ensures ahead { IfOk result (λ made. made.ahead ≡ None) }
        // What it is made of.
        ensures made { IfOk result (λ made. R.Exchange.is_made_of made.end.role.exchange parts) }
        ensures user { IfOk result (λ made. R.is_made_of made.end.role.own user) }
        ensures key { IfOk result (λ made. made.key ≡ key) }
        // Where the padding comes from.
        ensures padded { IfOk result (λ made. PadsTo R.Exchange.Sealing.crypto R.Exchange.Filler.gives
            (sending_from_line (settings_of config) (R.Exchange.filler_of parts) []) (sending_to made.end made.out.items)) }
    {
        let Material { cookie, secret, .. } = material;
        let mut out = Vec::new(alloc);
        let end = End::<R>::new(alloc, config, parts, user, cookie, secret, &mut out)?;
        let flows = Flows::new(alloc)?;
        Ok(Embedded {
            end,
            out,
            gone: 0,
            key,
            waiting: VecDeque::new(alloc),
            flows,
            noted: Noted::new(alloc),
            ahead: None,
        })
    }
}
