//! How an end is made.

ghost use Rattle.std.specs.Prelude.{◌≡◌, ◌∷◌, IfOk, None, OnErr, []};
ghost use Rattle.ssh_config.specs.Meaning.{settings_of};
ghost use Rattle.ssh_transport_machine.specs.Padding.{PadsTo};
ghost use Rattle.ssh_end_machine.specs.WithChannels.{channels_with};
ghost use Rattle.ssh_end_machine.specs.Ends.{IsNew, sending_from_line, sending_to};
ghost use Rattle.ssh_end_machine.specs.Sessions.{AreOf, end_of};
ghost use Rattle.ssh_end_machine.specs.Stands.{MadeOf};

use crate::end::End;
use crate::layers::Layers;
use crate::role::SuppliedEnd;
use crate::step::Step;
use crate::turn::SentInTurn;
use ssh_config::Config;
use ssh_model::laws;
use ssh_packet::Sealing;
use ssh_transport::{Role, Supplied, Transport};
use std::alloc::{AllocError, Global};

impl<R: SuppliedEnd> End<R>
where
    R::Exchange: Supplied,
{
    /// An end that has put out its version line and its first KEXINIT (RFC 4253 sections 4.2 and 7.1), with this cookie and the point of
    /// this secret. Draw both fresh from a good source of random bytes.
    ///
    /// # Errors
    ///
    /// Only if memory is refused: nothing is put out, and the values handed in are dropped.
    pub fn new(
        alloc: Global,
        config: Config<<R::Exchange as Role>::Sealing>,
        parts: <R::Exchange as Supplied>::Parts,
        user: R::User,
        cookie: [u8; 16],
        secret: [u8; 32],
        out: &mut Vec<u8>,
    ) -> Result<End<R>, AllocError>
        // What is put out, with which padding, and how the end stands.
        ensures opened { IfOk result (λ end. IsNew R.Exchange.Sealing.crypto R.Exchange.SIDE (settings_of config) cookie secret end.machine
            end.layers out.old.items out.new.items end.sent) }
        ensures padded { IfOk result (λ end. PadsTo R.Exchange.Sealing.crypto R.Exchange.Filler.gives
            (sending_from_line (settings_of config) (R.Exchange.filler_of parts) out.old.items) (sending_to end out.new.items)) }
        ensures step { IfOk result (λ end. end.step ≡ Step.More) }
        ensures used { IfOk result (λ end. end.used ≡ 0) }
        ensures channels { IfOk result (λ end. end.channels ≡ channels_with end.sent (None ∷ [])) }
        // It is made of what was handed in, and stands at the first place of a run.
        ensures made { IfOk result (λ end. R.Exchange.is_made_of end.role.exchange parts) }
        ensures user { IfOk result (λ end. R.is_made_of end.role.own user) }
        ensures placed { IfOk result (λ end. MadeOf R.Exchange.SIDE (settings_of config) (λ p. R.is_of end.role.exchange end.role.own p)
            (λ p. AreOf p end.layers)
            (record { cookie = cookie; secret = secret }) end.machine (end_of end.machine.kept end.layers) out.old.items out.new.items
            end.sent) }
        // If it fails.
        ensures out { OnErr result (out.new.items ≡ out.old.items) }
    {
        laws::end::openings::<<<R::Exchange as Role>::Sealing as Sealing>::Key>();
        crate::turn_laws::new_ends_read::<<<R::Exchange as Role>::Sealing as Sealing>::Key>();
        laws::any_peer::against_any_peer::<<<R::Exchange as Role>::Sealing as Sealing>::Key>();
        <R::Exchange as Role>::lifts();
        R::has_parts();
        ssh_transport::laws::is_material(&cookie, &secret);
        crate::opening_laws::settings_fit(&config);
        let login = R::login(alloc, &config)?;
        let layers = Layers::new(alloc, login)?;
        let role = R::of(user);
        let mut sent = Vec::new(alloc);
        let transport = Transport::new(alloc, config, parts, cookie, secret, out, &mut sent)?;
        Ok(End {
            transport,
            role,
            layers,
            sent: SentInTurn {
                payloads: sent,
                numbers: Vec::new(alloc),
            },
            step: Step::More,
            used: 0,
            channel: [None],
        })
    }
}
