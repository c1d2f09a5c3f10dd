//! An end of either role.

ghost use Rattle.std.specs.Prelude.{◌≡◌};
ghost use Rattle.ssh_end_machine.specs.Judging.{succeeds, took_by};
ghost use Rattle.ssh_end_machine.specs.Parts.{IsParty};

use crate::asking::{Ask, AskStep, Fault, session_of, take_ask};
use crate::layers::{LayerAnswer, Layers, TransportView};
use crate::replying::encode_answer;
use crate::role::{EndRole, ServiceVerdict};
use crate::step::{EventKind, TakenMessage};
use ssh_auth::{ClientAnswer, ServerAnswer, UserJudge, UserSigner};
use ssh_model::laws;
use ssh_packet::Sealing;
use ssh_transport::{Role, Transport};
use std::marker::PhantomData;

/// What an end of either role has of its own besides its transport: who judges users, or signs for one. The other of these two is `Nobody`.
#[derive(Drop)]
pub struct Party<X: Role, J: UserJudge + Drop, S: UserSigner + Drop> {
    /// Who judges a server's users.
    pub judge: J,
    /// Who signs for a client's user.
    pub signer: S,
    /// Whose role it is in an exchange of keys.
    pub exchange: PhantomData<X>,
}

impl<X: Role, J: UserJudge + Drop, S: UserSigner + Drop> EndRole for Party<X, J, S> {
    type Exchange = X;

    ghost is_of = { λ exchange role p. IsParty X.SIDE p (X.is_of exchange p) (J.verdicts role.judge) (S.signature_of role.signer) };

    ghost judging = { λ role. J.verdicts role.judge };

    ghost signing = { λ role. S.signature_of role.signer };

    fn judge(&self, transport: &Transport<X>, layers: &mut Layers) -> ServiceVerdict {
        ssh_auth::laws::signed_texts_fit();
        let session = session_of(transport);
        let below = TransportView {
            session: &session,
            blocked: transport.blocked(),
            authenticated: transport.is_authenticated(),
        };
        let probing = layers.authentication.probing();
        match layers.take(&self.judge, &below, transport.payload()) {
            Ok(taken) => {
                let (step, success) = message_step(&taken.answer, probing);
                let message = layers.message(&taken.answer, transport.last_number());
                encode_answer(transport, step, message, success)
            }
            Err(fault) => Err(fault),
        }
    }

    fn ask(
        &self,
        transport: &mut Transport<X>,
        layers: &mut Layers,
        ask: &Ask<'_>,
        out: &mut Vec<u8>,
        sent: &mut Vec<Vec<u8>>,
    ) -> Result<AskStep, Fault> {
        laws::end::ask_is_one_turn::<<X::Sealing as Sealing>::Key>();
        take_ask(transport, layers, &self.signer, ask, out, sent)
    }

    fn has_parts() {
        X::lifts();
    }
}

// How a message was taken that was answered so, where a key probe was outstanding or not, and whether the user is authenticated by it.
fn message_step(answer: &LayerAnswer<'_>, probing: bool) -> (TakenMessage, bool)
    ensures step { result.0 ≡ took_by answer.now probing }
    ensures success { result.1 ≡ succeeds answer.now }
{
    let (channel, event_kind, success) = match *answer {
        LayerAnswer::Server(ServerAnswer::Accepted) => (None, EventKind::Accepted, true),
        LayerAnswer::Server(ServerAnswer::Ignored) => (None, EventKind::Ignored, false),
        LayerAnswer::Client(ClientAnswer::Authenticated(request)) => {
            (None, EventKind::Authenticated(request), true)
        }
        LayerAnswer::Channels(taken) => (taken.channel, EventKind::Message, false),
        _ => (None, EventKind::Message, false),
    };
    let step = TakenMessage {
        channel,
        probing,
        event_kind,
    };
    (step, success)
}
