//! The choice in the exchange under way (RFC 4253 section 7.1).

ghost use Rattle.std.specs.Prelude.{◌≡◌, IfOk, false};
ghost use Rattle.ssh_model.specs.Protocol.Wire.Message.{KexInit};
ghost use Rattle.ssh_model.specs.State.TransportLayer.Kept.{IsChosen};
ghost use Rattle.ssh_message.specs.Meaning.{meaning, proposal_meaning};
ghost use Rattle.ssh_kex.specs.Values.{chosen_of, owned_chosen};
ghost use Rattle.ssh_transport_machine.specs.Finishing.{AreKnown, HasChoice, IsChoiceOf, IsKexinit};

use crate::machine::Machine;
use ssh_kex::{Choice, KexLists, OwnedChoice};
use ssh_message::{Message, Proposal, decode};
use ssh_packet::Sealing;
use std::alloc::AllocError;

impl<S: Sealing> Machine<S> {
    /// The algorithms that the peer's KEXINIT, which is kept, and this end's own give. They are chosen anew, so that no memory is
    /// needed.
    pub fn choice(&self) -> Choice<'_>
        requires { HasChoice self.now.kept }
        ensures chosen { IsChosen self.now.kept (chosen_of result) }
        ensures known { AreKnown S.crypto (chosen_of result) }
    {
        let theirs = self.their_proposal();
        self.choice_with(theirs)
    }

    /// A copy of a choice that outlives both KEXINITs.
    ///
    /// # Errors
    ///
    /// Only if memory is refused.
    pub(crate) fn keep_choice(&self, choice: Choice<'_>) -> Result<Box<OwnedChoice>, AllocError>
        ensures { IfOk result (λ kept. owned_chosen kept.value ≡ chosen_of choice.entry) }
    {
        let kept = Box::new(self.alloc, OwnedChoice::from(choice))?;
        Ok(kept)
    }

    // The proposal of the peer's KEXINIT.
    fn their_proposal(&self) -> Proposal<'_>
        requires { HasChoice self.now.kept }
        ensures { IsChoiceOf self.now.kept (proposal_meaning result) }
    {
        match decode(false, self.theirs.as_slice()) {
            Ok(message) => proposal_in(message),
            Err(_) => unreachable!(),
        }
    }

    // The choice with this proposal.
    fn choice_with<'a>(&'a self, theirs: Proposal<'a>) -> Choice<'a>
        requires { IsChoiceOf self.now.kept (proposal_meaning theirs) }
        ensures chosen { IsChosen self.now.kept (chosen_of result) }
        ensures known { AreKnown S.crypto (chosen_of result) }
    {
        ssh_config::laws::every_config_is_good(&self.config);
        let lists = KexLists::from(theirs);
        let own = self.own_lists();
        self.choice_of(&own, &lists)
    }
}

// The proposal of a KEXINIT.
fn proposal_in(message: Message<'_>) -> Proposal<'_>
    requires { IsKexinit (meaning message) }
    ensures { KexInit (proposal_meaning result) ≡ meaning message.entry }
{
    match message {
        Message::KexInit(theirs) => theirs,
        _ => unreachable!(),
    }
}
