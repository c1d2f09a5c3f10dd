//! Laws of what a client signs whose program sets signatures. Facts for proofs, at no cost.

ghost use Rattle.std.specs.Prelude.{◌++◌, List, Result, Some};
ghost use Rattle.divrelca.specs.declared.parts.packet_key.PacketKey.{PacketKey};
ghost use Rattle.divrelca.specs.declared.user_key.UserKey.{UserKey};
ghost use Rattle.divrelca_c.specs.Embedded.Ends.{Client};
ghost use Rattle.divrelca_c.specs.Embedded.Signing.{IsSignedAsk, is_signed_by, own_signatures, signatures_by};
ghost use Rattle.ssh_end_machine.specs.Asking.{DoneInSession};
ghost use Rattle.ssh_end_machine.specs.Places.{added};
ghost use Rattle.ssh_end_machine.specs.Stands.{state_of};
ghost use Rattle.ssh_end_machine.specs.declared.asking.outcome.AskStep.{AskStep};
ghost use Rattle.ssh_end_machine.specs.declared.asking.outcome.Fault.{Fault};
ghost use Rattle.ssh_held.specs.Signing.{EachOwnOrGiven, signing};
ghost use Rattle.ssh_held.specs.declared.signing.GivenSignatures.{GivenSignatures};
ghost use Rattle.ssh_model.specs.Laws.Supplied.{SignsSettled};
ghost use Rattle.ssh_model.specs.Protocol.Sessions.Items as session;
ghost use Rattle.ssh_model.specs.Protocol.Sessions.Items.{Item};
ghost use Rattle.ssh_model.specs.Protocol.Sessions.Parties.{Parties};
ghost use Rattle.ssh_model.specs.Protocol.Sessions.Turns.{EndRun};
ghost use Rattle.ssh_model.specs.State.End.State.{EndState};
ghost use Rattle.ssh_model.specs.State.End.Summary.{EndSumsUp};
ghost use Rattle.ssh_model.specs.declared.side.Side.TheVariants as sides;
ghost use Rattle.ssh_transport_machine.specs.Puts.{Outs};

use divrelca::AesGcm;
use ssh_packet::Sealing;

/// Each signature that a client sent is one by its user's own key over the text of that moment, or one that the program set for this very text,
/// if each text that was signed had one. This holds in every run of one end, whoever its peer is.
pub fn signed_by_program<K>()
    ensures { (p : Parties K) (signer : GivenSignatures UserKey) (h : List Item) →
        EndRun (signing (signatures_by signer) p) sides.Client h →
        SignsSettled (signing (signatures_by signer) p) (is_signed_by signer) h →
        EachOwnOrGiven (signing (signatures_by signer) p) (own_signatures signer.own) signer.list.items h }
{
    ssh_held::signing_laws::own_or_given::<K>();
}

/// If each text that a client signed had a signature, it is so after an ask that is signed (`IsSignedAsk`), such as each that `dv_ask_now` and
/// `dv_work` make. What else a client does signs nothing (`ssh_held::signing_laws::settled_goes_on`).
pub fn signed_goes_on()
    ensures { (p : Parties PacketKey) (client : Client) (history : List Item) (asked : session.Ask) (given : Result AskStep Fault)
        (new : EndState PacketKey) (o : Outs) → EndSumsUp p sides.Client history (state_of client.end) → IsSignedAsk client (Some asked) →
        (x : DoneInSession p sides.Client history (state_of client.end) asked given new o) →
        SignsSettled p (is_signed_by client.end.role.own.signer) history → SignsSettled p (is_signed_by client.end.role.own.signer)
        (added p sides.Client history (state_of client.end) asked given new o x ++ history) }
{
    ssh_held::signing_laws::settled_goes_on::<<AesGcm as Sealing>::Key>();
}
