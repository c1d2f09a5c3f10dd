//! A law of the layers above a transport: what they make of a payload is what an end of a session makes of it. A fact for proofs, at no
//! cost.

ghost use Rattle.std.specs.Prelude.{◌≡◌, ◌≤◌, List, ℕ};
ghost use Rattle.ssh_model.specs.Protocol.Authentication.Requests.{Judge};
ghost use Rattle.ssh_model.specs.State.End.Payloads.{RefusesAbove};
ghost use Rattle.ssh_model.specs.Protocol.Sessions.Parties.{Parties};
ghost use Rattle.ssh_model.specs.Protocol.Sessions.Phases.{Phase.Normal};
ghost use Rattle.ssh_model.specs.declared.refusal.Refusal.{Refusal};
ghost use Rattle.ssh_model.specs.Protocol.Sessions.Turns.{number_of};
ghost use Rattle.ssh_model.specs.State.TransportLayer.Kept.{Transport};
ghost use Rattle.ssh_model.specs.Protocol.Wire.Message.{Msg};
ghost use Rattle.ssh_end_machine.specs.Layers.{Layers, LayersRefuse, LayersTake};
ghost use Rattle.ssh_end_machine.specs.Sessions.{Accepts, AreOf, IsJudgedBy, beneath, end_of};
ghost use Rattle.ssh_end_machine.specs.declared.layers.answer.LayerAnswer.{LayerAnswer};

/// What the layers of an end make of a payload outside an exchange is what that end of these parties makes of it, on a transport that keeps
/// this.
pub fn layers_in_sessions<K>()
    ensures taken { (p : Parties K) (judge : Judge) (s : Transport K) (payload : List ℕ) → s.phase ≡ Normal → 50 ≤ number_of payload →
        (old : Layers) → AreOf p old → IsJudgedBy p judge old.authentication → (message : Msg) (given : LayerAnswer) (new : Layers) →
        LayersTake judge (beneath s) old message payload given new → Accepts p s old message payload given new }
    ensures refused { (p : Parties K) (judge : Judge) (s : Transport K) (payload : List ℕ) → s.phase ≡ Normal → 50 ≤ number_of payload →
        (old : Layers) → AreOf p old → IsJudgedBy p judge old.authentication → (why : Refusal) →
        LayersRefuse judge (beneath s) old payload why → RefusesAbove p (end_of s old) payload why }
{}
