ghost use Rattle.std.specs.Prelude.{List};
ghost use Rattle.ssh_model.specs.OneEpoch.History.{Done, IsHonestEpoch, TakenInOrder};

/// If each payload that was taken had been sent under the same number, the payloads that each side took are a prefix
/// of those that the other sent.
#[tactic(auto, using(crate::proofs::Sessions::Ends::all_in_order))]
pub fn taken_in_order()
    ensures { (run : List Done) → IsHonestEpoch run → TakenInOrder run }
{}
