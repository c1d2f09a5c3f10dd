//! Another judge of a server's users, in the middle of a run.

ghost use Rattle.std.specs.Prelude.{◌≡◌, List, false};
ghost use Rattle.ssh_model.specs.declared.side.Side.{Side};
ghost use Rattle.ssh_model.specs.Protocol.Authentication.Requests.{Judge, judge_of};
ghost use Rattle.ssh_model.specs.Protocol.Sessions.Parties.{Parties, AreLawful};
ghost use Rattle.ssh_model.specs.Protocol.Sessions.Items.{Item, has_died};
ghost use Rattle.ssh_model.specs.Protocol.Sessions.Turns.{EndRun};
ghost use Rattle.ssh_model.specs.State.End.State.{EndState};
ghost use Rattle.ssh_model.specs.State.End.Summary.{EndSumsUp};
ghost use Rattle.ssh_model.specs.Laws.Verdicts.{AgreeOnAsked, judged_by};

/// A run of a live end is a run with another judge too, if both judges agree on each request for authentication that
/// the end took. The end's state sums up its history as before, and the parts stay lawful. So a server may learn the facts by
/// which it judges a user after the user's name is known, before it judges a request of that user.
pub fn judges_exchanged<K>()
    ensures runs { (p : Parties K) (judge : Judge) (side : Side) (h : List Item) → EndRun p side h → has_died h ≡ false →
        AgreeOnAsked (judge_of p) judge h → EndRun (judged_by judge p) side h }
    ensures sums { (p : Parties K) (judge : Judge) (side : Side) (h : List Item) (e : EndState K) → EndSumsUp p side h e →
        EndSumsUp (judged_by judge p) side h e }
    ensures lawful { (p : Parties K) (judge : Judge) → AreLawful p → AreLawful (judged_by judge p) }
    ensures judge { (p : Parties K) (judge : Judge) → judge_of (judged_by judge p) ≡ judge }
{}
