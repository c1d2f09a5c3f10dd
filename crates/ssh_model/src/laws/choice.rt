ghost use Rattle.std.specs.Prelude.{◌≡◌, ◌↔◌, ◌++◌, [], ◌∷◌, IsTrue, List, ℕ, None, Some, false, true};
ghost use Rattle.std.specs.List.{Contains};
ghost use Rattle.ssh_model.specs.Protocol.KeyExchange.Choice.{Chosen};
ghost use Rattle.ssh_model.specs.Laws.KeyExchange.{HasNoCommon, IsChoice, IsFirstCommon, IsFirstWithout, IsRightGuess};
ghost use Rattle.ssh_model.specs.Protocol.KeyExchange.Choice.{Kind, Lists, is_method, methods};
ghost use Rattle.ssh_model.specs.Protocol.KeyExchange.Exchanges.{chosen, first_common, has_choice, has_marker};
ghost use Rattle.ssh_model.specs.Protocol.Wire.Message.{Proposal};
ghost use Rattle.ssh_model.specs.Protocol.Sessions.Parties.{lists_of};
ghost use Rattle.ssh_model.specs.Protocol.Sessions.Phases.{is_wrong_guess};

/// The name that is computed from two lists is the first of the client's that is in the server's. If none is computed,
/// there is none.
pub fn first_common_name()
    ensures is_first { (client server : List (List ℕ)) (name : List ℕ) → first_common client server ≡ Some name →
        IsFirstCommon client server name }
    ensures is_none { (client server : List (List ℕ)) → first_common client server ≡ None → HasNoCommon client server }
    ensures is_only { (client server : List (List ℕ)) (name : List ℕ) → IsFirstCommon client server name →
        first_common client server ≡ Some name }
{}

/// A guess that is computed to be wrong is wrong, and one that follows and is not computed to be wrong is right.
pub fn guess()
    ensures is_right { (theirs ours : Proposal) → theirs.follows ≡ true → is_wrong_guess theirs ours ≡ false →
        IsRightGuess (lists_of theirs) (lists_of ours) }
    ensures is_wrong { (theirs ours : Proposal) → is_wrong_guess theirs ours ≡ true → IsRightGuess (lists_of theirs) (lists_of ours) → ⊥ }
    ensures is_none { (theirs ours : Proposal) → theirs.follows ≡ false → is_wrong_guess theirs ours ≡ false }
{}

/// The algorithms that two ends choose are those that are computed. If a kind has no common name, none are.
pub fn computed_choice()
    ensures computed { (client server : Lists) → has_choice client server ≡ true → IsChoice client server (chosen client server) }
    ensures there { (client server : Lists) (choice : Chosen) → IsChoice client server choice → has_choice client server ≡ true }
    ensures is { (client server : Lists) (choice : Chosen) → IsChoice client server choice → chosen client server ≡ choice }
    ensures none { (client server : Lists) (kind : Kind) → IsFirstWithout client server kind → has_choice client server ≡ false }
{}

/// A marker that is computed to be there is there. After other names it chooses nothing.
pub fn markers()
    ensures there { (marker : List ℕ) (names : List (List ℕ)) → IsTrue (has_marker marker names) ↔ Contains names marker }
    ensures chooses_nothing { (names : List (List ℕ)) (marker : List ℕ) → is_method marker ≡ false →
        methods (names ++ marker ∷ []) ≡ methods names }
{}
