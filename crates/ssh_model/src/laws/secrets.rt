//! A secret of an end enters what it does by its agreement alone.

ghost use Rattle.std.specs.Prelude.{◌≡◌, List, ℕ};
ghost use Rattle.ssh_model.specs.declared.side.Side.{Side};
ghost use Rattle.ssh_model.specs.Protocol.Sessions.Events.{PutsOut};
ghost use Rattle.ssh_model.specs.Protocol.Sessions.Items.{Item};
ghost use Rattle.ssh_model.specs.Protocol.Sessions.Parties.{Agreement, Parties};
ghost use Rattle.ssh_model.specs.Protocol.Sessions.Turns.{EndRun};
ghost use Rattle.ssh_model.specs.Laws.Secrets.{AreExchanged, AreSecrets, agreeing_by, behind, with_secrets};

/// What an end does depends on its secrets by nothing but the points and the results of its agreement. If agreements make of other secrets
/// what the ends' own make of their secrets, a run with the other secrets is a run of the ends with these agreements (`runs`), and the end
/// can put out the same bytes (`puts_out`). All items are the same but those by which a secret is fed. So the definitions put a secret into
/// no cookie, text, number or fact that is told. The number of a new channel, padding, and where memory is refused are free in them.
///
/// There are such agreements for any other secrets from which one can go back to the secrets (`exist`), such as their bytes in reverse.
pub fn secrets_enter_by_agreement<K>()
    ensures exist { (p : Parties K) (other back : List ℕ → List ℕ) → AreSecrets other → ((secret : List ℕ) → back (other secret) ≡ secret) →
        AreExchanged p other (behind back p.client_agreement) (behind back p.server_agreement) }
    ensures runs { (p : Parties K) (other : List ℕ → List ℕ) (client server : Agreement) → AreExchanged p other client server →
        (side : Side) (h : List Item) → EndRun p side h → EndRun (agreeing_by client server p) side (with_secrets other h) }
    ensures puts_out { (p : Parties K) (other : List ℕ → List ℕ) (client server : Agreement) → AreExchanged p other client server →
        (side : Side) (h : List Item) (bytes : List ℕ) → PutsOut p side h bytes →
        PutsOut (agreeing_by client server p) side (with_secrets other h) bytes }
{}
