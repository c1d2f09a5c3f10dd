//! Two ends don't wait for each other for ever, and there are lawful ends of all settings.

ghost use Rattle.std.specs.Prelude.{◌≡◌, ◌≤◌, ℕ, List, length};
ghost use Rattle.ssh_model.specs.Protocol.Sessions.Parties.{Parties, Settings, AreLawful};
ghost use Rattle.ssh_model.specs.Protocol.Sessions.Items.{Done};
ghost use Rattle.ssh_model.specs.Protocol.Sessions.Turns.{Run};
ghost use Rattle.ssh_model.specs.Protocol.Sessions.Quiet.{HasParts, IsDelivered, IsSettled};
ghost use Rattle.ssh_model.specs.Example.Toys.{toy};
ghost use Rattle.ssh_model.specs.Example.Run.{session, d23};

/// If each end took exactly what the other sent, neither waits: no exchange is under way, nothing is owed, and no request for the service
/// or for a user is without its answer.
pub fn no_deadlock<K>()
    ensures { (p : Parties K) → AreLawful p → (run : List Done) → Run p run → IsDelivered run → IsSettled p run }
{}

/// A run of the toys with two exchanges in which each took exactly what the other sent. It is settled, and was not while the client
/// was blocked.
pub fn no_deadlock_example()
    ensures runs { Run toy session }
    ensures delivered { IsDelivered session }
    ensures settled { IsSettled toy session }
    ensures not_while_blocked { IsSettled toy d23 → ⊥ }
{}

/// For all settings whose version lines are short there are lawful parties with these settings.
pub fn lawful_parts()
    ensures { (client server : Settings) → length client.line ≤ 253 → length server.line ≤ 253 → HasParts client server }
{}
