//! An example of the claim on a client's login (`any_peer::against_any_peer`).

ghost use Rattle.std.specs.Prelude.{◌∷◌};
ghost use Rattle.ssh_model.specs.declared.side.Side.TheVariants.{Client};
ghost use Rattle.ssh_model.specs.Protocol.Side.{part};
ghost use Rattle.ssh_model.specs.Protocol.Wire.Message.{Msg.UserauthSuccess};
ghost use Rattle.ssh_model.specs.Protocol.Sessions.Turns.{EndRun};
ghost use Rattle.ssh_model.specs.Protocol.Sessions.Logins.{AnsweredRequest, NeedsSuccess};
ghost use Rattle.ssh_model.specs.Example.Toys.{toy};
ghost use Rattle.ssh_model.specs.Example.Histories.{hears, keyed, open_message};
ghost use Rattle.ssh_model.specs.Example.Run.{session, takes_on};

/// A client of the toys that logs in. Histories that no client has: one that takes SUCCESS although it asked for no user, and one that
/// takes the OPEN of a channel before SUCCESS.
pub fn client_example()
    ensures runs { EndRun toy Client (part Client session) }
    ensures logs_in { AnsweredRequest (part Client session) }
    ensures unasked_success { NeedsSuccess (hears UserauthSuccess ∷ keyed Client) → ⊥ }
    ensures channel_before_login { NeedsSuccess (takes_on 5 open_message ∷ keyed Client) → ⊥ }
{}
