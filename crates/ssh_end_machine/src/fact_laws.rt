//! A law of what is told: what a server tells of a request is told by its answer. A fact for proofs, at no cost.

ghost use Rattle.std.specs.Prelude.{◌≡◌, List, None, ℕ};
ghost use Rattle.ssh_model.specs.Protocol.Wire.Message.{Msg};
ghost use Rattle.ssh_model.specs.State.Authentication.Kept as of_authentication;
ghost use Rattle.ssh_model.specs.State.Authentication.Kept.{ServerTakes};
ghost use Rattle.ssh_model.specs.Protocol.Authentication.Requests.{Judge};
ghost use Rattle.ssh_auth.specs.Serving.{answered as answered_by};
ghost use Rattle.ssh_auth.specs.declared.answer.ServerAnswer.{ServerAnswer};
ghost use Rattle.ssh_end_machine.specs.Steps.{fact_told};
ghost use Rattle.ssh_end_machine.specs.Told.{event_kind_of};

/// What is told of a request that a server takes.
pub fn facts_told()
    ensures server { (judge : Judge) (methods : List (List ℕ)) (session : List ℕ) (server : of_authentication.Server) (message : Msg)
        (given : ServerAnswer) (new : of_authentication.Server) →
        ServerTakes judge methods session server message (answered_by methods message given) new →
        (answered_by methods message given).fact ≡ fact_told (event_kind_of given) message None }
{}
