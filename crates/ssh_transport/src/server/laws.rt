//! Laws of what a server makes of a client's point: turns of a session. Facts for proofs, at no cost.

ghost use Rattle.ssh_model.specs.declared.side.Side.TheVariants.{Server};
ghost use Rattle.ssh_model.specs.declared.refusal.Refusal.TheVariants.{BadPoint};
ghost use Rattle.ssh_model.specs.State.TransportLayer.Summary.{parts_of};
ghost use Rattle.ssh_transport.specs.OfServer.Answers.{AnswerSpent, PointAnswered, PointRefused};
ghost use Rattle.ssh_transport.specs.Laws.{EndsExchange, RefusesFor, RunsOut};

/// A server does with a client's point what a server of a session with its parts does. It refuses the point. Or it ends the
/// exchange up to what it announces, or has too few numbers left for that.
pub fn points_taken<K>()
    ensures ended { EndsExchange K Server (λ p. PointAnswered p.crypto (parts_of p Server)) }
    ensures refused { RefusesFor K Server BadPoint (λ p. PointRefused p.crypto (parts_of p Server)) }
    ensures spent { RunsOut K Server (λ p. AnswerSpent p.crypto (parts_of p Server)) }
{
    crate::laws::role_laws::<K>();
}
