//! Laws of what a client makes of a server's reply: turns of a session. Facts for proofs, at no cost.

ghost use Rattle.ssh_model.specs.declared.side.Side.TheVariants.{Client};
ghost use Rattle.ssh_model.specs.declared.refusal.Refusal.TheVariants.{BadHost, BadPoint};
ghost use Rattle.ssh_transport.specs.OfClient.Parts.{client_parts_of};
ghost use Rattle.ssh_transport.specs.OfClient.Turns.{HostAccepted, HostRefused, NewkeysSpent, PointRefused};
ghost use Rattle.ssh_transport.specs.Laws.{EndsExchange, RefusesFor, RunsOut};

/// A client does with a server's reply what a client of a session with its parts does. It refuses the point, or the host. Or it
/// ends the exchange up to what it announces, or has no number left for that.
pub fn replies_taken<K>()
    ensures ended { EndsExchange K Client (λ p. HostAccepted p.crypto (client_parts_of p)) }
    ensures bad_point { RefusesFor K Client BadPoint (λ p. PointRefused p.crypto (client_parts_of p)) }
    ensures bad_host { RefusesFor K Client BadHost (λ p. HostRefused p.crypto (client_parts_of p)) }
    ensures spent { RunsOut K Client (λ p. NewkeysSpent p.crypto (client_parts_of p)) }
{
    crate::laws::role_laws::<K>();
}
