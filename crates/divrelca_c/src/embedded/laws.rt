//! Laws of ends whose program says who may log in, and which hosts are trusted. Facts for proofs, at no cost.

ghost use Rattle.std.specs.Prelude.{List, ℕ};
ghost use Rattle.ssh_model.specs.Laws.Verdicts.{judged_by};
ghost use Rattle.ssh_model.specs.Protocol.Lists.{IsIn};
ghost use Rattle.ssh_model.specs.Protocol.Sessions.Items.{Credential, Fact.Accepted, Item, Item.Told};
ghost use Rattle.ssh_model.specs.Protocol.Sessions.Parties.{AreLawful, Parties};
ghost use Rattle.ssh_model.specs.Protocol.Sessions.Turns.{EndRun};
ghost use Rattle.ssh_model.specs.declared.side.Side.TheVariants.{Client, Server};
ghost use Rattle.ssh_held.specs.Hosts.{trusting};
ghost use Rattle.divrelca_c.specs.Embedded.Hosts.{TrustsEachByProgram, trusts_of};
ghost use Rattle.divrelca_c.specs.Embedded.Users.{LetInByProgram, verdicts_of};
ghost use Rattle.divrelca_c.specs.declared.embedded.hosts.TrustedHosts.{TrustedHosts};
ghost use Rattle.divrelca_c.specs.declared.embedded.users.Users.{Users};

use ssh_model::laws;

/// Whoever a server of these users tells as accepted sent a request that it accepted, with the credential that is told. The program had said
/// yes to this very request; or it had said nothing on it, and an entry of the user lets in. If the request has a signature of another
/// algorithm than ssh-ed25519, the program had said yes to it, over the text that is signed in this session. This holds whoever the peer is.
pub fn accepted_by_program<K>()
    ensures { (p : Parties K) (users : Users) (h : List Item) → AreLawful (judged_by (verdicts_of users) p) →
        EndRun (judged_by (verdicts_of users) p) Server h → (user : List ℕ) (by : Credential) → IsIn (Told (Accepted user by)) h →
        LetInByProgram (judged_by (verdicts_of users) p) h users user by }
{
    laws::any_peer::against_any_peer::<K>();
    ssh_held::laws::accepted_is_signed();
}

/// In each exchange of keys that a client of these hosts completed, the host key whose signature was judged right is one that the client was made
/// with, or the program had said yes to it, under the algorithm that was chosen in the exchange. If that is another than ssh-ed25519, the program
/// had said yes to that very signature of the hash of this very exchange. This holds whoever the peer is.
pub fn trusted_by_program<K>()
    ensures { (p : Parties K) (hosts : TrustedHosts) (h : List Item) → AreLawful (trusting (trusts_of hosts) p) →
        EndRun (trusting (trusts_of hosts) p) Client h → TrustsEachByProgram (trusting (trusts_of hosts) p) hosts h }
{
    laws::any_peer::against_any_peer::<K>();
}
