//! Laws of authentication in a session: the state of a server and of a client sums up the history of their end, before and after each call.
//! Facts for proofs, at no cost.

ghost use Rattle.std.specs.Prelude.{◌≡◌, ◌≤◌, ◌<◌, ℕ, Bool, List, length};
ghost use Rattle.ssh_model.specs.declared.side.Side.TheVariants.{Client, Server};
ghost use Rattle.ssh_model.specs.Protocol.Bounds.{largest_packet};
ghost use Rattle.ssh_model.specs.Protocol.Wire.Message.{IsPayload, Msg};
ghost use Rattle.ssh_model.specs.Protocol.Sessions.Refusals.{first_refusal};
ghost use Rattle.ssh_model.specs.Protocol.Sessions.Parties.{Parties};
ghost use Rattle.ssh_model.specs.Protocol.Sessions.Items.{Ask, Item};
ghost use Rattle.ssh_model.specs.Protocol.Sessions.Phases.{Phase.Normal, phase, may_take, probing};
ghost use Rattle.ssh_model.specs.Protocol.KeyExchange.Exchanges.{exchanges, session_id};
ghost use Rattle.ssh_model.specs.Protocol.Authentication.Requests.{Judge};
ghost use Rattle.ssh_model.specs.Protocol.Authentication.Rows.{authentication_ask_checks, authentication_checks};
ghost use Rattle.ssh_model.specs.State.Authentication.Kept as kept;
ghost use Rattle.ssh_model.specs.State.Authentication.Kept.{client_checks, client_takes, is_key_probe, server_checks, server_takes};
ghost use Rattle.ssh_model.specs.State.Authentication.Summary.{ClientAllows, ClientSumsUp};
ghost use Rattle.ssh_auth.specs.Serving as serving;
ghost use Rattle.ssh_auth.specs.Serving.{NeedsText, ServerAnswers};
ghost use Rattle.ssh_auth.specs.Asking.{ClientAnswers, ClientAsks};
ghost use Rattle.ssh_auth.specs.Sessions.{ClientTurns, IsServerOf, ServerTurns};
ghost use Rattle.ssh_auth.specs.declared.answer.ServerAnswer.{ServerAnswer};
ghost use Rattle.ssh_auth.specs.declared.answer.ClientAnswer.{ClientAnswer};

use ssh_model::laws;

/// If a server sums up the history of its end, it takes the numbers from 50 to 79 that a session takes. It refuses
/// and answers a message as a session does. It then sums up the history with the message and the answer.
#[tactic(auto, using(crate::proofs::Sessions::server_refused, crate::proofs::Sessions::server_answered))]
pub fn server_turns<K>()
    ensures numbers { (number : ℕ) → 50 ≤ number → number < 80 → (p : Parties K) (history : List Item) (judge : Judge) (session : List ℕ)
        (server : serving.Server) → IsServerOf p history judge session server → phase p Server history ≡ Normal →
        may_take p Server history number ≡ server_takes server.kept number }
    ensures refused { (p : Parties K) (history : List Item) (judge : Judge) (session : List ℕ) (server : serving.Server) →
        IsServerOf p history judge session server → (message : Msg) →
        first_refusal (authentication_checks p Server history message)
        ≡ first_refusal (server_checks judge server.tries server.methods session server.kept message) }
    ensures answered { (p : Parties K) (history : List Item) (judge : Judge) (session : List ℕ) (old : serving.Server) →
        IsServerOf p history judge session old → (message : Msg) (answer : ServerAnswer) (new : serving.Server) →
        ServerAnswers judge session old message answer new → ServerTurns p history message old.methods answer new.kept }
{
    laws::userauth::server_beginnings();
    laws::userauth::server_messages::<K>();
}

/// A client that sums up the history of its end takes the numbers from 50 to 79 that a session takes, and says whether a key probe is
/// outstanding. It tells about a message what a session tells, and then sums up the history with the message and the fact.
#[tactic(auto, using(crate::proofs::Sessions::client_told))]
pub fn client_turns<K>()
    ensures numbers { (number : ℕ) → 50 ≤ number → number < 80 → (p : Parties K) (history : List Item) (client : kept.Client) →
        ClientSumsUp history client → phase p Client history ≡ Normal → may_take p Client history number ≡ client_takes client number }
    ensures probes { (history : List Item) (client : kept.Client) → ClientSumsUp history client →
        probing history ≡ is_key_probe client.outstanding }
    ensures answered { (p : Parties K) (history : List Item) (old : kept.Client) → ClientSumsUp history old →
        (message : Msg) (answer : ClientAnswer) (new : kept.Client) → ClientAnswers old message answer new →
        ClientTurns p history message answer new }
{
    laws::userauth::client_beginnings();
    laws::userauth::client_messages::<K>();
}

/// A client that sums up the history of its end refuses an ask as a session does, and otherwise sends what a session sends. It then sums up
/// the history with the ask and the request.
#[tactic(auto, using(crate::proofs::Sessions::client_asked))]
pub fn client_ask_turns<K>()
    ensures refused { (history : List Item) (client : kept.Client) → ClientSumsUp history client → (ask : Ask) →
        first_refusal (authentication_ask_checks Client history ask) ≡ first_refusal (client_checks client ask) }
    ensures asked { (p : Parties K) (history : List Item) (signature : List ℕ → List ℕ → List ℕ → List ℕ → List ℕ) (session : List ℕ)
        (old : kept.Client) → p.user_signature ≡ signature → session_id (exchanges p Client history) ≡ session →
        ClientSumsUp history old → (ask : Ask) (message : Msg) (new : kept.Client) → ClientAsks signature session old ask message new →
        ClientAllows p history ask message new }
{
    laws::userauth::client_asks::<K>();
}

/// The text that a signature covers has few more bytes than the payload of its request. So a server has room for it if the request comes in
/// one packet, and asks for no memory.
pub fn signed_texts_fit()
    ensures { (judge : Judge) (session : List ℕ) (server : serving.Server) (probing : Bool) (message : Msg) (payload : List ℕ) →
        length session ≡ 32 → IsPayload probing message payload → length payload ≤ largest_packet →
        NeedsText judge session server message → ⊥ }
{}
