//! Laws of the state of a layer of authentication (RFC 4252): from it, the turns on a message and an ask are those of a
//! session. A layer is proved against its state alone, and these laws turn that into claims on histories.
//!
//! # What a layer of authentication has to meet
//!
//! The state of a server's layer is `Server`, and that of a client's layer `Client` (`specs/State/Authentication/Kept.antt`). Their
//! rows mention no history:
//!
//! - a new one: `new_server`, `new_client` (`userauth::server_beginnings`, `client_beginnings`: `new`).
//! - SERVICE_ACCEPT was sent or taken: `opened_server`, `opened_client` (the same: `opened`).
//! - may a number from 50 to 79 be taken: `server_takes`, `client_takes` (`userauth::server_messages`, `client_messages`: `numbers`).
//! - is a key probe outstanding: `is_key_probe` of the outstanding request (`client_messages`: `probes`; a server has none).
//! - a server takes a request: refused by the first of `server_checks` that holds; else `ServerTakes` (`server_messages`: `refused`,
//!   `accepted`).
//! - a client takes an answer: `ClientTakes`; none is refused (`client_messages`: `accepted`).
//! - a client is asked: refused by the first of `client_checks` that holds; else `ClientSends` (`userauth::client_asks`).
//!
//! The laws speak of `ServerSumsUp` and `ClientSumsUp` of any history, with the judge, the tries and the methods of the parties, and the
//! session id of the history. Items of other layers keep them (`kept`). Whoever uses the layer tests that an ask for authentication is
//! refused at a server.

ghost use Rattle.std.specs.Prelude.{◌≡◌, ◌≤◌, ◌<◌, ℕ, List, [], ◌∷◌, Option};
ghost use Rattle.ssh_model.specs.declared.side.Side.TheVariants.{Client, Server};
ghost use Rattle.ssh_model.specs.Protocol.Wire.Message.{Msg, Msg.ServiceAccept};
ghost use Rattle.ssh_model.specs.Protocol.Sessions.Refusals.{first_refusal};
ghost use Rattle.ssh_model.specs.Protocol.Sessions.Parties.{Parties, user_signature_by};
ghost use Rattle.ssh_model.specs.Protocol.Sessions.Items.{Ask, Item, Item.Sent, Item.Took};
ghost use Rattle.ssh_model.specs.Protocol.Sessions.Phases.{Phase.Normal, phase, may_take, probing};
ghost use Rattle.ssh_model.specs.Protocol.KeyExchange.Exchanges.{exchanges, session_id};
ghost use Rattle.ssh_model.specs.Protocol.Authentication.Requests.{judge_of};
ghost use Rattle.ssh_model.specs.Protocol.Authentication.Rows.{authentication_checks, authentication_ask_checks};
ghost use Rattle.ssh_model.specs.State.Authentication.Kept as kept;
ghost use Rattle.ssh_model.specs.State.Authentication.Kept.{Answered, new_server, opened_server, server_checks, server_takes, ServerTakes};
ghost use Rattle.ssh_model.specs.State.Authentication.Kept.{new_client, opened_client, client_takes, is_key_probe, ClientTakes};
ghost use Rattle.ssh_model.specs.State.Authentication.Kept.{client_checks, ClientSends};
ghost use Rattle.ssh_model.specs.State.Authentication.Summary.{ServerSumsUp, ClientSumsUp, ServerAccepts, ClientAccepts, ClientAllows};
ghost use Rattle.ssh_model.specs.State.Authentication.Summary.{LeavesServer, LeavesClient};

/// The state of a new server sums up the empty history. That of an opened one sums up the history with
/// SERVICE_ACCEPT sent. Items of other layers keep the summary.
#[tactic(auto, using(crate::proofs::Authentication::Rows::server_starts, crate::proofs::Authentication::Rows::server_opened, crate::proofs::Authentication::Rows::server_kept))]
pub fn server_beginnings()
    ensures new { ServerSumsUp [] new_server }
    ensures opened { (history : List Item) (server : kept.Server) (channel : Option ℕ) (service payload : List ℕ) →
        ServerSumsUp history server → ServerSumsUp (Sent channel (ServiceAccept service) payload ∷ history) (opened_server server) }
    ensures kept { (history : List Item) (server : kept.Server) (item : Item) → LeavesServer item → ServerSumsUp history server →
        ServerSumsUp (item ∷ history) server }
{}

/// By its state a server refuses a message as a session does, and takes the numbers from 50 to 79 that a session takes.
/// The answer is one of a session, and the new state sums up the history with the message and its answer.
#[tactic(auto, using(crate::proofs::Authentication::Rows::server_refused, crate::proofs::Authentication::Rows::server_accepted, crate::proofs::Authentication::Numbers::server_number))]
pub fn server_messages<K>()
    ensures numbers { (number : ℕ) → 50 ≤ number → number < 80 → (p : Parties K) (history : List Item) (server : kept.Server) →
        ServerSumsUp history server → phase p Server history ≡ Normal → may_take p Server history number ≡ server_takes server number }
    ensures refused { (p : Parties K) (history : List Item) (server : kept.Server) → ServerSumsUp history server → (message : Msg) →
        first_refusal (authentication_checks p Server history message)
        ≡ first_refusal (server_checks (judge_of p) p.server.tries p.server.methods (session_id (exchanges p Server history)) server
        message) }
    ensures accepted { (p : Parties K) (history : List Item) (server : kept.Server) → ServerSumsUp history server →
        (message : Msg) (answered : Answered) (new : kept.Server) →
        ServerTakes (judge_of p) p.server.methods (session_id (exchanges p Server history)) server message answered new →
        ServerAccepts p history message answered new }
{}

/// The state of a new client sums up the empty history. That of an opened one sums up the history with
/// SERVICE_ACCEPT taken. Items of other layers keep the summary.
#[tactic(auto, using(crate::proofs::Authentication::Rows::client_starts, crate::proofs::Authentication::Rows::client_opened, crate::proofs::Authentication::Rows::client_kept))]
pub fn client_beginnings()
    ensures new { ClientSumsUp [] new_client }
    ensures opened { (history : List Item) (client : kept.Client) (channel : Option ℕ) (service payload : List ℕ) →
        ClientSumsUp history client → ClientSumsUp (Took channel (ServiceAccept service) payload ∷ history) (opened_client client) }
    ensures kept { (history : List Item) (client : kept.Client) (item : Item) → LeavesClient item → ClientSumsUp history client →
        ClientSumsUp (item ∷ history) client }
{}

/// By its state a client takes the numbers from 50 to 79 that a session takes, and tells whether a key probe is
/// outstanding. The answer to a message is one of a session, and the new state sums up the history with the message
/// and its answer.
#[tactic(auto, using(crate::proofs::Authentication::Rows::client_accepted, crate::proofs::Authentication::Rows::probing_is, crate::proofs::Authentication::Numbers::client_number))]
pub fn client_messages<K>()
    ensures numbers { (number : ℕ) → 50 ≤ number → number < 80 → (p : Parties K) (history : List Item) (client : kept.Client) →
        ClientSumsUp history client → phase p Client history ≡ Normal → may_take p Client history number ≡ client_takes client number }
    ensures probes { (history : List Item) (client : kept.Client) → ClientSumsUp history client →
        probing history ≡ is_key_probe client.outstanding }
    ensures accepted { (p : Parties K) (history : List Item) (client : kept.Client) → ClientSumsUp history client →
        (message : Msg) (answered : Answered) (new : kept.Client) → ClientTakes client message answered new →
        ClientAccepts p history message answered new }
{}

/// By its state a client refuses an ask as a session does. If it does not refuse it, the client sends what a session
/// sends, and the new state sums up the history with it.
#[tactic(auto, using(crate::proofs::Authentication::Rows::client_refused, crate::proofs::Authentication::Rows::client_allowed))]
pub fn client_asks<K>()
    ensures refused { (history : List Item) (client : kept.Client) → ClientSumsUp history client → (ask : Ask) →
        first_refusal (authentication_ask_checks Client history ask) ≡ first_refusal (client_checks client ask) }
    ensures allowed { (p : Parties K) (history : List Item) (client : kept.Client) → ClientSumsUp history client →
        (ask : Ask) (message : Msg) (new : kept.Client) → ClientSends (user_signature_by p) (session_id (exchanges p Client history))
        client ask message new → ClientAllows p history ask message new }
{}
