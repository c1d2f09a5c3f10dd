//! The claims on one end, whoever its peer is. They stand besides the claims on two ends in an honest run.

ghost use Rattle.std.specs.Prelude.{◌≡◌, List, [], ◌∷◌, Some, true, false, codes, reverse};
ghost use Rattle.ssh_model.specs.declared.side.Side.{Side};
ghost use Rattle.ssh_model.specs.declared.side.Side.TheVariants.{Client, Server};
ghost use Rattle.ssh_model.specs.Protocol.Side.{part};
ghost use Rattle.ssh_model.specs.Protocol.Wire.Message.{Msg.Ignore, Msg.KexInit, Msg.NewKeys, Msg.KexEcdhInit, Msg.ExtInfo};
ghost use Rattle.ssh_model.specs.Protocol.Wire.Message.{Msg.UserauthRequest, Msg.UserauthSuccess, Method.NoMethod};
ghost use Rattle.ssh_model.specs.Protocol.Sessions.Parties.{Parties, AreLawful};
ghost use Rattle.ssh_model.specs.Protocol.Sessions.Items.{Item, took};
ghost use Rattle.ssh_model.specs.Protocol.Sessions.Turns.{EndRun};
ghost use Rattle.ssh_model.specs.Protocol.Sessions.Claims.{HasConnection};
ghost use Rattle.ssh_model.specs.Protocol.KeyExchange.Exchanges.{is_strict};
ghost use Rattle.ssh_model.specs.Protocol.Sessions.AnyLayers.{TransportRun};
ghost use Rattle.ssh_model.specs.Protocol.Sessions.AnyPeer.{IsGuarded, KeepsTransport, AcceptedRequest, RequiresAuthentication, VerifiesHosts};
ghost use Rattle.ssh_model.specs.Protocol.Sessions.AnyPeer.{EachIncludesOwn, TakesOnlyAllowed, TakesOnlyExchange, RequiresStrict, IsFresh};
ghost use Rattle.ssh_model.specs.Protocol.Sessions.AnyPeer.{SendsOnlyExchange, UsesNoNonceTwice, taken_in_first_exchange};
ghost use Rattle.ssh_model.specs.Protocol.Sessions.AnyPeer.{sent_in_first_exchange};
ghost use Rattle.ssh_model.specs.Example.Toys.{toy, secret};
ghost use Rattle.ssh_model.specs.Example.Histories.{connection, says, hears, keyed, lined, offered, offer_of, open_message};
ghost use Rattle.ssh_model.specs.Example.Run.{sends, takes, takes_on, session, d11};

/// Every run of one end is guarded, whatever bytes come to it and whatever its user asks. A server requires
/// authentication. A client verifies each host. Each exchange includes the end's own parts. In the clear only the
/// exchange is taken and sent; with strict key exchange nothing comes between its messages. No nonce is used twice.
pub fn against_any_peer<K>()
    ensures { (p : Parties K) → AreLawful p → (side : Side) → (h : List Item) → EndRun p side h → IsGuarded p side h }
{}

/// In every run of its own, the transport of an end keeps to its part of these claims, whatever the layers above it send, take and
/// refuse (`kept`). Each run of one end is such a run (`ends`).
pub fn against_any_layers<K>()
    ensures kept { (p : Parties K) → AreLawful p → (side : Side) → (h : List Item) → TransportRun p side h → KeepsTransport p side h }
    ensures ends { (p : Parties K) (side : Side) (h : List Item) → EndRun p side h → TransportRun p side h }
{}

/// A server of toy parts, whose layers above send SUCCESS although nobody asked for a user. This is a run of its transport, which keeps to
/// its part, and no run of an end.
pub fn layers_example()
    ensures runs { TransportRun toy Server (sends UserauthSuccess ∷ part Server d11) }
    ensures keeps { KeepsTransport toy Server (sends UserauthSuccess ∷ part Server d11) }
    ensures is_no_end { EndRun toy Server (sends UserauthSuccess ∷ part Server d11) → ⊥ }
{}

/// A run in which a server of toy parts accepts its user and takes messages of the connection. The packets that each toy end took
/// and sent up to NEWKEYS are the exchange.
pub fn guarded_example()
    ensures runs { (side : Side) → EndRun toy side (part side session) }
    ensures serves { HasConnection (took (part Server session)) }
    ensures accepts { AcceptedRequest toy (part Server session) }
    ensures strict { (side : Side) → is_strict side (part side session) ≡ true }
    ensures taken_by_server { reverse (taken_in_first_exchange (part Server session)) ≡ Some 20 ∷ Some 30 ∷ Some 21 ∷ [] }
    ensures taken_by_client { reverse (taken_in_first_exchange (part Client session)) ≡ Some 20 ∷ Some 31 ∷ Some 21 ∷ [] }
    ensures sent_by_server { reverse (sent_in_first_exchange (part Server session)) ≡ 20 ∷ 31 ∷ 21 ∷ [] }
    ensures sent_by_client { reverse (sent_in_first_exchange (part Client session)) ≡ 20 ∷ 30 ∷ 21 ∷ [] }
    ensures fresh { (side : Side) → IsFresh toy side (part side session) }
{}

/// Histories that are not guarded, so that no end has them. A server opens a channel for a client that sends SUCCESS
/// itself. A client completes an exchange without a reply, or with a point that is not its own. An end takes a request or
/// extensions in the clear, names its user to a host that is not verified, takes IGNORE in a strict first exchange, goes
/// on without the marker that it requires, or sends under one key name and number twice.
pub fn unguarded_examples()
    ensures success_from_the_client { RequiresAuthentication toy (takes_on 5 open_message ∷ takes UserauthSuccess ∷ keyed Server) → ⊥ }
    ensures newkeys_without_a_reply { VerifiesHosts toy (says NewKeys ∷ offered Client) → ⊥ }
    ensures point_of_another_secret { EachIncludesOwn toy Client (says NewKeys ∷ says (KexEcdhInit (secret 2)) ∷ lined Client) → ⊥ }
    ensures request_in_the_clear { TakesOnlyAllowed Server (hears (UserauthRequest (codes "u") connection NoMethod) ∷ offered Server) → ⊥ }
    ensures extensions_in_the_clear { TakesOnlyAllowed Client (hears (ExtInfo []) ∷ offered Client) → ⊥ }
    ensures ignore_in_the_exchange { TakesOnlyExchange toy Server (hears (KexEcdhInit (secret 1)) ∷ hears (Ignore []) ∷ offered Server) →
        ⊥ }
    ensures request_to_an_unproven_host { SendsOnlyExchange Client (says (UserauthRequest (codes "u") connection NoMethod) ∷ offered
        Client) → ⊥ }
    ensures kexinit_without_the_marker { RequiresStrict toy Server (hears (KexInit (offer_of Client false)) ∷ lined Server) → ⊥ }
    ensures number_again { UsesNoNonceTwice toy Client (says (Ignore []) ∷ says NewKeys ∷ says (Ignore []) ∷ says NewKeys ∷ hears
        (KexInit (offer_of Server true)) ∷ says (KexInit (offer_of Client true)) ∷ []) → ⊥ }
{}
