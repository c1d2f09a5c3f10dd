//! What a peer can make one end put out: a law of bytes, and an example of the claim on messages (`any_peer::against_any_peer`).

ghost use Rattle.std.specs.Prelude.{◌≡◌, List, [], ◌∷◌, ℕ, length};
ghost use Rattle.ssh_model.specs.declared.side.Side.{Side};
ghost use Rattle.ssh_model.specs.declared.side.Side.TheVariants.{Client, Server};
ghost use Rattle.ssh_model.specs.Protocol.Side.{part};
ghost use Rattle.ssh_model.specs.Protocol.Wire.Message.{Msg.Ignore};
ghost use Rattle.ssh_model.specs.Protocol.Sessions.Parties.{Parties, AreLawful};
ghost use Rattle.ssh_model.specs.Protocol.Sessions.Items.{Item, messages_sent, took};
ghost use Rattle.ssh_model.specs.Protocol.Channels.Connection.{owed_replies};
ghost use Rattle.ssh_model.specs.Protocol.Sessions.Turns.{EndRun};
ghost use Rattle.ssh_model.specs.Protocol.Sessions.Events.{PutsOut};
ghost use Rattle.ssh_model.specs.Protocol.Sessions.Bounded.{asked, AnswersFew, PutsOutFew};
ghost use Rattle.ssh_model.specs.Example.Toys.{toy};
ghost use Rattle.ssh_model.specs.Example.Histories.{says};
ghost use Rattle.ssh_model.specs.Example.Run.{session, start_of, d25};

/// The bytes that an end puts out are at most 255 for its version line, and 35,000 for each message that it sends.
pub fn few_bytes<K>()
    ensures { (p : Parties K) → AreLawful p → (side : Side) (h : List Item) (bytes : List ℕ) → EndRun p side h →
        PutsOut p side h bytes → PutsOutFew h bytes }
{}

/// The server of a run of the toys sent 10 messages for 11 packets and 2 asks, and its client owed a reply while it was blocked. A history
/// in which a server sends two messages right after its opening, unasked, is none of an end.
pub fn few_answers_example()
    ensures runs { (side : Side) → EndRun toy side (part side session) }
    ensures sent { length (messages_sent (part Server session)) ≡ 10 }
    ensures took { length (took (part Server session)) ≡ 11 }
    ensures asks { asked (part Server session) ≡ 2 }
    ensures owes { length (owed_replies Client (part Client d25)) ≡ 1 }
    ensures unasked_messages { AnswersFew Server (says (Ignore []) ∷ says (Ignore []) ∷ start_of Server) → ⊥ }
{}
