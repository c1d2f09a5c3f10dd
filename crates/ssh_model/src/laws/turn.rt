ghost use Rattle.std.specs.Prelude.{◌≡◌, ℕ, List, map, Option};
ghost use Rattle.ssh_model.specs.Protocol.Wire.Message.{Msg};
ghost use Rattle.ssh_model.specs.declared.side.Side.{Side};
ghost use Rattle.ssh_model.specs.Protocol.Side.{part};
ghost use Rattle.ssh_model.specs.Protocol.Sessions.Parties.{Parties, AreLawful};
ghost use Rattle.ssh_model.specs.Protocol.Sessions.Items.{Ask, Item, Done};
ghost use Rattle.ssh_model.specs.Protocol.Sessions.Phases.{Phase.Guessed, phase};
ghost use Rattle.ssh_model.specs.Protocol.Sessions.Turns.{Answer, AsksTurn, FeedsTurn, OnPayload, OnUnit, Run};
ghost use Rattle.ssh_model.specs.Protocol.Sessions.TurnClaims.{HasNumbers};
ghost use Rattle.ssh_model.specs.Laws.Turns.{AreAlike, IsSkipped, shown};

/// The packet after a wrong guess (RFC 4253 section 7) is skipped, or its number is refused, and it is never read.
pub fn guesses_are_skipped<K>()
    ensures { (p : Parties K) (side : Side) (h items : List Item) (payload : List ℕ) → phase p side h ≡ Guessed →
        OnPayload p side h payload items → IsSkipped p side h payload items }
{}

/// An end never sends two payloads under one number of an epoch: each number is a uint32, and one more than the last.
pub fn numbers_are_fresh<K>()
    ensures { (p : Parties K) (run : List Done) → Run p run → (side : Side) → HasNumbers (part side run) }
{}

/// The answer of an end is fixed by its history, the message that it took and the number that it gives a channel. The
/// payload of a message that it sends is one that encodes it.
pub fn answers_are_fixed<K>()
    ensures { (p : Parties K) (side : Side) (h : List Item) (channel : Option ℕ) (message : Msg) (items others : List Item) →
        Answer p side h channel message items → Answer p side h channel message others → map shown items ≡ map shown others }
{}

/// The turn of an end on a unit of its stream, an ask or a feed is fixed by its history. Two outcomes are the same except
/// for the payloads of sent messages and the number that a new channel gets, or the end died in one of them because memory
/// failed.
pub fn turns_are_fixed<K>()
    ensures units { (p : Parties K) → AreLawful p → (side : Side) (h : List Item) (unit : List ℕ) (items others : List Item) →
        OnUnit p side h unit items → OnUnit p side h unit others → AreAlike items others }
    ensures asks { (p : Parties K) (side : Side) (h : List Item) (ask : Ask) (items others : List Item) → AsksTurn p side h ask items →
        AsksTurn p side h ask others → AreAlike items others }
    ensures feeds { (side : Side) (h : List Item) (cookie secret : List ℕ) (items others : List Item) →
        FeedsTurn side h cookie secret items → FeedsTurn side h cookie secret others → items ≡ others }
{}
