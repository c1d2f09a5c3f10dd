//! Laws of one end alone, whatever comes to it.

ghost use Rattle.std.specs.Prelude.{◌≡◌, ◌<◌, ℕ, List, [], ◌∷◌, length, map, true, false, Option, Some, None};
ghost use Rattle.ssh_model.specs.declared.side.Side.{Side};
ghost use Rattle.ssh_model.specs.Protocol.Side.{part};
ghost use Rattle.ssh_model.specs.Protocol.Sessions.Parties.{Parties, AreLawful};
ghost use Rattle.ssh_model.specs.Protocol.Sessions.Items.{Ask, Item, Item.Asked, Item.SentLine, Item.Sent, Item.Refused, Item.Died, Done};
ghost use Rattle.ssh_model.specs.Protocol.Sessions.Items.{has_died, sent};
ghost use Rattle.ssh_model.specs.Protocol.Sessions.Turns.{AsksTurn, EndRun, OnOutcome, OnUnit, Refuses, Run, Turn, ask_checks, can_feed};
ghost use Rattle.ssh_model.specs.Protocol.Sessions.Turns.{stage};
ghost use Rattle.ssh_model.specs.Protocol.Sessions.TurnClaims.{HasNumbers};
ghost use Rattle.ssh_model.specs.Laws.Turns.{AreGood, DiesAt, EndsWithLine, EndsWithPacket, HasUint32s, shown};
ghost use Rattle.ssh_model.specs.Protocol.Sessions.TurnClaims.{KeepsToExchange};
ghost use Rattle.ssh_model.specs.Protocol.Sessions.Events.{Event, IsFirst, Plays, PutsOut, World, rest_of};
ghost use Rattle.ssh_model.specs.Protocol.Sessions.Claims.{WindowsAt};
ghost use Rattle.ssh_model.specs.Protocol.Wire.Message.{Msg, Msg.Disconnect};
ghost use Rattle.ssh_model.specs.Protocol.Wire.Sealing.{IsSealing};
ghost use Rattle.ssh_model.specs.declared.refusal.Refusal.{Refusal};
ghost use Rattle.ssh_model.specs.declared.refusal.Refusal.TheVariants.{NumberSpent};
ghost use Rattle.ssh_model.specs.Protocol.Sessions.Refusals.{first_refusal, refusal_name, refusal_reason};
ghost use Rattle.ssh_model.specs.Protocol.Sessions.Epochs.{count};
ghost use Rattle.ssh_model.specs.Protocol.Sessions.Phases.{has_material};
ghost use Rattle.ssh_model.specs.Protocol.KeyExchange.Exchanges.{fed};
ghost use Rattle.ssh_model.specs.Protocol.Wire.Outcome.{Outcome};
ghost use Rattle.ssh_model.specs.Protocol.Wire.Unit.{IsUnit};
ghost use Rattle.ssh_model.specs.Protocol.Bounds.{most_exchanges, numbers_of_epoch};

/// The part of each end in a run of two ends is a run of that end, so each law of one end holds of both.
pub fn runs_of_each_end<K>()
    ensures { (p : Parties K) (run : List Done) → Run p run → (side : Side) → EndRun p side (part side run) }
{}

/// An end never sends two payloads under one number of an epoch, and keeps its windows.
pub fn kept_by_one_end<K>()
    ensures numbers { (p : Parties K) (side : Side) (h : List Item) → EndRun p side h → HasNumbers h }
    ensures windows { (p : Parties K) → AreLawful p → (side : Side) (h : List Item) → EndRun p side h → WindowsAt side h }
{}

/// Between its KEXINIT and its NEWKEYS an end sends DISCONNECT, UNIMPLEMENTED and the messages of the exchange (1, 3,
/// 20, 21, 30 and 31), and nothing else (RFC 4253 section 7.1).
pub fn blocked_ends<K>()
    ensures { (p : Parties K) → AreLawful p → (side : Side) (h : List Item) → EndRun p side h → KeepsToExchange h }
{}

/// A dead end takes no turn, and keeps no bytes.
pub fn dead_ends<K>()
    ensures do_nothing { (p : Parties K) (side : Side) (h items : List Item) → has_died h ≡ true → Turn p side h items → items ≡ [] }
    ensures keep_nothing { (p : Parties K) (before after : World) (events : List Event) → IsFirst p before → Plays p before events after →
        (side : Side) → has_died (part side after.run) ≡ true → rest_of after side ≡ [] }
{}

/// An end dies of a failed allocation only at a unit whose turn sends something or makes a channel, and at an ask that it
/// doesn't refuse.
pub fn deaths<K>()
    ensures units { (p : Parties K) (side : Side) (h : List Item) (unit : List ℕ) → OnUnit p side h unit (Died ∷ []) →
        DiesAt p side h unit }
    ensures asks { (p : Parties K) (side : Side) (h : List Item) (ask : Ask) → AsksTurn p side h ask (Died ∷ []) →
        first_refusal (ask_checks p side h ask) ≡ None }
{}

/// An end that refuses its peer dies. If the refusal has a reason code and a sequence number is left, the end says so in
/// a DISCONNECT with that code and the name of the refusal.
pub fn refusals_are_said()
    ensures silently { (h items : List Item) (why : Refusal) (payload : Option (List ℕ)) → refusal_reason why ≡ None →
        Refuses h why payload items → items ≡ Died ∷ Refused why payload ∷ [] }
    ensures aloud { (h items : List Item) (why : Refusal) (reason : ℕ) (payload : Option (List ℕ)) → refusal_reason why ≡ Some reason →
        count (sent h) < numbers_of_epoch → Refuses h why payload items →
        map shown items ≡ Died ∷ Sent None (Disconnect reason (refusal_name why) []) [] ∷ Refused why payload ∷ [] }
    ensures when_spent { (h items : List Item) (why : Refusal) (payload : Option (List ℕ)) → count (sent h) ≡ numbers_of_epoch →
        Refuses h why payload items → items ≡ Died ∷ Refused why payload ∷ [] }
{}

/// If all numbers of its epoch are spent, an end dies at an ask that it doesn't refuse.
pub fn asks_when_spent<K>()
    ensures { (p : Parties K) (side : Side) (h items : List Item) (ask : Ask) → has_died h ≡ false →
        first_refusal (ask_checks p side h ask) ≡ None → count (sent h) ≡ numbers_of_epoch → AsksTurn p side h ask items →
        items ≡ Died ∷ Refused NumberSpent None ∷ Asked ask ∷ [] }
{}

/// An end keeps one pair of cookie and secret at a time, and is fed at most 2^32 - 1 of them.
pub fn feeding()
    ensures feeds_one { (h : List Item) → has_died h ≡ false → has_material h ≡ false → length (fed h) < most_exchanges →
        can_feed h ≡ true }
    ensures keeps_one { (h : List Item) → has_material h ≡ true → can_feed h ≡ false }
    ensures most { (h : List Item) → length (fed h) ≡ most_exchanges → can_feed h ≡ false }
{}

/// The bytes that an end puts out: its version line with CR LF, and for each payload a packet that opens to it, under the key and
/// the sequence number of its place.
pub fn bytes_put_out<K>()
    ensures line { (p : Parties K) (side : Side) (h : List Item) (line bytes : List ℕ) → PutsOut p side (SentLine line ∷ h) bytes →
        EndsWithLine p side h line bytes }
    ensures packet { (p : Parties K) → IsSealing p.crypto → (side : Side) (h : List Item) (channel : Option ℕ) (message : Msg)
        (payload bytes : List ℕ) → PutsOut p side (Sent channel message payload ∷ h) bytes → EndsWithPacket p side h payload bytes }
{}

/// Nothing is left without an answer. At an end whose settings are good, every unit that it finds in its stream has an
/// outcome, and every ask has a turn other than death, whatever came before.
pub fn nothing_unanswered<K>()
    ensures units { (p : Parties K) → AreLawful p → (side : Side) → AreGood p side → (h : List Item) → EndRun p side h →
        (unit : List ℕ) (outcome : Outcome) → IsUnit p.crypto (stage p side h) unit outcome →
        (items : List Item) × OnOutcome p side h outcome items }
    ensures asks { (p : Parties K) → AreLawful p → (side : Side) → AreGood p side → (h : List Item) → EndRun p side h →
        has_died h ≡ false → (ask : Ask) → HasUint32s ask → (items : List Item) × AsksTurn p side h ask items × (items ≡ Died ∷ [] → ⊥) }
{}

/// A play that begins when two ends have opened gives a run.
pub fn played_from_the_first<K>()
    ensures { (p : Parties K) (before after : World) (events : List Event) → IsFirst p before → Plays p before events after →
        Run p after.run }
{}
