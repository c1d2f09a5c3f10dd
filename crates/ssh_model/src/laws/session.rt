ghost use Rattle.std.specs.Prelude.{◌++◌, ◌↔◌, ℕ, List};
ghost use Rattle.ssh_model.specs.declared.side.Side.{Side};
ghost use Rattle.ssh_model.specs.Protocol.Side.{part};
ghost use Rattle.ssh_model.specs.Protocol.Sessions.Parties.{Parties, AreLawful, BothOffer};
ghost use Rattle.ssh_model.specs.Protocol.Sessions.Items.{Done};
ghost use Rattle.ssh_model.specs.Protocol.Sessions.Turns.{Run};
ghost use Rattle.ssh_model.specs.Protocol.Wire.Delivery.{Delivered};
ghost use Rattle.ssh_model.specs.Laws.Delivery.{InPieces};
ghost use Rattle.ssh_model.specs.Protocol.Sessions.Events.{Event, Plays, World, reading_of};
ghost use Rattle.ssh_model.specs.Protocol.Sessions.Honest.{IsHonest};
ghost use Rattle.ssh_model.specs.Protocol.Wire.Sealing.{IsSealing};
ghost use Rattle.ssh_model.specs.Protocol.Sessions.Claims.{Agreement, Authorized, Beginning, IsSafe, NoFalseAlarm, Windows, WindowsAt};

/// In an honest run of two ends that offer strict key exchange, they agree on the eight inputs of each exchange that the
/// client completed, or under whose keys the server took a message.
pub fn agreement<K>()
    ensures { (p : Parties K) → AreLawful p → BothOffer p → (run : List Done) → Run p run → IsHonest p run → Agreement p run }
{}

/// In an honest run of two ends that offer strict key exchange, the payloads that each end took after its first NEWKEYS are
/// a prefix of those that the other sent after its own.
pub fn beginning<K>()
    ensures { (p : Parties K) → AreLawful p → BothOffer p → (run : List Done) → Run p run → IsHonest p run → Beginning run }
{}

/// In an honest run of two ends that offer strict key exchange, no channel is held and no message numbered 80 or above
/// was sent or taken, unless the server accepted a request that the client had sent.
pub fn authorized<K>()
    ensures { (p : Parties K) → AreLawful p → BothOffer p → (run : List Done) → Run p run → IsHonest p run → Authorized p run }
{}

/// In an honest run of two ends that offer strict key exchange, no window is overrun. On every channel, at each end,
/// data sent is at most the window taken, and data taken is at most the window granted. The other end had sent each part of
/// the window taken.
pub fn windows<K>()
    ensures { (p : Parties K) → AreLawful p → BothOffer p → (run : List Done) → Run p run → IsHonest p run → Windows run }
{}

/// Each end keeps its windows in every run, whatever comes to it.
pub fn windows_at_each_end<K>()
    ensures { (p : Parties K) → AreLawful p → (run : List Done) → Run p run → (side : Side) → WindowsAt side (part side run) }
{}

/// In an honest run of two ends that offer strict key exchange, neither end refuses the other for its channels or
/// windows. The data taken on a channel are a prefix of those sent on it. Each channel on which data was taken has
/// a partner: both ends have its whole OPEN, at the same place among the payloads after the first NEWKEYS.
pub fn no_false_alarm<K>()
    ensures { (p : Parties K) → AreLawful p → BothOffer p → (run : List Done) → Run p run → IsHonest p run → NoFalseAlarm run }
{}

/// In an honest run of two ends that offer strict key exchange, all of this holds. They agree, and take a prefix of what the
/// other sent. They hold no channel before an accepted request, overrun no window, and don't refuse each other for channels
/// or windows.
pub fn safety<K>()
    ensures { (p : Parties K) → AreLawful p → BothOffer p → (run : List Done) → Run p run → IsHonest p run → IsSafe p run }
{}

/// All asks, feeds and deliveries give a run, so each law of runs holds of it at every moment.
pub fn every_play<K>()
    ensures { (p : Parties K) → (before after : World) (events : List Event) → Plays p before events after → Run p before.run →
        Run p after.run }
{}

/// A prefix of an honest run is honest.
pub fn honest_beginnings<K>()
    ensures { (p : Parties K) → (more run : List Done) → IsHonest p (more ++ run) → IsHonest p run }
{}

/// Two pieces that are delivered to an end one after the other allow the same histories, and leave the same bytes, as the
/// one piece of both.
pub fn session_pieces<K>()
    ensures { (p : Parties K) → IsSealing p.crypto → (side : Side) (run last : List Done) (one two rest : List ℕ) →
        Delivered (reading_of p side) run (one ++ two) last rest ↔ InPieces (reading_of p side) run one two last rest }
{}
