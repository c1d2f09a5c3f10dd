//! Laws of channels (RFC 4254 section 5).

ghost use Rattle.std.specs.Prelude.{ℕ, suc, Bool, true, false, List, ◌∷◌, length, Option, ◌≡◌, ◌-◌, ◌⊎◌};
ghost use Rattle.ssh_model.specs.declared.side.Side.{Side};
ghost use Rattle.ssh_model.specs.Protocol.Side.{peer, part};
ghost use Rattle.ssh_model.specs.Protocol.Channels.Message.{Message, Message.Data, Message.Request, Message.Reply, Channel, Stage.Closed};
ghost use Rattle.ssh_model.specs.Protocol.Channels.Message.{Stage.Failed, stage, over};
ghost use Rattle.ssh_model.specs.Protocol.Channels.Notes.{Note, Note.Said, Note.Took, channel_at};
ghost use Rattle.ssh_model.specs.State.Channels.Rules.{At, Free, EndRun, Run, Next};
ghost use Rattle.ssh_model.specs.Protocol.Channels.Numbers.{is_held, has_closed, send_window, receive_window, waiting_here, waiting_there};
ghost use Rattle.ssh_model.specs.Protocol.Channels.History.{Item, noted, is_free, has_place};
ghost use Rattle.ssh_model.specs.ChannelLayer.Rows.{EndTurns, Done, PairRun, Ordered};
ghost use Rattle.ssh_model.specs.Protocol.Channels.Claims.{WindowsHere, Within};
ghost use Rattle.ssh_model.specs.ChannelLayer.Claims.{DataBegins, Acceptable, WindowsKept, NotRefused, DataInOrder, Partnered, IsExample};
ghost use Rattle.ssh_model.specs.State.Channels.SinceOpen.{EachSinceOpen};

/// On every channel, at each end, data sent is at most the window taken, data taken is at most the window granted, and
/// the messages taken on it, with the parts of the window among them, are a prefix of those that the other had sent.
pub fn windows()
    ensures { (side : Side) (notes : List Note) (others : List Note) → Run side notes others → Within notes others }
{}

/// The data taken on a channel are a prefix of those said on it at the other end.
pub fn data()
    ensures { (side : Side) (notes : List Note) (others : List Note) → Run side notes others → DataBegins notes others }
{}

/// The message that comes next is refused neither for its channel nor for its windows.
pub fn no_refusal()
    ensures { (side : Side) (notes : List Note) (others : List Note) (message : Message) → Run side notes others →
        Next message notes others → Acceptable message notes }
{}

/// The same for whole runs of two ends, with replies that are owed over a key exchange: no window is overrun, the message that
/// comes next is refused neither for its channel nor for its windows, and the data of each channel come in order, on a
/// channel that has a partner.
pub fn channels()
    ensures windows { (run : List Done) → PairRun run → Ordered run → (side : Side) → WindowsKept side run }
    ensures refused { (run : List Done) → PairRun run → Ordered run → (side : Side) → NotRefused side run }
    ensures data { (run : List Done) → PairRun run → Ordered run → (side : Side) → DataInOrder side run }
    ensures partner { (run : List Done) → PairRun run → Ordered run → (side : Side) → Partnered side run }
{}

/// There is such a run, with data of both kinds on a channel whose number was used again.
pub fn channels_example()
    ensures { (run : List Done) × IsExample run }
{}

/// Each end of two makes turns of its own, and the turns of an end make a run of notes.
pub fn runs_of_one_end()
    ensures parts { (run : List Done) → PairRun run → (side : Side) → EndTurns side (part side run) }
    ensures turns { (side : Side) (history : List Item) → EndTurns side history → EndRun side (noted side history) }
    ensures here { (side : Side) (notes : List Note) (others : List Note) → Run side notes others → EndRun side notes }
    ensures there { (side : Side) (notes : List Note) (others : List Note) → Run side notes others → EndRun (peer side) others }
{}

/// One end keeps its windows whatever comes to it.
pub fn windows_here()
    ensures { (side : Side) (notes : List Note) → EndRun side notes → WindowsHere notes }
{}

/// The messages of a channel that is not over are those of the notes under its local number since its OPEN, whatever comes.
pub fn channels_since_open()
    ensures { (side : Side) (notes : List Note) → EndRun side notes → EachSinceOpen notes }
{}

/// A number is held exactly while a channel that is not over has it, which is then the one opened last there; a channel
/// is over after two CLOSEs or an OPEN_FAILURE, and not before. There is a place exactly while some number is free.
pub fn numbers_in_use()
    ensures free { (side : Side) (notes : List Note) (number : ℕ) → EndRun side notes → is_held number notes ≡ false → Free number notes }
    ensures held { (side : Side) (notes : List Note) (number : ℕ) (channel : Channel) → EndRun side notes → At number channel notes →
        (is_held number notes ≡ true) × (channel_at number notes ≡ channel) }
    ensures over { (here : List Message) (there : List Message) → over here there ≡ true →
        ((stage here ≡ Closed) × (stage there ≡ Closed)) ⊎ ((stage here ≡ Failed) ⊎ (stage there ≡ Failed)) }
    ensures place { (side : Side) (history : List Item) → has_place side history ≡ true →
        (number : ℕ) × (is_free side history number ≡ true) }
    ensures full { (side : Side) (history : List Item) (number : ℕ) → has_place side history ≡ false → is_free side history number ≡ false }
{}

/// Data and extended data lower the window left by their length.
pub fn data_spends_window()
    ensures taken { (number : ℕ) (to : ℕ) (kind : Option ℕ) (body : List ℕ) (notes : List Note) →
        receive_window number (Took number (channel_at number notes) (Data to kind body) ∷ notes)
        ≡ receive_window number notes - length body }
    ensures said { (number : ℕ) (to : ℕ) (kind : Option ℕ) (body : List ℕ) (notes : List Note) →
        send_window number (Said number (channel_at number notes) (Data to kind body) ∷ notes) ≡ send_window number notes - length body }
{}

/// A request that wants a reply waits until it is replied to; one that comes after this end's CLOSE does not wait.
pub fn waiting_requests()
    ensures taken { (number : ℕ) (to : ℕ) (notes : List Note) → has_closed number notes ≡ false →
        waiting_here number (Took number (channel_at number notes) (Request to true) ∷ notes) ≡ suc (waiting_here number notes) }
    ensures late { (number : ℕ) (to : ℕ) (notes : List Note) → has_closed number notes ≡ true →
        waiting_here number (Took number (channel_at number notes) (Request to true) ∷ notes) ≡ waiting_here number notes }
    ensures replied { (number : ℕ) (to : ℕ) (success : Bool) (notes : List Note) →
        waiting_here number (Said number (channel_at number notes) (Reply to success) ∷ notes) ≡ waiting_here number notes - 1 }
    ensures said { (number : ℕ) (to : ℕ) (notes : List Note) → waiting_there number
        (Said number (channel_at number notes) (Request to true) ∷ notes) ≡ suc (waiting_there number notes) }
    ensures answered { (number : ℕ) (to : ℕ) (success : Bool) (notes : List Note) →
        waiting_there number (Took number (channel_at number notes) (Reply to success) ∷ notes) ≡ waiting_there number notes - 1 }
{}
