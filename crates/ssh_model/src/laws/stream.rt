ghost use Rattle.std.specs.Prelude.{◌≡◌, ◌++◌, ◌⊎◌, ◌↔◌, ℕ, Bool, false, List, []};
ghost use Rattle.ssh_model.specs.Protocol.Wire.DataTypes.{AreBytes};
ghost use Rattle.ssh_model.specs.Protocol.Wire.Delivery.{Delivered, Waits};
ghost use Rattle.ssh_model.specs.Laws.Delivery.{InPieces};
ghost use Rattle.ssh_model.specs.Protocol.Wire.Outcome.{Outcome};
ghost use Rattle.ssh_model.specs.Laws.Units.{HasUnit, IsStage, IsPartialUnit};
ghost use Rattle.ssh_model.specs.Protocol.Wire.Sealing.{Crypto, IsSealing};
ghost use Rattle.ssh_model.specs.Protocol.Wire.Unit.{IsUnit, Stage, reading};

/// At one stage no unit of the stream is a prefix of another, a unit has one outcome and at least one byte, and bytes
/// begin with a unit exactly if they are not a prefix of one.
pub fn stream_units<K>()
    ensures stand_alone { (c : Crypto K) (stage : Stage K) (unit more other : List ℕ) (a b : Outcome) → IsSealing c →
        IsUnit c stage unit a → IsUnit c stage other b → unit ++ more ≡ other → more ≡ [] }
    ensures have_one_outcome { (c : Crypto K) (stage : Stage K) (unit : List ℕ) (a b : Outcome) → IsSealing c → IsUnit c stage unit a →
        IsUnit c stage unit b → a ≡ b }
    ensures have_bytes { (c : Crypto K) (stage : Stage K) (a : Outcome) → IsSealing c → IsUnit c stage [] a → ⊥ }
    ensures come_after_what_is_begun { (c : Crypto K) (stage : Stage K) (bytes unit more : List ℕ) (a : Outcome) → IsSealing c →
        IsPartialUnit c stage bytes → unit ++ more ≡ bytes → IsUnit c stage unit a → ⊥ }
    ensures leave_no_gap { (c : Crypto K) (stage : Stage K) (bytes : List ℕ) → IsSealing c → IsStage stage → AreBytes bytes →
        IsPartialUnit c stage bytes ⊎ HasUnit (IsUnit c stage) bytes }
{}

/// An end to which a stream comes. Its stage is a function of its history.
pub trait StreamEnd {
    ghost History: { Type 0 };

    ghost Key: { Type 0 };

    ghost crypto: { Crypto Self.Key };

    ghost stage: { Self.History → Stage Self.Key };

    ghost after: { Self.History → List ℕ → Self.History → Type 0 };

    ghost is_dead: { Self.History → Bool };
}

/// Two pieces of the stream one after the other allow the same histories, and leave the same bytes, as the one piece of both.
pub fn any_pieces<E: StreamEnd>()
    ensures { IsSealing E.crypto → (h last : E.History) (one two rest : List ℕ) →
        Delivered (reading E.crypto E.stage E.after E.is_dead) h (one ++ two) last rest ↔ InPieces
        (reading E.crypto E.stage E.after E.is_dead) h one two last rest }
{}

/// An end that is not dead waits exactly while it has a prefix of a unit.
pub fn waits_where_begun<E: StreamEnd>()
    ensures begun_waits { IsSealing E.crypto → (h : E.History) (bytes : List ℕ) → IsPartialUnit E.crypto (E.stage h) bytes →
        Waits (reading E.crypto E.stage E.after E.is_dead) h bytes }
    ensures waits_begun { IsSealing E.crypto → (h : E.History) (bytes : List ℕ) → E.is_dead h ≡ false → IsStage (E.stage h) →
        AreBytes bytes → Waits (reading E.crypto E.stage E.after E.is_dead) h bytes → IsPartialUnit E.crypto (E.stage h) bytes }
{}
