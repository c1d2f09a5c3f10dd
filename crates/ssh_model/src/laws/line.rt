ghost use Rattle.std.specs.Prelude.{◌≡◌, ◌++◌, ◌⊎◌, ℕ, Bool, true, false, List, [], ◌∷◌, codes, replicate, Option, Some};
ghost use Rattle.ssh_model.specs.Protocol.Wire.Line.{LineUnit, line_end};
ghost use Rattle.ssh_model.specs.Laws.Units.{IsPartialLine, IsVersionLine, HasUnit};
ghost use Rattle.ssh_model.specs.Protocol.Wire.Outcome.{Outcome, Outcome.OtherLine, Outcome.RefusedLine, Outcome.VersionLine};
ghost use Rattle.ssh_model.specs.declared.refusal.Refusal.TheVariants.{BadLine, BadVersion};

/// Before the version line (RFC 4253 section 4.2) no unit of the stream is a prefix of another, a unit has one outcome
/// and at least one byte, and bytes begin with a unit exactly if they are not a prefix of a line.
pub fn line_units()
    ensures stand_alone { (from_server : Bool) (others : ℕ) (unit more other : List ℕ) (a b : Outcome) →
        LineUnit from_server others unit a → LineUnit from_server others other b → unit ++ more ≡ other → more ≡ [] }
    ensures have_one_outcome { (from_server : Bool) (others : ℕ) (unit : List ℕ) (a b : Outcome) → LineUnit from_server others unit a →
        LineUnit from_server others unit b → a ≡ b }
    ensures have_bytes { (from_server : Bool) (others : ℕ) (a : Outcome) → LineUnit from_server others [] a → ⊥ }
    ensures come_after_what_is_begun { (from_server : Bool) (others : ℕ) (bytes unit more : List ℕ) (a : Outcome) → IsPartialLine bytes →
        unit ++ more ≡ bytes → LineUnit from_server others unit a → ⊥ }
    ensures leave_no_gap { (from_server : Bool) (others : ℕ) (bytes : List ℕ) →
        IsPartialLine bytes ⊎ HasUnit (LineUnit from_server others) bytes }
{}

/// A version line names one version of the protocol, one version of the software, and one comment or none.
pub fn one_version()
    ensures { (protoversion software : List ℕ) (comments : Option (List ℕ)) (other_version other_software : List ℕ)
        (other_comments : Option (List ℕ)) (bytes : List ℕ) → IsVersionLine protoversion software comments bytes →
        IsVersionLine other_version other_software other_comments bytes →
        (protoversion ≡ other_version) × (software ≡ other_software) × (comments ≡ other_comments) }
{}

/// The outcomes of some bytes at an end that awaits the version line.
pub fn line_examples()
    ensures version { LineUnit false 0 (codes "SSH-2.0-x" ++ line_end) (VersionLine (codes "SSH-2.0-x")) }
    ensures version_after_others { LineUnit true 64 (codes "SSH-2.0-x" ++ line_end) (VersionLine (codes "SSH-2.0-x")) }
    ensures comments { IsVersionLine (codes "2.0") (codes "x") (Some (codes "of-y z")) (codes "SSH-2.0-x of-y z" ++ line_end) }
    ensures old_version_of_a_server { LineUnit true 0 (codes "SSH-1.99-x" ++ line_end) (VersionLine (codes "SSH-1.99-x")) }
    ensures old_version_of_a_client { LineUnit false 0 (codes "SSH-1.99-x" ++ line_end) (RefusedLine BadVersion) }
    ensures only_one_minus { LineUnit true 0 (codes "SSH-2.0" ++ line_end) (RefusedLine BadLine) }
    ensures no_software { LineUnit true 0 (codes "SSH-2.0-" ++ line_end) (RefusedLine BadLine) }
    ensures other_line_of_a_server { LineUnit true 63 (codes "hello" ++ line_end) (OtherLine (codes "hello")) }
    ensures one_other_line_too_many { LineUnit true 64 (codes "hello" ++ line_end) (RefusedLine BadLine) }
    ensures other_line_of_a_client { LineUnit false 0 (codes "hello" ++ line_end) (RefusedLine BadLine) }
    ensures lf_alone { LineUnit false 0 (codes "SSH-2.0-x" ++ 10 ∷ []) (RefusedLine BadLine) }
    ensures cr_alone { LineUnit false 0 (codes "SSH-2.0-x" ++ 13 ∷ 13 ∷ []) (RefusedLine BadLine) }
    ensures zero_byte { LineUnit false 0 (codes "SSH-2.0" ++ 0 ∷ []) (RefusedLine BadLine) }
    ensures longest { LineUnit false 0 (codes "SSH-2.0-x " ++ (replicate 243 97 ++ line_end))
        (VersionLine (codes "SSH-2.0-x " ++ replicate 243 97)) }
    ensures longer { LineUnit false 0 (codes "SSH-2.0-x " ++ (replicate 244 97 ++ 13 ∷ [])) (RefusedLine BadLine) }
    ensures buffered { IsPartialLine (codes "SSH-2.0-x" ++ 13 ∷ []) }
{}
