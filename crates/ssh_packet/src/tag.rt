//! Tags compared.

ghost use Rattle.std.specs.Prelude.{◌≡◌};
ghost use Rattle.ssh_model.specs.Protocol.Wire.DataTypes.{is_text};

/// Tests whether two tags are the same, by all of their bytes wherever they first differ. Tags of different lengths, which are known,
/// differ at once. So the source has no branch on a byte of a tag; what a compiler makes of it is not proved.
#[tactic(auto, using(crate::proofs::Tags::last_byte, crate::proofs::Tags::one_byte))]
pub fn tags_equal(found: &[u8], expected: &[u8]) -> bool
    ensures { result ≡ is_text found.now expected.now }
{
    if found.len() != expected.len() {
        return false;
    }
    let mut difference = 0u8;
    for i in 0..found.len() {
        difference |= found[i] ^ expected[i];
    }
    difference == 0
}
