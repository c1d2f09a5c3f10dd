use ssh_packet::Filler;

/// Fills with one byte.
#[derive(Clone, Copy)]
pub struct ToyFiller {
    /// The byte.
    pub byte: u8,
}

impl Filler for ToyFiller {
    ghost use Rattle.ssh_toys.specs.Standard.{gives_byte};

    ghost gives = { gives_byte };

    fn fill(&mut self, out: &mut [u8]) {
        out.fill(self.byte);
    }
}
