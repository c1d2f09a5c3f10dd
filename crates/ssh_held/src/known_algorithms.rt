//! Which signatures an end judges by itself.

ghost use Rattle.std.specs.Prelude.{◌≡◌, Bool, List, ℕ};

/// A judge of signatures that says which algorithms it knows. An end asks its program about the signatures of all others.
pub trait KnowsAlgorithms {
    ghost knows: { Self → List ℕ → Bool };

    /// Tests whether it judges the signatures of this algorithm.
    fn knows(&self, algorithm: &[u8]) -> bool
        ensures { result ≡ knows self.now algorithm.now };
}
