//! What a program says on the questions of an end.

ghost use Rattle.std.specs.Prelude.{Bool};

/// A program's look-up: it says in its own time whether the program accepts what an end asks, as a look into a table, a directory or a
/// database does, or a person who is asked. A `Question` is `ssh_held::Asked` or `ssh_held::HostAsked`.
pub trait LookUp<Question> {
    /// How an answer to a question takes it from one state to another. One whose answers come from outside promises nothing here.
    ghost answers: { Self → Question → Bool → Self → Type 0 };

    /// Says whether the program accepts.
    fn answer(&mut self, question: &Question) -> bool
        ensures { answers self.old question.now result self.new };
}
