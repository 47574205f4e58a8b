// How far a run has come that makes many pages.
ghost use Rattle.std.specs.Prelude.{ℕ};

/// What is told how far a run has come.
pub trait Progress {
    // What it may be after it took that so many pages are done, of so many.
    ghost tells: { Self → ℕ → ℕ → Self → Type 0 };

    /// Takes that so many pages are done, of so many.
    fn tell(&mut self, done: usize, all: usize)
        ensures { tells self.old done all self.new };
}
