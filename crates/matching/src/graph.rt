// What is matched: vertices and which of them are joined.
ghost use Rattle.std.specs.Prelude.{◌≡◌, ◌<◌, ℕ, Bool};

/// Vertices from 0 on, some of which are joined.
pub trait Graph {
    /// How many vertices there are.
    ghost vertices: { Self → ℕ };

    /// Two vertices are joined.
    ghost joined: { Self → ℕ → ℕ → Bool };

    /// How many vertices there are.
    fn size(&self) -> u16
        ensures { result ≡ vertices self.now };

    /// Yes if a matching may make a pair of the vertices `a` and `b`.
    fn joins(&self, a: u16, b: u16) -> bool
        requires first { a < vertices self.now }
        requires second { b < vertices self.now }
        ensures { result ≡ joined self.now a b };
}
