// What is matched: vertices, which of them are joined, and what that costs.
ghost use Rattle.std.specs.Prelude.{◌≡◌, ◌<◌, ℕ, Bool, is_some};

use dual::Wide;

/// Vertices from 0 on. Some of them are joined, at a cost, and each that is left over costs something too.
pub trait Costs {
    /// What vertices have in common that cost about the same with all others.
    type Class: Copy + PartialEq + Drop;

    /// How many vertices there are.
    ghost vertices: { Self → ℕ };

    /// Two vertices are joined.
    ghost joined: { Self → ℕ → ℕ → Bool };

    /// How many vertices there are.
    fn size(&self) -> u16
        ensures { result ≡ vertices self.now };

    /// What a pair of the vertices `a` and `b` costs; none if they are not joined.
    fn cost(&self, a: u16, b: u16) -> Option<Wide>
        requires first { a < vertices self.now }
        requires second { b < vertices self.now }
        ensures { is_some result ≡ joined self.now a b };

    /// What it costs to leave a vertex over; none if it must not be, which is taken for more than any matching costs.
    fn left_cost(&self, a: u16) -> Option<Wide>
        requires { a < vertices self.now };

    /// The class of a vertex. Nothing is said of it: it changes only how long a search takes, and which of several
    /// cheapest matchings is found.
    fn class(&self, a: u16) -> Self::Class
        requires { a < vertices self.now };

    /// Yes if all joined vertices of the same two classes cost the same, and so does leaving over each vertex of a class
    /// that is joined to some. Then one pair of two classes tells what all their pairs gain. Nothing is said of it: it
    /// changes only how long a search takes. But if it is wrong to say yes, what is found need not be cheapest, and its
    /// certificate is none.
    fn costs_by_class(&self) -> bool;

    /// Where a vertex begins to look for its first partner: with the vertex of this number, and then with those behind it.
    /// Nothing is said of it: it changes only how long a search takes, and which of several cheapest matchings is found.
    fn looks_from(&self, a: u16) -> u16
        requires { a < vertices self.now };
}
