// Laws of pairs in form: which pairs are those of an arrangement (C.04.3 B.2, B.3), and when there is one with a pair
// more.
ghost use Rattle.std.specs.Prelude.{◌≤◌, ◌<◌, ℕ, List, length};
ghost use Rattle.dutch_sequence.specs.Keys.{IsIn};
ghost use Rattle.dutch_arrangements.specs.Arrangements.{Frame, Arrangement, arrangements, down};
ghost use Rattle.dutch_arrangements.specs.declared.bracket.Shape.{Shape};
ghost use Rattle.dutch_arrangements.specs.Forms.{HasArrangement, IsInForm, TakesPair, pairs_by_number};

/// Pairs in form are those of some arrangement of their shape, and the pairs of each arrangement are in form.
pub fn pairs_in_form_are_arranged()
    ensures arranged { (frame : Frame) (shape : Shape) (pairs : List (ℕ × ℕ)) → frame.mdps ≤ length frame.scores
        → IsInForm frame shape pairs
        → HasArrangement frame shape pairs }
    ensures in_form { (frame : Frame) (shape : Shape) (a : Arrangement) → frame.mdps ≤ length frame.scores
        → shape.mdps ≤ shape.pairs
        → IsIn a (arrangements frame shape) → IsInForm frame shape (pairs_by_number a) }
{}

/// Two downfloaters of an arrangement, not both moved down, can be put among its pairs as a pair, the smaller number
/// first, and they stay in form.
pub fn downfloaters_make_a_pair()
    ensures { (frame : Frame) (shape : Shape) (a : Arrangement) (x y : ℕ) → frame.mdps ≤ length frame.scores
        → shape.mdps ≤ shape.pairs
        → IsIn a (arrangements frame shape) → IsIn x (down frame a) → IsIn y (down frame a) → x < y → frame.mdps < y
        → TakesPair frame shape a (x, y) }
{}
