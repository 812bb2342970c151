// A law that gives what a call requires.
ghost use Rattle.std.specs.Prelude.{◌≡◌, Ok};
ghost use Rattle.dutch_arrangements.specs.Prelude.{IsIn, arrangements, cursor_of};

use dutch_arrangements::{Bracket, Cursor, Shape};

/// A cursor that was read is an arrangement of the bracket and shape: so a listing can begin behind it.
#[tactic(auto, using(crate::proofs::Cursors::cursor_is_in))]
pub fn a_cursor_is_of_its_bracket(bracket: &Bracket, shape: Shape, text: &str, cursor: &Cursor)
    requires { cursor_of bracket.now shape text.now ≡ Ok cursor.now }
    ensures { IsIn cursor.now (arrangements bracket.now shape) }
{
    // (so that what holds of every bracket is known of this one)
    let _scores = bracket.scores();
}
