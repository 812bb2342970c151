// What the calls on a bracket ask for (C.04.3 A.3, C.4 to C.19): where it comes from, it holds.
ghost use Rattle.std.specs.Prelude.{◌≡◌, Some};
ghost use Rattle.dutch_arrangements.specs.Prelude.{IsIn, down};
ghost use Rattle.dutch_bracket.specs.Prelude.{HasCandidate, IsAbove, IsNext, IsOfBracket, candidates_of, first_group, frame_of};
ghost use Rattle.dutch_bracket.specs.Prelude.{scoregroups, shape_of};
ghost use Rattle.dutch_rounds.specs.Prelude.{IsStage, lower_of, round, bracket_and_shape, visit_of};

use dutch_arrangements::{Candidate, Shape};
use dutch_player::Field;
use dutch_player::laws::scores_do_not_ascend;
use dutch_rounds::{Reached, Stage};

/// A bracket of a round stands above the players below it, and above them it has its shape: whoever has asked for the
/// bracket can ask for its choice.
pub fn a_bracket_stands_above_the_lower(field: &Field, number: u16, reached: &Reached, shape: Shape)
    requires { bracket_and_shape (visit_of number (round field.now).reached) ≡ Some (reached.now, shape) }
    ensures above { IsAbove field.now reached.now (lower_of field.now reached.now) }
    ensures shape { shape_of field.now reached.now (lower_of field.now reached.now) ≡ Some shape }
    ensures candidate { HasCandidate field.now reached.now (lower_of field.now reached.now) }
{
    scores_do_not_ascend(field);
}

/// The first scoregroup of the players below a bracket is the next one for its quality.
#[tactic(auto, using(dutch_bracket::proofs::NextGroups::first_is_next))]
pub fn the_first_scoregroup_is_next(field: &Field, reached: &Reached, lower: &[u16])
    requires { IsAbove field.now reached.now lower.now }
    ensures { IsNext field.now reached.now (first_group field.now (scoregroups field.now lower.now)) }
{}

/// The bracket of a stage of a round stands above the players below it, and above them it has its shape and a
/// candidate. So whoever has asked for the stages can ask for the choice in it, and for the quality of each of its
/// candidates.
pub fn a_stage_stands_above_the_lower(field: &Field, stage: &Stage)
    requires { IsStage field.now stage.now }
    ensures above { IsAbove field.now stage.now.reached (lower_of field.now stage.now.reached) }
    ensures shape { shape_of field.now stage.now.reached (lower_of field.now stage.now.reached) ≡ Some stage.now.shape }
    ensures candidate { HasCandidate field.now stage.now.reached (lower_of field.now stage.now.reached) }
{}

/// A candidate of a bracket and a shape is one whose quality can be asked for.
#[tactic(auto, using(dutch_rounds::proofs::WalkEnds::candidate_of_bracket))]
pub fn candidates_are_of_the_bracket(
    field: &Field,
    reached: &Reached,
    shape: Shape,
    candidate: &Candidate,
)
    requires listed { IsIn candidate.now.lists (candidates_of field.now reached.now shape) }
    requires left { candidate.now.down ≡ down (frame_of field.now reached.now) candidate.now.lists }
    ensures { IsOfBracket field.now reached.now candidate.now }
{}
