// The greatest shape of a bracket by a listing of few steps (C.04.3 C.5, B.1), which tells nearly all shapes.
ghost use Rattle.std.specs.Prelude.{◌≡◌, IfOk, IfSome};
ghost use Rattle.dutch_arrangements.specs.Prelude.{MatchFound, Spends};
ghost use Rattle.dutch_bracket.specs.Shapes.{IsFound};

use crate::greatest::{Lister, Shapes, greatest_shape};
use dutch_arrangements::{Budget, Rule, Shape, Stopped};
use dutch_bracket::spending::at_most;

/// The greatest shape by a listing of so many steps, the first arrangement of which is drawn. None says that they did
/// not suffice.
pub fn decided_in_few_steps<R: Rule, S: Shapes<R>>(
    asked: &S,
    lister: &mut Lister<'_, R>,
    steps: u64,
    budget: &mut Budget,
) -> Result<Option<Option<Shape>>, Stopped>
    requires lists { S.lists asked.now lister.old.listing }
    ensures answer { MatchFound result
        (λ found. IsFound (S.counting asked.now) (S.frame asked.now) found lister.new.drawn)
        (Unit {0})
        (budget.new.used ≡ budget.new.limit) }
    ensures stands { IfOk result (λ told. IfSome told (λ found. IfSome found
        (λ shape. S.stands asked.now shape lister.new.listing lister.new.drawn))) }
    ensures lists { S.lists asked.now lister.new.listing }
    ensures spends { Spends budget.old budget.new }
{
    let mut few = at_most(steps, budget);
    let found = greatest_shape(asked, lister, &mut few);
    budget.used = few.used;
    match found {
        Ok(shape) => Ok(Some(shape)),
        Err(Stopped) if budget.used == budget.limit => Err(Stopped),
        Err(Stopped) => Ok(None),
    }
}
