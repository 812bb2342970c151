// What the lists of choices have in common: they hand out one choice after another, specified by the list of those
// that are still to come.
ghost use Rattle.std.specs.Prelude.{◌≡◌, ◌+◌, ◌<◌, [], ◌∷◌};
ghost use Rattle.dutch_sequence.specs.Steps.{Ahead, MatchDrawn, MatchStep, Spends};

use crate::numbers::Numbers;
use crate::steps::{Budget, Drawn, Step, Stopped};
use arrayvec::ArrayVec;

/// What hands out lists of numbers, one by one, in ascending order.
pub trait Generator {
    /// What is still to come, and the steps that are still to be made.
    ghost ahead: { Self → Ahead };

    /// Fills a list with the next one, as `next` gives it.
    fn put_next(&mut self, numbers: &mut Numbers, budget: &mut Budget) -> Drawn
        ensures answer { MatchDrawn result
            ((ahead self.old).coming ≡ numbers.new.items ∷ (ahead self.new).coming)
            (((ahead self.old).coming ≡ []) × ((ahead self.new).coming ≡ []) × ((ahead self.new).left ≡ 0))
            (((ahead self.new).coming ≡ (ahead self.old).coming) × (budget.new.used ≡ budget.new.limit)
            × (0 < (ahead self.new).left)) }
        ensures steps { budget.new.used + (ahead self.new).left ≡ budget.old.used + (ahead self.old).left }
        ensures spends { Spends budget.old budget.new };

    /// The next list. `Found` gives the first of those to come. `End` says that none is left. `Undecided` says that the
    /// budget was used up before the next one was found; then what is to come stays as it was.
    fn next(&mut self, budget: &mut Budget) -> Step<Numbers>
        ensures answer { MatchStep result
            (λ numbers. (ahead self.old).coming ≡ numbers.items ∷ (ahead self.new).coming)
            (((ahead self.old).coming ≡ []) × ((ahead self.new).coming ≡ []) × ((ahead self.new).left ≡ 0))
            (((ahead self.new).coming ≡ (ahead self.old).coming) × (budget.new.used ≡ budget.new.limit)
            × (0 < (ahead self.new).left)) }
        ensures steps { budget.new.used + (ahead self.new).left ≡ budget.old.used + (ahead self.old).left }
        ensures spends { Spends budget.old budget.new }
    {
        let mut numbers = ArrayVec::new();
        match self.put_next(&mut numbers, budget) {
            Ok(true) => Step::Found(numbers),
            Ok(false) => Step::End,
            Err(Stopped) => Step::Undecided,
        }
    }
}
