// The next choice past those that are known to be pruned: at each beginning where the search of the choices stands
// still the cuts are asked, and what they know to be pruned is left.
ghost use Rattle.std.specs.Prelude.{◌≡◌, ◌∷◌, []};
ghost use Rattle.dutch_arrangements.specs.Arrangements.{Arrangement};
ghost use Rattle.dutch_arrangements.specs.Past.{IsPassedSet, IsPassedTuple};
ghost use Rattle.dutch_sequence.specs.Steps.{MatchDrawn, Passes, Spends};

use crate::cuts::Cuts;
use dutch_arrangements::Prefix;
use dutch_sequence::{
    Budget, Drawn, Exchanges, Generator, Numbers, Progress, Rule, Transpositions,
};

/// A list of choices, and the choice that came last.
#[derive(Drop)]
pub struct Chooser<G> {
    pub choices: G,
    pub latest: Numbers,
}

/// The lists that are chosen already. While the very next choice is wanted, nobody is asked what begins with them.
#[derive(Drop)]
pub struct Chosen<'q> {
    pub lists: Prefix<'q>,
    pub very_next: bool,
}

/// Goes on to the very next choice.
pub fn choose_next<G: Generator>(chooser: &mut Chooser<G>, budget: &mut Budget) -> Drawn
    ensures answer { let before = (G.ahead chooser.old.choices).coming in
        let after = (G.ahead chooser.new.choices).coming in
        MatchDrawn result (before ≡ chooser.new.latest.items ∷ after) ((before ≡ []) × (after ≡ []))
        ((after ≡ before) × (budget.new.used ≡ budget.new.limit)) }
    ensures spends { Spends budget.old budget.new }
{
    chooser.choices.put_next(&mut chooser.latest, budget)
}

/// Goes on to the next tuple for the list that is being filled. All that was passed over is pruned.
pub fn choose_tuple<R: Rule, C: Cuts>(
    tuples: &mut Chooser<Transpositions<'_, R>>,
    chosen: &Chosen<'_>,
    cuts: &mut C,
    budget: &mut Budget,
) -> Drawn
    ensures answer { let IsPassed = IsPassedTuple (C.Pruned cuts.old) chosen.now.lists chosen.now.very_next in
        MatchDrawn result
        (Passes IsPassed tuples.old.choices.coming (tuples.new.latest.items ∷ tuples.new.choices.coming))
        (Passes IsPassed tuples.old.choices.coming [] × (tuples.new.choices.coming ≡ []))
        (Passes IsPassed tuples.old.choices.coming tuples.new.choices.coming × (budget.new.used ≡ budget.new.limit)) }
    ensures keeps { (a : Arrangement) → C.Pruned cuts.new a → C.Pruned cuts.old a }
    ensures spends { Spends budget.old budget.new }
{
    cuts.start();
    loop {
        match tuples.choices.advance(&mut tuples.latest, budget)? {
            Progress::Beginning => {
                if !chosen.very_next && cuts.cuts(&chosen.lists.with(&tuples.latest)) {
                    tuples.choices.leave();
                }
            }
            Progress::Whole => return Ok(true),
            Progress::Over => return Ok(false),
        }
    }
}

/// Goes on to the next S1R, where S1 and S2 are chosen. All that was passed over is pruned.
pub fn choose_set<C: Cuts>(
    sets: &mut Chooser<Exchanges>,
    chosen: &Chosen<'_>,
    cuts: &mut C,
    budget: &mut Budget,
) -> Drawn
    ensures answer { let IsPassed = IsPassedSet (C.Pruned cuts.old) chosen.now.lists chosen.now.very_next in
        MatchDrawn result
        (Passes IsPassed sets.old.choices.coming (sets.new.latest.items ∷ sets.new.choices.coming))
        (Passes IsPassed sets.old.choices.coming [] × (sets.new.choices.coming ≡ []))
        (Passes IsPassed sets.old.choices.coming sets.new.choices.coming × (budget.new.used ≡ budget.new.limit)) }
    ensures keeps { (a : Arrangement) → C.Pruned cuts.new a → C.Pruned cuts.old a }
    ensures spends { Spends budget.old budget.new }
{
    loop {
        match sets.choices.advance(&mut sets.latest, budget)? {
            Progress::Beginning => {
                if !chosen.very_next
                    && cuts.cuts_exchange(&chosen.lists, &sets.choices.exchange(&mut sets.latest))
                {
                    sets.choices.leave(budget)?;
                }
            }
            Progress::Whole => return Ok(true),
            Progress::Over => return Ok(false),
        }
    }
}
