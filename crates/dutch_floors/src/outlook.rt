// The best that the next bracket can be, known before any candidate is looked at (C.04.3 C.7): no more pairs than half
// of its players make; and if the bracket's residents have one score, no PSD below the floor for as many pairs.
ghost use Rattle.std.specs.Prelude.{◌≡◌, IfOk, IfSome};
ghost use Rattle.dutch_bracket.specs.declared.reached.BracketKind.TheVariants.{Ordinary};
ghost use Rattle.dutch_bracket.specs.Prelude.{IsFlat, IsOf, group_here};
ghost use Rattle.dutch_floors.specs.FirstValues.{first_value};
ghost use Rattle.dutch_floors.specs.FloorOf.{is_flat};
ghost use Rattle.dutch_floors.specs.Outlooks.{IsOutlookFrom, best_next_for, leaves_first};

use crate::first_value::{first_value, pairs_by_counts};
use dutch_bracket::context::Context;
use dutch_bracket::quality::NextValue;
use dutch_bracket::reached::BracketKind;
use dutch_bracket::shaped::ShapedBracket;
use std::alloc::AllocError;
use std::marker::Model;

/// What the next bracket can be at best. (Values are large, so they stand on the heap.)
#[derive(Drop)]
pub(crate) struct Outlook {
    // what it can be at best if the Limbo has the scores of the first one; none if that is not known
    first: Option<Box<NextValue>>,
    // what it can be at best in any case
    any: Box<NextValue>,
}

impl Model for Outlook {
    ghost use Rattle.std.specs.Prelude.{option_map};
    ghost use Rattle.dutch_floors.specs.Outlooks.{Outlook};

    ghost Value = { Outlook };

    ghost view = { λ o. record { first = option_map (λ first. first.value) o.first; any = o.any.value } };
}

/// Yes if the Limbo of an S1 has the scores of the first Limbo of the shape: then what is known of the first one holds behind the S1.
#[tactic(auto, using(dutch_bracket::proofs::ArrangementParts::next_number), unfolding(crate::specs::Outlooks::leaves_first))]
fn leaves_first(shaped: &ShapedBracket<'_>, s1: &[u16]) -> bool
    ensures { let context = shaped.now.context.now
        in result ≡ leaves_first context.facts context.reached shaped.now.shape s1.now }
{
    let moved_down = shaped.context.reached().mdps();
    // how many numbers stand before those of the first Limbo that are still to come
    let mut passed = shaped.shape.mdps;
    for above in 0..moved_down {
        let number = above as u16 + 1;
        if !s1.contains(&number) {
            if passed == moved_down {
                return false;
            }
            if shaped.context.score(number) != shaped.context.score(passed as u16 + 1) {
                return false;
            }
            passed += 1;
        }
    }
    passed == moved_down
}

/// Yes if a bracket has residents, and all of them have one score. (They stand by score, so the first and the last of
/// them tell it.)
pub(crate) fn is_flat(context: &Context<'_>) -> bool
    ensures value { result ≡ is_flat context.now.facts context.now.reached }
    ensures of { IsOf context.now.facts context.now.reached }
{
    let (field, reached) = (context.field(), context.reached());
    let seats = reached.seats();
    if seats.len() <= reached.mdps() {
        return false;
    }
    field.score(seats[reached.mdps()]) == field.score(seats[seats.len() - 1])
}

/// What is known below arrangements that leave the first Limbo, where all residents have one score.
#[tactic(auto, using(crate::proofs::C07Outlook::flat_residents))]
fn first_below(shaped: &ShapedBracket<'_>) -> Result<Option<Box<NextValue>>, AllocError>
    requires { shaped.now.context.now.reached.kind ≡ Ordinary }
    ensures { let context = shaped.now.context.now in IfOk result (λ found. IfSome found
        (λ value. IsFlat context.facts context.reached
        × (value.value ≡ first_value context.facts context.reached shaped.now.shape (group_here context)))) }
{
    if !is_flat(shaped.context) {
        return Ok(None);
    }
    Ok(Some(Box::new(shaped.context.alloc(), first_value(shaped))?))
}

impl Outlook {
    /// What counts tell of the next bracket below candidates of a shape. It counts only below an ordinary bracket.
    #[tactic(auto, using(crate::proofs::C07Outlook::none_counts, crate::proofs::C07Outlook::by_counts))]
    pub(crate) fn by_counts(shaped: &ShapedBracket<'_>) -> Result<Outlook, AllocError>
        ensures { IfOk result (IsOutlookFrom shaped.now) }
    {
        let mut any = Box::new(shaped.context.alloc(), NextValue::none())?;
        match shaped.context.reached().kind() {
            BracketKind::Ordinary => {
                any.pairs = pairs_by_counts(shaped);
                let first = first_below(shaped)?;
                Ok(Outlook { first, any })
            }
            BracketKind::Last | BracketKind::Penultimate | BracketKind::Collapsed => {
                Ok(Outlook { first: None, any })
            }
        }
    }

    /// The best that the next bracket can be behind arrangements with an S1 (C.7).
    pub(crate) fn best_for(&self, shaped: &ShapedBracket<'_>, s1: &[u16]) -> &NextValue
        ensures { let context = shaped.now.context.now
            in result.now ≡ best_next_for context.facts context.reached shaped.now.shape self.now s1.now }
    {
        if let Some(first) = &self.first
            && leaves_first(shaped, s1)
        {
            return &**first;
        }
        &*self.any
    }
}
