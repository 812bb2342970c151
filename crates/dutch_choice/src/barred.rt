// Which beginnings rule a wish out (C.04.3 B.3): no candidate that begins so grants it.
ghost use Rattle.std.specs.Prelude.{◌≡◌, true, false};
ghost use Rattle.dutch_arrangements.specs.declared.bracket.Shape.{Shape};
ghost use Rattle.dutch_arrangements.specs.Prelude.{Arrangement, IsExchange, IsIn, Begins};
ghost use Rattle.dutch_bracket.specs.Prelude.{FitsHere, OfEachWithBeginning, candidates_here, candidates_in};
ghost use Rattle.dutch_candidates.specs.Wishes.{grants};
ghost use Rattle.dutch_candidates.specs.declared.wish.Wish.TheVariants.{LeftOver};

use crate::ruled_out::{is_ruled_out, keeps_together};
use dutch_arrangements::{Exchange, Prefix};
use dutch_bracket::context::Context;
use dutch_bracket::shaped::ShapedBracket;
use dutch_candidates::wish::Wish;

/// Where a shape pairs all moved-down players, or all residents, none of them is left over (B.1).
#[tactic(auto, using(dutch_candidates::proofs::ShapeNumbers::small_pairs))]
fn pairs_always(shaped: &ShapedBracket<'_>, number: u16) -> bool
    ensures { result ≡ true → (a : Arrangement) → IsIn a (candidates_in shaped.now)
        → grants (LeftOver number) a ≡ false }
{
    let reached = shaped.context.reached();
    if !reached.has(number) {
        return false;
    }
    if usize::from(number) <= reached.mdps() {
        return shaped.shape.mdps == reached.mdps();
    }
    shaped.context.residents_down(shaped.shape) == 0
}

fn bars(shaped: &ShapedBracket<'_>, wish: Wish) -> bool
    ensures { result ≡ true → (a : Arrangement) → IsIn a (candidates_in shaped.now) → grants wish a ≡ false }
{
    match wish {
        Wish::Pair(_, _) => false,
        Wish::LeftOver(number) => pairs_always(shaped, number),
    }
}

fn begins_without(context: &Context<'_>, wish: Wish, prefix: &Prefix<'_>) -> bool
    ensures { result ≡ true → (shape : Shape) (a : Arrangement) → FitsHere context.now shape
        → IsIn a (candidates_here context.now shape) → Begins prefix.now a → grants wish a ≡ false }
{
    is_ruled_out(wish, context.reached().mdps(), prefix)
}

/// Yes if the shape or the beginning rules the wish out, so that who looks for it may skip all that begins so. A no
/// says nothing.
pub fn rules_out(shaped: &ShapedBracket<'_>, wish: Wish, prefix: &Prefix<'_>) -> bool
    ensures { result ≡ true → OfEachWithBeginning shaped.now prefix.now (λ a. grants wish a ≡ false) }
{
    bars(shaped, wish) || begins_without(shaped.context, wish, prefix)
}

/// Yes if such an S1R rules the wish out, so that who looks for it may skip all that have one: of two residents who
/// meet, S1R has one alone. A no says nothing.
pub fn rules_out_with(shaped: &ShapedBracket<'_>, wish: Wish, exchange: &Exchange<'_>) -> bool
    ensures { result ≡ true → (a : Arrangement) → IsIn a (candidates_in shaped.now) → IsExchange exchange.now a.s1r
        → grants wish a ≡ false }
{
    let mdps = shaped.context.reached().mdps();
    match wish {
        Wish::Pair(p, q) if mdps < usize::from(p.min(q)) => keeps_together(p, q, exchange),
        Wish::Pair(_, _) | Wish::LeftOver(_) => false,
    }
}
