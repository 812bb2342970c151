// What a matching of least cost tells of a bracket's shape (C.04.3 B.1, C.4, C.5). By its certificate: no candidate
// that can be chosen has more pairs, or as many pairs with more moved-down players in them. By its pairs: one that can
// be chosen has as many of both.
//
// Whoever finds the matching is not trusted: its certificate counts only if `dual` confirms it, and its pairs only if
// they are those of a candidate that can be chosen.
ghost use Rattle.std.specs.Prelude.{◌≡◌, ◌+◌, ◌<◌, ◌≤◌, ◌*◌, Some, IfOk, IfSome, true};
ghost use Rattle.std.specs.Result.{MatchResult};
ghost use Rattle.dutch_arrangements.specs.Prelude.{MatchFound, Spends};
ghost use Rattle.matching.specs.Matchings.{IsMatching};
ghost use Rattle.dutch_bracket.specs.Prelude.{Context, shape_here};
ghost use Rattle.dutch_choice.specs.ShapeCosts.{IsShapeFloor, cost_of, joined, vertices};

use crate::matched::{can_be_chosen, matched_shape};
use crate::players::Players;
use cheapest::{Fault, Found, LOOKS_IN_A_STEP, cheapest};
use dual::{CertificateTable, Pool, Wide};
use dutch_arrangements::{Budget, Shape, Stopped, numbered_from};
use dutch_bracket::spending::spend;
use dutch_bracket::tuning::{CUBE_DIVISOR, FIRST_STEPS};
use std::alloc::{AllocError, Global};

/// A floor of shapes: the base is no more than the debt and what a shape costs that has a candidate that can be chosen.
#[derive(Drop)]
pub(crate) struct ShapeFloor {
    base: Wide,
    debt: Wide,
}

/// What a matching of least cost tells of a bracket's shape: a floor, and the shape if the matching has it.
#[derive(Drop)]
pub(crate) struct Told {
    pub floor: ShapeFloor,
    pub shape: Option<Shape>,
}

impl ShapeFloor {
    /// The floor that says nothing.
    pub(crate) fn none() -> ShapeFloor
        ensures { (context : Context) → IsShapeFloor context result }
    {
        ShapeFloor {
            base: Wide::zero(),
            debt: Wide::zero(),
        }
    }

    /// A yes rules the shape out: each that has a candidate that can be chosen costs more.
    pub(crate) fn is_above(&self, players: &Players<'_>, shape: Shape) -> bool
        ensures { result ≡ true → self.now.debt + cost_of players.now shape < self.now.base }
    {
        match self.debt.plus(players.cost_of(shape)) {
            Some(cost) => cost.is_less(self.base),
            None => false,
        }
    }

    /// A yes means that no shape that has a candidate that can be chosen costs less.
    fn is_reached(&self, players: &Players<'_>, shape: Shape) -> bool
        ensures { result ≡ true → self.now.debt + cost_of players.now shape ≤ self.now.base }
    {
        match self.debt.plus(players.cost_of(shape)) {
            Some(cost) => !self.base.is_less(cost),
            None => false,
        }
    }
}

/// The floor that a certificate is, if it is confirmed.
fn confirmed_floor(
    players: &Players<'_>,
    certificate: &CertificateTable,
) -> Result<Option<ShapeFloor>, AllocError>
    ensures { IfOk result (λ found. IfSome found (IsShapeFloor players.now)) }
{
    let numbers = numbered_from(1, players.count());
    let pool = Pool {
        rule: players,
        players: &numbers,
    };
    match certificate.floor_for_any(players.alloc, &pool)? {
        Some(floor) => Ok(Some(ShapeFloor {
            base: floor.base(),
            debt: floor.debt(),
        })),
        None => Ok(None),
    }
}

/// The shape of a matching, if it is the bracket's: nothing that can be chosen costs less, and its pairs are those of a
/// candidate that can be chosen.
fn shape_by(
    players: &Players<'_>,
    partners: &[Option<u16>],
    floor: &ShapeFloor,
    budget: &mut Budget,
) -> Result<Option<Shape>, Stopped>
    requires matching { IsMatching (vertices players.now) (joined players.now) partners.now }
    requires floor { IsShapeFloor players.now floor.now }
    ensures answer { MatchFound result (λ shape. shape_here players.now ≡ Some shape) (Unit {0})
        (budget.new.used ≡ budget.new.limit) }
    ensures spends { Spends budget.old budget.new }
{
    let shape = matched_shape(players, partners);
    if !floor.is_reached(players, shape) {
        return Ok(None);
    }
    if !can_be_chosen(players, partners, budget)? {
        return Ok(None);
    }
    Ok(Some(shape))
}

/// How many steps a listing makes before a matching of so many players is looked for: so many that nearly all brackets
/// are decided, and at least as many as the matching takes.
pub(crate) fn steps_before(players: usize) -> u64 {
    let count = players as u64;
    let least = count.saturating_mul(count).saturating_mul(count)
        / (CUBE_DIVISOR * LOOKS_IN_A_STEP);
    count.saturating_mul(FIRST_STEPS).max(least)
}

/// A matching of least cost. None says that memory was refused.
fn found(players: &Players<'_>, budget: &mut Budget) -> Result<Option<Found>, Stopped>
    ensures answer { MatchFound result
        (λ found. IsMatching (vertices players.now) (joined players.now) found.partners.items) (Unit {0})
        (budget.new.used ≡ budget.new.limit) }
    ensures spends { Spends budget.old budget.new }
{
    let mut left = budget.limit - budget.used;
    let found = cheapest(players.alloc, players, &mut left);
    budget.used = budget.limit - left;
    match found {
        Ok(found) => Ok(Some(found)),
        Err(Fault::Stopped) => Err(Stopped),
        Err(_) => Ok(None),
    }
}

/// What a matching of least cost tells of a bracket's shape: nothing if it was not confirmed, or memory was refused.
pub(crate) fn told_by_cost(players: &Players<'_>, budget: &mut Budget) -> Result<Told, Stopped>
    ensures answer { MatchResult result
        (λ told. IsShapeFloor players.now told.floor
        × IfSome told.shape (λ shape. shape_here players.now ≡ Some shape))
        (λ _. budget.new.used ≡ budget.new.limit) }
    ensures spends { Spends budget.old budget.new }
{
    let nothing = Told {
        floor: ShapeFloor::none(),
        shape: None,
    };
    let Some(found) = found(players, budget)? else {
        return Ok(nothing);
    };
    let count = players.count() as u64;
    spend(count * count / LOOKS_IN_A_STEP, budget)?;
    let Ok(Some(floor)) = confirmed_floor(players, &found.certificate) else {
        return Ok(nothing);
    };
    let shape = shape_by(players, &found.partners, &floor, budget)?;
    Ok(Told { floor, shape })
}
