// A certificate checked again: where nearly the same one was checked before, for nearly the same rule, only the rows and
// columns of some players are made anew.
//
// The law: a pair of two players has the slack that it had, and can bear its potentials if it could, if both have the
// potentials that they had, neither is in a priced set of either certificate, both certificates give a pair the same,
// and the two, if they may meet, could meet before at the same weight. When you change it, mind that a floor is too high
// at once if one of these is not compared.
ghost use Rattle.std.specs.Prelude.{◌≡◌, ◌+◌, ◌*◌, ◌^◌, ◌<◌, ◌≤◌, ◌%◌, ◌↔◌, ℕ, false, All, IfOk, IfSome, IsSome, IsTrue};
ghost use Rattle.std.specs.Prelude.{length};
ghost use Rattle.dual.specs.Duals.{GivesEvenly, IsFeasible};
ghost use Rattle.dual.specs.Floors.{AreAsBefore, IsBelow, IsChecked, IsFloor, IsFloorOf, is_marked};
ghost use Rattle.dual.specs.Checks.{AreKept};
ghost use Rattle.dual.specs.Tables.{certificate_in, has_mark, potential_in};

use crate::check::{Begun, all_anew, size_for};
use crate::floor::Floor;
use crate::marks::is_marked;
use crate::rule::{MatchingRule, Pool};
use crate::table::{CertificateTable, MOST};
use std::alloc::{AllocError, Global};

// A table is copied if it keeps at most so many numbers for each player. A copy also keeps the numbers that no place has
// any longer: so without a bound it would grow from one check to the next.
const MOST_COPIED: usize = 16;

/// A floor that was made before: the certificate that it is, the rule that this was checked for, and who has turned since.
#[derive(Drop)]
pub struct Before<'b, R> {
    pub rule: &'b R,
    pub table: &'b CertificateTable,
    pub floor: &'b Floor,
    /// A mark by number for each player whose pairs may cost something else now, or who may meet others. Past the end
    /// each is marked.
    pub turned: &'b [bool],
}

/// A floor, and how many ordered pairs were asked about for it: of how many the weight was asked for.
#[derive(Drop)]
pub struct Remade {
    pub floor: Floor,
    pub looks: u64,
}

impl CertificateTable {
    // Yes if a priced set has the player.
    fn is_priced(&self, v: u16) -> bool
        ensures { result ≡ false → All (λ set. has_mark set v ≡ false) self.now.sets.items }
    {
        self.sets.iter().any(|set| set.has(v))
    }

    // No only if nothing that a player's pairs bear, with another such player, is another thing than before.
    fn is_anew<R>(&self, v: u16, before: &Before<'_, R>) -> bool
        ensures turned { result ≡ false → is_marked before.now.turned.now v ≡ false }
        ensures potential { result ≡ false
            → potential_in self.now v ≡ potential_in before.now.table.now v }
        ensures sets { result ≡ false → All (λ set. has_mark set v ≡ false) self.now.sets.items }
        ensures sets_before { result ≡ false
            → All (λ set. has_mark set v ≡ false) before.now.table.now.sets.items }
    {
        is_marked(before.turned, v)
            || self.potential(v) != before.table.potential(v)
            || self.is_priced(v)
            || before.table.is_priced(v)
    }

    // Marks those whose pairs are made anew, and each number that no player has.
    fn marks_anew<R>(
        &self,
        alloc: Global,
        players: &[u16],
        size: usize,
        before: &Before<'_, R>,
    ) -> Result<Vec<bool>, AllocError>
        requires { All (λ v. v < size) players.now }
        ensures turned { IfOk result (λ marks. (v : ℕ) → is_marked marks.items v ≡ false
            → is_marked before.now.turned.now v ≡ false) }
        ensures potential { IfOk result (λ marks. (v : ℕ) → is_marked marks.items v ≡ false
            → potential_in self.now v ≡ potential_in before.now.table.now v) }
        ensures sets { IfOk result (λ marks. (v : ℕ) → is_marked marks.items v ≡ false
            → All (λ set. has_mark set v ≡ false) self.now.sets.items) }
        ensures sets_before { IfOk result (λ marks. (v : ℕ) → is_marked marks.items v ≡ false
            → All (λ set. has_mark set v ≡ false) before.now.table.now.sets.items) }
    {
        let mut marks = vec![in alloc; true; size]?;
        for v in players {
            marks[usize::from(*v)] = self.is_anew(*v, before);
        }
        Ok(marks)
    }

    // Yes if what was made before can be kept in part: it has the same size, and a pair is given the same.
    fn may_keep<R>(&self, players: &[u16], size: usize, before: &Before<'_, R>) -> bool
        requires { size ≤ MOST }
        ensures size { IsTrue result → before.now.floor.now.size ≡ size }
        ensures square { IsTrue result → length before.now.floor.now.slacks ≡ size * size }
        ensures given { IsTrue result → self.now.given ≡ before.now.table.now.given }
    {
        let floor = before.floor;
        floor.size == size
            && floor.slacks.len() == size * size
            && self.given == before.table.given
            && floor.slacks.kept() <= players.len().saturating_mul(MOST_COPIED)
    }

    // What a check begins with that makes some rows and columns anew.
    fn begun_again<R: MatchingRule>(
        &self,
        alloc: Global,
        pool: &Pool<'_, R>,
        before: &Before<'_, R>,
    ) -> Result<Begun, AllocError>
        requires checked { IsChecked (R.costs before.now.rule.now) pool.now.players.now
            (certificate_in before.now.table.now) before.now.floor.now }
        requires others { AreAsBefore before.now.turned.now (R.costs before.now.rule.now)
            (R.costs pool.now.rule.now) }
        ensures below { IfOk result (λ begun. All (λ v. v < begun.size) pool.now.players.now) }
        ensures few { IfOk result (λ begun. begun.size ≤ MOST) }
        ensures square { IfOk result (λ begun. length begun.slacks ≡ begun.size * begun.size) }
        ensures kept { IfOk result (λ begun. AreKept (R.costs pool.now.rule.now) (certificate_in self.now)
            pool.now.players.now begun.marks.items begun.size begun.slacks) }
    {
        let size = size_for(pool.players);
        if !self.may_keep(pool.players, size, before) {
            return all_anew(alloc, pool.players);
        }
        let floor = before.floor;
        let slacks = floor.slacks.copied()?;
        let marks = self.marks_anew(alloc, pool.players, size, before)?;
        Ok(Begun {
            size,
            slacks,
            marks,
        })
    }

    /// The floor that the certificate is, as by `floor`, where nearly the same certificate was checked before, for
    /// nearly the same rule: only pairs of players who have turned, who have another potential than before, or who are
    /// in a priced set of either certificate are asked about. All are, if either certificate gives a pair another thing
    /// than the other, if the greatest number is another one, or if the table before keeps too many numbers.
    pub fn floor_again<R: MatchingRule>(
        &self,
        alloc: Global,
        pool: &Pool<'_, R>,
        left: usize,
        before: &Before<'_, R>,
    ) -> Result<Option<Remade>, AllocError>
        requires known { All (R.knows pool.now.rule.now) pool.now.players.now }
        requires few { length pool.now.players.now ≤ MOST }
        requires some { left ≤ length pool.now.players.now }
        requires checked { IsChecked (R.costs before.now.rule.now) pool.now.players.now
            (certificate_in before.now.table.now) before.now.floor.now }
        requires others { AreAsBefore before.now.turned.now (R.costs before.now.rule.now)
            (R.costs pool.now.rule.now) }
        ensures whole { IfOk result (λ found. IsSome found
            ↔ (IsFeasible (R.costs pool.now.rule.now) pool.now.players.now (certificate_in self.now)
            × IsBelow (R.costs pool.now.rule.now) pool.now.players.now left (certificate_in self.now) (2 ^ 1024))) }
        ensures value { IfOk result (λ found. IfSome found (λ remade.
            IsFloorOf (R.costs pool.now.rule.now) pool.now.players.now left (certificate_in self.now) remade.floor)) }
        ensures least { IfOk result (λ found. IfSome found (λ remade.
            IsFloor (R.costs pool.now.rule.now) pool.now.players.now left remade.floor)) }
        ensures checked { IfOk result (λ found. IfSome found (λ remade.
            IsChecked (R.costs pool.now.rule.now) pool.now.players.now (certificate_in self.now) remade.floor)) }
    {
        let begun = self.begun_again(alloc, pool, before)?;
        self.floor_from(alloc, pool, left, begun)
    }

    /// The floor that the certificate is for all matchings, however many they leave over, as by `floor_for_any`, and
    /// made as by `floor_again`.
    pub fn floor_for_any_again<R: MatchingRule>(
        &self,
        alloc: Global,
        pool: &Pool<'_, R>,
        before: &Before<'_, R>,
    ) -> Result<Option<Remade>, AllocError>
        requires known { All (R.knows pool.now.rule.now) pool.now.players.now }
        requires few { length pool.now.players.now ≤ MOST }
        requires checked { IsChecked (R.costs before.now.rule.now) pool.now.players.now
            (certificate_in before.now.table.now) before.now.floor.now }
        requires others { AreAsBefore before.now.turned.now (R.costs before.now.rule.now)
            (R.costs pool.now.rule.now) }
        ensures whole { let players = pool.now.players.now in IfOk result (λ found. IsSome found
            ↔ (GivesEvenly (certificate_in self.now)
            × IsFeasible (R.costs pool.now.rule.now) players (certificate_in self.now)
            × IsBelow (R.costs pool.now.rule.now) players (length players % 2) (certificate_in self.now) (2 ^ 1024))) }
        ensures value { let players = pool.now.players.now in IfOk result (λ found. IfSome found (λ remade.
            IsFloorOf (R.costs pool.now.rule.now) players (length players % 2) (certificate_in self.now) remade.floor)) }
        ensures least { IfOk result (λ found. IfSome found (λ remade.
            (left : ℕ) → IsFloor (R.costs pool.now.rule.now) pool.now.players.now left remade.floor)) }
        ensures checked { IfOk result (λ found. IfSome found (λ remade.
            IsChecked (R.costs pool.now.rule.now) pool.now.players.now (certificate_in self.now) remade.floor)) }
    {
        if !self.gives_evenly() {
            return Ok(None);
        }
        self.floor_again(alloc, pool, pool.players.len() % 2, before)
    }
}
