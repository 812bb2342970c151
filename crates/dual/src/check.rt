// The check of a certificate, pair by pair: what each pair, and each player left over, could bear beyond its
// potentials.
//
// When you change it, mind that a floor is too high at once if a set counts for fewer pairs than can be inside it (one
// of an even number can be full), if the slack of a pair counts twice, or if what a certificate gives away is
// forgotten. That may be more than it gains: then the slack of known pairs makes up for it. A floor for any number of
// players left over is too high if the certificate gives a pair less than twice what it gives a player left over.
ghost use Rattle.std.specs.Prelude.{◌≡◌, [], ◌+◌, ◌*◌, ◌^◌, ◌<◌, ◌≤◌, ◌%◌, ◌↔◌, ℕ, true, All, IfOk, IfSome, IsSome, IsTrue};
ghost use Rattle.std.specs.Prelude.{SomeIff};
ghost use Rattle.std.specs.Prelude.{length, sum_by, slice_index};
ghost use Rattle.dual.specs.Duals.{GivesEvenly, IsFeasible, bears_left, slack, slack_left, toll};
ghost use Rattle.dual.specs.Floors.{IsChecked, IsFloor, IsFloorOf, IsBelow};
ghost use Rattle.dual.specs.Checks.{CanBear, CanBearLeft, AllBear, AreKept, HasSlacks};
ghost use Rattle.dual.specs.Tables.{toll_of, certificate_in};

use crate::again::Remade;
use crate::floor::Floor;
use crate::marks::{marked, mates_of};
use crate::rule::{MatchingRule, Pool};
use crate::table::{CertificateTable, MOST, MarkedSet};
use crate::wide::Wide;
use crate::wide_table::WideTable;
use std::alloc::{AllocError, Global};

// The row of a player: where it begins, and the sets that have the player.
#[derive(Drop)]
pub(crate) struct Row<'a> {
    pub player: u16,
    pub start: usize,
    pub sets: Vec<&'a MarkedSet>,
}

impl Row<'_> {
    // What a pair of the row's player pays.
    fn tolls(&self, v: u16) -> Option<Wide>
        ensures { let tolls = sum_by (λ set. toll_of v set.now) self.now.sets.items in SomeIff result
            (tolls < 2 ^ 1024) tolls }
    {
        let mut sum = Wide::zero();
        for set in &self.sets {
            sum = sum.plus(set.toll(v))?;
        }
        Some(sum)
    }
}

// What a check begins with: slacks by place, and a mark for each player whose pairs are asked about. Past the end of the
// marks each is marked.
#[derive(Drop)]
pub(crate) struct Begun {
    pub size: usize,
    pub slacks: WideTable,
    pub marks: Vec<bool>,
}

// The slacks of all pairs, and how many pairs were asked about for them.
#[derive(Drop)]
struct Written {
    slacks: WideTable,
    looks: u64,
}

// A row more was asked about.
fn more_looks(looks: u64, mates: &[u16]) -> u64 {
    looks.saturating_add(mates.len() as u64)
}

// A check that begins with nothing: all pairs are asked about.
pub(crate) fn all_anew(alloc: Global, players: &[u16]) -> Result<Begun, AllocError>
    ensures below { IfOk result (λ begun. All (λ v. v < begun.size) players.now) }
    ensures few { IfOk result (λ begun. begun.size ≤ MOST) }
    ensures square { IfOk result (λ begun. length begun.slacks ≡ begun.size * begun.size) }
    ensures marks { IfOk result (λ begun. begun.marks.items ≡ []) }
{
    let size = size_for(players);
    Ok(Begun {
        size,
        slacks: WideTable::zeros(alloc, size * size)?,
        marks: Vec::new(alloc),
    })
}

// One more than the greatest number.
pub(crate) fn size_for(players: &[u16]) -> usize
    ensures above { All (λ v. v < result) players.now }
    ensures few { result ≤ MOST }
{
    let mut size = 0;
    for v in players {
        size = size.max(usize::from(*v) + 1);
    }
    size
}

impl CertificateTable {
    // The row of a player in a square of so many.
    pub(crate) fn row(&self, alloc: Global, player: u16, size: usize) -> Result<Row<'_>, AllocError>
        requires { size ≤ MOST }
        ensures player { IfOk result (λ row. row.player ≡ player) }
        ensures start { IfOk result (λ row. row.start ≡ player * size) }
        ensures sets { IfOk result (λ row. (v : ℕ) → sum_by (λ set. toll_of v set.now) row.sets.items
            ≡ sum_by (toll (player, v)) (certificate_in self.now).sets) }
    {
        let sets = self
            .sets
            .iter()
            .filter(|set| set.has(player))
            .collect(alloc)?;
        Ok(Row {
            player,
            start: usize::from(player) * size,
            sets,
        })
    }

    // What a pair of the row's player could bear beyond its potentials; none if it cannot bear them.
    pub(crate) fn slack<R: MatchingRule>(&self, rule: &R, row: &Row<'_>, v: u16) -> Option<Wide>
        requires first { R.knows rule.now row.now.player }
        requires second { R.knows rule.now v }
        requires sets { (v : ℕ) → sum_by (λ set. toll_of v set.now) row.now.sets.items
            ≡ sum_by (toll (row.now.player, v)) (certificate_in self.now).sets }
        ensures { SomeIff result (CanBear (R.costs rule.now) (certificate_in self.now) (2 ^ 1024) row.now.player v)
            (slack (R.costs rule.now) (certificate_in self.now) (row.now.player, v)) }
    {
        let weight = rule.weight(row.player, v);
        let bears = weight.plus(self.given)?.plus(row.tolls(v)?)?;
        bears
            .minus(self.potential(row.player))?
            .minus(self.potential(v))
    }

    // What a player left over could bear beyond the potential; none if the player cannot bear it.
    fn slack_left<R: MatchingRule>(&self, rule: &R, v: u16) -> Option<Wide>
        requires { R.knows rule.now v }
        ensures { SomeIff result (CanBearLeft (R.costs rule.now) (certificate_in self.now) (2 ^ 1024) v)
            (slack_left (R.costs rule.now) (certificate_in self.now) v) }
    {
        let bears = rule.left_cost(v).plus(self.given_left)?;
        bears.minus(self.potential(v))
    }

    // Writes the slacks of a row's pairs with some mates, and says whether all these pairs can bear their potentials.
    fn fill<R: MatchingRule>(
        &self,
        rule: &R,
        row: &Row<'_>,
        mates: &[u16],
        slacks: &mut WideTable,
    ) -> Result<bool, AllocError>
        requires first { R.knows rule.now row.now.player }
        requires known { All (R.knows rule.now) mates.now }
        requires within { All (λ v. row.now.start + v < length slacks.old) mates.now }
        requires few { length slacks.old ≤ MOST * MOST }
        requires sets { (v : ℕ) → sum_by (λ set. toll_of v set.now) row.now.sets.items
            ≡ sum_by (toll (row.now.player, v)) (certificate_in self.now).sets }
        ensures size { length slacks.new ≡ length slacks.old }
        ensures whole { IfOk result (λ all. IsTrue all ↔ AllBear (R.costs rule.now) (certificate_in self.now) (2 ^ 1024)
            row.now.player mates.now) }
        ensures value { IfOk result (λ all. IsTrue all → HasSlacks (R.costs rule.now) (certificate_in self.now)
            row.now.player mates.now row.now.start slacks.new) }
        ensures others { (k : ℕ) → (All (λ v. ¬ (row.now.start + v ≡ k)) mates.now)
            → slice_index slacks.new k ≡ slice_index slacks.old k }
    {
        for v in mates {
            if rule.may_meet(row.player, *v) {
                let Some(slack) = self.slack(rule, row, *v) else {
                    return Ok(false);
                };
                slacks.set(row.start + usize::from(*v), slack)?;
            }
        }
        Ok(true)
    }

    // The slacks of all pairs, written over those that the check begins with; none if a pair cannot bear its
    // potentials. Of two players who are not marked nothing is asked.
    fn slacks_of<R: MatchingRule>(
        &self,
        alloc: Global,
        pool: &Pool<'_, R>,
        begun: Begun,
    ) -> Result<Option<Written>, AllocError>
        requires known { All (R.knows pool.now.rule.now) pool.now.players.now }
        requires below { All (λ v. v < begun.size) pool.now.players.now }
        requires few { begun.size ≤ MOST }
        requires square { length begun.slacks ≡ begun.size * begun.size }
        requires kept { AreKept (R.costs pool.now.rule.now) (certificate_in self.now) pool.now.players.now
            begun.marks.items begun.size begun.slacks }
        ensures whole { IfOk result (λ found. IsSome found ↔ All (λ u. AllBear (R.costs pool.now.rule.now)
            (certificate_in self.now) (2 ^ 1024) u pool.now.players.now) pool.now.players.now) }
        ensures value { IfOk result (λ found. IfSome found (λ written. All (λ u. HasSlacks (R.costs pool.now.rule.now)
            (certificate_in self.now) u pool.now.players.now (u * begun.size) written.slacks) pool.now.players.now)) }
    {
        let Begun {
            size,
            mut slacks,
            marks,
        } = begun;
        let anew = marked(alloc, pool.players, &marks)?;
        let mut looks = 0;
        for a in pool.players {
            let row = self.row(alloc, *a, size)?;
            let mates = mates_of(&marks, *a, pool.players, &anew);
            if !self.fill(pool.rule, &row, mates, &mut slacks)? {
                return Ok(None);
            }
            looks = more_looks(looks, mates);
        }
        Ok(Some(Written { slacks, looks }))
    }

    // The slacks of all who may be left over; none if one cannot bear the potential.
    fn slacks_left_of<R: MatchingRule>(
        &self,
        alloc: Global,
        pool: &Pool<'_, R>,
        size: usize,
    ) -> Result<Option<Vec<Wide>>, AllocError>
        requires known { All (R.knows pool.now.rule.now) pool.now.players.now }
        requires below { All (λ v. v < size) pool.now.players.now }
        ensures whole { let costs = R.costs pool.now.rule.now in IfOk result (λ found. IsSome found
            ↔ All (λ v. costs.may_be_left v ≡ true → CanBearLeft costs (certificate_in self.now) (2 ^ 1024) v)
            pool.now.players.now) }
        ensures value { let costs = R.costs pool.now.rule.now in IfOk result (λ found. IfSome found (λ slacks.
            All (λ v. costs.may_be_left v ≡ true → slice_index slacks.items v ≡ slack_left costs
            (certificate_in self.now) v) pool.now.players.now)) }
    {
        let mut slacks = vec![in alloc; Wide::zero(); size]?;
        for v in pool.players {
            if pool.rule.may_be_left(*v) {
                let Some(slack) = self.slack_left(pool.rule, *v) else {
                    return Ok(None);
                };
                slacks[usize::from(*v)] = slack;
            }
        }
        Ok(Some(slacks))
    }

    // The floor that the certificate is, by a check that begins with some slacks, and how many pairs were asked about.
    pub(crate) fn floor_from<R: MatchingRule>(
        &self,
        alloc: Global,
        pool: &Pool<'_, R>,
        left: usize,
        begun: Begun,
    ) -> Result<Option<Remade>, AllocError>
        requires known { All (R.knows pool.now.rule.now) pool.now.players.now }
        requires few { length pool.now.players.now ≤ MOST }
        requires some { left ≤ length pool.now.players.now }
        requires below { All (λ v. v < begun.size) pool.now.players.now }
        requires small { begun.size ≤ MOST }
        requires square { length begun.slacks ≡ begun.size * begun.size }
        requires kept { AreKept (R.costs pool.now.rule.now) (certificate_in self.now) pool.now.players.now
            begun.marks.items begun.size begun.slacks }
        ensures whole { IfOk result (λ found. IsSome found
            ↔ (IsFeasible (R.costs pool.now.rule.now) pool.now.players.now (certificate_in self.now)
            × IsBelow (R.costs pool.now.rule.now) pool.now.players.now left (certificate_in self.now) (2 ^ 1024))) }
        ensures value { IfOk result (λ found. IfSome found (λ remade.
            IsFloorOf (R.costs pool.now.rule.now) pool.now.players.now left (certificate_in self.now) remade.floor)) }
        ensures least { IfOk result (λ found. IfSome found (λ remade.
            IsFloor (R.costs pool.now.rule.now) pool.now.players.now left remade.floor)) }
        ensures checked { IfOk result (λ found. IfSome found (λ remade.
            IsChecked (R.costs pool.now.rule.now) pool.now.players.now (certificate_in self.now) remade.floor)) }
    {
        let Some(base) = self.gains(pool.players) else {
            return Ok(None);
        };
        let Some(debt) = self.losses(pool.players, left) else {
            return Ok(None);
        };
        let size = begun.size;
        let Some(slacks_left) = self.slacks_left_of(alloc, pool, size)? else {
            return Ok(None);
        };
        let Some(written) = self.slacks_of(alloc, pool, begun)? else {
            return Ok(None);
        };
        let Written { slacks, looks } = written;
        let floor = Floor {
            base,
            debt,
            size,
            slacks,
            slacks_left,
        };
        Ok(Some(Remade { floor, looks }))
    }

    /// The floor that the certificate is, for matchings that leave so many players over. There is none if the
    /// certificate is not feasible, or if a sum of its numbers is 2^1024 or more.
    pub fn floor<R: MatchingRule>(
        &self,
        alloc: Global,
        pool: &Pool<'_, R>,
        left: usize,
    ) -> Result<Option<Floor>, AllocError>
        requires known { All (R.knows pool.now.rule.now) pool.now.players.now }
        requires few { length pool.now.players.now ≤ MOST }
        requires some { left ≤ length pool.now.players.now }
        ensures whole { IfOk result (λ found. IsSome found
            ↔ (IsFeasible (R.costs pool.now.rule.now) pool.now.players.now (certificate_in self.now)
            × IsBelow (R.costs pool.now.rule.now) pool.now.players.now left (certificate_in self.now) (2 ^ 1024))) }
        ensures value { IfOk result (λ found. IfSome found
            (IsFloorOf (R.costs pool.now.rule.now) pool.now.players.now left (certificate_in self.now))) }
        ensures least { IfOk result (λ found. IfSome found
            (IsFloor (R.costs pool.now.rule.now) pool.now.players.now left)) }
        ensures checked { IfOk result (λ found. IfSome found
            (IsChecked (R.costs pool.now.rule.now) pool.now.players.now (certificate_in self.now))) }
    {
        let begun = all_anew(alloc, pool.players)?;
        match self.floor_from(alloc, pool, left, begun)? {
            Some(remade) => Ok(Some(remade.floor)),
            None => Ok(None),
        }
    }

    // A pair is given twice what a player left over is: so it comes to the same however many are left over.
    pub(crate) fn gives_evenly(&self) -> bool
        ensures { IsTrue result ↔ GivesEvenly (certificate_in self.now) }
    {
        match self.given.minus(self.given_left) {
            Some(rest) => rest == self.given_left,
            None => false,
        }
    }

    /// The floor that the certificate is for all matchings, however many they leave over. There is none if the
    /// certificate gives a pair another thing than twice what it gives a player left over, if it is not feasible, or if
    /// a sum of its numbers is 2^1024 or more.
    pub fn floor_for_any<R: MatchingRule>(
        &self,
        alloc: Global,
        pool: &Pool<'_, R>,
    ) -> Result<Option<Floor>, AllocError>
        requires known { All (R.knows pool.now.rule.now) pool.now.players.now }
        requires few { length pool.now.players.now ≤ MOST }
        ensures whole { let players = pool.now.players.now in IfOk result (λ found. IsSome found
            ↔ (GivesEvenly (certificate_in self.now)
            × IsFeasible (R.costs pool.now.rule.now) players (certificate_in self.now)
            × IsBelow (R.costs pool.now.rule.now) players (length players % 2) (certificate_in self.now) (2 ^ 1024))) }
        ensures value { let players = pool.now.players.now in IfOk result (λ found. IfSome found
            (IsFloorOf (R.costs pool.now.rule.now) players (length players % 2) (certificate_in self.now))) }
        ensures least { IfOk result (λ found. IfSome found
            (λ floor. (left : ℕ) → IsFloor (R.costs pool.now.rule.now) pool.now.players.now left floor)) }
        ensures checked { IfOk result (λ found. IfSome found
            (IsChecked (R.costs pool.now.rule.now) pool.now.players.now (certificate_in self.now))) }
    {
        if !self.gives_evenly() {
            return Ok(None);
        }
        self.floor(alloc, pool, pool.players.len() % 2)
    }
}
