// The check of a certificate by kinds of players: of many who are alike the weight is asked for once.
//
// The law: where players of one class weigh the same, two pairs have the same slack, and one can bear its potentials if
// the other can, if their first players are of one kind, and their second ones too: of one class, with one potential,
// and in the same priced sets. So each pair is written as the first players of the two kinds have it. These two need not
// be players who may meet: only who may meet is asked about each pair, and that costs little. When you change it, mind
// that a floor is too high at once if something that a pair bears differs within a kind, and that players of one kind
// make pairs with each other too.
ghost use Rattle.std.specs.Prelude.{◌≡◌, ◌+◌, ◌*◌, ◌^◌, ◌<◌, ◌≤◌, ◌%◌, ◌↔◌, ℕ, true, false, All, IfOk, IfSome, IsSome, IsTrue};
ghost use Rattle.std.specs.Prelude.{length, slice_index, slice_index_or, slice_set, sum_by};
ghost use Rattle.dual.specs.Checks.{AllBear, CanBear};
ghost use Rattle.dual.specs.Duals.{GivesEvenly, IsFeasible, toll};
ghost use Rattle.dual.specs.Floors.{IsBelow, IsChecked, IsFloor, IsFloorOf, WeighByClass, class_of};
ghost use Rattle.dual.specs.Kinds.{AreAlike, AreTold, AreWritten, HasFirst, IsSlate, IsTold, KeepsMarks, StandsFor};
ghost use Rattle.dual.specs.Tables.{certificate_in, has_mark, potential_in, toll_of};

use crate::again::Remade;
use crate::check::{Begun, Row, size_for};
use crate::rule::{MatchingRule, Pool};
use crate::table::{CertificateTable, MOST};
use crate::wide_table::WideTable;
use std::alloc::{AllocError, Global};

// Slacks by place, a mark for each place whose slack is written, and how many weights were asked for.
#[derive(Drop)]
struct Slate {
    size: usize,
    slacks: WideTable,
    marks: Vec<bool>,
    looks: u64,
}

// A player, and the row of the first player of the same kind.
#[derive(Drop)]
struct Line<'a> {
    player: u16,
    row: Row<'a>,
}

// The class of a player.
fn class_of(classes: &[u16], v: u16) -> u32
    ensures { result ≡ class_of classes.now v }
{
    match classes.get(usize::from(v)) {
        Some(class) => u32::from(*class),
        None => 65536 + u32::from(v),
    }
}

impl Slate {
    // One without a mark.
    fn new(alloc: Global, size: usize) -> Result<Slate, AllocError>
        requires { size ≤ MOST }
        ensures size { IfOk result (λ slate. slate.size ≡ size) }
        ensures slacks { IfOk result (λ slate. length slate.slacks ≡ size * size) }
        ensures marks { IfOk result (λ slate. length slate.marks.items ≡ size * size) }
        ensures none { IfOk result (λ slate. (place : ℕ) → slice_index_or slate.marks.items place false ≡ false) }
    {
        Ok(Slate {
            size,
            slacks: WideTable::zeros(alloc, size * size)?,
            marks: vec![in alloc; false; size * size]?,
            looks: 0,
        })
    }

    // Writes at a place what stands at another one.
    fn repeat(&mut self, place: usize, from: usize)
        requires place { place < length self.old.slacks }
        requires from { from < length self.old.slacks }
        requires marked { place < length self.old.marks.items }
        ensures size { self.new.size ≡ self.old.size }
        ensures slacks { self.new.slacks ≡ slice_set self.old.slacks place (slice_index self.old.slacks from) }
        ensures marks { self.new.marks.items ≡ slice_set self.old.marks.items place true }
    {
        self.slacks.repeat(place, from);
        self.marks[place] = true;
    }
}

impl CertificateTable {
    // Yes only if two players are of one kind.
    fn are_alike(&self, classes: &[u16], u: u16, a: u16) -> bool
        ensures of_class { IsTrue result → class_of classes.now u ≡ class_of classes.now a }
        ensures potential { IsTrue result → potential_in self.now u ≡ potential_in self.now a }
        ensures sets { IsTrue result → All (λ set. has_mark set u ≡ has_mark set a) self.now.sets.items }
    {
        class_of(classes, u) == class_of(classes, a)
            && self.potential(u) == self.potential(a)
            && self.sets.iter().all(|set| set.has(u) == set.has(a))
    }

    // The first of the players who is of one kind with a player.
    fn first_of<R: MatchingRule>(&self, pool: &Pool<'_, R>, classes: &[u16], v: u16) -> u16
        requires all { All (R.knows pool.now.rule.now) pool.now.players.now }
        requires one { R.knows pool.now.rule.now v }
        ensures known { R.knows pool.now.rule.now result }
        ensures below { (size : ℕ) → All (λ u. u < size) pool.now.players.now → v < size → result < size }
        ensures alike { AreAlike self.now classes.now v result }
    {
        for a in pool.players {
            if self.are_alike(classes, v, *a) {
                return *a;
            }
        }
        v
    }

    // By number the first of the players who is of one kind with a player.
    fn firsts<R: MatchingRule>(
        &self,
        alloc: Global,
        pool: &Pool<'_, R>,
        classes: &[u16],
        size: usize,
    ) -> Result<Vec<u16>, AllocError>
        requires known { All (R.knows pool.now.rule.now) pool.now.players.now }
        requires below { All (λ v. v < size) pool.now.players.now }
        ensures length { IfOk result (λ firsts. length firsts.items ≡ size) }
        ensures firsts { IfOk result (λ firsts. All (HasFirst (R.knows pool.now.rule.now) self.now classes.now
            firsts.items) pool.now.players.now) }
    {
        let mut firsts = vec![in alloc; 0; size]?;
        for v in pool.players {
            firsts[usize::from(*v)] = self.first_of(pool, classes, *v);
        }
        Ok(firsts)
    }

    // Sees to it that the slack of a pair is written; no if the pair cannot bear its potentials.
    fn ask<R: MatchingRule>(
        &self,
        rule: &R,
        row: &Row<'_>,
        v: u16,
        slate: &mut Slate,
    ) -> Result<bool, AllocError>
        requires first { R.knows rule.now row.now.player }
        requires second { R.knows rule.now v }
        requires inside { row.now.player < slate.old.size }
        requires below { v < slate.old.size }
        requires start { row.now.start ≡ row.now.player * slate.old.size }
        requires sets { (v : ℕ) → sum_by (λ set. toll_of v set.now) row.now.sets.items
            ≡ sum_by (toll (row.now.player, v)) (certificate_in self.now).sets }
        requires slate { IsSlate (R.costs rule.now) (certificate_in self.now) slate.old.size slate.old.slacks
            slate.old.marks.items }
        ensures size { slate.new.size ≡ slate.old.size }
        ensures whole { IfOk result (λ bears. IsTrue bears ↔ CanBear (R.costs rule.now) (certificate_in self.now)
            (2 ^ 1024) row.now.player v) }
        ensures slate { IfOk result (λ bears. IsSlate (R.costs rule.now) (certificate_in self.now) slate.old.size
            slate.new.slacks slate.new.marks.items) }
        ensures kept { IfOk result (λ bears. KeepsMarks slate.old.marks.items slate.new.marks.items) }
        ensures told { IfOk result (λ bears. IsTrue bears
            → IsTold slate.new.marks.items slate.old.size row.now.player v) }
    {
        let place = row.start + usize::from(v);
        if slate.marks[place] {
            return Ok(true);
        }
        slate.looks = slate.looks.saturating_add(1);
        let Some(slack) = self.slack(rule, row, v) else {
            return Ok(false);
        };
        slate.slacks.set(place, slack)?;
        slate.marks[place] = true;
        Ok(true)
    }

    // Writes the slacks of a player's pairs, each as the pair has it that stands for it, and says whether all these
    // pairs can bear their potentials.
    fn write_line<R: MatchingRule>(
        &self,
        pool: &Pool<'_, R>,
        line: &Line<'_>,
        firsts: &[u16],
        slate: &mut Slate,
    ) -> Result<bool, AllocError>
        requires below { All (λ v. v < slate.old.size) pool.now.players.now }
        requires length { length firsts.now ≡ slate.old.size }
        requires small { slate.old.size ≤ MOST }
        requires inside { line.now.player < slate.old.size }
        requires first { R.knows pool.now.rule.now line.now.row.player }
        requires first_inside { line.now.row.player < slate.old.size }
        requires start { line.now.row.start ≡ line.now.row.player * slate.old.size }
        requires sets { (v : ℕ) → sum_by (λ set. toll_of v set.now) line.now.row.sets.items
            ≡ sum_by (toll (line.now.row.player, v)) (certificate_in self.now).sets }
        requires alike { All (λ v. StandsFor (R.knows pool.now.rule.now) (R.costs pool.now.rule.now)
            (certificate_in self.now) slate.old.size line.now.player v line.now.row.player (slice_index firsts.now v))
            pool.now.players.now }
        requires slate { IsSlate (R.costs pool.now.rule.now) (certificate_in self.now) slate.old.size
            slate.old.slacks slate.old.marks.items }
        ensures size { slate.new.size ≡ slate.old.size }
        ensures whole { IfOk result (λ all. IsTrue all ↔ AllBear (R.costs pool.now.rule.now) (certificate_in self.now)
            (2 ^ 1024) line.now.player pool.now.players.now) }
        ensures slate { IfOk result (λ all. IsSlate (R.costs pool.now.rule.now) (certificate_in self.now)
            slate.old.size slate.new.slacks slate.new.marks.items) }
        ensures kept { IfOk result (λ all. KeepsMarks slate.old.marks.items slate.new.marks.items) }
        ensures told { IfOk result (λ all. IsTrue all → AreTold (R.costs pool.now.rule.now) slate.new.marks.items
            slate.old.size line.now.player pool.now.players.now) }
    {
        for v in pool.players {
            if pool.rule.may_meet(line.player, *v) {
                let first = firsts[usize::from(*v)];
                if !self.ask(pool.rule, &line.row, first, slate)? {
                    return Ok(false);
                }
                let start = usize::from(line.player) * slate.size;
                slate.repeat(start + usize::from(*v), line.row.start + usize::from(first));
            }
        }
        Ok(true)
    }

    // The slacks of all pairs; none if a pair cannot bear its potentials.
    fn slate_of<R: MatchingRule>(
        &self,
        alloc: Global,
        pool: &Pool<'_, R>,
        classes: &[u16],
    ) -> Result<Option<Slate>, AllocError>
        requires known { All (R.knows pool.now.rule.now) pool.now.players.now }
        requires classes { WeighByClass (R.knows pool.now.rule.now) (R.costs pool.now.rule.now) classes.now }
        ensures below { IfOk result (λ found. IfSome found (λ slate. All (λ v. v < slate.size) pool.now.players.now)) }
        ensures few { IfOk result (λ found. IfSome found (λ slate. slate.size ≤ MOST)) }
        ensures square { IfOk result (λ found. IfSome found (λ slate. length slate.slacks ≡ slate.size * slate.size)) }
        ensures whole { IfOk result (λ found. IsSome found ↔ All (λ u. AllBear (R.costs pool.now.rule.now)
            (certificate_in self.now) (2 ^ 1024) u pool.now.players.now) pool.now.players.now) }
        ensures written { IfOk result (λ found. IfSome found (λ slate. AreWritten (R.costs pool.now.rule.now)
            (certificate_in self.now) pool.now.players.now slate.size slate.slacks)) }
    {
        let size = size_for(pool.players);
        let firsts = self.firsts(alloc, pool, classes, size)?;
        let mut slate = Slate::new(alloc, size)?;
        for a in pool.players {
            let row = self.row(alloc, firsts[usize::from(*a)], size)?;
            let line = Line { player: *a, row };
            if !self.write_line(pool, &line, &firsts, &mut slate)? {
                return Ok(None);
            }
        }
        Ok(Some(slate))
    }

    /// The floor that the certificate is, as by `floor`, where players of one class weigh the same: the weight is asked
    /// for one pair of each two kinds alone, of which some may meet. Players are of one kind if they are of one class,
    /// have one potential, and are in the same priced sets. Classes are by number; past their end each player is in a
    /// class of their own. Who may meet is asked about each pair. `looks` counts the weights that were asked for.
    pub fn floor_by_class<R: MatchingRule>(
        &self,
        alloc: Global,
        pool: &Pool<'_, R>,
        left: usize,
        classes: &[u16],
    ) -> Result<Option<Remade>, AllocError>
        requires known { All (R.knows pool.now.rule.now) pool.now.players.now }
        requires few { length pool.now.players.now ≤ MOST }
        requires some { left ≤ length pool.now.players.now }
        requires classes { WeighByClass (R.knows pool.now.rule.now) (R.costs pool.now.rule.now) classes.now }
        ensures whole { IfOk result (λ found. IsSome found
            ↔ (IsFeasible (R.costs pool.now.rule.now) pool.now.players.now (certificate_in self.now)
            × IsBelow (R.costs pool.now.rule.now) pool.now.players.now left (certificate_in self.now) (2 ^ 1024))) }
        ensures value { IfOk result (λ found. IfSome found (λ remade.
            IsFloorOf (R.costs pool.now.rule.now) pool.now.players.now left (certificate_in self.now) remade.floor)) }
        ensures least { IfOk result (λ found. IfSome found (λ remade.
            IsFloor (R.costs pool.now.rule.now) pool.now.players.now left remade.floor)) }
        ensures checked { IfOk result (λ found. IfSome found (λ remade.
            IsChecked (R.costs pool.now.rule.now) pool.now.players.now (certificate_in self.now) remade.floor)) }
    {
        let Some(slate) = self.slate_of(alloc, pool, classes)? else {
            return Ok(None);
        };
        let Slate {
            size,
            slacks,
            marks: _,
            looks,
        } = slate;
        // nobody is marked: so nothing more is asked
        let marks = vec![in alloc; false; size]?;
        let begun = Begun {
            size,
            slacks,
            marks,
        };
        match self.floor_from(alloc, pool, left, begun)? {
            Some(remade) => Ok(Some(Remade {
                floor: remade.floor,
                looks,
            })),
            None => Ok(None),
        }
    }

    /// The floor that the certificate is for all matchings, however many they leave over, as by `floor_for_any`, and
    /// made as by `floor_by_class`.
    pub fn floor_for_any_by_class<R: MatchingRule>(
        &self,
        alloc: Global,
        pool: &Pool<'_, R>,
        classes: &[u16],
    ) -> Result<Option<Remade>, AllocError>
        requires known { All (R.knows pool.now.rule.now) pool.now.players.now }
        requires few { length pool.now.players.now ≤ MOST }
        requires classes { WeighByClass (R.knows pool.now.rule.now) (R.costs pool.now.rule.now) classes.now }
        ensures whole { let players = pool.now.players.now in IfOk result (λ found. IsSome found
            ↔ (GivesEvenly (certificate_in self.now)
            × IsFeasible (R.costs pool.now.rule.now) players (certificate_in self.now)
            × IsBelow (R.costs pool.now.rule.now) players (length players % 2) (certificate_in self.now) (2 ^ 1024))) }
        ensures value { let players = pool.now.players.now in IfOk result (λ found. IfSome found (λ remade.
            IsFloorOf (R.costs pool.now.rule.now) players (length players % 2) (certificate_in self.now) remade.floor)) }
        ensures least { IfOk result (λ found. IfSome found (λ remade.
            (left : ℕ) → IsFloor (R.costs pool.now.rule.now) pool.now.players.now left remade.floor)) }
        ensures checked { IfOk result (λ found. IfSome found (λ remade.
            IsChecked (R.costs pool.now.rule.now) pool.now.players.now (certificate_in self.now) remade.floor)) }
    {
        if !self.gives_evenly() {
            return Ok(None);
        }
        self.floor_by_class(alloc, pool, pool.players.len() % 2, classes)
    }
}
