// Levels of a listing: each goes through blocks of arrangements, one for each choice, and a block is a level in its
// turn. Specified by the list of what is still to come.
//
// A level stands before its first block, in a block, or between two of them. Each turn of its loop draws from the
// block, and asks for the next block if that one has ended. If either call is stopped, what is left stays as it was. A
// level has one place for a block, in which each of its blocks begins anew.
//
// All levels share one place for a cursor, in the innermost. Only the first block of a level may begin behind it: before
// that block begins, the cursor waits below. So no level has a copy of it.
ghost use Rattle.std.specs.Prelude.{◌≡◌, ℕ, List, Option, None, [], ◌∷◌, option_copied};
ghost use Rattle.std.specs.List.{AllByRecursion};
ghost use Rattle.dutch_arrangements.specs.Arrangements.{Arrangement};
ghost use Rattle.dutch_arrangements.specs.Levels.{Of};
ghost use Rattle.dutch_listing.specs.Standing.{in_block, own_at};
ghost use Rattle.dutch_sequence.specs.Choices.{joined};
ghost use Rattle.dutch_sequence.specs.Steps.{MatchDrawn, Passes, Spends};

use crate::cuts::Cuts;
use dutch_arrangements::Arrangement;
use dutch_sequence::{Budget, Drawn};
use std::marker::Model;

/// What hands out arrangements, one by one. A cursor may wait in it until it is begun.
pub trait Arranges {
    /// The arrangements to come.
    ghost coming: { Self → List Arrangement };

    /// The cursor that waits in it.
    ghost own: { Self → Option Arrangement };

    /// The arrangement that it drew last.
    ghost latest: { Self → Arrangement };

    /// Fills `lists` with the next arrangement. Those that are known to be pruned may be skipped. If there is none,
    /// all that were to come are pruned; what is to come after that is nowhere said.
    fn next<C: Cuts>(&mut self, cuts: &mut C, lists: &mut Arrangement, budget: &mut Budget) -> Drawn
        ensures answer { MatchDrawn result
            (Passes (C.Pruned cuts.old) (coming self.old) (lists.new ∷ coming self.new) × (latest self.new ≡ lists.new))
            (Passes (C.Pruned cuts.old) (coming self.old) [])
            (Passes (C.Pruned cuts.old) (coming self.old) (coming self.new) × (budget.new.used ≡ budget.new.limit)) }
        ensures keeps { (a : Arrangement) → C.Pruned cuts.new a → C.Pruned cuts.old a }
        ensures spends { Spends budget.old budget.new };

    /// The cursor that waits in it.
    fn cursor(&self) -> Option<&Arrangement>
        ensures { option_copied result ≡ own self.now };

    /// Puts another cursor there, or none. What is to come after that is nowhere said.
    fn put_cursor(&mut self, cursor: Option<&Arrangement>)
        ensures { own self.new ≡ option_copied cursor.entry };

    /// Fills `lists` once more with the arrangement that it drew last.
    fn put_again(&self, lists: &mut Arrangement)
        ensures { lists.new ≡ latest self.now };
}

/// What hands out blocks of arrangements, one by one.
pub trait Blocks {
    type Block: Arranges + Drop;

    /// The blocks to come, each with the arrangements in it: all, or those behind a cursor.
    ghost blocks: { Self → Option Arrangement → List (List Arrangement) };

    /// The lists of a cursor are choices of these blocks.
    ghost HasOwn: { Self → Arrangement → Type 0 };

    /// Begins the next block in place, behind the cursor that waits there. Blocks in which all are pruned may be
    /// skipped.
    fn next_block<C: Cuts>(
        &mut self,
        cuts: &mut C,
        block: &mut Self::Block,
        budget: &mut Budget,
    ) -> Drawn
        requires given { Of (HasOwn self.old) (Self.Block.own block.old) }
        ensures answer { let before = blocks self.old (Self.Block.own block.old) in
            MatchDrawn result
            (Passes (AllByRecursion (C.Pruned cuts.old)) before (Self.Block.coming block.new ∷ blocks self.new None))
            (Passes (AllByRecursion (C.Pruned cuts.old)) before [] × (Self.Block.own block.new ≡ Self.Block.own block.old))
            (Passes (AllByRecursion (C.Pruned cuts.old)) before (blocks self.new (Self.Block.own block.old))
            × (budget.new.used ≡ budget.new.limit) × (Self.Block.own block.new ≡ Self.Block.own block.old)) }
        ensures given { Of (HasOwn self.new) (Self.Block.own block.old) }
        ensures keeps { (a : Arrangement) → C.Pruned cuts.new a → C.Pruned cuts.old a }
        ensures spends { Spends budget.old budget.new };
}

/// Where a level stands.
#[derive(Clone, Copy)]
pub enum Stand {
    /// Before the first block, which may begin behind a cursor.
    AtStart,
    /// In a block.
    InBlock,
    /// Behind a block.
    Between,
}

/// The place in which one block after another begins anew.
#[derive(Drop)]
pub struct Block<T> {
    pub(crate) level: T,
    pub(crate) stand: Stand,
}

impl<T: Arranges> Block<T> {
    /// Fills `lists` with the next arrangement of the block in which a level stands, as `Arranges::next` does.
    fn next<C: Cuts>(&mut self, cuts: &mut C, lists: &mut Arrangement, budget: &mut Budget) -> Drawn
        ensures answer { let before = in_block self.old.stand (T.coming self.old.level) in
            let after = in_block self.new.stand (T.coming self.new.level) in
            MatchDrawn result
            (Passes (C.Pruned cuts.old) before (lists.new ∷ after) × (T.latest self.new.level ≡ lists.new))
            (Passes (C.Pruned cuts.old) before [])
            (Passes (C.Pruned cuts.old) before after × (budget.new.used ≡ budget.new.limit)) }
        ensures own { own_at self.new.stand (T.own self.new.level) ≡ own_at self.old.stand (T.own self.old.level) }
        ensures keeps { (a : Arrangement) → C.Pruned cuts.new a → C.Pruned cuts.old a }
        ensures spends { Spends budget.old budget.new }
    {
        match self.stand {
            Stand::InBlock => self.level.next(cuts, lists, budget),
            Stand::AtStart | Stand::Between => Ok(false),
        }
    }

    /// Leaves the block in which a level stands. No later one begins behind a cursor.
    fn end(&mut self)
        ensures nothing { (coming : List Arrangement) → in_block self.new.stand coming ≡ [] }
        ensures own { own_at self.new.stand (T.own self.new.level) ≡ own_at self.old.stand (T.own self.old.level) }
        ensures waits { T.own self.new.level ≡ own_at self.old.stand (T.own self.old.level) }
    {
        match self.stand {
            Stand::AtStart => {}
            Stand::InBlock | Stand::Between => {
                self.stand = Stand::Between;
                self.level.put_cursor(None);
            }
        }
    }
}

/// The arrangements of blocks, one block after another.
#[derive(Drop)]
pub struct Level<B: Blocks> {
    pub(crate) blocks: B,
    pub(crate) block: Block<B::Block>,
}

impl<B: Blocks> Model for Level<B> {
    ghost use Rattle.std.specs.Prelude.{◌++◌};
    ghost use Rattle.dutch_arrangements.specs.Levels.{Of};
    ghost use Rattle.dutch_sequence.specs.Choices.{joined};
    ghost use Rattle.dutch_listing.specs.Standing.{Standing, in_block, own_at};

    ghost Value = { Standing };

    ghost view = { λ l. record {
      coming = in_block l.block.stand (B.Block.coming l.block.level)
          ++ joined (B.blocks l.blocks (own_at l.block.stand (B.Block.own l.block.level)));
      own = B.Block.own l.block.level;
      latest = B.Block.latest l.block.level;
    } };

    ghost invariant = { λ l. Of (B.HasOwn l.blocks) (own_at l.block.stand (B.Block.own l.block.level)) };
}

impl<B: Blocks> Level<B> {
    /// A level in which there is no block, with a place for one.
    pub fn new(blocks: B, level: B::Block) -> Level<B>
        ensures { result.coming ≡ joined (B.blocks blocks None) }
    {
        Level {
            blocks,
            block: Block {
                level,
                stand: Stand::Between,
            },
        }
    }
}

impl<B: Blocks> Arranges for Level<B> {
    ghost coming = { λ l. l.coming };

    ghost own = { λ l. l.own };

    ghost latest = { λ l. l.latest };

    fn next<C: Cuts>(
        &mut self,
        cuts: &mut C,
        lists: &mut Arrangement,
        budget: &mut Budget,
    ) -> Drawn {
        loop {
            if self.block.next(cuts, lists, budget)? {
                return Ok(true);
            }
            self.block.end();
            if !self.blocks.next_block(cuts, &mut self.block.level, budget)? {
                return Ok(false);
            }
            self.block.stand = Stand::InBlock;
        }
    }

    fn cursor(&self) -> Option<&Arrangement> {
        self.block.level.cursor()
    }

    fn put_cursor(&mut self, cursor: Option<&Arrangement>) {
        self.block.stand = Stand::Between;
        self.block.level.put_cursor(cursor);
    }

    fn put_again(&self, lists: &mut Arrangement) {
        self.block.level.put_again(lists);
    }
}
