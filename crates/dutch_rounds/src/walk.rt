// The walk over the brackets of a round, from the highest scoregroup down (C.04.3 A.3, A.9), specified by the round
// from where it stands on.
//
// Whatever bracket comes next, its players and all lower ones can be paired out, and no two of those moved down may
// meet. So each bracket has a candidate that can be chosen, and at the end of the walk at most one player is left over.
ghost use Rattle.std.specs.Prelude.{◌≡◌, ◌+◌, ◌<◌, ◌≤◌, ◌++◌, length, None, Some, IfErr, IfOk};
ghost use Rattle.std.specs.Result.{MatchResult};
ghost use Rattle.dutch_arrangements.specs.Prelude.{Spends};
ghost use Rattle.dutch_choice.specs.Prelude.{ListsHere};
ghost use Rattle.dutch_bracket.specs.Prelude.{HasCandidate, IsAbove, FitsHere, first_group, scoregroups, shape_of};
ghost use Rattle.dutch_rounds.specs.declared.walk.Halt.TheVariants.{Fault};
ghost use Rattle.dutch_rounds.specs.Round.{everybody, brackets, paired_again};
ghost use Rattle.dutch_rounds.specs.Walk.{Goes};
ghost use Rattle.dutch_rounds.specs.WaysOut.{GoesOut, StandsBefore};
ghost use Rattle.dutch_rounds.specs.Stages as stages;

use crate::stage::{Stage, settle};
use bumpalo::Bump;
use dutch_arrangements::{Budget, Shape, Stopped, numbered_from};
use dutch_bracket::context::Context;
use dutch_bracket::fault::PairFault;
use dutch_bracket::group::split_first_group;
use dutch_bracket::reached::{BracketKind, Reached, Seats, bracket, copied};
use dutch_bracket::seated::seats_of;
use dutch_candidates::greatest::Lister;
use dutch_candidates::narrowed::NarrowedRule;
use dutch_choice::finder::Finder;
use dutch_choice::shape::shape_of;
use dutch_completion::eligible::can_complete;
use dutch_player::Field;
use dutch_player::laws::scores_do_not_ascend;
use std::alloc::Global;
use std::marker::Model;

/// All seats of a field, by rank.
pub(crate) fn everybody(field: &Field) -> Seats
    ensures { result.items ≡ everybody field.now }
{
    numbered_from(0, field.len())
}

/// What comes next in a walk.
#[derive(Drop)]
enum Next<'a> {
    /// A bracket, and the seats below it, by rank.
    Bracket { reached: Reached, lower: &'a [u16] },
    /// The end of the round: who is left over has the bye.
    Bye(Seats),
}

/// What a round is paired of. What its lister lists by stands in the arena for as long as the round is paired: each
/// bracket, and its rule.
#[derive(Clone, Copy)]
pub(crate) struct Ground<'a> {
    pub(crate) alloc: Global,
    pub(crate) field: &'a Field,
    pub(crate) arena: &'a Bump,
}

impl<'a> Ground<'a> {
    /// A bracket above all lower seats by rank.
    fn context_of(self, reached: &Reached, lower: &'a [u16]) -> Result<&'a Context<'a>, PairFault>
        requires { IsAbove self.field.now reached.now lower.now }
        ensures { IfOk result (λ context. context.now
            ≡ record { facts = self.entry.field.now; reached = reached.now; lower = lower.now }) }
    {
        let reached = self.arena.try_alloc(reached.copied())?;
        let context = Context::new(self.alloc, self.field, reached, lower);
        Ok(self.arena.try_alloc(context)?)
    }
}

/// What lists the candidates of a bracket.
type BracketLister<'a> = Lister<'a, NarrowedRule<'a>>;

/// The lister of a round, at a bracket: the one that there is, or else a new one.
fn lister_of<'a>(
    before: Option<Box<BracketLister<'a>>>,
    ground: Ground<'a>,
    context: &'a Context<'a>,
) -> Result<Box<BracketLister<'a>>, PairFault>
    ensures { IfOk result (λ lister. ListsHere context.now None lister.value.listing) }
{
    let rule = ground.arena.try_alloc(NarrowedRule {
        rule: context.rule(),
        wish: None,
    })?;
    match before {
        Some(mut lister) => {
            lister.move_to(context.frame(), rule);
            Ok(lister)
        }
        None => Ok(Lister::boxed(ground.alloc, context.frame(), rule)?),
    }
}

/// A walk over the brackets of a round, before one of them or at the end.
#[derive(Drop)]
pub(crate) struct Walk<'a> {
    ground: Ground<'a>,
    // from the first bracket that was settled on
    lister: Option<Box<BracketLister<'a>>>,
    // of the bracket that comes next, as its number
    budget: Budget,
    number: u16,
    next: Next<'a>,
}

impl<'a> Model for Walk<'a> {
    ghost use Rattle.dutch_rounds.specs.Stages.{Walk, IsUnderWay, bye_at, round_from};

    ghost Value = { Walk };

    ghost view = { λ w. record {
      facts = w.ground.field.now;
      limit = w.budget.limit;
      used = w.budget.used;
      number = w.number;
      rest = round_from w.ground.field.now w.next;
      bye = bye_at w.next;
    } };

    ghost invariant = { λ w. IsUnderWay w.ground.field.now w.number w.next };
}

/// Why a question ends before the walk does.
#[derive(Drop)]
pub(crate) enum Halt {
    /// No pairing meets the absolute criteria.
    NoPairing,
    /// The steps of a bracket reached the limit, which is `used`.
    Undecided { bracket: u16, used: u64 },
    /// The round could not be paired.
    Fault(PairFault),
}

impl From<PairFault> for Halt {
    ghost from_gives = { λ fault halt. halt ≡ Fault fault };

    fn from(fault: PairFault) -> Halt {
        Halt::Fault(fault)
    }
}

/// The kind of the bracket of a scoregroup above lower seats.
fn group_kind(lower: &[u16]) -> BracketKind
    ensures { result ≡ stages.group_kind lower.now }
{
    match lower {
        [] => BracketKind::Last,
        _ => BracketKind::Ordinary,
    }
}

/// A bracket that is paired again, with a number of its own, as the penultimate one.
fn paired_again(reached: &Reached) -> Reached
    requires { reached.now.number < 65535 }
    ensures { result ≡ paired_again reached.now }
{
    let mut again = reached.copied();
    again.number += 1;
    again.kind = BracketKind::Penultimate;
    again
}

/// The shape of a bracket.
fn shape_in(context: &Context<'_>, budget: &mut Budget) -> Result<Shape, Stopped>
    requires candidate { HasCandidate context.now.facts context.now.reached context.now.lower }
    ensures answer { MatchResult result
        (λ shape. (shape_of context.now.facts context.now.reached context.now.lower ≡ Some shape)
        × FitsHere context.now shape)
        (λ _. budget.new.used ≡ budget.new.limit) }
    ensures spends { Spends budget.old budget.new }
{
    match shape_of(context, budget)? {
        Some(shape) => Ok(shape),
        None => unreachable!(),
    }
}

/// What comes next for some moved down and the seats that are left, by rank, which are split behind their first
/// scoregroup: the bracket of that group, or the end.
fn first_group<'a>(
    field: &Field,
    number: u16,
    left: Seats,
    parts: (&'a [u16], &'a [u16]),
) -> Next<'a>
    requires goes { Goes field.now left.items (parts.0.now ++ parts.1.now) }
    requires out { GoesOut field.now left.items (parts.0.now ++ parts.1.now) }
    requires small { number + length (parts.0.now ++ parts.1.now) ≤ length field.now.seats + 1 }
    requires first { parts.0.now ≡ first_group field.now (scoregroups field.now (parts.0.now ++ parts.1.now)) }
    ensures stands { stages.StandsAt field.now number result }
    ensures rest { stages.round_from field.now result ≡ brackets field.now number left.items
        (scoregroups field.now (parts.entry.0.now ++ parts.entry.1.now)) }
{
    scores_do_not_ascend(field);
    let (group, lower) = parts;
    if group.is_empty() {
        return Next::Bye(left);
    }
    let reached = bracket(number, group_kind(lower), &left, group);
    Next::Bracket { reached, lower }
}

/// What comes next behind a stage, which is settled above these lower seats, of which so many are the next scoregroup.
#[inline(never)]
fn behind<'a>(field: &Field, stage: &Stage, lower: &'a [u16], group: usize) -> Next<'a>
    requires stands { StandsBefore field.now stage.now.reached.number stage.now.reached lower.now }
    requires group { group ≡ length (first_group field.now (scoregroups field.now lower.now)) }
    requires settled { stages.IsSettled field.now lower.now stage.now }
    ensures stands { stages.StandsAt field.now (stage.now.reached.number + 1) result }
    ensures rest { stages.round_by field.now stage.now.reached.kind stage.now.reached lower.now
        ≡ stages.stage_first field.now stage.now (stages.round_from field.now result) }
{
    scores_do_not_ascend(field);
    let reached = &stage.reached;
    let number = reached.number() + 1;
    let left = seats_of(reached.seats(), stage.best.candidate.down());
    if stage.again {
        let reached = paired_again(reached);
        return Next::Bracket { reached, lower };
    }
    match reached.kind() {
        BracketKind::Ordinary => first_group(field, number, left, lower.split_at(group)),
        BracketKind::Penultimate => Next::Bracket {
            reached: bracket(number, BracketKind::Collapsed, &left, lower),
            lower: &lower[..0],
        },
        BracketKind::Last | BracketKind::Collapsed => Next::Bye(left),
    }
}

impl<'a> Walk<'a> {
    /// A walk over the brackets of the next round. The test of all present players comes first, and counts to the first
    /// bracket.
    #[tactic(auto, using(crate::proofs::GroupWalk::everybody_few))]
    pub(crate) fn start(ground: Ground<'a>, all: &'a [u16], limit: u64) -> Result<Walk<'a>, Halt>
        requires all { all.now ≡ everybody ground.field.now }
        ensures { MatchResult result (stages.Starts ground.entry.field.now limit)
            (stages.IsHalt ground.entry.field.now limit) }
    {
        let field = ground.field;
        scores_do_not_ascend(field);
        let mut budget = Budget { limit, used: 0 };
        match can_complete(ground.alloc, field, all, &mut budget) {
            Ok(true) => Ok(Walk {
                ground,
                lister: None,
                budget,
                number: 1,
                next: first_group(field, 1, Seats::new(), split_first_group(field, all)),
            }),
            Ok(false) => Err(Halt::NoPairing),
            Err(Stopped) => Err(Halt::Undecided {
                bracket: 1,
                used: budget.used,
            }),
        }
    }

    /// The number of the bracket that comes next, if one does.
    pub(crate) fn number(&self) -> u16
        ensures { result ≡ self.now.number }
    {
        self.number
    }

    /// Who has the bye, at the end of the walk.
    pub(crate) fn bye(&self) -> Seats
        ensures { result.items ≡ self.now.bye }
    {
        match &self.next {
            Next::Bracket { .. } => Seats::new(),
            Next::Bye(bye) => copied(bye),
        }
    }

    /// Settles the bracket that comes next by its choice and the test behind it, and goes behind it, where the budget
    /// begins anew. The answer is none if no bracket comes.
    pub(crate) fn settle_next<F: Finder>(
        &mut self,
        room: &mut F::Room,
    ) -> Result<Option<Stage>, Halt>
        ensures goes { MatchResult result (stages.GoesOn self.old self.new) (stages.IsHalt self.old.facts
            self.old.limit) }
        ensures used { IfErr result (stages.TellsUsed self.new.used) }
    {
        let ground = self.ground;
        scores_do_not_ascend(ground.field);
        let Next::Bracket { reached, lower } = &self.next else {
            return Ok(None);
        };
        let lower = *lower;
        let context = ground.context_of(reached, lower)?;
        let mut lister = lister_of(self.lister.take(), ground, context)?;
        let Some(stage) = settle::<F>(context, &mut *lister, room, &mut self.budget)? else {
            return Err(Halt::Undecided {
                bracket: self.number,
                used: self.budget.used,
            });
        };
        self.lister = Some(lister);
        self.next = behind(ground.field, &stage, lower, context.next().len());
        self.number += 1;
        self.budget.used = 0;
        Ok(Some(stage))
    }

    /// The bracket that comes next, with its shape; nothing more is asked of it. The answer is none if no bracket
    /// comes.
    pub(crate) fn bracket(&mut self) -> Result<Option<(Reached, Shape)>, Halt>
        ensures found { MatchResult result (stages.IsFound self.old.facts self.old.number)
            (stages.IsHalt self.old.facts self.old.limit) }
        ensures used { IfErr result (stages.TellsUsed self.new.used) }
    {
        let ground = self.ground;
        scores_do_not_ascend(ground.field);
        let Next::Bracket { reached, lower } = &self.next else {
            return Ok(None);
        };
        let context = Context::new(ground.alloc, ground.field, reached, lower);
        let Ok(shape) = shape_in(&context, &mut self.budget) else {
            return Err(Halt::Undecided {
                bracket: self.number,
                used: self.budget.used,
            });
        };
        Ok(Some((reached.copied(), shape)))
    }
}
