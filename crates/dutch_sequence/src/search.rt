// The one search of all generators: a path of numbers that is filled place by place, goes back where no number fits,
// and can be stopped before each trial.
//
// A caller may be asked about each beginning at which the search arrives: the search stands still there, at no step. If
// the caller knows that every whole path with that beginning is pruned, it leaves the beginning, and so passes over all
// of them. When you change it, keep this: a path is left only by setting its next number past all that its place tries,
// and where nothing is left, each trial is made and counted.
//
// It makes no list, since it runs once for each trial: it writes what it finds into a list that it is handed
// (`put_next`), and begins anew in place, at the cost of what it held (`start`).
ghost use Rattle.std.specs.Prelude.{◌≡◌, ◌+◌, ◌-◌, ◌<◌, ◌≤◌, None, Some, [], ◌∷◌, ◌++◌, length, true, false};
ghost use Rattle.std.specs.List.{AllByRecursion};
ghost use Rattle.dutch_sequence.specs.declared.path.TheConstants.{PLACES};
ghost use Rattle.dutch_sequence.specs.declared.search.Asks.TheVariants.{AtBeginnings};
ghost use Rattle.dutch_sequence.specs.Trials.{Plan, Tried, entry, below, ahead, hits, trials, lower, lowest};
ghost use Rattle.dutch_sequence.specs.Hints.{hint_after, first_hint};
ghost use Rattle.dutch_sequence.specs.Choices.{GoesOn};
ghost use Rattle.dutch_sequence.specs.Steps.{MatchDrawn, MatchProgress, Passes, Spends, way};
ghost use Rattle.dutch_sequence.specs.Descents.{Stands, IsOpen, IsPast, IsSpent, free_moves};

use crate::path::{Path, Places};
use crate::steps::{Budget, Drawn, Progress, Stopped};

/// What a search fills, and which numbers it tries where. Its path has room for so many places.
pub trait Tree<const ROOM: usize> {
    ghost plan: { Self → Plan };

    /// How many places there are.
    fn places(&self) -> usize
        ensures { result ≡ (plan self.now).places };

    /// The first number to try after a beginning.
    fn start(&self, path: &[u16]) -> usize
        requires { IsOpen (plan self.now) path.now }
        ensures { result ≡ (plan self.now).start path.now };

    /// The end of the numbers to try after a beginning.
    fn stop(&self, path: &[u16]) -> usize
        requires { IsOpen (plan self.now) path.now }
        ensures { result ≡ (plan self.now).stop path.now };

    /// Yes if the number may stand next after the beginning.
    fn admits(&self, path: &Path<ROOM>, number: u16) -> bool
        requires opened { IsOpen (plan self.now) path.now }
        requires tried { number < (plan self.now).stop path.now }
        ensures { result ≡ (plan self.now).fits path.now number };

    /// What a number that does not fit would have given at least, if that is known.
    fn beyond(&self, path: &[u16], number: u16) -> Option<usize>
        requires opened { IsOpen (plan self.now) path.now }
        requires tried { number < (plan self.now).stop path.now }
        ensures { result ≡ (plan self.now).beyond path.now number };

    /// Every number tried is below the width.
    ghost within: { (tree : Self) (path : _) → (plan tree).stop path ≤ (plan tree).width };

    /// A path has room for all places.
    ghost few: { (tree : Self) → (plan tree).places ≤ ROOM };

    /// And a mark for each number that is tried.
    ghost narrow: { (tree : Self) → (plan tree).width ≤ PLACES };

    /// No path has more room than the longest.
    ghost small: { (tree : Self) → ROOM ≤ PLACES };
}

/// The number that follows a path in a longer one that begins with it.
fn hint_after(hint: &[u16], path: &[u16]) -> Option<usize>
    ensures { result ≡ hint_after hint.now path.now }
{
    if hint.len() <= path.len() {
        return None;
    }
    for place in 0..path.len() {
        if hint[place] != path[place] {
            return None;
        }
    }
    Some(hint[path.len()] as usize)
}

/// The first number that a search tries which begins at a path.
pub fn first_hint(hint: &[u16]) -> usize
    ensures { result ≡ first_hint hint.now }
{
    hint_after(hint, &[]).unwrap_or(0)
}

/// A search that begins at a path which is known: after a beginning of that path it starts with the path's own next
/// number.
#[derive(Drop)]
pub struct Hinted<'a, T, const ROOM: usize> {
    pub tree: T,
    pub hint: &'a Places<ROOM>,
}

impl<'a, T: Tree<ROOM>, const ROOM: usize> Tree<ROOM> for Hinted<'a, T, ROOM> {
    ghost use Rattle.dutch_sequence.specs.Hints.{hinted};

    ghost plan = { λ t. hinted t.hint.now.items (T.plan t.tree) };

    ghost within = { λ t path. T.Tree.within t.tree path };

    ghost few = { λ t. T.Tree.few t.tree };

    ghost narrow = { λ t. T.Tree.narrow t.tree };

    ghost small = { λ t. T.Tree.small t.tree };

    fn places(&self) -> usize {
        self.tree.places()
    }

    fn start(&self, path: &[u16]) -> usize {
        match hint_after(self.hint, path) {
            Some(number) => number,
            None => self.tree.start(path),
        }
    }

    fn stop(&self, path: &[u16]) -> usize {
        self.tree.stop(path)
    }

    fn admits(&self, path: &Path<ROOM>, number: u16) -> bool {
        self.tree.admits(path, number)
    }

    fn beyond(&self, path: &[u16], number: u16) -> Option<usize> {
        self.tree.beyond(path, number)
    }
}

/// Where a search stands: the numbers at the places filled, and the next number to try at the place after them. At a
/// whole path the next number is 0 until the path has been handed out. And what lies beyond the numbers that were tried
/// is no less than `beyond`, if anything does; where some were left without a trial, that is 0, so that nothing is
/// known.
#[derive(Drop)]
pub struct Descent<const ROOM: usize> {
    pub path: Path<ROOM>,
    pub number: usize,
    pub beyond: Option<usize>,
    /// The caller was asked about this path.
    pub asked: bool,
}

impl<const ROOM: usize> Descent<ROOM> {
    /// A descent that has filled no place.
    pub fn new(number: usize) -> Descent<ROOM>
        ensures path { result.path ≡ [] }
        ensures number { result.number ≡ number }
        ensures beyond { result.beyond ≡ None }
        ensures asked { result.asked ≡ false }
    {
        Descent {
            path: Path::new(),
            number,
            beyond: None,
            asked: false,
        }
    }

    /// Begins anew, with no place filled.
    pub fn restart(&mut self, number: usize)
        ensures path { self.new.path ≡ [] }
        ensures number { self.new.number ≡ number }
        ensures beyond { self.new.beyond ≡ None }
        ensures asked { self.new.asked ≡ false }
    {
        self.path.clear();
        self.number = number;
        self.beyond = None;
        self.asked = false;
    }
}

/// The first number to try after a path; 0 if the path is whole.
fn first_number<T: Tree<ROOM>, const ROOM: usize>(tree: &T, path: &[u16]) -> usize
    requires { Stands (T.plan tree.now) path.now }
    ensures { result ≡ entry (T.plan tree.now) ((T.plan tree.now).places - length path.now) path.now }
{
    if path.len() < tree.places() {
        tree.start(path)
    } else {
        0
    }
}

/// The lower of two numbers, either of which may be missing.
fn lower_of(one: Option<usize>, other: Option<usize>) -> Option<usize>
    ensures { result ≡ lower one other }
{
    match (one, other) {
        (None, _) => other,
        (Some(_), None) => one,
        (Some(x), Some(y)) => Some(x.min(y)),
    }
}

/// The end of the numbers to try after a path; 1 if the path is whole.
pub fn end_number<T: Tree<ROOM>, const ROOM: usize>(tree: &T, path: &[u16]) -> usize
    requires { Stands (T.plan tree.now) path.now }
    ensures { IsSpent (T.plan tree.now) path.now result }
{
    if path.len() < tree.places() {
        tree.stop(path)
    } else {
        1
    }
}

/// Leaves all that is still to come below the path. What lies beyond it is not known then.
pub fn leave<T: Tree<ROOM>, const ROOM: usize>(tree: &T, descent: &mut Descent<ROOM>)
    requires { Stands (T.plan tree.now) descent.old.path }
    ensures path { descent.new.path ≡ descent.old.path }
    ensures passes { Passes (GoesOn descent.old.path)
        (hits (ahead (T.plan tree.now) descent.old.path descent.old.number))
        (hits (ahead (T.plan tree.now) descent.new.path descent.new.number)) }
    ensures past { AllByRecursion (IsPast (T.plan tree.now) descent.old.path)
        (hits (ahead (T.plan tree.now) descent.new.path descent.new.number)) }
    ensures beyond { descent.new.beyond ≡ Some 0 }
    ensures asked { descent.new.asked ≡ descent.old.asked }
{
    descent.number = end_number(tree, descent.path.as_slice());
    descent.beyond = Some(0);
}

/// Whether a search asks its caller about the beginnings at which it arrives.
#[derive(Clone, Copy)]
pub enum Asks {
    /// It stands still at each, so that the caller may leave it.
    AtBeginnings,
    /// It goes on to the next whole path.
    Never,
}

/// Comes to a beginning about which the caller was not asked yet, and below which something is left.
fn comes_to_ask<T: Tree<ROOM>, const ROOM: usize>(
    tree: &T,
    asks: Asks,
    descent: &mut Descent<ROOM>,
) -> bool
    requires { Stands (T.plan tree.now) descent.old.path }
    ensures path { descent.new.path ≡ descent.old.path }
    ensures number { descent.new.number ≡ descent.old.number }
    ensures beyond { descent.new.beyond ≡ descent.old.beyond }
    ensures asks { result ≡ true → (asks ≡ AtBeginnings) × (free_moves descent.new < free_moves descent.old) }
    ensures nearer { free_moves descent.new ≤ free_moves descent.old }
{
    match asks {
        Asks::AtBeginnings if !descent.asked => {
            descent.asked = true;
            descent.number < end_number(tree, descent.path.as_slice())
        }
        Asks::AtBeginnings | Asks::Never => false,
    }
}

/// Makes one trial: takes the number if it fits, and otherwise goes on to the next one.
fn try_number<T: Tree<ROOM>, const ROOM: usize>(tree: &T, descent: &mut Descent<ROOM>)
    requires opened { IsOpen (T.plan tree.now) descent.old.path }
    requires tried { descent.old.number < (T.plan tree.now).stop descent.old.path }
    ensures stands { Stands (T.plan tree.now) descent.new.path }
    ensures goes_on { ahead (T.plan tree.now) descent.old.path descent.old.number
        ≡ Tried ((T.plan tree.now).beyond descent.old.path descent.old.number)
        ∷ ahead (T.plan tree.now) descent.new.path descent.new.number }
    ensures beyond { descent.new.beyond
        ≡ lower descent.old.beyond ((T.plan tree.now).beyond descent.old.path descent.old.number) }
    ensures nearer { free_moves descent.new < free_moves descent.old + 4 }
{
    let number = descent.number as u16;
    descent.beyond = lower_of(descent.beyond, tree.beyond(descent.path.as_slice(), number));
    if tree.admits(&descent.path, number) {
        descent.path.push(number);
        descent.number = first_number(tree, descent.path.as_slice());
        descent.asked = false;
    } else {
        descent.number += 1;
    }
}

/// Takes the last number from a path below which nothing is left, and goes on to the next one; false if the path is
/// empty.
fn go_back<T: Tree<ROOM>, const ROOM: usize>(tree: &T, descent: &mut Descent<ROOM>) -> bool
    requires stood { Stands (T.plan tree.now) descent.old.path }
    requires spent { IsSpent (T.plan tree.now) descent.old.path descent.old.number }
    ensures stands { Stands (T.plan tree.now) descent.new.path }
    ensures same { ahead (T.plan tree.now) descent.new.path descent.new.number
        ≡ ahead (T.plan tree.now) descent.old.path descent.old.number }
    ensures beyond { descent.new.beyond ≡ descent.old.beyond }
    ensures shorter { result ≡ true → free_moves descent.new < free_moves descent.old }
    ensures nearer { free_moves descent.new ≤ free_moves descent.old }
    ensures ended { result ≡ false → ahead (T.plan tree.now) descent.new.path descent.new.number ≡ [] }
{
    match descent.path.pop() {
        Some(number) => {
            descent.number = number as usize + 1;
            descent.asked = false;
            true
        }
        None => false,
    }
}

/// Goes on to the next beginning about which the caller is to be asked, if it wants to be, or to the next whole path.
/// The descent then has it, unless the budget or the search ends before it.
pub fn advance<T: Tree<ROOM>, const ROOM: usize>(
    tree: &T,
    asks: Asks,
    descent: &mut Descent<ROOM>,
    budget: &mut Budget,
) -> Result<Progress, Stopped>
    requires { Stands (T.plan tree.now) descent.old.path }
    ensures stands { Stands (T.plan tree.now) descent.new.path }
    ensures answer { let before = hits (ahead (T.plan tree.now) descent.old.path descent.old.number) in
        let ahead = ahead (T.plan tree.now) descent.new.path descent.new.number in
        MatchProgress result
        ((hits ahead ≡ before) × (asks ≡ AtBeginnings)
        × (way budget.new (free_moves descent.new) < way budget.old (free_moves descent.old)))
        ((before ≡ descent.new.path ∷ hits ahead)
        × (length descent.new.path ≡ (T.plan tree.now).places))
        ((before ≡ []) × (ahead ≡ []))
        ((hits ahead ≡ before) × (budget.new.used ≡ budget.new.limit) × (0 < trials ahead)) }
    ensures steps { budget.new.used + trials (ahead (T.plan tree.now) descent.new.path descent.new.number)
        ≡ budget.old.used + trials (ahead (T.plan tree.now) descent.old.path descent.old.number) }
    ensures beyond { lower descent.new.beyond
        (lowest (ahead (T.plan tree.now) descent.new.path descent.new.number))
        ≡ lower descent.old.beyond (lowest (ahead (T.plan tree.now) descent.old.path descent.old.number)) }
    ensures spends { Spends budget.old budget.new }
{
    loop {
        if comes_to_ask(tree, asks, descent) {
            return Ok(Progress::Beginning);
        }
        if descent.path.len() == tree.places() {
            if descent.number == 0 {
                descent.number = 1;
                return Ok(Progress::Whole);
            }
        } else if descent.number < tree.stop(descent.path.as_slice()) {
            if budget.used == budget.limit {
                descent.asked = false;
                return Err(Stopped);
            }
            budget.used += 1;
            try_number(tree, descent);
            continue;
        }
        if !go_back(tree, descent) {
            return Ok(Progress::Over);
        }
    }
}

/// Goes on to the next whole path, which the descent then has, unless the budget or the search ends before it. Nothing
/// is left out.
pub fn climb_on<T: Tree<ROOM>, const ROOM: usize>(
    tree: &T,
    descent: &mut Descent<ROOM>,
    budget: &mut Budget,
) -> Drawn
    requires { Stands (T.plan tree.now) descent.old.path }
    ensures stands { Stands (T.plan tree.now) descent.new.path }
    ensures answer { MatchDrawn result
        ((hits (ahead (T.plan tree.now) descent.old.path descent.old.number)
        ≡ descent.new.path ∷ hits (ahead (T.plan tree.now) descent.new.path descent.new.number))
        × (length descent.new.path ≡ (T.plan tree.now).places))
        ((hits (ahead (T.plan tree.now) descent.old.path descent.old.number) ≡ [])
        × (ahead (T.plan tree.now) descent.new.path descent.new.number ≡ []))
        ((hits (ahead (T.plan tree.now) descent.new.path descent.new.number)
        ≡ hits (ahead (T.plan tree.now) descent.old.path descent.old.number))
        × (budget.new.used ≡ budget.new.limit)
        × (0 < trials (ahead (T.plan tree.now) descent.new.path descent.new.number))) }
    ensures steps { budget.new.used + trials (ahead (T.plan tree.now) descent.new.path descent.new.number)
        ≡ budget.old.used + trials (ahead (T.plan tree.now) descent.old.path descent.old.number) }
    ensures beyond { lower descent.new.beyond
        (lowest (ahead (T.plan tree.now) descent.new.path descent.new.number))
        ≡ lower descent.old.beyond (lowest (ahead (T.plan tree.now) descent.old.path descent.old.number)) }
    ensures spends { Spends budget.old budget.new }
{
    match advance(tree, Asks::Never, descent, budget)? {
        Progress::Whole => Ok(true),
        Progress::Over => Ok(false),
        Progress::Beginning => unreachable!(),
    }
}
