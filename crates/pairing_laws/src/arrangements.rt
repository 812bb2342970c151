// Laws of the orders of choices, of arrangements and of cursors (C.04.3 B.2, B.3, D).
ghost use Rattle.std.specs.Prelude.{◌≡◌, ◌≤◌, ◌↔◌, ℕ, Bool, List, true, false, ◌++◌, length, Ok, Err};
ghost use Rattle.std.specs.Cmp.{IsTotalOrder};
ghost use Rattle.std.specs.declared.cmp.Ordering.TheVariants.{Equal};
ghost use Rattle.std.specs.List.Sorted.{IsStrictlyIncreasing};
ghost use Rattle.dutch_arrangements.specs.Prelude as orders;
ghost use Rattle.dutch_arrangements.specs.declared.bracket.Shape.{Shape};
ghost use Rattle.dutch_arrangements.specs.declared.cursor.CursorFault.TheVariants.{Syntax};

/// Each order of choices is a total order (D.1, D.2, D.3).
pub fn orders_are_total()
    ensures tuples { IsTotalOrder orders.lower_first }
    ensures exchanges { (pool : List ℕ) (k : ℕ) → IsTotalOrder (orders.exchange_cmp pool k) }
    ensures limbo_exchanges { (scores : List ℕ) → IsTotalOrder (orders.limbo_cmp scores) }
{}

/// Of two different choices one goes before the other: those that an order leaves level are the same choice.
pub fn different_choices_are_not_level()
    ensures tuples { (a b : List ℕ) → orders.lower_first a b ≡ Equal → a ≡ b }
    ensures exchanges { (pool : List ℕ) (k : ℕ) (a b : List ℕ) → IsStrictlyIncreasing pool → k ≤ length pool
        → orders.IsIn a (orders.subsets pool k) → orders.IsIn b (orders.subsets pool k)
        → orders.exchange_cmp pool k a b ≡ Equal → a ≡ b }
    ensures limbo_exchanges { (scores a b : List ℕ) → orders.limbo_cmp scores a b ≡ Equal → a ≡ b }
{}

/// Each list of choices ascends in its order: each choice goes before all later ones.
pub fn choices_ascend()
    ensures tuples { (pool : List ℕ) (k : ℕ) → IsStrictlyIncreasing pool
        → orders.Ascends orders.lower_first (orders.all_tuples pool k) }
    ensures transpositions { (meets : ℕ → ℕ → Bool) (first pool : List ℕ) → IsStrictlyIncreasing pool
        → orders.Ascends orders.lower_first (orders.transpositions meets first pool) }
    ensures exchanges { (pool : List ℕ) (k : ℕ) → IsStrictlyIncreasing pool → k ≤ length pool
        → orders.Ascends (orders.exchange_cmp pool k) (orders.exchanges pool k) }
    ensures limbo_exchanges { (scores : List ℕ) (k : ℕ)
        → orders.Ascends (orders.limbo_cmp scores) (orders.limbo_exchanges scores k) }
{}

/// Each list of choices has exactly the members of the plain list of tuples or subsets: of tuples those whose players
/// may meet.
pub fn choices_are_all()
    ensures tuples { (pool : List ℕ) (k : ℕ) (tuple : List ℕ) → orders.IsIn tuple (orders.all_tuples pool k)
        ↔ orders.IsIn tuple (orders.tuples pool k) }
    ensures transpositions { (meets : ℕ → ℕ → Bool) (first pool tuple : List ℕ)
        → orders.IsIn tuple (orders.transpositions meets first pool)
        ↔ (orders.IsIn tuple (orders.tuples pool (length first)) × (orders.all_meet meets first tuple ≡ true)) }
    ensures exchanges { (pool : List ℕ) (k : ℕ) (set : List ℕ) → orders.IsIn set (orders.exchanges pool k)
        ↔ orders.IsIn set (orders.subsets pool k) }
    ensures limbo_exchanges { (scores : List ℕ) (k : ℕ) (set : List ℕ)
        → orders.IsIn set (orders.limbo_exchanges scores k)
        ↔ orders.IsIn set (orders.subsets (orders.numbers_from 1 (length scores)) k) }
{}

/// In every exchange the sum of what is moved in is at least the sum of what is moved out, so the difference of the two
/// sums loses nothing (D.2).
pub fn exchanges_lower_no_sum()
    ensures { (pool : List ℕ) (k : ℕ) (set : List ℕ) → IsStrictlyIncreasing pool
        → orders.IsIn set (orders.subsets pool k)
        → orders.sum_of (orders.moved_out pool k set) ≤ orders.sum_of (orders.moved_in pool k set) }
{}

/// Each arrangement of a bracket and shape comes once, and none stands behind itself; so each candidate comes once: of
/// all of them, of those behind an arrangement, and of what is still to come of either.
pub fn each_arrangement_comes_once()
    ensures arrangements { (frame : orders.Frame) (shape : Shape)
        → orders.HasEachOnce (orders.arrangements frame shape) }
    ensures behind { (frame : orders.Frame) (shape : Shape) (a : orders.Arrangement)
        → ¬ orders.IsIn a (orders.behind a (orders.arrangements frame shape)) }
    ensures candidates { (meets : ℕ → ℕ → Bool) (may_be_left : ℕ → Bool) (frame : orders.Frame) (shape : Shape)
        (passed coming : List orders.Arrangement)
        → orders.candidates meets may_be_left frame shape ≡ passed ++ coming → orders.HasEachOnce coming }
    ensures rest { (meets : ℕ → ℕ → Bool) (may_be_left : ℕ
        → Bool) (frame : orders.Frame) (shape : Shape) (a : orders.Arrangement)
        (passed coming : List orders.Arrangement)
        → orders.rest meets may_be_left frame shape a ≡ passed ++ coming → orders.HasEachOnce coming }
{}

/// The arrangements whose lists are of a bracket and shape are those that article D puts in order.
pub fn arrangements_are_of()
    ensures { (frame : orders.Frame) (shape : Shape) (a : orders.Arrangement) → orders.IsBracket frame.scores frame.mdps
        → orders.is_of frame shape a ≡ true ↔ orders.IsIn a (orders.arrangements frame shape) }
{}

/// A text is read as an arrangement exactly if this is one of the bracket and shape and the text is what printing gives
/// of it.
pub fn read_is_print()
    ensures { (frame : orders.Frame) (shape : Shape) (bytes : List ℕ) (a : orders.Arrangement)
        → orders.IsBracket frame.scores frame.mdps
        → orders.cursor_of frame shape bytes ≡ Ok a
        ↔ (orders.IsIn a (orders.arrangements frame shape) × (bytes ≡ orders.cursor_text a)) }
{}

/// `Syntax` is answered of exactly the texts that do not have the form of a cursor, of whatever bracket.
pub fn syntax_is_told()
    ensures { (frame : orders.Frame) (shape : Shape) (bytes : List ℕ) → orders.cursor_of frame shape bytes ≡ Err Syntax
        ↔ orders.has_syntax bytes ≡ false }
{}
