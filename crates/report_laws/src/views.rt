// Laws of a report as it stood before a round.
ghost use Rattle.std.specs.Prelude.{◌≡◌, ◌+◌, ◌<◌, ◌≤◌, ℕ, IfSome, IsPermutation, List, Ok, Option, Some, length};
ghost use Rattle.dutch_player.specs.Prelude.{Facts, facts_of, start_ranks};
ghost use Rattle.report_laws.specs.Boards.{NameAllPresent};
ghost use Rattle.report_laws.specs.Fields.{GivesFacts, GivesFieldOf};
ghost use Rattle.trf16_report.specs.Prelude.{CanBePaired, HasOwnStarts, Sheet, before_round, named_by, rounds_played, verdict};
ghost use Rattle.trf16_report.specs.Prelude.{with_round, written};
ghost use Rattle.trf16_report.specs.declared.cell.Colour.{Colour};
ghost use Rattle.trf16_report.specs.declared.limits.TheConstants.{MOST_BYTES, MOST_ROUNDS};

/// Put boards into a report as its next round that name each present player, and nobody else, and view it before that
/// round: its next round is paired from the same as that of the report. The same players are present, with the same
/// scores, floats, colours and opponents, the same ones are kept apart, and the total of rounds and the initial colour
/// are the same. If no further round can be paired, the reason is the same.
pub fn a_paired_round_has_its_field_back()
    ensures { (report : Sheet) (boards : List (ℕ × ℕ)) → HasOwnStarts report → CanBePaired boards report
        → NameAllPresent boards report → 0 < length boards
        → GivesFieldOf (before_round (with_round boards report) (rounds_played report + 1)) report }
{}

/// Put boards into an accepted report as its next round that name each player of its facts once, and nobody else, and
/// view it before that round: its next round is paired from the very same facts, at the same total of rounds and
/// initial colour. The boards of a round are such boards (`everybody_is_named_once` of `pairing_laws`). A total that is
/// asked for is at most `MOST_ROUNDS`.
pub fn the_round_is_asked_back()
    ensures { (bytes : List ℕ) (bye : ℕ) (sheet : Sheet) (asked : Option ℕ) (initial : Option Colour) (facts : Facts)
        (boards : List (ℕ × ℕ))
        → verdict bytes bye ≡ Ok sheet → IfSome asked (λ total. total ≤ MOST_ROUNDS)
        → facts_of sheet asked initial ≡ Ok facts → IsPermutation (start_ranks facts) (named_by boards)
        → 0 < length boards
        → GivesFacts (before_round (with_round boards sheet) (rounds_played sheet + 1)) asked initial facts }
{}

/// The next round of a report as it stood before a round is that round.
pub fn the_next_round_is_the_one_asked_for()
    ensures { (report view : Sheet) (round : ℕ) → before_round report round ≡ Some view
        → rounds_played view + 1 ≡ round }
{}

/// The canonical text of a report that was read, as it stood before one of its rounds, reads back as that, by what the
/// pairing-allocated bye gives in the report, unless it is too long.
pub fn a_view_is_accepted()
    ensures { (bytes : List ℕ) (bye : ℕ) (report view : Sheet) (round : ℕ) → bye ≤ 2 → verdict bytes bye ≡ Ok report
        → before_round report round ≡ Some view → length (written view) ≤ MOST_BYTES
        → verdict (written view) report.bye ≡ Ok view }
{}

/// A report as it stood before a round, and that as it stood before an earlier one, is the report as it stood before
/// the earlier one.
pub fn a_view_of_a_view_is_a_view()
    ensures { (report view : Sheet) (round earlier : ℕ) → before_round report round ≡ Some view → earlier ≤ round
        → before_round view earlier ≡ before_round report earlier }
{}
