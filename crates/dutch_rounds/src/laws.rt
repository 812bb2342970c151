// A law of the boards of a round, which the program relies on where it puts them into the report. Laws for readers
// stand in `pairing_laws`.
ghost use Rattle.std.specs.Prelude.{◌≡◌, ◌≤◌, ℕ, IfSome, Ok, Option, Some};
ghost use Rattle.trf16_report.specs.declared.limits.TheConstants.{MOST_ROUNDS};
ghost use Rattle.trf16_report.specs.Prelude.{CanBePaired, HasOwnStarts, Sheet};
ghost use Rattle.trf16_report.specs.declared.cell.Colour.{Colour};
ghost use Rattle.dutch_player.specs.Prelude.{Facts, facts_of};
ghost use Rattle.dutch_rounds.specs.Boards.{boards};
ghost use Rattle.dutch_rounds.specs.Round.{Pairing, round};

/// The boards that are paired from an accepted report can be its next round, if a total of rounds that is asked for is
/// within the limit. Of the report it is enough that its start ranks are each a player's own.
pub fn boards_can_be_the_next_round()
    ensures { (sheet : Sheet) (asked : Option ℕ) (initial : Option Colour) (facts : Facts) (pairing : Pairing)
        → HasOwnStarts sheet → IfSome asked (λ total. total ≤ MOST_ROUNDS)
        → facts_of sheet asked initial ≡ Ok facts → (round facts).pairing ≡ Some pairing
        → CanBePaired (boards facts pairing) sheet }
{}
