// Laws of the boards of a round: as they stand in an accepted report, and as it is paired.
ghost use Rattle.std.specs.Prelude.{◌≡◌, ◌+◌, ◌<◌, ◌≤◌, ℕ, IfSome, List, Ok, Option, Some};
ghost use Rattle.trf16_report.specs.Prelude.{HasOwnStarts, Sheet, rounds_played, verdict, with_round};
ghost use Rattle.trf16_report.specs.declared.cell.Colour.{Colour};
ghost use Rattle.trf16_report.specs.declared.limits.TheConstants.{MOST_ROUNDS};
ghost use Rattle.dutch_player.specs.Prelude.{Facts, facts_of};
ghost use Rattle.dutch_rounds.specs.Prelude.{Pairing, boards, round};
ghost use Rattle.tables.specs.Prelude.{boards_of};
ghost use Rattle.report_laws.specs.EachOnOne.{EachOnOne};

/// In an accepted report each two players who name each other in a round stand on exactly one board of it, whoever has
/// the pairing-allocated bye stands on exactly one, and nobody else stands on any.
#[tactic(auto, using(crate::proofs::HostLemmas::each_on_one))]
pub fn all_who_play_stand_on_one_board()
    ensures { (bytes : List ℕ) (bye : ℕ) (sheet : Sheet) (round : ℕ) → verdict bytes bye ≡ Ok sheet → 0 < round
        → EachOnOne sheet round (boards_of sheet round) }
{}

/// The boards of an accepted report's next round, once they are put into the report, are those of that round as they
/// stand in it, in the same order, if a total of rounds that is asked for is within the limit. Of the report it is
/// enough that its start ranks are each a player's own.
#[tactic(auto, using(crate::proofs::PairedBoards::paired_boards))]
pub fn boards_of_a_paired_round_stand_in_the_report()
    ensures { (sheet : Sheet) (asked : Option ℕ) (initial : Option Colour) (facts : Facts) (pairing : Pairing)
        → HasOwnStarts sheet → IfSome asked (λ total. total ≤ MOST_ROUNDS)
        → facts_of sheet asked initial ≡ Ok facts → (round facts).pairing ≡ Some pairing
        → boards_of (with_round (boards facts pairing) sheet) (rounds_played sheet + 1) ≡ boards facts pairing }
{}
