// Laws of every accepted report.
ghost use Rattle.std.specs.Prelude.{◌≡◌, ℕ, List, Ok};
ghost use Rattle.trf16_report.specs.Sheet.{Sheet};
ghost use Rattle.trf16_report.specs.StartRanks.{HasOwnStarts};
ghost use Rattle.trf16_report.specs.Summed.{IsButForPoints, verdict_unsummed};
ghost use Rattle.trf16_report.specs.Verdict.{verdict};
ghost use Rattle.trf16_report.specs.Meetings.{AnswerEachOther, HavePoints};

/// The verdict on a text whose points fields are not compared is the verdict without its last rule: if the two differ,
/// the verdict is that some points field is no sum.
pub fn points_are_the_last_rule()
    ensures { (bytes : List ℕ) → (bye : ℕ) → IsButForPoints (verdict bytes bye) (verdict_unsummed bytes bye) }
{}

/// In an accepted report no two players have one start rank, each start rank is from 1 to 9999, and a total of rounds
/// is at most `MOST_ROUNDS`.
pub fn start_ranks_are_own()
    ensures { (bytes : List ℕ) (bye : ℕ) (sheet : Sheet) → verdict bytes bye ≡ Ok sheet → HasOwnStarts sheet }
{}

/// A report keeps what the pairing-allocated bye gives in it: the value by which it was read.
pub fn bye_is_kept()
    ensures { (bytes : List ℕ) (bye : ℕ) (sheet : Sheet) → verdict bytes bye ≡ Ok sheet → sheet.bye ≡ bye }
{}

/// In an accepted report whoever names an opponent in a round is answered by that opponent: with opposite colours
/// unless both results are forfeits, results of one class, and together at most 2 half points.
pub fn opponents_answer_each_other()
    ensures { (bytes : List ℕ) (bye : ℕ) (sheet : Sheet) → verdict bytes bye ≡ Ok sheet → AnswerEachOther sheet }
{}

/// In an accepted report each points field that is not blank is one of the two sums of the player's points; if there is
/// a line `XXS`, it may be any value under 100 points.
pub fn points_are_sums()
    ensures { (bytes : List ℕ) (bye : ℕ) (sheet : Sheet) → verdict bytes bye ≡ Ok sheet → HavePoints sheet }
{}
