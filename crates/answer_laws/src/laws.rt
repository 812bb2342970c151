// Laws on what is told to a player who asks for another opponent, or for the bye: it is asked where the two could meet,
// and each reason is true. And one on what the boards of the report are compared with.
ghost use Rattle.std.specs.Prelude.{◌≡◌, ◌<◌, ℕ, true, List, Ok, Option, Some, is_some, length, map};
ghost use Rattle.dutch_player.specs.Prelude.{Facts, facts_of};
ghost use Rattle.trf16_report.specs.Prelude.{HasOwnStarts, Sheet};
ghost use Rattle.trf16_report.specs.declared.cell.Colour.{Colour};
ghost use Rattle.dutch_rounds.specs.Prelude.{above_lower, boards, IsStage, IsInstead, Pairing, own_pairs, round, visit};
ghost use Rattle.dutch_rounds.specs.declared.instead.Instead.TheVariants.{FewerMovedDown, NoneEligible, NoneLegal};
ghost use Rattle.dutch_rounds.specs.Stage.{Stage};
ghost use Rattle.dutch_candidates.specs.declared.wish.Wish.{Wish};
ghost use Rattle.command_line.specs.InsteadAnswers.{decided_in, IsRival, shared_in};
ghost use Rattle.command_line.specs.OtherBoards.{boards_paired};
ghost use Rattle.command_line.specs.declared.instead.Rival.{Rival};
ghost use Rattle.pairing_laws.specs.SharedBrackets.{ArePaired};
ghost use Rattle.answer_laws.specs.InsteadLaws.{IsDecidedIn, NoneCanBeChosen, NoneWithAsManyMovedDown};
ghost use Rattle.answer_laws.specs.InsteadLaws.{NoneWithAsManyPairs, StandsAgainstBye, StandsAgainstMeeting};
ghost use Rattle.player_lines.specs.Obstacles.{against_bye, against_meeting};
ghost use Rattle.player_lines.specs.declared.obstacle.Obstacle.{Obstacle};

/// What is told against a meeting of two players stands: they have played in that round, and in none before it (C.1); a
/// line `XXP` names both; or both have absolute preferences for one colour, and neither is a topscorer (C.3).
#[tactic(auto, using(crate::proofs::ObstacleTruth::stands_against_meeting))]
pub fn what_is_told_against_a_meeting_stands()
    ensures { (sheet : Sheet) (facts : Facts) (one other : ℕ) (obstacle : Obstacle)
        → against_meeting sheet facts one other ≡ Some obstacle
        → StandsAgainstMeeting sheet facts one other obstacle }
{}

/// What is told against the bye of a player of a report stands: they may not have it, since they had the bye, or a
/// point without a game, in that round, and in none before it (C.2); or nobody has it.
#[tactic(auto, using(crate::proofs::ByeTruth::stands_against_bye))]
pub fn what_is_told_against_a_bye_stands()
    ensures { (sheet : Sheet) (total : Option ℕ) (initial : Option Colour) (facts : Facts) (bye : List ℕ) (seat : ℕ)
        (obstacle : Obstacle) → HasOwnStarts sheet → facts_of sheet total initial ≡ Ok facts
        → seat < length facts.seats → against_bye sheet facts bye seat ≡ Some obstacle
        → StandsAgainstBye sheet facts bye seat obstacle }
{}

/// In the brackets of a round that is paired it is decided on each two present players in the first bracket that keeps
/// its pairs in which both stand: the wish is that they meet there. Where there is none, it is decided in the first of
/// the last brackets of the two, while each of them stands in it or in one behind it: the wish is that the one whose
/// last it is goes down. On a player who asks for the bye it is decided in their own last bracket: the wish is that
/// they are left over in it.
#[tactic(auto, using(crate::proofs::DecidedLemmas::is_decided_somewhere, crate::proofs::DecidedLemmas::is_decided_first))]
pub fn it_is_decided_where_two_could_meet()
    ensures somewhere { (facts : Facts) (pairing : Pairing) (stages : List Stage) (player : ℕ) (rival : Rival)
        → (round facts).pairing ≡ Some pairing → map visit stages ≡ (round facts).reached
        → player < length facts.seats → IsRival facts rival → is_some (decided_in stages player rival) ≡ true }
    ensures first { (facts : Facts) (pairing : Pairing) (stages : List Stage) (player : ℕ) (rival : Rival) (stage : Stage)
        (wish : Wish) → (round facts).pairing ≡ Some pairing → map visit stages ≡ (round facts).reached
        → player < length facts.seats → IsRival facts rival
        → decided_in stages player rival ≡ Some (stage, wish) → IsDecidedIn stages player rival stage wish }
{}

/// In the brackets of a round that is paired two players who stand in one that keeps its pairs are paired in the first
/// such bracket, or in none (A.9, B.2): so the one wish that they meet there is enough.
#[tactic(auto, using(crate::proofs::DecidedLemmas::there_or_nowhere))]
pub fn two_who_share_a_bracket_meet_there_or_nowhere()
    ensures { (facts : Facts) (pairing : Pairing) (stages : List Stage) (player other : ℕ) (stage : Stage)
        → (round facts).pairing ≡ Some pairing → map visit stages ≡ (round facts).reached
        → shared_in stages player other ≡ Some stage → ArePaired player other pairing.pairs
        → ArePaired player other (own_pairs stage) }
{}

/// Where C.4 is told, a legal candidate grants the wish with as many pairs as the bracket has to make, and no fewer
/// moved-down players in them; but none of these that can be chosen does.
#[tactic(auto, using(crate::proofs::ReasonLemmas::none_can_be_chosen))]
pub fn where_c4_is_told_none_can_be_chosen()
    ensures { (facts : Facts) (stage : Stage) (wish : Wish) (limit : ℕ) → IsStage facts stage
        → IsInstead (above_lower facts stage.reached) stage.shape wish limit NoneEligible
        → NoneCanBeChosen facts stage wish }
{}

/// Where B.1 is told, a legal candidate grants the wish with as many pairs as the bracket has to make, and fewer
/// moved-down players in them; but none with as many of these does.
#[tactic(auto, using(crate::proofs::ReasonLemmas::none_with_as_many_moved_down))]
pub fn where_b1_is_told_fewer_moved_down_would_be_paired()
    ensures { (facts : Facts) (stage : Stage) (wish : Wish) (limit : ℕ) → IsStage facts stage
        → IsInstead (above_lower facts stage.reached) stage.shape wish limit FewerMovedDown
        → NoneWithAsManyMovedDown facts stage wish }
{}

/// Where C.5 is told, no legal candidate grants the wish with as many pairs as the bracket has to make, whatever
/// moved-down players are in them.
#[tactic(auto, using(crate::proofs::ReasonLemmas::none_with_as_many_pairs))]
pub fn where_c5_is_told_none_has_as_many_pairs()
    ensures { (facts : Facts) (stage : Stage) (wish : Wish) (limit : ℕ) → IsStage facts stage
        → IsInstead (above_lower facts stage.reached) stage.shape wish limit NoneLegal
        → NoneWithAsManyPairs facts stage wish }
{}

/// The boards that those of the report are compared with are the boards of the round's pairing: what `pair` gives.
#[tactic(auto, using(crate::proofs::PairedBoards::boards_are_of_pair))]
pub fn the_report_is_compared_with_what_pair_gives()
    ensures { (facts : Facts) (pairing : Pairing) (stages : List Stage)
        → (round facts).pairing ≡ Some pairing → map visit stages ≡ (round facts).reached
        → boards_paired facts stages pairing.bye ≡ boards facts pairing }
{}
