// The definitions of a round, tried on rounds that can be followed by hand.
ghost use Rattle.std.specs.Prelude.{◌≡◌, [], ◌∷◌, Some, None, true};
ghost use Rattle.dutch_bracket.specs.Prelude.{is_better, candidates_of, quality_of};
ghost use Rattle.pairing_laws.specs.Examples as examples;

/// The boards of a few rounds, white before black, and 0 for the bye.
#[tactic(auto, unfolding(crate::specs::Examples::boards_of))]
pub fn rounds_by_hand()
    ensures five_players { examples.boards_of examples.five_players ≡ Some ((1, 3) ∷ (4, 2) ∷ (5, 0) ∷ []) }
    ensures leader_moves_down { examples.boards_of examples.leader_moves_down ≡ Some ((2, 1) ∷ (3, 4) ∷ []) }
    ensures pair_given_up { examples.boards_of examples.pair_given_up ≡ Some ((1, 3) ∷ (4, 2) ∷ []) }
    ensures all_met { examples.boards_of examples.all_met ≡ None }
    ensures topscorers_meet { examples.boards_of (examples.two_leaders 3) ≡ Some ((2, 1) ∷ (6, 3) ∷ (4, 5) ∷ []) }
    ensures leaders_do_not { examples.boards_of (examples.two_leaders 4) ≡ Some ((4, 1) ∷ (5, 2) ∷ (6, 3) ∷ []) }
    ensures forfeit_winner { examples.boards_of examples.forfeit_winner ≡ Some ((3, 1) ∷ (2, 0) ∷ []) }
{}

/// How many pairs their brackets make: the first of the two that give up a pair is paired again, and then all in one
/// bracket.
#[tactic(auto, unfolding(crate::specs::Examples::boards_of))]
pub fn brackets_by_hand()
    ensures one_bracket { examples.pairs_reached examples.five_players ≡ 2 ∷ [] }
    ensures moves_down { examples.pairs_reached examples.leader_moves_down ≡ 0 ∷ 1 ∷ 1 ∷ [] }
    ensures paired_again { examples.pairs_reached examples.pair_given_up ≡ 1 ∷ 0 ∷ 2 ∷ [] }
    ensures none { examples.pairs_reached examples.all_met ≡ [] }
{}

/// The two candidates of the bracket into which the leader moves down, and their qualities item by item: the second
/// misses one preference, a strong one.
#[tactic(auto, unfolding(crate::specs::Examples::boards_of))]
pub fn qualities_by_hand()
    ensures candidates { candidates_of examples.leader_moves_down examples.leader_above_two
        (record { pairs = 1; mdps = 1 })
        ≡ examples.leader_meets 2 ∷ examples.leader_meets 3 ∷ [] }
    ensures first { quality_of examples.leader_moves_down examples.leader_above_two (3 ∷ [])
        (examples.leader_meets 2) ≡ examples.leader_quality 0 }
    ensures second { quality_of examples.leader_moves_down examples.leader_above_two (3 ∷ [])
        (examples.leader_meets 3) ≡ examples.leader_quality 1 }
    ensures better { is_better (examples.leader_quality 0) (examples.leader_quality 1) ≡ true }
{}
