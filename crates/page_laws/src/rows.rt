// Laws of the rows of the page's tables.
ghost use Rattle.std.specs.Prelude.{◌≡◌, ℕ, List, length};
ghost use Rattle.page_laws.specs.Rows.{numbered, rows_in};
ghost use Rattle.sheets.specs.Rounds.{board_row, board_rows};
ghost use Rattle.sheets.specs.StandingsParts.{standings_row, standings_rows};
ghost use Rattle.tables.specs.Prelude.{RowFacts};
ghost use Rattle.tables.specs.declared.key.Key.{Key};
ghost use Rattle.trf16_report.specs.Prelude.{Sheet};

/// The rows of a round's boards are one row for each board, in the order of the boards, with their numbers from 1 on.
#[tactic(auto, using(crate::proofs::RowLemmas::rows_of_boards, crate::proofs::RowLemmas::as_many_boards))]
pub fn each_board_has_one_row()
    ensures rows { (sheet : Sheet) (round : ℕ) (boards : List (ℕ × ℕ))
        → rows_in (board_rows sheet round boards) ≡ numbered (board_row sheet round) 1 boards }
    ensures as_many { (sheet : Sheet) (round : ℕ) (boards : List (ℕ × ℕ))
        → length (rows_in (board_rows sheet round boards)) ≡ length boards }
{}

/// The rows of the standings are one row for each player of them, in their order, with their places from 1 on.
#[tactic(auto, using(crate::proofs::RowLemmas::rows_of_standings, crate::proofs::RowLemmas::as_many_places))]
pub fn each_place_has_one_row()
    ensures rows { (sheet : Sheet) (keys : List Key) (rows : List RowFacts)
        → rows_in (standings_rows sheet keys rows) ≡ numbered (standings_row sheet keys) 1 rows }
    ensures as_many { (sheet : Sheet) (keys : List Key) (rows : List RowFacts)
        → length (rows_in (standings_rows sheet keys rows)) ≡ length rows }
{}
